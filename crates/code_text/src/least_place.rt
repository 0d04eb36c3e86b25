//! The smallest of places that are told.

ghost use Rattle.std.specs.Prelude.{◌≡◌, None};
ghost use Rattle.code_text.specs.FaultPlaces.{IsTold, Tells};

/// The smallest place that was told so far.
#[derive(Drop)]
pub(crate) struct First {
    pub place: Option<usize>,
}

impl First {
    /// None was told.
    pub(crate) fn new() -> First
        ensures { result.place ≡ None }
    {
        First { place: None }
    }

    /// Tells a place.
    pub(crate) fn tell(&mut self, place: usize)
        ensures told { IsTold self.new.place place }
        ensures tells { Tells (λ p. p ≡ place) self.old.place self.new.place }
    {
        match self.place {
            None => self.place = Some(place),
            Some(first) => {
                if place < first {
                    self.place = Some(place);
                }
            }
        }
    }
}
