//! What is asked of each parameter, from left to right.

ghost use Rattle.std.specs.Prelude.{◌≡◌, ℕ, ◌+◌, List, [], ◌∷◌, ◌++◌, length, OnOk};
ghost use Rattle.fd_language.specs.declared.range_node.Need.{Need as Asks};
ghost use Rattle.fd_language.specs.declared.range_node.Need.TheVariants.{Whole, Divisor};
ghost use Rattle.monotone_check.specs.PlaceNeeds.{told, raised};

use fd_language::{Need, NoMemory};
use std::alloc::Global;

/// A place of a parameter. A natural term that ends here asks for at least `Natural` from the number `floor` on.
#[derive(Clone, Copy)]
pub(crate) struct Asked {
    pub variable: u64,
    pub need: Need,
    pub floor: usize,
}

/// The places of parameters so far. A natural term marks its last place alone, so that each step is short.
#[derive(Drop)]
pub(crate) struct Asking {
    pub places: Vec<Asked>,
}

impl Asking {
    /// No places. The allocator gives memory for those to come.
    pub(crate) fn new(alloc: Global) -> Asking
        ensures { result.places.items ≡ [] }
    {
        Asking {
            places: Vec::new(alloc),
        }
    }

    /// The number of places so far.
    pub(crate) fn len(&self) -> usize
        ensures { result ≡ length self.now.places.items }
    {
        self.places.len()
    }

    /// One more place, which asks for any integer.
    pub(crate) fn add(&mut self, variable: u64) -> Result<(), NoMemory>
        ensures { OnOk result (told 0 self.new.places.items ≡ told 0 self.old.places.items ++
            (variable, Whole) ∷ []) }
    {
        let floor = self.len() + 1;
        self.places.push(Asked {
            variable,
            need: Need::Whole,
            floor,
        })?;
        Ok(())
    }

    /// The places from this number on stand in a natural term.
    pub(crate) fn raise_from(&mut self, from: usize)
        ensures { told 0 self.new.places.items ≡ raised from 0 (told 0 self.old.places.items) }
    {
        let count = self.len();
        if from < count {
            let last = &mut self.places[count - 1];
            last.floor = last.floor.min(from);
        }
    }

    /// The last place stands alone as a divisor.
    pub(crate) fn divide(&mut self)
        ensures { (front : List (ℕ × Asks)) (x : ℕ) (n : Asks) → told 0 self.old.places.items
            ≡ front ++ (x, n) ∷ [] → told 0 self.new.places.items ≡ front ++ (x, Divisor) ∷ [] }
    {
        let count = self.len();
        if count > 0 {
            let last = &mut self.places[count - 1];
            last.need = Need::Divisor;
        }
    }
}
