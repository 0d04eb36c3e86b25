//! Offences, and which of them comes first.

ghost use Rattle.std.specs.Prelude.{◌≡◌, ℕ, ◌<◌, Option};
ghost use Rattle.fd_language.specs.RangeVerdict.{is_before, earlier as earlier_of, offence_place, offence_kind};
ghost use Rattle.fd_language.specs.Check.{Wish, turn};
ghost use Rattle.monotone_check.specs.Wishes.{by_wish};

use fd_language::Offence;

/// The place of the node, and the rank of its kind at equal places.
fn rank(offence: Offence) -> (usize, u8)
    ensures place { result.0 ≡ offence_place offence }
    ensures kind { result.1 ≡ offence_kind offence }
{
    match offence {
        Offence::NotMonotone(place) => (place, 0),
        Offence::NotNatural(place) => (place, 1),
        Offence::BadDivisor(place) => (place, 2),
        Offence::TooWide(place) => (place, 3),
    }
}

fn comes_before(a: Offence, b: Offence) -> bool
    ensures { result ≡ is_before a b }
{
    let (place, kind) = rank(a);
    let (other_place, other_kind) = rank(b);
    place < other_place || place == other_place && kind < other_kind
}

/// The first of two offences: at the smaller place, and at equal places by the order of the kinds.
pub(crate) fn earlier(a: Option<Offence>, b: Option<Offence>) -> Option<Offence>
    ensures { result ≡ earlier_of a b }
{
    match (a, b) {
        (None, _) => b,
        (_, None) => a,
        (Some(first), Some(second)) => {
            if comes_before(second, first) {
                Some(second)
            } else {
                Some(first)
            }
        }
    }
}

/// The first offence in a term for each wish: that it rises, falls or is constant as domains shrink.
#[derive(Clone, Copy)]
pub(crate) struct Wishes {
    pub rising: Option<Offence>,
    pub falling: Option<Offence>,
    pub constant: Option<Offence>,
}

impl Wishes {
    /// The same offence for each wish.
    pub(crate) fn all(offence: Option<Offence>) -> Wishes
        ensures { (w : Wish) → by_wish result w ≡ offence }
    {
        Wishes {
            rising: offence,
            falling: offence,
            constant: offence,
        }
    }

    /// The first of both offences for each wish: this one's and the other's.
    pub(crate) fn and(self, other: Wishes) -> Wishes
        ensures { (w : Wish) → by_wish result w ≡ earlier_of (by_wish self w) (by_wish other w) }
    {
        Wishes {
            rising: earlier(self.rising, other.rising),
            falling: earlier(self.falling, other.falling),
            constant: earlier(self.constant, other.constant),
        }
    }

    /// The offences where the opposite is wished.
    pub(crate) fn turned(self) -> Wishes
        ensures { (w : Wish) → by_wish result w ≡ by_wish self (turn w) }
    {
        Wishes {
            rising: self.falling,
            falling: self.rising,
            constant: self.constant,
        }
    }
}
