//! Code with the states of its places.

ghost use Rattle.std.specs.Prelude.{◌≡◌};
ghost use Rattle.wam_code.specs.VerifiedCode.{IsVerifiedBy};
ghost use Rattle.code_listing.specs.Sheets.{HasOrderedTables, IsListed};
ghost use Rattle.code_listing.specs.States.{states_of};

use crate::states::PlaceState;
use std::marker::Model;
use wam_code::CodeArea;

/// Code with a state of each of its places, by which it is verified. Its tables are in the order of
/// the switches that name them.
#[derive(Drop)]
pub struct Listed {
    area: CodeArea,
    states: Vec<PlaceState>,
}

impl Model for Listed {
    ghost use Rattle.std.specs.Coded.{codes};
    ghost use Rattle.fd_model.specs.Levels.{range_coded};
    ghost use Rattle.code_listing.specs.Sheets.{Listed as Seen, IsListed};
    ghost use Rattle.code_listing.specs.States.{states_of};

    ghost Value = { Seen };

    ghost coded = { Prim.hlevel (codes, range_coded) };

    ghost view = { λ l. record { area = l.area; states = states_of l.states.items } };

    ghost invariant = { λ l. IsListed
        (record { area = l.area; states = states_of l.states.items }) };
}

impl Listed {
    /// The code with these states, by which it is verified.
    pub fn from_verified(area: CodeArea, states: Vec<PlaceState>) -> Listed
        requires verified { IsVerifiedBy area (states_of states.items) }
        requires tables { HasOrderedTables area }
        ensures { result ≡ record { area = area; states = states_of states.items } }
    {
        Listed { area, states }
    }

    /// The code.
    pub fn area(&self) -> &CodeArea
        ensures area { result.now ≡ self.now.area }
        ensures listed { IsListed self.now }
    {
        &self.area
    }

    /// The code alone.
    pub fn into_area(self) -> CodeArea
        ensures { result ≡ self.area }
    {
        self.area
    }

    /// The states, one for each place.
    pub fn states(&self) -> &[PlaceState]
        ensures states { states_of result.now ≡ self.now.states }
        ensures listed { IsListed self.now }
    {
        &self.states
    }
}
