//! The law of places, as the contract of a function that does nothing.

ghost use Rattle.code_flow.specs.Laws.{PlacesDecide};

/// Code is verified by states exactly where each place meets the conditions that belong to it.
pub fn places_decide()
    ensures { PlacesDecide }
{}
