//! What is known wherever a place is reached.

/// What is known of a frame's slot.
#[derive(Clone, Copy, Debug)]
pub enum Slot {
    /// Nothing is kept in it yet.
    Unset,
    /// It holds a cell.
    Cell,
    /// It holds a level of the search.
    Level,
}

/// What is known of a place, wherever it is reached from.
#[derive(Drop)]
pub struct PlaceState {
    /// The argument registers that hold a cell.
    pub regs: Vec<usize>,
    /// The frame's slots, where there is a frame.
    pub frame: Option<Vec<Slot>>,
    /// How many arguments of a structure are still owed.
    pub owed: usize,
}
