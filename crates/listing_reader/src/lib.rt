//! Reading the listing of code: what a text tells, or the first line with which no listing goes on.
#![tactic(auto)]

mod fault;
mod forms;
mod places;
mod read;
mod read_goals;
mod read_lines;
mod read_nodes;
mod read_operands;
mod read_rows;
mod read_states;
mod read_words;
mod sections;
mod sheet;
mod split;

pub use crate::fault::SheetFault;
pub use crate::read::{one_sheet, read_sheet};
pub use crate::sheet::Sheet;
pub use code_listing::{PlaceState, Slot};
