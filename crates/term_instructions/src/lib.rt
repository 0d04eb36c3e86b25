//! The instructions of a clause's terms, which put cells into registers and make them equal.
#![tactic(auto)]

mod arguments;
mod gets;
mod pairs;
mod puts;
mod read_mode;
mod registers;
mod structures;
mod write_mode;

pub use crate::gets::{get_constant, get_integer, get_value, get_variable};
pub use crate::pairs::get_pair;
pub use crate::puts::{put_constant, put_integer, put_value, put_variable};
pub use crate::structures::{Scratch, get_structure, put_structure};
pub use code_safety::Went;
