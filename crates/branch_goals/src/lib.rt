//! What goals ask of a branch: the variable that a labelling takes, and what a built-in goal comes to.
#![tactic(auto)]

mod builtin_findings;
mod builtins;
mod domains;
mod labelling;
mod lists;
mod searches;
mod variable_selection;

pub use crate::builtin_findings::Found;
pub use crate::builtins::find;
pub use crate::labelling::{Labelling, label};
pub use crate::searches::{Sought, seek};
