//! The goals of the language as instructions of a machine over code, what an answer shows and what a goal writes.
#![tactic(auto)]

mod answers;
mod best_leaf;
mod builtins;
mod constraints;
mod goal_outcomes;
mod labels;
mod ranges;

pub use crate::answers::{show_answer, show_written};
pub use crate::best_leaf::take_best;
pub use crate::builtins::{take_builtin, take_silent};
pub use crate::constraints::take_constraint;
pub use crate::goal_outcomes::Next;
pub use crate::labels::{Labelled, Tried, ValuesLeft, take_label, try_value};
pub use crate::ranges::take_post;
