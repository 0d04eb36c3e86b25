//! The summary of a generated text's run.
#![tactic(auto)]

mod queens;
mod summary;

pub use crate::queens::queens_text;
pub use crate::summary::put_summary;
