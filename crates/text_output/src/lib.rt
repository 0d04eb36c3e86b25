//! The output of a text: its refusal, or the lines of its queries, written to a sink.
#![tactic(auto)]

mod fault;
mod output_lines;

pub use crate::fault::Fault;
pub use crate::output_lines::{answer, answer_code, ending, put_last};
