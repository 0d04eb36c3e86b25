//! What a text is: a program, or refused at a place for a reason.
#![tactic(auto)]

mod judgement;

pub use crate::judgement::{Verdict, judge_text, refused};
