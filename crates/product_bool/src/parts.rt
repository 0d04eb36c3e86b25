//! The parts of what a constraint becomes.

use linear_forms::Linear;
use monotone_check::Checked;

/// Fresh variables with their integers, the next fresh number, ranges behind their targets, and sums that are each at most their
/// constant.
#[derive(Drop)]
pub struct Split {
    pub equated: Vec<(u64, i64)>,
    pub added: u64,
    pub list: Vec<(u64, Checked)>,
    pub sums: Vec<Linear>,
}
