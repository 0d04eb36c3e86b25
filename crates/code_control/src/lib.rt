//! Calls, returns, choices and switches: where a machine over code goes next.
#![tactic(auto)]

mod calls;
mod choices;
mod clause_selection;
mod cuts;
mod frames;
mod places;
mod retries;
mod rows;
mod switches;

pub use crate::calls::{call, execute, proceed};
pub use crate::choices::{either, fail_now, go_back, jump};
pub use crate::clause_selection::choose;
pub use crate::cuts::{cut_to, enter_test, level, test_only};
pub use crate::frames::{allocate, deallocate};
pub use crate::retries::try_again;
pub use crate::switches::{
    switch_on_constant, switch_on_integer, switch_on_structure, switch_on_term,
};
