//! The bounds of new variables of the store.

ghost use Rattle.std.specs.Prelude.{◌≡◌, ◌≤◌, ◌-◌, ◌++◌, map, OnOk};
ghost use Rattle.propagate_queue.specs.Instances.{posting};
ghost use Rattle.branch_state.specs.VariableBounds.{bound_postings, new_postings};

use crate::codes::Codes;
use crate::posting::instance;
use fd_language::{INFINITY, NoMemory};
use propagate_queue::Instance;
use range_code::Arg;
use std::alloc::Global;

/// The variables of the store from `first` on are new, and none may have a number beyond `infinity`.
#[derive(Clone, Copy)]
pub(crate) struct NewVars {
    pub first: usize,
    pub infinity: u32,
}

/// Puts the bounds of new variables behind the list, where `vars` is the number of all.
fn add_bounds(
    alloc: Global,
    codes: &Codes,
    made: NewVars,
    vars: usize,
    list: &mut Vec<Instance>,
) -> Result<(), NoMemory>
    ensures { OnOk result (map posting list.new.items ≡ map posting list.old.items
        ++ bound_postings made.infinity made.first (vars - made.first)) }
{
    for k in made.first..vars {
        list.push(instance(alloc, &codes.bound, k, Arg::Int(i64::from(made.infinity)))?)?;
    }
    Ok(())
}

/// The same, unless these may have each number of the universe.
pub(crate) fn add_new_bounds(
    alloc: Global,
    codes: &Codes,
    made: NewVars,
    vars: usize,
    list: &mut Vec<Instance>,
) -> Result<(), NoMemory>
    ensures { OnOk result (map posting list.new.items ≡ map posting list.old.items
        ++ new_postings made.infinity made.first (vars - made.first)) }
{
    if made.infinity == INFINITY {
        return Ok(());
    }
    add_bounds(alloc, codes, made, vars, list)
}
