//! Variables that the store has for as long as a search takes.

ghost use Rattle.std.specs.Prelude.{◌≡◌, ◌≤◌, ◌+◌, ◌++◌, false, length, OnOk};
ghost use Rattle.fd_language.specs.declared.TheConstants.{INFINITY};
ghost use Rattle.unify_core.specs.Outcome.{IfTrue, IfFalse};
ghost use Rattle.branch_state.specs.VariableBounds.{new_bounds};
ghost use Rattle.branch_state.specs.States.{HasNoModel};
ghost use Rattle.branch_state.specs.StoreVariables.{with_level_sets};
ghost use Rattle.branch_state.specs.OpenSets.{with_open_sets};

use crate::bounds::{NewVars, add_new_bounds};
use crate::codes::Codes;
use crate::posting::post_list;
use fd_language::NoMemory;
use propagate_queue::{Agenda, Store};
use range_code::Activations;
use std::alloc::Global;

/// Gives the store so many more variables, which may have any value.
fn add_open<A: Agenda + Drop>(store: &mut Store<A>, count: usize) -> Result<(), NoMemory>
    ensures { OnOk result (store.new
        ≡ with_level_sets store.old (with_open_sets count store.old.current.sets)) }
{
    for _ in 0..count {
        store.new_var()?;
    }
    Ok(())
}

/// Gives the store so many more variables, on which their bounds alone are posted. Whether all that is posted has a model.
pub(crate) fn add_bounded<A: Agenda + Drop>(
    alloc: Global,
    store: &mut Store<A>,
    n: &mut Activations,
    codes: &Codes,
    infinity: u32,
    count: usize,
) -> Result<bool, NoMemory>
    requires { infinity ≤ INFINITY }
    ensures posted { OnOk result (store.new.current.posted ≡ store.old.current.posted
        ++ new_bounds infinity (length store.old.current.sets) count) }
    ensures kept { IfTrue result (store.new.current.failed ≡ false) }
    ensures none { IfFalse result (HasNoModel INFINITY store.new.current.posted) }
    ensures vars { OnOk result (length store.new.current.sets
        ≡ length store.old.current.sets + count) }
    ensures below { OnOk result (store.new.below ≡ store.old.below) }
    ensures unspent { OnOk result (store.new.spent ≡ false) }
{
    let made = NewVars {
        first: store.vars(),
        infinity,
    };
    add_open(store, count)?;
    let mut list = Vec::new(alloc);
    add_new_bounds(alloc, codes, made, store.vars(), &mut list)?;
    post_list(store, list, n)
}
