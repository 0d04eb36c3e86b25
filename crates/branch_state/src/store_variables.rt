//! How the variables that a goal `T in R` names get variables of the store.

ghost use Rattle.std.specs.Prelude.{◌≡◌, IfOk, OnOk};
ghost use Rattle.range_code.specs.declared.frame.Arg.TheVariants as arguments;
ghost use Rattle.branch_state.specs.StoreVariables.{CanName, NameStep, IsInteger, with_level_sets};

use crate::cell_looks::Look;
use fd_language::NoMemory;
use heap_cells::Heap;
use propagate_queue::{Agenda, Store};
use range_code::Arg;
use unify_core::Touch;

/// What a goal posts: the variable of its target, the arguments of its range, and fresh variables with their integers.
#[derive(Drop)]
pub(crate) struct Prepared {
    pub target: usize,
    pub args: Vec<Arg>,
    pub fixed: Vec<Touch>,
}

/// The variable of the store of what a range names. An integer has a fresh one.
pub(crate) fn name_look<A: Agenda + Drop>(
    heap: &mut Heap,
    store: &mut Store<A>,
    fixed: &mut Vec<Touch>,
    look: Look,
) -> Result<usize, NoMemory>
    requires { CanName heap.old.now look }
    ensures store { OnOk result (store.new ≡ with_level_sets store.old store.new.current.sets) }
    ensures below { heap.new.below ≡ heap.old.below }
    ensures named { IfOk result (NameStep look heap.old.now store.old.current.sets fixed.old.items
        heap.new.now store.new.current.sets fixed.new.items) }
{
    match look {
        Look::Open(i) => {
            let variable = store.new_var()?;
            heap.constrain(i, variable)?;
            Ok(variable)
        }
        Look::Linked(variable) => Ok(variable),
        Look::Number(value) => {
            let variable = store.new_var()?;
            fixed.push(Touch::Value(variable, value))?;
            Ok(variable)
        }
        Look::Symbol => Ok(0),
    }
}

/// The integer of a look that is one.
pub(crate) fn integer_of(look: Look) -> i64
    ensures { IsInteger look result }
{
    match look {
        Look::Number(value) => value,
        _ => 0,
    }
}

/// An integer as an argument.
pub(crate) fn number_arg(value: i64) -> Arg
    ensures { result ≡ arguments.Int value }
{
    Arg::Int(value)
}
