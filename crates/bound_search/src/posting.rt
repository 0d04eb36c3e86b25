//! What is posted for a value, and for a bound.

ghost use Rattle.std.specs.Prelude.{◌≡◌, ◌<◌, [], true, false, length, IfOk, OnOk};
ghost use Rattle.fd_language.specs.declared.TheConstants.{INFINITY};
ghost use Rattle.fd_model.specs.PostedLeaves.{with_value};
ghost use Rattle.fd_model.specs.BranchViews.{IsConsistent};
ghost use Rattle.bound_search.specs.Posting.{IsEnd, between_range, exact_range, with_ends};
ghost use Rattle.bound_search.specs.SearchStates.{IsNode};

use fd_language::{FlatRange, NoMemory, RangeNode};
use monotone_check::Checked;
use propagate_queue::{Agenda, Posted, Store};
use range_code::{Activations, Arg, RangeCode, compile_range};
use std::alloc::Global;
use std::rc::Rc;

/// The code of the range `P..Q`, by which the cost gets a bound.
pub(crate) fn between_code(alloc: Global) -> Result<Rc<RangeCode>, NoMemory>
    ensures { IfOk result (λ code. code.value ≡ between_range) }
{
    let nodes = vec![in alloc; RangeNode::Param(0), RangeNode::Param(1), RangeNode::Span]?;
    let range = FlatRange::from_nodes(nodes).unwrap();
    let checked = Checked::from_accepted(range);
    Ok(Rc::new(alloc, compile_range(alloc, &checked)?)?)
}

/// Posts that the variable is between two numbers. Whether no domain is empty then.
pub(crate) fn post_between<A: Agenda + Drop>(
    between: &Rc<RangeCode>,
    store: &mut Store<A>,
    variable: usize,
    ends: (i64, i64),
    n: &mut Activations,
) -> Result<bool, NoMemory>
    requires between { between.now.value ≡ between_range }
    requires low { IsEnd ends.0 }
    requires high { IsEnd ends.1 }
    requires variable { variable < length store.old.current.sets }
    ensures posted { OnOk result (store.new.current.posted
        ≡ with_ends store.old.current.posted variable ends.0 ends.1) }
    ensures kept { IfOk result (λ kept. kept ≡ true
        → IsNode (length store.old.current.sets) store.new.current) }
    ensures failed { IfOk result (λ kept. kept ≡ false
        → IsConsistent INFINITY INFINITY [] store.new.current.posted → ⊥) }
    ensures below { store.new.below ≡ store.old.below }
    ensures unspent { OnOk result (store.new.spent ≡ false) }
{
    let code = Rc::clone(between)?;
    let args = [Arg::Int(ends.0), Arg::Int(ends.1)];
    let posted = store.post_one(code, variable, &args, n)?;
    store.known();
    match posted {
        Posted::Kept => Ok(true),
        Posted::Failed => Ok(false),
    }
}

/// Posts that the variable has the value. Whether no domain is empty then.
pub(crate) fn post_value<A: Agenda + Drop>(
    exact: &Rc<RangeCode>,
    store: &mut Store<A>,
    variable: usize,
    value: u32,
    n: &mut Activations,
) -> Result<bool, NoMemory>
    requires exact { exact.now.value ≡ exact_range }
    requires variable { variable < length store.old.current.sets }
    ensures posted { OnOk result (store.new.current.posted
        ≡ with_value store.old.current.posted variable value) }
    ensures kept { IfOk result (λ kept. kept ≡ true
        → IsNode (length store.old.current.sets) store.new.current) }
    ensures failed { IfOk result (λ kept. kept ≡ false
        → IsConsistent INFINITY INFINITY [] store.new.current.posted → ⊥) }
    ensures below { store.new.below ≡ store.old.below }
    ensures unspent { OnOk result (store.new.spent ≡ false) }
{
    let code = Rc::clone(exact)?;
    let args = [Arg::Int(i64::from(value))];
    let posted = store.post_one(code, variable, &args, n)?;
    store.known();
    match posted {
        Posted::Kept => Ok(true),
        Posted::Failed => Ok(false),
    }
}
