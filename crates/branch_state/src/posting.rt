//! What is posted for touches.

ghost use Rattle.std.specs.Prelude.{◌≡◌, ◌<◌, ◌≤◌, ◌-◌, ◌++◌, ◌∷◌, [], false, map, length, All, IfOk, OnOk};
ghost use Rattle.std.specs.List.{list_all};
ghost use Rattle.std.specs.List.Sorted.{IsPermutation};
ghost use Rattle.propagate_queue.specs.Instances.{posting, posting_of, posted_by, IsInstance};
ghost use Rattle.propagate_queue.specs.Postings.{ranged, IsPosting};
ghost use Rattle.unify_core.specs.Outcome.{IfTrue, IfFalse};
ghost use Rattle.fd_language.specs.declared.TheConstants.{INFINITY};
ghost use Rattle.branch_state.specs.VariableBounds.{new_bounds};
ghost use Rattle.range_code.specs.Frames.{IsArgumentFrame};
ghost use Rattle.branch_state.specs.StoreVariables.{goal_ranges};
ghost use Rattle.branch_state.specs.Posting.{is_natural as natural, touch_postings, postings};
ghost use Rattle.branch_state.specs.States.{IsSettled, HasNoModel};
ghost use Rattle.branch_state.specs.Steps.{AreTouchesBelow};
ghost use Rattle.branch_meaning.specs.Store.{posts};
ghost use Rattle.branch_lemmas.specs.Frames.{store_touches};

use crate::bounds::{NewVars, add_new_bounds};
use crate::codes::Codes;
use crate::constraints::Listed;
use crate::store_variables::Prepared;
use fd_language::{INFINITY as TOP, NoMemory};
use propagate_queue::{Agenda, Instance, Posted, Store};
use range_code::{Activations, Arg, RangeCode};
use std::alloc::Global;
use std::rc::Rc;
use unify_core::Touch;

/// Whether no variable gets a negative integer by the touch.
fn is_natural(touch: Touch) -> bool
    ensures { result ≡ natural touch }
{
    match touch {
        Touch::Value(_, z) => z >= 0,
        Touch::Same(_, _) => true,
    }
}

/// Whether this is so of all touches.
fn are_natural(touches: &[Touch]) -> bool
    ensures { result ≡ list_all natural touches.now }
{
    touches.iter().all(|touch| is_natural(*touch))
}

/// The range with one argument, on a target.
pub(crate) fn instance(
    alloc: Global,
    code: &Rc<RangeCode>,
    target: usize,
    arg: Arg,
) -> Result<Instance, NoMemory>
    ensures { IfOk result (λ i. posting i
        ≡ record { range = code.now.value; target = target; args = arg ∷ [] }) }
{
    Ok(Instance {
        code: Rc::clone(code)?,
        target,
        args: vec![in alloc; arg]?,
    })
}

/// Puts what is posted for a touch behind the list.
fn add_touch(
    alloc: Global,
    codes: &Codes,
    touch: Touch,
    list: &mut Vec<Instance>,
) -> Result<(), NoMemory>
    ensures { OnOk result (map posting list.new.items
        ≡ map posting list.old.items ++ touch_postings touch) }
{
    match touch {
        Touch::Value(k, z) => list.push(instance(alloc, &codes.exact, k, Arg::Int(z))?)?,
        Touch::Same(k, j) => {
            list.push(instance(alloc, &codes.same, k, Arg::Var(j))?)?;
            list.push(instance(alloc, &codes.same, j, Arg::Var(k))?)?;
        }
    }
    Ok(())
}

/// Puts what is posted for touches behind the list.
fn add_touches(
    alloc: Global,
    codes: &Codes,
    touches: &[Touch],
    list: &mut Vec<Instance>,
) -> Result<(), NoMemory>
    ensures { OnOk result (map posting list.new.items
        ≡ map posting list.old.items ++ postings touches.now) }
{
    for touch in touches {
        add_touch(alloc, codes, *touch, list)?;
    }
    Ok(())
}

/// Posts the list. Whether all that is posted has a model.
pub(crate) fn post_list<A: Agenda + Drop>(
    store: &mut Store<A>,
    list: Vec<Instance>,
    n: &mut Activations,
) -> Result<bool, NoMemory>
    requires { All (IsInstance (length store.old.current.sets)) list.items }
    ensures posted { OnOk result (store.new.current.posted
        ≡ store.old.current.posted ++ posted_by list.items) }
    ensures kept { IfTrue result ((store.new.current.failed ≡ false)
        × IsSettled INFINITY store.new.current) }
    ensures none { IfFalse result (HasNoModel INFINITY store.new.current.posted) }
    ensures vars { OnOk result (length store.new.current.sets ≡ length store.old.current.sets) }
    ensures below { store.new.below ≡ store.old.below }
    ensures unspent { OnOk result (store.new.spent ≡ false) }
{
    match store.post(list, n)? {
        Posted::Kept => Ok(true),
        Posted::Failed => Ok(false),
    }
}

/// Posts one range with the arguments of its slots. Whether all that is posted has a model.
fn post_single<A: Agenda + Drop>(
    store: &mut Store<A>,
    n: &mut Activations,
    code: &Rc<RangeCode>,
    target: usize,
    args: &[Arg],
) -> Result<bool, NoMemory>
    requires { IsPosting (length store.old.current.sets)
        (posting_of code.now.value target args.now) }
    ensures posted { OnOk result (store.new.current.posted ≡ store.old.current.posted
        ++ ranged (posting_of code.now.value target args.now) ∷ []) }
    ensures kept { IfTrue result ((store.new.current.failed ≡ false)
        × IsSettled INFINITY store.new.current) }
    ensures none { IfFalse result (HasNoModel INFINITY store.new.current.posted) }
    ensures vars { OnOk result (length store.new.current.sets ≡ length store.old.current.sets) }
    ensures below { store.new.below ≡ store.old.below }
    ensures unspent { OnOk result (store.new.spent ≡ false) }
{
    let owned = Rc::clone(code)?;
    match store.post_one(owned, target, args, n)? {
        Posted::Kept => Ok(true),
        Posted::Failed => Ok(false),
    }
}

/// Posts the list and the bounds of new variables. The first `late` of the list come last, so that the others and the bounds narrow their
/// variables before they are activated. Whether all that is posted has a model.
fn post_bounded<A: Agenda + Drop>(
    alloc: Global,
    store: &mut Store<A>,
    list: Vec<Instance>,
    late: usize,
    n: &mut Activations,
    codes: &Codes,
    made: NewVars,
) -> Result<bool, NoMemory>
    requires list { All (IsInstance (length store.old.current.sets)) list.items }
    requires late { late ≤ length list.items }
    requires greatest { made.infinity ≤ INFINITY }
    ensures posted { OnOk result (IsPermutation store.new.current.posted
        ((store.old.current.posted ++ posted_by list.items)
        ++ new_bounds made.infinity made.first (length store.old.current.sets - made.first))) }
    ensures kept { IfTrue result ((store.new.current.failed ≡ false)
        × IsSettled INFINITY store.new.current) }
    ensures none { IfFalse result (HasNoModel INFINITY
        ((store.old.current.posted ++ posted_by list.items)
        ++ new_bounds made.infinity made.first (length store.old.current.sets - made.first))) }
    ensures vars { OnOk result (length store.new.current.sets ≡ length store.old.current.sets) }
    ensures below { store.new.below ≡ store.old.below }
    ensures unspent { OnOk result (store.new.spent ≡ false) }
{
    let mut list = list;
    add_new_bounds(alloc, codes, made, store.vars(), &mut list)?;
    list.rotate_left(late);
    post_list(store, list, n)
}

/// Posts what touches say. Whether all that is posted then has a model.
#[inline(never)]
pub(crate) fn post_all<A: Agenda + Drop>(
    alloc: Global,
    store: &mut Store<A>,
    n: &mut Activations,
    codes: &Codes,
    touches: &[Touch],
) -> Result<bool, NoMemory>
    requires touches { AreTouchesBelow (length store.old.current.sets) touches.now }
    requires unspent { store.old.spent ≡ false }
    ensures posted { IfTrue result (store.new.current.posted
        ≡ store.old.current.posted ++ posts (store_touches touches.now)) }
    ensures kept { IfTrue result ((store.new.current.failed ≡ false)
        × IsSettled INFINITY store.new.current) }
    ensures none { IfFalse result (HasNoModel INFINITY
        (store.old.current.posted ++ posts (store_touches touches.now))) }
    ensures vars { OnOk result (length store.new.current.sets ≡ length store.old.current.sets) }
    ensures below { store.new.below ≡ store.old.below }
    ensures unspent { OnOk result (store.new.spent ≡ false) }
{
    if !are_natural(touches) {
        return Ok(false);
    }
    if let &[Touch::Value(k, z)] = touches {
        return post_single(store, n, &codes.exact, k, &[Arg::Int(z)]);
    }
    let mut list = Vec::with_capacity(alloc, touches.len())?;
    add_touches(alloc, codes, touches, &mut list)?;
    post_list(store, list, n)
}

/// Posts the range of a goal that is prepared, gives fresh variables their integers, and bounds new ones. Whether all that is posted then
/// has a model.
pub(crate) fn post_prepared<A: Agenda + Drop>(
    alloc: Global,
    store: &mut Store<A>,
    n: &mut Activations,
    codes: &Codes,
    code: &Rc<RangeCode>,
    prepared: Prepared,
    made: NewVars,
) -> Result<bool, NoMemory>
    requires greatest { made.infinity ≤ INFINITY }
    requires target { prepared.target < length store.old.current.sets }
    requires frame { IsArgumentFrame (length store.old.current.sets) code.now.value
        prepared.args.items }
    requires fixed { AreTouchesBelow (length store.old.current.sets) prepared.fixed.items }
    requires unspent { store.old.spent ≡ false }
    ensures posted { IfTrue result (IsPermutation store.new.current.posted
        ((store.old.current.posted
        ++ goal_ranges code.now.value prepared.target prepared.args.items prepared.fixed.items)
        ++ new_bounds made.infinity made.first (length store.old.current.sets - made.first))) }
    ensures kept { IfTrue result ((store.new.current.failed ≡ false)
        × IsSettled INFINITY store.new.current) }
    ensures none { IfFalse result (HasNoModel INFINITY ((store.old.current.posted
        ++ goal_ranges code.now.value prepared.target prepared.args.items prepared.fixed.items)
        ++ new_bounds made.infinity made.first (length store.old.current.sets - made.first))) }
    ensures vars { OnOk result (length store.new.current.sets ≡ length store.old.current.sets) }
    ensures below { store.new.below ≡ store.old.below }
    ensures unspent { OnOk result (store.new.spent ≡ false) }
{
    let Prepared {
        target,
        args,
        fixed,
    } = prepared;
    if fixed.is_empty() && made.infinity == TOP {
        return post_single(store, n, code, target, &args);
    }
    if !are_natural(&fixed) {
        return Ok(false);
    }
    let mut list = Vec::with_capacity(alloc, fixed.len() + 1)?;
    list.push(Instance {
        code: Rc::clone(code)?,
        target,
        args,
    })?;
    add_touches(alloc, codes, &fixed, &mut list)?;
    post_bounded(alloc, store, list, 1, n, codes, made)
}

/// Posts the ranges of a constraint, gives variables their integers, and bounds new ones. Whether all that is posted then has a model.
pub(crate) fn post_rows<A: Agenda + Drop>(
    alloc: Global,
    store: &mut Store<A>,
    n: &mut Activations,
    codes: &Codes,
    listed: Listed,
    made: NewVars,
) -> Result<bool, NoMemory>
    requires greatest { made.infinity ≤ INFINITY }
    requires list { All (IsInstance (length store.old.current.sets)) listed.list.items }
    requires fixed { AreTouchesBelow (length store.old.current.sets) listed.fixed.items }
    requires unspent { store.old.spent ≡ false }
    ensures posted { IfTrue result (IsPermutation store.new.current.posted
        (((store.old.current.posted ++ posted_by listed.list.items)
        ++ posts (store_touches listed.fixed.items))
        ++ new_bounds made.infinity made.first (length store.old.current.sets - made.first))) }
    ensures kept { IfTrue result ((store.new.current.failed ≡ false)
        × IsSettled INFINITY store.new.current) }
    ensures none { IfFalse result (HasNoModel INFINITY (((store.old.current.posted
        ++ posted_by listed.list.items) ++ posts (store_touches listed.fixed.items))
        ++ new_bounds made.infinity made.first (length store.old.current.sets - made.first))) }
    ensures vars { OnOk result (length store.new.current.sets ≡ length store.old.current.sets) }
    ensures below { store.new.below ≡ store.old.below }
    ensures unspent { OnOk result (store.new.spent ≡ false) }
{
    let Listed { list, fixed } = listed;
    if !are_natural(&fixed) {
        return Ok(false);
    }
    let mut list = list;
    add_touches(alloc, codes, &fixed, &mut list)?;
    post_bounded(alloc, store, list, 0, n, codes, made)
}
