//! The search: nodes whose values are tried, one by one, and given back.

ghost use Rattle.std.specs.Prelude.{◌≡◌, ℕ, ◌<◌, ◌≤◌, ◌+◌, ◌⊎◌, List, [], ◌∷◌, ◌++◌, true, false, None, Some, reverse, length, IfOk, IfSome, IfNone, OnOk, MatchOption};
ghost use Rattle.fd_language.specs.declared.TheConstants.{INFINITY};
ghost use Rattle.fd_model.specs.BestPosted.{SoughtValues};
ghost use Rattle.label_search.specs.Picks.{IsThere, member_at};
ghost use Rattle.range_code.specs.Frames.{family_of};
ghost use Rattle.bound_search.specs.Members.{IsNoBetter, bound, member_of, members_of};
ghost use Rattle.bound_search.specs.Posting.{IsEnd, better_high, better_low, between_range, exact_range};
ghost use Rattle.fd_model.specs.BranchViews.{IsConsistent};

use crate::best_leaf::{SoFar, bound_of, improves, keep_leaf};
use crate::posting::{between_code, post_between, post_value};
use fd_language::{INFINITY, NoMemory};
use fd_model::kinds::Order;
use label_search::{Member, pick};
use propagate_queue::{Agenda, Store};
use range_code::{Activations, RangeCode};
use std::alloc::Global;
use std::rc::Rc;

/// What is searched for: the best cost in a labelling by an order.
#[derive(Clone, Copy)]
pub struct Aim {
    /// The order of the labelling.
    pub order: Order,
    /// The cost: an integer, or a member of the list.
    pub cost: Member,
    /// Whether the least cost is the best, and not the greatest.
    pub least: bool,
}

/// An open node: the variable whose values are tried, and the least number that is still to be tried.
#[derive(Clone, Copy)]
pub(crate) struct Node {
    pub(crate) variable: usize,
    pub(crate) from: u32,
    /// The cost by which the node's level is bounded, where it is.
    pub(crate) bounded: Option<i64>,
}

ghost use Rattle.bound_search.specs.SearchStates.{Continues, IsNode, IsOpen, all_levels, progress, values_left};
ghost use Rattle.bound_search.specs.Objectives.{AreWanted, IsBounded, wanted};
ghost use Rattle.bound_search.specs.Work.{node_work, open_count, tree_size, work};

/// The variable at a place of the list.
fn variable_at(list: &[Member], place: usize) -> usize
    requires place { place < length list.now }
    requires variable { (k : ℕ) × (member_at list.now place ≡ Member.Var k) }
    ensures { member_at list.now place ≡ Member.Var result }
{
    match list[place] {
        Member::Var(k) => k,
        _ => unreachable!(),
    }
}

/// Looks at the current level, a node with a mark of its own: it becomes an open one, or the best leaf so far, or it is dropped. In the
/// last two cases its level is given back.
fn look<A: Agenda + Drop>(
    store: &mut Store<A>,
    list: &[Member],
    aim: Aim,
    nodes: &mut Vec<Node>,
    best: &mut SoFar,
) -> Result<(), NoMemory>
    requires wanted { AreWanted (length store.old.current.sets) list.now aim }
    requires node { IsNode (length store.old.current.sets) store.old.current }
    requires below { 0 < length store.old.below }
    ensures continues { OnOk result (Continues (wanted list.now aim)
        (length store.old.current.sets) (progress store.old.below nodes.old.items best.old)
        (store.old.current.posted ∷ [])
        (progress (all_levels store.new) nodes.new.items best.new)) }
    ensures work { OnOk result (work (members_of list.now) (reverse nodes.new.items)
        (all_levels store.new) < work (members_of list.now) (reverse nodes.old.items)
        store.old.below + tree_size (open_count (members_of list.now) store.old.current)) }
    ensures spent { store.new.spent ≡ store.old.spent }
{
    let bound = bound_of(store, aim.cost, aim.least);
    if improves(bound, aim.least, best) {
        match pick(aim.order, list, store, INFINITY) {
            Some(place) => {
                let variable = variable_at(list, place);
                return Ok(nodes.push(Node {
                    variable,
                    from: 0,
                    bounded: best.cost,
                })?);
            }
            None => keep_leaf(store, list, bound, best)?,
        }
    }
    store.pop_mark();
    Ok(())
}

/// The next value of the open node to be tried. `None` where none is left, or where no leaf below can be better than the best so far.
fn next_value<A: Agenda + Drop>(store: &Store<A>, aim: Aim, node: Node, best: &SoFar) -> Option<u32>
    requires cost { IsThere (length store.now.current.sets) aim.cost }
    requires variable { node.variable < length store.now.current.sets }
    ensures some { IfSome result (λ value. values_left store.now.current node
        ≡ value ∷ values_left store.now.current (record node { from = value + 1 })) }
    ensures none { IfNone result ((values_left store.now.current node ≡ [])
        ⊎ IsNoBetter aim.least (bound aim.least (family_of store.now.current.sets)
        (member_of aim.cost)) best.now.cost) }
    ensures few { IfSome result (λ value. value ≤ INFINITY) }
{
    let bound = bound_of(store, aim.cost, aim.least);
    if !improves(bound, aim.least, best) {
        return None;
    }
    store.domain(node.variable).next_from(node.from)
}

/// The numbers that are better than a cost, as the ends of an interval. `None` where no variable can have that cost.
fn better_ends(cost: i64, least: bool) -> Option<(i64, i64)>
    ensures low { IfSome result (λ ends. ends.0 ≡ better_low least cost) }
    ensures high { IfSome result (λ ends. ends.1 ≡ better_high least cost) }
    ensures fits { IfSome result (λ ends. IsEnd ends.0 × IsEnd ends.1) }
{
    let reached = i64::from(u32::try_from(cost).ok()?);
    if least {
        Some((0, reached - 1))
    } else {
        Some((reached + 1, i64::from(INFINITY)))
    }
}

/// Bounds the cost on the level of an open node by the best so far, where the labelling goes by the order of the list, and where the level
/// hasn't got that bound. Whether no domain is empty then.
fn bound_level<A: Agenda + Drop>(
    between: &Rc<RangeCode>,
    store: &mut Store<A>,
    aim: Aim,
    node: Node,
    best: &SoFar,
    n: &mut Activations,
) -> Result<bool, NoMemory>
    requires between { between.now.value ≡ between_range }
    requires cost { IsThere (length store.old.current.sets) aim.cost }
    requires node { IsNode (length store.old.current.sets) store.old.current }
    ensures bounded { OnOk result (IsBounded aim best.now.cost
        store.old.current store.new.current) }
    ensures kept { IfOk result (λ kept. kept ≡ true
        → IsNode (length store.old.current.sets) store.new.current) }
    ensures failed { IfOk result (λ kept. kept ≡ false
        → IsConsistent INFINITY INFINITY [] store.new.current.posted → ⊥) }
    ensures below { store.new.below ≡ store.old.below }
    ensures unspent { OnOk result (store.old.spent ≡ false → store.new.spent ≡ false) }
{
    if node.bounded == best.cost {
        return Ok(true);
    }
    match (aim.order, aim.cost, best.cost) {
        (Order::Leftmost, Member::Var(k), Some(cost)) => match better_ends(cost, aim.least) {
            Some(ends) => post_between(between, store, k, ends, n),
            None => Ok(true),
        },
        _ => Ok(true),
    }
}

/// Tries the next value of the newest open node, which was taken from the others, or closes it where there is none.
fn advance<A: Agenda + Drop>(
    exact: &Rc<RangeCode>,
    store: &mut Store<A>,
    list: &[Member],
    aim: Aim,
    node: Node,
    nodes: &mut Vec<Node>,
    best: &mut SoFar,
    n: &mut Activations,
) -> Result<(), NoMemory>
    requires exact { exact.now.value ≡ exact_range }
    requires wanted { AreWanted (length store.old.current.sets) list.now aim }
    requires node { IsOpen (wanted list.now aim) (length store.old.current.sets)
        store.old.current node }
    requires below { 0 < length store.old.below }
    ensures continues { OnOk result (Continues (wanted list.now aim)
        (length store.old.current.sets)
        (progress (all_levels store.old) (nodes.old.items ++ node ∷ []) best.old) []
        (progress (all_levels store.new) nodes.new.items best.new)) }
    ensures work { OnOk result (work (members_of list.now) (reverse nodes.new.items)
        (all_levels store.new) < node_work (members_of list.now) node store.old.current
        + work (members_of list.now) (reverse nodes.old.items) store.old.below) }
    ensures unspent { OnOk result (store.old.spent ≡ false → store.new.spent ≡ false) }
{
    match next_value(store, aim, node, best) {
        None => {
            store.pop_mark();
            Ok(())
        }
        Some(value) => {
            let variable = node.variable;
            nodes.push(Node {
                variable,
                from: value + 1,
                bounded: best.cost,
            })?;
            store.push_mark()?;
            if post_value(exact, store, variable, value, n)? {
                look(store, list, aim, nodes, best)
            } else {
                store.pop_mark();
                Ok(())
            }
        }
    }
}

/// The values of the list's variables in the first best leaf, and `None` where there is no leaf.
pub(crate) fn search<A: Agenda + Drop>(
    alloc: Global,
    store: &mut Store<A>,
    exact: &Rc<RangeCode>,
    list: &[Member],
    aim: Aim,
    n: &mut Activations,
) -> Result<Option<Vec<u32>>, NoMemory>
    requires exact { exact.now.value ≡ exact_range }
    requires level { store.old.current.failed ≡ false }
    requires wanted { AreWanted (length store.old.current.sets) list.now aim }
    ensures found { IfOk result (λ found. MatchOption found
        (SoughtValues INFINITY aim.order (members_of list.now) (member_of aim.cost) aim.least
        store.old.current.posted None)
        (λ values. SoughtValues INFINITY aim.order (members_of list.now) (member_of aim.cost)
        aim.least store.old.current.posted (Some values.items))) }
    ensures levels { OnOk result (store.new ≡ store.old) }
    ensures unspent { OnOk result (store.old.spent ≡ false) }
{
    let between = between_code(alloc)?;
    let mut nodes = Vec::new(alloc);
    let mut best = SoFar {
        cost: None,
        values: Vec::with_capacity(alloc, list.len())?,
    };
    store.push_mark()?;
    store.known();
    look(store, list, aim, &mut nodes, &mut best)?;
    'trying: while let Some(node) = nodes.pop() {
        if bound_level(&between, store, aim, node, &best, n)? {
            advance(exact, store, list, aim, node, &mut nodes, &mut best, n)?;
        } else {
            store.pop_mark();
        }
    }
    match best.cost {
        None => Ok(None),
        Some(_) => Ok(Some(best.values)),
    }
}
