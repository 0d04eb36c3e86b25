//! Which variables of a clause without a frame stay in argument registers.

ghost use Rattle.std.specs.Prelude.{◌≡◌, ◌+◌, ◌<◌, ◌≤◌, [], length, All, IfOk, OnErr, OnOk, ◌^◌, MatchResult};
ghost use Rattle.fd_model.specs.ConstraintExpansion.{arguments};
ghost use Rattle.branch_meaning.specs.Heap.{AllOf};
ghost use Rattle.term_pool.specs.Terms.{term_of, terms_by};
ghost use Rattle.clause_code.specs.FramelessClauses.{InRegisters};
ghost use Rattle.clause_code.specs.SimpleGoals.{IsOwn};
ghost use Rattle.clause_code.specs.ArgumentHomes.{AllWait, AreHomes, IsOutside, Leaves, MayStay, MovedBack, Stayed, Waits};
ghost use Rattle.clause_code.specs.Steps.{AllSuit};

use fd_language::NoMemory;
use std::alloc::Global;
use term_pool::{Node, Pool, TermId};
use wam_code::Register;

/// The arguments of a head or a goal.
pub(crate) fn arguments_of<'p>(pool: &'p Pool, t: TermId) -> &'p [TermId]
    requires { t.number < length pool.now.entries }
    ensures terms { terms_by (term_of pool.now) result.now ≡ arguments (term_of pool.now t) }
    ensures own { All (λ u. u.number < length pool.now.entries) result.now }
{
    match pool.view(t) {
        Node::Comp(_, parts) => parts,
        _ => &[],
    }
}

/// Their sum. More registers than there are numbers are more than memory has.
pub(crate) fn added(a: usize, b: usize) -> Result<usize, NoMemory>
    ensures { MatchResult result (λ s. s ≡ a + b) (λ _. 2 ^ 64 ≤ a + b) }
{
    a.checked_add(b).ok_or(NoMemory)
}

/// The registers from `first` on, before `free`.
fn register_homes(alloc: Global, first: usize, free: usize) -> Result<Vec<Register>, NoMemory>
    requires { first ≤ free }
    ensures { IfOk result (λ h. InRegisters h.items first free) }
{
    let mut homes = Vec::new(alloc);
    for register in first..free {
        homes.push(Register::X(register))?;
    }
    Ok(homes)
}

/// The variable x stays in the argument register, unless its home is one before `first`.
fn stay(homes: &mut Vec<Register>, x: usize, argument: usize, first: usize)
    requires { x < length homes.old.items }
    ensures { MayStay x argument homes.old.items homes.new.items }
{
    if let Register::X(home) = homes[x] {
        if first <= home {
            homes[x] = Register::X(argument);
        }
    }
}

/// The variables among the terms from the place `from` on stay in the registers of their places,
/// unless their homes are others before `first`.
fn stay_all(pool: &Pool, homes: &mut Vec<Register>, ids: &[TermId], from: usize, first: usize)
    requires own { All (λ t. t.number < length pool.now.entries) ids.now }
    requires suits { AllSuit pool.now (length homes.old.items)
        (terms_by (term_of pool.now) ids.now) }
    ensures { Stayed homes.old.items homes.new.items
        (terms_by (term_of pool.now) ids.now) from }
{
    for i in from..ids.len() {
        if let Node::Var(x) = pool.view(ids[i]) {
            stay(homes, x as usize, i + 1, first);
        }
    }
}

/// The variable x gets a home behind the arguments, if it stays in a register from `least` to `last`.
fn leave(
    homes: &mut Vec<Register>,
    x: usize,
    least: usize,
    last: usize,
    first: usize,
) -> Result<(), NoMemory>
    requires home { x < length homes.old.items }
    requires behind { last < first }
    ensures back { OnOk result (MovedBack homes.old.items homes.new.items first) }
    ensures outside { OnOk result (IsOutside homes.new.items least last x) }
    ensures memory { OnErr result (2 ^ 64 ≤ first + x) }
{
    if let Register::X(home) = homes[x] {
        if least <= home && home <= last {
            homes[x] = Register::X(added(first, x)?);
        }
    }
    Ok(())
}

/// Takes the last term of a walk.
fn leave_term(
    pool: &Pool,
    homes: &mut Vec<Register>,
    terms: &mut Vec<TermId>,
    t: TermId,
    least: usize,
    last: usize,
    first: usize,
) -> Result<(), NoMemory>
    requires term { IsOwn pool.now (length homes.old.items) t }
    requires own { All (IsOwn pool.now (length homes.old.items)) terms.old.items }
    requires behind { last < first }
    ensures { OnOk result (Leaves pool.now t least last first homes.old.items terms.old.items
        homes.new.items terms.new.items) }
{
    match pool.view(t) {
        Node::Var(x) => leave(homes, x as usize, least, last, first)?,
        Node::Comp(_, parts) => terms.extend_from_slice(parts)?,
        Node::Int(_) => {}
        Node::Atom(_) => {}
    }
    Ok(())
}

/// No variable of the terms stays in a register from `least` to `last`.
fn leave_all(
    pool: &Pool,
    homes: &mut Vec<Register>,
    terms: &mut Vec<TermId>,
    least: usize,
    last: usize,
    first: usize,
) -> Result<(), NoMemory>
    requires own { All (IsOwn pool.now (length homes.old.items)) terms.old.items }
    requires behind { last < first }
    ensures back { OnOk result (MovedBack homes.old.items homes.new.items first) }
    ensures outside { OnOk result (AllOf (IsOutside homes.new.items least last)
        (terms_by (term_of pool.now) terms.old.items)) }
    ensures done { OnOk result (terms.new.items ≡ []) }
{
    while let Some(t) = terms.pop() {
        leave_term(pool, homes, terms, t, least, last, first)?;
    }
    Ok(())
}

/// No variable of a head's argument in the register stays in a register behind it, up to `last`,
/// which is read later.
fn wait_argument(
    pool: &Pool,
    homes: &mut Vec<Register>,
    terms: &mut Vec<TermId>,
    id: TermId,
    register: usize,
    last: usize,
    first: usize,
) -> Result<(), NoMemory>
    requires own { IsOwn pool.now (length homes.old.items) id }
    requires few { register ≤ 255 }
    requires behind { last < first }
    requires terms { terms.old.items ≡ [] }
    ensures back { OnOk result (MovedBack homes.old.items homes.new.items first) }
    ensures waits { OnOk result (Waits homes.new.items register last (term_of pool.now id)) }
    ensures done { OnOk result (terms.new.items ≡ []) }
{
    terms.push(id)?;
    leave_all(pool, homes, terms, register + 1, last, first)?;
    Ok(())
}

/// Each argument register of the head is read before it is a variable's home.
fn wait_all(
    pool: &Pool,
    homes: &mut Vec<Register>,
    terms: &mut Vec<TermId>,
    ids: &[TermId],
    first: usize,
) -> Result<(), NoMemory>
    requires own { All (λ t. t.number < length pool.now.entries) ids.now }
    requires suits { AllSuit pool.now (length homes.old.items)
        (terms_by (term_of pool.now) ids.now) }
    requires few { length ids.now ≤ 255 }
    requires behind { length ids.now < first }
    requires terms { terms.old.items ≡ [] }
    ensures back { OnOk result (MovedBack homes.old.items homes.new.items first) }
    ensures waits { OnOk result (AllWait homes.new.items 1 (length ids.now)
        (terms_by (term_of pool.now) ids.now)) }
{
    let mut register = 1;
    for id in ids {
        wait_argument(pool, homes, terms, *id, register, ids.len(), first)?;
        register += 1;
    }
    Ok(())
}

/// The homes of a clause's variables, by the arguments of its head and of its only goal: argument
/// registers where they suit, and else those from `first` on. The registers from `free` on are no homes.
pub(crate) fn find_homes(
    alloc: Global,
    pool: &Pool,
    head: &[TermId],
    goal: &[TermId],
    variables: usize,
    first: usize,
    free: usize,
) -> Result<Vec<Register>, NoMemory>
    requires head { All (λ t. t.number < length pool.now.entries) head.now }
    requires head_suits { AllSuit pool.now variables (terms_by (term_of pool.now) head.now) }
    requires head_few { length head.now ≤ 255 }
    requires head_behind { length head.now < first }
    requires goal { All (λ t. t.number < length pool.now.entries) goal.now }
    requires goal_suits { AllSuit pool.now variables (terms_by (term_of pool.now) goal.now) }
    requires goal_behind { length goal.now < first }
    requires free { first + variables ≡ free }
    ensures long { IfOk result (λ h. length h.items ≡ variables) }
    ensures homes { IfOk result (λ h. AreHomes h.items free
        (terms_by (term_of pool.now) head.now) (terms_by (term_of pool.now) goal.now)) }
{
    let mut homes = register_homes(alloc, first, free)?;
    stay_all(pool, &mut homes, goal, 0, first);
    stay_all(pool, &mut homes, head, goal.len(), first);
    let mut terms = Vec::new(alloc);
    wait_all(pool, &mut homes, &mut terms, head, first)?;
    Ok(homes)
}
