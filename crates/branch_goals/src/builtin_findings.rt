//! What built-in goals come to.

ghost use Rattle.std.specs.Prelude.{◌≡◌, ◌<◌, length, IfOk, OnErr};
ghost use Rattle.heap_cells.specs.Cells.{IsOf};
ghost use Rattle.heap_cells.specs.Terms.{IsOneToOne, Naming};
ghost use Rattle.builtin_calls.specs.TypeTests.{passes as is_passed};
ghost use Rattle.fd_language.specs.Term.{Term};
ghost use Rattle.fd_model.specs.Builtins.{is_same};
ghost use Rattle.fd_model.specs.declared.kinds.BuiltinKind.TheVariants.{FdDom};
ghost use Rattle.heap_cells.specs.SeenTerms.{HasLinksBelow};
ghost use Rattle.branch_state.specs.States.{IsSound, IsCell};
ghost use Rattle.branch_goals.specs.Findings.{AreNumbersAt, AreValuesAt, Finds, IsComparison, IsNaming, IsQuestion, IsValueAt, fault_is, holds_by, numbers_in_set, passes_by, seen_at, the_numbers, told_by};

use branch_state::BranchState;
use builtin_calls::{EvalFault, TypeTest, eval, same, type_test};
use domain_ranges::{Domain, View};
use fd_language::NoMemory;
use fd_model::kinds::{BuiltinKind, QueryFault};
use heap_cells::{Cell, Heap, Seen};
use propagate_queue::Agenda;
use std::alloc::Global;
use term_pool::Pool;

/// What a built-in goal comes to.
#[derive(Clone, Copy)]
pub enum Found {
    /// It is an error.
    Fault(QueryFault),
    /// It holds, or it doesn't.
    Decided(bool),
    /// The two cells are to be equal.
    Equal(Cell, Cell),
}

/// The fault of a query whose goal evaluates a term. The error is want of memory.
fn fault_of(fault: EvalFault) -> Result<QueryFault, NoMemory>
    ensures fault { IfOk result (λ f. fault_is fault f) }
    ensures memory { OnErr result (fault ≡ EvalFault.NoMemory) }
{
    match fault {
        EvalFault::Unbound => Ok(QueryFault::Instantiation),
        EvalFault::NotANumber => Ok(QueryFault::BadType),
        EvalFault::Overflow => Ok(QueryFault::Evaluation),
        EvalFault::ZeroDivisor => Ok(QueryFault::Evaluation),
        EvalFault::NoMemory => Err(NoMemory),
    }
}

/// The value of a term, or its fault. The outer error is want of memory.
#[inline(always)]
fn value<A: Agenda + Drop>(
    alloc: Global,
    branch: &BranchState<A>,
    pool: &Pool,
    c: Cell,
) -> Result<Result<i64, QueryFault>, NoMemory>
    requires sound { IsSound branch.now }
    requires atoms { length pool.now.names ≡ branch.now.atoms }
    requires cell { IsCell branch.now c }
    ensures { IfOk result (λ v. (name : Naming) → IsNaming pool.now.names name
        → IsValueAt name branch.now c v) }
{
    match eval(alloc, branch.heap(), pool, branch.store(), c) {
        Ok(z) => Ok(Ok(z)),
        Err(fault) => Ok(Err(fault_of(fault)?)),
    }
}

/// The values of two terms, or the first fault. The outer error is want of memory.
fn values<A: Agenda + Drop>(
    alloc: Global,
    branch: &BranchState<A>,
    pool: &Pool,
    left: Cell,
    right: Cell,
) -> Result<Result<(i64, i64), QueryFault>, NoMemory>
    requires sound { IsSound branch.now }
    requires atoms { length pool.now.names ≡ branch.now.atoms }
    requires left { IsCell branch.now left }
    requires right { IsCell branch.now right }
    ensures { IfOk result (λ v. (name : Naming) → IsNaming pool.now.names name
        → AreValuesAt name branch.now left right v) }
{
    match value(alloc, branch, pool, left)? {
        Err(fault) => Ok(Err(fault)),
        Ok(a) => match value(alloc, branch, pool, right)? {
            Err(fault) => Ok(Err(fault)),
            Ok(b) => Ok(Ok((a, b))),
        },
    }
}

/// Whether two values are as a comparison says. The last case is `>=`.
fn holds(kind: BuiltinKind, left: i64, right: i64) -> bool
    ensures { result ≡ holds_by kind left right }
{
    match kind {
        BuiltinKind::NumEqual => left == right,
        BuiltinKind::NumDiffer => left != right,
        BuiltinKind::NumLess => left < right,
        BuiltinKind::NumAtMost => left <= right,
        BuiltinKind::NumGreater => left > right,
        _ => left >= right,
    }
}

/// A comparison of two values.
fn compare<A: Agenda + Drop>(
    alloc: Global,
    branch: &BranchState<A>,
    pool: &Pool,
    kind: BuiltinKind,
    left: Cell,
    right: Cell,
) -> Result<Found, NoMemory>
    requires sound { IsSound branch.now }
    requires atoms { length pool.now.names ≡ branch.now.atoms }
    requires left { IsCell branch.now left }
    requires right { IsCell branch.now right }
    requires kind { IsComparison kind }
    ensures { IfOk result (λ f. (name : Naming) → IsNaming pool.now.names name
        → Finds name branch.now kind left right f) }
{
    match values(alloc, branch, pool, left, right)? {
        Err(fault) => Ok(Found::Fault(fault)),
        Ok((a, b)) => Ok(Found::Decided(holds(kind, a, b))),
    }
}

/// The numbers that a term may be.
#[derive(Clone, Copy)]
pub(crate) enum Numbers<'s> {
    One(i64),
    Those(&'s Domain),
}

/// The numbers of a variable of the store.
fn numbers_in(domain: &Domain) -> Numbers<'_>
    ensures { the_numbers result ≡ numbers_in_set domain.now }
{
    match domain.only_value() {
        Some(value) => Numbers::One(i64::from(value)),
        None => Numbers::Those(domain),
    }
}

/// The numbers that the term of a cell may be, or its fault.
pub(crate) fn numbers_at<'s, V: View>(
    heap: &Heap,
    view: &'s V,
    c: Cell,
) -> Result<Numbers<'s>, QueryFault>
    requires own { IsOf heap.now.now c }
    requires linked { HasLinksBelow (length (V.sets view.now)) heap.now.now }
    ensures { (name : Naming) → AreNumbersAt name heap.now.now (V.sets view.now) c result }
{
    match heap.deref(c) {
        Seen::Open(_) => Err(QueryFault::Instantiation),
        Seen::Constrained(_, k) => Ok(numbers_in(view.domain(k))),
        Seen::Int(z) => Ok(Numbers::One(z)),
        Seen::Atom(_) => Err(QueryFault::BadType),
        Seen::Struct(_, _) => Err(QueryFault::BadType),
    }
}

/// What `fd_min`, `fd_max` and `fd_size` tell of numbers. The last case is `fd_size`.
fn told(kind: BuiltinKind, numbers: Numbers<'_>) -> i64
    ensures { result ≡ told_by kind (the_numbers numbers.entry) }
{
    match (kind, numbers) {
        (BuiltinKind::FdMin, Numbers::One(z)) => z,
        (BuiltinKind::FdMin, Numbers::Those(domain)) => i64::from(domain.min().unwrap_or(0)),
        (BuiltinKind::FdMax, Numbers::One(z)) => z,
        (BuiltinKind::FdMax, Numbers::Those(domain)) => i64::from(domain.max().unwrap_or(0)),
        (_, Numbers::One(_)) => 1,
        (_, Numbers::Those(domain)) => i64::from(domain.size()),
    }
}

/// `fd_min`, `fd_max` or `fd_size` of a term, which the second one is to be.
fn ask<A: Agenda + Drop>(branch: &BranchState<A>, kind: BuiltinKind, of: Cell, is: Cell) -> Found
    requires sound { IsSound branch.now }
    requires of { IsCell branch.now of }
    requires is { IsCell branch.now is }
    requires kind { IsQuestion kind }
    ensures { (name : Naming) → Finds name branch.now kind of is result }
{
    match numbers_at(branch.heap(), branch.store(), of) {
        Err(fault) => Found::Fault(fault),
        Ok(all) => Found::Equal(is, Cell::Int(told(kind, all))),
    }
}

/// The test of types of a goal. The last case is `compound`.
fn test_of(kind: BuiltinKind) -> TypeTest
    ensures { (t : Term) → is_passed result t ≡ passes_by kind t }
{
    match kind {
        BuiltinKind::Var => TypeTest::Var,
        BuiltinKind::Nonvar => TypeTest::Nonvar,
        BuiltinKind::Integer => TypeTest::Integer,
        BuiltinKind::Atom => TypeTest::Atom,
        BuiltinKind::Atomic => TypeTest::Atomic,
        _ => TypeTest::Compound,
    }
}

/// Whether the term of a cell passes a test of types.
fn passes<A: Agenda + Drop>(branch: &BranchState<A>, kind: BuiltinKind, c: Cell) -> bool
    requires sound { IsSound branch.now }
    requires cell { IsCell branch.now c }
    ensures { (name : Naming) → result ≡ passes_by kind (seen_at name branch.now c) }
{
    type_test(test_of(kind), branch.heap(), branch.store(), c)
}

/// What a built-in goal comes to, other than `fd_dom`, whose list takes new cells. The error is want of memory.
pub(crate) fn find_told<A: Agenda + Drop>(
    alloc: Global,
    branch: &BranchState<A>,
    pool: &Pool,
    kind: BuiltinKind,
    first: Cell,
    second: Cell,
) -> Result<Found, NoMemory>
    requires sound { IsSound branch.now }
    requires atoms { length pool.now.names ≡ branch.now.atoms }
    requires first { IsCell branch.now first }
    requires second { IsCell branch.now second }
    requires kind { kind ≡ FdDom → ⊥ }
    ensures { IfOk result (λ f. (name : Naming) → IsNaming pool.now.names name
        → Finds name branch.now kind first second f) }
{
    match kind {
        BuiltinKind::True | BuiltinKind::Write | BuiltinKind::Nl => Ok(Found::Decided(true)),
        BuiltinKind::Fail | BuiltinKind::False => Ok(Found::Decided(false)),
        BuiltinKind::Unify => Ok(Found::Equal(first, second)),
        BuiltinKind::Same => Ok(Found::Decided(identical(alloc, branch, first, second)?)),
        BuiltinKind::NotSame => Ok(Found::Decided(!identical(alloc, branch, first, second)?)),
        BuiltinKind::Is => match value(alloc, branch, pool, second)? {
            Ok(z) => Ok(Found::Equal(first, Cell::Int(z))),
            Err(fault) => Ok(Found::Fault(fault)),
        },
        BuiltinKind::NumEqual
        | BuiltinKind::NumDiffer
        | BuiltinKind::NumLess
        | BuiltinKind::NumAtMost
        | BuiltinKind::NumGreater
        | BuiltinKind::NumAtLeast => compare(alloc, branch, pool, kind, first, second),
        BuiltinKind::FdMin | BuiltinKind::FdMax | BuiltinKind::FdSize => {
            Ok(ask(branch, kind, first, second))
        }
        BuiltinKind::Var
        | BuiltinKind::Nonvar
        | BuiltinKind::Integer
        | BuiltinKind::Atom
        | BuiltinKind::Atomic
        | BuiltinKind::Compound => Ok(Found::Decided(passes(branch, kind, first))),
        BuiltinKind::FdDom => unreachable!(),
    }
}

/// Whether the terms of two cells are identical. The error is want of memory.
fn identical<A: Agenda + Drop>(
    alloc: Global,
    branch: &BranchState<A>,
    a: Cell,
    b: Cell,
) -> Result<bool, NoMemory>
    requires sound { IsSound branch.now }
    requires left { IsCell branch.now a }
    requires right { IsCell branch.now b }
    ensures { IfOk result (λ same. (name : Naming) → IsOneToOne name
        → same ≡ is_same (seen_at name branch.now a) (seen_at name branch.now b)) }
{
    same(alloc, branch.heap(), branch.store(), a, b)
}
