//! Arithmetic.

ghost use Rattle.std.specs.Prelude.{◌≡◌, ℕ, ◌<◌, ◌++◌, [], ◌∷◌, ℤ, pos, List, length, FitsSigned, IfSome, IfErr, Ok, OnOk, All, codes};
ghost use Rattle.std.specs.Str.{bytes_eq};
ghost use Rattle.std.specs.Option.{SomeIff};
ghost use Rattle.std.specs.Int.{w64};
ghost use Rattle.domain_ranges.specs.Views.{family_of};
ghost use Rattle.fd_language.specs.Family.{Family};
ghost use Rattle.fd_language.specs.Term.{Name};
ghost use Rattle.heap_cells.specs.Atoms.{HasAtomsBelow, IsAtomBelow};
ghost use Rattle.term_pool.specs.Contents.{name_in};
ghost use Rattle.heap_cells.specs.Cells.{Cells, IsOf};
ghost use Rattle.heap_cells.specs.Terms.{Naming};
ghost use Rattle.builtin_calls.specs.declared.evaluation.EvalFault.TheVariants as fault;
ghost use Rattle.builtin_calls.specs.declared.evaluation.Step.TheVariants as step;
ghost use Rattle.fd_model.specs.Arithmetic.{integer, modulo, value_of};
ghost use Rattle.builtin_calls.specs.Outcomes.{Tells, IsOwnFault, IsKnown, IsMeant, IsMeaning, IsNamedBy, meaning, operation_of};
ghost use Rattle.heap_cells.specs.SeenTerms.{seen_term, HasLinksBelow};
ghost use Rattle.builtin_calls.specs.CellTops.{IsSimple};
ghost use Rattle.builtin_calls.specs.Evaluations.{HasOpposite, IsEntered, IsOfHeap, IsOwn, IsOwnOperation, TellsStep, TellsDescent, TellsAscent};

use crate::cell_views::{glance, look};
use crate::operations::{OpenOperation, OpenOperations, Operation};
use domain_ranges::View;
use heap_cells::{Cell, Heap, Seen};
use std::alloc::{AllocError, Global};
use term_pool::{AtomId, Pool};
use thiserror::Error;

/// Why a term has no value.
#[derive(Clone, Copy, Debug, PartialEq, Eq, Drop, Error)]
pub enum EvalFault {
    /// A variable that is open and isn't known to be one integer.
    #[error("a variable has no value")]
    Unbound,
    /// An atom, or a compound term that is no operation.
    #[error("a term is no number and no operation")]
    NotANumber,
    /// A result is over 9,223,372,036,854,775,807, or under its opposite.
    #[error("a result is no integer of the language")]
    Overflow,
    /// A division by 0.
    #[error("a divisor is zero")]
    ZeroDivisor,
    /// Memory was wanting for the operations that wait; the term may have a value.
    #[error("out of memory")]
    NoMemory,
}

impl From<AllocError> for EvalFault {
    ghost from_gives = { λ _ e. e ≡ fault.NoMemory };

    fn from(_error: AllocError) -> EvalFault {
        EvalFault::NoMemory
    }
}

/// Where an evaluation stands: before a term, or behind one with its value.
#[derive(Clone, Copy)]
enum Step {
    Enter(Cell),
    Leave(i64),
}

/// The operation whose name is this character.
fn operation_of_byte(byte: u8) -> Option<Operation>
    ensures { result ≡ operation_of (byte ∷ []) }
{
    match byte {
        b'+' => Some(Operation::Add),
        b'-' => Some(Operation::Subtract),
        b'*' => Some(Operation::Multiply),
        _ => None,
    }
}

/// The operation of this name.
#[inline(never)]
fn operation_named(name: &str) -> Option<Operation>
    ensures { result ≡ operation_of name.now }
{
    match name.as_bytes() {
        &[only] => operation_of_byte(only),
        &[first, second] if first == b'/' && second == b'/' => Some(Operation::Divide),
        &[first, second, third] if first == b'm' && second == b'o' && third == b'd' => {
            Some(Operation::Modulo)
        }
        _ => None,
    }
}

/// An operation with the atom that names it.
#[derive(Clone, Copy)]
struct Named {
    name: AtomId,
    operation: Operation,
}

/// The operation that an atom names, which may be the latest that was looked for.
#[inline(always)]
fn find_operation(pool: &Pool, name: AtomId, latest: &mut Option<Named>) -> Option<Operation>
    requires own { name.number < length pool.now.names }
    requires latest { IfSome latest.old (IsMeant pool.now.names) }
    ensures found { result ≡ operation_of (name_in pool.now.names name) }
    ensures latest { IfSome latest.new (IsMeant pool.now.names) }
{
    if let Some(named) = *latest {
        if named.name.number == name.number {
            return Some(named.operation);
        }
    }
    let operation = operation_named(pool.name_of(name))?;
    *latest = Some(Named { name, operation });
    Some(operation)
}

/// Whether this is the name of the prefix `-`.
#[inline]
fn is_minus(name: &str) -> bool
    ensures { result ≡ bytes_eq name.now (codes "-") }
{
    match name.as_bytes() {
        &[only] => only == b'-',
        _ => false,
    }
}

/// The remainder with the divisor's sign. The divisor isn't 0.
fn modulo_of(left: i64, right: i64) -> i64
    requires { right ≡ pos 0 → ⊥ }
    ensures { result ≡ modulo left right }
{
    let rest = left.wrapping_rem(right);
    if rest != 0 && (rest < 0) != (right < 0) {
        rest + right
    } else {
        rest
    }
}

/// A result, where it is an integer of the language. `None` stands for one that has no 64 bits. No memory.
#[inline(always)]
fn checked(value: Option<i64>) -> Result<i64, EvalFault>
    ensures tells { (z : ℤ) → SomeIff value (FitsSigned w64 z) z → Tells result (integer z) }
    ensures memory { IfErr result IsOwnFault }
{
    match value {
        Some(z) if z != i64::MIN => Ok(z),
        _ => Err(EvalFault::Overflow),
    }
}

/// The result of an operation. No memory.
#[inline(always)]
fn apply(operation: Operation, left: i64, right: i64) -> Result<i64, EvalFault>
    ensures tells { Tells result (meaning operation left right) }
    ensures memory { IfErr result IsOwnFault }
{
    match operation {
        Operation::Add => checked(left.checked_add(right)),
        Operation::Subtract => checked(left.checked_sub(right)),
        Operation::Multiply => checked(left.checked_mul(right)),
        Operation::Divide if right != 0 => checked(left.checked_div(right)),
        Operation::Modulo if right != 0 => checked(Some(modulo_of(left, right))),
        _ => Err(EvalFault::ZeroDivisor),
    }
}

/// The value of an integer that a look shows, and `None` at another term.
#[inline(always)]
fn constant(heap: &Heap, c: Cell) -> Option<i64>
    requires { IsOf heap.now.now c }
    ensures { IfSome result (λ z. (name : Naming) (G : Family) → value_of
        (seen_term name heap.now.now G c) ≡ Ok z) }
{
    match glance(heap, c) {
        Some(z) if z != i64::MIN => Some(z),
        _ => None,
    }
}

/// The value of a term that is no compound term. No memory.
#[inline(never)]
fn value_of_simple<V: View>(heap: &Heap, view: &V, c: Cell) -> Result<i64, EvalFault>
    requires own { IsOf heap.now.now c }
    requires simple { IsSimple heap.now.now (family_of (V.sets view.now)) c }
    requires links { HasLinksBelow (length (V.sets view.now)) heap.now.now }
    ensures tells { (name : Naming) → Tells result
        (value_of (seen_term name heap.now.now (family_of (V.sets view.now)) c)) }
    ensures memory { IfErr result IsOwnFault }
{
    match look(heap, view, c) {
        Seen::Int(z) => checked(Some(z)),
        Seen::Atom(_) => Err(EvalFault::NotANumber),
        Seen::Struct(_, _) => Err(EvalFault::NotANumber),
        _ => Err(EvalFault::Unbound),
    }
}

/// The operand of an opposite. Another compound term that hasn't two arguments is no number. No memory.
#[inline(always)]
fn operand_of_opposite(name: &str, args: &[Cell]) -> Result<Cell, EvalFault>
    requires { length args.now ≡ 2 → ⊥ }
    ensures { HasOpposite name.now args.now result }
{
    match args {
        &[only] => {
            if is_minus(name) {
                Ok(only)
            } else {
                Err(EvalFault::NotANumber)
            }
        }
        _ => Err(EvalFault::NotANumber),
    }
}

/// Enters a compound term that hasn't two arguments.
#[inline(always)]
fn enter_opposite(
    name: &str,
    args: &[Cell],
    waiting: &mut OpenOperations,
) -> Result<Cell, EvalFault>
    requires { length args.now ≡ 2 → ⊥ }
    ensures { (h : Cells) (G : Family) → IsEntered h G name.now args.now waiting.old
        result waiting.new }
{
    let only = operand_of_opposite(name, args)?;
    waiting.push(OpenOperation::Opposite)?;
    Ok(only)
}

/// The operation that was found. A term without one is no number. No memory.
#[inline(always)]
fn known_operation(found: Option<Operation>) -> Result<Operation, EvalFault>
    ensures { IsKnown found result }
{
    match found {
        Some(operation) => Ok(operation),
        None => Err(EvalFault::NotANumber),
    }
}

/// Enters a compound term at its first operand, or at the second one where the first is an integer. `latest` is the operation that
/// was found last.
#[inline(always)]
fn enter_compound(
    heap: &Heap,
    pool: &Pool,
    name: AtomId,
    args: &[Cell],
    waiting: &mut OpenOperations,
    latest: &mut Option<Named>,
) -> Result<Cell, EvalFault>
    requires own { name.number < length pool.now.names }
    requires args { All (IsOf heap.now.now) args.now }
    requires latest { IfSome latest.old (IsMeant pool.now.names) }
    ensures entered { (G : Family) → IsEntered heap.now.now G
        (name_in pool.now.names name) args.now waiting.old result waiting.new }
    ensures latest { IfSome latest.new (IsMeant pool.now.names) }
{
    let &[left, right] = args else {
        return enter_opposite(pool.name_of(name), args, waiting);
    };
    let operation = known_operation(find_operation(pool, name, latest))?;
    if let Some(value) = constant(heap, left) {
        waiting.push(OpenOperation::Right(operation, value))?;
        return Ok(right);
    }
    waiting.push(OpenOperation::Left(operation, right))?;
    Ok(left)
}

/// Goes on with a value that was waited for.
#[inline(always)]
fn resume(
    heap: &Heap,
    waits: OpenOperation,
    value: i64,
    waiting: &mut OpenOperations,
) -> Result<Step, EvalFault>
    requires own { IsOfHeap heap.now.now waits }
    ensures goes { (names : List Name) (G : Family) → TellsStep names heap.now.now G
        (waiting.old ++ waits ∷ []) (step.Leave value) result waiting.new }
    ensures held { OnOk result (All (IsOfHeap heap.now.now) waiting.old
        → All (IsOfHeap heap.now.now) waiting.new) }
{
    match waits {
        OpenOperation::Left(operation, right) => {
            if let Some(operand) = constant(heap, right) {
                return Ok(Step::Leave(apply(operation, value, operand)?));
            }
            waiting.push(OpenOperation::Right(operation, value))?;
            Ok(Step::Enter(right))
        }
        OpenOperation::Right(operation, left) => Ok(Step::Leave(apply(operation, left, value)?)),
        OpenOperation::Opposite => Ok(Step::Leave(checked(value.checked_neg())?)),
    }
}

/// The value of a sum, a difference or a product by its sign, where it has one.
#[inline(always)]
fn value_by_sign(sign: u8, left: i64, right: i64) -> Option<i64>
    ensures { IfSome result (λ z. IsMeaning (sign ∷ []) left right z) }
{
    match sign {
        b'+' => apply(Operation::Add, left, right).ok(),
        b'-' => apply(Operation::Subtract, left, right).ok(),
        b'*' => apply(Operation::Multiply, left, right).ok(),
        _ => None,
    }
}

/// The value of an operation of two integers, where a look shows it. The cell has no binding to follow.
#[inline(always)]
fn near_operation(heap: &Heap, pool: &Pool, c: Cell) -> Option<i64>
    requires own { IsOf heap.now.now c }
    requires atoms { HasAtomsBelow (length pool.now.names) heap.now.now }
    ensures { IfSome result (λ z. (name : Naming) (G : Family) → IsNamedBy pool.now.names
        name → value_of (seen_term name heap.now.now G c) ≡ Ok z) }
{
    let Seen::Struct(f, &[left, right]) = heap.deref(c) else {
        return None;
    };
    let a = constant(heap, left)?;
    let b = constant(heap, right)?;
    let name = pool.name_of(f);
    match name.as_bytes() {
        &[sign] => value_by_sign(sign, a, b),
        _ => apply(operation_named(name)?, a, b).ok(),
    }
}

/// The value of an integer, or of an operation of two integers, where a look shows it.
#[inline(always)]
fn near_value(heap: &Heap, pool: &Pool, c: Cell) -> Option<i64>
    requires own { IsOf heap.now.now c }
    requires atoms { HasAtomsBelow (length pool.now.names) heap.now.now }
    ensures { IfSome result (λ z. (name : Naming) (G : Family) → IsNamedBy pool.now.names
        name → value_of (seen_term name heap.now.now G c) ≡ Ok z) }
{
    let root = heap.near_root(c)?;
    match root {
        Cell::Struct(_) => near_operation(heap, pool, root),
        _ => constant(heap, root),
    }
}

/// Goes down to the first integer, past what waits for values.
#[inline(never)]
fn descend<V: View>(
    heap: &Heap,
    pool: &Pool,
    view: &V,
    c: Cell,
    waiting: &mut OpenOperations,
) -> Result<i64, EvalFault>
    requires own { IsOwn (length pool.now.names) heap.now.now c }
    requires waiting { All (IsOwnOperation (length pool.now.names) heap.now.now) waiting.old }
    requires atoms { HasAtomsBelow (length pool.now.names) heap.now.now }
    requires links { HasLinksBelow (length (V.sets view.now)) heap.now.now }
    ensures { TellsDescent pool.now.names heap.now.now (family_of (V.sets view.now)) waiting.old c
        result waiting.new }
{
    let mut at = c;
    let mut latest = None;
    'down: loop {
        let Seen::Struct(f, args) = heap.deref(at) else {
            return value_of_simple(heap, view, at);
        };
        at = enter_compound(heap, pool, f, args, waiting, &mut latest)?;
    }
}

/// Goes up with a value, to the next operand that is to be entered, or to the end.
#[inline(always)]
fn ascend(heap: &Heap, value: i64, waiting: &mut OpenOperations) -> Result<Step, EvalFault>
    requires own { All (IsOfHeap heap.now.now) waiting.old }
    ensures { (names : List Name) (G : Family) → TellsAscent names heap.now.now G
        waiting.old value result waiting.new }
{
    let mut current = value;
    while let Some(waits) = waiting.pop() {
        match resume(heap, waits, current, waiting)? {
            Step::Enter(next) => return Ok(Step::Enter(next)),
            Step::Leave(next) => current = next,
        }
    }
    Ok(Step::Leave(current))
}

/// The value of a term, operand by operand.
#[inline(never)]
fn eval_nested<V: View>(
    alloc: Global,
    heap: &Heap,
    pool: &Pool,
    view: &V,
    c: Cell,
) -> Result<i64, EvalFault>
    requires own { IsOf heap.now.now c }
    requires atom { IsAtomBelow (length pool.now.names) c }
    requires atoms { HasAtomsBelow (length pool.now.names) heap.now.now }
    requires links { HasLinksBelow (length (V.sets view.now)) heap.now.now }
    ensures { (name : Naming) → IsNamedBy pool.now.names name → Tells result
        (value_of (seen_term name heap.now.now (family_of (V.sets view.now)) c)) }
{
    let mut waiting = OpenOperations::new(alloc);
    let mut at = c;
    'steps: loop {
        let value = descend(heap, pool, view, at, &mut waiting)?;
        match ascend(heap, value, &mut waiting)? {
            Step::Enter(next) => at = next,
            Step::Leave(value) => return Ok(value),
        }
    }
}

/// The value of a term: of integers, `+`, `-`, `*`, `//` toward zero, `mod` with the divisor's sign, and prefix `-`.
///
/// The cell is of the heap, the heap's atoms are of the pool, and the view's sets are those of the heap's variables of the store.
/// The left operand's fault comes first, then the right one's, then the operation's. An operation of integers takes no memory.
/// The heap stays as it is, also after an error; `NoMemory` says nothing of the term.
#[inline(always)]
pub fn eval<V: View>(
    alloc: Global,
    heap: &Heap,
    pool: &Pool,
    view: &V,
    c: Cell,
) -> Result<i64, EvalFault>
    requires own { IsOf heap.now.now c }
    requires atom { IsAtomBelow (length pool.now.names) c }
    requires atoms { HasAtomsBelow (length pool.now.names) heap.now.now }
    requires links { HasLinksBelow (length (V.sets view.now)) heap.now.now }
    ensures { (name : Naming) → IsNamedBy pool.now.names name → Tells result
        (value_of (seen_term name heap.now.now (family_of (V.sets view.now)) c)) }
{
    if let Some(value) = near_value(heap, pool, c) {
        return Ok(value);
    }
    eval_nested(alloc, heap, pool, view, c)
}
