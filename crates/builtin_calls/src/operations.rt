//! What waits for the values of operands.

ghost use Rattle.std.specs.Prelude.{◌≡◌, ◌<◌, ◌++◌, [], ◌∷◌, MatchOption, OnOk};
ghost use Rattle.std.specs.Vec.{vec_len, vec_capacity};

use heap_cells::Cell;
use std::alloc::{AllocError, Global};
use std::marker::Model;

/// An operation of two operands.
#[derive(Clone, Copy)]
pub(crate) enum Operation {
    Add,
    Subtract,
    Multiply,
    Divide,
    Modulo,
}

/// What waits for the value of an operand.
#[derive(Clone, Copy)]
pub(crate) enum OpenOperation {
    /// An operation that waits for its left operand. The right one is to be entered then.
    Left(Operation, Cell),
    /// An operation with its left operand that waits for its right one.
    Right(Operation, i64),
    /// A prefix `-`.
    Opposite,
}

/// How many may wait before their number takes memory.
const ROOM: usize = 8;

/// For how many more memory is taken at once.
const MORE: usize = 56;

/// All that waits, of which the last is the next: the first eight here, and those behind them in memory of their own.
#[derive(Drop)]
pub(crate) struct OpenOperations {
    near: [OpenOperation; ROOM],
    count: usize,
    far: Vec<OpenOperation>,
}

impl Model for OpenOperations {
    ghost use Rattle.std.specs.Prelude.{List};
    ghost use Rattle.builtin_calls.specs.declared.operations.OpenOperation.{OpenOperation};
    ghost use Rattle.builtin_calls.specs.OpenOperations.{all_open, IsFilled};

    ghost Value = { List OpenOperation };

    ghost view = { λ w. all_open w.near w.count w.far.items };

    ghost invariant = { λ w. IsFilled w.near w.count w.far.items };
}

/// Makes room for more. The error is want of memory.
#[inline(never)]
fn make_room(far: &mut Vec<OpenOperation>) -> Result<(), AllocError>
    ensures items { far.new.items ≡ far.old.items }
    ensures room { OnOk result (vec_len far.new < vec_capacity far.new) }
{
    far.reserve(MORE)
}

/// Puts what waits behind the others. The error is want of memory.
#[inline(always)]
fn push_far(far: &mut Vec<OpenOperation>, waits: OpenOperation) -> Result<(), AllocError>
    ensures { OnOk result (far.new.items ≡ far.old.items ++ waits ∷ []) }
{
    if far.len() == far.capacity() {
        make_room(far)?;
    }
    far.push_reserved(waits);
    Ok(())
}

impl OpenOperations {
    /// Nothing waits.
    #[inline]
    pub(crate) fn new(alloc: Global) -> OpenOperations
        ensures { result ≡ [] }
    {
        OpenOperations {
            near: [OpenOperation::Opposite; ROOM],
            count: 0,
            far: Vec::new(alloc),
        }
    }

    /// Puts what waits behind the others. The error is want of memory.
    #[inline(always)]
    pub(crate) fn push(&mut self, waits: OpenOperation) -> Result<(), AllocError>
        ensures { OnOk result (self.new ≡ self.old ++ waits ∷ []) }
    {
        if self.count < ROOM {
            self.near[self.count] = waits;
            self.count += 1;
        } else {
            push_far(&mut self.far, waits)?;
        }
        Ok(())
    }

    /// Takes the last of what waits away.
    #[inline(always)]
    pub(crate) fn pop(&mut self) -> Option<OpenOperation>
        ensures { MatchOption result (self.old ≡ []) (λ w. self.old ≡ self.new ++ w ∷ []) }
    {
        if let Some(waits) = self.far.pop() {
            return Some(waits);
        }
        if self.count == 0 {
            return None;
        }
        self.count -= 1;
        Some(self.near[self.count])
    }
}
