//! The instructions of a range.

ghost use Rattle.std.specs.Prelude.{◌≡◌, ℤ, ◌∷◌, ◌++◌, [], map, IfOk, OnOk};
ghost use Rattle.std.specs.Ordering.{int_eq};
ghost use Rattle.std.specs.List.{position_or_len};
ghost use Rattle.indexmap.specs.IndexSet.{insert_key, insert_all};
ghost use Rattle.range_code.specs.Pieces.{piece_node, literals};
ghost use Rattle.range_code.specs.Instructions.{without_need, tests_for, instr_of as instr_of_node};
ghost use Rattle.range_code.specs.CodeFields.{AreStepsOf};

use crate::evaluate::Steps;
use crate::fold::Piece;
use fd_language::{INFINITY, Need, NoMemory, RangeNode};
use indexmap::IndexSet;
use std::alloc::Global;

/// What is done next where a range is evaluated, on a stack of numbers and one of sets.
///
/// The tests stand in front, `NeedSome` before `NeedFixed`. The others stand in postfix order.
#[derive(Clone, Copy, Debug, PartialEq, Eq)]
pub enum RangeInstr {
    /// Ends with the empty set where the domain in the slot is empty.
    NeedSome(usize),
    /// Ends with all numbers from 0 to `INFINITY` where the domain in the slot has several members.
    NeedFixed(usize),
    /// The constant at the place in the table.
    PushConst(usize),
    /// The integer in the slot.
    PushArg(usize),
    /// The least member of the domain in the slot.
    PushMin(usize),
    /// The greatest member of the domain in the slot.
    PushMax(usize),
    /// The only member of the domain in the slot.
    PushVal(usize),
    /// The sum of two numbers.
    Add,
    /// The difference of two numbers.
    Sub,
    /// The product of two numbers.
    Mul,
    /// The quotient of two numbers, rounded down.
    DivDown,
    /// The quotient of two numbers, rounded up.
    DivUp,
    /// The numbers from a number to a number.
    Span,
    /// One number alone.
    One,
    /// The domain in the slot.
    PushDom(usize),
    /// The union of two sets.
    Union,
    /// The intersection of two sets.
    Inter,
    /// The complement of a set.
    Outside,
    /// The members of a set plus a number.
    Plus,
    /// The members of a set less a number.
    Minus,
    /// The members of a set times a number.
    Times,
    /// The numbers whose product with a number is in a set.
    Over,
}

/// The constants of a range by their places, and the places by their constants.
#[derive(Drop)]
struct Table {
    pub values: Vec<i128>,
    pub places: IndexSet<i128>,
}

impl Table {
    /// A table without constants.
    fn new(alloc: Global) -> Table
        ensures values { result.values.items ≡ [] }
        ensures places { result.places.keys ≡ [] }
    {
        Table {
            values: Vec::new(alloc),
            places: IndexSet::new(alloc),
        }
    }

    /// Gives the constant a place, if it has none.
    fn add(&mut self, value: i128) -> Result<(), NoMemory>
        ensures places { OnOk result (self.new.places.keys
            ≡ insert_key int_eq self.old.places.keys value) }
        ensures values { OnOk result (self.old.values.items ≡ self.old.places.keys
            → self.new.values.items ≡ self.new.places.keys) }
    {
        if self.places.insert(value)? {
            self.values.push(value)?;
        }
        Ok(())
    }

    /// Gives the constant of a literal a place.
    fn add_piece(&mut self, piece: Piece) -> Result<(), NoMemory>
        ensures places { OnOk result (self.new.places.keys
            ≡ insert_all int_eq self.old.places.keys (literals (piece ∷ []))) }
        ensures values { OnOk result (self.old.values.items ≡ self.old.places.keys
            → self.new.values.items ≡ self.new.places.keys) }
    {
        match piece {
            Piece::Literal(value) => self.add(value),
            Piece::Other(_) => Ok(()),
        }
    }

    /// The place of the constant, and the number of constants where it has none.
    fn place(&self, value: i128) -> usize
        ensures { result ≡ position_or_len (int_eq value) self.now.places.keys }
    {
        match self.places.get_index_of(&value) {
            Some(place) => place,
            None => self.places.len(),
        }
    }
}

/// The values of the literals, each once, in the order of first use.
fn number_constants(alloc: Global, pieces: &[Piece]) -> Result<Table, NoMemory>
    ensures places { IfOk result (λ table. table.places.keys
        ≡ insert_all int_eq [] (literals pieces.now)) }
    ensures values { IfOk result (λ table. table.values.items ≡ table.places.keys) }
{
    let mut table = Table::new(alloc);
    for piece in pieces {
        table.add_piece(*piece)?;
    }
    Ok(table)
}

/// The instruction of a node.
fn instr_of(node: RangeNode, table: &Table) -> RangeInstr
    ensures { result ≡ instr_of_node table.now.places.keys node }
{
    match node {
        RangeNode::Int(value) => RangeInstr::PushConst(table.place(value as i128)),
        RangeNode::Infinity => RangeInstr::PushConst(table.place(INFINITY as i128)),
        RangeNode::Param(slot) => RangeInstr::PushArg(slot as usize),
        RangeNode::Min(slot) => RangeInstr::PushMin(slot as usize),
        RangeNode::Max(slot) => RangeInstr::PushMax(slot as usize),
        RangeNode::Val(slot) => RangeInstr::PushVal(slot as usize),
        RangeNode::Add => RangeInstr::Add,
        RangeNode::Sub => RangeInstr::Sub,
        RangeNode::Mul => RangeInstr::Mul,
        RangeNode::DivDown => RangeInstr::DivDown,
        RangeNode::DivUp => RangeInstr::DivUp,
        RangeNode::Span => RangeInstr::Span,
        RangeNode::One => RangeInstr::One,
        RangeNode::Dom(slot) => RangeInstr::PushDom(slot as usize),
        RangeNode::Union => RangeInstr::Union,
        RangeNode::Inter => RangeInstr::Inter,
        RangeNode::Outside => RangeInstr::Outside,
        RangeNode::Plus => RangeInstr::Plus,
        RangeNode::Minus => RangeInstr::Minus,
        RangeNode::Times => RangeInstr::Times,
        RangeNode::Over => RangeInstr::Over,
    }
}

/// The instruction of a piece.
fn instr_of_piece(piece: Piece, table: &Table) -> RangeInstr
    ensures { result ≡ instr_of_node table.now.places.keys (piece_node piece) }
{
    match piece {
        Piece::Literal(value) => RangeInstr::PushConst(table.place(value)),
        Piece::Other(node) => instr_of(node, table),
    }
}

/// The tests: that the domain in each slot that needs nothing has a member, and that those in `vals` have only one.
fn tests_of(
    alloc: Global,
    needs: &[Option<Need>],
    vals: &[usize],
) -> Result<Vec<RangeInstr>, NoMemory>
    ensures { IfOk result (λ tests. tests.items ≡ tests_for needs.now vals.now) }
{
    let mut tests = some_tests(alloc, needs)?;
    for slot in vals {
        tests.push(RangeInstr::NeedFixed(*slot))?;
    }
    Ok(tests)
}

/// A test for each slot that needs nothing.
fn some_tests(alloc: Global, needs: &[Option<Need>]) -> Result<Vec<RangeInstr>, NoMemory>
    ensures { IfOk result (λ tests. tests.items
        ≡ map RangeInstr.NeedSome (without_need 0 needs.now)) }
{
    let mut tests = Vec::new(alloc);
    for (slot, need) in needs.iter().enumerate() {
        if need.is_none() {
            tests.push(RangeInstr::NeedSome(slot))?;
        }
    }
    Ok(tests)
}

/// The instructions of the pieces, behind others.
fn put_pieces(instrs: &mut Vec<RangeInstr>, pieces: &[Piece], table: &Table) -> Result<(), NoMemory>
    ensures { OnOk result (instrs.new.items ≡ instrs.old.items
        ++ map (instr_of_node table.now.places.keys) (map piece_node pieces.now)) }
{
    instrs.reserve(pieces.len())?;
    for piece in pieces {
        instrs.push(instr_of_piece(*piece, table))?;
    }
    Ok(())
}

/// What is evaluated for the pieces, where each slot needs something of its parameter or has a variable, and those in `vals` have to be known.
pub(crate) fn steps_of(
    alloc: Global,
    needs: &[Option<Need>],
    vals: &[usize],
    pieces: &[Piece],
) -> Result<Steps, NoMemory>
    ensures { IfOk result (AreStepsOf needs.now vals.now
        (literals pieces.now) (map piece_node pieces.now)) }
{
    let table = number_constants(alloc, pieces)?;
    let mut instrs = tests_of(alloc, needs, vals)?;
    let tests = instrs.len();
    put_pieces(&mut instrs, pieces, &table)?;
    Ok(Steps {
        instrs,
        tests,
        constants: table.values,
    })
}
