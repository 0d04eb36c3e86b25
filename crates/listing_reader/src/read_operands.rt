//! Instructions with their operands.

ghost use Rattle.std.specs.Prelude.{◌≡◌, [], ◌∷◌};
ghost use Rattle.listing_reader.specs.Forms.{FitsInstruction, form_name, instruction_text, structure_code, constant_code, integer_code, value_code, variable_code, without_rows};
ghost use Rattle.listing_reader.specs.Reading.{Reads, ReadsAs};
ghost use Rattle.listing_reader.specs.NumberBounds.{IsNumber};
ghost use Rattle.listing_reader.specs.declared.forms.Operation.TheVariants as form;
ghost use Rattle.code_listing.specs.Texts.{atom_number};
ghost use Rattle.listing_reader.specs.Operands.{IsSmallAtom};

use crate::forms::{Lone, One, Side, Three, Two, counted_code, slotted_code};
use crate::read_goals::{read_aim, read_builtin, read_constraint, read_order};
use crate::read_words::{
    read_argument, read_arity, read_integer, read_number, read_register, read_slot,
};
use term_pool::AtomId;
use wam_code::{Code, Register};

/// The atom whose number a word writes.
pub(crate) fn read_atom_number(word: &[u8]) -> Option<AtomId>
    ensures { Reads IsSmallAtom atom_number word.now result }
{
    let Some(number) = read_number(word) else {
        return None;
    };
    Some(AtomId { number })
}

/// The instruction of this form.
pub(crate) fn lone_code(lone: Lone) -> Code
    ensures fits { FitsInstruction (without_rows result) }
    ensures text { instruction_text (without_rows result) ≡ form_name (form.Lone lone) ∷ [] }
{
    match lone {
        Lone::Deallocate => Code::Deallocate,
        Lone::Proceed => Code::Proceed,
        Lone::FailNow => Code::FailNow,
        Lone::AnswerNow => Code::AnswerNow,
        Lone::TrustMe => Code::TrustMe,
    }
}

/// The instruction of this form with an operand.
pub(crate) fn read_one(one: One, word: &[u8]) -> Option<Code>
    ensures { ReadsAs without_rows FitsInstruction instruction_text
        (form_name (form.One one) ∷ word.now ∷ []) result }
{
    match one {
        One::UnifyVariable => Some(Code::UnifyVariable(read_register(word)?)),
        One::UnifyValue => Some(Code::UnifyValue(read_register(word)?)),
        One::UnifyConstant => Some(Code::UnifyConstant(read_atom_number(word)?)),
        One::UnifyInteger => Some(Code::UnifyInteger(read_integer(word)?)),
        One::Counted(counted) => Some(counted_code(counted, read_number(word)?)),
        One::Slotted(slotted) => Some(slotted_code(slotted, read_slot(word)?)),
        One::Builtin => Some(Code::Builtin(read_builtin(word)?)),
        One::Constrain => Some(Code::Constrain(read_constraint(word)?)),
        One::Label => Some(Code::Label(read_order(word)?)),
    }
}

/// The instruction that takes or makes a variable.
fn variable_code(side: Side, register: Register, argument: usize) -> Code
    ensures { result ≡ variable_code side register argument }
{
    match side {
        Side::Get => Code::GetVariable(register, argument),
        Side::Put => Code::PutVariable(register, argument),
    }
}

/// The instruction that takes or makes a value.
fn value_code(side: Side, register: Register, argument: usize) -> Code
    ensures { result ≡ value_code side register argument }
{
    match side {
        Side::Get => Code::GetValue(register, argument),
        Side::Put => Code::PutValue(register, argument),
    }
}

/// The instruction that takes or makes an atom.
fn constant_code(side: Side, atom: AtomId, argument: usize) -> Code
    ensures { result ≡ constant_code side atom argument }
{
    match side {
        Side::Get => Code::GetConstant(atom, argument),
        Side::Put => Code::PutConstant(atom, argument),
    }
}

/// The instruction that takes or makes an integer.
fn integer_code(side: Side, integer: i64, argument: usize) -> Code
    ensures { result ≡ integer_code side integer argument }
{
    match side {
        Side::Get => Code::GetInteger(integer, argument),
        Side::Put => Code::PutInteger(integer, argument),
    }
}

/// The instruction that takes or makes a structure.
fn structure_code(side: Side, functor: AtomId, arity: u8, argument: usize) -> Code
    ensures { result ≡ structure_code side functor arity argument }
{
    match side {
        Side::Get => Code::GetStructure(functor, arity, argument),
        Side::Put => Code::PutStructure(functor, arity, argument),
    }
}

/// The instruction of this form with two operands.
pub(crate) fn read_two(two: Two, first: &[u8], second: &[u8]) -> Option<Code>
    ensures { ReadsAs without_rows FitsInstruction instruction_text
        (form_name (form.Two two) ∷ first.now ∷ second.now ∷ []) result }
{
    match two {
        Two::Variable(side) => {
            let register = read_register(first)?;
            Some(variable_code(side, register, read_argument(second)?))
        }
        Two::Value(side) => {
            let register = read_register(first)?;
            Some(value_code(side, register, read_argument(second)?))
        }
        Two::Constant(side) => {
            let atom = read_atom_number(first)?;
            Some(constant_code(side, atom, read_argument(second)?))
        }
        Two::Integer(side) => {
            let integer = read_integer(first)?;
            Some(integer_code(side, integer, read_argument(second)?))
        }
        Two::Best => Some(Code::Best(read_order(first)?, read_aim(second)?)),
        Two::PostRange => Some(Code::PostRange(read_number(first)?, read_number(second)?)),
    }
}

/// The instruction of this form with three operands.
pub(crate) fn read_three(three: Three, first: &[u8], second: &[u8], third: &[u8]) -> Option<Code>
    ensures { ReadsAs without_rows FitsInstruction instruction_text
        (form_name (form.Three three) ∷ first.now ∷ second.now ∷ third.now ∷ []) result }
{
    match three {
        Three::Structure(side) => {
            let functor = read_atom_number(first)?;
            let arity = read_arity(second)?;
            Some(structure_code(side, functor, arity, read_argument(third)?))
        }
        Three::EnterTest => {
            let test = read_slot(first)?;
            let above = read_slot(second)?;
            Some(Code::EnterTest(test, above, read_number(third)?))
        }
    }
}

/// The switch by kinds of terms with these places.
pub(crate) fn read_switch_on_term(v: &[u8], c: &[u8], i: &[u8], s: &[u8]) -> Option<Code>
    ensures { ReadsAs without_rows FitsInstruction instruction_text
        (form_name form.SwitchOnTerm ∷ v.now ∷ c.now ∷ i.now ∷ s.now ∷ []) result }
{
    let (Some(variable), Some(constant)) = (read_number(v), read_number(c)) else {
        return None;
    };
    let (Some(integer), Some(structure)) = (read_number(i), read_number(s)) else {
        return None;
    };
    Some(Code::SwitchOnTerm(variable, constant, integer, structure))
}
