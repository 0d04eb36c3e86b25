//! The words of an instruction.

ghost use Rattle.std.specs.Prelude.{◌≡◌, ◌++◌, [], ◌∷◌, map, codes, decimal, OnOk};
ghost use Rattle.std.specs.Fmt.{signed_decimal};
ghost use Rattle.wam_code.specs.declared.instruction.Register.TheVariants.{X};
ghost use Rattle.code_listing.specs.Words.{more_words};
ghost use Rattle.code_listing.specs.Texts.{atom_number, argument_word, register_word, slot_word, row_word, instruction_words};

use crate::names::{aim_word, order_word, put_builtin, put_constraint};
use crate::words::{put_integer_word, put_number_word, put_register_word, put_rows, put_word};
use fd_language::NoMemory;
use std::alloc::Global;
use term_pool::AtomId;
use wam_code::{Code, Key, Register};

/// Appends a name and a number.
fn put_one(text: &mut Vec<u8>, name: &[u8], number: usize) -> Result<(), NoMemory>
    ensures { OnOk result (text.new.items ≡ text.old.items
        ++ more_words (name.now ∷ decimal number ∷ [])) }
{
    put_word(text, name)?;
    put_number_word(text, number)
}

/// Appends a name and two numbers.
fn put_two(text: &mut Vec<u8>, name: &[u8], one: usize, two: usize) -> Result<(), NoMemory>
    ensures { OnOk result (text.new.items ≡ text.old.items
        ++ more_words (name.now ∷ decimal one ∷ decimal two ∷ [])) }
{
    put_word(text, name)?;
    put_number_word(text, one)?;
    put_number_word(text, two)
}

/// Appends a name and four places.
fn put_four(
    text: &mut Vec<u8>,
    name: &[u8],
    v: usize,
    c: usize,
    i: usize,
    s: usize,
) -> Result<(), NoMemory>
    ensures { OnOk result (text.new.items ≡ text.old.items
        ++ more_words (name.now ∷ decimal v ∷ decimal c ∷ decimal i ∷ decimal s ∷ [])) }
{
    put_word(text, name)?;
    put_number_word(text, v)?;
    put_number_word(text, c)?;
    put_number_word(text, i)?;
    put_number_word(text, s)
}

/// Appends a name and a register.
fn put_register(text: &mut Vec<u8>, name: &[u8], register: Register) -> Result<(), NoMemory>
    ensures { OnOk result (text.new.items ≡ text.old.items
        ++ more_words (name.now ∷ register_word register ∷ [])) }
{
    put_word(text, name)?;
    put_register_word(text, register)
}

/// Appends a name, a register and an argument register.
fn put_pair(
    text: &mut Vec<u8>,
    name: &[u8],
    register: Register,
    argument: usize,
) -> Result<(), NoMemory>
    ensures { OnOk result (text.new.items ≡ text.old.items
        ++ more_words (name.now ∷ register_word register ∷ argument_word argument ∷ [])) }
{
    put_word(text, name)?;
    put_register_word(text, register)?;
    put_register_word(text, Register::X(argument))
}

/// Appends a name, an atom and an argument register.
fn put_atom(text: &mut Vec<u8>, name: &[u8], atom: AtomId, argument: usize) -> Result<(), NoMemory>
    ensures { OnOk result (text.new.items ≡ text.old.items
        ++ more_words (name.now ∷ atom_number atom ∷ argument_word argument ∷ [])) }
{
    put_word(text, name)?;
    put_number_word(text, atom.number)?;
    put_register_word(text, Register::X(argument))
}

/// Appends a name, two slots and a place.
fn put_test(
    text: &mut Vec<u8>,
    name: &[u8],
    one: usize,
    two: usize,
    to: usize,
) -> Result<(), NoMemory>
    ensures { OnOk result (text.new.items ≡ text.old.items
        ++ more_words (name.now ∷ slot_word one ∷ slot_word two ∷ decimal to ∷ [])) }
{
    put_word(text, name)?;
    put_register_word(text, Register::Y(one))?;
    put_register_word(text, Register::Y(two))?;
    put_number_word(text, to)
}

/// Appends a name and an integer.
fn put_integer(text: &mut Vec<u8>, name: &[u8], integer: i64) -> Result<(), NoMemory>
    ensures { OnOk result (text.new.items ≡ text.old.items
        ++ more_words (name.now ∷ signed_decimal integer ∷ [])) }
{
    put_word(text, name)?;
    put_integer_word(text, integer)
}

/// Appends a name, an integer and an argument register.
fn put_integer_argument(
    text: &mut Vec<u8>,
    name: &[u8],
    integer: i64,
    argument: usize,
) -> Result<(), NoMemory>
    ensures { OnOk result (text.new.items ≡ text.old.items
        ++ more_words (name.now ∷ signed_decimal integer ∷ argument_word argument ∷ [])) }
{
    put_word(text, name)?;
    put_integer_word(text, integer)?;
    put_register_word(text, Register::X(argument))
}

/// Appends a name, a structure's name and number of arguments, and an argument register.
fn put_structure(
    text: &mut Vec<u8>,
    name: &[u8],
    functor: AtomId,
    arity: u8,
    argument: usize,
) -> Result<(), NoMemory>
    ensures { OnOk result (text.new.items ≡ text.old.items ++ more_words
        (name.now ∷ atom_number functor ∷ decimal arity ∷ argument_word argument ∷ [])) }
{
    put_word(text, name)?;
    put_number_word(text, functor.number)?;
    put_number_word(text, arity as usize)?;
    put_register_word(text, Register::X(argument))
}

/// Appends a name and the rows of a switch.
fn put_switch(text: &mut Vec<u8>, name: &[u8], table: &[(Key, usize)]) -> Result<(), NoMemory>
    ensures { OnOk result (text.new.items ≡ text.old.items
        ++ more_words (name.now ∷ map row_word table.now)) }
{
    put_word(text, name)?;
    put_rows(text, table)
}

/// Appends the instruction's name and its operands, each behind a space. The table is that of a
/// switch.
pub(crate) fn put_instruction(
    alloc: Global,
    text: &mut Vec<u8>,
    table: &[(Key, usize)],
    code: Code,
) -> Result<(), NoMemory>
    ensures { OnOk result (text.new.items ≡ text.old.items
        ++ more_words (instruction_words table.now code)) }
{
    match code {
        Code::GetVariable(r, a) => put_pair(text, b"GetVariable", r, a),
        Code::GetValue(r, a) => put_pair(text, b"GetValue", r, a),
        Code::GetConstant(c, a) => put_atom(text, b"GetConstant", c, a),
        Code::GetInteger(n, a) => put_integer_argument(text, b"GetInteger", n, a),
        Code::GetStructure(f, n, a) => put_structure(text, b"GetStructure", f, n, a),
        Code::UnifyVariable(r) => put_register(text, b"UnifyVariable", r),
        Code::UnifyValue(r) => put_register(text, b"UnifyValue", r),
        Code::UnifyConstant(c) => put_one(text, b"UnifyConstant", c.number),
        Code::UnifyInteger(n) => put_integer(text, b"UnifyInteger", n),
        Code::UnifyVoid(n) => put_one(text, b"UnifyVoid", n),
        Code::PutVariable(r, a) => put_pair(text, b"PutVariable", r, a),
        Code::PutValue(r, a) => put_pair(text, b"PutValue", r, a),
        Code::PutConstant(c, a) => put_atom(text, b"PutConstant", c, a),
        Code::PutInteger(n, a) => put_integer_argument(text, b"PutInteger", n, a),
        Code::PutStructure(f, n, a) => put_structure(text, b"PutStructure", f, n, a),
        Code::Allocate(n) => put_one(text, b"Allocate", n),
        Code::Deallocate => put_word(text, b"Deallocate"),
        Code::Call(e) => put_one(text, b"Call", e),
        Code::Execute(e) => put_one(text, b"Execute", e),
        Code::Proceed => put_word(text, b"Proceed"),
        Code::Jump(to) => put_one(text, b"Jump", to),
        Code::FailNow => put_word(text, b"FailNow"),
        Code::AnswerNow => put_word(text, b"AnswerNow"),
        Code::TryMeElse(to) => put_one(text, b"TryMeElse", to),
        Code::RetryMeElse(to) => put_one(text, b"RetryMeElse", to),
        Code::TrustMe => put_word(text, b"TrustMe"),
        Code::Try(to) => put_one(text, b"Try", to),
        Code::Retry(to) => put_one(text, b"Retry", to),
        Code::Trust(to) => put_one(text, b"Trust", to),
        Code::SwitchOnTerm(v, c, i, s) => put_four(text, b"SwitchOnTerm", v, c, i, s),
        Code::SwitchOnConstant(_) => put_switch(text, b"SwitchOnConstant", table),
        Code::SwitchOnInteger(_) => put_switch(text, b"SwitchOnInteger", table),
        Code::SwitchOnStructure(_) => put_switch(text, b"SwitchOnStructure", table),
        Code::Either(to) => put_one(text, b"Either", to),
        Code::Builtin(kind) => {
            put_word(text, b"Builtin ")?;
            put_builtin(alloc, text, kind)
        }
        Code::Constrain(kind) => {
            put_word(text, b"Constrain ")?;
            put_constraint(alloc, text, kind)
        }
        Code::Label(order) => {
            put_word(text, b"Label")?;
            put_word(text, order_word(order))
        }
        Code::Best(order, least) => {
            put_word(text, b"Best")?;
            put_word(text, order_word(order))?;
            put_word(text, aim_word(least))
        }
        Code::PostRange(r, n) => put_two(text, b"PostRange", r, n),
        Code::Level(n) => put_register(text, b"Level", Register::Y(n)),
        Code::TestOnly(n) => put_register(text, b"TestOnly", Register::Y(n)),
        Code::EnterTest(n, m, to) => put_test(text, b"EnterTest", n, m, to),
        Code::CutTo(n) => put_register(text, b"CutTo", Register::Y(n)),
    }
}
