//! Words of a line: registers, keys, states and nodes of ranges.

ghost use Rattle.std.specs.Prelude.{◌≡◌, ◌++◌, [], ◌∷◌, map, codes, decimal, Some, OnOk};
ghost use Rattle.std.specs.Fmt.{signed_decimal};
ghost use Rattle.code_listing.specs.Words.{each_behind, more_words};
ghost use Rattle.code_listing.specs.Texts as texts;

use crate::numbers::{put_integer, put_number};
use fd_language::{NoMemory, RangeNode};
use wam_code::{Key, Register};

/// Appends a word behind a space.
pub(crate) fn put_word(text: &mut Vec<u8>, word: &[u8]) -> Result<(), NoMemory>
    ensures { OnOk result (text.new.items ≡ text.old.items ++ (codes " " ++ word.now)) }
{
    text.push(b' ')?;
    text.extend_from_slice(word)?;
    Ok(())
}

/// Appends a number behind a space.
pub(crate) fn put_number_word(text: &mut Vec<u8>, number: usize) -> Result<(), NoMemory>
    ensures { OnOk result (text.new.items ≡ text.old.items ++ (codes " " ++ decimal number)) }
{
    text.push(b' ')?;
    put_number(text, number)
}

/// Appends an integer behind a space.
pub(crate) fn put_integer_word(text: &mut Vec<u8>, integer: i64) -> Result<(), NoMemory>
    ensures { OnOk result
        (text.new.items ≡ text.old.items ++ (codes " " ++ signed_decimal integer)) }
{
    text.push(b' ')?;
    put_integer(text, integer)
}

/// Appends a register.
fn put_register(text: &mut Vec<u8>, register: Register) -> Result<(), NoMemory>
    ensures { OnOk result (text.new.items ≡ text.old.items ++ texts.register_word register) }
{
    match register {
        Register::X(number) => {
            text.push(b'x')?;
            put_number(text, number)
        }
        Register::Y(number) => {
            text.push(b'y')?;
            put_number(text, number)
        }
    }
}

/// Appends a register behind a space.
pub(crate) fn put_register_word(text: &mut Vec<u8>, register: Register) -> Result<(), NoMemory>
    ensures { OnOk result
        (text.new.items ≡ text.old.items ++ (codes " " ++ texts.register_word register)) }
{
    text.push(b' ')?;
    put_register(text, register)
}

/// Appends a key.
fn put_key(text: &mut Vec<u8>, key: Key) -> Result<(), NoMemory>
    ensures { OnOk result (text.new.items ≡ text.old.items ++ texts.key_text key) }
{
    match key {
        Key::Atom(atom) => put_number(text, atom.number),
        Key::Int(integer) => put_integer(text, integer),
        Key::Struct(name, arity) => {
            put_number(text, name.number)?;
            text.push(b'/')?;
            put_number(text, arity as usize)
        }
    }
}

/// Appends a row of a switch behind a space.
fn put_row_word(text: &mut Vec<u8>, row: (Key, usize)) -> Result<(), NoMemory>
    ensures { OnOk result
        (text.new.items ≡ text.old.items ++ (codes " " ++ texts.row_word row)) }
{
    text.push(b' ')?;
    put_key(text, row.0)?;
    text.push(b':')?;
    put_number(text, row.1)
}

/// Appends the rows of a switch, each behind a space.
pub(crate) fn put_rows(text: &mut Vec<u8>, rows: &[(Key, usize)]) -> Result<(), NoMemory>
    ensures { OnOk result
        (text.new.items ≡ text.old.items ++ more_words (map texts.row_word rows.now)) }
{
    for (index, row) in rows.iter().enumerate() {
        put_row_word(text, *row)?;
    }
    Ok(())
}

/// Appends what stands before the text of this index, where texts are separated.
fn put_separator(text: &mut Vec<u8>, index: usize, separator: u8) -> Result<(), NoMemory>
    ensures { OnOk result (text.new.items ≡ text.old.items
        ++ texts.separator_at index (separator ∷ [])) }
{
    if index == 0 {
        return Ok(());
    }
    text.push(separator)?;
    Ok(())
}

/// Appends registers separated by commas.
fn put_registers(text: &mut Vec<u8>, registers: &[usize]) -> Result<(), NoMemory>
    ensures { OnOk result (text.new.items ≡ text.old.items
        ++ texts.registers_between registers.now) }
{
    for (index, number) in registers.iter().enumerate() {
        put_separator(text, index, b',')?;
        put_register(text, Register::X(*number))?;
    }
    Ok(())
}

/// Appends the argument registers of a state.
pub(crate) fn put_state_registers(text: &mut Vec<u8>, registers: &[usize]) -> Result<(), NoMemory>
    ensures { OnOk result
        (text.new.items ≡ text.old.items ++ texts.registers_word registers.now) }
{
    if registers.is_empty() {
        text.push(b'-')?;
        return Ok(());
    }
    put_registers(text, registers)
}

/// Appends a node's name and the number of its variable.
fn put_numbered(text: &mut Vec<u8>, name: &[u8], variable: u64) -> Result<(), NoMemory>
    ensures { OnOk result
        (text.new.items ≡ text.old.items ++ texts.numbered name.now variable) }
{
    text.extend_from_slice(name)?;
    put_number_word(text, variable as usize)
}

/// Appends a node of a range.
fn put_node(text: &mut Vec<u8>, node: RangeNode) -> Result<(), NoMemory>
    ensures { OnOk result (text.new.items ≡ text.old.items ++ texts.node_text node) }
{
    let name: &[u8] = match node {
        RangeNode::Int(integer) => {
            text.push(b'i')?;
            return put_integer_word(text, integer);
        }
        RangeNode::Param(variable) => return put_numbered(text, b"p", variable),
        RangeNode::Min(variable) => return put_numbered(text, b"min", variable),
        RangeNode::Max(variable) => return put_numbered(text, b"max", variable),
        RangeNode::Val(variable) => return put_numbered(text, b"val", variable),
        RangeNode::Dom(variable) => return put_numbered(text, b"dom", variable),
        RangeNode::Infinity => b"inf",
        RangeNode::Add => b"add",
        RangeNode::Sub => b"sub",
        RangeNode::Mul => b"mul",
        RangeNode::DivDown => b"down",
        RangeNode::DivUp => b"up",
        RangeNode::Span => b"span",
        RangeNode::One => b"one",
        RangeNode::Union => b"union",
        RangeNode::Inter => b"inter",
        RangeNode::Outside => b"outside",
        RangeNode::Plus => b"plus",
        RangeNode::Minus => b"minus",
        RangeNode::Times => b"times",
        RangeNode::Over => b"over",
    };
    text.extend_from_slice(name)?;
    Ok(())
}

/// Appends the nodes of a range, separated by spaces.
pub(crate) fn put_nodes(text: &mut Vec<u8>, nodes: &[RangeNode]) -> Result<(), NoMemory>
    ensures { OnOk result (text.new.items ≡ text.old.items ++ texts.nodes_text nodes.now) }
{
    for (index, node) in nodes.iter().enumerate() {
        put_separator(text, index, b' ')?;
        put_node(text, *node)?;
    }
    Ok(())
}
