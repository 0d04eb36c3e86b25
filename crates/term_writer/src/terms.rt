//! Terms, written piece by piece.

ghost use Rattle.std.specs.Prelude.{◌≡◌, ℕ, ◌+◌, ◌<◌, List, [], ◌∷◌, Some, length, All, OnOk, codes, nat_le, if◌then◌else◌};
ghost use Rattle.std.specs.Fmt.{signed_decimal};
ghost use Rattle.fd_language.specs.TermTexts as Writing;
ghost use Rattle.term_pool.specs.Contents.{Contents, atom_name};
ghost use Rattle.term_pool.specs.Terms.{term_of, terms_by};
ghost use Rattle.term_writer.specs.Pieces.{IsOf, IsRest, Replaces, finished, piece_text, piece_weight, operator_text, joined, weight, weights};
ghost use Rattle.term_writer.specs.Views.{mode_of, text_in, text_of};

use crate::atoms::{append, append_name, is_letter_word};
use crate::names::Names;
use crate::pieces::{CompoundForm, Piece, Rest, form_of};
use crate::{Mode, VarText};
use fd_language::NoMemory;
use itoa::Buffer;
use name_syntax::operators::Operator;
use std::alloc::Global;
use term_pool::{AtomId, Node, Pool, TermId};

/// What stands before and behind an infix term at a limit.
fn parentheses(operator: Operator, limit: u32) -> (&'static str, &'static str)
    ensures before { result.0.now ≡ (if nat_le operator.priority limit then [] else codes "(") }
    ensures behind { result.1.now ≡ (if nat_le operator.priority limit then [] else codes ")") }
{
    if operator.priority <= limit {
        ("", "")
    } else {
        ("(", ")")
    }
}

/// An operator between its operands, with spaces if it is a word of letters.
fn append_operator(text: &mut Vec<u8>, name: &str) -> Result<(), NoMemory>
    ensures { OnOk result (text.new.items ≡ joined text.old.items (operator_text name.now)) }
{
    if is_letter_word(name) {
        text.push(b' ')?;
        text.extend_from_slice(name.as_bytes())?;
        text.push(b' ')?;
        return Ok(());
    }
    append(text, name.as_bytes())
}

/// An integer in decimal digits.
fn append_integer(text: &mut Vec<u8>, integer: i64) -> Result<(), NoMemory>
    ensures { OnOk result (text.new.items ≡ joined text.old.items (signed_decimal integer)) }
{
    append(text, Buffer::new().format(integer).as_bytes())
}

/// Writes the front of a compound, and leaves its parts to pieces.
fn open_compound<'p>(
    pool: &'p Pool,
    mode: Mode,
    atom: AtomId,
    parts: &'p [TermId],
    limit: u32,
    text: &mut Vec<u8>,
    ahead: &mut Vec<Piece<'p>>,
) -> Result<(), NoMemory>
    requires name { atom.number < length pool.now.names }
    requires parts { All (λ t. t.number < length pool.now.entries) parts.now }
    ensures { OnOk result ((vars : ℕ → List ℕ) → Replaces pool.now (mode_of mode) vars
        ((Writing.spelled_compound (mode_of mode) (atom_name pool.now atom)
        (Writing.spelled_each (mode_of mode) vars (terms_by (term_of pool.now) parts.now))).at
        limit) (8 + weights (terms_by (term_of pool.now) parts.now)) text.old.items ahead.old.items
        text.new.items ahead.new.items) }
{
    let name = pool.name_of(atom);
    match form_of(name, parts) {
        CompoundForm::Curly(only) => {
            ahead.extend_from_slice(&[
                Piece::Text("}"),
                Piece::Term(only, 1200),
                Piece::Text("{"),
            ])?;
        }
        CompoundForm::Cell(first, rest) => {
            ahead.extend_from_slice(&[
                Piece::Text("]"),
                Piece::Rest(rest),
                Piece::Term(first, 999),
                Piece::Text("["),
            ])?;
        }
        CompoundForm::Infix(operator, left, right) => {
            let (before, behind) = parentheses(operator, limit);
            ahead.extend_from_slice(&[
                Piece::Text(behind),
                Piece::Term(right, operator.right_limit()),
                Piece::Operator(name),
                Piece::Term(left, operator.left_limit()),
                Piece::Text(before),
            ])?;
        }
        CompoundForm::Call => {
            append_name(text, mode, name, true)?;
            ahead.extend_from_slice(&[
                Piece::Text(")"),
                Piece::Arguments(parts),
                Piece::Text("("),
            ])?;
        }
    }
    Ok(())
}

/// Writes a term, but leaves a compound's parts to pieces.
fn open_term<'p>(
    pool: &'p Pool,
    mode: Mode,
    names: &Names<'_>,
    t: TermId,
    limit: u32,
    text: &mut Vec<u8>,
    ahead: &mut Vec<Piece<'p>>,
) -> Result<(), NoMemory>
    requires { t.number < length pool.now.entries }
    ensures { OnOk result (Replaces pool.now (mode_of mode) (text_in names.now)
        ((Writing.spelled (mode_of mode) (text_in names.now) (term_of pool.now t)).at limit)
        (weight (term_of pool.now t)) text.old.items ahead.old.items text.new.items
        ahead.new.items) }
{
    match pool.view(t) {
        Node::Var(variable) => append(text, names.text_of(variable)),
        Node::Int(integer) => append_integer(text, integer),
        Node::Atom(atom) => append_name(text, mode, pool.name_of(atom), false),
        Node::Comp(atom, parts) => open_compound(pool, mode, atom, parts, limit, text, ahead),
    }
}

/// What a term is behind the element of a list.
fn rest_of(pool: &Pool, t: TermId) -> Rest
    requires { t.number < length pool.now.entries }
    ensures { IsRest pool.now t result }
{
    match pool.view(t) {
        Node::Var(_) => Rest::Tail,
        Node::Int(_) => Rest::Tail,
        Node::Atom(atom) => if pool.name_of(atom) == "[]" {
            Rest::Nothing
        } else {
            Rest::Tail
        },
        Node::Comp(atom, parts) => match form_of(pool.name_of(atom), parts) {
            CompoundForm::Cell(first, rest) => Rest::Cell(first, rest),
            CompoundForm::Curly(_) => Rest::Tail,
            CompoundForm::Infix(_, _, _) => Rest::Tail,
            CompoundForm::Call => Rest::Tail,
        },
    }
}

/// Leaves what follows an element of a list to pieces.
fn open_rest<'p>(pool: &'p Pool, t: TermId, ahead: &mut Vec<Piece<'p>>) -> Result<(), NoMemory>
    requires { t.number < length pool.now.entries }
    ensures { OnOk result ((mode : Writing.Mode) (vars : ℕ → List ℕ) (text : List ℕ)
        → Replaces pool.now mode vars (Writing.spelled mode vars (term_of pool.now t)).rest
        (weight (term_of pool.now t) + 2) text ahead.old.items text ahead.new.items) }
{
    match rest_of(pool, t) {
        Rest::Nothing => {}
        Rest::Cell(first, rest) => {
            ahead.extend_from_slice(&[
                Piece::Rest(rest),
                Piece::Term(first, 999),
                Piece::Text(","),
            ])?;
        }
        Rest::Tail => ahead.extend_from_slice(&[Piece::Term(t, 999), Piece::Text("|")])?,
    }
    Ok(())
}

/// Leaves arguments to pieces.
fn open_arguments<'p>(parts: &'p [TermId], ahead: &mut Vec<Piece<'p>>) -> Result<(), NoMemory>
    ensures { OnOk result ((c : Contents) (mode : Writing.Mode) (vars : ℕ → List ℕ) (text : List ℕ)
        → All (λ t. t.number < length c.entries) parts.now → Replaces c mode vars
        (Writing.arguments_text (Writing.spelled_each mode vars (terms_by (term_of c) parts.now)))
        (weights (terms_by (term_of c) parts.now) + 1) text ahead.old.items text ahead.new.items) }
{
    match parts {
        [] => {}
        [only] => ahead.push(Piece::Term(*only, 999))?,
        [first, _, ..] => ahead.extend_from_slice(&[
            Piece::Arguments(&parts[1..]),
            Piece::Text(","),
            Piece::Term(*first, 999),
        ])?,
    }
    Ok(())
}

/// Writes a piece, or the front of it with pieces for what is left.
fn write_piece<'p>(
    pool: &'p Pool,
    mode: Mode,
    names: &Names<'_>,
    piece: Piece<'p>,
    text: &mut Vec<u8>,
    ahead: &mut Vec<Piece<'p>>,
) -> Result<(), NoMemory>
    requires { IsOf pool.now piece }
    ensures { OnOk result (Replaces pool.now (mode_of mode) (text_in names.now)
        (piece_text pool.now (mode_of mode) (text_in names.now) piece.entry)
        (piece_weight pool.now piece.entry) text.old.items ahead.old.items text.new.items
        ahead.new.items) }
{
    match piece {
        Piece::Term(t, limit) => open_term(pool, mode, names, t, limit, text, ahead),
        Piece::Rest(t) => open_rest(pool, t, ahead),
        Piece::Arguments(parts) => open_arguments(parts, ahead),
        Piece::Operator(name) => append_operator(text, name),
        Piece::Text(token) => append(text, token.as_bytes()),
    }
}

/// Writes a term, and then the pieces, the last of them first, until none is left.
fn write_all<'p>(
    pool: &'p Pool,
    mode: Mode,
    names: &Names<'_>,
    t: TermId,
    limit: u32,
    text: &mut Vec<u8>,
    ahead: &mut Vec<Piece<'p>>,
) -> Result<(), NoMemory>
    requires term { t.number < length pool.now.entries }
    requires pieces { All (IsOf pool.now) ahead.old.items }
    ensures { OnOk result (text.new.items ≡ finished pool.now (mode_of mode) (text_in names.now)
        (joined text.old.items (Writing.term_text (mode_of mode) (text_in names.now) limit
        (term_of pool.now t))) ahead.old.items) }
{
    open_term(pool, mode, names, t, limit, text, ahead)?;
    while let Some(piece) = ahead.pop() {
        write_piece(pool, mode, names, piece, text, ahead)?;
    }
    Ok(())
}

/// Appends a term.
pub(crate) fn append_term(
    alloc: Global,
    pool: &Pool,
    t: TermId,
    mode: Mode,
    vars: &[VarText],
    limit: u32,
    text: &mut Vec<u8>,
) -> Result<(), NoMemory>
    requires { t.number < length pool.now.entries }
    ensures { OnOk result (text.new.items ≡ joined text.old.items
        (Writing.term_text (mode_of mode) (text_of vars.now) limit (term_of pool.now t))) }
{
    let names = Names::new(alloc, vars)?;
    let mut ahead = Vec::new(alloc);
    write_all(pool, mode, &names, t, limit, text, &mut ahead)
}
