//! What is still to be written of a term.

ghost use Rattle.std.specs.Prelude.{[], ◌∷◌};
ghost use Rattle.term_writer.specs.Pieces.{IsCompoundForm};

use name_syntax::operators::{Operator, roles_of};
use term_pool::TermId;

#[derive(Clone, Copy)]
pub(crate) enum Piece<'p> {
    /// A term at a limit.
    Term(TermId, u32),
    /// A term as what follows an element of a list.
    Rest(TermId),
    /// Arguments, with commas between them.
    Arguments(&'p [TermId]),
    /// The name of an operator between its operands.
    Operator(&'p str),
    Text(&'static str),
}

/// How a compound is written.
#[derive(Clone, Copy)]
pub(crate) enum CompoundForm {
    /// In braces.
    Curly(TermId),
    /// As a list of the element and what follows it.
    Cell(TermId, TermId),
    /// With the operator between its operands.
    Infix(Operator, TermId, TermId),
    /// With its arguments in parentheses.
    Call,
}

/// What a term is behind the element of a list.
#[derive(Clone, Copy)]
pub(crate) enum Rest {
    /// The end of the list.
    Nothing,
    /// A further element, and what follows it.
    Cell(TermId, TermId),
    /// A tail of another kind.
    Tail,
}

fn pair_form(name: &str, first: TermId, second: TermId) -> CompoundForm
    ensures { IsCompoundForm name.now (first ∷ second ∷ []) result }
{
    if name == "." {
        return CompoundForm::Cell(first, second);
    }
    match roles_of(name).infix {
        Some(operator) => CompoundForm::Infix(operator, first, second),
        None => CompoundForm::Call,
    }
}

/// How the compound of this name and these parts is written.
pub(crate) fn form_of(name: &str, parts: &[TermId]) -> CompoundForm
    ensures { IsCompoundForm name.now parts.now result }
{
    match parts {
        [] => CompoundForm::Call,
        [only] => if name == "{}" {
            CompoundForm::Curly(*only)
        } else {
            CompoundForm::Call
        },
        [first, second] => pair_form(name, *first, *second),
        [_, _, _, ..] => CompoundForm::Call,
    }
}
