//! What the terms of a text are: sentences, bodies, goals.

ghost use Rattle.std.specs.Prelude.{◌≡◌, ◌<◌, length};
ghost use Rattle.fd_model.specs.Forms.{joining_names, is_named};
ghost use Rattle.fd_model.specs.Refusals.{functor_of as functor_of_term};
ghost use Rattle.term_pool.specs.Terms.{term_of, shape_term};
ghost use Rattle.term_pool.specs.PoolInvariant.{shape_of, IsPool, IsWithin};
ghost use Rattle.term_pool.specs.PlacedTerms.{placed_of};
ghost use Rattle.text_warnings.specs.Clauses.{cost_names};
ghost use Rattle.text_warnings.specs.Terms.{one_part_form, two_parts_form, IsBody, IsFunctor, IsSeen, IsSentenceForm};

use term_pool::{AtomId, Node, Pool, TermId};

/// A name with a number of arguments.
#[derive(Clone, Copy, PartialEq, Eq, Hash)]
pub struct Functor {
    pub name: AtomId,
    pub arity: usize,
}

/// A predicate in one of the files that make up a text, which is told by the number of those in front of it.
#[derive(Clone, Copy, PartialEq, Eq, Hash)]
pub(crate) struct Filed {
    pub file: usize,
    pub functor: Functor,
}

/// What a sentence is.
#[derive(Clone, Copy)]
pub(crate) enum SentenceForm {
    /// `?- B`.
    Query(TermId),
    /// `H :- B`.
    Clause(TermId, TermId),
    /// `:- B`.
    Directive,
    /// Any other term.
    Fact(TermId),
}

/// What a body is.
#[derive(Clone, Copy)]
pub(crate) enum Body {
    /// `A, B`, `A ; B` or `A -> B`.
    Both(TermId, TermId),
    /// `\+ A`, or a goal that asks for a best leaf of the goal A.
    Inner(TermId),
    /// One goal.
    Goal,
}

/// What a term is at its top. Its parts have smaller numbers.
pub(crate) fn look(pool: &Pool, t: TermId) -> Node<'_>
    requires { t.number < length pool.now.entries }
    ensures placed { IsSeen pool.now t (shape_of result) }
    ensures within { IsWithin (length pool.now.names) t.number (shape_of result) }
    ensures term { term_of pool.now t ≡ shape_term pool.now (shape_of result) }
    ensures valid { IsPool pool.now }
{
    pool.view(t)
}

/// The name and the number of arguments of an atom or a compound term.
pub(crate) fn functor_of(pool: &Pool, t: TermId) -> Option<Functor>
    requires { t.number < length pool.now.entries }
    ensures functor { IsFunctor pool.now (functor_of_term (placed_of pool.now t)) result }
    ensures valid { IsPool pool.now }
{
    match look(pool, t) {
        Node::Var(_) | Node::Int(_) => None,
        Node::Atom(name) => Some(Functor { name, arity: 0 }),
        Node::Comp(name, parts) => Some(Functor {
            name,
            arity: parts.len(),
        }),
    }
}

/// What the sentence is.
pub(crate) fn sentence_form(pool: &Pool, t: TermId) -> SentenceForm
    requires { t.number < length pool.now.entries }
    ensures { IsSentenceForm pool.now t result }
{
    match look(pool, t) {
        Node::Comp(name, &[body]) => match pool.name_of(name) {
            "?-" => SentenceForm::Query(body),
            ":-" => SentenceForm::Directive,
            _ => SentenceForm::Fact(t),
        },
        Node::Comp(name, &[head, body]) => match pool.name_of(name) {
            ":-" => SentenceForm::Clause(head, body),
            _ => SentenceForm::Fact(t),
        },
        _ => SentenceForm::Fact(t),
    }
}

/// Whether goals of two arguments with this name are made of two bodies.
pub(crate) fn is_joint(name: &str) -> bool
    ensures { result ≡ is_named (joining_names 2) name.now }
{
    matches!(name, "," | ";" | "->")
}

/// Whether goals of two arguments with this name ask for a best leaf.
fn is_cost(name: &str) -> bool
    ensures { result ≡ is_named cost_names name.now }
{
    matches!(name, "fd_minimize" | "fd_maximize")
}

/// What a body of this name with one part is.
fn one_part_form(name: &str, inner: TermId) -> Body
    ensures { result ≡ one_part_form name.now inner }
{
    if name == "\\+" {
        Body::Inner(inner)
    } else {
        Body::Goal
    }
}

/// What a body of this name with two parts is.
fn two_parts_form(name: &str, left: TermId, right: TermId) -> Body
    ensures { result ≡ two_parts_form name.now left right }
{
    if is_joint(name) {
        Body::Both(left, right)
    } else if is_cost(name) {
        Body::Inner(left)
    } else {
        Body::Goal
    }
}

/// What the body is.
pub(crate) fn body_form(pool: &Pool, t: TermId) -> Body
    requires { t.number < length pool.now.entries }
    ensures { IsBody pool.now t result }
{
    match look(pool, t) {
        Node::Comp(name, &[inner]) => one_part_form(pool.name_of(name), inner),
        Node::Comp(name, &[left, right]) => two_parts_form(pool.name_of(name), left, right),
        _ => Body::Goal,
    }
}
