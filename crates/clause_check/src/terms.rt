//! What the terms of a text are: sentences, bodies, goals.

ghost use Rattle.std.specs.Prelude.{◌≡◌, ◌<◌, length};
ghost use Rattle.fd_model.specs.Queries.{first_part as first_of};
ghost use Rattle.fd_model.specs.Refusals.{second_part as second_of};
ghost use Rattle.term_pool.specs.Terms.{term_of, shape_term};
ghost use Rattle.term_pool.specs.PoolInvariant.{shape_of, IsPool, IsWithin};
ghost use Rattle.term_pool.specs.PlacedTerms.{placed_of};
ghost use Rattle.clause_check.specs.Terms.{IsBody, IsFunctorOf, IsPartOf, IsSeen, IsSentenceForm};

use term_pool::{AtomId, Node, Pool, TermId};

/// A name with a number of arguments.
#[derive(Clone, Copy, PartialEq, Eq, Hash)]
pub(crate) struct Functor {
    pub name: AtomId,
    pub arity: usize,
}

/// What a sentence is.
#[derive(Clone, Copy)]
pub(crate) enum SentenceForm {
    /// `?- B`.
    Query(TermId),
    /// `H :- B`.
    Clause(TermId, TermId),
    /// `:- B`.
    Directive,
    /// Any other term.
    Fact(TermId),
}

/// What makes one goal of two bodies.
#[derive(Clone, Copy)]
pub(crate) enum Joint {
    /// `;`.
    Semicolon,
    /// `->`.
    Arrow,
}

/// What a body is.
#[derive(Clone, Copy)]
pub(crate) enum Body {
    /// `A, B`.
    Both(TermId, TermId),
    /// `A ; B` or `A -> B`.
    Joined(Joint, TermId, TermId),
    /// `\+ A`.
    Denied(TermId),
    /// One goal.
    Goal,
}

/// What a term is at its top. Its parts have smaller numbers.
pub(crate) fn look(pool: &Pool, t: TermId) -> Node<'_>
    requires { t.number < length pool.now.entries }
    ensures placed { IsSeen pool.now t (shape_of result) }
    ensures within { IsWithin (length pool.now.names) t.number (shape_of result) }
    ensures term { term_of pool.now t ≡ shape_term pool.now (shape_of result) }
    ensures valid { IsPool pool.now }
{
    pool.view(t)
}

/// The name and the number of arguments of an atom or a compound term.
pub(crate) fn functor_of(pool: &Pool, t: TermId) -> Option<Functor>
    requires { t.number < length pool.now.entries }
    ensures functor { IsFunctorOf pool.now (placed_of pool.now t) result }
    ensures valid { IsPool pool.now }
{
    match look(pool, t) {
        Node::Var(_) | Node::Int(_) => None,
        Node::Atom(name) => Some(Functor { name, arity: 0 }),
        Node::Comp(name, parts) => Some(Functor {
            name,
            arity: parts.len(),
        }),
    }
}

/// What the sentence is.
pub(crate) fn sentence_form(pool: &Pool, t: TermId) -> SentenceForm
    requires { t.number < length pool.now.entries }
    ensures { IsSentenceForm pool.now t result }
{
    match look(pool, t) {
        Node::Comp(name, &[body]) => match pool.name_of(name) {
            "?-" => SentenceForm::Query(body),
            ":-" => SentenceForm::Directive,
            _ => SentenceForm::Fact(t),
        },
        Node::Comp(name, &[head, body]) => match pool.name_of(name) {
            ":-" => SentenceForm::Clause(head, body),
            _ => SentenceForm::Fact(t),
        },
        _ => SentenceForm::Fact(t),
    }
}

/// What the body is.
pub(crate) fn body_form(pool: &Pool, t: TermId) -> Body
    requires { t.number < length pool.now.entries }
    ensures { IsBody pool.now t result }
{
    match look(pool, t) {
        Node::Comp(name, &[inner]) => match pool.name_of(name) {
            "\\+" => Body::Denied(inner),
            _ => Body::Goal,
        },
        Node::Comp(name, &[left, right]) => match pool.name_of(name) {
            "," => Body::Both(left, right),
            ";" => Body::Joined(Joint::Semicolon, left, right),
            "->" => Body::Joined(Joint::Arrow, left, right),
            _ => Body::Goal,
        },
        _ => Body::Goal,
    }
}

/// The first part of a term, or the term where it has none.
pub(crate) fn first_part(pool: &Pool, t: TermId) -> TermId
    requires { t.number < length pool.now.entries }
    ensures { IsPartOf pool.now (first_of (placed_of pool.now t)) result }
{
    match look(pool, t) {
        Node::Comp(_, &[first, ..]) => first,
        _ => t,
    }
}

/// The second part of a term, or the term where it has fewer.
pub(crate) fn second_part(pool: &Pool, t: TermId) -> TermId
    requires { t.number < length pool.now.entries }
    ensures { IsPartOf pool.now (second_of (placed_of pool.now t)) result }
{
    match look(pool, t) {
        Node::Comp(_, &[_, second, ..]) => second,
        _ => t,
    }
}
