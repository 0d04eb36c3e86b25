//! What the terms of a text are at their top.

ghost use Rattle.std.specs.Prelude.{◌≡◌, ◌<◌, length, MatchOption};
ghost use Rattle.term_pool.specs.PlacedTerms.{placed_of};
ghost use Rattle.term_pool.specs.Terms.{term_of, shape_term};
ghost use Rattle.term_pool.specs.PoolInvariant.{shape_of, IsPool, IsWithin};
ghost use Rattle.answer_check.specs.TermShapes.{AreSides, IsAlone, IsBody, IsSeen};

use term_pool::{Node, Pool, TermId};

/// What a term is at its top. Its parts have smaller numbers.
pub(crate) fn look(pool: &Pool, t: TermId) -> Node<'_>
    requires { t.number < length pool.now.entries }
    ensures placed { IsSeen pool.now t (shape_of result) }
    ensures within { IsWithin (length pool.now.names) t.number (shape_of result) }
    ensures term { term_of pool.now t ≡ shape_term pool.now (shape_of result) }
    ensures valid { IsPool pool.now }
{
    pool.view(t)
}

/// The sides of a `,`.
pub(crate) fn sides_of_comma(pool: &Pool, t: TermId) -> Option<(TermId, TermId)>
    requires { t.number < length pool.now.entries }
    ensures { MatchOption result (IsAlone pool.now t) (λ s. AreSides pool.now t s.0 s.1) }
{
    match look(pool, t) {
        Node::Comp(name, &[left, right]) => match pool.name_of(name) {
            "," => Some((left, right)),
            _ => None,
        },
        _ => None,
    }
}

/// The body of a sentence that is a query.
pub(crate) fn body_of(pool: &Pool, t: TermId) -> Option<TermId>
    requires { t.number < length pool.now.entries }
    ensures { IsBody pool.now t result }
{
    match look(pool, t) {
        Node::Comp(name, &[body]) => match pool.name_of(name) {
            "?-" => Some(body),
            _ => None,
        },
        _ => None,
    }
}
