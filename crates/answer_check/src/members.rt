//! Variables and integers, and lists of them.

ghost use Rattle.std.specs.Prelude.{◌≡◌, ◌<◌, length, None, IfOk, MatchOption, option_map};
ghost use Rattle.answer_check.specs.AnswerLines.{assigned};
ghost use Rattle.answer_check.specs.Members.{cell_in, is_known, is_nil, member_in, members_in, worth_of};
ghost use Rattle.answer_check.specs.TermShapes.{IsCell};
ghost use Rattle.term_pool.specs.Terms.{term_of};

use fd_language::NoMemory;
use std::alloc::Global;
use term_pool::{Node, Pool, TermId};

/// A variable or an integer.
#[derive(Clone, Copy)]
pub(crate) enum Member {
    /// A variable, by its number.
    Open(u64),
    /// An integer.
    Known(i64),
}

/// The value of a variable. A variable without a value counts as 0.
pub(crate) fn value(values: &[u32], variable: u64) -> u32
    ensures { result ≡ assigned values.now variable }
{
    values.get(variable as usize).copied().unwrap_or(0)
}

impl Member {
    /// Whether it is an integer.
    pub fn is_known(self) -> bool
        ensures { result ≡ is_known self }
    {
        matches!(self, Member::Known(_))
    }

    /// The integer that it is with these values of the variables.
    pub fn worth(self, values: &[u32]) -> i64
        ensures { result ≡ worth_of (assigned values.now) self }
    {
        match self {
            Member::Open(variable) => value(values, variable) as i64,
            Member::Known(integer) => integer,
        }
    }
}

/// The variable or the integer that a term is.
pub(crate) fn member_of(pool: &Pool, t: TermId) -> Option<Member>
    requires { t.number < length pool.now.entries }
    ensures { result ≡ member_in (term_of pool.now t) }
{
    match pool.view(t) {
        Node::Var(variable) => Some(Member::Open(variable)),
        Node::Int(integer) => Some(Member::Known(integer)),
        Node::Atom(_) | Node::Comp(_, _) => None,
    }
}

/// The cells of a list: its first element and the rest.
fn cell_of(pool: &Pool, t: TermId) -> Option<(TermId, TermId)>
    requires { t.number < length pool.now.entries }
    ensures { MatchOption result (cell_in (term_of pool.now t) ≡ None)
        (λ c. IsCell pool.now t c.0 c.1) }
{
    match pool.view(t) {
        Node::Comp(name, &[head, tail]) if pool.name_of(name) == "." => Some((head, tail)),
        _ => None,
    }
}

/// Whether the term is the empty list.
fn is_nil(pool: &Pool, t: TermId) -> bool
    requires { t.number < length pool.now.entries }
    ensures { result ≡ is_nil (term_of pool.now t) }
{
    match pool.view(t) {
        Node::Atom(name) => pool.name_of(name) == "[]",
        _ => false,
    }
}

/// The members of a closed list of variables and integers.
pub(crate) fn members_of(
    alloc: Global,
    pool: &Pool,
    list: TermId,
) -> Result<Option<Vec<Member>>, NoMemory>
    requires { list.number < length pool.now.entries }
    ensures { IfOk result (λ o. option_map (λ v. v.items) o ≡ members_in (term_of pool.now list)) }
{
    let mut members = Vec::new(alloc);
    let mut rest = list;
    while let Some((head, tail)) = cell_of(pool, rest) {
        match member_of(pool, head) {
            Some(member) => members.push(member)?,
            None => return Ok(None),
        }
        rest = tail;
    }
    Ok(is_nil(pool, rest).then_some(members))
}
