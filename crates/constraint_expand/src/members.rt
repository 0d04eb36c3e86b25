//! List arguments, and fresh variables for the integers among their members.

ghost use Rattle.std.specs.Prelude.{◌≡◌, ◌<◌, ◌^◌, length, map, IfOk, OnOk};
ghost use Rattle.fd_model.specs.Members.{as_member, as_integer, walk, after, fresh_after};
ghost use Rattle.term_pool.specs.Terms.{term_of};
ghost use Rattle.term_pool.specs.PoolInvariant.{IsPool};
ghost use Rattle.constraint_expand.specs.Faults.{Answers};
ghost use Rattle.constraint_expand.specs.Lists.{member_of, Reads, FindsCell, Places, AllPlaced};

use crate::faults::{ExpandFault, ListCause};
use fd_language::NoMemory;
use std::alloc::Global;
use term_pool::{Node, Pool, TermId};

/// A member of a list.
#[derive(Clone, Copy)]
pub(crate) enum Member {
    /// An open variable.
    Open(u64),
    /// An integer.
    Known(i64),
}

/// The variables of members, the fresh ones among them with their integers, and the next fresh
/// number.
#[derive(Drop)]
pub(crate) struct Placed {
    pub variables: Vec<u64>,
    pub equated: Vec<(u64, i64)>,
    pub fresh: u64,
}

/// A term as a member.
pub(crate) fn read_member(pool: &Pool, term: TermId) -> Result<Member, ListCause>
    requires { term.number < length pool.now.entries }
    ensures reads { Reads member_of (as_member (term_of pool.now term)) result }
    ensures valid { IsPool pool.now }
{
    match pool.view(term) {
        Node::Var(variable) => Ok(Member::Open(variable)),
        Node::Int(integer) => Ok(Member::Known(integer)),
        Node::Atom(_) => Err(ListCause::Wrong),
        Node::Comp(_, _) => Err(ListCause::Wrong),
    }
}

/// A term as an integer.
pub(crate) fn read_integer(pool: &Pool, term: TermId) -> Result<i64, ListCause>
    requires { term.number < length pool.now.entries }
    ensures { Reads (λ z. z) (as_integer (term_of pool.now term)) result }
{
    match pool.view(term) {
        Node::Var(_) => Err(ListCause::Unbound),
        Node::Int(integer) => Ok(integer),
        Node::Atom(_) => Err(ListCause::Wrong),
        Node::Comp(_, _) => Err(ListCause::Wrong),
    }
}

/// The head and the tail of a list, and none at its end.
fn cell(pool: &Pool, list: TermId) -> Result<Option<(TermId, TermId)>, ListCause>
    requires { list.number < length pool.now.entries }
    ensures { FindsCell pool.now list result }
{
    match pool.view(list) {
        Node::Var(_) => Err(ListCause::Unbound),
        Node::Int(_) => Err(ListCause::Wrong),
        Node::Atom(atom) => if pool.name_of(atom) == "[]" {
            Ok(None)
        } else {
            Err(ListCause::Wrong)
        },
        Node::Comp(name, parts) => match parts {
            [head, tail] => if pool.name_of(name) == "." {
                Ok(Some((*head, *tail)))
            } else {
                Err(ListCause::Wrong)
            },
            [] => Err(ListCause::Wrong),
            [_] => Err(ListCause::Wrong),
            [_, _, _, ..] => Err(ListCause::Wrong),
        },
    }
}

/// The members of a list.
pub(crate) fn members(alloc: Global, pool: &Pool, list: TermId) -> Result<Vec<Member>, ExpandFault>
    requires { list.number < length pool.now.entries }
    ensures { Answers (λ v. map member_of v.items) (walk as_member (term_of pool.now list))
        result }
{
    let mut found = Vec::new(alloc);
    let mut rest = list;
    while let Some((head, tail)) = cell(pool, rest)? {
        found.push(read_member(pool, head)?)?;
        rest = tail;
    }
    Ok(found)
}

/// The members of a list of integers.
pub(crate) fn integers(alloc: Global, pool: &Pool, list: TermId) -> Result<Vec<i64>, ExpandFault>
    requires { list.number < length pool.now.entries }
    ensures { Answers (λ v. v.items) (walk as_integer (term_of pool.now list)) result }
{
    let mut found = Vec::new(alloc);
    let mut rest = list;
    while let Some((head, tail)) = cell(pool, rest)? {
        found.push(read_integer(pool, head)?)?;
        rest = tail;
    }
    Ok(found)
}

impl Placed {
    fn place(&mut self, member: Member) -> Result<(), NoMemory>
        requires { after self.old.fresh (member_of member) < 2 ^ 64 }
        ensures { OnOk result (Places (member_of member) self.old self.new) }
    {
        match member {
            Member::Open(variable) => self.variables.push(variable)?,
            Member::Known(integer) => {
                self.variables.push(self.fresh)?;
                self.equated.push((self.fresh, integer))?;
                self.fresh += 1;
            }
        }
        Ok(())
    }
}

/// A variable for each member, where `fresh` is the next fresh number.
pub(crate) fn place_all(alloc: Global, members: &[Member], fresh: u64) -> Result<Placed, NoMemory>
    requires { fresh_after fresh (map member_of members.now) < 2 ^ 64 }
    ensures { IfOk result (AllPlaced fresh (map member_of members.now)) }
{
    let mut placed = Placed {
        variables: Vec::with_capacity(alloc, members.len())?,
        equated: Vec::new(alloc),
        fresh,
    };
    for member in members {
        placed.place(*member)?;
    }
    Ok(placed)
}
