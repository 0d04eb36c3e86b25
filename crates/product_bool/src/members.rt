//! Arguments in the places of variables, and fresh variables for the integers among them.

ghost use Rattle.std.specs.Prelude.{◌≡◌, ◌<◌, ◌+◌, ◌^◌, ◌++◌, [], ◌∷◌, length, IfOk, OnOk};
ghost use Rattle.fd_model.specs.Members.{as_member, place_of, after, equated_from};
ghost use Rattle.term_pool.specs.Terms.{term_of};
ghost use Rattle.term_pool.specs.PoolInvariant.{IsPool};
ghost use Rattle.product_bool.specs.Members.{member_of, Reads, Places};

use fd_language::NoMemory;
use fd_model::kinds::ListCause;
use term_pool::{Node, Pool, TermId};

/// An argument in the place of a variable.
#[derive(Clone, Copy)]
pub(crate) enum Member {
    /// An open variable.
    Open(u64),
    /// An integer.
    Known(i64),
}

/// A term as a member.
pub(crate) fn read_member(pool: &Pool, term: TermId) -> Result<Member, ListCause>
    requires { term.number < length pool.now.entries }
    ensures reads { Reads (as_member (term_of pool.now term)) result }
    ensures valid { IsPool pool.now }
{
    match pool.view(term) {
        Node::Var(variable) => Ok(Member::Open(variable)),
        Node::Int(integer) => Ok(Member::Known(integer)),
        Node::Atom(_) => Err(ListCause::Wrong),
        Node::Comp(_, _) => Err(ListCause::Wrong),
    }
}

/// The fresh variables so far, with their integers, and the next fresh number.
#[derive(Drop)]
pub(crate) struct Placed {
    pub equated: Vec<(u64, i64)>,
    pub fresh: u64,
}

impl Placed {
    /// The variable of a member. An integer has a fresh one.
    pub(crate) fn place(&mut self, member: Member) -> Result<u64, NoMemory>
        requires { self.old.fresh + 1 < 2 ^ 64 }
        ensures variable { IfOk result (λ x. x ≡ place_of self.old.fresh (member_of member)) }
        ensures placed { OnOk result (Places (member_of member) self.old self.new) }
    {
        match member {
            Member::Open(variable) => Ok(variable),
            Member::Known(integer) => {
                let variable = self.fresh;
                self.equated.push((variable, integer))?;
                self.fresh = variable + 1;
                Ok(variable)
            }
        }
    }
}
