//! The variables of a term, and the goals of a body.

ghost use Rattle.std.specs.Prelude.{◌≡◌, ◌<◌, length, map, All, OnOk};
ghost use Rattle.fd_model.specs.Forms.{joining_names, is_named};
ghost use Rattle.term_pool.specs.PlacedTerms.{placed_of};
ghost use Rattle.text_warnings.specs.OpenVariables.{occurrences, outer_goals};
ghost use Rattle.text_warnings.specs.OpenViews.{IsJoined};

use crate::parts::{Parts, parts_of};
use crate::terms::{is_joint, look};
use fd_language::NoMemory;
use term_pool::{Node, Pool, TermId};

/// The number of a variable, and a place where it stands.
#[derive(Clone, Copy)]
pub(crate) struct Occurrence {
    pub number: usize,
    pub place: usize,
}

/// Puts the variables of the term into `found`, the last one first. `ahead` is room for terms that wait.
pub(crate) fn find_variables(
    pool: &Pool,
    t: TermId,
    ahead: &mut Vec<TermId>,
    found: &mut Vec<Occurrence>,
) -> Result<(), NoMemory>
    requires { t.number < length pool.now.entries }
    ensures { OnOk result (found.new.items ≡ occurrences (placed_of pool.now t)) }
{
    found.clear();
    ahead.clear();
    ahead.push(t)?;
    while let Some(next) = ahead.pop() {
        match look(pool, next) {
            Node::Var(n) => {
                let number = n as usize;
                let place = pool.place(next);
                found.push(Occurrence { number, place })?;
            }
            Node::Comp(_, parts) => ahead.extend_from_slice(parts)?,
            Node::Int(_) | Node::Atom(_) => {}
        }
    }
    Ok(())
}

/// The two bodies of which a body is made, if it is.
fn joined_parts(pool: &Pool, t: TermId) -> Option<(TermId, TermId)>
    requires { t.number < length pool.now.entries }
    ensures { IsJoined pool.now t result }
{
    match parts_of(pool, t) {
        Parts::Two(name, left, right) => {
            if is_joint(pool.name_of(name)) {
                Some((left, right))
            } else {
                None
            }
        }
        Parts::One(..) | Parts::Other => None,
    }
}

/// Puts the goals of the body into `goals`, in the order of the text. `ahead` is room for terms that wait.
pub(crate) fn find_goals(
    pool: &Pool,
    body: TermId,
    ahead: &mut Vec<TermId>,
    goals: &mut Vec<TermId>,
) -> Result<(), NoMemory>
    requires { body.number < length pool.now.entries }
    ensures own { OnOk result (All (λ g. g.number < length pool.now.entries) goals.new.items) }
    ensures goals { OnOk result (map (placed_of pool.now) goals.new.items ≡ outer_goals
        (placed_of pool.now body)) }
{
    goals.clear();
    ahead.clear();
    ahead.push(body)?;
    while let Some(next) = ahead.pop() {
        match joined_parts(pool, next) {
            Some((left, right)) => {
                ahead.push(right)?;
                ahead.push(left)?;
            }
            None => goals.push(next)?,
        }
    }
    Ok(())
}
