//! The best leaf so far.

ghost use Rattle.std.specs.Prelude.{◌≡◌, ◌∷◌, [], ◌++◌, ℕ, true, false, Some, map, length, OnOk};
ghost use Rattle.fd_language.specs.Range.{least};
ghost use Rattle.fd_model.specs.Labelling.{open_ones};
ghost use Rattle.range_code.specs.Frames.{family_of};
ghost use Rattle.label_search.specs.Picks.{IsThere};
ghost use Rattle.bound_search.specs.Members.{AreOwn, IsOwn, member_of, members_of, bound, Improves, IsNoBetter};

use fd_language::NoMemory;
use label_search::Member;
use propagate_queue::{Agenda, Store};

/// The cost of the best leaf so far, and the values of the list's variables in it. `None` where no leaf was met.
#[derive(Drop)]
pub(crate) struct SoFar {
    pub(crate) cost: Option<i64>,
    pub(crate) values: Vec<u32>,
}

/// The best value that the current level leaves to the cost: the least, or the greatest.
pub(crate) fn bound_of<A: Agenda + Drop>(store: &Store<A>, cost: Member, least: bool) -> i64
    requires { IsThere (length store.now.current.sets) cost }
    ensures { result ≡ bound least (family_of store.now.current.sets) (member_of cost) }
{
    match cost {
        Member::Fixed(z) => z,
        Member::Var(k) if least => i64::from(store.domain(k).least()),
        Member::Var(k) => i64::from(store.domain(k).greatest()),
        Member::Free => 0,
    }
}

/// Whether the cost is better than that of the best leaf so far, if there is one.
pub(crate) fn improves(cost: i64, least: bool, best: &SoFar) -> bool
    ensures yes { result ≡ true → Improves least cost best.now.cost }
    ensures no { result ≡ false → IsNoBetter least cost best.now.cost }
{
    match best.cost {
        None => true,
        Some(reached) if least => cost < reached,
        Some(reached) => cost > reached,
    }
}

/// Puts the least value of the member behind the values, if it is a variable.
fn push_value<A: Agenda + Drop>(
    store: &Store<A>,
    member: Member,
    values: &mut Vec<u32>,
) -> Result<(), NoMemory>
    requires { IsOwn (length store.now.current.sets) member }
    ensures { OnOk result (values.new.items ≡ values.old.items
        ++ map (λ x. least (family_of store.now.current.sets x)) (open_ones (member_of member ∷ []))) }
{
    match member {
        Member::Var(k) => {
            let value = store.domain(k).least();
            Ok(values.push(value)?)
        }
        _ => Ok(()),
    }
}

/// The current level, on which each variable of the list has one value, becomes the best leaf so far.
pub(crate) fn keep_leaf<A: Agenda + Drop>(
    store: &Store<A>,
    list: &[Member],
    cost: i64,
    best: &mut SoFar,
) -> Result<(), NoMemory>
    requires { AreOwn (length store.now.current.sets) list.now }
    ensures cost { OnOk result (best.new.cost ≡ Some cost) }
    ensures values { OnOk result (best.new.values.items
        ≡ map (λ x. least (family_of store.now.current.sets x)) (open_ones (members_of list.now))) }
{
    best.values.clear();
    for member in list {
        push_value(store, *member, &mut best.values)?;
    }
    best.cost = Some(cost);
    Ok(())
}
