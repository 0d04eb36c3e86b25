//! The first best leaf of a labelling, by branch and bound over a store.
#![tactic(auto)]

ghost use Rattle.std.specs.Prelude.{◌≡◌, false, true, length, None, Some, IfOk, OnOk, OnErr, MatchOption};
ghost use Rattle.fd_language.specs.declared.TheConstants.{INFINITY};
ghost use Rattle.fd_model.specs.BestPosted.{IsCostOf, SoughtValues};
ghost use Rattle.bound_search.specs.Members.{AreOwn, member_of, members_of};
ghost use Rattle.bound_search.specs.Posting.{exact_range};

mod best_leaf;
mod posting;
mod search;

pub use crate::search::Aim;
use crate::search::search;
use fd_language::NoMemory;
use label_search::Member;
use propagate_queue::{Agenda, Store};
use range_code::{Activations, RangeCode};
use std::alloc::Global;
use std::rc::Rc;

/// The values of the list's variables, in order, in the first best leaf of its labelling: of the leaves in which the cost is least (or
/// greatest, where `aim.least` is false) the first in the order of the labelling. `None` comes exactly where there is no leaf. All levels of
/// the store are then as before. After `NoMemory` the store answers `NoMemory` from then on.
///
/// The store hasn't failed, and `exact` is the code of `P..P`. The members are integers and variables of the store, and the cost is an integer
/// or one of them. `n` goes up by the activations that the search takes.
///
/// A node is dropped where the best value that its own domains leave to the cost is no better than the best cost so far. By `Leftmost` the
/// level of an open node also gets the bound that the cost is better, before its next value is tried; by `FirstFail` it doesn't, since that
/// would change what is picked. The search takes one mark and one small entry for each member that it has given a value; no list of values
/// is made, and no domain is copied.
pub fn best<A: Agenda + Drop>(
    alloc: Global,
    store: &mut Store<A>,
    exact: &Rc<RangeCode>,
    list: &[Member],
    aim: Aim,
    n: &mut Activations,
) -> Result<Option<Vec<u32>>, NoMemory>
    requires level { store.old.current.failed ≡ false }
    requires exact { exact.now.value ≡ exact_range }
    requires list { AreOwn (length store.old.current.sets) list.now }
    requires cost { IsCostOf (members_of list.now) (member_of aim.cost) }
    ensures found { IfOk result (λ found. MatchOption found
        (SoughtValues INFINITY aim.order (members_of list.now) (member_of aim.cost) aim.least
        store.old.current.posted None)
        (λ values. SoughtValues INFINITY aim.order (members_of list.now) (member_of aim.cost)
        aim.least store.old.current.posted (Some values.items))) }
    ensures levels { OnOk result (store.new ≡ store.old) }
    ensures unspent { OnOk result (store.old.spent ≡ false) }
    ensures spent { OnErr result (store.new.spent ≡ true) }
{
    match search(alloc, store, exact, list, aim, n) {
        Ok(found) => Ok(found),
        Err(NoMemory) => {
            store.give_up();
            Err(NoMemory)
        }
    }
}
