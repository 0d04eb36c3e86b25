//! Which member of a list a labelling takes next.
#![tactic(auto)]

ghost use Rattle.std.specs.Prelude.{◌≡◌, ◌<◌, ◌≤◌, true, false, length};
ghost use Rattle.fd_language.specs.declared.TheConstants.{INFINITY as TOP};
ghost use Rattle.fd_model.specs.declared.kinds.Order.TheVariants as order;
ghost use Rattle.label_search.specs.Picks.{value_count, IsThere, AreThere, IsPicked, HasSeveral};

use domain_ranges::View;
use fd_model::kinds::Order;

/// A member of a list that is labelled.
#[derive(Clone, Copy)]
pub enum Member {
    /// An integer, whatever its value.
    Fixed(i64),
    /// A variable of the store, by its number there.
    Var(usize),
    /// A variable that the store doesn't have. It has all values from 0 to the greatest that a variable may have.
    Free,
}

/// How many values a member has.
#[inline]
fn value_count_of<V: View>(member: Member, view: &V, infinity: u32) -> u32
    requires most { infinity ≤ TOP }
    requires there { IsThere (length (V.sets view.now)) member }
    ensures { result ≡ value_count infinity (V.sets view.now) member }
{
    match member {
        Member::Fixed(_) => 1,
        Member::Var(k) => view.domain(k).size(),
        Member::Free => infinity + 1,
    }
}

/// Whether a member has more than one value.
#[inline]
fn has_several<V: View>(member: Member, view: &V, infinity: u32) -> bool
    requires most { infinity ≤ TOP }
    requires there { IsThere (length (V.sets view.now)) member }
    ensures yes { result ≡ true → 1 < value_count infinity (V.sets view.now) member }
    ensures no { result ≡ false → value_count infinity (V.sets view.now) member ≤ 1 }
{
    match member {
        Member::Fixed(_) => false,
        Member::Var(k) => {
            let domain = view.domain(k);
            domain.least() != domain.greatest()
        }
        Member::Free => infinity > 0,
    }
}

/// The place of the first member with more than one value.
fn first_several<V: View>(list: &[Member], view: &V, infinity: u32) -> Option<usize>
    requires most { infinity ≤ TOP }
    requires there { AreThere (length (V.sets view.now)) list.now }
    ensures picked { IsPicked infinity order.Leftmost (V.sets view.now) list.now result }
    ensures several { HasSeveral infinity (V.sets view.now) list.now result }
{
    for (i, member) in list.iter().enumerate() {
        if has_several(*member, view, infinity) {
            return Some(i);
        }
    }
    None
}

/// The place of the first of those members with more than one value that have the fewest.
fn fewest_values<V: View>(list: &[Member], view: &V, infinity: u32) -> Option<usize>
    requires most { infinity ≤ TOP }
    requires there { AreThere (length (V.sets view.now)) list.now }
    ensures picked { IsPicked infinity order.FirstFail (V.sets view.now) list.now result }
    ensures several { HasSeveral infinity (V.sets view.now) list.now result }
{
    let mut best = None;
    let mut fewest = u32::MAX;
    for i in (0..list.len()).rev() {
        let count = value_count_of(list[i], view, infinity);
        if count > 1 && count <= fewest {
            best = Some(i);
            fewest = count;
        }
    }
    best
}

/// The place in the list of the member that a labelling takes next: by `Leftmost` the first with more than one value, by
/// `FirstFail` the first of those with the fewest values among them. `None` where no member has more than one. The view's sets
/// are those of the list's variables, and `infinity` is the greatest value that a variable may have. No memory.
pub fn pick<V: View>(order: Order, list: &[Member], view: &V, infinity: u32) -> Option<usize>
    requires most { infinity ≤ TOP }
    requires there { AreThere (length (V.sets view.now)) list.now }
    ensures picked { IsPicked infinity order (V.sets view.now) list.now result }
    ensures several { HasSeveral infinity (V.sets view.now) list.now result }
{
    match order {
        Order::Leftmost => first_several(list, view, infinity),
        Order::FirstFail => fewest_values(list, view, infinity),
    }
}
