//! Variables with two uses: as a parameter, and in min, max, val or dom.

ghost use Rattle.std.specs.Prelude.{◌≡◌, ℕ, List, [], ◌∷◌, length, slice_index, Option, IfOk, OnOk};
ghost use Rattle.fd_language.specs.RangeVerdict.{clashes, first, where_first_clash};
ghost use Rattle.fd_language.specs.Family.{has};
ghost use Rattle.monotone_check.specs.MetVariables.{AreSeen, FindsAt};

use crate::offences::earlier;
use fd_language::{NoMemory, Offence, RangeNode};
use std::alloc::Global;
use std::collections::HashSet;

/// An offence where the other use was met before and this one was not. Then this use is met.
fn meet(
    other: &HashSet<u64>,
    own: &mut HashSet<u64>,
    variable: u64,
    place: usize,
) -> Result<Option<Offence>, NoMemory>
    ensures clash { IfOk result (λ o. (xs ys : List ℕ) → AreSeen xs other.now.keys
        → AreSeen ys own.old.keys → o ≡ first (where_first_clash (has xs variable)
        (has ys variable) place)) }
    ensures seen { OnOk result ((ys : List ℕ) → AreSeen ys own.old.keys
        → AreSeen (variable ∷ ys) own.new.keys) }
{
    let clashes = other.contains(&variable) && !own.contains(&variable);
    own.insert(variable)?;
    if clashes {
        Ok(Some(Offence::NotMonotone(place)))
    } else {
        Ok(None)
    }
}

/// The variables that were met as parameters, and those that were met in min, max, val or dom.
#[derive(Drop)]
struct Uses {
    parameters: HashSet<u64>,
    named: HashSet<u64>,
}

impl Uses {
    /// Meets the node's variable.
    fn meet_node(&mut self, node: RangeNode, place: usize) -> Result<Option<Offence>, NoMemory>
        ensures { IfOk result (FindsAt place node self.old.parameters.keys self.old.named.keys
            self.new.parameters.keys self.new.named.keys) }
    {
        match node {
            RangeNode::Param(variable) => meet(&self.named, &mut self.parameters, variable, place),
            RangeNode::Min(variable)
            | RangeNode::Max(variable)
            | RangeNode::Val(variable)
            | RangeNode::Dom(variable) => meet(&self.parameters, &mut self.named, variable, place),
            _ => Ok(None),
        }
    }
}

/// The first node that names a variable the other way than the nodes before it.
pub(crate) fn first_clash(
    alloc: Global,
    nodes: &[RangeNode],
    places: &[usize],
) -> Result<Option<Offence>, NoMemory>
    requires { length places.now ≡ length nodes.now }
    ensures { IfOk result
        (λ o. o ≡ first (clashes (λ n. slice_index places.now n) 0 [] [] nodes.now)) }
{
    let mut uses = Uses {
        parameters: HashSet::new(alloc),
        named: HashSet::new(alloc),
    };
    let mut clash = None;
    for (number, node) in nodes.iter().enumerate() {
        clash = earlier(clash, uses.meet_node(*node, places[number])?);
    }
    Ok(clash)
}
