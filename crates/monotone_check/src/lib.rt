//! The check of ranges: a range is accepted only if it can only shrink when domains shrink, and if its values keep within 126 bits
//! (Codognet and Diaz 1996).
#![tactic(auto)]

ghost use Rattle.std.specs.Prelude.{◌≡◌, length, IsTrue, MatchResult, IfOk, Some, None};
ghost use Rattle.fd_language.specs.PostfixRanges.{nodes_of};
ghost use Rattle.fd_language.specs.Needs.{needs as needs_of};
ghost use Rattle.fd_language.specs.RangeVerdict.{verdict, is_accepted};
ghost use Rattle.monotone_check.specs.Faults.{IsFaultOf};
ghost use Rattle.monotone_check.specs.declared.CheckFault.TheVariants as fault;

mod clash;
mod node_walk;
mod offences;
mod parameter_asks;
mod parameter_places;
mod pending_checks;
mod strongest_needs;
mod summary;

use crate::clash::first_clash;
use crate::node_walk::summarize;
use crate::offences::earlier;
use crate::parameter_asks::read_asks;
use crate::strongest_needs::gather;
use fd_language::{FlatRange, INFINITY, Need, NoMemory, Offence};
use std::alloc::Global;
use std::marker::Model;
use thiserror::Error;

/// Why a range is refused. Each place is that of a node, as it was handed in.
#[derive(Debug, Drop, Error)]
pub enum CheckFault {
    /// A least value, a greatest value or a domain stands where the range could grow as domains shrink, or a variable stands both as a
    /// parameter and in min, max, val or dom.
    #[error("the range can grow at {place}")]
    NotMonotone { place: usize },
    /// A difference or a literal below 0 inside a term that has to be natural.
    #[error("a term that is not natural at {place}")]
    NotNatural { place: usize },
    /// A literal divisor below 1, or one of a pointwise quotient that is neither a literal nor a parameter.
    #[error("a divisor that is not allowed at {place}")]
    BadDivisor { place: usize },
    /// Values over the limit of 126 bits, or a factor of a pointwise form over 2^98.
    #[error("values over the limit at {place}")]
    TooWide { place: usize },
    /// Memory was wanting.
    #[error("out of memory")]
    NoMemory,
}

/// A range that the check accepts.
#[derive(Drop)]
pub struct Checked {
    range: FlatRange,
}

impl Model for Checked {
    ghost use Rattle.std.specs.Prelude.{IsTrue};
    ghost use Rattle.std.specs.Coded.{code_by, coded_list};
    ghost use Rattle.fd_language.specs.contracts.range_node.RangeNode as node;
    ghost use Rattle.fd_language.specs.Range.{Range};
    ghost use Rattle.fd_language.specs.PostfixRanges.{nodes_of, spelled_range, spelled_range-nodes};

    ghost Value = { Range };

    ghost coded = { code_by _ (coded_list node.the_row.coded) nodes_of spelled_range spelled_range-nodes };

    ghost use Rattle.fd_language.specs.RangeVerdict.{is_accepted};
    ghost use Rattle.fd_language.specs.declared.TheConstants.{INFINITY};

    ghost view = { λ c. c.range };

    ghost invariant = { λ c. IsTrue (is_accepted INFINITY c.range) };
}

impl Checked {
    /// A range that is known to be accepted.
    pub fn from_accepted(range: FlatRange) -> Checked
        requires { IsTrue (is_accepted INFINITY range) }
        ensures { result ≡ range }
    {
        Checked { range }
    }

    /// The range itself.
    pub fn range(&self) -> &FlatRange
        ensures range { result.now ≡ self.now }
        ensures accepted { IsTrue (is_accepted INFINITY self.now) }
    {
        &self.range
    }
}

fn fault_of(offence: Offence) -> CheckFault
    ensures fault { IsFaultOf (Some offence) result }
    ensures memory { result ≡ fault.NoMemory → ⊥ }
{
    match offence {
        Offence::NotMonotone(place) => CheckFault::NotMonotone { place },
        Offence::NotNatural(place) => CheckFault::NotNatural { place },
        Offence::BadDivisor(place) => CheckFault::BadDivisor { place },
        Offence::TooWide(place) => CheckFault::TooWide { place },
    }
}

/// The first offence in a range. `places` has a place for each node in postfix order.
fn first_offence(
    alloc: Global,
    range: &FlatRange,
    places: &[usize],
) -> Result<Option<Offence>, NoMemory>
    requires { length places.now ≡ length (nodes_of range.now) }
    ensures { IfOk result (λ o. o ≡ verdict INFINITY places.now range.now) }
{
    let nodes = range.nodes();
    let summary = summarize(alloc, nodes, places)?;
    if summary.wide.is_some() {
        return Ok(summary.wide);
    }
    let clash = first_clash(alloc, nodes, places)?;
    Ok(earlier(summary.shrinking, clash))
}

/// Accepts a range, or says which node is refused first. `places` has a place for each node in postfix order.
pub fn check(alloc: Global, range: FlatRange, places: &[usize]) -> Result<Checked, CheckFault>
    requires { length places.now ≡ length (nodes_of range) }
    ensures { MatchResult result (λ c. (c ≡ range) × (verdict INFINITY places.now range ≡ None))
        (IsFaultOf (verdict INFINITY places.now range)) }
{
    match first_offence(alloc, &range, places) {
        Ok(None) => Ok(Checked { range }),
        Ok(Some(offence)) => Err(fault_of(offence)),
        Err(NoMemory) => Err(CheckFault::NoMemory),
    }
}

/// Each parameter of the range with what it needs, in the order of first occurrence. Where several needs are asked of one parameter, the
/// strongest holds.
pub fn needs(alloc: Global, checked: &Checked) -> Result<Vec<(u64, Need)>, NoMemory>
    ensures { IfOk result (λ v. v.items ≡ needs_of checked.now) }
{
    let asking = read_asks(alloc, checked.range().nodes())?;
    gather(alloc, &asking.places)
}
