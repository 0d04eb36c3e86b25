//! Terms of a pool read as ranges, with the place of each node, and the place of a term that is no range.
#![tactic(auto)]

ghost use Rattle.std.specs.Prelude.{◌≡◌, ◌<◌, length, None, MatchResult, IfOk};
ghost use Rattle.fd_language.specs.PostfixRanges.{nodes_of};
ghost use Rattle.fd_language.specs.Spelling.{read_range as reading_of, not_a_range};
ghost use Rattle.term_pool.specs.PlacedTerms.{placed_of};
ghost use Rattle.range_terms.specs.Faults.{IsFaultOf};

mod forms;
mod names;
mod walk;

use crate::walk::{Found, read_term};
use fd_language::{FlatRange, NoMemory};
pub use range_features::features;
use std::alloc::Global;
use term_pool::{Pool, TermId};
use thiserror::Error;

/// A range as it was read.
#[derive(Drop)]
pub struct SourceRange {
    /// The range itself.
    pub range: FlatRange,
    /// The place of each node in postfix order, in bytes of the text.
    pub places: Vec<usize>,
}

/// Why a term is not read as a range.
#[derive(Debug, Drop, Error)]
pub enum RangeFault {
    /// It spells no range. The place is the smallest one of the subterms that fit nowhere, in bytes of the text.
    #[error("not a range at {place}")]
    NotARange { place: usize },
    /// Memory was wanting.
    #[error("out of memory")]
    NoMemory,
}

/// The range that a term of the pool spells, with the place of each of its nodes. The word `infinity` is this number.
pub fn read_range(
    alloc: Global,
    pool: &Pool,
    t: TermId,
    infinity: u32,
) -> Result<SourceRange, RangeFault>
    requires { t.number < length pool.now.entries }
    ensures spelled { MatchResult result (λ s. (not_a_range infinity (placed_of pool.now t) ≡ None)
        × (s.range ≡ (reading_of infinity (placed_of pool.now t)).tree)
        × (s.places.items ≡ (reading_of infinity (placed_of pool.now t)).places))
        (IsFaultOf (not_a_range infinity (placed_of pool.now t))) }
    ensures placed { IfOk result (λ s. length s.places.items ≡ length (nodes_of s.range)) }
{
    let Found {
        nodes,
        places,
        offender,
    } = match read_term(alloc, pool, t, infinity) {
        Ok(found) => found,
        Err(NoMemory) => return Err(RangeFault::NoMemory),
    };
    if let Some(place) = offender {
        return Err(RangeFault::NotARange { place });
    }
    let range = FlatRange::from_nodes(nodes).unwrap();
    Ok(SourceRange { range, places })
}
