//! Codes of ranges that are given by their nodes.

use fd_language::{FlatRange, RangeNode};
use monotone_check::check;
use range_code::{RangeCode, compile_range};
use std::alloc::Global;
use std::test::Fail;

/// The code of the range that the nodes spell.
pub(crate) fn code_of(alloc: Global, nodes: &[RangeNode]) -> Result<RangeCode, Fail> {
    let Some(range) = FlatRange::from_nodes(nodes.to_vec(alloc)?) else {
        return Err(Fail::new("no range"));
    };
    let places = vec![in alloc; 0; range.nodes().len()]?;
    if places.len() != range.nodes().len() {
        return Err(Fail::new("no places"));
    }
    match check(alloc, range, &places) {
        Ok(checked) => Ok(compile_range(alloc, &checked)?),
        Err(_) => Err(Fail::new("not accepted")),
    }
}
