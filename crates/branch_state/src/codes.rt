//! The ranges by which touches and bounds are posted.

ghost use Rattle.std.specs.Prelude.{◌≡◌, IfOk, IsTrue};
ghost use Rattle.fd_language.specs.declared.TheConstants.{INFINITY};
ghost use Rattle.fd_language.specs.RangeVerdict.{is_accepted};
ghost use Rattle.branch_state.specs.Codes.{exact_range, same_range, bound_range};

use fd_language::{FlatRange, NoMemory, RangeNode};
use monotone_check::Checked;
use range_code::{RangeCode, compile_range};
use std::alloc::Global;
use std::rc::Rc;

/// The codes of the ranges by which touches and bounds are posted: of an integer, of another variable's values, and of the greatest number.
#[derive(Drop)]
pub(crate) struct Codes {
    pub exact: Rc<RangeCode>,
    pub same: Rc<RangeCode>,
    pub bound: Rc<RangeCode>,
    ghost exact_is: { exact.value ≡ exact_range },
    ghost same_is: { same.value ≡ same_range },
    ghost bound_is: { bound.value ≡ bound_range },
}

impl Codes {
    /// Compiles the three ranges.
    pub(crate) fn new(alloc: Global) -> Result<Codes, NoMemory> {
        Ok(Codes {
            exact: exact_code(alloc)?,
            same: same_code(alloc)?,
            bound: bound_code(alloc)?,
        })
    }
}

/// The code of the range `P..P`, by which a variable of the store gets an integer.
fn exact_code(alloc: Global) -> Result<Rc<RangeCode>, NoMemory>
    ensures { IfOk result (λ code. code.value ≡ exact_range) }
{
    let nodes = vec![in alloc; RangeNode::Param(0), RangeNode::Param(0), RangeNode::Span]?;
    let range = FlatRange::from_nodes(nodes).unwrap();
    let checked = Checked::from_accepted(range);
    Ok(Rc::new(alloc, compile_range(alloc, &checked)?)?)
}

/// The code of the range `dom(Y)`, by which a variable of the store gets the values of another one.
fn same_code(alloc: Global) -> Result<Rc<RangeCode>, NoMemory>
    ensures { IfOk result (λ code. code.value ≡ same_range) }
{
    let nodes = vec![in alloc; RangeNode::Dom(0)]?;
    let range = FlatRange::from_nodes(nodes).unwrap();
    let checked = Checked::from_accepted(range);
    Ok(Rc::new(alloc, compile_range(alloc, &checked)?)?)
}

/// The code of the range `0..P`, by which a variable of the store gets its greatest number.
fn bound_code(alloc: Global) -> Result<Rc<RangeCode>, NoMemory>
    ensures { IfOk result (λ code. code.value ≡ bound_range) }
{
    let nodes = vec![in alloc; RangeNode::Int(0), RangeNode::Param(0), RangeNode::Span]?;
    let range = FlatRange::from_nodes(nodes).unwrap();
    let checked = Checked::from_accepted(range);
    Ok(Rc::new(alloc, compile_range(alloc, &checked)?)?)
}

/// What holds of the range of a code.
pub(crate) fn know_code(code: &RangeCode)
    ensures { IsTrue (is_accepted INFINITY code.now) }
{
    let _ = code.features();
}
