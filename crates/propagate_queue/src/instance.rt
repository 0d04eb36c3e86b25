//! What may be posted: a range over variables of a store, with its target.

ghost use Rattle.std.specs.Prelude.{◌≡◌, ◌↔◌, IsTrue};
ghost use Rattle.fd_language.specs.Needs as needs;
ghost use Rattle.range_code.specs.Frames.{AreArgs, IsArg};
ghost use Rattle.propagate_queue.specs.Instances.{IsInstance};

use fd_language::Need;
use range_code::{Arg, RangeCode};
use std::rc::Rc;

/// A range to be posted: its code, its target and the arguments of its slots.
#[derive(Drop)]
pub struct Instance {
    /// The range, whose variables are slots.
    pub code: Rc<RangeCode>,
    /// The variable that the range narrows.
    pub target: usize,
    /// One argument for each slot.
    pub args: Vec<Arg>,
}

impl Instance {
    /// Whether the target is one of `vars` variables, and the arguments are of these and meet the needs of their slots.
    pub fn fits(&self, vars: usize) -> bool
        ensures { IsTrue result ↔ IsInstance vars self.now }
    {
        self.target < vars && args_fit(self.code.needs(), &self.args, vars)
    }
}

/// Whether there is an argument for each slot, which is a variable of so many, or an integer that meets the slot's need.
fn args_fit(needs: &[Option<Need>], args: &[Arg], vars: usize) -> bool
    ensures { IsTrue result ↔ AreArgs vars needs.now args.now }
{
    if needs.len() != args.len() {
        return false;
    }
    let mut i = 0;
    'fitting: while i < args.len() {
        if !arg_fits(needs[i], args[i], vars) {
            return false;
        }
        i += 1;
    }
    true
}

/// Whether the argument is one of so many variables, or an integer that meets the need.
fn arg_fits(need: Option<Need>, arg: Arg, vars: usize) -> bool
    ensures { IsTrue result ↔ IsArg vars need arg }
{
    match (need, arg) {
        (None, Arg::Var(k)) => k < vars,
        (Some(need), Arg::Int(value)) => meets(need, value),
        _ => false,
    }
}

/// Whether the integer meets the need. Each need asks for a magnitude below 2 to the power of 63.
fn meets(need: Need, value: i64) -> bool
    ensures { result ≡ needs.meets need value }
{
    match need {
        Need::Whole => value > i64::MIN,
        Need::Natural => value >= 0,
        Need::Divisor => value >= 1,
    }
}
