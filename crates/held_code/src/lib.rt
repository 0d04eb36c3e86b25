//! What is known of each code with states that is in memory: its numbers are ones that their types
//! can hold, its ranges can be posted, and its pool begins as each pool does. The calls do nothing
//! but say so.
#![tactic(auto)]

ghost use Rattle.listing_loader.specs.LoadedCode.{IsHeld};

mod code;
mod ranges;
mod states;

use crate::code::{hold_code, hold_entries, hold_place, hold_queries, hold_tables};
use crate::ranges::hold_ranges;
use crate::states::hold_states;
use code_listing::Listed;

/// Code with states as memory holds it. No memory.
pub fn hold(code: &Listed)
    ensures { IsHeld code.now }
{
    let parts = code.area().parts();
    hold_code(&parts.code);
    hold_entries(&parts.entries);
    hold_queries(&parts.queries);
    hold_tables(&parts.tables);
    hold_ranges(&parts.ranges);
    hold_states(code.states());
    hold_place(parts.pool.atoms());
}
