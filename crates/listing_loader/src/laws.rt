//! The law of faults, as the contract of a function that does nothing.

ghost use Rattle.listing_loader.specs.Laws.{OneAnswer};

use code_flow::laws::places_decide;
use listing_reader::one_sheet;

/// Beside want of memory, at most one fault is a text's, and none is that of a listing.
pub fn one_answer()
    ensures { OneAnswer }
{
    places_decide();
    one_sheet();
}
