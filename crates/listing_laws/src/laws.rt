//! The law of listings, as the contract of a function that does nothing.

ghost use Rattle.listing_laws.specs.Laws.{SameListingStands};

/// What a listing leaves out isn't asked for: code stands for the programs that any code with its listing
/// stands for.
pub fn same_listing_stands()
    ensures { SameListingStands }
{}
