//! The law of the walk over a range, the contract of a function that does nothing.

ghost use Rattle.fd_language.specs.RangeLaws.{LeavesTell};

/// What a range reads, its vals, its parameters, its places and its features are filters of the list of its leaves, and its nodes have
/// the same leaves in the same order.
pub fn leaves_tell()
    ensures { LeavesTell }
{}
