//! The laws of the check of ranges, each the contract of a function that does nothing.

ghost use Rattle.fd_language.specs.CheckLaws.{VerdictAgrees, BoundedValues};
ghost use Rattle.fd_language.specs.Monotonicity.{AcceptedIsMonotone};

/// A range is accepted exactly where the check finds no offence in it, whatever its places.
pub fn verdict_agrees()
    ensures { VerdictAgrees }
{}

/// While an accepted range is evaluated with parameters that meet their needs, every value has a magnitude of at most 2^126 - 1, and no
/// divisor is negative.
pub fn bounded_values()
    ensures { BoundedValues }
{}

/// A range that the table accepts only shrinks when domains shrink.
pub fn accepted_is_monotone()
    ensures { AcceptedIsMonotone }
{}
