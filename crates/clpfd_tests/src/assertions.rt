//! What tests say of what they found. It stands in one place, since each assertion in a test takes seconds to prove.

use std::fmt::Debug;
use std::process::Abort;

/// Refuses what differs from what is wanted, and says where.
pub(crate) fn same<T: PartialEq + Debug + Copy>(rt: &impl Abort, found: T, want: T, at: &str) {
    assert!(rt; found == want, "{found:?} is not {want:?}, at {at}");
}
