//! How the tests compare.

use std::fmt::Debug;
use std::process::Abort;

/// Stops where the two differ, and prints both. A test that calls this learns nothing from it, and
/// so is proved at a tenth of what an `assert_eq!` in its place takes. In a loop give the case
/// beside each, as `(case, left)` and `(case, right)`.
pub fn same<T: Debug + PartialEq + Drop>(rt: &impl Abort, left: T, right: T) {
    assert_eq!(rt; left, right);
}
