//! How the tests compare, and what they write and read.

use std::alloc::{AllocError, Global};
use std::fmt::Debug;
use std::process::Abort;

/// Stops where the two differ, and prints both. A test that calls this learns nothing from it, and
/// so is proved at a tenth of what an `assert_eq!` in its place takes. In a loop give the case
/// beside each, as `(case, left)` and `(case, right)`.
pub fn same<T: Debug + PartialEq + Drop>(rt: &impl Abort, left: T, right: T) {
    assert_eq!(rt; left, right);
}

/// This many bytes, of which no two neighbours are equal.
pub fn pattern(alloc: Global, len: usize) -> Result<Vec<u8>, AllocError> {
    let mut bytes = Vec::new(alloc);
    for n in 0..len {
        bytes.push((n % 251) as u8)?;
    }
    Ok(bytes)
}
