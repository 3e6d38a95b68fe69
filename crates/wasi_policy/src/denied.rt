//! A check that rules denied.

use wasi_world::Entry;

/// A check that the rules denied, which was not handed on.
#[derive(Drop)]
pub struct Denied {
    /// How many calls were handed on and answered before it.
    pub place: u64,
    /// The check, with the answer no.
    pub entry: Entry,
}
