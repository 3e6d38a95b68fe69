//! What a table keeps of a live handle.

ghost use Rattle.std.specs.Prelude.{◌≡◌, []};

use crate::handles::Handles;
use std::alloc::Global;

/// A live handle with its value, the handle that it was made a child of, and the handles of its
/// live children.
#[derive(Drop)]
pub struct Slot<K> {
    /// The number of the handle.
    pub handle: u32,
    /// What is held by it.
    pub value: K,
    /// The handle that it was made a child of, if any.
    pub parent: Option<u32>,
    /// The handles of its live children.
    pub children: Handles,
}

impl<K> Slot<K> {
    /// A handle with no child. Takes no memory.
    pub(crate) fn new(alloc: Global, handle: u32, value: K, parent: Option<u32>) -> Slot<K>
        ensures { result ≡ record {
          handle = handle;
          value = value;
          parent = parent;
          children = [];
        } }
    {
        Slot {
            handle,
            value,
            parent,
            children: Handles::new(alloc),
        }
    }
}
