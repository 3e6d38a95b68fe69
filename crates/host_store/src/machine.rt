//! The state behind a guest's calls.

ghost use Rattle.std.specs.Prelude.{◌≡◌};
ghost use Rattle.host_store.specs.Machine.{first_state};

use crate::kind::Kind;
use crate::store::Store;
use std::alloc::Global;
use wasi_table::Table;

/// A table of handles and the store of what they stand for. With a context it makes a view, which
/// the calls take.
#[derive(Drop)]
pub struct Machine {
    pub table: Table<Kind>,
    pub store: Store,
}

impl Machine {
    /// A machine with no handle, no record, no job and no pending call. Takes no memory.
    pub fn new(alloc: Global) -> Machine
        ensures { result ≡ first_state }
    {
        Machine {
            table: Table::new(alloc),
            store: Store::new(alloc),
        }
    }
}
