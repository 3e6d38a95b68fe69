//! A guest that gives its views, and the names of a line.

ghost use Rattle.std.specs.Prelude.{◌≡◌};

use host_store::{Kind, NamedId, Store, WasiSocketsCtxView, WasiSocketsNamedView, WasiSocketsView};
use std::alloc::Global;
use wasi_table::Table;
use wasi_world::{Ids, WasiSocketsCtx};

/// A guest of two contexts, which share a table and a store: one may use TCP and UDP, the other
/// nothing.
#[derive(Drop)]
pub struct Guest {
    open: WasiSocketsCtx,
    closed: WasiSocketsCtx,
    table: Table<Kind>,
    store: Store,
}

impl Guest {
    /// The open context is number 7, the closed one number 9.
    pub fn new(alloc: Global) -> Guest
        ensures open { result.open.name ≡ 7 }
        ensures closed { result.closed.name ≡ 9 }
    {
        Guest {
            open: WasiSocketsCtx {
                name: 7,
                ip_name_lookup: false,
                udp: true,
                tcp: true,
                write_limit: u64::MAX,
            },
            closed: WasiSocketsCtx {
                name: 9,
                ip_name_lookup: false,
                udp: false,
                tcp: false,
                write_limit: u64::MAX,
            },
            table: Table::new(alloc),
            store: Store::new(alloc),
        }
    }
}

impl WasiSocketsView for Guest {
    ghost ctx = { λ guest. guest.open };

    ghost table = { λ guest. guest.table };

    ghost store = { λ guest. guest.store };

    fn sockets(&mut self) -> WasiSocketsCtxView<'_> {
        WasiSocketsCtxView {
            ctx: &mut self.open,
            table: &mut self.table,
            store: &mut self.store,
        }
    }
}

impl WasiSocketsNamedView for Guest {
    ghost use Rattle.std.specs.Prelude.{[], ◌∷◌};

    ghost ids = { λ guest. guest.open.name ∷ guest.closed.name ∷ [] };

    ghost table = { λ guest. guest.table };

    ghost store = { λ guest. guest.store };

    fn sockets(&mut self, id: NamedId) -> WasiSocketsCtxView<'_> {
        if self.open.name == id.0 {
            return WasiSocketsCtxView {
                ctx: &mut self.open,
                table: &mut self.table,
                store: &mut self.store,
            };
        }
        WasiSocketsCtxView {
            ctx: &mut self.closed,
            table: &mut self.table,
            store: &mut self.store,
        }
    }
}

/// The names of a line.
pub fn line(number: u32) -> Ids {
    Ids {
        line: number,
        next_part: 1,
    }
}
