//! What a host call is given: a context, a table and a store.

ghost use Rattle.std.specs.Prelude.{◌≡◌};
ghost use Rattle.host_store.specs.Views.{Knows};

use crate::kind::Kind;
use crate::store::Store;
use wasi_table::Table;
use wasi_world::WasiSocketsCtx;

/// What a call is given: a context, the table of handles and the records that they stand for
/// (`WasiSocketsCtxView` of the crate wasmtime-wasi, with the store beside the table). A call
/// leaves the context as it was.
#[derive(Drop)]
pub struct WasiSocketsCtxView<'a> {
    pub ctx: &'a mut WasiSocketsCtx,
    pub table: &'a mut Table<Kind>,
    pub store: &'a mut Store,
}

/// A type that has a context, a table and a store, and gives a view of them (`WasiSocketsView` of
/// the crate wasmtime-wasi).
pub trait WasiSocketsView {
    ghost use Rattle.wasi_world.specs.declared.outcome.WasiSocketsCtx.{WasiSocketsCtx};
    ghost use Rattle.host_store.specs.Kinds.{HandleTable};
    ghost use Rattle.host_store.specs.Store.{Records};

    /// Its context.
    ghost ctx: { Self → WasiSocketsCtx };

    /// Its table.
    ghost table: { Self → HandleTable };

    /// Its store.
    ghost store: { Self → Records };

    /// A view of its context, its table and its store.
    fn sockets(&mut self) -> WasiSocketsCtxView<'_>
        ensures ctx { result.ctx.now ≡ ctx self.old }
        ensures table { result.table.now ≡ table self.old }
        ensures store { result.store.now ≡ store self.old };
}

/// The number of a context, where there are several (a string in the crate wasmtime-wasi).
#[derive(Clone, Copy, Debug, PartialEq, Eq, Hash)]
pub struct NamedId(pub u32);

/// A type that has several contexts over one table and one store, and gives a view of one of them
/// (`WasiSocketsNamedView` of the crate wasmtime-wasi).
pub trait WasiSocketsNamedView {
    ghost use Rattle.std.specs.Prelude.{ℕ, List};
    ghost use Rattle.host_store.specs.Kinds.{HandleTable};
    ghost use Rattle.host_store.specs.Store.{Records};

    /// The numbers of its contexts.
    ghost ids: { Self → List ℕ };

    /// Its table.
    ghost table: { Self → HandleTable };

    /// Its store.
    ghost store: { Self → Records };

    /// A view of the context with this number, which has to be one of its own.
    fn sockets(&mut self, id: NamedId) -> WasiSocketsCtxView<'_>
        requires { Knows (ids self.old) id }
        ensures ctx { result.ctx.now.name ≡ id.0 }
        ensures table { result.table.now ≡ table self.old }
        ensures store { result.store.now ≡ store self.old };
}

/// A type with several contexts, to be called by their numbers: a call for one of them is made on
/// the view that [`at`](Self::at) gives (`WasiCtxNamedView` of the crate wasmtime-wasi).
#[derive(Drop)]
pub struct WasiCtxNamedView<'a, T>(pub &'a mut T);

impl<T: WasiSocketsNamedView> WasiCtxNamedView<'_, T> {
    /// A view of the context with this number, which has to be one of its own.
    pub fn at(&mut self, id: NamedId) -> WasiSocketsCtxView<'_>
        requires { Knows (T.ids self.old.0.now) id }
        ensures ctx { result.ctx.now.name ≡ id.0 }
        ensures table { result.table.now ≡ T.table self.old.0.now }
        ensures store { result.store.now ≡ T.store self.old.0.now }
    {
        self.0.sockets(id)
    }
}
