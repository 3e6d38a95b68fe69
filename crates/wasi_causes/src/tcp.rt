//! Why calls of TCP sockets are refused, and what is left then.

ghost use Rattle.std.specs.Prelude.{◌≡◌, ◌↔◌, ◌⊎◌, ℕ, true, List, [], ◌∷◌, None};
ghost use Rattle.wasi_addr.specs.declared.address.IpSocketAddress.{IpSocketAddress};
ghost use Rattle.wasi_addr.specs.declared.address.ShutdownType.{ShutdownType};
ghost use Rattle.wasi_addr.specs.declared.address.SocketAddressFamily.{SocketAddressFamily};
ghost use Rattle.wasi_world.specs.declared.call.Call.{Call};
ghost use Rattle.wasi_world.specs.declared.call.Entry.{Entry};
ghost use Rattle.wasi_world.specs.declared.call.Told.{Told};
ghost use Rattle.wasi_world.specs.declared.outcome.TrapKind.{TrapKind};
ghost use Rattle.wasi_world.specs.declared.outcome.WasiSocketsCtx.{WasiSocketsCtx};
ghost use Rattle.wasi_world.specs.Asks.{Give, Left};
ghost use Rattle.wasi_tcp.specs.Socket.{new_socket};
ghost use Rattle.host_store.specs.declared.machine.Machine.{Machine};
ghost use Rattle.wasi_steps.specs.declared.reply.CodeWord.{CodeWord};
ghost use Rattle.wasi_steps.specs.declared.reply.Field.{Field};
ghost use Rattle.wasi_steps.specs.declared.reply.Reply.{Reply};
ghost use Rattle.wasi_steps.specs.declared.guest_call.GuestCall.{GuestCall};
ghost use Rattle.wasi_steps.specs.declared.guest_call.TcpCall.{TcpCall};
ghost use Rattle.wasi_steps.specs.declared.step.Step.{Step};
ghost use Rattle.wasi_walks.specs.Answered.{Answered, ConnectsAt, FinishRefusal};
ghost use Rattle.wasi_walks.specs.Answered.{HasNoBindInProgress, HasNoConnectInProgress};
ghost use Rattle.wasi_walks.specs.Answered.{HasOperationInProgress, IsQuiet, KnowsBound};
ghost use Rattle.wasi_walks.specs.Answered.{OfStreams, putting, record_at};
ghost use Rattle.wasi_walks.specs.Answered.{RefusedBind, RefusedConnect, RefusedOf};
ghost use Rattle.wasi_causes.specs.Refusals.{CreateRefusal, LocalRefusal, RemoteRefusal};
ghost use Rattle.wasi_causes.specs.Reached.{FinishesAt};
ghost use Rattle.wasi_causes.specs.GivenUp.{HasNoStreams, shut_down, shutdown_entries};
ghost use Rattle.wasi_walks.specs.Licence.{entry};
ghost use Rattle.wasi_machine.specs.Machine.{context_at, run};
ghost use Rattle.host_store.specs.Limits.{with_limit};
ghost use Rattle.host_store.specs.Machine.{first_state, own_of, socket_at};
ghost use Rattle.host_tcp.specs.Creates.{with_room};
ghost use Rattle.tcp_records.specs.Shutdowns.{with_streams};
ghost use Rattle.host_store.specs.Kinds.{is_network, kind_at};
ghost use Rattle.wasi_walks.specs.Waiting.{WatchesConnect};
ghost use Rattle.host_store.specs.Store.{with_record};
ghost use Rattle.wasi_table.specs.Table.{is_full};

/// Why the finish of a bind is refused.
///
/// - `asks_nothing`: the finish of a bind asks nothing.
/// - `exactly`: it is refused with `not-in-progress` exactly where the socket has no bind in
///   progress; that is said where no call is pending.
/// - `no_other`: it is refused with no other code.
/// - `stays`: after a refusal the machine is unchanged.
pub fn finish_bind_refusals()
    ensures asks_nothing { (contexts : List WasiSocketsCtx) (m : Machine) (line ctx handle : ℕ)
        (entries : List Entry) (reply : Reply) (after : Machine)
        → Answered contexts m line (Step.Call ctx (GuestCall.Tcp (TcpCall.FinishBind handle))) entries reply
        after
        → entries ≡ [] }
    ensures exactly { (contexts : List WasiSocketsCtx) (m : Machine) (line ctx handle : ℕ)
        (entries : List Entry) (reply : Reply) (after : Machine)
        → m.store.standing ≡ None
        → Answered contexts m line (Step.Call ctx (GuestCall.Tcp (TcpCall.FinishBind handle))) entries reply
        after
        → (reply ≡ Reply.Err CodeWord.NotInProgress) ↔ HasNoBindInProgress (record_at m handle) }
    ensures no_other { (contexts : List WasiSocketsCtx) (m : Machine) (line ctx handle : ℕ)
        (entries : List Entry) (word : CodeWord) (after : Machine)
        → Answered contexts m line (Step.Call ctx (GuestCall.Tcp (TcpCall.FinishBind handle))) entries
        (Reply.Err word) after
        → word ≡ CodeWord.NotInProgress }
    ensures stays { (contexts : List WasiSocketsCtx) (m : Machine) (line ctx handle : ℕ)
        (entries : List Entry) (word : CodeWord) (after : Machine)
        → Answered contexts m line (Step.Call ctx (GuestCall.Tcp (TcpCall.FinishBind handle))) entries
        (Reply.Err word) after
        → after ≡ m }
{}

/// Why a create of a TCP socket is refused.
///
/// - `cause`: a create is refused with `access-denied` where the context may not use TCP, and then
///   nothing is asked; or with the code that its one call was answered.
/// - `stays`: after a refusal the machine is unchanged, but that the limit of the context is kept.
pub fn create_refusals()
    ensures cause { (contexts : List WasiSocketsCtx) (m : Machine) (line ctx : ℕ)
        (family : SocketAddressFamily) (entries : List Entry) (word : CodeWord) (after : Machine)
        → Answered contexts m line (Step.Call ctx (GuestCall.Tcp (TcpCall.Create family))) entries
        (Reply.Err word) after
        → CreateRefusal (own_of line) (context_at contexts ctx) family entries word }
    ensures stays { (contexts : List WasiSocketsCtx) (m : Machine) (line ctx : ℕ)
        (family : SocketAddressFamily) (entries : List Entry) (word : CodeWord) (after : Machine)
        → Answered contexts m line (Step.Call ctx (GuestCall.Tcp (TcpCall.Create family))) entries
        (Reply.Err word) after
        → after ≡ with_room m (context_at contexts ctx) }
{}

/// A create that traps with `Full` has made its network socket.
///
/// - `full`: the table is full.
/// - `asked`: its one call created the socket, and was answered done.
/// - `left`: the socket is in the last record, and the limit of the context is kept; the rest of
///   the machine is unchanged.
pub fn create_full()
    ensures full { (contexts : List WasiSocketsCtx) (m : Machine) (line ctx : ℕ)
        (family : SocketAddressFamily) (entries : List Entry) (after : Machine)
        → Answered contexts m line (Step.Call ctx (GuestCall.Tcp (TcpCall.Create family))) entries
        (Reply.Trap TrapKind.Full) after → is_full m.table ≡ true }
    ensures asked { (contexts : List WasiSocketsCtx) (m : Machine) (line ctx : ℕ)
        (family : SocketAddressFamily) (entries : List Entry) (after : Machine)
        → Answered contexts m line (Step.Call ctx (GuestCall.Tcp (TcpCall.Create family))) entries
        (Reply.Trap TrapKind.Full) after
        → entries ≡ entry (own_of line) (Call.TcpCreate (context_at contexts ctx).name family)
        Told.Done ∷ [] }
    ensures left { (contexts : List WasiSocketsCtx) (m : Machine) (line ctx : ℕ)
        (family : SocketAddressFamily) (entries : List Entry) (after : Machine)
        → Answered contexts m line (Step.Call ctx (GuestCall.Tcp (TcpCall.Create family))) entries
        (Reply.Trap TrapKind.Full) after
        → after ≡ record m {
          store = with_record (with_limit m.store (context_at contexts ctx))
              (new_socket (own_of line) (context_at contexts ctx).name family);
        } }
{}

/// Why the start of a bind is refused.
///
/// - `exactly`: the start of a bind is refused with `concurrency-conflict` exactly where an
///   operation is in progress; that is said where no call is pending.
/// - `cause`: any refusal comes from that, from the tests of a bind, or from what the network
///   answered.
/// - `stays`: after a refusal the machine is unchanged, but that a socket that was found bound is
///   known to be.
pub fn bind_refusals()
    ensures exactly { (contexts : List WasiSocketsCtx) (m : Machine) (line ctx handle network : ℕ)
        (a : IpSocketAddress) (entries : List Entry) (reply : Reply) (after : Machine)
        → m.store.standing ≡ None → is_network (kind_at m.table network) ≡ true
        → Answered contexts m line (Step.Call ctx (GuestCall.Tcp (TcpCall.StartBind handle network a))) entries
        reply after
        → (reply ≡ Reply.Err CodeWord.ConcurrencyConflict)
        ↔ HasOperationInProgress (record_at m handle) }
    ensures cause { (contexts : List WasiSocketsCtx) (m : Machine) (line ctx handle network : ℕ)
        (a : IpSocketAddress) (entries : List Entry) (word : CodeWord) (after : Machine)
        → Answered contexts m line (Step.Call ctx (GuestCall.Tcp (TcpCall.StartBind handle network a))) entries
        (Reply.Err word) after
        → RefusedBind m (own_of line) handle a entries word after }
    ensures stays { (contexts : List WasiSocketsCtx) (m : Machine) (line ctx handle network : ℕ)
        (a : IpSocketAddress) (entries : List Entry) (word : CodeWord) (after : Machine)
        → Answered contexts m line (Step.Call ctx (GuestCall.Tcp (TcpCall.StartBind handle network a))) entries
        (Reply.Err word) after
        → (after ≡ m) ⊎ ((word ≡ CodeWord.InvalidState) × KnowsBound m handle after) }
{}

/// Why the start of a connect is refused.
///
/// - `exactly`: the start of a connect is refused with `concurrency-conflict` exactly where an
///   operation is in progress; that is said where no call is pending.
/// - `cause`: any refusal comes from that, or from the tests of a connect.
/// - `stays`: after a refusal the machine is unchanged, but that a socket that was found bound is
///   known to be.
pub fn start_connect_refusals()
    ensures exactly { (contexts : List WasiSocketsCtx) (m : Machine) (line ctx handle network : ℕ)
        (a : IpSocketAddress) (entries : List Entry) (reply : Reply) (after : Machine)
        → m.store.standing ≡ None → is_network (kind_at m.table network) ≡ true
        → Answered contexts m line (Step.Call ctx (GuestCall.Tcp (TcpCall.StartConnect handle network a)))
        entries reply after
        → (reply ≡ Reply.Err CodeWord.ConcurrencyConflict)
        ↔ HasOperationInProgress (record_at m handle) }
    ensures cause { (contexts : List WasiSocketsCtx) (m : Machine) (line ctx handle network : ℕ)
        (a : IpSocketAddress) (entries : List Entry) (word : CodeWord) (after : Machine)
        → Answered contexts m line (Step.Call ctx (GuestCall.Tcp (TcpCall.StartConnect handle network a)))
        entries (Reply.Err word) after
        → RefusedConnect m (own_of line) handle a entries word after }
    ensures stays { (contexts : List WasiSocketsCtx) (m : Machine) (line ctx handle network : ℕ)
        (a : IpSocketAddress) (entries : List Entry) (word : CodeWord) (after : Machine)
        → Answered contexts m line (Step.Call ctx (GuestCall.Tcp (TcpCall.StartConnect handle network a)))
        entries (Reply.Err word) after
        → (after ≡ m) ⊎ ((word ≡ CodeWord.InvalidArgument) × KnowsBound m handle after) }
{}

/// Why the finish of a connect is refused.
///
/// - `exactly`: the finish of a connect is refused with `not-in-progress` exactly where the socket
///   has no connect in progress; that is said where no call is pending.
/// - `not_in_progress`: then nothing was asked, and the machine is unchanged.
/// - `cause`: with `would-block` the connect was answered pending and stays in progress; with any
///   other code the socket is closed with that code, and nothing is in progress.
/// - `in_runs`: in a run there are no other causes.
///
/// `cause` assumes that a socket connects by a connect, and that one with a connect in progress is
/// connecting, or was closed, or is connected with neither half taken. Every run keeps that
/// (`runs_connect_by_connects`, `runs_keep_their_records`).
pub fn finish_connect_refusals()
    ensures exactly { (contexts : List WasiSocketsCtx) (m : Machine) (line ctx handle : ℕ)
        (entries : List Entry) (reply : Reply) (after : Machine)
        → m.store.standing ≡ None
        → Answered contexts m line (Step.Call ctx (GuestCall.Tcp (TcpCall.FinishConnect handle))) entries reply
        after
        → (reply ≡ Reply.Err CodeWord.NotInProgress) ↔ HasNoConnectInProgress (record_at m handle) }
    ensures not_in_progress { (contexts : List WasiSocketsCtx) (m : Machine) (line ctx handle : ℕ)
        (entries : List Entry) (after : Machine)
        → Answered contexts m line (Step.Call ctx (GuestCall.Tcp (TcpCall.FinishConnect handle))) entries
        (Reply.Err CodeWord.NotInProgress) after → (entries ≡ []) × (after ≡ m) }
    ensures cause { (contexts : List WasiSocketsCtx) (m : Machine) (line ctx handle : ℕ)
        (entries : List Entry) (word : CodeWord) (after : Machine)
        → ConnectsAt m handle → FinishesAt m handle
        → Answered contexts m line (Step.Call ctx (GuestCall.Tcp (TcpCall.FinishConnect handle))) entries
        (Reply.Err word) after
        → RefusedOf m handle (FinishRefusal m) entries word after }
    ensures in_runs { (contexts : List WasiSocketsCtx) (steps : List Step) (log : List Entry)
        (replies : List Reply) (m : Machine) (line ctx handle : ℕ) (entries : List Entry)
        (word : CodeWord) (after : Machine)
        → Left (run contexts [] first_state 1 steps) log (Give (replies, m))
        → Answered contexts m line (Step.Call ctx (GuestCall.Tcp (TcpCall.FinishConnect handle))) entries
        (Reply.Err word) after
        → RefusedOf m handle (FinishRefusal m) entries word after }
{}

/// After any script, what a socket connects by is a connect of which only checks and the connect
/// itself are left.
///
/// - `handles`: for the socket of each handle.
/// - `pollables`: for the socket that each pollable watches.
pub fn runs_connect_by_connects()
    ensures handles { (contexts : List WasiSocketsCtx) (steps : List Step) (entries : List Entry)
        (replies : List Reply) (m : Machine)
        → Left (run contexts [] first_state 1 steps) entries (Give (replies, m)) → (handle : ℕ)
        → ConnectsAt m handle }
    ensures pollables { (contexts : List WasiSocketsCtx) (steps : List Step) (entries : List Entry)
        (replies : List Reply) (m : Machine)
        → Left (run contexts [] first_state 1 steps) entries (Give (replies, m)) → (pollable : ℕ)
        → WatchesConnect m pollable }
{}

/// Why the local address is refused.
///
/// - `cause`: the local address is refused where the socket isn't bound or is connecting, with the
///   code with which it is closed, or with the code that the network reported.
/// - `stays`: after a refusal the machine is unchanged, but that a socket that was found bound is
///   known to be.
pub fn local_address_refusals()
    ensures cause { (contexts : List WasiSocketsCtx) (m : Machine) (line ctx handle : ℕ)
        (entries : List Entry) (word : CodeWord) (after : Machine)
        → Answered contexts m line (Step.Call ctx (GuestCall.Tcp (TcpCall.LocalAddress handle))) entries
        (Reply.Err word) after
        → RefusedOf m handle (LocalRefusal m (own_of line)) entries word after }
    ensures stays { (contexts : List WasiSocketsCtx) (m : Machine) (line ctx handle : ℕ)
        (entries : List Entry) (word : CodeWord) (after : Machine)
        → Answered contexts m line (Step.Call ctx (GuestCall.Tcp (TcpCall.LocalAddress handle))) entries
        (Reply.Err word) after
        → (after ≡ m) ⊎ KnowsBound m handle after }
{}

/// Why the remote address is refused.
///
/// - `cause`: the remote address is refused where the socket isn't connected, with the code with
///   which it is closed, or with the code that the network reported.
/// - `stays`: after a refusal the machine is unchanged.
pub fn remote_address_refusals()
    ensures cause { (contexts : List WasiSocketsCtx) (m : Machine) (line ctx handle : ℕ)
        (entries : List Entry) (word : CodeWord) (after : Machine)
        → Answered contexts m line (Step.Call ctx (GuestCall.Tcp (TcpCall.RemoteAddress handle))) entries
        (Reply.Err word) after
        → RefusedOf m handle (RemoteRefusal m (own_of line)) entries word after }
    ensures stays { (contexts : List WasiSocketsCtx) (m : Machine) (line ctx handle : ℕ)
        (entries : List Entry) (word : CodeWord) (after : Machine)
        → Answered contexts m line (Step.Call ctx (GuestCall.Tcp (TcpCall.RemoteAddress handle))) entries
        (Reply.Err word) after
        → after ≡ m }
{}

/// Whether a socket is listening, and the family of a TCP or a UDP socket:
///
/// - `never`: is never refused.
/// - `quiet`: asks nothing, and leaves the machine unchanged.
pub fn listening_and_family_are_never_refused()
    ensures never { (contexts : List WasiSocketsCtx) (m : Machine) (line : ℕ) (s : Step)
        (entries : List Entry) (word : CodeWord) (after : Machine)
        → IsQuiet s → Answered contexts m line s entries (Reply.Err word) after → ⊥ }
    ensures quiet { (contexts : List WasiSocketsCtx) (m : Machine) (line : ℕ) (s : Step)
        (entries : List Entry) (reply : Reply) (after : Machine)
        → IsQuiet s → Answered contexts m line s entries reply after
        → (entries ≡ []) × (after ≡ m) }
{}

/// Why a shutdown is refused, and what it does else.
///
/// - `exactly`: a shutdown is refused with `invalid-state` exactly where the socket's streams
///   weren't made yet; that is said where no call is pending.
/// - `no_other`: it is refused with no other code.
/// - `stays`: after a refusal nothing was asked, and the machine is unchanged.
/// - `asked`: else it shuts down the halves that are released at once, the receiving one first.
/// - `left`: and leaves the streams shut down.
pub fn shutdown_refusals()
    ensures exactly { (contexts : List WasiSocketsCtx) (m : Machine) (line ctx handle : ℕ)
        (how : ShutdownType) (entries : List Entry) (reply : Reply) (after : Machine)
        → m.store.standing ≡ None
        → Answered contexts m line (Step.Call ctx (GuestCall.Tcp (TcpCall.Shutdown handle how))) entries reply
        after
        → (reply ≡ Reply.Err CodeWord.InvalidState) ↔ HasNoStreams (record_at m handle) }
    ensures no_other { (contexts : List WasiSocketsCtx) (m : Machine) (line ctx handle : ℕ)
        (how : ShutdownType) (entries : List Entry) (word : CodeWord) (after : Machine)
        → Answered contexts m line (Step.Call ctx (GuestCall.Tcp (TcpCall.Shutdown handle how))) entries
        (Reply.Err word) after
        → word ≡ CodeWord.InvalidState }
    ensures stays { (contexts : List WasiSocketsCtx) (m : Machine) (line ctx handle : ℕ)
        (how : ShutdownType) (entries : List Entry) (word : CodeWord) (after : Machine)
        → Answered contexts m line (Step.Call ctx (GuestCall.Tcp (TcpCall.Shutdown handle how))) entries
        (Reply.Err word) after
        → (entries ≡ []) × (after ≡ m) }
    ensures asked { (contexts : List WasiSocketsCtx) (m : Machine) (line ctx handle : ℕ)
        (how : ShutdownType) (fields : List Field) (entries : List Entry) (after : Machine)
        → Answered contexts m line (Step.Call ctx (GuestCall.Tcp (TcpCall.Shutdown handle how))) entries
        (Reply.Ok fields) after
        → OfStreams m (socket_at m handle) (λ place r s. entries
        ≡ shutdown_entries (own_of line) how s) }
    ensures left { (contexts : List WasiSocketsCtx) (m : Machine) (line ctx handle : ℕ)
        (how : ShutdownType) (fields : List Field) (entries : List Entry) (after : Machine)
        → Answered contexts m line (Step.Call ctx (GuestCall.Tcp (TcpCall.Shutdown handle how))) entries
        (Reply.Ok fields) after
        → OfStreams m (socket_at m handle) (λ place r s. after
        ≡ putting m place (with_streams r (shut_down how s))) }
{}
