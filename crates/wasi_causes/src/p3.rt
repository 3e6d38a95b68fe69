//! Where the answers of the calls of 0.3 sockets come from, and what is left then: laws over the
//! definitions of specs/. Each is a function that does nothing, whose contract is the law. The
//! causes are those of the 0.2 calls; a base code has its 0.3 name.

ghost use Rattle.std.specs.Prelude.{◌≡◌, ◌⊎◌, ℕ, true, false, List, [], ◌∷◌, Some, None};
ghost use Rattle.wasi_addr.specs.declared.address.SocketAddressFamily.{SocketAddressFamily};
ghost use Rattle.wasi_world.specs.declared.call.Call.{Call};
ghost use Rattle.wasi_world.specs.declared.call.Entry.{Entry};
ghost use Rattle.wasi_world.specs.declared.call.Opt.{Opt};
ghost use Rattle.wasi_world.specs.declared.call.Told.{Told};
ghost use Rattle.wasi_world.specs.declared.outcome.TrapKind.{TrapKind};
ghost use Rattle.wasi_world.specs.declared.outcome.WasiSocketsCtx.{WasiSocketsCtx};
ghost use Rattle.host_store.specs.declared.kind.Kind.{Kind};
ghost use Rattle.host_store.specs.declared.machine.Machine.{Machine};
ghost use Rattle.host_store.specs.Kinds.{kind_at};
ghost use Rattle.host_store.specs.Machine.{own_of};
ghost use Rattle.host_store.specs.Store.{with_socket};
ghost use Rattle.wasi_machine.specs.Machine.{context_at};
ghost use Rattle.tcp_records.specs.declared.socket.TcpRecord.{TcpRecord};
ghost use Rattle.tcp_records.specs.Holding.{is_held, without_socket};
ghost use Rattle.wasi_records.specs.Records.{tcp2_at};
ghost use Rattle.wasi_steps.specs.declared.guest_call.GuestCall.{GuestCall};
ghost use Rattle.wasi_steps.specs.declared.guest_call.PollableCall.{PollableCall};
ghost use Rattle.wasi_steps.specs.declared.guest_call.P3TcpCall.{P3TcpCall};
ghost use Rattle.wasi_steps.specs.declared.reply.CodeWord.{CodeWord};
ghost use Rattle.wasi_steps.specs.declared.reply.Field.{Field};
ghost use Rattle.wasi_steps.specs.declared.reply.Reply.{Reply};
ghost use Rattle.wasi_steps.specs.declared.setting.TcpSetting.{TcpSetting};
ghost use Rattle.wasi_steps.specs.declared.step.Step.{Step};
ghost use Rattle.wasi_steps.specs.Reply.{no_fields};
ghost use Rattle.wasi_steps.specs.Settings.{chosen};
ghost use Rattle.wasi_table.specs.Table.{children_of};
ghost use Rattle.wasi_walks.specs.Answered.{Answered};
ghost use Rattle.wasi_causes.specs.GivenUp.{IsGone, socket_given_up, without};
ghost use Rattle.wasi_causes.specs.Options.{GetsOption, P3RefusedGet, P3RefusedSet, SetsChosen};
ghost use Rattle.wasi_causes.specs.Outcomes.{LeavesSocket};
ghost use Rattle.wasi_causes.specs.Refusals.{KnowsTcp3Bound, OfTcp3, P3CreateRefusal};
ghost use Rattle.wasi_causes.specs.Refusals.{P3LocalRefusal, P3RemoteRefusal};

/// Why a create of a 0.3 socket is refused, and what it leaves without room for its handle.
///
/// - `cause`: a create is refused with `access-denied` where the context may not use TCP, and then
///   nothing is asked; or with the code that its one call was answered.
/// - `stays`: after a refusal the machine is unchanged.
/// - `full`: a create that traps with `Full` has made its network socket: its one call was answered
///   done, and the socket is in the last record.
pub fn p3_create_refusals()
    ensures cause { (contexts : List WasiSocketsCtx) (m : Machine) (line ctx : ℕ)
        (family : SocketAddressFamily) (entries : List Entry) (word : CodeWord) (after : Machine)
        → Answered contexts m line (Step.Call ctx (GuestCall.P3Tcp (P3TcpCall.Create family))) entries
        (Reply.Err word) after
        → P3CreateRefusal (own_of line) (context_at contexts ctx) family entries word }
    ensures stays { (contexts : List WasiSocketsCtx) (m : Machine) (line ctx : ℕ)
        (family : SocketAddressFamily) (entries : List Entry) (word : CodeWord) (after : Machine)
        → Answered contexts m line (Step.Call ctx (GuestCall.P3Tcp (P3TcpCall.Create family))) entries
        (Reply.Err word) after → after ≡ m }
    ensures full { (contexts : List WasiSocketsCtx) (m : Machine) (line ctx : ℕ)
        (family : SocketAddressFamily) (entries : List Entry) (after : Machine)
        → Answered contexts m line (Step.Call ctx (GuestCall.P3Tcp (P3TcpCall.Create family))) entries
        (Reply.Trap TrapKind.Full) after
        → LeavesSocket m line (context_at contexts ctx) family entries after }
{}

/// Why the addresses of a 0.3 socket are refused.
///
/// - `local`: the local address is refused where the socket isn't bound or is connecting, with the
///   code with which it is closed, or with the code that the network reported.
/// - `local_stays`: then the machine is unchanged, but that a socket that was found bound is known
///   to be.
/// - `remote`: the remote address is refused where the socket isn't connected, with the code with
///   which it is closed, or with the code that the network reported.
/// - `remote_stays`: then the machine is unchanged.
pub fn p3_address_refusals()
    ensures local { (contexts : List WasiSocketsCtx) (m : Machine) (line ctx handle : ℕ)
        (entries : List Entry) (word : CodeWord) (after : Machine)
        → Answered contexts m line (Step.Call ctx (GuestCall.P3Tcp (P3TcpCall.LocalAddress handle))) entries
        (Reply.Err word) after
        → P3LocalRefusal m (own_of line) handle entries word after }
    ensures local_stays { (contexts : List WasiSocketsCtx) (m : Machine) (line ctx handle : ℕ)
        (entries : List Entry) (word : CodeWord) (after : Machine)
        → Answered contexts m line (Step.Call ctx (GuestCall.P3Tcp (P3TcpCall.LocalAddress handle))) entries
        (Reply.Err word) after
        → (after ≡ m) ⊎ KnowsTcp3Bound m handle after }
    ensures remote { (contexts : List WasiSocketsCtx) (m : Machine) (line ctx handle : ℕ)
        (entries : List Entry) (word : CodeWord) (after : Machine)
        → Answered contexts m line (Step.Call ctx (GuestCall.P3Tcp (P3TcpCall.RemoteAddress handle))) entries
        (Reply.Err word) after
        → P3RemoteRefusal m (own_of line) handle entries word }
    ensures remote_stays { (contexts : List WasiSocketsCtx) (m : Machine) (line ctx handle : ℕ)
        (entries : List Entry) (word : CodeWord) (after : Machine)
        → Answered contexts m line (Step.Call ctx (GuestCall.P3Tcp (P3TcpCall.RemoteAddress handle))) entries
        (Reply.Err word) after → after ≡ m }
{}

/// Whether a 0.3 socket is listening, and its family: neither is ever refused, and they ask nothing
/// and leave the machine unchanged.
pub fn p3_listening_and_family_are_never_refused()
    ensures listening { (contexts : List WasiSocketsCtx) (m : Machine) (line ctx handle : ℕ)
        (entries : List Entry) (word : CodeWord) (after : Machine)
        → Answered contexts m line (Step.Call ctx (GuestCall.P3Tcp (P3TcpCall.IsListening handle))) entries
        (Reply.Err word) after → ⊥ }
    ensures listening_is_quiet { (contexts : List WasiSocketsCtx) (m : Machine)
        (line ctx handle : ℕ) (entries : List Entry) (reply : Reply) (after : Machine)
        → Answered contexts m line (Step.Call ctx (GuestCall.P3Tcp (P3TcpCall.IsListening handle))) entries
        reply after → (entries ≡ []) × (after ≡ m) }
    ensures family { (contexts : List WasiSocketsCtx) (m : Machine) (line ctx handle : ℕ)
        (entries : List Entry) (word : CodeWord) (after : Machine)
        → Answered contexts m line (Step.Call ctx (GuestCall.P3Tcp (P3TcpCall.AddressFamily handle))) entries
        (Reply.Err word) after → ⊥ }
    ensures family_is_quiet { (contexts : List WasiSocketsCtx) (m : Machine) (line ctx handle : ℕ)
        (entries : List Entry) (reply : Reply) (after : Machine)
        → Answered contexts m line (Step.Call ctx (GuestCall.P3Tcp (P3TcpCall.AddressFamily handle))) entries
        reply after → (entries ≡ []) × (after ≡ m) }
{}

/// Why gets and sets of a 0.3 socket's options and backlog are refused. The causes are those of
/// [`get_option_refusals`](crate::options::get_option_refusals) and
/// [`set_option_refusals`](crate::options::set_option_refusals).
///
/// - `get`: the cause of a refused get.
/// - `get_stays`: whatever the answer of a get is, the machine is unchanged.
/// - `set`: the cause of a refused set; the machine is unchanged then.
pub fn p3_option_refusals()
    ensures get { (contexts : List WasiSocketsCtx) (m : Machine) (line ctx handle : ℕ)
        (option : Opt) (entries : List Entry) (word : CodeWord) (after : Machine)
        → Answered contexts m line (Step.Call ctx (GuestCall.P3Tcp (P3TcpCall.Get handle option))) entries
        (Reply.Err word) after
        → P3RefusedGet m (own_of line) handle option entries word after }
    ensures get_stays { (contexts : List WasiSocketsCtx) (m : Machine) (line ctx handle : ℕ)
        (option : Opt) (entries : List Entry) (reply : Reply) (after : Machine)
        → Answered contexts m line (Step.Call ctx (GuestCall.P3Tcp (P3TcpCall.Get handle option))) entries reply
        after → after ≡ m }
    ensures set { (contexts : List WasiSocketsCtx) (m : Machine) (line ctx handle : ℕ)
        (setting : TcpSetting) (entries : List Entry) (word : CodeWord) (after : Machine)
        → Answered contexts m line (Step.Call ctx (GuestCall.P3Tcp (P3TcpCall.Set handle setting))) entries
        (Reply.Err word) after
        → P3RefusedSet m (own_of line) handle setting entries word after }
{}

/// What gets and sets of a 0.3 socket that are done asked and answered.
///
/// - `read`: a get answers with what its one call for the option was answered, as the option reads
///   it.
/// - `nothing`: a set answers with no value.
/// - `written`: an option's one call set it to the value brought into its range, and was answered
///   done; a backlog other than 0 is kept, brought into its range, and a listener was asked to take
///   it.
pub fn p3_options_are_read_and_set()
    ensures read { (contexts : List WasiSocketsCtx) (m : Machine) (line ctx handle : ℕ)
        (option : Opt) (fields : List Field) (entries : List Entry) (after : Machine)
        → Answered contexts m line (Step.Call ctx (GuestCall.P3Tcp (P3TcpCall.Get handle option))) entries
        (Reply.Ok fields) after
        → OfTcp3 m handle (λ place r. GetsOption (own_of line) option r fields entries) }
    ensures nothing { (contexts : List WasiSocketsCtx) (m : Machine) (line ctx handle : ℕ)
        (setting : TcpSetting) (fields : List Field) (entries : List Entry) (after : Machine)
        → Answered contexts m line (Step.Call ctx (GuestCall.P3Tcp (P3TcpCall.Set handle setting))) entries
        (Reply.Ok fields) after → fields ≡ no_fields }
    ensures written { (contexts : List WasiSocketsCtx) (m : Machine) (line ctx handle : ℕ)
        (setting : TcpSetting) (fields : List Field) (entries : List Entry) (after : Machine)
        → Answered contexts m line (Step.Call ctx (GuestCall.P3Tcp (P3TcpCall.Set handle setting))) entries
        (Reply.Ok fields) after
        → OfTcp3 m handle (λ place r. SetsChosen m (own_of line) (chosen setting) place r entries
        after) }
{}

/// What a drop of a 0.3 socket releases, as that of a 0.2 socket
/// ([`drops_give_up_what_is_open`](crate::causes::drops_give_up_what_is_open)), where nothing else
/// holds its network socket.
///
/// - `done`: where it has no live children it is done; that is said where no call is pending.
/// - `given_up`: it releases what the socket listens by, its open halves, and its network socket.
/// - `gone`: nothing is left of its record, nor a job.
/// - `kept`: while an open half or a listener holds it, nothing is asked, and the record stays as
///   one whose handle is gone.
pub fn p3_drops_give_up_what_is_open()
    ensures done { (contexts : List WasiSocketsCtx) (m : Machine) (line ctx handle place : ℕ)
        (entries : List Entry) (reply : Reply) (after : Machine)
        → m.store.standing ≡ None → kind_at m.table handle ≡ Some (Kind.Tcp3 place)
        → children_of m.table.live handle ≡ []
        → Answered contexts m line (Step.Call ctx (GuestCall.Pollable (PollableCall.Drop handle))) entries reply after
        → reply ≡ Reply.Ok no_fields }
    ensures given_up { (contexts : List WasiSocketsCtx) (m : Machine) (line ctx handle place : ℕ)
        (r : TcpRecord) (fields : List Field) (entries : List Entry) (after : Machine)
        → kind_at m.table handle ≡ Some (Kind.Tcp3 place)
        → tcp2_at m.store.records place ≡ Some r → is_held (without_socket r) ≡ false
        → Answered contexts m line (Step.Call ctx (GuestCall.Pollable (PollableCall.Drop handle))) entries
        (Reply.Ok fields) after → entries ≡ socket_given_up (own_of line) r }
    ensures gone { (contexts : List WasiSocketsCtx) (m : Machine) (line ctx handle place : ℕ)
        (r : TcpRecord) (fields : List Field) (entries : List Entry) (after : Machine)
        → kind_at m.table handle ≡ Some (Kind.Tcp3 place)
        → tcp2_at m.store.records place ≡ Some r → is_held (without_socket r) ≡ false
        → Answered contexts m line (Step.Call ctx (GuestCall.Pollable (PollableCall.Drop handle))) entries
        (Reply.Ok fields) after → IsGone m handle place after }
    ensures kept { (contexts : List WasiSocketsCtx) (m : Machine) (line ctx handle place : ℕ)
        (r : TcpRecord) (fields : List Field) (entries : List Entry) (after : Machine)
        → kind_at m.table handle ≡ Some (Kind.Tcp3 place)
        → tcp2_at m.store.records place ≡ Some r → is_held (without_socket r) ≡ true
        → Answered contexts m line (Step.Call ctx (GuestCall.Pollable (PollableCall.Drop handle))) entries
        (Reply.Ok fields) after → (entries ≡ []) × (after ≡ record (without m handle)
        { store = with_socket m.store place (without_socket r) }) }
{}
