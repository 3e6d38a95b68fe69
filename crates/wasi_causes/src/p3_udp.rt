//! Where the answers of the calls of 0.3 UDP sockets come from, and what is left then: laws over
//! the definitions of specs/. Each is a function that does nothing, whose contract is the law. The
//! causes are those of the 0.2 calls; a base code has its 0.3 name.

ghost use Rattle.std.specs.Prelude.{◌≡◌, ◌⊎◌, ℕ, true, false, List, [], Some, None};
ghost use Rattle.wasi_addr.specs.declared.address.SocketAddressFamily.{SocketAddressFamily};
ghost use Rattle.wasi_world.specs.declared.call.Entry.{Entry};
ghost use Rattle.wasi_world.specs.declared.outcome.TrapKind.{TrapKind};
ghost use Rattle.wasi_world.specs.declared.outcome.WasiSocketsCtx.{WasiSocketsCtx};
ghost use Rattle.host_store.specs.declared.kind.Interface.{Interface};
ghost use Rattle.host_store.specs.declared.kind.Kind.{Kind};
ghost use Rattle.host_store.specs.declared.machine.Machine.{Machine};
ghost use Rattle.host_store.specs.Kinds.{kind_at};
ghost use Rattle.host_store.specs.Machine.{own_of};
ghost use Rattle.host_store.specs.Beside.{has_datagram};
ghost use Rattle.wasi_machine.specs.Machine.{context_at};
ghost use Rattle.udp_records.specs.declared.udp.OpenUdp.{OpenUdp};
ghost use Rattle.udp_records.specs.declared.udp.UdpRecord.{UdpRecord};
ghost use Rattle.udp_records.specs.Udp.{without_udp_socket};
ghost use Rattle.wasi_records.specs.Records.{udp2_at};
ghost use Rattle.wasi_steps.specs.declared.guest_call.GuestCall.{GuestCall};
ghost use Rattle.wasi_steps.specs.declared.guest_call.PollableCall.{PollableCall};
ghost use Rattle.wasi_steps.specs.declared.guest_call.P3UdpCall.{P3UdpCall};
ghost use Rattle.wasi_steps.specs.declared.reply.CodeWord.{CodeWord};
ghost use Rattle.wasi_steps.specs.declared.reply.Field.{Field};
ghost use Rattle.wasi_steps.specs.declared.reply.Reply.{Reply};
ghost use Rattle.wasi_steps.specs.declared.setting.UdpOption.{UdpOption};
ghost use Rattle.wasi_steps.specs.declared.setting.UdpSetting.{UdpSetting};
ghost use Rattle.wasi_steps.specs.declared.step.Step.{Step};
ghost use Rattle.wasi_steps.specs.Reply.{family_fields, no_fields};
ghost use Rattle.wasi_steps.specs.Settings.{udp_opt};
ghost use Rattle.wasi_table.specs.Table.{children_of};
ghost use Rattle.wasi_walks.specs.Answered.{Answered};
ghost use Rattle.wasi_causes.specs.GivenUp.{without};
ghost use Rattle.wasi_causes.specs.Outcomes.{LeavesUdpSocket};
ghost use Rattle.wasi_causes.specs.P3Udp.{Disconnects, KnowsUdp3Bound, OfUdp3};
ghost use Rattle.wasi_causes.specs.P3Udp.{P3DisconnectRefusal, P3UdpCreateRefusal};
ghost use Rattle.wasi_causes.specs.P3Udp.{P3UdpGetRefusal, P3UdpLocalRefusal, P3UdpSetRefusal};
ghost use Rattle.wasi_causes.specs.Udp.{CreatesUdpFor, CreateStandsFor, GetsUdpOption};
ghost use Rattle.wasi_causes.specs.Udp.{SetsUdpOption, TellsUdpLocal, TellsUdpRemote};
ghost use Rattle.wasi_causes.specs.Udp.{putting_udp, udp_given_up, udp_left};

/// Why a create of a 0.3 UDP socket is refused; there is no handle then.
///
/// - `cause`: a create is refused with `access-denied` where the context may not use UDP, and then
///   nothing is asked; with the code that the create was answered, and the machine is unchanged; or
///   with the code that the network socket gave while it was waited for, which was closed then.
pub fn p3_udp_create_refusals()
    ensures cause { (contexts : List WasiSocketsCtx) (m : Machine) (line ctx : ℕ)
        (family : SocketAddressFamily) (entries : List Entry) (word : CodeWord) (after : Machine)
        → Answered contexts m line (Step.Call ctx (GuestCall.P3Udp (P3UdpCall.Create family))) entries
        (Reply.Err word) after
        → P3UdpCreateRefusal m (own_of line) (context_at contexts ctx) family entries word
        after }
{}

/// What a create of a 0.3 UDP socket makes.
///
/// - `done`: a create that is done made its network socket, waited for it, and logged the next
///   handle, which is of 0.3, under the name of the create. The socket is in the last record, with
///   nothing in progress.
/// - `pending`: one that is pending made its network socket and waits for it. Its record has the
///   create, and the call is pending under its line's number.
/// - `full`: one that traps with `Full` has made its network socket, which stays open, in the last
///   record; the table is full.
pub fn p3_udp_creates_make_a_handle()
    ensures done { (contexts : List WasiSocketsCtx) (m : Machine) (line ctx : ℕ)
        (family : SocketAddressFamily) (entries : List Entry) (fields : List Field)
        (after : Machine)
        → Answered contexts m line (Step.Call ctx (GuestCall.P3Udp (P3UdpCall.Create family))) entries
        (Reply.Ok fields) after
        → CreatesUdpFor Interface.P3 m (own_of line) (context_at contexts ctx) family entries
        fields after }
    ensures pending { (contexts : List WasiSocketsCtx) (m : Machine) (line ctx : ℕ)
        (family : SocketAddressFamily) (entries : List Entry) (number : ℕ) (after : Machine)
        → Answered contexts m line (Step.Call ctx (GuestCall.P3Udp (P3UdpCall.Create family))) entries
        (Reply.Pending number) after
        → CreateStandsFor Interface.P3 m line (own_of line) (context_at contexts ctx) family
        entries after }
    ensures full { (contexts : List WasiSocketsCtx) (m : Machine) (line ctx : ℕ)
        (family : SocketAddressFamily) (entries : List Entry) (after : Machine)
        → Answered contexts m line (Step.Call ctx (GuestCall.P3Udp (P3UdpCall.Create family))) entries
        (Reply.Trap TrapKind.Full) after
        → LeavesUdpSocket m line (context_at contexts ctx) family entries after }
{}

/// Why the addresses of a 0.3 UDP socket are refused, and what they tell.
///
/// - `local`: the local address is refused where the socket isn't bound, or with the code that the
///   network reported.
/// - `local_stays`: then the machine is unchanged, but that a socket that was found bound is known
///   to be.
/// - `local_told`: else it is the one that the network reported.
/// - `remote`: the remote address is refused with `invalid-state` alone, where the socket keeps
///   none.
/// - `remote_is_quiet`: it asks nothing, and the machine is unchanged.
/// - `remote_told`: else it is the one that the socket keeps.
pub fn p3_udp_addresses()
    ensures local { (contexts : List WasiSocketsCtx) (m : Machine) (line ctx handle : ℕ)
        (entries : List Entry) (word : CodeWord) (after : Machine)
        → Answered contexts m line (Step.Call ctx (GuestCall.P3Udp (P3UdpCall.LocalAddress handle))) entries
        (Reply.Err word) after
        → P3UdpLocalRefusal m (own_of line) handle entries word after }
    ensures local_stays { (contexts : List WasiSocketsCtx) (m : Machine) (line ctx handle : ℕ)
        (entries : List Entry) (word : CodeWord) (after : Machine)
        → Answered contexts m line (Step.Call ctx (GuestCall.P3Udp (P3UdpCall.LocalAddress handle))) entries
        (Reply.Err word) after
        → (after ≡ m) ⊎ KnowsUdp3Bound m handle after }
    ensures local_told { (contexts : List WasiSocketsCtx) (m : Machine) (line ctx handle : ℕ)
        (entries : List Entry) (fields : List Field) (after : Machine)
        → Answered contexts m line (Step.Call ctx (GuestCall.P3Udp (P3UdpCall.LocalAddress handle))) entries
        (Reply.Ok fields) after
        → OfUdp3 m handle (λ place o. TellsUdpLocal m (own_of line) place o entries fields after) }
    ensures remote { (contexts : List WasiSocketsCtx) (m : Machine) (line ctx handle : ℕ)
        (entries : List Entry) (word : CodeWord) (after : Machine)
        → Answered contexts m line (Step.Call ctx (GuestCall.P3Udp (P3UdpCall.RemoteAddress handle))) entries
        (Reply.Err word) after
        → (word ≡ CodeWord.InvalidState) × OfUdp3 m handle (λ place o. o.inner.remote ≡ None) }
    ensures remote_is_quiet { (contexts : List WasiSocketsCtx) (m : Machine) (line ctx handle : ℕ)
        (entries : List Entry) (reply : Reply) (after : Machine)
        → Answered contexts m line (Step.Call ctx (GuestCall.P3Udp (P3UdpCall.RemoteAddress handle))) entries
        reply after
        → (entries ≡ []) × (after ≡ m) }
    ensures remote_told { (contexts : List WasiSocketsCtx) (m : Machine) (line ctx handle : ℕ)
        (entries : List Entry) (fields : List Field) (after : Machine)
        → Answered contexts m line (Step.Call ctx (GuestCall.P3Udp (P3UdpCall.RemoteAddress handle))) entries
        (Reply.Ok fields) after
        → OfUdp3 m handle (λ place o. TellsUdpRemote o fields) }
{}

/// The family of a 0.3 UDP socket.
///
/// - `told`: it is the one that the socket was created with.
/// - `never`: it is never refused.
/// - `quiet`: it asks nothing, and the machine is unchanged.
pub fn p3_udp_family_is_told()
    ensures told { (contexts : List WasiSocketsCtx) (m : Machine) (line ctx handle : ℕ)
        (entries : List Entry) (fields : List Field) (after : Machine)
        → Answered contexts m line (Step.Call ctx (GuestCall.P3Udp (P3UdpCall.AddressFamily handle))) entries
        (Reply.Ok fields) after
        → OfUdp3 m handle (λ place o. fields ≡ family_fields o.inner.family) }
    ensures never { (contexts : List WasiSocketsCtx) (m : Machine) (line ctx handle : ℕ)
        (entries : List Entry) (word : CodeWord) (after : Machine)
        → Answered contexts m line (Step.Call ctx (GuestCall.P3Udp (P3UdpCall.AddressFamily handle))) entries
        (Reply.Err word) after
        → ⊥ }
    ensures quiet { (contexts : List WasiSocketsCtx) (m : Machine) (line ctx handle : ℕ)
        (entries : List Entry) (reply : Reply) (after : Machine)
        → Answered contexts m line (Step.Call ctx (GuestCall.P3Udp (P3UdpCall.AddressFamily handle))) entries
        reply after
        → (entries ≡ []) × (after ≡ m) }
{}

/// What a disconnect of a 0.3 UDP socket asks, and why it is refused.
///
/// - `refused`: it is refused with `invalid-state` where the socket keeps no remote address, and
///   then nothing is asked and the machine is unchanged; or with the code that the network
///   returned, once it was asked for the remote address, which the socket keeps then.
/// - `done`: else the network socket was disconnected and asked for its remote address, which the
///   socket keeps.
pub fn p3_udp_disconnects()
    ensures refused { (contexts : List WasiSocketsCtx) (m : Machine) (line ctx handle : ℕ)
        (entries : List Entry) (word : CodeWord) (after : Machine)
        → Answered contexts m line (Step.Call ctx (GuestCall.P3Udp (P3UdpCall.Disconnect handle))) entries
        (Reply.Err word) after
        → P3DisconnectRefusal m (own_of line) handle entries word after }
    ensures done { (contexts : List WasiSocketsCtx) (m : Machine) (line ctx handle : ℕ)
        (entries : List Entry) (fields : List Field) (after : Machine)
        → Answered contexts m line (Step.Call ctx (GuestCall.P3Udp (P3UdpCall.Disconnect handle))) entries
        (Reply.Ok fields) after
        → OfUdp3 m handle (λ place o. Disconnects m (own_of line) place o entries after) }
{}

/// Why gets and sets of a 0.3 UDP socket's options are refused. The causes are those of
/// [`udp_option_refusals`](crate::udp::udp_option_refusals).
///
/// - `get`, `set`: the cause of a refused get, and of a refused set.
/// - `get_stays`, `set_stays`: whatever the answer is, the machine is unchanged.
pub fn p3_udp_option_refusals()
    ensures get { (contexts : List WasiSocketsCtx) (m : Machine) (line ctx handle : ℕ)
        (option : UdpOption) (entries : List Entry) (word : CodeWord) (after : Machine)
        → Answered contexts m line (Step.Call ctx (GuestCall.P3Udp (P3UdpCall.Get handle option))) entries
        (Reply.Err word) after
        → P3UdpGetRefusal m (own_of line) handle (udp_opt option) entries word }
    ensures get_stays { (contexts : List WasiSocketsCtx) (m : Machine) (line ctx handle : ℕ)
        (option : UdpOption) (entries : List Entry) (reply : Reply) (after : Machine)
        → Answered contexts m line (Step.Call ctx (GuestCall.P3Udp (P3UdpCall.Get handle option))) entries
        reply after
        → after ≡ m }
    ensures set { (contexts : List WasiSocketsCtx) (m : Machine) (line ctx handle : ℕ)
        (setting : UdpSetting) (entries : List Entry) (word : CodeWord) (after : Machine)
        → Answered contexts m line (Step.Call ctx (GuestCall.P3Udp (P3UdpCall.Set handle setting))) entries
        (Reply.Err word) after
        → P3UdpSetRefusal m (own_of line) handle setting entries word }
    ensures set_stays { (contexts : List WasiSocketsCtx) (m : Machine) (line ctx handle : ℕ)
        (setting : UdpSetting) (entries : List Entry) (reply : Reply) (after : Machine)
        → Answered contexts m line (Step.Call ctx (GuestCall.P3Udp (P3UdpCall.Set handle setting))) entries
        reply after
        → after ≡ m }
{}

/// What gets and sets of a 0.3 UDP socket that are done asked and answered.
///
/// - `read`: a get answers with what its one call for the option was answered, as the option reads
///   it.
/// - `written`: a set's one call set the option to the value brought into its range, and was
///   answered done.
pub fn p3_udp_options_are_read_and_set()
    ensures read { (contexts : List WasiSocketsCtx) (m : Machine) (line ctx handle : ℕ)
        (option : UdpOption) (entries : List Entry) (fields : List Field) (after : Machine)
        → Answered contexts m line (Step.Call ctx (GuestCall.P3Udp (P3UdpCall.Get handle option))) entries
        (Reply.Ok fields) after
        → OfUdp3 m handle (λ place o. GetsUdpOption (own_of line) (udp_opt option) o fields
        entries) }
    ensures written { (contexts : List WasiSocketsCtx) (m : Machine) (line ctx handle : ℕ)
        (setting : UdpSetting) (entries : List Entry) (fields : List Field) (after : Machine)
        → Answered contexts m line (Step.Call ctx (GuestCall.P3Udp (P3UdpCall.Set handle setting))) entries
        (Reply.Ok fields) after
        → OfUdp3 m handle (λ place o. SetsUdpOption (own_of line) setting o entries) }
{}

/// What the drop of a 0.3 UDP socket releases: what that of a 0.2 socket does
/// ([`udp_drops_close`](crate::udp::udp_drops_close)), unless a datagram in progress holds it.
///
/// - `done`: where it has no live children it is done; that is said where no call is pending.
/// - `closed`: without a datagram in progress it closes the network socket of an open socket, and
///   asks nothing else.
/// - `left`: nothing is left of its record then, and its handle isn't live any more.
/// - `held`: with one nothing is asked, and its record stays, which knows that its handle is gone.
pub fn p3_udp_drops_close()
    ensures done { (contexts : List WasiSocketsCtx) (m : Machine) (line ctx handle place : ℕ)
        (entries : List Entry) (reply : Reply) (after : Machine)
        → m.store.standing ≡ None → kind_at m.table handle ≡ Some (Kind.Udp3 place)
        → children_of m.table.live handle ≡ []
        → Answered contexts m line (Step.Call ctx (GuestCall.Pollable (PollableCall.Drop handle))) entries
        reply after
        → reply ≡ Reply.Ok no_fields }
    ensures closed { (contexts : List WasiSocketsCtx) (m : Machine) (line ctx handle place : ℕ)
        (u : UdpRecord) (entries : List Entry) (fields : List Field) (after : Machine)
        → kind_at m.table handle ≡ Some (Kind.Udp3 place)
        → udp2_at m.store.records place ≡ Some u
        → has_datagram m.store.beside place ≡ false
        → Answered contexts m line (Step.Call ctx (GuestCall.Pollable (PollableCall.Drop handle))) entries
        (Reply.Ok fields) after
        → entries ≡ udp_given_up (own_of line) u }
    ensures left { (contexts : List WasiSocketsCtx) (m : Machine) (line ctx handle place : ℕ)
        (u : UdpRecord) (entries : List Entry) (fields : List Field) (after : Machine)
        → kind_at m.table handle ≡ Some (Kind.Udp3 place)
        → udp2_at m.store.records place ≡ Some u
        → has_datagram m.store.beside place ≡ false
        → Answered contexts m line (Step.Call ctx (GuestCall.Pollable (PollableCall.Drop handle))) entries
        (Reply.Ok fields) after
        → after ≡ udp_left (without m handle) place u }
    ensures held { (contexts : List WasiSocketsCtx) (m : Machine) (line ctx handle place : ℕ)
        (o : OpenUdp) (entries : List Entry) (fields : List Field) (after : Machine)
        → kind_at m.table handle ≡ Some (Kind.Udp3 place)
        → udp2_at m.store.records place ≡ Some (UdpRecord.Open o)
        → has_datagram m.store.beside place ≡ true
        → Answered contexts m line (Step.Call ctx (GuestCall.Pollable (PollableCall.Drop handle))) entries
        (Reply.Ok fields) after
        → (entries ≡ [])
        × (after ≡ putting_udp (without m handle) place (without_udp_socket o)) }
{}
