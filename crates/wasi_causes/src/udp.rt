//! Where the answers of the steps of UDP sockets come from, and what is left afterwards: laws over
//! the definitions of specs/. Each is a function that does nothing, whose contract is the law.

ghost use Rattle.std.specs.Prelude.{◌≡◌, ◌↔◌, ◌⊎◌, ℕ, true, List, [], ◌∷◌, IsSomeAnd, Some, None};
ghost use Rattle.wasi_addr.specs.declared.address.IpSocketAddress.{IpSocketAddress};
ghost use Rattle.wasi_addr.specs.declared.address.SocketAddressFamily.{SocketAddressFamily};
ghost use Rattle.wasi_world.specs.declared.call.Entry.{Entry};
ghost use Rattle.wasi_world.specs.declared.call.Told.{Told};
ghost use Rattle.wasi_world.specs.declared.outcome.TrapKind.{TrapKind};
ghost use Rattle.wasi_world.specs.declared.outcome.WasiSocketsCtx.{WasiSocketsCtx};
ghost use Rattle.host_store.specs.declared.kind.Kind.{Kind};
ghost use Rattle.host_store.specs.declared.machine.Machine.{Machine};
ghost use Rattle.udp_records.specs.declared.udp.UdpRecord.{UdpRecord};
ghost use Rattle.host_store.specs.Beside.{beside_of};
ghost use Rattle.host_store.specs.Kinds.{is_network, kind_at};
ghost use Rattle.host_store.specs.Machine.{own_of};
ghost use Rattle.wasi_records.specs.Records.{udp2_at};
ghost use Rattle.wasi_machine.specs.Machine.{context_at};
ghost use Rattle.wasi_steps.specs.declared.reply.CodeWord.{CodeWord};
ghost use Rattle.wasi_steps.specs.declared.reply.Field.{Field};
ghost use Rattle.wasi_steps.specs.declared.reply.Reply.{Reply};
ghost use Rattle.wasi_steps.specs.declared.reply.Reply.TheVariants as Reply;
ghost use Rattle.wasi_steps.specs.declared.setting.UdpOption.{UdpOption};
ghost use Rattle.wasi_steps.specs.declared.setting.UdpSetting.{UdpSetting};
ghost use Rattle.wasi_steps.specs.declared.guest_call.GuestCall.TheVariants as GuestCall;
ghost use Rattle.wasi_steps.specs.declared.guest_call.UdpCall.TheVariants as UdpCall;
ghost use Rattle.wasi_steps.specs.declared.guest_call.PollableCall.TheVariants as PollableCall;
ghost use Rattle.wasi_steps.specs.declared.step.Step.TheVariants as Step;
ghost use Rattle.wasi_steps.specs.Reply.{family_fields, no_fields, truth_fields};
ghost use Rattle.wasi_steps.specs.Settings.{udp_opt};
ghost use Rattle.wasi_table.specs.Table.{children_of, is_full};
ghost use Rattle.wasi_walks.specs.Answered.{Answered, open_udp_at};
ghost use Rattle.wasi_causes.specs.Blocking.{StreamCallStands};
ghost use Rattle.wasi_causes.specs.GivenUp.{without};
ghost use Rattle.wasi_causes.specs.Datagrams.{LacksRoomForStreams};
ghost use Rattle.wasi_causes.specs.P3Connects.{BesideGives, IsBeside};
ghost use Rattle.wasi_causes.specs.Udp.{OfUdp, RefusedOfUdp, HasUdpInProgress, HasNoUdpBind};
ghost use Rattle.wasi_causes.specs.Udp.{KeepsNoRemote, WatchesUdp, udp_create_entry};
ghost use Rattle.wasi_causes.specs.Udp.{writable_entry, with_udp_record, new_udp, UdpCreateRefusal};
ghost use Rattle.wasi_causes.specs.Udp.{CreatesUdp, CreateStands, KnowsUdpBound, UdpBindRefusal};
ghost use Rattle.wasi_causes.specs.Udp.{BindsUdp, UdpBindStands, FinishesUdpBind, UdpLocalRefusal};
ghost use Rattle.wasi_causes.specs.Udp.{TellsUdpLocal, TellsUdpRemote, UdpGetRefusal};
ghost use Rattle.wasi_causes.specs.Udp.{GetsUdpOption, UdpSetRefusal, SetsUdpOption, udp_given_up};
ghost use Rattle.wasi_causes.specs.Udp.{udp_left, GivesBy, MakesOneHandle};

/// Why a create of a UDP socket is refused; there is no handle then.
///
/// - `access-denied`: the context may not use UDP; nothing is asked.
/// - The code that the create was answered; the machine is unchanged.
/// - The code that the network socket gave while it was waited for; it was closed then, and nothing
///   is left of its record.
pub fn udp_create_refusals()
    ensures cause { (contexts : List WasiSocketsCtx) (m : Machine) (line ctx : ℕ)
        (family : SocketAddressFamily) (entries : List Entry) (word : CodeWord) (after : Machine)
        → Answered contexts m line (Step.Call ctx (GuestCall.Udp (UdpCall.Create family))) entries
        (Reply.Err word) after
        → UdpCreateRefusal m (own_of line) (context_at contexts ctx) family entries word after }
{}

/// What a create of a UDP socket makes.
///
/// - `done`: a create that is done made its network socket, waited for it, and logged the next
///   handle under the name of the create. The socket is in the last record, with nothing in
///   progress.
/// - `pending`: one that is pending made its network socket and waits for it. Its record has the
///   create, and the call is pending under its line's number.
/// - `full`, `asked`, `left`: one that traps with `Full` has made its network socket, which stays
///   open, in the last record; the table is full and unchanged.
pub fn udp_creates_make_a_handle()
    ensures done { (contexts : List WasiSocketsCtx) (m : Machine) (line ctx : ℕ)
        (family : SocketAddressFamily) (fields : List Field) (entries : List Entry)
        (after : Machine)
        → Answered contexts m line (Step.Call ctx (GuestCall.Udp (UdpCall.Create family))) entries
        (Reply.Ok fields) after
        → CreatesUdp m (own_of line) (context_at contexts ctx) family entries fields after }
    ensures pending { (contexts : List WasiSocketsCtx) (m : Machine) (line ctx : ℕ)
        (family : SocketAddressFamily) (entries : List Entry) (number : ℕ) (after : Machine)
        → Answered contexts m line (Step.Call ctx (GuestCall.Udp (UdpCall.Create family))) entries
        (Reply.Pending number) after
        → CreateStands m line (own_of line) (context_at contexts ctx) family entries after }
    ensures full { (contexts : List WasiSocketsCtx) (m : Machine) (line ctx : ℕ)
        (family : SocketAddressFamily) (entries : List Entry) (after : Machine)
        → Answered contexts m line (Step.Call ctx (GuestCall.Udp (UdpCall.Create family))) entries
        (Reply.Trap TrapKind.Full) after
        → is_full m.table ≡ true }
    ensures asked { (contexts : List WasiSocketsCtx) (m : Machine) (line ctx : ℕ)
        (family : SocketAddressFamily) (entries : List Entry) (after : Machine)
        → Answered contexts m line (Step.Call ctx (GuestCall.Udp (UdpCall.Create family))) entries
        (Reply.Trap TrapKind.Full) after
        → entries ≡ udp_create_entry (own_of line) (context_at contexts ctx) family Told.Done
        ∷ writable_entry (own_of line) Told.Done ∷ [] }
    ensures left { (contexts : List WasiSocketsCtx) (m : Machine) (line ctx : ℕ)
        (family : SocketAddressFamily) (entries : List Entry) (after : Machine)
        → Answered contexts m line (Step.Call ctx (GuestCall.Udp (UdpCall.Create family))) entries
        (Reply.Trap TrapKind.Full) after
        → after ≡ with_udp_record m (new_udp (own_of line) (context_at contexts ctx) family) }
{}

/// Why the start of a bind of a UDP socket is refused.
///
/// - `exactly`: the start of a bind is refused with `concurrency-conflict` exactly where an
///   operation is in progress; that is said where no call is pending.
/// - `cause`: else with `invalid-state` where a datagram stream of the socket is live, or the
///   socket is bound; with `invalid-argument` for an address of another family; with
///   `access-denied` after a check that said no; or with the code that the bind was answered.
/// - `stays`: after a refusal the machine is unchanged, but that a socket that was found bound is
///   known to be.
pub fn udp_bind_refusals()
    ensures exactly { (contexts : List WasiSocketsCtx) (m : Machine) (line ctx handle network : ℕ)
        (a : IpSocketAddress) (entries : List Entry) (reply : Reply) (after : Machine)
        → m.store.standing ≡ None → is_network (kind_at m.table network) ≡ true
        → Answered contexts m line (Step.Call ctx (GuestCall.Udp (UdpCall.StartBind handle network a))) entries
        reply after
        → (reply ≡ Reply.Err CodeWord.ConcurrencyConflict)
        ↔ HasUdpInProgress (open_udp_at m handle) }
    ensures cause { (contexts : List WasiSocketsCtx) (m : Machine) (line ctx handle network : ℕ)
        (a : IpSocketAddress) (entries : List Entry) (word : CodeWord) (after : Machine)
        → Answered contexts m line (Step.Call ctx (GuestCall.Udp (UdpCall.StartBind handle network a))) entries
        (Reply.Err word) after
        → RefusedOfUdp m handle (λ place o. UdpBindRefusal m (own_of line) place o a) entries word
        after }
    ensures stays { (contexts : List WasiSocketsCtx) (m : Machine) (line ctx handle network : ℕ)
        (a : IpSocketAddress) (entries : List Entry) (word : CodeWord) (after : Machine)
        → Answered contexts m line (Step.Call ctx (GuestCall.Udp (UdpCall.StartBind handle network a))) entries
        (Reply.Err word) after
        → (after ≡ m) ⊎ ((word ≡ CodeWord.InvalidState) × KnowsUdpBound m handle after) }
{}

/// A UDP socket is bound only after a check said yes.
///
/// - `done`: a bind that is done was allowed by a check and then answered done; it is in progress
///   until it is finished.
/// - `pending`: one that is pending waits for its check.
pub fn udp_binds_are_checked()
    ensures done { (contexts : List WasiSocketsCtx) (m : Machine) (line ctx handle network : ℕ)
        (a : IpSocketAddress) (fields : List Field) (entries : List Entry) (after : Machine)
        → Answered contexts m line (Step.Call ctx (GuestCall.Udp (UdpCall.StartBind handle network a))) entries
        (Reply.Ok fields) after
        → OfUdp m handle (λ place o. BindsUdp m (own_of line) place o a entries after) }
    ensures pending { (contexts : List WasiSocketsCtx) (m : Machine) (line ctx handle network : ℕ)
        (a : IpSocketAddress) (entries : List Entry) (number : ℕ) (after : Machine)
        → Answered contexts m line (Step.Call ctx (GuestCall.Udp (UdpCall.StartBind handle network a))) entries
        (Reply.Pending number) after
        → OfUdp m handle (λ place o. UdpBindStands m line (own_of line) place o a entries after) }
{}

/// Why the finish of a bind of a UDP socket is refused.
///
/// - `asks_nothing`: the finish of a bind asks nothing.
/// - `exactly`: it is refused with `not-in-progress` exactly where no bind of the socket was
///   started; that is said where no call is pending.
/// - `no_other`: it is refused with no other code.
/// - `stays`: after a refusal the machine is unchanged.
/// - `done`: else nothing is in progress afterwards.
pub fn udp_finish_bind_refusals()
    ensures asks_nothing { (contexts : List WasiSocketsCtx) (m : Machine) (line ctx handle : ℕ)
        (entries : List Entry) (reply : Reply) (after : Machine)
        → Answered contexts m line (Step.Call ctx (GuestCall.Udp (UdpCall.FinishBind handle))) entries reply
        after
        → entries ≡ [] }
    ensures exactly { (contexts : List WasiSocketsCtx) (m : Machine) (line ctx handle : ℕ)
        (entries : List Entry) (reply : Reply) (after : Machine)
        → m.store.standing ≡ None
        → Answered contexts m line (Step.Call ctx (GuestCall.Udp (UdpCall.FinishBind handle))) entries reply
        after
        → (reply ≡ Reply.Err CodeWord.NotInProgress) ↔ HasNoUdpBind (open_udp_at m handle) }
    ensures no_other { (contexts : List WasiSocketsCtx) (m : Machine) (line ctx handle : ℕ)
        (entries : List Entry) (word : CodeWord) (after : Machine)
        → Answered contexts m line (Step.Call ctx (GuestCall.Udp (UdpCall.FinishBind handle))) entries
        (Reply.Err word) after
        → word ≡ CodeWord.NotInProgress }
    ensures stays { (contexts : List WasiSocketsCtx) (m : Machine) (line ctx handle : ℕ)
        (entries : List Entry) (word : CodeWord) (after : Machine)
        → Answered contexts m line (Step.Call ctx (GuestCall.Udp (UdpCall.FinishBind handle))) entries
        (Reply.Err word) after
        → after ≡ m }
    ensures done { (contexts : List WasiSocketsCtx) (m : Machine) (line ctx handle : ℕ)
        (fields : List Field) (entries : List Entry) (after : Machine)
        → Answered contexts m line (Step.Call ctx (GuestCall.Udp (UdpCall.FinishBind handle))) entries
        (Reply.Ok fields) after
        → OfUdp m handle (λ place o. FinishesUdpBind m place o after) }
{}

/// What the local address of a UDP socket answers.
///
/// - `cause`: the local address is refused with `invalid-state` where the socket isn't bound, or
///   with the code that the network reported.
/// - `stays`: after a refusal the machine is unchanged, but that a socket that was found bound is
///   known to be.
/// - `told`: else it is the address that the network socket reported last, and the socket is known
///   to be bound.
pub fn udp_local_address_refusals()
    ensures cause { (contexts : List WasiSocketsCtx) (m : Machine) (line ctx handle : ℕ)
        (entries : List Entry) (word : CodeWord) (after : Machine)
        → Answered contexts m line (Step.Call ctx (GuestCall.Udp (UdpCall.LocalAddress handle))) entries
        (Reply.Err word) after
        → RefusedOfUdp m handle (UdpLocalRefusal m (own_of line)) entries word after }
    ensures stays { (contexts : List WasiSocketsCtx) (m : Machine) (line ctx handle : ℕ)
        (entries : List Entry) (word : CodeWord) (after : Machine)
        → Answered contexts m line (Step.Call ctx (GuestCall.Udp (UdpCall.LocalAddress handle))) entries
        (Reply.Err word) after
        → (after ≡ m) ⊎ KnowsUdpBound m handle after }
    ensures told { (contexts : List WasiSocketsCtx) (m : Machine) (line ctx handle : ℕ)
        (fields : List Field) (entries : List Entry) (after : Machine)
        → Answered contexts m line (Step.Call ctx (GuestCall.Udp (UdpCall.LocalAddress handle))) entries
        (Reply.Ok fields) after
        → OfUdp m handle (λ place o. TellsUdpLocal m (own_of line) place o entries fields after) }
{}

/// What the remote address of a UDP socket answers.
///
/// - `exactly`: the remote address is refused with `invalid-state` exactly where the socket has
///   none; that is said where no call is pending.
/// - `no_other`: it is refused with no other code.
/// - `quiet`: nothing is asked, and the machine is unchanged.
/// - `told`: else it is the one that the socket keeps.
pub fn udp_remote_address_refusals()
    ensures exactly { (contexts : List WasiSocketsCtx) (m : Machine) (line ctx handle : ℕ)
        (entries : List Entry) (reply : Reply) (after : Machine)
        → m.store.standing ≡ None
        → Answered contexts m line (Step.Call ctx (GuestCall.Udp (UdpCall.RemoteAddress handle))) entries reply
        after
        → (reply ≡ Reply.Err CodeWord.InvalidState) ↔ KeepsNoRemote (open_udp_at m handle) }
    ensures no_other { (contexts : List WasiSocketsCtx) (m : Machine) (line ctx handle : ℕ)
        (entries : List Entry) (word : CodeWord) (after : Machine)
        → Answered contexts m line (Step.Call ctx (GuestCall.Udp (UdpCall.RemoteAddress handle))) entries
        (Reply.Err word) after
        → word ≡ CodeWord.InvalidState }
    ensures quiet { (contexts : List WasiSocketsCtx) (m : Machine) (line ctx handle : ℕ)
        (entries : List Entry) (reply : Reply) (after : Machine)
        → Answered contexts m line (Step.Call ctx (GuestCall.Udp (UdpCall.RemoteAddress handle))) entries reply
        after
        → (entries ≡ []) × (after ≡ m) }
    ensures told { (contexts : List WasiSocketsCtx) (m : Machine) (line ctx handle : ℕ)
        (fields : List Field) (entries : List Entry) (after : Machine)
        → Answered contexts m line (Step.Call ctx (GuestCall.Udp (UdpCall.RemoteAddress handle))) entries
        (Reply.Ok fields) after
        → OfUdp m handle (λ place o. TellsUdpRemote o fields) }
{}

/// What the family of a UDP socket answers.
///
/// - `told`: the family of a UDP socket is the one that it was created with.
/// - `never`: it is never refused.
pub fn udp_family_is_told()
    ensures told { (contexts : List WasiSocketsCtx) (m : Machine) (line ctx handle : ℕ)
        (fields : List Field) (entries : List Entry) (after : Machine)
        → Answered contexts m line (Step.Call ctx (GuestCall.Udp (UdpCall.AddressFamily handle))) entries
        (Reply.Ok fields) after
        → OfUdp m handle (λ place o. fields ≡ family_fields o.inner.family) }
    ensures never { (contexts : List WasiSocketsCtx) (m : Machine) (line ctx handle : ℕ)
        (entries : List Entry) (word : CodeWord) (after : Machine)
        → Answered contexts m line (Step.Call ctx (GuestCall.Udp (UdpCall.AddressFamily handle))) entries
        (Reply.Err word) after
        → ⊥ }
{}

/// Why a get or a set of an option of a UDP socket is refused.
///
/// - `get`: a get of an option is refused with the code that its one call was answered, or with
///   `not-supported` where that gave a value too large for the option, such as a hop limit above
///   255.
/// - `set`: a set is refused with `invalid-argument` for 0, and nothing is asked then, or with the
///   code that its one call was answered.
/// - `get_stays`, `set_stays`: whatever the answer is, the machine is unchanged.
pub fn udp_option_refusals()
    ensures get { (contexts : List WasiSocketsCtx) (m : Machine) (line ctx handle : ℕ)
        (option : UdpOption) (entries : List Entry) (word : CodeWord) (after : Machine)
        → Answered contexts m line (Step.Call ctx (GuestCall.Udp (UdpCall.Get handle option))) entries
        (Reply.Err word) after
        → OfUdp m handle (λ place o. UdpGetRefusal (own_of line) (udp_opt option) o entries word) }
    ensures get_stays { (contexts : List WasiSocketsCtx) (m : Machine) (line ctx handle : ℕ)
        (option : UdpOption) (entries : List Entry) (reply : Reply) (after : Machine)
        → Answered contexts m line (Step.Call ctx (GuestCall.Udp (UdpCall.Get handle option))) entries reply
        after → after ≡ m }
    ensures set { (contexts : List WasiSocketsCtx) (m : Machine) (line ctx handle : ℕ)
        (setting : UdpSetting) (entries : List Entry) (word : CodeWord) (after : Machine)
        → Answered contexts m line (Step.Call ctx (GuestCall.Udp (UdpCall.Set handle setting))) entries
        (Reply.Err word) after
        → OfUdp m handle (λ place o. UdpSetRefusal (own_of line) setting o entries word) }
    ensures set_stays { (contexts : List WasiSocketsCtx) (m : Machine) (line ctx handle : ℕ)
        (setting : UdpSetting) (entries : List Entry) (reply : Reply) (after : Machine)
        → Answered contexts m line (Step.Call ctx (GuestCall.Udp (UdpCall.Set handle setting))) entries reply
        after
        → after ≡ m }
{}

/// What gets and sets of a UDP socket that are done asked and answered.
///
/// - `read`: a get that is done answers with what its one call for the option was answered, as the
///   option reads it: a size is halved. It is at most the option's largest value.
/// - `written`: a set that is done wasn't of 0. Its one call set the option to the value brought
///   into its range, and was answered done.
pub fn udp_options_are_read_and_set()
    ensures read { (contexts : List WasiSocketsCtx) (m : Machine) (line ctx handle : ℕ)
        (option : UdpOption) (fields : List Field) (entries : List Entry) (after : Machine)
        → Answered contexts m line (Step.Call ctx (GuestCall.Udp (UdpCall.Get handle option))) entries
        (Reply.Ok fields) after
        → OfUdp m handle (λ place o. GetsUdpOption (own_of line) (udp_opt option) o fields entries) }
    ensures written { (contexts : List WasiSocketsCtx) (m : Machine) (line ctx handle : ℕ)
        (setting : UdpSetting) (fields : List Field) (entries : List Entry) (after : Machine)
        → Answered contexts m line (Step.Call ctx (GuestCall.Udp (UdpCall.Set handle setting))) entries
        (Reply.Ok fields) after
        → OfUdp m handle (λ place o. SetsUdpOption (own_of line) setting o entries) }
{}

/// What the drop of a UDP socket releases.
///
/// - `socket`: a drop of a UDP socket without live children is done; that is said where no call is
///   pending.
/// - `closed`: it closes the network socket of an open socket, which is answered done, and asks
///   nothing else.
/// - `left`: nothing is left of its record, and its handle isn't live any more.
pub fn udp_drops_close()
    ensures socket { (contexts : List WasiSocketsCtx) (m : Machine) (line ctx handle place : ℕ)
        (entries : List Entry) (reply : Reply) (after : Machine)
        → m.store.standing ≡ None → kind_at m.table handle ≡ Some (Kind.Udp2 place)
        → children_of m.table.live handle ≡ []
        → Answered contexts m line (Step.Call ctx (GuestCall.Pollable (PollableCall.Drop handle))) entries reply after
        → reply ≡ Reply.Ok no_fields }
    ensures closed { (contexts : List WasiSocketsCtx) (m : Machine) (line ctx handle place : ℕ)
        (u : UdpRecord) (fields : List Field) (entries : List Entry) (after : Machine)
        → kind_at m.table handle ≡ Some (Kind.Udp2 place) → udp2_at m.store.records place ≡ Some u
        → Answered contexts m line (Step.Call ctx (GuestCall.Pollable (PollableCall.Drop handle))) entries (Reply.Ok fields)
        after
        → entries ≡ udp_given_up (own_of line) u }
    ensures left { (contexts : List WasiSocketsCtx) (m : Machine) (line ctx handle place : ℕ)
        (u : UdpRecord) (fields : List Field) (entries : List Entry) (after : Machine)
        → kind_at m.table handle ≡ Some (Kind.Udp2 place) → udp2_at m.store.records place ≡ Some u
        → Answered contexts m line (Step.Call ctx (GuestCall.Pollable (PollableCall.Drop handle))) entries (Reply.Ok fields)
        after
        → after ≡ udp_left (without m handle) place u }
{}

/// What a poll gives.
///
/// - `done`: one that is done gives the next handle, after a create of a UDP socket or a listen of
///   0.3; the next two, after datagram streams; the bytes or the number of a call of a stream; the
///   places of a wait for pollables; the addresses of a lookup of 0.3; and else nothing, as a
///   connect of 0.3.
/// - `none`: one that is refused makes no handle.
/// - `full`: it traps with `Full` where there is no room for the handle of a create or of a
///   listener, for the two of datagram streams, or for that of a stream's error.
pub fn udp_polls_give_a_handle()
    ensures done { (contexts : List WasiSocketsCtx) (m : Machine) (line n : ℕ) (fields : List Field)
        (entries : List Entry) (after : Machine)
        → Answered contexts m line (Step.Poll n) entries (Reply.Ok fields) after
        → IsSomeAnd m.store.standing (λ s. GivesBy m fields after s.call)
        ⊎ (IsBeside m n × IsSomeAnd (beside_of m.store n) (λ b. BesideGives fields b.call)) }
    ensures none { (contexts : List WasiSocketsCtx) (m : Machine) (line n : ℕ)
        (entries : List Entry) (word : CodeWord) (after : Machine)
        → Answered contexts m line (Step.Poll n) entries (Reply.Err word) after
        → after.table ≡ m.table }
    ensures full { (contexts : List WasiSocketsCtx) (m : Machine) (line n : ℕ)
        (entries : List Entry) (after : Machine)
        → Answered contexts m line (Step.Poll n) entries (Reply.Trap TrapKind.Full) after
        → ((is_full m.table ≡ true) × IsSomeAnd m.store.standing (λ s. MakesOneHandle s.call))
        ⊎ (IsSomeAnd m.store.standing (λ s. LacksRoomForStreams m s.call) ⊎ StreamCallStands m) }
{}

/// The pollable of a UDP socket is ready. Nothing is asked, and the machine is unchanged. That is
/// said where no call is pending.
pub fn udp_pollables_are_ready()
    ensures { (contexts : List WasiSocketsCtx) (m : Machine) (line ctx pollable : ℕ)
        (entries : List Entry) (reply : Reply) (after : Machine)
        → m.store.standing ≡ None → WatchesUdp m pollable
        → Answered contexts m line (Step.Call ctx (GuestCall.Pollable (PollableCall.Ready pollable))) entries reply after
        → (reply ≡ Reply.Ok (truth_fields true)) × (entries ≡ []) × (after ≡ m) }
{}
