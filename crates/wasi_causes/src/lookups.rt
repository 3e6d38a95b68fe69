//! Why a lookup of a name is refused, what it leaves, and how its addresses are handed out; and
//! that what a context may not use asks nothing. Laws over the definitions of specs/: each is a
//! function that does nothing, whose contract is the law.

ghost use Rattle.std.specs.Prelude.{◌≡◌, ◌↔◌, ◌⊎◌, ℕ, true, false, List, [], ◌∷◌, Some, None};
ghost use Rattle.wasi_addr.specs.declared.address.IpAddress.{IpAddress};
ghost use Rattle.wasi_addr.specs.declared.address.SocketAddressFamily.{SocketAddressFamily};
ghost use Rattle.wasi_names.specs.Names.{name_is};
ghost use Rattle.wasi_world.specs.declared.call.Entry.{Entry};
ghost use Rattle.wasi_world.specs.declared.outcome.TrapKind.{TrapKind};
ghost use Rattle.wasi_world.specs.declared.outcome.WasiSocketsCtx.{WasiSocketsCtx};
ghost use Rattle.wasi_world.specs.Asks.{Give, Left};
ghost use Rattle.host_store.specs.declared.kind.Kind.{Kind};
ghost use Rattle.host_store.specs.declared.machine.Machine.{Machine};
ghost use Rattle.lookup_records.specs.declared.name_lookup.Lookup.{Lookup};
ghost use Rattle.lookup_records.specs.declared.name_lookup.Lookup.TheVariants as Lookup;
ghost use Rattle.host_store.specs.Kinds.{is_network, kind_at};
ghost use Rattle.host_store.specs.Machine.{first_state, lookup_number, own_of};
ghost use Rattle.host_tcp.specs.Creates.{with_room};
ghost use Rattle.lookup_records.specs.NameLookup.{looks_on};
ghost use Rattle.host_lookups.specs.NameLookupCalls.{lookup_ready};
ghost use Rattle.wasi_records.specs.Records.{lookup_at};
ghost use Rattle.wasi_machine.specs.Machine.{context_at, run};
ghost use Rattle.wasi_steps.specs.declared.reply.CodeWord.{CodeWord};
ghost use Rattle.wasi_steps.specs.declared.reply.CodeWord.TheVariants as CodeWord;
ghost use Rattle.wasi_steps.specs.declared.reply.Field.{Field};
ghost use Rattle.wasi_steps.specs.declared.reply.Reply.{Reply};
ghost use Rattle.wasi_steps.specs.declared.reply.Reply.TheVariants as Reply;
ghost use Rattle.wasi_steps.specs.declared.step.Step.{Step};
ghost use Rattle.wasi_steps.specs.declared.guest_call.GuestCall.TheVariants as GuestCall;
ghost use Rattle.wasi_steps.specs.declared.guest_call.TcpCall.TheVariants as TcpCall;
ghost use Rattle.wasi_steps.specs.declared.guest_call.UdpCall.TheVariants as UdpCall;
ghost use Rattle.wasi_steps.specs.declared.guest_call.NameCall.TheVariants as NameCall;
ghost use Rattle.wasi_steps.specs.declared.guest_call.PollableCall.TheVariants as PollableCall;
ghost use Rattle.wasi_steps.specs.declared.guest_call.P3TcpCall.TheVariants as P3TcpCall;
ghost use Rattle.wasi_steps.specs.declared.guest_call.P3UdpCall.TheVariants as P3UdpCall;
ghost use Rattle.wasi_steps.specs.declared.guest_call.P3NameCall.TheVariants as P3NameCall;
ghost use Rattle.wasi_steps.specs.declared.step.Step.TheVariants as Step;
ghost use Rattle.wasi_steps.specs.Reply.{found_values, truth_fields};
ghost use Rattle.wasi_walks.specs.Answered.{Answered};
ghost use Rattle.wasi_causes.specs.Lookups.{found_lookup, HandsOut, LookupGone, LosesLookup};
ghost use Rattle.wasi_causes.specs.Lookups.{OfLookup, ResolveRefusal, Resolves, WatchesLookup};

/// Why a lookup of a name is refused.
///
/// - `forbidden`: a lookup is refused with `permanent-resolver-failure` exactly where the context
///   may not look names up; that is said where no call is pending.
/// - `unnamed`: with `invalid-argument` exactly where it may, and the name is refused; that is said
///   where no call is pending.
/// - `cause`: in both cases nothing is asked. Any other refusal is `name-unresolvable`: the name is
///   a domain, and the network, which was asked for it once, answered with a code.
/// - `stays`: after a refusal the machine is unchanged: there is no handle, no record and no job.
pub fn resolve_refusals()
    ensures forbidden { (contexts : List WasiSocketsCtx) (m : Machine) (line ctx network : ℕ)
        (name : List ℕ) (entries : List Entry) (reply : Reply) (after : Machine)
        → m.store.standing ≡ None → is_network (kind_at m.table network) ≡ true
        → Answered contexts m line (Step.Call ctx (GuestCall.Names (NameCall.Resolve network name))) entries reply
        after
        → (reply ≡ Reply.Err CodeWord.PermanentResolverFailure)
        ↔ ((context_at contexts ctx).ip_name_lookup ≡ false) }
    ensures unnamed { (contexts : List WasiSocketsCtx) (m : Machine) (line ctx network : ℕ)
        (name : List ℕ) (entries : List Entry) (reply : Reply) (after : Machine)
        → m.store.standing ≡ None → is_network (kind_at m.table network) ≡ true
        → Answered contexts m line (Step.Call ctx (GuestCall.Names (NameCall.Resolve network name))) entries reply
        after
        → (reply ≡ Reply.Err CodeWord.InvalidArgument)
        ↔ (((context_at contexts ctx).ip_name_lookup ≡ true) × (name_is name ≡ None)) }
    ensures cause { (contexts : List WasiSocketsCtx) (m : Machine) (line ctx network : ℕ)
        (name : List ℕ) (entries : List Entry) (word : CodeWord) (after : Machine)
        → Answered contexts m line (Step.Call ctx (GuestCall.Names (NameCall.Resolve network name))) entries
        (Reply.Err word) after
        → ResolveRefusal (own_of line) (context_at contexts ctx) name entries word }
    ensures stays { (contexts : List WasiSocketsCtx) (m : Machine) (line ctx network : ℕ)
        (name : List ℕ) (entries : List Entry) (word : CodeWord) (after : Machine)
        → Answered contexts m line (Step.Call ctx (GuestCall.Names (NameCall.Resolve network name))) entries
        (Reply.Err word) after
        → after ≡ m }
{}

/// What a lookup of a name makes.
///
/// - `done`: a lookup that is done answers with the next handle, and its context may look names up.
///   A name that is an address is what is found, and nothing was asked. For a domain the line's own
///   operation asked once: the lookup is in progress and has the last of the jobs, or has found the
///   addresses that were answered, in their order and each in its canonical form.
/// - `full`: one that traps with `Full` has no handle; its record is given back, with its job.
pub fn resolves_make_a_handle()
    ensures done { (contexts : List WasiSocketsCtx) (m : Machine) (line ctx network : ℕ)
        (name : List ℕ) (fields : List Field) (entries : List Entry) (after : Machine)
        → Answered contexts m line (Step.Call ctx (GuestCall.Names (NameCall.Resolve network name))) entries
        (Reply.Ok fields) after
        → Resolves m (own_of line) (context_at contexts ctx) network name entries fields after }
    ensures full { (contexts : List WasiSocketsCtx) (m : Machine) (line ctx network : ℕ)
        (name : List ℕ) (entries : List Entry) (after : Machine)
        → Answered contexts m line (Step.Call ctx (GuestCall.Names (NameCall.Resolve network name))) entries
        (Reply.Trap TrapKind.Full) after
        → LosesLookup m (own_of line) name entries after }
{}

/// What a `resolve-next` answers. The clauses `in_progress` to `first` are said where no call is
/// pending.
///
/// - `asks_nothing`: it asks nothing.
/// - `in_progress`: it is refused with `would-block` exactly while the lookup is in progress.
/// - `failed`: it is refused with `name-unresolvable` exactly where the lookup failed.
/// - `stays`: after a refusal the machine is unchanged, so a failed lookup is refused each time.
/// - `over`: it answers `none` exactly where no address is left.
/// - `first`, `handed`: else it hands out the first address that is left, and that one is left no
///   more.
/// - `missing`: after any script each handle of a lookup has its lookup.
pub fn addresses_are_handed_out_in_order()
    ensures asks_nothing { (contexts : List WasiSocketsCtx) (m : Machine) (line ctx handle : ℕ)
        (entries : List Entry) (reply : Reply) (after : Machine)
        → Answered contexts m line (Step.Call ctx (GuestCall.Names (NameCall.ResolveNext handle))) entries reply
        after
        → entries ≡ [] }
    ensures in_progress { (contexts : List WasiSocketsCtx) (m : Machine) (line ctx handle : ℕ)
        (entries : List Entry) (reply : Reply) (after : Machine)
        → m.store.standing ≡ None
        → Answered contexts m line (Step.Call ctx (GuestCall.Names (NameCall.ResolveNext handle))) entries reply
        after
        → (reply ≡ Reply.Err CodeWord.WouldBlock) ↔ (looks_on (found_lookup m handle) ≡ true) }
    ensures failed { (contexts : List WasiSocketsCtx) (m : Machine) (line ctx handle : ℕ)
        (entries : List Entry) (reply : Reply) (after : Machine)
        → m.store.standing ≡ None
        → Answered contexts m line (Step.Call ctx (GuestCall.Names (NameCall.ResolveNext handle))) entries reply
        after
        → (reply ≡ Reply.Err CodeWord.NameUnresolvable)
        ↔ (found_lookup m handle ≡ Some Lookup.Failed) }
    ensures stays { (contexts : List WasiSocketsCtx) (m : Machine) (line ctx handle : ℕ)
        (entries : List Entry) (word : CodeWord) (after : Machine)
        → Answered contexts m line (Step.Call ctx (GuestCall.Names (NameCall.ResolveNext handle))) entries
        (Reply.Err word) after
        → after ≡ m }
    ensures over { (contexts : List WasiSocketsCtx) (m : Machine) (line ctx handle : ℕ)
        (entries : List Entry) (reply : Reply) (after : Machine)
        → m.store.standing ≡ None
        → Answered contexts m line (Step.Call ctx (GuestCall.Names (NameCall.ResolveNext handle))) entries reply
        after
        → (reply ≡ Reply.Ok (found_values None))
        ↔ (found_lookup m handle ≡ Some (Lookup.Found [])) }
    ensures first { (contexts : List WasiSocketsCtx) (m : Machine) (line ctx handle : ℕ)
        (a : IpAddress) (left : List IpAddress) (entries : List Entry) (reply : Reply)
        (after : Machine)
        → m.store.standing ≡ None → found_lookup m handle ≡ Some (Lookup.Found (a ∷ left))
        → Answered contexts m line (Step.Call ctx (GuestCall.Names (NameCall.ResolveNext handle))) entries reply
        after
        → (reply ≡ Reply.Ok (found_values (Some a)))
        × (found_lookup after handle ≡ Some (Lookup.Found left)) }
    ensures handed { (contexts : List WasiSocketsCtx) (m : Machine) (line ctx handle : ℕ)
        (fields : List Field) (entries : List Entry) (after : Machine)
        → Answered contexts m line (Step.Call ctx (GuestCall.Names (NameCall.ResolveNext handle))) entries
        (Reply.Ok fields) after
        → OfLookup m handle (λ place l. HandsOut m place l fields after) }
    ensures missing { (contexts : List WasiSocketsCtx) (steps : List Step) (log : List Entry)
        (replies : List Reply) (m : Machine) (handle : ℕ)
        → Left (run contexts [] first_state 1 steps) log (Give (replies, m))
        → found_lookup m handle ≡ None → lookup_number m handle ≡ None }
{}

/// When a lookup is ready, and what its drop leaves.
///
/// - `watched`: the pollable of a lookup is ready exactly where the lookup isn't in progress;
///   nothing is asked, and the machine is unchanged. That is said where no call is pending.
/// - `dropped`: a drop of a lookup asks nothing. Nothing is left of its record, and no job is its
///   own, so a turn doesn't ask about it.
pub fn lookups_are_watched_and_dropped()
    ensures watched { (contexts : List WasiSocketsCtx) (m : Machine) (line ctx pollable place : ℕ)
        (entries : List Entry) (reply : Reply) (after : Machine)
        → m.store.standing ≡ None → WatchesLookup m pollable place
        → Answered contexts m line (Step.Call ctx (GuestCall.Pollable (PollableCall.Ready pollable))) entries reply after
        → (reply ≡ Reply.Ok (truth_fields (lookup_ready (lookup_at m.store.records place))))
        × (entries ≡ []) × (after ≡ m) }
    ensures dropped { (contexts : List WasiSocketsCtx) (m : Machine) (line ctx handle place : ℕ)
        (l : Lookup) (fields : List Field) (entries : List Entry) (after : Machine)
        → kind_at m.table handle ≡ Some (Kind.Lookup place)
        → lookup_at m.store.records place ≡ Some l
        → Answered contexts m line (Step.Call ctx (GuestCall.Pollable (PollableCall.Drop handle))) entries (Reply.Ok fields)
        after
        → LookupGone m handle place entries after }
{}

/// What a context may not use asks nothing, and leaves the machine unchanged:
///
/// - `tcp`: a `tcp-create`, after which the limit of the context is kept; `p3_tcp`: a
///   `p3-tcp-create`.
/// - `udp`: a `udp-create`; `p3_udp`: a `p3-udp-create`.
/// - `lookup`: a `resolve`; `p3_lookup`: a `p3-resolve`.
pub fn what_is_forbidden_asks_nothing()
    ensures tcp { (contexts : List WasiSocketsCtx) (m : Machine) (line ctx : ℕ)
        (family : SocketAddressFamily) (entries : List Entry) (reply : Reply) (after : Machine)
        → (context_at contexts ctx).tcp ≡ false
        → Answered contexts m line (Step.Call ctx (GuestCall.Tcp (TcpCall.Create family))) entries reply after
        → (entries ≡ []) × (((reply ≡ Reply.Busy) × (after ≡ m))
        ⊎ (after ≡ with_room m (context_at contexts ctx))) }
    ensures p3_tcp { (contexts : List WasiSocketsCtx) (m : Machine) (line ctx : ℕ)
        (family : SocketAddressFamily) (entries : List Entry) (reply : Reply) (after : Machine)
        → (context_at contexts ctx).tcp ≡ false
        → Answered contexts m line (Step.Call ctx (GuestCall.P3Tcp (P3TcpCall.Create family))) entries reply
        after → (entries ≡ []) × (after ≡ m) }
    ensures udp { (contexts : List WasiSocketsCtx) (m : Machine) (line ctx : ℕ)
        (family : SocketAddressFamily) (entries : List Entry) (reply : Reply) (after : Machine)
        → (context_at contexts ctx).udp ≡ false
        → Answered contexts m line (Step.Call ctx (GuestCall.Udp (UdpCall.Create family))) entries reply after
        → (entries ≡ []) × (after ≡ m) }
    ensures p3_udp { (contexts : List WasiSocketsCtx) (m : Machine) (line ctx : ℕ)
        (family : SocketAddressFamily) (entries : List Entry) (reply : Reply) (after : Machine)
        → (context_at contexts ctx).udp ≡ false
        → Answered contexts m line (Step.Call ctx (GuestCall.P3Udp (P3UdpCall.Create family))) entries reply
        after → (entries ≡ []) × (after ≡ m) }
    ensures lookup { (contexts : List WasiSocketsCtx) (m : Machine) (line ctx network : ℕ)
        (name : List ℕ) (entries : List Entry) (reply : Reply) (after : Machine)
        → (context_at contexts ctx).ip_name_lookup ≡ false
        → Answered contexts m line (Step.Call ctx (GuestCall.Names (NameCall.Resolve network name))) entries reply
        after
        → (entries ≡ []) × (after ≡ m) }
    ensures p3_lookup { (contexts : List WasiSocketsCtx) (m : Machine) (line ctx : ℕ)
        (name : List ℕ) (entries : List Entry) (reply : Reply) (after : Machine)
        → (context_at contexts ctx).ip_name_lookup ≡ false
        → Answered contexts m line (Step.Call ctx (GuestCall.P3Names (P3NameCall.Resolve name))) entries reply after
        → (entries ≡ []) × (after ≡ m) }
{}
