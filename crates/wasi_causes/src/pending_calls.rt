//! Calls that may be pending: when, what a poll of one answers, and what every run keeps of it.

ghost use Rattle.std.specs.Prelude.{◌≡◌, ◌↔◌, ◌⊎◌, ℕ, true, false, List, []};
ghost use Rattle.std.specs.Prelude.{IsSome, IsSomeAnd, None};
ghost use Rattle.wasi_addr.specs.declared.address.IpSocketAddress.{IpSocketAddress};
ghost use Rattle.wasi_world.specs.declared.call.Entry.{Entry};
ghost use Rattle.wasi_world.specs.declared.outcome.TrapKind.{TrapKind};
ghost use Rattle.wasi_world.specs.declared.outcome.WasiSocketsCtx.{WasiSocketsCtx};
ghost use Rattle.wasi_world.specs.Asks.{Give, Left};
ghost use Rattle.host_store.specs.declared.machine.Machine.{Machine};
ghost use Rattle.wasi_steps.specs.declared.reply.CodeWord.{CodeWord};
ghost use Rattle.wasi_steps.specs.declared.reply.Reply.{Reply};
ghost use Rattle.wasi_steps.specs.declared.guest_call.GuestCall.{GuestCall};
ghost use Rattle.wasi_steps.specs.declared.guest_call.TcpCall.{TcpCall};
ghost use Rattle.wasi_steps.specs.declared.guest_call.PollableCall.{PollableCall};
ghost use Rattle.wasi_steps.specs.declared.step.Step.{Step};
ghost use Rattle.wasi_walks.specs.Answered.{Answered, EndsPending};
ghost use Rattle.wasi_causes.specs.Blocking.{StreamCallStands};
ghost use Rattle.wasi_causes.specs.Cancelled.{IsCancel};
ghost use Rattle.wasi_causes.specs.Failed.{FailureLeaves};
ghost use Rattle.wasi_causes.specs.Udp.{MakesOneHandle};
ghost use Rattle.wasi_causes.specs.Datagrams.{LacksRoomForStreams};
ghost use Rattle.wasi_causes.specs.Datagrams.{OutgoingWaits};
ghost use Rattle.wasi_machine.specs.Machine.{run};
ghost use Rattle.host_store.specs.Machine.{first_state, outgoing_at, output_at, own_of};
ghost use Rattle.host_store.specs.Beside.{beside_of, stands_under};
ghost use Rattle.host_store.specs.Standing.{stands_as};
ghost use Rattle.wasi_walks.specs.Missing.{BesideNothing};
ghost use Rattle.wasi_walks.specs.Waiting.{IsPoll, MayStand};
ghost use Rattle.wasi_walks.specs.Waiting.{OutputWaits, StandingWaits};
ghost use Rattle.wasi_walks.specs.Waiting.{PendingCallsFit, call_over};
ghost use Rattle.wasi_causes.specs.P3Connects.{BesidePolled, IsBeside};
ghost use Rattle.wasi_table.specs.Table.{is_full};

/// What a poll of a pending call answers.
///
/// - `exactly`, `stays`: `no-such-call` exactly where no call is pending under its number; nothing
///   is asked then, and the machine is unchanged.
/// - `only_polls`: no other step but a cancel answers that.
/// - `ends`: a poll of the exclusive call leaves it pending, or leaves none pending.
/// - `beside`: so does one of a call that stands beside others, unless it is busy, and leaves the
///   handles and the exclusive call unchanged (`polls_of_connects`, `polls_of_lookups`,
///   `polls_of_sends` and `polls_of_receives` say which answer comes of what).
/// - `refused`: a code is the one by which the bind, the listen, the create or the connect failed:
///   a check said no, or the network answered with it. A listen and a create closed their network
///   socket last; a connect that was answered asked for the remote address. The operation is in
///   progress no more, a create's record is given back, and no exclusive call is pending. Or the
///   call stands beside others.
/// - `traps`: in a run a poll traps with `Full` alone, for the handle of a create or of a listener,
///   the two of datagram streams, or that of a stream's error; or with `NoSuchHandle`, where the
///   socket of a connect beside others was dropped.
///
/// `refused` assumes `PendingCallsFit`: the pending call and the operation in its record are of one
/// kind. Every run keeps that (`runs_keep_their_pending_calls`).
pub fn polls_find_their_call()
    ensures exactly { (contexts : List WasiSocketsCtx) (m : Machine) (line n : ℕ)
        (entries : List Entry) (reply : Reply) (after : Machine)
        → Answered contexts m line (Step.Poll n) entries reply after
        → (reply ≡ Reply.NoSuchCall) ↔ (stands_under m.store n ≡ false) }
    ensures stays { (contexts : List WasiSocketsCtx) (m : Machine) (line n : ℕ)
        (entries : List Entry) (after : Machine)
        → Answered contexts m line (Step.Poll n) entries Reply.NoSuchCall after
        → (entries ≡ []) × (after ≡ m) }
    ensures only_polls { (contexts : List WasiSocketsCtx) (m : Machine) (line : ℕ) (s : Step)
        (entries : List Entry) (after : Machine)
        → Answered contexts m line s entries Reply.NoSuchCall after → IsPoll s ⊎ IsCancel s }
    ensures ends { (contexts : List WasiSocketsCtx) (m : Machine) (line n : ℕ)
        (entries : List Entry) (reply : Reply) (after : Machine)
        → stands_as m.store.standing n ≡ true
        → Answered contexts m line (Step.Poll n) entries reply after
        → (reply ≡ Reply.Pending n) ⊎ (after.store.standing ≡ None) }
    ensures beside { (contexts : List WasiSocketsCtx) (m : Machine) (line n : ℕ)
        (entries : List Entry) (reply : Reply) (after : Machine)
        → IsBeside m n → (reply ≡ Reply.Busy → ⊥)
        → Answered contexts m line (Step.Poll n) entries reply after
        → BesidePolled m n entries reply after }
    ensures refused { (contexts : List WasiSocketsCtx) (m : Machine) (line n : ℕ)
        (entries : List Entry) (word : CodeWord) (after : Machine)
        → PendingCallsFit m → Answered contexts m line (Step.Poll n) entries (Reply.Err word) after
        → FailureLeaves m n entries word after
        ⊎ BesidePolled m n entries (Reply.Err word) after }
    ensures traps { (contexts : List WasiSocketsCtx) (steps : List Step) (log : List Entry)
        (replies : List Reply) (m : Machine) (line n : ℕ) (entries : List Entry) (kind : TrapKind)
        (after : Machine)
        → Left (run contexts [] first_state 1 steps) log (Give (replies, m))
        → Answered contexts m line (Step.Poll n) entries (Reply.Trap kind) after
        → ((kind ≡ TrapKind.Full)
        × (((is_full m.table ≡ true) × IsSomeAnd m.store.standing (λ s. MakesOneHandle s.call))
        ⊎ (IsSomeAnd m.store.standing (λ s. LacksRoomForStreams m s.call) ⊎ StreamCallStands m)))
        ⊎ ((kind ≡ TrapKind.NoSuchHandle) × BesideNothing m n × (entries ≡ [])
        × (after ≡ call_over m n)) }
{}

/// When a step may be pending.
///
/// - `step`: a bind or a listen, or the start of one, a connect, a lookup or a datagram of 0.3, a
///   create of a UDP socket or of its datagram streams, the drop of an output or of an outgoing datagram stream, and a call
///   that blocks, all under their line's number; and a poll, under the number that it polls.
/// - `stands`: a call is pending under that number then: the exclusive call, or one beside others.
/// - `told`, `listen`: the last call of a bind, or of a listen, was answered pending.
/// - `output`: a drop waits for its output's write in progress, or its one look was answered
///   pending; or it waits for a datagram that isn't sent yet, and asks nothing.
/// - `polled`: a poll is pending for the reason of the call that it polls; `blocking` and `waiting`
///   say that of calls that block, and `p3_connects` of those that stand beside others.
///
/// `polled` assumes `PendingCallsFit`: the pending call and the operation in its record are of one
/// kind. Every run keeps that (`runs_keep_their_pending_calls`).
pub fn pending_where_told()
    ensures step { (contexts : List WasiSocketsCtx) (m : Machine) (line : ℕ) (s : Step)
        (entries : List Entry) (number : ℕ) (after : Machine)
        → Answered contexts m line s entries (Reply.Pending number) after
        → MayStand m line s number }
    ensures stands { (contexts : List WasiSocketsCtx) (m : Machine) (line : ℕ) (s : Step)
        (entries : List Entry) (number : ℕ) (after : Machine)
        → Answered contexts m line s entries (Reply.Pending number) after
        → IsSomeAnd after.store.standing (λ call. call.ids.line ≡ number)
        ⊎ IsSome (beside_of after.store number) }
    ensures told { (contexts : List WasiSocketsCtx) (m : Machine) (line ctx handle network : ℕ)
        (a : IpSocketAddress) (entries : List Entry) (number : ℕ) (after : Machine)
        → Answered contexts m line (Step.Call ctx (GuestCall.Tcp (TcpCall.StartBind handle network a))) entries
        (Reply.Pending number) after → EndsPending (own_of line) entries }
    ensures listen { (contexts : List WasiSocketsCtx) (m : Machine) (line ctx handle : ℕ)
        (entries : List Entry) (number : ℕ) (after : Machine)
        → Answered contexts m line (Step.Call ctx (GuestCall.Tcp (TcpCall.StartListen handle))) entries
        (Reply.Pending number) after → EndsPending (own_of line) entries }
    ensures output { (contexts : List WasiSocketsCtx) (m : Machine) (line ctx handle : ℕ)
        (entries : List Entry) (number : ℕ) (after : Machine)
        → Answered contexts m line (Step.Call ctx (GuestCall.Pollable (PollableCall.Drop handle))) entries
        (Reply.Pending number) after
        → OutputWaits m (own_of line) (output_at m handle) entries
        ⊎ OutgoingWaits m (outgoing_at m handle) entries }
    ensures polled { (contexts : List WasiSocketsCtx) (m : Machine) (line n : ℕ)
        (entries : List Entry) (number : ℕ) (after : Machine)
        → PendingCallsFit m → Answered contexts m line (Step.Poll n) entries (Reply.Pending number)
        after → StandingWaits m (own_of n) entries
        ⊎ BesidePolled m n entries (Reply.Pending n) after }
{}

/// After any script the pending call and the operation in its record fit.
///
/// - A bind, of a TCP or a UDP socket: its record has a bind in progress.
/// - A listen: its record has begun a listen, of which at most the check of the address that was
///   reported and the listen itself are left, and one of them at least. In 0.3, where it may be of
///   a socket that isn't bound, so may be the checks of the wildcard, and the bind to it. The
///   socket has no network socket.
/// - A create: its record has a create that waits for its network socket.
/// - Datagram streams: the record has a connect of whose checks one at least isn't answered.
pub fn runs_keep_their_pending_calls()
    ensures { (contexts : List WasiSocketsCtx) (steps : List Step) (entries : List Entry)
        (replies : List Reply) (m : Machine)
        → Left (run contexts [] first_state 1 steps) entries (Give (replies, m))
        → PendingCallsFit m }
{}
