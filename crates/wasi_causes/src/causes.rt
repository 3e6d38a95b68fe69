//! Where the answer of each step comes from, and what is left after a refusal: laws over the
//! definitions of specs/. Each is a function that does nothing, whose contract is the law. A socket
//! is a TCP socket here, where nothing else is said.
//!
//! Other modules have the calls of TCP sockets (`tcp`), their listens and accepts (`listens`),
//! options (`options`), 0.3 sockets (`p3`), UDP sockets (`udp`), their datagram streams
//! (`datagrams`), the calls of streams (`stream_calls`, `blocking`), pending calls
//! (`pending_calls`), pollables (`readiness`), waits for them (`waiting`), and lookups (`lookups`).

ghost use Rattle.std.specs.Prelude.{◌≡◌, ◌↔◌, ◌⊎◌, ℕ, ◌+◌, true, List, [], ◌∷◌, IsSome};
ghost use Rattle.std.specs.Prelude.{Some, None};
ghost use Rattle.wasi_world.specs.declared.call.Entry.{Entry};
ghost use Rattle.wasi_world.specs.declared.outcome.TrapKind.{TrapKind};
ghost use Rattle.wasi_world.specs.declared.outcome.WasiSocketsCtx.{WasiSocketsCtx};
ghost use Rattle.wasi_world.specs.Asks.{Give, Left};
ghost use Rattle.memory_streams.specs.Plain.{Contents};
ghost use Rattle.host_store.specs.declared.kind.Kind.{Kind};
ghost use Rattle.host_store.specs.declared.kind.PlainInput.{PlainInput};
ghost use Rattle.host_store.specs.declared.kind.PlainOutput.{PlainOutput};
ghost use Rattle.host_store.specs.declared.machine.Machine.{Machine};
ghost use Rattle.tcp_records.specs.declared.socket.TcpRecord.{TcpRecord};
ghost use Rattle.wasi_steps.specs.declared.reply.CodeWord.{CodeWord};
ghost use Rattle.wasi_steps.specs.declared.reply.Field.{Field};
ghost use Rattle.wasi_steps.specs.declared.reply.Reply.{Reply};
ghost use Rattle.wasi_steps.specs.declared.guest_call.GuestCall.{GuestCall};
ghost use Rattle.wasi_steps.specs.declared.guest_call.NameCall.{NameCall};
ghost use Rattle.wasi_steps.specs.declared.guest_call.PollableCall.{PollableCall};
ghost use Rattle.wasi_steps.specs.declared.step.Step.{Step};
ghost use Rattle.wasi_walks.specs.Answered.{Answered, OfRecord, record_at, streams_in};
ghost use Rattle.wasi_walks.specs.Missing.{ExclusiveOnNothing, IsWrite, MakesHandle, MissesHandle};
ghost use Rattle.wasi_causes.specs.Outcomes.{may_answer, EachMayAnswer, InputIsThere};
ghost use Rattle.wasi_causes.specs.Outcomes.{IsBlockingWrite, LaterPartIsThere, Outcome};
ghost use Rattle.wasi_causes.specs.PollableCalls.{IsEmptyWait, WatchedIsThere};
ghost use Rattle.wasi_causes.specs.Datagrams.{IsUdpSend, IsUdpStream};
ghost use Rattle.wasi_causes.specs.Datagrams.{PendingHandleIsLive};
ghost use Rattle.wasi_causes.specs.P3Streams.{TakesOut};
ghost use Rattle.wasi_causes.specs.Reached.{ListensLate, MayFinish, OfItsRecord};
ghost use Rattle.wasi_causes.specs.GivenUp.{giving_back, GoesAtOnce, HasLiveChildren};
ghost use Rattle.wasi_causes.specs.GivenUp.{IsDropped, IsGone, LooksOnce, socket_given_up, without};
ghost use Rattle.wasi_walks.specs.Licence.{Has, marks_in};
ghost use Rattle.wasi_machine.specs.Machine.{polls_beside, run};
ghost use Rattle.wasi_steps.specs.Steps.{context_of};
ghost use Rattle.host_store.specs.Machine.{first_state, own_of, socket_at};
ghost use Rattle.lookup_records.specs.declared.name_lookup.Lookup.{Lookup};
ghost use Rattle.wasi_records.specs.Records.{input_pipe_at, lookup_at, open_at, output_pipe_at};
ghost use Rattle.wasi_records.specs.Records.{tcp2_at};
ghost use Rattle.host_store.specs.Kinds.{kind_at, without_handle};
ghost use Rattle.wasi_steps.specs.Reply.{no_fields};
ghost use Rattle.wasi_causes.specs.Lookups.{LookedOn};
ghost use Rattle.wasi_causes.specs.Turns.{IsOfJob};
ghost use Rattle.wasi_walks.specs.Waiting.{IsPoll, left_missing};
ghost use Rattle.tcp_records.specs.InProgress.{is_connect};
ghost use Rattle.wasi_table.specs.Table.{children_of, is_full};

/// Each reply is one that the table of replies allows its step: fields of the step's kinds, a code
/// that the step may return, a stream's end or failure, `cancelled` of an accept of 0.3, a trap
/// that the step may end by, pending, busy, or `no-such-call`.
///
/// - `next`: the reply of one step.
/// - `all`: every reply of a run.
pub fn replies_are_of_the_step()
    ensures next { (contexts : List WasiSocketsCtx) (m : Machine) (line : ℕ) (s : Step)
        (entries : List Entry) (reply : Reply) (after : Machine)
        → Answered contexts m line s entries reply after → may_answer line s reply }
    ensures all { (contexts : List WasiSocketsCtx) (steps : List Step) (log : List Entry)
        (replies : List Reply) (m : Machine)
        → Left (run contexts [] first_state 1 steps) log (Give (replies, m))
        → EachMayAnswer 1 steps replies }
{}

/// Every answer but `busy` is in the table of outcomes: what the step asked and was answered, its
/// reply, and the machine afterwards are a row of that step.
pub fn answers_are_in_the_table()
    ensures { (contexts : List WasiSocketsCtx) (m : Machine) (line : ℕ) (s : Step)
        (entries : List Entry) (reply : Reply) (after : Machine)
        → Answered contexts m line s entries reply after → (reply ≡ Reply.Busy → ⊥)
        → Outcome contexts m line s entries reply after }
{}

/// While an exclusive call is pending every other call of a guest is `busy`, and so is a poll of a
/// call that stands beside others.
///
/// - `exactly`: a step is `busy` exactly where an exclusive call is pending, and the step is a
///   guest's call or such a poll.
/// - `stays`: nothing was asked then, and the machine is unchanged.
pub fn busy_while_a_call_stands()
    ensures exactly { (contexts : List WasiSocketsCtx) (m : Machine) (line : ℕ) (s : Step)
        (entries : List Entry) (reply : Reply) (after : Machine)
        → Answered contexts m line s entries reply after
        → (reply ≡ Reply.Busy) ↔ (IsSome m.store.standing
        × (IsSome (context_of s) ⊎ (polls_beside m.store s ≡ true))) }
    ensures stays { (contexts : List WasiSocketsCtx) (m : Machine) (line : ℕ) (s : Step)
        (entries : List Entry) (after : Machine)
        → Answered contexts m line s entries Reply.Busy after → (entries ≡ []) × (after ≡ m) }
{}

/// Why a step may trap. In all cases but `Full` and `NotPermitted` nothing was asked, and the
/// machine is unchanged.
///
/// - `kinds`: a step traps with one of the eight kinds below.
/// - `no_such_handle`: a handle of the step isn't live, or is of another kind.
/// - `no_such_handle_stays`: nothing was asked then, and the machine is unchanged, but that after a
///   poll the call that it polls is over.
/// - `has_children`: a drop traps with `HasChildren` exactly where its handle has a live child;
///   that is said where no call is pending.
/// - `has_children_stays`, `takes_out`: nothing is asked then, the machine is unchanged, and no
///   other step traps so but one that takes a result.
/// - `full`: the step makes a handle, and the table is full.
/// - `full_marks`: the handles that it made before that are logged, one entry each.
/// - `not_permitted`: the step is a write, or a send of datagrams.
/// - `streams_alive`: the step asks for datagram streams.
/// - `capacity`: the step is a write.
/// - `too_long`: the step is a write that blocks.
/// - `empty_list`: the step is a wait for no pollable.
///
/// `no_such_handle_stays` assumes that a pending call's handle or streams are there, that a
/// splice's input is there if it is one, and that what each pollable of a wait watches is there.
/// Every run keeps that (`runs_keep_their_records`, `pending_calls_have_their_streams`).
pub fn traps_have_causes()
    ensures kinds { (contexts : List WasiSocketsCtx) (m : Machine) (line : ℕ) (s : Step)
        (entries : List Entry) (kind : TrapKind) (after : Machine)
        → Answered contexts m line s entries (Reply.Trap kind) after
        → (kind ≡ TrapKind.NoSuchHandle)
        ⊎ ((kind ≡ TrapKind.HasChildren) ⊎ ((kind ≡ TrapKind.Full)
        ⊎ ((kind ≡ TrapKind.NotPermitted) ⊎ ((kind ≡ TrapKind.StreamsAlive)
        ⊎ ((kind ≡ TrapKind.Capacity) ⊎ ((kind ≡ TrapKind.TooLong)
        ⊎ (kind ≡ TrapKind.EmptyList))))))) }
    ensures no_such_handle { (contexts : List WasiSocketsCtx) (m : Machine) (line : ℕ) (s : Step)
        (entries : List Entry) (after : Machine)
        → Answered contexts m line s entries (Reply.Trap TrapKind.NoSuchHandle) after
        → MissesHandle m s }
    ensures no_such_handle_stays { (contexts : List WasiSocketsCtx) (m : Machine) (line : ℕ)
        (s : Step) (entries : List Entry) (after : Machine)
        → (IsPoll s → PendingHandleIsLive m) → LaterPartIsThere m s
        → Answered contexts m line s entries (Reply.Trap TrapKind.NoSuchHandle) after
        → (entries ≡ []) × (after ≡ left_missing m s) }
    ensures has_children { (contexts : List WasiSocketsCtx) (m : Machine) (line ctx handle : ℕ)
        (entries : List Entry) (reply : Reply) (after : Machine)
        → m.store.standing ≡ None
        → Answered contexts m line (Step.Call ctx (GuestCall.Pollable (PollableCall.Drop handle))) entries reply after
        → (reply ≡ Reply.Trap TrapKind.HasChildren) ↔ HasLiveChildren m handle }
    ensures has_children_stays { (contexts : List WasiSocketsCtx) (m : Machine) (line : ℕ)
        (s : Step) (entries : List Entry) (after : Machine)
        → Answered contexts m line s entries (Reply.Trap TrapKind.HasChildren) after
        → (entries ≡ []) × (after ≡ m) }
    ensures takes_out { (contexts : List WasiSocketsCtx) (m : Machine) (line : ℕ) (s : Step)
        (entries : List Entry) (after : Machine)
        → Answered contexts m line s entries (Reply.Trap TrapKind.HasChildren) after → TakesOut s }
    ensures full { (contexts : List WasiSocketsCtx) (m : Machine) (line : ℕ) (s : Step)
        (entries : List Entry) (after : Machine)
        → Answered contexts m line s entries (Reply.Trap TrapKind.Full) after
        → MakesHandle s × (is_full after.table ≡ true) }
    ensures full_marks { (contexts : List WasiSocketsCtx) (m : Machine) (line : ℕ) (s : Step)
        (entries : List Entry) (after : Machine)
        → Answered contexts m line s entries (Reply.Trap TrapKind.Full) after
        → after.table.next ≡ m.table.next + marks_in entries }
    ensures not_permitted { (contexts : List WasiSocketsCtx) (m : Machine) (line : ℕ) (s : Step)
        (entries : List Entry) (after : Machine)
        → Answered contexts m line s entries (Reply.Trap TrapKind.NotPermitted) after
        → IsWrite s ⊎ IsUdpSend s }
    ensures streams_alive { (contexts : List WasiSocketsCtx) (m : Machine) (line : ℕ) (s : Step)
        (entries : List Entry) (after : Machine)
        → Answered contexts m line s entries (Reply.Trap TrapKind.StreamsAlive) after
        → IsUdpStream s × (entries ≡ []) × (after ≡ m) }
    ensures capacity { (contexts : List WasiSocketsCtx) (m : Machine) (line : ℕ) (s : Step)
        (entries : List Entry) (after : Machine)
        → Answered contexts m line s entries (Reply.Trap TrapKind.Capacity) after
        → IsWrite s × (entries ≡ []) × (after ≡ m) }
    ensures too_long { (contexts : List WasiSocketsCtx) (m : Machine) (line : ℕ) (s : Step)
        (entries : List Entry) (after : Machine)
        → Answered contexts m line s entries (Reply.Trap TrapKind.TooLong) after
        → IsBlockingWrite s × (entries ≡ []) × (after ≡ m) }
    ensures empty_list { (contexts : List WasiSocketsCtx) (m : Machine) (line : ℕ) (s : Step)
        (entries : List Entry) (after : Machine)
        → Answered contexts m line s entries (Reply.Trap TrapKind.EmptyList) after
        → IsEmptyWait s × (entries ≡ []) × (after ≡ m) }
{}

/// What holds of the records after any script.
///
/// - `handles`: each live handle of a socket, a stream, a pipe, a lookup or a pollable has its
///   record.
/// - `missing`: a handle without a TCP socket isn't live, or is of another kind.
/// - `inputs`: what an input reads from is there, the streams of a connection or a pipe.
/// - `pollables`: what a pollable watches is there.
/// - `stands`: what the exclusive call is on is there: its socket, its handle, its streams, or what
///   its pollables watch.
/// - `connects`: a socket with a connect in progress is connecting, or was closed with a code, or
///   is connected with neither half taken.
/// - `listens`: a socket in the state Default has no listener, and no listen in progress.
pub fn runs_keep_their_records()
    ensures handles { (contexts : List WasiSocketsCtx) (steps : List Step) (log : List Entry)
        (replies : List Reply) (m : Machine) (handle : ℕ) (kind : Kind)
        → Left (run contexts [] first_state 1 steps) log (Give (replies, m))
        → kind_at m.table handle ≡ Some kind → OfItsRecord m kind }
    ensures missing { (contexts : List WasiSocketsCtx) (steps : List Step) (log : List Entry)
        (replies : List Reply) (m : Machine) (handle : ℕ)
        → Left (run contexts [] first_state 1 steps) log (Give (replies, m))
        → record_at m handle ≡ None → socket_at m handle ≡ None }
    ensures inputs { (contexts : List WasiSocketsCtx) (steps : List Step) (log : List Entry)
        (replies : List Reply) (m : Machine) (handle : ℕ)
        → Left (run contexts [] first_state 1 steps) log (Give (replies, m))
        → InputIsThere m handle }
    ensures pollables { (contexts : List WasiSocketsCtx) (steps : List Step) (log : List Entry)
        (replies : List Reply) (m : Machine) (pollable : ℕ)
        → Left (run contexts [] first_state 1 steps) log (Give (replies, m))
        → WatchedIsThere m pollable }
    ensures stands { (contexts : List WasiSocketsCtx) (steps : List Step) (log : List Entry)
        (replies : List Reply) (m : Machine) (number : ℕ)
        → Left (run contexts [] first_state 1 steps) log (Give (replies, m))
        → ExclusiveOnNothing m number → ⊥ }
    ensures connects { (contexts : List WasiSocketsCtx) (steps : List Step) (log : List Entry)
        (replies : List Reply) (m : Machine) (place : ℕ) (r : TcpRecord)
        → Left (run contexts [] first_state 1 steps) log (Give (replies, m))
        → tcp2_at m.store.records place ≡ Some r → is_connect r.in_progress ≡ true
        → MayFinish r.inner.state }
    ensures listens { (contexts : List WasiSocketsCtx) (steps : List Step) (log : List Entry)
        (replies : List Reply) (m : Machine) (place : ℕ) (r : TcpRecord)
        → Left (run contexts [] first_state 1 steps) log (Give (replies, m))
        → tcp2_at m.store.records place ≡ Some r → ListensLate r }
{}

/// The network's code in the error of a stream:
///
/// - `none`: is none.
/// - `never`: is never refused.
/// - `quiet`: asks nothing, and leaves the machine unchanged.
pub fn errors_have_no_network_code()
    ensures none { (contexts : List WasiSocketsCtx) (m : Machine) (line ctx error : ℕ)
        (fields : List Field) (entries : List Entry) (after : Machine)
        → Answered contexts m line (Step.Call ctx (GuestCall.Names (NameCall.NetworkErrorCode error))) entries
        (Reply.Ok fields) after
        → fields ≡ Field.Absent ∷ [] }
    ensures never { (contexts : List WasiSocketsCtx) (m : Machine) (line ctx error : ℕ)
        (entries : List Entry) (word : CodeWord) (after : Machine)
        → Answered contexts m line (Step.Call ctx (GuestCall.Names (NameCall.NetworkErrorCode error))) entries
        (Reply.Err word) after
        → ⊥ }
    ensures quiet { (contexts : List WasiSocketsCtx) (m : Machine) (line ctx error : ℕ)
        (entries : List Entry) (reply : Reply) (after : Machine)
        → Answered contexts m line (Step.Call ctx (GuestCall.Names (NameCall.NetworkErrorCode error))) entries reply
        after
        → (entries ≡ []) × (after ≡ m) }
{}

/// What a drop releases.
///
/// - `socket`: a drop of a socket without live children is done; that is said where no call is
///   pending.
/// - `given_up`: it releases its listener, which refuses an arrival in hand and closes a connection
///   that wasn't taken; then the receiving half, if that is open, the sending half, if there is
///   one, and its network socket. Each call is answered done.
/// - `gone`: nothing is left of its record, nor a job.
/// - `plain`, `plain_leaves`: a drop of a network, a pollable, an error, a sink, a closed stream or
///   the input of a connection asks nothing and takes out its handle alone.
/// - `input_pipe`, `output_pipe`: a drop of a pipe's end asks nothing, and leaves nothing of the
///   pipe's record.
/// - `output`: a drop of a connection's output looks once at most.
/// - `table`, `not_live`: whatever was dropped, its handle alone is taken out, and isn't live any
///   more.
pub fn drops_give_up_what_is_open()
    ensures socket { (contexts : List WasiSocketsCtx) (m : Machine) (line ctx handle place : ℕ)
        (entries : List Entry) (reply : Reply) (after : Machine)
        → m.store.standing ≡ None → kind_at m.table handle ≡ Some (Kind.Tcp2 place)
        → children_of m.table.live handle ≡ []
        → Answered contexts m line (Step.Call ctx (GuestCall.Pollable (PollableCall.Drop handle))) entries reply after
        → reply ≡ Reply.Ok no_fields }
    ensures given_up { (contexts : List WasiSocketsCtx) (m : Machine) (line ctx handle : ℕ)
        (r : TcpRecord) (fields : List Field) (entries : List Entry) (after : Machine)
        → record_at m handle ≡ Some r
        → Answered contexts m line (Step.Call ctx (GuestCall.Pollable (PollableCall.Drop handle))) entries (Reply.Ok fields)
        after
        → entries ≡ socket_given_up (own_of line) r }
    ensures gone { (contexts : List WasiSocketsCtx) (m : Machine) (line ctx handle : ℕ)
        (r : TcpRecord) (fields : List Field) (entries : List Entry) (after : Machine)
        → record_at m handle ≡ Some r
        → Answered contexts m line (Step.Call ctx (GuestCall.Pollable (PollableCall.Drop handle))) entries (Reply.Ok fields)
        after
        → OfRecord m handle (λ place r. IsGone m handle place after) }
    ensures plain { (contexts : List WasiSocketsCtx) (m : Machine) (line ctx handle : ℕ)
        (kind : Kind) (entries : List Entry) (reply : Reply) (after : Machine)
        → kind_at m.table handle ≡ Some kind → GoesAtOnce kind
        → Answered contexts m line (Step.Call ctx (GuestCall.Pollable (PollableCall.Drop handle))) entries reply after →
        entries ≡ [] }
    ensures plain_leaves { (contexts : List WasiSocketsCtx) (m : Machine) (line ctx handle : ℕ)
        (kind : Kind) (entries : List Entry) (reply : Reply) (after : Machine)
        → kind_at m.table handle ≡ Some kind → GoesAtOnce kind → IsDropped reply
        → Answered contexts m line (Step.Call ctx (GuestCall.Pollable (PollableCall.Drop handle))) entries reply after
        → after ≡ without m handle }
    ensures input_pipe { (contexts : List WasiSocketsCtx) (m : Machine) (line ctx handle place : ℕ)
        (bytes : List ℕ) (fields : List Field) (entries : List Entry) (after : Machine)
        → kind_at m.table handle ≡ Some (Kind.PlainInput (PlainInput.Pipe place))
        → input_pipe_at m.store.records place ≡ Some bytes
        → Answered contexts m line (Step.Call ctx (GuestCall.Pollable (PollableCall.Drop handle))) entries (Reply.Ok fields)
        after
        → (entries ≡ []) × (after ≡ giving_back (without m handle) place) }
    ensures output_pipe { (contexts : List WasiSocketsCtx) (m : Machine) (line ctx handle place : ℕ)
        (pipe : Contents) (fields : List Field) (entries : List Entry) (after : Machine)
        → kind_at m.table handle ≡ Some (Kind.PlainOutput (PlainOutput.Pipe place))
        → output_pipe_at m.store.records place ≡ Some pipe
        → Answered contexts m line (Step.Call ctx (GuestCall.Pollable (PollableCall.Drop handle))) entries (Reply.Ok fields)
        after
        → (entries ≡ []) × (after ≡ giving_back (without m handle) place) }
    ensures output { (contexts : List WasiSocketsCtx) (m : Machine) (line ctx handle place : ℕ)
        (entries : List Entry) (reply : Reply) (after : Machine)
        → kind_at m.table handle ≡ Some (Kind.Output place)
        → Answered contexts m line (Step.Call ctx (GuestCall.Pollable (PollableCall.Drop handle))) entries reply after
        → LooksOnce (own_of line) entries }
    ensures table { (contexts : List WasiSocketsCtx) (m : Machine) (line ctx handle : ℕ)
        (entries : List Entry) (reply : Reply) (after : Machine)
        → IsDropped reply → Answered contexts m line (Step.Call ctx (GuestCall.Pollable (PollableCall.Drop handle))) entries
        reply after
        → after.table ≡ without_handle m.table handle }
    ensures not_live { (contexts : List WasiSocketsCtx) (m : Machine) (line ctx handle : ℕ)
        (entries : List Entry) (reply : Reply) (after : Machine)
        → IsDropped reply → Answered contexts m line (Step.Call ctx (GuestCall.Pollable (PollableCall.Drop handle))) entries
        reply after
        → kind_at after.table handle ≡ None }
{}

/// What a turn does.
///
/// - `ok`: it answers `ok`.
/// - `asked`: each call is made by the operation of a job: a write, a send, a receive or a lookup
///   in progress.
/// - `handles`: the handles are unchanged.
/// - `lookups`: a lookup is unchanged, or it was in progress, and has found the addresses, or
///   failed with the code, that its operation was answered in the turn.
/// - `pending`: the pending call is unchanged.
/// - `sockets`, `streams`: each socket is still there, and those with streams still have them.
/// - `pipes`: each pipe holds what it held.
pub fn turns_are_ok()
    ensures ok { (contexts : List WasiSocketsCtx) (m : Machine) (line : ℕ) (entries : List Entry)
        (reply : Reply) (after : Machine)
        → Answered contexts m line Step.Turn entries reply after → reply ≡ Reply.Ok no_fields }
    ensures asked { (contexts : List WasiSocketsCtx) (m : Machine) (line : ℕ) (entries : List Entry)
        (reply : Reply) (after : Machine)
        → Answered contexts m line Step.Turn entries reply after → (e : Entry) → Has entries e
        → IsOfJob m e.op }
    ensures handles { (contexts : List WasiSocketsCtx) (m : Machine) (line : ℕ)
        (entries : List Entry) (reply : Reply) (after : Machine)
        → Answered contexts m line Step.Turn entries reply after → after.table ≡ m.table }
    ensures lookups { (contexts : List WasiSocketsCtx) (m : Machine) (line place : ℕ) (l : Lookup)
        (entries : List Entry) (reply : Reply) (after : Machine)
        → Answered contexts m line Step.Turn entries reply after
        → lookup_at after.store.records place ≡ Some l → LookedOn m place entries l }
    ensures pending { (contexts : List WasiSocketsCtx) (m : Machine) (line : ℕ)
        (entries : List Entry) (reply : Reply) (after : Machine)
        → Answered contexts m line Step.Turn entries reply after
        → after.store.standing ≡ m.store.standing }
    ensures sockets { (contexts : List WasiSocketsCtx) (m : Machine) (line place : ℕ)
        (entries : List Entry) (reply : Reply) (after : Machine)
        → Answered contexts m line Step.Turn entries reply after
        → (IsSome (tcp2_at m.store.records place) → IsSome (tcp2_at after.store.records place))
        × (IsSome (open_at m.store.records place) → IsSome (open_at after.store.records place)) }
    ensures streams { (contexts : List WasiSocketsCtx) (m : Machine) (line place : ℕ)
        (entries : List Entry) (reply : Reply) (after : Machine)
        → Answered contexts m line Step.Turn entries reply after
        → IsSome (streams_in (tcp2_at m.store.records place))
        → IsSome (streams_in (tcp2_at after.store.records place)) }
    ensures pipes { (contexts : List WasiSocketsCtx) (m : Machine) (line place : ℕ)
        (entries : List Entry) (reply : Reply) (after : Machine)
        → Answered contexts m line Step.Turn entries reply after
        → (input_pipe_at after.store.records place ≡ input_pipe_at m.store.records place)
        × (output_pipe_at after.store.records place ≡ output_pipe_at m.store.records place) }
{}
