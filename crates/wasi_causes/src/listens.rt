//! Where the answers of listens and accepts come from: laws over the definitions of specs/. Each is
//! a function that does nothing, whose contract is the law.

ghost use Rattle.std.specs.Prelude.{◌≡◌, ◌⊎◌, ◌↔◌, ⊤, ℕ, ◌+◌, List, [], ◌∷◌, ◌++◌};
ghost use Rattle.std.specs.Prelude.{Option, Some, None};
ghost use Rattle.wasi_addr.specs.declared.code.ErrorCode.{ErrorCode};
ghost use Rattle.wasi_world.specs.declared.call.Entry.{Entry};
ghost use Rattle.wasi_world.specs.declared.ids.Ids.{Ids};
ghost use Rattle.wasi_world.specs.declared.outcome.WasiSocketsCtx.{WasiSocketsCtx};
ghost use Rattle.wasi_world.specs.Asks.{Give, Left};
ghost use Rattle.wasi_tcp.specs.declared.socket.TcpState.{TcpState};
ghost use Rattle.tcp_records.specs.declared.socket.TcpRecord.{TcpRecord};
ghost use Rattle.wasi_records.specs.Records.{tcp2_at};
ghost use Rattle.host_store.specs.declared.machine.Machine.{Machine};
ghost use Rattle.host_store.specs.declared.store.StandingCall.{StandingCall};
ghost use Rattle.host_store.specs.Standing.{standing_as};
ghost use Rattle.host_store.specs.Machine.{first_state, own_of};
ghost use Rattle.wasi_steps.specs.declared.reply.CodeWord.{CodeWord};
ghost use Rattle.wasi_steps.specs.declared.reply.CodeWord.TheVariants as CodeWord;
ghost use Rattle.wasi_steps.specs.declared.reply.Field.{Field};
ghost use Rattle.wasi_steps.specs.declared.reply.Reply.{Reply};
ghost use Rattle.wasi_steps.specs.declared.reply.Reply.TheVariants as Reply;
ghost use Rattle.wasi_steps.specs.declared.step.Step.{Step};
ghost use Rattle.wasi_steps.specs.declared.guest_call.GuestCall.TheVariants as GuestCall;
ghost use Rattle.wasi_steps.specs.declared.guest_call.TcpCall.TheVariants as TcpCall;
ghost use Rattle.wasi_steps.specs.declared.step.Step.TheVariants as Step;
ghost use Rattle.wasi_walks.specs.Answered.{Answered, HasOperationInProgress, KnowsBound, OfRecord};
ghost use Rattle.wasi_walks.specs.Answered.{record_at};
ghost use Rattle.wasi_walks.specs.Listens.{HasNoListenInProgress, RefusedListen, closed_by_listen};
ghost use Rattle.wasi_walks.specs.Listens.{RefusedAccept, AcceptTakes, AcceptsAt};
ghost use Rattle.wasi_machine.specs.Machine.{run};
ghost use Rattle.wasi_steps.specs.Reply.{no_fields, triple_fields};
ghost use Rattle.wasi_walks.specs.Waiting.{WatchesAccept};
ghost use Rattle.wasi_causes.specs.P3Listens.{ListenerAccepts};
ghost use Rattle.wasi_causes.specs.Reached.{IsBeginning, IsClosedByListen, ListensLateAt};
ghost use Rattle.wasi_causes.specs.Reached.{ListensNoMore};

/// Why the finish of a listen is refused.
///
/// - `asks_nothing`: the finish of a listen asks nothing.
/// - `exactly`: it is refused with `not-in-progress` exactly where the socket has no listen in
///   progress; that is said where no call is pending.
/// - `no_other`: it is refused with no other code.
/// - `stays`: after a refusal the machine is unchanged.
pub fn finish_listen_refusals()
    ensures asks_nothing { (contexts : List WasiSocketsCtx) (m : Machine) (line ctx handle : ℕ)
        (entries : List Entry) (reply : Reply) (after : Machine)
        → Answered contexts m line (Step.Call ctx (GuestCall.Tcp (TcpCall.FinishListen handle))) entries reply
        after
        → entries ≡ [] }
    ensures exactly { (contexts : List WasiSocketsCtx) (m : Machine) (line ctx handle : ℕ)
        (entries : List Entry) (reply : Reply) (after : Machine)
        → m.store.standing ≡ None
        → Answered contexts m line (Step.Call ctx (GuestCall.Tcp (TcpCall.FinishListen handle))) entries reply
        after
        → (reply ≡ Reply.Err CodeWord.NotInProgress) ↔ HasNoListenInProgress (record_at m handle) }
    ensures no_other { (contexts : List WasiSocketsCtx) (m : Machine) (line ctx handle : ℕ)
        (entries : List Entry) (word : CodeWord) (after : Machine)
        → Answered contexts m line (Step.Call ctx (GuestCall.Tcp (TcpCall.FinishListen handle))) entries
        (Reply.Err word) after
        → word ≡ CodeWord.NotInProgress }
    ensures stays { (contexts : List WasiSocketsCtx) (m : Machine) (line ctx handle : ℕ)
        (entries : List Entry) (word : CodeWord) (after : Machine)
        → Answered contexts m line (Step.Call ctx (GuestCall.Tcp (TcpCall.FinishListen handle))) entries
        (Reply.Err word) after
        → after ≡ m }
{}

/// Why the start of a listen is refused, and what it leaves then.
///
/// - `exactly`: the start of a listen is refused with `concurrency-conflict` exactly where an
///   operation is in progress; that is said where no call is pending.
/// - `cause`: any refusal comes from that, from the tests of a listen, or from what the network
///   answered to its local address, the check of that address, or the listen.
/// - `stays`: after a refusal the machine is unchanged, but that a socket that was found bound is
///   known to be; or, after an answer of the network, the network socket was closed last, and the
///   socket stays closed with the code `unknown`, while the refusal returns the true one.
/// - `in_runs`: in a run there are no other causes.
///
/// `cause` assumes that a socket in the state Default has no listener and no listen in progress.
/// Every run keeps that (`runs_keep_their_records`).
pub fn start_listen_refusals()
    ensures exactly { (contexts : List WasiSocketsCtx) (m : Machine) (line ctx handle : ℕ)
        (entries : List Entry) (reply : Reply) (after : Machine)
        → m.store.standing ≡ None
        → Answered contexts m line (Step.Call ctx (GuestCall.Tcp (TcpCall.StartListen handle))) entries reply
        after
        → (reply ≡ Reply.Err CodeWord.ConcurrencyConflict)
        ↔ HasOperationInProgress (record_at m handle) }
    ensures cause { (contexts : List WasiSocketsCtx) (m : Machine) (line ctx handle : ℕ)
        (entries : List Entry) (word : CodeWord) (after : Machine)
        → ListensLateAt m handle
        → Answered contexts m line (Step.Call ctx (GuestCall.Tcp (TcpCall.StartListen handle))) entries
        (Reply.Err word) after
        → RefusedListen m (own_of line) handle entries word after }
    ensures stays { (contexts : List WasiSocketsCtx) (m : Machine) (line ctx handle : ℕ)
        (entries : List Entry) (word : CodeWord) (after : Machine)
        → Answered contexts m line (Step.Call ctx (GuestCall.Tcp (TcpCall.StartListen handle))) entries
        (Reply.Err word) after
        → (after ≡ m) ⊎ (KnowsBound m handle after ⊎ OfRecord m handle
        (λ place r. after ≡ closed_by_listen m place r)) }
    ensures in_runs { (contexts : List WasiSocketsCtx) (steps : List Step) (log : List Entry)
        (replies : List Reply) (m : Machine) (line ctx handle : ℕ) (entries : List Entry)
        (word : CodeWord) (after : Machine)
        → Left (run contexts [] first_state 1 steps) log (Give (replies, m))
        → Answered contexts m line (Step.Call ctx (GuestCall.Tcp (TcpCall.StartListen handle))) entries
        (Reply.Err word) after
        → RefusedListen m (own_of line) handle entries word after }
{}

/// What a listen leaves that was pending and then failed or was cancelled: a closed socket, whose
/// code is `unknown` from then on. All of this is said of a run.
///
/// - `begins`: while a listen of a socket is in progress, the socket is closed with that code.
/// - `fails`: after a poll of it that is refused the socket is closed with that code, whatever the
///   code is by which the listen failed, and no listen is in progress.
/// - `cancelled`: likewise after a cancel of it.
pub fn listens_leave_a_closed_socket()
    ensures begins { (contexts : List WasiSocketsCtx) (steps : List Step) (log : List Entry)
        (replies : List Reply) (m : Machine) (place : ℕ) (r : TcpRecord)
        → Left (run contexts [] first_state 1 steps) log (Give (replies, m))
        → tcp2_at m.store.records place ≡ Some r → IsBeginning r.listening
        → r.inner.state ≡ TcpState.Closed ErrorCode.Other }
    ensures fails { (contexts : List WasiSocketsCtx) (steps : List Step) (log : List Entry)
        (replies : List Reply) (m : Machine) (line place : ℕ) (marks : Option ℕ) (ids : Ids)
        (entries : List Entry) (word : CodeWord) (after : Machine)
        → Left (run contexts [] first_state 1 steps) log (Give (replies, m))
        → m.store.standing ≡ Some (standing_as ids (StandingCall.Listen place marks))
        → Answered contexts m line (Step.Poll ids.line) entries (Reply.Err word) after
        → IsClosedByListen after place × ListensNoMore after place }
    ensures cancelled { (contexts : List WasiSocketsCtx) (steps : List Step) (log : List Entry)
        (replies : List Reply) (m : Machine) (line place : ℕ) (marks : Option ℕ) (ids : Ids)
        (fields : List Field) (entries : List Entry) (after : Machine)
        → Left (run contexts [] first_state 1 steps) log (Give (replies, m))
        → m.store.standing ≡ Some (standing_as ids (StandingCall.Listen place marks))
        → Answered contexts m line (Step.Cancel ids.line) entries (Reply.Ok fields) after
        → IsClosedByListen after place × ListensNoMore after place }
{}

/// Why an accept is refused:
///
/// - `invalid-state`: the socket has no listener; nothing is asked.
/// - `would-block`: the last call of the accept was answered pending, or it has refused 64
///   arrivals; the accept stays in progress.
/// - The code that the accept was answered, now or before; the accept is over.
///
/// Assumes that a listener accepts by an accept. Every run keeps that (`runs_accept_by_accepts`).
pub fn accept_refusals()
    ensures { (contexts : List WasiSocketsCtx) (m : Machine) (line ctx handle : ℕ)
        (entries : List Entry) (word : CodeWord) (after : Machine)
        → AcceptsAt m handle → Answered contexts m line (Step.Call ctx (GuestCall.Tcp (TcpCall.Accept handle)))
        entries (Reply.Err word) after
        → RefusedAccept m line handle entries word after }
{}

/// What an accept gives.
///
/// - `numbers`: an accept that is done answers with the next three handles: its socket, its input
///   and its output.
/// - `takes`: before their entries the last call handed the connection over, or it was handed over
///   before and wasn't taken. The new socket is connected on it, with the address of the peer.
///
/// `takes` assumes that a listener accepts by an accept. Every run keeps that
/// (`runs_accept_by_accepts`).
pub fn accepts_take_what_was_handed_over()
    ensures numbers { (contexts : List WasiSocketsCtx) (m : Machine) (line ctx handle : ℕ)
        (fields : List Field) (entries : List Entry) (after : Machine)
        → Answered contexts m line (Step.Call ctx (GuestCall.Tcp (TcpCall.Accept handle))) entries
        (Reply.Ok fields) after
        → fields ≡ triple_fields m.table.next (m.table.next + 1) (m.table.next + 2) }
    ensures takes { (contexts : List WasiSocketsCtx) (m : Machine) (line ctx handle : ℕ)
        (fields : List Field) (entries : List Entry) (after : Machine)
        → AcceptsAt m handle → Answered contexts m line (Step.Call ctx (GuestCall.Tcp (TcpCall.Accept handle)))
        entries (Reply.Ok fields) after
        → OfRecord m handle (λ place r. AcceptTakes m (own_of line) line handle place r entries
        after) }
{}

/// After any script, what a listener accepts by is an accept.
///
/// - `handles`: for the socket of each handle.
/// - `listeners`: for the socket of each handle of a 0.3 listener.
/// - `pollables`: for the socket that each pollable watches.
pub fn runs_accept_by_accepts()
    ensures handles { (contexts : List WasiSocketsCtx) (steps : List Step) (entries : List Entry)
        (replies : List Reply) (m : Machine)
        → Left (run contexts [] first_state 1 steps) entries (Give (replies, m)) → (handle : ℕ)
        → AcceptsAt m handle }
    ensures listeners { (contexts : List WasiSocketsCtx) (steps : List Step) (entries : List Entry)
        (replies : List Reply) (m : Machine)
        → Left (run contexts [] first_state 1 steps) entries (Give (replies, m)) → (handle : ℕ)
        → ListenerAccepts m handle }
    ensures pollables { (contexts : List WasiSocketsCtx) (steps : List Step) (entries : List Entry)
        (replies : List Reply) (m : Machine)
        → Left (run contexts [] first_state 1 steps) entries (Give (replies, m)) → (pollable : ℕ)
        → WatchesAccept m pollable }
{}
