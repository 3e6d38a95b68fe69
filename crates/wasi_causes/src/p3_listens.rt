//! Where the answers of the listens of 0.3 sockets and of the accepts of their listeners come from,
//! and what is left then: laws over the definitions of specs/. Each is a function that does
//! nothing, whose contract is the law.

ghost use Rattle.std.specs.Prelude.{◌≡◌, ℕ, true, false, List, [], Some, None};
ghost use Rattle.wasi_world.specs.declared.call.Entry.{Entry};
ghost use Rattle.wasi_world.specs.declared.ids.Ids.{Ids};
ghost use Rattle.wasi_world.specs.declared.outcome.TrapKind.TheVariants as TrapKind;
ghost use Rattle.wasi_world.specs.declared.outcome.WasiSocketsCtx.{WasiSocketsCtx};
ghost use Rattle.wasi_world.specs.Asks.{Give, Left};
ghost use Rattle.wasi_world.specs.Operation.{Operation};
ghost use Rattle.wasi_table.specs.Table.{children_of};
ghost use Rattle.tcp_records.specs.declared.socket.TcpRecord.{TcpRecord};
ghost use Rattle.tcp_records.specs.declared.tcp_listening.Listening.{Listening};
ghost use Rattle.tcp_records.specs.Holding.{is_held};
ghost use Rattle.tcp_records.specs.Listening.{with_listening};
ghost use Rattle.wasi_records.specs.Records.{tcp2_at};
ghost use Rattle.host_store.specs.declared.kind.Kind.{Kind};
ghost use Rattle.host_store.specs.declared.machine.Machine.{Machine};
ghost use Rattle.host_store.specs.declared.store.StandingCall.{StandingCall};
ghost use Rattle.host_store.specs.Kinds.{kind_at};
ghost use Rattle.host_store.specs.Machine.{first_state, own_of, tcp3_at};
ghost use Rattle.host_store.specs.Standing.{standing_as};
ghost use Rattle.host_store.specs.Store.{with_socket};
ghost use Rattle.wasi_machine.specs.Machine.{run};
ghost use Rattle.wasi_steps.specs.declared.guest_call.GuestCall.{GuestCall};
ghost use Rattle.wasi_steps.specs.declared.guest_call.PollableCall.{PollableCall};
ghost use Rattle.wasi_steps.specs.declared.guest_call.P3TcpCall.{P3TcpCall};
ghost use Rattle.wasi_steps.specs.declared.reply.CodeWord.{CodeWord};
ghost use Rattle.wasi_steps.specs.declared.reply.Field.{Field};
ghost use Rattle.wasi_steps.specs.declared.reply.Reply.{Reply};
ghost use Rattle.wasi_steps.specs.declared.step.Step.{Step};
ghost use Rattle.wasi_steps.specs.Reply.{no_fields};
ghost use Rattle.wasi_walks.specs.Answered.{Answered};
ghost use Rattle.wasi_walks.specs.Waiting.{IsListening};
ghost use Rattle.wasi_causes.specs.GivenUp.{IsGone, listening_given_up, socket_given_up, without};
ghost use Rattle.wasi_causes.specs.P3Listens.{AcceptGave, AcceptRefusal, ByListener, ListenPolled};
ghost use Rattle.wasi_causes.specs.P3Listens.{ListenStands, Listens, ListensUnnamed, NoneCame};
ghost use Rattle.wasi_causes.specs.P3Listens.{OfListener, P3ListenRefusal, TakesUnnamed};
ghost use Rattle.wasi_causes.specs.Refusals.{OfTcp3};

/// What a listen of a 0.3 socket asks, answers and leaves.
///
/// - `refused`: it is refused with `invalid-state` while an operation is in progress, where a
///   listen was begun before, or where the socket isn't in its first state, and then only that it
///   is bound is known from then on; with `access-denied` after a check that said no; or with the
///   code that the network answered to its local address, the bind or the listen. After an answer
///   of the network its network socket was closed last, and the socket stays closed with the code
///   `other`.
/// - `done`: each check said yes, and the listen was done: of a socket that is bound its local
///   address was asked for and checked; one that isn't was checked for a bind and for a listen at
///   the wildcard, and bound to it. The listener has the next handle, whose mark names the socket's
///   as its parent, and the socket's network socket; nothing is in progress.
/// - `pending`: one that is pending waits for its last check; it is in progress in its record, by
///   what is left, and the call is pending under its line's number, with the handle of its socket.
/// - `full`: with no room for the handle the socket listens all the same, and has no listener's
///   handle.
pub fn p3_listens()
    ensures refused { (contexts : List WasiSocketsCtx) (m : Machine) (line ctx handle : ℕ)
        (entries : List Entry) (word : CodeWord) (after : Machine)
        → Answered contexts m line (Step.Call ctx (GuestCall.P3Tcp (P3TcpCall.Listen handle))) entries
        (Reply.Err word) after
        → P3ListenRefusal m (own_of line) handle entries word after }
    ensures done { (contexts : List WasiSocketsCtx) (m : Machine) (line ctx handle : ℕ)
        (entries : List Entry) (fields : List Field) (after : Machine)
        → Answered contexts m line (Step.Call ctx (GuestCall.P3Tcp (P3TcpCall.Listen handle))) entries
        (Reply.Ok fields) after
        → OfTcp3 m handle (λ place r. Listens m (own_of line) handle place r entries fields after) }
    ensures pending { (contexts : List WasiSocketsCtx) (m : Machine) (line ctx handle : ℕ)
        (entries : List Entry) (number : ℕ) (after : Machine)
        → Answered contexts m line (Step.Call ctx (GuestCall.P3Tcp (P3TcpCall.Listen handle))) entries
        (Reply.Pending number) after
        → OfTcp3 m handle (λ place r. ListenStands m line handle place r entries after) }
    ensures full { (contexts : List WasiSocketsCtx) (m : Machine) (line ctx handle : ℕ)
        (entries : List Entry) (after : Machine)
        → Answered contexts m line (Step.Call ctx (GuestCall.P3Tcp (P3TcpCall.Listen handle))) entries
        (Reply.Trap TrapKind.Full) after
        → OfTcp3 m handle (λ place r. ListensUnnamed m (own_of line) place r entries after) }
{}

/// What a poll of such a listen that is pending asks, answers and leaves: what is left of it goes
/// on from the check that was answered pending. It is pending still, by what is left then; or is
/// done, and its listener has the next handle, if there is room for it; or a check said no, or the
/// bind or the listen was answered with a code. Only the first leaves a call pending.
///
/// - `polled`: that is said where the handle that the listen was asked of is its socket's still,
///   and what is left of the listen is a listen's.
/// - `in_runs`: in a run that is so.
pub fn polls_of_p3_listens()
    ensures polled { (contexts : List WasiSocketsCtx) (m : Machine) (line place handle : ℕ)
        (ids : Ids) (r : TcpRecord) (op : Operation) (entries : List Entry) (reply : Reply)
        (after : Machine)
        → m.store.standing ≡ Some (standing_as ids (StandingCall.Listen place (Some handle)))
        → tcp3_at m handle ≡ Some place → tcp2_at m.store.records place ≡ Some r
        → r.listening ≡ Listening.Begins op → IsListening r.inner.state (Listening.Begins op)
        → Answered contexts m line (Step.Poll ids.line) entries reply after
        → ListenPolled m ids.line handle place r op entries reply after }
    ensures in_runs { (contexts : List WasiSocketsCtx) (steps : List Step) (log : List Entry)
        (replies : List Reply) (m : Machine) (line place handle : ℕ) (ids : Ids) (r : TcpRecord)
        (op : Operation) (entries : List Entry) (reply : Reply) (after : Machine)
        → Left (run contexts [] first_state 1 steps) log (Give (replies, m))
        → m.store.standing ≡ Some (standing_as ids (StandingCall.Listen place (Some handle)))
        → tcp2_at m.store.records place ≡ Some r → r.listening ≡ Listening.Begins op
        → Answered contexts m line (Step.Poll ids.line) entries reply after
        → ListenPolled m ids.line handle place r op entries reply after }
{}

/// What an accept of a listener asks, answers and leaves. All but `refused` and `never` is said
/// where what the listener accepts by is an accept. Every run keeps that
/// (`runs_accept_by_accepts`).
///
/// - `gives`: where nothing remains to be handed out it answers with nothing: something has come, a
///   connection or the code of a fault, which the listener keeps. Else it hands over what has come,
///   and the listener has nothing in hand: the new socket is connected on the connection that was
///   handed over, or is closed with the fault's code and has no network socket. It has a record
///   of its own and the next handle, whose mark names the listener's as its parent.
/// - `cancelled`: nothing has come: the last ask of the accept was answered pending, or it has
///   refused 64 arrivals. It goes on in the next poll of its listener.
/// - `refused`: it is refused with `invalid-state` where its socket has no listener; nothing is
///   asked, and the machine is unchanged.
/// - `never`: in a run it isn't refused.
/// - `full`: with no room for the handle what has come is taken all the same, and has its record.
pub fn p3_accepts()
    ensures gives { (contexts : List WasiSocketsCtx) (m : Machine) (line ctx handle : ℕ)
        (remaining : ℕ) (entries : List Entry) (fields : List Field) (after : Machine)
        → Answered contexts m line (Step.Call ctx (GuestCall.P3Tcp (P3TcpCall.Accept handle remaining))) entries
        (Reply.Ok fields) after
        → OfListener m handle (λ place r. ByListener r (λ l. AcceptGave m line handle remaining
        place r l entries fields after)) }
    ensures cancelled { (contexts : List WasiSocketsCtx) (m : Machine) (line ctx handle : ℕ)
        (remaining : ℕ) (entries : List Entry) (after : Machine)
        → Answered contexts m line (Step.Call ctx (GuestCall.P3Tcp (P3TcpCall.Accept handle remaining))) entries
        Reply.Cancelled after
        → OfListener m handle (λ place r. ByListener r (λ l. NoneCame m line place r l entries
        after)) }
    ensures refused { (contexts : List WasiSocketsCtx) (m : Machine) (line ctx handle : ℕ)
        (remaining : ℕ) (entries : List Entry) (word : CodeWord) (after : Machine)
        → Answered contexts m line (Step.Call ctx (GuestCall.P3Tcp (P3TcpCall.Accept handle remaining))) entries
        (Reply.Err word) after
        → AcceptRefusal m handle entries word after }
    ensures never { (contexts : List WasiSocketsCtx) (steps : List Step) (log : List Entry)
        (replies : List Reply) (m : Machine) (line ctx handle remaining : ℕ)
        (entries : List Entry) (word : CodeWord) (after : Machine)
        → Left (run contexts [] first_state 1 steps) log (Give (replies, m))
        → Answered contexts m line (Step.Call ctx (GuestCall.P3Tcp (P3TcpCall.Accept handle remaining))) entries
        (Reply.Err word) after
        → ⊥ }
    ensures full { (contexts : List WasiSocketsCtx) (m : Machine) (line ctx handle : ℕ)
        (remaining : ℕ) (entries : List Entry) (after : Machine)
        → Answered contexts m line (Step.Call ctx (GuestCall.P3Tcp (P3TcpCall.Accept handle remaining))) entries
        (Reply.Trap TrapKind.Full) after
        → OfListener m handle (λ place r. ByListener r (λ l. TakesUnnamed m line place r l entries
        after)) }
{}

/// What a drop of a listener releases, first of all what its socket listens by: an arrival in hand
/// is refused, and a connection that isn't taken is closed.
///
/// - `done`: where it has no live children it is done; that is said where no call is pending.
/// - `given_up`: where nothing else holds the network socket, it releases the open halves and the
///   network socket, too.
/// - `gone`: nothing is left of the record then, nor a job.
/// - `kept`: while the socket's handle or an open half holds it, the record stays, and listens no
///   more.
pub fn p3_listeners_are_dropped()
    ensures done { (contexts : List WasiSocketsCtx) (m : Machine) (line ctx handle place : ℕ)
        (entries : List Entry) (reply : Reply) (after : Machine)
        → m.store.standing ≡ None → kind_at m.table handle ≡ Some (Kind.Listen3 place)
        → children_of m.table.live handle ≡ []
        → Answered contexts m line (Step.Call ctx (GuestCall.Pollable (PollableCall.Drop handle))) entries reply after
        → reply ≡ Reply.Ok no_fields }
    ensures given_up { (contexts : List WasiSocketsCtx) (m : Machine) (line ctx handle place : ℕ)
        (r : TcpRecord) (fields : List Field) (entries : List Entry) (after : Machine)
        → kind_at m.table handle ≡ Some (Kind.Listen3 place)
        → tcp2_at m.store.records place ≡ Some r
        → is_held (with_listening r Listening.Not) ≡ false
        → Answered contexts m line (Step.Call ctx (GuestCall.Pollable (PollableCall.Drop handle))) entries
        (Reply.Ok fields) after → entries ≡ socket_given_up (own_of line) r }
    ensures gone { (contexts : List WasiSocketsCtx) (m : Machine) (line ctx handle place : ℕ)
        (r : TcpRecord) (fields : List Field) (entries : List Entry) (after : Machine)
        → kind_at m.table handle ≡ Some (Kind.Listen3 place)
        → tcp2_at m.store.records place ≡ Some r
        → is_held (with_listening r Listening.Not) ≡ false
        → Answered contexts m line (Step.Call ctx (GuestCall.Pollable (PollableCall.Drop handle))) entries
        (Reply.Ok fields) after → IsGone m handle place after }
    ensures kept { (contexts : List WasiSocketsCtx) (m : Machine) (line ctx handle place : ℕ)
        (r : TcpRecord) (fields : List Field) (entries : List Entry) (after : Machine)
        → kind_at m.table handle ≡ Some (Kind.Listen3 place)
        → tcp2_at m.store.records place ≡ Some r
        → is_held (with_listening r Listening.Not) ≡ true
        → Answered contexts m line (Step.Call ctx (GuestCall.Pollable (PollableCall.Drop handle))) entries
        (Reply.Ok fields) after → (entries ≡ listening_given_up r.listening)
        × (after ≡ record (without m handle)
        { store = with_socket m.store place (with_listening r Listening.Not) }) }
{}
