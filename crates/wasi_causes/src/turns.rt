//! What turns and looks ask and leave: laws over the definitions of specs/. Each is a function that does
//! nothing, whose contract is the law.

ghost use Rattle.std.specs.Prelude.{◌≡◌, ℕ, Bool, true, List, [], Some};
ghost use Rattle.wasi_world.specs.declared.call.Entry.{Entry};
ghost use Rattle.wasi_world.specs.declared.ids.Ids.{Ids};
ghost use Rattle.wasi_world.specs.declared.outcome.WasiSocketsCtx.{WasiSocketsCtx};
ghost use Rattle.wasi_world.specs.Asks.{Give, Left};
ghost use Rattle.wasi_world.specs.Operation.{End, Item, Operation};
ghost use Rattle.wasi_tcp.specs.Listener.{HoldsAccept, Listener};
ghost use Rattle.wasi_tcp.specs.declared.socket.TcpState.TheVariants as TcpState;
ghost use Rattle.wasi_udp.specs.Send.{IsSend};
ghost use Rattle.tcp_records.specs.InProgress.{is_connect, is_nothing};
ghost use Rattle.wasi_records.specs.Records.{open_at, tcp2_at};
ghost use Rattle.udp_records.specs.declared.datagrams.Incoming.{Incoming};
ghost use Rattle.tcp_records.specs.declared.socket.TcpRecord.{TcpRecord};
ghost use Rattle.tcp_records.specs.declared.tcp_listening.Listening.TheVariants as Listening;
ghost use Rattle.udp_records.specs.declared.udp.OpenUdp.{OpenUdp};
ghost use Rattle.host_store.specs.declared.kind.Watched.TheVariants as Watched;
ghost use Rattle.host_store.specs.declared.machine.Machine.{Machine};
ghost use Rattle.wasi_host.specs.declared.polling.Look.TheVariants as Look;
ghost use Rattle.host_store.specs.Kinds.{kind_at, watch_of};
ghost use Rattle.host_store.specs.Machine.{first_state};
ghost use Rattle.wasi_machine.specs.Machine.{run};
ghost use Rattle.wasi_steps.specs.declared.reply.Reply.{Reply};
ghost use Rattle.wasi_steps.specs.declared.step.Step.{Step};
ghost use Rattle.wasi_walks.specs.Answered.{Answered};
ghost use Rattle.wasi_causes.specs.LookPolls.{AcceptLooked, ConnectLooked, ReceiveLooked};
ghost use Rattle.wasi_causes.specs.PollableCalls.{Finds};
ghost use Rattle.wasi_causes.specs.TurnPolls.{JobsPolled, PolledOnce, SendTold};

/// In a run a turn polls each of its jobs once, in the order of their making, and asks nothing
/// else.
///
/// - `each`: its calls are those of one poll of each job, one job after the other. What is left of
///   a job is what its poll left: it is in progress with the rest where the poll waits, and keeps
///   the code where it ended with one; else a write is done, nothing is left of a datagram, a
///   receive has the datagram that it gave, and a lookup the names. No other record changes. A job
///   stays one exactly where it is in progress then.
/// - `sends`: a poll of a datagram waits only where its last call was answered pending, and ends
///   with a code only for a cause: it can't be sent so, a check of it was answered no, it was for
///   a remote address that has changed, or its last call was answered with the code.
pub fn turns_poll_each_job_once()
    ensures each { (contexts : List WasiSocketsCtx) (steps : List Step) (log : List Entry)
        (replies : List Reply) (m : Machine) (line : ℕ) (entries : List Entry) (reply : Reply)
        (after : Machine)
        → Left (run contexts [] first_state 1 steps) log (Give (replies, m))
        → Answered contexts m line Step.Turn entries reply after
        → JobsPolled m.store.jobs m.store.records entries after.store.jobs after.store.records }
    ensures sends { (op : Operation) (entries : List Entry) (ended : End × List Item)
        → IsSend op → PolledOnce op entries ended → SendTold op entries ended.0 }
{}

/// What a look at a pollable leaves of the operation that it polls. A look is one of a `ready`, of a
/// `block` or of a `poll-list`.
///
/// - `connect`: a connect in progress is polled once. Ready, the socket is connected, or closed with
///   the code; else it continues with what is left.
/// - `accept`: a listener's accept is polled once, or one that the look begins; where it has its
///   connection or its code already nothing is asked. Ready, it has a connection or a code; else it
///   continues with what is left. That is said where the listener accepts by an accept, as in runs.
/// - `receive`: where an incoming datagram stream has no receive, one is begun, and polled once; else
///   nothing is asked. Ready, it has the datagram or the code; else the receive continues with what
///   is left.
pub fn looks_leave_what_their_poll_left()
    ensures connect { (m : Machine) (ids : Ids) (pollable place : ℕ) (entries : List Entry)
        (ready : Bool) (after : Machine) (r : TcpRecord) (op : Operation)
        → Finds m ids pollable Look.First entries ready after
        → watch_of (kind_at m.table pollable) ≡ Some (Watched.Socket place)
        → tcp2_at m.store.records place ≡ Some r → is_connect r.in_progress ≡ true
        → r.inner.state ≡ TcpState.Connecting op
        → ConnectLooked m place r op entries ready after }
    ensures accept { (m : Machine) (ids : Ids) (pollable place : ℕ) (entries : List Entry)
        (ready : Bool) (after : Machine) (r : TcpRecord) (l : Listener)
        → Finds m ids pollable Look.First entries ready after
        → watch_of (kind_at m.table pollable) ≡ Some (Watched.Socket place)
        → tcp2_at m.store.records place ≡ Some r → is_nothing r.in_progress ≡ true
        → r.listening ≡ Listening.Accepts l → HoldsAccept l.side l.maker l.accept
        → AcceptLooked m place r l ids entries ready after }
    ensures receive { (m : Machine) (ids : Ids) (pollable place : ℕ) (entries : List Entry)
        (ready : Bool) (after : Machine) (o : OpenUdp) (incoming : Incoming)
        → Finds m ids pollable Look.First entries ready after
        → watch_of (kind_at m.table pollable) ≡ Some (Watched.Incoming place)
        → open_at m.store.records place ≡ Some o → o.incoming ≡ Some incoming
        → ReceiveLooked m place o incoming ids entries ready after }
{}
