//! Where the answers of the connects of 0.3 TCP sockets come from, and what is left then: laws over
//! the definitions of specs/. Each is a function that does nothing, whose contract is the law.

ghost use Rattle.std.specs.Prelude.{◌≡◌, ℕ, List, []};
ghost use Rattle.std.specs.Prelude.{Some, None};
ghost use Rattle.wasi_addr.specs.declared.address.IpSocketAddress.{IpSocketAddress};
ghost use Rattle.wasi_world.specs.declared.call.Entry.{Entry};
ghost use Rattle.wasi_world.specs.declared.outcome.WasiSocketsCtx.{WasiSocketsCtx};
ghost use Rattle.tcp_records.specs.declared.socket.TcpRecord.{TcpRecord};
ghost use Rattle.wasi_records.specs.Records.{tcp2_at};
ghost use Rattle.host_store.specs.declared.beside.BesideCall.{BesideCall};
ghost use Rattle.host_store.specs.declared.machine.Machine.{Machine};
ghost use Rattle.host_store.specs.Beside.{beside_as, beside_of};
ghost use Rattle.host_store.specs.Machine.{own_of};
ghost use Rattle.wasi_steps.specs.declared.guest_call.GuestCall.{GuestCall};
ghost use Rattle.wasi_steps.specs.declared.guest_call.P3TcpCall.{P3TcpCall};
ghost use Rattle.wasi_steps.specs.declared.reply.CodeWord.{CodeWord};
ghost use Rattle.wasi_steps.specs.declared.reply.Field.{Field};
ghost use Rattle.wasi_steps.specs.declared.reply.Reply.{Reply};
ghost use Rattle.wasi_steps.specs.declared.step.Step.{Step};
ghost use Rattle.wasi_walks.specs.Answered.{Answered, ConnectsOn};
ghost use Rattle.wasi_causes.specs.P3Connects.{BesideCancelled, ConnectStands, Connects, IsBeside};
ghost use Rattle.wasi_causes.specs.P3Connects.{P3ConnectRefusal, SocketIsGone, SocketPolled};
ghost use Rattle.wasi_causes.specs.Refusals.{OfTcp3};

/// What a connect of a 0.3 TCP socket asks, answers and leaves.
///
/// - `refused`: it is refused with `invalid-state` where an operation is in progress, or the socket
///   isn't in its first state; with `invalid-argument` for an address that it may not connect to;
///   with `access-denied` after a check that said no; or with the code that the connect was
///   answered. After a check or an answer its network socket was closed last.
/// - `done`: of one that is done each check said yes, and the connect was answered done.
/// - `pending`: of one that is pending the last call was answered so; the socket is connecting, and
///   the call stands beside others under its line's number.
pub fn p3_connects()
    ensures refused { (contexts : List WasiSocketsCtx) (m : Machine) (line ctx handle : ℕ)
        (a : IpSocketAddress) (entries : List Entry) (word : CodeWord) (after : Machine)
        → Answered contexts m line (Step.Call ctx (GuestCall.P3Tcp (P3TcpCall.Connect handle a))) entries
        (Reply.Err word) after
        → P3ConnectRefusal m (own_of line) handle a entries word after }
    ensures done { (contexts : List WasiSocketsCtx) (m : Machine) (line ctx handle : ℕ)
        (a : IpSocketAddress) (entries : List Entry) (fields : List Field) (after : Machine)
        → Answered contexts m line (Step.Call ctx (GuestCall.P3Tcp (P3TcpCall.Connect handle a))) entries
        (Reply.Ok fields) after
        → OfTcp3 m handle (λ place r. Connects m (own_of line) place r a entries after) }
    ensures pending { (contexts : List WasiSocketsCtx) (m : Machine) (line ctx handle : ℕ)
        (a : IpSocketAddress) (entries : List Entry) (number : ℕ) (after : Machine)
        → Answered contexts m line (Step.Call ctx (GuestCall.P3Tcp (P3TcpCall.Connect handle a))) entries
        (Reply.Pending number) after
        → OfTcp3 m handle (λ place r. ConnectStands m line place r a entries after) }
{}

/// What a poll of a connect that stands beside others answers, unless it is busy, and what a cancel
/// of it leaves.
///
/// - `gone`: where its socket was dropped it traps with `NoSuchHandle`; nothing is asked, and the
///   call is over.
/// - `polled`: the socket still connects, and the last call was answered pending; or it is connected;
///   or a check said no, or the connect was answered with a code: then its network socket was closed
///   last, and the socket is closed with that code. Only the first leaves the call pending.
/// - `cancelled`: nothing is asked; the call is over, and the socket keeps connecting. So is a lookup,
///   and a datagram (`polls_of_sends`, `polls_of_receives`).
///
/// `polled` assumes that the socket connects by a connect.
pub fn polls_of_connects()
    ensures gone { (contexts : List WasiSocketsCtx) (m : Machine) (line n place : ℕ)
        (entries : List Entry) (reply : Reply) (after : Machine)
        → IsBeside m n → beside_of m.store n ≡ Some (beside_as n (BesideCall.Connect place))
        → tcp2_at m.store.records place ≡ None → (reply ≡ Reply.Busy → ⊥)
        → Answered contexts m line (Step.Poll n) entries reply after
        → SocketIsGone m n entries reply after }
    ensures polled { (contexts : List WasiSocketsCtx) (m : Machine) (line n place : ℕ)
        (r : TcpRecord) (entries : List Entry) (reply : Reply) (after : Machine)
        → IsBeside m n → beside_of m.store n ≡ Some (beside_as n (BesideCall.Connect place))
        → tcp2_at m.store.records place ≡ Some r → ConnectsOn r.inner.state
        → (reply ≡ Reply.Busy → ⊥) → Answered contexts m line (Step.Poll n) entries reply after
        → SocketPolled m n place r entries reply after }
    ensures cancelled { (contexts : List WasiSocketsCtx) (m : Machine) (line n : ℕ)
        (entries : List Entry) (fields : List Field) (after : Machine)
        → IsBeside m n
        → Answered contexts m line (Step.Cancel n) entries (Reply.Ok fields) after
        → BesideCancelled m n entries after }
{}
