//! Where the answers of the datagrams of 0.3 come from, and what is left then: laws over the
//! definitions of specs/. Each is a function that does nothing, whose contract is the law.

ghost use Rattle.std.specs.Prelude.{◌≡◌, ℕ, true, false, List, [], ◌∷◌, Some};
ghost use Rattle.wasi_addr.specs.declared.address.IpSocketAddress.{IpSocketAddress};
ghost use Rattle.wasi_world.specs.declared.call.Entry.{Entry};
ghost use Rattle.wasi_world.specs.declared.datagram.OutgoingDatagram.{OutgoingDatagram};
ghost use Rattle.wasi_world.specs.declared.outcome.WasiSocketsCtx.{WasiSocketsCtx};
ghost use Rattle.wasi_world.specs.Asks.{Give, Left};
ghost use Rattle.wasi_world.specs.Operation as item;
ghost use Rattle.wasi_world.specs.Operation.{Operation, is_now};
ghost use Rattle.wasi_records.specs.Records.{open_at};
ghost use Rattle.udp_records.specs.declared.udp.OpenUdp.{OpenUdp};
ghost use Rattle.host_store.specs.declared.beside.BesideCall.{BesideCall};
ghost use Rattle.host_store.specs.declared.machine.Machine.{Machine};
ghost use Rattle.host_store.specs.Beside.{beside_as, beside_of};
ghost use Rattle.host_store.specs.Machine.{first_state, own_of};
ghost use Rattle.wasi_machine.specs.Machine.{run};
ghost use Rattle.wasi_steps.specs.declared.guest_call.GuestCall.{GuestCall};
ghost use Rattle.wasi_steps.specs.declared.guest_call.P3UdpCall.{P3UdpCall};
ghost use Rattle.wasi_steps.specs.declared.reply.CodeWord.{CodeWord};
ghost use Rattle.wasi_steps.specs.declared.reply.Field.{Field};
ghost use Rattle.wasi_steps.specs.declared.reply.Reply.{Reply};
ghost use Rattle.wasi_steps.specs.declared.step.Step.{Step};
ghost use Rattle.wasi_walks.specs.Answered.{Answered};
ghost use Rattle.wasi_causes.specs.P3Connects.{IsBeside};
ghost use Rattle.wasi_causes.specs.P3Datagrams.{DatagramOver, IsRestOfReceive, IsRestOfSend};
ghost use Rattle.wasi_causes.specs.P3Datagrams.{OfOpenUdp, P3ReceiveRefusal, P3SendRefusal};
ghost use Rattle.wasi_causes.specs.P3Datagrams.{ReceivePolled, ReceivesOne, ReceiveStands};
ghost use Rattle.wasi_causes.specs.P3Datagrams.{SendPolled, SendsOne, SendStands};
ghost use Rattle.wasi_causes.specs.P3Udp.{OfUdp3};

/// What a send of a 0.3 UDP socket asks, answers and leaves. First it is asked whether the socket is
/// bound, unless that is known.
///
/// - `refused`: it is refused with `datagram-too-large` for more than 65,535 bytes; with
///   `invalid-argument` for an address that is no remote one, of another family, or another than the
///   socket's remote address, and where there is neither; and then nothing else was asked. It is
///   refused with `access-denied` after a check that said no, and with the code that the send was
///   answered. Of the socket only that it is bound is kept.
/// - `done`: each check said yes, in order: of the wildcard, where the socket isn't bound, and of the
///   address. Then the datagram was sent.
/// - `pending`: the last call was answered pending, and the call stands beside others, by what is
///   left of it.
pub fn p3_udp_sends()
    ensures refused { (contexts : List WasiSocketsCtx) (m : Machine) (line ctx handle : ℕ)
        (d : OutgoingDatagram) (entries : List Entry) (word : CodeWord) (after : Machine)
        → Answered contexts m line (Step.Call ctx (GuestCall.P3Udp (P3UdpCall.Send handle d))) entries
        (Reply.Err word) after
        → P3SendRefusal m (own_of line) handle d entries word after }
    ensures done { (contexts : List WasiSocketsCtx) (m : Machine) (line ctx handle : ℕ)
        (d : OutgoingDatagram) (entries : List Entry) (fields : List Field) (after : Machine)
        → Answered contexts m line (Step.Call ctx (GuestCall.P3Udp (P3UdpCall.Send handle d))) entries
        (Reply.Ok fields) after
        → OfUdp3 m handle (λ place o. SendsOne m (own_of line) place o d entries after) }
    ensures pending { (contexts : List WasiSocketsCtx) (m : Machine) (line ctx handle : ℕ)
        (d : OutgoingDatagram) (entries : List Entry) (number : ℕ) (after : Machine)
        → Answered contexts m line (Step.Call ctx (GuestCall.P3Udp (P3UdpCall.Send handle d))) entries
        (Reply.Pending number) after
        → OfUdp3 m handle (λ place o. SendStands m line place o d entries after) }
{}

/// What a poll of a send that is pending answers, unless it is busy, and what a cancel of it leaves.
///
/// - `polled`: what is left of it goes on, with the remote address that the socket has now. It is
///   pending still, where it stood; or it was sent; or it ended with a code. After these two it is
///   over: its socket stays while its handle or another datagram holds it, and nothing more is
///   asked; else its network socket is closed, and its record is given back.
/// - `late`: one that only has to be sent, to the remote address of its start, ends with
///   `invalid-state` where the remote address is another now or there is none; nothing is asked for
///   it, and it is over.
/// - `cancelled`: nothing is asked for it, and it is over.
///
/// `polled` assumes that its operation is the rest of a send. In every run that is so, and its socket
/// is open (`runs_keep_their_datagrams`).
pub fn polls_of_sends()
    ensures polled { (contexts : List WasiSocketsCtx) (m : Machine) (line n place : ℕ)
        (o : OpenUdp) (op : Operation) (entries : List Entry) (reply : Reply) (after : Machine)
        → IsBeside m n → beside_of m.store n ≡ Some (beside_as n (BesideCall.Send place op))
        → open_at m.store.records place ≡ Some o → IsRestOfSend op → (reply ≡ Reply.Busy → ⊥)
        → Answered contexts m line (Step.Poll n) entries reply after
        → SendPolled m n place o op entries reply after }
    ensures late { (contexts : List WasiSocketsCtx) (m : Machine) (line n place : ℕ)
        (o : OpenUdp) (op : Operation) (a : IpSocketAddress) (bytes : List ℕ)
        (entries : List Entry) (reply : Reply) (after : Machine)
        → IsBeside m n → beside_of m.store n ≡ Some (beside_as n (BesideCall.Send place op))
        → open_at m.store.records place ≡ Some o → IsRestOfSend op
        → op.left ≡ item.Send true a bytes ∷ [] → is_now o.inner.remote a ≡ false
        → (reply ≡ Reply.Busy → ⊥)
        → Answered contexts m line (Step.Poll n) entries reply after
        → (reply ≡ Reply.Err CodeWord.InvalidState) × DatagramOver m n place o entries after }
    ensures cancelled { (contexts : List WasiSocketsCtx) (m : Machine) (line n place : ℕ)
        (o : OpenUdp) (op : Operation) (entries : List Entry) (fields : List Field)
        (after : Machine)
        → IsBeside m n → beside_of m.store n ≡ Some (beside_as n (BesideCall.Send place op))
        → open_at m.store.records place ≡ Some o
        → Answered contexts m line (Step.Cancel n) entries (Reply.Ok fields) after
        → DatagramOver m n place o entries after }
{}

/// What a receive of a 0.3 UDP socket asks, answers and leaves. First it is asked whether the socket
/// is bound, unless that is known. A datagram whose sender's check says no is dropped, and the next
/// is asked for, 64 times in one poll at most.
///
/// - `refused`: it is refused with `invalid-state` where the socket isn't bound, and then nothing else
///   was asked; or with the code that the network answered, after what was dropped.
/// - `done`: a datagram came, and the check of its sender said yes. It is given.
/// - `pending`: the last call was answered pending, or 64 datagrams were dropped; the call stands
///   beside others, by what is left of it.
pub fn p3_udp_receives()
    ensures refused { (contexts : List WasiSocketsCtx) (m : Machine) (line ctx handle : ℕ)
        (entries : List Entry) (word : CodeWord) (after : Machine)
        → Answered contexts m line (Step.Call ctx (GuestCall.P3Udp (P3UdpCall.Receive handle))) entries
        (Reply.Err word) after
        → P3ReceiveRefusal m (own_of line) handle entries word after }
    ensures done { (contexts : List WasiSocketsCtx) (m : Machine) (line ctx handle : ℕ)
        (entries : List Entry) (fields : List Field) (after : Machine)
        → Answered contexts m line (Step.Call ctx (GuestCall.P3Udp (P3UdpCall.Receive handle))) entries
        (Reply.Ok fields) after
        → OfUdp3 m handle (λ place o. ReceivesOne m (own_of line) place o entries fields after) }
    ensures pending { (contexts : List WasiSocketsCtx) (m : Machine) (line ctx handle : ℕ)
        (entries : List Entry) (number : ℕ) (after : Machine)
        → Answered contexts m line (Step.Call ctx (GuestCall.P3Udp (P3UdpCall.Receive handle))) entries
        (Reply.Pending number) after
        → OfUdp3 m handle (λ place o. ReceiveStands m line place o entries after) }
{}

/// What a poll of a receive that is pending answers, unless it is busy, and what a cancel of it
/// leaves.
///
/// - `polled`: what is left of it goes on, whatever the socket's remote address. It is pending still,
///   where it stood; or gives a datagram that came, whose sender's check said yes; or ended with a
///   code. After these two it is over, as a send.
/// - `cancelled`: nothing is asked for it, and it is over; a datagram that came is lost.
///
/// `polled` assumes that its operation is the rest of a receive. In every run that is so, and its
/// socket is open (`runs_keep_their_datagrams`).
pub fn polls_of_receives()
    ensures polled { (contexts : List WasiSocketsCtx) (m : Machine) (line n place : ℕ)
        (o : OpenUdp) (op : Operation) (entries : List Entry) (reply : Reply) (after : Machine)
        → IsBeside m n → beside_of m.store n ≡ Some (beside_as n (BesideCall.Receive place op))
        → open_at m.store.records place ≡ Some o → IsRestOfReceive op → (reply ≡ Reply.Busy → ⊥)
        → Answered contexts m line (Step.Poll n) entries reply after
        → ReceivePolled m n place o op entries reply after }
    ensures cancelled { (contexts : List WasiSocketsCtx) (m : Machine) (line n place : ℕ)
        (o : OpenUdp) (op : Operation) (entries : List Entry) (fields : List Field)
        (after : Machine)
        → IsBeside m n → beside_of m.store n ≡ Some (beside_as n (BesideCall.Receive place op))
        → open_at m.store.records place ≡ Some o
        → Answered contexts m line (Step.Cancel n) entries (Reply.Ok fields) after
        → DatagramOver m n place o entries after }
{}

/// After any script the socket of each datagram in progress is open, also where its handle is gone,
/// and the operation is of the datagram's line and on the socket's network socket.
///
/// - `sends`: what is left of a send is the rest of one.
/// - `receives`: and that of a receive the rest of one.
pub fn runs_keep_their_datagrams()
    ensures sends { (contexts : List WasiSocketsCtx) (steps : List Step) (log : List Entry)
        (replies : List Reply) (m : Machine) (n place : ℕ) (op : Operation)
        → Left (run contexts [] first_state 1 steps) log (Give (replies, m))
        → beside_of m.store n ≡ Some (beside_as n (BesideCall.Send place op))
        → OfOpenUdp m n place op × IsRestOfSend op }
    ensures receives { (contexts : List WasiSocketsCtx) (steps : List Step) (log : List Entry)
        (replies : List Reply) (m : Machine) (n place : ℕ) (op : Operation)
        → Left (run contexts [] first_state 1 steps) log (Give (replies, m))
        → beside_of m.store n ≡ Some (beside_as n (BesideCall.Receive place op))
        → OfOpenUdp m n place op × IsRestOfReceive op }
{}
