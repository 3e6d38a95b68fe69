//! Where the answers of the connects of 0.3 UDP sockets come from, and what is left then: laws over
//! the definitions of specs/. Each is a function that does nothing, whose contract is the law.

ghost use Rattle.std.specs.Prelude.{◌≡◌, ℕ, List, Some};
ghost use Rattle.wasi_addr.specs.declared.address.IpSocketAddress.{IpSocketAddress};
ghost use Rattle.wasi_world.specs.declared.call.Entry.{Entry};
ghost use Rattle.wasi_world.specs.declared.ids.Ids.{Ids};
ghost use Rattle.wasi_world.specs.declared.outcome.WasiSocketsCtx.{WasiSocketsCtx};
ghost use Rattle.wasi_world.specs.Operation.{Operation};
ghost use Rattle.wasi_records.specs.Records.{open_at};
ghost use Rattle.udp_records.specs.declared.udp.OpenUdp.{OpenUdp};
ghost use Rattle.host_store.specs.declared.machine.Machine.{Machine};
ghost use Rattle.host_store.specs.declared.store.StandingCall.{StandingCall};
ghost use Rattle.host_store.specs.Machine.{own_of};
ghost use Rattle.host_store.specs.Standing.{standing_as};
ghost use Rattle.wasi_steps.specs.declared.guest_call.GuestCall.{GuestCall};
ghost use Rattle.wasi_steps.specs.declared.guest_call.P3UdpCall.{P3UdpCall};
ghost use Rattle.wasi_steps.specs.declared.reply.CodeWord.{CodeWord};
ghost use Rattle.wasi_steps.specs.declared.reply.Field.{Field};
ghost use Rattle.wasi_steps.specs.declared.reply.Reply.{Reply};
ghost use Rattle.wasi_steps.specs.declared.step.Step.{Step};
ghost use Rattle.wasi_walks.specs.Answered.{Answered};
ghost use Rattle.wasi_walks.specs.Waiting.{IsRestOfUdpConnect};
ghost use Rattle.wasi_causes.specs.P3Udp.{OfUdp3};
ghost use Rattle.wasi_causes.specs.P3UdpConnects.{ConnectPolled, ConnectsUdp};
ghost use Rattle.wasi_causes.specs.P3UdpConnects.{UdpConnectRefusal, UdpConnectStands};

/// What a connect of a 0.3 UDP socket asks, answers and leaves.
///
/// - `refused`: it is refused with `invalid-argument` for an address that is of another family or no
///   remote one, and then nothing was asked and the machine is unchanged; with `access-denied` after
///   a check that said no, which leaves the remote address; or with the code that the connect was
///   answered, and then the remote address is what the network reported after it. `invalid-state`
///   is for a socket with datagram streams alone, which no run has.
/// - `done`: each check said yes, in order: of the wildcard, where the socket isn't bound, and of the
///   address for sending and for receiving. Then it was connected, and its remote address is what
///   the network reported after it.
/// - `pending`: one that is pending waits for its last check; it is in progress in its record, by
///   what is left, and the call is pending under its line's number.
pub fn p3_udp_connects()
    ensures refused { (contexts : List WasiSocketsCtx) (m : Machine) (line ctx handle : ℕ)
        (a : IpSocketAddress) (entries : List Entry) (word : CodeWord) (after : Machine)
        → Answered contexts m line (Step.Call ctx (GuestCall.P3Udp (P3UdpCall.Connect handle a))) entries
        (Reply.Err word) after
        → UdpConnectRefusal m (own_of line) handle a entries word after }
    ensures done { (contexts : List WasiSocketsCtx) (m : Machine) (line ctx handle : ℕ)
        (a : IpSocketAddress) (entries : List Entry) (fields : List Field) (after : Machine)
        → Answered contexts m line (Step.Call ctx (GuestCall.P3Udp (P3UdpCall.Connect handle a))) entries
        (Reply.Ok fields) after
        → OfUdp3 m handle (λ place o. ConnectsUdp m (own_of line) place o a entries after) }
    ensures pending { (contexts : List WasiSocketsCtx) (m : Machine) (line ctx handle : ℕ)
        (a : IpSocketAddress) (entries : List Entry) (number : ℕ) (after : Machine)
        → Answered contexts m line (Step.Call ctx (GuestCall.P3Udp (P3UdpCall.Connect handle a))) entries
        (Reply.Pending number) after
        → OfUdp3 m handle (λ place o. UdpConnectStands m line place o a entries after) }
{}

/// What a poll of such a connect that is pending asks, answers and leaves: what is left of it goes on
/// from the check that was answered pending. It is pending still, by what is left then; or is done;
/// or a check said no, or the connect was answered with a code. Only the first leaves a call pending,
/// and the remote address is as after the step.
pub fn polls_of_udp_connects()
    ensures { (contexts : List WasiSocketsCtx) (m : Machine) (line place : ℕ) (ids : Ids)
        (o : OpenUdp) (op : Operation) (entries : List Entry) (reply : Reply) (after : Machine)
        → m.store.standing ≡ Some (standing_as ids (StandingCall.UdpConnect3 place))
        → open_at m.store.records place ≡ Some o → o.connecting ≡ Some op
        → IsRestOfUdpConnect op
        → Answered contexts m line (Step.Poll ids.line) entries reply after
        → ConnectPolled m ids.line place o op entries reply after }
{}
