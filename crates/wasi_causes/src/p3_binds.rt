//! Where the answers of the binds of 0.3 sockets come from, and what is left then: laws over the
//! definitions of specs/. Each is a function that does nothing, whose contract is the law.

ghost use Rattle.std.specs.Prelude.{◌≡◌, ℕ, List};
ghost use Rattle.wasi_addr.specs.declared.address.IpSocketAddress.{IpSocketAddress};
ghost use Rattle.wasi_world.specs.declared.call.Entry.{Entry};
ghost use Rattle.wasi_world.specs.declared.outcome.WasiSocketsCtx.{WasiSocketsCtx};
ghost use Rattle.host_store.specs.declared.machine.Machine.{Machine};
ghost use Rattle.host_store.specs.Machine.{own_of};
ghost use Rattle.wasi_steps.specs.declared.guest_call.GuestCall.{GuestCall};
ghost use Rattle.wasi_steps.specs.declared.guest_call.P3TcpCall.{P3TcpCall};
ghost use Rattle.wasi_steps.specs.declared.guest_call.P3UdpCall.{P3UdpCall};
ghost use Rattle.wasi_steps.specs.declared.reply.CodeWord.{CodeWord};
ghost use Rattle.wasi_steps.specs.declared.reply.Field.{Field};
ghost use Rattle.wasi_steps.specs.declared.reply.Reply.{Reply};
ghost use Rattle.wasi_steps.specs.declared.step.Step.{Step};
ghost use Rattle.wasi_walks.specs.Answered.{Answered};
ghost use Rattle.wasi_causes.specs.P3Binds.{BindStands, Binds, BindsUdp, P3BindRefusal};
ghost use Rattle.wasi_causes.specs.P3Binds.{P3UdpBindRefusal, UdpBindStands};
ghost use Rattle.wasi_causes.specs.P3Udp.{OfUdp3};
ghost use Rattle.wasi_causes.specs.Refusals.{OfTcp3};

/// What a bind of a 0.3 TCP socket asks, answers and leaves. Where it is over, nothing is in
/// progress.
///
/// - `refused`: it is refused with `invalid-state` where the socket is bound or isn't in its first
///   state, and is known to be bound then; with `invalid-argument` for an address that isn't
///   unicast or is of another family, and then the machine is unchanged; with `access-denied` after
///   a check that said no; or with the code that the bind was answered.
/// - `done`: a bind that is done was allowed by a check and then answered done.
/// - `pending`: one that is pending waits for its check; it is in progress in its record, and the
///   call is pending under its line's number.
pub fn p3_binds()
    ensures refused { (contexts : List WasiSocketsCtx) (m : Machine) (line ctx handle : ℕ)
        (a : IpSocketAddress) (entries : List Entry) (word : CodeWord) (after : Machine)
        → Answered contexts m line (Step.Call ctx (GuestCall.P3Tcp (P3TcpCall.Bind handle a))) entries
        (Reply.Err word) after
        → P3BindRefusal m (own_of line) handle a entries word after }
    ensures done { (contexts : List WasiSocketsCtx) (m : Machine) (line ctx handle : ℕ)
        (a : IpSocketAddress) (entries : List Entry) (fields : List Field) (after : Machine)
        → Answered contexts m line (Step.Call ctx (GuestCall.P3Tcp (P3TcpCall.Bind handle a))) entries
        (Reply.Ok fields) after
        → OfTcp3 m handle (λ place r. Binds m (own_of line) place r a entries after) }
    ensures pending { (contexts : List WasiSocketsCtx) (m : Machine) (line ctx handle : ℕ)
        (a : IpSocketAddress) (entries : List Entry) (number : ℕ) (after : Machine)
        → Answered contexts m line (Step.Call ctx (GuestCall.P3Tcp (P3TcpCall.Bind handle a))) entries
        (Reply.Pending number) after
        → OfTcp3 m handle (λ place r. BindStands m line place r a entries after) }
{}

/// The same of a bind of a 0.3 UDP socket.
///
/// - `refused`: it is refused with `invalid-state` where the socket is bound, and is known to be
///   then; with `invalid-argument` for an address of another family, and then the machine is
///   unchanged; with `access-denied` after a check that said no; or with the code that the bind was
///   answered.
/// - `done`: a bind that is done was allowed by a check and then answered done.
/// - `pending`: one that is pending waits for its check; it is in progress in its record, and the
///   call is pending under its line's number.
pub fn p3_udp_binds()
    ensures refused { (contexts : List WasiSocketsCtx) (m : Machine) (line ctx handle : ℕ)
        (a : IpSocketAddress) (entries : List Entry) (word : CodeWord) (after : Machine)
        → Answered contexts m line (Step.Call ctx (GuestCall.P3Udp (P3UdpCall.Bind handle a))) entries
        (Reply.Err word) after
        → P3UdpBindRefusal m (own_of line) handle a entries word after }
    ensures done { (contexts : List WasiSocketsCtx) (m : Machine) (line ctx handle : ℕ)
        (a : IpSocketAddress) (entries : List Entry) (fields : List Field) (after : Machine)
        → Answered contexts m line (Step.Call ctx (GuestCall.P3Udp (P3UdpCall.Bind handle a))) entries
        (Reply.Ok fields) after
        → OfUdp3 m handle (λ place o. BindsUdp m (own_of line) place o a entries after) }
    ensures pending { (contexts : List WasiSocketsCtx) (m : Machine) (line ctx handle : ℕ)
        (a : IpSocketAddress) (entries : List Entry) (number : ℕ) (after : Machine)
        → Answered contexts m line (Step.Call ctx (GuestCall.P3Udp (P3UdpCall.Bind handle a))) entries
        (Reply.Pending number) after
        → OfUdp3 m handle (λ place o. UdpBindStands m line place o a entries after) }
{}
