//! Where the answers of the steps of datagram streams come from, and what is left afterwards: laws
//! over the definitions of specs/. Each is a function that does nothing, whose contract is the law.

ghost use Rattle.std.specs.Prelude.{◌≡◌, ◌⊎◌, ◌↔◌, ◌<◌, ◌≤◌, ℕ, ◌+◌, List, [], ◌∷◌, ◌++◌, true};
ghost use Rattle.std.specs.Prelude.{false, Option, IfSome, IsSomeAnd, Some, None, length};
ghost use Rattle.wasi_addr.specs.declared.address.IpSocketAddress.{IpSocketAddress};
ghost use Rattle.wasi_addr.specs.declared.code.ErrorCode.{ErrorCode};
ghost use Rattle.wasi_world.specs.declared.call.Entry.{Entry};
ghost use Rattle.wasi_world.specs.declared.datagram.OutgoingDatagram.{OutgoingDatagram};
ghost use Rattle.wasi_world.specs.declared.outcome.TrapKind.{TrapKind};
ghost use Rattle.wasi_world.specs.declared.outcome.WasiSocketsCtx.{WasiSocketsCtx};
ghost use Rattle.wasi_world.specs.Asks.{Give, Left};
ghost use Rattle.host_store.specs.declared.kind.Kind.{Kind};
ghost use Rattle.host_store.specs.declared.machine.Machine.{Machine};
ghost use Rattle.udp_records.specs.declared.datagrams.Outgoing.{Outgoing};
ghost use Rattle.udp_records.specs.declared.datagrams.Sending.{Sending};
ghost use Rattle.udp_records.specs.declared.udp.OpenUdp.{OpenUdp};
ghost use Rattle.host_store.specs.Kinds.{kind_at};
ghost use Rattle.host_udp.specs.DatagramCalls.{outgoing_ready};
ghost use Rattle.host_store.specs.Machine.{first_state, incoming_at, outgoing_at, own_of};
ghost use Rattle.host_store.specs.Machine.{udp_socket_at};
ghost use Rattle.udp_records.specs.Datagrams.{is_sending};
ghost use Rattle.record_common.specs.Names.{next_name};
ghost use Rattle.wasi_records.specs.Records.{open_at};
ghost use Rattle.wasi_machine.specs.Machine.{first_ids, run};
ghost use Rattle.wasi_steps.specs.declared.reply.CodeWord.{CodeWord};
ghost use Rattle.wasi_steps.specs.declared.reply.Field.{Field};
ghost use Rattle.wasi_steps.specs.declared.reply.Reply.{Reply};
ghost use Rattle.wasi_steps.specs.declared.reply.Reply.TheVariants as Reply;
ghost use Rattle.wasi_steps.specs.declared.step.Step.{Step};
ghost use Rattle.wasi_steps.specs.declared.guest_call.GuestCall.TheVariants as GuestCall;
ghost use Rattle.wasi_steps.specs.declared.guest_call.UdpCall.TheVariants as UdpCall;
ghost use Rattle.wasi_steps.specs.declared.guest_call.PollableCall.TheVariants as PollableCall;
ghost use Rattle.wasi_steps.specs.declared.step.Step.TheVariants as Step;
ghost use Rattle.wasi_steps.specs.Reply.{datagram_values, number_fields, pair_fields, truth_fields};
ghost use Rattle.wasi_walks.specs.Answered.{Answered, open_udp_at, outgoing_in, word_of_code};
ghost use Rattle.wasi_causes.specs.DatagramAsks.{CountsSent, HandsOutWhatCame, IsOfReceive};
ghost use Rattle.wasi_causes.specs.DatagramAsks.{IsOfSend};
ghost use Rattle.wasi_causes.specs.Datagrams.{HasItsSocket, HasUdpStreams, IncomingGone};
ghost use Rattle.wasi_causes.specs.Datagrams.{IsReceiving, IsSpent, LacksRoomForBoth, OfIncoming};
ghost use Rattle.wasi_causes.specs.Datagrams.{OfOutgoing, OutgoingGone, PermitsSend};
ghost use Rattle.wasi_causes.specs.Datagrams.{WatchesIncoming, WatchesOutgoing, with_both};
ghost use Rattle.wasi_causes.specs.KeptAddress.{NewStreamsKeep};
ghost use Rattle.wasi_causes.specs.SendCauses.{ReceivedFrom, ReceivesSome, SendsSome};
ghost use Rattle.wasi_causes.specs.SendCauses.{UdpReceiveRefusal, UdpSendRefusal};
ghost use Rattle.wasi_causes.specs.ShortLists.{CountsUpTo, GivesNone, HandsOutUpTo};
ghost use Rattle.wasi_causes.specs.Turns.{datagram_of, receive_of};
ghost use Rattle.wasi_causes.specs.StreamCauses.{HasNewStreams, MakesStreams, StreamsStand};
ghost use Rattle.wasi_causes.specs.StreamCauses.{UdpStreamRefusal};
ghost use Rattle.wasi_causes.specs.Udp.{OfUdp, RefusedOfUdp};
ghost use Rattle.wasi_causes.specs.Unsendable.{IsUnsendable, RefusesSend};

/// What a `udp-stream` makes.
///
/// - `numbers`, `made`: one that is done answers with the next two handles, the incoming stream's
///   first; both are children of the socket.
/// - `new`: nothing was sent or received on either, and nothing may be sent yet.
/// - `asked`: with an address, two checks of it were answered yes, and the socket was connected to
///   it. Without one, a socket with a remote address was disconnected. Then both handles were
///   logged. The remote address is what the network reported, or none; the socket is known to be
///   bound, and the rest of the machine is unchanged.
/// - `alive`, `alive_stays`: it traps with `StreamsAlive` exactly where one of the socket's streams
///   is live (said where no call is pending); nothing is asked then, and the machine is unchanged.
/// - `full`: it traps with `Full` only where there is no room for both handles.
pub fn udp_streams_make_two_handles()
    ensures numbers { (contexts : List WasiSocketsCtx) (m : Machine) (line ctx handle : ℕ)
        (remote : Option IpSocketAddress) (fields : List Field) (entries : List Entry)
        (after : Machine)
        → Answered contexts m line (Step.Call ctx (GuestCall.Udp (UdpCall.Stream handle remote))) entries
        (Reply.Ok fields) after
        → fields ≡ pair_fields m.table.next (m.table.next + 1) }
    ensures made { (contexts : List WasiSocketsCtx) (m : Machine) (line ctx handle : ℕ)
        (remote : Option IpSocketAddress) (fields : List Field) (entries : List Entry)
        (after : Machine)
        → Answered contexts m line (Step.Call ctx (GuestCall.Udp (UdpCall.Stream handle remote))) entries
        (Reply.Ok fields) after
        → IsSomeAnd (udp_socket_at m handle) (λ place. after.table ≡ with_both m.table place handle) }
    ensures new { (contexts : List WasiSocketsCtx) (m : Machine) (line ctx handle : ℕ)
        (remote : Option IpSocketAddress) (fields : List Field) (entries : List Entry)
        (after : Machine)
        → Answered contexts m line (Step.Call ctx (GuestCall.Udp (UdpCall.Stream handle remote))) entries
        (Reply.Ok fields) after
        → OfUdp m handle (λ place o. HasNewStreams place after) }
    ensures asked { (contexts : List WasiSocketsCtx) (m : Machine) (line ctx handle : ℕ)
        (remote : Option IpSocketAddress) (fields : List Field) (entries : List Entry)
        (after : Machine)
        → Answered contexts m line (Step.Call ctx (GuestCall.Udp (UdpCall.Stream handle remote))) entries
        (Reply.Ok fields) after
        → OfUdp m handle (λ place o. MakesStreams m (own_of line) handle place o remote entries
        after) }
    ensures alive { (contexts : List WasiSocketsCtx) (m : Machine) (line ctx handle : ℕ)
        (remote : Option IpSocketAddress) (entries : List Entry) (reply : Reply) (after : Machine)
        → m.store.standing ≡ None
        → Answered contexts m line (Step.Call ctx (GuestCall.Udp (UdpCall.Stream handle remote))) entries reply
        after
        → (reply ≡ Reply.Trap TrapKind.StreamsAlive) ↔ HasUdpStreams (open_udp_at m handle) }
    ensures alive_stays { (contexts : List WasiSocketsCtx) (m : Machine) (line ctx handle : ℕ)
        (remote : Option IpSocketAddress) (entries : List Entry) (after : Machine)
        → Answered contexts m line (Step.Call ctx (GuestCall.Udp (UdpCall.Stream handle remote))) entries
        (Reply.Trap TrapKind.StreamsAlive) after
        → (entries ≡ []) × (after ≡ m) }
    ensures full { (contexts : List WasiSocketsCtx) (m : Machine) (line ctx handle : ℕ)
        (remote : Option IpSocketAddress) (entries : List Entry) (after : Machine)
        → Answered contexts m line (Step.Call ctx (GuestCall.Udp (UdpCall.Stream handle remote))) entries
        (Reply.Trap TrapKind.Full) after
        → IsSomeAnd (udp_socket_at m handle) (λ place. LacksRoomForBoth m.table place handle) }
{}

/// Which address the incoming stream that a `udp-stream` makes keeps.
///
/// - `kept`: asked for with an address, or of a socket that has a remote address, the last call
///   before the marks asked the network for the remote address; the stream keeps what was reported,
///   or none where that was a code or the wildcard. Asked for without an address, of a socket that
///   has none, it keeps none. What it keeps is the socket's remote address; nothing is received or
///   sent on either stream, and nothing may be sent yet.
pub fn new_streams_keep_the_remote_address()
    ensures kept { (contexts : List WasiSocketsCtx) (m : Machine) (line ctx handle : ℕ)
        (remote : Option IpSocketAddress) (fields : List Field) (entries : List Entry)
        (after : Machine)
        → Answered contexts m line (Step.Call ctx (GuestCall.Udp (UdpCall.Stream handle remote))) entries
        (Reply.Ok fields) after
        → OfUdp m handle (λ place o. NewStreamsKeep m (own_of line) handle place o remote entries
        after) }
{}

/// Why a `udp-stream` is refused:
///
/// - `invalid-state`: the socket isn't bound, as its network socket said.
/// - `invalid-argument`: the socket can't be connected to this address.
/// - The code by which its connect ended: a check said no, and the remote address is unchanged; or
///   the connect was answered with the code.
/// - Without an address, the code that its disconnect was answered.
///
/// After a connect or a disconnect that was answered with a code, the remote address is what the
/// network reported then, and none after a code or the wildcard. A socket that was found bound is
/// known to be.
pub fn udp_stream_refusals()
    ensures cause { (contexts : List WasiSocketsCtx) (m : Machine) (line ctx handle : ℕ)
        (remote : Option IpSocketAddress) (entries : List Entry) (word : CodeWord) (after : Machine)
        → Answered contexts m line (Step.Call ctx (GuestCall.Udp (UdpCall.Stream handle remote))) entries
        (Reply.Err word) after
        → RefusedOfUdp m handle (λ place o. UdpStreamRefusal m (own_of line) place o remote) entries
        word after }
{}

/// When a `udp-stream` is pending.
///
/// - `waits`: a `udp-stream` is pending, under its line's number, only with an address that the
///   socket may be connected to; its last call was one of its connect, and was answered pending.
///   The pending call has the handle of the socket.
/// - `handles`: the handles are unchanged.
/// - `live`: after any script that handle is live while the call is pending.
pub fn udp_streams_wait_for_their_connect()
    ensures waits { (contexts : List WasiSocketsCtx) (m : Machine) (line ctx handle : ℕ)
        (remote : Option IpSocketAddress) (entries : List Entry) (number : ℕ) (after : Machine)
        → Answered contexts m line (Step.Call ctx (GuestCall.Udp (UdpCall.Stream handle remote))) entries
        (Reply.Pending number) after
        → OfUdp m handle (λ place o. StreamsStand m line handle place o remote entries after) }
    ensures handles { (contexts : List WasiSocketsCtx) (m : Machine) (line ctx handle : ℕ)
        (remote : Option IpSocketAddress) (entries : List Entry) (number : ℕ) (after : Machine)
        → Answered contexts m line (Step.Call ctx (GuestCall.Udp (UdpCall.Stream handle remote))) entries
        (Reply.Pending number) after
        → after.table ≡ m.table }
    ensures live { (contexts : List WasiSocketsCtx) (steps : List Step) (log : List Entry)
        (replies : List Reply) (m : Machine)
        → Left (run contexts [] first_state 1 steps) log (Give (replies, m))
        → IfSome m.store.standing (λ s. HasItsSocket m s.call) }
{}

/// How many datagrams may be sent.
///
/// - `asks_nothing`: a `udp-check-send` asks nothing.
/// - `permit`: it answers 0 while a datagram of the stream isn't sent yet, and else 16; that is the
///   stream's permit from then on.
/// - `never`: it is never refused.
pub fn send_permits_have_causes()
    ensures asks_nothing { (contexts : List WasiSocketsCtx) (m : Machine) (line ctx outgoing : ℕ)
        (entries : List Entry) (reply : Reply) (after : Machine)
        → Answered contexts m line (Step.Call ctx (GuestCall.Udp (UdpCall.CheckSend outgoing))) entries reply
        after
        → entries ≡ [] }
    ensures permit { (contexts : List WasiSocketsCtx) (m : Machine) (line ctx outgoing : ℕ)
        (fields : List Field) (entries : List Entry) (after : Machine)
        → Answered contexts m line (Step.Call ctx (GuestCall.Udp (UdpCall.CheckSend outgoing))) entries
        (Reply.Ok fields) after
        → OfOutgoing m (outgoing_at m outgoing) (λ place o out. PermitsSend m place o out fields
        after) }
    ensures never { (contexts : List WasiSocketsCtx) (m : Machine) (line ctx outgoing : ℕ)
        (entries : List Entry) (word : CodeWord) (after : Machine)
        → Answered contexts m line (Step.Call ctx (GuestCall.Udp (UdpCall.CheckSend outgoing))) entries
        (Reply.Err word) after
        → ⊥ }
{}

/// A send of more datagrams than its permit traps.
///
/// - `exactly`: a send traps with `NotPermitted` exactly where its list is longer than the permit
///   of the stream; that is said where no call is pending.
/// - `stays`: nothing is asked then, and the machine is unchanged.
pub fn sends_past_the_permit_trap()
    ensures exactly { (contexts : List WasiSocketsCtx) (m : Machine) (line ctx outgoing : ℕ)
        (datagrams : List OutgoingDatagram) (entries : List Entry) (reply : Reply) (after : Machine)
        → m.store.standing ≡ None
        → Answered contexts m line (Step.Call ctx (GuestCall.Udp (UdpCall.Send outgoing datagrams))) entries
        reply after
        → (reply ≡ Reply.Trap TrapKind.NotPermitted)
        ↔ IsSomeAnd (outgoing_in m outgoing) (λ out. out.permit < length datagrams) }
    ensures stays { (contexts : List WasiSocketsCtx) (m : Machine) (line ctx outgoing : ℕ)
        (datagrams : List OutgoingDatagram) (entries : List Entry) (after : Machine)
        → Answered contexts m line (Step.Call ctx (GuestCall.Udp (UdpCall.Send outgoing datagrams))) entries
        (Reply.Trap TrapKind.NotPermitted) after
        → (entries ≡ []) × (after ≡ m) }
{}

/// A drop of a datagram stream that is done asks nothing.
///
/// - `incoming`: an incoming stream is taken off its socket, and its receive given up.
/// - `outgoing`: an outgoing stream is taken off its socket; each of its datagrams was sent.
pub fn stream_drops_ask_nothing()
    ensures incoming { (contexts : List WasiSocketsCtx) (m : Machine) (line ctx handle place : ℕ)
        (o : OpenUdp) (fields : List Field) (entries : List Entry) (after : Machine)
        → kind_at m.table handle ≡ Some (Kind.Incoming place)
        → open_at m.store.records place ≡ Some o
        → Answered contexts m line (Step.Call ctx (GuestCall.Pollable (PollableCall.Drop handle))) entries (Reply.Ok fields)
        after
        → IncomingGone m handle place o entries after }
    ensures outgoing { (contexts : List WasiSocketsCtx) (m : Machine) (line ctx handle place : ℕ)
        (o : OpenUdp) (fields : List Field) (entries : List Entry) (after : Machine)
        → kind_at m.table handle ≡ Some (Kind.Outgoing place)
        → open_at m.store.records place ≡ Some o
        → Answered contexts m line (Step.Call ctx (GuestCall.Pollable (PollableCall.Drop handle))) entries (Reply.Ok fields)
        after
        → OutgoingGone m handle place o entries after }
{}

/// What a send of datagrams asks and answers.
///
/// - `count`: one that is done answers with how many datagrams were sent or are in the background,
///   at most all.
/// - `cause`: it is refused with the code of a datagram that failed in the background before, and
///   asks nothing then; or, with nothing in the background, with the code of its own first
///   datagram: it can't be sent so, a check said no, its remote address has changed, or the network
///   answered with the code. Then nothing is in the background, no code is kept, and the rest of
///   the machine is unchanged, but that a socket that was found bound is known to be.
/// - `spends`, `spends_refused`: nothing is permitted afterwards, unless the list was empty.
/// - `asked`: each call is one of a datagram of the list, by the operation of that datagram's part:
///   whether the socket is bound, the check of the wildcard, the check of its address, and the
///   datagram, right after that check was answered yes.
/// - `sent`: each datagram that is counted was sent and answered done, but that the last may be
///   pending, and goes on in the background.
/// - `fewer`: fewer are counted than the list has only where one was in the background before, and
///   then none is counted and nothing asked; or the last that is counted was answered pending, and
///   nothing was asked after that; or, after at least one, the next one isn't sent: it is too large
///   or for an address that it can't go to, a check of it said no, or it was answered with a code.
/// - `none`: none is counted only where the list was empty or one was in the background before.
pub fn sends_have_causes()
    ensures count { (contexts : List WasiSocketsCtx) (m : Machine) (line ctx outgoing : ℕ)
        (datagrams : List OutgoingDatagram) (fields : List Field) (entries : List Entry)
        (after : Machine)
        → Answered contexts m line (Step.Call ctx (GuestCall.Udp (UdpCall.Send outgoing datagrams))) entries
        (Reply.Ok fields) after
        → SendsSome datagrams fields }
    ensures cause { (contexts : List WasiSocketsCtx) (m : Machine) (line ctx outgoing : ℕ)
        (datagrams : List OutgoingDatagram) (entries : List Entry) (word : CodeWord)
        (after : Machine)
        → Answered contexts m line (Step.Call ctx (GuestCall.Udp (UdpCall.Send outgoing datagrams))) entries
        (Reply.Err word) after
        → OfOutgoing m (outgoing_at m outgoing) (λ place o out. UdpSendRefusal m
        (next_name (first_ids line)) place datagrams o out entries word after) }
    ensures spends { (contexts : List WasiSocketsCtx) (m : Machine) (line ctx outgoing : ℕ)
        (datagrams : List OutgoingDatagram) (fields : List Field) (entries : List Entry)
        (after : Machine)
        → 0 < length datagrams → Answered contexts m line (Step.Call ctx (GuestCall.Udp (UdpCall.Send outgoing
        datagrams))) entries (Reply.Ok fields) after
        → IsSpent after outgoing }
    ensures spends_refused { (contexts : List WasiSocketsCtx) (m : Machine) (line ctx outgoing : ℕ)
        (datagrams : List OutgoingDatagram) (entries : List Entry) (word : CodeWord)
        (after : Machine)
        → Answered contexts m line (Step.Call ctx (GuestCall.Udp (UdpCall.Send outgoing datagrams))) entries
        (Reply.Err word) after
        → IsSpent after outgoing }
    ensures asked { (contexts : List WasiSocketsCtx) (m : Machine) (line ctx outgoing : ℕ)
        (datagrams : List OutgoingDatagram) (before rest : List Entry) (e : Entry) (reply : Reply)
        (after : Machine)
        → Answered contexts m line (Step.Call ctx (GuestCall.Udp (UdpCall.Send outgoing datagrams)))
        (before ++ e ∷ rest) reply after
        → OfOutgoing m (outgoing_at m outgoing) (λ place o out. IsOfSend line o.inner datagrams
        before e.op e.call) }
    ensures sent { (contexts : List WasiSocketsCtx) (m : Machine) (line ctx outgoing : ℕ)
        (datagrams : List OutgoingDatagram) (fields : List Field) (entries : List Entry)
        (after : Machine)
        → Answered contexts m line (Step.Call ctx (GuestCall.Udp (UdpCall.Send outgoing datagrams))) entries
        (Reply.Ok fields) after
        → OfOutgoing m (outgoing_at m outgoing) (λ place o out. CountsSent line o.inner datagrams
        fields entries (datagram_of (open_at after.store.records place))) }
    ensures fewer { (contexts : List WasiSocketsCtx) (m : Machine) (line ctx outgoing : ℕ)
        (datagrams : List OutgoingDatagram) (fields : List Field) (entries : List Entry)
        (after : Machine)
        → Answered contexts m line (Step.Call ctx (GuestCall.Udp (UdpCall.Send outgoing datagrams))) entries
        (Reply.Ok fields) after
        → OfOutgoing m (outgoing_at m outgoing) (λ place o out. CountsUpTo line o.inner out.sending
        datagrams fields entries) }
    ensures none { (contexts : List WasiSocketsCtx) (m : Machine) (line ctx outgoing : ℕ)
        (datagrams : List OutgoingDatagram) (entries : List Entry) (after : Machine)
        → Answered contexts m line (Step.Call ctx (GuestCall.Udp (UdpCall.Send outgoing datagrams))) entries
        (Reply.Ok (number_fields 0)) after
        → (datagrams ≡ []) ⊎ OfOutgoing m (outgoing_at m outgoing)
        (λ place o out. (is_sending out.sending ≡ true) × (entries ≡ [])) }
{}

/// Which sends are refused because of what their line says.
///
/// - `refused`: a send is refused whose first datagram has more than 65,535 bytes, with
///   `datagram-too-large`; or is for no address while the socket has no remote address, or for an
///   address that is unspecified, has the port 0, is of the other family or isn't the socket's
///   remote address, each with `invalid-argument`. That is said where no call is pending, nothing
///   of the stream is in the background or failed there, and the list is permitted.
/// - `only`: else a send is refused only with the code by which a datagram failed in the background
///   before, with `access-denied` where its last call was a check and was answered no, or with the
///   code that its last call was answered.
pub fn sends_are_refused_by_their_line()
    ensures refused { (contexts : List WasiSocketsCtx) (m : Machine) (line ctx outgoing place : ℕ)
        (o : OpenUdp) (out : Outgoing) (d : OutgoingDatagram) (more : List OutgoingDatagram)
        (c : ErrorCode) (entries : List Entry) (reply : Reply) (after : Machine)
        → m.store.standing ≡ None → outgoing_at m outgoing ≡ Some place
        → open_at m.store.records place ≡ Some o → o.outgoing ≡ Some out
        → out.sending ≡ Sending.Nothing → length (d ∷ more) ≤ out.permit
        → IsUnsendable o.inner.family o.inner.remote d c
        → Answered contexts m line (Step.Call ctx (GuestCall.Udp (UdpCall.Send outgoing (d ∷ more)))) entries
        reply after
        → reply ≡ Reply.Err (word_of_code c) }
    ensures only { (contexts : List WasiSocketsCtx) (m : Machine) (line ctx outgoing : ℕ)
        (datagrams : List OutgoingDatagram) (entries : List Entry) (word : CodeWord)
        (after : Machine)
        → Answered contexts m line (Step.Call ctx (GuestCall.Udp (UdpCall.Send outgoing datagrams))) entries
        (Reply.Err word) after
        → OfOutgoing m (outgoing_at m outgoing) (λ place o out. RefusesSend o.inner.family
        o.inner.remote out.sending datagrams entries word) }
{}

/// What a receive of datagrams asks and answers.
///
/// - `datagrams`: one that is done answers with at most as many datagrams as were wanted, and at
///   most 16.
/// - `cause`: it is refused with the code by which the receive in progress failed, and asks nothing
///   then; or, with none in progress, with the code of the one that it began: `invalid-state` for a
///   socket that isn't bound, or what the network answered. Then none is in progress, and the rest
///   of the machine is unchanged, but that a socket that was found bound is known to be.
/// - `asked`: each call is one of the line's receives, at most as many as are wanted and at most
///   16: whether the socket is bound, a datagram, or the check of its sender, right after it came.
/// - `came`: what is handed out came by these receives, one by each from the line's first on, and
///   the check of its sender was answered yes; before that stands a datagram that had come before,
///   if there was one.
/// - `from`: in a run each is from the remote address that the stream keeps, if it keeps one.
/// - `fewer`: fewer than were wanted, and fewer than 16, are handed out only where there is no room
///   for more; or a receive was in progress before and is so still, and then none is handed out and
///   nothing asked; or one of the line's receives is in progress afterwards: the last call was its,
///   and was answered pending, or it dropped 64 datagrams; or, after at least one, a receive
///   failed.
/// - `none`: none is handed out only where none was wanted or a receive is in progress afterwards,
///   as just said.
pub fn receives_have_causes()
    ensures datagrams { (contexts : List WasiSocketsCtx) (m : Machine) (line ctx incoming most : ℕ)
        (fields : List Field) (entries : List Entry) (after : Machine)
        → Answered contexts m line (Step.Call ctx (GuestCall.Udp (UdpCall.Receive incoming most))) entries
        (Reply.Ok fields) after
        → ReceivesSome most fields }
    ensures cause { (contexts : List WasiSocketsCtx) (m : Machine) (line ctx incoming most : ℕ)
        (entries : List Entry) (word : CodeWord) (after : Machine)
        → Answered contexts m line (Step.Call ctx (GuestCall.Udp (UdpCall.Receive incoming most))) entries
        (Reply.Err word) after
        → OfIncoming m (incoming_at m incoming) (λ place o inc. UdpReceiveRefusal m
        (next_name (first_ids line)) place o inc entries word after) }
    ensures asked { (contexts : List WasiSocketsCtx) (m : Machine) (line ctx incoming most : ℕ)
        (before rest : List Entry) (e : Entry) (reply : Reply) (after : Machine)
        → Answered contexts m line (Step.Call ctx (GuestCall.Udp (UdpCall.Receive incoming most)))
        (before ++ e ∷ rest) reply after
        → OfIncoming m (incoming_at m incoming) (λ place o inc. IsOfReceive line o.inner most before
        e.op e.call) }
    ensures came { (contexts : List WasiSocketsCtx) (m : Machine) (line ctx incoming most : ℕ)
        (fields : List Field) (entries : List Entry) (after : Machine)
        → Answered contexts m line (Step.Call ctx (GuestCall.Udp (UdpCall.Receive incoming most))) entries
        (Reply.Ok fields) after
        → OfIncoming m (incoming_at m incoming) (λ place o inc. HandsOutWhatCame line o.inner inc
        fields entries) }
    ensures from { (contexts : List WasiSocketsCtx) (steps : List Step) (log : List Entry)
        (replies : List Reply) (m : Machine) (line ctx incoming most : ℕ) (fields : List Field)
        (entries : List Entry) (after : Machine)
        → Left (run contexts [] first_state 1 steps) log (Give (replies, m))
        → Answered contexts m line (Step.Call ctx (GuestCall.Udp (UdpCall.Receive incoming most))) entries
        (Reply.Ok fields) after
        → OfIncoming m (incoming_at m incoming) (λ place o inc. ReceivedFrom inc.remote fields) }
    ensures fewer { (contexts : List WasiSocketsCtx) (m : Machine) (line ctx incoming most : ℕ)
        (fields : List Field) (entries : List Entry) (after : Machine)
        → Answered contexts m line (Step.Call ctx (GuestCall.Udp (UdpCall.Receive incoming most))) entries
        (Reply.Ok fields) after
        → OfIncoming m (incoming_at m incoming) (λ place o inc. HandsOutUpTo line o.inner most inc
        (receive_of (open_at after.store.records place)) fields entries) }
    ensures none { (contexts : List WasiSocketsCtx) (m : Machine) (line ctx incoming most : ℕ)
        (entries : List Entry) (after : Machine)
        → Answered contexts m line (Step.Call ctx (GuestCall.Udp (UdpCall.Receive incoming most))) entries
        (Reply.Ok (datagram_values [])) after
        → (most ≡ 0) ⊎ OfIncoming m (incoming_at m incoming)
        (λ place o inc. GivesNone line inc (receive_of (open_at after.store.records place))
        entries) }
{}

/// When a datagram stream is ready.
///
/// - `outgoing`: the pollable of an outgoing datagram stream is ready exactly where none of its
///   datagrams is in the background; nothing is asked, and the machine is unchanged. That is said
///   where no call is pending.
/// - `incoming`: where that of an incoming one isn't ready, a receive is in progress afterwards.
pub fn stream_pollables_have_causes()
    ensures outgoing { (contexts : List WasiSocketsCtx) (m : Machine) (line ctx pollable place : ℕ)
        (entries : List Entry) (reply : Reply) (after : Machine)
        → m.store.standing ≡ None → WatchesOutgoing m pollable place
        → Answered contexts m line (Step.Call ctx (GuestCall.Pollable (PollableCall.Ready pollable))) entries reply after
        → (reply ≡ Reply.Ok (truth_fields (outgoing_ready (open_at m.store.records place))))
        × (entries ≡ []) × (after ≡ m) }
    ensures incoming { (contexts : List WasiSocketsCtx) (m : Machine) (line ctx pollable place : ℕ)
        (entries : List Entry) (after : Machine)
        → WatchesIncoming m pollable place
        → Answered contexts m line (Step.Call ctx (GuestCall.Pollable (PollableCall.Ready pollable))) entries
        (Reply.Ok (truth_fields false)) after
        → IsReceiving (open_at after.store.records place) }
{}
