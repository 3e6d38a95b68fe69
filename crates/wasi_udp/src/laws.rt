//! Laws about the definitions that contracts cite.

ghost use Rattle.std.specs.Prelude.{◌≡◌, ℕ, true, List, Option};
ghost use Rattle.wasi_addr.specs.declared.address.IpSocketAddress.{IpSocketAddress};
ghost use Rattle.wasi_addr.specs.declared.address.SocketAddressFamily.{SocketAddressFamily};
ghost use Rattle.wasi_world.specs.declared.call.Entry.{Entry};
ghost use Rattle.wasi_world.specs.Asks.{Asks, Give, Left};
ghost use Rattle.wasi_world.specs.Operation.{Item, End, Done, Datagram, is_wanted, poll_asks};
ghost use Rattle.socket_common.specs.declared.asker.Asker.{Asker};
ghost use Rattle.wasi_udp.specs.declared.receive.RecvStage.{RecvStage};
ghost use Rattle.wasi_udp.specs.declared.send.SendStage.{SendStage};
ghost use Rattle.wasi_udp.specs.Given.{EndsInYes};
ghost use Rattle.wasi_udp.specs.Receive.{receive_operation};
ghost use Rattle.wasi_udp.specs.Send.{send_operation, at_remote};
ghost use Rattle.wasi_udp.specs.Late.{IsLate, SendsNone};

/// A datagram to the remote address that the socket had at its start isn't sent once the socket's
/// remote address is another, or none: a poll then makes no send, at whatever stage it begins,
/// whatever the network answers, and at every point of the poll.
///
/// It runs no code: its contract is a law about the definitions that contracts cite.
pub fn late_datagrams_are_not_sent()
    ensures { (asker : Asker) (family : SocketAddressFamily) (bytes : List ℕ) (stage : SendStage)
        (remote : Option IpSocketAddress) (entries : List Entry) (rest : Asks (End × List Item)) →
        IsLate stage remote → Left (poll_asks (at_remote remote (send_operation asker family bytes stage))) entries rest →
        SendsNone entries }
{}

/// A receive gives a datagram only after a yes for its sender: where a poll gives one, the last
/// call of that poll is the check of its sender by the context that made the socket, and the check
/// said yes. Where one sender alone is wanted, it is that one. Both hold at whatever stage the poll
/// begins, and whatever the network answers.
///
/// It runs no code: its contract is a law about the definitions that contracts cite.
pub fn datagrams_are_given_after_a_yes()
    ensures yes { (asker : Asker) (only : Option IpSocketAddress) (stage : RecvStage)
        (entries : List Entry)
        (bytes : List ℕ) (peer : IpSocketAddress) (left : List Item) →
        Left (poll_asks (receive_operation asker only stage)) entries (Give (Done (Datagram bytes peer), left)) →
        EndsInYes asker.maker peer entries }
    ensures wanted { (asker : Asker) (only : Option IpSocketAddress) (stage : RecvStage)
        (entries : List Entry)
        (bytes : List ℕ) (peer : IpSocketAddress) (left : List Item) →
        Left (poll_asks (receive_operation asker only stage)) entries (Give (Done (Datagram bytes peer), left)) →
        is_wanted only peer ≡ true }
{}
