//! The words of an entry's parts: uses of addresses, options, kinds of handles, calls.

ghost use Rattle.std.specs.Prelude.{◌≡◌};
ghost use Rattle.world_text.specs.EntryText.{use_text, half_text, option_text, handle_kind_text};
ghost use Rattle.world_text.specs.EntryText.{call_word};

use wasi_addr::{ShutdownType, SocketAddrUse};
use wasi_world::{Call, HandleKind, Opt};

/// The word of a use of an address: its name, in lower case and with dashes.
pub fn use_word(usage: SocketAddrUse) -> &'static str
    ensures { result.now ≡ use_text usage }
{
    match usage {
        SocketAddrUse::TcpBind => "tcp-bind",
        SocketAddrUse::TcpListen => "tcp-listen",
        SocketAddrUse::TcpAccept => "tcp-accept",
        SocketAddrUse::TcpConnect => "tcp-connect",
        SocketAddrUse::UdpBind => "udp-bind",
        SocketAddrUse::UdpSend => "udp-send",
        SocketAddrUse::UdpReceive => "udp-receive",
    }
}

/// The word of what is shut down.
pub fn half_word(how: ShutdownType) -> &'static str
    ensures { result.now ≡ half_text how }
{
    match how {
        ShutdownType::Receive => "receive",
        ShutdownType::Send => "send",
        ShutdownType::Both => "both",
    }
}

/// The word of an option: its name, in lower case and with dashes.
pub fn option_word(option: Opt) -> &'static str
    ensures { result.now ≡ option_text option }
{
    match option {
        Opt::KeepAliveEnabled => "keep-alive-enabled",
        Opt::KeepAliveIdleTime => "keep-alive-idle-time",
        Opt::KeepAliveInterval => "keep-alive-interval",
        Opt::KeepAliveCount => "keep-alive-count",
        Opt::HopLimit => "hop-limit",
        Opt::ReceiveBufferSize => "receive-buffer-size",
        Opt::SendBufferSize => "send-buffer-size",
    }
}

/// The word of a kind of handle: its name, in lower case.
pub fn handle_kind_word(kind: HandleKind) -> &'static str
    ensures { result.now ≡ handle_kind_text kind }
{
    match kind {
        HandleKind::Network => "network",
        HandleKind::Tcp2 => "tcp2",
        HandleKind::Udp2 => "udp2",
        HandleKind::Input => "input",
        HandleKind::Output => "output",
        HandleKind::Incoming => "incoming",
        HandleKind::Outgoing => "outgoing",
        HandleKind::Pollable => "pollable",
        HandleKind::Lookup => "lookup",
        HandleKind::ErrorValue => "errorvalue",
        HandleKind::Tcp3 => "tcp3",
        HandleKind::Udp3 => "udp3",
        HandleKind::Listen3 => "listen3",
        HandleKind::Receive3 => "receive3",
        HandleKind::Send3 => "send3",
        HandleKind::Result3 => "result3",
    }
}

/// The word of a call: its name, in lower case and with dashes.
pub fn call_word(call: &Call) -> &'static str
    ensures { result.now ≡ call_word call.now }
{
    match call {
        Call::Check { .. } => "check",
        Call::Lookup { .. } => "lookup",
        Call::TcpCreate { .. } => "tcp-create",
        Call::UdpCreate { .. } => "udp-create",
        Call::UdpWritable { .. } => "udp-writable",
        Call::Local { .. } => "local",
        Call::Peer { .. } => "peer",
        Call::Bind { .. } => "bind",
        Call::UdpBind { .. } => "udp-bind",
        Call::UdpConnect { .. } => "udp-connect",
        Call::Listen { .. } => "listen",
        Call::SetBacklog { .. } => "set-backlog",
        Call::Connect { .. } => "connect",
        Call::Accept { .. } => "accept",
        Call::Hand { .. } => "hand",
        Call::Refuse { .. } => "refuse",
        Call::Read { .. } => "read",
        Call::ReadReady { .. } => "read-ready",
        Call::WriteReady { .. } => "write-ready",
        Call::Write { .. } => "write",
        Call::Shutdown { .. } => "shutdown",
        Call::UdpDisconnect { .. } => "udp-disconnect",
        Call::Send { .. } => "send",
        Call::Recv { .. } => "recv",
        Call::GetOption { .. } => "get-option",
        Call::SetOption { .. } => "set-option",
        Call::Close { .. } => "close",
        Call::Made { .. } => "made",
    }
}
