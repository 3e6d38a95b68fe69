//! The calls that have no other argument than a handle, by their words.

ghost use Rattle.std.specs.Prelude.{◌++◌};
ghost use Rattle.wasi_steps.specs.Settings.{ReadsNumber};
ghost use Rattle.wasi_steps.specs.Steps.{handle_calls, udp_handle_calls, p3_handle_calls, output_handle_calls};
ghost use Rattle.wasi_steps.specs.Steps.{other_handle_calls, rows_of};

use crate::guest_call::{
    GuestCall, NameCall, P3TcpCall, P3UdpCall, PipeCall, PollableCall, StreamCall, TcpCall, UdpCall,
};
use crate::words::is;

/// The call of this word, which takes a handle alone and is no socket's and no output's.
#[tactic(auto, unfolding(world_text::specs::Fields::read_then, world_text::specs::Fields::give, world_text::specs::Fields::give_some))]
fn other_handle_call(word: &[u8], handle: u32) -> Option<GuestCall>
    ensures { ReadsNumber 4294967295 (rows_of other_handle_calls) word.now handle result }
{
    use GuestCall::*;
    match word {
        _ if is(word, "resolve-next") => Some(Names(NameCall::ResolveNext { lookup: handle })),
        _ if is(word, "network-error-code") => Some(Names(NameCall::NetworkErrorCode {
            error: handle,
        })),
        _ if is(word, "subscribe") => Some(Pollable(PollableCall::Subscribe { handle })),
        _ if is(word, "ready") => Some(Pollable(PollableCall::Ready { pollable: handle })),
        _ if is(word, "block") => Some(Pollable(PollableCall::Block { pollable: handle })),
        _ if is(word, "drop") => Some(Pollable(PollableCall::Drop { handle })),
        _ => None,
    }
}

/// The call of this word, which takes a handle alone and is no socket's.
#[tactic(auto, unfolding(world_text::specs::Fields::read_then, world_text::specs::Fields::give, world_text::specs::Fields::give_some))]
fn output_handle_call(word: &[u8], handle: u32) -> Option<GuestCall>
    ensures { ReadsNumber 4294967295 (rows_of (output_handle_calls ++ other_handle_calls)) word.now handle result }
{
    use GuestCall::*;
    let output = handle;
    match word {
        _ if is(word, "pipe-contents") => Some(Pipe(PipeCall::Contents { output })),
        _ if is(word, "check-write") => Some(Stream(StreamCall::CheckWrite { output })),
        _ if is(word, "flush") => Some(Stream(StreamCall::Flush { output })),
        _ if is(word, "blocking-flush") => Some(Stream(StreamCall::BlockingFlush { output })),
        _ => other_handle_call(word, handle),
    }
}

/// The call of this word, which takes a handle alone and is no 0.2 socket's.
#[tactic(auto, unfolding(world_text::specs::Fields::read_then, world_text::specs::Fields::give, world_text::specs::Fields::give_some))]
fn p3_handle_call(word: &[u8], handle: u32) -> Option<GuestCall>
    ensures { ReadsNumber 4294967295 (rows_of (p3_handle_calls ++ output_handle_calls
        ++ other_handle_calls)) word.now handle result }
{
    use GuestCall::*;
    let socket = handle;
    match word {
        _ if is(word, "p3-tcp-listen") => Some(P3Tcp(P3TcpCall::Listen { socket })),
        _ if is(word, "p3-tcp-local-address") => Some(P3Tcp(P3TcpCall::LocalAddress { socket })),
        _ if is(word, "p3-tcp-remote-address") => Some(P3Tcp(P3TcpCall::RemoteAddress { socket })),
        _ if is(word, "p3-tcp-is-listening") => Some(P3Tcp(P3TcpCall::IsListening { socket })),
        _ if is(word, "p3-tcp-address-family") => Some(P3Tcp(P3TcpCall::AddressFamily { socket })),
        _ if is(word, "p3-tcp-send") => Some(P3Tcp(P3TcpCall::Send { socket })),
        _ if is(word, "p3-tcp-receive") => Some(P3Tcp(P3TcpCall::Receive { socket })),
        _ if is(word, "p3-result") => Some(P3Tcp(P3TcpCall::Result { slot: handle })),
        _ if is(word, "p3-udp-disconnect") => Some(P3Udp(P3UdpCall::Disconnect { socket })),
        _ if is(word, "p3-udp-receive") => Some(P3Udp(P3UdpCall::Receive { socket })),
        _ if is(word, "p3-udp-local-address") => Some(P3Udp(P3UdpCall::LocalAddress { socket })),
        _ if is(word, "p3-udp-remote-address") => Some(P3Udp(P3UdpCall::RemoteAddress { socket })),
        _ if is(word, "p3-udp-address-family") => Some(P3Udp(P3UdpCall::AddressFamily { socket })),
        _ => output_handle_call(word, handle),
    }
}

/// The call of this word, which takes a handle alone and is no TCP socket's.
#[tactic(auto, unfolding(world_text::specs::Fields::read_then, world_text::specs::Fields::give, world_text::specs::Fields::give_some))]
fn udp_handle_call(word: &[u8], handle: u32) -> Option<GuestCall>
    ensures { ReadsNumber 4294967295 (rows_of (udp_handle_calls ++ p3_handle_calls
        ++ output_handle_calls ++ other_handle_calls)) word.now handle result }
{
    use GuestCall::*;
    let socket = handle;
    match word {
        _ if is(word, "udp-finish-bind") => Some(Udp(UdpCall::FinishBind { socket })),
        _ if is(word, "udp-local-address") => Some(Udp(UdpCall::LocalAddress { socket })),
        _ if is(word, "udp-remote-address") => Some(Udp(UdpCall::RemoteAddress { socket })),
        _ if is(word, "udp-address-family") => Some(Udp(UdpCall::AddressFamily { socket })),
        _ if is(word, "udp-check-send") => Some(Udp(UdpCall::CheckSend { outgoing: handle })),
        _ => p3_handle_call(word, handle),
    }
}

/// The call of this word, which takes a handle alone; `None` where no call does.
#[tactic(auto, unfolding(world_text::specs::Fields::read_then, world_text::specs::Fields::give, world_text::specs::Fields::give_some))]
pub(crate) fn handle_call(word: &[u8], handle: u32) -> Option<GuestCall>
    ensures { ReadsNumber 4294967295 (rows_of handle_calls) word.now handle result }
{
    use GuestCall::*;
    let socket = handle;
    match word {
        _ if is(word, "tcp-finish-bind") => Some(Tcp(TcpCall::FinishBind { socket })),
        _ if is(word, "tcp-finish-connect") => Some(Tcp(TcpCall::FinishConnect { socket })),
        _ if is(word, "tcp-start-listen") => Some(Tcp(TcpCall::StartListen { socket })),
        _ if is(word, "tcp-finish-listen") => Some(Tcp(TcpCall::FinishListen { socket })),
        _ if is(word, "tcp-accept") => Some(Tcp(TcpCall::Accept { socket })),
        _ if is(word, "tcp-local-address") => Some(Tcp(TcpCall::LocalAddress { socket })),
        _ if is(word, "tcp-remote-address") => Some(Tcp(TcpCall::RemoteAddress { socket })),
        _ if is(word, "tcp-is-listening") => Some(Tcp(TcpCall::IsListening { socket })),
        _ if is(word, "tcp-address-family") => Some(Tcp(TcpCall::AddressFamily { socket })),
        _ => udp_handle_call(word, handle),
    }
}
