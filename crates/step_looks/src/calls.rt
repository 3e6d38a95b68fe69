//! What a guest's call will look at.

ghost use Rattle.std.specs.Prelude.{◌≡◌};
ghost use Rattle.step_looks.specs.Calls.{input_outlook, output_outlook, room_outlook_of};
ghost use Rattle.step_looks.specs.Calls.{pollable_outlook, tcp_outlook, udp_outlook};
ghost use Rattle.step_looks.specs.Calls.{stream_outlook, p3_tcp_outlook, end_outlook};

use crate::outlook::Outlook;
use crate::records::{
    accept_at, again_outlook, input_at, listener_at, output_at, receive_at, room_at,
    watched_outlook,
};
use host_store::{ConnectionEnd, Kind, Machine, handles};
use wasi_records::RecordList;
use wasi_steps::{P3TcpCall, StreamCall, TcpCall, UdpCall};
use wasi_world::Handle;

/// A call that reads from an input once it can.
pub(crate) fn input_outlook(machine: &Machine, input: Handle) -> Outlook
    ensures { result ≡ input_outlook machine.now input }
{
    match handles::kind(&machine.table, input) {
        Some(Kind::Input(place)) => input_at(&machine.store.records, place),
        _ => Outlook::Ready,
    }
}

/// A call that waits until an output can be written.
pub(crate) fn output_outlook(machine: &Machine, output: Handle) -> Outlook
    ensures { result ≡ output_outlook machine.now output }
{
    match handles::kind(&machine.table, output) {
        Some(Kind::Output(place)) => output_at(&machine.store.records, place),
        _ => Outlook::Ready,
    }
}

/// A call that looks for room in an output, and waits for nothing.
fn room_outlook(machine: &Machine, output: Handle) -> Outlook
    ensures { result ≡ room_outlook_of machine.now output }
{
    match handles::kind(&machine.table, output) {
        Some(Kind::Output(place)) => room_at(&machine.store.records, place),
        _ => Outlook::Ready,
    }
}

/// A first look at a pollable, and a later one of a call that is polled.
pub(crate) fn pollable_outlook(machine: &Machine, first: bool, pollable: Handle) -> Outlook
    ensures { result ≡ pollable_outlook machine.now first pollable }
{
    match handles::kind(&machine.table, pollable) {
        Some(Kind::Pollable(watched)) => {
            if first {
                watched_outlook(&machine.store.records, watched)
            } else {
                again_outlook(&machine.store.records, watched)
            }
        }
        _ => Outlook::Ready,
    }
}

/// A call of a TCP socket.
pub(crate) fn tcp_outlook(machine: &Machine, call: &TcpCall) -> Outlook
    ensures { result ≡ tcp_outlook machine.now call.now }
{
    match call {
        TcpCall::Accept { socket } => match handles::kind(&machine.table, *socket) {
            Some(Kind::Tcp2(place)) => accept_at(&machine.store.records, place),
            _ => Outlook::Ready,
        },
        _ => Outlook::Ready,
    }
}

/// A call of a UDP socket.
pub(crate) fn udp_outlook(machine: &Machine, call: &UdpCall) -> Outlook
    ensures { result ≡ udp_outlook machine.now call.now }
{
    match call {
        UdpCall::Receive {
            incoming,
            max_results,
        } if *max_results > 0 => {
            match handles::kind(&machine.table, *incoming) {
                Some(Kind::Incoming(place)) => receive_at(&machine.store.records, place),
                _ => Outlook::Ready,
            }
        }
        _ => Outlook::Ready,
    }
}

/// A call of a stream. A splice that blocks looks at its output first, and this is its look at the
/// input.
pub(crate) fn stream_outlook(machine: &Machine, call: &StreamCall) -> Outlook
    ensures { result ≡ stream_outlook machine.now call.now }
{
    match call {
        StreamCall::CheckWrite { output } | StreamCall::Splice { output, .. } => {
            room_outlook(machine, *output)
        }
        StreamCall::BlockingRead { input, .. }
        | StreamCall::BlockingSkip { input, .. }
        | StreamCall::BlockingSplice { input, .. } => input_outlook(machine, *input),
        StreamCall::BlockingWrite { output, .. }
        | StreamCall::BlockingZeroes { output, .. }
        | StreamCall::BlockingFlush { output } => output_outlook(machine, *output),
        _ => Outlook::Ready,
    }
}

/// The record number of the socket of an end of 0.3 that is open.
fn end_outlook(records: &RecordList, end: ConnectionEnd, reads: bool) -> Outlook
    ensures { result ≡ end_outlook records.now.items end reads }
{
    match end.socket {
        Some(place) => {
            if reads {
                input_at(records, place)
            } else {
                output_at(records, place)
            }
        }
        None => Outlook::Ready,
    }
}

/// A call of a TCP socket of 0.3, or of an end of its streams. Reads and writes don't look; with no
/// bytes they only look.
pub(crate) fn p3_tcp_outlook(machine: &Machine, call: &P3TcpCall) -> Outlook
    ensures { result ≡ p3_tcp_outlook machine.now call.now }
{
    match call {
        P3TcpCall::Accept { listener, .. } => match handles::kind(&machine.table, *listener) {
            Some(Kind::Listen3(place)) => listener_at(&machine.store.records, place),
            _ => Outlook::Ready,
        },
        P3TcpCall::Read { end, len } if *len == 0 => match handles::kind(&machine.table, *end) {
            Some(Kind::Receive3(end)) => end_outlook(&machine.store.records, end, true),
            _ => Outlook::Ready,
        },
        P3TcpCall::Write { end, bytes } if bytes.is_empty() => {
            match handles::kind(&machine.table, *end) {
                Some(Kind::Send3(end)) => end_outlook(&machine.store.records, end, false),
                _ => Outlook::Ready,
            }
        }
        _ => Outlook::Ready,
    }
}
