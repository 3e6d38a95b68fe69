//! The calls on UDP sockets and their streams.

ghost use Rattle.std.specs.Prelude.{◌≤◌};

use crate::args::{Args, Refusal};
use crate::memory::bytes_at;
use crate::op;
use wasi_addr::IpSocketAddress;
use wasi_steps::{UdpCall, UdpOption, UdpSetting};
use wasi_world::{Handle, Octets, OutgoingDatagram, OutgoingDatagrams};

/// How many bytes an outgoing datagram takes in memory.
const DATAGRAM_SIZE: u32 = 44;

/// The option that a getter reads.
fn option_of(number: u32) -> Option<UdpOption> {
    match number {
        op::UDP_UNICAST_HOP_LIMIT => Some(UdpOption::HopLimit),
        op::UDP_RECEIVE_BUFFER_SIZE => Some(UdpOption::ReceiveBufferSize),
        op::UDP_SEND_BUFFER_SIZE => Some(UdpOption::SendBufferSize),
        _ => None,
    }
}

/// What a setter sets.
fn setting(number: u32, args: &Args<'_>) -> Result<UdpSetting, Refusal> {
    match number {
        op::UDP_SET_UNICAST_HOP_LIMIT => Ok(UdpSetting::HopLimit(args.byte(1)?)),
        op::UDP_SET_RECEIVE_BUFFER_SIZE => Ok(UdpSetting::ReceiveBufferSize(args.wide(1)?)),
        op::UDP_SET_SEND_BUFFER_SIZE => Ok(UdpSetting::SendBufferSize(args.wide(1)?)),
        _ => Err(Refusal::Argument),
    }
}

/// The number of so many bytes at a place of a datagram, the lowest first.
fn number_in(bytes: &[u8], at: usize, width: usize) -> u64
    requires width { width ≤ 8 }
    requires place { at ≤ 64 }
{
    let mut number = [0u8; 8];
    for k in 0..width {
        if let Some(byte) = bytes.get(at + k) {
            number[k] = *byte;
        }
    }
    u64::from_le_bytes(number)
}

/// The numbers of a remote address as they would be passed: whether there is one, its case and its
/// eleven numbers.
fn remote_numbers(bytes: &[u8]) -> [u64; 13] {
    let mut numbers = [0u64; 13];
    numbers[0] = number_in(bytes, 8, 1);
    numbers[1] = number_in(bytes, 12, 1);
    numbers[2] = number_in(bytes, 16, 2);
    if numbers[1] == 0 {
        for k in 0..4 {
            numbers[3 + k] = number_in(bytes, 18 + k, 1);
        }
    } else {
        numbers[3] = number_in(bytes, 20, 4);
        for k in 0..8 {
            numbers[4 + k] = number_in(bytes, 24 + 2 * k, 2);
        }
        numbers[12] = number_in(bytes, 40, 4);
    }
    numbers
}

/// The remote address of a datagram.
fn remote(args: &Args<'_>, bytes: &[u8]) -> Result<Option<IpSocketAddress>, Refusal> {
    let numbers = remote_numbers(bytes);
    let flat = Args {
        alloc: args.alloc,
        numbers: &numbers,
        memory: args.memory,
    };
    flat.maybe_address(0)
}

/// A datagram that lies at a place of the memory.
fn datagram(args: &Args<'_>, at: u32) -> Result<OutgoingDatagram, Refusal> {
    let Some(bytes) = bytes_at(args.memory, at, DATAGRAM_SIZE) else {
        return Err(Refusal::Bounds);
    };
    let list = [number_in(bytes, 0, 4), number_in(bytes, 4, 4)];
    let flat = Args {
        alloc: args.alloc,
        numbers: &list,
        memory: args.memory,
    };
    let remote_address = remote(args, bytes)?;
    let bytes = Octets::copy_of(args.alloc, flat.bytes(0)?)?;
    Ok(OutgoingDatagram {
        bytes,
        remote_address,
    })
}

/// The datagrams of a list.
fn datagrams(args: &Args<'_>) -> Result<OutgoingDatagrams, Refusal> {
    let start = args.word(1)?;
    let count = args.word(2)?;
    let mut all = Vec::new(args.alloc);
    for k in 0..count {
        let at = u64::from(start) + u64::from(k) * u64::from(DATAGRAM_SIZE);
        if at > 4_294_967_295 {
            return Err(Refusal::Bounds);
        }
        let one = datagram(args, at as u32)?;
        if all.push(one).is_err() {
            return Err(Refusal::Memory);
        }
    }
    Ok(OutgoingDatagrams::from_vec(all))
}

/// A call with the socket as its one argument.
fn bare(number: u32, socket: Handle) -> Option<UdpCall> {
    match number {
        op::UDP_FINISH_BIND => Some(UdpCall::FinishBind { socket }),
        op::UDP_LOCAL_ADDRESS => Some(UdpCall::LocalAddress { socket }),
        op::UDP_REMOTE_ADDRESS => Some(UdpCall::RemoteAddress { socket }),
        op::UDP_ADDRESS_FAMILY => Some(UdpCall::AddressFamily { socket }),
        op::UDP_CHECK_SEND => Some(UdpCall::CheckSend { outgoing: socket }),
        _ => None,
    }
}

/// A call with more arguments.
fn further(number: u32, socket: Handle, args: &Args<'_>) -> Result<UdpCall, Refusal> {
    match number {
        op::UDP_START_BIND => Ok(UdpCall::StartBind {
            socket,
            network: args.word(1)?,
            addr: args.address(2)?,
        }),
        op::UDP_STREAM => Ok(UdpCall::Stream {
            socket,
            remote: args.maybe_address(1)?,
        }),
        // One datagram at a time, since each has a list of its own in the guest's memory.
        op::UDP_RECEIVE => Ok(UdpCall::Receive {
            incoming: socket,
            max_results: args.wide(1)?.min(1),
        }),
        op::UDP_SEND => Ok(UdpCall::Send {
            outgoing: socket,
            datagrams: datagrams(args)?,
        }),
        _ => Ok(UdpCall::Set {
            socket,
            setting: setting(number, args)?,
        }),
    }
}

/// The call on a UDP socket or one of its streams that has this number.
pub fn udp_call(number: u32, args: &Args<'_>) -> Result<UdpCall, Refusal> {
    let socket = args.word(0)?;
    if let Some(call) = bare(number, socket) {
        return Ok(call);
    }
    if let Some(option) = option_of(number) {
        return Ok(UdpCall::Get { socket, option });
    }
    further(number, socket, args)
}
