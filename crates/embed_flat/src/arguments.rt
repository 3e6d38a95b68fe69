//! Which call a number and its arguments are.

use crate::args::{Args, Refusal};
use crate::op;
use crate::streams::{input_call, output_call};
use crate::tcp::tcp_call;
use crate::udp::udp_call;
use wasi_steps::{GuestCall, NameCall, PollableCall, TcpCall, UdpCall};
use wasi_world::{NameText, NumberList};

/// A lookup of the name that lies in the memory.
fn resolve(args: &Args<'_>) -> Result<NameCall, Refusal> {
    let network = args.word(0)?;
    let bytes = args.bytes(1)?;
    if str::from_utf8(bytes).is_err() {
        return Err(Refusal::Argument);
    }
    let name = NameText::copy_of(args.alloc, bytes)?;
    Ok(NameCall::Resolve { network, name })
}

/// The handle whose four bytes these are, the lowest first.
fn handle_of(bytes: &[u8]) -> u32 {
    match bytes {
        [a, b, c, d] => u32::from_le_bytes([*a, *b, *c, *d]),
        _ => 0,
    }
}

/// A poll of the list of pollables that lies in the memory.
fn poll_list(args: &Args<'_>) -> Result<PollableCall, Refusal> {
    let at = args.wide(0)?;
    let count = args.word(1)?;
    let list = [at, u64::from(count) * 4];
    let flat = Args {
        alloc: args.alloc,
        numbers: &list,
        memory: args.memory,
    };
    let bytes = flat.bytes(0)?;
    let mut pollables = Vec::new(args.alloc);
    for handle in bytes.chunks(4) {
        if pollables.push(handle_of(handle)).is_err() {
            return Err(Refusal::Memory);
        }
    }
    let pollables = NumberList::from_vec(pollables);
    Ok(PollableCall::PollList { pollables })
}

/// A call that makes something or is on a pollable, a handle of any kind, or an error.
fn other_call(number: u32, args: &Args<'_>) -> Result<GuestCall, Refusal> {
    match number {
        op::INSTANCE_NETWORK => Ok(GuestCall::Names(NameCall::Network)),
        op::CREATE_TCP_SOCKET => Ok(GuestCall::Tcp(TcpCall::Create {
            family: args.family(0)?,
        })),
        op::CREATE_UDP_SOCKET => Ok(GuestCall::Udp(UdpCall::Create {
            family: args.family(0)?,
        })),
        op::RESOLVE_ADDRESSES => Ok(GuestCall::Names(resolve(args)?)),
        op::RESOLVE_NEXT_ADDRESS => Ok(GuestCall::Names(NameCall::ResolveNext {
            lookup: args.word(0)?,
        })),
        op::SUBSCRIBE => Ok(GuestCall::Pollable(PollableCall::Subscribe {
            handle: args.word(0)?,
        })),
        op::READY => Ok(GuestCall::Pollable(PollableCall::Ready {
            pollable: args.word(0)?,
        })),
        op::BLOCK => Ok(GuestCall::Pollable(PollableCall::Block {
            pollable: args.word(0)?,
        })),
        op::POLL => Ok(GuestCall::Pollable(poll_list(args)?)),
        op::RESOURCE_DROP => Ok(GuestCall::Pollable(PollableCall::Drop {
            handle: args.word(0)?,
        })),
        op::NETWORK_ERROR_CODE => Ok(GuestCall::Names(NameCall::NetworkErrorCode {
            error: args.word(0)?,
        })),
        _ => Err(Refusal::Argument),
    }
}

/// The call that has this number, with these arguments. Takes memory for bytes and lists. A read
/// asks for no more bytes than there is room for.
pub fn guest_call(number: u32, args: &Args<'_>, room: u32) -> Result<GuestCall, Refusal> {
    match number {
        10..=47 => Ok(GuestCall::Tcp(tcp_call(number, args)?)),
        50..=67 => Ok(GuestCall::Udp(udp_call(number, args)?)),
        90..=93 => Ok(GuestCall::Stream(input_call(number, args, room)?)),
        94..=102 => Ok(GuestCall::Stream(output_call(number, args)?)),
        _ => other_call(number, args),
    }
}
