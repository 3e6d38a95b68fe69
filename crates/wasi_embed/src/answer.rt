//! What crosses to C besides numbers and bytes.

ghost use Rattle.std.specs.Prelude.{◌≡◌};
ghost use Rattle.wasi_embed.specs.Told.{call_in, call_told, number_of, status_in, status_told};

use crate::status::Status;
use embed_flat::code::code_number;
use wasi_addr::{IpSocketAddress, SocketAddrUse};
use wasi_asking::Ask;
use wasi_steps::Reply;
use wasi_world::TrapKind;

/// A call of a guest: its number, its context, the number under which it is pending, or 0 where it
/// is new, and a place in the guest's memory for a list that it gives.
#[repr(C)]
#[derive(Clone, Copy)]
pub struct Request {
    pub op: u32,
    pub context: u32,
    pub pending: u32,
    pub place: u32,
    pub room: u32,
}

/// What a call of a guest answered.
#[repr(C)]
#[derive(Clone, Copy)]
pub struct Answer {
    /// The number of the [`Status`].
    pub status: u32,
    /// Of a trap its kind, of an error its `error-code`.
    pub code: u32,
    /// The number under which it is pending.
    pub call: u32,
    pub spare: u32,
    /// The number that the call returns.
    pub value: u64,
}

impl Answer {
    /// An answer that has its status alone.
    pub fn of_status(status: Status) -> Answer
        ensures status { result.status ≡ number_of status }
        ensures call { result.call ≡ 0 }
    {
        Answer {
            status: status.number(),
            code: 0,
            call: 0,
            spare: 0,
            value: 0,
        }
    }

    /// The answer of what was told of a step, with this status where it is done.
    pub fn of_told(told: &Result<Reply, Status>, done: Status, value: u64) -> Answer
        ensures status { result.status ≡ number_of (status_told done told.now) }
        ensures call { result.call ≡ call_told told.now }
    {
        let mut answer = Answer::of_status(status_told(told, done));
        if let Ok(reply) = told {
            answer.code = code_in(reply);
            answer.call = call_in(reply);
            answer.value = value;
        }
        answer
    }
}

/// The status of a reply.
fn status_in(reply: &Reply, done: Status) -> Status
    ensures { result ≡ status_in done reply.now }
{
    match reply {
        Reply::Trap(_) => Status::Trap,
        Reply::Pending(_) => Status::Pending,
        Reply::Busy => Status::Busy,
        Reply::NoSuchCall => Status::NoCall,
        _ => done,
    }
}

/// The status of what was told of a step, with this one where it is done.
pub fn status_told(told: &Result<Reply, Status>, done: Status) -> Status
    ensures { result ≡ status_told done told.now }
{
    match told {
        Ok(reply) => status_in(reply, done),
        Err(status) => *status,
    }
}

/// Of an error its `error-code`, of a trap its kind.
fn code_in(reply: &Reply) -> u32 {
    match reply {
        Reply::Err(code) | Reply::Failed(code, _) => u32::from(code_number(*code)),
        Reply::Trap(kind) => trap_number(*kind),
        _ => 0,
    }
}

/// The number under which a call is pending.
fn call_in(reply: &Reply) -> u32
    ensures { result ≡ call_in reply.now }
{
    match reply {
        Reply::Pending(line) => *line,
        _ => 0,
    }
}

/// The number of a trap's kind.
fn trap_number(kind: TrapKind) -> u32 {
    match kind {
        TrapKind::NoSuchHandle => 0,
        TrapKind::HasChildren => 1,
        TrapKind::Full => 2,
        TrapKind::EmptyList => 3,
        TrapKind::NotPermitted => 4,
        TrapKind::Capacity => 5,
        TrapKind::TooLong => 6,
        TrapKind::StreamsAlive => 7,
        TrapKind::Budget => 8,
        TrapKind::FlushPending => 9,
    }
}

/// A check that waits for the embedder's answer. The bytes of an address are in network order; of
/// IPv4 the first four.
#[repr(C)]
#[derive(Clone, Copy)]
pub struct AskRecord {
    pub number: u64,
    pub context: u32,
    pub usage: u32,
    pub family: u32,
    pub port: u32,
    pub address: [u8; 16],
}

/// The number of a use.
fn usage_number(usage: SocketAddrUse) -> u32 {
    match usage {
        SocketAddrUse::TcpBind => 0,
        SocketAddrUse::TcpListen => 1,
        SocketAddrUse::TcpAccept => 2,
        SocketAddrUse::TcpConnect => 3,
        SocketAddrUse::UdpBind => 4,
        SocketAddrUse::UdpSend => 5,
        SocketAddrUse::UdpReceive => 6,
    }
}

/// The bytes of an IPv6 address, in network order.
fn ipv6_bytes(segments: (u16, u16, u16, u16, u16, u16, u16, u16)) -> [u8; 16] {
    let (a, b, c, d, e, f, g, h) = segments;
    let [a0, a1] = a.to_be_bytes();
    let [b0, b1] = b.to_be_bytes();
    let [c0, c1] = c.to_be_bytes();
    let [d0, d1] = d.to_be_bytes();
    let [e0, e1] = e.to_be_bytes();
    let [f0, f1] = f.to_be_bytes();
    let [g0, g1] = g.to_be_bytes();
    let [h0, h1] = h.to_be_bytes();
    [
        a0, a1, b0, b1, c0, c1, d0, d1, e0, e1, f0, f1, g0, g1, h0, h1,
    ]
}

/// The family, the port and the bytes of an address.
fn parts_of(address: IpSocketAddress) -> (u32, u16, [u8; 16]) {
    match address {
        IpSocketAddress::Ipv4(it) => {
            let (a, b, c, d) = it.address;
            (4, it.port, [a, b, c, d, 0, 0, 0, 0, 0, 0, 0, 0, 0, 0, 0, 0])
        }
        IpSocketAddress::Ipv6(it) => (6, it.port, ipv6_bytes(it.address)),
    }
}

impl AskRecord {
    /// The record of a check.
    pub fn of(ask: Ask) -> AskRecord {
        let question = ask.question;
        let (family, port, address) = parts_of(question.address);
        AskRecord {
            number: ask.number,
            context: question.context,
            usage: usage_number(question.usage),
            family,
            port: u32::from(port),
            address,
        }
    }
}
