//! The imports behind the numbers of the calls.

ghost use Rattle.std.specs.Prelude.{◌≡◌, ◌==◌, find, map};
ghost use Rattle.embed_flat.specs.Signatures.{imports, lowered, row_seen, shape_in, place_in};

use crate::op;
use crate::shape::Shape;

/// Of each call its number, what it gives, and which argument is the place for that: the one behind
/// its own.
pub const SIGNATURES: [(u32, Shape, usize); 66] = [
    (op::INSTANCE_NETWORK, Shape::Flat, 0),
    (op::CREATE_TCP_SOCKET, Shape::Word, 1),
    (op::CREATE_UDP_SOCKET, Shape::Word, 1),
    (op::TCP_START_BIND, Shape::Unit, 14),
    (op::TCP_FINISH_BIND, Shape::Unit, 1),
    (op::TCP_START_CONNECT, Shape::Unit, 14),
    (op::TCP_FINISH_CONNECT, Shape::Pair, 1),
    (op::TCP_START_LISTEN, Shape::Unit, 1),
    (op::TCP_FINISH_LISTEN, Shape::Unit, 1),
    (op::TCP_ACCEPT, Shape::Triple, 1),
    (op::TCP_LOCAL_ADDRESS, Shape::Address, 1),
    (op::TCP_REMOTE_ADDRESS, Shape::Address, 1),
    (op::TCP_IS_LISTENING, Shape::Flat, 1),
    (op::TCP_ADDRESS_FAMILY, Shape::Family, 1),
    (op::TCP_SHUTDOWN, Shape::Unit, 2),
    (op::TCP_KEEP_ALIVE_ENABLED, Shape::Truth, 1),
    (op::TCP_KEEP_ALIVE_IDLE_TIME, Shape::Wide, 1),
    (op::TCP_KEEP_ALIVE_INTERVAL, Shape::Wide, 1),
    (op::TCP_KEEP_ALIVE_COUNT, Shape::Word, 1),
    (op::TCP_HOP_LIMIT, Shape::Byte, 1),
    (op::TCP_RECEIVE_BUFFER_SIZE, Shape::Wide, 1),
    (op::TCP_SEND_BUFFER_SIZE, Shape::Wide, 1),
    (op::TCP_SET_KEEP_ALIVE_ENABLED, Shape::Unit, 2),
    (op::TCP_SET_KEEP_ALIVE_IDLE_TIME, Shape::Unit, 2),
    (op::TCP_SET_KEEP_ALIVE_INTERVAL, Shape::Unit, 2),
    (op::TCP_SET_KEEP_ALIVE_COUNT, Shape::Unit, 2),
    (op::TCP_SET_HOP_LIMIT, Shape::Unit, 2),
    (op::TCP_SET_RECEIVE_BUFFER_SIZE, Shape::Unit, 2),
    (op::TCP_SET_SEND_BUFFER_SIZE, Shape::Unit, 2),
    (op::TCP_SET_LISTEN_BACKLOG_SIZE, Shape::Unit, 2),
    (op::UDP_START_BIND, Shape::Unit, 14),
    (op::UDP_FINISH_BIND, Shape::Unit, 1),
    (op::UDP_STREAM, Shape::Pair, 14),
    (op::UDP_LOCAL_ADDRESS, Shape::Address, 1),
    (op::UDP_REMOTE_ADDRESS, Shape::Address, 1),
    (op::UDP_ADDRESS_FAMILY, Shape::Family, 1),
    (op::UDP_RECEIVE, Shape::Datagrams, 2),
    (op::UDP_CHECK_SEND, Shape::Wide, 1),
    (op::UDP_SEND, Shape::Wide, 3),
    (op::UDP_UNICAST_HOP_LIMIT, Shape::Byte, 1),
    (op::UDP_RECEIVE_BUFFER_SIZE, Shape::Wide, 1),
    (op::UDP_SEND_BUFFER_SIZE, Shape::Wide, 1),
    (op::UDP_SET_UNICAST_HOP_LIMIT, Shape::Unit, 2),
    (op::UDP_SET_RECEIVE_BUFFER_SIZE, Shape::Unit, 2),
    (op::UDP_SET_SEND_BUFFER_SIZE, Shape::Unit, 2),
    (op::RESOLVE_ADDRESSES, Shape::Word, 3),
    (op::RESOLVE_NEXT_ADDRESS, Shape::MaybeIp, 1),
    (op::SUBSCRIBE, Shape::Flat, 1),
    (op::READY, Shape::Flat, 1),
    (op::BLOCK, Shape::Flat, 1),
    (op::POLL, Shape::Places, 2),
    (op::RESOURCE_DROP, Shape::Flat, 1),
    (op::NETWORK_ERROR_CODE, Shape::MaybeCode, 1),
    (op::READ, Shape::StreamBytes, 2),
    (op::BLOCKING_READ, Shape::StreamBytes, 2),
    (op::SKIP, Shape::StreamWide, 2),
    (op::BLOCKING_SKIP, Shape::StreamWide, 2),
    (op::CHECK_WRITE, Shape::StreamWide, 1),
    (op::WRITE, Shape::StreamUnit, 3),
    (op::BLOCKING_WRITE_AND_FLUSH, Shape::StreamUnit, 3),
    (op::FLUSH, Shape::StreamUnit, 1),
    (op::BLOCKING_FLUSH, Shape::StreamUnit, 1),
    (op::WRITE_ZEROES, Shape::StreamUnit, 2),
    (op::BLOCKING_WRITE_ZEROES_AND_FLUSH, Shape::StreamUnit, 2),
    (op::SPLICE, Shape::StreamWide, 3),
    (op::BLOCKING_SPLICE, Shape::StreamWide, 3),
];

/// The row of a call's number; the first, where there are more.
fn row_of(rows: &[(u32, Shape, usize)], number: u32) -> Option<(u32, Shape, usize)>
    ensures { result ≡ find (λ row. row.0 == number) rows.now }
{
    rows.iter().copied().find(|row| row.0 == number)
}

/// The shape of what the call of this number gives.
pub fn shape_of(number: u32) -> Shape
    ensures { result ≡ shape_in (find (λ row. row.0 == number) SIGNATURES) }
{
    match row_of(&SIGNATURES, number) {
        Some(row) => row.1,
        None => Shape::Flat,
    }
}

/// Which argument of the call of this number is the place for what it gives.
pub fn result_place(number: u32) -> usize
    ensures { result ≡ place_in (find (λ row. row.0 == number) SIGNATURES) }
{
    match row_of(&SIGNATURES, number) {
        Some(row) => row.2,
        None => 0,
    }
}

/// The table is that of the interface's functions: each gives what its type says, at the place that
/// is passed behind its arguments.
pub fn signatures_are_the_imports()
    ensures { map row_seen SIGNATURES ≡ map lowered imports }
{}
