//! Reads the calls of a log.

ghost use Rattle.std.specs.Prelude.{IfOk, ◌++◌};
ghost use Rattle.world_text.specs.Fields.{Reads, after_word};
ghost use Rattle.wasi_replay.specs.Calls.{other_calls, address_calls, number_calls, sock_calls};
ghost use Rattle.wasi_replay.specs.Calls.{rows_of_calls, call_signature, some_sock, nowhere};
ghost use Rattle.wasi_replay.specs.Calls.{call_at};
ghost use Rattle.wasi_replay.specs.Arguments.{row_of};
ghost use Rattle.wasi_world.specs.declared.call.Call.TheVariants as call;
ghost use Rattle.std.specs.Prelude.{[]};

use crate::fields::{half, handle_kind, maybe_handle, maybe_sock, option, sock, usage};
use std::alloc::{AllocError, Global};
use wasi_world::{Call, NameText};
use world_text::Fields;

/// Takes what follows the word of a call about a socket alone.
#[tactic(auto, unfolding(world_text::specs::Fields::read_then, world_text::specs::Fields::give))]
fn on_socket(fields: &mut Fields<'_>, word: &str) -> Option<Call>
    ensures { Reads (after_word (rows_of_calls sock_calls) word.now) fields.old result fields.new }
{
    match word {
        "udp-writable" => Some(Call::UdpWritable {
            sock: sock(fields)?,
        }),
        "local" => Some(Call::Local {
            sock: sock(fields)?,
        }),
        "peer" => Some(Call::Peer {
            sock: sock(fields)?,
        }),
        "accept" => Some(Call::Accept {
            sock: sock(fields)?,
        }),
        "read-ready" => Some(Call::ReadReady {
            sock: sock(fields)?,
        }),
        "write-ready" => Some(Call::WriteReady {
            sock: sock(fields)?,
        }),
        "udp-disconnect" => Some(Call::UdpDisconnect {
            sock: sock(fields)?,
        }),
        "recv" => Some(Call::Recv {
            sock: sock(fields)?,
        }),
        "close" => Some(Call::Close {
            sock: sock(fields)?,
        }),
        _ => None,
    }
}

/// Takes what follows the word of a call about a socket, with a number or alone.
#[tactic(auto, unfolding(world_text::specs::Fields::read_then, world_text::specs::Fields::give))]
fn with_number(fields: &mut Fields<'_>, word: &str) -> Option<Call>
    ensures { Reads (after_word (rows_of_calls (number_calls ++ sock_calls)) word.now) fields.old
        result fields.new }
{
    match word {
        "listen" => Some(Call::Listen {
            sock: sock(fields)?,
            backlog: fields.u32()?,
        }),
        "set-backlog" => Some(Call::SetBacklog {
            sock: sock(fields)?,
            backlog: fields.u32()?,
        }),
        "read" => Some(Call::Read {
            sock: sock(fields)?,
            size: fields.u32()?,
        }),
        "write" => Some(Call::Write {
            sock: sock(fields)?,
            offered: fields.u32()?,
        }),
        _ => on_socket(fields, word),
    }
}

/// Takes what follows the word of a call about a socket, with an address, with a number or alone.
#[tactic(auto, unfolding(world_text::specs::Fields::read_then, world_text::specs::Fields::give))]
fn with_address(fields: &mut Fields<'_>, word: &str) -> Option<Call>
    ensures { Reads (after_word (rows_of_calls (address_calls ++ number_calls ++ sock_calls))
        word.now) fields.old result fields.new }
{
    match word {
        "bind" => Some(Call::Bind {
            sock: sock(fields)?,
            addr: fields.socket_address()?,
        }),
        "udp-bind" => Some(Call::UdpBind {
            sock: sock(fields)?,
            addr: fields.socket_address()?,
        }),
        "udp-connect" => Some(Call::UdpConnect {
            sock: sock(fields)?,
            addr: fields.socket_address()?,
        }),
        "connect" => Some(Call::Connect {
            sock: sock(fields)?,
            addr: fields.socket_address()?,
        }),
        "hand" => Some(Call::Hand {
            sock: sock(fields)?,
            peer: fields.socket_address()?,
        }),
        "refuse" => Some(Call::Refuse {
            sock: sock(fields)?,
            peer: fields.socket_address()?,
        }),
        _ => with_number(fields, word),
    }
}

/// Takes what follows the word of a call that holds no bytes.
#[tactic(auto, unfolding(world_text::specs::Fields::read_then, world_text::specs::Fields::give))]
fn plain_call(fields: &mut Fields<'_>, word: &str) -> Option<Call>
    ensures { Reads (after_word (rows_of_calls (other_calls ++ address_calls ++ number_calls
        ++ sock_calls)) word.now) fields.old result fields.new }
{
    match word {
        "check" => Some(Call::Check {
            ctx: fields.u32()?,
            addr: fields.socket_address()?,
            usage: usage(fields)?,
        }),
        "tcp-create" => Some(Call::TcpCreate {
            ctx: fields.u32()?,
            family: fields.family()?,
        }),
        "udp-create" => Some(Call::UdpCreate {
            ctx: fields.u32()?,
            family: fields.family()?,
        }),
        "shutdown" => Some(Call::Shutdown {
            sock: sock(fields)?,
            how: half(fields)?,
        }),
        "get-option" => Some(Call::GetOption {
            sock: sock(fields)?,
            option: option(fields)?,
        }),
        "set-option" => Some(Call::SetOption {
            sock: sock(fields)?,
            option: option(fields)?,
            value: fields.number(u64::MAX)?,
        }),
        "made" => Some(Call::Made {
            handle: fields.u32()?,
            kind: handle_kind(fields)?,
            parent: maybe_handle(fields)?,
            sock: maybe_sock(fields)?,
        }),
        _ => with_address(fields, word),
    }
}

/// Takes the bytes of a host name.
#[tactic(auto, unfolding(world_text::specs::Fields::read_then, world_text::specs::Fields::give))]
fn lookup(alloc: Global, fields: &mut Fields<'_>) -> Result<Option<Call>, AllocError>
    ensures { IfOk result (λ read. Reads (row_of (call_signature (call.Lookup []))).reads fields.old
        read fields.new) }
{
    let Some(host) = fields.octets(alloc)? else {
        return Ok(None);
    };
    let host = NameText::from_vec(host.into_vec());
    Ok(Some(Call::Lookup { host }))
}

/// Takes a datagram and where it is sent.
#[tactic(auto, unfolding(world_text::specs::Fields::read_then, world_text::specs::Fields::give))]
fn send(alloc: Global, fields: &mut Fields<'_>) -> Result<Option<Call>, AllocError>
    ensures { IfOk result (λ read. Reads (row_of (call_signature (call.Send some_sock nowhere
        []))).reads fields.old read fields.new) }
{
    let Some(sock) = sock(fields) else {
        return Ok(None);
    };
    let Some(addr) = fields.socket_address() else {
        return Ok(None);
    };
    let Some(bytes) = fields.octets(alloc)? else {
        return Ok(None);
    };
    Ok(Some(Call::Send { sock, addr, bytes }))
}

/// Takes a call. Takes memory for its bytes.
#[tactic(auto, unfolding(crate::specs::Calls::call_at, world_text::specs::Fields::read_then))]
pub fn call(alloc: Global, fields: &mut Fields<'_>) -> Result<Option<Call>, AllocError>
    ensures { IfOk result (λ read. Reads call_at fields.old read fields.new) }
{
    let Some(word) = fields.word() else {
        return Ok(None);
    };
    match word {
        "lookup" => lookup(alloc, fields),
        "send" => send(alloc, fields),
        _ => Ok(plain_call(fields, word)),
    }
}
