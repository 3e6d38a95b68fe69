//! Reads the fields of a log's entries.

ghost use Rattle.std.specs.Prelude.{◌≡◌};
ghost use Rattle.world_text.specs.Fields.{Reads, number_in};
ghost use Rattle.wasi_replay.specs.Arguments.{use_in, use_at, option_in, option_at, handle_kind_in};
ghost use Rattle.wasi_replay.specs.Arguments.{handle_kind_at, half_at, sock_at, handle_or_none};
ghost use Rattle.wasi_replay.specs.Arguments.{maybe_handle_at, sock_or_none, maybe_sock_at};

use wasi_addr::{ShutdownType, SocketAddrUse};
use wasi_world::{HandleKind, OpId, Opt, Sock};
use world_text::Fields;
use world_text::fields::number;
use world_text::spelling::{handle_kind_word, option_word, use_word};

const USES: [SocketAddrUse; 7] = [
    SocketAddrUse::TcpBind,
    SocketAddrUse::TcpListen,
    SocketAddrUse::TcpAccept,
    SocketAddrUse::TcpConnect,
    SocketAddrUse::UdpBind,
    SocketAddrUse::UdpSend,
    SocketAddrUse::UdpReceive,
];

/// The use whose word this is.
#[tactic(auto, unfolding(crate::specs::Arguments::use_in))]
fn use_in(word: &[u8]) -> Option<SocketAddrUse>
    ensures { result ≡ use_in word.now }
{
    USES.iter()
        .copied()
        .find(|usage| use_word(*usage).as_bytes() == word)
}

/// Takes the use of an address.
#[tactic(auto, unfolding(crate::specs::Arguments::use_at, world_text::specs::Fields::field_at, world_text::specs::Fields::read_then, world_text::specs::Fields::give_some))]
pub fn usage(fields: &mut Fields<'_>) -> Option<SocketAddrUse>
    ensures { Reads use_at fields.old result fields.new }
{
    use_in(fields.next()?)
}

const OPTIONS: [Opt; 7] = [
    Opt::KeepAliveEnabled,
    Opt::KeepAliveIdleTime,
    Opt::KeepAliveInterval,
    Opt::KeepAliveCount,
    Opt::HopLimit,
    Opt::ReceiveBufferSize,
    Opt::SendBufferSize,
];

/// The option whose word this is.
#[tactic(auto, unfolding(crate::specs::Arguments::option_in))]
fn option_in(word: &[u8]) -> Option<Opt>
    ensures { result ≡ option_in word.now }
{
    OPTIONS
        .iter()
        .copied()
        .find(|option| option_word(*option).as_bytes() == word)
}

/// Takes an option of a socket.
#[tactic(auto, unfolding(crate::specs::Arguments::option_at, world_text::specs::Fields::field_at, world_text::specs::Fields::read_then, world_text::specs::Fields::give_some))]
pub fn option(fields: &mut Fields<'_>) -> Option<Opt>
    ensures { Reads option_at fields.old result fields.new }
{
    option_in(fields.next()?)
}

const HANDLE_KINDS: [HandleKind; 16] = [
    HandleKind::Network,
    HandleKind::Tcp2,
    HandleKind::Udp2,
    HandleKind::Input,
    HandleKind::Output,
    HandleKind::Incoming,
    HandleKind::Outgoing,
    HandleKind::Pollable,
    HandleKind::Lookup,
    HandleKind::ErrorValue,
    HandleKind::Tcp3,
    HandleKind::Udp3,
    HandleKind::Listen3,
    HandleKind::Receive3,
    HandleKind::Send3,
    HandleKind::Result3,
];

/// The kind of handle whose word this is.
#[tactic(auto, unfolding(crate::specs::Arguments::handle_kind_in))]
fn handle_kind_in(word: &[u8]) -> Option<HandleKind>
    ensures { result ≡ handle_kind_in word.now }
{
    HANDLE_KINDS
        .iter()
        .copied()
        .find(|kind| handle_kind_word(*kind).as_bytes() == word)
}

/// Takes the kind of a handle.
#[tactic(auto, unfolding(crate::specs::Arguments::handle_kind_at, world_text::specs::Fields::field_at, world_text::specs::Fields::read_then, world_text::specs::Fields::give_some))]
pub fn handle_kind(fields: &mut Fields<'_>) -> Option<HandleKind>
    ensures { Reads handle_kind_at fields.old result fields.new }
{
    handle_kind_in(fields.next()?)
}

/// Takes the half that is shut down.
#[tactic(auto, unfolding(crate::specs::Arguments::half_at, world_text::specs::Fields::read_then, world_text::specs::Fields::give))]
pub fn half(fields: &mut Fields<'_>) -> Option<ShutdownType>
    ensures { Reads half_at fields.old result fields.new }
{
    match fields.word()? {
        "receive" => Some(ShutdownType::Receive),
        "send" => Some(ShutdownType::Send),
        _ => None,
    }
}

/// Takes the name of an operation or of a socket.
#[tactic(auto, unfolding(crate::specs::Arguments::sock_at, world_text::specs::Fields::read_then, world_text::specs::Fields::give))]
pub fn sock(fields: &mut Fields<'_>) -> Option<Sock>
    ensures { Reads sock_at fields.old result fields.new }
{
    Some(OpId {
        step: fields.u32()?,
        part: fields.number(u64::MAX)?,
    })
}

/// The number of 32 bits that the word is.
fn u32_in(word: &str) -> Option<u32>
    ensures { result ≡ number_in word.now 4294967295 }
{
    Some(number(word.as_bytes(), 4294967295)? as u32)
}

/// The handle whose number the word is, or none where it is a dash.
#[tactic(auto, unfolding(world_text::specs::Fields::read_then, world_text::specs::Fields::give, world_text::specs::Fields::give_some))]
fn handle_or_none(fields: &mut Fields<'_>, word: &str) -> Option<Option<u32>>
    ensures { Reads (handle_or_none word.now) fields.old result fields.new }
{
    if word.as_bytes() == b"-".as_slice() {
        return Some(None);
    }
    let handle = u32_in(word)?;
    Some(Some(handle))
}

/// Takes a handle, or a dash for none.
#[tactic(auto, unfolding(crate::specs::Arguments::maybe_handle_at, world_text::specs::Fields::read_then))]
pub fn maybe_handle(fields: &mut Fields<'_>) -> Option<Option<u32>>
    ensures { Reads maybe_handle_at fields.old result fields.new }
{
    let word = fields.word()?;
    handle_or_none(fields, word)
}

/// Takes what is left of a socket's name of which this word was the first, or none where that is a
/// dash.
#[tactic(auto, unfolding(world_text::specs::Fields::read_then, world_text::specs::Fields::give, world_text::specs::Fields::give_some))]
fn sock_or_none(fields: &mut Fields<'_>, word: &str) -> Option<Option<Sock>>
    ensures { Reads (sock_or_none word.now) fields.old result fields.new }
{
    if word.as_bytes() == b"-".as_slice() {
        return Some(None);
    }
    let step = u32_in(word)?;
    let part = fields.number(u64::MAX)?;
    Some(Some(OpId { step, part }))
}

/// Takes the name of a socket, or a dash for none.
#[tactic(auto, unfolding(crate::specs::Arguments::maybe_sock_at, world_text::specs::Fields::read_then))]
pub fn maybe_sock(fields: &mut Fields<'_>) -> Option<Option<Sock>>
    ensures { Reads maybe_sock_at fields.old result fields.new }
{
    let word = fields.word()?;
    sock_or_none(fields, word)
}
