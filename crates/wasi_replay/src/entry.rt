//! Which answers fit which call.

ghost use Rattle.std.specs.Prelude.{◌≡◌, IsTrue, ◌↔◌};
ghost use Rattle.wasi_replay.specs.Recorded.{FitsEntry, is_verdict, is_names, is_done};
ghost use Rattle.wasi_replay.specs.Recorded.{is_done_or_code, is_polled, is_ready, is_addr};
ghost use Rattle.wasi_replay.specs.Recorded.{is_arrival, is_read, is_written, is_datagram, is_value};
ghost use Rattle.wasi_replay.specs.Recorded.{answer_fits, is_single, fits_entry};

use wasi_addr::ShutdownType;
use wasi_world::{Call, Entry, Told};

fn is_verdict(told: &Told) -> bool
    ensures { result ≡ is_verdict told.now }
{
    matches!(told, Told::Pending | Told::Yes | Told::No)
}

fn is_names(told: &Told) -> bool
    ensures { result ≡ is_names told.now }
{
    matches!(told, Told::Pending | Told::Names(_) | Told::Code(_))
}

fn is_done(told: &Told) -> bool
    ensures { result ≡ is_done told.now }
{
    matches!(told, Told::Done)
}

fn is_done_or_code(told: &Told) -> bool
    ensures { result ≡ is_done_or_code told.now }
{
    matches!(told, Told::Done | Told::Code(_))
}

fn is_polled(told: &Told) -> bool
    ensures { result ≡ is_polled told.now }
{
    matches!(told, Told::Pending | Told::Done | Told::Code(_))
}

fn is_ready(told: &Told) -> bool
    ensures { result ≡ is_ready told.now }
{
    matches!(told, Told::Pending | Told::Done)
}

fn is_addr(told: &Told) -> bool
    ensures { result ≡ is_addr told.now }
{
    matches!(told, Told::Addr(_) | Told::Code(_))
}

fn is_arrival(told: &Told) -> bool
    ensures { result ≡ is_arrival told.now }
{
    matches!(told, Told::Pending | Told::Arrived(_) | Told::Code(_))
}

fn is_read(size: u32, told: &Told) -> bool
    ensures { result ≡ is_read size told.now }
{
    match told {
        Told::Bytes(bytes) => bytes.len() <= size as usize,
        _ => matches!(told, Told::Pending | Told::Code(_)),
    }
}

fn is_written(offered: u32, told: &Told) -> bool
    ensures { result ≡ is_written offered told.now }
{
    match told {
        Told::Took(bytes) => 1 <= bytes.len() && bytes.len() <= offered as usize,
        _ => matches!(told, Told::Pending | Told::Code(_)),
    }
}

fn is_datagram(told: &Told) -> bool
    ensures { result ≡ is_datagram told.now }
{
    matches!(told, Told::Pending | Told::Datagram(_, _) | Told::Code(_))
}

fn is_value(told: &Told) -> bool
    ensures { result ≡ is_value told.now }
{
    matches!(told, Told::Value(_) | Told::Code(_))
}

/// Whether the answer is one that fits the call.
fn answer_fits(call: &Call, told: &Told) -> bool
    ensures { result ≡ answer_fits call.now told.now }
{
    match call {
        Call::Check { .. } => is_verdict(told),
        Call::Lookup { .. } => is_names(told),
        Call::TcpCreate { .. }
        | Call::UdpCreate { .. }
        | Call::Bind { .. }
        | Call::UdpBind { .. }
        | Call::UdpConnect { .. }
        | Call::Listen { .. }
        | Call::SetBacklog { .. }
        | Call::UdpDisconnect { .. }
        | Call::SetOption { .. } => is_done_or_code(told),
        Call::UdpWritable { .. } | Call::Connect { .. } | Call::Send { .. } => is_polled(told),
        Call::Local { .. } | Call::Peer { .. } => is_addr(told),
        Call::Accept { .. } => is_arrival(told),
        Call::Hand { .. }
        | Call::Refuse { .. }
        | Call::Shutdown { .. }
        | Call::Close { .. }
        | Call::Made { .. } => is_done(told),
        Call::Read { size, .. } => is_read(*size, told),
        Call::ReadReady { .. } | Call::WriteReady { .. } => is_ready(told),
        Call::Write { offered, .. } => is_written(*offered, told),
        Call::Recv { .. } => is_datagram(told),
        Call::GetOption { .. } => is_value(told),
    }
}

/// Whether the call is none or one that shuts down a single half.
fn is_single(call: &Call) -> bool
    ensures { result ≡ is_single call.now }
{
    match call {
        Call::Shutdown { how, .. } => !matches!(how, ShutdownType::Both),
        _ => true,
    }
}

/// The same as `fits`, of which the contract says what it means.
fn is_fitting(entry: &Entry) -> bool
    ensures { result ≡ fits_entry entry.now }
{
    answer_fits(&entry.call, &entry.answer) && is_single(&entry.call)
}

/// Whether an entry may stand in a log: its answer fits its call, and the call doesn't shut down
/// both halves at once. Takes no memory.
pub fn fits(entry: &Entry) -> bool
    ensures value { result ≡ fits_entry entry.now }
    ensures exact { IsTrue result ↔ FitsEntry entry.now }
{
    is_fitting(entry)
}
