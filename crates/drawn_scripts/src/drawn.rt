//! The lines of the blocks of a generated script.

ghost use Rattle.std.specs.Prelude.{◌≡◌, ◌+◌, ◌<◌, ◌≤◌, ◌^◌, ◌++◌, OnOk, codes, decimal};
ghost use Rattle.std.specs.Prelude.{slice_index_or, string_bytes};
ghost use Rattle.world_text.specs.Fields.{bytes_text};
ghost use Rattle.wasi_steps.specs.declared.guest_call.GuestCall.TheVariants as guest;
ghost use Rattle.wasi_steps.specs.declared.guest_call.PollableCall.TheVariants as pollable_call;
ghost use Rattle.drawn_scripts.specs.Generate.{block_at, byte_of, bytes_of, call, count_of, port_of};
ghost use Rattle.drawn_scripts.specs.Generate.{script_line, step_in, tcp2_block, tcp3_block};
ghost use Rattle.drawn_scripts.specs.Generate.{udp_block};

use std::alloc::AllocError;
use std::fmt::Write;
use world_text::digits::push_octets;

/// Which calls a generated script has.
#[derive(Clone, Copy, Debug, PartialEq, Eq)]
pub enum Drawn {
    /// Those of 0.2: each block is of a TCP socket of 0.2.
    OfTwo,
    /// Those of both generations: in turn, a block is of a TCP socket of 0.2, of a TCP socket of
    /// 0.3, and of a UDP socket of each.
    OfBoth,
}

/// What the lines of a block are about.
#[derive(Clone, Copy, Debug, PartialEq, Eq)]
pub(crate) enum Block {
    Tcp2,
    Tcp3,
    Udp,
}

/// The most bytes that a line writes.
const MOST_BYTES: usize = 64;

impl Drawn {
    /// The block with this number.
    pub(crate) fn block_at(self, number: u32) -> Block
        ensures { result ≡ block_at self number }
    {
        match self {
            Drawn::OfTwo => Block::Tcp2,
            Drawn::OfBoth => match number % 3 {
                0 => Block::Tcp2,
                1 => Block::Tcp3,
                _ => Block::Udp,
            },
        }
    }
}

/// The port that a number stands for, 1 or more.
fn port_of(x: u64) -> u16
    ensures { result ≡ port_of x }
{
    (1 + (x >> 33) % 65535) as u16
}

/// How many bytes a number stands for, 1 to 64.
fn count_of(x: u64) -> usize
    ensures count { result ≡ count_of x }
    ensures within { result ≤ 64 }
{
    (1 + x % 64) as usize
}

/// The byte that a number stands for: its highest.
fn byte_of(x: u64) -> u8
    ensures { result ≡ byte_of x }
{
    (x >> 56) as u8
}

/// Appends the bytes that a number stands for, and ends the line.
fn push_bytes(text: &mut String, x: u64) -> Result<(), AllocError>
    ensures { OnOk result (string_bytes text.new ≡ string_bytes text.old
        ++ (bytes_text (bytes_of x) ++ codes "\n")) }
{
    let bytes = [byte_of(x); MOST_BYTES];
    push_octets(text, &bytes[..count_of(x)])?;
    text.push_str("\n")
}

/// Appends a line that names one handle.
fn push_named(text: &mut String, word: &str, handle: u32) -> Result<(), AllocError>
    ensures { OnOk result (string_bytes text.new ≡ string_bytes text.old
        ++ (codes "0 " ++ (word.now ++ (codes " " ++ (decimal handle ++ codes "\n"))))) }
{
    write!(text, "0 {word} {handle}\n")
}

/// Appends the line at this place of a block of a TCP socket of 0.2.
fn push_tcp2(text: &mut String, socket: u32, x: u64, place: u32) -> Result<(), AllocError>
    requires room { socket + 2 < 2 ^ 32 }
    requires within { place < 9 }
    ensures { OnOk result (string_bytes text.new ≡ string_bytes text.old ++ script_line
        (slice_index_or (tcp2_block socket x) place (call (guest.Pollable (pollable_call.Drop socket))))) }
{
    match place {
        0 => text.push_str("0 tcp-create 4\n"),
        1 => {
            let port = port_of(x);
            write!(text, "0 tcp-start-connect {socket} 1 4 127 0 0 1 {port}\n")
        }
        2 => push_named(text, "tcp-finish-connect", socket),
        3 => push_named(text, "check-write", socket + 2),
        4 => {
            write!(text, "0 write {} ", socket + 2)?;
            push_bytes(text, x)
        }
        5 => write!(text, "0 tcp-shutdown {socket} both\n"),
        6 => push_named(text, "drop", socket + 1),
        7 => push_named(text, "drop", socket + 2),
        8 => push_named(text, "drop", socket),
        _ => unreachable!(),
    }
}

/// The same of a TCP socket of 0.3.
fn push_tcp3(text: &mut String, socket: u32, x: u64, place: u32) -> Result<(), AllocError>
    requires room { socket + 2 < 2 ^ 32 }
    requires within { place < 9 }
    ensures { OnOk result (string_bytes text.new ≡ string_bytes text.old ++ script_line
        (slice_index_or (tcp3_block socket x) place (call (guest.Pollable (pollable_call.Drop socket))))) }
{
    match place {
        0 => text.push_str("0 p3-tcp-create 4\n"),
        1 => {
            let port = port_of(x);
            write!(text, "0 p3-tcp-connect {socket} 4 127 0 0 1 {port}\n")
        }
        2 => push_named(text, "p3-tcp-send", socket),
        3 => {
            write!(text, "0 p3-write {} ", socket + 1)?;
            push_bytes(text, x)
        }
        4 => push_named(text, "p3-tcp-remote-address", socket),
        5 => push_named(text, "drop", socket + 1),
        6 => push_named(text, "p3-result", socket + 2),
        7 => push_named(text, "p3-tcp-is-listening", socket),
        8 => push_named(text, "drop", socket),
        _ => unreachable!(),
    }
}

/// The same of UDP sockets, after so many lines.
fn push_udp(
    text: &mut String,
    socket: u32,
    x: u64,
    before: u32,
    place: u32,
) -> Result<(), AllocError>
    requires room { socket + 2 < 2 ^ 32 }
    requires within { place < 9 }
    ensures { OnOk result (string_bytes text.new ≡ string_bytes text.old ++ script_line
        (slice_index_or (udp_block socket x before) place (call (guest.Pollable (pollable_call.Drop socket))))) }
{
    match place {
        0 => text.push_str("0 p3-udp-create 4\n"),
        1 => {
            let port = port_of(x);
            write!(text, "0 p3-udp-send {socket} to 4 127 0 0 1 {port} ")?;
            push_bytes(text, x)
        }
        2 => push_named(text, "p3-udp-receive", socket),
        3 => write!(text, "cancel {before}\n"),
        4 => text.push_str("0 udp-create 4\n"),
        5 => push_named(text, "subscribe", socket + 1),
        6 => push_named(text, "drop", socket + 2),
        7 => push_named(text, "drop", socket + 1),
        8 => push_named(text, "drop", socket),
        _ => unreachable!(),
    }
}

/// Appends the line at this place of a block, after so many lines.
pub(crate) fn push_line(
    text: &mut String,
    block: Block,
    socket: u32,
    x: u64,
    before: u32,
    place: u32,
) -> Result<(), AllocError>
    requires room { socket + 2 < 2 ^ 32 }
    requires within { place < 9 }
    ensures { OnOk result (string_bytes text.new ≡ string_bytes text.old ++ script_line
        (step_in block socket x before place)) }
{
    match block {
        Block::Tcp2 => push_tcp2(text, socket, x, place),
        Block::Tcp3 => push_tcp3(text, socket, x, place),
        Block::Udp => push_udp(text, socket, x, before, place),
    }
}
