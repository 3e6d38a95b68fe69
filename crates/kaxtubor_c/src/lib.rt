//! The functions that a program in another language links. Each calls one function of
//! `wasi_embed`, which has its clauses; `include/kaxtubor.h` declares and tests before it calls.
#![tactic(auto)]

use std::alloc::Global;
use wasi_embed::{Answer, AskRecord, Context, Held, Host, Request, Setup, Status, open, put_host};

/// What a system's `poll` waits for, as C's `struct pollfd`.
#[repr(C)]
#[derive(Clone, Copy)]
pub struct PollFd {
    pub fd: i32,
    pub events: i16,
    pub revents: i16,
}

/// Opens a host, and puts its pointer there.
#[unsafe(no_mangle)]
pub extern "C" fn kx_raw_open(
    alloc: Global,
    out: &mut *mut u8,
    setup: &mut Setup,
    contexts: &[Context],
    rules: &[u8],
    hosts: &[u8],
) -> u32 {
    let host = match open(alloc, setup, contexts, rules, hosts) {
        Ok(host) => host,
        Err(status) => return status.number(),
    };
    match put_host(alloc, host, out) {
        Ok(()) => Status::Ok.number(),
        Err(_) => Status::Memory.number(),
    }
}

/// Closes a host. Its pointer may be used on, until it is freed.
#[unsafe(no_mangle)]
pub extern "C" fn kx_raw_close(host: Held) -> u32 {
    let mut host = host.into_box();
    let status = host.close();
    Box::leak(host);
    status.number()
}

/// Frees a host, which is closed first. Its pointer may not be used any more.
#[unsafe(no_mangle)]
pub extern "C" fn kx_raw_free(host: Held) {
    let mut host = host.into_box();
    let _ = host.close();
    drop(host);
}

/// The status and the length of a text that was copied.
fn copied(text: (Status, usize), wrote: &mut usize) -> u32 {
    *wrote = text.1;
    text.0.number()
}

/// Does the step of a line.
fn line_of(host: &mut Host, line: &[u8], out: &mut [u8], wrote: &mut usize) -> u32 {
    match host.line(line) {
        Ok(()) => copied(host.copy_reply(out), wrote),
        Err(status) => copied((status, 0), wrote),
    }
}

/// Does the step of a line, and writes the text of its reply.
#[unsafe(no_mangle)]
pub extern "C" fn kx_raw_line(host: Held, line: &[u8], out: &mut [u8], wrote: &mut usize) -> u32 {
    let mut host = host.into_box();
    let status = line_of(&mut host, line, out, wrote);
    Box::leak(host);
    status
}

/// Writes the text of the last line's reply once more.
#[unsafe(no_mangle)]
pub extern "C" fn kx_raw_reply(host: Held, out: &mut [u8], wrote: &mut usize) -> u32 {
    let host = host.into_box();
    let status = copied(host.copy_reply(out), wrote);
    Box::leak(host);
    status
}

/// Makes a guest's call, or polls one that is pending.
#[unsafe(no_mangle)]
pub extern "C" fn kx_raw_call(
    host: Held,
    request: &Request,
    args: &[u64],
    memory: &mut [u8],
    answer: &mut Answer,
) -> u32 {
    let mut host = host.into_box();
    *answer = host.call(*request, args, memory);
    Box::leak(host);
    answer.status
}

/// Lets the host's background work go on.
#[unsafe(no_mangle)]
pub extern "C" fn kx_raw_turn(host: Held) -> u32 {
    let mut host = host.into_box();
    let status = host.turn();
    Box::leak(host);
    status.number()
}

/// Gives up a pending call.
#[unsafe(no_mangle)]
pub extern "C" fn kx_raw_cancel(host: Held, call: u32, answer: &mut Answer) -> u32 {
    let mut host = host.into_box();
    *answer = host.cancel(call);
    Box::leak(host);
    answer.status
}

/// Copies what is waited for, as much as fits, and returns how many there are.
fn waits_of(host: &Host, fds: &mut [PollFd]) -> usize {
    let awaited = host.awaited();
    for (it, out) in awaited.iter().zip(fds.iter_mut()) {
        *out = PollFd {
            fd: it.fd,
            events: it.events,
            revents: 0,
        };
    }
    awaited.len()
}

/// Writes what to wait for before a pending call is polled, and how many there are.
#[unsafe(no_mangle)]
pub extern "C" fn kx_raw_waits(host: Held, fds: &mut [PollFd], count: &mut usize) -> u32 {
    let host = host.into_box();
    *count = waits_of(&host, fds);
    Box::leak(host);
    Status::Ok.number()
}

/// The check that waits for an answer.
fn asked_of(host: &Host, after: u64, ask: &mut AskRecord) -> u32 {
    match host.asked(after) {
        Ok(record) => {
            *ask = record;
            Status::Ok.number()
        }
        Err(status) => status.number(),
    }
}

/// Writes the first check after this number that waits for an answer.
#[unsafe(no_mangle)]
pub extern "C" fn kx_raw_asked(host: Held, after: u64, ask: &mut AskRecord) -> u32 {
    let host = host.into_box();
    let status = asked_of(&host, after, ask);
    Box::leak(host);
    status
}

/// Answers a check.
#[unsafe(no_mangle)]
pub extern "C" fn kx_raw_answer(host: Held, number: u64, yes: bool) -> u32 {
    let mut host = host.into_box();
    let status = host.answer(number, yes);
    Box::leak(host);
    status.number()
}

/// Writes as much of the log's text as fits and wasn't read yet.
#[unsafe(no_mangle)]
pub extern "C" fn kx_raw_log(host: Held, out: &mut [u8], wrote: &mut usize) -> u32 {
    let mut host = host.into_box();
    let status = copied(host.read_log(out), wrote);
    Box::leak(host);
    status
}
