//! A world that writes down what is asked of another one, as it comes.

ghost use Rattle.std.specs.Prelude.{◌≡◌, ◌≤◌, ◌++◌, [], Some, None, Err, length, drop};
ghost use Rattle.wasi_replay.specs.Log.{log_text};
ghost use Rattle.wasi_replay.specs.Pieces.{contexts_text, entries_text};
ghost use Rattle.wasi_replay.specs.Noted.{seen_noted};
ghost use Rattle.recorder_commands.specs.Writing.{WroteSoFar, GoesOn, EndsLog, WritesAsItComes};

use crate::log::Unwritten;
use std::alloc::{AllocError, Global};
use std::marker::{Brand, PhantomData};
use wasi_addr::IpSocketAddress;
use wasi_looks::{Look, WaitsForLooks};
use wasi_replay::{RecordingWorld, contexts_text, entries_text};
use wasi_run::{RunEnd, RunError};
use wasi_world::{Call, Entry, OpId, Sock, Told, WasiSocketsCtx, World};
use world_io::{Sink, write_all};

/// What proofs know of a [`WritingWorld`] besides its log: its contexts, and what was known of its
/// sink before the log began. A caller calls a function that is generic in `Begun`, at [`Brand`],
/// for which its proof picks these; the function makes the world, uses it and finishes its log.
pub trait Begun {
    ghost use Rattle.std.specs.Prelude.{List};
    ghost use Rattle.wasi_world.specs.declared.outcome.WasiSocketsCtx.{WasiSocketsCtx};
    ghost use Rattle.world_io.specs.Io.{Writing};

    ghost contexts: { List WasiSocketsCtx };

    ghost begun: { Writing };
}

impl Begun for Brand {
    ghost use Rattle.std.specs.Prelude.{[], None};

    ghost contexts = { [] };

    ghost begun = { record { written = None; flushed = None; faults = 0; refused = 0 } };
}

/// A world round another one, as one over the system's sockets. It hands every call on, and its own
/// log is what it noted: each call with the other world's answer. As soon as a call is answered its
/// line is written, behind those of the contexts.
///
/// Where a line can't be written, no more are, and the run goes on: what it asked can't be taken
/// back. [`WritingWorld::finish`] says so at the end.
#[derive(Drop)]
pub struct WritingWorld<W: World, M: Sink, B: Begun> {
    alloc: Global,
    noted: RecordingWorld<W>,
    log_out: M,
    unwritten: Option<Unwritten>,
    of: PhantomData<B>,
    ghost wrote: { ∥ WroteSoFar (contexts_text B.contexts ++ entries_text noted.log.items) B.begun
        (M.writing log_out) unwritten ∥₁ },
}

/// Writes a piece of a log. Returns why it isn't written.
fn write_piece<M: Sink>(piece: &[u8], log_out: &mut M) -> Option<Unwritten>
    ensures { GoesOn piece.now (M.writing log_out.old) (M.writing log_out.new) None result }
{
    match write_all(log_out, piece) {
        Ok(()) => None,
        Err(_) => Some(Unwritten::Fault),
    }
}

/// Writes the lines of contexts. Takes memory for them.
fn write_contexts<M: Sink>(
    alloc: Global,
    contexts: &[WasiSocketsCtx],
    log_out: &mut M,
) -> Option<Unwritten>
    ensures { GoesOn (contexts_text contexts.now) (M.writing log_out.old) (M.writing log_out.new)
        None result }
{
    match contexts_text(alloc, contexts) {
        Ok(text) => write_piece(text.as_slice(), log_out),
        Err(_) => Some(Unwritten::Memory),
    }
}

/// Writes the lines of entries. Takes memory for them.
fn write_entries<M: Sink>(alloc: Global, log: &[Entry], log_out: &mut M) -> Option<Unwritten>
    ensures { GoesOn (entries_text log.now) (M.writing log_out.old) (M.writing log_out.new) None
        result }
{
    match entries_text(alloc, log) {
        Ok(text) => write_piece(text.as_slice(), log_out),
        Err(_) => Some(Unwritten::Memory),
    }
}

/// Writes the lines of the entries from a place on, unless something wasn't written before.
fn go_on<M: Sink>(
    alloc: Global,
    log: &[Entry],
    from: usize,
    log_out: &mut M,
    unwritten: Option<Unwritten>,
) -> Option<Unwritten>
    requires { from ≤ length log.now }
    ensures { GoesOn (entries_text (drop from log.now)) (M.writing log_out.old)
        (M.writing log_out.new) unwritten result }
{
    match unwritten {
        Some(why) => Some(why),
        None => write_entries(alloc, &log[from..], log_out),
    }
}

/// Writes the last line of the log of a run that ended so, unless something wasn't written before,
/// or memory ran out in the run. Says what of the log isn't written.
fn end_log<M: Sink>(
    outcome: Result<RunEnd, RunError>,
    log_out: &mut M,
    unwritten: Option<Unwritten>,
) -> Result<(), Unwritten>
    ensures ends { EndsLog (M.writing log_out.old) (M.writing log_out.new) unwritten result }
    ensures no_memory { outcome ≡ Err RunError.Memory → result ≡ Err Unwritten.Memory }
{
    if let Err(RunError::Memory) = outcome {
        return Err(Unwritten::Memory);
    }
    if let Some(why) = unwritten {
        return Err(why);
    }
    match write_all(log_out, b"end\n") {
        Ok(()) => Ok(()),
        Err(_) => Err(Unwritten::Fault),
    }
}

impl<W: World, M: Sink, B: Begun> WritingWorld<W, M, B> {
    /// A world round this one, of which nothing is noted yet. Writes the lines of the contexts, for
    /// which it takes memory.
    pub fn new(
        alloc: Global,
        inner: W,
        contexts: &[WasiSocketsCtx],
        mut log_out: M,
    ) -> WritingWorld<W, M, B>
        requires contexts { contexts.now ≡ B.contexts }
        requires begun { M.writing log_out ≡ B.begun }
        ensures { seen_noted result.noted.log.items result.noted.faults
            (W.seen result.noted.inner) ≡ seen_noted [] 0 (W.seen inner) }
    {
        let unwritten = write_contexts(alloc, contexts, &mut log_out);
        WritingWorld {
            alloc,
            noted: RecordingWorld::new(alloc, inner),
            log_out,
            unwritten,
            of: PhantomData,
        }
    }
}

impl<W: World + Drop, M: Sink, B: Begun> WritingWorld<W, M, B> {
    /// Ends the log of a run that ended so, and gives the sink back: its last line is written,
    /// unless memory ran out in the run. Says what of the log wasn't written.
    pub fn finish(self, outcome: Result<RunEnd, RunError>) -> (Result<(), Unwritten>, M)
        ensures wrote { WritesAsItComes (log_text B.contexts self.noted.log.items) B.begun
            (M.writing result.1) result.0 }
        ensures no_memory { outcome ≡ Err RunError.Memory → result.0 ≡ Err Unwritten.Memory }
    {
        let WritingWorld {
            alloc: _,
            noted: _,
            mut log_out,
            unwritten,
            of: _,
        } = self;
        let written = end_log(outcome, &mut log_out, unwritten);
        (written, log_out)
    }
}

impl<W: World, M: Sink, B: Begun> World for WritingWorld<W, M, B> {
    ghost use Rattle.std.specs.Prelude.{Some};
    ghost use Rattle.wasi_world.specs.Script.{without_plan};
    ghost use Rattle.wasi_replay.specs.Noted.{seen_noted};

    ghost seen = { λ world. seen_noted world.noted.log.items world.noted.faults
        (W.seen world.noted.inner) };

    ghost closed = { λ world. W.closed world.noted.inner };

    ghost scripted = { λ world. without_plan (Some world.noted.log.items) };

    fn call(&mut self, op: OpId, call: Call) -> Result<Told, AllocError> {
        let from = self.noted.entries().len();
        let told = self.noted.call(op, call)?;
        let log = self.noted.entries();
        self.unwritten = go_on(self.alloc, log, from, &mut self.log_out, self.unwritten);
        Ok(told)
    }

    fn write(&mut self, op: OpId, sock: Sock, bytes: &[u8]) -> Result<Told, AllocError> {
        let from = self.noted.entries().len();
        let told = self.noted.write(op, sock, bytes)?;
        let log = self.noted.entries();
        self.unwritten = go_on(self.alloc, log, from, &mut self.log_out, self.unwritten);
        Ok(told)
    }

    fn send(
        &mut self,
        op: OpId,
        sock: Sock,
        addr: IpSocketAddress,
        bytes: &[u8],
    ) -> Result<Told, AllocError> {
        let from = self.noted.entries().len();
        let told = self.noted.send(op, sock, addr, bytes)?;
        let log = self.noted.entries();
        self.unwritten = go_on(self.alloc, log, from, &mut self.log_out, self.unwritten);
        Ok(told)
    }

    fn end(&mut self) {
        self.noted.end();
    }

    fn close_after_end(&mut self, sock: Sock) {
        self.noted.close_after_end(sock);
    }
}

impl<W: WaitsForLooks, M: Sink, B: Begun> WaitsForLooks for WritingWorld<W, M, B> {
    fn wait_for(&mut self, looks: &[Look]) -> bool {
        self.noted.wait_for(looks)
    }

    fn let_looks_wait(&mut self, waits: bool) {
        self.noted.let_looks_wait(waits);
    }
}
