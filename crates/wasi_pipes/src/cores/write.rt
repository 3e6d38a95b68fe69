//! The core of a write stream.

ghost use Rattle.std.specs.Prelude.{◌≡◌, ◌<◌, IsSome, OnOk, OnErr, true, false, is_ok, [], Ok};
ghost use Rattle.wasi_streams.specs.StreamError.{OnMemory, UnlessMemory};
ghost use Rattle.wasi_pipes.specs.WriteRecord.{fresh, admission, accept_answer, check_answer};
ghost use Rattle.wasi_pipes.specs.WriteRecord.{next_work, chunk, after_told, Accept, Flush, Check};
ghost use Rattle.wasi_pipes.specs.WriteRecord.{Stop, Pop, Wrote, Flushed, Failed, Silent, Answered};
ghost use Rattle.wasi_pipes.specs.WriteRecord.{Allowed, Given};
ghost use Rattle.wasi_pipes.specs.WriteState.{fresh_state, initial_of, outstanding, with_accepted};
ghost use Rattle.wasi_pipes.specs.WriteState.{after_pop, after_write, with_flags, is_ready};
ghost use Rattle.wasi_pipes.specs.WriteState.{is_done, StandsFor, Follows};

pub mod laws;

use super::fault::WorkerFault;
use std::alloc::{AllocError, Global};
use std::collections::VecDeque;
use std::marker::Model;
use wasi_addr::ErrorCode;
use wasi_streams::{StreamError, TrapKind};

/// What a write stream's worker is to do next.
#[derive(Clone, Copy, Debug, PartialEq, Eq)]
pub enum Work {
    /// Write the next chunk, of so many bytes.
    Write(usize),
    /// Flush the sink.
    Flush,
    /// Wait.
    Idle,
    /// End.
    Stop,
}

/// What a write stream knows beside its lengths.
#[derive(Clone, Copy, Debug, PartialEq, Eq)]
pub struct WriteFlags {
    /// A flush was asked for and isn't done.
    pub flushing: bool,
    /// The worker's fault.
    pub fault: WorkerFault<ErrorCode>,
    /// The owner wants no more of the stream.
    pub stopped: bool,
}

impl WriteFlags {
    /// The first answer to an owner's event: a kept fault, once, and then that the stream is
    /// closed.
    fn admit(&mut self) -> Result<(), StreamError>
        ensures answer { result ≡ admission self.old }
        ensures told { self.new ≡ after_told self.old }
        ensures ok { OnOk result (self.new ≡ self.old) }
    {
        if let Some(code) = self.fault.tell() {
            return Err(StreamError::LastOperationFailed(code));
        }
        if self.stopped || self.fault.is_met() {
            return Err(StreamError::Closed);
        }
        Ok(())
    }

    /// Whether an owner's event isn't refused at once.
    fn is_open(&self) -> bool
        ensures { result ≡ is_ok (admission self.now) }
    {
        !self.stopped && !self.fault.is_met()
    }
}

/// What the owner and the worker of a write stream share, beside the bytes: the budget, and the
/// lengths of the chunks that were accepted and aren't wholly written (`WorkerState` of
/// `AsyncWriteStream` in the crate wasmtime-wasi).
///
/// A length leaves the budget when it is accepted, and comes back when the worker has written it.
/// Each method but the looks, [`reserve`](WriteCore::reserve) and [`new`](WriteCore::new) is an
/// event. None but `reserve` and an [`accept`](WriteCore::accept) without it takes memory.
#[derive(Drop)]
pub struct WriteCore {
    budget: usize,
    queue: VecDeque<usize>,
    hand: Option<usize>,
    flags: WriteFlags,
}

impl Model for WriteCore {
    ghost use Rattle.std.specs.Prelude.{◌+◌, ◌^◌, ◌<◌, ◌++◌, sum, nat_lt};
    ghost use Rattle.std.specs.Option.{option_to_list};
    ghost use Rattle.std.specs.VecDeque.{deque_len, deque_capacity};
    ghost use Rattle.wasi_pipes.specs.WriteState.{WriteView};

    ghost Value = { WriteView };

    ghost view = { λ c. record {
      state = record { budget = c.budget; queued = c.queue.items; hand = c.hand; flags = c.flags };
      room = nat_lt (deque_len c.queue) (deque_capacity c.queue);
    } };

    ghost invariant = { λ c. c.budget + sum (option_to_list c.hand ++ c.queue.items) < 2 ^ 64 };
}

impl WriteCore {
    /// A core with this budget, in bytes.
    pub fn new(alloc: Global, budget: usize) -> WriteCore
        ensures state { result.state ≡ fresh_state budget }
        ensures stands { StandsFor result.state (fresh budget) }
    {
        WriteCore {
            budget,
            queue: VecDeque::new(alloc),
            hand: None,
            flags: WriteFlags {
                flushing: false,
                fault: WorkerFault::Unmet,
                stopped: false,
            },
        }
    }

    /// Whether a write of so many bytes would be accepted, unless memory runs out.
    pub fn would_accept(&self, len: usize) -> bool
        ensures { result ≡ is_ok (accept_answer self.now.state.flags self.now.state.budget len) }
    {
        self.flags.is_open() && !self.flags.flushing && len <= self.budget
    }

    /// Takes the memory for one length, so that the next [`accept`](WriteCore::accept) takes none.
    pub fn reserve(&mut self) -> Result<(), AllocError>
        ensures room { OnOk result (self.new.room ≡ true) }
        ensures state { self.new.state ≡ self.old.state }
    {
        self.queue.reserve(1)
    }

    /// The owner writes so many bytes: the length leaves the budget and is queued. A write of no
    /// bytes queues nothing.
    ///
    /// Reports a kept fault, once, and then `Closed`, as after a stop; else `FlushPending` while a
    /// flush is pending, and `Budget` for a length above the budget. Running out of memory, and a
    /// refusal that reports no fault, change nothing.
    pub fn accept(&mut self, len: usize) -> Result<(), StreamError>
        ensures answer { UnlessMemory result (result ≡ accept_answer self.old.state.flags
            self.old.state.budget len) }
        ensures reserved { self.old.room ≡ true
            → result ≡ accept_answer self.old.state.flags self.old.state.budget len }

        // Memory is wanted for a length that would be accepted alone.
        ensures wanting { OnMemory result (accept_answer self.old.state.flags self.old.state.budget
            len ≡ Ok tt) }
        ensures bytes { OnMemory result (0 < len) }
        ensures unchanged { OnMemory result (self.new.state ≡ self.old.state) }

        ensures ok { OnOk result (self.new.state ≡ with_accepted self.old.state (chunk len)) }
        ensures err { OnErr result (self.new.state ≡ record self.old.state
            { flags = after_told self.old.state.flags }) }
        ensures room { OnErr result (self.old.room ≡ true → self.new.room ≡ true) }
        ensures adds_up { initial_of self.new.state ≡ initial_of self.old.state }

        ensures follows { UnlessMemory result (Follows self.old.state (Accept len) (Answered result)
            self.new.state) }
    {
        self.flags.admit()?;
        if self.flags.flushing {
            return Err(StreamError::Trap(TrapKind::FlushPending));
        }
        if len > self.budget {
            return Err(StreamError::Trap(TrapKind::Budget));
        }
        if len > 0 {
            self.queue.reserve(1)?;
            self.queue.push_back_reserved(len);
            self.budget -= len;
        }
        Ok(())
    }

    /// The owner asks for a flush of all that was accepted: it is pending from now on.
    ///
    /// Reports a kept fault, once, and then `Closed`, as after a stop.
    pub fn flush(&mut self) -> Result<(), StreamError>
        ensures answer { result ≡ admission self.old.state.flags }
        ensures ok { OnOk result (self.new ≡ with_flags self.old
            (record self.old.state.flags { flushing = true })) }
        ensures err { OnErr result (self.new ≡ with_flags self.old
            (after_told self.old.state.flags)) }
        ensures follows { Follows self.old.state Flush (Answered result) self.new.state }
    {
        self.flags.admit()?;
        self.flags.flushing = true;
        Ok(())
    }

    /// The owner asks how many bytes it may write: the budget, or 0 while a flush is pending.
    ///
    /// Reports a kept fault, once, and then `Closed`, as after a stop.
    pub fn check(&mut self) -> Result<usize, StreamError>
        ensures answer { result ≡ check_answer self.old.state.flags self.old.state.budget }
        ensures ok { OnOk result (self.new ≡ self.old) }
        ensures err { OnErr result (self.new ≡ with_flags self.old
            (after_told self.old.state.flags)) }
        ensures follows { Follows self.old.state Check (Allowed result) self.new.state }
    {
        self.flags.admit()?;
        Ok(if self.flags.flushing { 0 } else { self.budget })
    }

    /// The owner wants no more of the stream.
    pub fn stop(&mut self)
        ensures state { self.new ≡ with_flags self.old (record self.old.state.flags
            { stopped = true }) }
        ensures follows { Follows self.old.state Stop Silent self.new.state }
    {
        self.flags.stopped = true;
    }

    /// What [`pop`](WriteCore::pop) would give.
    pub fn peek(&self) -> Work
        requires { self.now.state.hand ≡ None }
        ensures { result ≡ next_work self.now.state.flags self.now.state.queued }
    {
        if self.flags.stopped {
            return Work::Stop;
        }
        match self.queue.front() {
            Some(len) => Work::Write(*len),
            None if self.flags.flushing => Work::Flush,
            None => Work::Idle,
        }
    }

    /// The worker asks for its next work. The length of a chunk to write is in its hand from now
    /// on.
    pub fn pop(&mut self) -> Work
        requires { self.old.state.hand ≡ None }
        ensures work { result ≡ next_work self.old.state.flags self.old.state.queued }
        ensures state { self.new.state ≡ after_pop self.old.state result }
        ensures room { self.old.room ≡ true → self.new.room ≡ true }
        ensures adds_up { initial_of self.new.state ≡ initial_of self.old.state }
        ensures follows { Follows self.old.state Pop (Given result) self.new.state }
    {
        if self.flags.stopped {
            return Work::Stop;
        }
        match self.queue.pop_front() {
            Some(len) => {
                self.hand = Some(len);
                Work::Write(len)
            }
            None if self.flags.flushing => Work::Flush,
            None => Work::Idle,
        }
    }

    /// The worker has wholly written the length in its hand, which comes back to the budget.
    pub fn wrote(&mut self)
        requires { IsSome self.old.state.hand }
        ensures state { self.new ≡ record self.old { state = after_write self.old.state } }
        ensures adds_up { initial_of self.new.state ≡ initial_of self.old.state }
        ensures follows { Follows self.old.state Wrote Silent self.new.state }
    {
        if let Some(len) = self.hand.take() {
            self.budget += len;
        }
    }

    /// The worker has flushed the sink, after it wrote all that was accepted.
    pub fn flushed(&mut self)
        requires pending { self.old.state.flags.flushing ≡ true }
        requires written { outstanding self.old.state ≡ [] }
        ensures state { self.new ≡ with_flags self.old (record self.old.state.flags
            { flushing = false }) }
        ensures follows { Follows self.old.state Flushed Silent self.new.state }
    {
        self.flags.flushing = false;
    }

    /// The worker's first fault: it is kept for the owner, and ends a pending flush.
    pub fn failed(&mut self, code: ErrorCode)
        requires { self.old.state.flags.fault ≡ WorkerFault.Unmet }
        ensures state { self.new ≡ with_flags self.old (record self.old.state.flags
            { flushing = false; fault = WorkerFault.Kept code }) }
        ensures follows { Follows self.old.state (Failed code) Silent self.new.state }
    {
        self.flags.fault = WorkerFault::Kept(code);
        self.flags.flushing = false;
    }

    /// Whether the owner needn't wait: a fault is kept, the stream is closed, or no flush is
    /// pending and the budget isn't 0.
    pub fn is_ready(&self) -> bool
        ensures { result ≡ is_ready self.now.state }
    {
        !self.flags.is_open() || !self.flags.flushing && self.budget != 0
    }

    /// Whether nothing is left to wait for: all that was accepted is written and no flush is
    /// pending, or the worker failed, or the stream was stopped.
    pub fn is_done(&self) -> bool
        ensures { result ≡ is_done self.now.state }
    {
        !self.flags.is_open()
            || self.hand.is_none() && self.queue.is_empty() && !self.flags.flushing
    }
}
