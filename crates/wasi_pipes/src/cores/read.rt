//! The core of a read stream.

ghost use Rattle.std.specs.Prelude.{◌≡◌, ◌<◌, ◌↔◌, IsTrue, IsSome, OnOk, OnErr, true, None, Some};
ghost use Rattle.std.specs.Prelude.{unwrap_or};
ghost use Rattle.std.specs.Option.{option_to_list};
ghost use Rattle.wasi_pipes.specs.ReadRecord.{fresh, admission, take_answer, after_told, Offer};
ghost use Rattle.wasi_pipes.specs.ReadRecord.{End, Fail, Starve, Take, Stop, Silent, Taken};
ghost use Rattle.wasi_pipes.specs.ReadState.{fresh_state, is_ready, StandsFor, Follows};

pub mod laws;

use super::fault::WorkerFault;
use std::alloc::AllocError;
use std::marker::Model;
use wasi_addr::ErrorCode;
use wasi_streams::StreamError;

/// What ended a read stream's worker before the end of its source.
#[derive(Clone, Copy, Debug, PartialEq, Eq)]
pub enum ReadFault {
    /// A read failed with this code.
    Failed(ErrorCode),
    /// There was no memory for a chunk.
    Starved,
}

/// What a read stream knows beside its slot.
#[derive(Clone, Copy, Debug, PartialEq, Eq)]
pub struct ReadFlags {
    /// The worker met the end of its source.
    pub ended: bool,
    /// The worker's fault.
    pub fault: WorkerFault<ReadFault>,
    /// The owner wants no more of the stream.
    pub stopped: bool,
}

impl ReadFlags {
    /// The answer to an owner that finds the slot empty: a kept fault, once, and then that the
    /// stream is closed.
    fn admit(&mut self) -> Result<(), StreamError>
        ensures answer { result ≡ admission self.old }
        ensures told { self.new ≡ after_told self.old }
        ensures ok { OnOk result (self.new ≡ self.old) }
    {
        match self.fault.tell() {
            Some(ReadFault::Failed(code)) => return Err(StreamError::LastOperationFailed(code)),
            Some(ReadFault::Starved) => return Err(StreamError::Memory(AllocError)),
            None => {}
        }
        if self.ended || self.stopped || self.fault.is_met() {
            return Err(StreamError::Closed);
        }
        Ok(())
    }
}

/// What the owner and the worker of a read stream share, beside the bytes: a slot for the length of
/// one chunk, and how the reading ended (the channel between `AsyncReadStream` and its task in the
/// crate wasmtime-wasi).
///
/// Each method but the looks and [`new`](ReadCore::new) is an event. None takes memory.
#[derive(Drop)]
pub struct ReadCore {
    slot: Option<usize>,
    flags: ReadFlags,
}

impl Model for ReadCore {
    ghost use Rattle.std.specs.Prelude.{◌<◌, IfSome};
    ghost use Rattle.wasi_pipes.specs.ReadState.{ReadState};

    ghost Value = { ReadState };

    ghost view = { λ c. record { slot = c.slot; flags = c.flags } };

    ghost invariant = { λ c. IfSome c.slot (λ len. 0 < len) };
}

impl ReadCore {
    /// A core whose slot is empty.
    pub fn new() -> ReadCore
        ensures state { result ≡ fresh_state }
        ensures stands { StandsFor result fresh }
    {
        ReadCore {
            slot: None,
            flags: ReadFlags {
                ended: false,
                fault: WorkerFault::Unmet,
                stopped: false,
            },
        }
    }

    /// The length of the chunk in the slot, or 0 where the slot is empty.
    pub fn slot(&self) -> usize
        ensures slot { result ≡ unwrap_or self.now.slot 0 }
        ensures full { IsSome self.now.slot ↔ (0 < result) }
    {
        self.slot.unwrap_or(0)
    }

    /// Whether the owner needn't wait: the slot is full, a fault is kept, or
    /// [`take`](ReadCore::take) would answer `Closed`.
    pub fn is_ready(&self) -> bool
        ensures { result ≡ is_ready self.now }
    {
        self.slot.is_some() || self.flags.fault.is_met() || self.flags.ended || self.flags.stopped
    }

    /// The worker has read a chunk of so many bytes, and puts it into the empty slot.
    pub fn offer(&mut self, len: usize)
        requires empty { self.old.slot ≡ None }
        requires some { 0 < len }
        ensures state { self.new ≡ record self.old { slot = Some len } }
        ensures follows { Follows self.old (Offer len) Silent self.new }
    {
        self.slot = Some(len);
    }

    /// The worker has met the end of its source.
    pub fn end(&mut self)
        ensures state { self.new ≡ record self.old {
          flags = record self.old.flags { ended = true };
        } }
        ensures follows { Follows self.old End Silent self.new }
    {
        self.flags.ended = true;
    }

    /// A read failed, which is the worker's first fault: it is kept for the owner.
    pub fn fail(&mut self, code: ErrorCode)
        requires { self.old.flags.fault ≡ WorkerFault.Unmet }
        ensures state { self.new ≡ record self.old {
          flags = record self.old.flags
              { fault = WorkerFault.Kept (ReadFault.Failed code) };
        } }
        ensures follows { Follows self.old (Fail code) Silent self.new }
    {
        self.flags.fault = WorkerFault::Kept(ReadFault::Failed(code));
    }

    /// The worker found no memory for a chunk, which is its first fault: it is kept for the owner.
    pub fn starve(&mut self)
        requires { self.old.flags.fault ≡ WorkerFault.Unmet }
        ensures state { self.new ≡ record self.old {
          flags = record self.old.flags
              { fault = WorkerFault.Kept ReadFault.Starved };
        } }
        ensures follows { Follows self.old Starve Silent self.new }
    {
        self.flags.fault = WorkerFault::Kept(ReadFault::Starved);
    }

    /// The owner takes the length in the slot. With an empty slot the answer is 0, for which it is
    /// to wait.
    ///
    /// With an empty slot, reports a kept fault, once (`Memory` where the worker found none), and
    /// then `Closed`, as after the end and after a stop.
    pub fn take(&mut self) -> Result<usize, StreamError>
        ensures answer { result ≡ take_answer self.old.flags (option_to_list self.old.slot) }
        ensures ok { OnOk result (self.new ≡ record self.old { slot = None }) }
        ensures err { OnErr result (self.new ≡ record self.old
            { flags = after_told self.old.flags }) }
        ensures follows { Follows self.old Take (Taken result) self.new }
    {
        if let Some(len) = self.slot.take() {
            return Ok(len);
        }
        self.flags.admit()?;
        Ok(0)
    }

    /// The owner wants no more of the stream. What was read before may still be taken.
    pub fn stop(&mut self)
        ensures state { self.new ≡ record self.old {
          flags = record self.old.flags
              { stopped = true };
        } }
        ensures follows { Follows self.old Stop Silent self.new }
    {
        self.flags.stopped = true;
    }
}
