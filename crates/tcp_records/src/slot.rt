//! The result slots of the ends of a 0.3 connection's streams, and what one poll of an end gives.

ghost use Rattle.std.specs.Prelude.{◌≡◌};
ghost use Rattle.tcp_records.specs.Slots.{slot_for, filled, result_of};

use wasi_addr::ErrorCode;

/// What one poll of an end gives.
#[derive(Clone, Copy, Debug, PartialEq, Eq)]
pub enum StreamResult<V> {
    /// It did what was asked.
    Completed(V),
    /// The end is closed: it was before, or met its end or a fault now.
    Dropped,
    /// Nothing could be done yet, and the poll was the last.
    Cancelled,
}

/// The result slot of an end: what the future beside a 0.3 stream tells, once the stream is over.
#[derive(Clone, Copy, Debug, PartialEq, Eq)]
pub enum Slot {
    /// The end is open.
    Unfilled,
    /// The end is closed, and this became of the stream.
    Filled(Result<(), ErrorCode>),
}

impl Slot {
    /// The slot of an end that is made. Where its half couldn't be taken the end is closed, and the
    /// slot has the code. Takes no memory.
    pub fn new(taken: Result<(), ErrorCode>) -> Slot
        ensures { result ≡ slot_for taken }
    {
        match taken {
            Ok(()) => Slot::Unfilled,
            Err(code) => Slot::Filled(Err(code)),
        }
    }

    /// What became of the stream, once the end is closed.
    pub fn result(&self) -> Option<Result<(), ErrorCode>>
        ensures { result ≡ result_of self.now }
    {
        match self {
            Slot::Unfilled => None,
            Slot::Filled(ended) => Some(*ended),
        }
    }

    /// The end is closed, and this became of the stream. A slot that is filled stays as it is.
    pub fn fill(&mut self, ended: Result<(), ErrorCode>)
        ensures { self.new ≡ filled ended self.old }
    {
        match self {
            Slot::Unfilled => *self = Slot::Filled(ended),
            Slot::Filled(_) => {}
        }
    }
}
