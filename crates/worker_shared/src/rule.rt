//! The rule of a line of chunks: what was pushed is what was popped, and then what the line holds;
//! and each chunk has bytes.

use bytes::Bytes;
use crossbeam_queue::protocol::{Join, Lesson, Outcome, Protocol, Split};
use crossbeam_queue::{RuledSegQueue, SegPass};
use std::collections::LinkedList;

/// What a pass may do, and what it has pushed and popped. No value of it is made.
pub struct Log {
    pub pushes: bool,
    pub pops: bool,
    pub pushed: LinkedList<Bytes>,
    pub popped: LinkedList<Bytes>,
}

/// First in, first out, and each chunk has bytes.
pub struct InOrder;

impl Protocol<Bytes, Log> for InOrder {
    ghost use Rattle.std.specs.Prelude.{true, []};
    ghost use Rattle.worker_shared.specs.Relay.{log, Relayed};

    ghost holds = { Relayed };

    ghost first = { log true true [] [] };
}

/// One pass pushes and another pops.
pub struct Sides;

impl Split<Log> for Sides {
    ghost use Rattle.std.specs.Prelude.{true, false, []};
    ghost use Rattle.worker_shared.specs.Relay.{log};

    ghost left = { λ v. log true false v.pushed [] };

    ghost right = { λ v. log false true [] v.popped };
}

impl Join<Log> for Sides {
    ghost use Rattle.std.specs.Prelude.{true, false, []};
    ghost use Rattle.worker_shared.specs.Relay.{log};

    ghost both = { λ v w. log true true v.pushed w.popped };

    ghost spent = { log false false [] [] };
}

/// A chunk was pushed.
pub struct Pushed;

impl Outcome<Bytes, Log> for Pushed {
    ghost use Rattle.std.specs.Prelude.{◌≡◌, ◌++◌, ◌∷◌, []};
    ghost use Rattle.worker_shared.specs.Relay.{log};

    ghost then = { λ v x w. w ≡ log v.pushes v.pops (v.pushed ++ x ∷ []) v.popped };
}

/// A chunk was popped, which has bytes.
pub struct Popped;

impl Outcome<Bytes, Log> for Popped {
    ghost use Rattle.std.specs.Prelude.{◌≡◌, ◌<◌, ◌++◌, ◌∷◌, [], length};
    ghost use Rattle.worker_shared.specs.Relay.{log};

    ghost then = { λ v x w. (w ≡ log v.pushes v.pops v.pushed (v.popped ++ x ∷ []))
        × (0 < length x) };
}

impl Lesson<Bytes, Log> for Popped {
    ghost use Rattle.std.specs.Prelude.{⊤};

    ghost fact = { λ v items. ⊤ };
}

/// What is left is what was pushed and not popped.
pub struct Left;

impl Lesson<Bytes, Log> for Left {
    ghost use Rattle.std.specs.Prelude.{◌≡◌, ◌++◌};

    ghost fact = { λ v items. v.pushed ≡ v.popped ++ items };
}

/// The queue of a line.
pub type Queue = RuledSegQueue<Bytes, Log, InOrder>;

/// What an end of a line has of its queue.
pub type Pass = SegPass<Bytes, Log>;
