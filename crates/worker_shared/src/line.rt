//! A line of chunks between two threads, and its two ends. Each chunk in it has bytes.

ghost use Rattle.std.specs.Prelude.{◌≡◌, ◌<◌, ◌++◌, ◌∷◌, [], IfOk, IfErr, OnOk, OnErr, IfSome};
ghost use Rattle.std.specs.Prelude.{IfNone, length};
ghost use Rattle.worker_shared.specs.Relay.{log};
ghost use Rattle.worker_shared.specs.Ends.{IsLeft};

use crate::rule::{Left, Pass, Popped, Pushed, Queue, Sides};
use bytes::Bytes;
use std::alloc::{AllocError, Global};
use std::marker::Model;
use std::sync::Wait;

/// A line of chunks. Contracts see which line it is.
pub struct Line {
    queue: Queue,
}

impl Model for Line {
    ghost use Rattle.std.specs.declared.alloc.Global.{Global};
    ghost use Rattle.crossbeam_queue.specs.SegTies.{SegId};

    ghost Value = { SegId Global };

    ghost view = { λ line. line.queue };
}

impl Drop for Line {
    fn drop(self) {
        let Line { queue } = self;
        queue.destroy();
    }
}

/// The right to push onto a line. Contracts see which line, and the chunks that were pushed.
#[derive(Drop)]
pub struct PushEnd {
    pass: Pass,
}

impl Model for PushEnd {
    ghost use Rattle.std.specs.Prelude.{◌≡◌, true, false, []};
    ghost use Rattle.crossbeam_queue.specs.SegTies.{IsSegPassOf};
    ghost use Rattle.worker_shared.specs.Relay.{log};
    ghost use Rattle.worker_shared.specs.Ends.{End, line_at};

    ghost Value = { End };

    ghost view = { λ end. record {
      line = line_at end.pass.web end.pass.heap;
      chunks = end.pass.me.view.client.pushed;
    } };

    ghost invariant = { λ end. IsSegPassOf (line_at end.pass.web end.pass.heap) end.pass
        × (end.pass.me.view.client ≡ log true false end.pass.me.view.client.pushed []) };
}

/// The right to pop from a line. Contracts see which line, and the chunks that were popped.
#[derive(Drop)]
pub struct PopEnd {
    pass: Pass,
}

impl Model for PopEnd {
    ghost use Rattle.std.specs.Prelude.{◌≡◌, true, false, []};
    ghost use Rattle.crossbeam_queue.specs.SegTies.{IsSegPassOf};
    ghost use Rattle.worker_shared.specs.Relay.{log};
    ghost use Rattle.worker_shared.specs.Ends.{End, line_at};

    ghost Value = { End };

    ghost view = { λ end. record {
      line = line_at end.pass.web end.pass.heap;
      chunks = end.pass.me.view.client.popped;
    } };

    ghost invariant = { λ end. IsSegPassOf (line_at end.pass.web end.pass.heap) end.pass
        × (end.pass.me.view.client ≡ log false true [] end.pass.me.view.client.popped) };
}

/// An empty line, with its two ends.
pub fn make_line(alloc: Global) -> Result<(Line, PushEnd, PopEnd), AllocError>
    ensures push { IfOk result (λ made. made.1 ≡ record { line = made.0; chunks = [] }) }
    ensures pop { IfOk result (λ made. made.2 ≡ record { line = made.0; chunks = [] }) }
{
    let (queue, mut pass) = Queue::with_rule(alloc)?;
    let theirs = queue.another::<Sides>(&mut pass);
    Ok((Line { queue }, PushEnd { pass }, PopEnd { pass: theirs }))
}

impl PushEnd {
    /// Pushes a chunk that has bytes. For lack of memory it comes back.
    pub fn push<R: Wait>(&mut self, rt: &R, line: &Line, chunk: Bytes) -> Result<(), Bytes>
        requires line { self.old.line ≡ line.now }
        requires filled { 0 < length chunk }
        ensures ok { OnOk result (self.new ≡ record self.old {
          chunks = self.old.chunks ++ chunk
              ∷ [];
        }) }
        ensures err { OnErr result (self.new ≡ self.old) }
        ensures back { IfErr result (λ back. back ≡ chunk) }
    {
        line.queue.push_as::<Pushed, R>(rt, &mut self.pass, chunk)
    }
}

impl PopEnd {
    /// Pops the chunk that was pushed first. None where there was none at one moment.
    pub fn pop<R: Wait>(&mut self, rt: &R, line: &Line) -> Option<Bytes>
        requires { self.old.line ≡ line.now }
        ensures some { IfSome result (λ chunk. self.new ≡ record self.old
            { chunks = self.old.chunks ++ chunk ∷ [] }) }
        ensures filled { IfSome result (λ chunk. 0 < length chunk) }
        ensures none { IfNone result (self.new ≡ self.old) }
    {
        line.queue.pop_as::<Popped, R>(rt, &mut self.pass)
    }
}

/// How many chunks were pushed and not popped, once both ends are back in one place.
pub fn count_left<R: Wait>(rt: &R, line: &Line, push: PushEnd, pop: PopEnd) -> usize
    requires { (push.line ≡ line.now) × (pop.line ≡ line.now) }
    ensures { IsLeft push.chunks pop.chunks result }
{
    let PushEnd { mut pass } = push;
    let PopEnd { pass: theirs } = pop;
    line.queue.absorb::<Sides>(&mut pass, theirs);
    line.queue.len_as::<Left, R>(rt, &mut pass)
}
