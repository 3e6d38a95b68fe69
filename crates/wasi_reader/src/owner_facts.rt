//! What the owner of a read stream knows while the worker has the lock.

ghost use Rattle.std.specs.Prelude.{◌≡◌, ◌+◌, true, false};
ghost use Rattle.wasi_reader.specs.declared.stage.Stage.TheVariants.{Open};
ghost use Rattle.wasi_reader.specs.Knows.{OwnerKnows, nothing_yet};
ghost use Rattle.wasi_reader.specs.Answers.{after_told};

use crate::mark::{Mark, Marker};
use crate::names::{Heard, LedgerNames, OwnerBlanks, Popped, Ready, Stopped};
use crate::stage::Stage;
use std::marker::Model;
use wasi_streams::StreamError;
use worker_shared::{Count, Counter, Fact, Keeper};

/// What the owner knows, as it is under the lock.
#[derive(Drop)]
pub struct OwnerFacts<N: LedgerNames> {
    popped: Count<Popped<N>>,
    ready: Fact<Ready<N>>,
    stopped: Fact<Stopped<N>>,
    heard: Mark<Heard<N>>,
}

impl<N: LedgerNames> Model for OwnerFacts<N> {
    ghost use Rattle.wasi_reader.specs.Knows.{OwnerKnows};

    ghost Value = { OwnerKnows };

    ghost view = { λ facts. record {
      popped = facts.popped;
      ready = facts.ready;
      stopped = facts.stopped;
      heard = facts.heard;
    } };
}

/// What the owner knows, as the owner holds it.
#[derive(Drop)]
pub struct OwnerKeys<N: LedgerNames> {
    popped: Counter<Popped<N>>,
    ready: Keeper<Ready<N>>,
    stopped: Keeper<Stopped<N>>,
    heard: Marker<Heard<N>>,
}

impl<N: LedgerNames> Model for OwnerKeys<N> {
    ghost use Rattle.wasi_reader.specs.Knows.{OwnerKnows};

    ghost Value = { OwnerKnows };

    ghost view = { λ keys. record {
      popped = keys.popped;
      ready = keys.ready;
      stopped = keys.stopped;
      heard = keys.heard;
    } };
}

impl<N: LedgerNames> OwnerFacts<N> {
    /// What is known of a new stream.
    pub(crate) fn open(blanks: OwnerBlanks) -> (OwnerFacts<N>, OwnerKeys<N>)
        requires taken { (blanks.popped.name ≡ N.ledgers.popped)
            × (blanks.ready.name ≡ N.ledgers.ready) }
        requires ended { (blanks.stopped.name ≡ N.ledgers.stopped)
            × (blanks.heard.name ≡ N.ledgers.heard) }
        ensures facts { result.0 ≡ nothing_yet }
        ensures keys { result.1 ≡ nothing_yet }
    {
        let (popped, my_popped) = Count::open(blanks.popped);
        let (ready, my_ready) = Fact::open(blanks.ready);
        let (stopped, my_stopped) = Fact::open(blanks.stopped);
        let (heard, my_heard) = Mark::open(blanks.heard);
        let facts = OwnerFacts {
            popped,
            ready,
            stopped,
            heard,
        };
        let keys = OwnerKeys {
            popped: my_popped,
            ready: my_ready,
            stopped: my_stopped,
            heard: my_heard,
        };
        (facts, keys)
    }

    /// What the owner knows is so.
    pub fn agree(&mut self, keys: &mut OwnerKeys<N>)
        ensures agrees { self.old ≡ keys.old }
        ensures same { (self.new ≡ self.old) × (keys.new ≡ keys.old) }
    {
        self.popped.agree(&mut keys.popped);
        self.ready.agree(&mut keys.ready);
        self.stopped.agree(&mut keys.stopped);
        self.heard.agree(&mut keys.heard);
    }

    /// Whether the stream was stopped.
    pub fn is_stopped(&self) -> bool
        ensures { result ≡ self.now.stopped }
    {
        self.stopped.holds()
    }

    /// A chunk was taken and popped.
    pub fn take(&mut self, keys: &mut OwnerKeys<N>)
        requires { self.old ≡ keys.old }
        ensures facts { self.new ≡ record self.old { popped = self.old.popped + 1; ready = false } }
        ensures keys { keys.new ≡ self.new }
    {
        self.popped.add(&mut keys.popped, 1);
        self.ready.set(&mut keys.ready, false);
    }

    /// The stream was found ready.
    pub fn find_ready(&mut self, keys: &mut OwnerKeys<N>)
        requires { self.old ≡ keys.old }
        ensures facts { self.new ≡ record self.old { ready = true } }
        ensures keys { keys.new ≡ self.new }
    {
        self.ready.set(&mut keys.ready, true);
    }

    /// The owner was told of this end of the worker.
    fn hear_stage(&mut self, keys: &mut OwnerKeys<N>, stage: Stage)
        requires agreed { self.old ≡ keys.old }
        requires first { self.old.heard ≡ Open }
        ensures facts { self.new ≡ record self.old { heard = stage } }
        ensures keys { keys.new ≡ self.new }
    {
        self.heard.set(&mut keys.heard, stage);
    }

    /// The owner was answered by this error. `Closed` reports the end of the source, unless the
    /// stream was stopped.
    pub fn hear(&mut self, keys: &mut OwnerKeys<N>, error: &StreamError)
        requires agreed { self.old ≡ keys.old }
        requires first { self.old.heard ≡ Open }
        ensures facts { self.new ≡ after_told self.old error.now }
        ensures keys { keys.new ≡ self.new }
    {
        match error {
            StreamError::LastOperationFailed(_) => self.hear_stage(keys, Stage::Failed),
            StreamError::Memory(_) => self.hear_stage(keys, Stage::Starved),
            StreamError::Closed => {
                if !self.is_stopped() {
                    self.hear_stage(keys, Stage::Ended);
                }
            }
            StreamError::Trap(_) => {}
        }
    }

    /// The stream is stopped.
    pub fn stop(&mut self, keys: &mut OwnerKeys<N>)
        requires { self.old ≡ keys.old }
        ensures facts { self.new ≡ record self.old { stopped = true } }
        ensures keys { keys.new ≡ self.new }
    {
        self.stopped.set(&mut keys.stopped, true);
    }
}
