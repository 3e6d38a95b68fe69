//! What the worker of a read stream knows while its owner has the lock.

ghost use Rattle.std.specs.Prelude.{◌≡◌, ◌+◌};
ghost use Rattle.wasi_reader.specs.declared.stage.Stage.TheVariants.{Open};
ghost use Rattle.wasi_reader.specs.Knows.{WorkerKnows, idle};

use crate::mark::{Mark, Marker};
use crate::names::{LedgerNames, Pushed, Staged, WorkerBlanks};
use crate::stage::Stage;
use std::marker::Model;
use worker_shared::{Count, Counter};

/// What the worker knows, as it is under the lock.
#[derive(Drop)]
pub struct WorkerFacts<N: LedgerNames> {
    pushed: Count<Pushed<N>>,
    stage: Mark<Staged<N>>,
}

impl<N: LedgerNames> Model for WorkerFacts<N> {
    ghost use Rattle.wasi_reader.specs.Knows.{WorkerKnows};

    ghost Value = { WorkerKnows };

    ghost view = { λ facts. record { pushed = facts.pushed; stage = facts.stage } };
}

/// What the worker knows, as the worker holds it.
#[derive(Drop)]
pub struct WorkerKeys<N: LedgerNames> {
    pushed: Counter<Pushed<N>>,
    stage: Marker<Staged<N>>,
}

impl<N: LedgerNames> Model for WorkerKeys<N> {
    ghost use Rattle.wasi_reader.specs.Knows.{WorkerKnows};

    ghost Value = { WorkerKnows };

    ghost view = { λ keys. record { pushed = keys.pushed; stage = keys.stage } };
}

impl<N: LedgerNames> WorkerFacts<N> {
    /// What is known of a worker that did nothing yet.
    pub(crate) fn open(blanks: WorkerBlanks) -> (WorkerFacts<N>, WorkerKeys<N>)
        requires { (blanks.pushed.name ≡ N.ledgers.pushed) × (blanks.stage.name ≡ N.ledgers.stage) }
        ensures facts { result.0 ≡ idle }
        ensures keys { result.1 ≡ idle }
    {
        let (pushed, my_pushed) = Count::open(blanks.pushed);
        let (stage, my_stage) = Mark::open(blanks.stage);
        let keys = WorkerKeys {
            pushed: my_pushed,
            stage: my_stage,
        };
        (WorkerFacts { pushed, stage }, keys)
    }

    /// What the worker knows is so.
    pub fn agree(&mut self, keys: &mut WorkerKeys<N>)
        ensures agrees { self.old ≡ keys.old }
        ensures same { (self.new ≡ self.old) × (keys.new ≡ keys.old) }
    {
        self.pushed.agree(&mut keys.pushed);
        self.stage.agree(&mut keys.stage);
    }

    /// A chunk was pushed.
    pub fn push(&mut self, keys: &mut WorkerKeys<N>)
        requires { self.old ≡ keys.old }
        ensures facts { self.new ≡ record self.old { pushed = self.old.pushed + 1 } }
        ensures keys { keys.new ≡ self.new }
    {
        self.pushed.add(&mut keys.pushed, 1);
    }

    /// The worker ends so.
    pub fn end(&mut self, keys: &mut WorkerKeys<N>, stage: Stage)
        requires agreed { self.old ≡ keys.old }
        requires first { self.old.stage ≡ Open }
        ensures facts { self.new ≡ record self.old { stage = stage } }
        ensures keys { keys.new ≡ self.new }
    {
        self.stage.set(&mut keys.stage, stage);
    }
}
