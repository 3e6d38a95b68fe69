//! What the worker of a write stream knows while its owner has the lock.

ghost use Rattle.std.specs.Prelude.{◌≡◌, ◌+◌, true, false};
ghost use Rattle.wasi_writer.specs.Knows.{WorkerKnows, idle};

use crate::names::{Drained, Flushed, Hand, LedgerNames, Met, Popped, WorkerBlanks};
use std::marker::Model;
use worker_shared::{Count, Counter, Fact, Keeper};

/// What the worker knows, as it is under the lock.
#[derive(Drop)]
pub struct WorkerFacts<N: LedgerNames> {
    popped: Count<Popped<N>>,
    met: Fact<Met<N>>,
    hand: Fact<Hand<N>>,
    drained: Fact<Drained<N>>,
    flushed: Fact<Flushed<N>>,
}

impl<N: LedgerNames> Model for WorkerFacts<N> {
    ghost use Rattle.wasi_writer.specs.Knows.{WorkerKnows};

    ghost Value = { WorkerKnows };

    ghost view = { λ facts. record {
      popped = facts.popped;
      met = facts.met;
      hand = facts.hand;
      drained = facts.drained;
      flushed = facts.flushed;
    } };
}

/// What the worker knows, as the worker holds it.
#[derive(Drop)]
pub struct WorkerKeys<N: LedgerNames> {
    popped: Counter<Popped<N>>,
    met: Keeper<Met<N>>,
    hand: Keeper<Hand<N>>,
    drained: Keeper<Drained<N>>,
    flushed: Keeper<Flushed<N>>,
}

impl<N: LedgerNames> Model for WorkerKeys<N> {
    ghost use Rattle.wasi_writer.specs.Knows.{WorkerKnows};

    ghost Value = { WorkerKnows };

    ghost view = { λ keys. record {
      popped = keys.popped;
      met = keys.met;
      hand = keys.hand;
      drained = keys.drained;
      flushed = keys.flushed;
    } };
}

impl<N: LedgerNames> WorkerFacts<N> {
    /// What is known of a worker that did nothing yet.
    pub(crate) fn open(blanks: WorkerBlanks) -> (WorkerFacts<N>, WorkerKeys<N>)
        requires popped { blanks.popped.name ≡ N.ledgers.popped }
        requires met { blanks.met.name ≡ N.ledgers.met }
        requires hand { blanks.hand.name ≡ N.ledgers.hand }
        requires sink { (blanks.drained.name ≡ N.ledgers.drained)
            × (blanks.flushed.name ≡ N.ledgers.flushed) }
        ensures facts { result.0 ≡ idle }
        ensures keys { result.1 ≡ idle }
    {
        let (popped, my_popped) = Count::open(blanks.popped);
        let (met, my_met) = Fact::open(blanks.met);
        let (hand, my_hand) = Fact::open(blanks.hand);
        let (drained, my_drained) = Fact::open(blanks.drained);
        let (flushed, my_flushed) = Fact::open(blanks.flushed);
        let facts = WorkerFacts {
            popped,
            met,
            hand,
            drained,
            flushed,
        };
        let keys = WorkerKeys {
            popped: my_popped,
            met: my_met,
            hand: my_hand,
            drained: my_drained,
            flushed: my_flushed,
        };
        (facts, keys)
    }

    /// What the worker knows is so.
    pub fn agree(&mut self, keys: &mut WorkerKeys<N>)
        ensures agrees { self.old ≡ keys.old }
        ensures same { (self.new ≡ self.old) × (keys.new ≡ keys.old) }
    {
        self.popped.agree(&mut keys.popped);
        self.met.agree(&mut keys.met);
        self.hand.agree(&mut keys.hand);
        self.drained.agree(&mut keys.drained);
        self.flushed.agree(&mut keys.flushed);
    }

    /// A chunk was popped, and is in hand.
    pub fn take(&mut self, keys: &mut WorkerKeys<N>)
        requires { self.old ≡ keys.old }
        ensures facts { self.new ≡ record self.old {
          popped = self.old.popped + 1;
          hand = true;
          flushed = false;
        } }
        ensures keys { keys.new ≡ self.new }
    {
        self.popped.add(&mut keys.popped, 1);
        self.hand.set(&mut keys.hand, true);
        self.flushed.set(&mut keys.flushed, false);
    }

    /// The chunk in hand was wholly written.
    pub fn write(&mut self, keys: &mut WorkerKeys<N>)
        requires { self.old ≡ keys.old }
        ensures facts { self.new ≡ record self.old { hand = false } }
        ensures keys { keys.new ≡ self.new }
    {
        self.hand.set(&mut keys.hand, false);
    }

    /// A flush was found pending, with all written.
    pub fn drain(&mut self, keys: &mut WorkerKeys<N>)
        requires { self.old ≡ keys.old }
        ensures facts { self.new ≡ record self.old { drained = true } }
        ensures keys { keys.new ≡ self.new }
    {
        self.drained.set(&mut keys.drained, true);
    }

    /// The sink was flushed.
    pub fn flush(&mut self, keys: &mut WorkerKeys<N>)
        requires { self.old ≡ keys.old }
        ensures facts { self.new ≡ record self.old { drained = false; flushed = true } }
        ensures keys { keys.new ≡ self.new }
    {
        self.drained.set(&mut keys.drained, false);
        self.flushed.set(&mut keys.flushed, true);
    }

    /// A fault was met.
    pub fn fail(&mut self, keys: &mut WorkerKeys<N>)
        requires { self.old ≡ keys.old }
        ensures facts { self.new ≡ record self.old { met = true; drained = false } }
        ensures keys { keys.new ≡ self.new }
    {
        self.met.set(&mut keys.met, true);
        self.drained.set(&mut keys.drained, false);
    }
}
