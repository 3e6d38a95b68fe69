//! What the owner of a write stream knows while the worker has the lock.

ghost use Rattle.std.specs.Prelude.{◌≡◌, ◌+◌, ◌-◌, true, false};
ghost use Rattle.wasi_writer.specs.Knows.{OwnerKnows, nothing_yet};

use crate::names::{
    Accepted, Done, Flush, LedgerNames, OwnerBlanks, Permit, Pushed, Ready, Stopped, Told,
};
use std::marker::Model;
use worker_shared::{Count, Counter, Fact, Keeper, Number};

/// What the owner knows, as it is under the lock.
#[derive(Drop)]
pub struct OwnerFacts<N: LedgerNames> {
    accepted: Count<Accepted<N>>,
    pushed: Count<Pushed<N>>,
    permit: Number<Permit<N>>,
    flush: Fact<Flush<N>>,
    ready: Fact<Ready<N>>,
    told: Fact<Told<N>>,
    stopped: Fact<Stopped<N>>,
    done: Fact<Done<N>>,
}

impl<N: LedgerNames> Model for OwnerFacts<N> {
    ghost use Rattle.wasi_writer.specs.Knows.{OwnerKnows};

    ghost Value = { OwnerKnows };

    ghost view = { λ facts. record {
      accepted = facts.accepted;
      pushed = facts.pushed;
      permit = facts.permit;
      flush = facts.flush;
      ready = facts.ready;
      told = facts.told;
      stopped = facts.stopped;
      done = facts.done;
    } };
}

/// What the owner knows, as the owner holds it.
#[derive(Drop)]
pub struct OwnerKeys<N: LedgerNames> {
    accepted: Counter<Accepted<N>>,
    pushed: Counter<Pushed<N>>,
    permit: Counter<Permit<N>>,
    flush: Keeper<Flush<N>>,
    ready: Keeper<Ready<N>>,
    told: Keeper<Told<N>>,
    stopped: Keeper<Stopped<N>>,
    done: Keeper<Done<N>>,
}

impl<N: LedgerNames> Model for OwnerKeys<N> {
    ghost use Rattle.wasi_writer.specs.Knows.{OwnerKnows};

    ghost Value = { OwnerKnows };

    ghost view = { λ keys. record {
      accepted = keys.accepted;
      pushed = keys.pushed;
      permit = keys.permit;
      flush = keys.flush;
      ready = keys.ready;
      told = keys.told;
      stopped = keys.stopped;
      done = keys.done;
    } };
}

impl<N: LedgerNames> OwnerFacts<N> {
    /// What is known of a new stream.
    pub(crate) fn open(blanks: OwnerBlanks) -> (OwnerFacts<N>, OwnerKeys<N>)
        requires counts { (blanks.accepted.name ≡ N.ledgers.accepted)
            × (blanks.pushed.name ≡ N.ledgers.pushed) × (blanks.permit.name ≡ N.ledgers.permit) }
        requires asked { (blanks.flush.name ≡ N.ledgers.flush)
            × (blanks.ready.name ≡ N.ledgers.ready) }
        requires ended { (blanks.told.name ≡ N.ledgers.told)
            × (blanks.stopped.name ≡ N.ledgers.stopped) × (blanks.done.name ≡ N.ledgers.done) }
        ensures facts { result.0 ≡ nothing_yet }
        ensures keys { result.1 ≡ nothing_yet }
    {
        let (accepted, my_accepted) = Count::open(blanks.accepted);
        let (pushed, my_pushed) = Count::open(blanks.pushed);
        let (permit, my_permit) = Number::open(blanks.permit);
        let (flush, my_flush) = Fact::open(blanks.flush);
        let (ready, my_ready) = Fact::open(blanks.ready);
        let (told, my_told) = Fact::open(blanks.told);
        let (stopped, my_stopped) = Fact::open(blanks.stopped);
        let (done, my_done) = Fact::open(blanks.done);
        let facts = OwnerFacts {
            accepted,
            pushed,
            permit,
            flush,
            ready,
            told,
            stopped,
            done,
        };
        let keys = OwnerKeys {
            accepted: my_accepted,
            pushed: my_pushed,
            permit: my_permit,
            flush: my_flush,
            ready: my_ready,
            told: my_told,
            stopped: my_stopped,
            done: my_done,
        };
        (facts, keys)
    }

    /// What the owner knows is so.
    pub fn agree(&mut self, keys: &mut OwnerKeys<N>)
        ensures agrees { self.old ≡ keys.old }
        ensures same { (self.new ≡ self.old) × (keys.new ≡ keys.old) }
    {
        self.accepted.agree(&mut keys.accepted);
        self.pushed.agree(&mut keys.pushed);
        self.permit.agree(&mut keys.permit);
        self.flush.agree(&mut keys.flush);
        self.ready.agree(&mut keys.ready);
        self.told.agree(&mut keys.told);
        self.stopped.agree(&mut keys.stopped);
        self.done.agree(&mut keys.done);
    }

    /// Whether the stream was stopped.
    pub fn is_stopped(&self) -> bool
        ensures { result ≡ self.now.stopped }
    {
        self.stopped.holds()
    }

    /// Whether nothing was left to wait for when it was stopped.
    pub fn is_done(&self) -> bool
        ensures { result ≡ self.now.done }
    {
        self.done.holds()
    }

    /// A chunk of so many bytes was accepted and pushed.
    pub fn accept(&mut self, keys: &mut OwnerKeys<N>, len: u64)
        requires { self.old ≡ keys.old }
        ensures facts { self.new ≡ record self.old {
          accepted = self.old.accepted + len;
          pushed = self.old.pushed + 1;
          permit = self.old.permit - len;
          flush = false;
          ready = false;
        } }
        ensures keys { keys.new ≡ self.new }
    {
        self.accepted.add(&mut keys.accepted, len);
        self.pushed.add(&mut keys.pushed, 1);
        let left = self.permit.value().saturating_sub(len);
        self.permit.set(&mut keys.permit, left);
        self.flush.set(&mut keys.flush, false);
        self.ready.set(&mut keys.ready, false);
    }

    /// A look told how many bytes may be written.
    pub fn permit(&mut self, keys: &mut OwnerKeys<N>, count: u64)
        requires { self.old ≡ keys.old }
        ensures facts { self.new ≡ record self.old { permit = count } }
        ensures keys { keys.new ≡ self.new }
    {
        self.permit.set(&mut keys.permit, count);
    }

    /// A flush was accepted.
    pub fn ask_flush(&mut self, keys: &mut OwnerKeys<N>)
        requires { self.old ≡ keys.old }
        ensures facts { self.new ≡ record self.old { flush = true; ready = false } }
        ensures keys { keys.new ≡ self.new }
    {
        self.flush.set(&mut keys.flush, true);
        self.ready.set(&mut keys.ready, false);
    }

    /// The stream was found ready.
    pub fn find_ready(&mut self, keys: &mut OwnerKeys<N>)
        requires { self.old ≡ keys.old }
        ensures facts { self.new ≡ record self.old { ready = true } }
        ensures keys { keys.new ≡ self.new }
    {
        self.ready.set(&mut keys.ready, true);
    }

    /// The fault was reported.
    pub fn tell(&mut self, keys: &mut OwnerKeys<N>)
        requires { self.old ≡ keys.old }
        ensures facts { self.new ≡ record self.old { told = true } }
        ensures keys { keys.new ≡ self.new }
    {
        self.told.set(&mut keys.told, true);
    }

    /// The stream is stopped, done or not.
    pub fn stop(&mut self, keys: &mut OwnerKeys<N>, done: bool)
        requires { self.old ≡ keys.old }
        ensures facts { self.new ≡ record self.old { stopped = true; done = done } }
        ensures keys { keys.new ≡ self.new }
    {
        self.stopped.set(&mut keys.stopped, true);
        self.done.set(&mut keys.done, done);
    }
}
