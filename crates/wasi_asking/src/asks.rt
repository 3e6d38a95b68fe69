//! The checks that wait for an answer.

ghost use Rattle.std.specs.Prelude.{◌≡◌, ◌↔◌, ◌<◌, [], IsTrue, IfOk, IfSome, OnErr};
ghost use Rattle.std.specs.Prelude.{length, vec_capacity, vec_len};
ghost use Rattle.wasi_asking.specs.Asks.{AsksThis, DidAnswer, Found, IsNew, IsTold, Shows, kept_for};
ghost use Rattle.wasi_asking.specs.Asks.{WaitsAfter, WaitsAs, verdict_of};

use std::alloc::{AllocError, Global};
use wasi_addr::{IpSocketAddress, SocketAddrUse};
use wasi_world::OpId;

/// What a check asks, within which operation.
#[derive(Clone, Copy, Debug, PartialEq, Eq)]
pub struct Question {
    pub op: OpId,
    pub context: u32,
    pub address: IpSocketAddress,
    pub usage: SocketAddrUse,
}

/// A check that waits for an answer, with its number.
#[derive(Clone, Copy, Debug, PartialEq, Eq)]
pub struct Ask {
    pub number: u64,
    pub question: Question,
}

/// A check and its answer, where it has one.
#[derive(Clone, Copy, Debug, PartialEq, Eq)]
pub struct Asked {
    pub ask: Ask,
    pub answer: Option<bool>,
}

/// What a check is told.
#[derive(Clone, Copy, Debug, PartialEq, Eq)]
pub enum Verdict {
    Yes,
    No,
    /// Nothing yet.
    Later,
}

/// The checks that were asked and not told yet. There are never more than `most`.
#[derive(Drop)]
pub struct Asks {
    asked: Vec<Asked>,
    most: usize,
    next: u64,
}

/// The verdict of an answer.
fn verdict_of(answer: Option<bool>) -> Verdict
    ensures { result ≡ verdict_of answer }
{
    match answer {
        Some(true) => Verdict::Yes,
        Some(false) => Verdict::No,
        None => Verdict::Later,
    }
}

impl Asked {
    /// Whether it asks this.
    fn asks(&self, question: Question) -> bool
        ensures { IsTrue result ↔ AsksThis question self.now }
    {
        let own = self.ask.question;
        own.op == question.op
            && own.context == question.context
            && own.address == question.address
            && own.usage == question.usage
    }

    /// Whether it has this number and waits for its answer.
    fn waits_as(&self, number: u64) -> bool
        ensures { IsTrue result ↔ WaitsAs number self.now }
    {
        self.ask.number == number && self.answer.is_none()
    }

    /// Whether it has a later number than this and waits for its answer.
    fn waits_after(&self, number: u64) -> bool
        ensures { IsTrue result ↔ WaitsAfter number self.now }
    {
        self.ask.number > number && self.answer.is_none()
    }
}

impl Asks {
    /// No check, of which as many are kept as `most` says. Takes no memory.
    pub fn new(alloc: Global, most: usize) -> Asks
        ensures asked { result.asked.items ≡ [] }
        ensures most { result.most ≡ most }
    {
        Asks {
            asked: Vec::new(alloc),
            most,
            next: 1,
        }
    }

    /// The place of the first check that asks this.
    fn place_of(&self, question: Question) -> Option<usize>
        ensures found { Found (AsksThis question) self.now.asked.items result }
        ensures bound { IfSome result (λ place. place < length self.now.asked.items) }
    {
        for place in 0..self.asked.len() {
            if self.asked[place].asks(question) {
                return Some(place);
            }
        }
        None
    }

    /// The place of the first check that has this number and waits.
    fn place_under(&self, number: u64) -> Option<usize>
        ensures found { Found (WaitsAs number) self.now.asked.items result }
        ensures bound { IfSome result (λ place. place < length self.now.asked.items) }
    {
        for place in 0..self.asked.len() {
            if self.asked[place].waits_as(number) {
                return Some(place);
            }
        }
        None
    }

    /// What a check is told: its answer, which is given once, and nothing while there is none. One
    /// that is new waits from now on; where as many wait as may, it is told no. Takes memory for a
    /// new one; out of memory nothing changes.
    pub fn verdict(&mut self, question: Question) -> Result<Verdict, AllocError>
        ensures told { IfOk result (λ verdict. IsTold question self.old.most self.old.next
            self.old.asked.items verdict self.new.asked.items) }
        ensures err { OnErr result (self.new.asked.items ≡ self.old.asked.items) }
        ensures most { self.new.most ≡ self.old.most }
    {
        let Some(place) = self.place_of(question) else {
            return self.add(question);
        };
        let answer = self.asked[place].answer;
        if answer.is_some() {
            self.asked.remove(place);
        }
        Ok(verdict_of(answer))
    }

    /// Where as many are kept as may be, answers that nobody took give way.
    fn make_room(&mut self)
        ensures kept { self.new.asked.items ≡ kept_for self.old.most self.old.asked.items }
        ensures room { vec_len self.old.asked < vec_capacity self.old.asked
            → vec_len self.new.asked < vec_capacity self.new.asked }
        ensures rest { self.new ≡ record self.old { asked = self.new.asked } }
    {
        if self.asked.len() >= self.most {
            self.asked.retain(|it| it.answer.is_none());
        }
    }

    /// Keeps a new check, unless as many wait as may.
    fn add(&mut self, question: Question) -> Result<Verdict, AllocError>
        ensures told { IfOk result (λ verdict. IsNew question self.old.most self.old.next
            self.old.asked.items verdict self.new.asked.items) }
        ensures err { OnErr result (self.new.asked.items ≡ self.old.asked.items) }
        ensures most { self.new.most ≡ self.old.most }
    {
        self.asked.reserve(1)?;
        self.make_room();
        if self.asked.len() >= self.most {
            return Ok(Verdict::No);
        }
        let ask = Ask {
            number: self.next,
            question,
        };
        self.asked.push_reserved(Asked { ask, answer: None });
        self.next = self.next.saturating_add(1);
        Ok(Verdict::Later)
    }

    /// The first check after this number that has no answer.
    pub fn first_after(&self, number: u64) -> Option<Ask>
        ensures { Shows number self.now.asked.items result }
    {
        for place in 0..self.asked.len() {
            let it = self.asked[place];
            if it.waits_after(number) {
                return Some(it.ask);
            }
        }
        None
    }

    /// Answers the check of this number; and whether it waited for an answer.
    pub fn answer(&mut self, number: u64, yes: bool) -> bool
        ensures did { DidAnswer number yes self.old.asked.items result self.new.asked.items }
        ensures most { self.new.most ≡ self.old.most }
    {
        let Some(place) = self.place_under(number) else {
            return false;
        };
        self.asked[place].answer = Some(yes);
        true
    }
}
