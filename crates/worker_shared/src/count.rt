//! A count that is under a lock and that one side alone changes.

ghost use Rattle.std.specs.Prelude.{◌≡◌, ◌+◌, ◌≤◌};

use std::marker::Model;
use std::sync::ledger::{Blank, Book, Ledger, Share};

/// A count under a lock, which exists in proofs alone. Only its [`Counter`] changes it.
#[derive(Drop)]
pub struct Count<L: Ledger> {
    book: Book<L>,
}

impl<L: Ledger> Model for Count<L> {
    ghost use Rattle.std.specs.Prelude.{ℕ};

    ghost Value = { ℕ };

    ghost view = { λ count. count.book.total };
}

/// The right to change a [`Count`]. Its holder knows the count while others have the lock.
#[derive(Drop)]
pub struct Counter<L: Ledger> {
    share: Share<L>,
}

impl<L: Ledger> Model for Counter<L> {
    ghost use Rattle.std.specs.Prelude.{◌≡◌, ℕ};

    ghost Value = { ℕ };

    ghost view = { λ counter. counter.share.amount };

    ghost invariant = { λ counter. counter.share.parts ≡ 1 };
}

impl<L: Ledger> Count<L> {
    /// A count of 0, and its counter.
    pub fn open(blank: Blank) -> (Count<L>, Counter<L>)
        requires name { blank.name ≡ L.name }
        requires parts { (blank.parts ≡ L.parts) × (L.parts ≡ 1) }
        ensures count { result.0 ≡ 0 }
        ensures counter { result.1 ≡ 0 }
    {
        let (book, share) = blank.open::<L>();
        (Count { book }, Counter { share })
    }

    /// What the counter knows is so.
    pub fn agree(&mut self, counter: &mut Counter<L>)
        requires { L.parts ≡ 1 }
        ensures agrees { self.old ≡ counter.old }
        ensures same { (self.new ≡ self.old) × (counter.new ≡ counter.old) }
    {
        self.book.audit(&mut counter.share);
    }

    /// Raises it.
    pub fn add(&mut self, counter: &mut Counter<L>, more: u64)
        requires { L.parts ≡ 1 }
        ensures agreed { self.old ≡ counter.old }
        ensures count { self.new ≡ self.old + more }
        ensures counter { counter.new ≡ counter.old + more }
    {
        self.book.audit(&mut counter.share);
        self.book.add(&mut counter.share, more);
    }

    /// Changes it from one number to another.
    pub fn change(&mut self, counter: &mut Counter<L>, from: u64, to: u64)
        requires parts { L.parts ≡ 1 }
        requires from { self.old ≡ from }
        ensures agreed { self.old ≡ counter.old }
        ensures count { self.new ≡ to }
        ensures counter { counter.new ≡ to }
    {
        self.book.audit(&mut counter.share);
        if to >= from {
            self.book.add(&mut counter.share, to - from);
        } else {
            self.book.sub(&mut counter.share, from - to);
        }
    }
}
