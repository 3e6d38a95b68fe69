//! A number that is under a lock and that one side alone changes.

ghost use Rattle.std.specs.Prelude.{◌≡◌};

use crate::count::{Count, Counter};
use std::marker::Model;
use std::sync::ledger::{Blank, Ledger};

/// A number under a lock. Only its [`Counter`] changes it; the counter's holder knows the number
/// while others have the lock.
#[derive(Drop)]
pub struct Number<L: Ledger> {
    value: u64,
    count: Count<L>,
    ghost counted: { count ≡ value },
}

impl<L: Ledger> Model for Number<L> {
    ghost use Rattle.std.specs.Prelude.{ℕ};

    ghost Value = { ℕ };

    ghost view = { λ number. number.value };
}

impl<L: Ledger> Number<L> {
    /// A number that is 0, and its counter.
    pub fn open(blank: Blank) -> (Number<L>, Counter<L>)
        requires name { blank.name ≡ L.name }
        requires parts { (blank.parts ≡ L.parts) × (L.parts ≡ 1) }
        ensures number { result.0 ≡ 0 }
        ensures counter { result.1 ≡ 0 }
    {
        let (count, counter) = Count::open(blank);
        (Number { value: 0, count }, counter)
    }

    /// The number.
    pub fn value(&self) -> u64
        ensures { result ≡ self.now }
    {
        self.value
    }

    /// What the counter knows is so.
    pub fn agree(&mut self, counter: &mut Counter<L>)
        requires { L.parts ≡ 1 }
        ensures agrees { self.old ≡ counter.old }
        ensures same { (self.new ≡ self.old) × (counter.new ≡ counter.old) }
    {
        self.count.agree(counter);
    }

    /// The counter changes it.
    pub fn set(&mut self, counter: &mut Counter<L>, value: u64)
        requires { L.parts ≡ 1 }
        ensures agreed { self.old ≡ counter.old }
        ensures number { self.new ≡ value }
        ensures counter { counter.new ≡ value }
    {
        self.count.change(counter, self.value, value);
        self.value = value;
    }
}
