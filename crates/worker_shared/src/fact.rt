//! A fact that is under a lock and that one side alone changes.

ghost use Rattle.std.specs.Prelude.{◌≡◌, false};

use crate::count::Counter;
use crate::number::Number;
use std::marker::Model;
use std::sync::ledger::{Blank, Ledger};

/// A fact under a lock, true or false. Only its [`Keeper`] changes it.
#[derive(Drop)]
pub struct Fact<L: Ledger> {
    number: Number<L>,
}

impl<L: Ledger> Model for Fact<L> {
    ghost use Rattle.std.specs.Prelude.{◌==◌, Bool};

    ghost Value = { Bool };

    ghost view = { λ fact. fact.number == 1 };
}

/// The right to change a [`Fact`]. Its holder knows the fact while others have the lock.
#[derive(Drop)]
pub struct Keeper<L: Ledger> {
    counter: Counter<L>,
}

impl<L: Ledger> Model for Keeper<L> {
    ghost use Rattle.std.specs.Prelude.{◌==◌, Bool};

    ghost Value = { Bool };

    ghost view = { λ keeper. keeper.counter == 1 };
}

impl<L: Ledger> Fact<L> {
    /// A fact that doesn't hold yet, and its keeper.
    pub fn open(blank: Blank) -> (Fact<L>, Keeper<L>)
        requires name { blank.name ≡ L.name }
        requires parts { (blank.parts ≡ L.parts) × (L.parts ≡ 1) }
        ensures fact { result.0 ≡ false }
        ensures keeper { result.1 ≡ false }
    {
        let (number, counter) = Number::open(blank);
        (Fact { number }, Keeper { counter })
    }

    /// Whether it holds.
    pub fn holds(&self) -> bool
        ensures { result ≡ self.now }
    {
        self.number.value() == 1
    }

    /// What the keeper knows is so.
    pub fn agree(&mut self, keeper: &mut Keeper<L>)
        requires { L.parts ≡ 1 }
        ensures agrees { self.old ≡ keeper.old }
        ensures same { (self.new ≡ self.old) × (keeper.new ≡ keeper.old) }
    {
        self.number.agree(&mut keeper.counter);
    }

    /// The keeper changes it.
    pub fn set(&mut self, keeper: &mut Keeper<L>, holds: bool)
        requires { L.parts ≡ 1 }
        ensures agreed { self.old ≡ keeper.old }
        ensures fact { self.new ≡ holds }
        ensures keeper { keeper.new ≡ holds }
    {
        let number = if holds { 1 } else { 0 };
        self.number.set(&mut keeper.counter, number);
    }
}
