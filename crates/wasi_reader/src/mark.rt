//! A stage that is under a lock and that one side alone sets, once.

ghost use Rattle.std.specs.Prelude.{◌≡◌};
ghost use Rattle.wasi_reader.specs.declared.stage.Stage.TheVariants.{Open};

use crate::stage::Stage;
use std::marker::Model;
use std::sync::ledger::{Blank, Ledger};
use worker_shared::{Count, Counter};

/// A stage under a lock, which exists in proofs alone. Only its [`Marker`] sets it.
#[derive(Drop)]
pub struct Mark<L: Ledger> {
    number: Count<L>,
}

impl<L: Ledger> Model for Mark<L> {
    ghost use Rattle.wasi_reader.specs.Stages.{stage_at};
    ghost use Rattle.wasi_reader.specs.declared.stage.Stage.{Stage};

    ghost Value = { Stage };

    ghost view = { λ mark. stage_at mark.number };
}

/// The right to set a [`Mark`]. Its holder knows the stage while others have the lock.
#[derive(Drop)]
pub struct Marker<L: Ledger> {
    number: Counter<L>,
}

impl<L: Ledger> Model for Marker<L> {
    ghost use Rattle.wasi_reader.specs.Stages.{stage_at};
    ghost use Rattle.wasi_reader.specs.declared.stage.Stage.{Stage};

    ghost Value = { Stage };

    ghost view = { λ marker. stage_at marker.number };
}

impl<L: Ledger> Mark<L> {
    /// The first stage, and its marker.
    pub fn open(blank: Blank) -> (Mark<L>, Marker<L>)
        requires name { blank.name ≡ L.name }
        requires parts { (blank.parts ≡ L.parts) × (L.parts ≡ 1) }
        ensures mark { result.0 ≡ Open }
        ensures marker { result.1 ≡ Open }
    {
        let (number, mine) = Count::open(blank);
        (Mark { number }, Marker { number: mine })
    }

    /// What the marker knows is so.
    pub fn agree(&mut self, marker: &mut Marker<L>)
        requires { L.parts ≡ 1 }
        ensures agrees { self.old ≡ marker.old }
        ensures same { (self.new ≡ self.old) × (marker.new ≡ marker.old) }
    {
        self.number.agree(&mut marker.number);
    }

    /// The marker sets the first stage to another.
    pub fn set(&mut self, marker: &mut Marker<L>, stage: Stage)
        requires parts { L.parts ≡ 1 }
        requires first { self.old ≡ Open }
        ensures agreed { self.old ≡ marker.old }
        ensures mark { self.new ≡ stage }
        ensures marker { marker.new ≡ stage }
    {
        self.number.add(&mut marker.number, stage.number());
    }
}
