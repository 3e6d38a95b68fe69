//! A law of replays. It runs no code: its contract is about the definitions by which they are
//! stated.

ghost use Rattle.std.specs.Prelude.{◌≡◌, ℕ, List};
ghost use Rattle.wasi_world.specs.declared.call.Entry.{Entry};
ghost use Rattle.wasi_world.specs.Asks.{Asks, Give, Left};
ghost use Rattle.host_store.specs.declared.machine.Machine.{Machine};
ghost use Rattle.wasi_steps.specs.declared.reply.Reply.{Reply};
ghost use Rattle.wasi_recorder.specs.Replays.{DiffersAt, WritesByBytes};

/// A run that asks just what is recorded differs from it nowhere, and one that differs does so at
/// one place.
pub fn replays_do_not_differ()
    ensures same { (asks : Asks (List Reply × Machine)) (given : List Reply × Machine)
        (recorded : List Entry) (place : ℕ) → WritesByBytes asks
        → Left asks recorded (Give given) → DiffersAt asks recorded place → ⊥ }
    ensures once { (asks : Asks (List Reply × Machine)) (recorded : List Entry) (one other : ℕ)
        → WritesByBytes asks → DiffersAt asks recorded one → DiffersAt asks recorded other
        → one ≡ other }
{}
