//! A world whose looks wait, for programs that do one call after another.

ghost use Rattle.std.specs.Prelude.{◌≡◌, ◌≤◌, ◌<◌, ◌^◌, None, IfOk, OnErr, length, false, true};

use crate::system::System;
use crate::system_world::SystemWorld;
use std::alloc::AllocError;
use wasi_addr::IpSocketAddress;
use wasi_looks::{Look, Readiness, WaitsForLooks};
use wasi_world::{Call, OpId, Sock, Told, World};

/// How a host waits.
#[derive(Clone, Copy, Debug, PartialEq, Eq)]
pub enum Patience {
    /// Once, for at most so many milliseconds.
    AtMost(i32),
    /// Without limit, until one of the looks may go on that are waited for, where all of them were
    /// pending before. The first time that a look is made nothing waits for it.
    Endless,
}

/// A [`SystemWorld`] with a host's patience, by which it waits for looks: for an arrival, for
/// bytes, for room, for a datagram or for the end of a connect. Reads, writes and sends don't wait.
///
/// A host waits before a line for all that the line will look at, and lets no look wait. Where it
/// can't know before what a line will look at, as a connect that begins, it lets looks wait: then
/// each that is pending waits by itself. That is so at first.
#[derive(Drop)]
pub struct PatientWorld<S> {
    world: SystemWorld<S>,
    patience: Patience,
    /// Whether looks wait.
    waits: bool,
}

/// What a call looks at that waits where it is pending.
fn look_of(call: &Call) -> Option<Look> {
    let (sock, readiness) = match call {
        Call::Accept { sock } | Call::ReadReady { sock } | Call::Recv { sock } => {
            (*sock, Readiness::Read)
        }
        Call::WriteReady { sock } | Call::Connect { sock, .. } => (*sock, Readiness::Write),
        _ => return None,
    };
    Some(Look { sock, readiness })
}

impl<S> PatientWorld<S> {
    ghost use Rattle.wasi_net.specs.Owned.{Owned};
    ghost use Rattle.wasi_net.specs.Net.{seen_by, sides_of, patient_seen, patient_sides};

    /// This world, with this patience. Looks wait.
    pub fn new(world: SystemWorld<S>, patience: Patience) -> PatientWorld<S>
        ensures seen { patient_seen result ≡ seen_by world }
        ensures sides { patient_sides result ≡ sides_of world }
    {
        PatientWorld {
            world,
            patience,
            waits: true,
        }
    }
}

impl<S: System> PatientWorld<S> {
    ghost use Rattle.wasi_world.specs.Fits.{Fits};
    ghost use Rattle.wasi_net.specs.Awaited.{MayWait};
    ghost use Rattle.wasi_net.specs.Owned.{Owned};
    ghost use Rattle.wasi_net.specs.Net.{AnswersNow};
    ghost use Rattle.wasi_net.specs.Net.{patient_seen, patient_sides, patient_system};

    /// Waits once until one of these looks may go on, and says whether one may. Where the patience
    /// is endless it waits if all of them were pending before, and else not at all. For nothing it
    /// doesn't wait. Takes memory for what the system is asked.
    fn await_looks(&mut self, looks: &[Look]) -> Result<bool, AllocError>
        ensures waited { MayWait (patient_sides self.old) looks.now self.old.patience
            (S.acts (patient_system self.old)) (S.acts (patient_system self.new)) }
        ensures seen { patient_seen self.new ≡ patient_seen self.old }
        ensures owned { Owned (patient_sides self.old) (S.acts (patient_system self.old))
            → Owned (patient_sides self.new) (S.acts (patient_system self.new)) }
    {
        if looks.is_empty() {
            return Ok(false);
        }
        match self.patience {
            Patience::AtMost(time) => self.world.wait_on(looks, time),
            Patience::Endless => {
                if !self.world.are_awaited(looks) {
                    return Ok(true);
                }
                self.world.wait_on(looks, -1)
            }
        }
    }

    /// Asks, and once more after a wait of so many milliseconds for this look, which begins, where
    /// the answer is pending.
    fn ask_twice(
        &mut self,
        time: i32,
        look: Look,
        op: OpId,
        call: &Call,
    ) -> Result<Told, AllocError>
        ensures fits { IfOk result (Fits call.now) }
        ensures seen { patient_seen self.new ≡ patient_seen self.old }
        ensures owned { Owned (patient_sides self.old) (S.acts (patient_system self.old))
            → Owned (patient_sides self.new) (S.acts (patient_system self.new)) }
    {
        let told = self.world.ask(op, call)?;
        if !matches!(told, Told::Pending) {
            return Ok(told);
        }
        self.world.wait_on(&[look], time)?;
        self.world.ask(op, call)
    }

    /// Asks, after a wait for this look where its last answer was pending.
    fn ask_after_wait(&mut self, look: Look, op: OpId, call: &Call) -> Result<Told, AllocError>
        ensures fits { IfOk result (Fits call.now) }
        ensures seen { patient_seen self.new ≡ patient_seen self.old }
        ensures owned { Owned (patient_sides self.old) (S.acts (patient_system self.old))
            → Owned (patient_sides self.new) (S.acts (patient_system self.new)) }
    {
        self.await_looks(&[look])?;
        self.world.ask(op, call)
    }

    /// Asks, and waits for a look, where looks wait.
    fn ask(&mut self, op: OpId, call: &Call) -> Result<Told, AllocError>
        ensures at_once { self.old.waits ≡ false → IfOk result (λ told. AnswersNow self.old self.new
            op call.now told (S.acts (patient_system self.old))
            (S.acts (patient_system self.new))) }
        ensures fits { IfOk result (Fits call.now) }
        ensures seen { patient_seen self.new ≡ patient_seen self.old }
        ensures owned { Owned (patient_sides self.old) (S.acts (patient_system self.old))
            → Owned (patient_sides self.new) (S.acts (patient_system self.new)) }
    {
        if !self.waits {
            return self.world.ask(op, call);
        }
        let Some(look) = look_of(call) else {
            return self.world.ask(op, call);
        };
        match self.patience {
            Patience::AtMost(time) => self.ask_twice(time, look, op, call),
            Patience::Endless => self.ask_after_wait(look, op, call),
        }
    }
}

impl<S: System> WaitsForLooks for PatientWorld<S> {
    ghost use Rattle.wasi_net.specs.Awaited.{MayWait};
    ghost use Rattle.wasi_net.specs.Owned.{Owned};
    ghost use Rattle.wasi_net.specs.Net.{patient_seen, patient_sides, patient_system};

    /// Waits as the patience has it, once, for exactly these looks. Where memory runs out it doesn't
    /// wait.
    fn wait_for(&mut self, looks: &[Look]) -> bool
        ensures waited { MayWait (patient_sides self.old) looks.now self.old.patience
            (S.acts (patient_system self.old)) (S.acts (patient_system self.new)) }
        ensures seen { patient_seen self.new ≡ patient_seen self.old }
        ensures owned { Owned (patient_sides self.old) (S.acts (patient_system self.old))
            → Owned (patient_sides self.new) (S.acts (patient_system self.new)) }
    {
        matches!(self.await_looks(looks), Ok(true))
    }

    fn let_looks_wait(&mut self, waits: bool)
        ensures seen { patient_seen self.new ≡ patient_seen self.old }
        ensures waits { self.new.waits ≡ waits }
    {
        self.waits = waits;
    }
}

impl<S: System> World for PatientWorld<S> {
    ghost use Rattle.wasi_world.specs.Asks.{one, one_write, AsksFor};
    ghost use Rattle.wasi_world.specs.Fits.{Fits, IsPlain, IsWritten};
    ghost use Rattle.wasi_world.specs.Script.{without_plan};
    ghost use Rattle.wasi_world.specs.Closings.{Named, NoneNamed};
    ghost use Rattle.wasi_world.specs.Seen.{Closes, Ends};
    ghost use Rattle.wasi_net.specs.Net.{AnswersNow};
    ghost use Rattle.wasi_net.specs.Owned.{Owned};
    ghost use Rattle.wasi_net.specs.Net.{patient_seen, patient_sides, patient_system};

    ghost seen = { patient_seen };

    ghost closed = { λ world. None };

    ghost scripted = { λ world. without_plan None };

    fn call(&mut self, op: OpId, call: Call) -> Result<Told, AllocError>
        requires open { (patient_seen self.old).ended ≡ false }
        requires plain { IsPlain call }
        ensures asked { AsksFor (one op call) (patient_seen self.old) (patient_seen self.new)
            (λ told. told) result }
        ensures fits { IfOk result (λ told. Fits call told) }
        ensures err { OnErr result (patient_seen self.new ≡ patient_seen self.old) }
        // Where looks don't wait, the system is asked what the world without patience asks.
        ensures at_once { self.old.waits ≡ false → IfOk result (λ told. AnswersNow self.old self.new
            op call told (S.acts (patient_system self.old)) (S.acts (patient_system self.new))) }
        ensures owned { Owned (patient_sides self.old) (S.acts (patient_system self.old))
            → Owned (patient_sides self.new) (S.acts (patient_system self.new)) }
    {
        let told = self.ask(op, &call)?;
        self.world.count(&told);
        Ok(told)
    }

    fn write(&mut self, op: OpId, sock: Sock, bytes: &[u8]) -> Result<Told, AllocError>
        requires open { (patient_seen self.old).ended ≡ false }
        requires some { 1 ≤ length bytes.now }
        requires short { length bytes.now < 2 ^ 32 }
        ensures asked { AsksFor (one_write op sock bytes.now) (patient_seen self.old)
            (patient_seen self.new) (λ told. told) result }
        ensures fits { IfOk result (λ told. IsWritten (length bytes.now) told) }
        ensures err { OnErr result (patient_seen self.new ≡ patient_seen self.old) }
        ensures owned { Owned (patient_sides self.old) (S.acts (patient_system self.old))
            → Owned (patient_sides self.new) (S.acts (patient_system self.new)) }
    {
        self.world.write(op, sock, bytes)
    }

    fn send(
        &mut self,
        op: OpId,
        sock: Sock,
        addr: IpSocketAddress,
        bytes: &[u8],
    ) -> Result<Told, AllocError>
        requires open { (patient_seen self.old).ended ≡ false }
        ensures asked { AsksFor (one op (Call.Send sock addr bytes.now)) (patient_seen self.old)
            (patient_seen self.new) (λ told. told) result }
        ensures err { OnErr result (patient_seen self.new ≡ patient_seen self.old) }
        ensures owned { Owned (patient_sides self.old) (S.acts (patient_system self.old))
            → Owned (patient_sides self.new) (S.acts (patient_system self.new)) }
    {
        self.world.send(op, sock, addr, bytes)
    }

    fn end(&mut self)
        requires open { (patient_seen self.old).ended ≡ false }
        ensures mark { Ends (patient_seen self.old) (patient_seen self.new) }
        ensures none { NoneNamed None }
        ensures owned { Owned (patient_sides self.old) (S.acts (patient_system self.old))
            → Owned (patient_sides self.new) (S.acts (patient_system self.new)) }
    {
        self.world.end();
    }

    fn close_after_end(&mut self, sock: Sock)
        requires ended { (patient_seen self.old).ended ≡ true }
        ensures counted { Closes (patient_seen self.old) (patient_seen self.new) }
        ensures named { Named None sock None }
        ensures owned { Owned (patient_sides self.old) (S.acts (patient_system self.old))
            → Owned (patient_sides self.new) (S.acts (patient_system self.new)) }
    {
        self.world.close_after_end(sock);
    }
}
