//! A world that answers address checks by rules, and hands everything else on.

ghost use Rattle.std.specs.Prelude.{◌≡◌, ◌≤◌, ◌<◌, ◌^◌, List, Some, IfOk, IfSome, OnErr, []};
ghost use Rattle.std.specs.Prelude.{false, true, length};
ghost use Rattle.wasi_world.specs.declared.call.Call.TheVariants.{Send};
ghost use Rattle.wasi_world.specs.declared.call.Entry.{Entry};
ghost use Rattle.wasi_world.specs.Asks.{one, one_write, AsksFor};
ghost use Rattle.wasi_world.specs.Closings.{Named, NoneNamed};
ghost use Rattle.wasi_world.specs.Fits.{Fits, IsPlain, IsWritten};
ghost use Rattle.wasi_world.specs.Seen.{Closes, Ends};
ghost use Rattle.wasi_policy.specs.Policed.{denies, seen_under, IsUnder, IsPoliced};

use crate::denied::Denied;
use crate::policy::Policy;
use std::alloc::{AllocError, Global};
use std::marker::{Brand, PhantomData};
use wasi_addr::IpSocketAddress;
use wasi_looks::{Look, WaitsForLooks};
use wasi_world::{Call, Entry, OpId, Sock, Told, Waits, World};

/// What proofs know of a [`PolicyWorld`] besides its log: its rules, and the plan of the world that
/// it hands on to. A caller reads a [`Policy`] and calls a function that is generic in `Rules`, at
/// [`Brand`], for which its proof picks these; the function makes the world, uses it and takes it
/// apart.
pub trait Rules {
    ghost use Rattle.std.specs.Prelude.{List, Option};
    ghost use Rattle.wasi_world.specs.Seen.{Plan};
    ghost use Rattle.wasi_policy.specs.declared.rule.Rule.{Rule};

    ghost rules: { List Rule };

    ghost plan: { Option Plan };
}

impl Rules for Brand {
    ghost use Rattle.std.specs.Prelude.{[], None};

    ghost rules = { [] };

    ghost plan = { None };
}

/// A call that was handed on and answered.
#[derive(Clone, Copy)]
struct Handed;

/// A world round another one. A check that its rules deny is told no, and isn't handed on; every
/// other call is handed on, and has the inner world's answer.
///
/// Its log is the inner world's, with each denied check put in at its place: it copies no entry
/// that it hands on.
#[derive(Drop)]
pub struct PolicyWorld<W: World, R: Rules> {
    policy: Policy,
    inner: W,
    denied: Vec<Denied>,
    handed: Vec<Handed>,
    of: PhantomData<R>,
    ghost rules: { policy ≡ R.rules },
    ghost plan: { (W.seen inner).plan ≡ R.plan },
    ghost under: { IsUnder R.rules denied.items (length handed.items) (W.seen inner) },
}

impl<W: World, R: Rules> PolicyWorld<W, R> {
    /// A world under these rules, round a world that was asked nothing yet. Takes no memory.
    pub fn new(alloc: Global, policy: Policy, inner: W) -> PolicyWorld<W, R>
        requires rules { policy ≡ R.rules }
        requires plan { (W.seen inner).plan ≡ R.plan }
        requires empty { IfSome (W.seen inner).log (λ log. log ≡ []) }
        ensures { seen_under result.denied.items (W.seen result.inner)
            ≡ seen_under [] (W.seen inner) }
    {
        PolicyWorld {
            policy,
            inner,
            denied: Vec::new(alloc),
            handed: Vec::new(alloc),
            of: PhantomData,
        }
    }

    /// The checks that were denied, in order.
    pub fn denied(&self) -> &[Denied]
        ensures denied { result.now ≡ self.now.denied.items }
        ensures policed { (inner log : List Entry) → (W.seen self.now.inner).log ≡ Some inner →
            (seen_under self.now.denied.items (W.seen self.now.inner)).log ≡ Some log → IsPoliced R.rules result.now inner log }
    {
        self.denied.as_slice()
    }

    /// The world that it hands on to.
    pub fn inner(&self) -> &W
        ensures { result.now ≡ self.now.inner }
    {
        &self.inner
    }

    /// The checks that were denied, in order, and the inner world. Takes no memory.
    pub fn into_parts(self) -> (Vec<Denied>, W)
        ensures inner { result.1 ≡ self.inner }
        ensures plan { (W.seen result.1).plan ≡ R.plan }
        ensures denied { result.0.items ≡ self.denied.items }
        ensures policed { (inner log : List Entry) → (W.seen self.inner).log ≡ Some inner →
            (seen_under self.denied.items (W.seen self.inner)).log ≡ Some log → IsPoliced R.rules result.0.items inner log }
    {
        let PolicyWorld {
            policy: _,
            inner,
            denied,
            handed: _,
            of: _,
        } = self;
        (denied, inner)
    }

    /// Whether the rules deny the call.
    fn denies(&self, call: &Call) -> bool
        ensures { result ≡ denies R.rules call.now }
    {
        match call {
            Call::Check { addr, usage, .. } => !self.policy.decide(*addr, *usage).allow,
            _ => false,
        }
    }

    /// Keeps a check that the rules deny, told no.
    fn deny(&mut self, op: OpId, call: Call) -> Result<Told, AllocError>
        requires denied { denies R.rules call ≡ true }
        ensures asked { AsksFor (one op call) (seen_under self.old.denied.items
            (W.seen self.old.inner)) (seen_under self.new.denied.items (W.seen self.new.inner))
            (λ told. told) result }
        ensures inner { self.new.inner ≡ self.old.inner }
        ensures fits { IfOk result (λ told. Fits call told) }
        ensures told { IfOk result (λ told. told ≡ Told.No) }
        ensures err { OnErr result (self.new.denied.items ≡ self.old.denied.items) }
    {
        let place = self.handed.len() as u64;
        let answer = Told::No;
        self.denied.reserve(1)?;
        self.denied.push_reserved(Denied {
            place,
            entry: Entry { op, call, answer },
        });
        Ok(Told::No)
    }
}

impl<W: World, R: Rules> World for PolicyWorld<W, R> {
    ghost use Rattle.std.specs.Prelude.{option_map};
    ghost use Rattle.wasi_world.specs.Script.{without_plan};
    ghost use Rattle.wasi_policy.specs.Policed.{seen_under, merged};

    ghost seen = { λ world. seen_under world.denied.items (W.seen world.inner) };

    ghost closed = { λ world. W.closed world.inner };

    ghost scripted = { λ world. without_plan (option_map (merged world.denied.items)
        (W.seen world.inner).log) };

    fn call(&mut self, op: OpId, call: Call) -> Result<Told, AllocError>
        requires open { (seen_under self.old.denied.items (W.seen self.old.inner)).ended ≡ false }
        requires plain { IsPlain call }
        ensures asked { AsksFor (one op call) (seen_under self.old.denied.items
            (W.seen self.old.inner)) (seen_under self.new.denied.items (W.seen self.new.inner))
            (λ told. told) result }
        ensures fits { IfOk result (λ told. Fits call told) }
        ensures err { OnErr result (seen_under self.new.denied.items (W.seen self.new.inner)
            ≡ seen_under self.old.denied.items (W.seen self.old.inner)) }

        // Whatever the inner world reports.
        ensures denied { denies R.rules call ≡ true → IfOk result (λ told. told ≡ Told.No) }
        ensures kept { denies R.rules call ≡ true → self.new.inner ≡ self.old.inner }
        ensures handed { denies R.rules call ≡ false → AsksFor (one op call)
            (W.seen self.old.inner) (W.seen self.new.inner) (λ told. told) result }
    {
        if self.denies(&call) {
            return self.deny(op, call);
        }
        self.handed.reserve(1)?;
        let told = self.inner.call(op, call)?;
        self.handed.push_reserved(Handed);
        Ok(told)
    }

    fn write(&mut self, op: OpId, sock: Sock, bytes: &[u8]) -> Result<Told, AllocError>
        requires open { (seen_under self.old.denied.items (W.seen self.old.inner)).ended ≡ false }
        requires some { 1 ≤ length bytes.now }
        requires short { length bytes.now < 2 ^ 32 }
        ensures asked { AsksFor (one_write op sock bytes.now) (seen_under self.old.denied.items
            (W.seen self.old.inner)) (seen_under self.new.denied.items (W.seen self.new.inner))
            (λ told. told) result }
        ensures fits { IfOk result (λ told. IsWritten (length bytes.now) told) }
        ensures err { OnErr result (seen_under self.new.denied.items (W.seen self.new.inner)
            ≡ seen_under self.old.denied.items (W.seen self.old.inner)) }
        ensures handed { AsksFor (one_write op sock bytes.now) (W.seen self.old.inner)
            (W.seen self.new.inner) (λ told. told) result }
    {
        self.handed.reserve(1)?;
        let told = self.inner.write(op, sock, bytes)?;
        self.handed.push_reserved(Handed);
        Ok(told)
    }

    fn send(
        &mut self,
        op: OpId,
        sock: Sock,
        addr: IpSocketAddress,
        bytes: &[u8],
    ) -> Result<Told, AllocError>
        requires open { (seen_under self.old.denied.items (W.seen self.old.inner)).ended ≡ false }
        ensures asked { AsksFor (one op (Send sock addr bytes.now)) (seen_under
            self.old.denied.items (W.seen self.old.inner)) (seen_under self.new.denied.items
            (W.seen self.new.inner)) (λ told. told) result }
        ensures err { OnErr result (seen_under self.new.denied.items (W.seen self.new.inner)
            ≡ seen_under self.old.denied.items (W.seen self.old.inner)) }
        ensures handed { AsksFor (one op (Send sock addr bytes.now)) (W.seen self.old.inner)
            (W.seen self.new.inner) (λ told. told) result }
    {
        self.handed.reserve(1)?;
        let told = self.inner.send(op, sock, addr, bytes)?;
        self.handed.push_reserved(Handed);
        Ok(told)
    }

    fn end(&mut self)
        requires open { (seen_under self.old.denied.items (W.seen self.old.inner)).ended ≡ false }
        ensures mark { Ends (seen_under self.old.denied.items (W.seen self.old.inner))
            (seen_under self.new.denied.items (W.seen self.new.inner)) }
        ensures none { NoneNamed (W.closed self.new.inner) }
        ensures handed { Ends (W.seen self.old.inner) (W.seen self.new.inner) }
    {
        self.inner.end();
    }

    fn close_after_end(&mut self, sock: Sock)
        requires ended { (seen_under self.old.denied.items (W.seen self.old.inner)).ended ≡ true }
        ensures counted { Closes (seen_under self.old.denied.items (W.seen self.old.inner))
            (seen_under self.new.denied.items (W.seen self.new.inner)) }
        ensures named { Named (W.closed self.old.inner) sock (W.closed self.new.inner) }
        ensures handed { Closes (W.seen self.old.inner) (W.seen self.new.inner) }
    {
        self.inner.close_after_end(sock);
    }
}

impl<W: Waits, R: Rules> Waits for PolicyWorld<W, R> {
    fn wait(&mut self, timeout: i32) -> bool {
        self.inner.wait(timeout)
    }
}

impl<W: WaitsForLooks, R: Rules> WaitsForLooks for PolicyWorld<W, R> {
    fn wait_for(&mut self, looks: &[Look]) -> bool {
        self.inner.wait_for(looks)
    }

    fn let_looks_wait(&mut self, waits: bool) {
        self.inner.let_looks_wait(waits);
    }
}
