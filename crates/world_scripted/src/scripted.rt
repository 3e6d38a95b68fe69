//! A world that answers from lists.

ghost use Rattle.std.specs.Prelude.{◌≡◌, IfOk, OnOk, OnErr, IfSome, Some, true};
ghost use Rattle.std.specs.Prelude.{[], ◌∷◌, length, false};
ghost use Rattle.wasi_world.specs.declared.call.Told.{Told};
ghost use Rattle.wasi_world.specs.declared.ids.OpId.{OpId};
ghost use Rattle.wasi_world.specs.declared.plan.Planned.{Planned};
ghost use Rattle.wasi_world.specs.Asks.{IsFront};
ghost use Rattle.wasi_world.specs.Fits.{Fits};
ghost use Rattle.wasi_world.specs.Seen.{Counts, Passes, Plan};
ghost use Rattle.wasi_world.specs.Kinds.{kind_of};
ghost use Rattle.wasi_world.specs.Script.{Offers, offered, default, as_planned};
ghost use Rattle.wasi_world.specs.Script.{waiting, next_answer, progress, IsScripted};
ghost use Rattle.wasi_world.specs.Sides.{unmade};
ghost use Rattle.world_scripted.specs.Armed.{armed_left, told_at, stage_after};
ghost use Rattle.world_scripted.specs.Known.{known};

use crate::arming::Arming;
use crate::defaults::{is_done_by_default, is_pending_by_default, tell_default};
use crate::lists::Lists;
use crate::sides::{Sides, keep, option_of};
use std::alloc::{AllocError, Global};
use std::collections::HashMap;
use wasi_addr::{ErrorCode, IpSocketAddress};
use wasi_world::{Call, ClosedSockets, Entry, Octets, OpId, Sock, Told, Waits, World};

/// The count of faults after an answer: one more where it is a code, up to the greatest count.
fn count_after(faults: u64, told: &Told) -> u64
    ensures { Counts told.now faults result }
{
    match told {
        Told::Code(_) => faults.saturating_add(1),
        _ => faults,
    }
}

/// The answer to a call: the next of its kind, or else the default.
fn tell(
    alloc: Global,
    lists: &Lists,
    sides: &Sides,
    call: &Call,
    bytes: &[u8],
) -> Result<Told, AllocError>
    requires some { Offers call.now }
    requires offered { length bytes.now ≡ offered call.now }
    ensures told { IfOk result (λ told. as_planned told ≡ next_answer
        (waiting lists.now.left (kind_of call.now)) (known sides.now) call.now) }
    ensures fits { IfOk result (λ told. Fits call.now told) }
    ensures front { IfOk result (λ told. IsFront told bytes.now) }
{
    match lists.tell(alloc, call, bytes)? {
        Some(told) => Ok(told),
        None => tell_default(alloc, sides, call, bytes),
    }
}

/// Goes on to what is left of the lists after a call; one that a code answers takes nothing.
fn advance(lists: &mut Lists, armed: Arming, call: &Call)
    ensures { lists.new ≡ record {
      all = lists.old.all;
      left = armed_left armed lists.old.left call.now;
    } }
{
    if !armed.falls(call) {
        lists.advance(call);
    }
}

/// A network that answers each call from a list for its kind, in order and over all network
/// sockets, and by a default once that list is used up. It keeps its log. A world that was armed
/// answers one call by a code, and no longer reports its plan.
#[derive(Drop)]
pub struct ScriptedWorld {
    lists: Lists,
    sides: Sides,
    armed: Arming,
    by_plan: bool,
    log: Vec<Entry>,
    ended: bool,
    closings: u64,
    closed: ClosedSockets,
    faults: u64,
    ghost unarmed: { by_plan ≡ true → armed.nth ≡ 0 },
    ghost left: { by_plan ≡ true → lists.left ≡ (progress lists.all log.items).left },
    ghost sides_known: { by_plan ≡ true → (sock : OpId) → known sides sock
        ≡ (progress lists.all log.items).sides sock },
    ghost scripted: { by_plan ≡ true → IsScripted lists.all log.items },
}

impl ScriptedWorld {
    ghost use Rattle.world_scripted.specs.Scripted.{seen_by, stage_of, at_start, armed_seen};

    /// A world that goes by these lists, from their start: with an empty log, no end mark and no
    /// faults, and never armed. Takes no memory.
    pub fn new(alloc: Global, lists: Lists) -> ScriptedWorld
        requires { lists.left ≡ lists.all }
        ensures start { seen_by result ≡ at_start lists.all }
        ensures left { (stage_of result).left ≡ lists.all }
        ensures sides { (sock : OpId) → (stage_of result).sides sock ≡ unmade }
        ensures unarmed { (stage_of result).armed.nth ≡ 0 }
    {
        ScriptedWorld {
            lists,
            sides: HashMap::new(alloc),
            armed: Arming {
                nth: 0,
                code: ErrorCode::Other,
            },
            by_plan: true,
            log: Vec::new(alloc),
            ended: false,
            closings: 0,
            closed: ClosedSockets::new(alloc),
            faults: 0,
        }
    }

    /// Arms it: the `nth` later call that the code fits, counted from 1, is answered by the code,
    /// and takes nothing from its list. 0 disarms. Takes no memory.
    ///
    /// From then on it doesn't report its plan, as it doesn't go by it; a world that was only
    /// disarmed still does.
    pub fn arm(&mut self, nth: u32, code: ErrorCode)
        ensures seen { seen_by self.new ≡ armed_seen nth (seen_by self.old) }
        ensures armed { stage_of self.new ≡ record {
          left = (stage_of self.old).left;
          sides = (stage_of self.old).sides;
          armed = record { nth = nth; code = code };
        } }
    {
        self.armed = Arming { nth, code };
        self.by_plan = self.by_plan && nth == 0;
    }

    /// The answer to a call: the code that it is armed with, or else that of its lists.
    fn tell(&self, call: &Call, bytes: &[u8]) -> Result<Told, AllocError>
        requires some { Offers call.now }
        requires offered { length bytes.now ≡ offered call.now }
        ensures told { IfOk result (λ told. as_planned told ≡ told_at (stage_of self.now) call.now) }
        ensures fits { IfOk result (λ told. Fits call.now told) }
        ensures front { IfOk result (λ told. IsFront told bytes.now) }
    {
        if self.armed.falls(call) {
            return Ok(Told::Code(self.armed.code));
        }
        let alloc = *self.log.allocator();
        tell(alloc, &self.lists, &self.sides, call, bytes)
    }

    /// Whether the call is answered by its default: no answer is planned for it, and it isn't the
    /// one that the code answers.
    #[inline(always)]
    fn answers_by_default(&self, call: &Call) -> bool
        ensures { result ≡ true → told_at (stage_of self.now) call.now
            ≡ default (known self.now.sides) call.now }
    {
        !self.armed.falls(call) && self.lists.is_used_up(call)
    }

    /// The value that answers a call for an option by default; none where the answer is another.
    #[inline(always)]
    fn told_value(&self, call: &Call) -> Option<u64>
        ensures told { IfSome result (λ value. Planned.Value value
            ≡ told_at (stage_of self.now) call.now) }
        ensures fits { IfSome result (λ value. Fits call.now (Told.Value value)) }
    {
        let Call::GetOption { sock, option } = call else {
            return None;
        };
        if !self.answers_by_default(call) {
            return None;
        }
        Some(option_of(&self.sides, *sock, *option))
    }

    /// Whether the call is answered done by default.
    #[inline(always)]
    fn tells_done(&self, call: &Call) -> bool
        requires { Offers call.now }
        ensures told { result ≡ true → Planned.Done ≡ told_at (stage_of self.now) call.now }
        ensures fits { result ≡ true → Fits call.now Told.Done }
    {
        is_done_by_default(call) && self.answers_by_default(call)
    }

    /// Whether the call is answered pending by default.
    #[inline(always)]
    fn tells_pending(&self, call: &Call) -> bool
        requires { Offers call.now }
        ensures told { result ≡ true → Planned.Pending ≡ told_at (stage_of self.now) call.now }
        ensures fits { result ≡ true → Fits call.now Told.Pending }
    {
        is_pending_by_default(call) && self.answers_by_default(call)
    }

    /// Keeps a call and its answer in the log, and goes on to what is left after it.
    #[inline(always)]
    fn note(&mut self, op: OpId, call: Call, answer: Told) -> Result<(), AllocError>
        requires { as_planned answer ≡ told_at (stage_of self.old) call }
        ensures passed { OnOk result (Passes (seen_by self.old)
            ((record { op = op; call = call; answer = answer }) ∷ []) (seen_by self.new)) }
        ensures stage { OnOk result (stage_of self.new ≡ stage_after (stage_of self.old)
            (record { op = op; call = call; answer = answer })) }
        ensures err { OnErr result (seen_by self.new ≡ seen_by self.old) }
        ensures kept { OnErr result (stage_of self.new ≡ stage_of self.old) }
    {
        self.log.reserve(1)?;
        keep(&mut self.sides, op, &call, &answer)?;
        advance(&mut self.lists, self.armed, &call);
        self.armed = self.armed.after(&call);
        self.faults = count_after(self.faults, &answer);
        self.log.push_reserved(Entry { op, call, answer });
        Ok(())
    }

    /// Keeps a call that is answered by a value.
    #[inline(never)]
    fn note_value(&mut self, op: OpId, call: Call, value: u64) -> Result<(), AllocError>
        requires { Planned.Value value ≡ told_at (stage_of self.old) call }
        ensures passed { OnOk result (Passes (seen_by self.old)
            ((record { op = op; call = call; answer = Told.Value value }) ∷ [])
            (seen_by self.new)) }
        ensures stage { OnOk result (stage_of self.new ≡ stage_after (stage_of self.old)
            (record { op = op; call = call; answer = Told.Value value })) }
        ensures err { OnErr result (seen_by self.new ≡ seen_by self.old) }
        ensures kept { OnErr result (stage_of self.new ≡ stage_of self.old) }
    {
        self.note(op, call, Told::Value(value))
    }

    /// Keeps a call that is answered done.
    #[inline(never)]
    fn note_done(&mut self, op: OpId, call: Call) -> Result<(), AllocError>
        requires { Planned.Done ≡ told_at (stage_of self.old) call }
        ensures passed { OnOk result (Passes (seen_by self.old)
            ((record { op = op; call = call; answer = Told.Done }) ∷ []) (seen_by self.new)) }
        ensures stage { OnOk result (stage_of self.new ≡ stage_after (stage_of self.old)
            (record { op = op; call = call; answer = Told.Done })) }
        ensures err { OnErr result (seen_by self.new ≡ seen_by self.old) }
        ensures kept { OnErr result (stage_of self.new ≡ stage_of self.old) }
    {
        self.note(op, call, Told::Done)
    }

    /// Keeps a call that is answered pending.
    #[inline(never)]
    fn note_pending(&mut self, op: OpId, call: Call) -> Result<(), AllocError>
        requires { Planned.Pending ≡ told_at (stage_of self.old) call }
        ensures passed { OnOk result (Passes (seen_by self.old)
            ((record { op = op; call = call; answer = Told.Pending }) ∷ []) (seen_by self.new)) }
        ensures stage { OnOk result (stage_of self.new ≡ stage_after (stage_of self.old)
            (record { op = op; call = call; answer = Told.Pending })) }
        ensures err { OnErr result (seen_by self.new ≡ seen_by self.old) }
        ensures kept { OnErr result (stage_of self.new ≡ stage_of self.old) }
    {
        self.note(op, call, Told::Pending)
    }

    /// Answers any call and keeps it in the log. `bytes` are those that a write offers.
    #[inline(never)]
    fn answer_any(&mut self, op: OpId, call: Call, bytes: &[u8]) -> Result<Told, AllocError>
        requires some { Offers call }
        requires offered { length bytes.now ≡ offered call }
        ensures passed { IfOk result (λ told. Passes (seen_by self.old)
            ((record { op = op; call = call; answer = told }) ∷ []) (seen_by self.new)) }
        ensures fits { IfOk result (λ told. Fits call told) }
        ensures front { IfOk result (λ told. IsFront told bytes.now) }
        ensures told { IfOk result (λ told. as_planned told ≡ told_at (stage_of self.old) call) }
        ensures stage { IfOk result (λ told. stage_of self.new ≡ stage_after (stage_of self.old)
            (record { op = op; call = call; answer = told })) }
        ensures err { OnErr result (seen_by self.new ≡ seen_by self.old) }
        ensures kept { OnErr result (stage_of self.new ≡ stage_of self.old) }
    {
        let told = self.tell(&call, bytes)?;
        let answer = told.try_clone()?;
        self.note(op, call, answer)?;
        Ok(told)
    }

    /// Answers a call and keeps it in the log. `bytes` are those that a write offers. What is told
    /// by default for most calls, a value, done or pending, moves no other answer.
    #[inline(always)]
    fn answer(&mut self, op: OpId, call: Call, bytes: &[u8]) -> Result<Told, AllocError>
        requires some { Offers call }
        requires offered { length bytes.now ≡ offered call }
        ensures passed { IfOk result (λ told. Passes (seen_by self.old)
            ((record { op = op; call = call; answer = told }) ∷ []) (seen_by self.new)) }
        ensures fits { IfOk result (λ told. Fits call told) }
        ensures front { IfOk result (λ told. IsFront told bytes.now) }
        ensures told { IfOk result (λ told. as_planned told ≡ told_at (stage_of self.old) call) }
        ensures stage { IfOk result (λ told. stage_of self.new ≡ stage_after (stage_of self.old)
            (record { op = op; call = call; answer = told })) }
        ensures err { OnErr result (seen_by self.new ≡ seen_by self.old) }
        ensures kept { OnErr result (stage_of self.new ≡ stage_of self.old) }
    {
        if let Some(value) = self.told_value(&call) {
            self.note_value(op, call, value)?;
            return Ok(Told::Value(value));
        }
        if self.tells_done(&call) {
            self.note_done(op, call)?;
            return Ok(Told::Done);
        }
        if self.tells_pending(&call) {
            self.note_pending(op, call)?;
            return Ok(Told::Pending);
        }
        self.answer_any(op, call, bytes)
    }
}

impl ScriptedWorld {
    ghost use Rattle.std.specs.Prelude.{option_map};
    ghost use Rattle.world_scripted.specs.Scripted.{seen_by};

    /// The log so far.
    pub fn entries(&self) -> &[Entry]
        ensures { (seen_by self.now).log ≡ Some result.now }
    {
        self.log.as_slice()
    }

    /// The log itself; takes no memory. One of a world that reports its plan is answered by it.
    pub fn into_entries(self) -> Vec<Entry>
        ensures log { (seen_by self).log ≡ Some result.items }
        ensures scripted { (plan : Plan) → (seen_by self).plan ≡ Some plan
            → IsScripted plan result.items }
    {
        self.log
    }

    /// Whether the end mark is set.
    pub fn ended(&self) -> bool
        ensures { result ≡ (seen_by self.now).ended }
    {
        self.ended
    }

    /// How many network sockets were closed after the end mark. The count stays at its greatest
    /// value.
    pub fn closed_after_end(&self) -> u64
        ensures { result ≡ (seen_by self.now).closings }
    {
        self.closings
    }

    /// The network sockets that were closed after the end mark, in the order of their closing; none
    /// where there wasn't memory to keep each.
    pub fn closed_sockets(&self) -> Option<&[Sock]>
        ensures { option_map (λ names. names.now) result ≡ self.now.closed }
    {
        self.closed.names()
    }

    /// How many codes were reported. The count stays at its greatest value.
    pub fn faults(&self) -> u64
        ensures { result ≡ (seen_by self.now).faults }
    {
        self.faults
    }
}

impl World for ScriptedWorld {
    ghost use Rattle.std.specs.Prelude.{◌≤◌, ◌<◌, ◌^◌};
    ghost use Rattle.wasi_world.specs.Asks.{one, one_write, AsksFor};
    ghost use Rattle.wasi_world.specs.Fits.{IsPlain, IsWritten};
    ghost use Rattle.world_scripted.specs.Scripted.{seen_by, stage_of, goes_by_its_plan};

    ghost seen = { seen_by };

    ghost closed = { λ world. world.closed };

    ghost scripted = { λ world. goes_by_its_plan world.by_plan world.lists.all world.log.items
        world.scripted };

    /// Makes any call but a write and a send; `told` and `stage` say what a world that is armed
    /// answers.
    #[inline(always)]
    fn call(&mut self, op: OpId, call: Call) -> Result<Told, AllocError>
        requires open { (seen_by self.old).ended ≡ false }
        requires plain { IsPlain call }
        ensures asked { AsksFor (one op call) (seen_by self.old) (seen_by self.new) (λ told. told)
            result }
        ensures fits { IfOk result (λ told. Fits call told) }
        ensures err { OnErr result (seen_by self.new ≡ seen_by self.old) }
        ensures told { IfOk result (λ told. as_planned told ≡ told_at (stage_of self.old) call) }
        ensures stage { IfOk result (λ told. stage_of self.new ≡ stage_after (stage_of self.old)
            (record { op = op; call = call; answer = told })) }
        ensures kept { OnErr result (stage_of self.new ≡ stage_of self.old) }
    {
        self.answer(op, call, &[])
    }

    fn write(&mut self, op: OpId, sock: Sock, bytes: &[u8]) -> Result<Told, AllocError>
        requires open { (seen_by self.old).ended ≡ false }
        requires some { 1 ≤ length bytes.now }
        requires short { length bytes.now < 2 ^ 32 }
        ensures asked { AsksFor (one_write op sock bytes.now) (seen_by self.old) (seen_by self.new)
            (λ told. told) result }
        ensures fits { IfOk result (λ told. IsWritten (length bytes.now) told) }
        ensures err { OnErr result (seen_by self.new ≡ seen_by self.old) }
        ensures told { IfOk result (λ told. as_planned told
            ≡ told_at (stage_of self.old) (Call.Write sock (length bytes.now))) }
        ensures stage { IfOk result (λ told. stage_of self.new ≡ stage_after (stage_of self.old)
            (record { op = op; call = Call.Write sock (length bytes.now); answer = told })) }
        ensures kept { OnErr result (stage_of self.new ≡ stage_of self.old) }
    {
        let offered = bytes.len() as u32;
        self.answer(op, Call::Write { sock, offered }, bytes)
    }

    fn send(
        &mut self,
        op: OpId,
        sock: Sock,
        addr: IpSocketAddress,
        bytes: &[u8],
    ) -> Result<Told, AllocError>
        requires open { (seen_by self.old).ended ≡ false }
        ensures asked { AsksFor (one op (Call.Send sock addr bytes.now)) (seen_by self.old)
            (seen_by self.new) (λ told. told) result }
        ensures err { OnErr result (seen_by self.new ≡ seen_by self.old) }
        ensures told { IfOk result (λ told. as_planned told
            ≡ told_at (stage_of self.old) (Call.Send sock addr bytes.now)) }
        ensures stage { IfOk result (λ told. stage_of self.new ≡ stage_after (stage_of self.old)
            (record { op = op; call = Call.Send sock addr bytes.now; answer = told })) }
        ensures kept { OnErr result (stage_of self.new ≡ stage_of self.old) }
    {
        let bytes = Octets::copy_of(*self.log.allocator(), bytes)?;
        self.answer(op, Call::Send { sock, addr, bytes }, &[])
    }

    fn end(&mut self) {
        self.ended = true;
        self.closed = ClosedSockets::new(*self.log.allocator());
    }

    fn close_after_end(&mut self, sock: Sock) {
        self.closings = self.closings.saturating_add(1);
        self.closed.close(sock);
    }
}

impl Waits for ScriptedWorld {
    /// It goes by its plan alone, so nothing is waited for.
    fn wait(&mut self, _: i32) -> bool {
        false
    }
}
