//! A run, step by step. It does no more than a step: whoever runs several ends with a trap, or out
//! of memory.

ghost use Rattle.std.specs.Prelude.{◌≡◌, ◌+◌, ◌<◌, ◌^◌, false, true};
ghost use Rattle.wasi_world.specs.Asks.{AsksFor};
ghost use Rattle.host_store.specs.Machine.{first_state};
ghost use Rattle.host_store.specs.KnownSides.{KnowsSides};
ghost use Rattle.wasi_records.specs.Sides.{ClosesAll};
ghost use Rattle.wasi_records.specs.Closing.{AsksNothing, HasClosedEach};
ghost use Rattle.wasi_machine.specs.Machine.{machine_asks};

use crate::calls::do_step;
use host_store::Machine;
use std::alloc::{AllocError, Global};
use wasi_steps::{Reply, Step};
use wasi_world::{WasiSocketsCtx, World};

/// The host's state behind a guest's calls, and how many steps it has done. Each step has the
/// number of its line, counted from 1, which names the operations that it begins.
#[derive(Drop)]
pub struct Progress {
    pub machine: Machine,
    pub lines: u32,
}

impl Progress {
    /// No handle, before the first step. Takes no memory.
    pub fn new(alloc: Global) -> Progress
        ensures machine { result.machine ≡ first_state }
        ensures lines { result.lines ≡ 0 }
    {
        Progress {
            machine: Machine::new(alloc),
            lines: 0,
        }
    }

    /// Does a step, which is the next line, and returns its reply. Takes memory for what the step
    /// makes and for its reply.
    ///
    /// After a trap, or out of memory, no more steps should be done, but
    /// [`finish`](Progress::finish) should.
    #[inline(always)]
    pub fn step<W: World>(
        &mut self,
        alloc: Global,
        world: &mut W,
        contexts: &[WasiSocketsCtx],
        step: Step,
    ) -> Result<Reply, AllocError>
        requires open { (W.seen world.old).ended ≡ false }
        requires numbers { self.old.lines + 1 < 2 ^ 32 }
        ensures asked { AsksFor (machine_asks contexts.now self.old.machine (self.old.lines + 1)
            step) (W.seen world.old) (W.seen world.new) (λ reply. (reply, self.new.machine))
            result }
        ensures lines { self.new.lines ≡ self.old.lines + 1 }
        ensures sides { KnowsSides (W.seen world.old) self.old.machine.store
            → KnowsSides (W.seen world.new) self.new.machine.store }
    {
        self.lines += 1;
        do_step(alloc, &mut self.machine, world, contexts, self.lines, step)
    }

    /// Ends the run: sets the end mark, and then closes each network socket that is open. Takes no
    /// memory.
    pub fn finish<W: World>(self, world: &mut W)
        requires { (W.seen world.old).ended ≡ false }
        ensures quiet { AsksNothing (W.seen world.old) (W.seen world.new) }
        ensures ended { (W.seen world.new).ended ≡ true }
        ensures closed { KnowsSides (W.seen world.old) self.machine.store
            → ClosesAll (W.seen world.old) (W.seen world.new) }
        ensures each { KnowsSides (W.seen world.old) self.machine.store
            → HasClosedEach (W.seen world.new) (W.closed world.new) }
    {
        world.end();
        self.machine.store.close_all(world);
    }
}
