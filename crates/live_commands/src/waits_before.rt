//! The wait before each line.

ghost use Rattle.std.specs.Prelude.{◌≡◌};

use host_store::Machine;
use std::alloc::Global;
use step_looks::{Outlook, first_outlook, step_looks, waits_inside};
use wasi_looks::WaitsForLooks;
use wasi_run::BeforeStep;
use wasi_steps::Step;

/// Waits before each line, once, for all that the line will look at: until one of these looks may
/// go on, as the world's patience has it. No look of the line waits then.
///
/// Where a line is answered whatever the network says, nothing waits. A splice that blocks waits
/// for room in its output first, and then for its input. A line in which a connect or a receive of
/// 0.3 begins can't be waited for before: its look, the only one, waits by itself.
#[derive(Drop)]
pub struct WaitsBefore {
    alloc: Global,
}

impl WaitsBefore {
    /// Takes memory for the looks of each line from here, and gives it back; where there is none a
    /// line isn't waited for.
    pub fn new(alloc: Global) -> WaitsBefore {
        WaitsBefore { alloc }
    }
}

/// Waits for the output of a splice that blocks, and says whether the line may go on to its other
/// looks.
fn waits_first<W: WaitsForLooks>(world: &mut W, machine: &Machine, step: &Step) -> bool
    ensures seen { W.seen world.new ≡ W.seen world.old }
    ensures closed { W.closed world.new ≡ W.closed world.old }
{
    match first_outlook(machine, step) {
        Outlook::On(look) => world.wait_for(&[look]),
        Outlook::Ready | Outlook::Held => true,
    }
}

impl<W: WaitsForLooks> BeforeStep<W> for WaitsBefore {
    fn before(&mut self, world: &mut W, machine: &mut Machine, step: &Step) {
        world.let_looks_wait(waits_inside(step));
        if !waits_first(world, machine, step) {
            return;
        }
        let Ok(looks) = step_looks(self.alloc, machine, step) else {
            return;
        };
        world.wait_for(looks.as_slice());
    }
}
