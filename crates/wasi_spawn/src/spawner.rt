//! What starts jobs.

ghost use Rattle.std.specs.Prelude.{◌≡◌, ◌≤◌, ◌↔◌, ℕ, OnOk, OnErr, IfOk, IfErr, IsFalse, Err};
ghost use Rattle.std.specs.Bool.{OnTrue, OnFalse};
ghost use Rattle.wasi_world.specs.Seen.{Rose};
ghost use Rattle.wasi_spawn.specs.declared.job.StartError.TheVariants.{NoWorker};
ghost use Rattle.wasi_spawn.specs.Start.{job_of, RefusedAs};
ghost use Rattle.wasi_spawn.specs.Handles.{started_with};

use crate::handle::{Handle, Kept};
use crate::job::{Job, StartError};
use crate::run::Ran;
use crate::start::start_thread;
use std::alloc::Global;
use std::sync::Wait;
use std::thread::Threads;

/// Starts jobs in threads of their own, and counts its starts and its refusals. Neither count ever
/// falls; each is kept in 64 bits and stays at its top.
///
/// An implementing type decides whether a start is tried, and counts. Its ghost `refuses` says when
/// the next one isn't. It doesn't change how a job is started and joined.
pub trait Spawner {
    ghost refusals: { Self → ℕ };

    ghost starts: { Self → ℕ };

    ghost refuses: { Self → Type 0 };

    /// Whether the next start is tried. Where it isn't, a refusal is counted.
    fn admits(&mut self) -> bool
        ensures answer { IsFalse result ↔ refuses self.old }
        ensures yes { OnTrue result (refusals self.new ≡ refusals self.old) }
        ensures no { OnFalse result (Rose (refusals self.old) (refusals self.new)) }
        ensures never_falls { refusals self.old ≤ refusals self.new }
        ensures starts { starts self.new ≡ starts self.old };

    /// Counts a refusal: the system had no thread.
    fn refused(&mut self)
        ensures rose { Rose (refusals self.old) (refusals self.new) }
        ensures never_falls { refusals self.old ≤ refusals self.new }
        ensures starts { starts self.new ≡ starts self.old };

    /// Counts a start.
    fn started(&mut self)
        ensures rose { Rose (starts self.old) (starts self.new) }
        ensures never_falls { starts self.old ≤ starts self.new }
        ensures refusals { refusals self.new ≡ refusals self.old };

    /// Starts a job. Where that fails, the job comes back: in `NoWorker` only where a refusal was
    /// counted, in `Memory` for lack of memory alone.
    final fn start<J: Job, R: Threads + Wait + Copy + Send + 'static>(
        &mut self,
        rt: &R,
        alloc: Global,
        job: J,
    ) -> Result<Handle<J>, StartError<J>>
    where
        Self: Sized,
        ensures handle { IfOk result (λ handle. started_with handle ≡ job) }
        ensures rose { OnOk result (Rose (starts self.old) (starts self.new)) }
        ensures stayed { OnErr result (starts self.new ≡ starts self.old) }
        ensures back { IfErr result (λ e. job_of e ≡ job) }
        ensures refused { IfErr result (λ e. RefusedAs e (refusals self.old) (refusals self.new)) }
        ensures untried { refuses self.old → result ≡ Err (NoWorker job) }
        ensures never_falls { (refusals self.old ≤ refusals self.new)
            × (starts self.old ≤ starts self.new) }
    {
        if !self.admits() {
            return Err(StartError::NoWorker(job));
        }
        match start_thread(rt, alloc, job) {
            Ok(handle) => {
                self.started();
                Ok(handle)
            }
            Err(StartError::NoWorker(job)) => {
                self.refused();
                Err(StartError::NoWorker(job))
            }
            Err(StartError::Memory(job)) => Err(StartError::Memory(job)),
        }
    }

    /// Waits for a started job, and gives one of the results that the job may give. A job that its
    /// thread gave back is run here.
    final fn join<J: Job, R: Threads + Wait>(&mut self, rt: &R, handle: Handle<J>) -> J::Out
    where
        Self: Sized,
        ensures given { J.may_give (started_with handle) result }
        ensures same { (refusals self.new ≡ refusals self.old)
            × (starts self.new ≡ starts self.old) }
    {
        match handle {
            Handle::Thread(child) => match child.join(rt) {
                Ran::Back(job) => job.run(rt),
                Ran::Done(out) => out,
            },
            Handle::Here(kept) => {
                let Kept { out, job: _ } = kept;
                out
            }
        }
    }
}

/// One more in 64 bits, where a count stays at its top.
pub(crate) fn one_more(count: u64) -> u64
    ensures rose { Rose count result }
    ensures never_falls { count ≤ result }
{
    count.saturating_add(1)
}
