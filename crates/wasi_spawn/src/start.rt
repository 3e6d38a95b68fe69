//! How a job is started in a thread, and what comes back where it isn't.

ghost use Rattle.std.specs.Prelude.{◌≡◌, ℕ, IfOk, IfErr};
ghost use Rattle.wasi_spawn.specs.Start.{job_of, RefusedAs};
ghost use Rattle.wasi_spawn.specs.Run.{IsRunOf};
ghost use Rattle.wasi_spawn.specs.Handles.{started_with};

use crate::handle::{Handle, RunsJob, keep};
use crate::job::{Job, StartError};
use crate::run::Ran;
use std::alloc::Global;
use std::snapshot::Snapshot;
use std::sync::atomic::{AtomicBool, Ordering};
use std::sync::{Arc, Wait};
use std::thread;
use std::thread::Threads;

/// Runs the job, unless it was called off: then it comes back.
fn run_unless<J: Job, R: Threads + Wait + Drop>(
    rt: R,
    called_off: Arc<AtomicBool, Global>,
    job: J,
) -> Ran<J, J::Out>
    ensures { IsRunOf J.may_give job result }
{
    if called_off.load(Ordering::SeqCst) {
        Ran::Back(job)
    } else {
        Ran::Done(job.run(&rt))
    }
}

/// Starts a job in a thread of its own.
///
/// Std hands back a refused closure and not the job in it. So the closure looks at a flag of this
/// start alone, and gives its job back where that is set. Should it give a result in place of the
/// job, the result is kept in the handle.
pub fn start_thread<J: Job, R: Threads + Wait + Copy + Send + 'static>(
    rt: &R,
    alloc: Global,
    job: J,
) -> Result<Handle<J>, StartError<J>>
    ensures handle { IfOk result (λ handle. started_with handle ≡ job) }
    ensures back { IfErr result (λ e. job_of e ≡ job) }
{
    let Ok(called_off) = Arc::new(alloc, AtomicBool::new(false)) else {
        return Err(StartError::Memory(job));
    };
    let Ok(theirs) = Arc::try_clone(&called_off) else {
        return Err(StartError::Memory(job));
    };
    let runtime = *rt;
    let promise = RunsJob(Snapshot::of(&job));
    let shown = Snapshot::of(&job);
    let closure = move || -> Ran<J, J::Out>
        ensures { IsRunOf J.may_give job result }
    { run_unless(runtime, theirs, job) };
    match thread::spawn_with(rt, promise, closure) {
        Ok(handle) => Ok(Handle::Thread(handle)),
        Err(refused) => {
            called_off.store(true, Ordering::SeqCst);
            match (refused.value)() {
                Ran::Back(job) => Err(StartError::NoWorker(job)),
                Ran::Done(out) => Ok(Handle::Here(keep(out, shown))),
            }
        }
    }
}

impl<T> StartError<T> {
    /// The same error, with what the function makes of the job in its place.
    pub fn map<U, F: FnOnce(T) -> U>(self, f: F) -> StartError<U>
        requires { F.pre f (job_of self) }
        ensures back { F.post f (job_of self) (job_of result) }
        ensures refused { (old new : ℕ) → RefusedAs self old new → RefusedAs result old new }
    {
        match self {
            StartError::NoWorker(job) => StartError::NoWorker(f(job)),
            StartError::Memory(job) => StartError::Memory(f(job)),
        }
    }
}
