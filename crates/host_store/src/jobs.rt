//! The job that a call adds before it asks.

ghost use Rattle.std.specs.Prelude.{◌≡◌, ◌++◌, ◌∷◌, [], List};
ghost use Rattle.wasi_jobs.specs.declared.job.HostJob.{HostJob};
ghost use Rattle.host_store.specs.Jobs.{jobs_with};

use wasi_jobs::{HostJob, JobList};

/// Keeps the job that was added last where `begins` is true, and takes it out else.
pub fn keep_job(jobs: &mut JobList, begins: bool)
    ensures { (before : List HostJob) (job : HostJob) → jobs.old.items ≡ before ++ job ∷ []
        → jobs.new.items ≡ jobs_with before job begins }
{
    if !begins {
        jobs.withdraw();
    }
}
