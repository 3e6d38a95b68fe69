//! What a turn waits for.

ghost use Rattle.std.specs.Prelude.{◌≡◌, ◌||◌, IfOk};
ghost use Rattle.step_looks.specs.Jobs.{job_outlook, jobs_looks, is_receive};

use crate::outlook::Outlook;
use crate::records::{job_at, outgoing_at, receiving_at};
use host_store::Store;
use std::alloc::{AllocError, Global};
use wasi_jobs::{HostJob, JobList};
use wasi_looks::Look;
use wasi_records::RecordList;

/// What a turn's poll of a job depends on.
fn job_outlook(records: &RecordList, job: HostJob) -> Outlook
    ensures { result ≡ job_outlook records.now.items job }
{
    match job {
        HostJob::Write { socket } => job_at(records, socket),
        HostJob::Datagram { socket } => outgoing_at(records, socket),
        HostJob::Receive { socket } => receiving_at(records, socket),
        HostJob::Lookup { .. } => Outlook::Ready,
    }
}

/// Whether this job is a receive, or one before it was.
fn receives_with(before: bool, job: HostJob) -> bool
    ensures { result ≡ (before || is_receive job) }
{
    before || matches!(job, HostJob::Receive { .. })
}

/// What a turn waits for: that one of these jobs may go on, where a receive is among them. A turn
/// that has none doesn't wait. Takes memory for the looks.
fn jobs_looks(
    alloc: Global,
    records: &RecordList,
    jobs: &mut JobList,
) -> Result<Vec<Look>, AllocError>
    ensures looks { IfOk result (λ looks. looks.items
        ≡ jobs_looks records.now.items jobs.old.items) }
    ensures same { jobs.new ≡ jobs.old }
{
    let mut looks = Vec::new(alloc);
    let mut receives = false;
    let mut next = 0;
    while let Some(listed) = jobs.first_from(next) {
        let outlook = job_outlook(records, listed.job);
        let goes_on = outlook.add_to(&mut looks)?;
        if !goes_on {
            return Ok(Vec::new(alloc));
        }
        receives = receives_with(receives, listed.job);
        next = listed.number + 1;
    }
    if receives {
        return Ok(looks);
    }
    Ok(Vec::new(alloc))
}

/// What a turn waits for.
pub(crate) fn turn_looks(alloc: Global, store: &mut Store) -> Result<Vec<Look>, AllocError>
    ensures looks { IfOk result (λ looks. looks.items
        ≡ jobs_looks store.old.records store.old.jobs) }
    ensures same { store.new ≡ store.old }
{
    jobs_looks(alloc, &store.records, &mut store.jobs)
}
