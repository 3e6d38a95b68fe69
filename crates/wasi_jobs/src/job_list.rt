//! The host's background jobs, in the order of their making.
//!
//! Each job stands in an ordered map under a number that rises. A key in an ordered set names its
//! record first and then its number, so that a record's jobs are found together. So a call's time
//! grows with the logarithm of the number of jobs, and, where a record's jobs go, with how many
//! that record has; memory follows how many jobs there are, however many were made.
//!
//! A walk, which asks for the first job after the one that it was handed, searches the map once for
//! 16 jobs: these are read ahead, and handed out one by one without a search.

ghost use Rattle.std.specs.Prelude.{◌≡◌, ◌+◌, ◌<◌, ◌≤◌, ◌^◌, List, [], ◌∷◌, ◌++◌, Some, None};
ghost use Rattle.std.specs.Prelude.{IfSome, IfNone, OnOk, OnErr};
ghost use Rattle.std.specs.BTreeMap.{insert_entry};
ghost use Rattle.std.specs.Ordering.{nat_cmp};
ghost use Rattle.wasi_jobs.specs.declared.job.HostJob.{HostJob};
ghost use Rattle.wasi_jobs.specs.Jobs.{job_place, other_jobs, other_than_receive};
ghost use Rattle.wasi_jobs.specs.Jobs.{other_than_datagram};
ghost use Rattle.wasi_jobs.specs.JobList.{no_work, below, from_on};
ghost use Rattle.wasi_jobs.specs.Keys.{job_at, AreKeyed, IsWithout, HasNoneFrom, IsNextOn};
ghost use Rattle.wasi_jobs.specs.Keys.{is_of_kind, left_of};

use crate::ahead::{Ahead, Hinted};
use crate::job::{HostJob, Listed};
use std::alloc::{AllocError, Global};
use std::collections::{BTreeMap, BTreeSet};
use std::marker::Model;

/// What finds a job from its record: the number of the record, and then that of the job. The order
/// is by the first, so that the keys of a record stand together.
#[derive(Clone, Copy, PartialEq, Eq, PartialOrd, Ord)]
struct Key {
    place: usize,
    number: u64,
}

impl Key {
    /// The key of a job.
    fn of(job: HostJob, number: u64) -> Key
        ensures { result ≡ record { place = job_place job; number = number } }
    {
        Key {
            place: job.place(),
            number,
        }
    }
}

/// Which jobs of a record.
#[derive(Clone, Copy)]
enum Which {
    All,
    Receives,
    Datagrams,
}

impl Which {
    /// Whether a job of the record is one of them.
    fn has(self, job: HostJob) -> bool
        ensures { result ≡ is_of_kind self job }
    {
        match self {
            Which::All => true,
            Which::Receives => matches!(job, HostJob::Receive { .. }),
            Which::Datagrams => matches!(job, HostJob::Datagram { .. }),
        }
    }
}

/// The host's background jobs, in the order of their making. Each has a number, which rises and is
/// not given twice.
#[derive(Drop)]
pub struct JobList {
    jobs: BTreeMap<u64, Hinted>,
    /// The key of each job.
    by_record: BTreeSet<Key>,
    /// The number of the next job.
    next: u64,
    /// What a walk comes to next.
    ahead: Ahead,
}

impl Model for JobList {
    ghost use Rattle.wasi_jobs.specs.JobList.{Work};

    ghost Value = { Work };

    ghost use Rattle.wasi_jobs.specs.Keys.{work_in, IsKept};

    ghost view = { λ l. work_in l.jobs.entries };

    ghost invariant = { λ l. IsKept l.jobs.entries l.by_record.keys l.next l.ahead };
}

impl JobList {
    /// No jobs. Takes no memory.
    pub fn new(alloc: Global) -> JobList
        ensures { result ≡ no_work }
    {
        JobList {
            jobs: BTreeMap::new(alloc),
            by_record: BTreeSet::new(alloc),
            next: 0,
            ahead: Ahead::nothing(),
        }
    }

    /// Adds a job as the last, with the slot in which its record stands. Takes memory for it. Out
    /// of memory, or with no number left, the list stays as it was.
    pub fn push(&mut self, job: HostJob, slot: usize) -> Result<(), AllocError>
        ensures ok { OnOk result (self.new.items ≡ self.old.items ++ job ∷ []) }
        ensures err { OnErr result (self.new ≡ self.old) }
    {
        if self.next == u64::MAX {
            return Err(AllocError);
        }
        let hinted = Hinted { job, slot };
        put(&mut self.jobs, &mut self.by_record, self.next, hinted)?;
        self.next += 1;
        // What is read ahead stays: the new job comes after it.
        Ok(())
    }

    /// Takes the last job out, if there is one; its number isn't given again. Takes no memory.
    pub fn withdraw(&mut self)
        ensures { (jobs : List HostJob) (job : HostJob) → self.old.items ≡ jobs ++ job ∷ []
            → self.new.items ≡ jobs }
    {
        let Some((number, hinted)) = self.jobs.pop_last() else {
            return;
        };
        self.by_record.remove(&Key::of(hinted.job, number));
        self.ahead.clear();
    }

    /// The first job with this number or a higher one. Takes no memory.
    ///
    /// A walk, which asks each time for the number after the one that it was handed, searches the
    /// map once for 16 jobs.
    pub fn first_from(&mut self, number: u64) -> Option<Listed>
        ensures whole { self.old.items ≡ below number self.old ++ from_on number self.old }
        ensures none { result ≡ None → from_on number self.old ≡ [] }
        ensures some { IfSome result (λ found. (from_on number self.old
            ≡ found.job ∷ from_on (found.number + 1) self.old)
            × (below (found.number + 1) self.old ≡ below number self.old ++ found.job ∷ [])
            × (below found.number self.old ≡ below number self.old)) }
        ensures fits { IfSome result (λ found. found.number + 1 < 2 ^ 64) }
        ensures after { IfSome result (λ found. number ≤ found.number) }
        ensures same { self.new ≡ self.old }
    {
        self.ahead.reach(&self.jobs, number);
        let (number, hinted) = self.ahead.next()?;
        Some(Listed {
            number,
            job: hinted.job,
            slot: hinted.slot,
        })
    }

    /// Takes the job of this number out, if there is one. Takes no memory.
    pub fn remove(&mut self, number: u64)
        ensures below { below (number + 1) self.new ≡ below number self.old }
        ensures after { from_on (number + 1) self.new ≡ from_on (number + 1) self.old }
    {
        take_out(&mut self.jobs, &mut self.by_record, number);
        self.ahead.clear_if_among(number);
    }

    /// Takes all jobs of a record out. Takes no memory.
    pub fn forget(&mut self, place: usize)
        ensures { self.new.items ≡ other_jobs place self.old.items }
    {
        self.forget_those(place, Which::All);
    }

    /// Takes the receives of a record out of the list. Takes no memory.
    pub fn forget_receives(&mut self, place: usize)
        ensures { self.new.items ≡ other_than_receive place self.old.items }
    {
        self.forget_those(place, Which::Receives);
    }

    /// Takes the sends in the background of a record out of the list. Takes no memory.
    pub fn forget_datagrams(&mut self, place: usize)
        ensures { self.new.items ≡ other_than_datagram place self.old.items }
    {
        self.forget_those(place, Which::Datagrams);
    }

    /// Takes the jobs of a record out that are of this kind. It looks at no other record's.
    fn forget_those(&mut self, place: usize, which: Which)
        ensures { self.new.items ≡ left_of which place self.old.items }
    {
        let mut from = 0;
        while let Some(number) = next_on(&self.by_record, place, from) {
            if which.has(self.jobs[&number].job) {
                take_out(&mut self.jobs, &mut self.by_record, number);
            }
            from = number + 1;
        }
        self.ahead.clear();
    }
}

/// Puts a job under a number that none has, and its key beside it. Where there is no room for one
/// of them, neither comes.
fn put(
    jobs: &mut BTreeMap<u64, Hinted>,
    by_record: &mut BTreeSet<Key>,
    number: u64,
    hinted: Hinted,
) -> Result<(), AllocError>
    requires keyed { AreKeyed jobs.old.entries by_record.old.keys }
    requires fresh { job_at jobs.old.entries number ≡ None }
    ensures ok { OnOk result (jobs.new.entries ≡ insert_entry nat_cmp jobs.old.entries number
        hinted) }
    ensures err { OnErr result (jobs.new.entries ≡ jobs.old.entries) }
    ensures keyed { AreKeyed jobs.new.entries by_record.new.keys }
{
    let key = Key::of(hinted.job, number);
    by_record.insert(key)?;
    if let Err(error) = jobs.insert(number, hinted) {
        by_record.remove(&key);
        return Err(error.into());
    }
    Ok(())
}

/// Takes the job of this number out, if there is one, and its key.
fn take_out(jobs: &mut BTreeMap<u64, Hinted>, by_record: &mut BTreeSet<Key>, number: u64)
    requires keyed { AreKeyed jobs.old.entries by_record.old.keys }
    ensures out { IsWithout jobs.old.entries jobs.new.entries number }
    ensures keyed { AreKeyed jobs.new.entries by_record.new.keys }
{
    if let Some(hinted) = jobs.remove(&number) {
        by_record.remove(&Key::of(hinted.job, number));
    }
}

/// The number of the first of a record's jobs with this number or a higher one.
fn next_on(by_record: &BTreeSet<Key>, place: usize, from: u64) -> Option<u64>
    ensures some { IfSome result (IsNextOn by_record.now.keys place from) }
    ensures none { IfNone result (HasNoneFrom by_record.now.keys place from) }
{
    let first = Key {
        place,
        number: from,
    };
    match by_record.range(first..).next() {
        Some(key) if key.place == place => Some(key.number),
        _ => None,
    }
}
