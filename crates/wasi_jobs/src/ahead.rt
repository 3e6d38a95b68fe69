//! What a walk over the jobs has read ahead of itself, so that it searches the map once for as many
//! jobs as are read at a time.

ghost use Rattle.std.specs.Prelude.{◌≡◌, ℕ, ◌+◌, ◌<◌, ◌^◌, List, [], ◌∷◌, IfSome, IfNone};
ghost use Rattle.wasi_jobs.specs.declared.ahead.Hinted.{Hinted};
ghost use Rattle.wasi_jobs.specs.Entries.{without};
ghost use Rattle.wasi_jobs.specs.Ahead.{left, IsAhead, AreRead};

use crate::job::HostJob;
use arrayvec::ArrayVec;
use std::collections::BTreeMap;

/// How many jobs are read at a time.
const AT_ONCE: usize = 16;

/// A job and the slot that its record stood in when it was added.
#[derive(Clone, Copy)]
pub(crate) struct Hinted {
    pub(crate) job: HostJob,
    pub(crate) slot: usize,
}

impl Default for Hinted {
    /// A blank, for a place that no job was read into.
    fn default() -> Hinted {
        Hinted {
            job: HostJob::Write { socket: 0 },
            slot: 0,
        }
    }
}

/// The jobs that a walk comes to next, which were read at once. They lie in the value itself, and
/// take no memory from the allocator.
#[derive(Drop)]
pub(crate) struct Ahead {
    /// Jobs that follow one another in the map, with their numbers.
    entries: ArrayVec<(u64, Hinted), AT_ONCE>,
    /// How many of them were handed out.
    given: usize,
    /// The others are the first ones in the map with this number or a higher one.
    from: u64,
}

impl Ahead {
    /// Nothing is read ahead.
    pub(crate) fn nothing() -> Ahead
        ensures { left result ≡ [] }
    {
        Ahead {
            entries: ArrayVec::new(),
            given: 0,
            from: 0,
        }
    }

    /// Sees to it that what is read ahead begins with the first job that has this number or a
    /// higher one. It searches the map only where a walk begins, and where all that was read is
    /// handed out.
    pub(crate) fn reach(&mut self, jobs: &BTreeMap<u64, Hinted>, number: u64)
        requires { IsAhead jobs.now.entries self.old }
        ensures from { self.new.from ≡ number }
        ensures read { AreRead number jobs.now.entries (left self.new) }
    {
        if self.from == number && self.given < self.entries.len() {
            return;
        }
        read(jobs, number, &mut self.entries);
        self.given = 0;
        self.from = number;
    }

    /// Hands the next job out, with its number.
    pub(crate) fn next(&mut self) -> Option<(u64, Hinted)>
        requires { (e : ℕ × Hinted) (rest : List (ℕ × Hinted)) → left self.old ≡ e ∷ rest
            → e.0 + 1 < 2 ^ 64 }
        ensures none { IfNone result (left self.old ≡ []) }
        ensures same { IfNone result (self.new ≡ self.old) }
        ensures some { IfSome result (λ found. left self.old ≡ found ∷ left self.new) }
        ensures from { IfSome result (λ found. self.new.from ≡ found.0 + 1) }
    {
        let (number, hinted) = *self.entries.get(self.given)?;
        self.given += 1;
        self.from = number + 1;
        Some((number, hinted))
    }

    /// Nothing is read ahead any more, if the job of this number, which is taken out, may be among
    /// it.
    pub(crate) fn clear_if_among(&mut self, number: u64)
        ensures { (jobs : List (ℕ × Hinted)) → IsAhead jobs self.old
            → IsAhead (without number jobs) self.new }
    {
        // A walk mostly takes out the job that it was just handed, and that one is below.
        if number >= self.from {
            self.clear();
        }
    }

    /// Nothing is read ahead any more.
    pub(crate) fn clear(&mut self)
        ensures { left self.new ≡ [] }
    {
        self.given = self.entries.len();
    }
}

/// Reads the first jobs with this number or a higher one, as many as are read at a time, in the
/// place of those that were read before.
fn read(jobs: &BTreeMap<u64, Hinted>, number: u64, entries: &mut ArrayVec<(u64, Hinted), AT_ONCE>)
    ensures { AreRead number jobs.now.entries entries.new.items }
{
    entries.clear();
    let mut rest = jobs.range(number..);
    while !entries.is_full() {
        let Some((number, hinted)) = rest.next() else {
            break;
        };
        entries.push((*number, *hinted));
    }
}
