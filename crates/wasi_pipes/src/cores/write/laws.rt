//! What holds of every list of events on a write stream.
//!
//! Each function states a law of the records that the contracts of [`WriteCore`](super::WriteCore)
//! are about. It does nothing.

ghost use Rattle.std.specs.Prelude.{◌≡◌, ◌≢◌, ℕ, ◌+◌, ◌≤◌, true, false, List, [], ◌∷◌, ◌++◌, sum, count_by, Ok, Err};
ghost use Rattle.std.specs.List.{AllByRecursion};
ghost use Rattle.wasi_streams.specs.declared.error.StreamError.{StreamError};
ghost use Rattle.wasi_pipes.specs.declared.cores.fault.WorkerFault.TheVariants.{Unmet};
ghost use Rattle.wasi_pipes.specs.declared.cores.write.Work.TheVariants as work;
ghost use Rattle.wasi_pipes.specs.WriteRecord.{WriteRecord, WriteEvent, Accept, Flush, Check, Pop, Flushed, Answered, Allowed, Given, fresh, answer, happens, May, Meets, run, trace, budget, unwritten, queued, accepted_lengths, popped_lengths, tells_fault, ends_flush, asks, IsClosed};

/// The budget and the lengths that are queued or in hand sum to the initial budget.
pub fn budget_adds_up()
    ensures { (initial : ℕ) (events : List WriteEvent) → Meets (fresh initial) events →
        budget (run (fresh initial) events) + sum (unwritten (run (fresh initial) events)) ≡ initial }
{}

/// What was popped, followed by what is queued, is what was accepted: each length is popped once,
/// in the order in which they were accepted.
pub fn lengths_are_popped_in_order()
    ensures { (initial : ℕ) (events : List WriteEvent) → Meets (fresh initial) events →
        let steps = trace (fresh initial) events in
        popped_lengths steps ++ queued (run (fresh initial) events) ≡ accepted_lengths steps }
{}

/// A worker that asks for work is told to flush only where a flush is pending and nothing is queued
/// or in hand.
pub fn flush_waits_for_every_length()
    ensures pending { (r : WriteRecord) → answer r Pop ≡ Given work.Flush → r.flags.flushing ≡ true }
    ensures written { (r : WriteRecord) → answer r Pop ≡ Given work.Flush → unwritten r ≡ [] }
{}

/// From an accepted flush on, and until an event ends it, no write is accepted.
pub fn nothing_is_accepted_before_a_flush_ends()
    ensures { (r : WriteRecord) (between : List WriteEvent) → answer r Flush ≡ Answered (Ok tt) →
        AllByRecursion (λ e. ends_flush e ≡ false) between →
        (len : ℕ) → answer (run r (Flush ∷ between)) (Accept len) ≢ Answered (Ok tt) }
{}

/// A fault is reported at most once, and from then on each of the owner's calls is answered
/// `Closed`.
pub fn fault_is_told_once()
    ensures once { (r : WriteRecord) (events : List WriteEvent) → Meets r events →
        count_by (λ step. tells_fault step.answer) (trace r events) ≤ 1 }
    ensures closed { (r : WriteRecord) (e : WriteEvent) (later : List WriteEvent) → tells_fault (answer r e) ≡ true →
        Meets r (e ∷ later) → IsClosed (run r (e ∷ later)) }
{}

/// Once an accepted flush ended, with no fault and no stop up to now, and no write or flush since,
/// `check` gives the initial budget, which stays what it was.
pub fn budget_is_whole_after_a_flush()
    ensures whole { (r : WriteRecord) (since : List WriteEvent) → May r Flushed → AllByRecursion (λ e. asks e ≡ false) since →
        let now = run r (Flushed ∷ since) in
        now.flags.fault ≡ Unmet → now.flags.stopped ≡ false → answer now Check ≡ Allowed (Ok now.initial) }
    ensures initial { (r : WriteRecord) (events : List WriteEvent) → (run r events).initial ≡ r.initial }
{}

/// A refused write that reports no fault changes nothing.
pub fn refused_write_changes_nothing()
    ensures { (r : WriteRecord) (len : ℕ) (e : StreamError) → answer r (Accept len) ≡ Answered (Err e) →
        tells_fault (answer r (Accept len)) ≡ false → happens r (Accept len) ≡ r }
{}
