//! What holds of every list of events on a read stream.
//!
//! Each function states a law of the records that the contracts of [`ReadCore`](super::ReadCore)
//! are about. It does nothing.

ghost use Rattle.std.specs.Prelude.{◌≡◌, ◌≤◌, true, List, [], ◌∷◌, ◌++◌, count_by, Err};
ghost use Rattle.wasi_streams.specs.declared.error.StreamError.{StreamError};
ghost use Rattle.wasi_streams.specs.declared.error.StreamError.TheVariants.{Closed};
ghost use Rattle.wasi_pipes.specs.ReadRecord.{ReadRecord, ReadEvent, Take, Taken, fresh, answer, Meets, run, trace, untaken, offered_lengths, taken_lengths, tells_fault};

/// What was taken, followed by what is in the slot, is what was offered: each length is taken once,
/// in the order in which they were offered. So all were taken where the slot is empty, and where
/// the owner is told the end, a fault or `Closed`.
pub fn lengths_are_taken_in_order()
    ensures in_order { (events : List ReadEvent) → Meets fresh events →
        taken_lengths (trace fresh events) ++ untaken (run fresh events) ≡ offered_lengths (trace fresh events) }
    ensures empty { (events : List ReadEvent) → Meets fresh events → untaken (run fresh events) ≡ [] →
        taken_lengths (trace fresh events) ≡ offered_lengths (trace fresh events) }
    ensures told { (events : List ReadEvent) (e : StreamError) → Meets fresh events →
        answer (run fresh events) Take ≡ Taken (Err e) →
        taken_lengths (trace fresh events) ≡ offered_lengths (trace fresh events) }
{}

/// A fault is reported at most once, and from then on an owner that finds the slot empty is
/// answered `Closed`.
pub fn fault_is_told_once()
    ensures once { (r : ReadRecord) (events : List ReadEvent) → Meets r events →
        count_by (λ step. tells_fault step.answer) (trace r events) ≤ 1 }
    ensures closed { (r : ReadRecord) (e : ReadEvent) (later : List ReadEvent) → tells_fault (answer r e) ≡ true →
        Meets r (e ∷ later) → untaken (run r (e ∷ later)) ≡ [] →
        answer (run r (e ∷ later)) Take ≡ Taken (Err Closed) }
{}
