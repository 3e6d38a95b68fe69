//! What tells one write stream from another in proofs: its line, its initial budget and its
//! ledgers.

ghost use Rattle.std.specs.Prelude.{◌≡◌, [], IfOk};

use std::alloc::{AllocError, Global};
use std::marker::{Brand, PhantomData};
use std::sync::ledger::{Blank, Ledger};
use worker_shared::{Line, PopEnd, PushEnd, make_line};

/// Which stream it is. A caller makes [`WriteParts`] and calls a function that is generic in
/// `Names`, at [`Brand`], for which its proof picks the names of those parts; the function makes,
/// uses and finishes the stream.
pub trait Names: LedgerNames {
    ghost use Rattle.std.specs.Prelude.{ℕ};
    ghost use Rattle.std.specs.declared.alloc.Global.{Global};
    ghost use Rattle.crossbeam_queue.specs.SegTies.{SegId};

    /// Its line.
    ghost line: { SegId Global };

    /// The initial budget.
    ghost initial: { ℕ };
}

impl Names for Brand {
    ghost use Rattle.wasi_writer.specs.Names.{no_line};

    ghost line = { no_line };

    ghost initial = { 0 };
}

/// The names of its ledgers.
pub trait LedgerNames {
    ghost use Rattle.wasi_writer.specs.Names.{Ledgers};

    ghost ledgers: { Ledgers };
}

impl LedgerNames for Brand {
    ghost use Rattle.wasi_writer.specs.Names.{no_ledgers};

    ghost ledgers = { no_ledgers };
}

/// How many bytes were accepted. Its owner counts.
pub struct Accepted<N>(PhantomData<N>);

impl<N: LedgerNames> Ledger for Accepted<N> {
    ghost name = { N.ledgers.accepted };

    ghost parts = { 1 };
}

/// How many chunks were pushed. Its owner counts.
pub struct Pushed<N>(PhantomData<N>);

impl<N: LedgerNames> Ledger for Pushed<N> {
    ghost name = { N.ledgers.pushed };

    ghost parts = { 1 };
}

/// How many bytes may be written at once, by the last look. Its owner sets it.
pub struct Permit<N>(PhantomData<N>);

impl<N: LedgerNames> Ledger for Permit<N> {
    ghost name = { N.ledgers.permit };

    ghost parts = { 1 };
}

/// A flush was accepted, and no byte after it. Its owner keeps it.
pub struct Flush<N>(PhantomData<N>);

impl<N: LedgerNames> Ledger for Flush<N> {
    ghost name = { N.ledgers.flush };

    ghost parts = { 1 };
}

/// The stream was found ready, and no write or flush was accepted since. Its owner keeps it.
pub struct Ready<N>(PhantomData<N>);

impl<N: LedgerNames> Ledger for Ready<N> {
    ghost name = { N.ledgers.ready };

    ghost parts = { 1 };
}

/// The fault was reported. Its owner keeps it.
pub struct Told<N>(PhantomData<N>);

impl<N: LedgerNames> Ledger for Told<N> {
    ghost name = { N.ledgers.told };

    ghost parts = { 1 };
}

/// The stream was stopped. Its owner keeps it.
pub struct Stopped<N>(PhantomData<N>);

impl<N: LedgerNames> Ledger for Stopped<N> {
    ghost name = { N.ledgers.stopped };

    ghost parts = { 1 };
}

/// Nothing was left to wait for when the stream was stopped. Its owner keeps it.
pub struct Done<N>(PhantomData<N>);

impl<N: LedgerNames> Ledger for Done<N> {
    ghost name = { N.ledgers.done };

    ghost parts = { 1 };
}

/// How many chunks were popped. The worker counts.
pub struct Popped<N>(PhantomData<N>);

impl<N: LedgerNames> Ledger for Popped<N> {
    ghost name = { N.ledgers.popped };

    ghost parts = { 1 };
}

/// A fault was met. The worker keeps it.
pub struct Met<N>(PhantomData<N>);

impl<N: LedgerNames> Ledger for Met<N> {
    ghost name = { N.ledgers.met };

    ghost parts = { 1 };
}

/// A chunk is in hand. The worker keeps it.
pub struct Hand<N>(PhantomData<N>);

impl<N: LedgerNames> Ledger for Hand<N> {
    ghost name = { N.ledgers.hand };

    ghost parts = { 1 };
}

/// A flush is pending, and all that was accepted is written. The worker keeps it.
pub struct Drained<N>(PhantomData<N>);

impl<N: LedgerNames> Ledger for Drained<N> {
    ghost name = { N.ledgers.drained };

    ghost parts = { 1 };
}

/// The sink was flushed after the last chunk that was popped. The worker keeps it.
pub struct Flushed<N>(PhantomData<N>);

impl<N: LedgerNames> Ledger for Flushed<N> {
    ghost name = { N.ledgers.flushed };

    ghost parts = { 1 };
}

/// The blanks of what the owner knows.
#[derive(Drop)]
pub(crate) struct OwnerBlanks {
    pub accepted: Blank,
    pub pushed: Blank,
    pub permit: Blank,
    pub flush: Blank,
    pub ready: Blank,
    pub told: Blank,
    pub stopped: Blank,
    pub done: Blank,
    pub ghost single: { (accepted.parts ≡ 1) × (pushed.parts ≡ 1) × (permit.parts ≡ 1) × (flush.parts ≡ 1) × (ready.parts ≡ 1) × (told.parts ≡ 1) × (stopped.parts ≡ 1) × (done.parts ≡ 1) },
}

/// The blanks of what the worker knows.
#[derive(Drop)]
pub(crate) struct WorkerBlanks {
    pub popped: Blank,
    pub met: Blank,
    pub hand: Blank,
    pub drained: Blank,
    pub flushed: Blank,
    pub ghost single: { (popped.parts ≡ 1) × (met.parts ≡ 1) × (hand.parts ≡ 1) × (drained.parts ≡ 1) × (flushed.parts ≡ 1) },
}

/// What a write stream is made of, before it has names.
#[derive(Drop)]
pub struct WriteParts {
    pub(crate) budget: usize,
    pub(crate) line: Line,
    pub(crate) push: PushEnd,
    pub(crate) pop: PopEnd,
    pub(crate) owner: OwnerBlanks,
    pub(crate) worker: WorkerBlanks,
    ghost pushes: { push ≡ record { line = line; chunks = [] } },
    ghost pops: { pop ≡ record { line = line; chunks = [] } },
}

impl WriteParts {
    /// The parts of a stream with this budget, in bytes. Takes memory for an empty line.
    pub fn new(alloc: Global, budget: usize) -> Result<WriteParts, AllocError>
        ensures { IfOk result (λ parts. parts.budget ≡ budget) }
    {
        let (line, push, pop) = make_line(alloc)?;
        Ok(WriteParts {
            budget,
            line,
            push,
            pop,
            owner: OwnerBlanks {
                accepted: Blank::new(1),
                pushed: Blank::new(1),
                permit: Blank::new(1),
                flush: Blank::new(1),
                ready: Blank::new(1),
                told: Blank::new(1),
                stopped: Blank::new(1),
                done: Blank::new(1),
            },
            worker: WorkerBlanks {
                popped: Blank::new(1),
                met: Blank::new(1),
                hand: Blank::new(1),
                drained: Blank::new(1),
                flushed: Blank::new(1),
            },
        })
    }
}
