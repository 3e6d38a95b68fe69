//! What tells one read stream from another in proofs: its line and its ledgers.

ghost use Rattle.std.specs.Prelude.{◌≡◌, []};

use std::alloc::{AllocError, Global};
use std::marker::{Brand, PhantomData};
use std::sync::ledger::{Blank, Ledger};
use worker_shared::{Line, PopEnd, PushEnd, make_line};

/// Which stream it is. A caller makes [`ReadParts`] and calls a function that is generic in
/// `Names`, at [`Brand`], for which its proof picks the names of those parts; the function makes,
/// uses and finishes the stream.
pub trait Names: LedgerNames {
    ghost use Rattle.std.specs.declared.alloc.Global.{Global};
    ghost use Rattle.crossbeam_queue.specs.SegTies.{SegId};

    /// Its line.
    ghost line: { SegId Global };
}

impl Names for Brand {
    ghost use Rattle.wasi_reader.specs.Names.{no_line};

    ghost line = { no_line };
}

/// The names of its ledgers.
pub trait LedgerNames {
    ghost use Rattle.wasi_reader.specs.Names.{Ledgers};

    ghost ledgers: { Ledgers };
}

impl LedgerNames for Brand {
    ghost use Rattle.wasi_reader.specs.Names.{no_ledgers};

    ghost ledgers = { no_ledgers };
}

/// How many chunks were popped. Its owner counts.
pub struct Popped<N>(PhantomData<N>);

impl<N: LedgerNames> Ledger for Popped<N> {
    ghost name = { N.ledgers.popped };

    ghost parts = { 1 };
}

/// The stream was found ready, and nothing was taken since. Its owner keeps it.
pub struct Ready<N>(PhantomData<N>);

impl<N: LedgerNames> Ledger for Ready<N> {
    ghost name = { N.ledgers.ready };

    ghost parts = { 1 };
}

/// The stream was stopped. Its owner keeps it.
pub struct Stopped<N>(PhantomData<N>);

impl<N: LedgerNames> Ledger for Stopped<N> {
    ghost name = { N.ledgers.stopped };

    ghost parts = { 1 };
}

/// What its owner was told of the worker's end. Its owner sets it.
pub struct Heard<N>(PhantomData<N>);

impl<N: LedgerNames> Ledger for Heard<N> {
    ghost name = { N.ledgers.heard };

    ghost parts = { 1 };
}

/// How many chunks were pushed. The worker counts.
pub struct Pushed<N>(PhantomData<N>);

impl<N: LedgerNames> Ledger for Pushed<N> {
    ghost name = { N.ledgers.pushed };

    ghost parts = { 1 };
}

/// How far the worker is. The worker sets it.
pub struct Staged<N>(PhantomData<N>);

impl<N: LedgerNames> Ledger for Staged<N> {
    ghost name = { N.ledgers.stage };

    ghost parts = { 1 };
}

/// The blanks of what the owner knows.
#[derive(Drop)]
pub(crate) struct OwnerBlanks {
    pub popped: Blank,
    pub ready: Blank,
    pub stopped: Blank,
    pub heard: Blank,
    pub ghost single: { (popped.parts ≡ 1) × (ready.parts ≡ 1) × (stopped.parts ≡ 1) × (heard.parts ≡ 1) },
}

/// The blanks of what the worker knows.
#[derive(Drop)]
pub(crate) struct WorkerBlanks {
    pub pushed: Blank,
    pub stage: Blank,
    pub ghost single: { (pushed.parts ≡ 1) × (stage.parts ≡ 1) },
}

/// What a read stream is made of, before it has names.
#[derive(Drop)]
pub struct ReadParts {
    pub(crate) line: Line,
    pub(crate) push: PushEnd,
    pub(crate) pop: PopEnd,
    pub(crate) owner: OwnerBlanks,
    pub(crate) worker: WorkerBlanks,
    ghost pushes: { push ≡ record { line = line; chunks = [] } },
    ghost pops: { pop ≡ record { line = line; chunks = [] } },
}

impl ReadParts {
    /// The parts of a stream. Takes memory for an empty line.
    pub fn new(alloc: Global) -> Result<ReadParts, AllocError> {
        let (line, push, pop) = make_line(alloc)?;
        Ok(ReadParts {
            line,
            push,
            pop,
            owner: OwnerBlanks {
                popped: Blank::new(1),
                ready: Blank::new(1),
                stopped: Blank::new(1),
                heard: Blank::new(1),
            },
            worker: WorkerBlanks {
                pushed: Blank::new(1),
                stage: Blank::new(1),
            },
        })
    }
}
