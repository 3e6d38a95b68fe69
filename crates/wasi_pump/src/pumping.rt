//! The pump.

ghost use Rattle.std.specs.Prelude.{◌≡◌, ◌↔◌, ◌⊎◌, Err, OnOk};
ghost use Rattle.wasi_world.specs.Seen.{Rose};
ghost use Rattle.wasi_writer.specs.Names as writing;
ghost use Rattle.wasi_reader.specs.Names as reading;
ghost use Rattle.wasi_pump.specs.declared.error.PumpError.TheVariants.{NoBudget, NoWorker};
ghost use Rattle.wasi_pump.specs.Pumped.{PumpEnds};

use crate::copying::copy_all;
use crate::error::PumpError;
use crate::outcome::{Pumped, outcome_of};
use std::alloc::Global;
use std::marker::Brand;
use std::sync::Wait;
use std::thread::Threads;
use wasi_reader::{AsyncReadStream, ReadParts};
use wasi_spawn::{Spawner, StartError};
use wasi_writer::{AsyncWriteStream, WriteParts};
use world_io::{Sink, Source};

/// Moves all bytes of the source to the sink, by a read stream and a write stream with this budget,
/// in bytes. Each has a worker in a thread of its own, that is started with `readers` and
/// `writers`.
///
/// At Ok the source gave its end, the sink took exactly what the source gave, and was flushed. On
/// every error the sink took a prefix of what the source gave. `NoBudget` is answered exactly where
/// the budget is 0, `NoWorker` only where a spawner counted a refusal, `SourceFault` only where the
/// source counted a fault, and `SinkFault` only where the sink counted a fault or a refused piece,
/// and the source no fault.
///
/// Takes memory for the streams and for each chunk that is read. At most the budget is held for the
/// sink at a time, beside two chunks of at most 65536 bytes that were read ahead, and at most four
/// buffers of 65536 bytes for further reads. It waits for its workers.
pub fn pump<
    S: Source + Drop + Send + 'static,
    K: Sink + Drop + Send + 'static,
    P: Spawner,
    Q: Spawner,
    R: Threads + Wait + Copy + Send + 'static,
>(
    rt: &R,
    alloc: Global,
    writers: &mut P,
    readers: &mut Q,
    source: S,
    sink: K,
    budget: usize,
) -> Pumped<S, K>
    ensures ends { PumpEnds (S.reading source) (S.reading result.source) (K.writing sink)
        (K.writing result.sink) result.outcome }
    ensures no_budget { (result.outcome ≡ Err NoBudget) ↔ (budget ≡ 0) }
    ensures refused { result.outcome ≡ Err NoWorker
        → Rose (P.refusals writers.old) (P.refusals writers.new)
        ⊎ Rose (Q.refusals readers.old) (Q.refusals readers.new) }
    ensures started { OnOk result.outcome (Rose (P.starts writers.old) (P.starts writers.new)
        × Rose (Q.starts readers.old) (Q.starts readers.new)) }
{
    if budget == 0 {
        return unmoved(source, sink, PumpError::NoBudget);
    }
    let Ok(to) = WriteParts::new(alloc, budget) else {
        return unmoved(source, sink, PumpError::Memory);
    };
    let Ok(from) = ReadParts::new(alloc) else {
        return unmoved(source, sink, PumpError::Memory);
    };
    pump_by::<S, K, P, Q, Brand, Brand, R>(rt, alloc, writers, readers, from, to, source, sink)
}

/// Nothing was done.
fn unmoved<S, K>(source: S, sink: K, error: PumpError) -> Pumped<S, K>
    ensures source { result.source ≡ source }
    ensures sink { result.sink ≡ sink }
    ensures outcome { result.outcome ≡ Err error }
{
    Pumped {
        source,
        sink,
        outcome: Err(error),
    }
}

/// Moves all bytes of the source to the sink by two streams that are made of these parts, whose
/// names `N` and `M` are.
fn pump_by<
    S: Source + Drop + Send + 'static,
    K: Sink + Drop + Send + 'static,
    P: Spawner,
    Q: Spawner,
    N: wasi_writer::Names + Send + Sync + 'static,
    M: wasi_reader::Names + Send + Sync + 'static,
    R: Threads + Wait + Copy + Send + 'static,
>(
    rt: &R,
    alloc: Global,
    writers: &mut P,
    readers: &mut Q,
    from: ReadParts,
    to: WriteParts,
    source: S,
    sink: K,
) -> Pumped<S, K>
    requires reads { (reading.ledgers_of from ≡ M.ledgers) × (from.line ≡ M.line) }
    requires writes { (writing.ledgers_of to ≡ N.ledgers) × (to.line ≡ N.line)
        × (to.budget ≡ N.initial) }
    ensures ends { PumpEnds (S.reading source) (S.reading result.source) (K.writing sink)
        (K.writing result.sink) result.outcome }
    ensures budget { (result.outcome ≡ Err NoBudget) → ⊥ }
    ensures refused { result.outcome ≡ Err NoWorker
        → Rose (P.refusals writers.old) (P.refusals writers.new)
        ⊎ Rose (Q.refusals readers.old) (Q.refusals readers.new) }
    ensures started { OnOk result.outcome (Rose (P.starts writers.old) (P.starts writers.new)
        × Rose (Q.starts readers.old) (Q.starts readers.new)) }
{
    let mut writer = match AsyncWriteStream::<K, N>::new(rt, alloc, writers, to, sink) {
        Ok(writer) => writer,
        Err(StartError::NoWorker(sink)) => return unmoved(source, sink, PumpError::NoWorker),
        Err(StartError::Memory(sink)) => return unmoved(source, sink, PumpError::Memory),
    };
    let mut reader = match AsyncReadStream::<S, M>::new(rt, alloc, readers, from, source) {
        Ok(reader) => reader,
        Err(StartError::NoWorker(source)) => {
            let written = writer.finish(rt, writers);
            return unmoved(source, written.inner, PumpError::NoWorker);
        }
        Err(StartError::Memory(source)) => {
            let written = writer.finish(rt, writers);
            return unmoved(source, written.inner, PumpError::Memory);
        }
    };
    let moved = copy_all(rt, &mut reader, &mut writer);
    let read = reader.finish(rt, readers);
    let written = writer.finish(rt, writers);
    Pumped {
        source: read.inner,
        sink: written.inner,
        outcome: outcome_of(moved, read.outcome, written.outcome),
    }
}
