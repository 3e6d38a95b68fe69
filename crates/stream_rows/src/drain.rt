//! What the tests share: a whole stream, from its start to its end.

ghost use Rattle.std.specs.Prelude.{◌≡◌};
ghost use Rattle.wasi_reader.specs.Names.{ledgers_of};

use std::alloc::Global;
use std::marker::Brand;
use std::sync::Wait;
use std::test::*;
use std::thread::Threads;
use wasi_reader::{AsyncReadStream, Names, ReadParts};
use wasi_spawn::{Spawner, StartError};
use wasi_streams::StreamError;
use worker_shared::Finished;
use world_io::Source;

/// How a stream is used.
#[derive(Clone, Copy)]
pub struct Use {
    /// The most bytes of one read.
    pub piece: usize,
    /// After how many reads it is cancelled.
    pub cancel_after: Option<usize>,
}

/// What its reads gave.
#[derive(Drop)]
pub struct Drained {
    /// The bytes, in order.
    pub bytes: Vec<u8>,
    /// Whether a read of a stream that was ready gave no bytes.
    pub was_empty: bool,
    /// Whether a read gave more than was asked for.
    pub was_long: bool,
    /// What the last read but one answered.
    pub error: Option<StreamError>,
    /// What the last read answered.
    pub again: Option<StreamError>,
}

/// Reads a stream to its end, and once more.
fn drain_stream<S: Source + Drop + Send + 'static, N: Names + Send + Sync + 'static, R: Wait>(
    rt: &R,
    alloc: Global,
    stream: &mut AsyncReadStream<S, N>,
    how: Use,
) -> Drained {
    let mut drained = Drained {
        bytes: Vec::new(alloc),
        was_empty: false,
        was_long: false,
        error: None,
        again: None,
    };
    let mut reads = 0usize;
    for _ in 0..u64::MAX {
        if how.cancel_after == Some(reads) {
            stream.cancel(rt);
        }
        stream.ready(rt);
        match stream.read(rt, how.piece) {
            Ok(bytes) => {
                drained.was_empty = drained.was_empty || bytes.is_empty();
                drained.was_long = drained.was_long || bytes.len() > how.piece;
                if drained.bytes.extend_from_slice(bytes.as_slice()).is_err() {
                    break;
                }
            }
            Err(e) => {
                drained.error = Some(e);
                drained.again = stream.read(rt, how.piece).err();
                break;
            }
        }
        reads = reads.saturating_add(1);
    }
    drained
}

/// Reads a source through a stream, to its end, and finishes it.
fn drain_by<
    S: Source + Drop + Send + 'static,
    P: Spawner,
    N: Names + Send + Sync + 'static,
    R: Threads + Wait + Copy + Send + 'static,
>(
    rt: &R,
    alloc: Global,
    spawner: &mut P,
    parts: ReadParts,
    source: S,
    how: Use,
) -> Result<(Finished<S>, Drained), StartError<S>>
    requires ledgers { ledgers_of parts ≡ N.ledgers }
    requires line { parts.line ≡ N.line }
{
    let mut stream = AsyncReadStream::<S, N>::new(rt, alloc, spawner, parts, source)?;
    let drained = drain_stream(rt, alloc, &mut stream, how);
    Ok((stream.finish(rt, spawner), drained))
}

/// Reads a source to its end through a stream with parts and names of its own, and finishes it.
pub fn drain<
    S: Source + Drop + Send + 'static,
    P: Spawner,
    R: Threads + Wait + Copy + Send + 'static,
>(
    rt: &R,
    alloc: Global,
    spawner: &mut P,
    source: S,
    how: Use,
) -> Result<(Finished<S>, Drained), StartError<S>> {
    let Ok(parts) = ReadParts::new(alloc) else {
        return Err(StartError::Memory(source));
    };
    drain_by::<S, P, Brand, R>(rt, alloc, spawner, parts, source, how)
}
