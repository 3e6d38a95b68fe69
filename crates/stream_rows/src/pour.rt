//! What the tests share: a whole stream, from its start to its end.

ghost use Rattle.std.specs.Prelude.{◌≡◌, ◌<◌};
ghost use Rattle.wasi_writer.specs.Names.{ledgers_of};

use std::alloc::Global;
use std::marker::Brand;
use std::sync::Wait;
use std::test::*;
use std::thread::Threads;
use wasi_spawn::{Spawner, StartError};
use wasi_writer::{AsyncWriteStream, Names, WriteParts};
use worker_shared::Finished;
use world_io::Sink;

/// How a stream is used.
#[derive(Clone, Copy)]
pub struct Use {
    /// The budget of the stream, in bytes.
    pub budget: usize,
    /// The most bytes of one write.
    pub piece: usize,
    /// After how many writes it is cancelled.
    pub cancel_after: Option<usize>,
    pub ghost some: { 0 < piece },
}

/// Writes the bytes through a stream as its budget allows, flushes and finishes it. Returns how
/// many were accepted.
fn pour_by<
    K: Sink + Drop + Send + 'static,
    P: Spawner,
    N: Names + Send + Sync + 'static,
    R: Threads + Wait + Copy + Send + 'static,
>(
    rt: &R,
    alloc: Global,
    spawner: &mut P,
    parts: WriteParts,
    sink: K,
    bytes: &[u8],
    how: Use,
) -> Result<(Finished<K>, usize), StartError<K>>
    requires ledgers { ledgers_of parts ≡ N.ledgers }
    requires line { (parts.line ≡ N.line) × (parts.budget ≡ N.initial) }
{
    let mut stream = AsyncWriteStream::<K, N>::new(rt, alloc, spawner, parts, sink)?;
    let mut from = 0;
    let mut writes = 0usize;
    while from < bytes.len() {
        if how.cancel_after == Some(writes) {
            stream.cancel(rt);
        }
        stream.ready(rt);
        let Ok(count) = stream.check_write(rt) else {
            break;
        };
        let count = count.min(how.piece).min(bytes.len() - from);
        if stream.write(rt, &bytes[from..from + count]).is_err() {
            break;
        }
        from += count;
        writes = writes.saturating_add(1);
    }
    let _ = stream.flush(rt);
    Ok((stream.finish(rt, spawner), from))
}

/// Writes the bytes through a stream with parts and names of its own, and finishes it.
pub fn pour<K: Sink + Drop + Send + 'static, P: Spawner, R: Threads + Wait + Copy + Send + 'static>(
    rt: &R,
    alloc: Global,
    spawner: &mut P,
    sink: K,
    bytes: &[u8],
    how: Use,
) -> Result<(Finished<K>, usize), StartError<K>> {
    let Ok(parts) = WriteParts::new(alloc, how.budget) else {
        return Err(StartError::Memory(sink));
    };
    pour_by::<K, P, Brand, R>(rt, alloc, spawner, parts, sink, bytes, how)
}
