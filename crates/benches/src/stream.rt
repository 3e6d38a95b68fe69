//! `stream ROUNDS`: times bytes that go through a write stream into memory, in pieces, beside one
//! plain copy of the same bytes.

ghost use Rattle.std.specs.Prelude.{◌≡◌};
ghost use Rattle.wasi_writer.specs.Names.{ledgers_of};

use anyhow::{bail, ensure};
use std::alloc::Global;
use std::marker::Brand;
use std::sync::Wait;
use std::thread::Threads;
use std::time::{Clock, Duration, Instant};
use wasi_spawn::ThreadSpawner;
use wasi_writer::{AsyncWriteStream, Names, WriteParts};
use world_io::MemorySink;

/// How many bytes are copied and sent.
const BYTES: usize = 16_777_216;

/// The size of a piece.
const PIECE: usize = 65_536;

/// The stream's budget: sixteen pieces.
const BUDGET: usize = 1_048_576;

/// Prints for each round how many nanoseconds the copy and the stream took. The stream's worker is a
/// thread of `threads`.
pub fn run<T: Threads + Wait + Clock + Copy + Send + 'static>(
    rt: HostRuntime,
    threads: T,
    rounds: u32,
) -> anyhow::Result<()> {
    let mut bytes = Vec::new(rt.alloc());
    bytes.resize(BYTES, 97u8)?;
    for _ in 0..rounds {
        let copied = copy(&rt, rt.alloc(), bytes.as_slice())?;
        let parts = WriteParts::new(rt.alloc(), BUDGET)?;
        let sent = send::<Brand, _>(&threads, rt.alloc(), parts, bytes.as_slice())?;
        println!(rt; "copy {} stream {}", copied.as_nanos(), sent.as_nanos())?;
    }
    Ok(())
}

/// The time of one plain copy into memory that was taken before.
fn copy<R: Clock>(rt: &R, alloc: Global, bytes: &[u8]) -> anyhow::Result<Duration> {
    let mut to = Vec::new(alloc);
    to.reserve(bytes.len())?;
    let start = Instant::now(rt)?;
    to.extend_from_slice(bytes)?;
    Ok(start.elapsed(rt)?)
}

/// The time from the stream's start to its end, into memory that was taken before.
fn send<N: Names + Send + Sync + 'static, R: Threads + Wait + Clock + Copy + Send + 'static>(
    rt: &R,
    alloc: Global,
    parts: WriteParts,
    bytes: &[u8],
) -> anyhow::Result<Duration>
    requires ledgers { ledgers_of parts ≡ N.ledgers }
    requires line { (parts.line ≡ N.line) × (parts.budget ≡ N.initial) }
{
    let sink = MemorySink::new(alloc, PIECE, bytes.len(), Vec::new(alloc))?;
    let mut spawner = ThreadSpawner::new();
    let start = Instant::now(rt)?;
    let Ok(mut stream) = AsyncWriteStream::<MemorySink, N>::new(
        rt,
        alloc,
        &mut spawner,
        parts,
        sink,
    ) else {
        bail!("no worker");
    };
    for piece in bytes.chunks(PIECE) {
        stream.ready(rt);
        if stream.write(rt, piece).is_err() {
            break;
        }
    }
    let finished = stream.finish(rt, &mut spawner);
    let took = start.elapsed(rt)?;
    ensure!(finished.inner.bytes() == bytes, "the sink has other bytes");
    Ok(took)
}
