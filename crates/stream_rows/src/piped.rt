//! Pipes, and a stream that writes into one.

ghost use Rattle.std.specs.Prelude.{◌≡◌};
ghost use Rattle.wasi_writer.specs.Names.{ledgers_of};

use crate::same::{pattern, same};
use crate::simplex::{SimplexReader, SimplexWriter, simplex};
use std::alloc::Global;
use std::marker::Brand;
use std::process::Abort;
use std::sync::Wait;
use std::test::*;
use std::thread;
use std::thread::Threads;
use wasi_spawn::{StartError, ThreadSpawner};
use wasi_streams::StreamError;
use wasi_world::TrapKind;
use wasi_writer::{AsyncWriteStream, Names, WriteParts};
use worker_shared::Finished;
use world_io::{Failed, Sink, Source, write_all};

/// Writes all of the bytes, and lets the end go.
fn send<R: Wait + Copy>(mut writer: SimplexWriter<R>, bytes: &[u8]) -> bool {
    write_all(&mut writer, bytes).is_ok()
}

/// Reads to the end. Returns whether just these bytes came.
fn receives<R: Wait + Copy>(mut reader: SimplexReader<R>, bytes: &[u8]) -> bool {
    let mut rest = bytes;
    for _read in 0..u64::MAX {
        let mut buf = [0u8; 7];
        let Ok(count) = reader.read(&mut buf) else {
            return false;
        };
        if count == 0 {
            return rest.is_empty();
        }
        if !rest.starts_with(&buf[..count]) {
            return false;
        }
        rest = &rest[count..];
    }
    false
}

#[test]
fn a_pipe_hands_on_all_bytes_in_order(rt: HostRuntime) -> Result<(), Fail> {
    let bytes = pattern(rt.alloc(), 5000)?;
    for capacity in [1usize, 10, 5000] {
        let (reader, writer) = simplex(&rt, rt.alloc(), capacity)?;
        let all = bytes.as_slice();
        let (sent, received) = thread::join(
            &rt,
            move || send(writer, all),
            move || receives(reader, all),
        );
        same(&rt, (capacity, sent && received), (capacity, true));
    }
    Ok(())
}

#[test]
fn a_write_fails_once_the_reader_is_gone(rt: HostRuntime) -> Result<(), Fail> {
    let (reader, mut writer) = simplex(&rt, rt.alloc(), 4)?;
    same(&rt, writer.write(&[1, 2, 3, 4, 5]), Ok(4));
    same(&rt, writer.write(&[]), Ok(0));
    drop(reader);
    same(&rt, writer.write(&[5]), Err(Failed));
    same(&rt, writer.flush(), Ok(()));
    Ok(())
}

/// A stream over a pipe that holds as much as its budget: the worker waits for room until the other
/// end is read.
fn writes_into_a_pipe<
    N: Names + Send + Sync + 'static,
    R: Threads + Wait + Abort + Copy + Send + 'static,
>(
    rt: &R,
    alloc: Global,
    parts: WriteParts,
    mut reader: SimplexReader<R>,
    writer: SimplexWriter<R>,
) -> Result<Finished<SimplexWriter<R>>, StartError<SimplexWriter<R>>>
    requires ledgers { ledgers_of parts ≡ N.ledgers }
    requires line { (parts.line ≡ N.line) × (parts.budget ≡ N.initial) }
{
    let mut spawner = ThreadSpawner::new();
    let mut stream = AsyncWriteStream::<SimplexWriter<R>, N>::new(
        rt,
        alloc,
        &mut spawner,
        parts,
        writer,
    )?;
    let block = [7u8; 1024];
    same(rt, stream.write(rt, &block), Ok(()));
    stream.ready(rt);
    same(rt, stream.check_write(rt), Ok(1024));
    same(rt, stream.write(rt, &block), Ok(()));
    same(
        rt,
        stream.write(rt, &block),
        Err(StreamError::Trap(TrapKind::Budget)),
    );
    for _byte in 0..2048u32 {
        same(rt, reader.read(&mut [0]), Ok(1));
    }
    stream.ready(rt);
    same(rt, stream.check_write(rt), Ok(1024));
    same(rt, stream.flush(rt), Ok(()));
    Ok(stream.finish(rt, &mut spawner))
}

#[test]
fn a_stream_waits_for_the_pipe(rt: HostRuntime) -> Result<(), Fail> {
    let (reader, writer) = simplex(&rt, rt.alloc(), 1024)?;
    let parts = WriteParts::new(rt.alloc(), 1024)?;
    let Ok(finished) = writes_into_a_pipe::<Brand, _>(&rt, rt.alloc(), parts, reader, writer) else {
        return Err(Fail::new("no worker"));
    };
    same(&rt, finished.outcome, Ok(()));
    Ok(())
}
