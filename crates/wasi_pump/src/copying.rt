//! Copies from a read stream to a write stream.

ghost use Rattle.std.specs.Prelude.{◌≡◌, ◌≤◌, [], false, length};
ghost use Rattle.wasi_pump.specs.Copying.{InStep, HasCopied, HasWritten, HasEndedWrites, Copied};

use crate::piece::Piece;
use bytes::Bytes;
use std::sync::Wait;
use wasi_reader::AsyncReadStream;
use wasi_streams::StreamError;
use wasi_writer::AsyncWriteStream;
use world_io::{Sink, Source};

/// Copies until the source's end is read, and asks for a flush. Returns how many bytes were copied,
/// or none where a stream told a fault or memory ran out.
pub fn copy_all<
    S: Source + Drop + Send + 'static,
    K: Sink + Drop + Send + 'static,
    N: wasi_writer::Names + Send + Sync + 'static,
    M: wasi_reader::Names + Send + Sync + 'static,
    R: Wait,
>(rt: &R, reader: &mut AsyncReadStream<S, M>, writer: &mut AsyncWriteStream<K, N>) -> Option<u64>
    requires fresh { InStep reader.old writer.old × (reader.old.given ≡ []) }
    ensures copied { Copied result reader.new writer.new }
    ensures began { (reader.new.began ≡ reader.old.began) × (writer.new.began ≡ writer.old.began) }
{
    let mut moved = 0u64;
    for _ in rt.forever() {
        match copy_piece(rt, reader, writer) {
            Piece::Moved(count) => moved = moved.saturating_add(count as u64),
            Piece::Ended => return Some(moved),
            Piece::Stopped => return None,
        }
    }
    unreachable!()
}

/// Waits until there is budget and something to read, and copies at most that much.
fn copy_piece<
    S: Source + Drop + Send + 'static,
    K: Sink + Drop + Send + 'static,
    N: wasi_writer::Names + Send + Sync + 'static,
    M: wasi_reader::Names + Send + Sync + 'static,
    R: Wait,
>(rt: &R, reader: &mut AsyncReadStream<S, M>, writer: &mut AsyncWriteStream<K, N>) -> Piece
    requires { InStep reader.old writer.old }
    ensures copied { HasCopied reader.old writer.old reader.new writer.new result }
    ensures began { (reader.new.began ≡ reader.old.began) × (writer.new.began ≡ writer.old.began) }
{
    writer.ready(rt);
    let Ok(permit) = writer.check_write(rt) else {
        return Piece::Stopped;
    };
    reader.ready(rt);
    match reader.read(rt, permit) {
        Ok(bytes) => write_piece(rt, writer, bytes),
        Err(StreamError::Closed) => end_writes(rt, writer),
        Err(_) => Piece::Stopped,
    }
}

/// Writes what was read, which is no more than is permitted: so the write doesn't trap.
fn write_piece<
    K: Sink + Drop + Send + 'static,
    N: wasi_writer::Names + Send + Sync + 'static,
    R: Wait,
>(rt: &R, writer: &mut AsyncWriteStream<K, N>, bytes: Bytes) -> Piece
    requires permitted { length bytes ≤ writer.old.permit }
    requires flush { writer.old.flush ≡ false }
    ensures written { HasWritten writer.old bytes writer.new result }
    ensures began { writer.new.began ≡ writer.old.began }
{
    let count = bytes.len();
    match writer.write_chunk(rt, bytes) {
        Ok(()) => Piece::Moved(count),
        Err(StreamError::Trap(_)) => unreachable!(),
        Err(_) => Piece::Stopped,
    }
}

/// Asks for a flush, now that the source's end was read.
fn end_writes<
    K: Sink + Drop + Send + 'static,
    N: wasi_writer::Names + Send + Sync + 'static,
    R: Wait,
>(rt: &R, writer: &mut AsyncWriteStream<K, N>) -> Piece
    ensures flushed { HasEndedWrites writer.old writer.new result }
    ensures began { writer.new.began ≡ writer.old.began }
{
    match writer.flush(rt) {
        Ok(()) => Piece::Ended,
        Err(_) => Piece::Stopped,
    }
}
