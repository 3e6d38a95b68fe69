//! What a guest has in its hands: something to read from, to write to, or to wait for.

ghost use Rattle.std.specs.Prelude.{◌≡◌, IfOk};
ghost use Rattle.wasi_streams.specs.Streams.{zeros};

use crate::error::StreamError;
use std::alloc::{AllocError, Global};
use wasi_world::{Octets, OpId, World};

/// More than any permit.
const MOST_ZEROS: usize = 65537;

/// So many zeros, at most 65,537, which is one more than any permit. Takes memory for them.
pub fn zeros(alloc: Global, size: usize) -> Result<Octets, AllocError>
    ensures { IfOk result (λ bytes. bytes ≡ zeros size) }
{
    let bytes = vec![in alloc; 0; size.min(MOST_ZEROS)]?;
    Ok(Octets::from_vec(bytes))
}

/// Something to read from (`InputStream` of the crate wasmtime-wasi-io).
pub trait InputStream {
    ghost use Rattle.std.specs.Prelude.{◌≡◌, ℕ, List, Result, OnErr, false};
    ghost use Rattle.wasi_world.specs.declared.ids.OpId.{OpId};
    ghost use Rattle.wasi_world.specs.Asks.{Asks, AsksFor};
    ghost use Rattle.wasi_streams.specs.StreamStop.{StreamStop, stream_outcome};
    ghost use Rattle.wasi_streams.specs.Streams.{skip_asks};

    /// What a read of so many bytes asks, what it answers, and the stream then.
    ghost reading: { OpId → Self → ℕ → Asks (Result (List ℕ) StreamStop × Self) };

    /// Reads at most `size` bytes; no bytes where there is nothing yet. Out of memory the stream
    /// stays as it was.
    fn read<W: World>(
        &mut self,
        alloc: Global,
        world: &mut W,
        op: OpId,
        size: usize,
    ) -> Result<Octets, StreamError>
        requires { (W.seen world.old).ended ≡ false }
        ensures asked { AsksFor (reading op self.old size) (W.seen world.old) (W.seen world.new)
            (λ answer. (answer, self.new)) (stream_outcome result) }
        ensures err { OnErr (stream_outcome result) (self.new ≡ self.old) };

    /// Reads at most `size` bytes, discards them, and returns how many there were. Out of memory
    /// the stream stays as it was.
    fn skip<W: World>(
        &mut self,
        alloc: Global,
        world: &mut W,
        op: OpId,
        size: usize,
    ) -> Result<usize, StreamError>
        requires { (W.seen world.old).ended ≡ false }
        ensures asked { AsksFor (skip_asks (reading op self.old size)) (W.seen world.old)
            (W.seen world.new) (λ answer. (answer, self.new)) (stream_outcome result) }
        ensures err { OnErr (stream_outcome result) (self.new ≡ self.old) }
    {
        let bytes = self.read(alloc, world, op, size)?;
        Ok(bytes.len())
    }
}

/// Something to write to (`OutputStream` of the crate wasmtime-wasi-io).
pub trait OutputStream {
    ghost use Rattle.std.specs.Prelude.{◌≡◌, ℕ, List, Result, OnErr, false};
    ghost use Rattle.wasi_world.specs.declared.ids.OpId.{OpId};
    ghost use Rattle.wasi_world.specs.Asks.{Asks, AsksFor};
    ghost use Rattle.wasi_streams.specs.StreamStop.{StreamStop, stream_outcome};
    ghost use Rattle.wasi_streams.specs.Streams.{zeros};

    /// What a call asks, what it answers, and the stream then.
    ghost checking: { OpId → Self → Asks (Result ℕ StreamStop × Self) };

    ghost writing: { OpId → Self → List ℕ → Asks (Result (Unit {0}) StreamStop × Self) };

    ghost flushing: { OpId → Self → Asks (Result (Unit {0}) StreamStop × Self) };

    /// The permit: how many bytes the next write may have, 0 where there is no room yet. Out of
    /// memory nothing was asked.
    fn check_write<W: World>(&mut self, world: &mut W, op: OpId) -> Result<usize, StreamError>
        requires { (W.seen world.old).ended ≡ false }
        ensures asked { AsksFor (checking op self.old) (W.seen world.old) (W.seen world.new)
            (λ answer. (answer, self.new)) (stream_outcome result) }
        ensures unasked { OnErr (stream_outcome result) (W.seen world.new ≡ W.seen world.old) };

    /// Writes bytes, no more than the permit of the last `check_write`.
    fn write<W: World>(&mut self, world: &mut W, op: OpId, bytes: Octets) -> Result<(), StreamError>
        requires { (W.seen world.old).ended ≡ false }
        ensures asked { AsksFor (writing op self.old bytes) (W.seen world.old) (W.seen world.new)
            (λ answer. (answer, self.new)) (stream_outcome result) };

    /// Begins a flush. Out of memory the stream stays as it was.
    fn flush<W: World>(&mut self, world: &mut W, op: OpId) -> Result<(), StreamError>
        requires { (W.seen world.old).ended ≡ false }
        ensures asked { AsksFor (flushing op self.old) (W.seen world.old) (W.seen world.new)
            (λ answer. (answer, self.new)) (stream_outcome result) }
        ensures err { OnErr (stream_outcome result) (self.new ≡ self.old) };

    /// Writes this many zeros. More than 65,536 are never permitted. Takes memory for the zeros.
    fn write_zeroes<W: World>(
        &mut self,
        alloc: Global,
        world: &mut W,
        op: OpId,
        size: usize,
    ) -> Result<(), StreamError>
        requires { (W.seen world.old).ended ≡ false }
        ensures asked { AsksFor (writing op self.old (zeros size)) (W.seen world.old)
            (W.seen world.new) (λ answer. (answer, self.new)) (stream_outcome result) }
    {
        let bytes = zeros(alloc, size)?;
        self.write(world, op, bytes)
    }
}

/// Something to wait for (`Pollable` of the crate wasmtime-wasi-io).
pub trait Pollable {
    ghost use Rattle.std.specs.Prelude.{◌≡◌, Bool, OnErr, false};
    ghost use Rattle.wasi_world.specs.declared.ids.OpId.{OpId};
    ghost use Rattle.wasi_world.specs.Asks.{Asks, AsksFor};

    /// What a look asks, what it answers, and the thing then.
    ghost looking: { OpId → Self → Asks (Bool × Self) };

    /// Whether the next call on it gives something: bytes, room, or an error. Out of memory nothing
    /// was asked.
    fn poll_ready<W: World>(&mut self, world: &mut W, op: OpId) -> Result<bool, AllocError>
        requires { (W.seen world.old).ended ≡ false }
        ensures asked { AsksFor (looking op self.old) (W.seen world.old) (W.seen world.new)
            (λ ready. (ready, self.new)) result }
        ensures unasked { OnErr result (W.seen world.new ≡ W.seen world.old) };
}
