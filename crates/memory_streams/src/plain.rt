//! Streams that take everything, or that are closed. Each is always ready.

use std::alloc::{AllocError, Global};
use wasi_streams::{InputStream, OutputStream, Pollable, StreamError};
use wasi_world::{Octets, OpId, World};

/// How many bytes a sink permits.
const SINK_PERMIT: usize = 65536;

/// An output that takes whatever is written to it, and keeps none of it (`SinkOutputStream` of the
/// crate wasmtime-wasi).
#[derive(Clone, Copy, Debug, PartialEq, Eq)]
pub struct SinkOutputStream;

impl OutputStream for SinkOutputStream {
    ghost use Rattle.std.specs.Prelude.{Ok, Err};
    ghost use Rattle.wasi_world.specs.Asks.{Give};
    ghost use Rattle.wasi_streams.specs.StreamStop.{Closed};

    ghost checking = { λ op stream. Give (Ok 65536, stream) };

    ghost writing = { λ op stream bytes. Give (Ok tt, stream) };

    ghost flushing = { λ op stream. Give (Ok tt, stream) };

    fn check_write<W: World>(&mut self, _world: &mut W, _op: OpId) -> Result<usize, StreamError> {
        Ok(SINK_PERMIT)
    }

    fn write<W: World>(
        &mut self,
        _world: &mut W,
        _op: OpId,
        _bytes: Octets,
    ) -> Result<(), StreamError> {
        Ok(())
    }

    fn flush<W: World>(&mut self, _world: &mut W, _op: OpId) -> Result<(), StreamError> {
        Ok(())
    }
}

impl Pollable for SinkOutputStream {
    ghost use Rattle.std.specs.Prelude.{true};
    ghost use Rattle.wasi_world.specs.Asks.{Give};

    ghost looking = { λ op stream. Give (true, stream) };

    fn poll_ready<W: World>(&mut self, _world: &mut W, _op: OpId) -> Result<bool, AllocError> {
        Ok(true)
    }
}

/// An input whose calls all answer `Closed` (`ClosedInputStream` of the crate wasmtime-wasi).
#[derive(Clone, Copy, Debug, PartialEq, Eq)]
pub struct ClosedInputStream;

impl InputStream for ClosedInputStream {
    ghost use Rattle.std.specs.Prelude.{Err};
    ghost use Rattle.wasi_world.specs.Asks.{Give};
    ghost use Rattle.wasi_streams.specs.StreamStop.{Closed};

    ghost reading = { λ op stream size. Give (Err Closed, stream) };

    fn read<W: World>(
        &mut self,
        _alloc: Global,
        _world: &mut W,
        _op: OpId,
        _size: usize,
    ) -> Result<Octets, StreamError> {
        Err(StreamError::Closed)
    }
}

impl Pollable for ClosedInputStream {
    ghost use Rattle.std.specs.Prelude.{true};
    ghost use Rattle.wasi_world.specs.Asks.{Give};

    ghost looking = { λ op stream. Give (true, stream) };

    fn poll_ready<W: World>(&mut self, _world: &mut W, _op: OpId) -> Result<bool, AllocError> {
        Ok(true)
    }
}

/// An output whose calls all answer `Closed` (`ClosedOutputStream` of the crate wasmtime-wasi).
#[derive(Clone, Copy, Debug, PartialEq, Eq)]
pub struct ClosedOutputStream;

impl OutputStream for ClosedOutputStream {
    ghost use Rattle.std.specs.Prelude.{Ok, Err};
    ghost use Rattle.wasi_world.specs.Asks.{Give};
    ghost use Rattle.wasi_streams.specs.StreamStop.{Closed};

    ghost checking = { λ op stream. Give (Err Closed, stream) };

    ghost writing = { λ op stream bytes. Give (Err Closed, stream) };

    ghost flushing = { λ op stream. Give (Err Closed, stream) };

    fn check_write<W: World>(&mut self, _world: &mut W, _op: OpId) -> Result<usize, StreamError> {
        Err(StreamError::Closed)
    }

    fn write<W: World>(
        &mut self,
        _world: &mut W,
        _op: OpId,
        _bytes: Octets,
    ) -> Result<(), StreamError> {
        Err(StreamError::Closed)
    }

    fn flush<W: World>(&mut self, _world: &mut W, _op: OpId) -> Result<(), StreamError> {
        Err(StreamError::Closed)
    }
}

impl Pollable for ClosedOutputStream {
    ghost use Rattle.std.specs.Prelude.{true};
    ghost use Rattle.wasi_world.specs.Asks.{Give};

    ghost looking = { λ op stream. Give (true, stream) };

    fn poll_ready<W: World>(&mut self, _world: &mut W, _op: OpId) -> Result<bool, AllocError> {
        Ok(true)
    }
}
