//! The workers of a pump run beside each other: a read and a write that wait for each other.

ghost use Rattle.world_io.specs.Io.{HasRead, HasWritten, HasFlushed};

use crate::same::same;
use crate::threads::pumps;
use std::alloc::{AllocError, Global};
use std::sync::Arc;
use std::sync::atomic::{AtomicBool, Ordering};
use std::test::*;
use std::thread;
use world_io::{Failed, Sink, Source};

/// How often one looks for the other.
const TURNS: u32 = 1_000_000;

/// Tells that it came, and looks for the other.
#[derive(Drop)]
struct Gate {
    mine: Arc<AtomicBool, Global>,
    other: Arc<AtomicBool, Global>,
}

impl Gate {
    /// Returns whether the other came.
    fn meets(&self) -> bool {
        self.mine.store(true, Ordering::SeqCst);
        for _turn in 0..TURNS {
            if self.other.load(Ordering::SeqCst) {
                return true;
            }
            thread::yield_now();
        }
        false
    }
}

/// Two gates that look for each other.
fn gates(alloc: Global) -> Result<(Gate, Gate), AllocError> {
    let one = Arc::new(alloc, AtomicBool::new(false))?;
    let two = Arc::new(alloc, AtomicBool::new(false))?;
    let first = Gate {
        mine: Arc::try_clone(&one)?,
        other: Arc::try_clone(&two)?,
    };
    Ok((
        first,
        Gate {
            mine: two,
            other: one,
        },
    ))
}

/// A source of some bytes, which it gives one by one. Its second read waits at the gate, and fails
/// where the other doesn't come.
#[derive(Drop)]
struct GatedSource {
    gate: Gate,
    reads: u64,
    left: u8,
    ended: bool,
    faults: u64,
}

impl Source for GatedSource {
    ghost use Rattle.std.specs.Prelude.{None};

    ghost reading = { λ s. record { left = None; ended = s.ended; faults = s.faults } };

    fn read(&mut self, buf: &mut [u8]) -> Result<usize, Failed> {
        self.reads = self.reads.saturating_add(1);
        if self.reads == 2 && !self.gate.meets() {
            self.faults = self.faults.saturating_add(1);
            return Err(Failed);
        }
        if buf.is_empty() {
            return Ok(0);
        }
        if self.left == 0 {
            self.ended = true;
            return Ok(0);
        }
        self.left -= 1;
        buf[0] = self.left;
        Ok(1)
    }
}

/// A sink that takes all bytes and counts them. Its first write waits at the gate, and fails where
/// the other doesn't come.
#[derive(Drop)]
struct GatedSink {
    gate: Gate,
    writes: u64,
    bytes: u64,
    faults: u64,
}

impl Sink for GatedSink {
    ghost use Rattle.std.specs.Prelude.{None};

    ghost writing = { λ s. record {
      written = None;
      flushed = None;
      faults = s.faults;
      refused = 0;
    } };

    fn write(&mut self, bytes: &[u8]) -> Result<usize, Failed> {
        self.writes = self.writes.saturating_add(1);
        if self.writes == 1 && !self.gate.meets() {
            self.faults = self.faults.saturating_add(1);
            return Err(Failed);
        }
        self.bytes = self.bytes.saturating_add(bytes.len() as u64);
        Ok(bytes.len())
    }

    fn flush(&mut self) -> Result<(), Failed> {
        Ok(())
    }
}

/// The sink's first write is held until the source's second read began, and that until the sink's
/// first write began.
#[test]
fn gate_pump(rt: HostRuntime) -> Result<(), Fail> {
    let (here, there) = gates(rt.alloc())?;
    let source = GatedSource {
        gate: here,
        reads: 0,
        left: 10,
        ended: false,
        faults: 0,
    };
    let sink = GatedSink {
        gate: there,
        writes: 0,
        bytes: 0,
        faults: 0,
    };
    let (pumped, writers, readers) = pumps(&rt, rt.alloc(), source, sink, 4);
    same(&rt, pumped.outcome, Ok(10));
    same(&rt, (pumped.sink.bytes, writers, readers), (10, 1, 1));
    Ok(())
}
