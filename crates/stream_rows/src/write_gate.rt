//! A sink whose first write waits until its stream's owner opens a gate.

ghost use Rattle.std.specs.Prelude.{◌≡◌};
ghost use Rattle.world_io.specs.Io.{HasWritten, HasFlushed};

use std::alloc::{AllocError, Global};
use std::sync::Arc;
use std::sync::atomic::{AtomicBool, Ordering};
use std::thread;
use world_io::{Failed, Sink};

/// How often one side looks for the other.
pub const TURNS: u32 = 1_000_000;

/// What the owner has of the gate.
#[derive(Drop)]
pub struct Gate {
    began: Arc<AtomicBool, Global>,
    open: Arc<AtomicBool, Global>,
    fails: Arc<AtomicBool, Global>,
}

/// What the sink has of the gate. Its writes take all bytes and count them.
#[derive(Drop)]
pub struct GatedSink {
    began: Arc<AtomicBool, Global>,
    open: Arc<AtomicBool, Global>,
    fails: Arc<AtomicBool, Global>,
    passed: bool,
    bytes: u64,
    faults: u64,
}

/// A closed gate, and its sink.
pub fn gated(alloc: Global) -> Result<(Gate, GatedSink), AllocError> {
    let began = Arc::new(alloc, AtomicBool::new(false))?;
    let open = Arc::new(alloc, AtomicBool::new(false))?;
    let fails = Arc::new(alloc, AtomicBool::new(false))?;
    let sink = GatedSink {
        began: Arc::try_clone(&began)?,
        open: Arc::try_clone(&open)?,
        fails: Arc::try_clone(&fails)?,
        passed: false,
        bytes: 0,
        faults: 0,
    };
    Ok((Gate { began, open, fails }, sink))
}

/// Looks until the flag is set. Returns whether it was.
fn look(flag: &Arc<AtomicBool, Global>) -> bool {
    for _turn in 0..TURNS {
        if flag.load(Ordering::SeqCst) {
            return true;
        }
        thread::yield_now();
    }
    false
}

impl Gate {
    /// Looks until the first write began. Returns whether it did.
    pub fn sees_first_write(&self) -> bool {
        look(&self.began)
    }

    /// Lets the first write continue.
    pub fn open(&self) {
        self.open.store(true, Ordering::SeqCst);
    }

    /// Lets the first write fail.
    pub fn fail(&self) {
        self.fails.store(true, Ordering::SeqCst);
        self.open();
    }
}

impl GatedSink {
    /// How many bytes it took.
    pub fn bytes(&self) -> u64 {
        self.bytes
    }

    /// Signals that the first write began, and waits for the owner. Returns whether the write may
    /// continue.
    fn pass(&mut self) -> bool
        ensures { self.new.faults ≡ self.old.faults }
    {
        self.began.store(true, Ordering::SeqCst);
        self.passed = true;
        look(&self.open) && !self.fails.load(Ordering::SeqCst)
    }
}

impl Sink for GatedSink {
    ghost use Rattle.std.specs.Prelude.{None};

    ghost writing = { λ s. record {
      written = None;
      flushed = None;
      faults = s.faults;
      refused = 0;
    } };

    fn write(&mut self, bytes: &[u8]) -> Result<usize, Failed> {
        if !self.passed && !self.pass() {
            self.faults = self.faults.saturating_add(1);
            return Err(Failed);
        }
        self.bytes = self.bytes.saturating_add(bytes.len() as u64);
        Ok(bytes.len())
    }

    fn flush(&mut self) -> Result<(), Failed> {
        Ok(())
    }
}
