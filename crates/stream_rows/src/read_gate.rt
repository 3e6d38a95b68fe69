//! A source whose first read waits until its stream's owner opens a gate.

ghost use Rattle.std.specs.Prelude.{◌≡◌};
ghost use Rattle.world_io.specs.Io.{HasRead};

use std::alloc::{AllocError, Global};
use std::sync::Arc;
use std::sync::atomic::{AtomicBool, Ordering};
use std::thread;
use world_io::{Failed, MemorySource, Source};

/// How often one side looks for the other.
pub const TURNS: u32 = 1_000_000;

/// What the owner has of the gate.
#[derive(Drop)]
pub struct Gate {
    began: Arc<AtomicBool, Global>,
    open: Arc<AtomicBool, Global>,
}

/// What the source has of the gate. It waits for the owner before its first read.
#[derive(Drop)]
pub struct GatedSource {
    began: Arc<AtomicBool, Global>,
    open: Arc<AtomicBool, Global>,
    passed: bool,
    source: MemorySource,
}

/// A closed gate, and its source.
pub fn gated(alloc: Global, source: MemorySource) -> Result<(Gate, GatedSource), AllocError> {
    let began = Arc::new(alloc, AtomicBool::new(false))?;
    let open = Arc::new(alloc, AtomicBool::new(false))?;
    let source = GatedSource {
        began: Arc::try_clone(&began)?,
        open: Arc::try_clone(&open)?,
        passed: false,
        source,
    };
    Ok((Gate { began, open }, source))
}

/// Looks until the flag is set. Returns whether it was.
fn look(flag: &Arc<AtomicBool, Global>) -> bool {
    for _turn in 0..TURNS {
        if flag.load(Ordering::SeqCst) {
            return true;
        }
        thread::yield_now();
    }
    false
}

impl Gate {
    /// Looks until the first read began. Returns whether it did.
    pub fn sees_first_read(&self) -> bool {
        look(&self.began)
    }

    /// Lets the first read continue.
    pub fn open(&self) {
        self.open.store(true, Ordering::SeqCst);
    }
}

impl GatedSource {
    /// The source behind the gate.
    pub fn inner(&self) -> &MemorySource {
        &self.source
    }

    /// Tells that the first read began, and waits for the owner.
    fn pass(&mut self)
        ensures { self.new.source ≡ self.old.source }
    {
        self.began.store(true, Ordering::SeqCst);
        self.passed = true;
        let _ = look(&self.open);
    }
}

impl Source for GatedSource {
    ghost use Rattle.world_io.specs.Memory.{reading_of};

    ghost reading = { λ s. reading_of s.source };

    fn read(&mut self, buf: &mut [u8]) -> Result<usize, Failed> {
        if !self.passed {
            self.pass();
        }
        self.source.read(buf)
    }
}
