//! The text of a file of rules.

use std::alloc::{AllocError, Global};
use wasi_console::{Front, front_in};
use wasi_program::scenario::{Unread, read_scenario};
use world_io::{MemorySource, Source};

/// How many bytes rules have at most.
pub const MOST_RULES: u64 = 1_048_576;

/// How many bytes of it are read at a time.
const PIECE_SIZE: usize = 4096;

/// The text of a file of rules, which is closed: to its end, or to one byte past the most that rules
/// may have.
#[derive(Drop)]
pub struct RulesText {
    text: Vec<u8>,
}

impl RulesText {
    /// Reads it, and lets go of the file. Takes memory for its bytes.
    pub fn read<S: Source + Drop>(alloc: Global, mut file: S) -> Result<RulesText, Unread> {
        let text = read_scenario(alloc, &mut file)?;
        Ok(RulesText { text })
    }

    /// A source of it. Takes memory for its bytes once more.
    pub fn source(&self) -> Result<MemorySource, AllocError> {
        let alloc = *self.text.allocator();
        Ok(MemorySource::new(self.text.clone()?, PIECE_SIZE, Vec::new(alloc)))
    }

    /// Whether it is longer than rules may be.
    pub fn is_too_long(&self) -> bool {
        self.text.len() as u64 > MOST_RULES
    }

    /// The first bytes of the line with this number, counted from 1.
    pub fn front(&self, line: u32) -> Option<Front> {
        front_in(self.text.as_slice(), u64::from(line))
    }
}
