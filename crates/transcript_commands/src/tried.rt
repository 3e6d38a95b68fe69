//! Files of transcripts whose scripts are run over streams that fail.

use crate::streams::{Failed, try_script};
use std::alloc::{AllocError, Global};
use wasi_transcript::cases::{TextLines, read_case};

/// What came of a file.
#[derive(Clone, Copy)]
pub enum Tried {
    /// Each run of its cases ended as it has to; how many there were, up to the greatest `u64`.
    Held(u64),
    /// The first run that didn't, and the line of its case.
    Failed(u32, Failed),
    /// It isn't a list of cases.
    NotCases,
}

/// Runs the script of each case, with a fault at each of at most `tries` calls of each stream.
/// Takes memory for one case and its runs at a time. The only error is out of memory.
pub fn try_text(alloc: Global, text: &[u8], tries: u64) -> Result<Tried, AllocError> {
    let mut lines = TextLines::of(text);
    let mut runs = 0u64;
    'cases: while !lines.is_done() {
        let line = lines.number();
        let Some(case) = read_case(alloc, &mut lines)? else {
            return Ok(Tried::NotCases);
        };
        match try_script(alloc, &case, tries)? {
            Ok(count) => runs = runs.saturating_add(count),
            Err(failed) => return Ok(Tried::Failed(line, failed)),
        }
    }
    Ok(Tried::Held(runs))
}
