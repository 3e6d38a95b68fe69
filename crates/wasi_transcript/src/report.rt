//! What is printed of a file of transcripts.

use crate::cases::TextLines;
use crate::check::{Came, Checked, Failed};
use std::alloc::{AllocError, Global};
use std::fmt::Write;

/// The first line in which two texts differ: its number, counted from 0, and what each has there.
#[derive(Drop)]
pub(crate) struct Difference<'a> {
    pub line: u32,
    pub wanted: Option<&'a [u8]>,
    pub came: Option<&'a [u8]>,
}

/// Where two texts differ first, counted in lines; past the last line of both where they don't.
pub(crate) fn first_difference<'a>(wanted: &'a [u8], came: &'a [u8]) -> Difference<'a> {
    let mut lines = TextLines::of(wanted);
    let mut others = TextLines::of(came);
    let mut line = 0u32;
    'lines: loop {
        let (wanted, came) = (lines.next(), others.next());
        if wanted != came || wanted.is_none() {
            return Difference { line, wanted, came };
        }
        line = line.saturating_add(1);
    }
}

/// Appends a line of a report: what it is, and the line, or that there is none.
fn push_found(text: &mut Vec<u8>, what: &str, line: Option<&[u8]>) -> Result<(), AllocError> {
    text.extend_from_slice(what.as_bytes())?;
    text.extend_from_slice(line.unwrap_or(b"nothing more"))?;
    text.extend_from_slice(b"\n")
}

/// Appends the first line of what is reported of a case: `FILE:LINE: ` and its title.
fn push_place(
    alloc: Global,
    text: &mut Vec<u8>,
    file: &str,
    line: u32,
    title: &[u8],
) -> Result<(), AllocError> {
    let place = format!(in alloc; "{file}:{line}: ")?;
    text.extend_from_slice(place.as_bytes())?;
    text.extend_from_slice(title)?;
    text.extend_from_slice(b"\n")
}

/// What is reported of a case that doesn't hold: its place, and what was wanted there and came.
fn failed_text(alloc: Global, file: &str, failed: &Failed<'_>) -> Result<Vec<u8>, AllocError> {
    let mut text = Vec::new(alloc);
    match &failed.came {
        Came::BadScenario(line) => {
            push_place(
                alloc,
                &mut text,
                file,
                failed.line.saturating_add(*line),
                failed.case.title,
            )?;
            text.extend_from_slice(b"    this line of the scenario is not in its grammar\n")?;
        }
        Came::Shown(came) => {
            let found = first_difference(failed.case.wanted.as_slice(), came.as_slice());
            let line = failed.case.first_line.saturating_add(found.line);
            push_place(alloc, &mut text, file, line, failed.case.title)?;
            push_found(&mut text, "    wanted: ", found.wanted)?;
            push_found(&mut text, "    came:   ", found.came)?;
        }
    }
    Ok(text)
}

/// What is printed of a file.
pub fn report(alloc: Global, file: &str, checked: &Checked<'_>) -> Result<Vec<u8>, AllocError> {
    match checked {
        Checked::Holds(count) => {
            let text = format!(in alloc; "{file}: {count} cases hold\n")?;
            Ok(text.into_bytes())
        }
        Checked::Fails(failed) => failed_text(alloc, file, failed),
        Checked::NotCases(line) => {
            let text = format!(in alloc;
                "{file}:{line}: no case begins here, or it does not end\n"
            )?;
            Ok(text.into_bytes())
        }
    }
}
