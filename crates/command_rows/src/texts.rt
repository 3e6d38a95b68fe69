//! Cases of shown lines, drawn scripts and the texts of replies.

use drawn_scripts::drawn::Drawn;
use drawn_scripts::generate::generate;
use row_cases::{Case, Stream, number, short_number};
use std::alloc::{AllocError, Global};
use std::fmt::Write;
use wasi_console::line_of;
use wasi_steps::Reply;
use wasi_steps::reply::reply_text;

/// `line N..`: the input's lines with these numbers as a program shows them, or `none`.
pub fn line(text: &mut String, alloc: Global, case: &Case) -> Result<(), AllocError> {
    for word in case.words_from(1) {
        let source = case.source(alloc, Stream::Input)?;
        match line_of(source, number(word.as_str()) as u64) {
            Some(front) => write!(text, "{word} \"{front}\"\n")?,
            None => write!(text, "{word} none\n")?,
        }
    }
    Ok(())
}

/// `drawn SEED STEPS`: a script of calls of 0.2 that is drawn.
pub fn drawn(text: &mut String, alloc: Global, case: &Case) -> Result<(), AllocError> {
    let (seed, steps) = (number(case.word(1)), short_number(case.word(2)));
    let script = generate(alloc, Drawn::OfTwo, seed as u64, steps)?;
    text.push_str(str::from_utf8(script.as_slice()).unwrap_or("no text"))
}

/// `replies`: the texts of those that no script reaches.
pub fn replies(text: &mut String, alloc: Global) -> Result<(), AllocError> {
    for reply in [Reply::Cancelled, Reply::Dropped, Reply::Unfilled] {
        let line = reply_text(alloc, &reply)?;
        text.push_str(str::from_utf8(line.as_slice()).unwrap_or("no text"))?;
    }
    Ok(())
}
