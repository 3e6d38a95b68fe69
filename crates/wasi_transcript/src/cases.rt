//! Files of transcripts: what one says of each of its scripts.

ghost use Rattle.std.specs.Prelude.{◌≡◌, ◌++◌, ◌∷◌, ◌<◌, ◌↔◌, ℕ, [], Some, None, IsTrue, IfSome};
ghost use Rattle.std.specs.Prelude.{IfNone, IfOk, OnOk, codes, length, option_copied};
ghost use Rattle.world_text.specs.Lines.{lines_of, rest_of};
ghost use Rattle.wasi_transcript.specs.Cases.{after};
ghost use Rattle.wasi_transcript.specs.CaseRead.{ReadsCase, ReadsPlanned, ReadsShown, PushesStep};
ghost use Rattle.wasi_transcript.specs.CaseRead.{TakesAfter};

use std::alloc::{AllocError, Global};
use std::marker::Model;
use world_text::lines::newline_at;

/// The lines of a text that are left, each of which a newline ends.
#[derive(Drop)]
pub struct TextLines<'a> {
    rest: &'a [u8],
    number: u32,
}

impl<'a> Model for TextLines<'a> {
    ghost use Rattle.std.specs.Prelude.{List, ℕ};

    ghost Value = { List ℕ };

    ghost view = { λ lines. lines.rest.now };
}

impl<'a> TextLines<'a> {
    /// The lines of a text.
    pub fn of(text: &'a [u8]) -> TextLines<'a>
        ensures { result ≡ text.now }
    {
        TextLines {
            rest: text,
            number: 1,
        }
    }

    /// The number of the next line, counted from 1.
    pub fn number(&self) -> u32 {
        self.number
    }

    /// Takes the next line, without its newline; `None` where no newline is left.
    pub fn next(&mut self) -> Option<&'a [u8]>
        ensures line { IfSome result (λ line. lines_of self.old ≡ line.now ∷ lines_of self.new) }
        ensures rest { IfSome result (λ line. rest_of self.old ≡ rest_of self.new) }
        ensures shorter { IfSome result (λ line. length self.new < length self.old) }
        ensures end { IfNone result (lines_of self.old ≡ []) }
        ensures same { IfNone result (self.new ≡ self.old) }
    {
        let rest = self.rest;
        let end = newline_at(rest)?;
        self.rest = &rest[end + 1..];
        self.number = self.number.saturating_add(1);
        Some(&rest[..end])
    }

    /// Takes the next line if it begins with `front`, and gives what follows that.
    pub fn next_after(&mut self, front: &[u8]) -> Option<&'a [u8]>
        ensures { TakesAfter front.now self.old self.new (option_copied result) }
    {
        let mut others = TextLines {
            rest: self.rest,
            number: self.number,
        };
        let found = after(others.next()?, front)?;
        self.rest = others.rest;
        self.number = others.number;
        Some(found)
    }

    /// Whether nothing is left.
    pub fn is_done(&self) -> bool
        ensures { IsTrue result ↔ (self.now ≡ []) }
    {
        self.rest.is_empty()
    }
}

/// What follows `front` in a line; `None` where the line doesn't begin with it.
#[tactic(auto, unfolding(crate::specs::Cases::after))]
pub fn after<'a>(line: &'a [u8], front: &[u8]) -> Option<&'a [u8]>
    ensures { option_copied result ≡ after front.now line.now }
{
    if line.len() < front.len() || &line[..front.len()] != front {
        return None;
    }
    Some(&line[front.len()..])
}

/// A script over a scripted network, beside the transcript that is wanted.
#[derive(Drop)]
pub struct Case<'a> {
    /// What it shows.
    pub title: &'a [u8],
    /// The lines of the scenario, each with its newline.
    pub scenario: Vec<u8>,
    /// The lines of the script, each with its newline.
    pub script: Vec<u8>,
    /// The lines of the transcript that is wanted, each with its newline.
    pub wanted: Vec<u8>,
    pub first_line: u32,
}

/// Appends a line with its newline.
fn push_line(text: &mut Vec<u8>, line: &[u8]) -> Result<(), AllocError>
    ensures { OnOk result (text.new.items ≡ text.old.items ++ (line.now ++ codes "\n")) }
{
    text.extend_from_slice(line)?;
    text.extend_from_slice(b"\n")
}

/// Takes the lines of a scenario that come next, and gives them as its text.
fn read_planned(alloc: Global, lines: &mut TextLines<'_>) -> Result<Vec<u8>, AllocError>
    ensures { IfOk result (λ scenario. ReadsPlanned lines.old lines.new scenario.items) }
{
    let mut scenario = Vec::new(alloc);
    'planned: while let Some(line) = lines.next_after(b"given ") {
        push_line(&mut scenario, line)?;
    }
    Ok(scenario)
}

/// Appends the line of a script, if this line of its transcript shows one.
fn push_step(script: &mut Vec<u8>, line: &[u8]) -> Result<(), AllocError>
    ensures { OnOk result (PushesStep line.now script.old.items script.new.items
        (after (codes "> ") line.now)) }
{
    match after(line, b"> ") {
        Some(step) => push_line(script, step),
        None => Ok(()),
    }
}

/// The text of a transcript, and that of its script.
#[derive(Drop)]
struct Shown {
    script: Vec<u8>,
    wanted: Vec<u8>,
}

/// Takes the lines up to an empty one. There are none where no empty line is left.
fn read_shown(alloc: Global, lines: &mut TextLines<'_>) -> Result<Option<Shown>, AllocError>
    ensures { IfOk result (λ shown. ReadsShown lines.old lines.new shown) }
{
    let mut script = Vec::new(alloc);
    let mut wanted = Vec::new(alloc);
    'shown: while let Some(line) = lines.next() {
        if line.is_empty() {
            return Ok(Some(Shown { script, wanted }));
        }
        push_step(&mut script, line)?;
        push_line(&mut wanted, line)?;
    }
    Ok(None)
}

/// Reads the next case, if the lines that are left begin with one. Takes memory for its texts.
/// Where there is none, or memory ran out, it may have taken some of the lines.
pub fn read_case<'a>(
    alloc: Global,
    lines: &mut TextLines<'a>,
) -> Result<Option<Case<'a>>, AllocError>
    ensures { IfOk result (λ case. ReadsCase lines.old lines.new case) }
{
    let Some(title) = lines.next_after(b"# ") else {
        return Ok(None);
    };
    let scenario = read_planned(alloc, lines)?;
    let first_line = lines.number();
    let Some(Shown { script, wanted }) = read_shown(alloc, lines)? else {
        return Ok(None);
    };
    Ok(Some(Case {
        title,
        scenario,
        script,
        wanted,
        first_line,
    }))
}
