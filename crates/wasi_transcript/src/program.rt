//! What the program does with its words.

ghost use Rattle.std.specs.Prelude.{◌≡◌, map, string_bytes};
ghost use Rattle.wasi_transcript.specs.Words.{limit_after, AreWords, number_of, ShowEnds};
ghost use Rattle.wasi_transcript.specs.Words.{CheckEnds};

use crate::check::{Checked, check_text};
use crate::report::report;
use crate::show::show_script;
use std::alloc::{AllocError, Global};
use wasi_program::Status;
use wasi_program::scenario::{Scenario, Unread, parse_scenario, read_scenario};
use wasi_program::status::bad_line;
use world_io::{Sink, Source, write_all};
use world_text::fields::number;

/// How the program ended.
#[derive(Clone, Copy, Debug, PartialEq, Eq)]
pub enum End {
    /// The script's run ended with this status; the line is that of a bad line of the scenario or
    /// of the script, else 0.
    Run(Status, u32),
    /// A case doesn't hold.
    Differs,
    /// A file isn't a list of cases.
    NotCases,
    /// A file can't be read.
    NoFile,
    /// A fault of the network made a step trap.
    Trapped,
    /// A run in which the network failed broke off, or left a network socket open.
    Lost,
}

impl End {
    /// The number that the program ends with.
    pub fn number(self) -> u8
        ensures { result ≡ number_of self }
    {
        match self {
            End::Run(status, _) => status.number(),
            End::Differs => 20,
            End::NotCases => 21,
            End::NoFile => 22,
            End::Trapped => 23,
            End::Lost => 24,
        }
    }
}

/// What the program's words ask for.
#[derive(Clone, Copy, Debug, PartialEq, Eq)]
pub enum Words<'a> {
    /// `show LIMIT`.
    Show(u32),
    /// `check FILE..`.
    Check(&'a [String]),
    /// `faults LIMIT`.
    Faults(u32),
}

/// The limit after this word, from 0 to 4,294,967,295, where nothing else follows.
fn limit_after(first: &str, words: &[String]) -> Option<u32>
    ensures { result ≡ limit_after first.now (map (λ w. string_bytes w) words.now) }
{
    match words {
        [word, limit] => {
            if word.as_str() != first {
                return None;
            }
            let limit = number(limit.as_str().as_bytes(), u64::from(u32::MAX))?;
            Some(limit as u32)
        }
        _ => None,
    }
}

/// Reads the program's words.
pub fn words_in(words: &[String]) -> Option<Words<'_>>
    ensures { AreWords (map (λ w. string_bytes w) words.now) result }
{
    if let Some(limit) = limit_after("show", words) {
        return Some(Words::Show(limit));
    }
    if let Some(limit) = limit_after("faults", words) {
        return Some(Words::Faults(limit));
    }
    let (first, files) = words.split_first()?;
    if first.as_str() != "check" || files.is_empty() {
        return None;
    }
    Some(Words::Check(files))
}

/// Reads the scenario, and prints the transcript of the script that the source gives over its
/// network.
pub fn show<C: Source, S: Source, K: Sink>(
    alloc: Global,
    limit: u32,
    scenario: &mut C,
    source: &mut S,
    sink: &mut K,
) -> End
    ensures { ShowEnds limit (C.reading scenario.old) (C.reading scenario.new)
        (S.reading source.old) (S.reading source.new) (K.writing sink.old) (K.writing sink.new)
        result }
{
    let text = match read_scenario(alloc, scenario) {
        Ok(text) => text,
        Err(Unread::Fault) => return End::Run(Status::ScenarioFault, 0),
        Err(Unread::Memory(_)) => return End::Run(Status::Memory, 0),
    };
    match parse_scenario(alloc, text.as_slice()) {
        Err(AllocError) => End::Run(Status::Memory, 0),
        Ok(Scenario::BadLine(line)) => End::Run(Status::BadScenario, line),
        Ok(Scenario::Planned(mut world, contexts)) => {
            let outcome = show_script(alloc, &mut world, contexts.as_slice(), limit, source, sink);
            End::Run(Status::of_run(outcome), bad_line(outcome))
        }
    }
}

/// Checks the text of a file of transcripts, and prints what was found: that all cases hold, or the
/// first that doesn't.
pub fn check<K: Sink>(alloc: Global, file: &str, text: &[u8], sink: &mut K) -> End
    ensures { CheckEnds text.now result }
{
    let Ok(checked) = check_text(alloc, text) else {
        return End::Run(Status::Memory, 0);
    };
    let Ok(report) = report(alloc, file, &checked) else {
        return End::Run(Status::Memory, 0);
    };
    if write_all(sink, report.as_slice()).is_err() {
        return End::Run(Status::WriteFault, 0);
    }
    match checked {
        Checked::Holds(_) => End::Run(Status::Ok, 0),
        Checked::Fails(_) => End::Differs,
        Checked::NotCases(_) => End::NotCases,
    }
}
