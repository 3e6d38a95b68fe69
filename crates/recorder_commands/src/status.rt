//! How the program ends, and what its words ask for.

ghost use Rattle.std.specs.Prelude.{◌≡◌, map, string_bytes};
ghost use Rattle.world_text.specs.Fields.{number_in};
ghost use Rattle.recorder_commands.specs.Words.{number_of, limited_by, limited_in, part_in};
ghost use Rattle.recorder_commands.specs.Words.{alone, command_in};

use log_picture::Part;
use wasi_program::Status;
use world_text::fields::number;

/// How the program ended.
#[derive(Clone, Copy, Debug, PartialEq, Eq)]
pub enum RecorderStatus {
    /// As `kaxtubor run` ends.
    Of(Status),
    /// A line of the log isn't in its grammar.
    BadLog,
    /// The log couldn't be read or written.
    LogFault,
    /// The run isn't the recorded one.
    Differs,
    /// The log was cut, and the run asked more than it has.
    LogEnds,
}

impl RecorderStatus {
    /// The number that the program ends with.
    pub fn number(self) -> u8
        ensures { result ≡ number_of self }
    {
        match self {
            RecorderStatus::Of(status) => status.number(),
            RecorderStatus::BadLog => 13,
            RecorderStatus::LogFault => 14,
            RecorderStatus::Differs => 15,
            RecorderStatus::LogEnds => 25,
        }
    }
}

/// What the words ask for.
#[derive(Clone, Copy, Debug, PartialEq, Eq)]
pub enum Command {
    /// `record LIMIT`: a script of at most so many bytes.
    Record(u32),
    /// `replay LIMIT`: a script of at most so many bytes.
    Replay(u32),
    /// `draw` and `draw FROM TO`: the entries of these lines of the script.
    Draw(Part),
}

/// The command of a word with a limit.
fn limited_by(word: &str, limit: u32) -> Option<Command>
    ensures { result ≡ limited_by word.now limit }
{
    if word == "record" {
        Some(Command::Record(limit))
    } else if word == "replay" {
        Some(Command::Replay(limit))
    } else {
        None
    }
}

/// The number of 32 bits that a word is.
fn u32_in(word: &str) -> Option<u32>
    ensures { result ≡ number_in word.now 4294967295 }
{
    Some(number(word.as_bytes(), u64::from(u32::MAX))? as u32)
}

/// The command of two words.
fn limited_in(word: &str, limit: &str) -> Option<Command>
    ensures { result ≡ limited_in word.now limit.now }
{
    let limit = u32_in(limit)?;
    limited_by(word, limit)
}

/// The command of three words.
fn part_in(word: &str, from: &str, upto: &str) -> Option<Command>
    ensures { result ≡ part_in word.now from.now upto.now }
{
    if word != "draw" {
        return None;
    }
    let from = u32_in(from)?;
    let upto = u32_in(upto)?;
    Some(Command::Draw(Part { from, upto }))
}

/// The command of one word.
fn alone(word: &str) -> Option<Command>
    ensures { result ≡ alone word.now }
{
    if word == "draw" {
        let upto = u32::MAX;
        Some(Command::Draw(Part { from: 0, upto }))
    } else {
        None
    }
}

/// The command in the words.
pub fn command_in(words: &[String]) -> Option<Command>
    ensures { result ≡ command_in (map (λ w. string_bytes w) words.now) }
{
    match words {
        [word] => alone(word.as_str()),
        [word, limit] => limited_in(word.as_str(), limit.as_str()),
        [word, from, upto] => part_in(word.as_str(), from.as_str(), upto.as_str()),
        _ => None,
    }
}
