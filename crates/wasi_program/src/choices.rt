//! What a program decides by itself, beside what it runs.

ghost use Rattle.std.specs.Prelude.{◌≡◌, map, string_bytes};
ghost use Rattle.wasi_program.specs.Choices.{choice_by, choice_in, scenario_file, shown_line};

use crate::status::Status;

/// What the words ask for.
#[derive(Clone, Copy, Debug, PartialEq, Eq)]
pub enum Choice {
    /// `--help`.
    Help,
    /// `--version`.
    Version,
    /// Any other words: a command, or none that there is.
    Command,
}

/// What a word asks for that stands alone.
fn choice_by(word: &str) -> Choice
    ensures { result ≡ choice_by word.now }
{
    if word == "--help" {
        Choice::Help
    } else if word == "--version" {
        Choice::Version
    } else {
        Choice::Command
    }
}

/// What the words ask for.
pub fn choice_in(words: &[String]) -> Choice
    ensures { result ≡ choice_in (map (λ w. string_bytes w) words.now) }
{
    match words {
        [word] => choice_by(word.as_str()),
        _ => Choice::Command,
    }
}

/// The path of the file that has the scenario.
pub fn scenario_path() -> &'static str
    ensures { result.now ≡ scenario_file }
{
    "scenario.txt"
}

/// Whose line is shown.
#[derive(Clone, Copy, Debug, PartialEq, Eq)]
pub enum ShownLine {
    OfScenario,
    OfScript,
    Neither,
}

/// Whose line is shown, where it ended so.
pub fn shown_line(status: Status) -> ShownLine
    ensures { result ≡ shown_line status }
{
    match status {
        Status::BadScenario => ShownLine::OfScenario,
        Status::BadStep => ShownLine::OfScript,
        _ => ShownLine::Neither,
    }
}
