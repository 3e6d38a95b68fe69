//! How the program ends, and what its words ask for.

ghost use Rattle.std.specs.Prelude.{◌≡◌, map, string_bytes};
ghost use Rattle.policy_commands.specs.Words.{number_of, status_of_ask, bad_line_of_ask};
ghost use Rattle.policy_commands.specs.Words.{limited_by, limited_in, alone, command_in};

use policy_asks::{AskError, Form};
use wasi_program::Status;
use world_text::fields::number;

/// How the program ended.
#[derive(Clone, Copy, Debug, PartialEq, Eq)]
pub enum PolicyStatus {
    /// As `kaxtubor run` ends; a bad line of questions is a bad step.
    Of(Status),
    /// A line of the rules isn't in their grammar.
    BadRules,
    /// A read of the rules failed.
    RulesFault,
}

impl PolicyStatus {
    /// The number that the program ends with.
    pub fn number(self) -> u8
        ensures { result ≡ number_of self }
    {
        match self {
            PolicyStatus::Of(status) => status.number(),
            PolicyStatus::BadRules => 16,
            PolicyStatus::RulesFault => 17,
        }
    }

    /// How the end of questions is reported.
    pub fn of_ask(outcome: Result<(), AskError>) -> PolicyStatus
        ensures { result ≡ status_of_ask outcome }
    {
        PolicyStatus::Of(match outcome {
            Ok(()) => Status::Ok,
            Err(AskError::BadLine(_)) => Status::BadStep,
            Err(AskError::TooLong) => Status::TooLong,
            Err(AskError::ReadFault) => Status::ReadFault,
            Err(AskError::WriteFault) => Status::WriteFault,
            Err(AskError::Memory) => Status::Memory,
        })
    }
}

/// The line that is no question, counted from 1, else 0.
pub fn bad_line_of_ask(outcome: Result<(), AskError>) -> u32
    ensures { result ≡ bad_line_of_ask outcome }
{
    match outcome {
        Err(AskError::BadLine(line)) => line,
        _ => 0,
    }
}

/// What the words ask for.
#[derive(Clone, Copy, Debug, PartialEq, Eq)]
pub enum Command {
    /// `run LIMIT`: a script of at most so many bytes.
    Run(u32),
    /// `ask LIMIT` and `explain LIMIT`: questions of at most so many bytes, answered so.
    Ask(Form, u32),
    /// `check`: what is odd about the rules.
    Check,
}

/// The command of a word with a limit.
fn limited_by(word: &str, limit: u32) -> Option<Command>
    ensures { result ≡ limited_by word.now limit }
{
    if word == "run" {
        Some(Command::Run(limit))
    } else if word == "ask" {
        Some(Command::Ask(Form::Decision, limit))
    } else if word == "explain" {
        Some(Command::Ask(Form::Rule, limit))
    } else {
        None
    }
}

/// The command of two words.
fn limited_in(word: &str, limit: &str) -> Option<Command>
    ensures { result ≡ limited_in word.now limit.now }
{
    let limit = number(limit.as_bytes(), u64::from(u32::MAX))?;
    limited_by(word, limit as u32)
}

/// The command of one word.
fn alone(word: &str) -> Option<Command>
    ensures { result ≡ alone word.now }
{
    if word == "check" {
        Some(Command::Check)
    } else {
        None
    }
}

/// The command in the words.
pub fn command_in(words: &[String]) -> Option<Command>
    ensures { result ≡ command_in (map (λ w. string_bytes w) words.now) }
{
    match words {
        [word] => alone(word.as_str()),
        [word, limit] => limited_in(word.as_str(), limit.as_str()),
        _ => None,
    }
}
