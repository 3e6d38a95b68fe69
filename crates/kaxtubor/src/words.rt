//! What is wrong with the words of a command line.

ghost use Rattle.std.specs.Prelude.{◌≡◌};
ghost use Rattle.std.specs.Process.{exit_status};

use crate::forms::{Form, Kind, form_of};
use std::fmt::{self, Display, Formatter, Write};
use std::process::ExitCode;
use wasi_program::Status;

/// What is wrong.
#[derive(Clone, Copy)]
enum Fault<'a> {
    /// There is no word at all.
    Nothing,
    /// No command has this name.
    NoCommand(&'a str),
    /// A word is missing behind the command.
    Missing(Form, Kind),
    /// The word isn't what stands there.
    Wrong(&'a str, Kind),
    /// The word is one too many for the command.
    TooMany(&'a str, Form),
    /// None of these.
    Other,
}

impl Display for Fault<'_> {
    fn fmt<W: Write>(&self, f: &mut Formatter<W>) -> fmt::Result {
        match self {
            Fault::Nothing => write!(f, "a COMMAND is missing; --help lists them"),
            Fault::NoCommand(word) => write!(f, "`{word}` is no COMMAND; --help lists them"),
            Fault::Missing(form, kind) => {
                write!(f, "{} is missing: `{form}` is expected", kind.name())
            }
            Fault::Wrong(word, kind) => write!(f, "`{word}` is no {kind}"),
            Fault::TooMany(word, form) => {
                write!(f, "`{word}` is a word too many: `{form}` is expected")
            }
            Fault::Other => write!(f, "the words are in no order that --help lists"),
        }
    }
}

/// What is wrong with the words behind a command's name, if it has this form.
fn fault_in<'a>(form: Form, words: &'a [String]) -> Fault<'a> {
    for (at, word) in words.iter().enumerate() {
        let word = word.as_str();
        match form.kind(at) {
            None => return Fault::TooMany(word, form),
            Some(kind) if !kind.takes(word) => return Fault::Wrong(word, kind),
            Some(_) => {}
        }
    }
    match form.next(words.len()) {
        Some(kind) => Fault::Missing(form, kind),
        None => Fault::Other,
    }
}

/// What is wrong with all the words of a command line, which no command has.
fn fault_of<'a>(words: &'a [String]) -> Fault<'a> {
    let Some((first, rest)) = words.split_first() else {
        return Fault::Nothing;
    };
    match form_of(first.as_str(), rest) {
        Some((form, rest)) => fault_in(form, rest),
        None => Fault::NoCommand(first.as_str()),
    }
}

/// Prints that the words of the command line can't be taken, and what is wrong with them. Returns
/// the status as the program's.
pub fn end_at_words<R: Eprint>(rt: &R, words: &[String]) -> ExitCode
    ensures { exit_status result ≡ 1 }
{
    end_as(rt, fault_of(words))
}

/// Prints that words behind options can't be taken, and what is wrong with them.
pub fn end_at_form<R: Eprint>(rt: &R, form: Form, words: &[String]) -> ExitCode
    ensures { exit_status result ≡ 1 }
{
    end_as(rt, fault_in(form, words))
}

fn end_as<R: Eprint>(rt: &R, fault: Fault<'_>) -> ExitCode
    ensures { exit_status result ≡ 1 }
{
    let number = Status::BadWords.number();
    let printed = eprintln!(rt; "status {number}\n{fault}");
    let _ = printed;
    ExitCode::from(number)
}
