//! What is wrong with the options of `live`.

ghost use Rattle.std.specs.Prelude.{◌≡◌};
ghost use Rattle.std.specs.Process.{exit_status};

use live_commands::Options;
use std::fmt::{self, Display, Formatter, Write};
use std::process::ExitCode;
use wasi_program::Status;

/// The option that stands behind a log.
const FORCE: &str = "--force";

/// The options, in the order in which they stand.
const OPTIONS: [&str; 6] = [
    "--any-address",
    "--wait",
    "--hosts",
    "--policy",
    "--record",
    FORCE,
];

/// Those that have a file behind them.
const WITH_FILE: [&str; 3] = ["--hosts", "--policy", "--record"];

/// What is wrong.
#[derive(Clone, Copy)]
pub enum OptionFault<'a> {
    /// There is no such option.
    Unknown(&'a str),
    /// It has no file behind it.
    NoFile(&'a str),
    /// It stands behind one that it has to stand before, or twice.
    Order(&'a str),
    /// `--force` stands without a log.
    NoLog,
}

impl Display for OptionFault<'_> {
    fn fmt<W: Write>(&self, f: &mut Formatter<W>) -> fmt::Result {
        match self {
            OptionFault::Unknown(word) => write!(f, "`{word}` is no option of live"),
            OptionFault::NoFile(word) => write!(f, "a file is missing behind `{word}`"),
            OptionFault::Order(word) => {
                write!(
                    f,
                    "`{word}` stands too late: the options stand once each, in the order --any-address, --wait, --hosts HOSTS, --policy RULES, --record LOG, --force"
                )
            }
            OptionFault::NoLog => write!(f, "`--record LOG` is missing in front of `--force`"),
        }
    }
}

/// What is wrong with the options, behind which these words are left.
pub fn option_fault<'a>(options: Options<'a>, words: &'a [String]) -> Option<OptionFault<'a>> {
    let Some((first, rest)) = words.split_first() else {
        return None;
    };
    let word = first.as_str();
    if !word.starts_with("--") {
        return None;
    }
    if !OPTIONS.iter().any(|option| *option == word) {
        return Some(OptionFault::Unknown(word));
    }
    if word == FORCE && options.log.is_none() {
        return Some(OptionFault::NoLog);
    }
    if rest.is_empty() && WITH_FILE.iter().any(|option| *option == word) {
        Some(OptionFault::NoFile(word))
    } else {
        Some(OptionFault::Order(word))
    }
}

/// Prints that the options can't be taken, and what is wrong with them. Returns the status as the
/// program's.
pub fn end_at_option<R: Eprint>(rt: &R, fault: OptionFault<'_>) -> ExitCode
    ensures { exit_status result ≡ 1 }
{
    let number = Status::BadWords.number();
    let printed = eprintln!(rt; "status {number}\n{fault}");
    let _ = printed;
    ExitCode::from(number)
}
