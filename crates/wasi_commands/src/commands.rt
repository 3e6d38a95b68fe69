//! What the words `run`, `pump`, `gen` and `gen3` ask for.

ghost use Rattle.std.specs.Prelude.{◌≡◌, map, string_bytes};
ghost use Rattle.wasi_commands.specs.Commands.{run_in, pump_in, limited_in, drawn_in};
ghost use Rattle.wasi_commands.specs.Commands.{generate_in, command_in};

use drawn_scripts::drawn::Drawn;
use world_text::fields::number;

/// The most lines that a script is generated with.
const MOST_STEPS: u64 = 100_000;

/// What the words ask for.
#[derive(Clone, Copy, Debug, PartialEq, Eq)]
pub enum Command {
    /// `run LIMIT`: a script of at most so many bytes.
    Run(u32),
    /// `pump BUDGET`: the source's bytes go to the sink, by streams with this budget.
    Pump(u32),
    /// `gen SEED STEPS`: a script of calls of 0.2 that is generated from a seed, of so many lines;
    /// `gen3 SEED STEPS`: one of calls of both generations.
    Generate(Drawn, u64, u32),
}

/// The limit of `run LIMIT`.
fn run_in(word: &str, limit: &str) -> Option<Command>
    ensures { result ≡ run_in word.now limit.now }
{
    if word != "run" {
        return None;
    }
    let limit = number(limit.as_bytes(), u64::from(u32::MAX))?;
    Some(Command::Run(limit as u32))
}

/// The budget of `pump BUDGET`.
fn pump_in(word: &str, budget: &str) -> Option<Command>
    ensures { result ≡ pump_in word.now budget.now }
{
    if word != "pump" {
        return None;
    }
    let budget = number(budget.as_bytes(), u64::from(u32::MAX))?;
    Some(Command::Pump(budget as u32))
}

/// A command of two words.
fn limited_in(word: &str, most: &str) -> Option<Command>
    ensures { result ≡ limited_in word.now most.now }
{
    if word == "run" {
        run_in(word, most)
    } else {
        pump_in(word, most)
    }
}

/// Which calls the word has drawn.
fn drawn_in(word: &str) -> Option<Drawn>
    ensures { result ≡ drawn_in word.now }
{
    if word == "gen" {
        return Some(Drawn::OfTwo);
    }
    if word == "gen3" {
        return Some(Drawn::OfBoth);
    }
    None
}

/// The calls, the seed and the number of lines of `gen SEED STEPS`, or of `gen3`.
fn generate_in(word: &str, seed: &str, steps: &str) -> Option<Command>
    ensures { result ≡ generate_in word.now seed.now steps.now }
{
    let kind = drawn_in(word)?;
    let seed = number(seed.as_bytes(), u64::MAX)?;
    let steps = number(steps.as_bytes(), MOST_STEPS)?;
    Some(Command::Generate(kind, seed, steps as u32))
}

/// The command in the words.
pub fn command_in(words: &[String]) -> Option<Command>
    ensures { result ≡ command_in (map (λ w. string_bytes w) words.now) }
{
    match words {
        [word, most] => limited_in(word.as_str(), most.as_str()),
        [word, seed, steps] => generate_in(word.as_str(), seed.as_str(), steps.as_str()),
        _ => None,
    }
}
