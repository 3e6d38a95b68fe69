//! The lines that are written of pairs.

ghost use Rattle.std.specs.Prelude.{◌≡◌, ◌++◌, IfOk, OnOk, string_bytes};
ghost use Rattle.relay_commands.specs.PairLines.{end_word, flow_text, pair_line, pair_lines};

use std::alloc::{AllocError, Global};
use std::fmt::Write;
use wasi_relay::{DirEnd, Flow, Pair};

/// The word of what became of a direction.
fn end_word(end: DirEnd) -> &'static str
    ensures { result.now ≡ end_word end }
{
    match end {
        DirEnd::Open => "open",
        DirEnd::Clean => "clean",
        DirEnd::Broken => "broken",
    }
}

/// Adds what became of a direction, and how many bytes were written.
fn add_flow(text: &mut String, flow: &Flow) -> Result<(), AllocError>
    ensures { OnOk result (string_bytes text.new ≡ string_bytes text.old ++ flow_text flow.now) }
{
    text.push_str(end_word(flow.end))?;
    write!(text, " {}", flow.bytes)?;
    Ok(())
}

/// Adds `pair K up WORD N down WORD N`, with its newline.
fn add_line(text: &mut String, number: usize, pair: &Pair) -> Result<(), AllocError>
    ensures { OnOk result (string_bytes text.new
        ≡ string_bytes text.old ++ pair_line number pair.now) }
{
    write!(text, "pair {number} up ")?;
    add_flow(text, &pair.up)?;
    text.push_str(" down ")?;
    add_flow(text, &pair.down)?;
    text.push_str("\n")
}

/// The lines of pairs, in order of arrival, counted from 1. Takes memory for them.
pub fn pair_lines(alloc: Global, pairs: &[Pair]) -> Result<String, AllocError>
    ensures { IfOk result (λ text. string_bytes text ≡ pair_lines pairs.now) }
{
    let mut text = String::new(alloc);
    for (place, pair) in pairs.iter().enumerate() {
        add_line(&mut text, place + 1, pair)?;
    }
    Ok(text)
}
