//! Reads a log that was cut.

ghost use Rattle.std.specs.Prelude.{◌≡◌, ◌<◌, ◌^◌, IfOk, IfErr, IfSome, Ok, Err, true, length};
ghost use Rattle.std.specs.List.{list_all};
ghost use Rattle.wasi_world.specs.Contexts.{AreNumbered};
ghost use Rattle.wasi_replay.specs.Log.{log_of};
ghost use Rattle.wasi_replay.specs.Cut.{whole_lines, completed};
ghost use Rattle.wasi_replay.specs.Parsed.{bad_line};
ghost use Rattle.wasi_replay.specs.Recorded.{fits_entry};

use crate::parse::{LogError, parse_log};
use std::alloc::{AllocError, Global};
use wasi_world::{Entry, WasiSocketsCtx};
use world_text::lines::newline_at;

/// The bytes up to the last newline, with it.
fn whole_lines(bytes: &[u8]) -> &[u8]
    ensures { result.now ≡ whole_lines bytes.now }
{
    let mut at = 0;
    while let Some(end) = newline_at(&bytes[at..]) {
        at += end + 1;
    }
    &bytes[..at]
}

/// The whole lines of a text, and the line `end` behind them. Takes memory for them.
fn completed(alloc: Global, bytes: &[u8]) -> Result<Vec<u8>, AllocError>
    ensures { IfOk result (λ text. text.items ≡ completed bytes.now) }
{
    let mut text = whole_lines(bytes).to_vec(alloc)?;
    text.extend_from_slice(b"end\n")?;
    Ok(text)
}

/// The contexts and the entries of a log that was cut, as by a run that was killed: those of its
/// whole lines, as if `end` stood behind them. What follows the last newline is dropped. A log that
/// has its line `end` isn't one that was cut. Takes memory for its text and for them.
pub fn parse_cut_log(
    alloc: Global,
    bytes: &[u8],
) -> Result<(Vec<WasiSocketsCtx>, Vec<Entry>), LogError>
    ensures ok { IfOk result (λ log. log_of (completed bytes.now) ≡ Ok (
      log.0.items,
      log.1.items,
    )) }
    ensures bad { IfErr result (λ e. IfSome (bad_line e) (λ n. log_of (completed bytes.now)
        ≡ Err n)) }
    ensures fits { IfOk result (λ log. list_all fits_entry log.1.items ≡ true) }
    ensures numbered { IfOk result (λ log. AreNumbered log.0.items) }
    ensures few_contexts { IfOk result (λ log. length log.0.items < 2 ^ 32) }
    ensures few_entries { IfOk result (λ log. length log.1.items < 4294967295) }
{
    let text = completed(alloc, bytes)?;
    parse_log(alloc, text.as_slice())
}
