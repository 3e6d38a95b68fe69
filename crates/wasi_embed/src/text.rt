//! The text of the entries of a host's log, a part at a time.

ghost use Rattle.std.specs.Prelude.{◌≡◌, ◌++◌, IfOk, OnOk, drop, string_bytes};
ghost use Rattle.wasi_replay.specs.Pieces.{entry_text, entries_text};

use std::alloc::{AllocError, Global};
use std::fmt::Write;
use wasi_world::Entry;
use world_text::EntryText;

/// The line of an entry.
fn entry_line(alloc: Global, entry: &Entry) -> Result<String, AllocError>
    ensures { IfOk result (λ line. string_bytes line ≡ entry_text entry.now) }
{
    let mut line = String::new(alloc);
    write!(line, "{}\n", EntryText(entry))?;
    Ok(line)
}

/// Appends the lines of the entries from a place on, and returns how many entries there are.
pub(crate) fn push_entries(
    alloc: Global,
    text: &mut Vec<u8>,
    entries: &[Entry],
    from: usize,
) -> Result<usize, AllocError>
    ensures { OnOk result (text.new.items ≡ text.old.items ++ entries_text
        (drop from entries.now)) }
{
    let Some(more) = entries.get(from..) else {
        return Ok(from);
    };
    for entry in more {
        let line = entry_line(alloc, entry)?;
        text.extend_from_slice(line.as_bytes())?;
    }
    Ok(entries.len())
}
