//! Writes a log.

ghost use Rattle.std.specs.Prelude.{◌≡◌, ◌++◌, IfOk, OnOk, string_bytes};
ghost use Rattle.wasi_replay.specs.Log.{allowed_text, log_text};
ghost use Rattle.wasi_replay.specs.Pieces.{context_text, contexts_text, entry_text, entries_text};
ghost use Rattle.wasi_replay.specs.Pieces.{pieces};

use std::alloc::{AllocError, Global};
use std::fmt::Write;
use wasi_world::{Entry, Octets, WasiSocketsCtx};
use world_text::EntryText;

/// Whether something is allowed, as `yes` or `no`.
fn allowed_word(allowed: bool) -> &'static str
    ensures { result.now ≡ allowed_text allowed }
{
    if allowed { "yes" } else { "no" }
}

/// Appends the line of a context.
fn push_context(text: &mut String, context: &WasiSocketsCtx) -> Result<(), AllocError>
    ensures { OnOk result (string_bytes text.new ≡ string_bytes text.old ++ context_text
        context.now) }
{
    let tcp = allowed_word(context.tcp);
    let udp = allowed_word(context.udp);
    let lookup = allowed_word(context.ip_name_lookup);
    let limit = context.write_limit;
    write!(text, "context {tcp} {udp} {lookup} {limit}\n")
}

/// Appends the lines of contexts.
fn push_contexts(text: &mut String, contexts: &[WasiSocketsCtx]) -> Result<(), AllocError>
    ensures { OnOk result (string_bytes text.new ≡ string_bytes text.old ++ contexts_text
        contexts.now) }
{
    for context in contexts {
        push_context(text, context)?;
    }
    Ok(())
}

/// The lines of a log's contexts, which stand before those of its entries. Takes memory for them.
pub fn contexts_text(alloc: Global, contexts: &[WasiSocketsCtx]) -> Result<Vec<u8>, AllocError>
    ensures { IfOk result (λ text. text.items ≡ contexts_text contexts.now) }
{
    let mut text = String::new(alloc);
    push_contexts(&mut text, contexts)?;
    Ok(text.into_bytes())
}

/// Appends the line of an entry.
fn push_entry(text: &mut String, entry: &Entry) -> Result<(), AllocError>
    ensures { OnOk result (string_bytes text.new ≡ string_bytes text.old ++ entry_text entry.now) }
{
    write!(text, "{}\n", EntryText(entry))
}

/// Appends the lines of entries.
fn push_entries(text: &mut String, log: &[Entry]) -> Result<(), AllocError>
    ensures { OnOk result (string_bytes text.new ≡ string_bytes text.old ++ entries_text log.now) }
{
    for entry in log {
        push_entry(text, entry)?;
    }
    Ok(())
}

/// The lines of some of a log's entries, one after another. Takes memory for them.
pub fn entries_text(alloc: Global, log: &[Entry]) -> Result<Vec<u8>, AllocError>
    ensures { IfOk result (λ text. text.items ≡ entries_text log.now) }
{
    let mut text = String::new(alloc);
    push_entries(&mut text, log)?;
    Ok(text.into_bytes())
}

/// Writes the pieces of a log's text, one after another.
fn write_log(
    alloc: Global,
    contexts: &[WasiSocketsCtx],
    log: &[Entry],
) -> Result<Octets, AllocError>
    ensures { IfOk result (λ text. text ≡ pieces contexts.now log.now) }
{
    let mut text = String::new(alloc);
    push_contexts(&mut text, contexts)?;
    push_entries(&mut text, log)?;
    text.push_str("end\n")?;
    Ok(Octets::from_vec(text.into_bytes()))
}

/// The text of a log: a line for each context, a line for each entry, and the line `end`. Takes
/// memory for it.
///
/// [`crate::parse_log`] gives the contexts and the entries back where there is a context, each has
/// its place as its name, each entry's answer fits its call ([`crate::fits`]), and the text has no
/// more than 4,294,967,294 bytes.
pub fn log_text(
    alloc: Global,
    contexts: &[WasiSocketsCtx],
    log: &[Entry],
) -> Result<Octets, AllocError>
    ensures { IfOk result (λ text. text ≡ log_text contexts.now log.now) }
{
    write_log(alloc, contexts, log)
}
