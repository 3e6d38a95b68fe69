//! Reads a line of a log: a context, an entry, or the end.

ghost use Rattle.std.specs.Prelude.{◌≡◌, IfOk};
ghost use Rattle.world_text.specs.Fields.{Reads};
ghost use Rattle.wasi_replay.specs.Log.{equals_at, if_fits, entry_at, entry_in, line_in};
ghost use Rattle.wasi_replay.specs.Log.{allowed_at, context_in};

use crate::call::call;
use crate::entry::fits;
use crate::fields::sock;
use crate::told::told;
use std::alloc::{AllocError, Global};
use wasi_world::{Entry, WasiSocketsCtx};
use world_scripted::scenario::yes_or_no;
use world_text::Fields;

/// What a line of a log is.
#[derive(Drop)]
pub enum Line {
    /// `context T U K L`: a context, whether it may use TCP, UDP and name lookup, and its limit on
    /// unwritten bytes.
    Context(WasiSocketsCtx),
    /// `STEP PART CALL = ANSWER`: an entry.
    Entry(Entry),
    /// `end`: the last line.
    End,
}

/// Takes the sign between a call and its answer.
#[tactic(auto, unfolding(crate::specs::Log::equals_at, world_text::specs::Fields::read_then, world_text::specs::Fields::give))]
fn equals(fields: &mut Fields<'_>) -> Option<()>
    ensures { Reads equals_at fields.old result fields.new }
{
    match fields.word()? {
        "=" => Some(()),
        _ => None,
    }
}

/// The entry, if its answer fits its call.
fn if_fits(entry: Entry) -> Option<Entry>
    ensures { result ≡ if_fits entry }
{
    if fits(&entry) { Some(entry) } else { None }
}

/// Takes an entry.
#[tactic(auto, unfolding(crate::specs::Log::entry_at, world_text::specs::Fields::read_then, world_text::specs::Fields::give_some))]
fn entry_fields(alloc: Global, fields: &mut Fields<'_>) -> Result<Option<Entry>, AllocError>
    ensures { IfOk result (λ entry. Reads entry_at fields.old entry fields.new) }
{
    let Some(op) = sock(fields) else {
        return Ok(None);
    };
    let Some(call) = call(alloc, fields)? else {
        return Ok(None);
    };
    let Some(()) = equals(fields) else {
        return Ok(None);
    };
    let Some(answer) = told(alloc, fields)? else {
        return Ok(None);
    };
    Ok(if_fits(Entry { op, call, answer }))
}

/// The entry that a line is; none exactly where it isn't one.
#[tactic(auto, unfolding(crate::specs::Log::entry_in))]
fn parse_entry(alloc: Global, line: &[u8]) -> Result<Option<Entry>, AllocError>
    ensures { IfOk result (λ entry. entry ≡ entry_in line.now) }
{
    let mut fields = Fields::of(line);
    let entry = entry_fields(alloc, &mut fields)?;
    Ok(if fields.is_done() { entry } else { None })
}

/// Takes what is written of the context with this number.
#[tactic(auto, unfolding(crate::specs::Log::allowed_at, world_text::specs::Fields::read_then, world_text::specs::Fields::give))]
fn allowed(fields: &mut Fields<'_>, number: u32) -> Option<WasiSocketsCtx>
    ensures { Reads (allowed_at number) fields.old result fields.new }
{
    let tcp = yes_or_no(fields)?;
    let udp = yes_or_no(fields)?;
    let ip_name_lookup = yes_or_no(fields)?;
    let write_limit = fields.number(u64::MAX)?;
    Some(WasiSocketsCtx {
        name: number,
        ip_name_lookup,
        udp,
        tcp,
        write_limit,
    })
}

/// The context that a line is, with this number; none exactly where it isn't one.
#[tactic(auto, unfolding(crate::specs::Log::context_in, crate::specs::Log::context_at, world_text::specs::Fields::read_then))]
fn context(line: &[u8], number: u32) -> Option<WasiSocketsCtx>
    ensures { result ≡ context_in number line.now }
{
    let mut fields = Fields::of(line);
    match fields.word()? {
        "context" => {
            let context = allowed(&mut fields, number)?;
            if fields.is_done() {
                Some(context)
            } else {
                None
            }
        }
        _ => None,
    }
}

/// What a line is, without its newline, where so many contexts came before it; none exactly where
/// it isn't in the grammar. Takes memory for the bytes and names of an entry.
#[tactic(auto, unfolding(crate::specs::Log::line_in))]
pub fn parse_line(alloc: Global, line: &[u8], contexts: u32) -> Result<Option<Line>, AllocError>
    ensures { IfOk result (λ read. read ≡ line_in contexts line.now) }
{
    if line == b"end".as_slice() {
        return Ok(Some(Line::End));
    }
    if let Some(context) = context(line, contexts) {
        return Ok(Some(Line::Context(context)));
    }
    match parse_entry(alloc, line)? {
        Some(entry) => Ok(Some(Line::Entry(entry))),
        None => Ok(None),
    }
}
