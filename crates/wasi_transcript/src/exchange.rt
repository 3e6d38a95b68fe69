//! One line of a script with the calls that it makes and its reply, as text.

ghost use Rattle.std.specs.Prelude.{◌≡◌, ◌++◌, ◌+◌, ◌<◌, ◌^◌, IfOk, OnOk, string_bytes, length};
ghost use Rattle.std.specs.Prelude.{true, false};
ghost use Rattle.world_scripted.specs.Scripted.{seen_by};
ghost use Rattle.host_store.specs.KnownSides.{KnowsSides};
ghost use Rattle.wasi_transcript.specs.Transcript.{line_text, calls_text, answered_text};
ghost use Rattle.wasi_transcript.specs.Transcript.{no_step_text};
ghost use Rattle.wasi_transcript.specs.Done.{LineDone};

use std::alloc::{AllocError, Global};
use std::fmt::Write;
use wasi_calls::Progress;
use wasi_steps::Reply;
use wasi_steps::parse::parse_step;
use wasi_steps::reply::reply_text;
use wasi_world::{Entry, WasiSocketsCtx};
use world_scripted::ScriptedWorld;
use world_text::EntryText;

/// What became of a line, with its part of the transcript.
#[derive(Drop)]
pub enum LineEnd {
    /// The step was done, and the script goes on.
    Answered(Vec<u8>),
    /// The step trapped, which ends the run.
    Trapped(Vec<u8>),
    /// The line is no step of one of the contexts.
    NoStep,
}

/// Appends the calls, each on a line of its own.
fn push_calls(text: &mut String, calls: &[Entry]) -> Result<(), AllocError>
    ensures { OnOk result (string_bytes text.new ≡ string_bytes text.old ++ calls_text calls.now) }
{
    for call in calls {
        write!(text, "    {}\n", EntryText(call))?;
    }
    Ok(())
}

/// Appends a line of a script, behind `> `.
fn push_line(text: &mut Vec<u8>, line: &[u8]) -> Result<(), AllocError>
    ensures { OnOk result (text.new.items ≡ text.old.items ++ line_text line.now) }
{
    text.extend_from_slice(b"> ")?;
    text.extend_from_slice(line)?;
    text.extend_from_slice(b"\n")
}

/// The text of a line, its calls and its reply.
fn answered_text(
    alloc: Global,
    line: &[u8],
    calls: &[Entry],
    reply: Reply,
) -> Result<Vec<u8>, AllocError>
    ensures { IfOk result (λ text. text.items ≡ answered_text line.now calls.now reply) }
{
    let mut shown = String::new(alloc);
    push_calls(&mut shown, calls)?;
    let reply = reply_text(alloc, &reply)?;
    let mut text = Vec::new(alloc);
    push_line(&mut text, line)?;
    text.extend_from_slice(shown.as_bytes())?;
    text.extend_from_slice(reply.as_slice())?;
    Ok(text)
}

/// The text of a line that is no step.
pub fn no_step_text(alloc: Global, line: &[u8]) -> Result<Vec<u8>, AllocError>
    ensures { IfOk result (λ text. text.items ≡ no_step_text line.now) }
{
    let mut text = Vec::new(alloc);
    push_line(&mut text, line)?;
    text.extend_from_slice(b"no step\n")?;
    Ok(text)
}

/// Does the next line of a script, and gives its part of the transcript. Takes memory for that and
/// for what the step makes.
pub fn do_line(
    alloc: Global,
    progress: &mut Progress,
    world: &mut ScriptedWorld,
    contexts: &[WasiSocketsCtx],
    line: &[u8],
) -> Result<LineEnd, AllocError>
    requires open { (seen_by world.old).ended ≡ false }
    requires few { length contexts.now < 2 ^ 32 }
    requires numbers { progress.old.lines + 1 < 2 ^ 32 }
    ensures done { LineDone contexts.now progress.old progress.new line.now (seen_by world.old)
        (seen_by world.new) result }
    ensures sides { KnowsSides (seen_by world.old) progress.old.machine.store
        → KnowsSides (seen_by world.new) progress.new.machine.store }
    ensures open { (seen_by world.new).ended ≡ false }
{
    let Some(step) = parse_step(alloc, line, contexts.len() as u32)? else {
        return Ok(LineEnd::NoStep);
    };
    let before = world.entries().len();
    let reply = progress.step(alloc, world, contexts, step)?;
    let trapped = reply.is_trap();
    let text = answered_text(alloc, line, &world.entries()[before..], reply)?;
    if trapped {
        return Ok(LineEnd::Trapped(text));
    }
    Ok(LineEnd::Answered(text))
}
