//! The run of a generated script over the empty scenario, and its counts.

ghost use Rattle.std.specs.Prelude.{◌≡◌, min, IfOk, length, string_bytes, sum_by};
ghost use Rattle.world_text.specs.Lines.{lines_of};
ghost use Rattle.drawn_scripts.specs.Counted.{took_count, taken_bytes, CountsRun, IsOwn, summary};

use crate::drawn::Drawn;
use crate::generate::generate;
use crate::text_source::TextSource;
use std::alloc::{AllocError, Global};
use std::fmt::Write;
use wasi_run::{RunEnd, RunError, run_script};
use wasi_world::{Entry, Told, WasiSocketsCtx};
use world_io::GrowingSink;
use world_scripted::{Lists, ScriptedWorld};

/// The context of a scenario that has no line about contexts.
const FREE: WasiSocketsCtx = WasiSocketsCtx {
    name: 0,
    ip_name_lookup: true,
    udp: true,
    tcp: true,
    write_limit: u64::MAX,
};

/// What a run did, in numbers. It prints as the line that a program shows.
#[derive(Clone, Copy, Debug, PartialEq, Eq)]
pub struct Counts {
    /// How many lines the script has.
    pub lines: u64,
    /// How many lines of replies were written.
    pub replies: u64,
    /// How many entries the log has.
    pub entries: u64,
    /// How many bytes writes took, up to the greatest `u64`.
    pub bytes: u64,
}

/// How many lines a text has that newlines end.
fn count_lines(text: &[u8]) -> u64
    ensures { result ≡ length (lines_of text.now) }
{
    let mut lines: u64 = 0;
    for byte in text {
        if *byte == b'\n' {
            lines += 1;
        }
    }
    lines
}

/// How many bytes an answer took.
fn took_count(told: &Told) -> u64
    ensures { result ≡ took_count told.now }
{
    match told {
        Told::Took(bytes) => bytes.len() as u64,
        _ => 0,
    }
}

/// How many bytes the answers of a log took.
fn taken_bytes(log: &[Entry]) -> u64
    ensures { result ≡ min (taken_bytes log.now) 18446744073709551615 }
{
    let mut taken: u64 = 0;
    for entry in log {
        taken = taken.saturating_add(took_count(&entry.answer));
    }
    taken
}

/// A run of a generated script ends with no other error than out of memory: its lines are steps,
/// its source doesn't fail, and its sink only for lack of it.
fn no_memory(error: RunError) -> AllocError
    requires { IsOwn error }
{
    match error {
        RunError::Memory | RunError::WriteFault => AllocError,
        _ => unreachable!(),
    }
}

/// Runs the script of this many lines that is generated from the seed, over the empty scenario, and
/// counts what it did. Takes memory for the script, its replies and its log. Out of memory, also
/// for a script longer than 4,294,967,295 bytes.
pub fn run_generated(
    alloc: Global,
    kind: Drawn,
    seed: u64,
    steps: u32,
) -> Result<Counts, AllocError>
    ensures { IfOk result (λ counts. CountsRun kind seed steps counts) }
{
    let script = generate(alloc, kind, seed, steps)?;
    let lines = count_lines(script.as_slice());
    let Ok(limit) = u32::try_from(script.len()) else {
        return Err(AllocError);
    };
    let mut world = ScriptedWorld::new(alloc, Lists::new(alloc)?);
    let mut contexts = vec![in alloc; FREE]?;
    let mut source = TextSource::new(script);
    let mut sink = GrowingSink::new(alloc);
    match run_script(
        alloc,
        &mut world,
        &mut contexts,
        limit,
        &mut source,
        &mut sink,
    ) {
        Ok(RunEnd::AllRead | RunEnd::Trapped) => {}
        Err(error) => return Err(no_memory(error)),
    }
    let log = world.into_entries();
    Ok(Counts {
        lines,
        replies: count_lines(sink.bytes()),
        entries: log.len() as u64,
        bytes: taken_bytes(log.as_slice()),
    })
}

impl Counts {
    /// The line that reports the counts, with its newline. Takes memory for it.
    pub fn summary(&self, alloc: Global) -> Result<String, AllocError>
        ensures { IfOk result (λ text. string_bytes text ≡ summary self.now) }
    {
        let mut text = String::new(alloc);
        write!(
            text,
            "lines {} replies {} entries {} bytes {}\n",
            self.lines, self.replies, self.entries, self.bytes
        )?;
        Ok(text)
    }
}
