//! Runs a script, and says of its log and replies what the laws of runs say.

ghost use Rattle.std.specs.Prelude.{◌≡◌, ◌<◌, ◌^◌, OnOk, length, false, true};
ghost use Rattle.wasi_world.specs.Contexts.{AreNumbered};
ghost use Rattle.wasi_records.specs.Closing.{HasClosedAll, HasClosedEach, IsFresh};
ghost use Rattle.wasi_run.specs.Causes.{DoneLines};
ghost use Rattle.run_laws.specs.Composed.{RunsByLaws};

use std::alloc::Global;
use wasi_run::{RunEnd, RunError, run_script};
use wasi_world::{WasiSocketsCtx, World};
use world_io::{Sink, Source};

/// Runs the script that the reader gives, as [`run_script`] does, and writes one reply per line.
///
/// Where the world reports its log, and it was empty, the laws of runs hold of it and of the
/// replies: each call is licensed, an operation asks its checks before its first call that goes
/// out, network sockets are used while they are open, a network socket takes a prefix of the bytes
/// that the lines were allowed to write to it, an operation receives on one network socket alone,
/// and for one of its streams, and datagrams are handed out in the order in which they came, and
/// none twice.
pub fn run_by_laws<W: World, S: Source, K: Sink>(
    alloc: Global,
    world: &mut W,
    contexts: &mut Vec<WasiSocketsCtx>,
    limit: u32,
    reader: &mut S,
    writer: &mut K,
) -> Result<RunEnd, RunError>
    requires open { (W.seen world.old).ended ≡ false }
    requires few { length contexts.old.items < 2 ^ 32 }
    requires numbered { AreNumbered contexts.old.items }
    ensures composed { RunsByLaws contexts.old.items limit
        (S.reading reader.old) (S.reading reader.new)
        (K.writing writer.old) (K.writing writer.new)
        (W.seen world.old) (W.seen world.new) result }
    ensures whole { OnOk result (DoneLines contexts.old.items limit
        (S.reading reader.old) (S.reading reader.new)
        (K.writing writer.old) (K.writing writer.new)
        (W.seen world.old) (W.seen world.new)) }
    ensures ended { (W.seen world.new).ended ≡ true }
    ensures closed { IsFresh (W.seen world.old) → HasClosedAll (W.seen world.new) }
    ensures each { IsFresh (W.seen world.old)
        → HasClosedEach (W.seen world.new) (W.closed world.new) }
    ensures contexts { contexts.new.items ≡ contexts.old.items }
{
    run_script(alloc, world, contexts, limit, reader, writer)
}
