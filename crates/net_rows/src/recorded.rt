//! A script that connects to itself over a loopback address, recorded, and replayed with no network.

use crate::scripts::{contexts, gives, loopback};
use std::alloc::Global;
use std::test::Fail;
use wasi_recorder::{ReplayEnd, replay};
use wasi_replay::{RecordingWorld, log_text, parse_log};
use wasi_run::RunEnd;
use wasi_world::Octets;
use world_io::{MemorySink, MemorySource};

/// Binds and listens, is refused a port that isn't allowed, connects, accepts, writes and reads.
const SCRIPT: &[u8] =
    b"0 network\n0 tcp-create 4\n0 tcp-create 4\n0 tcp-start-bind 2 1 4 10 0 0 1 20130\n0 tcp-start-bind 2 1 4 127 77 31 5 20130\n0 tcp-finish-bind 2\n0 tcp-start-listen 2\n0 tcp-finish-listen 2\n0 tcp-start-connect 3 1 4 127 77 31 5 20130\n0 tcp-finish-connect 3\n0 tcp-accept 2\n0 check-write 5\n0 write 5 68656c6c6f\n0 subscribe 7\n0 ready 9\n0 read 7 9\n";

const REPLIES: &[u8] =
    b"ok 1\nok 2\nok 3\nerr access-denied\nok\nok\nok\nok\nok\nok 4 5\nok 6 7 8\nok 65536\nok\nok 9\nok true\nok 68656c6c6f\n";

/// Runs the script over the system's sockets, fails where it writes other replies, and returns the
/// text of the run's log.
fn record(rt: &HostRuntime) -> Result<Octets, Fail> {
    let alloc = rt.alloc();
    let mut world = RecordingWorld::new(alloc, loopback(rt, alloc));
    gives(alloc, &mut world, SCRIPT, REPLIES)?;
    let contexts = contexts(alloc)?;
    Ok(log_text(alloc, contexts.as_slice(), world.entries())?)
}

/// Runs the script on the answers of a log, and fails where it asks something else or writes other
/// replies.
fn replays(alloc: Global, log: &[u8]) -> Result<(), Fail> {
    let Ok((mut contexts, entries)) = parse_log(alloc, log) else {
        return Err(Fail::new("it isn't a log"));
    };
    let mut source = MemorySource::new(SCRIPT.to_vec(alloc)?, 4096, Vec::new(alloc));
    let mut sink = MemorySink::new(alloc, 4096, 4096, Vec::new(alloc))?;
    let ended = replay(alloc, entries, &mut contexts, 4096, &mut source, &mut sink);
    if sink.bytes() != REPLIES || !matches!(ended, Ok(ReplayEnd::Same(RunEnd::AllRead))) {
        return Err(Fail::new("the replay differs"));
    }
    Ok(())
}

#[test]
fn a_recorded_connection_is_replayed(rt: HostRuntime) -> Result<(), Fail> {
    let log = record(&rt)?;
    replays(rt.alloc(), log.as_slice())
}
