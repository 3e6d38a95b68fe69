//! The README's host: runs a script of five guest calls over a scripted network whose check says no,
//! and prints the replies.

use wasi_run::run_script;
use world_io::{GrowingSink, MemorySource};
use world_scripted::ScriptedWorld;

/// A guest that makes an IPv4 socket, connects it to 127.0.0.1:80, and drops it.
const SCRIPT: &[u8] = b"\
0 network
0 tcp-create 4
0 tcp-start-connect 2 1 4 127 0 0 1 80
0 tcp-finish-connect 2
0 drop 2
";

/// The script may have so many bytes, and so many are read at a time.
const LIMIT: u32 = 1000;

const PIECE_SIZE: usize = 4096;

pub fn main(rt: HostRuntime) -> anyhow::Result<()> {
    let alloc = rt.alloc();
    // The guest may leave 65,536 bytes unwritten; the check says no once.
    let plan = b"context yes no no 65536\ncheck no\n";
    let (mut world, mut contexts) = ScriptedWorld::parse(alloc, plan)?;
    let mut script = MemorySource::new(SCRIPT.to_vec(alloc)?, PIECE_SIZE, Vec::new(alloc));
    let mut replies = GrowingSink::new(alloc);
    run_script(
        alloc,
        &mut world,
        &mut contexts,
        LIMIT,
        &mut script,
        &mut replies,
    )?;
    print!(rt; "{}", str::from_utf8(replies.bytes())?)?;
    Ok(())
}
