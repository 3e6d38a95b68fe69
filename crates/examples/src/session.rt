//! A host that makes a guest's calls through a session, over a network of its own, and prints each
//! reply and then the log.

use crate::guest::{guest_calls, run_guest};
use crate::memory::MemoryNetwork;
use wasi_steps::reply::reply_text;
use wasi_world::WasiSocketsCtx;
use world_text::EntryText;

/// The port that the check allows to connect to.
const ALLOWED: u16 = 80;

pub fn main(rt: HostRuntime) -> anyhow::Result<()> {
    let alloc = rt.alloc();
    let mut contexts = Vec::new(alloc);
    contexts.push(WasiSocketsCtx {
        name: 0,
        ip_name_lookup: false,
        udp: false,
        tcp: true,
        write_limit: u64::MAX,
    })?;
    let mut replies = Vec::new(alloc);
    let world = run_guest(
        alloc,
        MemoryNetwork::new(alloc, ALLOWED),
        contexts,
        guest_calls(alloc)?,
        &mut replies,
    );
    for reply in &replies {
        let text = reply_text(alloc, reply)?;
        print!(rt; "{}", str::from_utf8(text.as_slice())?)?;
    }
    for entry in world.entries() {
        println!(rt; "{}", EntryText(entry))?;
    }
    Ok(())
}
