//! What the program does with its words.

ghost use Rattle.std.specs.Prelude.{map, string_bytes};
ghost use Rattle.relay_commands.specs.Ends.{RanMain};

use crate::scripted::{Ended, relay_scenario};
use crate::words::scripted_in;
use std::alloc::Global;
use wasi_program::Status;
use wasi_world::Entry;
use world_io::{Sink, Source};

/// What the program gives back. `line` is the bad line of status 2, counted from 1, else 0. `log`
/// is the log of the relay, and empty where none began.
#[derive(Drop)]
pub struct RelayMain<K> {
    pub status: u8,
    pub line: u32,
    pub log: Vec<Entry>,
    pub sink: K,
}

/// Does what the program's words say: `relay LISTENPORT TARGETPORT CONNECTIONS TURNS` listens on a
/// port of 127.0.0.1, connects so many arrivals to the other port, and copies both ways, over the
/// network that the scenario plans, in at most so many turns. Writes a line for each pair, in order
/// of arrival: `pair K up WORD N down WORD N`, with what became of each direction and how many
/// bytes were written. Other words are status 1, a refused call of the setup is status 18, turns
/// that ran out are status 19, and an arrival that had no pair is status 26.
///
/// The words are tested first. A write that fails is status 6 before 18, 19 and 26. Takes memory for
/// the scenario, for its plan, for each pair and for what the relay takes.
pub fn relay_main<C: Source, K: Sink>(
    alloc: Global,
    words: &[String],
    scenario: &mut C,
    mut sink: K,
) -> RelayMain<K>
    ensures ran { RanMain (map (λ w. string_bytes w) words.now) (C.reading scenario.old)
        (C.reading scenario.new) (K.writing sink) (K.writing result.sink) result.log.items
        result.line result.status }
{
    let ended = match scripted_in(words) {
        None => Ended::without_relay(alloc, Status::BadWords, 0),
        Some(order) => relay_scenario(alloc, order, scenario, &mut sink),
    };
    RelayMain {
        status: ended.status.number(),
        line: ended.line,
        log: ended.log,
        sink,
    }
}
