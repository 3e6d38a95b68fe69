//! Times parts of the library: `policy FAMILY COUNT`, where FAMILY is 4 or 6, and `stream ROUNDS`.
//! With no words it does nothing.
#![tactic(auto)]

mod policy;
mod stream;

use anyhow::bail;
use std::env;

fn main(rt: HostRuntime) -> anyhow::Result<()> {
    let mut words = env::args(&rt)?.skip(1);
    let Some(bench) = words.next() else {
        return Ok(());
    };
    match (bench.as_str(), words.next(), words.next()) {
        ("policy", Some(family), Some(count)) => {
            policy::run(rt, family.as_str() == "6", count.parse::<u32>()?)
        }
        ("stream", Some(rounds), None) => stream::run(rt, rt, rounds.parse::<u32>()?),
        _ => bail!("the words are none of `policy FAMILY COUNT` and `stream ROUNDS`"),
    }
}
