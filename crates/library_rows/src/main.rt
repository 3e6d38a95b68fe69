//! The program `library_rows`: runs cases of the small libraries, and prints what comes of each.
//!
//! Its `stdin` and `stdout` are tests: what is printed was worked out from the rules. A case is some
//! lines and an empty one. `# ` begins the line that says what it shows, `$ ` the words, of which the
//! first is one of the subjects below. [`row_cases`] has the other lines.
//!
//! A subject adds to one text, so that nothing has to be dropped where memory runs out: each value
//! that is dropped there is a call to prove.
#![tactic(auto)]

mod addresses;
mod logs;
mod names;
mod standard;
mod streams;
mod tables;
mod worlds;

use crate::streams::are_moved_to_threads;
use row_cases::Case;
use std::alloc::{AllocError, Global};
use std::io::{BufRead, BufReader};

/// Adds what comes of a case.
fn report(text: &mut String, alloc: Global, case: &Case) -> Result<(), AllocError> {
    match case.word(0) {
        "names" => names::names(text, alloc, case),
        "log" => logs::log(text, alloc, case),
        "scenario" => worlds::scenario(text, alloc, case),
        "world" => worlds::world(text, alloc, case),
        "source" => streams::source(text, alloc, case),
        "sink" => streams::sink(text, alloc, case),
        "flushes" => streams::flushes(text, alloc, case),
        "devices" => standard::devices(text),
        "codes" => addresses::codes(text),
        "addresses" => addresses::addresses(text),
        "table" => tables::table(text, alloc, case),
        _ => text.push_str("no subject\n"),
    }
}

fn main(rt: HostRuntime) -> anyhow::Result<()> {
    let alloc = rt.alloc();
    let mut case = Case::new(alloc);
    let mut text = String::new(alloc);
    for line in BufReader::new(alloc, rt.reader())?.lines(alloc) {
        let line = line?;
        let line = line.as_str();
        if line.starts_with("# ") {
            println!(rt; "{line}")?;
        } else if line.is_empty() {
            report(&mut text, alloc, &case)?;
            println!(rt; "{text}")?;
            text.clear();
            case = Case::new(alloc);
        } else {
            case.add(alloc, line)?;
        }
    }
    are_moved_to_threads();
    standard::streams(&rt, &mut text)?;
    print!(rt; "{text}")?;
    Ok(())
}
