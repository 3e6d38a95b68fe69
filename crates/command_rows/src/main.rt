//! The program `command_rows`: runs cases of the commands, of scripts and of the host's calls, and
//! prints what comes of each.
//!
//! Its `stdin` and `stdout` are tests: what is printed was worked out from the rules. A case is some
//! lines and an empty one. `# ` begins the line that says what it shows, `$ ` the words: those of
//! the program's commands, or of one of the subjects below. [`row_cases`] has the other lines.
//!
//! A subject adds to one text, so that nothing has to be dropped where memory runs out: each value
//! that is dropped there is a call to prove.
#![tactic(auto)]

mod commands;
mod guest;
mod options;
mod scripts;
mod texts;
mod tries;

use row_cases::Case;
use std::alloc::{AllocError, Global};
use std::io::{BufRead, BufReader};
use std::sync::Wait;
use std::thread::Threads;

/// Adds what comes of a case. Words that begin as none below are those of `run_main`.
fn report<R: Threads + Wait + Copy + Send + 'static>(
    rt: &R,
    text: &mut String,
    alloc: Global,
    case: &mut Case,
) -> Result<(), AllocError> {
    match case.word(0) {
        "policy" => commands::policy(text, alloc, case),
        "relay" | "--live" => commands::relay(text, alloc, case),
        "record" | "replay" | "draw" => commands::recorder(text, alloc, case),
        "check" => commands::check(text, alloc, case),
        "line" => texts::line(text, alloc, case),
        "drawn" => texts::drawn(text, alloc, case),
        "replies" => texts::replies(text, alloc),
        "options" => options::options(text, alloc, case),
        "views" => options::views(text, alloc, case),
        _ => scripts::run(rt, text, alloc, case),
    }
}

/// Adds what comes of a case for each size of its pieces, once where it is the same.
fn report_each<R: Threads + Wait + Copy + Send + 'static>(
    rt: &R,
    text: &mut String,
    alloc: Global,
    case: &mut Case,
) -> Result<(), AllocError> {
    let mut before = String::new(alloc);
    for _ in 0..case.pieces.len().max(1) {
        let mut now = String::new(alloc);
        report(rt, &mut now, alloc, case)?;
        if now != before {
            text.push_str(now.as_str())?;
            before = now;
        }
        case.drop_piece();
    }
    Ok(())
}

fn main(rt: HostRuntime) -> anyhow::Result<()> {
    let alloc = rt.alloc();
    let mut case = Case::new(alloc);
    let mut text = String::new(alloc);
    for line in BufReader::new(alloc, rt.reader())?.lines(alloc) {
        let line = line?;
        let line = line.as_str();
        if line.starts_with("# ") {
            println!(rt; "{line}")?;
        } else if line.is_empty() {
            report_each(&rt, &mut text, alloc, &mut case)?;
            println!(rt; "{text}")?;
            text.clear();
            case = Case::new(alloc);
        } else {
            case.add(alloc, line)?;
        }
    }
    Ok(())
}
