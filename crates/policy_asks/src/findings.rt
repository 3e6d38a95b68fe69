//! Writes what is odd about rules.

ghost use Rattle.std.specs.Prelude.{◌≡◌, ◌++◌, ◌+◌, ◌-◌, IfOk, OnOk, string_bytes, take, length};
ghost use Rattle.wasi_policy.specs.declared.findings.Conflicts.{Conflicts};
ghost use Rattle.policy_asks.specs.Findings.{unmatched_text, shadowed_text, overlaps_text};
ghost use Rattle.policy_asks.specs.Findings.{rest_text, listed_text, findings_text, total};
ghost use Rattle.policy_asks.specs.Findings.{CheckEnds};

use crate::asking::AskError;
use std::alloc::{AllocError, Global};
use std::fmt::Write;
use wasi_policy::{Conflicts, Policy};
use world_io::{Sink, write_all};

/// How many findings are listed at most.
const MOST: usize = 1000;

/// As many of the lines as there is room for.
#[tactic(auto, using(std::proofs::lemmas::List::take_min))]
fn first_lines(lines: &[u32], room: usize) -> &[u32]
    ensures { result.now ≡ take room lines.now }
{
    &lines[..lines.len().min(room)]
}

/// As many of the pairs as there is room for.
#[tactic(auto, using(std::proofs::lemmas::List::take_min))]
fn first_pairs(pairs: &[(u32, u32)], room: usize) -> &[(u32, u32)]
    ensures { result.now ≡ take room pairs.now }
{
    &pairs[..pairs.len().min(room)]
}

/// Adds `unmatched N` for each line.
fn add_unmatched(text: &mut String, lines: &[u32]) -> Result<(), AllocError>
    ensures { OnOk result (string_bytes text.new
        ≡ string_bytes text.old ++ unmatched_text lines.now) }
{
    for line in lines {
        write!(text, "unmatched {line}\n")?;
    }
    Ok(())
}

/// Adds `shadowed N` for each line.
fn add_shadowed(text: &mut String, lines: &[u32]) -> Result<(), AllocError>
    ensures { OnOk result (string_bytes text.new
        ≡ string_bytes text.old ++ shadowed_text lines.now) }
{
    for line in lines {
        write!(text, "shadowed {line}\n")?;
    }
    Ok(())
}

/// Adds `overlap N M` for each two lines.
fn add_overlaps(text: &mut String, pairs: &[(u32, u32)]) -> Result<(), AllocError>
    ensures { OnOk result (string_bytes text.new
        ≡ string_bytes text.old ++ overlaps_text pairs.now) }
{
    for (line, later) in pairs {
        write!(text, "overlap {line} {later}\n")?;
    }
    Ok(())
}

/// Adds how many findings aren't listed, if there are any.
fn add_rest(text: &mut String, rest: u64) -> Result<(), AllocError>
    ensures { OnOk result (string_bytes text.new ≡ string_bytes text.old ++ rest_text rest) }
{
    if rest > 0 {
        write!(text, "and {rest} more\n")?;
    }
    Ok(())
}

/// How many findings there are; `u64::MAX` where there are more than that.
fn total(unmatched: &[u32], shadowed: &[u32], conflicts: u64) -> u64
    ensures { result ≡ total (length unmatched.now) (length shadowed.now) conflicts }
{
    (unmatched.len() as u64)
        .saturating_add(shadowed.len() as u64)
        .saturating_add(conflicts)
}

/// What is listed of these findings, and how many aren't.
fn listed_text(
    alloc: Global,
    unmatched: &[u32],
    shadowed: &[u32],
    conflicts: &Conflicts,
    count: u64,
) -> Result<String, AllocError>
    ensures { IfOk result (λ text. string_bytes text ≡ listed_text unmatched.now shadowed.now
        conflicts.now.first.items count) }
{
    let room = MOST.saturating_sub(unmatched.len());
    let least = room.saturating_sub(shadowed.len());
    let mut text = String::new(alloc);
    add_unmatched(&mut text, first_lines(unmatched, MOST))?;
    add_shadowed(&mut text, first_lines(shadowed, room))?;
    add_overlaps(&mut text, first_pairs(conflicts.first.as_slice(), least))?;
    add_rest(&mut text, count.saturating_sub(MOST as u64))?;
    Ok(text)
}

/// What is reported of these lines, a finding a line.
fn findings_text(
    alloc: Global,
    unmatched: &[u32],
    shadowed: &[u32],
    conflicts: &Conflicts,
) -> Result<String, AllocError>
    ensures { IfOk result (λ text. string_bytes text ≡ findings_text unmatched.now shadowed.now
        conflicts.now.first.items conflicts.now.count) }
{
    let count = total(unmatched, shadowed, conflicts.count);
    if count > 0 {
        return listed_text(alloc, unmatched, shadowed, conflicts, count);
    }
    let mut text = String::new(alloc);
    text.push_str("nothing to report\n")?;
    Ok(text)
}

/// Finds the rules that match nothing, those that match something and decide nothing, and those that
/// overlap with an earlier one and say otherwise, and writes a line for each: `unmatched N` for the
/// line N of the rules, then `shadowed N`, then `overlap N M` for the lines N and M, N before M.
/// Behind 1,000 of these lines it writes `and N more`, if there are more; where there are none,
/// `nothing to report`. The sink isn't flushed. Takes memory for all that it writes.
pub fn check<K: Sink>(alloc: Global, policy: &Policy, sink: &mut K) -> Result<(), AskError>
    ensures { CheckEnds policy.now (K.writing sink.old) (K.writing sink.new) result }
{
    let unmatched = policy.unmatched(alloc)?;
    let shadowed = policy.shadowed(alloc)?;
    let conflicts = policy.conflicts(alloc, MOST)?;
    let text = findings_text(alloc, unmatched.as_slice(), shadowed.as_slice(), &conflicts)?;
    let Ok(()) = write_all(sink, text.as_str().as_bytes()) else {
        return Err(AskError::WriteFault);
    };
    Ok(())
}
