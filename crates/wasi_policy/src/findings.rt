//! What is odd about rules: those that match nothing, those that decide nothing, and those that say
//! otherwise than one before them.

ghost use Rattle.std.specs.Prelude.{◌≡◌, ◌+◌, ◌<◌, ◌≤◌, ◌⊎◌, ◌^◌, ℕ};
ghost use Rattle.std.specs.Prelude.{All, Contains, IfOk, OnOk, length};
ghost use Rattle.wasi_policy.specs.Findings.{Decides, IsShadowed, Matches, IsUnmatched, AreConflicts};
ghost use Rattle.wasi_policy.specs.Overlaps.{Lists, Counted, Counts, Notes, NotesLine};

use crate::decide::rule_of;
use crate::deciding::decides;
use crate::overlap::{disagree, overlap};
use crate::policy::Policy;
use crate::rule::Rule;
use std::alloc::{AllocError, Global};

/// Pairs of lines whose rules overlap and say otherwise.
#[derive(Drop)]
pub struct Conflicts {
    /// The first of them, in the order of the lines.
    pub first: Vec<(u32, u32)>,
    /// How many there are; `u64::MAX` where there are more than that.
    pub count: u64,
}

/// Adds a line, if its rule matches nothing.
fn note_unmatched(lines: &mut Vec<u32>, policy: &Policy, line: u32) -> Result<(), AllocError>
    requires begins { 0 < line }
    requires within { line ≤ length policy.now }
    ensures { OnOk result (Lists (λ k. (0 < k) × (k ≤ length policy.now)
        × IsUnmatched policy.now k) (Matches policy.now) line lines.old.items lines.new.items) }
{
    let rule = rule_of(policy.rules(), line);
    if overlap(rule, rule) {
        return Ok(());
    }
    lines.push(line)?;
    Ok(())
}

/// Adds a line, if its rule matches something and decides nothing.
fn note_shadowed(lines: &mut Vec<u32>, policy: &Policy, line: u32) -> Result<(), AllocError>
    requires begins { 0 < line }
    requires within { line ≤ length policy.now }
    ensures { OnOk result (Lists (λ k. (0 < k) × (k ≤ length policy.now)
        × IsShadowed policy.now k × Matches policy.now k)
        (λ k. Decides policy.now k ⊎ IsUnmatched policy.now k) line lines.old.items
        lines.new.items) }
{
    let rule = rule_of(policy.rules(), line);
    if !overlap(rule, rule) || decides(policy, line, rule) {
        return Ok(());
    }
    lines.push(line)?;
    Ok(())
}

/// Counts two lines, if their rules overlap and the later one says otherwise, and adds them where
/// there are fewer pairs than `most`.
fn note(
    conflicts: &mut Conflicts,
    rules: &[Rule],
    line: u32,
    later: u32,
    most: usize,
) -> Result<(), AllocError>
    requires begins { 0 < line }
    requires before { line < later }
    requires within { later ≤ length rules.now }
    ensures { OnOk result (Counts most conflicts.old.first.items conflicts.old.count
        conflicts.new.first.items conflicts.new.count (Notes rules.now line later)) }
{
    if !disagree(rule_of(rules, line), rule_of(rules, later)) {
        return Ok(());
    }
    conflicts.count = conflicts.count.saturating_add(1);
    if conflicts.first.len() >= most {
        return Ok(());
    }
    conflicts.first.push((line, later))?;
    Ok(())
}

/// Counts a line with each later one whose rule overlaps with its own and says otherwise.
fn note_later(
    conflicts: &mut Conflicts,
    rules: &[Rule],
    line: u32,
    most: usize,
) -> Result<(), AllocError>
    requires begins { 0 < line }
    requires few { length rules.now < 2 ^ 32 }
    ensures { OnOk result (Counts most conflicts.old.first.items conflicts.old.count
        conflicts.new.first.items conflicts.new.count (NotesLine rules.now line)) }
{
    for before in line..rules.len() as u32 {
        note(conflicts, rules, line, before + 1, most)?;
    }
    Ok(())
}

impl Policy {
    /// The lines of the rules that match no use of any address, in order: they are of a net that has
    /// no IPv6 addresses but those that stand for IPv4 ones. Takes memory for them.
    pub fn unmatched(&self, alloc: Global) -> Result<Vec<u32>, AllocError>
        ensures sound { IfOk result (λ lines. All (λ line. IsUnmatched self.now line) lines.items) }
        ensures rules { IfOk result (λ lines. All (λ line. (0 < line) × (line ≤ length self.now))
            lines.items) }
        ensures complete { IfOk result (λ lines. (line : ℕ) → 0 < line → line ≤ length self.now
            → Contains lines.items line ⊎ Matches self.now line) }
    {
        let mut lines = Vec::new(alloc);
        for before in 0..self.rules().len() as u32 {
            note_unmatched(&mut lines, self, before + 1)?;
        }
        Ok(lines)
    }

    /// The lines of the rules that match something and decide no use of any address, in order: rules
    /// before them decide all that they match, alone or several together. Takes memory for them. A
    /// rule costs a look or two, where its first address and port are left to it; a test of each rule
    /// before it, where one of these matches all that it does; and otherwise a look for each rule
    /// before it that takes some of the rest.
    pub fn shadowed(&self, alloc: Global) -> Result<Vec<u32>, AllocError>
        ensures sound { IfOk result (λ lines. All (λ line. IsShadowed self.now line) lines.items) }
        ensures matched { IfOk result (λ lines. All (λ line. Matches self.now line) lines.items) }
        ensures rules { IfOk result (λ lines. All (λ line. (0 < line) × (line ≤ length self.now))
            lines.items) }
        ensures complete { IfOk result (λ lines. (line : ℕ) → 0 < line → line ≤ length self.now
            → Contains lines.items line ⊎ (Decides self.now line ⊎ IsUnmatched self.now line)) }
    {
        let mut lines = Vec::new(alloc);
        for before in 0..self.rules().len() as u32 {
            note_shadowed(&mut lines, self, before + 1)?;
        }
        Ok(lines)
    }

    /// The lines of each two rules that overlap, of which one allows and the other denies, the
    /// earlier one first: as many as `most` of them, and how many there are. Takes memory for what
    /// it lists, and looks at each two rules.
    pub fn conflicts(&self, alloc: Global, most: usize) -> Result<Conflicts, AllocError>
        ensures { IfOk result (λ found. Counted most found.first.items found.count
            (AreConflicts self.now)) }
    {
        let rules = self.rules();
        let mut conflicts = Conflicts {
            first: Vec::new(alloc),
            count: 0,
        };
        for before in 0..rules.len() as u32 {
            note_later(&mut conflicts, rules, before + 1, most)?;
        }
        Ok(conflicts)
    }
}
