//! The first rule of each port, of rules that match the same addresses.

ghost use Rattle.std.specs.Prelude.{◌≡◌, ◌<◌, ◌≤◌, ℕ, IfOk, length};
ghost use Rattle.std.specs.List.{slice_index_or};
ghost use Rattle.wasi_policy.specs.declared.cells.Cell.{Cell};
ghost use Rattle.wasi_policy.specs.Reach.{no_rule, first_by_port};
ghost use Rattle.wasi_policy.specs.Cells.{at_port, cells_of_one, is_next};
ghost use Rattle.wasi_policy.specs.Cells.{merged_cells, IsRising};

use crate::reach::Reach;
use std::alloc::{AllocError, Global};

/// Stands where a rule's place would, if there is no rule.
pub const NO_RULE: u32 = u32::MAX;

/// The first rule of the ports from one port to the next cell's.
#[derive(Clone, Copy, Debug, PartialEq, Eq)]
pub struct Cell {
    /// The least port; 65,536 begins what is behind the last port.
    pub start: u32,
    /// The place of the first rule, or [`NO_RULE`].
    pub first: u32,
}

/// The cells of one rule.
fn cells_of_one(alloc: Global, reach: &Reach) -> Result<Vec<Cell>, AllocError>
    ensures cells { IfOk result (λ cells. cells.items ≡ cells_of_one reach.now) }
    ensures fits { reach.now.place ≤ no_rule }
{
    let place = reach.place;
    let mut cells = Vec::new(alloc);
    if reach.least <= reach.greatest {
        cells.push(Cell {
            start: u32::from(reach.least),
            first: place,
        })?;
        cells.push(Cell {
            start: u32::from(reach.greatest) + 1,
            first: NO_RULE,
        })?;
    }
    Ok(cells)
}

/// Whether the first of these cells comes before the first of those.
fn is_next(these: &[Cell], those: &[Cell]) -> bool
    ensures { result ≡ is_next these.now those.now }
{
    match (these, those) {
        ([], _) => false,
        (_, []) => true,
        ([this, ..], [that, ..]) => this.start <= that.start,
    }
}

/// Cells that have the lesser of what two lists of cells have at each port. Takes memory for as many
/// as both have.
pub fn merge(alloc: Global, these: &[Cell], those: &[Cell]) -> Result<Vec<Cell>, AllocError>
    ensures { IfOk result (λ cells. cells.items
        ≡ merged_cells no_rule no_rule these.now those.now) }
{
    let mut cells = Vec::new(alloc);
    let mut at = 0;
    let mut beside = 0;
    let mut first = NO_RULE;
    let mut other = NO_RULE;
    'merging: while at < these.len() || beside < those.len() {
        if is_next(&these[at..], &those[beside..]) {
            first = these[at].first;
            cells.push(Cell {
                start: these[at].start,
                first: first.min(other),
            })?;
            at += 1;
        } else {
            other = those[beside].first;
            cells.push(Cell {
                start: those[beside].start,
                first: first.min(other),
            })?;
            beside += 1;
        }
    }
    Ok(cells)
}

/// The first rule of each port, of rules that match the same addresses. Takes memory for two cells
/// a rule.
pub fn cells_of(alloc: Global, reaches: &[Reach]) -> Result<Vec<Cell>, AllocError>
    ensures rising { IfOk result (λ cells. IsRising cells.items) }
    ensures first { IfOk result (λ cells. (port : ℕ) → at_port no_rule cells.items port
        ≡ first_by_port reaches.now port) }
{
    match reaches {
        [] => Ok(Vec::new(alloc)),
        [reach] => cells_of_one(alloc, reach),
        _ => {
            let (front, back) = reaches.split_at(reaches.len() / 2);
            let these = cells_of(alloc, front)?;
            let those = cells_of(alloc, back)?;
            merge(alloc, these.as_slice(), those.as_slice())
        }
    }
}

/// How many cells start at this port or before it.
fn count_from(cells: &[Cell], port: u16) -> usize
    requires { IsRising cells.now }
    ensures bound { result ≤ length cells.now }
    ensures begun { (k : ℕ) (d : Cell) → k < result → (slice_index_or cells.now k d).start ≤ port }
    ensures later { (k : ℕ) (d : Cell) → result ≤ k → k < length cells.now
        → port < (slice_index_or cells.now k d).start }
{
    cells.partition_point(|cell| cell.start <= u32::from(port))
}

/// The first rule of a port, or [`NO_RULE`]. Takes no memory.
pub fn first_at(cells: &[Cell], port: u16) -> u32
    requires { IsRising cells.now }
    ensures { result ≡ at_port no_rule cells.now port }
{
    let count = count_from(cells, port);
    if count == 0 {
        NO_RULE
    } else {
        cells[count - 1].first
    }
}
