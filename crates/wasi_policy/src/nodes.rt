//! The first rule of each address and port.
//!
//! Rules that match the same addresses share a node, whose cells tell the first of them at each
//! port. Nodes stand by their least addresses. Those that hold an address are found from the last
//! that begins at it or before it: each node leads to the last one before it that reaches its least
//! address, and no node between the two holds an address from there on. The cells of a node stand
//! for nodes round it too, as far as those are few enough, so that an address in many nets is found
//! at a look or two.

ghost use Rattle.std.specs.Prelude.{◌≡◌, ◌≤◌, ◌<◌, ◌&&◌, ℕ, min, nat_le, IfOk, OnOk, length};
ghost use Rattle.std.specs.List.{slice_index_or};
ghost use Rattle.std.specs.List.Sorted.{IsNonDecreasingBy};
ghost use Rattle.wasi_policy.specs.declared.node.Node.{Node};
ghost use Rattle.wasi_policy.specs.declared.reach.Reach.{Reach};
ghost use Rattle.wasi_policy.specs.Reach.{first_of};
ghost use Rattle.wasi_policy.specs.Cells.{IsRising};
ghost use Rattle.wasi_policy.specs.Nodes.{at_range, at_nodes, IsIndex, IsLinked, BeginBy};
ghost use Rattle.wasi_policy.specs.Nodes.{AreAlike, Gathers};

use crate::cells::{Cell, NO_RULE, cells_of, merge};
use crate::node::Node;
use crate::reach::Reach;
use std::alloc::{AllocError, Global};

/// How many times as many cells as its own rules need a node has at most, where it stands for nodes
/// round it.
const SHARE: usize = 32;

/// How many nodes begin at this address or before it.
fn count_from(nodes: &[Node], number: u128) -> usize
    requires { IsNonDecreasingBy (λ (node : Node). node.low) nodes.now }
    ensures bound { result ≤ length nodes.now }
    ensures begun { (k : ℕ) (d : Node) → k < result
        → (slice_index_or nodes.now k d).low ≤ number }
    ensures later { (k : ℕ) (d : Node) → result ≤ k → k < length nodes.now
        → number < (slice_index_or nodes.now k d).low }
{
    nodes.partition_point(|node| node.low <= number)
}

/// The place of the first rule for this address and port, or [`NO_RULE`]. Takes no memory.
pub fn first_in(nodes: &[Node], number: u128, port: u16) -> u32
    requires { IsIndex nodes.now }
    ensures { result ≡ at_nodes nodes.now number port }
{
    let mut first = NO_RULE;
    let begun = count_from(nodes, number);
    let mut at = begun;
    'walk: while at > 0 {
        let node = &nodes[at - 1];
        first = first.min(node.first_at(number, port));
        at = node.next_for(number);
    }
    first
}

/// How many nodes there are up to the last that reaches this address, at which or before which all
/// of them begin.
fn count_before(nodes: &[Node], low: u128) -> usize
    requires linked { IsLinked nodes.now }
    requires begun { BeginBy nodes.now low }
    ensures bound { result ≤ length nodes.now }
    ensures ended { (k : ℕ) (d : Node) → result ≤ k → k < length nodes.now
        → (slice_index_or nodes.now k d).high < low }
{
    let mut at = nodes.len();
    'back: while at > 0 && nodes[at - 1].high < low {
        at = nodes[at - 1].before;
    }
    at
}

/// Whether a node holds its addresses up to this one, in no more cells than there is room for.
fn joins(node: &Node, high: u128, room: usize) -> bool
    ensures { result ≡ (nat_le high node.now.high && nat_le (length node.now.cells.items) room) }
{
    node.high >= high && node.cells.len() <= room
}

/// These cells with those of the nodes that hold all their addresses, which go up to this one and
/// begin behind all nodes: of the nodes before a place, and as many of them as there is room for.
/// Also the place before which the others are.
fn gather(
    alloc: Global,
    nodes: &[Node],
    high: u128,
    before: usize,
    own: Vec<Cell>,
) -> Result<(Vec<Cell>, usize), AllocError>
    requires index { IsIndex nodes.now }
    requires bound { before ≤ length nodes.now }
    requires rising { IsRising own.items }
    ensures { IfOk result (λ found. Gathers nodes.now high before own.items found.1
        found.0.items) }
{
    let most = own.len().saturating_mul(SHARE);
    let mut cells = own;
    let mut at = before;
    'gathering: while at > 0 && joins(&nodes[at - 1], high, most.saturating_sub(cells.len())) {
        let node = &nodes[at - 1];
        cells = merge(alloc, cells.as_slice(), node.cells.as_slice())?;
        at = node.next;
    }
    Ok((cells, at))
}

/// Adds a node behind those that begin at its least address or before it, with these cells and those
/// of nodes round it.
fn add(
    alloc: Global,
    nodes: &mut Vec<Node>,
    low: u128,
    high: u128,
    own: Vec<Cell>,
) -> Result<(), AllocError>
    requires index { IsIndex nodes.old.items }
    requires begun { BeginBy nodes.old.items low }
    requires rising { IsRising own.items }
    ensures index { OnOk result (IsIndex nodes.new.items) }
    ensures begun { OnOk result (BeginBy nodes.new.items low) }
    ensures added { OnOk result ((number port : ℕ) → at_nodes nodes.new.items number port
        ≡ min (at_nodes nodes.old.items number port) (at_range low high own.items number port)) }
{
    let before = count_before(nodes.as_slice(), low);
    let (cells, next) = gather(alloc, nodes.as_slice(), high, before, own)?;
    nodes.push(Node {
        low,
        high,
        before,
        next,
        cells,
    })?;
    Ok(())
}

/// How many at the front match the same addresses.
fn count_alike(reaches: &[Reach]) -> usize
    requires { 0 < length reaches.now }
    ensures some { 0 < result }
    ensures bound { result ≤ length reaches.now }
    ensures alike { AreAlike reaches.now result }
{
    let mut count = 1;
    'alike: while count < reaches.len()
        && reaches[count].low == reaches[0].low
        && reaches[count].high == reaches[0].high
    {
        count += 1;
    }
    count
}

/// The nodes of what rules match, which stand by their least addresses. Takes memory for them, and
/// for at most 64 cells a rule.
fn nodes_by_low(alloc: Global, reaches: &[Reach]) -> Result<Vec<Node>, AllocError>
    requires rising { IsNonDecreasingBy (λ (reach : Reach). reach.low) reaches.now }
    ensures index { IfOk result (λ nodes. IsIndex nodes.items) }
    ensures first { IfOk result (λ nodes. (number port : ℕ)
        → at_nodes nodes.items number port ≡ first_of reaches.now number port) }
{
    let mut nodes = Vec::new(alloc);
    let mut at = 0;
    'runs: while at < reaches.len() {
        let rest = &reaches[at..];
        let count = count_alike(rest);
        let cells = cells_of(alloc, &rest[..count])?;
        add(alloc, &mut nodes, rest[0].low, rest[0].high, cells)?;
        at += count;
    }
    Ok(nodes)
}

/// The nodes of what rules match. Takes memory for them, and for at most 64 cells a rule.
pub fn nodes_of(alloc: Global, mut reaches: Vec<Reach>) -> Result<Vec<Node>, AllocError>
    ensures index { IfOk result (λ nodes. IsIndex nodes.items) }
    ensures first { IfOk result (λ nodes. (number port : ℕ)
        → at_nodes nodes.items number port ≡ first_of reaches.items number port) }
{
    // Of those that begin alike the greatest first, so that nodes come behind those that hold them.
    reaches.sort_by_key(|reach| u128::MAX - reach.high)?;
    reaches.sort_by_key(|reach| reach.low)?;
    nodes_by_low(alloc, reaches.as_slice())
}
