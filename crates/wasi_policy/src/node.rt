//! The first rule of each port, for the addresses that rules have in common.

ghost use Rattle.std.specs.Prelude.{◌≡◌};
ghost use Rattle.wasi_policy.specs.Cells.{IsRising};

use crate::cells::{Cell, NO_RULE, first_at};

/// Addresses from the least to the greatest, and the first rule of each port there.
#[derive(Drop)]
pub struct Node {
    pub low: u128,
    pub high: u128,
    /// How many nodes there are up to the last before this one that reaches its least address.
    pub before: usize,
    /// How many there are up to the last one before it for which its cells don't stand too.
    pub next: usize,
    /// The first rule of each port, among the rules of this node and of those before it that hold
    /// all of its addresses, but for the first `next`.
    pub cells: Vec<Cell>,
    pub ghost rising: { IsRising cells.items },
}

impl Node {
    ghost use Rattle.wasi_policy.specs.Nodes.{at_node, next_for};

    /// The place of the first rule for this address and port, or [`NO_RULE`].
    pub fn first_at(&self, number: u128, port: u16) -> u32
        ensures { result ≡ at_node self.now number port }
    {
        if self.low <= number && number <= self.high {
            first_at(self.cells.as_slice(), port)
        } else {
            NO_RULE
        }
    }

    /// How many nodes there are up to the next one to look at for this address, which isn't below
    /// the node's least.
    pub fn next_for(&self, number: u128) -> usize
        ensures { result ≡ next_for self.now number }
    {
        if number <= self.high {
            self.next
        } else {
            self.before
        }
    }
}
