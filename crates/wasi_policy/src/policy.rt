//! Rules that were read.

ghost use Rattle.std.specs.Prelude.{◌≡◌, ◌<◌, ◌^◌, IfOk, IfErr, IfSome, Ok, Err, length};
ghost use Rattle.wasi_policy.specs.Decision.{allows, decision};
ghost use Rattle.wasi_policy.specs.Explained.{explanation};
ghost use Rattle.wasi_policy.specs.Grammar.{rules_of};
ghost use Rattle.wasi_policy.specs.Parsed.{bad_line};

use crate::index::Index;
use crate::parse::{RulesError, rules_within};
use crate::rule::{Decision, Explanation, Rule};
use std::alloc::Global;
use std::marker::Model;
use wasi_addr::{IpSocketAddress, SocketAddrUse};

/// How many bytes rules have at most.
const MOST_BYTES: usize = 1_048_576;

/// Rules, of which the first that matches decides. Contracts see them as a list.
#[derive(Drop)]
pub struct Policy {
    rules: Vec<Rule>,
    index: Index,
}

impl Model for Policy {
    ghost use Rattle.std.specs.Prelude.{List, length, ◌<◌, ◌^◌};
    ghost use Rattle.wasi_policy.specs.declared.rule.Rule.{Rule};
    ghost use Rattle.wasi_policy.specs.Index.{IsIndexOf};

    ghost Value = { List Rule };

    ghost view = { λ policy. policy.rules.items };

    ghost invariant = { λ policy. (length policy.rules.items < 2 ^ 32)
        × IsIndexOf policy.rules.items policy.index };
}

impl Policy {
    /// Reads rules: a line for each, in the order in which they are asked. Takes memory for
    /// them and for an index of them, which has at most 64 cells a rule for each use and family.
    pub fn parse(alloc: Global, bytes: &[u8]) -> Result<Policy, RulesError>
        ensures rules { IfOk result (λ policy. rules_of bytes.now ≡ Ok policy) }
        ensures bad { IfErr result (λ e. IfSome (bad_line e) (λ n. rules_of bytes.now ≡ Err n)) }
    {
        let rules = rules_within(alloc, bytes, MOST_BYTES)?;
        let index = Index::of(alloc, rules.as_slice())?;
        Ok(Policy { rules, index })
    }

    /// The rules, in the order of their lines.
    pub fn rules(&self) -> &[Rule]
        ensures rules { result.now ≡ self.now }
        ensures few { length self.now < 2 ^ 32 }
    {
        self.rules.as_slice()
    }

    /// What the rules decide of this use of this address: the action of the first rule that
    /// matches, with its line; deny with line 0 where none does. Takes no memory.
    pub fn decide(&self, address: IpSocketAddress, usage: SocketAddrUse) -> Decision
        ensures { result ≡ decision self.now address usage }
    {
        self.index.decide(self.rules.as_slice(), address, usage)
    }

    /// The first rule that matches, with its line; where none does, line 0 and the rule that denies
    /// everything. It is the rule that decides, and found as `decide` finds it. Takes no memory.
    pub fn explain(&self, address: IpSocketAddress, usage: SocketAddrUse) -> Explanation
        ensures rule { result ≡ explanation self.now address usage }
        ensures line { result.line ≡ (decision self.now address usage).rule }
        ensures action { allows result.rule.action ≡ (decision self.now address usage).allow }
    {
        self.index.explain(self.rules.as_slice(), address, usage)
    }
}
