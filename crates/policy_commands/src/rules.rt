//! How rules are read.

ghost use Rattle.policy_commands.specs.Rules.{IsReadSo};

use crate::status::PolicyStatus;
use std::alloc::Global;
use wasi_policy::{Policy, RulesError};
use wasi_program::Status;
use wasi_program::scenario::{Unread, read_scenario};
use world_io::Source;

/// The rules, or how a program ends without them.
#[derive(Drop)]
pub enum FoundRules {
    Read(Policy),
    /// With the number of the bad line, or 0.
    Stopped(PolicyStatus, u32),
}

/// Reads rules to their end, and their grammar. Takes memory for their text, the rules and their
/// index.
pub fn read_rules<R: Source>(alloc: Global, rules: &mut R) -> FoundRules
    ensures { IsReadSo (R.reading rules.old) (R.reading rules.new) result }
{
    let text = match read_scenario(alloc, rules) {
        Ok(text) => text,
        Err(Unread::Fault) => return FoundRules::Stopped(PolicyStatus::RulesFault, 0),
        Err(Unread::Memory(_)) => {
            return FoundRules::Stopped(PolicyStatus::Of(Status::Memory), 0);
        }
    };
    match Policy::parse(alloc, text.as_slice()) {
        Ok(policy) => FoundRules::Read(policy),
        Err(RulesError::BadRules(line)) => FoundRules::Stopped(PolicyStatus::BadRules, line),
        Err(RulesError::Memory(_)) => FoundRules::Stopped(PolicyStatus::Of(Status::Memory), 0),
    }
}
