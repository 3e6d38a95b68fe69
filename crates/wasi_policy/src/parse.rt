//! Reads rules: a line for each.

ghost use Rattle.std.specs.Prelude.{◌≡◌, ◌<◌, ◌+◌, ◌^◌, IfOk, OnOk, [], ◌∷◌, ◌++◌, Some, None};
ghost use Rattle.std.specs.Prelude.{IfErr, IfSome, Ok, Err, length, take};
ghost use Rattle.wasi_policy.specs.Grammar.{with_rule, rules_within};
ghost use Rattle.wasi_policy.specs.Parsed.{bad_line};

use crate::grammar::parse_rule;
use crate::rule::Rule;
use std::alloc::{AllocError, Global};
use thiserror::Error;
use world_text::lines::newline_at;

/// Why rules weren't read.
#[derive(Clone, Copy, Debug, PartialEq, Eq, Error)]
pub enum RulesError {
    /// The first line that isn't in the grammar, counted from 1: also a last line without its
    /// newline, and the line that holds byte 1,048,577.
    #[error("line {0} of the rules is not in their grammar")]
    BadRules(u32),
    #[error("memory ran out")]
    Memory(AllocError),
}

impl From<AllocError> for RulesError {
    ghost use Rattle.std.specs.Prelude.{◌≡◌};
    ghost use Rattle.wasi_policy.specs.declared.parse.RulesError.TheVariants.{Memory};

    ghost from_gives = { λ e error. error ≡ Memory e };

    fn from(e: AllocError) -> RulesError {
        RulesError::Memory(e)
    }
}

/// As many of the bytes as lie within the limit.
#[tactic(auto, using(std::proofs::lemmas::List::take_min))]
fn first_bytes(bytes: &[u8], limit: usize) -> &[u8]
    ensures { result.now ≡ take limit bytes.now }
{
    &bytes[..bytes.len().min(limit)]
}

/// Adds the last rule.
fn add_rule(rules: &mut Vec<Rule>, rule: Rule) -> Result<(), AllocError>
    ensures { OnOk result (rules.new.items ≡ rules.old.items ++ rule ∷ []) }
{
    rules.push(rule)?;
    Ok(())
}

/// Adds the rule of a line, which has this number.
fn take_line(rules: &mut Vec<Rule>, number: u32, line: &[u8]) -> Result<(), RulesError>
    ensures ok { OnOk result (with_rule rules.old.items line.now ≡ Some rules.new.items) }
    ensures one { OnOk result (length rules.new.items ≡ length rules.old.items + 1) }
    ensures bad { IfErr result (λ e. IfSome (bad_line e) (λ n. (n ≡ number)
        × (with_rule rules.old.items line.now ≡ None))) }
{
    let Some(rule) = parse_rule(line) else {
        return Err(RulesError::BadRules(number));
    };
    add_rule(rules, rule)?;
    Ok(())
}

/// The rules of a text of at most so many bytes.
pub fn rules_within(alloc: Global, bytes: &[u8], most: usize) -> Result<Vec<Rule>, RulesError>
    requires { most + 1 < 2 ^ 32 }
    ensures ok { IfOk result (λ rules. rules_within most bytes.now ≡ Ok rules.items) }
    ensures few { IfOk result (λ rules. length rules.items < 2 ^ 32) }
    ensures bad { IfErr result (λ e. IfSome (bad_line e) (λ n. rules_within most bytes.now
        ≡ Err n)) }
{
    let text = first_bytes(bytes, most);
    let mut rules = Vec::new(alloc);
    let mut number = 1;
    let mut at = 0;
    while let Some(end) = newline_at(&text[at..]) {
        take_line(&mut rules, number, &text[at..at + end])?;
        number += 1;
        at += end + 1;
    }
    if at < bytes.len() {
        return Err(RulesError::BadRules(number));
    }
    Ok(rules)
}
