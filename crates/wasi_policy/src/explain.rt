//! The rule that decides, by its place.

ghost use Rattle.std.specs.Prelude.{◌≡◌, ◌<◌, ◌^◌, length};
ghost use Rattle.wasi_policy.specs.Explained.{explained_at};

use crate::rule::{Action, Explanation, Net, Rule};

/// What holds where no rule matches.
const LAST_RULE: Rule = Rule {
    action: Action::Deny,
    usage: None,
    net: Net::Any,
    low: 0,
    high: u16::MAX,
};

/// The rule of a place, counted from 0; where there is none, the one that denies everything.
pub fn explanation_of(rules: &[Rule], place: u32) -> Explanation
    requires { length rules.now < 2 ^ 32 }
    ensures { result ≡ explained_at rules.now place }
{
    match rules.get(place as usize) {
        Some(rule) => Explanation {
            line: place + 1,
            rule: *rule,
        },
        None => Explanation {
            line: 0,
            rule: LAST_RULE,
        },
    }
}
