//! Whether a rule before another matches all that the other does.

ghost use Rattle.std.specs.Prelude.{◌≡◌, ◌<◌, ◌≤◌, ◌-◌, Some, true, length};
ghost use Rattle.std.specs.List.{slice_get};
ghost use Rattle.wasi_policy.specs.Reach.{range_of};
ghost use Rattle.wasi_policy.specs.Findings.{Decides};
ghost use Rattle.wasi_policy.specs.Deciding.{holds_use, holds_range, covers};

use crate::decide::{is_about, rule_of};
use crate::reach::range_of;
use crate::rule::{Net, Rule};
use wasi_addr::{SocketAddrUse, SocketAddressFamily};

/// Whether a rule of the first use is about all that one of the second is.
fn holds_use(one: Option<SocketAddrUse>, other: Option<SocketAddrUse>) -> bool
    ensures { result ≡ holds_use one other }
{
    match other {
        None => one.is_none(),
        Some(usage) => is_about(one, usage),
    }
}

/// Whether the first net has all addresses of this family that the second has.
fn holds_net(one: Net, other: Net, family: SocketAddressFamily) -> bool
    ensures { result ≡ holds_range (range_of one family) (range_of other family) }
{
    let Some((least, greatest)) = range_of(other, family) else {
        return true;
    };
    match range_of(one, family) {
        None => false,
        Some((low, high)) => low <= least && greatest <= high,
    }
}

/// Whether the first rule matches all that the second does.
fn covers(one: &Rule, other: &Rule) -> bool
    ensures { result ≡ covers one.now other.now }
{
    one.low <= other.low
        && other.high <= one.high
        && holds_use(one.usage, other.usage)
        && holds_net(one.net, other.net, SocketAddressFamily::Ipv4)
        && holds_net(one.net, other.net, SocketAddressFamily::Ipv6)
}

/// Whether one of the rules before a line matches all that the rule of that line does.
pub fn is_covered(rules: &[Rule], line: u32, rule: &Rule) -> bool
    requires begins { 0 < line }
    requires within { line ≤ length rules.now }
    requires rule { slice_get rules.now (line - 1) ≡ Some rule.now }
    ensures { result ≡ true → Decides rules.now line → ⊥ }
{
    for earlier in 1..line {
        if covers(rule_of(rules, earlier), rule) {
            return true;
        }
    }
    false
}
