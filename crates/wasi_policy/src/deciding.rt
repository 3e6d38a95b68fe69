//! Whether a rule decides some use of some address.
//!
//! What a rule matches is looked at from its first address on, at its ports. The rule that decides a
//! look, if it stands before, takes all from there on to its own last port and its own last address.
//! So the next look is behind that port, and once no port is left, behind the first of those last
//! addresses. Before that its first address and port are looked at alone, and whether one rule before
//! it matches all that it does.

ghost use Rattle.std.specs.Prelude.{◌≡◌, ◌≤◌, ◌<◌, ◌-◌, ℕ, All, Some, None, IfSome, true, false, length};
ghost use Rattle.std.specs.List.{slice_get};
ghost use Rattle.wasi_policy.specs.declared.rule.Rule.{Rule};
ghost use Rattle.wasi_policy.specs.Decision.{is_about};
ghost use Rattle.wasi_policy.specs.Reach.{range_of};
ghost use Rattle.wasi_policy.specs.Points.{is_canonical, in_range};
ghost use Rattle.wasi_policy.specs.Findings.{Decides};
ghost use Rattle.wasi_policy.specs.Deciding.{last_of, matches_there, DecidesNone};
ghost use Rattle.wasi_policy.specs.Deciding.{NeverIn, NeverOf, canonical_behind};

use crate::covering::is_covered;
use crate::decide::is_about;
use crate::overlap::canonical_from;
use crate::points::address_at;
use crate::policy::Policy;
use crate::reach::range_of;
use crate::rule::{Net, Rule};
use wasi_addr::{SocketAddrUse, SocketAddressFamily};

/// Up to which number and which port a look holds.
#[derive(Clone, Copy)]
struct Corner {
    /// The line that decides there; 0 where no rule matches.
    line: u32,
    number: u128,
    port: u16,
}

/// The last number of a net's addresses of a family; the other number, if it has none.
fn last_of(net: Net, family: SocketAddressFamily, other: u128) -> u128
    ensures { result ≡ last_of (range_of net family) other }
{
    match range_of(net, family) {
        Some((_, high)) => high,
        None => other,
    }
}

/// Looks which rule decides at this number and this port, and how far it matches from there on.
fn look(
    policy: &Policy,
    usage: SocketAddrUse,
    family: SocketAddressFamily,
    number: u128,
    port: u16,
) -> Corner
    requires canonical { is_canonical family number ≡ true }
    ensures number { number ≤ result.number }
    ensures port { port ≤ result.port }
    ensures decides { Decides policy.now result.line }
    ensures taken { 0 < result.line → (later : ℕ) → result.line < later →
        DecidesNone policy.now later usage family number result.number port result.port }
    ensures first { (line : ℕ) (rule : Rule) → 0 < line →
        slice_get policy.now (line - 1) ≡ Some rule →
        matches_there rule usage family number port ≡ true →
        (0 < result.line) × (result.line ≤ line) }
{
    let explained = policy.explain(address_at(family, number, port), usage);
    Corner {
        line: explained.line,
        number: last_of(explained.rule.net, family, number),
        port: explained.rule.high,
    }
}

/// Looks at all ports of the rule of a line, at a number that it matches. None where it decides
/// there; otherwise the number up to which rules before it take all that it matches.
fn taken_from(
    policy: &Policy,
    line: u32,
    rule: &Rule,
    usage: SocketAddrUse,
    family: SocketAddressFamily,
    number: u128,
) -> Option<u128>
    requires begins { 0 < line }
    requires rule { slice_get policy.now (line - 1) ≡ Some rule.now }
    requires about { is_about rule.now.usage usage ≡ true }
    requires canonical { is_canonical family number ≡ true }
    requires within { in_range (range_of rule.now.net family) number ≡ true }
    ensures decides { result ≡ None → Decides policy.now line }
    ensures behind { IfSome result (λ last. number ≤ last) }
    ensures taken { IfSome result (λ last. DecidesNone policy.now line usage family number last
        rule.now.low rule.now.high) }
{
    let mut last = u128::MAX;
    let mut port = u32::from(rule.low);
    'ports: while port <= u32::from(rule.high) {
        let corner = look(policy, usage, family, number, port as u16);
        if corner.line == line {
            return None;
        }
        last = last.min(corner.number);
        port = u32::from(corner.port) + 1;
    }
    Some(last)
}

/// The first number behind this one that a canonical address of the family has.
fn canonical_behind(family: SocketAddressFamily, number: u128) -> Option<u128>
    ensures { result ≡ canonical_behind family number }
{
    let next = number.checked_add(1)?;
    canonical_from(family, next)
}

/// Whether the rule of a line decides this use of some address of this family. Takes no memory.
fn decides_in(
    policy: &Policy,
    line: u32,
    rule: &Rule,
    usage: SocketAddrUse,
    family: SocketAddressFamily,
) -> bool
    requires begins { 0 < line }
    requires rule { slice_get policy.now (line - 1) ≡ Some rule.now }
    requires about { is_about rule.now.usage usage ≡ true }
    ensures sound { result ≡ true → Decides policy.now line }
    ensures complete { result ≡ false → NeverIn policy.now line usage family }
{
    let Some((low, high)) = range_of(rule.net, family) else {
        return false;
    };
    let mut next = canonical_from(family, low);
    'numbers: while let Some(number) = next {
        if number > high {
            return false;
        }
        let Some(last) = taken_from(policy, line, rule, usage, family, number) else {
            return true;
        };
        next = canonical_behind(family, last);
    }
    false
}

/// Whether the rule of a line decides this use of some address.
fn decides_use(policy: &Policy, line: u32, rule: &Rule, usage: SocketAddrUse) -> bool
    requires begins { 0 < line }
    requires rule { slice_get policy.now (line - 1) ≡ Some rule.now }
    ensures sound { result ≡ true → Decides policy.now line }
    ensures complete { result ≡ false → NeverOf policy.now line usage }
{
    if !is_about(rule.usage, usage) {
        return false;
    }
    if decides_in(policy, line, rule, usage, SocketAddressFamily::Ipv4) {
        return true;
    }
    decides_in(policy, line, rule, usage, SocketAddressFamily::Ipv6)
}

const USES: [SocketAddrUse; 7] = [
    SocketAddrUse::TcpBind,
    SocketAddrUse::TcpListen,
    SocketAddrUse::TcpAccept,
    SocketAddrUse::TcpConnect,
    SocketAddrUse::UdpBind,
    SocketAddrUse::UdpSend,
    SocketAddrUse::UdpReceive,
];

/// Whether the rule of a line decides one of these uses of some address.
fn decides_any(policy: &Policy, line: u32, rule: &Rule, uses: &[SocketAddrUse]) -> bool
    requires begins { 0 < line }
    requires rule { slice_get policy.now (line - 1) ≡ Some rule.now }
    ensures sound { result ≡ true → Decides policy.now line }
    ensures complete { result ≡ false → All (λ asked. NeverOf policy.now line asked) uses.now }
{
    for usage in uses {
        if decides_use(policy, line, rule, *usage) {
            return true;
        }
    }
    false
}

/// Whether the rule of a line decides at the first address of a family that it matches, at its first
/// port.
fn decides_first(policy: &Policy, line: u32, rule: &Rule, family: SocketAddressFamily) -> bool
    ensures { result ≡ true → Decides policy.now line }
{
    let Some((low, _)) = range_of(rule.net, family) else {
        return false;
    };
    let Some(number) = canonical_from(family, low) else {
        return false;
    };
    let usage = rule.usage.unwrap_or(SocketAddrUse::TcpBind);
    look(policy, usage, family, number, rule.low).line == line
}

/// Whether the rule of a line decides some use of some address. Takes no memory. Mostly its first
/// address and port are left to it, or one rule before it matches all that it does; otherwise it looks
/// at what the rules before it decide of that, until it finds something that is left.
pub fn decides(policy: &Policy, line: u32, rule: &Rule) -> bool
    requires begins { 0 < line }
    requires within { line ≤ length policy.now }
    requires rule { slice_get policy.now (line - 1) ≡ Some rule.now }
    ensures sound { result ≡ true → Decides policy.now line }
    ensures complete { Decides policy.now line → result ≡ true }
{
    if decides_first(policy, line, rule, SocketAddressFamily::Ipv4) {
        return true;
    }
    if decides_first(policy, line, rule, SocketAddressFamily::Ipv6) {
        return true;
    }
    if is_covered(policy.rules(), line, rule) {
        return false;
    }
    decides_any(policy, line, rule, &USES)
}
