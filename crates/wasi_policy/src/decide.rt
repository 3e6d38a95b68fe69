//! Whether a rule matches, and the first that does.

ghost use Rattle.std.specs.Prelude.{◌≡◌, ◌≤◌, ◌+◌, ◌-◌, ◌*◌, ◌<◌, ◌^◌, Some, length};
ghost use Rattle.std.specs.List.{slice_get};
ghost use Rattle.wasi_policy.specs.Decision.{ipv4_number, ipv6_number, agree, is_in, is_about};
ghost use Rattle.wasi_policy.specs.Decision.{matches, allows};
ghost use Rattle.wasi_policy.specs.Reach.{by_place};

use crate::rule::{Action, Decision, Net, Rule};
use wasi_addr::{IpAddress, IpSocketAddress, SocketAddrUse};

/// Four bytes as one number, the first byte highest.
pub fn ipv4_number(address: (u8, u8, u8, u8)) -> u32
    ensures { result ≡ ipv4_number address }
{
    let (a, b, c, d) = address;
    ((u32::from(a) * 256 + u32::from(b)) * 256 + u32::from(c)) * 256 + u32::from(d)
}

/// Four segments as one number, the first segment highest.
fn half_number(a: u16, b: u16, c: u16, d: u16) -> u64
    ensures { result ≡ ((a * 65536 + b) * 65536 + c) * 65536 + d }
{
    ((u64::from(a) * 65536 + u64::from(b)) * 65536 + u64::from(c)) * 65536 + u64::from(d)
}

/// Eight segments as one number, the first segment highest.
pub fn ipv6_number(address: (u16, u16, u16, u16, u16, u16, u16, u16)) -> u128
    ensures { result ≡ ipv6_number address }
{
    let (a, b, c, d, e, f, g, h) = address;
    u128::from(half_number(a, b, c, d)) * 18_446_744_073_709_551_616
        + u128::from(half_number(e, f, g, h))
}

/// Whether two IPv4 addresses agree in their first `len` bits.
fn agree_in_ipv4(len: u8, one: u32, other: u32) -> bool
    ensures { result ≡ agree 32 len one other }
{
    let rest = 32u8.saturating_sub(len);
    u64::from(one) >> rest == u64::from(other) >> rest
}

/// Whether two IPv6 addresses agree in their first `len` bits.
fn agree_in_ipv6(len: u8, one: u128, other: u128) -> bool
    ensures { result ≡ agree 128 len one other }
{
    if len == 0 {
        return true;
    }
    let rest = 128u8.saturating_sub(len);
    one >> rest == other >> rest
}

/// Whether an address has the family of the net and lies in it.
fn is_in(net: Net, address: IpAddress) -> bool
    ensures { result ≡ is_in net address }
{
    match (net, address) {
        (Net::Any, _) => true,
        (Net::Ipv4(front, len), IpAddress::Ipv4(address)) => {
            agree_in_ipv4(len, ipv4_number(front), ipv4_number(address))
        }
        (Net::Ipv6(front, len), IpAddress::Ipv6(address)) => {
            agree_in_ipv6(len, ipv6_number(front), ipv6_number(address))
        }
        _ => false,
    }
}

/// Whether a rule's use is any, or this one.
pub fn is_about(rule: Option<SocketAddrUse>, usage: SocketAddrUse) -> bool
    ensures { result ≡ is_about rule usage }
{
    match rule {
        None => true,
        Some(of_rule) => of_rule as u8 == usage as u8,
    }
}

/// Whether the rule matches this use of this address.
pub fn matches(rule: &Rule, address: IpSocketAddress, usage: SocketAddrUse) -> bool
    ensures { result ≡ matches rule.now address usage }
{
    let port = address.port();
    is_about(rule.usage, usage)
        && rule.low <= port
        && port <= rule.high
        && is_in(rule.net, address.ip().to_canonical())
}

/// The rule of a line, counted from 1.
pub fn rule_of(rules: &[Rule], line: u32) -> &Rule
    requires begins { 0 < line }
    requires within { line ≤ length rules.now }
    ensures { slice_get rules.now (line - 1) ≡ Some result.now }
{
    &rules[line as usize - 1]
}

/// Whether the action is to allow.
pub fn allows(action: Action) -> bool
    ensures { result ≡ allows action }
{
    matches!(action, Action::Allow)
}

/// What the rule of a place decides, counted from 0; where there is none, the use is denied.
pub fn decision_of(rules: &[Rule], place: u32) -> Decision
    requires { length rules.now < 2 ^ 32 }
    ensures { result ≡ by_place rules.now place }
{
    match rules.get(place as usize) {
        Some(rule) => Decision {
            allow: allows(rule.action),
            rule: place + 1,
        },
        None => Decision {
            allow: false,
            rule: 0,
        },
    }
}
