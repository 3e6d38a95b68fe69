//! What a rule matches, as a range of addresses and a range of ports.

ghost use Rattle.std.specs.Prelude.{◌≡◌, ◌≤◌, ◌<◌, ◌-◌, ◌^◌, IfOk, length};
ghost use Rattle.wasi_policy.specs.Decision.{is_about};
ghost use Rattle.wasi_policy.specs.Reach.{family_of, ip_number, block_low, block_high};
ghost use Rattle.wasi_policy.specs.Reach.{range_of, reach_of, reaches_from};

use crate::decide::{ipv4_number, ipv6_number, is_about};
use crate::rule::{Net, Rule};
use std::alloc::{AllocError, Global};
use wasi_addr::{IpAddress, SocketAddrUse, SocketAddressFamily};

/// What a rule matches of one use and one family: the addresses from one number to another, at the
/// ports from one to another.
#[derive(Clone, Copy, Debug, PartialEq, Eq)]
pub struct Reach {
    /// The rule's place among the rules, counted from 0.
    pub place: u32,
    pub low: u128,
    pub high: u128,
    pub least: u16,
    pub greatest: u16,
}

/// The family of an address.
pub fn family_of(address: IpAddress) -> SocketAddressFamily
    ensures { result ≡ family_of address }
{
    match address {
        IpAddress::Ipv4(_) => SocketAddressFamily::Ipv4,
        IpAddress::Ipv6(_) => SocketAddressFamily::Ipv6,
    }
}

/// An address as a number, the same for addresses of the two families with equal bits.
pub fn ip_number(address: IpAddress) -> u128
    ensures { result ≡ ip_number address }
{
    match address {
        IpAddress::Ipv4(address) => u128::from(ipv4_number(address)),
        IpAddress::Ipv6(address) => ipv6_number(address),
    }
}

/// The greatest number of so many bits.
#[tactic(auto, using(std::proofs::lemmas::Nat::one_shl, std::proofs::lemmas::Nat::pow_pos))]
fn last_of(bits: u8) -> u128
    requires { bits ≤ 128 }
    ensures { result ≡ 2 ^ bits - 1 }
{
    if bits == 128 {
        u128::MAX
    } else {
        (1u128 << bits) - 1
    }
}

/// The numbers that agree with this one but for so many bits at the end, from the least to the
/// greatest.
#[tactic(auto, using(std::proofs::lemmas::Nat::and_mask))]
fn block(number: u128, bits: u8) -> (u128, u128)
    requires { bits ≤ 128 }
    ensures low { result.0 ≡ block_low bits number }
    ensures high { result.1 ≡ block_high bits number }
{
    let last = last_of(bits);
    let low = number - (number & last);
    (low, low.saturating_add(last))
}

/// The addresses of a net that are of this family, if it has any.
pub fn range_of(net: Net, family: SocketAddressFamily) -> Option<(u128, u128)>
    ensures { result ≡ range_of net family }
{
    match (net, family) {
        (Net::Any, _) => Some((0, u128::MAX)),
        (Net::Ipv4(front, len), SocketAddressFamily::Ipv4) => Some(block(
            u128::from(ipv4_number(front)),
            32u8.saturating_sub(len),
        )),
        (Net::Ipv6(front, len), SocketAddressFamily::Ipv6) => {
            Some(block(ipv6_number(front), 128u8.saturating_sub(len)))
        }
        _ => None,
    }
}

/// What a rule matches of this use and this family, if it matches any of it.
fn reach_of(
    rule: &Rule,
    place: u32,
    usage: SocketAddrUse,
    family: SocketAddressFamily,
) -> Option<Reach>
    ensures { result ≡ reach_of rule.now place usage family }
{
    if !is_about(rule.usage, usage) {
        return None;
    }
    let (low, high) = range_of(rule.net, family)?;
    Some(Reach {
        place,
        low,
        high,
        least: rule.low,
        greatest: rule.high,
    })
}

/// What each of the rules matches of this use and this family, in the order of the rules. Takes
/// memory for it.
pub fn reaches_of(
    alloc: Global,
    rules: &[Rule],
    usage: SocketAddrUse,
    family: SocketAddressFamily,
) -> Result<Vec<Reach>, AllocError>
    requires { length rules.now < 2 ^ 32 }
    ensures { IfOk result (λ reaches. reaches.items ≡ reaches_from 0 rules.now usage family) }
{
    let mut reaches = Vec::new(alloc);
    for (at, rule) in rules.iter().enumerate() {
        if let Some(reach) = reach_of(rule, at as u32, usage, family) {
            reaches.push(reach)?;
        }
    }
    Ok(reaches)
}
