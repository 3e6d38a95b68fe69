//! Whether two rules match some use of some address both.

ghost use Rattle.std.specs.Prelude.{◌≡◌, ◌&&◌, ◌≢◌, true, nat_le, max, min};
ghost use Rattle.wasi_addr.specs.Address.{canonical, ip_of};
ghost use Rattle.wasi_policy.specs.Decision.{matches, allows, is_about};
ghost use Rattle.wasi_policy.specs.Reach.{family_of, range_of};
ghost use Rattle.wasi_policy.specs.Findings.{Overlap};
ghost use Rattle.wasi_policy.specs.Overlaps.{canonical_from, at_most, first_common, common_use};

use crate::decide::{allows, is_about, matches};
use crate::points::{AFTER_MAPPED, address_at, is_canonical};
use crate::reach::range_of;
use crate::rule::{Net, Rule};
use wasi_addr::{IpSocketAddress, SocketAddrUse, SocketAddressFamily};

/// The first number from this one on that a canonical address of the family has.
pub fn canonical_from(family: SocketAddressFamily, number: u128) -> Option<u128>
    ensures { result ≡ canonical_from family number }
{
    if is_canonical(family, number) {
        return Some(number);
    }
    match family {
        SocketAddressFamily::Ipv4 => None,
        SocketAddressFamily::Ipv6 => Some(AFTER_MAPPED),
    }
}

/// The number, if it isn't above this one.
fn at_most(most: u128, number: Option<u128>) -> Option<u128>
    ensures { result ≡ at_most most number }
{
    let number = number?;
    if number <= most { Some(number) } else { None }
}

/// The first number of a family that is in both nets.
fn first_common(one: Net, other: Net, family: SocketAddressFamily) -> Option<u128>
    ensures { result ≡ first_common (range_of one family) (range_of other family) family }
{
    let (low, high) = range_of(one, family)?;
    let (least, greatest) = range_of(other, family)?;
    at_most(high.min(greatest), canonical_from(family, low.max(least)))
}

/// A use that both are about, if there is one.
fn common_use(one: Option<SocketAddrUse>, other: Option<SocketAddrUse>) -> SocketAddrUse
    ensures { result ≡ common_use one other }
{
    match (one, other) {
        (Some(usage), _) => usage,
        (None, Some(usage)) => usage,
        (None, None) => SocketAddrUse::TcpBind,
    }
}

/// Whether both rules are about a use.
fn share_use(one: &Rule, other: &Rule) -> bool
    ensures { result ≡ is_about other.now.usage (common_use one.now.usage other.now.usage) }
{
    is_about(other.usage, common_use(one.usage, other.usage))
}

/// Whether a port is one of both rules.
fn share_port(one: &Rule, other: &Rule) -> bool
    ensures { result ≡ nat_le (max one.now.low other.now.low) (min one.now.high other.now.high) }
{
    one.low.max(other.low) <= one.high.min(other.high)
}

/// Whether both rules match this use of this address.
fn both_match(one: &Rule, other: &Rule, address: IpSocketAddress, usage: SocketAddrUse) -> bool
    ensures { result ≡ (matches one.now address usage && matches other.now address usage) }
{
    matches(one, address, usage) && matches(other, address, usage)
}

/// Whether both rules match some use of some address of this family.
fn overlap_in(one: &Rule, other: &Rule, family: SocketAddressFamily) -> bool
    ensures sound { result ≡ true → Overlap one.now other.now }
    ensures complete { (both : Overlap one.now other.now)
        → family_of (canonical (ip_of both.address)) ≡ family → result ≡ true }
{
    let Some(number) = first_common(one.net, other.net, family) else {
        return false;
    };
    let address = address_at(family, number, one.low.max(other.low));
    both_match(one, other, address, common_use(one.usage, other.usage))
}

/// Whether both rules match some use of some address. Takes no memory.
pub fn overlap(one: &Rule, other: &Rule) -> bool
    ensures sound { result ≡ true → Overlap one.now other.now }
    ensures complete { Overlap one.now other.now → result ≡ true }
{
    if overlap_in(one, other, SocketAddressFamily::Ipv4) {
        return true;
    }
    overlap_in(one, other, SocketAddressFamily::Ipv6)
}

/// Whether one allows and the other denies what both match.
pub fn disagree(one: &Rule, other: &Rule) -> bool
    ensures differ { result ≡ true → allows one.now.action ≢ allows other.now.action }
    ensures overlap { result ≡ true → Overlap one.now other.now }
    ensures complete { allows one.now.action ≢ allows other.now.action
        → Overlap one.now other.now → result ≡ true }
{
    if allows(one.action) == allows(other.action) {
        return false;
    }
    if !share_port(one, other) || !share_use(one, other) {
        return false;
    }
    overlap(one, other)
}
