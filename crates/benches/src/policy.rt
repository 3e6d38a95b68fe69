//! `policy FAMILY COUNT`: times what rules decide of a use of an address.

use anyhow::bail;
use std::fs;
use std::time::Instant;
use wasi_addr::{IpSocketAddress, Ipv4SocketAddress, Ipv6SocketAddress, SocketAddrUse};
use wasi_policy::Policy;

/// Reads the rules of rules.txt in this folder, and asks about so many addresses, which are made by
/// a rule, the same ones in each run. Prints how many nanoseconds the reading took, how many all
/// questions took together, and the sum of the lines of the rules that decided.
pub fn run(rt: HostRuntime, is_ipv6: bool, count: u32) -> anyhow::Result<()> {
    let text = fs::read(&rt, "rules.txt")?;
    let start = Instant::now(&rt)?;
    let Ok(policy) = Policy::parse(rt.alloc(), text.as_slice()) else {
        bail!("rules.txt has a line that is no rule");
    };
    let parsed = start.elapsed(&rt)?;
    let start = Instant::now(&rt)?;
    let mut state: u64 = 1;
    let mut sum: u64 = 0;
    for _ in 0..count {
        state = next(state);
        let decision = policy.decide(address(is_ipv6, state), SocketAddrUse::TcpConnect);
        sum = sum.wrapping_add(u64::from(decision.rule));
    }
    let took = start.elapsed(&rt)?;
    println!(rt; "{} {} {sum}", parsed.as_nanos(), took.as_nanos())?;
    Ok(())
}

/// The state of the numbers after this one.
fn next(state: u64) -> u64 {
    state
        .wrapping_mul(6_364_136_223_846_793_005)
        .wrapping_add(1_442_695_040_888_963_407)
}

/// An address in 10.0.0.0/8 or fd00::/16, by the high bits of the state.
fn address(is_ipv6: bool, state: u64) -> IpSocketAddress {
    let port = (state >> 16 & 65_535) as u16;
    let first = (state >> 48 & 65_535) as u16;
    let second = (state >> 32 & 65_535) as u16;
    if is_ipv6 {
        IpSocketAddress::Ipv6(Ipv6SocketAddress {
            port,
            flow_info: 0,
            address: (64_768, first, second, 0, 0, 0, 0, 1),
            scope_id: 0,
        })
    } else {
        IpSocketAddress::Ipv4(Ipv4SocketAddress {
            port,
            address: (
                10,
                (state >> 56 & 255) as u8,
                (state >> 48 & 255) as u8,
                (state >> 40 & 255) as u8,
            ),
        })
    }
}
