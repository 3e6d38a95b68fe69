//! Cases of host names.

use row_cases::Case;
use std::alloc::{AllocError, Global};
use std::fmt::Write;
use wasi_addr::IpAddress;
use wasi_names::{HostName, read_name};

/// Adds what a name is: the numbers of an address behind its family, or the domain.
fn push_name(text: &mut String, alloc: Global, name: &str) -> Result<(), AllocError> {
    match read_name(alloc, name)? {
        None => text.push_str("refused\n"),
        Some(HostName::Address(IpAddress::Ipv4((a, b, c, d)))) => {
            write!(text, "address 4 {a} {b} {c} {d}\n")
        }
        Some(HostName::Address(IpAddress::Ipv6((a, b, c, d, e, f, g, h)))) => {
            write!(text, "address 6 {a} {b} {c} {d} {e} {f} {g} {h}\n")
        }
        Some(HostName::Domain(domain)) => {
            let domain = str::from_utf8(domain.as_slice()).unwrap_or("that is no text");
            write!(text, "domain {domain}\n")
        }
    }
}

/// `names`: what each line of the input is as a host name.
pub fn names(text: &mut String, alloc: Global, case: &Case) -> Result<(), AllocError> {
    for name in case.input().lines() {
        push_name(text, alloc, name)?;
    }
    Ok(())
}
