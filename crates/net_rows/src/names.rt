//! Names that lookups find, from a text in the form of the system's file /etc/hosts.

use std::alloc::Global;
use std::test::Fail;
use wasi_addr::IpAddress;
use wasi_net::Hosts;
use wasi_world::{NameText, Told};

/// Lines with comments, spaces and tabs of any number, other ends of lines, and such as begin with no
/// address.
const TEXT: &str =
    "# none yet\n127.0.0.1\tlocalhost  Loop.Example # not.this\n\n  ::1 localhost\r\nfar far\n256.0.0.1 far\n10.0.0.9\n10.0.0.9 near#far\n0:0:0:0:0:ffff:1.2.3.4 last";

const OWN: IpAddress = IpAddress::Ipv4((127, 0, 0, 1));

const OWN6: IpAddress = IpAddress::Ipv6((0, 0, 0, 0, 0, 0, 0, 1));

const NEAR: IpAddress = IpAddress::Ipv4((10, 0, 0, 9));

const LAST: IpAddress = IpAddress::Ipv6((0, 0, 0, 0, 0, 65_535, 258, 772));

/// Whether these addresses were found, or a code was returned where these are none.
fn has(told: &Told, wanted: &[IpAddress]) -> bool {
    match told {
        Told::Names(found) => found.as_slice() == wanted,
        Told::Code(_) => wanted.is_empty(),
        _ => false,
    }
}

/// Fails where a lookup of the name finds other addresses than these, or a code where these are some.
fn finds(hosts: &Hosts, alloc: Global, name: &[u8], wanted: &[IpAddress]) -> Result<(), Fail> {
    let name = NameText::copy_of(alloc, name)?;
    let told = hosts.lookup(alloc, &name)?;
    if !has(&told, wanted) {
        return Err(Fail::new("a lookup finds other addresses"));
    }
    Ok(())
}

#[test]
fn a_lookup_finds_the_addresses_of_its_name(rt: HostRuntime) -> Result<(), Fail> {
    let alloc = rt.alloc();
    let hosts = Hosts::parse(alloc, TEXT)?;
    finds(&hosts, alloc, b"localhost", &[OWN, OWN6])?;
    finds(&hosts, alloc, b"loop.example", &[OWN])?;
    finds(&hosts, alloc, b"near", &[NEAR])?;
    finds(&hosts, alloc, b"last", &[LAST])?;
    finds(&hosts, alloc, b"not.this", &[])?;
    finds(&hosts, alloc, b"far", &[])?;
    finds(&hosts, alloc, b"", &[])?;
    finds(&Hosts::none(alloc), alloc, b"localhost", &[])
}
