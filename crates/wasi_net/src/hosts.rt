//! Host names with their addresses, which lookups are answered from.

ghost use Rattle.std.specs.Prelude.{◌≡◌, IfOk, [], bytes_eq};
ghost use Rattle.wasi_net.specs.Hosts.{addresses_of, found_told, lookup_told};

use std::alloc::{AllocError, Global};
use std::net::IpAddr;
use wasi_addr::{ErrorCode, IpAddress};
use wasi_world::{IpList, NameText, Told};

/// A name and one of its addresses.
#[derive(Drop)]
pub struct Named {
    pub name: Vec<u8>,
    pub address: IpAddress,
}

/// Host names with their addresses, in order. A name stands there once for each of its addresses.
#[derive(Drop)]
pub struct Hosts {
    entries: Vec<Named>,
}

/// The line up to its comment.
fn without_comment(line: &str) -> &str {
    match line.split_once('#') {
        Some((before, _)) => before,
        None => line,
    }
}

/// Adds each name of a line to its address. A line that doesn't begin with an address adds nothing.
fn add_line(entries: &mut Vec<Named>, alloc: Global, line: &str) -> Result<(), AllocError> {
    let mut words = without_comment(line).split_whitespace();
    let Some(first) = words.next() else {
        return Ok(());
    };
    let Ok(address) = IpAddr::parse_ascii(first.as_bytes()) else {
        return Ok(());
    };
    let address = IpAddress::from_std(address);
    for name in words {
        let name = name.as_bytes().to_ascii_lowercase(alloc)?;
        entries.push(Named { name, address })?;
    }
    Ok(())
}

/// The answer to a lookup that found these addresses.
fn found_told(addresses: Vec<IpAddress>) -> Told
    ensures { result ≡ found_told addresses.items }
{
    if addresses.is_empty() {
        return Told::Code(ErrorCode::AccessDenied);
    }
    Told::Names(IpList::from_vec(addresses))
}

impl Hosts {
    ghost use Rattle.wasi_world.specs.Fits.{IsNames};

    /// No names, so that no lookup finds one.
    pub fn none(alloc: Global) -> Hosts
        ensures { result.entries.items ≡ [] }
    {
        Hosts {
            entries: Vec::new(alloc),
        }
    }

    /// The names of a text in the form of the system's file /etc/hosts: on each line an address,
    /// and then its names. What follows a `#` is a comment, other lines are passed over, and names
    /// are kept in lower case, as lookups have them. Takes memory for the names.
    pub fn parse(alloc: Global, text: &str) -> Result<Hosts, AllocError> {
        let mut entries = Vec::new(alloc);
        for line in text.lines() {
            add_line(&mut entries, alloc, line)?;
        }
        Ok(Hosts { entries })
    }

    /// The addresses of a name, in order. Takes memory for them.
    fn addresses(&self, alloc: Global, host: &[u8]) -> Result<Vec<IpAddress>, AllocError>
        ensures { IfOk result (λ found. found.items
            ≡ addresses_of host.now self.now.entries.items) }
    {
        let mut found = Vec::new(alloc);
        for named in &self.entries {
            if named.name.as_slice() == host {
                found.push(named.address)?;
            }
        }
        Ok(found)
    }

    /// The answer to a lookup: the addresses of the name, or a code where there is none. Takes
    /// memory for them.
    pub fn lookup(&self, alloc: Global, host: &NameText) -> Result<Told, AllocError>
        ensures told { IfOk result (λ told. told ≡ lookup_told self.now.entries.items host.now) }
        ensures fits { IfOk result IsNames }
    {
        let found = self.addresses(alloc, host.as_slice())?;
        Ok(found_told(found))
    }
}
