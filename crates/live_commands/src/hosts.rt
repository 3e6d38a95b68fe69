//! The file that lookups are answered from.

use std::alloc::Global;
use wasi_net::Hosts;
use wasi_program::scenario::{Unread, read_scenario};
use world_io::Source;

/// Why there are no names.
#[derive(Clone, Copy, Debug, PartialEq, Eq)]
pub enum NoHosts {
    /// The file can't be opened and read, isn't text, or has more than 1,048,576 bytes.
    Unreadable,
    /// Memory ran out.
    Memory,
}

/// The names in a text.
fn hosts_in(alloc: Global, text: &[u8]) -> Result<Hosts, NoHosts> {
    if text.len() > 1_048_576 {
        return Err(NoHosts::Unreadable);
    }
    let Ok(text) = str::from_utf8(text) else {
        return Err(NoHosts::Unreadable);
    };
    match Hosts::parse(alloc, text) {
        Ok(hosts) => Ok(hosts),
        Err(_) => Err(NoHosts::Memory),
    }
}

/// Reads a file in the form of the system's /etc/hosts to its end.
pub fn read_hosts<F: Source>(alloc: Global, file: &mut F) -> Result<Hosts, NoHosts> {
    match read_scenario(alloc, file) {
        Ok(text) => hosts_in(alloc, text.as_slice()),
        Err(Unread::Fault) => Err(NoHosts::Unreadable),
        Err(Unread::Memory(_)) => Err(NoHosts::Memory),
    }
}
