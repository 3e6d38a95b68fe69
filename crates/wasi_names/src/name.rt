//! What a host name is: an address, a domain, or refused.

ghost use Rattle.std.specs.Prelude.{◌≡◌, IfOk, option_map};
ghost use Rattle.url.specs.Host.{owned_host};
ghost use Rattle.wasi_names.specs.Names.{bare_ipv6, named, host_named, name_is, host_for};
ghost use Rattle.wasi_names.specs.Names.{read_as_written};

use crate::bytes::{has_barred_byte, has_colon, is_bare, is_in_brackets};
use crate::host::{host_as_written, host_in_brackets};
use std::alloc::{AllocError, Global};
use url::Host;
use wasi_addr::{IpAddress, from_ipv4_addr, from_ipv6_addr, lookup};
use wasi_world::{NameText, WasiSocketsCtx};

/// What a host name is (what `resolve-addresses` of `wasi:sockets/ip-name-lookup` parses its `name`
/// to).
///
/// An address answers itself. A domain is to be looked up; its text is as `url` gives it: in ASCII
/// and in lower case, with percent escapes decoded, and what isn't ASCII in the form of IDNA. A
/// label `xn--` of the name itself isn't checked.
#[derive(Drop)]
pub enum HostName {
    /// The name is an address, in text.
    Address(IpAddress),
    /// The name is a domain, in the text that is to be looked up.
    Domain(NameText),
}

/// The name that a host is.
fn name_of(host: Host<String>) -> HostName
    ensures { result ≡ named (owned_host host) }
{
    match host {
        Host::Domain(text) => HostName::Domain(NameText::from_vec(text.into_bytes())),
        Host::Ipv4(addr) => HostName::Address(IpAddress::Ipv4(from_ipv4_addr(addr))),
        Host::Ipv6(addr) => HostName::Address(IpAddress::Ipv6(from_ipv6_addr(addr))),
    }
}

/// The address that the name is as IPv6 text without brackets.
fn bare_name(alloc: Global, name: &str) -> Result<Option<HostName>, AllocError>
    ensures { IfOk result (λ host. host ≡ option_map named (bare_ipv6 name.now)) }
{
    if !is_bare(name) {
        return Ok(None);
    }
    match host_in_brackets(alloc, name)? {
        Some(Host::Ipv6(addr)) => Ok(Some(HostName::Address(IpAddress::Ipv6(from_ipv6_addr(
            addr,
        ))))),
        _ => Ok(None),
    }
}

/// What a name is that isn't IPv6 text without brackets.
fn written_name(alloc: Global, name: &str) -> Result<Option<HostName>, AllocError>
    ensures { IfOk result (λ host. host ≡ option_map named (read_as_written name.now)) }
{
    if name.is_empty() || has_barred_byte(name) {
        return Ok(None);
    }
    if has_colon(name) && !is_in_brackets(name) {
        return Ok(None);
    }
    match host_as_written(alloc, name)? {
        Some(host) => Ok(Some(name_of(host))),
        None => Ok(None),
    }
}

/// Reads the host name that a guest gives (the parse of `resolve-addresses` of
/// `wasi:sockets/ip-name-lookup`). `None` is a name that is refused, which the interface calls
/// `invalid-argument`.
///
/// The name is UTF-8 text of any length:
///
/// - One of hex digits, `:` and `.` alone is tried as IPv6 text first, since `::1` needs no
///   brackets.
/// - One is refused that is empty, that holds a tab, a line feed, a carriage return or one of
///   `/\?#@`, or that holds a `:` without beginning with `[` and ending with `]`.
/// - Any other is what the library `url` reads in `http://NAME/`, and is refused where `url`
///   refuses that. So IPv4 is read in each spelling that a URL may have (`0x7f.1`), and a name with
///   a zone is refused.
///
/// # Errors
///
/// `AllocError` where memory ran out, or where the text is too long for `url` (4 GB). Memory is
/// taken in proportion to the name, and all is given back but a domain's text.
pub fn read_name(alloc: Global, name: &str) -> Result<Option<HostName>, AllocError>
    ensures { IfOk result (λ host. host ≡ host_named name.now) }
{
    match bare_name(alloc, name)? {
        Some(address) => Ok(Some(address)),
        None => written_name(alloc, name),
    }
}

/// Reads the bytes of a host name by [`read_name`]; `None`, too, where they aren't UTF-8.
///
/// # Errors
///
/// `AllocError` where memory ran out, or where the text is too long for `url` (4 GB).
pub fn read_name_bytes(alloc: Global, name: &[u8]) -> Result<Option<HostName>, AllocError>
    ensures { IfOk result (λ host. host ≡ name_is name.now) }
{
    match str::from_utf8(name) {
        Ok(name) => read_name(alloc, name),
        Err(_) => Ok(None),
    }
}

/// The host that a context may look up by this name (the checks of `resolve-addresses`). A context
/// without name lookup gets `PermanentResolverFailure`, a name that is refused `InvalidArgument`.
///
/// # Errors
///
/// `AllocError` where [`read_name_bytes`] runs out of memory; the codes are in the inner `Result`.
pub fn host_for(
    alloc: Global,
    ctx: &WasiSocketsCtx,
    name: &NameText,
) -> Result<Result<HostName, lookup::ErrorCode>, AllocError>
    ensures { IfOk result (λ host. host ≡ host_for ctx.now name.now) }
{
    if !ctx.ip_name_lookup {
        return Ok(Err(lookup::ErrorCode::PermanentResolverFailure));
    }
    match read_name_bytes(alloc, name.as_slice())? {
        Some(host) => Ok(Ok(host)),
        None => Ok(Err(lookup::ErrorCode::InvalidArgument)),
    }
}
