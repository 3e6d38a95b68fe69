//! Codes of name lookup.

/// Why a name lookup failed (`ErrorCode` of `wasmtime-wasi`'s `ip_name_lookup` module, and
/// `error-code` of `wasi:sockets/ip-name-lookup@0.3`).
#[derive(Clone, Copy, Debug, PartialEq, Eq)]
pub enum ErrorCode {
    AccessDenied,
    InvalidArgument,
    NameUnresolvable,
    TemporaryResolverFailure,
    PermanentResolverFailure,
    Other,
}
