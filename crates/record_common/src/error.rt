//! How the calls of 0.2 end.

use wasi_addr::p2;
use wasi_streams::HostError;

/// The error of a 0.2 call (`SocketError` of the crate wasmtime-wasi).
pub type SocketError = HostError<p2::ErrorCode>;
