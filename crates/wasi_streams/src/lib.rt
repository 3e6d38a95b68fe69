//! What streams share: their errors, and what calls there are on them.
#![tactic(auto)]

pub mod error;
pub mod fault;
pub mod stream;

pub use error::StreamError;
pub use fault::{Fault, HostError};
pub use stream::{InputStream, OutputStream, Pollable, zeros};
pub use wasi_world::TrapKind;
