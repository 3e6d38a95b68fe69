//! What a write stream's worker is to do.

use bytes::Bytes;

/// What the worker found to do.
#[derive(Drop)]
pub enum Task {
    /// Write this chunk, wholly.
    Write(Bytes),
    /// Flush the sink.
    Flush,
    /// End.
    Stop,
    /// Look again.
    Again,
}
