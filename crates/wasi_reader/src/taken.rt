//! What an owner takes from a read stream's lock, and what its worker puts there.

use bytes::Bytes;
use wasi_streams::StreamError;

/// What the owner was given.
#[derive(Drop)]
pub enum Taken {
    /// The chunk in the slot.
    Chunk(Bytes),
    /// Nothing yet.
    Nothing,
    /// How the stream ended.
    Told(StreamError),
}

/// What became of the worker's chunk.
#[derive(Drop)]
pub enum Offered {
    /// It is in the slot.
    Put,
    /// The slot is full, and the chunk comes back.
    Full(Bytes),
    /// The stream was stopped, and the chunk is lost.
    Stopped,
    /// There was no memory for it in the line, and it is lost.
    Refused,
}
