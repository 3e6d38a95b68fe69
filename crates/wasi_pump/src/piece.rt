//! What becomes of one piece.

/// What one turn of a pump did.
#[derive(Clone, Copy, Debug, PartialEq, Eq)]
pub enum Piece {
    /// So many bytes were read, and accepted for writing.
    Moved(usize),
    /// The source's end was read, and a flush was accepted.
    Ended,
    /// A stream told a fault, or memory ran out.
    Stopped,
}
