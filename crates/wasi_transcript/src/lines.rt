//! The lines of a source, one after another.

ghost use Rattle.std.specs.Prelude.{◌≡◌, ◌+◌, ◌-◌, ◌<◌, ◌≤◌, ◌∷◌, [], ℕ, length, take, IfOk, OnOk};
ghost use Rattle.world_text.specs.Lines.{lines_of, rest_of, lines_from, rest_from};
ghost use Rattle.wasi_transcript.specs.Reading.{TakesLine, ReadsPiece, Reads};

use std::alloc::{AllocError, Global};
use std::marker::Model;
use world_io::Source;
use world_text::lines::newline_at;

/// How many bytes are read at a time.
const PIECE_SIZE: usize = 4096;

/// What a source gives next.
#[derive(Clone, Copy, Debug, PartialEq, Eq)]
pub enum NextLine {
    /// A whole line within the limit.
    Whole,
    /// The source gave its end, and every line was whole.
    End,
    /// The source gave its end inside a line.
    Unfinished,
    /// The source gave a byte past the limit, and every whole line within it was given.
    TooLong,
    /// A read failed.
    Failed,
}

/// Reads the lines of a source, each as soon as it is whole. It reads at most one byte past its
/// limit, and holds at most 4,096 bytes that it has read and not given.
#[derive(Drop)]
pub struct LineReader {
    piece: Vec<u8>,
    start: usize,
    limit: usize,
    taken: usize,
}

impl Model for LineReader {
    ghost use Rattle.std.specs.Prelude.{◌≤◌, ◌<◌, ◌+◌, ◌^◌, drop, length};
    ghost use Rattle.wasi_transcript.specs.Reading.{Held};

    ghost Value = { Held };

    ghost view = { λ r. record {
      limit = r.limit;
      taken = r.taken;
      held = drop r.start r.piece.items;
    } };

    ghost invariant = { λ r. (r.start ≤ length r.piece.items) × (r.taken ≤ r.limit + 1)
        × (r.limit < 2 ^ 32) };
}

/// What one read gave.
enum Piece {
    Some,
    End,
    Failed,
}

impl LineReader {
    /// A reader of the lines that lie within the first `limit` bytes. Takes no memory.
    pub fn new(alloc: Global, limit: u32) -> LineReader
        ensures { result ≡ record { limit = limit; taken = 0; held = [] } }
    {
        LineReader {
            piece: Vec::new(alloc),
            start: 0,
            limit: limit as usize,
            taken: 0,
        }
    }

    /// Takes the rest of a line from what is held, and returns `true` where it is whole; else it
    /// takes all that is held.
    fn take_line(&mut self, line: &mut Vec<u8>) -> Result<bool, AllocError>
        ensures whole { IfOk result (λ whole. TakesLine self.old self.new line.old.items
            line.new.items whole) }
        ensures limit { self.new.limit ≡ self.old.limit }
        ensures taken { self.new.taken ≡ self.old.taken }
        ensures within { self.new.taken ≤ self.new.limit + 1 }
    {
        let held = &self.piece[self.start..];
        match newline_at(held) {
            Some(end) => {
                line.extend_from_slice(&held[..end])?;
                self.start += end + 1;
                Ok(true)
            }
            None => {
                line.extend_from_slice(held)?;
                self.start = self.piece.len();
                Ok(false)
            }
        }
    }

    /// Reads one more piece, of which is held what lies within the limit.
    fn read_piece<S: Source>(&mut self, source: &mut S) -> Result<Piece, AllocError>
        requires nothing { self.old.held ≡ [] }
        requires within { self.old.taken ≤ self.old.limit }
        ensures { ReadsPiece (S.reading source.old) (S.reading source.new) self.old self.new
            result }
    {
        let mut buffer = [0u8; PIECE_SIZE];
        let room = (self.limit + 1 - self.taken).min(PIECE_SIZE);
        let Ok(count) = source.read(&mut buffer[..room]) else {
            return Ok(Piece::Failed);
        };
        if count == 0 {
            return Ok(Piece::End);
        }
        let within = count.min(self.limit - self.taken);
        self.taken += count;
        self.start = 0;
        self.piece.clear();
        self.piece.extend_from_slice(&buffer[..within])?;
        Ok(Piece::Some)
    }

    /// Puts the next line, without its newline, into `line`, in place of what that held. Where no
    /// whole line is left, `line` is what follows the last newline within the limit. Takes memory
    /// for the line; out of memory, some of what was held may be lost.
    pub fn next<S: Source>(
        &mut self,
        source: &mut S,
        line: &mut Vec<u8>,
    ) -> Result<NextLine, AllocError>
        ensures { Reads (S.reading source.old) (S.reading source.new) self.old self.new
            line.new.items result }
    {
        line.clear();
        'reading: loop {
            if self.take_line(line)? {
                return Ok(NextLine::Whole);
            }
            if self.taken > self.limit {
                return Ok(NextLine::TooLong);
            }
            match self.read_piece(source)? {
                Piece::Some => {}
                Piece::End if line.is_empty() => return Ok(NextLine::End),
                Piece::End => return Ok(NextLine::Unfinished),
                Piece::Failed => return Ok(NextLine::Failed),
            }
        }
    }
}
