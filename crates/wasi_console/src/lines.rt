//! The lines of an input, so that the one at which a run stopped can be shown.

ghost use Rattle.std.specs.Prelude.{◌≤◌, length};

use memchr::{memchr, memrchr};
use std::fmt::{self, Display, Formatter, Write};
use world_io::{Failed, Source};

/// How many bytes of a line are shown at most.
const MOST_SHOWN: usize = 80;

/// The size of the pieces that are remembered; scripts are read in pieces of this size.
const PIECE_SIZE: usize = 4096;

/// The first bytes of a line, at most 80. Displayed with each byte that isn't printable ASCII
/// escaped, as `\n` or `\xff`.
#[derive(Clone, Copy)]
pub struct Front {
    bytes: [u8; MOST_SHOWN],
    len: usize,
    is_ended: bool,
    ghost within: { len ≤ 80 },
}

impl Front {
    fn new() -> Front {
        Front {
            bytes: [0; MOST_SHOWN],
            len: 0,
            is_ended: false,
        }
    }

    /// Whether a newline ends the line, as far as it was read.
    pub fn is_ended(&self) -> bool {
        self.is_ended
    }

    /// The bytes that are kept.
    pub fn bytes(&self) -> &[u8] {
        &self.bytes[..self.len]
    }

    /// Adds as many of these bytes as there is room for.
    fn extend(&mut self, more: &[u8]) {
        let count = more.len().min(MOST_SHOWN - self.len);
        let end = self.len + count;
        self.bytes[self.len..end].copy_from_slice(&more[..count]);
        self.len = end;
    }
}

impl Display for Front {
    fn fmt<W: Write>(&self, f: &mut Formatter<W>) -> fmt::Result {
        write!(f, "{}", self.bytes().escape_ascii())
    }
}

/// The bytes before the first newline.
fn first_line(bytes: &[u8]) -> &[u8]
    ensures { length result.now ≤ length bytes.now }
{
    match memchr(b'\n', bytes) {
        Some(end) => &bytes[..end],
        None => bytes,
    }
}

/// How many newlines there are in at most 255 bytes.
fn few_newlines(bytes: &[u8]) -> u8 {
    let mut count: u8 = 0;
    for byte in bytes {
        // A sum with no branch and of one byte, so that many bytes are looked at in one instruction.
        count = count.wrapping_add(u8::from(*byte == b'\n'));
    }
    count
}

/// How many newlines there are in a piece.
fn newlines(piece: &[u8]) -> u32 {
    let mut count: u32 = 0;
    for bytes in piece.chunks(255) {
        count = count.wrapping_add(u32::from(few_newlines(bytes)));
    }
    count
}

/// The last piece of an input, and where it began.
#[derive(Drop)]
struct LastPiece {
    /// The line in which the piece began, counted from 1.
    line: u64,
    /// What earlier pieces gave of that line.
    front: Front,
    bytes: [u8; PIECE_SIZE],
    len: usize,
}

impl LastPiece {
    fn new() -> LastPiece {
        LastPiece {
            line: 1,
            front: Front::new(),
            bytes: [0; PIECE_SIZE],
            len: 0,
        }
    }

    fn bytes(&self) -> &[u8] {
        &self.bytes[..self.len.min(PIECE_SIZE)]
    }

    /// Goes on to the line in which the piece ended.
    fn settle(&mut self) {
        let bytes = self.bytes();
        let mut line = self.line;
        let mut front = self.front;
        let mut begun = bytes;
        if let Some(end) = memrchr(b'\n', bytes) {
            line = line.saturating_add(u64::from(newlines(bytes)));
            front = Front::new();
            begun = &bytes[end + 1..];
        }
        front.extend(begun);
        self.line = line;
        self.front = front;
        self.len = 0;
    }

    /// Keeps the next piece, and where it is empty, as at the end of the input, the last one still.
    /// One that is larger than those of a script is not kept, and no line is found from then on.
    fn remember(&mut self, piece: &[u8]) {
        let len = piece.len();
        if len == 0 {
            return;
        }
        self.settle();
        if len > PIECE_SIZE {
            self.line = u64::MAX;
            return;
        }
        self.bytes[..len].copy_from_slice(piece);
        self.len = len;
    }

    /// The first bytes of this line, if it lies in the piece or began before it and isn't over.
    fn line(&self, number: u64) -> Option<Front> {
        let mut front = self.front;
        let mut left = number.checked_sub(self.line)?;
        let mut rest = self.bytes();
        for _ in 0..PIECE_SIZE {
            let line = first_line(rest);
            if left == 0 {
                front.extend(line);
                front.is_ended = line.len() < rest.len();
                return Some(front);
            }
            if line.len() == rest.len() {
                return None;
            }
            front = Front::new();
            rest = &rest[line.len() + 1..];
            left -= 1;
        }
        None
    }
}

/// A source that passes on what another one gives, and remembers the last piece of it, of at most
/// 4096 bytes. Takes no memory beside its own.
#[derive(Drop)]
pub struct LineSource<S> {
    inner: S,
    last: LastPiece,
}

impl<S> LineSource<S> {
    /// A source that passes on what `inner` gives, before its first read. Takes no memory.
    pub fn new(inner: S) -> LineSource<S> {
        LineSource {
            inner,
            last: LastPiece::new(),
        }
    }

    /// The first bytes of this line, counted from 1, if its newline was read last or not yet.
    pub fn line(&self, number: u64) -> Option<Front> {
        self.last.line(number)
    }
}

impl<S: Source> Source for LineSource<S> {
    ghost reading = { λ s. S.reading s.inner };

    /// Reads from the source within, and remembers the piece.
    fn read(&mut self, buf: &mut [u8]) -> Result<usize, Failed> {
        let count = self.inner.read(buf)?;
        self.last.remember(&buf[..count]);
        Ok(count)
    }
}

/// The first bytes of the line with this number, counted from 1, of what a source gives; `None`
/// where it has no such line, or a read fails before it.
pub fn line_of<S: Source + Drop>(source: S, number: u64) -> Option<Front> {
    let mut lines = LineSource::new(source);
    let mut piece = [0; PIECE_SIZE];
    let mut found = None;
    for _ in 0..u64::MAX {
        let Ok(count) = lines.read(&mut piece) else {
            return found;
        };
        if lines.last.line > number {
            return found;
        }
        found = lines.line(number);
        if count == 0 {
            return found;
        }
    }
    found
}

/// The first bytes of the line with this number, counted from 1, of a text; `None` where it has no
/// such line.
pub fn front_in(text: &[u8], number: u64) -> Option<Front> {
    let mut last = LastPiece::new();
    for piece in text.chunks(PIECE_SIZE) {
        last.remember(piece);
        if last.line(number.saturating_add(1)).is_some() {
            break;
        }
    }
    last.line(number)
}
