//! A case: its words, its texts, and how its streams behave.
//!
//! `given ` begins a line of its scenario, `rule ` one of its rules, `log ` one of a log; each line
//! that begins as none here is one of its input, and so is what follows `| `. In these `\n`, `\r`,
//! `\t` and `\xff` stand for a byte, and `\c` at the end of a line for no newline. `times N ` begins
//! a line of the input that stands there N times.
//!
//! `fail STREAM N` has the n-th call of a stream fail, counted from 1. `pieces N..` says how many
//! bytes a read gives and a write takes at most; where it has several numbers, the case is run for
//! each, and what came of it is printed once where it is the same. `takes N` says it for writes
//! alone. `room N` is how many bytes there is room for. `print last N` has only so many lines of what
//! was written printed, and `print counts` also what the streams counted. `try WHAT N M` has the
//! case run as it is, and then with a fault at each number from N to M.

use std::alloc::{AllocError, Global};
use world_io::{MemorySink, MemorySource};

/// How many bytes a read gives and a write takes at most, where a case doesn't say.
const PIECE_SIZE: usize = 4096;

/// Room for so many bytes, where a case doesn't say.
const ROOM: usize = 65_536;

/// A stream, or what starts one.
#[derive(Clone, Copy, Debug, PartialEq, Eq)]
pub enum Stream {
    Scenario,
    Rules,
    Log,
    Input,
    Output,
    Writer,
    Reader,
}

/// What is tried at each of some numbers.
#[derive(Clone, Copy, Debug, PartialEq, Eq)]
pub enum Tried {
    /// The call of this stream with the number fails.
    Fails(Stream),
    /// The call of the network with the number that a code may answer is answered by one.
    Network,
    /// So many bytes of the input are all of it.
    Front,
}

/// The numbers at which something is tried.
#[derive(Clone, Copy)]
pub struct Tries {
    pub what: Tried,
    pub first: u32,
    pub last: u32,
}

/// A case.
#[derive(Drop)]
pub struct Case {
    pub words: Vec<String>,
    pub scenario: Vec<u8>,
    pub rules: Vec<u8>,
    pub log: Vec<u8>,
    pub input: Vec<u8>,
    /// The calls that fail.
    pub fails: Vec<(Stream, u32)>,
    pub pieces: Vec<usize>,
    pub takes: Option<usize>,
    pub room: Option<usize>,
    /// So many of the last lines that were written are printed.
    pub last: Option<usize>,
    /// Whether it is printed what the streams counted.
    pub counts: bool,
    pub tries: Option<Tries>,
    /// How many bytes of the input are all of it.
    pub front: usize,
}

/// What stands for a byte behind a backslash.
const ESCAPES: [(&str, u8); 4] = [("n", b'\n'), ("r", b'\r'), ("t", b'\t'), ("xff", 255)];

/// The byte that stands behind a backslash and what follows it; the backslash where none does.
fn escaped(part: &str) -> (u8, &str) {
    for (name, byte) in ESCAPES {
        if let Some(rest) = part.strip_prefix(name) {
            return (byte, rest);
        }
    }
    (b'\\', part)
}

/// Adds a line.
fn push_line(text: &mut Vec<u8>, line: &str) -> Result<(), AllocError> {
    let front = line.strip_suffix("\\c");
    let mut parts = front.unwrap_or(line).split('\\');
    if let Some(part) = parts.next() {
        text.extend_from_slice(part.as_bytes())?;
    }
    for part in parts {
        let (byte, rest) = escaped(part);
        text.push(byte)?;
        text.extend_from_slice(rest.as_bytes())?;
    }
    if front.is_none() {
        text.push(b'\n')?;
    }
    Ok(())
}

/// The number that a word is; 0 for another word.
pub fn number(word: &str) -> usize {
    word.parse().unwrap_or(0)
}

/// The number of 32 bits that a word is; 0 for another word.
pub fn short_number(word: &str) -> u32 {
    word.parse().unwrap_or(0)
}

/// The stream of this name.
fn stream_of(name: &str) -> Stream {
    match name {
        "scenario" => Stream::Scenario,
        "rules" => Stream::Rules,
        "log" => Stream::Log,
        "output" => Stream::Output,
        "writer" => Stream::Writer,
        "reader" => Stream::Reader,
        _ => Stream::Input,
    }
}

/// What is tried, by its name.
fn tried_of(name: &str) -> Tried {
    match name {
        "network" => Tried::Network,
        "front" => Tried::Front,
        _ => Tried::Fails(stream_of(name)),
    }
}

impl Case {
    /// One that has no line yet.
    pub fn new(alloc: Global) -> Case {
        Case {
            words: Vec::new(alloc),
            scenario: Vec::new(alloc),
            rules: Vec::new(alloc),
            log: Vec::new(alloc),
            input: Vec::new(alloc),
            fails: Vec::new(alloc),
            pieces: Vec::new(alloc),
            takes: None,
            room: None,
            last: None,
            counts: false,
            tries: None,
            front: usize::MAX,
        }
    }

    /// Adds a line.
    pub fn add(&mut self, alloc: Global, line: &str) -> Result<(), AllocError> {
        let (first, rest) = line.split_once(' ').unwrap_or(("", line));
        match first {
            "given" => push_line(&mut self.scenario, rest),
            "rule" => push_line(&mut self.rules, rest),
            "log" => push_line(&mut self.log, rest),
            "|" => push_line(&mut self.input, rest),
            "$" => self.add_words(alloc, rest),
            "times" => self.add_times(rest),
            "fail" | "try" | "pieces" | "takes" | "room" | "print" => self.set(first, rest),
            _ => push_line(&mut self.input, line),
        }
    }

    fn add_words(&mut self, alloc: Global, words: &str) -> Result<(), AllocError> {
        for word in words.split(' ') {
            self.words.push(word.to_owned(alloc)?)?;
        }
        Ok(())
    }

    fn add_times(&mut self, rest: &str) -> Result<(), AllocError> {
        let (times, line) = rest.split_once(' ').unwrap_or(("", rest));
        for _ in 0..number(times) {
            push_line(&mut self.input, line)?;
        }
        Ok(())
    }

    /// Takes a line that says how the streams behave.
    fn set(&mut self, first: &str, rest: &str) -> Result<(), AllocError> {
        let (word, others) = rest.split_once(' ').unwrap_or((rest, ""));
        match first {
            "fail" => self.fails.push((stream_of(word), short_number(others)))?,
            "try" => {
                let (from, to) = others.split_once(' ').unwrap_or((others, others));
                self.tries = Some(Tries {
                    what: tried_of(word),
                    first: short_number(from),
                    last: short_number(to),
                });
            }
            "takes" => self.takes = Some(number(word)),
            "room" => self.room = Some(number(word)),
            "print" if word == "last" => self.last = Some(number(others)),
            "print" => self.counts = true,
            _ => {
                for piece in rest.split(' ') {
                    self.pieces.push(number(piece))?;
                }
            }
        }
        Ok(())
    }

    /// The word with this number, counted from 0; empty where there is none.
    pub fn word(&self, index: usize) -> &str {
        match self.words.get(index) {
            Some(word) => word.as_str(),
            None => "",
        }
    }

    /// The words from this one on, counted from 0.
    pub fn words_from(&self, index: usize) -> &[String] {
        &self.words.as_slice()[index.min(self.words.len())..]
    }

    /// The text that a stream reads.
    pub fn text(&self, of: Stream) -> &[u8] {
        match of {
            Stream::Scenario => self.scenario.as_slice(),
            Stream::Rules => self.rules.as_slice(),
            Stream::Log => self.log.as_slice(),
            _ => &self.input.as_slice()[..self.front.min(self.input.len())],
        }
    }

    /// The input, where it is text.
    pub fn input(&self) -> &str {
        str::from_utf8(self.text(Stream::Input)).unwrap_or("")
    }

    /// The numbers of the calls of a stream that fail.
    pub fn fails(&self, alloc: Global, of: Stream) -> Result<Vec<u32>, AllocError> {
        let mut numbers = Vec::new(alloc);
        for (stream, number) in self.fails.as_slice() {
            if *stream == of {
                numbers.push(*number)?;
            }
        }
        Ok(numbers)
    }

    /// The first size of pieces.
    fn piece(&self) -> usize {
        match self.pieces.first() {
            Some(piece) => *piece,
            None => PIECE_SIZE,
        }
    }

    /// Goes on to the next size of pieces.
    pub fn drop_piece(&mut self) {
        if self.pieces.len() > 1 {
            self.pieces.remove(0);
        }
    }

    /// A stream that reads.
    pub fn source(&self, alloc: Global, of: Stream) -> Result<MemorySource, AllocError> {
        let bytes = self.text(of).to_vec(alloc)?;
        let fails = self.fails(alloc, of)?;
        Ok(MemorySource::new(bytes, self.piece().max(1), fails))
    }

    /// A stream that writes.
    pub fn sink(&self, alloc: Global, of: Stream) -> Result<MemorySink, AllocError> {
        let takes = self.takes.unwrap_or(self.piece());
        let fails = self.fails(alloc, of)?;
        MemorySink::new(alloc, takes, self.room.unwrap_or(ROOM), fails)
    }
}
