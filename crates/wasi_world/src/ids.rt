//! Names of operations, of network sockets and of resources.

ghost use Rattle.std.specs.Prelude.{◌≡◌, ◌+◌, ◌<◌, ◌^◌};

/// The name of an operation: the number of the line that began it, counted from 1, and its part of
/// that line. Part 0 is the line's own operation; what begins besides takes 1, 2, .. in order.
#[derive(Clone, Copy, Debug, PartialEq, Eq, PartialOrd, Ord)]
pub struct OpId {
    pub step: u32,
    pub part: u64,
}

/// A network socket is named by the operation that made it, a create or an accept, so no two
/// network sockets share a name.
pub type Sock = OpId;

/// The number of a resource: the k-th that is made is k, counted from 1, and it is never used
/// again.
pub type Handle = u32;

/// The names that a line gives to its operations.
#[derive(Clone, Copy, Debug, PartialEq, Eq)]
pub struct Ids {
    pub line: u32,
    pub next_part: u64,
}

impl Ids {
    /// The line's own operation.
    pub fn own(&self) -> OpId
        ensures { result ≡ record { step = self.now.line; part = 0 } }
    {
        OpId {
            step: self.line,
            part: 0,
        }
    }

    /// The next operation that begins in this line; takes no memory.
    pub fn begin(&mut self) -> OpId
        requires { self.old.next_part + 1 < 2 ^ 64 }
        ensures op { result ≡ record { step = self.old.line; part = self.old.next_part } }
        ensures next { self.new ≡ record {
          line = self.old.line;
          next_part = self.old.next_part + 1;
        } }
    {
        let op = OpId {
            step: self.line,
            part: self.next_part,
        };
        self.next_part += 1;
        op
    }
}
