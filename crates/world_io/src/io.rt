//! Sources and sinks of bytes.

/// A read, a write or a flush that failed. Its object counted a fault, and no byte moved.
#[derive(Clone, Copy, Debug, PartialEq, Eq)]
pub struct Failed;

/// Gives bytes. What is known of it is its ghost `reading`: the bytes left, where it reports them,
/// whether it gave its end, and its count of faults, which never falls. Once it gave its end that
/// stays known, even if it gives more later.
pub trait Source {
    ghost use Rattle.std.specs.Prelude.{length};
    ghost use Rattle.world_io.specs.Io.{Reading, HasRead};

    ghost reading: { Self → Reading };

    /// Puts bytes into the front of the buffer and returns how many. None into a buffer that isn't
    /// empty is the end, and where the bytes are reported that comes only where none is left.
    fn read(&mut self, buf: &mut [u8]) -> Result<usize, Failed>
        ensures { HasRead (reading self.old) (reading self.new) (length buf.old) buf.new result };
}

/// Takes bytes. What is known of it is its ghost `writing`: the bytes written and whether they were
/// flushed, where it reports them, its count of faults and its count of refused pieces; neither
/// falls.
pub trait Sink {
    ghost use Rattle.world_io.specs.Io.{Writing, HasWritten, HasFlushed};

    ghost writing: { Self → Writing };

    /// Takes a prefix of the bytes and returns how many. A piece that isn't empty and of which it
    /// takes nothing is counted as refused.
    fn write(&mut self, bytes: &[u8]) -> Result<usize, Failed>
        ensures { HasWritten (writing self.old) (writing self.new) bytes.now result };

    /// Flushes what was written. `Failed`: a fault was counted.
    fn flush(&mut self) -> Result<(), Failed>
        ensures { HasFlushed (writing self.old) (writing self.new) result };
}
