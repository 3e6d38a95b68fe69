//! A text as a source.

ghost use Rattle.std.specs.Prelude.{◌≡◌, ◌≤◌, drop, length};
ghost use Rattle.world_io.specs.Memory.{ended_after};

use world_io::{Failed, Source};

/// A text as a source, which is read from its start to its end. No read fails.
#[derive(Drop)]
pub struct TextSource {
    text: Vec<u8>,
    given: usize,
    ended: bool,
    ghost within: { given ≤ length text.items },
}

/// Whether the source has given its end, after a read into a buffer of this size gave this many
/// bytes.
fn ended_after(ended: bool, count: usize, size: usize) -> bool
    ensures { result ≡ ended_after ended count size }
{
    ended || (count == 0 && size > 0)
}

impl TextSource {
    ghost use Rattle.drawn_scripts.specs.Counted.{unread};
    ghost use Rattle.drawn_scripts.specs.TextStreams.{reading_of};

    /// A source of this text, from its start. Takes no memory.
    pub fn new(text: Vec<u8>) -> TextSource
        ensures { reading_of result ≡ unread text.items }
    {
        TextSource {
            text,
            given: 0,
            ended: false,
        }
    }

    fn left(&self) -> &[u8]
        ensures { result.now ≡ drop self.now.given self.now.text.items }
    {
        &self.text[self.given..]
    }
}

impl Source for TextSource {
    ghost use Rattle.drawn_scripts.specs.TextStreams.{reading_of};

    ghost reading = { reading_of };

    /// Gives as many bytes as are left and fit into the buffer.
    fn read(&mut self, buf: &mut [u8]) -> Result<usize, Failed> {
        let size = buf.len();
        let left = self.left();
        let count = size.min(left.len());
        buf[..count].copy_from_slice(&left[..count]);
        self.given += count;
        self.ended = ended_after(self.ended, count, size);
        Ok(count)
    }
}
