//! Reading what a host has as text, into a buffer of the caller.

ghost use Rattle.std.specs.Prelude.{◌≡◌, ◌≤◌, length};
ghost use Rattle.wasi_embed.specs.HostDid.{session_of};

use crate::host::Host;
use crate::status::Status;
use crate::text::push_entries;
use std::alloc::AllocError;

/// Copies as many bytes as fit, and returns how many.
pub fn copy_front(from: &[u8], out: &mut [u8]) -> usize
    ensures few { result ≤ length from.now }
    ensures fits { result ≤ length out.old }
    ensures same { length out.new ≡ length out.old }
{
    let count = from.len().min(out.len());
    out[..count].copy_from_slice(&from[..count]);
    count
}

impl Host {
    /// Copies the text of the last line's reply, and its length; nothing where it doesn't fit.
    pub fn copy_reply(&self, out: &mut [u8]) -> (Status, usize) {
        let text = self.reply();
        if out.len() < text.len() {
            return (Status::Room, text.len());
        }
        (Status::Ok, copy_front(text, out))
    }

    /// Puts the text of what was asked since into what is unread.
    fn note(&mut self) -> Result<(), AllocError>
        ensures { session_of self.new ≡ session_of self.old }
    {
        let Some(open) = &self.session else {
            return Ok(());
        };
        let Some(entries) = open.entries() else {
            return Ok(());
        };
        self.noted = push_entries(self.alloc, &mut self.unread, entries, self.noted)?;
        Ok(())
    }

    /// Copies as much of the log's text as fits and wasn't read yet, and how much it is; 0 where
    /// nothing is left.
    pub fn read_log(&mut self, out: &mut [u8]) -> (Status, usize)
        ensures { session_of self.new ≡ session_of self.old }
    {
        if self.unread.is_empty() && self.note().is_err() {
            return (Status::Memory, 0);
        }
        let count = copy_front(self.unread.as_slice(), out);
        drop(self.unread.drain(..count));
        (Status::Ok, count)
    }
}
