//! What a line depends on where it looks at something.

ghost use Rattle.std.specs.Prelude.{◌≡◌, IfOk};
ghost use Rattle.step_looks.specs.Outlooks.{Added, to_read, to_write};

use std::alloc::AllocError;
use wasi_looks::{Look, Readiness};
use wasi_world::Sock;

/// What becomes of a line's look at something.
#[derive(Clone, Copy, Debug, PartialEq, Eq)]
pub enum Outlook {
    /// It is ready or refused, whatever the network answers.
    Ready,
    /// It isn't ready, whatever happens on the network.
    Held,
    /// It is ready where a look at this network socket is, or something can go on there that it
    /// waits for.
    On(Look),
}

impl Outlook {
    /// Adds it to the looks before it, and returns whether they are still waited for: they aren't
    /// where this is ready. Takes memory for a look.
    pub(crate) fn add_to(self, looks: &mut Vec<Look>) -> Result<bool, AllocError>
        ensures { IfOk result (λ goes_on. Added goes_on self looks.old.items looks.new.items) }
    {
        match self {
            Outlook::Ready => Ok(false),
            Outlook::Held => Ok(true),
            Outlook::On(look) => {
                looks.push(look)?;
                Ok(true)
            }
        }
    }

    /// That of what is read from a network socket, if there is one.
    pub(crate) fn to_read(side: Option<Sock>) -> Outlook
        ensures { result ≡ to_read side }
    {
        match side {
            Some(sock) => Outlook::On(Look {
                sock,
                readiness: Readiness::Read,
            }),
            None => Outlook::Ready,
        }
    }

    /// That of what is written to a network socket, if there is one.
    pub(crate) fn to_write(side: Option<Sock>) -> Outlook
        ensures { result ≡ to_write side }
    {
        match side {
            Some(sock) => Outlook::On(Look {
                sock,
                readiness: Readiness::Write,
            }),
            None => Outlook::Ready,
        }
    }
}
