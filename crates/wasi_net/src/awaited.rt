//! How a line waits: once, for all that it will look at.

ghost use Rattle.std.specs.Prelude.{◌≡◌, IfOk, OnErr, option_map};
ghost use Rattle.wasi_net.specs.Awaited.{asked_of, asked_by, WaitsFor};
ghost use Rattle.wasi_net.specs.Ready.{pollfd_of};

use crate::calls::events_of;
use crate::network::Network;
use crate::socket::Room;
use crate::system::System;
use libc::types::pollfd;
use std::alloc::AllocError;
use wasi_looks::{Look, Readiness};

/// A descriptor, with the event that is waited for.
fn pollfd_of(fd: i32, readiness: Readiness) -> pollfd
    ensures { result ≡ pollfd_of fd readiness }
{
    pollfd {
        fd,
        events: events_of(readiness),
        revents: 0,
    }
}

impl<S> Network<S> {
    ghost use Rattle.wasi_net.specs.Known.{known_sides};

    /// What the system is asked for this look; `None` where it needn't be asked: the socket isn't
    /// open, so that a call is answered at once, or it is known to have room.
    fn asked_of(&self, look: Look) -> Option<pollfd>
        ensures { result ≡ asked_of (known_sides self.now.sides look.sock) look.readiness }
    {
        let socket = self.sides.get(&look.sock)?;
        match (look.readiness, socket.room) {
            (Readiness::Write, Room::Found) => None,
            _ => Some(pollfd_of(socket.descriptor.number(), look.readiness)),
        }
    }

    /// What the system is asked for all these looks; `None` where one of them needn't wait. Takes
    /// memory for it.
    fn asked_by(&self, looks: &[Look]) -> Result<Option<Vec<pollfd>>, AllocError>
        ensures { IfOk result (λ asked. option_map (λ v. v.items) asked
            ≡ asked_by (known_sides self.now.sides) looks.now) }
    {
        let mut asked = Vec::new(self.allocator());
        for look in looks {
            let Some(entry) = self.asked_of(*look) else {
                return Ok(None);
            };
            asked.push(entry)?;
        }
        Ok(Some(asked))
    }

    /// Whether each of these looks was answered pending the last time, and no wait since has found
    /// that it may go on.
    pub fn are_awaited(&self, looks: &[Look]) -> bool {
        looks
            .iter()
            .all(|look| self.is_awaited(look.sock, look.readiness))
    }
}

impl<S: System> Network<S> {
    ghost use Rattle.wasi_net.specs.Known.{known_sides};

    /// Waits until one of these looks may go on, for at most so many milliseconds, or without limit
    /// where they are negative; and whether one may. The system is asked once, for all of them and
    /// for nothing else, and not at all where one of them needn't wait. What may go on isn't waited
    /// for any longer, until a call is pending again.
    pub fn wait_on(&mut self, looks: &[Look], timeout: i32) -> Result<bool, AllocError>
        ensures waited { IfOk result (λ ready. WaitsFor
            (asked_by (known_sides self.old.sides) looks.now) timeout ready
            (S.acts self.old.system) (S.acts self.new.system)) }
        ensures quiet { OnErr result (S.acts self.new.system ≡ S.acts self.old.system) }
        ensures sides { self.new.sides ≡ self.old.sides }
        ensures allowed { self.new.allowed ≡ self.old.allowed }
        ensures hosts { self.new.hosts ≡ self.old.hosts }
    {
        let Some(mut asked) = self.asked_by(looks)? else {
            return Ok(true);
        };
        let ready = self.system.poll(&mut asked, timeout);
        self.waiting.leave_ready(asked.as_slice());
        Ok(matches!(ready, Ok(count) if count > 0))
    }
}
