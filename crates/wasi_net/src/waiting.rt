//! What calls wait for that were answered pending.

ghost use Rattle.std.specs.Prelude.{◌≡◌, Result};
ghost use Rattle.wasi_net.specs.Acts.{after};
ghost use Rattle.wasi_net.specs.Acts as act;

use crate::calls::events_of;
use crate::system::System;
use libc::types::pollfd;
use std::alloc::{AllocError, Global};
use wasi_looks::Readiness;

/// The sockets that an answer left pending, and what for. Each readiness of a socket stands here
/// once.
#[derive(Drop)]
pub struct Waiting {
    asked: Vec<pollfd>,
}

impl Waiting {
    ghost use Rattle.std.specs.Prelude.{ℕ};
    ghost use Rattle.wasi_net.specs.declared.errno.Errno.{Errno};

    /// None.
    pub fn new(alloc: Global) -> Waiting {
        Waiting {
            asked: Vec::new(alloc),
        }
    }

    /// Takes memory for one more.
    pub fn reserve(&mut self) -> Result<(), AllocError> {
        self.asked.reserve(1)?;
        Ok(())
    }

    /// Waits no longer for this readiness of a socket.
    pub fn clear(&mut self, fd: i32, readiness: Readiness) {
        let events = events_of(readiness);
        self.asked.retain(|it| it.fd != fd || it.events != events);
    }

    /// Whether this readiness of a socket is waited for.
    pub fn has(&self, fd: i32, readiness: Readiness) -> bool {
        let events = events_of(readiness);
        self.asked
            .iter()
            .any(|it| it.fd == fd && it.events == events)
    }

    /// Waits for this readiness of a socket; there is memory for it.
    pub fn add(&mut self, fd: i32, readiness: Readiness) {
        self.clear(fd, readiness);
        let _ = self.asked.push(pollfd {
            fd,
            events: events_of(readiness),
            revents: 0,
        });
    }

    /// Waits no longer for a socket that is closed.
    pub fn forget(&mut self, fd: i32) {
        self.asked.retain(|it| it.fd != fd);
    }

    /// Waits no longer for what a wait has found ready.
    pub fn leave_ready(&mut self, found: &[pollfd]) {
        for it in found {
            if it.revents != 0 {
                let (fd, events) = (it.fd, it.events);
                self.asked
                    .retain(|kept| kept.fd != fd || kept.events != events);
            }
        }
    }

    /// The sockets that are waited for, and what for.
    pub fn asked(&self) -> &[pollfd] {
        self.asked.as_slice()
    }

    /// Waits until one of the sockets is ready, for at most so many milliseconds, or without limit
    /// where they are negative; and whether one is. What is ready isn't waited for any longer,
    /// until a call is pending again.
    pub fn wait<S: System>(&mut self, system: &mut S, timeout: i32) -> bool
        ensures { (r : Result ℕ Errno) × (S.acts system.new
            ≡ after (act.Poll self.old.asked.items timeout r) (S.acts system.old)) }
    {
        let ready = system.poll(&mut self.asked, timeout);
        self.asked.retain(|it| it.revents == 0);
        matches!(ready, Ok(count) if count > 0)
    }
}
