//! A host, between its opening and its closing.

ghost use Rattle.std.specs.Prelude.{◌≡◌, None};
ghost use Rattle.wasi_embed.specs.HostDid.{session_of, DidLine, Stepped};

use crate::answer::AskRecord;
use crate::opened::Open;
use crate::status::Status;
use libc::types::pollfd;
use std::alloc::Global;
use wasi_session::{Reply, Step};
use wasi_steps::parse::parse_step;
use wasi_steps::reply::append_reply;

/// A host, between its opening and its closing. One that is closed does nothing more.
#[derive(Drop)]
pub struct Host {
    pub(crate) alloc: Global,
    pub(crate) session: Option<Open>,
    /// How many contexts it has.
    pub(crate) contexts: u32,
    /// The text of the last line's reply.
    pub(crate) reply: Vec<u8>,
    /// The text of the log that wasn't read yet.
    pub(crate) unread: Vec<u8>,
    /// How many entries have their text.
    pub(crate) noted: usize,
}

impl Host {
    /// Does a step, as [`Session::step`](wasi_session::Session::step) does. A host that is closed
    /// does none.
    pub fn step(&mut self, step: Step) -> Result<Reply, Status>
        ensures stepped { Stepped (session_of self.old) (session_of self.new) step result }
        ensures rest { self.new ≡ record self.old { session = self.new.session } }
    {
        match &mut self.session {
            Some(open) => open.step(step),
            None => Err(Status::Closed),
        }
    }

    /// Does the step of a line, and keeps the text of its reply.
    pub fn line(&mut self, line: &[u8]) -> Result<(), Status>
        ensures { ∥ DidLine self.old self.new line.now result ∥₁ }
    {
        let Some(step) = parse_step(self.alloc, line, self.contexts)? else {
            return Err(Status::Line);
        };
        self.reply.clear();
        let reply = self.step(step)?;
        append_reply(&mut self.reply, &reply)?;
        Ok(())
    }

    /// The text of the last line's reply.
    pub fn reply(&self) -> &[u8] {
        self.reply.as_slice()
    }

    /// Answers a check of this number.
    pub fn answer(&mut self, ask: u64, yes: bool) -> Status
        ensures { session_of self.new ≡ session_of self.old }
    {
        let Some(open) = &mut self.session else {
            return Status::Closed;
        };
        if open.decide(ask, yes) {
            Status::Ok
        } else {
            Status::NoAsk
        }
    }

    /// The first check after this number that waits for an answer.
    pub fn asked(&self, after: u64) -> Result<AskRecord, Status> {
        let Some(open) = &self.session else {
            return Err(Status::Closed);
        };
        match open.kept.network().first_after(after) {
            Some(ask) => Ok(AskRecord::of(ask)),
            None => Err(Status::NoAsk),
        }
    }

    /// What earlier answers left pending: descriptors, and the events that each waits for.
    pub fn awaited(&self) -> &[pollfd] {
        match &self.session {
            Some(open) => open.kept.network().inner().awaited(),
            None => &[],
        }
    }

    /// Ends the session, and closes what is open. Whatever is asked after it is told that the host
    /// is closed.
    pub fn close(&mut self) -> Status
        ensures { session_of self.new ≡ None }
    {
        match self.session.take() {
            Some(open) => {
                open.kept.finish();
                Status::Ok
            }
            None => Status::Closed,
        }
    }
}
