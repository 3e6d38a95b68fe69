//! Looks at a socket and at its streams: whether they are ready.

ghost use Rattle.std.specs.Prelude.{◌≡◌, ◌+◌, ◌<◌, ◌^◌, false};
ghost use Rattle.wasi_world.specs.Asks.{AsksFor};
ghost use Rattle.tcp_records.specs.Looks.{wait_writer, waits_told, look_told, over_told};
ghost use Rattle.tcp_records.specs.Looks.{read_told, ready_socket, ready_listening, ready_reader};
ghost use Rattle.tcp_records.specs.Looks.{ready_writer, socket_ids, socket_begins};
ghost use Rattle.record_common.specs.Stops.{fault_outcome};
ghost use Rattle.tcp_records.specs.Listening.{ids_of};
ghost use Rattle.tcp_records.specs.Sides.{Balances};
ghost use Rattle.record_common.specs.Sides.{no_socket};
ghost use Rattle.tcp_records.specs.InProgress.{is_connect};

use crate::socket::TcpRecord;
use crate::tcp_binding::AsyncOperation;
use crate::tcp_listening::Listening;
use std::alloc::AllocError;
use wasi_streams::{Fault, StreamError};
use wasi_world::{Answer, Ids, OpId, Refusal, TrapKind, World};

/// Whether a look at a connect found it ended; a refusal is an end, too.
fn is_over(polled: Result<Answer<()>, Refusal>) -> Result<bool, Fault>
    ensures { fault_outcome result ≡ over_told polled }
{
    match polled {
        Ok(Answer::Pending) => Ok(false),
        Ok(Answer::Ready(())) | Err(Refusal::Code(_)) => Ok(true),
        Err(Refusal::Memory(e)) => Err(Fault::Memory(e)),
    }
}

/// Whether a look at a reader or a listener found it ready.
fn is_read(looked: Result<Answer<()>, AllocError>) -> Result<bool, Fault>
    ensures { fault_outcome result ≡ read_told looked }
{
    match looked {
        Ok(Answer::Ready(())) => Ok(true),
        Ok(Answer::Pending) => Ok(false),
        Err(e) => Err(Fault::Memory(e)),
    }
}

/// Whether a look at a writer found it ready; an error is ready, too.
fn is_ready(looked: Result<Answer<()>, StreamError>) -> Result<bool, Fault>
    ensures { fault_outcome result ≡ look_told looked }
{
    match looked {
        Ok(Answer::Pending) => Ok(false),
        Err(StreamError::Memory(e)) => Err(Fault::Memory(e)),
        Ok(Answer::Ready(())) | Err(_) => Ok(true),
    }
}

/// What a look at a writer tells a drop that waits for it; an error ends the wait.
fn wait_answer(looked: Result<Answer<()>, StreamError>) -> Result<Answer<()>, AllocError>
    ensures { result ≡ waits_told looked }
{
    match looked {
        Ok(answer) => Ok(answer),
        Err(StreamError::Memory(e)) => Err(e),
        Err(_) => Ok(Answer::Ready(())),
    }
}

impl TcpRecord {
    /// Whether the socket is ready. A connect in progress is polled, and stays in progress. With no
    /// operation in progress the accept of a listener is polled, and keeps its result. Any other
    /// socket is ready.
    pub fn socket_ready<W: World>(&mut self, world: &mut W, ids: &mut Ids) -> Result<bool, Fault>
        requires open { (W.seen world.old).ended ≡ false }
        requires names { ids.old.next_part + 1 < 2 ^ 64 }
        ensures asked { AsksFor (ready_socket ids.old self.old) (W.seen world.old)
            (W.seen world.new) (λ ready. (ready, self.new)) (fault_outcome result) }
        ensures ids { ids.new ≡ socket_ids self.old ids.old (is_connect self.old.in_progress) }
        ensures sides { Balances (W.seen world.old) (W.seen world.new) no_socket self.old
            self.new }
    {
        if self.in_progress.is_started(AsyncOperation::Connect) {
            let polled = self.inner.poll_finish_connect(world);
            return is_over(polled);
        }
        if !self.in_progress.is_nothing() {
            return Ok(true);
        }
        self.accept_ready(world, ids)
    }

    /// Polls the accept of a listener, which keeps its result; a socket that doesn't listen is
    /// ready.
    fn accept_ready<W: World>(&mut self, world: &mut W, ids: &mut Ids) -> Result<bool, Fault>
        requires open { (W.seen world.old).ended ≡ false }
        requires names { ids.old.next_part + 1 < 2 ^ 64 }
        ensures asked { AsksFor (ready_listening ids.old self.old self.old.listening)
            (W.seen world.old) (W.seen world.new) (λ ready. (ready, self.new))
            (fault_outcome result) }
        ensures ids { ids.new ≡ ids_of self.old.listening ids.old }
        ensures sides { Balances (W.seen world.old) (W.seen world.new) no_socket self.old
            self.new }
    {
        match &mut self.listening {
            Listening::Accepts(listener) => is_read(listener.poll_ready(world, ids)),
            Listening::Not => Ok(true),
            Listening::Begins(_) => Ok(true),
            Listening::Unclosed(_) => Ok(true),
        }
    }

    /// Whether there is something to read from the connection: bytes, the end or a code.
    pub fn input_ready<W: World>(&mut self, world: &mut W, op: OpId) -> Result<bool, Fault>
        requires { (W.seen world.old).ended ≡ false }
        ensures asked { AsksFor (ready_reader op self.old self.old.streams) (W.seen world.old)
            (W.seen world.new) (λ ready. (ready, self.new)) (fault_outcome result) }
        ensures inner { self.new.inner ≡ self.old.inner }
        ensures listening { self.new.listening ≡ self.old.listening }
    {
        match &mut self.streams {
            Some(streams) => is_read(streams.reader.poll_ready(world, op)),
            None => Err(Fault::Trap(TrapKind::NoSuchHandle)),
        }
    }

    /// Whether something may be written to the connection; an error is ready, too.
    pub fn output_ready<W: World>(&mut self, world: &mut W, op: OpId) -> Result<bool, Fault>
        requires { (W.seen world.old).ended ≡ false }
        ensures asked { AsksFor (ready_writer op self.old self.old.streams) (W.seen world.old)
            (W.seen world.new) (λ ready. (ready, self.new)) (fault_outcome result) }
        ensures inner { self.new.inner ≡ self.old.inner }
        ensures listening { self.new.listening ≡ self.old.listening }
    {
        match &mut self.streams {
            Some(streams) => is_ready(streams.writer.poll_ready(world, op)),
            None => Err(Fault::Trap(TrapKind::NoSuchHandle)),
        }
    }

    /// Looks at the writer once, for the drop of an output that waits for it: nothing is permitted
    /// any more. Without streams there is nothing to wait for.
    pub fn poll_writer<W: World>(
        &mut self,
        world: &mut W,
        op: OpId,
    ) -> Result<Answer<()>, AllocError>
        requires { (W.seen world.old).ended ≡ false }
        ensures asked { AsksFor (wait_writer op self.old self.old.streams) (W.seen world.old)
            (W.seen world.new) (λ answer. (answer, self.new)) result }
        ensures inner { self.new.inner ≡ self.old.inner }
        ensures listening { self.new.listening ≡ self.old.listening }
    {
        match &mut self.streams {
            Some(streams) => {
                streams.writer.drop_permit();
                wait_answer(streams.writer.poll_ready(world, op))
            }
            None => Ok(Answer::Ready(())),
        }
    }

    /// Whether a look at the socket would begin an accept: it is a listener with no operation in
    /// progress, and no accept was begun.
    pub fn would_accept(&self) -> bool
        ensures { result ≡ socket_begins self.now }
    {
        if !self.in_progress.is_nothing() {
            return false;
        }
        match &self.listening {
            Listening::Accepts(listener) => !listener.has_accept(),
            Listening::Not => false,
            Listening::Begins(_) => false,
            Listening::Unclosed(_) => false,
        }
    }
}
