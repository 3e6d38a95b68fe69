//! The two halves of a connection, each taken once from its socket.

ghost use Rattle.std.specs.Prelude.{◌≡◌, ◌≤◌, ◌<◌, ◌^◌, false, length, Ok, OnErr};
ghost use Rattle.wasi_world.specs.Asks.{AsksFor, outcome};
ghost use Rattle.wasi_world.specs.Typed.{ask_read_ready, ask_write_ready, ask_shutdown};
ghost use Rattle.wasi_tcp.specs.Halves.{polled_answer, read_asks, write_asks};

use std::alloc::{AllocError, Global};
use wasi_addr::{ErrorCode, ShutdownType};
use wasi_world::asks::Polled;
use wasi_world::{Answer, Octets, OpId, Refusal, Sock, World, asks};

/// How many bytes one read asks for at most.
const MOST_READ: usize = 65536;

/// What comes in over a connection. It must be released in the end.
#[derive(Debug, Drop)]
pub struct TcpReceiveStream {
    pub(crate) side: Sock,
}

/// What goes out over a connection. It must be released in the end.
#[derive(Debug, Drop)]
pub struct TcpSendStream {
    pub(crate) side: Sock,
}

/// A code is answered as a refusal.
fn answer<T: Drop>(told: Polled<T>) -> Result<Answer<T>, Refusal>
    ensures { outcome result ≡ Ok (polled_answer told) }
{
    match told {
        Polled::Ready(value) => Ok(Answer::Ready(value)),
        Polled::Pending => Ok(Answer::Pending),
        Polled::Code(code) => Err(Refusal::Code(code)),
    }
}

/// An answer that may be a code, apart from running out of memory.
pub(crate) fn answered<T: Drop>(
    told: Result<T, Refusal>,
) -> Result<Result<T, ErrorCode>, AllocError>
    ensures { result ≡ outcome told }
{
    match told {
        Ok(value) => Ok(Ok(value)),
        Err(Refusal::Code(code)) => Ok(Err(code)),
        Err(Refusal::Memory(e)) => Err(e),
    }
}

impl TcpReceiveStream {
    /// Whether there is something to read: bytes, the end or a code. Out of memory nothing was
    /// asked.
    pub fn poll_ready<W: World>(
        &mut self,
        world: &mut W,
        op: OpId,
    ) -> Result<Answer<()>, AllocError>
        requires { (W.seen world.old).ended ≡ false }
        ensures asked { AsksFor (ask_read_ready op self.old.side) (W.seen world.old)
            (W.seen world.new) (λ answer. answer) result }
        ensures err { OnErr result (W.seen world.new ≡ W.seen world.old) }
        ensures same { self.new ≡ self.old }
    {
        asks::read_ready(world, op, self.side)
    }

    /// Reads at most `size` bytes, and at most 65,536; an answer of no bytes is the end. Where
    /// `size` is 0 the answer is no bytes, and nothing is asked.
    pub fn poll_read<W: World>(
        &mut self,
        alloc: Global,
        world: &mut W,
        op: OpId,
        size: usize,
    ) -> Result<Answer<Octets>, Refusal>
        requires { (W.seen world.old).ended ≡ false }
        ensures asked { AsksFor (read_asks op self.old.side size) (W.seen world.old)
            (W.seen world.new) (λ answer. answer) (outcome result) }
        ensures err { OnErr (outcome result) (W.seen world.new ≡ W.seen world.old) }
        ensures same { self.new ≡ self.old }
    {
        if size == 0 {
            return Ok(Answer::Ready(Octets::from_vec(Vec::new(alloc))));
        }
        let most = size.min(MOST_READ) as u32;
        let told = asks::read(world, op, self.side, most)?;
        answer(told)
    }

    /// Shuts the receiving half down. Out of memory it isn't shut down.
    pub fn give_up<W: World>(self, world: &mut W, op: OpId) -> Result<(), AllocError>
        requires { (W.seen world.old).ended ≡ false }
        ensures asked { AsksFor (ask_shutdown op self.side ShutdownType.Receive) (W.seen world.old)
            (W.seen world.new) (λ done. done) result }
        ensures err { OnErr result (W.seen world.new ≡ W.seen world.old) }
    {
        self.shut_down(world, op)
    }

    /// Shuts the receiving half down; its owner drops it then.
    pub(crate) fn shut_down<W: World>(&self, world: &mut W, op: OpId) -> Result<(), AllocError>
        requires { (W.seen world.old).ended ≡ false }
        ensures asked { AsksFor (ask_shutdown op self.now.side ShutdownType.Receive)
            (W.seen world.old) (W.seen world.new) (λ done. done) result }
        ensures err { OnErr result (W.seen world.new ≡ W.seen world.old) }
    {
        asks::shutdown(world, op, self.side, ShutdownType::Receive)
    }
}

impl TcpSendStream {
    /// Whether something may be written, or a write would report a code. Out of memory nothing was
    /// asked.
    pub fn poll_ready<W: World>(
        &mut self,
        world: &mut W,
        op: OpId,
    ) -> Result<Answer<()>, AllocError>
        requires { (W.seen world.old).ended ≡ false }
        ensures asked { AsksFor (ask_write_ready op self.old.side) (W.seen world.old)
            (W.seen world.new) (λ answer. answer) result }
        ensures err { OnErr result (W.seen world.new ≡ W.seen world.old) }
        ensures same { self.new ≡ self.old }
    {
        asks::write_ready(world, op, self.side)
    }

    /// Offers bytes, at least one; answers how many of them were taken, from the front.
    pub fn poll_write<W: World>(
        &mut self,
        world: &mut W,
        op: OpId,
        bytes: &[u8],
    ) -> Result<Answer<usize>, Refusal>
        requires open { (W.seen world.old).ended ≡ false }
        requires some { 1 ≤ length bytes.now }
        requires short { length bytes.now < 2 ^ 32 }
        ensures asked { AsksFor (write_asks op self.old.side bytes.now) (W.seen world.old)
            (W.seen world.new) (λ answer. answer) (outcome result) }
        ensures err { OnErr (outcome result) (W.seen world.new ≡ W.seen world.old) }
        ensures same { self.new ≡ self.old }
    {
        let told = asks::write(world, op, self.side, bytes)?;
        answer(told)
    }

    /// Shuts the sending half down. Out of memory it isn't shut down.
    pub fn give_up<W: World>(self, world: &mut W, op: OpId) -> Result<(), AllocError>
        requires { (W.seen world.old).ended ≡ false }
        ensures asked { AsksFor (ask_shutdown op self.side ShutdownType.Send) (W.seen world.old)
            (W.seen world.new) (λ done. done) result }
        ensures err { OnErr result (W.seen world.new ≡ W.seen world.old) }
    {
        self.shut_down(world, op)
    }

    /// Shuts the sending half down; its owner drops it then.
    pub(crate) fn shut_down<W: World>(&self, world: &mut W, op: OpId) -> Result<(), AllocError>
        requires { (W.seen world.old).ended ≡ false }
        ensures asked { AsksFor (ask_shutdown op self.now.side ShutdownType.Send) (W.seen world.old)
            (W.seen world.new) (λ done. done) result }
        ensures err { OnErr result (W.seen world.new ≡ W.seen world.old) }
    {
        asks::shutdown(world, op, self.side, ShutdownType::Send)
    }
}
