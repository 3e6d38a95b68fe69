//! A network in memory: what a host's own `World` looks like.

ghost use Rattle.std.specs.Prelude.{◌≡◌, ◌∷◌, IfOk, OnErr, Some, None, [], false};
ghost use Rattle.wasi_world.specs.Fits.{Fits, IsPlain};
ghost use Rattle.wasi_world.specs.Seen.{Counts, Passes};
ghost use Rattle.examples.specs.Memory.{seen_of};

use std::alloc::{AllocError, Global};
use wasi_addr::{ErrorCode, IpSocketAddress, SocketAddrUse};
use wasi_world::{Call, Entry, Octets, OpId, Sock, Told, World};

/// A network of which each connect is done at once, and which takes all that is written to it. Its
/// check allows binds, which a connect begins with, and else one port. It keeps its log.
#[derive(Drop)]
pub struct MemoryNetwork {
    alloc: Global,
    allowed: u16,
    log: Vec<Entry>,
    ended: bool,
    closings: u64,
    faults: u64,
}

/// The port of an address.
fn port_of(addr: IpSocketAddress) -> u16 {
    match addr {
        IpSocketAddress::Ipv4(addr) => addr.port,
        IpSocketAddress::Ipv6(addr) => addr.port,
    }
}

/// The count of faults after an answer.
fn count_after(faults: u64, told: &Told) -> u64
    ensures { Counts told.now faults result }
{
    match told {
        Told::Code(_) => faults.saturating_add(1),
        _ => faults,
    }
}

impl MemoryNetwork {
    /// A network that was asked nothing yet. Takes no memory.
    pub fn new(alloc: Global, allowed: u16) -> MemoryNetwork
        ensures { seen_of result ≡ record {
          log = Some [];
          ended = false;
          closings = 0;
          faults = 0;
          plan = None;
        } }
    {
        MemoryNetwork {
            alloc,
            allowed,
            log: Vec::new(alloc),
            ended: false,
            closings: 0,
            faults: 0,
        }
    }

    /// The log.
    pub fn entries(&self) -> &[Entry]
        ensures { (seen_of self.now).log ≡ Some result.now }
    {
        self.log.as_slice()
    }

    /// Its answer to a call without bytes.
    fn answer(&self, call: &Call) -> Told
        requires { IsPlain call.now }
        ensures { Fits call.now result }
    {
        match call {
            Call::Check { usage, .. } if matches!(usage, SocketAddrUse::TcpBind) => Told::Yes,
            Call::Check { addr, .. } if port_of(*addr) == self.allowed => Told::Yes,
            Call::Check { .. } => Told::No,
            Call::Local { .. } | Call::Peer { .. } => Told::Code(ErrorCode::NotSupported),
            Call::Lookup { .. } | Call::GetOption { .. } => Told::Code(ErrorCode::NotSupported),
            Call::Accept { .. } | Call::Read { .. } | Call::ReadReady { .. } => Told::Pending,
            Call::Recv { .. } => Told::Pending,
            _ => Told::Done,
        }
    }

    /// Keeps a call with its answer, of which it returns a copy.
    fn keep(&mut self, op: OpId, call: Call, answer: Told) -> Result<Told, AllocError>
        requires { Fits call answer }
        ensures fits { IfOk result (λ told. Fits call told) }
        ensures passed { IfOk result (λ told. Passes (seen_of self.old)
            ((record { op = op; call = call; answer = told }) ∷ []) (seen_of self.new)) }
        ensures told { IfOk result (λ told. told ≡ answer) }
        ensures err { OnErr result (seen_of self.new ≡ seen_of self.old) }
    {
        let told = answer.try_clone()?;
        self.log.reserve(1)?;
        self.faults = count_after(self.faults, &answer);
        self.log.push_reserved(Entry { op, call, answer });
        Ok(told)
    }
}

impl World for MemoryNetwork {
    ghost use Rattle.std.specs.Prelude.{None};
    ghost use Rattle.wasi_world.specs.Script.{without_plan};
    ghost use Rattle.examples.specs.Memory.{seen_of};

    ghost seen = { seen_of };

    // It counts what is closed at the end, and keeps no names.
    ghost closed = { λ world. None };

    ghost scripted = { λ world. without_plan (Some world.log.items) };

    fn call(&mut self, op: OpId, call: Call) -> Result<Told, AllocError> {
        let answer = self.answer(&call);
        self.keep(op, call, answer)
    }

    fn write(&mut self, op: OpId, sock: Sock, bytes: &[u8]) -> Result<Told, AllocError> {
        let offered = bytes.len() as u32;
        let taken = Octets::copy_of(self.alloc, bytes)?;
        self.keep(op, Call::Write { sock, offered }, Told::Took(taken))
    }

    fn send(
        &mut self,
        op: OpId,
        sock: Sock,
        addr: IpSocketAddress,
        bytes: &[u8],
    ) -> Result<Told, AllocError> {
        let bytes = Octets::copy_of(self.alloc, bytes)?;
        self.keep(op, Call::Send { sock, addr, bytes }, Told::Done)
    }

    fn end(&mut self) {
        self.ended = true;
    }

    fn close_after_end(&mut self, _sock: Sock) {
        self.closings = self.closings.saturating_add(1);
    }
}
