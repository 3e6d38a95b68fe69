//! The sockets that are open, by the names of their network sockets, and the call on each.

ghost use Rattle.std.specs.Prelude.{◌≡◌, Some, IfOk, OnErr, Result, length};
ghost use Rattle.wasi_net.specs.Answers.{side_of};

use crate::allowed::Allowed;
use crate::answers::told_missing;
use crate::calls::Transport;
use crate::hosts::Hosts;
use crate::socket::Socket;
use crate::system::System;
use crate::waiting::Waiting;
use libc::types::pollfd;
use std::alloc::{AllocError, Global};
use std::collections::BTreeMap;
use wasi_addr::{ErrorCode, IpSocketAddress};
use wasi_looks::Readiness;
use wasi_world::{Call, OpId, Sock, Told};

/// The sockets that are open.
type Sides = BTreeMap<OpId, Socket>;

/// The network without what a world counts.
#[derive(Drop)]
pub struct Network<S> {
    pub(crate) system: S,
    alloc: Global,
    pub(crate) allowed: Allowed,
    pub(crate) hosts: Hosts,
    pub(crate) sides: Sides,
    pub(crate) waiting: Waiting,
}

/// The network socket that a call is on: a connection that arrived has the name of its accept,
/// which hands it over or refuses it.
fn side_of(op: OpId, call: &Call) -> Option<Sock>
    ensures { result ≡ side_of op call.now }
{
    match call {
        Call::Local { sock }
        | Call::Peer { sock }
        | Call::Bind { sock, .. }
        | Call::UdpBind { sock, .. }
        | Call::UdpConnect { sock, .. }
        | Call::UdpDisconnect { sock }
        | Call::UdpWritable { sock }
        | Call::Listen { sock, .. }
        | Call::SetBacklog { sock, .. }
        | Call::Connect { sock, .. }
        | Call::Read { sock, .. }
        | Call::Recv { sock }
        | Call::ReadReady { sock }
        | Call::WriteReady { sock }
        | Call::Shutdown { sock, .. }
        | Call::GetOption { sock, .. }
        | Call::SetOption { sock, .. } => Some(*sock),
        Call::Hand { .. } => Some(op),
        _ => None,
    }
}

/// What a call waits for that is pending, and of which network socket.
fn awaited(call: &Call) -> Option<(Sock, Readiness)> {
    match call {
        Call::Read { sock, .. }
        | Call::Recv { sock }
        | Call::ReadReady { sock }
        | Call::Accept { sock } => Some((*sock, Readiness::Read)),
        Call::Connect { sock, .. } | Call::WriteReady { sock } | Call::UdpWritable { sock } => {
            Some((*sock, Readiness::Write))
        }
        _ => None,
    }
}

impl<S> Network<S> {
    ghost use Rattle.wasi_net.specs.Known.{known_sides, IsUnused};

    /// A network with no socket yet.
    pub fn new(system: S, alloc: Global, allowed: Allowed, hosts: Hosts) -> Network<S>
        ensures allowed { result.allowed ≡ allowed }
        ensures hosts { result.hosts ≡ hosts }
        ensures sides { IsUnused (known_sides result.sides) }
        ensures system { result.system ≡ system }
    {
        Network {
            system,
            alloc,
            allowed,
            hosts,
            sides: BTreeMap::new(alloc),
            waiting: Waiting::new(alloc),
        }
    }

    /// What its memory is taken from.
    pub(crate) fn allocator(&self) -> Global {
        self.alloc
    }

    /// Takes memory for what a call may have to wait for.
    pub fn reserve(&mut self) -> Result<(), AllocError>
        ensures sides { self.new.sides ≡ self.old.sides }
        ensures allowed { self.new.allowed ≡ self.old.allowed }
        ensures hosts { self.new.hosts ≡ self.old.hosts }
        ensures system { self.new.system ≡ self.old.system }
    {
        self.waiting.reserve()
    }

    /// Whether this readiness of a socket is waited for.
    pub fn is_awaited(&self, sock: Sock, readiness: Readiness) -> bool {
        match self.sides.get(&sock) {
            Some(socket) => self.waiting.has(socket.descriptor.number(), readiness),
            None => false,
        }
    }

    /// Whether what this call waits for is waited for: its last answer was pending.
    pub fn awaits(&self, call: &Call) -> bool {
        match awaited(call) {
            Some((sock, readiness)) => self.is_awaited(sock, readiness),
            None => false,
        }
    }

    /// The sockets that are waited for, and what for.
    pub fn awaited(&self) -> &[pollfd] {
        self.waiting.asked()
    }

    /// Keeps what a call waits for, where its answer is pending, and drops that where it isn't.
    pub fn note(&mut self, sock: Sock, readiness: Readiness, told: &Told)
        ensures sides { self.new.sides ≡ self.old.sides }
        ensures allowed { self.new.allowed ≡ self.old.allowed }
        ensures hosts { self.new.hosts ≡ self.old.hosts }
        ensures system { self.new.system ≡ self.old.system }
    {
        let Some(socket) = self.sides.get(&sock) else {
            return;
        };
        let fd = socket.descriptor.number();
        match told {
            Told::Pending => self.waiting.add(fd, readiness),
            _ => self.waiting.clear(fd, readiness),
        }
    }

    /// As `note`, for this call.
    pub fn note_call(&mut self, call: &Call, told: &Told)
        ensures sides { self.new.sides ≡ self.old.sides }
        ensures allowed { self.new.allowed ≡ self.old.allowed }
        ensures hosts { self.new.hosts ≡ self.old.hosts }
        ensures system { self.new.system ≡ self.old.system }
    {
        if let Some((sock, readiness)) = awaited(call) {
            self.note(sock, readiness, told);
        }
    }
}

impl<S: System> Network<S> {
    ghost use Rattle.std.specs.Prelude.{ℕ};
    ghost use Rattle.wasi_net.specs.declared.errno.Errno.{Errno};
    ghost use Rattle.wasi_net.specs.Allowed.{policy_of};
    ghost use Rattle.wasi_net.specs.Does.{WriteDoes, SendDoes};
    ghost use Rattle.wasi_net.specs.Known.{known_sides, Same};
    ghost use Rattle.wasi_net.specs.Answers.{Stays, OnSide, missing, AnswersAt, OnNetwork, Undone};
    ghost use Rattle.wasi_net.specs.Acts.{after};
    ghost use Rattle.wasi_net.specs.Acts as act;
    ghost use Rattle.wasi_world.specs.Fits.{Fits, IsWritten, IsPolled};
    ghost use Rattle.wasi_world.specs.Asks.{IsFront};

    /// Writes the front of the bytes to a connection.
    pub fn write(&mut self, sock: Sock, bytes: &[u8]) -> Result<Told, AllocError>
        ensures fits { IfOk result (IsWritten (length bytes.now)) }
        ensures front { IfOk result (λ told. IsFront told bytes.now) }
        ensures does { IfOk result (λ told. AnswersAt (WriteDoes bytes.now)
            (Told.Code ErrorCode.InvalidState) sock (known_sides self.old.sides sock)
            (known_sides self.old.sides) told (known_sides self.new.sides) (S.acts self.old.system)
            (S.acts self.new.system)) }
        ensures err { OnErr result (Same (known_sides self.old.sides)
            (known_sides self.new.sides)) }
        ensures quiet { OnErr result (S.acts self.new.system ≡ S.acts self.old.system) }
        ensures allowed { self.new.allowed ≡ self.old.allowed }
        ensures hosts { self.new.hosts ≡ self.old.hosts }
    {
        match self.sides.get_mut(&sock) {
            Some(socket) => socket.write(&mut self.system, self.alloc, bytes),
            None => Ok(Told::Code(ErrorCode::InvalidState)),
        }
    }

    /// Sends one datagram.
    pub fn send(&mut self, sock: Sock, addr: IpSocketAddress, bytes: &[u8]) -> Told
        ensures fits { IsPolled result }
        ensures does { AnswersAt (λ k. Stays (SendDoes k.fd addr bytes.now) k)
            (Told.Code ErrorCode.InvalidState) sock (known_sides self.old.sides sock)
            (known_sides self.old.sides) result (known_sides self.new.sides)
            (S.acts self.old.system) (S.acts self.new.system) }
        ensures allowed { self.new.allowed ≡ self.old.allowed }
        ensures hosts { self.new.hosts ≡ self.old.hosts }
    {
        match self.sides.get_mut(&sock) {
            Some(socket) => socket.send(&mut self.system, addr, bytes),
            None => Told::Code(ErrorCode::InvalidState),
        }
    }

    /// The answer to a call on one socket.
    fn answer_on(&mut self, sock: Sock, call: &Call) -> Result<Told, AllocError>
        ensures fits { IfOk result (Fits call.now) }
        ensures does { IfOk result (λ told. AnswersAt (OnSide call.now) (missing call.now) sock
            (known_sides self.old.sides sock) (known_sides self.old.sides) told
            (known_sides self.new.sides) (S.acts self.old.system) (S.acts self.new.system)) }
        ensures err { OnErr result (Same (known_sides self.old.sides)
            (known_sides self.new.sides)) }
        ensures quiet { OnErr result (S.acts self.new.system ≡ S.acts self.old.system) }
        ensures allowed { self.new.allowed ≡ self.old.allowed }
        ensures hosts { self.new.hosts ≡ self.old.hosts }
    {
        match self.sides.get_mut(&sock) {
            Some(socket) => socket.answer(&mut self.system, self.alloc, call),
            None => Ok(told_missing(call)),
        }
    }

    /// The answer to any call but a write and a send.
    pub fn answer(&mut self, op: OpId, call: &Call) -> Result<Told, AllocError>
        ensures fits { IfOk result (Fits call.now) }
        ensures does { IfOk result (λ told. OnNetwork (policy_of self.old.allowed)
            self.old.hosts.entries.items (known_sides self.old.sides) op call.now told
            (known_sides self.new.sides) (S.acts self.old.system) (S.acts self.new.system)) }
        ensures err { OnErr result (Same (known_sides self.old.sides)
            (known_sides self.new.sides)) }
        ensures undone { OnErr result (Undone (known_sides self.old.sides) call.now
            (S.acts self.old.system) (S.acts self.new.system)) }
        ensures allowed { self.new.allowed ≡ self.old.allowed }
        ensures hosts { self.new.hosts ≡ self.old.hosts }
    {
        match call {
            Call::Check { addr, usage, .. } => Ok(self.allowed.check(*addr, *usage)),
            Call::Lookup { host } => self.hosts.lookup(self.alloc, host),
            Call::TcpCreate { family, .. } => self.create(op, *family, Transport::Tcp),
            Call::UdpCreate { family, .. } => self.create(op, *family, Transport::Udp),
            Call::Accept { sock } => self.accept(op, *sock),
            Call::Refuse { .. } => Ok(self.refuse(op)),
            Call::Close { sock } => {
                self.close(*sock);
                Ok(Told::Done)
            }
            Call::Made { .. } => Ok(Told::Done),
            _ => match side_of(op, call) {
                Some(sock) => self.answer_on(sock, call),
                None => Ok(told_missing(call)),
            },
        }
    }

    /// Waits until a socket that an earlier answer left pending may go on, for at most so many
    /// milliseconds, or without limit where they are negative; and whether one may.
    pub fn wait(&mut self, timeout: i32) -> bool
        ensures sides { self.new.sides ≡ self.old.sides }
        ensures acts { (r : Result ℕ Errno) × (S.acts self.new.system
            ≡ after (act.Poll self.old.waiting.asked.items timeout r) (S.acts self.old.system)) }
        ensures allowed { self.new.allowed ≡ self.old.allowed }
        ensures hosts { self.new.hosts ≡ self.old.hosts }
    {
        self.waiting.wait(&mut self.system, timeout)
    }
}
