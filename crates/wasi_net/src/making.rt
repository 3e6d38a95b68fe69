//! How sockets come to be open and are closed: each descriptor that is made is kept under one name,
//! or closed.

ghost use Rattle.std.specs.Prelude.{◌≡◌, None, Some, IfOk, OnOk, OnErr};
ghost use Rattle.wasi_world.specs.Fits.{IsArrival};
ghost use Rattle.wasi_net.specs.Answers.{own_told};

use crate::calls;
use crate::calls::Transport;
use crate::descriptor::Descriptor;
use crate::errno::told_failed;
use crate::network::Network;
use crate::setting::Setting;
use crate::socket::{Socket, Stage};
use crate::storage::decode;
use crate::system::{Storage, System};
use std::alloc::AllocError;
use wasi_addr::{ErrorCode, SocketAddressFamily};
use wasi_world::{OpId, Sock, Told};

/// The answer to an accept whose name a socket has already: the arrival that it is.
fn own_told(stage: Stage) -> Told
    ensures told { result ≡ own_told stage }
    ensures fits { IsArrival result }
{
    match stage {
        Stage::Arrived(peer) => Told::Arrived(peer),
        Stage::Open | Stage::Connecting => Told::Code(ErrorCode::InvalidState),
    }
}

impl<S: System> Network<S> {
    ghost use Rattle.wasi_net.specs.Known.{known_sides, known_of, Same, With};
    ghost use Rattle.wasi_net.specs.Answers.{Opens, OnMade, CreateAsks, CreateDoes, OnArrival};
    ghost use Rattle.wasi_net.specs.Answers.{AcceptAsks, AcceptDoes, Resets, RefuseDoes};
    ghost use Rattle.wasi_net.specs.Answers.{ClosesOnly, MadeUndone, CreateUndone};
    ghost use Rattle.wasi_net.specs.Answers.{AcceptUndone, AcceptUndoneAt};
    ghost use Rattle.wasi_net.specs.Acts.{after};
    ghost use Rattle.wasi_net.specs.Acts as act;
    ghost use Rattle.wasi_world.specs.Fits.{IsDoneOrCode, IsArrival};

    /// Closes the socket of this name, where it is there, and no other.
    pub fn close(&mut self, sock: Sock)
        ensures closes { ClosesOnly sock (known_sides self.old.sides) (known_sides self.new.sides)
            (S.acts self.old.system) (S.acts self.new.system) }
        ensures allowed { self.new.allowed ≡ self.old.allowed }
        ensures hosts { self.new.hosts ≡ self.old.hosts }
    {
        if let Some(socket) = self.sides.remove(&sock) {
            self.waiting.forget(socket.descriptor.number());
            self.system.close(socket.into_descriptor());
        }
    }

    /// Keeps a socket under its name. Takes memory for it; without, it is closed.
    fn keep(&mut self, op: OpId, socket: Socket) -> Result<(), AllocError>
        ensures stands { OnOk result (With (known_sides self.old.sides) op (Some (known_of socket))
            (known_sides self.new.sides)) }
        ensures quiet { OnOk result (S.acts self.new.system ≡ S.acts self.old.system) }
        ensures err { OnErr result (Same (known_sides self.old.sides)
            (known_sides self.new.sides)) }
        ensures undone { OnErr result (S.acts self.new.system
            ≡ after (act.Close (known_of socket).fd) (S.acts self.old.system)) }
        ensures allowed { self.new.allowed ≡ self.old.allowed }
        ensures hosts { self.new.hosts ≡ self.old.hosts }
    {
        match self.sides.insert(op, socket) {
            Ok(_) => Ok(()),
            Err(refused) => {
                let (_, socket) = refused.value;
                self.system.close(socket.into_descriptor());
                Err(AllocError)
            }
        }
    }

    /// Keeps a socket that was made. Takes memory for it; without, it is closed.
    fn open(
        &mut self,
        op: OpId,
        family: SocketAddressFamily,
        descriptor: Descriptor,
    ) -> Result<Told, AllocError>
        ensures opens { IfOk result (λ told. Opens op family descriptor.number
            (known_sides self.old.sides) told (known_sides self.new.sides)) }
        ensures quiet { OnOk result (S.acts self.new.system ≡ S.acts self.old.system) }
        ensures err { OnErr result (Same (known_sides self.old.sides)
            (known_sides self.new.sides)) }
        ensures undone { OnErr result (S.acts self.new.system
            ≡ after (act.Close descriptor.number) (S.acts self.old.system)) }
        ensures allowed { self.new.allowed ≡ self.old.allowed }
        ensures hosts { self.new.hosts ≡ self.old.hosts }
    {
        self.keep(op, Socket::new(descriptor, family, Stage::Open))?;
        Ok(Told::Done)
    }

    /// Keeps an arrival under the name of its accept. Takes memory for it; without, it is closed,
    /// and so is one whose sender's family is unknown.
    fn arrive(
        &mut self,
        op: OpId,
        family: SocketAddressFamily,
        descriptor: Descriptor,
        raw: &Storage,
        len: u32,
    ) -> Result<Told, AllocError>
        ensures fits { IfOk result IsArrival }
        ensures arrives { IfOk result (λ told. OnArrival family op descriptor.number
            (known_sides self.old.sides) told (known_sides self.new.sides)
            (S.acts self.old.system) (S.acts self.new.system)) }
        ensures err { OnErr result (Same (known_sides self.old.sides)
            (known_sides self.new.sides)) }
        ensures undone { OnErr result (S.acts self.new.system
            ≡ after (act.Close descriptor.number) (S.acts self.old.system)) }
        ensures allowed { self.new.allowed ≡ self.old.allowed }
        ensures hosts { self.new.hosts ≡ self.old.hosts }
    {
        let Some(peer) = decode(raw, len) else {
            self.system.close(descriptor);
            return Ok(Told::Code(ErrorCode::NotSupported));
        };
        self.keep(op, Socket::new(descriptor, family, Stage::Arrived(peer)))?;
        Ok(Told::Arrived(peer))
    }

    /// Keeps a socket that was made: one for IPv6 is for IPv6 alone, or is closed.
    fn made(
        &mut self,
        op: OpId,
        family: SocketAddressFamily,
        descriptor: Descriptor,
    ) -> Result<Told, AllocError>
        ensures fits { IfOk result IsDoneOrCode }
        ensures does { IfOk result (λ told. OnMade family op descriptor.number
            (known_sides self.old.sides) told (known_sides self.new.sides) (S.acts self.old.system)
            (S.acts self.new.system)) }
        ensures err { OnErr result (Same (known_sides self.old.sides)
            (known_sides self.new.sides)) }
        ensures undone { OnErr result (MadeUndone family descriptor.number
            (S.acts self.old.system) (S.acts self.new.system)) }
        ensures allowed { self.new.allowed ≡ self.old.allowed }
        ensures hosts { self.new.hosts ≡ self.old.hosts }
    {
        match family {
            SocketAddressFamily::Ipv4 => self.open(op, family, descriptor),
            SocketAddressFamily::Ipv6 => {
                match calls::set(&mut self.system, &descriptor, Setting::V6Only, 1) {
                    Ok(()) => self.open(op, family, descriptor),
                    Err(e) => {
                        self.system.close(descriptor);
                        Ok(Told::Code(e.code()))
                    }
                }
            }
        }
    }

    /// Asks the system for a socket of this name.
    fn create_of(
        &mut self,
        op: OpId,
        family: SocketAddressFamily,
        transport: Transport,
    ) -> Result<Told, AllocError>
        ensures fits { IfOk result IsDoneOrCode }
        ensures does { IfOk result (λ told. CreateAsks transport family op
            (known_sides self.old.sides) told (known_sides self.new.sides) (S.acts self.old.system)
            (S.acts self.new.system)) }
        ensures err { OnErr result (Same (known_sides self.old.sides)
            (known_sides self.new.sides)) }
        ensures undone { OnErr result (CreateUndone transport family (S.acts self.old.system)
            (S.acts self.new.system)) }
        ensures allowed { self.new.allowed ≡ self.old.allowed }
        ensures hosts { self.new.hosts ≡ self.old.hosts }
    {
        match calls::socket(&mut self.system, family, transport) {
            Ok(descriptor) => self.made(op, family, descriptor),
            Err(e) => Ok(Told::Code(e.code())),
        }
    }

    /// Makes a socket, unless one has this name already. Takes memory for it.
    pub fn create(
        &mut self,
        op: OpId,
        family: SocketAddressFamily,
        transport: Transport,
    ) -> Result<Told, AllocError>
        ensures fits { IfOk result IsDoneOrCode }
        ensures does { IfOk result (λ told. CreateDoes transport family op
            (known_sides self.old.sides op) (known_sides self.old.sides) told
            (known_sides self.new.sides) (S.acts self.old.system) (S.acts self.new.system)) }
        ensures err { OnErr result (Same (known_sides self.old.sides)
            (known_sides self.new.sides)) }
        ensures undone { OnErr result (CreateUndone transport family (S.acts self.old.system)
            (S.acts self.new.system)) }
        ensures allowed { self.new.allowed ≡ self.old.allowed }
        ensures hosts { self.new.hosts ≡ self.old.hosts }
    {
        if self.sides.contains_key(&op) {
            return Ok(Told::Code(ErrorCode::InvalidState));
        }
        self.create_of(op, family, transport)
    }

    /// Asks a socket of this descriptor for its next arrival.
    fn accept_of(
        &mut self,
        op: OpId,
        fd: i32,
        family: SocketAddressFamily,
    ) -> Result<Told, AllocError>
        ensures fits { IfOk result IsArrival }
        ensures does { IfOk result (λ told. AcceptAsks op fd family (known_sides self.old.sides)
            told (known_sides self.new.sides) (S.acts self.old.system) (S.acts self.new.system)) }
        ensures err { OnErr result (Same (known_sides self.old.sides)
            (known_sides self.new.sides)) }
        ensures undone { OnErr result (AcceptUndone fd (S.acts self.old.system)
            (S.acts self.new.system)) }
        ensures allowed { self.new.allowed ≡ self.old.allowed }
        ensures hosts { self.new.hosts ≡ self.old.hosts }
    {
        let mut raw = [0u8; 128];
        let mut len = 128;
        match self.system.accept(fd, &mut raw, &mut len) {
            Ok(descriptor) => self.arrive(op, family, descriptor, &raw, len),
            Err(e) => Ok(told_failed(e, e.accept_code())),
        }
    }

    /// Takes the next arrival in hand, under the name of its accept; one that is in hand is
    /// reported again. Where memory runs out for it, it is closed.
    pub fn accept(&mut self, op: OpId, sock: Sock) -> Result<Told, AllocError>
        ensures fits { IfOk result IsArrival }
        ensures does { IfOk result (λ told. AcceptDoes op (known_sides self.old.sides op)
            (known_sides self.old.sides sock) (known_sides self.old.sides) told
            (known_sides self.new.sides) (S.acts self.old.system) (S.acts self.new.system)) }
        ensures err { OnErr result (Same (known_sides self.old.sides)
            (known_sides self.new.sides)) }
        ensures undone { OnErr result (AcceptUndoneAt (known_sides self.old.sides sock)
            (S.acts self.old.system) (S.acts self.new.system)) }
        ensures allowed { self.new.allowed ≡ self.old.allowed }
        ensures hosts { self.new.hosts ≡ self.old.hosts }
    {
        match self.sides.get(&op) {
            None => {}
            Some(own) => return Ok(own_told(own.stage)),
        }
        let Some(listener) = self.sides.get(&sock) else {
            return Ok(Told::Code(ErrorCode::InvalidState));
        };
        let (fd, family) = (listener.descriptor.number(), listener.family);
        self.accept_of(op, fd, family)
    }

    /// Resets the arrival of this name, so that its other end sees it.
    fn reset(&mut self, op: OpId)
        ensures does { Resets (known_sides self.old.sides op) (S.acts self.old.system)
            (S.acts self.new.system) }
        ensures sides { self.new.sides ≡ self.old.sides }
        ensures allowed { self.new.allowed ≡ self.old.allowed }
        ensures hosts { self.new.hosts ≡ self.old.hosts }
    {
        if let Some(socket) = self.sides.get(&op) {
            let _ = calls::disconnect(&mut self.system, &socket.descriptor);
        }
    }

    /// Resets an arrival and closes it.
    pub fn refuse(&mut self, op: OpId) -> Told
        ensures does { RefuseDoes op (known_sides self.old.sides) result
            (known_sides self.new.sides) (S.acts self.old.system) (S.acts self.new.system) }
        ensures allowed { self.new.allowed ≡ self.old.allowed }
        ensures hosts { self.new.hosts ≡ self.old.hosts }
    {
        self.reset(op);
        self.close(op);
        Told::Done
    }
}
