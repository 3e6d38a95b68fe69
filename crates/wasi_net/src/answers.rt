//! The answer to each call on an open socket.

ghost use Rattle.std.specs.Prelude.{◌≡◌, IfOk, OnErr};
ghost use Rattle.wasi_world.specs.Fits.{Fits};
ghost use Rattle.wasi_net.specs.Answers.{missing};

use crate::socket::{Socket, Stage};
use crate::system::System;
use std::alloc::{AllocError, Global};
use wasi_addr::ErrorCode;
use wasi_looks::Readiness;
use wasi_world::{Call, Told};

/// The answer to a call on a network socket that isn't there, and to a call that isn't on one.
pub fn told_missing(call: &Call) -> Told
    ensures told { result ≡ missing call.now }
    ensures fits { Fits call.now result }
{
    match call {
        Call::Check { .. } => Told::No,
        Call::Hand { .. }
        | Call::Refuse { .. }
        | Call::Shutdown { .. }
        | Call::ReadReady { .. }
        | Call::WriteReady { .. }
        | Call::Close { .. }
        | Call::Made { .. } => Told::Done,
        _ => Told::Code(ErrorCode::InvalidState),
    }
}

impl Socket {
    ghost use Rattle.wasi_world.specs.Fits.{IsDone};
    ghost use Rattle.wasi_net.specs.Known.{known_of};
    ghost use Rattle.wasi_net.specs.Answers.{HandDoes, OnSide};

    /// An arrival is open from now on.
    fn hand(&mut self) -> Told
        ensures told { result ≡ Told.Done }
        ensures known { known_of self.new ≡ record {
          fd = self.old.descriptor.number;
          family = self.old.family;
          stage = Stage.Open;
          room = self.old.room;
        } }
    {
        self.stage = Stage::Open;
        Told::Done
    }

    /// The answer to a call on this socket. Takes memory for the bytes of a read.
    pub fn answer<S: System>(
        &mut self,
        system: &mut S,
        alloc: Global,
        call: &Call,
    ) -> Result<Told, AllocError>
        ensures fits { IfOk result (Fits call.now) }
        ensures does { IfOk result (λ told. OnSide call.now (known_of self.old) told
            (known_of self.new) (S.acts system.old) (S.acts system.new)) }
        ensures known { OnErr result (known_of self.new ≡ known_of self.old) }
        ensures acts { OnErr result (S.acts system.new ≡ S.acts system.old) }
    {
        match call {
            Call::Local { .. } => Ok(self.local(system)),
            Call::Peer { .. } => Ok(self.peer(system)),
            Call::Bind { addr, .. } => Ok(self.bind(system, *addr)),
            Call::UdpBind { addr, .. } => Ok(self.udp_bind(system, *addr)),
            Call::UdpConnect { addr, .. } => Ok(self.udp_connect(system, *addr)),
            Call::UdpDisconnect { .. } => Ok(self.udp_disconnect(system)),
            Call::Listen { backlog, .. } => Ok(self.listen(system, *backlog)),
            Call::SetBacklog { backlog, .. } => Ok(self.set_backlog(system, *backlog)),
            Call::Connect { addr, .. } => Ok(self.connect(system, *addr)),
            Call::Hand { .. } => Ok(self.hand()),
            Call::Read { size, .. } => self.read(system, alloc, *size),
            Call::Recv { .. } => self.receive(system, alloc),
            Call::ReadReady { .. } => Ok(self.ready(system, Readiness::Read)),
            Call::WriteReady { .. } => Ok(self.has_room(system)),
            Call::UdpWritable { .. } => Ok(self.ready(system, Readiness::Write)),
            Call::Shutdown { how, .. } => Ok(self.shutdown(system, *how)),
            Call::GetOption { option, .. } => Ok(self.option(system, *option)),
            Call::SetOption { option, value, .. } => Ok(self.set_option(system, *option, *value)),
            Call::Check { .. }
            | Call::Lookup { .. }
            | Call::TcpCreate { .. }
            | Call::UdpCreate { .. }
            | Call::Accept { .. }
            | Call::Refuse { .. }
            | Call::Write { .. }
            | Call::Send { .. }
            | Call::Close { .. }
            | Call::Made { .. } => Ok(told_missing(call)),
        }
    }
}
