//! What TCP sockets do: a connect that is asked again, bytes, and the end of a half.

ghost use Rattle.std.specs.Prelude.{◌≡◌, ◌≤◌, ◌<◌, length, take, false, IfOk, OnErr};
ghost use Rattle.wasi_world.specs.Fits.{IsWritten};
ghost use Rattle.wasi_world.specs.Asks.{IsFront};
ghost use Rattle.wasi_net.specs.Acts.{after};
ghost use Rattle.wasi_net.specs.Acts as act;
ghost use Rattle.wasi_net.specs.Does.{error_told, ErrorTold, written_told, WriteTold, ReadTold};
ghost use Rattle.wasi_net.specs.Does.{room_after, most};

use crate::calls;
use crate::descriptor::Descriptor;
use crate::errno::{Errno, told_failed};
use crate::setting::Setting;
use crate::socket::{Room, Socket, Stage};
use crate::system::{OptionValue, System};
use std::alloc::{AllocError, Global};
use wasi_addr::{IpSocketAddress, ShutdownType};
use wasi_looks::Readiness;
use wasi_world::{Octets, Told};

/// At most so many bytes go in one call of the system.
#[tactic(auto, unfolding(crate::specs::Does::most))]
pub fn most_bytes() -> usize
    ensures { result ≡ most }
{
    65_536
}

/// The answer for the fault of a connect that is over: 0 is none.
fn error_told(number: u32) -> Told
    ensures { result ≡ error_told number }
{
    if number == 0 {
        return Told::Done;
    }
    Told::Code(Errno { number }.code())
}

/// The answer to a connect that is over.
fn told_error(value: Result<OptionValue, Errno>) -> Told
    ensures { ErrorTold value result }
{
    match value {
        Ok(value) => error_told(calls::int_in(&value)),
        Err(e) => Told::Code(e.code()),
    }
}

/// The answer to a write that took so many of the bytes. One that took none may be made again.
fn told_written(mut bytes: Vec<u8>, count: usize) -> Told
    requires { count ≤ length bytes.items }
    ensures told { result ≡ written_told bytes.items count }
    ensures fits { IsWritten (length bytes.items) result }
    ensures front { IsFront result bytes.items }
{
    if count == 0 {
        return Told::Pending;
    }
    bytes.truncate(count);
    Told::Took(Octets::from_vec(bytes))
}

/// The bytes that go in one call.
fn front_of(alloc: Global, bytes: &[u8]) -> Result<Vec<u8>, AllocError>
    ensures { IfOk result (λ front. front.items ≡ take most bytes.now) }
{
    let mut front = Vec::new(alloc);
    front.extend_from_slice(&bytes[..bytes.len().min(most_bytes())])?;
    Ok(front)
}

/// The answer to a write of these bytes.
fn told_sent(bytes: Vec<u8>, sent: Result<usize, Errno>) -> Told
    requires { IfOk sent (λ count. count ≤ length bytes.items) }
    ensures told { WriteTold bytes.items sent result }
    ensures fits { IsWritten (length bytes.items) result }
    ensures front { IsFront result bytes.items }
{
    match sent {
        Ok(count) => told_written(bytes, count),
        Err(e) => told_failed(e, e.code()),
    }
}

/// What is known of a socket's room after a write of so many bytes: a write that wasn't taken whole
/// found its end.
fn room_after(before: Room, len: usize, told: &Told) -> Room
    ensures { result ≡ room_after before len told.now }
{
    match told {
        Told::Took(front) if front.len() == len => before,
        _ => Room::Unknown,
    }
}

/// What comes into the buffer.
fn received<S: System>(
    system: &mut S,
    descriptor: &Descriptor,
    mut buffer: Vec<u8>,
) -> Result<Octets, Errno>
    ensures acted { S.acts system.new ≡ after (act.Receive descriptor.now.number
        (length buffer.items) result) (S.acts system.old) }
    ensures few { IfOk result (λ bytes. length bytes ≤ length buffer.items) }
{
    match system.receive(descriptor.number(), &mut buffer) {
        Ok(count) => {
            buffer.truncate(count);
            Ok(Octets::from_vec(buffer))
        }
        Err(e) => Err(e),
    }
}

/// The answer to a read.
fn told_read(bytes: Result<Octets, Errno>) -> Told
    ensures { ReadTold bytes result }
{
    match bytes {
        Ok(bytes) => Told::Bytes(bytes),
        Err(e) => told_failed(e, e.code()),
    }
}

impl Socket {
    ghost use Rattle.wasi_world.specs.Fits.{IsPolled, IsRead, IsDone};
    ghost use Rattle.wasi_net.specs.Known.{known_of};
    ghost use Rattle.wasi_net.specs.Does.{OnReady, OnLook, ConnectAsks, OnConnect, OnConnected};
    ghost use Rattle.wasi_net.specs.Does.{ConnectBegins, ConnectDoes, ReadDoes, WriteDoes};
    ghost use Rattle.wasi_net.specs.Does.{ShutdownDoes};

    /// Asks what became of a connect, once the socket is ready.
    fn connect_over<S: System>(&mut self, system: &mut S) -> Told
        ensures fits { IsPolled result }
        ensures does { OnReady false (known_of self.old) result (known_of self.new)
            (S.acts system.old) (S.acts system.new) }
    {
        let told = told_error(calls::get(system, &self.descriptor, Setting::Error));
        self.stage = Stage::Open;
        told
    }

    /// Goes on with a connect in progress after a look at the socket.
    fn after_look<S: System>(&mut self, system: &mut S, ready: Result<usize, Errno>) -> Told
        ensures fits { IsPolled result }
        ensures does { OnLook ready (known_of self.old) result (known_of self.new)
            (S.acts system.old) (S.acts system.new) }
    {
        match ready {
            Ok(count) if count != 0 => self.connect_over(system),
            Ok(_) | Err(_) => {
                self.stage = Stage::Connecting;
                Told::Pending
            }
        }
    }

    /// Asks a connect in progress whether it is over.
    fn connect_asks<S: System>(&mut self, system: &mut S) -> Told
        ensures fits { IsPolled result }
        ensures does { ConnectAsks (known_of self.old) result (known_of self.new)
            (S.acts system.old) (S.acts system.new) }
    {
        let ready = calls::look(system, &self.descriptor, Readiness::Write);
        self.after_look(system, ready)
    }

    /// Goes on after the system's answer to a connect.
    fn after_connect<S: System>(&mut self, system: &mut S, done: Result<(), Errno>) -> Told
        ensures fits { IsPolled result }
        ensures does { OnConnected done (known_of self.old) result (known_of self.new)
            (S.acts system.old) (S.acts system.new) }
    {
        match done {
            Ok(()) => {
                self.stage = Stage::Open;
                Told::Done
            }
            Err(e) if e.goes_on() => self.connect_asks(system),
            Err(e) => Told::Code(e.code()),
        }
    }

    fn connect_begins<S: System>(&mut self, system: &mut S, addr: IpSocketAddress) -> Told
        ensures fits { IsPolled result }
        ensures does { ConnectBegins addr (known_of self.old) result (known_of self.new)
            (S.acts system.old) (S.acts system.new) }
    {
        let done = calls::connect(system, &self.descriptor, addr);
        self.after_connect(system, done)
    }

    /// Connects to the address, from the one that the socket is bound to; or asks a connect in
    /// progress whether it is over.
    pub fn connect<S: System>(&mut self, system: &mut S, addr: IpSocketAddress) -> Told
        ensures fits { IsPolled result }
        ensures does { ConnectDoes addr (known_of self.old) result (known_of self.new)
            (S.acts system.old) (S.acts system.new) }
    {
        match self.stage {
            Stage::Connecting => self.connect_asks(system),
            Stage::Open | Stage::Arrived(_) => self.connect_begins(system, addr),
        }
    }

    /// The bytes that are there, at most `size` and at most 65,536 of them, or the end. Takes
    /// memory for the bytes.
    pub fn read<S: System>(
        &self,
        system: &mut S,
        alloc: Global,
        size: u32,
    ) -> Result<Told, AllocError>
        ensures fits { IfOk result (IsRead size) }
        ensures does { IfOk result (λ told. ReadDoes self.now.descriptor.number size told
            (S.acts system.old) (S.acts system.new)) }
        ensures err { OnErr result (S.acts system.new ≡ S.acts system.old) }
    {
        let buffer = vec![in alloc; 0u8; (size as usize).min(most_bytes())]?;
        Ok(told_read(received(system, &self.descriptor, buffer)))
    }

    /// Writes the front of the bytes, at most 65,536 of them. Takes memory for what is taken,
    /// before the write.
    pub fn write<S: System>(
        &mut self,
        system: &mut S,
        alloc: Global,
        bytes: &[u8],
    ) -> Result<Told, AllocError>
        ensures fits { IfOk result (IsWritten (length bytes.now)) }
        ensures front { IfOk result (λ told. IsFront told bytes.now) }
        ensures does { IfOk result (λ told. WriteDoes bytes.now (known_of self.old) told
            (known_of self.new) (S.acts system.old) (S.acts system.new)) }
        ensures err { OnErr result (S.acts system.new ≡ S.acts system.old) }
        ensures kept { OnErr result (known_of self.new ≡ known_of self.old) }
    {
        let taken = front_of(alloc, bytes)?;
        let sent = system.send(self.descriptor.number(), &taken);
        let told = told_sent(taken, sent);
        self.room = room_after(self.room, bytes.len(), &told);
        Ok(told)
    }

    /// Releases a half, or both. One that the other end released before is released all the same.
    pub fn shutdown<S: System>(&self, system: &mut S, how: ShutdownType) -> Told
        ensures fits { IsDone result }
        ensures does { ShutdownDoes self.now.descriptor.number how result (S.acts system.old)
            (S.acts system.new) }
    {
        let _ = calls::shutdown(system, &self.descriptor, how);
        Told::Done
    }
}
