//! What UDP sockets do: an association with an address, and datagrams.

ghost use Rattle.std.specs.Prelude.{◌≡◌, ◌≤◌, length, true, IfOk, OnErr};
ghost use Rattle.wasi_world.specs.Fits.{IsDatagram};
ghost use Rattle.wasi_net.specs.Acts.{came};
ghost use Rattle.wasi_net.specs.Acts as act;
ghost use Rattle.wasi_net.specs.Does.{Does, udp_told, UdpConnectTold, SendTold, IsDatagramOf};
ghost use Rattle.wasi_net.specs.Does.{ReceiveTold};

use crate::calls;
use crate::descriptor::Descriptor;
use crate::errno::{Errno, IN_PROGRESS, INVALID, told_failed};
use crate::socket::{Socket, told_status};
use crate::storage::{decode, encode};
use crate::system::{Storage, System};
use crate::tcp::most_bytes;
use std::alloc::{AllocError, Global};
use wasi_addr::{ErrorCode, IpSocketAddress};
use wasi_world::{Octets, Told};

/// The answer for the fault of a UDP connect, which has nothing to wait for.
fn udp_told(error: Errno) -> Told
    ensures { result ≡ udp_told error }
{
    if error.number == IN_PROGRESS {
        return Told::Done;
    }
    Told::Code(error.bind_code())
}

/// The answer to a UDP connect.
fn told_udp(done: Result<(), Errno>) -> Told
    ensures { UdpConnectTold done result }
{
    match done {
        Ok(()) => Told::Done,
        Err(e) => udp_told(e),
    }
}

/// The answer to a send: a datagram goes whole or not at all.
fn told_sent(sent: Result<usize, Errno>) -> Told
    ensures { SendTold sent result }
{
    match sent {
        Ok(_) => Told::Done,
        Err(e) => told_failed(e, e.code()),
    }
}

/// The answer for a datagram that came. One from a sender of an unknown family can't be told.
fn told_datagram(bytes: Octets, raw: &Storage, len: u32) -> Told
    ensures told { IsDatagramOf bytes result }
    ensures fits { IsDatagram result }
{
    match decode(raw, len) {
        Some(addr) => Told::Datagram(bytes, addr),
        None => Told::Code(ErrorCode::NotSupported),
    }
}

/// The answer to a receive into the buffer.
fn told_received(mut buffer: Vec<u8>, got: Result<usize, Errno>, raw: &Storage, len: u32) -> Told
    requires { IfOk got (λ count. count ≤ length buffer.items) }
    ensures told { ReceiveTold (came got buffer.items) result }
    ensures fits { IsDatagram result }
{
    match got {
        Ok(count) => {
            buffer.truncate(count);
            told_datagram(Octets::from_vec(buffer), raw, len)
        }
        Err(e) => told_failed(e, e.code()),
    }
}

/// Receives a datagram into the buffer.
fn receive_into<S: System>(system: &mut S, descriptor: &Descriptor, mut buffer: Vec<u8>) -> Told
    ensures fits { IsDatagram result }
    ensures does { Does (act.ReceiveFrom descriptor.now.number (length buffer.items)) ReceiveTold
        result (S.acts system.old) (S.acts system.new) }
{
    let mut raw = [0u8; 128];
    let mut len = 128;
    let got = system.receive_from(descriptor.number(), &mut buffer, &mut raw, &mut len);
    told_received(buffer, got, &raw, len)
}

impl Socket {
    ghost use Rattle.wasi_world.specs.Fits.{IsPolled, IsDoneOrCode};
    ghost use Rattle.wasi_net.specs.Does.{OnInvalid, OnUdpConnect, UdpConnectDoes};
    ghost use Rattle.wasi_net.specs.Does.{UdpDisconnectDoes, SendDoes, ReceiveDoes};

    /// Dissolves the association with an address over another interface, and makes the connect
    /// again.
    fn connect_again<S: System>(&self, system: &mut S, error: Errno, addr: IpSocketAddress) -> Told
        ensures fits { IsDoneOrCode result }
        ensures does { OnInvalid true error self.now.descriptor.number addr result
            (S.acts system.old) (S.acts system.new) }
    {
        let _ = error;
        let _ = calls::disconnect(system, &self.descriptor);
        told_udp(calls::connect(system, &self.descriptor, addr))
    }

    fn after_udp_connect<S: System>(
        &self,
        system: &mut S,
        done: Result<(), Errno>,
        addr: IpSocketAddress,
    ) -> Told
        ensures fits { IsDoneOrCode result }
        ensures does { OnUdpConnect done self.now.descriptor.number addr result (S.acts system.old)
            (S.acts system.new) }
    {
        match done {
            Ok(()) => Told::Done,
            Err(e) if e.number == INVALID => self.connect_again(system, e, addr),
            Err(e) => udp_told(e),
        }
    }

    /// Makes this address the one that datagrams go to and come from.
    pub fn udp_connect<S: System>(&self, system: &mut S, addr: IpSocketAddress) -> Told
        ensures fits { IsDoneOrCode result }
        ensures does { UdpConnectDoes self.now.descriptor.number addr result (S.acts system.old)
            (S.acts system.new) }
    {
        let done = calls::connect(system, &self.descriptor, addr);
        self.after_udp_connect(system, done, addr)
    }

    /// Dissolves the association with an address.
    pub fn udp_disconnect<S: System>(&self, system: &mut S) -> Told
        ensures fits { IsDoneOrCode result }
        ensures does { UdpDisconnectDoes self.now.descriptor.number result (S.acts system.old)
            (S.acts system.new) }
    {
        told_status(calls::disconnect(system, &self.descriptor))
    }

    /// Sends one datagram to this address.
    pub fn send<S: System>(&self, system: &mut S, addr: IpSocketAddress, bytes: &[u8]) -> Told
        ensures fits { IsPolled result }
        ensures does { SendDoes self.now.descriptor.number addr bytes.now result (S.acts system.old)
            (S.acts system.new) }
    {
        let (raw, len) = encode(addr);
        told_sent(system.send_to(self.descriptor.number(), bytes, &raw, len))
    }

    /// The next datagram and its sender. Takes memory for the datagram, before it is received.
    pub fn receive<S: System>(&self, system: &mut S, alloc: Global) -> Result<Told, AllocError>
        ensures fits { IfOk result IsDatagram }
        ensures does { IfOk result (λ told. ReceiveDoes self.now.descriptor.number told
            (S.acts system.old) (S.acts system.new)) }
        ensures err { OnErr result (S.acts system.new ≡ S.acts system.old) }
    {
        let buffer = vec![in alloc; 0u8; most_bytes()]?;
        Ok(receive_into(system, &self.descriptor, buffer))
    }
}
