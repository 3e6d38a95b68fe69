//! An open socket, and what it tells of itself: its addresses, its readiness, its options.

ghost use Rattle.std.specs.Prelude.{◌≡◌};
ghost use Rattle.wasi_world.specs.Fits.{IsDoneOrCode};
ghost use Rattle.wasi_net.specs.Does.{IsGiven, AddressTold, StatusTold, BindTold, ready_told};
ghost use Rattle.wasi_net.specs.Does.{ReadyTold, setting_of, seconds_of, number_of, value_of};
ghost use Rattle.wasi_net.specs.Does.{room_of, set_told};

use crate::calls;
use crate::descriptor::Descriptor;
use crate::errno::{Errno, NO_BUFFERS};
use crate::setting::Setting;
use crate::storage::decode;
use crate::system::{Storage, System};
use wasi_addr::{ErrorCode, IpSocketAddress, SocketAddressFamily, normalize_set_buffer_size};
use wasi_looks::Readiness;
use wasi_world::{Opt, Told};

/// How far a socket has come. A listener and a connection are open as any other: the system knows.
#[derive(Clone, Copy, Debug, PartialEq, Eq)]
pub enum Stage {
    Open,
    /// A connect has begun, and isn't over.
    Connecting,
    /// A connection that is neither handed over nor refused yet; its name is that of its accept.
    Arrived(IpSocketAddress),
}

/// What is known of a socket's room for bytes.
#[derive(Clone, Copy, Debug, PartialEq, Eq)]
pub enum Room {
    /// The system has to be asked.
    Unknown,
    /// A look found some, and every write since was taken whole.
    Found,
}

/// A socket of the system.
#[derive(Drop)]
pub struct Socket {
    pub(crate) descriptor: Descriptor,
    pub(crate) family: SocketAddressFamily,
    pub(crate) stage: Stage,
    pub(crate) room: Room,
}

/// The nanoseconds of a second.
const SECOND: u64 = 1_000_000_000;

/// The answer where the system has no such option.
fn told_unsupported() -> Told
    ensures { result ≡ Told.Code ErrorCode.NotSupported }
{
    Told::Code(ErrorCode::NotSupported)
}

/// The answer for an address that the system gave.
pub fn told_given(raw: &Storage, len: u32) -> Told
    ensures { IsGiven raw.now result }
{
    match decode(raw, len) {
        Some(addr) => Told::Addr(addr),
        None => told_unsupported(),
    }
}

/// The answer for an address that was asked for.
fn told_address(given: Result<(Storage, u32), Errno>) -> Told
    ensures { AddressTold given result }
{
    match given {
        Ok(given) => {
            let (raw, len) = given;
            told_given(&raw, len)
        }
        Err(e) => Told::Code(e.code()),
    }
}

/// The answer to a call that does something.
pub fn told_status(done: Result<(), Errno>) -> Told
    ensures { StatusTold done result }
{
    match done {
        Ok(()) => Told::Done,
        Err(e) => Told::Code(e.code()),
    }
}

/// The answer to a bind.
pub fn told_bind(done: Result<(), Errno>) -> Told
    ensures { BindTold done result }
{
    match done {
        Ok(()) => Told::Done,
        Err(e) => Told::Code(e.bind_code()),
    }
}

/// The answer to a look.
fn told_ready(ready: Result<usize, Errno>) -> Told
    ensures { ReadyTold ready result }
{
    match ready {
        Ok(0) => Told::Pending,
        Ok(_) => Told::Done,
        Err(_) => Told::Pending,
    }
}

/// What a look for room has found.
fn room_of(told: &Told) -> Room
    ensures { result ≡ room_of told.now }
{
    match told {
        Told::Done => Room::Found,
        _ => Room::Unknown,
    }
}

/// The system's option for one of the interface. The hop limit of IPv6 can't be reached.
fn setting_of(family: SocketAddressFamily, option: Opt) -> Option<Setting>
    ensures { result ≡ setting_of family option }
{
    match (option, family) {
        (Opt::KeepAliveEnabled, _) => Some(Setting::KeepAlive),
        (Opt::KeepAliveIdleTime, _) => Some(Setting::KeepIdle),
        (Opt::KeepAliveInterval, _) => Some(Setting::KeepInterval),
        (Opt::KeepAliveCount, _) => Some(Setting::KeepCount),
        (Opt::HopLimit, SocketAddressFamily::Ipv4) => Some(Setting::Ttl),
        (Opt::HopLimit, SocketAddressFamily::Ipv6) => None,
        (Opt::ReceiveBufferSize, _) => Some(Setting::ReceiveBuffer),
        (Opt::SendBufferSize, _) => Some(Setting::SendBuffer),
    }
}

/// The whole seconds of a time, as many as Linux takes.
fn seconds_of(nanoseconds: u64) -> u32
    ensures { result ≡ seconds_of nanoseconds }
{
    (nanoseconds / SECOND).clamp(1, 32_767) as u32
}

/// The system's number for a value of an option. A hop limit above 255 is one that the system
/// refuses.
fn number_of(option: Opt, value: u64) -> u32
    ensures { result ≡ number_of option value }
{
    match option {
        Opt::KeepAliveEnabled => value.min(1) as u32,
        Opt::KeepAliveIdleTime | Opt::KeepAliveInterval => seconds_of(value),
        Opt::KeepAliveCount => value.clamp(1, 127) as u32,
        Opt::HopLimit => value.min(256) as u32,
        Opt::ReceiveBufferSize | Opt::SendBufferSize => normalize_set_buffer_size(value) as u32,
    }
}

/// The value of an option for the system's number.
fn value_of(option: Opt, number: u32) -> u64
    ensures { result ≡ value_of option number }
{
    match option {
        Opt::KeepAliveIdleTime | Opt::KeepAliveInterval => u64::from(number) * SECOND,
        _ => u64::from(number),
    }
}

/// The answer for an option that the system refused. A size that it has no room for is taken as a
/// wish.
fn set_told(option: Opt, error: Errno) -> Told
    ensures told { result ≡ set_told option error }
    ensures fits { IsDoneOrCode result }
{
    let is_size = matches!(option, Opt::ReceiveBufferSize | Opt::SendBufferSize);
    if is_size && error.number == NO_BUFFERS {
        return Told::Done;
    }
    Told::Code(error.code())
}

impl Socket {
    ghost use Rattle.wasi_world.specs.Fits.{IsAddr, IsReady, IsValue};
    ghost use Rattle.wasi_net.specs.Acts as act;
    ghost use Rattle.wasi_net.specs.Does.{Does, AddressTold, BindDoes, UdpBindDoes, ListenDoes};
    ghost use Rattle.wasi_net.specs.Does.{BacklogDoes, ReadyDoes, RoomDoes, SetDoes, GetDoes};
    ghost use Rattle.wasi_net.specs.Known.{known_of};

    /// A socket that was made just now.
    pub fn new(descriptor: Descriptor, family: SocketAddressFamily, stage: Stage) -> Socket
        ensures { known_of result ≡ record {
          fd = descriptor.number;
          family = family;
          stage = stage;
          room = Room.Unknown;
        } }
    {
        Socket {
            descriptor,
            family,
            stage,
            room: Room::Unknown,
        }
    }

    /// Its descriptor, for what closes it.
    pub fn into_descriptor(self) -> Descriptor
        ensures { result ≡ self.descriptor }
    {
        self.descriptor
    }

    /// The address that it is bound to.
    pub fn local<S: System>(&self, system: &mut S) -> Told
        ensures fits { IsAddr result }
        ensures does { Does (act.Local self.now.descriptor.number) AddressTold result
            (S.acts system.old) (S.acts system.new) }
    {
        told_address(system.local(self.descriptor.number()))
    }

    /// The address that it is connected to.
    pub fn peer<S: System>(&self, system: &mut S) -> Told
        ensures fits { IsAddr result }
        ensures does { Does (act.Peer self.now.descriptor.number) AddressTold result
            (S.acts system.old) (S.acts system.new) }
    {
        told_address(system.peer(self.descriptor.number()))
    }

    /// Binds a TCP socket. An address that a connection used just before may be bound again.
    pub fn bind<S: System>(&self, system: &mut S, addr: IpSocketAddress) -> Told
        ensures fits { IsDoneOrCode result }
        ensures does { BindDoes self.now.descriptor.number addr result (S.acts system.old)
            (S.acts system.new) }
    {
        let _ = calls::set(system, &self.descriptor, Setting::ReuseAddress, 1);
        told_bind(calls::bind(system, &self.descriptor, addr))
    }

    /// Binds a UDP socket.
    pub fn udp_bind<S: System>(&self, system: &mut S, addr: IpSocketAddress) -> Told
        ensures fits { IsDoneOrCode result }
        ensures does { UdpBindDoes self.now.descriptor.number addr result (S.acts system.old)
            (S.acts system.new) }
    {
        told_bind(calls::bind(system, &self.descriptor, addr))
    }

    /// Listens.
    pub fn listen<S: System>(&self, system: &mut S, backlog: u32) -> Told
        ensures fits { IsDoneOrCode result }
        ensures does { ListenDoes self.now.descriptor.number backlog result (S.acts system.old)
            (S.acts system.new) }
    {
        told_status(calls::listen(system, &self.descriptor, backlog))
    }

    /// Changes how many arrivals may wait.
    pub fn set_backlog<S: System>(&self, system: &mut S, backlog: u32) -> Told
        ensures fits { IsDoneOrCode result }
        ensures does { BacklogDoes self.now.descriptor.number backlog result (S.acts system.old)
            (S.acts system.new) }
    {
        match calls::listen(system, &self.descriptor, backlog) {
            Ok(()) => Told::Done,
            Err(_) => told_unsupported(),
        }
    }

    /// Looks whether a call wouldn't have to wait.
    pub fn ready<S: System>(&self, system: &mut S, readiness: Readiness) -> Told
        ensures fits { IsReady result }
        ensures does { ReadyDoes self.now.descriptor.number readiness result (S.acts system.old)
            (S.acts system.new) }
    {
        told_ready(calls::look(system, &self.descriptor, readiness))
    }

    /// Looks whether there is room for bytes to write. The system is asked only where none is known
    /// of: a write that finds less says so, and the next look asks again.
    pub fn has_room<S: System>(&mut self, system: &mut S) -> Told
        ensures fits { IsReady result }
        ensures does { RoomDoes (known_of self.old) result (known_of self.new) (S.acts system.old)
            (S.acts system.new) }
    {
        match self.room {
            Room::Found => Told::Done,
            Room::Unknown => {
                let told = self.ready(system, Readiness::Write);
                self.room = room_of(&told);
                told
            }
        }
    }

    /// Sets an option.
    pub fn set_option<S: System>(&self, system: &mut S, option: Opt, value: u64) -> Told
        ensures fits { IsDoneOrCode result }
        ensures does { SetDoes (known_of self.now) option value result (S.acts system.old)
            (S.acts system.new) }
    {
        let Some(setting) = setting_of(self.family, option) else {
            return told_unsupported();
        };
        match calls::set(system, &self.descriptor, setting, number_of(option, value)) {
            Ok(()) => Told::Done,
            Err(e) => set_told(option, e),
        }
    }

    /// Reads an option.
    pub fn option<S: System>(&self, system: &mut S, option: Opt) -> Told
        ensures fits { IsValue result }
        ensures does { GetDoes (known_of self.now) option result (S.acts system.old)
            (S.acts system.new) }
    {
        let Some(setting) = setting_of(self.family, option) else {
            return told_unsupported();
        };
        match calls::get(system, &self.descriptor, setting) {
            Ok(value) => Told::Value(value_of(option, calls::int_in(&value))),
            Err(e) => Told::Code(e.code()),
        }
    }
}
