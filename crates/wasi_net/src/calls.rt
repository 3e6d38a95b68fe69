//! The system's calls by what they mean: an address, an option, a half, in place of C's bytes and
//! numbers.

ghost use Rattle.std.specs.Prelude.{◌≡◌, pos};
ghost use Rattle.wasi_net.specs.Acts.{after, number_of};
ghost use Rattle.wasi_net.specs.Acts as act;
ghost use Rattle.wasi_addr.specs.Clamp.{clamped_backlog};
ghost use Rattle.wasi_net.specs.Ready.{events_of, look};
ghost use Rattle.wasi_net.specs.Storage.{domain_of, kind_of, bind_to, connect_to, disconnect};
ghost use Rattle.wasi_net.specs.Storage.{send_to, shut_number, shut, int_value, int_in, set_to};
ghost use Rattle.wasi_net.specs.Storage.{get_of};

use crate::descriptor::Descriptor;
use crate::errno::Errno;
use crate::setting::Setting;
use crate::storage::encode;
use crate::system::{OptionValue, System};
use libc::net as c;
use libc::types::pollfd;
use wasi_addr::{IpSocketAddress, ShutdownType, SocketAddressFamily, clamp_backlog};
use wasi_looks::Readiness;

/// Which of the two kinds a socket is.
#[derive(Clone, Copy, Debug, PartialEq, Eq)]
pub enum Transport {
    Tcp,
    Udp,
}

/// A new socket, whose calls don't wait and which no program that is started has.
pub fn socket<S: System>(
    system: &mut S,
    family: SocketAddressFamily,
    transport: Transport,
) -> Result<Descriptor, Errno>
    ensures { S.acts system.new ≡ after (act.Socket (domain_of family) (kind_of transport)
        (number_of result)) (S.acts system.old) }
{
    let stream = c::SOCK_STREAM | c::SOCK_NONBLOCK | c::SOCK_CLOEXEC;
    let datagram = c::SOCK_DGRAM | c::SOCK_NONBLOCK | c::SOCK_CLOEXEC;
    match (family, transport) {
        (SocketAddressFamily::Ipv4, Transport::Tcp) => system.socket(c::AF_INET, stream),
        (SocketAddressFamily::Ipv4, Transport::Udp) => system.socket(c::AF_INET, datagram),
        (SocketAddressFamily::Ipv6, Transport::Tcp) => system.socket(c::AF_INET6, stream),
        (SocketAddressFamily::Ipv6, Transport::Udp) => system.socket(c::AF_INET6, datagram),
    }
}

/// Binds to this address, and to no other.
pub fn bind<S: System>(
    system: &mut S,
    descriptor: &Descriptor,
    addr: IpSocketAddress,
) -> Result<(), Errno>
    ensures { S.acts system.new ≡ after (bind_to descriptor.now.number addr result)
        (S.acts system.old) }
{
    let (raw, len) = encode(addr);
    system.bind(descriptor.number(), &raw, len)
}

/// Connects to this address, and to no other.
pub fn connect<S: System>(
    system: &mut S,
    descriptor: &Descriptor,
    addr: IpSocketAddress,
) -> Result<(), Errno>
    ensures { S.acts system.new ≡ after (connect_to descriptor.now.number addr result)
        (S.acts system.old) }
{
    let (raw, len) = encode(addr);
    system.connect(descriptor.number(), &raw, len)
}

/// Dissolves an association. A TCP connection is reset by it.
pub fn disconnect<S: System>(system: &mut S, descriptor: &Descriptor) -> Result<(), Errno>
    ensures { S.acts system.new ≡ after (disconnect descriptor.now.number result)
        (S.acts system.old) }
{
    system.connect(descriptor.number(), &[0u8; 128], 16)
}

/// The number of a half to the system.
fn shut_number(how: ShutdownType) -> i32
    ensures { result ≡ shut_number how }
{
    match how {
        ShutdownType::Receive => c::SHUT_RD,
        ShutdownType::Send => c::SHUT_WR,
        ShutdownType::Both => c::SHUT_RDWR,
    }
}

/// Releases this half, and no other.
pub fn shutdown<S: System>(
    system: &mut S,
    descriptor: &Descriptor,
    how: ShutdownType,
) -> Result<(), Errno>
    ensures { S.acts system.new ≡ after (shut descriptor.now.number how result)
        (S.acts system.old) }
{
    system.shutdown(descriptor.number(), shut_number(how))
}

/// An option's value as C has it.
fn int_value(number: u32) -> OptionValue
    ensures { result ≡ int_value number }
{
    let mut value = [0u8; 16];
    value[..4].copy_from_slice(&number.to_ne_bytes());
    value
}

/// Sets an option.
pub fn set<S: System>(
    system: &mut S,
    descriptor: &Descriptor,
    setting: Setting,
    number: u32,
) -> Result<(), Errno>
    ensures { S.acts system.new ≡ after (set_to descriptor.now.number setting number result)
        (S.acts system.old) }
{
    let fd = descriptor.number();
    let value = int_value(number);
    match setting {
        Setting::ReuseAddress => system.set(fd, c::SOL_SOCKET, c::SO_REUSEADDR, &value, 4),
        Setting::Error => system.set(fd, c::SOL_SOCKET, c::SO_ERROR, &value, 4),
        Setting::SendBuffer => system.set(fd, c::SOL_SOCKET, c::SO_SNDBUF, &value, 4),
        Setting::ReceiveBuffer => system.set(fd, c::SOL_SOCKET, c::SO_RCVBUF, &value, 4),
        Setting::KeepAlive => system.set(fd, c::SOL_SOCKET, c::SO_KEEPALIVE, &value, 4),
        Setting::KeepIdle => system.set(fd, c::IPPROTO_TCP, c::TCP_KEEPIDLE, &value, 4),
        Setting::KeepInterval => system.set(fd, c::IPPROTO_TCP, c::TCP_KEEPINTVL, &value, 4),
        Setting::KeepCount => system.set(fd, c::IPPROTO_TCP, c::TCP_KEEPCNT, &value, 4),
        Setting::Ttl => system.set(fd, c::IPPROTO_IP, c::IP_TTL, &value, 4),
        Setting::V6Only => system.set(fd, c::IPPROTO_IPV6, c::IPV6_V6ONLY, &value, 4),
    }
}

/// The number in an option's value.
pub fn int_in(value: &OptionValue) -> u32
    ensures { result ≡ int_in value.now }
{
    u32::from_ne_bytes([value[0], value[1], value[2], value[3]])
}

/// Reads an option, as C has its value.
pub fn get<S: System>(
    system: &mut S,
    descriptor: &Descriptor,
    setting: Setting,
) -> Result<OptionValue, Errno>
    ensures { S.acts system.new ≡ after (get_of descriptor.now.number setting result)
        (S.acts system.old) }
{
    let fd = descriptor.number();
    match setting {
        Setting::ReuseAddress => system.get(fd, c::SOL_SOCKET, c::SO_REUSEADDR),
        Setting::Error => system.get(fd, c::SOL_SOCKET, c::SO_ERROR),
        Setting::SendBuffer => system.get(fd, c::SOL_SOCKET, c::SO_SNDBUF),
        Setting::ReceiveBuffer => system.get(fd, c::SOL_SOCKET, c::SO_RCVBUF),
        Setting::KeepAlive => system.get(fd, c::SOL_SOCKET, c::SO_KEEPALIVE),
        Setting::KeepIdle => system.get(fd, c::IPPROTO_TCP, c::TCP_KEEPIDLE),
        Setting::KeepInterval => system.get(fd, c::IPPROTO_TCP, c::TCP_KEEPINTVL),
        Setting::KeepCount => system.get(fd, c::IPPROTO_TCP, c::TCP_KEEPCNT),
        Setting::Ttl => system.get(fd, c::IPPROTO_IP, c::IP_TTL),
        Setting::V6Only => system.get(fd, c::IPPROTO_IPV6, c::IPV6_V6ONLY),
    }
}

/// Listens, for at least one arrival that waits.
pub fn listen<S: System>(system: &mut S, descriptor: &Descriptor, backlog: u32) -> Result<(), Errno>
    ensures { S.acts system.new ≡ after (act.Listen descriptor.now.number
        (pos (clamped_backlog backlog)) result) (S.acts system.old) }
{
    system.listen(
        descriptor.number(),
        clamp_backlog(u64::from(backlog)) as i32,
    )
}

/// The events of a readiness.
pub fn events_of(readiness: Readiness) -> i16
    ensures { result ≡ events_of readiness }
{
    match readiness {
        Readiness::Read => c::POLLIN,
        Readiness::Write => c::POLLOUT,
    }
}

/// Looks once whether a socket is ready, or has met a fault or its end, and waits for nothing.
pub fn look<S: System>(
    system: &mut S,
    descriptor: &Descriptor,
    readiness: Readiness,
) -> Result<usize, Errno>
    ensures { S.acts system.new ≡ after (look descriptor.now.number readiness result)
        (S.acts system.old) }
{
    let mut asked = [pollfd {
        fd: descriptor.number(),
        events: events_of(readiness),
        revents: 0,
    }];
    system.poll(&mut asked, 0)
}
