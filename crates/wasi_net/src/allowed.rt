//! The check: which addresses may be used, by their ports.

ghost use Rattle.std.specs.Prelude.{◌≡◌, false, true, Some, None};
ghost use Rattle.wasi_world.specs.Fits.{IsVerdict};
ghost use Rattle.wasi_net.specs.Allowed.{is_loopback, is_any, has, has_port, is_near, is_own, has_free};
ghost use Rattle.wasi_net.specs.Allowed.{policy_of, allows, verdict};

use wasi_addr::{
    IpAddress, IpSocketAddress, SocketAddrUse, SocketAddressFamily, is_unspecified_addr,
};
use wasi_world::Told;

/// The ports that may be used, or every port, and whether with any address or with this machine's
/// own alone.
#[derive(Drop)]
pub struct Allowed {
    ports: Option<Vec<u16>>,
    anywhere: bool,
}

/// Whether an address is this machine's own: 127.0.0.0/8, or ::1.
fn is_loopback(addr: IpAddress) -> bool
    ensures { result ≡ is_loopback addr }
{
    matches!(
        addr,
        IpAddress::Ipv4((127, _, _, _)) | IpAddress::Ipv6((0, 0, 0, 0, 0, 0, 0, 1))
    )
}

/// Whether it leaves address and port to the system, as a socket does that isn't bound before it
/// connects or sends.
fn is_any(addr: IpSocketAddress) -> bool
    ensures { result ≡ is_any addr }
{
    is_unspecified_addr(addr, SocketAddressFamily::Ipv4)
        || is_unspecified_addr(addr, SocketAddressFamily::Ipv6)
}

impl Allowed {
    /// These ports on this machine's own addresses.
    pub fn loopback(ports: Vec<u16>) -> Allowed
        ensures { policy_of result ≡ record { ports = Some ports.items; anywhere = false } }
    {
        Allowed {
            ports: Some(ports),
            anywhere: false,
        }
    }

    /// These ports on every address.
    pub fn anywhere(ports: Vec<u16>) -> Allowed
        ensures { policy_of result ≡ record { ports = Some ports.items; anywhere = true } }
    {
        Allowed {
            ports: Some(ports),
            anywhere: true,
        }
    }

    /// Every port on this machine's own addresses: a world round this one decides between them.
    pub fn every_loopback() -> Allowed
        ensures { policy_of result ≡ record { ports = None; anywhere = false } }
    {
        Allowed {
            ports: None,
            anywhere: false,
        }
    }

    /// Every port on every address: a world round this one decides between them.
    pub fn everything() -> Allowed
        ensures { policy_of result ≡ record { ports = None; anywhere = true } }
    {
        Allowed {
            ports: None,
            anywhere: true,
        }
    }

    /// Whether a port is allowed.
    fn has(&self, port: u16) -> bool
        ensures { result ≡ has (policy_of self.now).ports port }
    {
        match &self.ports {
            Some(ports) => ports.contains(&port),
            None => true,
        }
    }

    fn has_port(&self, addr: IpSocketAddress) -> bool
        ensures { result ≡ has_port (policy_of self.now).ports addr }
    {
        self.has(addr.port())
    }

    /// Whether port 0 is allowed, which stands for any that is free.
    fn has_free(&self) -> bool
        ensures { result ≡ has_free (policy_of self.now) }
    {
        self.has(0)
    }

    fn is_near(&self, addr: IpSocketAddress) -> bool
        ensures { result ≡ is_near (policy_of self.now) addr }
    {
        self.anywhere || is_loopback(addr.ip())
    }

    fn is_own(&self, addr: IpSocketAddress) -> bool
        ensures { result ≡ is_own (policy_of self.now) addr }
    {
        self.is_near(addr) && self.has_port(addr)
    }

    /// Whether the address may be put to this use. A bind, a listen, a connect and a send need an
    /// allowed port; what arrives may come from any. The wildcard may be bound, since a connect or
    /// a send that isn't bound asks for it. A socket that was bound to port 0, where that is
    /// allowed, may listen on the port that it was given.
    pub fn allows(&self, addr: IpSocketAddress, usage: SocketAddrUse) -> bool
        ensures { result ≡ allows (policy_of self.now) addr usage }
    {
        match usage {
            SocketAddrUse::TcpBind | SocketAddrUse::UdpBind => is_any(addr) || self.is_own(addr),
            SocketAddrUse::TcpListen => {
                self.is_near(addr) && (self.has_port(addr) || self.has_free())
            }
            SocketAddrUse::TcpConnect | SocketAddrUse::UdpSend => self.is_own(addr),
            SocketAddrUse::TcpAccept | SocketAddrUse::UdpReceive => self.is_near(addr),
        }
    }

    /// The answer to a check.
    pub fn check(&self, addr: IpSocketAddress, usage: SocketAddrUse) -> Told
        ensures told { result ≡ verdict (policy_of self.now) addr usage }
        ensures fits { IsVerdict result }
    {
        if self.allows(addr, usage) {
            Told::Yes
        } else {
            Told::No
        }
    }
}
