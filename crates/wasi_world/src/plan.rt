//! The answers that a scenario plans.

ghost use Rattle.std.specs.Prelude.{◌≡◌};
ghost use Rattle.wasi_world.specs.Kinds.{takes};

use crate::octets::{IpList, Octets};
use wasi_addr::{ErrorCode, IpSocketAddress};

/// The most bytes of a datagram.
const MOST_DATAGRAM: usize = 65535;

/// The kinds of call that answers are planned for, each named as its [`crate::Call`]. Each has a
/// list of answers of its own, used in order over all sockets.
#[derive(Clone, Copy, Debug, PartialEq, Eq)]
pub enum Kind {
    Check,
    Lookup,
    TcpCreate,
    UdpCreate,
    UdpWritable,
    Local,
    Peer,
    Bind,
    Listen,
    SetBacklog,
    UdpBind,
    UdpConnect,
    UdpDisconnect,
    SetOption,
    Connect,
    Send,
    Accept,
    Read,
    ReadReady,
    Write,
    WriteReady,
    Recv,
    GetOption,
}

/// One planned answer of a scenario.
#[derive(Drop)]
pub enum Planned {
    Pending,
    Done,
    Yes,
    No,
    Code(ErrorCode),
    Addr(IpSocketAddress),
    Arrived(IpSocketAddress),
    /// A read gives these bytes; those beyond the size that it asks for are the next answer.
    Bytes(Octets),
    /// A write takes at most so many bytes.
    Took(u64),
    Datagram(Octets, IpSocketAddress),
    Value(u64),
    Names(IpList),
}

impl Kind {
    /// Whether a list of this kind may hold the answer.
    pub fn takes(self, answer: &Planned) -> bool
        ensures { result ≡ takes self answer.now }
    {
        match self {
            Kind::Check => matches!(answer, Planned::Pending | Planned::Yes | Planned::No),
            Kind::Lookup => matches!(
                answer,
                Planned::Pending | Planned::Names(_) | Planned::Code(_)
            ),
            Kind::TcpCreate
            | Kind::UdpCreate
            | Kind::Bind
            | Kind::Listen
            | Kind::SetBacklog
            | Kind::UdpBind
            | Kind::UdpConnect
            | Kind::UdpDisconnect
            | Kind::SetOption => matches!(answer, Planned::Done | Planned::Code(_)),
            Kind::UdpWritable | Kind::Connect | Kind::Send => {
                matches!(answer, Planned::Pending | Planned::Done | Planned::Code(_))
            }
            Kind::Local | Kind::Peer => matches!(answer, Planned::Addr(_) | Planned::Code(_)),
            Kind::Accept => matches!(
                answer,
                Planned::Pending | Planned::Arrived(_) | Planned::Code(_)
            ),
            Kind::Read => matches!(
                answer,
                Planned::Pending | Planned::Bytes(_) | Planned::Code(_)
            ),
            Kind::ReadReady | Kind::WriteReady => {
                matches!(answer, Planned::Pending | Planned::Done)
            }
            Kind::Write => match answer {
                Planned::Took(count) => *count >= 1,
                _ => matches!(answer, Planned::Pending | Planned::Code(_)),
            },
            Kind::Recv => match answer {
                Planned::Datagram(bytes, _) => bytes.len() <= MOST_DATAGRAM,
                _ => matches!(answer, Planned::Pending | Planned::Code(_)),
            },
            Kind::GetOption => matches!(answer, Planned::Value(_) | Planned::Code(_)),
        }
    }
}
