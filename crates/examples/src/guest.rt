//! A host's run of one guest.

ghost use Rattle.std.specs.Prelude.{◌≡◌, Some, [], IfSome, true, false};
ghost use Rattle.examples.specs.Checked.{ConnectsChecked};

use std::alloc::{AllocError, Global};
use wasi_addr::{IpSocketAddress, Ipv4SocketAddress, SocketAddressFamily};
use wasi_session::{GuestCall, NameCall, Reply, Session, Step, StreamCall, TcpCall};
use wasi_world::{Octets, WasiSocketsCtx, World};

/// A guest that makes two sockets, connects each, one to port 80 and one to port 25, and writes to
/// the first.
pub fn guest_calls(alloc: Global) -> Result<Vec<GuestCall>, AllocError> {
    let hello = Octets::copy_of(alloc, b"hello")?;
    let calls = [
        GuestCall::Names(NameCall::Network),
        GuestCall::Tcp(TcpCall::Create {
            family: SocketAddressFamily::Ipv4,
        }),
        connect(2, 80),
        GuestCall::Tcp(TcpCall::FinishConnect { socket: 2 }),
        GuestCall::Stream(StreamCall::CheckWrite { output: 4 }),
        GuestCall::Stream(StreamCall::Write {
            output: 4,
            bytes: hello,
        }),
        GuestCall::Tcp(TcpCall::Create {
            family: SocketAddressFamily::Ipv4,
        }),
        connect(5, 25),
        GuestCall::Tcp(TcpCall::FinishConnect { socket: 5 }),
    ];
    let mut list = Vec::new(alloc);
    for call in calls {
        list.push(call)?;
    }
    Ok(list)
}

/// Begins to connect a socket to this port of 127.0.0.1, by the network with handle 1.
fn connect(socket: u32, port: u16) -> GuestCall {
    let address = (127, 0, 0, 1);
    GuestCall::Tcp(TcpCall::StartConnect {
        socket,
        network: 1,
        addr: IpSocketAddress::Ipv4(Ipv4SocketAddress { port, address }),
    })
}

/// Makes the guest's calls one after another, all in context 0, until one traps or memory runs out,
/// and ends the session. Keeps the replies.
///
/// Whatever the calls are, and whatever the world answers: each connect in its log follows a yes to
/// its address, within the same call of the guest.
pub fn run_guest<W: World>(
    alloc: Global,
    world: W,
    contexts: Vec<WasiSocketsCtx>,
    calls: Vec<GuestCall>,
    replies: &mut Vec<Reply>,
) -> W
    requires open { (W.seen world).ended ≡ false }
    requires fresh { (W.seen world).log ≡ Some [] }
    ensures checked { IfSome (W.seen result).log ConnectsChecked }
    ensures ended { (W.seen result).ended ≡ true }
{
    let mut session = Session::new(alloc, world, contexts);
    for call in calls {
        let Ok(reply) = session.step(Step::Call { context: 0, call }) else {
            break;
        };
        let Ok(()) = replies.push(reply) else {
            break;
        };
    }
    session.finish()
}
