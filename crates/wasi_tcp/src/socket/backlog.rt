//! How many connections may wait at a listener.

ghost use Rattle.std.specs.Prelude.{◌≡◌, false, OnErr, Ok};
ghost use Rattle.wasi_world.specs.Asks.{AsksFor, outcome};

use crate::socket::{TcpSocket, TcpState};
use wasi_addr::{ErrorCode, clamp_backlog};
use wasi_world::{OpId, Refusal, World, asks};

impl TcpSocket {
    ghost use Rattle.wasi_tcp.specs.Socket.{side_of};
    ghost use Rattle.wasi_tcp.specs.Options.{after_backlog, set_backlog_asks};

    /// Sets how many connections may wait at a listener (`tcp-socket.set-listen-backlog-size`); the
    /// value is brought into 1 to 2,147,483,647.
    ///
    /// - 0: `InvalidArgument`, in any state.
    /// - Default: it is kept for the listen to come, and nothing is asked.
    /// - Listening: the network is asked. Done, it is kept; a code is returned as `NotSupported`,
    ///   and the old one stays.
    /// - Closed: its code. Connecting or Connected: `InvalidState`.
    /// - Out of memory the socket stays as it was.
    pub fn set_listen_backlog_size<W: World>(
        &mut self,
        world: &mut W,
        op: OpId,
        value: u64,
    ) -> Result<(), Refusal>
        requires { (W.seen world.old).ended ≡ false }
        ensures asked { AsksFor (set_backlog_asks op self.old value) (W.seen world.old)
            (W.seen world.new) (λ answer. (answer, self.new)) (outcome result) }
        ensures err { OnErr (outcome result) (self.new ≡ self.old) }
        ensures unasked { OnErr (outcome result) (W.seen world.new ≡ W.seen world.old) }
        ensures side { side_of self.new ≡ side_of self.old }
    {
        if value == 0 {
            return Err(Refusal::Code(ErrorCode::InvalidArgument));
        }
        let backlog = clamp_backlog(value);
        match &self.state {
            TcpState::Default(_) => {
                self.backlog = backlog;
                Ok(())
            }
            TcpState::Listening(side) => {
                let told = asks::set_backlog(world, op, *side, backlog)?;
                self.learn_backlog(backlog, told)
            }
            TcpState::Connecting(_) | TcpState::Connected(_) => {
                Err(Refusal::Code(ErrorCode::InvalidState))
            }
            TcpState::Closed(code) => Err(Refusal::Code(*code)),
        }
    }

    /// What the network answers of a backlog; one that it takes is kept.
    fn learn_backlog(&mut self, backlog: u32, told: Result<(), ErrorCode>) -> Result<(), Refusal>
        ensures answer { outcome result ≡ Ok (after_backlog self.old backlog told).0 }
        ensures socket { self.new ≡ (after_backlog self.old backlog told).1 }
        ensures side { side_of self.new ≡ side_of self.old }
    {
        match told {
            Ok(()) => {
                self.backlog = backlog;
                Ok(())
            }
            Err(_) => Err(Refusal::Code(ErrorCode::NotSupported)),
        }
    }
}
