//! The check, the network and name lookup as one trait.

use crate::call::{Call, Told};
use crate::ids::{OpId, Sock};
use std::alloc::AllocError;
use wasi_addr::IpSocketAddress;

/// What the host asks: an address check, a network and name lookup.
///
/// Each call that is answered appends one entry to the log, with an answer that fits, and raises
/// the count of faults exactly where a code is reported. Where a call runs out of memory it wasn't
/// made. The log need not be reported: what is known of a world is its ghost `seen`.
pub trait World {
    ghost use Rattle.std.specs.Prelude.{◌≡◌, ◌<◌, ◌≤◌, ◌^◌, IfOk, OnErr, length, true, false};
    ghost use Rattle.std.specs.Prelude.{List, Option};
    ghost use Rattle.wasi_world.specs.declared.ids.OpId.{OpId};
    ghost use Rattle.wasi_world.specs.Closings.{Named, NoneNamed};
    ghost use Rattle.wasi_world.specs.Fits.{Fits, IsPlain, IsWritten};
    ghost use Rattle.wasi_world.specs.Seen.{Seen, Ends, Closes};
    ghost use Rattle.wasi_world.specs.Asks.{one, one_write, AsksFor};
    ghost use Rattle.wasi_world.specs.Script.{GoesByPlan};

    /// What is known of it.
    ghost seen: { Self → Seen };

    /// The network sockets that were closed after the end mark, in order, where it keeps their
    /// names.
    ghost closed: { Self → Option (List OpId) };

    /// Makes any call but a write and a send. Out of memory the call wasn't made.
    fn call(&mut self, op: OpId, call: Call) -> Result<Told, AllocError>
        requires open { (seen self.old).ended ≡ false }
        requires plain { IsPlain call }
        ensures asked { AsksFor (one op call) (seen self.old) (seen self.new) (λ told. told)
            result }
        ensures fits { IfOk result (λ told. Fits call told) }
        ensures err { OnErr result (seen self.new ≡ seen self.old) };

    /// Offers bytes to a connection: pending, the bytes taken, from the front, or a code. Out of
    /// memory the call wasn't made.
    fn write(&mut self, op: OpId, sock: Sock, bytes: &[u8]) -> Result<Told, AllocError>
        requires open { (seen self.old).ended ≡ false }
        requires some { 1 ≤ length bytes.now }
        requires short { length bytes.now < 2 ^ 32 }
        ensures asked { AsksFor (one_write op sock bytes.now) (seen self.old) (seen self.new)
            (λ told. told) result }
        ensures fits { IfOk result (λ told. IsWritten (length bytes.now) told) }
        ensures err { OnErr result (seen self.new ≡ seen self.old) };

    /// Sends one datagram: pending, done, or a code. Out of memory the call wasn't made.
    fn send(
        &mut self,
        op: OpId,
        sock: Sock,
        addr: IpSocketAddress,
        bytes: &[u8],
    ) -> Result<Told, AllocError>
        requires open { (seen self.old).ended ≡ false }
        ensures asked { AsksFor (one op (Call.Send sock addr bytes.now)) (seen self.old)
            (seen self.new) (λ told. told) result }
        ensures err { OnErr result (seen self.new ≡ seen self.old) };

    /// Sets the end mark; can't be refused. None is closed after it yet.
    fn end(&mut self)
        requires open { (seen self.old).ended ≡ false }
        ensures mark { Ends (seen self.old) (seen self.new) }
        ensures none { NoneNamed (closed self.new) };

    /// Closes a network socket after the end mark. It is counted, named where names are kept, and
    /// not logged, and can't be refused.
    fn close_after_end(&mut self, sock: Sock)
        requires ended { (seen self.old).ended ≡ true }
        ensures counted { Closes (seen self.old) (seen self.new) }
        ensures named { Named (closed self.old) sock (closed self.new) };

    /// A world that reports both its log and a plan answers by the plan.
    ghost scripted: { (world : Self) → GoesByPlan (seen world) };
}
