//! The calls of the system that a network makes, as one trait.

use crate::descriptor::Descriptor;
use crate::errno::Errno;
use libc::types::pollfd;

/// An address as C has it: the bytes of a `sockaddr_storage`.
pub type Storage = [u8; 128];

/// The value of an option: an `int` in the first 4 bytes.
pub type OptionValue = [u8; 16];

/// What does the system's calls. Each method is one call, with its arguments as C has them; which
/// call is made with which arguments is what the ghost `acts` says, where an implementation reports
/// it.
pub trait System {
    ghost use Rattle.std.specs.Prelude.{◌≡◌, ◌≤◌, length, IfOk};
    ghost use Rattle.libc.specs.Net.{Family, Kind, SockOption};
    ghost use Rattle.wasi_net.specs.Acts.{Acts, after, number_of, came};
    ghost use Rattle.wasi_net.specs.Acts as act;

    /// What was asked of it, the last first.
    ghost acts: { Self → Acts };

    fn socket(&mut self, domain: i32, kind: i32) -> Result<Descriptor, Errno>
        requires domain { Family domain }
        requires kind { Kind kind }
        ensures { acts self.new ≡ after (act.Socket domain kind (number_of result))
            (acts self.old) };

    fn bind(&mut self, fd: i32, addr: &Storage, len: u32) -> Result<(), Errno>
        requires { len ≤ 128 }
        ensures { acts self.new ≡ after (act.Bind fd addr.now len result) (acts self.old) };

    fn connect(&mut self, fd: i32, addr: &Storage, len: u32) -> Result<(), Errno>
        requires { len ≤ 128 }
        ensures { acts self.new ≡ after (act.Connect fd addr.now len result) (acts self.old) };

    fn listen(&mut self, fd: i32, backlog: i32) -> Result<(), Errno>
        ensures { acts self.new ≡ after (act.Listen fd backlog result) (acts self.old) };

    /// The next arrival, and its sender's address in `addr` and `len`.
    fn accept(&mut self, fd: i32, addr: &mut Storage, len: &mut u32) -> Result<Descriptor, Errno>
        requires { len.old ≤ 128 }
        ensures { acts self.new ≡ after (act.Accept fd (number_of result)) (acts self.old) };

    fn local(&mut self, fd: i32) -> Result<(Storage, u32), Errno>
        ensures { acts self.new ≡ after (act.Local fd result) (acts self.old) };

    fn peer(&mut self, fd: i32) -> Result<(Storage, u32), Errno>
        ensures { acts self.new ≡ after (act.Peer fd result) (acts self.old) };

    fn set(
        &mut self,
        fd: i32,
        level: i32,
        name: i32,
        value: &OptionValue,
        len: u32,
    ) -> Result<(), Errno>
        requires option { SockOption level name }
        requires len { len ≤ 16 }
        ensures { acts self.new ≡ after (act.Set fd level name value.now len result)
            (acts self.old) };

    fn get(&mut self, fd: i32, level: i32, name: i32) -> Result<OptionValue, Errno>
        requires { SockOption level name }
        ensures { acts self.new ≡ after (act.Get fd level name result) (acts self.old) };

    fn send(&mut self, fd: i32, bytes: &[u8]) -> Result<usize, Errno>
        ensures acted { acts self.new ≡ after (act.Send fd bytes.now result) (acts self.old) }
        ensures count { IfOk result (λ count. count ≤ length bytes.now) };

    /// Puts what came at the front of the buffer.
    fn receive(&mut self, fd: i32, buffer: &mut [u8]) -> Result<usize, Errno>
        ensures acted { acts self.new ≡ after (act.Receive fd (length buffer.old)
            (came result buffer.new)) (acts self.old) }
        ensures count { IfOk result (λ count. count ≤ length buffer.old) };

    fn send_to(&mut self, fd: i32, bytes: &[u8], addr: &Storage, len: u32) -> Result<usize, Errno>
        requires { len ≤ 128 }
        ensures acted { acts self.new ≡ after (act.SendTo fd bytes.now addr.now len result)
            (acts self.old) }
        ensures count { IfOk result (λ count. count ≤ length bytes.now) };

    /// Puts what came at the front of the buffer, and its sender's address in `addr` and `len`.
    fn receive_from(
        &mut self,
        fd: i32,
        buffer: &mut [u8],
        addr: &mut Storage,
        len: &mut u32,
    ) -> Result<usize, Errno>
        requires { len.old ≤ 128 }
        ensures acted { acts self.new ≡ after (act.ReceiveFrom fd (length buffer.old)
            (came result buffer.new)) (acts self.old) }
        ensures count { IfOk result (λ count. count ≤ length buffer.old) };

    fn shutdown(&mut self, fd: i32, how: i32) -> Result<(), Errno>
        ensures { acts self.new ≡ after (act.Shutdown fd how result) (acts self.old) };

    /// How many of the descriptors are ready, within so many milliseconds, or without limit where
    /// they are negative.
    fn poll(&mut self, fds: &mut [pollfd], timeout: i32) -> Result<usize, Errno>
        ensures { acts self.new ≡ after (act.Poll fds.old timeout result) (acts self.old) };

    /// Closes a descriptor, whose number may then be given to another.
    fn close(&mut self, descriptor: Descriptor)
        ensures { acts self.new ≡ after (act.Close descriptor.number) (acts self.old) };
}
