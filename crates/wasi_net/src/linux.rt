//! Linux's calls, by the C library: the one module with `unsafe`. Each method hands its arguments
//! on as they are.

ghost use Rattle.std.specs.Prelude.{◌≡◌, ◌≤◌, length, IfOk};
ghost use Rattle.libc.specs.Io.{Moved};

use crate::descriptor::Descriptor;
use crate::errno::Errno;
use crate::system::{OptionValue, Storage, System};
use libc::net as c;
use libc::types::pollfd;
use std::net::Net;

/// The system below the program. It reports no calls.
#[derive(Drop)]
pub struct Linux {
    _net: (),
}

/// Why the last call failed.
fn last_errno() -> Errno {
    Errno {
        number: os::errno().unsigned_abs(),
    }
}

/// What a call answered that succeeds or fails.
fn status(answer: i32) -> Result<(), Errno> {
    if answer < 0 {
        Err(last_errno())
    } else {
        Ok(())
    }
}

/// The descriptor that a call made.
fn made(answer: i32) -> Result<Descriptor, Errno> {
    if answer < 0 {
        Err(last_errno())
    } else {
        Ok(Descriptor::new(answer))
    }
}

/// How many bytes a call moved.
fn moved(answer: isize, most: usize) -> Result<usize, Errno>
    requires { Moved most answer }
    ensures { IfOk result (λ count. count ≤ most) }
{
    if answer < 0 {
        return Err(last_errno());
    }
    Ok((answer as usize).min(most))
}

impl Linux {
    /// Who has leave to use the network has its calls.
    pub fn new<R: Net>(_net: &R) -> Linux {
        Linux { _net: () }
    }

    /// The system's calls of the process that a library is linked into. An export is given no
    /// handle, so here whoever links the library gives the leave.
    pub fn of_process() -> Linux {
        Linux { _net: () }
    }
}

impl System for Linux {
    ghost use Rattle.std.specs.Prelude.{None};

    ghost acts = { λ _. None };

    fn socket(&mut self, domain: i32, kind: i32) -> Result<Descriptor, Errno> {
        made(unsafe { c::socket(domain, kind, 0) })
    }

    fn bind(&mut self, fd: i32, addr: &Storage, len: u32) -> Result<(), Errno> {
        status(unsafe { c::bind(fd, addr, len) })
    }

    fn connect(&mut self, fd: i32, addr: &Storage, len: u32) -> Result<(), Errno> {
        status(unsafe { c::connect(fd, addr, len) })
    }

    fn listen(&mut self, fd: i32, backlog: i32) -> Result<(), Errno> {
        status(c::listen(fd, backlog))
    }

    fn accept(&mut self, fd: i32, addr: &mut Storage, len: &mut u32) -> Result<Descriptor, Errno> {
        made(unsafe { c::accept4(fd, addr, len, c::SOCK_NONBLOCK | c::SOCK_CLOEXEC) })
    }

    fn local(&mut self, fd: i32) -> Result<(Storage, u32), Errno> {
        let mut addr = [0u8; 128];
        let mut len = 128;
        status(unsafe { c::getsockname(fd, &mut addr, &mut len) })?;
        Ok((addr, len))
    }

    fn peer(&mut self, fd: i32) -> Result<(Storage, u32), Errno> {
        let mut addr = [0u8; 128];
        let mut len = 128;
        status(unsafe { c::getpeername(fd, &mut addr, &mut len) })?;
        Ok((addr, len))
    }

    fn set(
        &mut self,
        fd: i32,
        level: i32,
        name: i32,
        value: &OptionValue,
        len: u32,
    ) -> Result<(), Errno> {
        status(unsafe { c::setsockopt(fd, level, name, value, len) })
    }

    fn get(&mut self, fd: i32, level: i32, name: i32) -> Result<OptionValue, Errno> {
        let mut value = [0u8; 16];
        let mut len = 16;
        status(unsafe { c::getsockopt(fd, level, name, &mut value, &mut len) })?;
        Ok(value)
    }

    fn send(&mut self, fd: i32, bytes: &[u8]) -> Result<usize, Errno> {
        moved(unsafe { c::send(fd, bytes, c::MSG_NOSIGNAL) }, bytes.len())
    }

    fn receive(&mut self, fd: i32, buffer: &mut [u8]) -> Result<usize, Errno> {
        let most = buffer.len();
        moved(unsafe { c::recv(fd, buffer, 0) }, most)
    }

    fn send_to(&mut self, fd: i32, bytes: &[u8], addr: &Storage, len: u32) -> Result<usize, Errno> {
        let sent = unsafe { c::sendto(fd, bytes, c::MSG_NOSIGNAL, addr, len) };
        moved(sent, bytes.len())
    }

    fn receive_from(
        &mut self,
        fd: i32,
        buffer: &mut [u8],
        addr: &mut Storage,
        len: &mut u32,
    ) -> Result<usize, Errno> {
        let most = buffer.len();
        moved(unsafe { c::recvfrom(fd, buffer, 0, addr, len) }, most)
    }

    fn shutdown(&mut self, fd: i32, how: i32) -> Result<(), Errno> {
        status(c::shutdown(fd, how))
    }

    fn poll(&mut self, fds: &mut [pollfd], timeout: i32) -> Result<usize, Errno> {
        let most = fds.len();
        moved(c::poll(fds, timeout) as isize, most)
    }

    fn close(&mut self, descriptor: Descriptor) {
        drop(descriptor);
    }
}
