//! One who asks the network by lines of text.
//!
//! `N CALL = ANSWER` makes a call, as logs write it, of the operation of line N, and wants this
//! answer: an address by its port alone, of an arrival and of names nothing but that word.
//! `write N BYTES = ANSWER` offers bytes. `port N` asks where the network socket of line N is bound;
//! from then on `{N}` stands for that port. `readable N` and `writable N` look until there is
//! something to read, the end or a fault, or until there is room. `fill N` writes until there is no
//! more room, and `drain N` reads as many bytes as were taken.

ghost use Rattle.std.specs.Prelude.{◌≡◌, ◌≤◌, ◌<◌, ◌^◌, false, length};
ghost use Rattle.wasi_net.specs.Net.{seen_by};

use std::alloc::{AllocError, Global};
use std::net::Net;
use std::test::Fail;
use wasi_addr::{IpSocketAddress, Ipv4SocketAddress};
use wasi_net::{Allowed, Hosts, Linux, SystemWorld};
use wasi_replay::call::call;
use wasi_world::{Call, OpId, Sock, Told, Waits, World};
use world_text::digits::push_octets;
use world_text::fields::Fields;

/// A network that has not ended, and what is known of it.
#[derive(Drop)]
pub struct Guest {
    alloc: Global,
    world: SystemWorld<Linux>,
    /// The ports of the network sockets of the first lines.
    ports: [u16; 8],
    /// How many bytes were taken and not read.
    taken: u64,
    ghost open: { (seen_by world).ended ≡ false },
}

/// How often a call is made again that is pending, where another answer is expected.
const TRIES: u32 = 8;

/// How long each wait for that may take, in milliseconds.
const WAIT: i32 = 1000;

/// The name of a line's own operation, and of the network socket that it makes.
pub fn line(step: u32) -> OpId {
    OpId { step, part: 0 }
}

/// A word, and bytes behind it.
fn with_bytes(alloc: Global, word: &str, bytes: &[u8]) -> Result<String, AllocError> {
    let mut text = word.to_string(alloc)?;
    push_octets(&mut text, bytes)?;
    Ok(text)
}

/// The text of an answer.
fn told_text(alloc: Global, told: &Told) -> Result<String, AllocError> {
    match told {
        Told::Pending => "pending".to_string(alloc),
        Told::Done => "done".to_string(alloc),
        Told::Yes => "yes".to_string(alloc),
        Told::No => "no".to_string(alloc),
        Told::Code(code) => format!(in alloc; "{code}"),
        Told::Addr(addr) => format!(in alloc; "port {}", addr.port()),
        Told::Arrived(_) => "arrived".to_string(alloc),
        Told::Bytes(bytes) => with_bytes(alloc, "bytes ", bytes.as_slice()),
        Told::Took(bytes) => format!(in alloc; "took {}", bytes.len()),
        Told::Datagram(bytes, _) => with_bytes(alloc, "datagram ", bytes.as_slice()),
        Told::Value(value) => format!(in alloc; "value {value}"),
        Told::Names(_) => "names".to_string(alloc),
    }
}

impl Guest {
    /// Over a network where these ports are allowed.
    pub fn new<R: Net>(rt: &R, alloc: Global, ports: &[u16]) -> Result<Guest, AllocError> {
        let (allowed, hosts) = (Allowed::loopback(ports.to_vec(alloc)?), Hosts::none(alloc));
        Ok(Guest {
            alloc,
            world: SystemWorld::new(Linux::new(rt), alloc, allowed, hosts),
            ports: [0; 8],
            taken: 0,
        })
    }

    /// Makes a call.
    fn ask(&mut self, op: OpId, call: Call) -> Result<Told, Fail> {
        match call {
            Call::Send { sock, addr, bytes } => {
                Ok(self.world.send(op, sock, addr, bytes.as_slice())?)
            }
            Call::Write { .. } => Err(Fail::new("bytes are offered by `write`")),
            plain => Ok(self.world.call(op, plain)?),
        }
    }

    /// Offers bytes.
    fn write(&mut self, sock: Sock, bytes: &[u8]) -> Result<Told, Fail> {
        if bytes.is_empty() || bytes.len() > 65_536 {
            return Err(Fail::new("some bytes are offered"));
        }
        Ok(self.world.write(sock, sock, bytes)?)
    }

    /// Makes a call until it is done, and fails where it stays pending.
    fn looks(&mut self, sock: Sock, is_read: bool) -> Result<(), Fail> {
        for _ in 0..TRIES {
            let look = if is_read {
                Call::ReadReady { sock }
            } else {
                Call::WriteReady { sock }
            };
            if let Told::Done = self.ask(sock, look)? {
                return Ok(());
            }
            self.world.wait(WAIT);
        }
        Err(Fail::new("nothing comes, or there is no room"))
    }

    /// Writes until the system has no more room.
    fn fill(&mut self, sock: Sock) -> Result<(), Fail> {
        for _ in 0..1000 {
            let Told::Took(bytes) = self.write(sock, &[7; 4096])? else {
                return Ok(());
            };
            self.taken = self.taken.saturating_add(bytes.len() as u64);
        }
        Err(Fail::new("there is always room"))
    }

    /// Reads as many bytes as were taken.
    fn drain(&mut self, sock: Sock) -> Result<(), Fail> {
        for _ in 0..10_000 {
            if self.taken == 0 {
                return Ok(());
            }
            self.looks(sock, true)?;
            if let Told::Bytes(bytes) = self.ask(sock, Call::Read { sock, size: 65_536 })? {
                self.taken = self.taken.saturating_sub(bytes.len() as u64);
            }
        }
        Err(Fail::new("bytes were lost"))
    }

    /// Keeps the port that a network socket is bound to.
    fn keep_port(&mut self, sock: Sock) -> Result<(), Fail> {
        let told = self.ask(sock, Call::Local { sock })?;
        match (told, self.ports.get_mut(sock.step as usize)) {
            (Told::Addr(addr), Some(port)) => *port = addr.port(),
            _ => return Err(Fail::new("a bound socket has an address")),
        }
        Ok(())
    }

    /// A line in which the ports stand.
    fn filled_in(&self, line: &str) -> Result<String, AllocError> {
        let mut text = line.to_string(self.alloc)?;
        for (step, port) in self.ports.iter().enumerate() {
            let name = format!(in self.alloc; "{{{step}}}")?;
            let port = format!(in self.alloc; "{port}")?;
            text = text.replace(self.alloc, name.as_str(), port.as_str())?;
        }
        Ok(text)
    }

    /// Does what a line says, which begins with this word; the answer where it wants one.
    fn does(&mut self, word: &str, fields: &mut Fields<'_>) -> Result<Option<Told>, Fail> {
        let alloc = self.alloc;
        if let Ok(step) = word.parse::<u32>() {
            let Some(call) = call(alloc, fields)? else {
                return Err(Fail::new("no call"));
            };
            return Ok(Some(self.ask(line(step), call)?));
        }
        let sock = line(fields.u32().unwrap_or(0));
        match word {
            "port" => self.keep_port(sock)?,
            "readable" => self.looks(sock, true)?,
            "writable" => self.looks(sock, false)?,
            "fill" => self.fill(sock)?,
            "drain" => self.drain(sock)?,
            _ => {
                let Some(bytes) = fields.octets(alloc)? else {
                    return Err(Fail::new("no bytes"));
                };
                return Ok(Some(self.write(sock, bytes.as_slice())?));
            }
        }
        Ok(None)
    }

    /// Does what each line of a text says, and fails where another answer than its own is given.
    pub fn plays(&mut self, text: &str) -> Result<(), Fail> {
        for line in text.lines() {
            let line = self.filled_in(line)?;
            let (ask, wanted) = line
                .as_str()
                .split_once(" = ")
                .unwrap_or((line.as_str(), ""));
            let mut fields = Fields::of(ask.as_bytes());
            let word = fields.word().unwrap_or("");
            if let Some(told) = self.does(word, &mut fields)? {
                let told = told_text(self.alloc, &told)?;
                if told.as_str() != wanted {
                    return Err(Fail::new(format_args!("{told} in place of {line}")));
                }
            }
        }
        Ok(())
    }

    /// How many codes were reported.
    pub fn faults(&self) -> u64 {
        self.world.faults()
    }

    /// Ends the run with this network socket open, and returns how many were closed.
    pub fn end(self, sock: Sock) -> u64 {
        let Guest { mut world, .. } = self;
        world.end();
        world.close_after_end(sock);
        world.closed_after_end()
    }
}
