//! The pending calls that stand beside others.

ghost use Rattle.std.specs.Prelude.{◌≡◌, ◌==◌, ◌<◌, List, [], ◌∷◌, ◌++◌, length, position, IfSome, OnOk, OnErr, option_map};
ghost use Rattle.host_store.specs.declared.beside.Beside.{Beside};
ghost use Rattle.host_store.specs.declared.beside.BesideCall.{BesideCall};
ghost use Rattle.host_store.specs.Beside.{beside_in, beside_with, beside_without, has_datagram, is_datagram_of};

use std::alloc::{AllocError, Global};
use std::marker::Model;
use std::mem;
use udp_records::{PendingReceive, PendingSend};
use wasi_records::RecordId;
use wasi_world::NameText;

/// What such a call does.
#[derive(Drop)]
pub enum BesideCall {
    /// Connects the TCP socket with this record number, whose state has the operation.
    Connect {
        socket: RecordId,
    },
    /// Looks up this host. It has no record.
    Resolve {
        host: NameText,
    },
    /// Sends a datagram on the UDP socket with this record number.
    Send {
        socket: RecordId,
        send: PendingSend,
    },
    /// Receives a datagram on the UDP socket with this record number.
    Receive {
        socket: RecordId,
        receive: PendingReceive,
    },
}

impl BesideCall {
    /// Whether it is a datagram of the UDP socket with this record number. Takes no memory.
    fn is_datagram_of(&self, place: RecordId) -> bool
        ensures { result ≡ is_datagram_of place self.now }
    {
        match self {
            BesideCall::Send { socket, .. } | BesideCall::Receive { socket, .. } => {
                *socket == place
            }
            BesideCall::Connect { .. } | BesideCall::Resolve { .. } => false,
        }
    }
}

/// A pending call beside which other calls go on. It begins no operation but its line's own.
#[derive(Drop)]
pub struct Beside {
    /// The number of the line that began it.
    pub line: u32,
    pub call: BesideCall,
}

/// These calls, in the order of their lines.
#[derive(Drop)]
pub struct BesideList {
    calls: Vec<Beside>,
}

impl Model for BesideList {
    ghost use Rattle.std.specs.Prelude.{List};
    ghost use Rattle.host_store.specs.declared.beside.Beside.{Beside};

    ghost Value = { List Beside };

    ghost view = { λ b. b.calls.items };
}

impl BesideList {
    /// No call. Takes no memory.
    pub fn new(alloc: Global) -> BesideList
        ensures { result ≡ [] }
    {
        BesideList {
            calls: Vec::new(alloc),
        }
    }

    /// The call with this number. Takes no memory.
    pub fn get(&self, line: u32) -> Option<&Beside>
        ensures { option_map (λ call. call.now) result ≡ beside_in self.now line }
    {
        self.calls.iter().find(|b| b.line == line)
    }

    /// Adds a call, the last one.
    pub fn push(&mut self, call: Beside) -> Result<(), AllocError>
        ensures ok { OnOk result (self.new ≡ self.old ++ call ∷ []) }
        ensures err { OnErr result (self.new ≡ self.old) }
    {
        self.calls.push(call)?;
        Ok(())
    }

    /// Takes out the call that was added last. Takes no memory.
    pub fn withdraw(&mut self)
        ensures { (before : List Beside) (last : Beside) → self.old ≡ before ++ last ∷ []
            → self.new ≡ before }
    {
        self.calls.pop();
    }

    /// Takes out the call with this number. Takes no memory.
    pub fn remove(&mut self, line: u32)
        ensures { self.new ≡ beside_without self.old line }
    {
        self.calls.retain(|b| b.line != line);
    }

    /// The place of the first one with this number. Takes no memory.
    fn place_of(&self, line: u32) -> Option<usize>
        ensures found { result ≡ position (λ b. b.line == line) self.now }
        ensures bound { IfSome result (λ i. i < length self.now) }
    {
        self.calls.iter().position(|b| b.line == line)
    }

    /// Puts this call in the place of the first one with this number, which it returns; `None`
    /// where there is none. Takes no memory.
    pub fn replace(&mut self, line: u32, call: BesideCall) -> Option<BesideCall>
        ensures calls { self.new ≡ beside_with self.old line call }
        ensures before { result ≡ option_map (λ b. b.call) (beside_in self.old line) }
    {
        let Some(place) = self.place_of(line) else {
            return None;
        };
        let before = mem::replace(&mut self.calls[place], Beside { line, call });
        Some(before.call)
    }

    /// Whether one is a datagram of the UDP socket with this record number. Takes no memory.
    pub fn has_datagram(&self, place: RecordId) -> bool
        ensures { result ≡ has_datagram self.now place }
    {
        self.calls.iter().any(|b| b.call.is_datagram_of(place))
    }
}
