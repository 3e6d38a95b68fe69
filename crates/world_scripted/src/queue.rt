//! The planned answers of one kind, and how far they are used.

ghost use Rattle.std.specs.Prelude.{◌≡◌, IfOk, OnOk, OnErr, [], ◌∷◌, ◌++◌, Some, None, length};
ghost use Rattle.std.specs.Prelude.{true};
ghost use Rattle.std.specs.Prelude.{take, drop, min, option_map, IfSome, ◌≤◌, slice_get};
ghost use Rattle.wasi_world.specs.Asks.{IsFront};
ghost use Rattle.world_scripted.specs.Queued.{planned_after, HasFront};
ghost use Rattle.wasi_world.specs.Script.{asked, offered, given, left_after, as_planned};

use std::alloc::{AllocError, Global};
use std::marker::Model;
use wasi_world::{Call, Octets, Planned, Told};

/// Answers, of which the first ones are used, and of the bytes of the next one a front.
#[derive(Drop)]
pub struct Queue {
    answers: Vec<Planned>,
    used: usize,
    front: usize,
}

impl Model for Queue {
    ghost use Rattle.std.specs.Prelude.{◌≤◌, length, drop};
    ghost use Rattle.world_scripted.specs.Queued.{Queued, without_front, HasFront};

    ghost Value = { Queued };

    ghost view = { λ q. record {
      all = q.answers.items;
      left = without_front q.front
          (drop q.used q.answers.items);
    } };

    ghost invariant = { λ q. (q.used ≤ length q.answers.items)
        × HasFront q.front (drop q.used q.answers.items) };
}

/// How many bytes a read asks for.
fn asked(call: &Call) -> usize
    ensures { result ≡ asked call.now }
{
    match call {
        Call::Read { size, .. } => *size as usize,
        _ => 0,
    }
}

/// The front of a write's bytes that is taken, at most `count` of them.
fn taken(alloc: Global, count: u64, bytes: &[u8]) -> Result<Octets, AllocError>
    ensures { IfOk result (λ taken. taken ≡ take (min count (length bytes.now)) bytes.now) }
{
    let count = count.min(bytes.len() as u64) as usize;
    Octets::copy_of(alloc, &bytes[..count])
}

/// The bytes after the first `front`, at most `size` of them.
fn part(alloc: Global, bytes: &[u8], front: usize, size: usize) -> Result<Octets, AllocError>
    requires { front ≤ length bytes.now }
    ensures { IfOk result (λ part. part ≡ take size (drop front bytes.now)) }
{
    let rest = &bytes[front..];
    let size = size.min(rest.len());
    Octets::copy_of(alloc, &rest[..size])
}

/// What a planned answer gives a call, once the first `front` of its bytes are used. `bytes` are
/// those that the call offers.
fn tell(
    alloc: Global,
    planned: &Planned,
    front: usize,
    call: &Call,
    bytes: &[u8],
) -> Result<Told, AllocError>
    requires front { HasFront front (planned.now ∷ []) }
    requires offered { length bytes.now ≡ offered call.now }
    ensures told { IfOk result (λ told. as_planned told ≡ given call.now
        (planned_after front planned.now)) }
    ensures front { IfOk result (λ told. IsFront told bytes.now) }
{
    match planned {
        Planned::Pending => Ok(Told::Pending),
        Planned::Done => Ok(Told::Done),
        Planned::Yes => Ok(Told::Yes),
        Planned::No => Ok(Told::No),
        Planned::Code(code) => Ok(Told::Code(*code)),
        Planned::Addr(addr) => Ok(Told::Addr(*addr)),
        Planned::Arrived(addr) => Ok(Told::Arrived(*addr)),
        Planned::Value(value) => Ok(Told::Value(*value)),
        Planned::Bytes(planned) => {
            let part = part(alloc, planned.as_slice(), front, asked(call))?;
            Ok(Told::Bytes(part))
        }
        Planned::Took(count) => {
            let taken = taken(alloc, *count, bytes)?;
            Ok(Told::Took(taken))
        }
        Planned::Datagram(bytes, addr) => {
            let bytes = bytes.try_clone()?;
            Ok(Told::Datagram(bytes, *addr))
        }
        Planned::Names(names) => {
            let names = names.try_clone()?;
            Ok(Told::Names(names))
        }
    }
}

impl Queue {
    ghost use Rattle.world_scripted.specs.Queued.{Queued};

    /// No answers.
    pub fn new(alloc: Global) -> Queue
        ensures { result ≡ record { all = []; left = [] } }
    {
        Queue {
            answers: Vec::new(alloc),
            used: 0,
            front: 0,
        }
    }

    /// One more answer, the last.
    pub fn push(&mut self, answer: Planned) -> Result<(), AllocError>
        ensures ok { OnOk result (self.new ≡ record {
          all = self.old.all ++ answer ∷ [];
          left = self.old.left ++ answer ∷ [];
        }) }
        ensures err { OnErr result (self.new ≡ self.old) }
    {
        self.answers.push(answer)?;
        Ok(())
    }

    /// What the next answer gives a call; none where all are used. Takes memory for the bytes or
    /// names.
    pub fn tell(&self, alloc: Global, call: &Call, bytes: &[u8]) -> Result<Option<Told>, AllocError>
        requires { length bytes.now ≡ offered call.now }
        ensures told { IfOk result (λ told. option_map as_planned told
            ≡ option_map (given call.now) (slice_get self.now.left 0)) }
        ensures front { IfOk result (λ told. IfSome told (λ told. IsFront told bytes.now)) }
    {
        match self.answers.get(self.used) {
            Some(planned) => {
                let told = tell(alloc, planned, self.front, call, bytes)?;
                Ok(Some(told))
            }
            None => Ok(None),
        }
    }

    /// Whether all its answers are used.
    pub fn is_used_up(&self) -> bool
        ensures { result ≡ true → self.now.left ≡ [] }
    {
        self.used >= self.answers.len()
    }

    /// Goes on to what is left after a call; takes no memory.
    pub fn advance(&mut self, call: &Call)
        ensures { self.new ≡ record {
          all = self.old.all;
          left = left_after call.now self.old.left;
        } }
    {
        let Some(planned) = self.answers.get(self.used) else {
            return;
        };
        if let Planned::Bytes(bytes) = planned {
            let size = asked(call);
            if size < bytes.len() - self.front {
                self.front += size;
                return;
            }
        }
        self.used += 1;
        self.front = 0;
    }
}
