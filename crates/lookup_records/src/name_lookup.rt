//! Lookups of host names: how one is begun and asked about, and how the addresses that it found are
//! handed out.

ghost use Rattle.std.specs.Prelude.{◌≡◌, ◌∷◌, [], ◌<◌, IfOk, OnErr, false, map, Ok, OnOk, true};
ghost use Rattle.std.specs.Prelude.{length};
ghost use Rattle.wasi_addr.specs.Address.{canonical};
ghost use Rattle.wasi_world.specs.Asks.{AsksFor};
ghost use Rattle.wasi_world.specs.Typed.{ask_lookup};
ghost use Rattle.lookup_records.specs.NameLookup.{is_looking, lookup_told, next_of, turn_lookup};
ghost use Rattle.lookup_records.specs.NameLookup.{poll_lookup_asks, unresolvable};
ghost use Rattle.record_common.specs.Sides.{MakesNone};

use std::alloc::{AllocError, Global};
use std::collections::VecDeque;
use std::marker::Model;
use wasi_addr::{IpAddress, lookup as lookup_code, p2};
use wasi_world::asks::Polled;
use wasi_world::{IpList, NameText, OpId, World, asks};

/// Addresses that were found and not handed out yet, the next one first.
#[derive(Drop)]
pub struct Addresses {
    left: VecDeque<IpAddress>,
}

impl Model for Addresses {
    ghost use Rattle.std.specs.Prelude.{List};
    ghost use Rattle.wasi_addr.specs.declared.address.IpAddress.{IpAddress};

    ghost Value = { List IpAddress };

    ghost view = { λ a. a.left.items };
}

impl Addresses {
    /// These addresses, in their order, each in its canonical form: an IPv4 address that is mapped
    /// into IPv6 becomes IPv4. Takes no memory.
    fn found(list: IpList) -> Addresses
        ensures { result ≡ map canonical list }
    {
        let mut addresses = list.into_vec();
        for address in addresses.iter_mut() {
            *address = address.to_canonical();
        }
        Addresses {
            left: VecDeque::from(addresses),
        }
    }

    /// One address, as it is. Takes memory for it.
    pub fn one(alloc: Global, address: IpAddress) -> Result<Addresses, AllocError>
        ensures { IfOk result (λ a. a ≡ address ∷ []) }
    {
        let mut left = VecDeque::new(alloc);
        left.push_back(address)?;
        Ok(Addresses { left })
    }
}

/// A lookup that the network hasn't answered yet: the operation's name, and the host name.
#[derive(Drop)]
pub struct LookupOp {
    pub id: OpId,
    pub host: NameText,
}

impl LookupOp {
    /// Asks the network once. Out of memory nothing was asked.
    fn poll<W: World>(&self, world: &mut W) -> Result<Polled<IpList>, AllocError>
        requires { (W.seen world.old).ended ≡ false }
        ensures asked { AsksFor (ask_lookup self.now.id self.now.host) (W.seen world.old)
            (W.seen world.new) (λ answer. answer) result }
        ensures unasked { OnErr result (W.seen world.new ≡ W.seen world.old) }
        ensures none { MakesNone (W.seen world.old) (W.seen world.new) }
    {
        let host = self.host.try_clone()?;
        asks::lookup(world, self.id, host)
    }
}

/// A lookup of a host name (`resolve-address-stream` of `wasi:sockets/ip-name-lookup`).
#[derive(Drop)]
pub enum Lookup {
    /// The network hasn't answered yet, and is asked again in the background.
    InProgress(LookupOp),
    /// The network answered; these addresses aren't handed out yet.
    Found(Addresses),
    /// The network answered with a code.
    Failed,
}

impl Lookup {
    /// Begins a lookup and asks the network once. Out of memory there is no lookup.
    pub fn begin<W: World>(world: &mut W, id: OpId, host: NameText) -> Result<Lookup, AllocError>
        requires { (W.seen world.old).ended ≡ false }
        ensures asked { AsksFor (poll_lookup_asks (record { id = id; host = host }))
            (W.seen world.old) (W.seen world.new) (λ now. now) result }
        ensures none { MakesNone (W.seen world.old) (W.seen world.new) }
    {
        let op = LookupOp { id, host };
        let answer = op.poll(world)?;
        let mut lookup = Lookup::InProgress(op);
        lookup.settle(answer);
        Ok(lookup)
    }

    /// Keeps what the network answered to a lookup in progress.
    fn settle(&mut self, answer: Polled<IpList>)
        ensures { (op : LookupOp) → self.old ≡ Lookup.InProgress op
            → self.new ≡ lookup_told op answer }
    {
        match answer {
            Polled::Pending => (),
            Polled::Ready(list) => *self = Lookup::Found(Addresses::found(list)),
            Polled::Code(_) => *self = Lookup::Failed,
        }
    }

    /// Asks the network again, if it hasn't answered yet. Out of memory nothing was asked, and the
    /// lookup stays as it was.
    pub fn turn<W: World>(&mut self, world: &mut W) -> Result<(), AllocError>
        requires { (W.seen world.old).ended ≡ false }
        ensures asked { AsksFor (turn_lookup self.old) (W.seen world.old) (W.seen world.new)
            (λ done. self.new) result }
        ensures err { OnErr result (self.new ≡ self.old) }
        ensures unasked { OnErr result (W.seen world.new ≡ W.seen world.old) }
        ensures none { MakesNone (W.seen world.old) (W.seen world.new) }
    {
        let Lookup::InProgress(op) = self else {
            return Ok(());
        };
        let answer = op.poll(world)?;
        self.settle(answer);
        Ok(())
    }

    /// Whether the network hasn't answered yet.
    pub fn is_in_progress(&self) -> bool
        ensures { result ≡ is_looking self.now }
    {
        matches!(self, Lookup::InProgress(_))
    }

    /// Takes the next address (`resolve-next-address`); `None` once all were handed out. Not
    /// answered yet: `WouldBlock`. Failed: `NameUnresolvable`, each time.
    pub fn next(&mut self) -> Result<Option<IpAddress>, p2::ErrorCode>
        ensures { (result, self.new) ≡ next_of self.old }
    {
        match self {
            Lookup::InProgress(_) => Err(p2::ErrorCode::WouldBlock),
            Lookup::Found(addresses) => Ok(addresses.left.pop_front()),
            Lookup::Failed => Err(unresolvable()),
        }
    }
}

/// The 0.2 code of a lookup that failed, `NameUnresolvable`, whichever code the network gave.
pub fn unresolvable() -> p2::ErrorCode
    ensures { result ≡ unresolvable }
{
    p2::ErrorCode::from_lookup(lookup_code::ErrorCode::NameUnresolvable)
}
