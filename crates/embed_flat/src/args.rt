//! The arguments of a call: the numbers that the guest passed, with the types that they have.

ghost use Rattle.std.specs.Prelude.{◌≡◌, ◌<◌, None, Some, Ok};
ghost use Rattle.wasi_addr.specs.declared.address.IpSocketAddress.{IpSocketAddress};
ghost use Rattle.world_text.specs.Written.{FitsAddress};
ghost use Rattle.embed_flat.specs.Abi.{flat};
ghost use Rattle.embed_flat.specs.Values.{address_value, remote_value};
ghost use Rattle.embed_flat.specs.Wit.{option, ip_socket_address};
ghost use Rattle.embed_flat.specs.Flat.{u64_at, u32_of, u32_at, u16_at, u8_at, truth_at};
ghost use Rattle.embed_flat.specs.Flat.{family_at, ipv4_at, ipv6_at, address_at, maybe_address_at};

use crate::memory::bytes_at;
use std::alloc::{AllocError, Global};
use wasi_addr::{IpSocketAddress, Ipv4SocketAddress, Ipv6SocketAddress, SocketAddressFamily};

/// Why a call isn't made.
#[derive(Clone, Copy, Debug, PartialEq, Eq)]
pub enum Refusal {
    /// No call has this number, or an argument is missing or too great for its type.
    Argument,
    /// A place isn't within the guest's memory.
    Bounds,
    /// The place for the list that it gives is too small.
    Room,
    /// Memory ran out.
    Memory,
}

impl From<AllocError> for Refusal {
    fn from(_: AllocError) -> Refusal {
        Refusal::Memory
    }
}

/// The arguments of a call, in order, and the memory that they point into.
#[derive(Clone, Copy)]
pub struct Args<'a> {
    pub alloc: Global,
    pub numbers: &'a [u64],
    pub memory: &'a [u8],
}

/// An argument as a number of 32 bits.
fn word_of(number: u64) -> Result<u32, Refusal>
    ensures { result ≡ u32_of number }
{
    if number > 4_294_967_295 {
        return Err(Refusal::Argument);
    }
    Ok(number as u32)
}

impl Args<'_> {
    /// The argument at a place, counted from 0.
    pub fn wide(&self, place: usize) -> Result<u64, Refusal>
        ensures { result ≡ u64_at self.now.numbers.now place }
    {
        match self.numbers.get(place) {
            Some(number) => Ok(*number),
            None => Err(Refusal::Argument),
        }
    }

    /// An argument of 32 bits, as a handle.
    pub fn word(&self, place: usize) -> Result<u32, Refusal>
        ensures { result ≡ u32_at self.now.numbers.now place }
    {
        word_of(self.wide(place)?)
    }

    /// An argument of 16 bits: the low ones of 32.
    fn half(&self, place: usize) -> Result<u16, Refusal>
        ensures { result ≡ u16_at self.now.numbers.now place }
    {
        Ok((self.word(place)? % 65536) as u16)
    }

    /// An argument of 8 bits: the low ones of 32.
    pub fn byte(&self, place: usize) -> Result<u8, Refusal>
        ensures { result ≡ u8_at self.now.numbers.now place }
    {
        Ok((self.word(place)? % 256) as u8)
    }

    /// Whether an argument is true, which all but 0 are.
    pub fn truth(&self, place: usize) -> Result<bool, Refusal>
        ensures { result ≡ truth_at self.now.numbers.now place }
    {
        Ok(self.word(place)? != 0)
    }

    /// A list of bytes: its place in the memory, and its length.
    pub fn bytes(&self, place: usize) -> Result<&[u8], Refusal>
        requires { place < 1000 }
    {
        let at = self.word(place)?;
        let len = self.word(place + 1)?;
        match bytes_at(self.memory, at, len) {
            Some(bytes) => Ok(bytes),
            None => Err(Refusal::Bounds),
        }
    }

    /// A family: 0 is IPv4, 1 is IPv6.
    pub fn family(&self, place: usize) -> Result<SocketAddressFamily, Refusal>
        ensures { result ≡ family_at self.now.numbers.now place }
    {
        match self.wide(place)? {
            0 => Ok(SocketAddressFamily::Ipv4),
            1 => Ok(SocketAddressFamily::Ipv6),
            _ => Err(Refusal::Argument),
        }
    }

    /// An address: its case, 0 for IPv4 and 1 for IPv6, and eleven numbers, of which IPv4 uses
    /// five.
    pub fn address(&self, place: usize) -> Result<IpSocketAddress, Refusal>
        requires { place < 1000 }
        ensures { result ≡ address_at self.now.numbers.now place }
    {
        match self.family(place)? {
            SocketAddressFamily::Ipv4 => Ok(IpSocketAddress::Ipv4(self.ipv4(place + 1)?)),
            SocketAddressFamily::Ipv6 => Ok(IpSocketAddress::Ipv6(self.ipv6(place + 1)?)),
        }
    }

    /// An address of IPv4: its port and its four bytes.
    fn ipv4(&self, place: usize) -> Result<Ipv4SocketAddress, Refusal>
        requires { place < 2000 }
        ensures { result ≡ ipv4_at self.now.numbers.now place }
    {
        Ok(Ipv4SocketAddress {
            port: self.half(place)?,
            address: (
                self.byte(place + 1)?,
                self.byte(place + 2)?,
                self.byte(place + 3)?,
                self.byte(place + 4)?,
            ),
        })
    }

    /// An address of IPv6: its port, its flow info, its eight segments and its scope.
    fn ipv6(&self, place: usize) -> Result<Ipv6SocketAddress, Refusal>
        requires { place < 2000 }
        ensures { result ≡ ipv6_at self.now.numbers.now place }
    {
        Ok(Ipv6SocketAddress {
            port: self.half(place)?,
            flow_info: self.word(place + 1)?,
            address: (
                self.half(place + 2)?,
                self.half(place + 3)?,
                self.half(place + 4)?,
                self.half(place + 5)?,
                self.half(place + 6)?,
                self.half(place + 7)?,
                self.half(place + 8)?,
                self.half(place + 9)?,
            ),
            scope_id: self.word(place + 10)?,
        })
    }

    /// An address, where the number before it is 1.
    pub fn maybe_address(&self, place: usize) -> Result<Option<IpSocketAddress>, Refusal>
        requires { place < 500 }
        ensures { result ≡ maybe_address_at self.now.numbers.now place }
    {
        match self.wide(place)? {
            0 => Ok(None),
            1 => Ok(Some(self.address(place + 1)?)),
            _ => Err(Refusal::Argument),
        }
    }
}

/// From the numbers that an address is passed as, the address is lifted; from those of none, none.
pub fn addresses_are_lifted_back()
    ensures address { (a : IpSocketAddress) → FitsAddress a →
        address_at (flat ip_socket_address (address_value a)) 0 ≡ Ok a }
    ensures remote { (a : IpSocketAddress) → FitsAddress a →
        maybe_address_at (flat (option ip_socket_address) (remote_value (Some a))) 0 ≡ Ok (Some a) }
    ensures none { maybe_address_at (flat (option ip_socket_address) (remote_value None)) 0
        ≡ Ok None }
{}
