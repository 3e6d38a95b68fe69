//! Small types over vectors, which contracts see as lists.

ghost use Rattle.std.specs.Prelude.{◌≡◌, IfOk, IsTrue, ◌↔◌, [], length};

use std::alloc::{AllocError, Global};
use std::marker::Model;
use wasi_addr::IpAddress;

/// Bytes, which contracts see as a list.
#[derive(Drop)]
pub struct Octets {
    bytes: Vec<u8>,
}

impl Model for Octets {
    ghost use Rattle.std.specs.Prelude.{List, ℕ};

    ghost Value = { List ℕ };

    ghost view = { λ o. o.bytes.items };
}

impl Octets {
    /// The bytes of a vector. Takes no memory.
    pub fn from_vec(bytes: Vec<u8>) -> Octets
        ensures { result ≡ bytes.items }
    {
        Octets { bytes }
    }

    /// A copy of the bytes; takes memory for them.
    pub fn copy_of(alloc: Global, bytes: &[u8]) -> Result<Octets, AllocError>
        ensures { IfOk result (λ o. o ≡ bytes.now) }
    {
        let mut copy = Vec::new(alloc);
        copy.extend_from_slice(bytes)?;
        Ok(Octets { bytes: copy })
    }

    /// A copy. Takes memory for the bytes.
    pub fn try_clone(&self) -> Result<Octets, AllocError>
        ensures { IfOk result (λ o. o ≡ self.now) }
    {
        let bytes = self.bytes.clone()?;
        Ok(Octets { bytes })
    }

    /// The bytes as a vector. Takes no memory.
    pub fn into_vec(self) -> Vec<u8>
        ensures { result.items ≡ self }
    {
        self.bytes
    }

    /// The bytes, to be read.
    pub fn as_slice(&self) -> &[u8]
        ensures { result.now ≡ self.now }
    {
        self.bytes.as_slice()
    }

    /// How many bytes there are.
    pub fn len(&self) -> usize
        ensures { result ≡ length self.now }
    {
        self.bytes.len()
    }

    /// Whether there is no byte.
    pub fn is_empty(&self) -> bool
        ensures { IsTrue result ↔ (self.now ≡ []) }
    {
        self.bytes.is_empty()
    }
}

/// The text of a host name, as bytes, which contracts see as a list.
#[derive(Drop)]
pub struct NameText {
    bytes: Vec<u8>,
}

impl Model for NameText {
    ghost use Rattle.std.specs.Prelude.{List, ℕ};

    ghost Value = { List ℕ };

    ghost view = { λ name. name.bytes.items };
}

impl NameText {
    /// The name whose bytes are those of a vector. Takes no memory.
    pub fn from_vec(bytes: Vec<u8>) -> NameText
        ensures { result ≡ bytes.items }
    {
        NameText { bytes }
    }

    /// A copy of the bytes; takes memory for them.
    pub fn copy_of(alloc: Global, bytes: &[u8]) -> Result<NameText, AllocError>
        ensures { IfOk result (λ name. name ≡ bytes.now) }
    {
        let mut copy = Vec::new(alloc);
        copy.extend_from_slice(bytes)?;
        Ok(NameText { bytes: copy })
    }

    /// A copy. Takes memory for the bytes.
    pub fn try_clone(&self) -> Result<NameText, AllocError>
        ensures { IfOk result (λ name. name ≡ self.now) }
    {
        let bytes = self.bytes.clone()?;
        Ok(NameText { bytes })
    }

    /// The name's bytes as a vector. Takes no memory.
    pub fn into_vec(self) -> Vec<u8>
        ensures { result.items ≡ self }
    {
        self.bytes
    }

    /// The name's bytes, to be read.
    pub fn as_slice(&self) -> &[u8]
        ensures { result.now ≡ self.now }
    {
        self.bytes.as_slice()
    }
}

/// Numbers of 32 bits, in order: handles, or places in a list.
#[derive(Drop)]
pub struct NumberList {
    numbers: Vec<u32>,
}

impl Model for NumberList {
    ghost use Rattle.std.specs.Prelude.{List, ℕ};

    ghost Value = { List ℕ };

    ghost view = { λ list. list.numbers.items };
}

impl NumberList {
    /// The numbers of a vector, in its order. Takes no memory.
    pub fn from_vec(numbers: Vec<u32>) -> NumberList
        ensures { result ≡ numbers.items }
    {
        NumberList { numbers }
    }

    /// The numbers as a vector, in order. Takes no memory.
    pub fn into_vec(self) -> Vec<u32>
        ensures { result.items ≡ self }
    {
        self.numbers
    }

    /// The numbers, to be read.
    pub fn as_slice(&self) -> &[u32]
        ensures { result.now ≡ self.now }
    {
        self.numbers.as_slice()
    }

    /// How many numbers there are.
    pub fn len(&self) -> usize
        ensures { result ≡ length self.now }
    {
        self.numbers.len()
    }

    /// Whether there is no number.
    pub fn is_empty(&self) -> bool
        ensures { IsTrue result ↔ (self.now ≡ []) }
    {
        self.numbers.is_empty()
    }
}

/// IP addresses, in order.
#[derive(Drop)]
pub struct IpList {
    addresses: Vec<IpAddress>,
}

impl Model for IpList {
    ghost use Rattle.std.specs.Prelude.{List};
    ghost use Rattle.wasi_addr.specs.declared.address.IpAddress.{IpAddress};

    ghost Value = { List IpAddress };

    ghost view = { λ list. list.addresses.items };
}

impl IpList {
    /// The addresses of a vector, in its order. Takes no memory.
    pub fn from_vec(addresses: Vec<IpAddress>) -> IpList
        ensures { result ≡ addresses.items }
    {
        IpList { addresses }
    }

    /// A copy. Takes memory for the addresses.
    pub fn try_clone(&self) -> Result<IpList, AllocError>
        ensures { IfOk result (λ list. list ≡ self.now) }
    {
        let addresses = self.addresses.clone()?;
        Ok(IpList { addresses })
    }

    /// The addresses as a vector, in order. Takes no memory.
    pub fn into_vec(self) -> Vec<IpAddress>
        ensures { result.items ≡ self }
    {
        self.addresses
    }

    /// The addresses, to be read.
    pub fn as_slice(&self) -> &[IpAddress]
        ensures { result.now ≡ self.now }
    {
        self.addresses.as_slice()
    }
}
