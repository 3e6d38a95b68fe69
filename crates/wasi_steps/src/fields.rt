//! What a call gives, as the fields of its reply.

ghost use Rattle.std.specs.Prelude.{◌≡◌, IfOk, OnOk, ◌++◌};
ghost use Rattle.wasi_steps.specs.Reply.{ip_values, address_values, received_values};

use crate::reply::{Field, ReplyFields};
use std::alloc::{AllocError, Global};
use wasi_addr::{
    IpAddress, IpSocketAddress, Ipv4SocketAddress, Ipv6SocketAddress, SocketAddressFamily,
};
use wasi_world::{IncomingDatagram, IncomingDatagrams, IpList, NumberList, Octets};

/// A value that the fields of an `ok` reply tell.
pub trait IntoFields {
    ghost use Rattle.std.specs.Prelude.{◌≡◌, IfOk, List};
    ghost use Rattle.wasi_steps.specs.declared.reply.Field.{Field};

    /// The fields that say it.
    ghost fields: { Self → List Field };

    /// Takes memory for the fields, but none for one alone.
    fn into_fields(self, alloc: Global) -> Result<ReplyFields, AllocError>
        ensures { IfOk result (λ it. it ≡ fields self) };
}

/// No field.
impl IntoFields for () {
    ghost use Rattle.wasi_steps.specs.Reply.{no_values};

    ghost fields = { no_values };

    fn into_fields(self, alloc: Global) -> Result<ReplyFields, AllocError> {
        Ok(ReplyFields::from_vec(Vec::new(alloc)))
    }
}

/// A handle.
impl IntoFields for u32 {
    ghost use Rattle.wasi_steps.specs.Reply.{number_fields};

    ghost fields = { number_fields };

    fn into_fields(self, alloc: Global) -> Result<ReplyFields, AllocError> {
        u64::from(self).into_fields(alloc)
    }
}

/// A handle, or none.
impl IntoFields for Option<u32> {
    ghost use Rattle.wasi_steps.specs.Reply.{handed_fields};

    ghost fields = { handed_fields };

    fn into_fields(self, alloc: Global) -> Result<ReplyFields, AllocError> {
        match self {
            Some(handle) => handle.into_fields(alloc),
            None => ().into_fields(alloc),
        }
    }
}

/// A number.
impl IntoFields for u64 {
    ghost use Rattle.wasi_steps.specs.Reply.{number_fields};

    ghost fields = { number_fields };

    fn into_fields(self, _alloc: Global) -> Result<ReplyFields, AllocError> {
        Ok(ReplyFields::one(Field::Number(self)))
    }
}

/// A count.
impl IntoFields for usize {
    ghost use Rattle.wasi_steps.specs.Reply.{number_fields};

    ghost fields = { number_fields };

    fn into_fields(self, alloc: Global) -> Result<ReplyFields, AllocError> {
        (self as u64).into_fields(alloc)
    }
}

/// Numbers: the places of pollables.
impl IntoFields for NumberList {
    ghost use Rattle.wasi_steps.specs.Reply.{numbers_fields};

    ghost fields = { numbers_fields };

    fn into_fields(self, alloc: Global) -> Result<ReplyFields, AllocError> {
        let mut fields = Vec::new(alloc);
        for number in self.as_slice() {
            fields.push(Field::Number(u64::from(*number)))?;
        }
        Ok(ReplyFields::from_vec(fields))
    }
}

/// Two handles: the streams of a connection.
impl IntoFields for (u32, u32) {
    ghost use Rattle.wasi_steps.specs.Reply.{pair_values};

    ghost fields = { pair_values };

    fn into_fields(self, alloc: Global) -> Result<ReplyFields, AllocError> {
        let (a, b) = self;
        let fields = vec![in alloc; Field::Number(u64::from(a)), Field::Number(u64::from(b))]?;
        Ok(ReplyFields::from_vec(fields))
    }
}

/// Three handles: a socket and its streams.
impl IntoFields for (u32, u32, u32) {
    ghost use Rattle.wasi_steps.specs.Reply.{triple_values};

    ghost fields = { triple_values };

    fn into_fields(self, alloc: Global) -> Result<ReplyFields, AllocError> {
        let (a, b, c) = self;
        let fields = vec![in alloc;
            Field::Number(u64::from(a)),
            Field::Number(u64::from(b)),
            Field::Number(u64::from(c)),
        ]?;
        Ok(ReplyFields::from_vec(fields))
    }
}

/// Bytes.
impl IntoFields for Octets {
    ghost use Rattle.wasi_steps.specs.Reply.{bytes_fields};

    ghost fields = { bytes_fields };

    fn into_fields(self, _alloc: Global) -> Result<ReplyFields, AllocError> {
        Ok(ReplyFields::one(Field::Bytes(self)))
    }
}

/// `true` or `false`.
impl IntoFields for bool {
    ghost use Rattle.wasi_steps.specs.Reply.{truth_fields};

    ghost fields = { truth_fields };

    fn into_fields(self, _alloc: Global) -> Result<ReplyFields, AllocError> {
        let field = if self { Field::True } else { Field::False };
        Ok(ReplyFields::one(field))
    }
}

/// A family: 4 or 6.
impl IntoFields for SocketAddressFamily {
    ghost use Rattle.wasi_steps.specs.Reply.{family_fields};

    ghost fields = { family_fields };

    fn into_fields(self, alloc: Global) -> Result<ReplyFields, AllocError> {
        match self {
            SocketAddressFamily::Ipv4 => 4u64.into_fields(alloc),
            SocketAddressFamily::Ipv6 => 6u64.into_fields(alloc),
        }
    }
}

/// An address: its family, its bytes or segments, its port, and in IPv6 its flow and its scope.
impl IntoFields for IpSocketAddress {
    ghost use Rattle.wasi_steps.specs.Reply.{address_values};

    ghost fields = { address_values };

    fn into_fields(self, alloc: Global) -> Result<ReplyFields, AllocError> {
        let fields = address_fields(alloc, self)?;
        Ok(ReplyFields::from_vec(fields))
    }
}

/// An address with no port, its family and its bytes or segments, or `none`.
impl IntoFields for Option<IpAddress> {
    ghost use Rattle.wasi_steps.specs.Reply.{found_values};

    ghost fields = { found_values };

    fn into_fields(self, alloc: Global) -> Result<ReplyFields, AllocError> {
        let fields = match self {
            Some(address) => ip_fields(alloc, address)?,
            None => vec![in alloc; Field::Absent]?,
        };
        Ok(ReplyFields::from_vec(fields))
    }
}

/// Addresses with no port: of each its family and its bytes or segments.
impl IntoFields for IpList {
    ghost use Rattle.wasi_steps.specs.Reply.{ips_values};

    ghost fields = { ips_values };

    fn into_fields(self, alloc: Global) -> Result<ReplyFields, AllocError> {
        let mut fields = Vec::new(alloc);
        for address in self.as_slice() {
            let mut one = ip_fields(alloc, *address)?;
            fields.append(&mut one)?;
        }
        Ok(ReplyFields::from_vec(fields))
    }
}

/// No code of the network: what `network-error-code` answers of each error of a stream.
#[derive(Clone, Copy, Debug, PartialEq, Eq)]
pub struct NoCode;

/// `none`.
impl IntoFields for NoCode {
    ghost use Rattle.wasi_steps.specs.Reply.{absent_values};

    ghost fields = { absent_values };

    fn into_fields(self, _alloc: Global) -> Result<ReplyFields, AllocError> {
        Ok(ReplyFields::one(Field::Absent))
    }
}

/// Datagrams that were received: how many, and for each who sent it and its bytes, which are moved.
impl IntoFields for IncomingDatagrams {
    ghost use Rattle.wasi_steps.specs.Reply.{datagram_values};

    ghost fields = { datagram_values };

    fn into_fields(self, alloc: Global) -> Result<ReplyFields, AllocError> {
        let datagrams = self.into_vec();
        let mut fields = vec![in alloc; Field::Number(datagrams.len() as u64)]?;
        for datagram in datagrams {
            push_datagram(alloc, &mut fields, datagram)?;
        }
        Ok(ReplyFields::from_vec(fields))
    }
}

/// A datagram that was received: who sent it, and its bytes, which are moved.
impl IntoFields for IncomingDatagram {
    ghost use Rattle.wasi_steps.specs.Reply.{received_values};

    ghost fields = { received_values };

    fn into_fields(self, alloc: Global) -> Result<ReplyFields, AllocError> {
        let mut fields = Vec::new(alloc);
        push_datagram(alloc, &mut fields, self)?;
        Ok(ReplyFields::from_vec(fields))
    }
}

/// Appends the fields of a datagram.
fn push_datagram(
    alloc: Global,
    fields: &mut Vec<Field>,
    datagram: IncomingDatagram,
) -> Result<(), AllocError>
    ensures { OnOk result (fields.new.items ≡ fields.old.items ++ received_values datagram) }
{
    let IncomingDatagram {
        bytes,
        remote_address,
    } = datagram;
    let mut address = address_fields(alloc, remote_address)?;
    fields.append(&mut address)?;
    fields.push(Field::Bytes(bytes))?;
    Ok(())
}

/// The fields of an address with no port.
fn ip_fields(alloc: Global, address: IpAddress) -> Result<Vec<Field>, AllocError>
    ensures { IfOk result (λ fields. fields.items ≡ ip_values address) }
{
    match address {
        IpAddress::Ipv4((a, b, c, d)) => Ok(vec![in alloc;
            Field::Number(4),
            Field::Number(u64::from(a)),
            Field::Number(u64::from(b)),
            Field::Number(u64::from(c)),
            Field::Number(u64::from(d)),
        ]?),
        IpAddress::Ipv6((a, b, c, d, e, f, g, h)) => Ok(vec![in alloc;
            Field::Number(6),
            Field::Number(u64::from(a)),
            Field::Number(u64::from(b)),
            Field::Number(u64::from(c)),
            Field::Number(u64::from(d)),
            Field::Number(u64::from(e)),
            Field::Number(u64::from(f)),
            Field::Number(u64::from(g)),
            Field::Number(u64::from(h)),
        ]?),
    }
}

/// The fields of an address.
fn address_fields(alloc: Global, address: IpSocketAddress) -> Result<Vec<Field>, AllocError>
    ensures { IfOk result (λ fields. fields.items ≡ address_values address) }
{
    match address {
        IpSocketAddress::Ipv4(address) => ipv4_fields(alloc, address),
        IpSocketAddress::Ipv6(address) => ipv6_fields(alloc, address),
    }
}

/// The fields of an IPv4 address.
fn ipv4_fields(alloc: Global, address: Ipv4SocketAddress) -> Result<Vec<Field>, AllocError>
    ensures { IfOk result (λ fields. fields.items ≡ address_values (IpSocketAddress.Ipv4 address)) }
{
    let (a, b, c, d) = address.address;
    let fields = vec![in alloc;
        Field::Number(4),
        Field::Number(u64::from(a)),
        Field::Number(u64::from(b)),
        Field::Number(u64::from(c)),
        Field::Number(u64::from(d)),
        Field::Number(u64::from(address.port)),
    ]?;
    Ok(fields)
}

/// The fields of an IPv6 address.
fn ipv6_fields(alloc: Global, address: Ipv6SocketAddress) -> Result<Vec<Field>, AllocError>
    ensures { IfOk result (λ fields. fields.items ≡ address_values (IpSocketAddress.Ipv6 address)) }
{
    let (a, b, c, d, e, f, g, h) = address.address;
    let fields = vec![in alloc;
        Field::Number(6),
        Field::Number(u64::from(a)),
        Field::Number(u64::from(b)),
        Field::Number(u64::from(c)),
        Field::Number(u64::from(d)),
        Field::Number(u64::from(e)),
        Field::Number(u64::from(f)),
        Field::Number(u64::from(g)),
        Field::Number(u64::from(h)),
        Field::Number(u64::from(address.port)),
        Field::Number(u64::from(address.flow_info)),
        Field::Number(u64::from(address.scope_id)),
    ]?;
    Ok(fields)
}
