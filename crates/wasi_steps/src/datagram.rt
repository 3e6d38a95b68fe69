//! Reads the arguments of the steps of datagrams: a remote address or none, and datagrams to send.

ghost use Rattle.std.specs.Prelude.{IfOk};
ghost use Rattle.world_text.specs.Fields.{Reads};
ghost use Rattle.wasi_steps.specs.Datagrams.{remote_at, destination_at, datagram_at, datagrams_at};

use std::alloc::{AllocError, Global};
use wasi_addr::IpSocketAddress;
use wasi_world::{OutgoingDatagram, OutgoingDatagrams};
use world_text::Fields;

/// Takes an address, or none where the line is at its end.
#[tactic(auto, unfolding(world_text::specs::Fields::read_then, world_text::specs::Fields::give))]
pub(crate) fn remote(fields: &mut Fields<'_>) -> Option<Option<IpSocketAddress>>
    ensures { Reads remote_at fields.old result fields.new }
{
    if fields.is_done() {
        return Some(None);
    }
    Some(Some(fields.socket_address()?))
}

/// Takes where a datagram goes: `to` and an address, or `peer` for the one that its socket is
/// connected to.
#[tactic(auto, unfolding(crate::specs::Datagrams::destination_at, world_text::specs::Fields::read_then, world_text::specs::Fields::give))]
fn destination(fields: &mut Fields<'_>) -> Option<Option<IpSocketAddress>>
    ensures { Reads destination_at fields.old result fields.new }
{
    match fields.word()? {
        "to" => Some(Some(fields.socket_address()?)),
        "peer" => Some(None),
        _ => None,
    }
}

/// Takes a datagram: where it goes, and its bytes.
#[tactic(auto, unfolding(crate::specs::Datagrams::datagram_at, world_text::specs::Fields::read_then, world_text::specs::Fields::give))]
pub(crate) fn datagram(
    alloc: Global,
    fields: &mut Fields<'_>,
) -> Result<Option<OutgoingDatagram>, AllocError>
    ensures { IfOk result (λ datagram. Reads datagram_at fields.old datagram fields.new) }
{
    let Some(remote_address) = destination(fields) else {
        return Ok(None);
    };
    let Some(bytes) = fields.octets(alloc)? else {
        return Ok(None);
    };
    Ok(Some(OutgoingDatagram {
        bytes,
        remote_address,
    }))
}

/// Takes datagrams up to the end of the line.
pub(crate) fn datagrams(
    alloc: Global,
    fields: &mut Fields<'_>,
) -> Result<Option<OutgoingDatagrams>, AllocError>
    ensures { IfOk result (λ datagrams. Reads datagrams_at fields.old datagrams fields.new) }
{
    let mut datagrams = Vec::new(alloc);
    while !fields.is_done() {
        let Some(next) = datagram(alloc, fields)? else {
            return Ok(None);
        };
        datagrams.push(next)?;
    }
    Ok(Some(OutgoingDatagrams::from_vec(datagrams)))
}
