//! Reads the arguments of the steps whose bytes, datagrams, handles or name take memory.

ghost use Rattle.std.specs.Prelude.{IfOk};
ghost use Rattle.world_text.specs.Fields.{Reads};
ghost use Rattle.wasi_steps.specs.Steps.{pipe_in_call, write_call, blocking_write_call, send_call};
ghost use Rattle.wasi_steps.specs.Steps.{poll_list_call, resolve_call, p3_write_call, row_of, p3_resolve_call};
ghost use Rattle.wasi_steps.specs.Steps.{p3_send_call};

use crate::datagram::{datagram, datagrams};
use crate::guest_call::{
    GuestCall, NameCall, P3NameCall, P3TcpCall, P3UdpCall, PipeCall, PollableCall, StreamCall,
    UdpCall,
};
use crate::handle_list::pollables;
use crate::name::name;
use std::alloc::{AllocError, Global};
use world_text::Fields;

/// Takes the bytes of a pipe-in.
#[tactic(auto, unfolding(world_text::specs::Fields::read_then, world_text::specs::Fields::give, world_text::specs::Fields::give_some))]
pub(crate) fn pipe_arguments(
    alloc: Global,
    fields: &mut Fields<'_>,
) -> Result<Option<GuestCall>, AllocError>
    ensures { IfOk result (λ call. Reads (row_of pipe_in_call).reads fields.old call
        fields.new) }
{
    let Some(bytes) = fields.octets(alloc)? else {
        return Ok(None);
    };
    Ok(Some(GuestCall::Pipe(PipeCall::In { bytes })))
}

/// Takes the arguments of a write.
#[tactic(auto, unfolding(world_text::specs::Fields::read_then, world_text::specs::Fields::give, world_text::specs::Fields::give_some))]
pub(crate) fn write_arguments(
    alloc: Global,
    fields: &mut Fields<'_>,
) -> Result<Option<GuestCall>, AllocError>
    ensures { IfOk result (λ call. Reads (row_of write_call).reads fields.old call
        fields.new) }
{
    let Some(output) = fields.u32() else {
        return Ok(None);
    };
    let Some(bytes) = fields.octets(alloc)? else {
        return Ok(None);
    };
    Ok(Some(GuestCall::Stream(StreamCall::Write { output, bytes })))
}

/// Takes the arguments of a blocking-write.
#[tactic(auto, unfolding(world_text::specs::Fields::read_then, world_text::specs::Fields::give, world_text::specs::Fields::give_some))]
pub(crate) fn blocking_write_arguments(
    alloc: Global,
    fields: &mut Fields<'_>,
) -> Result<Option<GuestCall>, AllocError>
    ensures { IfOk result (λ call. Reads (row_of blocking_write_call).reads fields.old
        call fields.new) }
{
    let Some(output) = fields.u32() else {
        return Ok(None);
    };
    let Some(bytes) = fields.octets(alloc)? else {
        return Ok(None);
    };
    Ok(Some(GuestCall::Stream(StreamCall::BlockingWrite { output, bytes })))
}

/// Takes the arguments of a send.
#[tactic(auto, unfolding(world_text::specs::Fields::read_then, world_text::specs::Fields::give, world_text::specs::Fields::give_some))]
pub(crate) fn send_arguments(
    alloc: Global,
    fields: &mut Fields<'_>,
) -> Result<Option<GuestCall>, AllocError>
    ensures { IfOk result (λ call. Reads (row_of send_call).reads fields.old call
        fields.new) }
{
    let Some(outgoing) = fields.u32() else {
        return Ok(None);
    };
    let Some(datagrams) = datagrams(alloc, fields)? else {
        return Ok(None);
    };
    Ok(Some(GuestCall::Udp(UdpCall::Send {
        outgoing,
        datagrams,
    })))
}

/// Takes the handles of a poll-list, up to the end of the line.
#[tactic(auto, unfolding(world_text::specs::Fields::read_then, world_text::specs::Fields::give, world_text::specs::Fields::give_some))]
pub(crate) fn poll_list_arguments(
    alloc: Global,
    fields: &mut Fields<'_>,
) -> Result<Option<GuestCall>, AllocError>
    ensures { IfOk result (λ call. Reads (row_of poll_list_call).reads fields.old call
        fields.new) }
{
    let Some(pollables) = pollables(alloc, fields)? else {
        return Ok(None);
    };
    Ok(Some(GuestCall::Pollable(PollableCall::PollList { pollables })))
}

/// Takes the arguments of a resolve.
#[tactic(auto, unfolding(world_text::specs::Fields::read_then, world_text::specs::Fields::give, world_text::specs::Fields::give_some))]
pub(crate) fn resolve_arguments(
    alloc: Global,
    fields: &mut Fields<'_>,
) -> Result<Option<GuestCall>, AllocError>
    ensures { IfOk result (λ call. Reads (row_of resolve_call).reads fields.old call
        fields.new) }
{
    let Some(network) = fields.u32() else {
        return Ok(None);
    };
    let Some(name) = name(alloc, fields)? else {
        return Ok(None);
    };
    Ok(Some(GuestCall::Names(NameCall::Resolve { network, name })))
}

/// Takes the arguments of a write of 0.3.
#[tactic(auto, unfolding(world_text::specs::Fields::read_then, world_text::specs::Fields::give, world_text::specs::Fields::give_some))]
pub(crate) fn p3_write_arguments(
    alloc: Global,
    fields: &mut Fields<'_>,
) -> Result<Option<GuestCall>, AllocError>
    ensures { IfOk result (λ call. Reads (row_of p3_write_call).reads fields.old call
        fields.new) }
{
    let Some(end) = fields.u32() else {
        return Ok(None);
    };
    let Some(bytes) = fields.octets(alloc)? else {
        return Ok(None);
    };
    Ok(Some(GuestCall::P3Tcp(P3TcpCall::Write { end, bytes })))
}

/// Takes the name of a p3-resolve.
#[tactic(auto, unfolding(world_text::specs::Fields::read_then, world_text::specs::Fields::give, world_text::specs::Fields::give_some))]
pub(crate) fn p3_resolve_arguments(
    alloc: Global,
    fields: &mut Fields<'_>,
) -> Result<Option<GuestCall>, AllocError>
    ensures { IfOk result (λ call. Reads (row_of p3_resolve_call).reads fields.old call
        fields.new) }
{
    let Some(name) = name(alloc, fields)? else {
        return Ok(None);
    };
    Ok(Some(GuestCall::P3Names(P3NameCall::Resolve { name })))
}

/// Takes the arguments of a p3-udp-send.
#[tactic(auto, unfolding(world_text::specs::Fields::read_then, world_text::specs::Fields::give, world_text::specs::Fields::give_some))]
pub(crate) fn p3_send_arguments(
    alloc: Global,
    fields: &mut Fields<'_>,
) -> Result<Option<GuestCall>, AllocError>
    ensures { IfOk result (λ call. Reads (row_of p3_send_call).reads fields.old call
        fields.new) }
{
    let Some(socket) = fields.u32() else {
        return Ok(None);
    };
    let Some(datagram) = datagram(alloc, fields)? else {
        return Ok(None);
    };
    Ok(Some(GuestCall::P3Udp(P3UdpCall::Send { socket, datagram })))
}
