//! The calls of the 0.3 interface.

ghost use Rattle.std.specs.Prelude.{◌≡◌, is_some, false};
ghost use Rattle.wasi_world.specs.Asks.{AsksFor};
ghost use Rattle.host_store.specs.KnownSides.{KnowsSides};
ghost use Rattle.host_store.specs.Views.{SameView, state_of};
ghost use Rattle.wasi_machine.specs.Machine.{first_ids, call_asks};
ghost use Rattle.wasi_steps.specs.declared.guest_call.GuestCall.TheVariants as guest;
ghost use Rattle.wasi_steps.specs.declared.guest_call.P3NameCall.TheVariants as names3;

use crate::settings::{set_p3, udp_opt, udp_setting};
use host_store::WasiSocketsCtxView;
use std::alloc::{AllocError, Global};
use wasi_machine::replies::{
    lookup_reply, p3_answer_reply, p3_reply, slot_reply, stream_result_reply,
};
use wasi_p3::{ListenStreamProducer, ReceiveStreamProducer, SendStreamConsumer};
use wasi_steps::{P3NameCall, P3TcpCall, P3UdpCall, Reply};
use wasi_world::{Ids, NameText, World};

/// Makes a call of a TCP socket of 0.3 or of an end of its streams.
pub(crate) fn p3_tcp_call<W: World>(
    alloc: Global,
    view: &mut WasiSocketsCtxView<'_>,
    world: &mut W,
    ids: &mut Ids,
    call: P3TcpCall,
) -> Result<Reply, AllocError>
    requires open { (W.seen world.old).ended ≡ false }
    requires first { ids.old ≡ first_ids ids.old.line }
    requires free { is_some view.old.store.now.standing ≡ false }
    ensures asked { AsksFor (call_asks view.old.ctx.now (state_of view.old) ids.old.line
        (guest.P3Tcp call)) (W.seen world.old) (W.seen world.new)
        (λ reply. (reply, state_of view.new)) result }
    ensures sides { KnowsSides (W.seen world.old) view.old.store.now
        → KnowsSides (W.seen world.new) view.new.store.now }
    ensures view { SameView view.old view.new }
{
    match call {
        P3TcpCall::Create { family } => {
            let made = wasi_p3::tcp::create(view, world, ids, family);
            p3_reply(alloc, made)
        }
        P3TcpCall::Bind { socket, addr } => {
            let answer = wasi_p3::tcp::bind(view, world, ids, socket, addr);
            p3_answer_reply(alloc, ids.line, answer)
        }
        P3TcpCall::Connect { socket, addr } => {
            let answer = wasi_p3::tcp::connect(view, world, ids, socket, addr);
            p3_answer_reply(alloc, ids.line, answer)
        }
        P3TcpCall::Listen { socket } => {
            let answer = wasi_p3::listening::listen(view, world, ids, socket);
            p3_answer_reply(alloc, ids.line, answer)
        }
        P3TcpCall::Accept {
            listener,
            remaining,
        } => {
            let mut producer = ListenStreamProducer { handle: listener };
            let polled = producer.poll_produce(view, world, ids, remaining as usize, true);
            stream_result_reply(alloc, polled)
        }
        P3TcpCall::LocalAddress { socket } => {
            let told = wasi_p3::tcp::get_local_address(view, world, ids, socket);
            p3_reply(alloc, told)
        }
        P3TcpCall::RemoteAddress { socket } => {
            let told = wasi_p3::tcp::get_remote_address(view, world, ids, socket);
            p3_reply(alloc, told)
        }
        P3TcpCall::IsListening { socket } => {
            let told = wasi_p3::tcp::get_is_listening(view, socket);
            p3_reply(alloc, told)
        }
        P3TcpCall::AddressFamily { socket } => {
            let told = wasi_p3::tcp::get_address_family(view, socket);
            p3_reply(alloc, told)
        }
        P3TcpCall::Get { socket, option } => {
            let told = wasi_p3::tcp::get_option(view, world, ids, socket, option);
            p3_reply(alloc, told)
        }
        P3TcpCall::Set { socket, setting } => {
            let done = set_p3(view, world, ids, socket, setting);
            p3_reply(alloc, done)
        }
        P3TcpCall::Send { socket } => {
            let made = wasi_p3::streams::send(view, world, ids, socket);
            p3_reply(alloc, made)
        }
        P3TcpCall::Write { end, bytes } => {
            let mut end = SendStreamConsumer { handle: end };
            let written = end.poll_consume(view, world, ids, bytes.as_slice(), true);
            stream_result_reply(alloc, written)
        }
        P3TcpCall::Receive { socket } => {
            let made = wasi_p3::streams::receive(view, world, ids, socket);
            p3_reply(alloc, made)
        }
        P3TcpCall::Read { end, len } => {
            let mut end = ReceiveStreamProducer { handle: end };
            let read = end.poll_produce(alloc, view, world, ids, len as usize, true);
            stream_result_reply(alloc, read)
        }
        P3TcpCall::Result { slot } => {
            let taken = wasi_p3::streams::take_result(view, slot);
            slot_reply(alloc, taken)
        }
    }
}

/// Makes a call of a UDP socket of 0.3, or one that looks a name up.
pub(crate) fn p3_udp_call<W: World>(
    alloc: Global,
    view: &mut WasiSocketsCtxView<'_>,
    world: &mut W,
    ids: &mut Ids,
    call: P3UdpCall,
) -> Result<Reply, AllocError>
    requires open { (W.seen world.old).ended ≡ false }
    requires first { ids.old ≡ first_ids ids.old.line }
    requires free { is_some view.old.store.now.standing ≡ false }
    ensures asked { AsksFor (call_asks view.old.ctx.now (state_of view.old) ids.old.line
        (guest.P3Udp call)) (W.seen world.old) (W.seen world.new)
        (λ reply. (reply, state_of view.new)) result }
    ensures sides { KnowsSides (W.seen world.old) view.old.store.now
        → KnowsSides (W.seen world.new) view.new.store.now }
    ensures view { SameView view.old view.new }
{
    match call {
        P3UdpCall::Create { family } => {
            let answer = wasi_p3::udp::create(view, world, ids, family);
            p3_answer_reply(alloc, ids.line, answer)
        }
        P3UdpCall::Bind { socket, addr } => {
            let answer = wasi_p3::udp::bind(view, world, ids, socket, addr);
            p3_answer_reply(alloc, ids.line, answer)
        }
        P3UdpCall::Connect { socket, addr } => {
            let answer = wasi_p3::udp::connect(view, world, ids, socket, addr);
            p3_answer_reply(alloc, ids.line, answer)
        }
        P3UdpCall::Disconnect { socket } => {
            let done = wasi_p3::udp::disconnect(view, world, ids, socket);
            p3_reply(alloc, done)
        }
        P3UdpCall::Send { socket, datagram } => {
            let answer = wasi_p3::udp::send(view, world, ids, socket, datagram);
            p3_answer_reply(alloc, ids.line, answer)
        }
        P3UdpCall::Receive { socket } => {
            let answer = wasi_p3::udp::receive(view, world, ids, socket);
            p3_answer_reply(alloc, ids.line, answer)
        }
        P3UdpCall::LocalAddress { socket } => {
            let told = wasi_p3::udp::get_local_address(view, world, ids, socket);
            p3_reply(alloc, told)
        }
        P3UdpCall::RemoteAddress { socket } => {
            let told = wasi_p3::udp::get_remote_address(view, socket);
            p3_reply(alloc, told)
        }
        P3UdpCall::AddressFamily { socket } => {
            let told = wasi_p3::udp::get_address_family(view, socket);
            p3_reply(alloc, told)
        }
        P3UdpCall::Get { socket, option } => {
            let told = wasi_p3::udp::get_option(view, world, ids, socket, udp_opt(option));
            p3_reply(alloc, told)
        }
        P3UdpCall::Set { socket, setting } => {
            let done = wasi_p3::udp::set_option(view, world, ids, socket, udp_setting(setting));
            p3_reply(alloc, done)
        }
    }
}

/// Makes a lookup of 0.3.
pub(crate) fn p3_name_call<W: World>(
    alloc: Global,
    view: &mut WasiSocketsCtxView<'_>,
    world: &mut W,
    ids: &mut Ids,
    call: P3NameCall,
) -> Result<Reply, AllocError>
    requires open { (W.seen world.old).ended ≡ false }
    requires first { ids.old ≡ first_ids ids.old.line }
    requires free { is_some view.old.store.now.standing ≡ false }
    ensures asked { AsksFor (call_asks view.old.ctx.now (state_of view.old) ids.old.line
        (guest.P3Names call)) (W.seen world.old) (W.seen world.new)
        (λ reply. (reply, state_of view.new)) result }
    ensures sides { KnowsSides (W.seen world.old) view.old.store.now
        → KnowsSides (W.seen world.new) view.new.store.now }
    ensures view { SameView view.old view.new }
{
    match call {
        P3NameCall::Resolve { name } => p3_resolve(alloc, view, world, ids, name),
    }
}

/// Looks up the addresses of a host name.
fn p3_resolve<W: World>(
    alloc: Global,
    view: &mut WasiSocketsCtxView<'_>,
    world: &mut W,
    ids: &mut Ids,
    name: NameText,
) -> Result<Reply, AllocError>
    requires open { (W.seen world.old).ended ≡ false }
    requires first { ids.old ≡ first_ids ids.old.line }
    requires free { is_some view.old.store.now.standing ≡ false }
    ensures asked { AsksFor (call_asks view.old.ctx.now (state_of view.old) ids.old.line
        (guest.P3Names (names3.Resolve name))) (W.seen world.old) (W.seen world.new)
        (λ reply. (reply, state_of view.new)) result }
    ensures sides { KnowsSides (W.seen world.old) view.old.store.now
        → KnowsSides (W.seen world.new) view.new.store.now }
    ensures view { SameView view.old view.new }
{
    let answer = wasi_p3::ip_name_lookup::resolve_addresses(alloc, view, world, ids, name);
    lookup_reply(alloc, ids.line, answer)
}
