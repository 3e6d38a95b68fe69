//! The calls of sockets, lookups and errors.

ghost use Rattle.std.specs.Prelude.{◌≡◌, is_some, false};
ghost use Rattle.wasi_world.specs.Asks.{AsksFor};
ghost use Rattle.host_store.specs.KnownSides.{KnowsSides};
ghost use Rattle.host_store.specs.Views.{SameView, state_of};
ghost use Rattle.wasi_machine.specs.Machine.{first_ids, call_asks};
ghost use Rattle.wasi_steps.specs.declared.guest_call.GuestCall.TheVariants as guest;
ghost use Rattle.std.specs.Result.{result_map_both};
ghost use Rattle.record_common.specs.Stops.{host_outcome};
ghost use Rattle.wasi_machine.specs.Machine.{without_code};

use crate::settings::{set, udp_opt, udp_setting};
use host_store::WasiSocketsCtxView;
use record_common::SocketError;
use std::alloc::{AllocError, Global};
use wasi_addr::p2;
use wasi_machine::replies::{answer_reply, reply_of};
use wasi_p2::{ip_name_lookup, tcp, udp};
use wasi_steps::{NameCall, NoCode, Reply, TcpCall, UdpCall};
use wasi_world::{Ids, World};

/// Makes a call of a TCP socket.
pub(crate) fn tcp_call<W: World>(
    alloc: Global,
    view: &mut WasiSocketsCtxView<'_>,
    world: &mut W,
    ids: &mut Ids,
    call: TcpCall,
) -> Result<Reply, AllocError>
    requires open { (W.seen world.old).ended ≡ false }
    requires first { ids.old ≡ first_ids ids.old.line }
    requires free { is_some view.old.store.now.standing ≡ false }
    ensures asked { AsksFor (call_asks view.old.ctx.now (state_of view.old) ids.old.line
        (guest.Tcp call)) (W.seen world.old) (W.seen world.new)
        (λ reply. (reply, state_of view.new)) result }
    ensures sides { KnowsSides (W.seen world.old) view.old.store.now
        → KnowsSides (W.seen world.new) view.new.store.now }
    ensures view { SameView view.old view.new }
{
    match call {
        TcpCall::Create { family } => {
            let made = tcp::create_tcp_socket(view, world, ids, family);
            reply_of(alloc, made)
        }
        TcpCall::StartBind {
            socket,
            network,
            addr,
        } => {
            let answer = tcp::start_bind(view, world, ids, socket, network, addr);
            answer_reply(alloc, ids.line, answer)
        }
        TcpCall::FinishBind { socket } => {
            let done = tcp::finish_bind(view, socket);
            reply_of(alloc, done)
        }
        TcpCall::StartConnect {
            socket,
            network,
            addr,
        } => {
            let done = tcp::start_connect(view, world, ids, socket, network, addr);
            reply_of(alloc, done)
        }
        TcpCall::FinishConnect { socket } => {
            let made = tcp::finish_connect(view, world, ids, socket);
            reply_of(alloc, made)
        }
        TcpCall::StartListen { socket } => {
            let answer = tcp::start_listen(view, world, ids, socket);
            answer_reply(alloc, ids.line, answer)
        }
        TcpCall::FinishListen { socket } => {
            let done = tcp::finish_listen(view, socket);
            reply_of(alloc, done)
        }
        TcpCall::Accept { socket } => {
            let made = tcp::accept(view, world, ids, socket);
            reply_of(alloc, made)
        }
        TcpCall::LocalAddress { socket } => {
            let told = tcp::local_address(view, world, ids, socket);
            reply_of(alloc, told)
        }
        TcpCall::RemoteAddress { socket } => {
            let told = tcp::remote_address(view, world, ids, socket);
            reply_of(alloc, told)
        }
        TcpCall::IsListening { socket } => {
            let told = tcp::is_listening(view, socket);
            reply_of(alloc, told)
        }
        TcpCall::AddressFamily { socket } => {
            let told = tcp::address_family(view, socket);
            reply_of(alloc, told)
        }
        TcpCall::Get { socket, option } => {
            let told = tcp::get_option(view, world, ids, socket, option);
            reply_of(alloc, told)
        }
        TcpCall::Set { socket, setting } => {
            let done = set(view, world, ids, socket, setting);
            reply_of(alloc, done)
        }
        TcpCall::Shutdown { socket, how } => {
            let done = tcp::shutdown(view, world, ids, socket, how);
            reply_of(alloc, done)
        }
    }
}

/// Makes a call of a UDP socket or of its streams of datagrams.
pub(crate) fn udp_call<W: World>(
    alloc: Global,
    view: &mut WasiSocketsCtxView<'_>,
    world: &mut W,
    ids: &mut Ids,
    call: UdpCall,
) -> Result<Reply, AllocError>
    requires open { (W.seen world.old).ended ≡ false }
    requires first { ids.old ≡ first_ids ids.old.line }
    requires free { is_some view.old.store.now.standing ≡ false }
    ensures asked { AsksFor (call_asks view.old.ctx.now (state_of view.old) ids.old.line
        (guest.Udp call)) (W.seen world.old) (W.seen world.new)
        (λ reply. (reply, state_of view.new)) result }
    ensures sides { KnowsSides (W.seen world.old) view.old.store.now
        → KnowsSides (W.seen world.new) view.new.store.now }
    ensures view { SameView view.old view.new }
{
    match call {
        UdpCall::Create { family } => {
            let answer = udp::create_udp_socket(view, world, ids, family);
            answer_reply(alloc, ids.line, answer)
        }
        UdpCall::StartBind {
            socket,
            network,
            addr,
        } => {
            let answer = udp::start_bind(view, world, ids, socket, network, addr);
            answer_reply(alloc, ids.line, answer)
        }
        UdpCall::FinishBind { socket } => {
            let done = udp::finish_bind(view, socket);
            reply_of(alloc, done)
        }
        UdpCall::LocalAddress { socket } => {
            let told = udp::local_address(view, world, ids, socket);
            reply_of(alloc, told)
        }
        UdpCall::RemoteAddress { socket } => {
            let told = udp::remote_address(view, socket);
            reply_of(alloc, told)
        }
        UdpCall::AddressFamily { socket } => {
            let told = udp::address_family(view, socket);
            reply_of(alloc, told)
        }
        UdpCall::Get { socket, option } => {
            let told = udp::get_option(view, world, ids, socket, udp_opt(option));
            reply_of(alloc, told)
        }
        UdpCall::Set { socket, setting } => {
            let done = udp::set_option(view, world, ids, socket, udp_setting(setting));
            reply_of(alloc, done)
        }
        UdpCall::Stream { socket, remote } => {
            let answer = udp::stream(view, world, ids, socket, remote);
            answer_reply(alloc, ids.line, answer)
        }
        UdpCall::Receive {
            incoming,
            max_results,
        } => {
            let received = udp::receive(alloc, view, world, ids, incoming, max_results);
            reply_of(alloc, received)
        }
        UdpCall::CheckSend { outgoing } => {
            let permit = udp::check_send(view, outgoing);
            reply_of(alloc, permit)
        }
        UdpCall::Send {
            outgoing,
            datagrams,
        } => {
            let sent = udp::send(view, world, ids, outgoing, datagrams.into_vec());
            reply_of(alloc, sent)
        }
    }
}

/// Makes a call of the network, of a lookup or of an error.
pub(crate) fn name_call<W: World>(
    alloc: Global,
    view: &mut WasiSocketsCtxView<'_>,
    world: &mut W,
    ids: &mut Ids,
    call: NameCall,
) -> Result<Reply, AllocError>
    requires open { (W.seen world.old).ended ≡ false }
    requires first { ids.old ≡ first_ids ids.old.line }
    requires free { is_some view.old.store.now.standing ≡ false }
    ensures asked { AsksFor (call_asks view.old.ctx.now (state_of view.old) ids.old.line
        (guest.Names call)) (W.seen world.old) (W.seen world.new)
        (λ reply. (reply, state_of view.new)) result }
    ensures sides { KnowsSides (W.seen world.old) view.old.store.now
        → KnowsSides (W.seen world.new) view.new.store.now }
    ensures view { SameView view.old view.new }
{
    match call {
        NameCall::Network => {
            let made = wasi_p2::instance_network(view, world, ids);
            reply_of(alloc, made)
        }
        NameCall::Resolve { network, name } => {
            let made = ip_name_lookup::resolve_addresses(alloc, view, world, ids, network, name);
            reply_of(alloc, made)
        }
        NameCall::ResolveNext { lookup } => {
            let told = ip_name_lookup::resolve_next_address(view, lookup);
            reply_of(alloc, told)
        }
        NameCall::NetworkErrorCode { error } => {
            let told = wasi_p2::network_error_code(view, error);
            reply_of(alloc, without_code(told))
        }
    }
}

/// The result of a call that never has a code to give, with that in its type.
fn without_code(told: Result<Option<p2::ErrorCode>, SocketError>) -> Result<NoCode, SocketError>
    ensures { host_outcome result ≡ result_map_both without_code (λ e. e) (host_outcome told) }
{
    told?;
    Ok(NoCode)
}
