//! The calls on TCP sockets.

use crate::args::{Args, Refusal};
use crate::op;
use socket_common::Setting;
use wasi_addr::ShutdownType;
use wasi_steps::{TcpCall, TcpSetting};
use wasi_world::{Handle, Opt};

/// Which half is shut down: 0 is receive, 1 is send, 2 is both.
fn shutdown_type(args: &Args<'_>, place: usize) -> Result<ShutdownType, Refusal> {
    match args.wide(place)? {
        0 => Ok(ShutdownType::Receive),
        1 => Ok(ShutdownType::Send),
        2 => Ok(ShutdownType::Both),
        _ => Err(Refusal::Argument),
    }
}

/// The option that a getter reads.
fn option_of(number: u32) -> Option<Opt> {
    match number {
        op::TCP_KEEP_ALIVE_ENABLED => Some(Opt::KeepAliveEnabled),
        op::TCP_KEEP_ALIVE_IDLE_TIME => Some(Opt::KeepAliveIdleTime),
        op::TCP_KEEP_ALIVE_INTERVAL => Some(Opt::KeepAliveInterval),
        op::TCP_KEEP_ALIVE_COUNT => Some(Opt::KeepAliveCount),
        op::TCP_HOP_LIMIT => Some(Opt::HopLimit),
        op::TCP_RECEIVE_BUFFER_SIZE => Some(Opt::ReceiveBufferSize),
        op::TCP_SEND_BUFFER_SIZE => Some(Opt::SendBufferSize),
        _ => None,
    }
}

/// What a setter sets.
fn setting(number: u32, args: &Args<'_>) -> Result<TcpSetting, Refusal> {
    let setting = match number {
        op::TCP_SET_KEEP_ALIVE_ENABLED => Setting::KeepAliveEnabled(args.truth(1)?),
        op::TCP_SET_KEEP_ALIVE_IDLE_TIME => Setting::KeepAliveIdleTime(args.wide(1)?),
        op::TCP_SET_KEEP_ALIVE_INTERVAL => Setting::KeepAliveInterval(args.wide(1)?),
        op::TCP_SET_KEEP_ALIVE_COUNT => Setting::KeepAliveCount(args.word(1)?),
        op::TCP_SET_HOP_LIMIT => Setting::HopLimit(args.byte(1)?),
        op::TCP_SET_RECEIVE_BUFFER_SIZE => Setting::ReceiveBufferSize(args.wide(1)?),
        op::TCP_SET_SEND_BUFFER_SIZE => Setting::SendBufferSize(args.wide(1)?),
        op::TCP_SET_LISTEN_BACKLOG_SIZE => {
            return Ok(TcpSetting::ListenBacklogSize(args.wide(1)?));
        }
        _ => return Err(Refusal::Argument),
    };
    Ok(TcpSetting::Option(setting))
}

/// A bind or a connect.
fn addressed(number: u32, args: &Args<'_>) -> Result<TcpCall, Refusal> {
    let socket = args.word(0)?;
    let network = args.word(1)?;
    let addr = args.address(2)?;
    match number {
        op::TCP_START_BIND => Ok(TcpCall::StartBind {
            socket,
            network,
            addr,
        }),
        op::TCP_START_CONNECT => Ok(TcpCall::StartConnect {
            socket,
            network,
            addr,
        }),
        _ => Err(Refusal::Argument),
    }
}

/// A call with the socket as its one argument.
fn bare(number: u32, socket: Handle) -> Option<TcpCall> {
    match number {
        op::TCP_FINISH_BIND => Some(TcpCall::FinishBind { socket }),
        op::TCP_FINISH_CONNECT => Some(TcpCall::FinishConnect { socket }),
        op::TCP_START_LISTEN => Some(TcpCall::StartListen { socket }),
        op::TCP_FINISH_LISTEN => Some(TcpCall::FinishListen { socket }),
        op::TCP_ACCEPT => Some(TcpCall::Accept { socket }),
        op::TCP_LOCAL_ADDRESS => Some(TcpCall::LocalAddress { socket }),
        op::TCP_REMOTE_ADDRESS => Some(TcpCall::RemoteAddress { socket }),
        op::TCP_IS_LISTENING => Some(TcpCall::IsListening { socket }),
        op::TCP_ADDRESS_FAMILY => Some(TcpCall::AddressFamily { socket }),
        _ => None,
    }
}

/// The call on a TCP socket that has this number.
pub fn tcp_call(number: u32, args: &Args<'_>) -> Result<TcpCall, Refusal> {
    if matches!(number, op::TCP_START_BIND | op::TCP_START_CONNECT) {
        return addressed(number, args);
    }
    let socket = args.word(0)?;
    if let Some(call) = bare(number, socket) {
        return Ok(call);
    }
    if let Some(option) = option_of(number) {
        return Ok(TcpCall::Get { socket, option });
    }
    if number == op::TCP_SHUTDOWN {
        let how = shutdown_type(args, 1)?;
        return Ok(TcpCall::Shutdown { socket, how });
    }
    let setting = setting(number, args)?;
    Ok(TcpCall::Set { socket, setting })
}
