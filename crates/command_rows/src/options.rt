//! Cases of calls that no script makes: options of sockets that are read, and the views of an
//! embedder by the number of a context.

ghost use Rattle.std.specs.Prelude.{◌≡◌, false};
ghost use Rattle.world_scripted.specs.Scripted.{seen_by};

use crate::guest::{Guest, line};
use host_store::{NamedId, WasiCtxNamedView, WasiSocketsCtxView, WasiSocketsView};
use row_cases::{Case, Stream};
use std::alloc::{AllocError, Global};
use std::fmt::Write;
use wasi_addr::SocketAddressFamily;
use wasi_p2::{SocketError, convert_error_code, tcp, udp};
use wasi_replay::fields;
use wasi_world::{Answer, Handle, Opt};
use world_scripted::ScriptedWorld;
use world_text::fields::Fields;

/// A guest, and its network, which has not ended.
#[derive(Drop)]
struct Calls {
    guest: Guest,
    world: ScriptedWorld,
    ghost open: { (seen_by world).ended ≡ false },
}

/// Makes a TCP socket in a view.
fn make_tcp(
    view: &mut WasiSocketsCtxView<'_>,
    world: &mut ScriptedWorld,
) -> Result<Handle, SocketError>
    requires { (seen_by world.old).ended ≡ false }
    ensures { (seen_by world.new).ended ≡ false }
{
    tcp::create_tcp_socket(view, world, &mut line(1), SocketAddressFamily::Ipv4)
}

/// Reads an option of the TCP socket 1.
fn get_tcp(
    view: &mut WasiSocketsCtxView<'_>,
    world: &mut ScriptedWorld,
    step: u32,
    option: Opt,
) -> Result<u64, SocketError>
    requires { (seen_by world.old).ended ≡ false }
    ensures { (seen_by world.new).ended ≡ false }
{
    tcp::get_option(view, world, &mut line(step), 1, option)
}

/// Reads an option of the UDP socket 2.
fn get_udp(
    view: &mut WasiSocketsCtxView<'_>,
    world: &mut ScriptedWorld,
    step: u32,
    option: Opt,
) -> Result<u64, SocketError>
    requires { (seen_by world.old).ended ≡ false }
    ensures { (seen_by world.new).ended ≡ false }
{
    udp::get_option(view, world, &mut line(step), 2, option)
}

impl Calls {
    /// Makes a TCP socket.
    fn make_tcp(&mut self) -> Result<Handle, SocketError> {
        make_tcp(&mut self.guest.sockets(), &mut self.world)
    }

    /// Makes a UDP socket.
    fn make_udp(&mut self, step: u32) -> Result<Answer<Handle>, SocketError> {
        let view = &mut self.guest.sockets();
        let family = SocketAddressFamily::Ipv4;
        udp::create_udp_socket(view, &mut self.world, &mut line(step), family)
    }

    /// Reads an option of the TCP socket 1, or of the UDP socket 2.
    fn get(&mut self, step: u32, kind: &str, option: Opt) -> Result<u64, SocketError> {
        if kind == "tcp" {
            return get_tcp(&mut self.guest.sockets(), &mut self.world, step, option);
        }
        get_udp(&mut self.guest.sockets(), &mut self.world, step, option)
    }
}

/// Adds the value of the option that a line names, if it names one.
fn push_option(
    text: &mut String,
    calls: &mut Calls,
    step: u32,
    line: &str,
) -> Result<(), AllocError> {
    let mut fields = Fields::of(line.as_bytes());
    if let (Some(kind), Some(option)) = (fields.word(), fields::option(&mut fields)) {
        let value = calls.get(step, kind, option);
        write!(text, "{line} {value:?}\n")?;
    }
    Ok(())
}

/// `options`: the value of each option that a line of the input names behind `tcp` or `udp`, and the
/// length of the log.
pub fn options(text: &mut String, alloc: Global, case: &Case) -> Result<(), AllocError> {
    let Ok((world, _)) = ScriptedWorld::parse(alloc, case.text(Stream::Scenario)) else {
        return text.push_str("no scenario\n");
    };
    let guest = Guest::new(alloc);
    let mut calls = Calls { guest, world };
    if calls.make_tcp().is_err() || calls.make_udp(2).is_err() {
        return text.push_str("no sockets\n");
    }
    let mut step = 2u32;
    for line in case.input().lines() {
        step = step.saturating_add(1);
        push_option(text, &mut calls, step, line)?;
    }
    write!(text, "log {}\n", calls.world.entries().len())
}

/// `views NUMBER`: what a call in the view of the context with this number, 7 or 9, returns: its
/// handle, or the code that a guest is told.
pub fn views(text: &mut String, alloc: Global, case: &Case) -> Result<(), AllocError> {
    let Ok((mut world, _)) = ScriptedWorld::parse(alloc, case.text(Stream::Scenario)) else {
        return text.push_str("no scenario\n");
    };
    let mut guest = Guest::new(alloc);
    let made = if case.word(1) == "9" {
        make_tcp(&mut WasiCtxNamedView(&mut guest).at(NamedId(9)), &mut world)
    } else {
        make_tcp(&mut WasiCtxNamedView(&mut guest).at(NamedId(7)), &mut world)
    };
    match made {
        Ok(handle) => write!(text, "{handle}\n"),
        Err(error) => write!(text, "{:?}\n", convert_error_code(error)),
    }
}
