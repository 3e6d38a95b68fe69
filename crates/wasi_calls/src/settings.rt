//! Settings of sockets: a script's setting is made by the host's call for it.

ghost use Rattle.std.specs.Prelude.{◌≡◌, false};
ghost use Rattle.wasi_world.specs.Asks.{AsksFor};
ghost use Rattle.socket_common.specs.Options.{number_of, option_of};
ghost use Rattle.record_common.specs.Stops.{host_outcome};
ghost use Rattle.host_store.specs.Machine.{own_of, socket_at};
ghost use Rattle.host_store.specs.Views.{HostKept, state_of};
ghost use Rattle.wasi_machine.specs.Machine.{set_chosen, set_p3};
ghost use Rattle.wasi_p3.specs.Stops.{ends_as};
ghost use Rattle.wasi_steps.specs.Settings.{chosen, udp_chosen, udp_opt};

use host_store::WasiSocketsCtxView;
use record_common::SocketError;
use socket_common::Setting;
use wasi_p2::tcp;
use wasi_p3::tcp as p3;
use wasi_steps::{TcpSetting, UdpOption, UdpSetting};
use wasi_world::{Handle, Ids, Opt, World};

/// Sets an option of a socket, or its backlog.
pub fn set<W: World>(
    view: &mut WasiSocketsCtxView<'_>,
    world: &mut W,
    ids: &mut Ids,
    socket: Handle,
    setting: TcpSetting,
) -> Result<(), SocketError>
    requires { (W.seen world.old).ended ≡ false }
    ensures asked { AsksFor (set_chosen (state_of view.old) (own_of ids.old.line)
        (socket_at (state_of view.old) socket) (chosen setting)) (W.seen world.old)
        (W.seen world.new) (λ done. (done, state_of view.new)) (host_outcome result) }
    ensures kept { HostKept view.old view.new ids.old ids.new (W.seen world.old)
        (W.seen world.new) }
{
    match setting {
        TcpSetting::Option(setting) => tcp::set_option(view, world, ids, socket, setting),
        TcpSetting::ListenBacklogSize(value) => {
            tcp::set_listen_backlog_size(view, world, ids, socket, value)
        }
    }
}

/// Sets an option of a socket of 0.3, or its backlog.
pub fn set_p3<W: World>(
    view: &mut WasiSocketsCtxView<'_>,
    world: &mut W,
    ids: &mut Ids,
    socket: Handle,
    setting: TcpSetting,
) -> Result<(), wasi_p3::SocketError>
    requires { (W.seen world.old).ended ≡ false }
    ensures asked { AsksFor (set_p3 (own_of ids.old.line) socket (chosen setting)
        (state_of view.old)) (W.seen world.old) (W.seen world.new) (λ done. (
          done,
          state_of view.new,
        )) (ends_as result) }
    ensures kept { HostKept view.old view.new ids.old ids.new (W.seen world.old)
        (W.seen world.new) }
{
    match setting {
        TcpSetting::Option(setting) => p3::set_option(view, world, ids, socket, setting),
        TcpSetting::ListenBacklogSize(value) => {
            p3::set_listen_backlog_size(view, world, ids, socket, value)
        }
    }
}

/// The network's option that an option of a UDP socket is.
pub fn udp_opt(option: UdpOption) -> Opt
    ensures { result ≡ udp_opt option }
{
    match option {
        UdpOption::HopLimit => Opt::HopLimit,
        UdpOption::ReceiveBufferSize => Opt::ReceiveBufferSize,
        UdpOption::SendBufferSize => Opt::SendBufferSize,
    }
}

/// The network's setting that a setting of a UDP socket is.
pub fn udp_setting(setting: UdpSetting) -> Setting
    ensures option { option_of result ≡ (udp_chosen setting).0 }
    ensures value { number_of result ≡ (udp_chosen setting).1 }
{
    match setting {
        UdpSetting::HopLimit(value) => Setting::HopLimit(value),
        UdpSetting::ReceiveBufferSize(value) => Setting::ReceiveBufferSize(value),
        UdpSetting::SendBufferSize(value) => Setting::SendBufferSize(value),
    }
}
