//! The options of a socket's network socket. One table (specs/Options) says of each option which
//! values it has, when 0 is refused, which value is set for one that is given, and which is
//! answered for one that is reported.

ghost use Rattle.std.specs.Prelude.{◌≡◌, ◌≤◌, false, Ok, OnErr, IfOk};
ghost use Rattle.wasi_world.specs.Asks.{AsksFor, outcome};
ghost use Rattle.socket_common.specs.Options.{largest_value, value_told, option_within};
ghost use Rattle.socket_common.specs.Options.{option_answer, option_of, number_of};
ghost use Rattle.socket_common.specs.Options.{get_of_side_asks, set_of_side_asks};

use crate::setting::Setting;
use wasi_addr::{ErrorCode, normalize_get_buffer_size};
use wasi_world::{OpId, Opt, Refusal, Sock, World, asks};

/// The largest value of an option: 1, which is yes, 4,294,967,295 probes, 255 hops, and for a time
/// in nanoseconds or a size in bytes the largest `u64`.
pub fn largest_value(option: Opt) -> u64
    ensures { result ≡ largest_value option }
{
    match option {
        Opt::KeepAliveEnabled => 1,
        Opt::KeepAliveCount => u64::from(u32::MAX),
        Opt::HopLimit => u64::from(u8::MAX),
        Opt::KeepAliveIdleTime | Opt::KeepAliveInterval => u64::MAX,
        Opt::ReceiveBufferSize | Opt::SendBufferSize => u64::MAX,
    }
}

/// The value that is answered for one that the network reports, where it isn't too large.
fn value_told(option: Opt, told: u64) -> u64
    ensures { result ≡ value_told option told }
{
    match option {
        Opt::KeepAliveEnabled => u64::from(told != 0),
        Opt::KeepAliveIdleTime | Opt::KeepAliveInterval => told,
        Opt::KeepAliveCount | Opt::HopLimit => told,
        Opt::ReceiveBufferSize | Opt::SendBufferSize => normalize_get_buffer_size(told),
    }
}

/// The value, or `NotSupported` where it is too large for its option.
fn within(option: Opt, value: u64) -> Result<u64, ErrorCode>
    ensures answer { result ≡ option_within option value }
    ensures within { IfOk result (λ answer. answer ≤ largest_value option) }
{
    if value <= largest_value(option) {
        Ok(value)
    } else {
        Err(ErrorCode::NotSupported)
    }
}

/// What is answered for what the network reports.
fn answer(option: Opt, told: Result<u64, ErrorCode>) -> Result<u64, Refusal>
    ensures answer { outcome result ≡ Ok (option_answer option told) }
    ensures within { IfOk result (λ answer. answer ≤ largest_value option) }
{
    match told {
        Ok(value) => match within(option, value_told(option, value)) {
            Ok(answer) => Ok(answer),
            Err(code) => Err(Refusal::Code(code)),
        },
        Err(code) => Err(Refusal::Code(code)),
    }
}

/// Reads an option of a socket: yes is 1 and no is 0, a time is in nanoseconds, a size in bytes.
///
/// - A code that the network reports is returned.
/// - A reported size is halved, and any reported number but 0 is yes.
/// - A reported value above the option's [`largest_value`] is `NotSupported`.
/// - Out of memory nothing was asked.
pub fn get_of_side<W: World>(
    world: &mut W,
    op: OpId,
    side: Sock,
    option: Opt,
) -> Result<u64, Refusal>
    requires { (W.seen world.old).ended ≡ false }
    ensures asked { AsksFor (get_of_side_asks op side option) (W.seen world.old) (W.seen world.new)
        (λ answer. answer) (outcome result) }
    ensures within { IfOk result (λ answer. answer ≤ largest_value option) }
    ensures unasked { OnErr (outcome result) (W.seen world.new ≡ W.seen world.old) }
{
    let told = asks::get_option(world, op, side, option)?;
    answer(option, told)
}

/// Sets an option of a socket.
///
/// - 0 for the hop limit or a size is `InvalidArgument`, and nothing is asked.
/// - Times, sizes and numbers of probes are brought into their ranges first.
/// - A code that the network reports is returned.
/// - Out of memory nothing was asked.
pub fn set_of_side<W: World>(
    world: &mut W,
    op: OpId,
    side: Sock,
    setting: Setting,
) -> Result<(), Refusal>
    requires { (W.seen world.old).ended ≡ false }
    ensures asked { AsksFor (set_of_side_asks op side (option_of setting) (number_of setting))
        (W.seen world.old) (W.seen world.new) (λ answer. answer) (outcome result) }
    ensures unasked { OnErr (outcome result) (W.seen world.new ≡ W.seen world.old) }
{
    if setting.refused_after_state() {
        return Err(Refusal::Code(ErrorCode::InvalidArgument));
    }
    let told = asks::set_option(world, op, side, setting.option(), setting.value_set())?;
    match told {
        Ok(()) => Ok(()),
        Err(code) => Err(Refusal::Code(code)),
    }
}
