//! Reads a line of a script.

ghost use Rattle.std.specs.Prelude.{◌≡◌, ◌↔◌, ℕ, false, List, Some, IfOk, ◌++◌};
ghost use Rattle.world_text.specs.Fields.{Reads, after_word, number_in};
ghost use Rattle.world_text.specs.Written.{IsVisible};
ghost use Rattle.wasi_steps.specs.declared.step.Step.{Step};
ghost use Rattle.wasi_steps.specs.Arguments.{shutdown_at};
ghost use Rattle.wasi_steps.specs.Names.{IsText};
ghost use Rattle.wasi_steps.specs.Settings.{ReadsNumber, ReadsAfter, option_words, option_at};
ghost use Rattle.wasi_steps.specs.Settings.{wide_words, setting_words, setting_at, udp_option_at};
ghost use Rattle.wasi_steps.specs.Settings.{udp_setting_at};
ghost use Rattle.wasi_steps.specs.Steps.{line_of, IsStep, guest_calls, plain_calls, value_calls};
ghost use Rattle.wasi_steps.specs.Steps.{tcp_value_calls, udp_value_calls, p3_value_calls, input_value_calls};
ghost use Rattle.wasi_steps.specs.Steps.{output_value_calls, handle_calls, bare_rows, rows_of};
ghost use Rattle.wasi_steps.specs.Steps.{call_at, guest_call_at, step_reader, step_of, takes_a_name};

use crate::datagram::remote;
use crate::guest_call::{GuestCall, NameCall, P3TcpCall, P3UdpCall, PipeCall, TcpCall, UdpCall};
use crate::memory::{
    blocking_write_arguments, p3_resolve_arguments, p3_send_arguments, p3_write_arguments,
    pipe_arguments, poll_list_arguments, resolve_arguments, send_arguments, write_arguments,
};
use crate::setting::{TcpSetting, UdpOption, UdpSetting};
use crate::step::Step;
use crate::stream::stream_arguments;
use crate::words::is;
use socket_common::Setting;
use std::alloc::{AllocError, Global};
use wasi_addr::ShutdownType;
use wasi_world::Opt;
use world_text::Fields;
use world_text::fields::number;

/// Takes the word of what is shut down.
#[tactic(auto, unfolding(crate::specs::Arguments::shutdown_at, world_text::specs::Fields::read_then, world_text::specs::Fields::give))]
fn shutdown_type(fields: &mut Fields<'_>) -> Option<ShutdownType>
    ensures { Reads shutdown_at fields.old result fields.new }
{
    match fields.word()? {
        "receive" => Some(ShutdownType::Receive),
        "send" => Some(ShutdownType::Send),
        "both" => Some(ShutdownType::Both),
        _ => None,
    }
}

/// The option of this word.
#[tactic(auto, unfolding(world_text::specs::Fields::give_some, world_text::specs::Fields::give))]
fn option_of(word: &[u8]) -> Option<Opt>
    ensures { (rest : List (List ℕ)) → Reads (after_word option_words word.now) rest result rest }
{
    match word {
        _ if is(word, "keep-alive-enabled") => Some(Opt::KeepAliveEnabled),
        _ if is(word, "keep-alive-idle-time") => Some(Opt::KeepAliveIdleTime),
        _ if is(word, "keep-alive-interval") => Some(Opt::KeepAliveInterval),
        _ if is(word, "keep-alive-count") => Some(Opt::KeepAliveCount),
        _ if is(word, "hop-limit") => Some(Opt::HopLimit),
        _ if is(word, "receive-buffer-size") => Some(Opt::ReceiveBufferSize),
        _ if is(word, "send-buffer-size") => Some(Opt::SendBufferSize),
        _ => None,
    }
}

/// Takes the word of an option.
#[tactic(auto, unfolding(crate::specs::Settings::option_at, world_text::specs::Fields::read_then, world_text::specs::Fields::give))]
fn option(fields: &mut Fields<'_>) -> Option<Opt>
    ensures { Reads option_at fields.old result fields.new }
{
    let word = fields.next()?;
    option_of(word)
}

/// What this word says is set, to a number of 64 bits.
#[tactic(auto, unfolding(world_text::specs::Fields::read_then, world_text::specs::Fields::give, world_text::specs::Fields::give_some))]
fn wide_setting(word: &str, value: u64) -> Option<TcpSetting>
    ensures { ReadsNumber 18446744073709551615 wide_words word.now value result }
{
    use Setting::*;
    let setting = match word {
        "keep-alive-idle-time" => KeepAliveIdleTime(value),
        "keep-alive-interval" => KeepAliveInterval(value),
        "receive-buffer-size" => ReceiveBufferSize(value),
        "send-buffer-size" => SendBufferSize(value),
        "listen-backlog-size" => return Some(TcpSetting::ListenBacklogSize(value)),
        _ => return None,
    };
    Some(TcpSetting::Option(setting))
}

/// Takes the value of what this word says is set.
#[tactic(auto, unfolding(world_text::specs::Fields::read_then, world_text::specs::Fields::give, world_text::specs::Fields::give_some))]
fn setting_of(fields: &mut Fields<'_>, word: &str) -> Option<TcpSetting>
    ensures { Reads (after_word setting_words word.now) fields.old result fields.new }
{
    use Setting::*;
    match word {
        "keep-alive-enabled" => Some(TcpSetting::Option(KeepAliveEnabled(fields.number(1)? == 1))),
        "keep-alive-count" => Some(TcpSetting::Option(KeepAliveCount(fields.u32()?))),
        "hop-limit" => Some(TcpSetting::Option(HopLimit(fields.number(255)? as u8))),
        _ => wide_setting(word, fields.number(u64::MAX)?),
    }
}

/// Takes what is set, and its value.
#[tactic(auto, unfolding(crate::specs::Settings::setting_at, world_text::specs::Fields::read_then))]
fn setting(fields: &mut Fields<'_>) -> Option<TcpSetting>
    ensures { Reads setting_at fields.old result fields.new }
{
    let word = fields.word()?;
    setting_of(fields, word)
}

/// Takes the word of an option of a UDP socket.
#[tactic(auto, unfolding(crate::specs::Settings::udp_option_at, world_text::specs::Fields::read_then, world_text::specs::Fields::give))]
fn udp_option(fields: &mut Fields<'_>) -> Option<UdpOption>
    ensures { Reads udp_option_at fields.old result fields.new }
{
    match fields.word()? {
        "hop-limit" => Some(UdpOption::HopLimit),
        "receive-buffer-size" => Some(UdpOption::ReceiveBufferSize),
        "send-buffer-size" => Some(UdpOption::SendBufferSize),
        _ => None,
    }
}

/// Takes what is set of a UDP socket, and its value.
#[tactic(auto, unfolding(crate::specs::Settings::udp_setting_at, world_text::specs::Fields::read_then, world_text::specs::Fields::give))]
fn udp_setting(fields: &mut Fields<'_>) -> Option<UdpSetting>
    ensures { Reads udp_setting_at fields.old result fields.new }
{
    use UdpSetting::*;
    match fields.word()? {
        "hop-limit" => Some(HopLimit(fields.number(255)? as u8)),
        "receive-buffer-size" => Some(ReceiveBufferSize(fields.number(u64::MAX)?)),
        "send-buffer-size" => Some(SendBufferSize(fields.number(u64::MAX)?)),
        _ => None,
    }
}

/// Takes what follows the handle of a call: more arguments where the word is that of a socket of 0.3
/// or of a stream and takes them, else nothing.
#[tactic(auto, unfolding(world_text::specs::Fields::read_then, world_text::specs::Fields::give, world_text::specs::Fields::give_some))]
fn p3_arguments(fields: &mut Fields<'_>, word: &[u8], handle: u32) -> Option<GuestCall>
    ensures { ReadsAfter 4294967295 (rows_of (p3_value_calls ++ input_value_calls
        ++ output_value_calls ++ handle_calls)) word.now handle fields.old result fields.new }
{
    match word {
        _ if is(word, "p3-tcp-bind") => Some(GuestCall::P3Tcp(P3TcpCall::Bind {
            socket: handle,
            addr: fields.socket_address()?,
        })),
        _ if is(word, "p3-tcp-connect") => Some(GuestCall::P3Tcp(P3TcpCall::Connect {
            socket: handle,
            addr: fields.socket_address()?,
        })),
        _ if is(word, "p3-tcp-get") => Some(GuestCall::P3Tcp(P3TcpCall::Get {
            socket: handle,
            option: option(fields)?,
        })),
        _ if is(word, "p3-tcp-set") => Some(GuestCall::P3Tcp(P3TcpCall::Set {
            socket: handle,
            setting: setting(fields)?,
        })),
        _ if is(word, "p3-accept") => Some(GuestCall::P3Tcp(P3TcpCall::Accept {
            listener: handle,
            remaining: fields.number(u64::MAX)?,
        })),
        _ if is(word, "p3-read") => Some(GuestCall::P3Tcp(P3TcpCall::Read {
            end: handle,
            len: fields.number(u64::MAX)?,
        })),
        _ if is(word, "p3-udp-bind") => Some(GuestCall::P3Udp(P3UdpCall::Bind {
            socket: handle,
            addr: fields.socket_address()?,
        })),
        _ if is(word, "p3-udp-connect") => Some(GuestCall::P3Udp(P3UdpCall::Connect {
            socket: handle,
            addr: fields.socket_address()?,
        })),
        _ if is(word, "p3-udp-get") => Some(GuestCall::P3Udp(P3UdpCall::Get {
            socket: handle,
            option: udp_option(fields)?,
        })),
        _ if is(word, "p3-udp-set") => Some(GuestCall::P3Udp(P3UdpCall::Set {
            socket: handle,
            setting: udp_setting(fields)?,
        })),
        _ => stream_arguments(fields, word, handle),
    }
}

/// Takes what follows the handle of a call: more arguments where the word is a UDP socket's or
/// a stream's and takes them, else nothing.
#[tactic(auto, unfolding(world_text::specs::Fields::read_then, world_text::specs::Fields::give, world_text::specs::Fields::give_some))]
fn udp_arguments(fields: &mut Fields<'_>, word: &[u8], handle: u32) -> Option<GuestCall>
    ensures { ReadsAfter 4294967295 (rows_of (udp_value_calls ++ p3_value_calls ++ input_value_calls
        ++ output_value_calls ++ handle_calls)) word.now handle fields.old result
        fields.new }
{
    match word {
        _ if is(word, "udp-start-bind") => Some(GuestCall::Udp(UdpCall::StartBind {
            socket: handle,
            network: fields.u32()?,
            addr: fields.socket_address()?,
        })),
        _ if is(word, "udp-get") => Some(GuestCall::Udp(UdpCall::Get {
            socket: handle,
            option: udp_option(fields)?,
        })),
        _ if is(word, "udp-set") => Some(GuestCall::Udp(UdpCall::Set {
            socket: handle,
            setting: udp_setting(fields)?,
        })),
        _ if is(word, "udp-stream") => Some(GuestCall::Udp(UdpCall::Stream {
            socket: handle,
            remote: remote(fields)?,
        })),
        _ if is(word, "udp-receive") => Some(GuestCall::Udp(UdpCall::Receive {
            incoming: handle,
            max_results: fields.number(u64::MAX)?,
        })),
        _ => p3_arguments(fields, word, handle),
    }
}

/// Takes what follows the handle of a call: more arguments where the word is a socket's or a
/// stream's and takes them, else nothing.
#[tactic(auto, unfolding(world_text::specs::Fields::read_then, world_text::specs::Fields::give, world_text::specs::Fields::give_some))]
fn tcp_arguments(fields: &mut Fields<'_>, word: &[u8], handle: u32) -> Option<GuestCall>
    ensures { ReadsAfter 4294967295 (rows_of (value_calls ++ handle_calls)) word.now
        handle fields.old result fields.new }
{
    match word {
        _ if is(word, "tcp-start-bind") => Some(GuestCall::Tcp(TcpCall::StartBind {
            socket: handle,
            network: fields.u32()?,
            addr: fields.socket_address()?,
        })),
        _ if is(word, "tcp-start-connect") => Some(GuestCall::Tcp(TcpCall::StartConnect {
            socket: handle,
            network: fields.u32()?,
            addr: fields.socket_address()?,
        })),
        _ if is(word, "tcp-get") => Some(GuestCall::Tcp(TcpCall::Get {
            socket: handle,
            option: option(fields)?,
        })),
        _ if is(word, "tcp-set") => Some(GuestCall::Tcp(TcpCall::Set {
            socket: handle,
            setting: setting(fields)?,
        })),
        _ if is(word, "tcp-shutdown") => Some(GuestCall::Tcp(TcpCall::Shutdown {
            socket: handle,
            how: shutdown_type(fields)?,
        })),
        _ => udp_arguments(fields, word, handle),
    }
}

/// Takes the arguments of a call whose first one is a handle: that alone, or more after it.
#[tactic(auto, unfolding(world_text::specs::Fields::read_then, world_text::specs::Fields::give, world_text::specs::Fields::give_some))]
fn handle_arguments(fields: &mut Fields<'_>, word: &[u8]) -> Option<GuestCall>
    ensures { Reads (after_word (rows_of (value_calls ++ handle_calls)) word.now)
        fields.old result fields.new }
{
    let handle = fields.u32()?;
    tcp_arguments(fields, word, handle)
}

/// Takes the arguments of a call, where they take no memory.
#[tactic(auto, unfolding(world_text::specs::Fields::read_then, world_text::specs::Fields::give, world_text::specs::Fields::give_some))]
fn plain_arguments(fields: &mut Fields<'_>, word: &[u8]) -> Option<GuestCall>
    ensures { Reads (after_word (rows_of plain_calls) word.now) fields.old result
        fields.new }
{
    match word {
        _ if is(word, "network") => Some(GuestCall::Names(NameCall::Network)),
        _ if is(word, "tcp-create") => Some(GuestCall::Tcp(TcpCall::Create {
            family: fields.family()?,
        })),
        _ if is(word, "udp-create") => Some(GuestCall::Udp(UdpCall::Create {
            family: fields.family()?,
        })),
        _ if is(word, "pipe-out") => Some(GuestCall::Pipe(PipeCall::Out {
            capacity: fields.number(65536)? as u32,
        })),
        _ if is(word, "sink") => Some(GuestCall::Pipe(PipeCall::Sink)),
        _ if is(word, "closed-in") => Some(GuestCall::Pipe(PipeCall::ClosedIn)),
        _ if is(word, "closed-out") => Some(GuestCall::Pipe(PipeCall::ClosedOut)),
        _ if is(word, "p3-tcp-create") => Some(GuestCall::P3Tcp(P3TcpCall::Create {
            family: fields.family()?,
        })),
        _ if is(word, "p3-udp-create") => Some(GuestCall::P3Udp(P3UdpCall::Create {
            family: fields.family()?,
        })),
        _ => handle_arguments(fields, word),
    }
}

/// Takes the arguments of a call.
fn arguments(
    alloc: Global,
    fields: &mut Fields<'_>,
    word: &[u8],
) -> Result<Option<GuestCall>, AllocError>
    ensures { IfOk result (λ call. Reads (after_word (rows_of guest_calls) word.now) fields.old
        call fields.new) }
{
    match word {
        _ if is(word, "pipe-in") => pipe_arguments(alloc, fields),
        _ if is(word, "write") => write_arguments(alloc, fields),
        _ if is(word, "blocking-write") => blocking_write_arguments(alloc, fields),
        _ if is(word, "udp-send") => send_arguments(alloc, fields),
        _ if is(word, "poll-list") => poll_list_arguments(alloc, fields),
        _ if is(word, "resolve") => resolve_arguments(alloc, fields),
        _ if is(word, "p3-write") => p3_write_arguments(alloc, fields),
        _ if is(word, "p3-resolve") => p3_resolve_arguments(alloc, fields),
        _ if is(word, "p3-udp-send") => p3_send_arguments(alloc, fields),
        _ => Ok(plain_arguments(fields, word)),
    }
}

/// Takes a guest call.
#[tactic(auto, unfolding(crate::specs::Steps::call_at, world_text::specs::Fields::read_then))]
fn guest_call(alloc: Global, fields: &mut Fields<'_>) -> Result<Option<GuestCall>, AllocError>
    ensures { IfOk result (λ call. Reads call_at fields.old call fields.new) }
{
    let Some(word) = fields.next() else {
        return Ok(None);
    };
    arguments(alloc, fields, word)
}

/// Takes the guest call of this context, if it is one of so many.
#[tactic(auto, unfolding(crate::specs::Steps::guest_call_at, world_text::specs::Fields::read_then, world_text::specs::Fields::give, world_text::specs::Fields::give_some))]
fn call_of(
    alloc: Global,
    fields: &mut Fields<'_>,
    context: u32,
    contexts: u32,
) -> Result<Option<Step>, AllocError>
    ensures { IfOk result (λ step. Reads (guest_call_at contexts context) fields.old step
        fields.new) }
{
    if context >= contexts {
        return Ok(None);
    }
    let Some(call) = guest_call(alloc, fields)? else {
        return Ok(None);
    };
    Ok(Some(Step::Call { context, call }))
}

/// Takes the arguments of a step word that no context's number comes before.
#[tactic(auto, unfolding(world_text::specs::Fields::read_then, world_text::specs::Fields::give))]
fn bare_arguments(fields: &mut Fields<'_>, word: &[u8]) -> Option<Step>
    ensures { Reads (after_word bare_rows word.now) fields.old result fields.new }
{
    match word {
        _ if is(word, "turn") => Some(Step::Turn),
        _ if is(word, "poll") => Some(Step::Poll {
            line: fields.u32()?,
        }),
        _ if is(word, "cancel") => Some(Step::Cancel {
            line: fields.u32()?,
        }),
        _ => None,
    }
}

/// The number of a context that the word is.
fn context_number(word: &[u8]) -> Option<u32>
    ensures { result ≡ number_in word.now 4294967295 }
{
    Some(number(word, 4294967295)? as u32)
}

/// Takes a step: a guest call of one of so many contexts, or a step that no context makes.
#[tactic(auto, unfolding(crate::specs::Steps::step_reader, world_text::specs::Fields::read_then))]
fn step(alloc: Global, fields: &mut Fields<'_>, contexts: u32) -> Result<Option<Step>, AllocError>
    ensures { IfOk result (λ step. Reads (step_reader contexts) fields.old step fields.new) }
{
    let Some(first) = fields.next() else {
        return Ok(None);
    };
    match context_number(first) {
        Some(context) => call_of(alloc, fields, context, contexts),
        None => Ok(bare_arguments(fields, first)),
    }
}

/// The step that a line is, given without its newline, where there are `contexts` contexts; `None`
/// where it is no step. Takes memory for the bytes of a pipe or a write, the datagrams of a send,
/// the handles of a poll-list and the name of a resolve.
#[tactic(auto, unfolding(crate::specs::Steps::step_of))]
pub fn parse_step(alloc: Global, line: &[u8], contexts: u32) -> Result<Option<Step>, AllocError>
    ensures { IfOk result (λ step. step ≡ step_of contexts line.now) }
{
    let mut fields = Fields::of(line);
    let step = step(alloc, &mut fields, contexts)?;
    if !fields.is_done() {
        return Ok(None);
    }
    Ok(step)
}

/// A line is read as a step exactly where it is the line that is written for that step.
///
/// - `exactly`: a line gives a step exactly where it is that step's line and its context, if it has
///   one, is one of `contexts`.
/// - `visible`: the line of a step without a host name has only visible ASCII characters and
///   spaces.
/// - `text`: the line of any step is UTF-8, with no newline and no carriage return.
pub fn steps_are_their_lines()
    ensures exactly { (contexts : ℕ) (line : List ℕ) (s : Step)
        → (step_of contexts line ≡ Some s) ↔ ((line ≡ line_of s) × IsStep contexts s) }
    ensures visible { (contexts : ℕ) (line : List ℕ) (s : Step) → step_of contexts line ≡ Some s
        → takes_a_name s ≡ false → IsVisible line }
    ensures text { (contexts : ℕ) (line : List ℕ) (s : Step) → step_of contexts line ≡ Some s
        → IsText line }
{}
