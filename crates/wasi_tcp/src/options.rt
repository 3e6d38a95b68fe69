//! The options of a TCP socket: each call asks its network socket, where its state allows that.

ghost use Rattle.std.specs.Prelude.{◌≡◌, ◌≤◌, false, OnErr, IfOk};
ghost use Rattle.std.specs.Int.{from_bool};
ghost use Rattle.wasi_world.specs.Asks.{AsksFor, outcome};
ghost use Rattle.socket_common.specs.Options.{largest_value, option_of, number_of};
ghost use Rattle.wasi_tcp.specs.Socket.{side_of};

use crate::socket::TcpSocket;
use socket_common::{Setting, get_of_side, set_of_side};
use wasi_addr::ErrorCode;
use wasi_world::{OpId, Opt, Refusal, World};

impl TcpSocket {
    ghost use Rattle.wasi_tcp.specs.Options.{get_option_asks, set_option_asks, truth_answer};

    /// Reads an option (the getters of `tcp-socket` in `wasi:sockets/tcp`): yes is 1 and no is 0, a
    /// time is in nanoseconds, a size in bytes.
    ///
    /// - Connecting: `InvalidState`. Closed: its code.
    /// - A code that the network reports is returned.
    /// - A reported size is halved, and any reported number but 0 is yes.
    /// - A reported value above the option's `largest_value` is `NotSupported`.
    pub fn get_option<W: World>(&self, world: &mut W, op: OpId, option: Opt) -> Result<u64, Refusal>
        requires { (W.seen world.old).ended ≡ false }
        ensures asked { AsksFor (get_option_asks op self.now option) (W.seen world.old)
            (W.seen world.new) (λ answer. (answer, self.now)) (outcome result) }
        ensures within { IfOk result (λ answer. answer ≤ largest_value option) }
        ensures unasked { OnErr (outcome result) (W.seen world.new ≡ W.seen world.old) }
    {
        match self.usable_side() {
            Ok(side) => get_of_side(world, op, side, option),
            Err(code) => Err(Refusal::Code(code)),
        }
    }

    /// Sets an option (the setters of `tcp-socket` in `wasi:sockets/tcp`). The socket stays as it
    /// is.
    ///
    /// - Connecting: `InvalidState`. Closed: its code.
    /// - 0 is `InvalidArgument`: for a time or a number of probes in any state, for the hop limit
    ///   or a size where the state allows a set.
    /// - Times, sizes and numbers of probes are brought into their ranges first.
    /// - A code that the network reports is returned.
    pub fn set_option<W: World>(
        &mut self,
        world: &mut W,
        op: OpId,
        setting: Setting,
    ) -> Result<(), Refusal>
        requires { (W.seen world.old).ended ≡ false }
        ensures asked { AsksFor (set_option_asks op self.old (option_of setting)
            (number_of setting)) (W.seen world.old) (W.seen world.new)
            (λ answer. (answer, self.new)) (outcome result) }
        ensures same { self.new ≡ self.old }
        ensures side { side_of self.new ≡ side_of self.old }
        ensures unasked { OnErr (outcome result) (W.seen world.new ≡ W.seen world.old) }
    {
        if setting.refused_before_state() {
            return Err(Refusal::Code(ErrorCode::InvalidArgument));
        }
        match self.usable_side() {
            Ok(side) => set_of_side(world, op, side, setting),
            Err(code) => Err(Refusal::Code(code)),
        }
    }

    /// Whether probes are sent on a connection that is idle (`tcp-socket.keep-alive-enabled`).
    /// Errors are those of `get_option`.
    pub fn keep_alive_enabled<W: World>(&self, world: &mut W, op: OpId) -> Result<bool, Refusal>
        requires { (W.seen world.old).ended ≡ false }
        ensures asked { AsksFor (get_option_asks op self.now Opt.KeepAliveEnabled)
            (W.seen world.old) (W.seen world.new) (λ answer. (truth_answer answer, self.now))
            (outcome result) }
        ensures unasked { OnErr (outcome result) (W.seen world.new ≡ W.seen world.old) }
    {
        let value = self.get_option(world, op, Opt::KeepAliveEnabled)?;
        Ok(value != 0)
    }

    /// Whether probes are to be sent on a connection that is idle
    /// (`tcp-socket.set-keep-alive-enabled`). Errors are those of `set_option`.
    pub fn set_keep_alive_enabled<W: World>(
        &mut self,
        world: &mut W,
        op: OpId,
        value: bool,
    ) -> Result<(), Refusal>
        requires { (W.seen world.old).ended ≡ false }
        ensures asked { AsksFor (set_option_asks op self.old Opt.KeepAliveEnabled (from_bool value))
            (W.seen world.old) (W.seen world.new) (λ answer. (answer, self.new)) (outcome result) }
        ensures same { self.new ≡ self.old }
        ensures side { side_of self.new ≡ side_of self.old }
        ensures unasked { OnErr (outcome result) (W.seen world.new ≡ W.seen world.old) }
    {
        self.set_option(world, op, Setting::KeepAliveEnabled(value))
    }

    /// How long a connection is idle before the first probe, in nanoseconds
    /// (`tcp-socket.keep-alive-idle-time`). Errors are those of `get_option`.
    pub fn keep_alive_idle_time<W: World>(&self, world: &mut W, op: OpId) -> Result<u64, Refusal>
        requires { (W.seen world.old).ended ≡ false }
        ensures asked { AsksFor (get_option_asks op self.now Opt.KeepAliveIdleTime)
            (W.seen world.old) (W.seen world.new) (λ answer. (answer, self.now)) (outcome result) }
        ensures unasked { OnErr (outcome result) (W.seen world.new ≡ W.seen world.old) }
    {
        self.get_option(world, op, Opt::KeepAliveIdleTime)
    }

    /// How long a connection is to be idle before the first probe, in nanoseconds
    /// (`tcp-socket.set-keep-alive-idle-time`): brought into one second to 32,767 seconds. 0:
    /// `InvalidArgument`, in any state. Other errors are those of `set_option`.
    pub fn set_keep_alive_idle_time<W: World>(
        &mut self,
        world: &mut W,
        op: OpId,
        value: u64,
    ) -> Result<(), Refusal>
        requires { (W.seen world.old).ended ≡ false }
        ensures asked { AsksFor (set_option_asks op self.old Opt.KeepAliveIdleTime value)
            (W.seen world.old) (W.seen world.new) (λ answer. (answer, self.new)) (outcome result) }
        ensures same { self.new ≡ self.old }
        ensures side { side_of self.new ≡ side_of self.old }
        ensures unasked { OnErr (outcome result) (W.seen world.new ≡ W.seen world.old) }
    {
        self.set_option(world, op, Setting::KeepAliveIdleTime(value))
    }

    /// The time from one probe to the next, in nanoseconds (`tcp-socket.keep-alive-interval`).
    /// Errors are those of `get_option`.
    pub fn keep_alive_interval<W: World>(&self, world: &mut W, op: OpId) -> Result<u64, Refusal>
        requires { (W.seen world.old).ended ≡ false }
        ensures asked { AsksFor (get_option_asks op self.now Opt.KeepAliveInterval)
            (W.seen world.old) (W.seen world.new) (λ answer. (answer, self.now)) (outcome result) }
        ensures unasked { OnErr (outcome result) (W.seen world.new ≡ W.seen world.old) }
    {
        self.get_option(world, op, Opt::KeepAliveInterval)
    }

    /// The time from one probe to the next, in nanoseconds (`tcp-socket.set-keep-alive-interval`):
    /// brought into one second to 32,767 seconds. 0: `InvalidArgument`, in any state. Other errors
    /// are those of `set_option`.
    pub fn set_keep_alive_interval<W: World>(
        &mut self,
        world: &mut W,
        op: OpId,
        value: u64,
    ) -> Result<(), Refusal>
        requires { (W.seen world.old).ended ≡ false }
        ensures asked { AsksFor (set_option_asks op self.old Opt.KeepAliveInterval value)
            (W.seen world.old) (W.seen world.new) (λ answer. (answer, self.new)) (outcome result) }
        ensures same { self.new ≡ self.old }
        ensures side { side_of self.new ≡ side_of self.old }
        ensures unasked { OnErr (outcome result) (W.seen world.new ≡ W.seen world.old) }
    {
        self.set_option(world, op, Setting::KeepAliveInterval(value))
    }

    /// How many probes without an answer end a connection (`tcp-socket.keep-alive-count`). A number
    /// above 4,294,967,295 that is reported: `NotSupported`. Other errors are those of
    /// `get_option`.
    pub fn keep_alive_count<W: World>(&self, world: &mut W, op: OpId) -> Result<u32, Refusal>
        requires { (W.seen world.old).ended ≡ false }
        ensures asked { AsksFor (get_option_asks op self.now Opt.KeepAliveCount) (W.seen world.old)
            (W.seen world.new) (λ answer. (answer, self.now)) (outcome result) }
        ensures unasked { OnErr (outcome result) (W.seen world.new ≡ W.seen world.old) }
    {
        let value = self.get_option(world, op, Opt::KeepAliveCount)?;
        Ok(value as u32)
    }

    /// How many probes without an answer are to end a connection
    /// (`tcp-socket.set-keep-alive-count`): brought into 1 to
    /// 127. 0: `InvalidArgument`, in any state. Other errors are those of `set_option`.
    pub fn set_keep_alive_count<W: World>(
        &mut self,
        world: &mut W,
        op: OpId,
        value: u32,
    ) -> Result<(), Refusal>
        requires { (W.seen world.old).ended ≡ false }
        ensures asked { AsksFor (set_option_asks op self.old Opt.KeepAliveCount value)
            (W.seen world.old) (W.seen world.new) (λ answer. (answer, self.new)) (outcome result) }
        ensures same { self.new ≡ self.old }
        ensures side { side_of self.new ≡ side_of self.old }
        ensures unasked { OnErr (outcome result) (W.seen world.new ≡ W.seen world.old) }
    {
        self.set_option(world, op, Setting::KeepAliveCount(value))
    }

    /// How many hops a packet lives (`tcp-socket.hop-limit`). A number above 255 that is reported:
    /// `NotSupported`. Other errors are those of `get_option`.
    pub fn hop_limit<W: World>(&self, world: &mut W, op: OpId) -> Result<u8, Refusal>
        requires { (W.seen world.old).ended ≡ false }
        ensures asked { AsksFor (get_option_asks op self.now Opt.HopLimit) (W.seen world.old)
            (W.seen world.new) (λ answer. (answer, self.now)) (outcome result) }
        ensures unasked { OnErr (outcome result) (W.seen world.new ≡ W.seen world.old) }
    {
        let value = self.get_option(world, op, Opt::HopLimit)?;
        Ok(value as u8)
    }

    /// How many hops a packet is to live (`tcp-socket.set-hop-limit`): set as it is. 0:
    /// `InvalidArgument`, where the state allows a set. Other errors are those of `set_option`.
    pub fn set_hop_limit<W: World>(
        &mut self,
        world: &mut W,
        op: OpId,
        value: u8,
    ) -> Result<(), Refusal>
        requires { (W.seen world.old).ended ≡ false }
        ensures asked { AsksFor (set_option_asks op self.old Opt.HopLimit value) (W.seen world.old)
            (W.seen world.new) (λ answer. (answer, self.new)) (outcome result) }
        ensures same { self.new ≡ self.old }
        ensures side { side_of self.new ≡ side_of self.old }
        ensures unasked { OnErr (outcome result) (W.seen world.new ≡ W.seen world.old) }
    {
        self.set_option(world, op, Setting::HopLimit(value))
    }

    /// The size of the buffer for what comes in, in bytes (`tcp-socket.receive-buffer-size`): half
    /// of what is reported. Errors are those of `get_option`.
    pub fn receive_buffer_size<W: World>(&self, world: &mut W, op: OpId) -> Result<u64, Refusal>
        requires { (W.seen world.old).ended ≡ false }
        ensures asked { AsksFor (get_option_asks op self.now Opt.ReceiveBufferSize)
            (W.seen world.old) (W.seen world.new) (λ answer. (answer, self.now)) (outcome result) }
        ensures unasked { OnErr (outcome result) (W.seen world.new ≡ W.seen world.old) }
    {
        self.get_option(world, op, Opt::ReceiveBufferSize)
    }

    /// The size of the buffer for what comes in, in bytes (`tcp-socket.set-receive-buffer-size`):
    /// brought into 1 to 2,147,483,647. 0: `InvalidArgument`, where the state allows a set. Other
    /// errors are those of `set_option`.
    pub fn set_receive_buffer_size<W: World>(
        &mut self,
        world: &mut W,
        op: OpId,
        value: u64,
    ) -> Result<(), Refusal>
        requires { (W.seen world.old).ended ≡ false }
        ensures asked { AsksFor (set_option_asks op self.old Opt.ReceiveBufferSize value)
            (W.seen world.old) (W.seen world.new) (λ answer. (answer, self.new)) (outcome result) }
        ensures same { self.new ≡ self.old }
        ensures side { side_of self.new ≡ side_of self.old }
        ensures unasked { OnErr (outcome result) (W.seen world.new ≡ W.seen world.old) }
    {
        self.set_option(world, op, Setting::ReceiveBufferSize(value))
    }

    /// The size of the buffer for what goes out, in bytes (`tcp-socket.send-buffer-size`): half of
    /// what is reported. Errors are those of `get_option`.
    pub fn send_buffer_size<W: World>(&self, world: &mut W, op: OpId) -> Result<u64, Refusal>
        requires { (W.seen world.old).ended ≡ false }
        ensures asked { AsksFor (get_option_asks op self.now Opt.SendBufferSize) (W.seen world.old)
            (W.seen world.new) (λ answer. (answer, self.now)) (outcome result) }
        ensures unasked { OnErr (outcome result) (W.seen world.new ≡ W.seen world.old) }
    {
        self.get_option(world, op, Opt::SendBufferSize)
    }

    /// The size of the buffer for what goes out, in bytes (`tcp-socket.set-send-buffer-size`):
    /// brought into 1 to 2,147,483,647. 0: `InvalidArgument`, where the state allows a set. Other
    /// errors are those of `set_option`.
    pub fn set_send_buffer_size<W: World>(
        &mut self,
        world: &mut W,
        op: OpId,
        value: u64,
    ) -> Result<(), Refusal>
        requires { (W.seen world.old).ended ≡ false }
        ensures asked { AsksFor (set_option_asks op self.old Opt.SendBufferSize value)
            (W.seen world.old) (W.seen world.new) (λ answer. (answer, self.new)) (outcome result) }
        ensures same { self.new ≡ self.old }
        ensures side { side_of self.new ≡ side_of self.old }
        ensures unasked { OnErr (outcome result) (W.seen world.new ≡ W.seen world.old) }
    {
        self.set_option(world, op, Setting::SendBufferSize(value))
    }
}

/// The options that a listener would have to set on each connection that it accepts. The systems
/// that are served hand all options of a listener on to its connections, so it keeps none.
#[derive(Clone, Copy, Debug, Default, PartialEq, Eq)]
pub struct NonInheritedOptions;

impl NonInheritedOptions {
    /// A time in nanoseconds, which is discarded.
    pub fn set_keep_alive_idle_time(&mut self, _value: u64)
        ensures { self.new ≡ self.old }
    {}

    /// A number of hops, which is discarded.
    pub fn set_hop_limit(&mut self, _value: u8)
        ensures { self.new ≡ self.old }
    {}

    /// A size in bytes, which is discarded.
    pub fn set_receive_buffer_size(&mut self, _value: usize)
        ensures { self.new ≡ self.old }
    {}

    /// A size in bytes, which is discarded.
    pub fn set_send_buffer_size(&mut self, _value: usize)
        ensures { self.new ≡ self.old }
    {}
}
