//! The options of a UDP socket: the hop limit, and the sizes of the two buffers.

ghost use Rattle.std.specs.Prelude.{◌≡◌, ◌≤◌, false, OnErr, IfOk};
ghost use Rattle.wasi_world.specs.Asks.{AsksFor, outcome};
ghost use Rattle.socket_common.specs.Options.{largest_value, option_of, number_of};

use crate::socket::UdpSocket;
use socket_common::{Setting, get_of_side, set_of_side};
use wasi_addr::ErrorCode;
use wasi_world::{OpId, Opt, Refusal, World};

impl UdpSocket {
    ghost use Rattle.wasi_udp.specs.Options.{get_option_asks, set_option_asks};

    /// Reads an option (the getters of `udp-socket` in `wasi:sockets/udp`): a number of hops, or a
    /// size in bytes. No option is refused: one that only TCP has is asked for, too.
    ///
    /// - A code that the network reports is returned.
    /// - A reported size is halved.
    /// - A reported value above the option's `largest_value` is `NotSupported`.
    pub fn get_option<W: World>(&self, world: &mut W, op: OpId, option: Opt) -> Result<u64, Refusal>
        requires { (W.seen world.old).ended ≡ false }
        ensures asked { AsksFor (get_option_asks op self.now option) (W.seen world.old)
            (W.seen world.new) (λ answer. answer) (outcome result) }
        ensures within { IfOk result (λ answer. answer ≤ largest_value option) }
        ensures unasked { OnErr (outcome result) (W.seen world.new ≡ W.seen world.old) }
    {
        get_of_side(world, op, self.side(), option)
    }

    /// Sets an option (the setters of `udp-socket` in `wasi:sockets/udp`). The socket stays as it
    /// is. No option is refused: one that only TCP has is set, too.
    ///
    /// - 0 is `InvalidArgument`, and nothing is asked.
    /// - A size is brought into its range first.
    /// - A code that the network reports is returned.
    pub fn set_option<W: World>(
        &mut self,
        world: &mut W,
        op: OpId,
        setting: Setting,
    ) -> Result<(), Refusal>
        requires { (W.seen world.old).ended ≡ false }
        ensures asked { AsksFor (set_option_asks op self.old (option_of setting)
            (number_of setting)) (W.seen world.old) (W.seen world.new) (λ answer. answer)
            (outcome result) }
        ensures same { self.new ≡ self.old }
        ensures unasked { OnErr (outcome result) (W.seen world.new ≡ W.seen world.old) }
    {
        if setting.refused_before_state() {
            return Err(Refusal::Code(ErrorCode::InvalidArgument));
        }
        set_of_side(world, op, self.side(), setting)
    }

    /// How many hops a datagram lives (`udp-socket.unicast-hop-limit`). A number above 255 that is
    /// reported: `NotSupported`. Other errors are those of `get_option`.
    pub fn unicast_hop_limit<W: World>(&self, world: &mut W, op: OpId) -> Result<u8, Refusal>
        requires { (W.seen world.old).ended ≡ false }
        ensures asked { AsksFor (get_option_asks op self.now Opt.HopLimit) (W.seen world.old)
            (W.seen world.new) (λ answer. answer) (outcome result) }
        ensures unasked { OnErr (outcome result) (W.seen world.new ≡ W.seen world.old) }
    {
        let value = self.get_option(world, op, Opt::HopLimit)?;
        Ok(value as u8)
    }

    /// How many hops a datagram is to live (`udp-socket.set-unicast-hop-limit`): set as it is. 0:
    /// `InvalidArgument`. Other errors are those of `set_option`.
    pub fn set_unicast_hop_limit<W: World>(
        &mut self,
        world: &mut W,
        op: OpId,
        value: u8,
    ) -> Result<(), Refusal>
        requires { (W.seen world.old).ended ≡ false }
        ensures asked { AsksFor (set_option_asks op self.old Opt.HopLimit value) (W.seen world.old)
            (W.seen world.new) (λ answer. answer) (outcome result) }
        ensures same { self.new ≡ self.old }
        ensures unasked { OnErr (outcome result) (W.seen world.new ≡ W.seen world.old) }
    {
        self.set_option(world, op, Setting::HopLimit(value))
    }

    /// The size of the buffer for what comes in, in bytes (`udp-socket.receive-buffer-size`): half
    /// of what is reported. Errors are those of `get_option`.
    pub fn receive_buffer_size<W: World>(&self, world: &mut W, op: OpId) -> Result<u64, Refusal>
        requires { (W.seen world.old).ended ≡ false }
        ensures asked { AsksFor (get_option_asks op self.now Opt.ReceiveBufferSize)
            (W.seen world.old) (W.seen world.new) (λ answer. answer) (outcome result) }
        ensures unasked { OnErr (outcome result) (W.seen world.new ≡ W.seen world.old) }
    {
        self.get_option(world, op, Opt::ReceiveBufferSize)
    }

    /// The size of the buffer for what comes in, in bytes (`udp-socket.set-receive-buffer-size`):
    /// brought into 1 to 2,147,483,647. 0: `InvalidArgument`. Other errors are those of
    /// `set_option`.
    pub fn set_receive_buffer_size<W: World>(
        &mut self,
        world: &mut W,
        op: OpId,
        value: u64,
    ) -> Result<(), Refusal>
        requires { (W.seen world.old).ended ≡ false }
        ensures asked { AsksFor (set_option_asks op self.old Opt.ReceiveBufferSize value)
            (W.seen world.old) (W.seen world.new) (λ answer. answer) (outcome result) }
        ensures same { self.new ≡ self.old }
        ensures unasked { OnErr (outcome result) (W.seen world.new ≡ W.seen world.old) }
    {
        self.set_option(world, op, Setting::ReceiveBufferSize(value))
    }

    /// The size of the buffer for what goes out, in bytes (`udp-socket.send-buffer-size`): half of
    /// what is reported. Errors are those of `get_option`.
    pub fn send_buffer_size<W: World>(&self, world: &mut W, op: OpId) -> Result<u64, Refusal>
        requires { (W.seen world.old).ended ≡ false }
        ensures asked { AsksFor (get_option_asks op self.now Opt.SendBufferSize) (W.seen world.old)
            (W.seen world.new) (λ answer. answer) (outcome result) }
        ensures unasked { OnErr (outcome result) (W.seen world.new ≡ W.seen world.old) }
    {
        self.get_option(world, op, Opt::SendBufferSize)
    }

    /// The size of the buffer for what goes out, in bytes (`udp-socket.set-send-buffer-size`):
    /// brought into 1 to 2,147,483,647. 0: `InvalidArgument`. Other errors are those of
    /// `set_option`.
    pub fn set_send_buffer_size<W: World>(
        &mut self,
        world: &mut W,
        op: OpId,
        value: u64,
    ) -> Result<(), Refusal>
        requires { (W.seen world.old).ended ≡ false }
        ensures asked { AsksFor (set_option_asks op self.old Opt.SendBufferSize value)
            (W.seen world.old) (W.seen world.new) (λ answer. answer) (outcome result) }
        ensures same { self.new ≡ self.old }
        ensures unasked { OnErr (outcome result) (W.seen world.new ≡ W.seen world.old) }
    {
        self.set_option(world, op, Setting::SendBufferSize(value))
    }
}
