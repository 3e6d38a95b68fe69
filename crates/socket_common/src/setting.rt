//! What an option is set to.

ghost use Rattle.std.specs.Prelude.{◌≡◌};
ghost use Rattle.socket_common.specs.Options.{zero_test, refused_before, refused_after, value_set};
ghost use Rattle.socket_common.specs.Options.{option_of, number_of};

use wasi_addr::{clamp_keep_alive_count, clamp_keep_alive_time, normalize_set_buffer_size};
use wasi_world::Opt;

/// An option with the value to set, in the type that the interface gives it.
#[derive(Clone, Copy, Debug, PartialEq, Eq)]
pub enum Setting {
    /// Whether keep-alive probes are sent.
    KeepAliveEnabled(bool),
    /// How long a connection is idle before the first probe, in nanoseconds.
    KeepAliveIdleTime(u64),
    /// The time between probes, in nanoseconds.
    KeepAliveInterval(u64),
    /// How many probes are sent.
    KeepAliveCount(u32),
    /// How many hops a packet may take.
    HopLimit(u8),
    /// The size of the receive buffer, in bytes.
    ReceiveBufferSize(u64),
    /// The size of the send buffer, in bytes.
    SendBufferSize(u64),
}

impl Setting {
    /// The option that is set.
    pub fn option(self) -> Opt
        ensures { result ≡ option_of self }
    {
        match self {
            Setting::KeepAliveEnabled(_) => Opt::KeepAliveEnabled,
            Setting::KeepAliveIdleTime(_) => Opt::KeepAliveIdleTime,
            Setting::KeepAliveInterval(_) => Opt::KeepAliveInterval,
            Setting::KeepAliveCount(_) => Opt::KeepAliveCount,
            Setting::HopLimit(_) => Opt::HopLimit,
            Setting::ReceiveBufferSize(_) => Opt::ReceiveBufferSize,
            Setting::SendBufferSize(_) => Opt::SendBufferSize,
        }
    }

    /// Whether the value is refused before the socket's state is looked at: 0 for a time or a
    /// number of probes.
    pub fn refused_before_state(self) -> bool
        ensures { result ≡ refused_before (zero_test (option_of self)) (number_of self) }
    {
        match self {
            Setting::KeepAliveIdleTime(value) | Setting::KeepAliveInterval(value) => value == 0,
            Setting::KeepAliveCount(value) => value == 0,
            Setting::KeepAliveEnabled(_)
            | Setting::HopLimit(_)
            | Setting::ReceiveBufferSize(_)
            | Setting::SendBufferSize(_) => false,
        }
    }

    /// Whether the value is refused once the socket's state allows a set: 0 for the hop limit or a
    /// size.
    pub(crate) fn refused_after_state(self) -> bool
        ensures { result ≡ refused_after (zero_test (option_of self)) (number_of self) }
    {
        match self {
            Setting::HopLimit(value) => value == 0,
            Setting::ReceiveBufferSize(value) | Setting::SendBufferSize(value) => value == 0,
            Setting::KeepAliveEnabled(_)
            | Setting::KeepAliveIdleTime(_)
            | Setting::KeepAliveInterval(_)
            | Setting::KeepAliveCount(_) => false,
        }
    }

    /// The number that the network is given: times, sizes and numbers of probes are brought into
    /// their ranges, and yes is 1.
    pub(crate) fn value_set(self) -> u64
        ensures { result ≡ value_set (option_of self) (number_of self) }
    {
        match self {
            Setting::KeepAliveEnabled(value) => u64::from(value),
            Setting::KeepAliveIdleTime(value) => clamp_keep_alive_time(value),
            Setting::KeepAliveInterval(value) => clamp_keep_alive_time(value),
            Setting::KeepAliveCount(value) => u64::from(clamp_keep_alive_count(value)),
            Setting::HopLimit(value) => u64::from(value),
            Setting::ReceiveBufferSize(value) => normalize_set_buffer_size(value),
            Setting::SendBufferSize(value) => normalize_set_buffer_size(value),
        }
    }
}
