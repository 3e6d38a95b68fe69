//! Limits on the values of socket options (functions of `wasmtime-wasi`'s `sockets` module).

ghost use Rattle.std.specs.Prelude.{◌≡◌};
ghost use Rattle.wasi_addr.specs.Clamp.{clamped_keep_alive_time, clamped_keep_alive_count};
ghost use Rattle.wasi_addr.specs.Clamp.{clamped_backlog, clamped_buffer_size, halved_buffer_size};

const SECOND: u64 = 1_000_000_000;

const LARGEST_INT: u64 = 2_147_483_647;

/// A keep-alive time in nanoseconds, brought into one second to 32,767 seconds: the times that
/// Linux takes.
pub fn clamp_keep_alive_time(value: u64) -> u64
    ensures { result ≡ clamped_keep_alive_time value }
{
    value.clamp(SECOND, 32_767 * SECOND)
}

/// A number of keep-alive probes, brought into 1 to 127: the numbers that Linux takes.
pub fn clamp_keep_alive_count(value: u32) -> u32
    ensures { result ≡ clamped_keep_alive_count value }
{
    value.clamp(1, 127)
}

/// A backlog (the length of the queue of arrivals), brought into 1 to 2,147,483,647, the positive
/// numbers of a C `int`. The crate `wasmtime-wasi` has no such call.
pub fn clamp_backlog(value: u64) -> u32
    ensures { result ≡ clamped_backlog value }
{
    value.clamp(1, LARGEST_INT) as u32
}

/// The buffer size to set, in bytes, for a size that the guest asks for: brought into 1 to
/// 2,147,483,647.
pub fn normalize_set_buffer_size(value: u64) -> u64
    ensures { result ≡ clamped_buffer_size value }
{
    value.clamp(1, LARGEST_INT)
}

/// The buffer size to report to the guest, in bytes, for a size that the system reports: half of
/// it, since Linux doubles what is set.
pub fn normalize_get_buffer_size(value: u64) -> u64
    ensures { result ≡ halved_buffer_size value }
{
    value / 2
}
