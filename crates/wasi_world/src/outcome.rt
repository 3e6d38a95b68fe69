//! How calls end, and what a guest is allowed.

ghost use Rattle.std.specs.Prelude.{◌≡◌};
ghost use Rattle.wasi_world.specs.Contexts.{default_context};

use std::alloc::AllocError;
use thiserror::Error;
use wasi_addr::ErrorCode;

/// A poll's answer: a value, or nothing yet.
#[derive(Clone, Copy, Debug, PartialEq, Eq)]
pub enum Answer<T> {
    /// The operation is done, with this value.
    Ready(T),
    /// The operation isn't done: poll again.
    Pending,
}

/// Why an operation on a socket was refused: a code, or out of memory.
#[derive(Debug, Drop, Error)]
pub enum Refusal {
    #[error("refused: {0}")]
    Code(ErrorCode),
    #[error("out of memory")]
    Memory(AllocError),
}

impl From<AllocError> for Refusal {
    ghost use Rattle.std.specs.Prelude.{◌≡◌};
    ghost use Rattle.wasi_world.specs.declared.outcome.Refusal.TheVariants.{Memory};

    ghost from_gives = { λ e refusal. refusal ≡ Memory e };

    fn from(e: AllocError) -> Refusal {
        Refusal::Memory(e)
    }
}

/// Why a guest's call ends its run.
#[derive(Clone, Copy, Debug, PartialEq, Eq, Error)]
pub enum TrapKind {
    /// A handle that isn't live, or is of the wrong kind.
    #[error("no such handle")]
    NoSuchHandle,
    /// A resource with a live child was dropped.
    #[error("the handle has live children")]
    HasChildren,
    /// 65,536 handles are live, or 4,294,967,294 were made.
    #[error("the table of handles is full")]
    Full,
    /// A poll of no pollable.
    #[error("the list of pollables is empty")]
    EmptyList,
    /// A write of more than its permit, or without one.
    #[error("more was written than was permitted")]
    NotPermitted,
    /// A write of more than is free in a pipe.
    #[error("more was written than the pipe has room for")]
    Capacity,
    /// A blocking write of more than 4096 bytes.
    #[error("more than 4096 bytes in one blocking write")]
    TooLong,
    /// New datagram streams were asked for while the earlier ones of that socket are live.
    #[error("the socket has live datagram streams")]
    StreamsAlive,
    /// A write of more than the stream's budget.
    #[error("more was written than the budget allows")]
    Budget,
    /// A write while a flush is pending.
    #[error("a flush is pending")]
    FlushPending,
}

/// A guest's context: its number, which checks name, what it may use, and how much it may leave
/// unwritten (`WasiSocketsCtx`). The default is context 0, which is allowed nothing.
#[derive(Clone, Copy, Debug, PartialEq, Eq)]
pub struct WasiSocketsCtx {
    pub name: u32,
    pub ip_name_lookup: bool,
    pub udp: bool,
    pub tcp: bool,
    /// How many bytes the writers of its TCP sockets of 0.2 may hold or be permitted, all together.
    pub write_limit: u64,
}

impl Default for WasiSocketsCtx {
    ghost is_default = { λ ctx. ctx ≡ default_context };

    /// Context 0, which is allowed nothing; no sum of bytes reaches its limit.
    fn default() -> WasiSocketsCtx {
        WasiSocketsCtx {
            name: 0,
            ip_name_lookup: false,
            udp: false,
            tcp: false,
            write_limit: u64::MAX,
        }
    }
}
