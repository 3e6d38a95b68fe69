//! The limits of contexts on the bytes that their writers hold or are permitted.

ghost use Rattle.std.specs.Prelude.{◌≡◌, ◌==◌, option_map, OnOk, OnErr};
ghost use Rattle.std.specs.List.{find};
ghost use Rattle.host_store.specs.Limits.{limit_in, with_limit_by};

use std::alloc::AllocError;
use wasi_world::WasiSocketsCtx;

/// The limit of a context, as it was when room was first made for a socket of it.
#[derive(Clone, Copy)]
pub struct Limit {
    pub context: u32,
    pub most: u64,
}

/// What is kept of a context. Takes no memory.
fn kept_of(limits: &[Limit], context: u32) -> Option<&Limit>
    ensures { option_map (λ limit. limit.now) result
        ≡ find (λ limit. limit.context == context) limits.now }
{
    limits.iter().find(|limit| limit.context == context)
}

/// The limit that is kept of a context. Takes no memory.
pub fn limit_of(limits: &[Limit], context: u32) -> Option<u64>
    ensures { result ≡ limit_in limits.now context }
{
    let kept = kept_of(limits, context)?;
    Some(kept.most)
}

/// Keeps the limit of a context, unless one is kept. Out of memory, none is kept that wasn't.
pub fn keep_limit(limits: &mut Vec<Limit>, ctx: &WasiSocketsCtx) -> Result<(), AllocError>
    ensures kept { OnOk result (limits.new.items ≡ with_limit_by limits.old.items ctx.now
        (limit_in limits.old.items ctx.now.name)) }
    ensures err { OnErr result (limits.new.items ≡ limits.old.items) }
{
    if limit_of(limits.as_slice(), ctx.name).is_some() {
        return Ok(());
    }
    limits.push(Limit {
        context: ctx.name,
        most: ctx.write_limit,
    })?;
    Ok(())
}
