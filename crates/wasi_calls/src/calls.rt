//! The calls that a script's steps make, over a view of the line's context, the table and the
//! store.

ghost use Rattle.std.specs.Prelude.{◌≡◌, ◌&&◌, is_some, false};
ghost use Rattle.wasi_world.specs.Asks.{AsksFor};
ghost use Rattle.host_store.specs.KnownSides.{KnowsSides};
ghost use Rattle.host_store.specs.Views.{SameView, state_of};
ghost use Rattle.wasi_machine.specs.Machine.{first_ids, machine_asks};
ghost use Rattle.wasi_machine.specs.Machine.{is_held_up, polls_beside, asks_in, call_asks};
ghost use Rattle.wasi_machine.specs.Machine.{context_at, context_for};

use crate::p3_calls::{p3_name_call, p3_tcp_call, p3_udp_call};
use crate::socket_calls::{name_call, tcp_call, udp_call};
use crate::stream_calls::{pipe_call, pollable_call, stream_call};
use host_store::{Kind, Machine, Store, WasiSocketsCtxView};
use std::alloc::{AllocError, Global};
use wasi_machine::replies::{cancelled_reply, resumed_reply};
use wasi_steps::{GuestCall, Reply, Step};
use wasi_table::Table;
use wasi_world::{Ids, WasiSocketsCtx, World};

/// Whether the step polls a call that stands beside the exclusive one.
fn polls_beside(store: &Store, step: &Step) -> bool
    ensures { result ≡ polls_beside store.now step.now }
{
    match step {
        Step::Poll { line } => !store.is_exclusive(*line) && store.stands_beside(*line),
        Step::Call { .. } | Step::Turn | Step::Cancel { .. } => false,
    }
}

/// Whether the step has to wait for the exclusive call that is pending: it is a call of a guest, or
/// polls a call beside it.
fn is_held_up(store: &Store, step: &Step) -> bool
    ensures { result ≡ (is_some store.now.standing && is_held_up store.now step.now) }
{
    store.exclusive().is_some() && (step.context().is_some() || polls_beside(store, step))
}

/// Does one step, the line with this number, and returns its reply. While an exclusive call is
/// pending every other guest call answers `busy`, and so does a poll of a call beside it. Takes
/// memory for the reply.
#[inline(always)]
pub fn do_step<W: World>(
    alloc: Global,
    machine: &mut Machine,
    world: &mut W,
    contexts: &[WasiSocketsCtx],
    line: u32,
    step: Step,
) -> Result<Reply, AllocError>
    requires { (W.seen world.old).ended ≡ false }
    ensures asked { AsksFor (machine_asks contexts.now machine.old line step) (W.seen world.old)
        (W.seen world.new) (λ reply. (reply, machine.new)) result }
    ensures sides { KnowsSides (W.seen world.old) machine.old.store
        → KnowsSides (W.seen world.new) machine.new.store }
{
    if is_held_up(&machine.store, &step) {
        return Ok(Reply::Busy);
    }
    let mut ctx = context_for(contexts, step.context());
    let mut ids = Ids { line, next_part: 1 };
    let table = &mut machine.table;
    let store = &mut machine.store;
    do_call(alloc, &mut ctx, table, store, world, &mut ids, step)
}

/// Makes the view of a context, a table and a store, and does the step in it.
#[inline(always)]
fn do_call<W: World>(
    alloc: Global,
    ctx: &mut WasiSocketsCtx,
    table: &mut Table<Kind>,
    store: &mut Store,
    world: &mut W,
    ids: &mut Ids,
    step: Step,
) -> Result<Reply, AllocError>
    requires open { (W.seen world.old).ended ≡ false }
    requires first { ids.old ≡ first_ids ids.old.line }
    requires free { (is_some store.old.standing && is_held_up store.old step) ≡ false }
    ensures asked { AsksFor (asks_in ctx.old (record { table = table.old; store = store.old })
        ids.old.line step) (W.seen world.old) (W.seen world.new)
        (λ reply. (reply, record { table = table.new; store = store.new })) result }
    ensures sides { KnowsSides (W.seen world.old) store.old
        → KnowsSides (W.seen world.new) store.new }
{
    let mut view = WasiSocketsCtxView { ctx, table, store };
    call(alloc, &mut view, world, ids, step)
}

/// Does a step in the view.
fn call<W: World>(
    alloc: Global,
    view: &mut WasiSocketsCtxView<'_>,
    world: &mut W,
    ids: &mut Ids,
    step: Step,
) -> Result<Reply, AllocError>
    requires open { (W.seen world.old).ended ≡ false }
    requires first { ids.old ≡ first_ids ids.old.line }
    requires free { (is_some view.old.store.now.standing && is_held_up view.old.store.now step)
        ≡ false }
    ensures asked { AsksFor (asks_in view.old.ctx.now (state_of view.old) ids.old.line step)
        (W.seen world.old) (W.seen world.new) (λ reply. (reply, state_of view.new)) result }
    ensures sides { KnowsSides (W.seen world.old) view.old.store.now
        → KnowsSides (W.seen world.new) view.new.store.now }
    ensures view { SameView view.old view.new }
{
    match step {
        Step::Call { call, .. } => guest_call(alloc, view, world, ids, call),
        Step::Turn => {
            wasi_host::turn(view, world)?;
            Ok(Reply::done(alloc))
        }
        Step::Poll { line } => {
            let resumed = wasi_host::resume(alloc, view, world, line);
            resumed_reply(alloc, line, resumed)
        }
        Step::Cancel { line } => {
            let cancelled = wasi_host::cancel(view, world, line)?;
            Ok(cancelled_reply(alloc, cancelled))
        }
    }
}

/// Makes the call of a guest.
#[inline(always)]
fn guest_call<W: World>(
    alloc: Global,
    view: &mut WasiSocketsCtxView<'_>,
    world: &mut W,
    ids: &mut Ids,
    call: GuestCall,
) -> Result<Reply, AllocError>
    requires open { (W.seen world.old).ended ≡ false }
    requires first { ids.old ≡ first_ids ids.old.line }
    requires free { is_some view.old.store.now.standing ≡ false }
    ensures asked { AsksFor (call_asks view.old.ctx.now (state_of view.old) ids.old.line call)
        (W.seen world.old) (W.seen world.new) (λ reply. (reply, state_of view.new)) result }
    ensures sides { KnowsSides (W.seen world.old) view.old.store.now
        → KnowsSides (W.seen world.new) view.new.store.now }
    ensures view { SameView view.old view.new }
{
    match call {
        GuestCall::Tcp(call) => tcp_call(alloc, view, world, ids, call),
        GuestCall::Udp(call) => udp_call(alloc, view, world, ids, call),
        GuestCall::Names(call) => name_call(alloc, view, world, ids, call),
        GuestCall::Stream(call) => stream_call(alloc, view, world, ids, call),
        GuestCall::Pipe(call) => pipe_call(alloc, view, world, ids, call),
        GuestCall::Pollable(call) => pollable_call(alloc, view, world, ids, call),
        GuestCall::P3Tcp(call) => p3_tcp_call(alloc, view, world, ids, call),
        GuestCall::P3Udp(call) => p3_udp_call(alloc, view, world, ids, call),
        GuestCall::P3Names(call) => p3_name_call(alloc, view, world, ids, call),
    }
}

/// The context with this number; one that isn't there is allowed nothing.
fn context_at(contexts: &[WasiSocketsCtx], context: u32) -> WasiSocketsCtx
    ensures { result ≡ context_at contexts.now context }
{
    match contexts.get(context as usize) {
        Some(ctx) => *ctx,
        None => WasiSocketsCtx::default(),
    }
}

/// The context of a guest call; a step that no guest makes has one that is allowed nothing.
fn context_for(contexts: &[WasiSocketsCtx], context: Option<u32>) -> WasiSocketsCtx
    ensures { result ≡ context_for contexts.now context }
{
    match context {
        Some(context) => context_at(contexts, context),
        None => WasiSocketsCtx::default(),
    }
}
