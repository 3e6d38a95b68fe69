//! The calls of streams, pipes and pollables.

ghost use Rattle.std.specs.Prelude.{◌≡◌, is_some, false};
ghost use Rattle.wasi_world.specs.Asks.{AsksFor};
ghost use Rattle.host_store.specs.KnownSides.{KnowsSides};
ghost use Rattle.host_store.specs.Views.{SameView, state_of};
ghost use Rattle.wasi_machine.specs.Machine.{first_ids, call_asks};
ghost use Rattle.record_common.specs.Stops.{fault_outcome, host_outcome};
ghost use Rattle.wasi_steps.specs.declared.guest_call.GuestCall.TheVariants as guest;

use host_store::WasiSocketsCtxView;
use record_common::SocketError;
use std::alloc::{AllocError, Global};
use wasi_machine::replies::{answer_reply, blocked_reply, reply_of, stream_reply_of};
use wasi_steps::{PipeCall, PollableCall, Reply, StreamCall};
use wasi_streams::Fault;
use wasi_world::{Ids, World};

/// Makes a call of a stream of bytes.
pub(crate) fn stream_call<W: World>(
    alloc: Global,
    view: &mut WasiSocketsCtxView<'_>,
    world: &mut W,
    ids: &mut Ids,
    call: StreamCall,
) -> Result<Reply, AllocError>
    requires open { (W.seen world.old).ended ≡ false }
    requires first { ids.old ≡ first_ids ids.old.line }
    requires free { is_some view.old.store.now.standing ≡ false }
    ensures asked { AsksFor (call_asks view.old.ctx.now (state_of view.old) ids.old.line
        (guest.Stream call)) (W.seen world.old) (W.seen world.new)
        (λ reply. (reply, state_of view.new)) result }
    ensures sides { KnowsSides (W.seen world.old) view.old.store.now
        → KnowsSides (W.seen world.new) view.new.store.now }
    ensures view { SameView view.old view.new }
{
    match call {
        StreamCall::Read { input, len } => {
            let read = host_streams::read(alloc, view, world, ids, input, len);
            stream_reply_of(alloc, read)
        }
        StreamCall::CheckWrite { output } => {
            let permit = host_streams::check_write(view, world, ids, output);
            stream_reply_of(alloc, permit)
        }
        StreamCall::Write { output, bytes } => {
            let written = host_streams::write(view, world, ids, output, bytes);
            stream_reply_of(alloc, written)
        }
        StreamCall::Flush { output } => {
            let flushed = host_streams::flush(view, world, ids, output);
            stream_reply_of(alloc, flushed)
        }
        StreamCall::Skip { input, len } => {
            let skipped = host_streams::skip(alloc, view, world, ids, input, len);
            stream_reply_of(alloc, skipped)
        }
        StreamCall::WriteZeroes { output, len } => {
            let written = host_streams::write_zeroes(alloc, view, world, ids, output, len);
            stream_reply_of(alloc, written)
        }
        StreamCall::Splice { output, input, len } => {
            let spliced = host_streams::splice(alloc, view, world, ids, output, input, len);
            stream_reply_of(alloc, spliced)
        }
        StreamCall::BlockingRead { input, len } => {
            let read = host_streams::blocking_read(alloc, view, world, ids, input, len);
            blocked_reply(alloc, ids.line, read)
        }
        StreamCall::BlockingSkip { input, len } => {
            let skipped = host_streams::blocking_skip(alloc, view, world, ids, input, len);
            blocked_reply(alloc, ids.line, skipped)
        }
        StreamCall::BlockingWrite { output, bytes } => {
            let written = host_streams::blocking_write_and_flush(
                alloc, view, world, ids, output, bytes,
            );
            blocked_reply(alloc, ids.line, written)
        }
        StreamCall::BlockingZeroes { output, len } => {
            let written = host_streams::blocking_write_zeroes_and_flush(
                alloc, view, world, ids, output, len,
            );
            blocked_reply(alloc, ids.line, written)
        }
        StreamCall::BlockingFlush { output } => {
            let flushed = host_streams::blocking_flush(view, world, ids, output);
            blocked_reply(alloc, ids.line, flushed)
        }
        StreamCall::BlockingSplice { output, input, len } => {
            let spliced = host_streams::blocking_splice(
                alloc, view, world, ids, output, input, len,
            );
            blocked_reply(alloc, ids.line, spliced)
        }
    }
}

/// Makes a pipe or another stream in memory, or tells what a pipe holds.
pub(crate) fn pipe_call<W: World>(
    alloc: Global,
    view: &mut WasiSocketsCtxView<'_>,
    world: &mut W,
    ids: &mut Ids,
    call: PipeCall,
) -> Result<Reply, AllocError>
    requires open { (W.seen world.old).ended ≡ false }
    requires first { ids.old ≡ first_ids ids.old.line }
    requires free { is_some view.old.store.now.standing ≡ false }
    ensures asked { AsksFor (call_asks view.old.ctx.now (state_of view.old) ids.old.line
        (guest.Pipe call)) (W.seen world.old) (W.seen world.new)
        (λ reply. (reply, state_of view.new)) result }
    ensures sides { KnowsSides (W.seen world.old) view.old.store.now
        → KnowsSides (W.seen world.new) view.new.store.now }
    ensures view { SameView view.old view.new }
{
    match call {
        PipeCall::In { bytes } => {
            let made = host_streams::make_input_pipe(view, world, ids, bytes);
            reply_of(alloc, socket_result(made))
        }
        PipeCall::Out { capacity } => {
            let made = host_streams::make_output_pipe(alloc, view, world, ids, capacity as usize);
            reply_of(alloc, socket_result(made))
        }
        PipeCall::Contents { output } => {
            let contents = host_streams::pipe_contents(alloc, view, output);
            reply_of(alloc, socket_result(contents))
        }
        PipeCall::Sink => {
            let made = host_streams::make_sink(view, world, ids);
            reply_of(alloc, socket_result(made))
        }
        PipeCall::ClosedIn => {
            let made = host_streams::make_closed_input(view, world, ids);
            reply_of(alloc, socket_result(made))
        }
        PipeCall::ClosedOut => {
            let made = host_streams::make_closed_output(view, world, ids);
            reply_of(alloc, socket_result(made))
        }
    }
}

/// Makes a call of a pollable, or drops a handle.
pub(crate) fn pollable_call<W: World>(
    alloc: Global,
    view: &mut WasiSocketsCtxView<'_>,
    world: &mut W,
    ids: &mut Ids,
    call: PollableCall,
) -> Result<Reply, AllocError>
    requires open { (W.seen world.old).ended ≡ false }
    requires first { ids.old ≡ first_ids ids.old.line }
    requires free { is_some view.old.store.now.standing ≡ false }
    ensures asked { AsksFor (call_asks view.old.ctx.now (state_of view.old) ids.old.line
        (guest.Pollable call)) (W.seen world.old) (W.seen world.new)
        (λ reply. (reply, state_of view.new)) result }
    ensures sides { KnowsSides (W.seen world.old) view.old.store.now
        → KnowsSides (W.seen world.new) view.new.store.now }
    ensures view { SameView view.old view.new }
{
    match call {
        PollableCall::Subscribe { handle } => {
            let made = wasi_host::subscribe(view, world, ids, handle);
            reply_of(alloc, socket_result(made))
        }
        PollableCall::Ready { pollable } => {
            let ready = wasi_host::ready(view, world, ids, pollable);
            reply_of(alloc, socket_result(ready))
        }
        PollableCall::Block { pollable } => {
            let answer = wasi_host::block(view, world, ids, pollable);
            answer_reply(alloc, ids.line, socket_result(answer))
        }
        PollableCall::Drop { handle } => {
            let answer = wasi_host::drop_handle(view, world, ids, handle);
            answer_reply(alloc, ids.line, socket_result(answer))
        }
        PollableCall::PollList { pollables } => {
            let answer = wasi_host::poll(alloc, view, world, ids, pollables);
            answer_reply(alloc, ids.line, socket_result(answer))
        }
    }
}

/// The result of a call that returns no codes, as that of one that may.
fn socket_result<T: Drop>(done: Result<T, Fault>) -> Result<T, SocketError>
    ensures { host_outcome result ≡ fault_outcome done }
{
    Ok(done?)
}
