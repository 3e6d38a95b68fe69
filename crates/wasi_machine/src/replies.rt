//! The replies of calls.

ghost use Rattle.std.specs.Prelude.{◌≡◌, IfOk, IsOkAnd};
ghost use Rattle.host_store.specs.CallStops.{Failed, call_outcome, IsCallStop};
ghost use Rattle.record_common.specs.Stops.{host_outcome, IsStop};
ghost use Rattle.wasi_machine.specs.Machine.{reply_of, stream_reply_of, answer_reply_of};
ghost use Rattle.wasi_machine.specs.Machine.{blocked_reply_of, cancelled_reply, stop_reply};
ghost use Rattle.wasi_machine.specs.Machine.{call_stop_reply, outcome_reply, resumed_reply};
ghost use Rattle.wasi_machine.specs.Machine.{p3_reply, p3_answer_reply, stop_as};
ghost use Rattle.wasi_machine.specs.Machine.{stream_result_reply, slot_reply, lookup_reply};
ghost use Rattle.wasi_p3.specs.Stops.{ends_as, IsStopOf};
ghost use Rattle.wasi_steps.specs.Reply.{word_of_p3, word_of_lookup};

use host_store::{CallError, LookupError};
use record_common::SocketError;
use std::alloc::{AllocError, Global};
use tcp_records::StreamResult;
use wasi_addr::{ErrorCode, p2, p3};
use wasi_host::Outcome;
use wasi_steps::{CodeWord, IntoFields, Reply};
use wasi_world::{Answer, Handle, IpList};

/// `ok` with the fields of this value. Takes memory for them.
fn ok<T: IntoFields>(alloc: Global, value: T) -> Result<Reply, AllocError>
    ensures { IfOk result (λ reply. reply ≡ Reply.Ok (T.fields value)) }
{
    Ok(Reply::Ok(value.into_fields(alloc)?))
}

/// The reply of a call: `ok` with its value, the word of its code, or its trap. Takes memory for
/// the fields. The only error is out of memory, the call's own too.
pub fn reply_of<T: IntoFields>(
    alloc: Global,
    answer: Result<T, SocketError>,
) -> Result<Reply, AllocError>
    ensures { IfOk result (λ reply. IsOkAnd (host_outcome answer)
        (λ x. reply ≡ reply_of T.fields x)) }
{
    match answer {
        Ok(value) => ok(alloc, value),
        Err(error) => stop_reply(error),
    }
}

/// The reply of a call of 0.3: `ok` with its value, the word of its code, or its trap. Takes memory
/// for the fields. The only error is out of memory, the call's own too.
pub fn p3_reply<T: IntoFields>(
    alloc: Global,
    answer: Result<T, wasi_p3::SocketError>,
) -> Result<Reply, AllocError>
    ensures { IfOk result (λ reply. IsOkAnd (ends_as answer) (λ x. reply ≡ p3_reply T.fields x)) }
{
    match answer {
        Ok(value) => ok(alloc, value),
        Err(error) => p3_stop_reply(error),
    }
}

/// The reply of a call of a stream: `ok` with its value, the end or the failure of its stream, or
/// its trap. Takes memory for the fields. The only error is out of memory, the call's own too.
pub fn stream_reply_of<T: IntoFields>(
    alloc: Global,
    answer: Result<T, CallError>,
) -> Result<Reply, AllocError>
    ensures { IfOk result (λ reply. IsOkAnd (call_outcome answer)
        (λ x. reply ≡ stream_reply_of T.fields x)) }
{
    match answer {
        Ok(value) => ok(alloc, value),
        Err(error) => call_stop_reply(error),
    }
}

/// The reply of a call of a stream that may be pending, under the number of its line. Takes memory
/// for the fields. The only error is out of memory, the call's own too.
pub fn blocked_reply<T: IntoFields>(
    alloc: Global,
    call: u32,
    answer: Result<Answer<T>, CallError>,
) -> Result<Reply, AllocError>
    ensures { IfOk result (λ reply. IsOkAnd (call_outcome answer)
        (λ x. reply ≡ blocked_reply_of T.fields call x)) }
{
    match answer {
        Ok(Answer::Ready(value)) => ok(alloc, value),
        Ok(Answer::Pending) => Ok(Reply::Pending(call)),
        Err(error) => call_stop_reply(error),
    }
}

/// The reply of a call that may be pending, under the number of its line. Takes memory for the
/// fields. The only error is out of memory, the call's own too.
pub fn answer_reply<T: IntoFields>(
    alloc: Global,
    line: u32,
    answer: Result<Answer<T>, SocketError>,
) -> Result<Reply, AllocError>
    ensures { IfOk result (λ reply. IsOkAnd (host_outcome answer)
        (λ x. reply ≡ answer_reply_of T.fields line x)) }
{
    match answer {
        Ok(Answer::Ready(value)) => ok(alloc, value),
        Ok(Answer::Pending) => Ok(Reply::Pending(line)),
        Err(error) => stop_reply(error),
    }
}

/// The same of a call of 0.3.
pub fn p3_answer_reply<T: IntoFields>(
    alloc: Global,
    line: u32,
    answer: Result<Answer<T>, wasi_p3::SocketError>,
) -> Result<Reply, AllocError>
    ensures { IfOk result (λ reply. IsOkAnd (ends_as answer)
        (λ x. reply ≡ p3_answer_reply T.fields line x)) }
{
    match answer {
        Ok(Answer::Ready(value)) => ok(alloc, value),
        Ok(Answer::Pending) => Ok(Reply::Pending(line)),
        Err(error) => p3_stop_reply(error),
    }
}

/// The same of a lookup of 0.3.
pub fn lookup_reply(
    alloc: Global,
    line: u32,
    answer: Result<Answer<IpList>, LookupError>,
) -> Result<Reply, AllocError>
    ensures { IfOk result (λ reply. IsOkAnd (ends_as answer)
        (λ x. reply ≡ lookup_reply line x)) }
{
    match answer {
        Ok(Answer::Ready(addresses)) => ok(alloc, addresses),
        Ok(Answer::Pending) => Ok(Reply::Pending(line)),
        Err(error) => lookup_stop_reply(error),
    }
}

/// The reply of one poll of an end of 0.3, which is the last one and so never pending: `ok` with its
/// value, `dropped`, `cancelled`, or its trap. Takes memory for the fields. The only error is out of
/// memory, the call's own too.
pub fn stream_result_reply<T: IntoFields>(
    alloc: Global,
    answer: Result<Answer<StreamResult<T>>, wasi_p3::SocketError>,
) -> Result<Reply, AllocError>
    ensures { IfOk result (λ reply. IsOkAnd (ends_as answer)
        (λ x. reply ≡ stream_result_reply T.fields x)) }
{
    match answer {
        Ok(Answer::Ready(StreamResult::Completed(value))) => ok(alloc, value),
        Ok(Answer::Ready(StreamResult::Dropped)) => Ok(Reply::Dropped),
        Ok(Answer::Ready(StreamResult::Cancelled)) => Ok(Reply::Cancelled),
        Ok(Answer::Pending) => Ok(Reply::Cancelled),
        Err(error) => p3_stop_reply(error),
    }
}

/// The reply of a result that is taken out of its slot: `ok` or its code, `unfilled` where there is
/// none, or its trap. The only error is out of memory.
pub fn slot_reply(
    alloc: Global,
    answer: Result<Option<Result<(), p3::ErrorCode>>, wasi_p3::SocketError>,
) -> Result<Reply, AllocError>
    ensures { IfOk result (λ reply. IsOkAnd (ends_as answer) (λ x. reply ≡ slot_reply x)) }
{
    match answer {
        Ok(None) => Ok(Reply::Unfilled),
        Ok(Some(Ok(()))) => Ok(Reply::done(alloc)),
        Ok(Some(Err(code))) => Ok(Reply::Err(CodeWord::from_p3(code))),
        Err(error) => p3_stop_reply(error),
    }
}

/// The reply of a call without a value: its code or its trap. Out of memory has none.
fn stop_reply(error: SocketError) -> Result<Reply, AllocError>
    ensures { IfOk result (λ reply. IsStop error (λ stop. reply ≡ stop_reply stop)) }
{
    match error {
        SocketError::Code(code) => Ok(Reply::Err(CodeWord::from_p2(code))),
        SocketError::Trap(kind) => Ok(Reply::Trap(kind)),
        SocketError::Memory(e) => Err(e),
    }
}

/// The same of a call of 0.3.
fn p3_stop_reply(error: wasi_p3::SocketError) -> Result<Reply, AllocError>
    ensures { IfOk result (λ reply. IsStopOf error (λ stop. reply ≡ stop_as word_of_p3 stop)) }
{
    match error {
        wasi_p3::SocketError::Code(code) => Ok(Reply::Err(CodeWord::from_p3(code))),
        wasi_p3::SocketError::Trap(kind) => Ok(Reply::Trap(kind)),
        wasi_p3::SocketError::Memory(e) => Err(e),
    }
}

/// The same of a lookup of 0.3.
fn lookup_stop_reply(error: LookupError) -> Result<Reply, AllocError>
    ensures { IfOk result (λ reply. IsStopOf error
        (λ stop. reply ≡ stop_as word_of_lookup stop)) }
{
    match error {
        LookupError::Code(code) => Ok(Reply::Err(CodeWord::from_lookup(code))),
        LookupError::Trap(kind) => Ok(Reply::Trap(kind)),
        LookupError::Memory(e) => Err(e),
    }
}

/// The reply of a call whose stream's last operation failed, with the handle of the error.
fn failed(code: ErrorCode, handle: Handle) -> Reply
    ensures { result ≡ call_stop_reply (Failed code handle) }
{
    let code = p2::ErrorCode::from_code(code);
    Reply::Failed(CodeWord::from_p2(code), handle)
}

/// The reply of a call of a stream without a value: its end, its failure or its trap. Out of memory
/// has none.
fn call_stop_reply(error: CallError) -> Result<Reply, AllocError>
    ensures { IfOk result (λ reply. IsCallStop error (λ stop. reply ≡ call_stop_reply stop)) }
{
    match error {
        CallError::Failed(code, handle) => Ok(failed(code, handle)),
        CallError::Closed => Ok(Reply::Closed),
        CallError::Trap(kind) => Ok(Reply::Trap(kind)),
        CallError::Memory(e) => Err(e),
    }
}

/// The reply of a poll of the pending call with this number: its value, or `pending` again. Takes
/// memory for the fields.
fn outcome_reply(alloc: Global, line: u32, answer: Answer<Outcome>) -> Result<Reply, AllocError>
    ensures { IfOk result (λ reply. reply ≡ outcome_reply line answer) }
{
    match answer {
        Answer::Ready(Outcome::Nothing) => Ok(Reply::done(alloc)),
        Answer::Ready(Outcome::One(handle)) => ok(alloc, handle),
        Answer::Ready(Outcome::Two(first, second)) => ok(alloc, (first, second)),
        Answer::Ready(Outcome::Count(count)) => ok(alloc, count),
        Answer::Ready(Outcome::Bytes(bytes)) => ok(alloc, bytes),
        Answer::Ready(Outcome::Failed(code, handle)) => Ok(failed(code, handle)),
        Answer::Ready(Outcome::Closed) => Ok(Reply::Closed),
        Answer::Ready(Outcome::Places(places)) => ok(alloc, places),
        Answer::Ready(Outcome::Datagram(datagram)) => ok(alloc, datagram),
        Answer::Ready(Outcome::Refused(code)) => Ok(Reply::Err(CodeWord::from_p3(code))),
        Answer::Ready(Outcome::Addresses(addresses)) => ok(alloc, addresses),
        Answer::Ready(Outcome::Unresolved(code)) => Ok(Reply::Err(CodeWord::from_lookup(code))),
        Answer::Pending => Ok(Reply::Pending(line)),
    }
}

/// The reply of a cancel: `ok`, or `no-such-call` where no such call was pending.
pub fn cancelled_reply(alloc: Global, cancelled: bool) -> Reply
    ensures { result ≡ cancelled_reply cancelled }
{
    match cancelled {
        true => Reply::done(alloc),
        false => Reply::NoSuchCall,
    }
}

/// The reply of a poll of the call with this number: its answer, or `no-such-call` where none was
/// pending. Takes memory for the fields. The only error is out of memory, the call's own too.
pub fn resumed_reply(
    alloc: Global,
    line: u32,
    resumed: Result<Option<Answer<Outcome>>, SocketError>,
) -> Result<Reply, AllocError>
    ensures { IfOk result (λ reply. IsOkAnd (host_outcome resumed)
        (λ x. reply ≡ resumed_reply line x)) }
{
    match resumed {
        Ok(Some(answer)) => outcome_reply(alloc, line, answer),
        Ok(None) => Ok(Reply::NoSuchCall),
        Err(error) => stop_reply(error),
    }
}
