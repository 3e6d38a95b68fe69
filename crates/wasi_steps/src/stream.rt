//! Reads the arguments of the steps of an input or an output that have more than its handle.

ghost use Rattle.std.specs.Prelude.{◌++◌};
ghost use Rattle.wasi_steps.specs.Settings.{ReadsAfter};
ghost use Rattle.wasi_steps.specs.Steps.{handle_calls, input_value_calls, output_value_calls};
ghost use Rattle.wasi_steps.specs.Steps.{rows_of};

use crate::guest_call::{GuestCall, StreamCall};
use crate::handle::handle_call;
use crate::words::is;
use world_text::Fields;

/// Takes what follows the handle of a call: more arguments where the word is an output's and
/// has them, else nothing.
#[tactic(auto, unfolding(world_text::specs::Fields::read_then, world_text::specs::Fields::give, world_text::specs::Fields::give_some))]
fn output_arguments(fields: &mut Fields<'_>, word: &[u8], handle: u32) -> Option<GuestCall>
    ensures { ReadsAfter 4294967295 (rows_of (output_value_calls ++ handle_calls))
        word.now handle fields.old result fields.new }
{
    use GuestCall::*;
    match word {
        _ if is(word, "write-zeroes") => Some(Stream(StreamCall::WriteZeroes {
            output: handle,
            len: fields.number(u64::MAX)?,
        })),
        _ if is(word, "splice") => Some(Stream(StreamCall::Splice {
            output: handle,
            input: fields.u32()?,
            len: fields.number(u64::MAX)?,
        })),
        _ if is(word, "blocking-zeroes") => Some(Stream(StreamCall::BlockingZeroes {
            output: handle,
            len: fields.number(u64::MAX)?,
        })),
        _ if is(word, "blocking-splice") => Some(Stream(StreamCall::BlockingSplice {
            output: handle,
            input: fields.u32()?,
            len: fields.number(u64::MAX)?,
        })),
        _ => handle_call(word, handle),
    }
}

/// Takes what follows the handle of a call: more arguments where the word is an input's or an
/// output's and has them, else nothing.
#[tactic(auto, unfolding(world_text::specs::Fields::read_then, world_text::specs::Fields::give, world_text::specs::Fields::give_some))]
pub(crate) fn stream_arguments(
    fields: &mut Fields<'_>,
    word: &[u8],
    handle: u32,
) -> Option<GuestCall>
    ensures { ReadsAfter 4294967295 (rows_of (input_value_calls ++ output_value_calls ++ handle_calls)) word.now handle fields.old result fields.new }
{
    use GuestCall::*;
    match word {
        _ if is(word, "read") => Some(Stream(StreamCall::Read {
            input: handle,
            len: fields.number(u64::MAX)?,
        })),
        _ if is(word, "skip") => Some(Stream(StreamCall::Skip {
            input: handle,
            len: fields.number(u64::MAX)?,
        })),
        _ if is(word, "blocking-read") => Some(Stream(StreamCall::BlockingRead {
            input: handle,
            len: fields.number(u64::MAX)?,
        })),
        _ if is(word, "blocking-skip") => Some(Stream(StreamCall::BlockingSkip {
            input: handle,
            len: fields.number(u64::MAX)?,
        })),
        _ => output_arguments(fields, word, handle),
    }
}
