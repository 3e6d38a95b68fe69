//! The calls on streams.

use crate::args::{Args, Refusal};
use crate::op;
use wasi_steps::StreamCall;
use wasi_world::Octets;

/// The call on an input that has this number. A read asks for no more than there is room for.
pub fn input_call(number: u32, args: &Args<'_>, room: u32) -> Result<StreamCall, Refusal> {
    let input = args.word(0)?;
    let len = args.wide(1)?;
    let most = len.min(u64::from(room));
    match number {
        op::READ => Ok(StreamCall::Read { input, len: most }),
        op::BLOCKING_READ => Ok(StreamCall::BlockingRead { input, len: most }),
        op::SKIP => Ok(StreamCall::Skip { input, len }),
        op::BLOCKING_SKIP => Ok(StreamCall::BlockingSkip { input, len }),
        _ => Err(Refusal::Argument),
    }
}

/// The call on an output with bytes.
fn with_bytes(number: u32, args: &Args<'_>) -> Result<StreamCall, Refusal> {
    let output = args.word(0)?;
    let bytes = Octets::copy_of(args.alloc, args.bytes(1)?)?;
    match number {
        op::WRITE => Ok(StreamCall::Write { output, bytes }),
        _ => Ok(StreamCall::BlockingWrite { output, bytes }),
    }
}

/// The call on an output that has this number.
pub fn output_call(number: u32, args: &Args<'_>) -> Result<StreamCall, Refusal> {
    let output = args.word(0)?;
    match number {
        op::CHECK_WRITE => Ok(StreamCall::CheckWrite { output }),
        op::FLUSH => Ok(StreamCall::Flush { output }),
        op::BLOCKING_FLUSH => Ok(StreamCall::BlockingFlush { output }),
        op::WRITE | op::BLOCKING_WRITE_AND_FLUSH => with_bytes(number, args),
        op::WRITE_ZEROES => Ok(StreamCall::WriteZeroes {
            output,
            len: args.wide(1)?,
        }),
        op::BLOCKING_WRITE_ZEROES_AND_FLUSH => Ok(StreamCall::BlockingZeroes {
            output,
            len: args.wide(1)?,
        }),
        op::SPLICE => Ok(StreamCall::Splice {
            output,
            input: args.word(1)?,
            len: args.wide(2)?,
        }),
        op::BLOCKING_SPLICE => Ok(StreamCall::BlockingSplice {
            output,
            input: args.word(1)?,
            len: args.wide(2)?,
        }),
        _ => Err(Refusal::Argument),
    }
}
