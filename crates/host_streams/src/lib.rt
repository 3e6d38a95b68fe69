//! The calls of streams that both generations share: connections, and pipes, sinks and closed streams
//! in memory.
#![tactic(auto)]

mod blocking;
pub mod connections;
mod plain_streams;
mod stream_ends;
mod streams;

pub use blocking::{
    blocking_flush, blocking_read, blocking_skip, blocking_splice, blocking_write_and_flush,
    blocking_write_zeroes_and_flush, finish_rest, write_rest,
};
pub use plain_streams::{
    drop_plain_input, drop_plain_output, make_closed_input, make_closed_output, make_input_pipe,
    make_output_pipe, make_sink, pipe_contents,
};
pub use streams::{check_write, flush, read, skip, splice, write, write_zeroes};
