//! A session of one guest, for a host that makes its calls: each step is asked of a `World` of the
//! host's own, and whatever the guest does, the log is licensed.
#![tactic(auto)]

mod error;
pub mod session;

pub use error::StepError;
pub use session::Session;
pub use wasi_steps::{
    Field, GuestCall, NameCall, P3NameCall, P3TcpCall, P3UdpCall, PipeCall, PollableCall, Reply,
    ReplyFields, Step, StreamCall, TcpCall, UdpCall,
};
