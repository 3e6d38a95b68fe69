//! The steps of a script and their replies: how they are written and read, and, in specs/, what a
//! machine does with them.
#![tactic(auto)]

mod datagram;
pub mod fields;
pub mod guest_call;
mod handle;
mod handle_list;
mod memory;
mod name;
pub mod parse;
pub mod reply;
pub mod setting;
pub mod step;
mod stream;
mod words;

pub use fields::{IntoFields, NoCode};
pub use guest_call::{
    GuestCall, NameCall, P3NameCall, P3TcpCall, P3UdpCall, PipeCall, PollableCall, StreamCall,
    TcpCall, UdpCall,
};
pub use reply::{CodeWord, Field, Reply, ReplyFields};
pub use setting::{TcpSetting, UdpOption, UdpSetting};
pub use step::{STEP_FORMS, Step};
