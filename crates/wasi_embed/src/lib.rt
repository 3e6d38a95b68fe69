//! A host over the system's sockets, for programs in other languages: a guest's calls as lines of
//! a script or by number with their arguments as the guest passes them, checks that rules or the
//! embedder decide, and a log where one is asked for.
#![tactic(auto)]

pub mod answer;
pub mod call;
pub mod held;
pub mod host;
pub mod kept;
pub mod opened;
pub mod opening;
mod parts;
pub mod reading;
pub mod status;
mod text;

pub use answer::{Answer, AskRecord, Request};
pub use held::{Held, put_host};
pub use host::Host;
pub use opening::{Context, Setup, open};
pub use status::Status;
