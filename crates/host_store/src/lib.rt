//! The store behind a guest's calls: what handles stand for, the records that they name, the jobs and
//! the pending calls, and views of all that.
#![tactic(auto)]

pub mod beside;
pub mod error;
pub mod handles;
mod jobs;
pub mod kind;
pub mod limits;
pub mod machine;
pub mod store;
pub mod view;

pub use beside::{Beside, BesideCall, BesideList};
pub use error::{CallError, LookupError, StoreError, named, unnamed};
pub use jobs::keep_job;
pub use kind::{ConnectionEnd, Interface, Kind, PlainInput, PlainOutput, Watched};
pub use limits::{keep_limit, limit_of};
pub use machine::Machine;
pub use store::{BlockingCall, Standing, StandingCall, Store};
pub use view::{
    NamedId, WasiCtxNamedView, WasiSocketsCtxView, WasiSocketsNamedView, WasiSocketsView,
};
