//! A guest that is useful by itself: it listens on one address, connects each arrival to a target,
//! and copies both ways. It makes its calls through a session, over any `World`.
#![tactic(auto)]

mod calls;
mod copying;
pub mod idle;
pub mod order;
pub mod pair;
mod pairs;
pub mod service;
mod serving;
mod setup;
mod turns;

pub use idle::{Idle, NoWait};
pub use order::Order;
pub use pair::{DirEnd, Flow, Pair, Peer, Stage};
pub use service::{RelayEnd, Relayed, relay};
