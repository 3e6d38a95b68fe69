//! The network, the address check and name lookup behind one trait, [`World`]: what may be asked of
//! it, what it answers, and how the host asks.
//!
//! What a call asks of a `World` is stated once, as a tree over the answers (specs/Asks), and the
//! operations that are polled are lists of asks under one rule (specs/Operation). What a world
//! answers that goes by a plan is a definition (specs/Script); `world_scripted` has such a world.
#![tactic(auto)]

pub mod asks;
pub mod call;
pub mod closings;
pub mod datagram;
pub mod ids;
pub mod octets;
pub mod outcome;
pub mod plan;
pub mod sides;
pub mod waits;
pub mod world;

pub use call::{Call, Entry, HandleKind, Opt, Told};
pub use closings::ClosedSockets;
pub use datagram::{IncomingDatagram, IncomingDatagrams, OutgoingDatagram, OutgoingDatagrams};
pub use ids::{Handle, Ids, OpId, Sock};
pub use octets::{IpList, NameText, NumberList, Octets};
pub use outcome::{Answer, Refusal, TrapKind, WasiSocketsCtx};
pub use plan::{Kind, Planned};
pub use waits::Waits;
pub use world::World;
