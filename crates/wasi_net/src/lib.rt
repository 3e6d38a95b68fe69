//! The network of the system's sockets, as a [`wasi_world::World`]: scripts and guests reach real
//! addresses by it.
//!
//! What the system does with a call is outside every contract. What is proved is what the trait
//! asks, that each check is answered by the addresses that are allowed, and for each call on the
//! network which of the system's calls are made, with which descriptor, address, option and bytes,
//! and what is answered for the system's answers.
#![tactic(auto)]

pub mod allowed;
mod answers;
mod awaited;
pub mod calls;
pub mod descriptor;
pub mod errno;
pub mod hosts;
pub mod linux;
mod making;
mod network;
pub mod patient;
pub mod setting;
pub mod socket;
mod storage;
pub mod system;
pub mod system_world;
mod tcp;
mod udp;
mod waiting;

pub use allowed::Allowed;
pub use errno::Errno;
pub use hosts::Hosts;
pub use linux::Linux;
pub use patient::{Patience, PatientWorld};
pub use system::System;
pub use system_world::SystemWorld;
