//! Where the answer of each step comes from, and what is left after a refusal: laws over the
//! definitions of specs/ and of the crates below. Each is a function that does nothing, whose
//! contract is the law.
#![tactic(auto)]

pub mod blocking;
pub mod causes;
pub mod datagrams;
pub mod handed_bytes;
pub mod listens;
pub mod lookups;
pub mod marks;
pub mod options;
pub mod p3;
pub mod p3_binds;
pub mod p3_connects;
pub mod p3_datagrams;
pub mod p3_listens;
pub mod p3_lookups;
pub mod p3_streams;
pub mod p3_udp;
pub mod p3_udp_connects;
pub mod pending_calls;
pub mod readiness;
pub mod received;
pub mod records;
pub mod stream_calls;
pub mod tcp;
pub mod turns;
pub mod udp;
pub mod waiting;
