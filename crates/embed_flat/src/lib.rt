//! The calls of the 0.2 interface as the component model's canonical ABI passes them: numbers in,
//! and a result in the guest's memory.
#![tactic(auto)]

pub mod answers;
pub mod args;
pub mod arguments;
pub mod block;
pub mod code;
pub mod memory;
pub mod op;
pub mod results;
pub mod shape;
pub mod signature;
pub mod streams;
pub mod tcp;
pub mod udp;

pub use args::{Args, Refusal};
pub use arguments::guest_call;
pub use results::{Lists, written};
pub use shape::Shape;
pub use signature::{result_place, shape_of};
