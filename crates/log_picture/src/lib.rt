//! A picture of a log, as SVG: who was asked what, line by line, and which yes of the embedder's
//! check allows which bind, listen, connect and datagram.
#![tactic(auto)]

pub mod columns;
pub mod picture;
pub mod svg;
pub mod yes;

pub use picture::{Part, draw};
