//! The worker streams with their workers in real threads: the write stream and what it builds on,
//! the read stream, the pump of a source to a sink, and the pipes in memory that several owners
//! share. These tests are in a crate of their own, since a crate with tests is proved twice.
#![tactic(auto)]

#[cfg(test)]
mod buffer;
#[cfg(test)]
mod drain;
#[cfg(test)]
mod drains;
#[cfg(test)]
mod jobs;
#[cfg(test)]
mod line;
#[cfg(test)]
mod piped;
#[cfg(test)]
mod pipes;
#[cfg(test)]
mod pour;
#[cfg(test)]
mod pours;
#[cfg(test)]
mod pump_gate;
#[cfg(test)]
mod pumps;
#[cfg(test)]
mod read_gate;
#[cfg(test)]
mod read_gated;
#[cfg(test)]
mod read_play;
#[cfg(test)]
mod same;
#[cfg(test)]
mod simplex;
#[cfg(test)]
mod threads;
#[cfg(test)]
mod write_gate;
#[cfg(test)]
mod write_gated;
#[cfg(test)]
mod write_play;
