//! The proof that each step is made of moves, and two things that rest on it: which record holds
//! each network socket, and the licence of a run's log.
#![tactic(auto)]

pub mod laws;
