//! Tests of the network of the system's sockets, over this machine's loopback addresses: by its own
//! calls, and by scripts that connect to themselves.
#![tactic(auto)]

#[cfg(test)]
mod calls;
#[cfg(test)]
mod guest;
#[cfg(test)]
mod names;
#[cfg(test)]
mod recorded;
#[cfg(test)]
mod ruled;
#[cfg(test)]
mod same;
#[cfg(test)]
mod scripts;
