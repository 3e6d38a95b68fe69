//! The program `examples`: the README's host, and then one with a network of its own.
#![tactic(auto)]

mod guest;
mod library;
mod memory;
mod session;

fn main(rt: HostRuntime) -> anyhow::Result<()> {
    library::main(rt)?;
    session::main(rt)
}
