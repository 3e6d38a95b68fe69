//! Opening a host.

ghost use Rattle.std.specs.Prelude.{◌≡◌, false};
ghost use Rattle.wasi_net.specs.Net.{seen_by, counts_of};

use crate::host::Host;
use crate::kept::{Kept, Network};
use crate::opened::Open;
use crate::status::Status;
use std::alloc::{AllocError, Global};
use wasi_asking::{AskingWorld, Asks};
use wasi_net::{Allowed, Hosts, Linux, SystemWorld};
use wasi_policy::{Policy, RulesError};
use wasi_replay::{RecordingWorld, contexts_text};
use wasi_session::Session;
use wasi_world::WasiSocketsCtx;

/// What a host is opened with besides its texts.
#[repr(C)]
#[derive(Clone, Copy)]
pub struct Setup {
    /// Whether the log is kept, 1 or 0.
    pub keep_log: u32,
    /// Whether every address may be used, or this machine's own alone, 1 or 0.
    pub anywhere: u32,
    /// How many checks wait for the embedder at most; with 0 it isn't asked.
    pub most_asks: u32,
    /// The line of the rules that is wrong, where one is.
    pub bad_line: u32,
}

/// A context that a host is opened with.
#[repr(C)]
#[derive(Clone, Copy)]
pub struct Context {
    /// What it may use, as bits: 1 for TCP, 2 for UDP, 4 for lookups.
    pub may: u32,
    /// How many bytes the 0.2 writers of its connections may hold together.
    pub write_limit: u64,
}

/// The context of this number.
fn context_of(name: u32, context: Context) -> WasiSocketsCtx {
    WasiSocketsCtx {
        name,
        ip_name_lookup: context.may & 4 != 0,
        udp: context.may & 2 != 0,
        tcp: context.may & 1 != 0,
        write_limit: context.write_limit,
    }
}

/// The contexts, each with its place as its number.
fn contexts_of(alloc: Global, given: &[Context]) -> Result<Vec<WasiSocketsCtx>, AllocError> {
    let mut contexts = Vec::new(alloc);
    let mut name = 0u32;
    for it in given {
        contexts.push(context_of(name, *it))?;
        name = name.saturating_add(1);
    }
    Ok(contexts)
}

/// The rules of a text, or the number of a line that is wrong.
fn rules_of(alloc: Global, text: &[u8], bad_line: &mut u32) -> Result<Policy, Status> {
    match Policy::parse(alloc, text) {
        Ok(policy) => Ok(policy),
        Err(RulesError::BadRules(line)) => {
            *bad_line = line;
            Err(Status::Rules)
        }
        Err(RulesError::Memory(_)) => Err(Status::Memory),
    }
}

/// The names of a text.
fn hosts_of(alloc: Global, text: &[u8]) -> Result<Hosts, Status> {
    let Ok(text) = str::from_utf8(text) else {
        return Err(Status::Text);
    };
    Ok(Hosts::parse(alloc, text)?)
}

/// The network of a host.
fn network(alloc: Global, setup: Setup, policy: Policy, hosts: Hosts) -> Network
    ensures { seen_by result.inner ≡ counts_of false 0 0 }
{
    let allowed = if setup.anywhere == 1 {
        Allowed::everything()
    } else {
        Allowed::every_loopback()
    };
    let asks = if setup.most_asks == 0 {
        None
    } else {
        Some(Asks::new(alloc, setup.most_asks as usize))
    };
    let system = SystemWorld::new(Linux::of_process(), alloc, allowed, hosts);
    AskingWorld::new(policy, asks, system)
}

/// A session whose log isn't kept.
fn silent(alloc: Global, network: Network, contexts: Vec<WasiSocketsCtx>) -> Open
    requires { seen_by network.inner ≡ counts_of false 0 0 }
{
    Open {
        kept: Kept::Silent(Session::new(alloc, network, contexts)),
    }
}

/// A session whose log is kept.
fn noted(alloc: Global, network: Network, contexts: Vec<WasiSocketsCtx>) -> Open
    requires { seen_by network.inner ≡ counts_of false 0 0 }
{
    let noting = RecordingWorld::new(alloc, network);
    Open {
        kept: Kept::Noted(Session::new(alloc, noting, contexts)),
    }
}

/// A host over the system's sockets. A check goes by the first rule that matches; where none does,
/// the embedder is asked, or it is told no. Names are looked up in the text of `hosts`, which is in
/// the form of the system's file /etc/hosts. It opens nothing.
pub fn open(
    alloc: Global,
    setup: &mut Setup,
    given: &[Context],
    rules: &[u8],
    hosts: &[u8],
) -> Result<Host, Status> {
    let policy = rules_of(alloc, rules, &mut setup.bad_line)?;
    let network = network(alloc, *setup, policy, hosts_of(alloc, hosts)?);
    let contexts = contexts_of(alloc, given)?;
    let Ok(count) = u32::try_from(contexts.len()) else {
        return Err(Status::Argument);
    };
    let unread = if setup.keep_log == 1 {
        contexts_text(alloc, contexts.as_slice())?
    } else {
        Vec::new(alloc)
    };
    let open = if setup.keep_log == 1 {
        noted(alloc, network, contexts)
    } else {
        silent(alloc, network, contexts)
    };
    Ok(Host {
        alloc,
        session: Some(open),
        contexts: count,
        reply: Vec::new(alloc),
        unread,
        noted: 0,
    })
}
