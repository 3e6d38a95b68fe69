//! Scripts that connect to themselves, over a loopback address of their own and ports that the
//! system doesn't hand out.

ghost use Rattle.std.specs.Prelude.{◌≡◌, [], ◌∷◌, IfOk, false};
ghost use Rattle.wasi_world.specs.Contexts.{free_context};
ghost use Rattle.wasi_net.specs.Net.{counts_of, patient_seen};

use std::alloc::{AllocError, Global};
use std::net::Net;
use std::test::Fail;
use wasi_net::{Allowed, Hosts, Linux, Patience, PatientWorld, SystemWorld};
use wasi_run::{RunEnd, run_script};
use wasi_world::{WasiSocketsCtx, World};
use world_io::{MemorySink, MemorySource};

/// Binds and listens, connects, accepts, writes a byte and reads it.
const CARRIES: (&[u8], &[u8]) = (
    b"0 network\n0 tcp-create 4\n0 tcp-create 4\n0 tcp-start-bind 2 1 4 127 77 31 5 20123\n0 tcp-finish-bind 2\n0 tcp-start-listen 2\n0 tcp-finish-listen 2\n0 tcp-start-connect 3 1 4 127 77 31 5 20123\n0 tcp-finish-connect 3\n0 tcp-accept 2\n0 check-write 5\n0 write 5 0a\n0 subscribe 7\n0 ready 9\n0 read 7 9\n",
    b"ok 1\nok 2\nok 3\nok\nok\nok\nok\nok\nok 4 5\nok 6 7 8\nok 65536\nok\nok 9\nok true\nok 0a\n",
);

/// The listener goes before it accepted the connection, which resets it. The look meets that, and
/// the read reports it.
const RESETS: (&[u8], &[u8]) = (
    b"0 network\n0 tcp-create 4\n0 tcp-create 4\n0 tcp-start-bind 2 1 4 127 77 31 5 20124\n0 tcp-finish-bind 2\n0 tcp-start-listen 2\n0 tcp-finish-listen 2\n0 tcp-start-connect 3 1 4 127 77 31 5 20124\n0 tcp-finish-connect 3\n0 drop 2\n0 subscribe 4\n0 ready 6\n0 read 4 9\n0 read 4 9\n",
    b"ok 1\nok 2\nok 3\nok\nok\nok\nok\nok\nok 4 5\nok\nok 6\nok true\nfailed connection-reset 7\nclosed\n",
);

/// The second listener finds the port in use, and a connect finds one where none listens.
const REFUSED: (&[u8], &[u8]) = (
    b"0 network\n0 tcp-create 4\n0 tcp-create 4\n0 tcp-create 4\n0 tcp-start-bind 2 1 4 127 77 31 5 20125\n0 tcp-finish-bind 2\n0 tcp-start-listen 2\n0 tcp-finish-listen 2\n0 tcp-start-bind 3 1 4 127 77 31 5 20125\n0 drop 2\n0 tcp-start-connect 4 1 4 127 77 31 5 20125\n0 tcp-finish-connect 4\n",
    b"ok 1\nok 2\nok 3\nok 4\nok\nok\nok\nok\nerr address-in-use\nok\nok\nerr connection-refused\n",
);

/// Two sockets send each other a datagram.
const DATAGRAMS: (&[u8], &[u8]) = (
    b"0 network\n0 udp-create 4\n0 udp-create 4\n0 udp-start-bind 2 1 4 127 77 31 5 20126\n0 udp-finish-bind 2\n0 udp-start-bind 3 1 4 127 77 31 5 20127\n0 udp-finish-bind 3\n0 udp-stream 2\n0 udp-stream 3\n0 udp-check-send 5\n0 udp-send 5 to 4 127 77 31 5 20127 6869\n0 subscribe 6\n0 ready 8\n0 udp-receive 6 9\n0 udp-check-send 7\n0 udp-send 7 to 4 127 77 31 5 20126 6a\n0 subscribe 4\n0 ready 9\n0 udp-receive 4 9\n",
    b"ok 1\nok 2\nok 3\nok\nok\nok\nok\nok 4 5\nok 6 7\nok 16\nok 1\nok 8\nok true\nok 1 4 127 77 31 5 20126 6869\nok 16\nok 1\nok 9\nok true\nok 1 4 127 77 31 5 20127 6a\n",
);

/// Looks up a name of the hosts file, and one that isn't in it.
const NAMED: (&[u8], &[u8]) = (
    b"0 network\n0 resolve 1 Here\n0 resolve-next 2\n0 resolve-next 2\n0 resolve 1 there\n",
    b"ok 1\nok 2\nok 4 127 77 31 5\nok none\nerr name-unresolvable\n",
);

/// A network over this machine's own addresses, of which every port may be used, with these names.
fn named<R: Net>(rt: &R, alloc: Global, hosts: Hosts) -> PatientWorld<Linux>
    ensures { patient_seen result ≡ counts_of false 0 0 }
{
    let system = SystemWorld::new(Linux::new(rt), alloc, Allowed::every_loopback(), hosts);
    PatientWorld::new(system, Patience::AtMost(1000))
}

/// The same without names.
pub fn loopback<R: Net>(rt: &R, alloc: Global) -> PatientWorld<Linux>
    ensures { patient_seen result ≡ counts_of false 0 0 }
{
    named(rt, alloc, Hosts::none(alloc))
}

/// The one context, which may use all.
pub fn contexts(alloc: Global) -> Result<Vec<WasiSocketsCtx>, AllocError>
    ensures { IfOk result (λ contexts. contexts.items ≡ free_context ∷ []) }
{
    let all = WasiSocketsCtx {
        name: 0,
        ip_name_lookup: true,
        udp: true,
        tcp: true,
        write_limit: u64::MAX,
    };
    Ok(vec![in alloc; all]?)
}

/// Runs the script over a world, and fails where it doesn't write these replies to its end.
pub fn gives<W: World>(
    alloc: Global,
    world: &mut W,
    script: &[u8],
    replies: &[u8],
) -> Result<(), Fail>
    requires { (W.seen world.old).ended ≡ false }
{
    let mut contexts = contexts(alloc)?;
    let mut source = MemorySource::new(script.to_vec(alloc)?, 4096, Vec::new(alloc));
    let mut sink = MemorySink::new(alloc, 4096, 4096, Vec::new(alloc))?;
    let outcome = run_script(alloc, world, &mut contexts, 4096, &mut source, &mut sink);
    if sink.bytes() != replies || !matches!(outcome, Ok(RunEnd::AllRead)) {
        return Err(Fail::new("other replies"));
    }
    Ok(())
}

/// With every port allowed: a connection that carries bytes, a reset, a port in use and one where
/// none listens, and datagrams each way.
#[test]
fn scripts_reach_themselves(rt: HostRuntime) -> Result<(), Fail> {
    let alloc = rt.alloc();
    for (script, replies) in [CARRIES, RESETS, REFUSED, DATAGRAMS] {
        gives(alloc, &mut loopback(&rt, alloc), script, replies)?;
    }
    Ok(())
}

#[test]
fn a_name_of_the_hosts_file_is_found(rt: HostRuntime) -> Result<(), Fail> {
    let alloc = rt.alloc();
    let hosts = Hosts::parse(alloc, "127.77.31.5 away HERE # a comment\n")?;
    gives(alloc, &mut named(&rt, alloc, hosts), NAMED.0, NAMED.1)
}
