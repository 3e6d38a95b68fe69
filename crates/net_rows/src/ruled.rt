//! A script over a loopback address under rules.

ghost use Rattle.std.specs.Prelude.{◌≡◌, None};

use crate::scripts::{gives, loopback};
use std::marker::Brand;
use std::test::Fail;
use wasi_policy::{Policy, PolicyWorld, Rules};

/// One port may be bound to, listened on and connected to, and what arrives is let in.
const RULES: &[u8] =
    b"allow tcp-bind 4 127 77 31 5 32 20128 20128\nallow tcp-listen 4 127 77 31 5 32 20128 20128\nallow tcp-connect 4 127 77 31 5 32 20128 20128\nallow tcp-bind any 0 0\nallow tcp-accept any 0 65535\nallow udp-bind 4 10 0 0 0 8 0 65535\n";

/// Binds and connects to a port that the rules deny and to one that they allow, and binds an address
/// that they allow and that isn't this machine's own.
const ASKS: (&[u8], &[u8]) = (
    b"0 network\n0 tcp-create 4\n0 tcp-create 4\n0 tcp-create 4\n0 tcp-start-bind 2 1 4 127 77 31 5 20129\n0 tcp-start-bind 2 1 4 127 77 31 5 20128\n0 tcp-finish-bind 2\n0 tcp-start-listen 2\n0 tcp-finish-listen 2\n0 tcp-start-connect 3 1 4 127 77 31 5 20129\n0 tcp-finish-connect 3\n0 tcp-start-connect 4 1 4 127 77 31 5 20128\n0 tcp-finish-connect 4\n0 tcp-accept 2\n0 udp-create 4\n0 udp-start-bind 10 1 4 10 0 0 1 53\n",
    b"ok 1\nok 2\nok 3\nok 4\nerr access-denied\nok\nok\nok\nok\nok\nerr access-denied\nok\nok 5 6\nok 7 8 9\nok 10\nerr access-denied\n",
);

/// Runs the script under the rules, and fails where it doesn't write these replies to its end.
fn runs_under<P: Rules>(
    rt: &HostRuntime,
    policy: Policy,
    script: &[u8],
    replies: &[u8],
) -> Result<(), Fail>
    requires rules { policy ≡ P.rules }
    requires plan { P.plan ≡ None }
{
    let alloc = rt.alloc();
    let mut world = PolicyWorld::<_, P>::new(alloc, policy, loopback(rt, alloc));
    gives(alloc, &mut world, script, replies)
}

#[test]
fn rules_decide(rt: HostRuntime) -> Result<(), Fail> {
    let Ok(policy) = Policy::parse(rt.alloc(), RULES) else {
        return Err(Fail::new("the rules have a line that is none"));
    };
    runs_under::<Brand>(&rt, policy, ASKS.0, ASKS.1)
}
