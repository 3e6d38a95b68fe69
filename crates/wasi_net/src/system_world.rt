//! The world of the system's sockets.

ghost use Rattle.std.specs.Prelude.{◌≡◌, ◌≤◌, ◌<◌, ◌^◌, [], None, Some, IfOk, OnErr};
ghost use Rattle.std.specs.Prelude.{length, false, true};
ghost use Rattle.wasi_world.specs.Seen.{Counts};

use crate::allowed::Allowed;
use crate::hosts::Hosts;
use crate::network::Network;
use crate::system::System;
use libc::types::pollfd;
use std::alloc::{AllocError, Global};
use wasi_addr::{ErrorCode, IpSocketAddress};
use wasi_looks::{Look, Readiness};
use wasi_world::{Call, OpId, Sock, Told, Waits, World};

/// A world over the system's sockets, TCP and UDP, IPv4 and IPv6. It reports no log.
///
/// Each network socket is one socket of the system from its making on, whose calls don't wait. A
/// look is one `poll` with no wait; a look for room to write that found some is remembered, until a
/// write isn't taken whole. What waits is the embedder, by `wait`, which returns once a socket that
/// an earlier answer left pending may go on. Where the system gives no descriptor that is open, each
/// socket has one of its own, and each is closed once.
///
/// A check goes by the ports that are allowed, and says yes to this machine's own addresses alone,
/// unless every address is allowed. A lookup finds the names that it was given, and asks nobody.
/// The hop limit of an IPv6 socket is `NotSupported`.
#[derive(Drop)]
pub struct SystemWorld<S> {
    network: Network<S>,
    ended: bool,
    closings: u64,
    faults: u64,
}

/// The count of faults after an answer: one more where it is a code, up to the greatest count.
fn count_after(faults: u64, told: &Told) -> u64
    ensures { Counts told.now faults result }
{
    match told {
        Told::Code(_) => faults.saturating_add(1),
        _ => faults,
    }
}

impl<S> SystemWorld<S> {
    ghost use Rattle.wasi_net.specs.Allowed.{policy_of};
    ghost use Rattle.wasi_net.specs.Known.{IsUnused};
    ghost use Rattle.wasi_net.specs.Owned.{Owned};
    ghost use Rattle.wasi_net.specs.Net.{counts_of, seen_by, policy_in, names_in, sides_of};
    ghost use Rattle.wasi_net.specs.Net.{system_of};

    /// A network over this system, where these addresses may be used and these names are found. It
    /// opens nothing.
    pub fn new(system: S, alloc: Global, allowed: Allowed, hosts: Hosts) -> SystemWorld<S>
        ensures seen { seen_by result ≡ counts_of false 0 0 }
        ensures policy { policy_in result ≡ policy_of allowed }
        ensures names { names_in result ≡ hosts.entries.items }
        ensures sides { IsUnused (sides_of result) }
        ensures owned { Owned (sides_of result) (Some []) }
        ensures system { system_of result ≡ system }
    {
        SystemWorld {
            network: Network::new(system, alloc, allowed, hosts),
            ended: false,
            closings: 0,
            faults: 0,
        }
    }

    /// Whether the end mark is set.
    pub fn ended(&self) -> bool
        ensures { result ≡ (seen_by self.now).ended }
    {
        self.ended
    }

    /// How many network sockets were closed after the end mark. The count stays at its greatest
    /// value.
    pub fn closed_after_end(&self) -> u64
        ensures { result ≡ (seen_by self.now).closings }
    {
        self.closings
    }

    /// Counts an answer.
    pub(crate) fn count(&mut self, told: &Told)
        ensures counts { Counts told.now (seen_by self.old).faults (seen_by self.new).faults }
        ensures same { seen_by self.new ≡ record (seen_by self.old)
            { faults = (seen_by self.new).faults } }
        ensures network { self.new.network ≡ self.old.network }
    {
        self.faults = count_after(self.faults, told);
    }

    /// What earlier answers left pending: descriptors, and the events that each waits for. A host
    /// that waits by a `poll` of its own asks for these.
    pub fn awaited(&self) -> &[pollfd] {
        self.network.awaited()
    }

    /// Whether each of these looks was answered pending the last time, and no wait since has found
    /// that it may go on.
    pub fn are_awaited(&self, looks: &[Look]) -> bool {
        self.network.are_awaited(looks)
    }

    /// How many codes were reported. The count stays at its greatest value.
    pub fn faults(&self) -> u64
        ensures { result ≡ (seen_by self.now).faults }
    {
        self.faults
    }
}

impl<S: System> SystemWorld<S> {
    ghost use Rattle.wasi_world.specs.Fits.{Fits};
    ghost use Rattle.wasi_net.specs.Known.{Same};
    ghost use Rattle.wasi_net.specs.Answers.{OnNetwork, NoMemory};
    ghost use Rattle.wasi_net.specs.Awaited.{asked_by, WaitsFor};
    ghost use Rattle.wasi_net.specs.Owned.{Owned};
    ghost use Rattle.wasi_net.specs.Net.{seen_by, policy_in, names_in, sides_of, system_of};

    /// Whether the last answer to this call was pending, and no wait since has found that it may go
    /// on.
    pub fn awaits(&self, call: &Call) -> bool {
        self.network.awaits(call)
    }

    /// The answer to any call but a write and a send, which isn't counted yet; and what it waits
    /// for is kept.
    pub(crate) fn ask(&mut self, op: OpId, call: &Call) -> Result<Told, AllocError>
        ensures fits { IfOk result (Fits call.now) }
        ensures seen { seen_by self.new ≡ seen_by self.old }
        ensures told { IfOk result (λ told. OnNetwork (policy_in self.old) (names_in self.old)
            (sides_of self.old) op call.now told (sides_of self.new) (S.acts (system_of self.old))
            (S.acts (system_of self.new))) }
        ensures sides { OnErr result (Same (sides_of self.old) (sides_of self.new)) }
        ensures undone { OnErr result (NoMemory (sides_of self.old) call.now
            (S.acts (system_of self.old)) (S.acts (system_of self.new))) }
        ensures owned { Owned (sides_of self.old) (S.acts (system_of self.old))
            → Owned (sides_of self.new) (S.acts (system_of self.new)) }
        ensures policy { policy_in self.new ≡ policy_in self.old }
        ensures names { names_in self.new ≡ names_in self.old }
    {
        self.network.reserve()?;
        let told = self.network.answer(op, call)?;
        self.network.note_call(call, &told);
        Ok(told)
    }

    /// Waits until one of these looks may go on, for at most so many milliseconds, or without limit
    /// where they are negative; and whether one may. The system is asked once, for all of them and
    /// for nothing else, and not at all where one of them needn't wait: its socket isn't open, or is
    /// known to have room. Takes memory for what is asked.
    pub fn wait_on(&mut self, looks: &[Look], timeout: i32) -> Result<bool, AllocError>
        ensures waited { IfOk result (λ ready. WaitsFor (asked_by (sides_of self.old) looks.now)
            timeout ready (S.acts (system_of self.old)) (S.acts (system_of self.new))) }
        ensures quiet { OnErr result (S.acts (system_of self.new)
            ≡ S.acts (system_of self.old)) }
        ensures seen { seen_by self.new ≡ seen_by self.old }
        ensures policy { policy_in self.new ≡ policy_in self.old }
        ensures names { names_in self.new ≡ names_in self.old }
        ensures sides { sides_of self.new ≡ sides_of self.old }
        ensures owned { Owned (sides_of self.old) (S.acts (system_of self.old))
            → Owned (sides_of self.new) (S.acts (system_of self.new)) }
    {
        self.network.wait_on(looks, timeout)
    }
}

impl<S: System> World for SystemWorld<S> {
    ghost use Rattle.wasi_world.specs.Asks.{one, one_write, AsksFor};
    ghost use Rattle.wasi_world.specs.Fits.{Fits, IsPlain, IsWritten};
    ghost use Rattle.wasi_world.specs.Script.{without_plan};
    ghost use Rattle.wasi_world.specs.Closings.{Named, NoneNamed};
    ghost use Rattle.wasi_world.specs.Seen.{Closes, Ends};
    ghost use Rattle.wasi_net.specs.Does.{WriteDoes, SendDoes};
    ghost use Rattle.wasi_net.specs.Known.{Same};
    ghost use Rattle.wasi_net.specs.Answers.{OnNetwork, AnswersAt, Stays, NoMemory};
    ghost use Rattle.wasi_net.specs.Answers.{ClosesOnly};
    ghost use Rattle.wasi_net.specs.Owned.{Owned};
    ghost use Rattle.wasi_net.specs.Net.{seen_by, policy_in, names_in, sides_of, system_of};

    ghost seen = { seen_by };

    // It keeps no names.
    ghost closed = { λ world. None };

    ghost scripted = { λ world. without_plan None };

    fn call(&mut self, op: OpId, call: Call) -> Result<Told, AllocError>
        requires open { (seen_by self.old).ended ≡ false }
        requires plain { IsPlain call }
        ensures asked { AsksFor (one op call) (seen_by self.old) (seen_by self.new) (λ told. told)
            result }
        ensures fits { IfOk result (λ told. Fits call told) }
        ensures err { OnErr result (seen_by self.new ≡ seen_by self.old) }

        // Which answer it is, which calls of the system are made for it, and what is left of the
        // sockets.
        ensures told { IfOk result (λ told. OnNetwork (policy_in self.old) (names_in self.old)
            (sides_of self.old) op call told (sides_of self.new) (S.acts (system_of self.old))
            (S.acts (system_of self.new))) }
        ensures sides { OnErr result (Same (sides_of self.old) (sides_of self.new)) }
        ensures undone { OnErr result (NoMemory (sides_of self.old) call
            (S.acts (system_of self.old)) (S.acts (system_of self.new))) }
        ensures owned { Owned (sides_of self.old) (S.acts (system_of self.old))
            → Owned (sides_of self.new) (S.acts (system_of self.new)) }
        ensures policy { policy_in self.new ≡ policy_in self.old }
        ensures names { names_in self.new ≡ names_in self.old }
    {
        let told = self.ask(op, &call)?;
        self.count(&told);
        Ok(told)
    }

    fn write(&mut self, op: OpId, sock: Sock, bytes: &[u8]) -> Result<Told, AllocError>
        requires open { (seen_by self.old).ended ≡ false }
        requires some { 1 ≤ length bytes.now }
        requires short { length bytes.now < 2 ^ 32 }
        ensures asked { AsksFor (one_write op sock bytes.now) (seen_by self.old) (seen_by self.new)
            (λ told. told) result }
        ensures fits { IfOk result (λ told. IsWritten (length bytes.now) told) }
        ensures err { OnErr result (seen_by self.new ≡ seen_by self.old) }

        // Which answer it is, which call of the system is made for it, and what is left of the
        // sockets.
        ensures told { IfOk result (λ told. AnswersAt (WriteDoes bytes.now)
            (Told.Code ErrorCode.InvalidState) sock (sides_of self.old sock) (sides_of self.old)
            told (sides_of self.new) (S.acts (system_of self.old)) (S.acts (system_of self.new))) }
        ensures sides { OnErr result (Same (sides_of self.old) (sides_of self.new)) }
        ensures quiet { OnErr result (S.acts (system_of self.new)
            ≡ S.acts (system_of self.old)) }
        ensures owned { Owned (sides_of self.old) (S.acts (system_of self.old))
            → Owned (sides_of self.new) (S.acts (system_of self.new)) }
        ensures policy { policy_in self.new ≡ policy_in self.old }
        ensures names { names_in self.new ≡ names_in self.old }
    {
        let _ = op;
        self.network.reserve()?;
        let told = self.network.write(sock, bytes)?;
        self.network.note(sock, Readiness::Write, &told);
        self.faults = count_after(self.faults, &told);
        Ok(told)
    }

    fn send(
        &mut self,
        op: OpId,
        sock: Sock,
        addr: IpSocketAddress,
        bytes: &[u8],
    ) -> Result<Told, AllocError>
        requires open { (seen_by self.old).ended ≡ false }
        ensures asked { AsksFor (one op (Call.Send sock addr bytes.now)) (seen_by self.old)
            (seen_by self.new) (λ told. told) result }
        ensures err { OnErr result (seen_by self.new ≡ seen_by self.old) }

        // Which answer it is, which call of the system is made for it, and what is left of the
        // sockets.
        ensures told { IfOk result (λ told. AnswersAt (λ k. Stays (SendDoes k.fd addr bytes.now) k)
            (Told.Code ErrorCode.InvalidState) sock (sides_of self.old sock) (sides_of self.old)
            told (sides_of self.new) (S.acts (system_of self.old)) (S.acts (system_of self.new))) }
        ensures sides { OnErr result (Same (sides_of self.old) (sides_of self.new)) }
        ensures quiet { OnErr result (S.acts (system_of self.new)
            ≡ S.acts (system_of self.old)) }
        ensures owned { Owned (sides_of self.old) (S.acts (system_of self.old))
            → Owned (sides_of self.new) (S.acts (system_of self.new)) }
        ensures policy { policy_in self.new ≡ policy_in self.old }
        ensures names { names_in self.new ≡ names_in self.old }
    {
        let _ = op;
        self.network.reserve()?;
        let told = self.network.send(sock, addr, bytes);
        self.network.note(sock, Readiness::Write, &told);
        self.faults = count_after(self.faults, &told);
        Ok(told)
    }

    fn end(&mut self)
        requires open { (seen_by self.old).ended ≡ false }
        ensures mark { Ends (seen_by self.old) (seen_by self.new) }
        ensures none { NoneNamed None }
        ensures owned { Owned (sides_of self.old) (S.acts (system_of self.old))
            → Owned (sides_of self.new) (S.acts (system_of self.new)) }
    {
        self.ended = true;
    }

    fn close_after_end(&mut self, sock: Sock)
        requires ended { (seen_by self.old).ended ≡ true }
        ensures counted { Closes (seen_by self.old) (seen_by self.new) }
        ensures named { Named None sock None }
        ensures closes { ClosesOnly sock (sides_of self.old) (sides_of self.new)
            (S.acts (system_of self.old)) (S.acts (system_of self.new)) }
        ensures owned { Owned (sides_of self.old) (S.acts (system_of self.old))
            → Owned (sides_of self.new) (S.acts (system_of self.new)) }
        ensures policy { policy_in self.new ≡ policy_in self.old }
        ensures names { names_in self.new ≡ names_in self.old }
    {
        self.network.close(sock);
        self.closings = self.closings.saturating_add(1);
    }
}

impl<S: System> Waits for SystemWorld<S> {
    ghost use Rattle.wasi_net.specs.Owned.{Owned};
    ghost use Rattle.wasi_net.specs.Net.{seen_by, policy_in, names_in, sides_of, system_of};

    /// Waits until a socket that an earlier answer left pending may go on, for at most so many
    /// milliseconds, or without limit where they are negative; and whether one may. No processor
    /// time is used meanwhile. What may go on isn't waited for again until a call on it is pending
    /// once more.
    fn wait(&mut self, timeout: i32) -> bool
        ensures seen { seen_by self.new ≡ seen_by self.old }
        ensures policy { policy_in self.new ≡ policy_in self.old }
        ensures names { names_in self.new ≡ names_in self.old }
        ensures sides { sides_of self.new ≡ sides_of self.old }
        ensures owned { Owned (sides_of self.old) (S.acts (system_of self.old))
            → Owned (sides_of self.new) (S.acts (system_of self.new)) }
    {
        self.network.wait(timeout)
    }
}
