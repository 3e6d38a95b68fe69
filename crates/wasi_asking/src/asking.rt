//! A world whose checks are decided by rules and by the embedder.

ghost use Rattle.std.specs.Prelude.{◌≡◌, ℕ, None, IfOk, IfSome, OnErr, false};
ghost use Rattle.wasi_world.specs.Asks.{one, AsksFor};
ghost use Rattle.wasi_world.specs.Fits.{Fits, IsPlain};
ghost use Rattle.wasi_world.specs.Seen.{Counts};
ghost use Rattle.wasi_asking.specs.Asking.{Answered, Decided, Refuses};

use crate::asks::{Ask, Asks, Question, Verdict};
use std::alloc::AllocError;
use wasi_addr::IpSocketAddress;
use wasi_decides::Decides;
use wasi_policy::Policy;
use wasi_world::{Call, OpId, Sock, Told, World};

/// A world round one that reports no log. A check goes by the first rule that matches; where none
/// does, it is left pending until the embedder answers, or told no where the embedder isn't asked.
/// What is allowed so is handed on, and told what the inner world says. Every other call is handed
/// on.
#[derive(Drop)]
pub struct AskingWorld<W: World> {
    policy: Policy,
    asks: Option<Asks>,
    inner: W,
    ghost silent: { (W.seen inner).log ≡ None },
}

impl<W: World> AskingWorld<W> {
    /// A world under these rules, round one that reports no log. The checks that no rule decides
    /// are kept in `asks`; without it they are told no. Takes no memory.
    pub fn new(policy: Policy, asks: Option<Asks>, inner: W) -> AskingWorld<W>
        requires { (W.seen inner).log ≡ None }
        ensures { W.seen result.inner ≡ W.seen inner }
    {
        AskingWorld {
            policy,
            asks,
            inner,
        }
    }

    /// The world that it hands on to.
    pub fn inner(&self) -> &W
        ensures { result.now ≡ self.now.inner }
    {
        &self.inner
    }

    /// The first check after this number that waits for the embedder.
    pub fn first_after(&self, number: u64) -> Option<Ask> {
        match &self.asks {
            Some(asks) => asks.first_after(number),
            None => None,
        }
    }

    /// What the rules and the embedder say of a check. Takes memory for one that the embedder
    /// wasn't asked before.
    fn verdict(&mut self, question: Question) -> Result<Verdict, AllocError>
        ensures inner { self.new.inner ≡ self.old.inner }
        ensures policy { self.new.policy ≡ self.old.policy }
        ensures decided { IfOk result (λ verdict. Decided self.old.policy self.old.asks question
            verdict self.new.asks) }
    {
        let decision = self.policy.decide(question.address, question.usage);
        if decision.allow {
            return Ok(Verdict::Yes);
        }
        if decision.rule != 0 {
            return Ok(Verdict::No);
        }
        match &mut self.asks {
            Some(asks) => asks.verdict(question),
            None => Ok(Verdict::No),
        }
    }

    /// What a check is told by the rules and the embedder; a call that they allow, or that is no
    /// check, isn't told anything yet.
    fn refusal(&mut self, op: OpId, call: &Call) -> Result<Option<Told>, AllocError>
        ensures inner { self.new.inner ≡ self.old.inner }
        ensures policy { self.new.policy ≡ self.old.policy }
        ensures refused { IfOk result (λ refusal. Refuses self.old.policy self.old.asks op call.now
            refusal self.new.asks) }
        ensures fits { IfOk result (λ answer. IfSome answer (Fits call.now)) }
        ensures uncounted { IfOk result (λ answer. IfSome answer (λ told. (n : ℕ)
            → Counts told n n)) }
    {
        let Call::Check { ctx, addr, usage } = call else {
            return Ok(None);
        };
        let question = Question {
            op,
            context: *ctx,
            address: *addr,
            usage: *usage,
        };
        match self.verdict(question)? {
            Verdict::Yes => Ok(None),
            Verdict::No => Ok(Some(Told::No)),
            Verdict::Later => Ok(Some(Told::Pending)),
        }
    }
}

impl<W: World> World for AskingWorld<W> {
    ghost seen = { λ world. W.seen world.inner };

    ghost closed = { λ world. W.closed world.inner };

    ghost scripted = { λ world. W.scripted world.inner };

    fn call(&mut self, op: OpId, call: Call) -> Result<Told, AllocError>
        requires open { (W.seen self.old.inner).ended ≡ false }
        requires plain { IsPlain call }
        ensures asked { AsksFor (one op call) (W.seen self.old.inner) (W.seen self.new.inner)
            (λ told. told) result }
        ensures fits { IfOk result (λ told. Fits call told) }
        ensures err { OnErr result (W.seen self.new.inner ≡ W.seen self.old.inner) }
        ensures policy { self.new.policy ≡ self.old.policy }
        ensures answered { IfOk result (λ told. Answered self.old.policy self.old.asks op call told
            self.new.asks (self.new.inner ≡ self.old.inner)) }
    {
        if let Some(told) = self.refusal(op, &call)? {
            return Ok(told);
        }
        self.inner.call(op, call)
    }

    fn write(&mut self, op: OpId, sock: Sock, bytes: &[u8]) -> Result<Told, AllocError> {
        self.inner.write(op, sock, bytes)
    }

    fn send(
        &mut self,
        op: OpId,
        sock: Sock,
        addr: IpSocketAddress,
        bytes: &[u8],
    ) -> Result<Told, AllocError> {
        self.inner.send(op, sock, addr, bytes)
    }

    fn end(&mut self) {
        self.inner.end();
    }

    fn close_after_end(&mut self, sock: Sock) {
        self.inner.close_after_end(sock);
    }
}

impl<W: World> Decides for AskingWorld<W> {
    fn decide(&mut self, ask: u64, yes: bool) -> bool {
        match &mut self.asks {
            Some(asks) => asks.answer(ask, yes),
            None => false,
        }
    }
}
