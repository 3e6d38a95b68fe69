//! The planned answers of every kind, and how far they are used.

ghost use Rattle.std.specs.Prelude.{◌≡◌, ◌<◌, IfOk, OnOk, OnErr, Some, None, true, length, []};
ghost use Rattle.std.specs.Prelude.{slice_get, option_map, IfSome};
ghost use Rattle.wasi_world.specs.Asks.{IsFront};
ghost use Rattle.wasi_world.specs.Fits.{Fits};
ghost use Rattle.world_scripted.specs.declared.lists.TheConstants.{KINDS};
ghost use Rattle.wasi_world.specs.Kinds.{place, kind_of, takes};
ghost use Rattle.world_scripted.specs.Queued.{no_answers, with_answer};
ghost use Rattle.wasi_world.specs.Script.{Offers, offered, given, as_planned, waiting, plan_after};

use crate::queue::Queue;
use std::alloc::{AllocError, Global};
use std::marker::Model;
use wasi_world::{Call, Kind, Planned, Told};

/// How many kinds there are.
const KINDS: usize = 23;

/// The place of a kind's list.
fn place(kind: Kind) -> usize
    ensures place { result ≡ place kind }
    ensures within { result < KINDS }
{
    kind as usize
}

/// The kind of answer that a call takes; none where it is always done.
pub(crate) fn kind_of(call: &Call) -> Option<Kind>
    ensures { result ≡ kind_of call.now }
{
    match call {
        Call::Check { .. } => Some(Kind::Check),
        Call::Lookup { .. } => Some(Kind::Lookup),
        Call::TcpCreate { .. } => Some(Kind::TcpCreate),
        Call::UdpCreate { .. } => Some(Kind::UdpCreate),
        Call::UdpWritable { .. } => Some(Kind::UdpWritable),
        Call::Local { .. } => Some(Kind::Local),
        Call::Peer { .. } => Some(Kind::Peer),
        Call::Bind { .. } => Some(Kind::Bind),
        Call::UdpBind { .. } => Some(Kind::UdpBind),
        Call::UdpConnect { .. } => Some(Kind::UdpConnect),
        Call::Listen { .. } => Some(Kind::Listen),
        Call::SetBacklog { .. } => Some(Kind::SetBacklog),
        Call::Connect { .. } => Some(Kind::Connect),
        Call::Accept { .. } => Some(Kind::Accept),
        Call::Read { .. } => Some(Kind::Read),
        Call::ReadReady { .. } => Some(Kind::ReadReady),
        Call::WriteReady { .. } => Some(Kind::WriteReady),
        Call::Write { .. } => Some(Kind::Write),
        Call::UdpDisconnect { .. } => Some(Kind::UdpDisconnect),
        Call::Send { .. } => Some(Kind::Send),
        Call::Recv { .. } => Some(Kind::Recv),
        Call::GetOption { .. } => Some(Kind::GetOption),
        Call::SetOption { .. } => Some(Kind::SetOption),
        Call::Hand { .. }
        | Call::Refuse { .. }
        | Call::Shutdown { .. }
        | Call::Close { .. }
        | Call::Made { .. } => None,
    }
}

/// A list of answers for each kind, which a scripted world uses in order. Contracts see all of
/// them, and those that are left.
#[derive(Drop)]
pub struct Lists {
    queues: Vec<Queue>,
}

impl Model for Lists {
    ghost use Rattle.world_scripted.specs.Queued.{Listed, IsListed, listed};

    ghost Value = { Listed };

    ghost view = { λ l. listed l.queues.items };

    ghost invariant = { λ l. IsListed l.queues.items };
}

impl Lists {
    ghost use Rattle.world_scripted.specs.Queued.{Listed};

    /// No answers of any kind; takes memory for the lists.
    pub fn new(alloc: Global) -> Result<Lists, AllocError>
        ensures { IfOk result (λ lists. lists ≡ record { all = no_answers; left = no_answers }) }
    {
        let mut queues = Vec::new(alloc);
        for _ in 0..KINDS {
            queues.push(Queue::new(alloc))?;
        }
        Ok(Lists { queues })
    }

    /// Plans one answer more of this kind, the last.
    pub fn push(&mut self, kind: Kind, answer: Planned) -> Result<(), AllocError>
        requires { takes kind answer ≡ true }
        ensures ok { OnOk result (self.new ≡ record {
          all = with_answer self.old.all kind answer;
          left = with_answer self.old.left kind answer;
        }) }
        ensures err { OnErr result (self.new ≡ self.old) }
    {
        let queue = &mut self.queues[place(kind)];
        queue.push(answer)?;
        Ok(())
    }

    /// What the next of its answers gives a call; none where all are used, or the call takes none.
    /// `bytes` are those that a write offers. Takes memory for bytes and names.
    pub(crate) fn tell(
        &self,
        alloc: Global,
        call: &Call,
        bytes: &[u8],
    ) -> Result<Option<Told>, AllocError>
        requires some { Offers call.now }
        requires offered { length bytes.now ≡ offered call.now }
        ensures told { IfOk result (λ told. option_map as_planned told
            ≡ option_map (given call.now) (slice_get (waiting self.now.left (kind_of call.now))
            0)) }
        ensures fits { IfOk result (λ told. IfSome told (λ told. Fits call.now told)) }
        ensures front { IfOk result (λ told. IfSome told (λ told. IsFront told bytes.now)) }
    {
        match kind_of(call) {
            Some(kind) => self.queues[place(kind)].tell(alloc, call, bytes),
            None => Ok(None),
        }
    }

    /// Whether no answer is left for the call, or it takes none.
    pub(crate) fn is_used_up(&self, call: &Call) -> bool
        ensures { result ≡ true → waiting self.now.left (kind_of call.now) ≡ [] }
    {
        match kind_of(call) {
            Some(kind) => self.queues[place(kind)].is_used_up(),
            None => true,
        }
    }

    /// Goes on to what is left after a call; takes no memory.
    pub(crate) fn advance(&mut self, call: &Call)
        ensures { self.new ≡ record {
          all = self.old.all;
          left = plan_after self.old.left call.now;
        } }
    {
        if let Some(kind) = kind_of(call) {
            let queue = &mut self.queues[place(kind)];
            queue.advance(call);
        }
    }
}
