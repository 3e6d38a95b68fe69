//! A world that notes what is asked of another one.

ghost use Rattle.std.specs.Prelude.{◌≡◌, ◌<◌, [], IfOk, OnErr, ◌∷◌, ◌++◌, vec_len};
ghost use Rattle.std.specs.Prelude.{vec_capacity};
ghost use Rattle.std.specs.Prelude.{◌≤◌, ◌^◌, false, true, length};
ghost use Rattle.wasi_world.specs.declared.call.Call.TheVariants.{Send};
ghost use Rattle.wasi_world.specs.Asks.{one, one_write, AsksFor};
ghost use Rattle.wasi_world.specs.Closings.{Named, NoneNamed};
ghost use Rattle.wasi_world.specs.Fits.{Fits, IsPlain, IsWritten};
ghost use Rattle.wasi_world.specs.Seen.{Closes, Counts, Ends};
ghost use Rattle.wasi_replay.specs.Noted.{seen_noted};
ghost use Rattle.wasi_replay.specs.Replayed.{entry};

use crate::replay_world::count_code;
use std::alloc::{AllocError, Global};
use wasi_addr::IpSocketAddress;
use wasi_decides::Decides;
use wasi_looks::{Look, WaitsForLooks};
use wasi_world::{Call, Entry, Octets, OpId, Sock, Told, Waits, World};

/// A world round another one, as one over the system's sockets. It hands every call on, once, and
/// returns what the other world answered; its own log is what it noted: each call with its answer.
///
/// Room for a note is taken before its call is handed on, but for the copy of an answer that holds
/// bytes or names: where there is no room for that, the call was made and isn't noted, and it is
/// out of memory, which ends a run.
#[derive(Drop)]
pub struct RecordingWorld<W: World> {
    inner: W,
    log: Vec<Entry>,
    faults: u64,
}

/// A copy of a call. Takes memory where it holds bytes.
fn copy_call(call: &Call) -> Result<Call, AllocError>
    ensures { IfOk result (λ copy. copy ≡ call.now) }
{
    match call {
        Call::Lookup { host } => {
            let host = host.try_clone()?;
            Ok(Call::Lookup { host })
        }
        Call::Send { sock, addr, bytes } => {
            let (sock, addr) = (*sock, *addr);
            let bytes = bytes.try_clone()?;
            Ok(Call::Send { sock, addr, bytes })
        }
        Call::Check { ctx, addr, usage } => Ok(Call::Check {
            ctx: *ctx,
            addr: *addr,
            usage: *usage,
        }),
        Call::TcpCreate { ctx, family } => Ok(Call::TcpCreate {
            ctx: *ctx,
            family: *family,
        }),
        Call::UdpCreate { ctx, family } => Ok(Call::UdpCreate {
            ctx: *ctx,
            family: *family,
        }),
        Call::UdpWritable { sock } => Ok(Call::UdpWritable { sock: *sock }),
        Call::Local { sock } => Ok(Call::Local { sock: *sock }),
        Call::Peer { sock } => Ok(Call::Peer { sock: *sock }),
        Call::Bind { sock, addr } => Ok(Call::Bind {
            sock: *sock,
            addr: *addr,
        }),
        Call::UdpBind { sock, addr } => Ok(Call::UdpBind {
            sock: *sock,
            addr: *addr,
        }),
        Call::UdpConnect { sock, addr } => Ok(Call::UdpConnect {
            sock: *sock,
            addr: *addr,
        }),
        Call::Listen { sock, backlog } => Ok(Call::Listen {
            sock: *sock,
            backlog: *backlog,
        }),
        Call::SetBacklog { sock, backlog } => Ok(Call::SetBacklog {
            sock: *sock,
            backlog: *backlog,
        }),
        Call::Connect { sock, addr } => Ok(Call::Connect {
            sock: *sock,
            addr: *addr,
        }),
        Call::Accept { sock } => Ok(Call::Accept { sock: *sock }),
        Call::Hand { sock, peer } => Ok(Call::Hand {
            sock: *sock,
            peer: *peer,
        }),
        Call::Refuse { sock, peer } => Ok(Call::Refuse {
            sock: *sock,
            peer: *peer,
        }),
        Call::Read { sock, size } => Ok(Call::Read {
            sock: *sock,
            size: *size,
        }),
        Call::ReadReady { sock } => Ok(Call::ReadReady { sock: *sock }),
        Call::WriteReady { sock } => Ok(Call::WriteReady { sock: *sock }),
        Call::Write { sock, offered } => Ok(Call::Write {
            sock: *sock,
            offered: *offered,
        }),
        Call::Shutdown { sock, how } => Ok(Call::Shutdown {
            sock: *sock,
            how: *how,
        }),
        Call::UdpDisconnect { sock } => Ok(Call::UdpDisconnect { sock: *sock }),
        Call::Recv { sock } => Ok(Call::Recv { sock: *sock }),
        Call::GetOption { sock, option } => Ok(Call::GetOption {
            sock: *sock,
            option: *option,
        }),
        Call::SetOption {
            sock,
            option,
            value,
        } => Ok(Call::SetOption {
            sock: *sock,
            option: *option,
            value: *value,
        }),
        Call::Close { sock } => Ok(Call::Close { sock: *sock }),
        Call::Made {
            handle,
            kind,
            parent,
            sock,
        } => Ok(Call::Made {
            handle: *handle,
            kind: *kind,
            parent: *parent,
            sock: *sock,
        }),
    }
}

impl<W: World> RecordingWorld<W> {
    /// A world round this one, of which nothing is noted yet. Takes no memory.
    pub fn new(alloc: Global, inner: W) -> RecordingWorld<W>
        ensures { seen_noted result.log.items result.faults (W.seen result.inner)
            ≡ seen_noted [] 0 (W.seen inner) }
    {
        RecordingWorld {
            inner,
            log: Vec::new(alloc),
            faults: 0,
        }
    }

    /// The calls that were noted, with their answers: its own log.
    pub fn entries(&self) -> &[Entry]
        ensures { result.now ≡ self.now.log.items }
    {
        self.log.as_slice()
    }

    /// The other world.
    pub fn inner(&self) -> &W
        ensures { result.now ≡ self.now.inner }
    {
        &self.inner
    }

    /// The calls that were noted, and the other world. Takes no memory.
    pub fn into_parts(self) -> (Vec<Entry>, W)
        ensures log { result.0.items ≡ self.log.items }
        ensures inner { result.1 ≡ self.inner }
    {
        (self.log, self.inner)
    }
}

/// Notes a call and its answer, for which there is room but for a copy of the answer.
fn note(
    log: &mut Vec<Entry>,
    faults: &mut u64,
    op: OpId,
    call: Call,
    told: Told,
) -> Result<Told, AllocError>
    requires { vec_len log.old < vec_capacity log.old }
    ensures log { IfOk result (λ answer. log.new.items ≡ log.old.items
        ++ entry op call answer ∷ []) }
    ensures told { IfOk result (λ answer. answer ≡ told) }
    ensures counted { IfOk result (λ answer. Counts answer faults.old faults.new) }
    ensures err { OnErr result (log.new.items ≡ log.old.items) }
    ensures uncounted { OnErr result (faults.new ≡ faults.old) }
{
    let answer = told.try_clone()?;
    log.push_reserved(Entry { op, call, answer });
    count_code(faults, &told);
    Ok(told)
}

impl<W: World> World for RecordingWorld<W> {
    ghost use Rattle.std.specs.Prelude.{Some};
    ghost use Rattle.wasi_world.specs.Script.{without_plan};
    ghost use Rattle.wasi_replay.specs.Noted.{seen_noted};

    ghost seen = { λ world. seen_noted world.log.items world.faults (W.seen world.inner) };

    ghost closed = { λ world. W.closed world.inner };

    ghost scripted = { λ world. without_plan (Some world.log.items) };

    fn call(&mut self, op: OpId, call: Call) -> Result<Told, AllocError>
        requires open { (seen_noted self.old.log.items self.old.faults (W.seen self.old.inner)).ended ≡ false }
        requires plain { IsPlain call }
        ensures asked { AsksFor (one op call)
            (seen_noted self.old.log.items self.old.faults (W.seen self.old.inner))
            (seen_noted self.new.log.items self.new.faults (W.seen self.new.inner))
            (λ told. told) result }
        ensures fits { IfOk result (λ told. Fits call told) }
        ensures err { OnErr result (seen_noted self.new.log.items self.new.faults (W.seen self.new.inner)
            ≡ seen_noted self.old.log.items self.old.faults (W.seen self.old.inner)) }
        ensures handed { AsksFor (one op call) (W.seen self.old.inner) (W.seen self.new.inner)
            (λ told. told) result }
    {
        self.log.reserve(1)?;
        let noted = copy_call(&call)?;
        let told = self.inner.call(op, call)?;
        note(&mut self.log, &mut self.faults, op, noted, told)
    }

    fn write(&mut self, op: OpId, sock: Sock, bytes: &[u8]) -> Result<Told, AllocError>
        requires open { (seen_noted self.old.log.items self.old.faults (W.seen self.old.inner)).ended ≡ false }
        requires some { 1 ≤ length bytes.now }
        requires short { length bytes.now < 2 ^ 32 }
        ensures asked { AsksFor (one_write op sock bytes.now)
            (seen_noted self.old.log.items self.old.faults (W.seen self.old.inner))
            (seen_noted self.new.log.items self.new.faults (W.seen self.new.inner))
            (λ told. told) result }
        ensures fits { IfOk result (λ told. IsWritten (length bytes.now) told) }
        ensures err { OnErr result (seen_noted self.new.log.items self.new.faults (W.seen self.new.inner)
            ≡ seen_noted self.old.log.items self.old.faults (W.seen self.old.inner)) }
        ensures handed { AsksFor (one_write op sock bytes.now) (W.seen self.old.inner)
            (W.seen self.new.inner) (λ told. told) result }
    {
        self.log.reserve(1)?;
        let offered = bytes.len() as u32;
        let told = self.inner.write(op, sock, bytes)?;
        let noted = Call::Write { sock, offered };
        note(&mut self.log, &mut self.faults, op, noted, told)
    }

    fn send(
        &mut self,
        op: OpId,
        sock: Sock,
        addr: IpSocketAddress,
        bytes: &[u8],
    ) -> Result<Told, AllocError>
        requires open { (seen_noted self.old.log.items self.old.faults (W.seen self.old.inner)).ended ≡ false }
        ensures asked { AsksFor (one op (Send sock addr bytes.now))
            (seen_noted self.old.log.items self.old.faults (W.seen self.old.inner))
            (seen_noted self.new.log.items self.new.faults (W.seen self.new.inner))
            (λ told. told) result }
        ensures err { OnErr result (seen_noted self.new.log.items self.new.faults (W.seen self.new.inner)
            ≡ seen_noted self.old.log.items self.old.faults (W.seen self.old.inner)) }
        ensures handed { AsksFor (one op (Send sock addr bytes.now)) (W.seen self.old.inner)
            (W.seen self.new.inner) (λ told. told) result }
    {
        self.log.reserve(1)?;
        let copy = Octets::copy_of(*self.log.allocator(), bytes)?;
        let told = self.inner.send(op, sock, addr, bytes)?;
        let noted = Call::Send {
            sock,
            addr,
            bytes: copy,
        };
        note(&mut self.log, &mut self.faults, op, noted, told)
    }

    fn end(&mut self)
        requires open { (seen_noted self.old.log.items self.old.faults (W.seen self.old.inner)).ended ≡ false }
        ensures mark { Ends (seen_noted self.old.log.items self.old.faults (W.seen self.old.inner))
            (seen_noted self.new.log.items self.new.faults (W.seen self.new.inner)) }
        ensures none { NoneNamed (W.closed self.new.inner) }
        ensures handed { Ends (W.seen self.old.inner) (W.seen self.new.inner) }
    {
        self.inner.end();
    }

    fn close_after_end(&mut self, sock: Sock)
        requires ended { (seen_noted self.old.log.items self.old.faults (W.seen self.old.inner)).ended ≡ true }
        ensures counted { Closes (seen_noted self.old.log.items self.old.faults (W.seen self.old.inner))
            (seen_noted self.new.log.items self.new.faults (W.seen self.new.inner)) }
        ensures named { Named (W.closed self.old.inner) sock (W.closed self.new.inner) }
        ensures handed { Closes (W.seen self.old.inner) (W.seen self.new.inner) }
    {
        self.inner.close_after_end(sock);
    }
}

impl<W: Waits> Waits for RecordingWorld<W> {
    fn wait(&mut self, timeout: i32) -> bool {
        self.inner.wait(timeout)
    }
}

impl<W: WaitsForLooks> WaitsForLooks for RecordingWorld<W> {
    fn wait_for(&mut self, looks: &[Look]) -> bool {
        self.inner.wait_for(looks)
    }

    fn let_looks_wait(&mut self, waits: bool) {
        self.inner.let_looks_wait(waits);
    }
}

impl<W: Decides> Decides for RecordingWorld<W> {
    fn decide(&mut self, ask: u64, yes: bool) -> bool {
        self.inner.decide(ask, yes)
    }
}
