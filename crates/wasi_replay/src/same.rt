//! Whether two calls are the same.

ghost use Rattle.std.specs.Prelude.{◌≡◌, IsTrue, ◌↔◌};

use wasi_world::Call;

/// Whether two calls are the same, with the same arguments.
pub fn same_call(one: &Call, other: &Call) -> bool
    ensures { IsTrue result ↔ (one.now ≡ other.now) }
{
    match one {
        Call::Lookup { host } => match other {
            Call::Lookup { host: h } => host.as_slice() == h.as_slice(),
            _ => false,
        },
        Call::Send { sock, addr, bytes } => match other {
            Call::Send {
                sock: s,
                addr: a,
                bytes: b,
            } => *sock == *s && *addr == *a && bytes.as_slice() == b.as_slice(),
            _ => false,
        },
        Call::Check { ctx, addr, usage } => match other {
            Call::Check {
                ctx: c,
                addr: a,
                usage: u,
            } => *ctx == *c && *addr == *a && *usage == *u,
            _ => false,
        },
        Call::TcpCreate { ctx, family } => match other {
            Call::TcpCreate { ctx: c, family: f } => *ctx == *c && *family == *f,
            _ => false,
        },
        Call::UdpCreate { ctx, family } => match other {
            Call::UdpCreate { ctx: c, family: f } => *ctx == *c && *family == *f,
            _ => false,
        },
        Call::UdpWritable { sock } => match other {
            Call::UdpWritable { sock: s } => *sock == *s,
            _ => false,
        },
        Call::Local { sock } => match other {
            Call::Local { sock: s } => *sock == *s,
            _ => false,
        },
        Call::Peer { sock } => match other {
            Call::Peer { sock: s } => *sock == *s,
            _ => false,
        },
        Call::Bind { sock, addr } => match other {
            Call::Bind { sock: s, addr: a } => *sock == *s && *addr == *a,
            _ => false,
        },
        Call::UdpBind { sock, addr } => match other {
            Call::UdpBind { sock: s, addr: a } => *sock == *s && *addr == *a,
            _ => false,
        },
        Call::UdpConnect { sock, addr } => match other {
            Call::UdpConnect { sock: s, addr: a } => *sock == *s && *addr == *a,
            _ => false,
        },
        Call::Listen { sock, backlog } => match other {
            Call::Listen {
                sock: s,
                backlog: b,
            } => *sock == *s && *backlog == *b,
            _ => false,
        },
        Call::SetBacklog { sock, backlog } => match other {
            Call::SetBacklog {
                sock: s,
                backlog: b,
            } => *sock == *s && *backlog == *b,
            _ => false,
        },
        Call::Connect { sock, addr } => match other {
            Call::Connect { sock: s, addr: a } => *sock == *s && *addr == *a,
            _ => false,
        },
        Call::Accept { sock } => match other {
            Call::Accept { sock: s } => *sock == *s,
            _ => false,
        },
        Call::Hand { sock, peer } => match other {
            Call::Hand { sock: s, peer: p } => *sock == *s && *peer == *p,
            _ => false,
        },
        Call::Refuse { sock, peer } => match other {
            Call::Refuse { sock: s, peer: p } => *sock == *s && *peer == *p,
            _ => false,
        },
        Call::Read { sock, size } => match other {
            Call::Read { sock: s, size: si } => *sock == *s && *size == *si,
            _ => false,
        },
        Call::ReadReady { sock } => match other {
            Call::ReadReady { sock: s } => *sock == *s,
            _ => false,
        },
        Call::WriteReady { sock } => match other {
            Call::WriteReady { sock: s } => *sock == *s,
            _ => false,
        },
        Call::Write { sock, offered } => match other {
            Call::Write {
                sock: s,
                offered: o,
            } => *sock == *s && *offered == *o,
            _ => false,
        },
        Call::Shutdown { sock, how } => match other {
            Call::Shutdown { sock: s, how: h } => *sock == *s && *how == *h,
            _ => false,
        },
        Call::UdpDisconnect { sock } => match other {
            Call::UdpDisconnect { sock: s } => *sock == *s,
            _ => false,
        },
        Call::Recv { sock } => match other {
            Call::Recv { sock: s } => *sock == *s,
            _ => false,
        },
        Call::GetOption { sock, option } => match other {
            Call::GetOption { sock: s, option: o } => *sock == *s && *option == *o,
            _ => false,
        },
        Call::SetOption {
            sock,
            option,
            value,
        } => match other {
            Call::SetOption {
                sock: s,
                option: o,
                value: v,
            } => *sock == *s && *option == *o && *value == *v,
            _ => false,
        },
        Call::Close { sock } => match other {
            Call::Close { sock: s } => *sock == *s,
            _ => false,
        },
        Call::Made {
            handle,
            kind,
            parent,
            sock,
        } => match other {
            Call::Made {
                handle: h,
                kind: k,
                parent: p,
                sock: s,
            } => *handle == *h && *kind == *k && *parent == *p && *sock == *s,
            _ => false,
        },
    }
}
