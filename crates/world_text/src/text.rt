//! The text of an entry of a log: its operation, its call and its answer, as in
//! `3 0 bind 2 0 4 127 0 0 1 80 = done`. A log has such lines, and a transcript too.

ghost use Rattle.std.specs.Prelude.{◌≡◌, ◌∷◌, ◌++◌, [], Some, codes, decimal};
ghost use Rattle.std.specs.Fmt.{DisplaysOnOk};
ghost use Rattle.hex.specs.Hex.{encode_lower};
ghost use Rattle.world_text.specs.Written.{family_number};
ghost use Rattle.world_text.specs.Fields.{line_with, bytes_text};
ghost use Rattle.world_text.specs.EntryText.{sock_text, maybe_sock_text, maybe_handle_text};
ghost use Rattle.world_text.specs.EntryText.{address_text, ip_text, on_text, to_text};
ghost use Rattle.world_text.specs.EntryText.{with_number_text, create_text, call_text};
ghost use Rattle.world_text.specs.EntryText.{use_text, option_text, handle_kind_text};
ghost use Rattle.world_text.specs.EntryText.{told_text, entry_text};

use crate::fields::code_text;
use crate::spelling::{call_word, half_word, handle_kind_word, option_word, use_word};
use std::fmt;
use wasi_addr::{
    IpAddress, IpSocketAddress, Ipv4SocketAddress, Ipv6SocketAddress, ShutdownType, SocketAddrUse,
    SocketAddressFamily,
};
use wasi_world::{Call, Entry, HandleKind, Opt, Sock, Told};

/// The name of an operation, or of the socket that it made, as two fields: the number of the line
/// that began it, and its part of that line.
#[derive(Clone, Copy)]
struct SockText(Sock);

impl fmt::Display for SockText {
    ghost output = { λ sock. Some (sock_text sock.0) };

    fn fmt<W: fmt::Write>(&self, f: &mut fmt::Formatter<W>) -> fmt::Result {
        let Sock { step, part } = self.0;
        write!(f, "{step} {part}")
    }
}

/// A socket's name as two fields, or a dash.
#[derive(Clone, Copy)]
struct MaybeSock(Option<Sock>);

impl fmt::Display for MaybeSock {
    ghost output = { λ sock. Some (maybe_sock_text sock.0) };

    fn fmt<W: fmt::Write>(&self, f: &mut fmt::Formatter<W>) -> fmt::Result {
        match self.0 {
            Some(sock) => write!(f, "{}", SockText(sock)),
            None => write!(f, "-"),
        }
    }
}

/// A handle's number, or a dash.
#[derive(Clone, Copy)]
struct MaybeHandle(Option<u32>);

impl fmt::Display for MaybeHandle {
    ghost output = { λ handle. Some (maybe_handle_text handle.0) };

    fn fmt<W: fmt::Write>(&self, f: &mut fmt::Formatter<W>) -> fmt::Result {
        match self.0 {
            Some(handle) => write!(f, "{handle}"),
            None => write!(f, "-"),
        }
    }
}

/// The number that a family is written as.
fn family_number(family: SocketAddressFamily) -> u8
    ensures { result ≡ family_number family }
{
    match family {
        SocketAddressFamily::Ipv4 => 4,
        SocketAddressFamily::Ipv6 => 6,
    }
}

/// An address with its port, as fields.
#[derive(Clone, Copy)]
struct AddressText(IpSocketAddress);

impl fmt::Display for AddressText {
    ghost output = { λ addr. Some (address_text addr.0) };

    fn fmt<W: fmt::Write>(&self, f: &mut fmt::Formatter<W>) -> fmt::Result {
        match self.0 {
            IpSocketAddress::Ipv4(Ipv4SocketAddress { address, port }) => {
                write!(f, "{} {port}", IpText(IpAddress::Ipv4(address)))
            }
            IpSocketAddress::Ipv6(
                Ipv6SocketAddress {
                    address,
                    port,
                    flow_info,
                    scope_id,
                },
            ) => {
                let ip = IpText(IpAddress::Ipv6(address));
                write!(f, "{ip} {port} {flow_info} {scope_id}")
            }
        }
    }
}

/// An address without a port, as fields.
#[derive(Clone, Copy)]
struct IpText(IpAddress);

impl fmt::Display for IpText {
    ghost output = { λ addr. Some (ip_text addr.0) };

    fn fmt<W: fmt::Write>(&self, f: &mut fmt::Formatter<W>) -> fmt::Result {
        match self.0 {
            IpAddress::Ipv4((a, b, c, d)) => {
                let family = family_number(SocketAddressFamily::Ipv4);
                write!(f, "{family} {a} {b} {c} {d}")
            }
            IpAddress::Ipv6((a, b, c, d, e, g, h, i)) => {
                let family = family_number(SocketAddressFamily::Ipv6);
                write!(f, "{family} {a} {b} {c} {d} {e} {g} {h} {i}")
            }
        }
    }
}

/// Writes a byte as two hexadecimal digits.
fn write_byte<W: fmt::Write>(f: &mut fmt::Formatter<W>, byte: u8) -> fmt::Result
    ensures { DisplaysOnOk W.write_str_gives f.old result (Some (encode_lower (byte ∷ []))) f.new }
{
    write!(f, "{byte:02x}")
}

/// Bytes as a field: two hexadecimal digits each, or a dash for none.
#[derive(Clone, Copy)]
struct BytesText<'a>(&'a [u8]);

impl fmt::Display for BytesText<'_> {
    ghost output = { λ bytes. Some (bytes_text bytes.0.now) };

    fn fmt<W: fmt::Write>(&self, f: &mut fmt::Formatter<W>) -> fmt::Result {
        if self.0.is_empty() {
            return write!(f, "-");
        }
        for byte in self.0 {
            write_byte(f, *byte)?;
        }
        Ok(())
    }
}

/// Writes an address without a port, with a space before it.
fn write_ip<W: fmt::Write>(f: &mut fmt::Formatter<W>, addr: IpAddress) -> fmt::Result
    ensures { DisplaysOnOk W.write_str_gives f.old result (Some (codes " " ++ ip_text addr)) f.new }
{
    write!(f, " {}", IpText(addr))
}

/// Addresses without ports, each with a space before it.
#[derive(Clone, Copy)]
struct IpsText<'a>(&'a [IpAddress]);

impl fmt::Display for IpsText<'_> {
    ghost use Rattle.world_text.specs.EntryText.{ips_text};

    ghost output = { λ addresses. Some (ips_text addresses.0.now) };

    fn fmt<W: fmt::Write>(&self, f: &mut fmt::Formatter<W>) -> fmt::Result {
        for addr in self.0 {
            write_ip(f, *addr)?;
        }
        Ok(())
    }
}

/// Writes a call on a socket: its word, and the socket.
fn write_on<W: fmt::Write>(f: &mut fmt::Formatter<W>, word: &str, sock: Sock) -> fmt::Result
    ensures { DisplaysOnOk W.write_str_gives f.old result (Some (on_text word.now sock)) f.new }
{
    write!(f, "{word} {}", SockText(sock))
}

/// Writes a call on a socket, about an address.
fn write_to<W: fmt::Write>(
    f: &mut fmt::Formatter<W>,
    word: &str,
    sock: Sock,
    addr: IpSocketAddress,
) -> fmt::Result
    ensures { DisplaysOnOk W.write_str_gives f.old result (Some (to_text word.now sock addr))
        f.new }
{
    write!(f, "{word} {} {}", SockText(sock), AddressText(addr))
}

/// Writes a call on a socket, with a number.
fn write_with_number<W: fmt::Write>(
    f: &mut fmt::Formatter<W>,
    word: &str,
    sock: Sock,
    number: u32,
) -> fmt::Result
    ensures { DisplaysOnOk W.write_str_gives f.old result
        (Some (with_number_text word.now sock number)) f.new }
{
    write!(f, "{word} {} {number}", SockText(sock))
}

/// Writes a call that makes a socket.
fn write_create<W: fmt::Write>(
    f: &mut fmt::Formatter<W>,
    word: &str,
    ctx: u32,
    family: SocketAddressFamily,
) -> fmt::Result
    ensures { DisplaysOnOk W.write_str_gives f.old result (Some (create_text word.now ctx family))
        f.new }
{
    write!(f, "{word} {ctx} {}", family_number(family))
}

/// Writes a call on a socket, with a word.
fn write_with_word<W: fmt::Write>(
    f: &mut fmt::Formatter<W>,
    word: &str,
    sock: Sock,
    other: &str,
) -> fmt::Result
    ensures { DisplaysOnOk W.write_str_gives f.old result
        (Some (line_with (word.now ∷ sock_text sock ∷ other.now ∷ []))) f.new }
{
    write!(f, "{word} {} {other}", SockText(sock))
}

/// Writes the setting of an option.
fn write_setting<W: fmt::Write>(
    f: &mut fmt::Formatter<W>,
    word: &str,
    sock: Sock,
    option: Opt,
    value: u64,
) -> fmt::Result
    ensures { DisplaysOnOk W.write_str_gives f.old result
        (Some (line_with (word.now ∷ sock_text sock ∷ option_text option ∷ decimal value ∷ [])))
        f.new }
{
    let option = option_word(option);
    write!(f, "{word} {} {option} {value}", SockText(sock))
}

/// Writes a call that asks whether an address may be used.
fn write_check<W: fmt::Write>(
    f: &mut fmt::Formatter<W>,
    word: &str,
    ctx: u32,
    addr: IpSocketAddress,
    usage: SocketAddrUse,
) -> fmt::Result
    ensures { DisplaysOnOk W.write_str_gives f.old result
        (Some (line_with (word.now ∷ decimal ctx ∷ address_text addr ∷ use_text usage ∷ [])))
        f.new }
{
    let usage = use_word(usage);
    write!(f, "{word} {ctx} {} {usage}", AddressText(addr))
}

/// Writes a call that sends a datagram.
fn write_send<W: fmt::Write>(
    f: &mut fmt::Formatter<W>,
    word: &str,
    sock: Sock,
    addr: IpSocketAddress,
    bytes: &[u8],
) -> fmt::Result
    ensures { DisplaysOnOk W.write_str_gives f.old result
        (Some (line_with (word.now ∷ sock_text sock ∷ address_text addr ∷ bytes_text bytes.now
        ∷ []))) f.new }
{
    write!(
        f,
        "{word} {} {} {}",
        SockText(sock),
        AddressText(addr),
        BytesText(bytes)
    )
}

/// Writes that a handle was made.
fn write_made<W: fmt::Write>(
    f: &mut fmt::Formatter<W>,
    word: &str,
    handle: u32,
    kind: HandleKind,
    parent: Option<u32>,
    sock: Option<Sock>,
) -> fmt::Result
    ensures { DisplaysOnOk W.write_str_gives f.old result
        (Some (line_with (word.now ∷ decimal handle ∷ handle_kind_text kind ∷ maybe_handle_text
        parent ∷ maybe_sock_text sock ∷ []))) f.new }
{
    let kind = handle_kind_word(kind);
    write!(
        f,
        "{word} {handle} {kind} {} {}",
        MaybeHandle(parent),
        MaybeSock(sock)
    )
}

/// A call as in a log: its word and its fields, as `bind 2 0 4 127 0 0 1 80`.
#[derive(Clone, Copy)]
pub struct CallText<'a>(pub &'a Call);

impl fmt::Display for CallText<'_> {
    ghost output = { λ call. Some (call_text call.0.now) };

    fn fmt<W: fmt::Write>(&self, f: &mut fmt::Formatter<W>) -> fmt::Result {
        let word = call_word(self.0);
        match self.0 {
            Call::Check { ctx, addr, usage } => write_check(f, word, *ctx, *addr, *usage),
            Call::Lookup { host } => write!(f, "{word} {}", BytesText(host.as_slice())),
            Call::TcpCreate { ctx, family } | Call::UdpCreate { ctx, family } => {
                write_create(f, word, *ctx, *family)
            }
            Call::UdpWritable { sock }
            | Call::Local { sock }
            | Call::Peer { sock }
            | Call::Accept { sock }
            | Call::ReadReady { sock }
            | Call::WriteReady { sock }
            | Call::UdpDisconnect { sock }
            | Call::Recv { sock }
            | Call::Close { sock } => write_on(f, word, *sock),
            Call::Bind { sock, addr }
            | Call::UdpBind { sock, addr }
            | Call::UdpConnect { sock, addr }
            | Call::Connect { sock, addr }
            | Call::Hand { sock, peer: addr }
            | Call::Refuse { sock, peer: addr } => write_to(f, word, *sock, *addr),
            Call::Listen {
                sock,
                backlog: number,
            }
            | Call::SetBacklog {
                sock,
                backlog: number,
            }
            | Call::Read { sock, size: number }
            | Call::Write {
                sock,
                offered: number,
            } => write_with_number(f, word, *sock, *number),
            Call::Shutdown { sock, how } => write_with_word(f, word, *sock, half_word(*how)),
            Call::Send { sock, addr, bytes } => {
                write_send(f, word, *sock, *addr, bytes.as_slice())
            }
            Call::GetOption { sock, option } => {
                write_with_word(f, word, *sock, option_word(*option))
            }
            Call::SetOption {
                sock,
                option,
                value,
            } => write_setting(f, word, *sock, *option, *value),
            Call::Made {
                handle,
                kind,
                parent,
                sock,
            } => write_made(f, word, *handle, *kind, *parent, *sock),
        }
    }
}

/// An answer as in a log: its word and its fields, as `took 0102`.
#[derive(Clone, Copy)]
pub struct ToldText<'a>(pub &'a Told);

impl fmt::Display for ToldText<'_> {
    ghost output = { λ told. Some (told_text told.0.now) };

    fn fmt<W: fmt::Write>(&self, f: &mut fmt::Formatter<W>) -> fmt::Result {
        match self.0 {
            Told::Pending => write!(f, "pending"),
            Told::Done => write!(f, "done"),
            Told::Yes => write!(f, "yes"),
            Told::No => write!(f, "no"),
            Told::Code(code) => write!(f, "code {}", code_text(*code)),
            Told::Addr(addr) => write!(f, "addr {}", AddressText(*addr)),
            Told::Arrived(addr) => write!(f, "arrived {}", AddressText(*addr)),
            Told::Bytes(bytes) => write!(f, "bytes {}", BytesText(bytes.as_slice())),
            Told::Took(bytes) => write!(f, "took {}", BytesText(bytes.as_slice())),
            Told::Datagram(bytes, addr) => write!(
                f,
                "datagram {} {}",
                AddressText(*addr),
                BytesText(bytes.as_slice())
            ),
            Told::Value(value) => write!(f, "value {value}"),
            Told::Names(addresses) => write!(f, "names{}", IpsText(addresses.as_slice())),
        }
    }
}

/// An entry of a log, as `3 0 bind 2 0 4 127 0 0 1 80 = done`.
#[derive(Clone, Copy)]
pub struct EntryText<'a>(pub &'a Entry);

impl fmt::Display for EntryText<'_> {
    ghost output = { λ entry. Some (entry_text entry.0.now) };

    fn fmt<W: fmt::Write>(&self, f: &mut fmt::Formatter<W>) -> fmt::Result {
        let Entry { op, call, answer } = self.0;
        write!(
            f,
            "{} {} = {}",
            SockText(*op),
            CallText(call),
            ToldText(answer)
        )
    }
}
