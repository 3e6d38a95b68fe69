//! The fields of a line, which scripts and scenarios share.

ghost use Rattle.std.specs.Prelude.{IsUtf8, ◌≢◌, OnErr, ◌<◌, ◌^◌};
ghost use Rattle.std.specs.Prelude.{option_copied, IfOk, ◌≡◌, ◌≤◌, ℕ, List, ◌∷◌, [], decimal, Some};
ghost use Rattle.std.specs.Prelude.{IsTrue, ◌↔◌, IfSome, IfNone, position};
ghost use Rattle.world_text.specs.Written.{ReadsExactly, AreVisible, AreBytes, number_fields};
ghost use Rattle.world_text.specs.Written.{family_fields, ip_fields, address_fields, code_fields};
ghost use Rattle.world_text.specs.Written.{bytes_fields, FitsIp, FitsAddress};
ghost use Rattle.world_text.specs.Fields.{fields_of, line_with, is_space, Reads};
ghost use Rattle.world_text.specs.Fields.{code_text, code_in};
ghost use Rattle.world_text.specs.Fields.{code_at, bytes_at, BeginsPlain, rest_at, word_at};
ghost use Rattle.world_text.specs.Fields.{number_in, number_at, family_of, family_at, ipv4_at};
ghost use Rattle.world_text.specs.Fields.{ipv6_at, ip_at, address_at};

use crate::digits::octets;
use memchr::memchr;
use std::alloc::{AllocError, Global};
use std::marker::Model;
use wasi_addr::{
    ErrorCode, IpAddress, IpSocketAddress, Ipv4SocketAddress, Ipv6SocketAddress,
    SocketAddressFamily,
};
use wasi_world::Octets;

/// The fields of a line that are left to read, which contracts see as a list. Fields are separated
/// by exactly one space, so an empty line has one field, which is empty. It takes no memory.
#[derive(Drop)]
pub struct Fields<'a> {
    rest: Option<&'a [u8]>,
}

impl<'a> Model for Fields<'a> {
    ghost use Rattle.std.specs.Prelude.{List, ℕ};
    ghost use Rattle.world_text.specs.Fields.{fields_left};

    ghost Value = { List (List ℕ) };

    ghost view = { λ f. fields_left f.rest };
}

/// The first space of the bytes.
fn space_in(bytes: &[u8]) -> Option<usize>
    ensures { result ≡ position is_space bytes.now }
{
    memchr(b' ', bytes)
}

impl<'a> Fields<'a> {
    /// The fields of a whole line, without its newline.
    pub fn of(line: &'a [u8]) -> Fields<'a>
        ensures { result ≡ fields_of line.now }
    {
        Fields { rest: Some(line) }
    }

    /// Takes the next field; there is none exactly at the end.
    pub fn next(&mut self) -> Option<&'a [u8]>
        ensures first { IfSome result (λ field. self.old ≡ field.now ∷ self.new) }
        ensures end { IfNone result ((self.old ≡ []) × (self.new ≡ [])) }
    {
        let line = self.rest?;
        match space_in(line) {
            Some(at) => {
                self.rest = Some(&line[at + 1..]);
                Some(&line[..at])
            }
            None => {
                self.rest = None;
                Some(line)
            }
        }
    }

    /// A copy of these fields: reading it takes none of them from these.
    fn copied(&self) -> Fields<'a>
        ensures { result ≡ self.now }
    {
        Fields { rest: self.rest }
    }

    /// Whether no field is left.
    pub fn is_done(&self) -> bool
        ensures { IsTrue result ↔ (self.now ≡ []) }
    {
        self.rest.is_none()
    }

    /// Takes all that is left of the line, with the spaces in it; there is nothing exactly at the
    /// end.
    #[tactic(auto, unfolding(crate::specs::Fields::rest_at))]
    pub fn rest(&mut self) -> Option<&'a [u8]>
        ensures { Reads rest_at self.old (option_copied result) self.new }
    {
        let line = self.rest?;
        self.rest = None;
        Some(line)
    }

    /// Takes the next field, if it is text; else nothing is taken.
    pub fn word(&mut self) -> Option<&'a str>
        ensures read { Reads word_at self.old (option_copied result) self.new }
        ensures kept { IfNone result (self.new ≡ self.old) }
    {
        let mut fields = self.copied();
        let text = fields.read_word()?;
        *self = fields;
        Some(text)
    }

    /// Takes a number of at most this, or nothing.
    pub fn number(&mut self, most: u64) -> Option<u64>
        ensures read { Reads (number_at most) self.old result self.new }
        ensures bound { IfSome result (λ n. n ≤ most) }
        ensures kept { IfNone result (self.new ≡ self.old) }
    {
        let mut fields = self.copied();
        let number = fields.read_number(most)?;
        *self = fields;
        Some(number)
    }

    /// Takes a number of 32 bits, or nothing.
    pub fn u32(&mut self) -> Option<u32>
        ensures read { Reads (number_at 4294967295) self.old result self.new }
        ensures kept { IfNone result (self.new ≡ self.old) }
    {
        Some(self.number(4294967295)? as u32)
    }

    /// Takes a family, `4` or `6`, or nothing.
    pub fn family(&mut self) -> Option<SocketAddressFamily>
        ensures read { Reads family_at self.old result self.new }
        ensures kept { IfNone result (self.new ≡ self.old) }
    {
        let mut fields = self.copied();
        let family = fields.read_family()?;
        *self = fields;
        Some(family)
    }

    /// Takes an address with no port, or nothing: `4` and four bytes, or `6` and eight segments.
    pub fn ip_address(&mut self) -> Option<IpAddress>
        ensures read { Reads ip_at self.old result self.new }
        ensures kept { IfNone result (self.new ≡ self.old) }
    {
        let mut fields = self.copied();
        let address = fields.read_ip_address()?;
        *self = fields;
        Some(address)
    }

    /// Takes an address with its port, or nothing: `4 a b c d port` or
    /// `6 s0 s1 s2 s3 s4 s5 s6 s7 port flow scope`.
    pub fn socket_address(&mut self) -> Option<IpSocketAddress>
        ensures read { Reads address_at self.old result self.new }
        ensures kept { IfNone result (self.new ≡ self.old) }
    {
        let mut fields = self.copied();
        let address = fields.read_socket_address()?;
        *self = fields;
        Some(address)
    }

    /// Takes the word of a code, or nothing.
    pub fn code(&mut self) -> Option<ErrorCode>
        ensures read { Reads code_at self.old result self.new }
        ensures kept { IfNone result (self.new ≡ self.old) }
    {
        let mut fields = self.copied();
        let code = fields.read_code()?;
        *self = fields;
        Some(code)
    }

    /// Takes bytes, for which it takes memory, or nothing; after running out of memory nothing was
    /// taken.
    pub fn octets(&mut self, alloc: Global) -> Result<Option<Octets>, AllocError>
        ensures read { IfOk result (λ bytes. Reads bytes_at self.old bytes self.new) }
        ensures kept { IfOk result (λ bytes. IfNone bytes (self.new ≡ self.old)) }
        ensures err { OnErr result (self.new ≡ self.old) }
    {
        let mut fields = self.copied();
        match fields.read_octets(alloc)? {
            Some(bytes) => {
                *self = fields;
                Ok(Some(bytes))
            }
            None => Ok(None),
        }
    }
}

/// What the calls above read. After a refusal some fields are gone.
impl<'a> Fields<'a> {
    #[tactic(auto, unfolding(crate::specs::Fields::word_at, crate::specs::Fields::field_at, crate::specs::Fields::read_then, crate::specs::Fields::give_some))]
    fn read_word(&mut self) -> Option<&'a str>
        ensures { Reads word_at self.old (option_copied result) self.new }
    {
        match str::from_utf8(self.next()?) {
            Ok(text) => Some(text),
            Err(_) => None,
        }
    }

    #[tactic(auto, unfolding(crate::specs::Fields::number_at, crate::specs::Fields::field_at, crate::specs::Fields::read_then, crate::specs::Fields::give_some))]
    fn read_number(&mut self, most: u64) -> Option<u64>
        ensures read { Reads (number_at most) self.old result self.new }
        ensures bound { IfSome result (λ n. n ≤ most) }
    {
        number(self.next()?, most)
    }

    fn byte(&mut self) -> Option<u8>
        ensures { Reads (number_at 255) self.old result self.new }
    {
        Some(self.read_number(255)? as u8)
    }

    fn segment(&mut self) -> Option<u16>
        ensures { Reads (number_at 65535) self.old result self.new }
    {
        Some(self.read_number(65535)? as u16)
    }

    #[tactic(auto, unfolding(crate::specs::Fields::family_at, crate::specs::Fields::read_then, crate::specs::Fields::give_some))]
    fn read_family(&mut self) -> Option<SocketAddressFamily>
        ensures { Reads family_at self.old result self.new }
    {
        match self.read_number(6)? {
            4 => Some(SocketAddressFamily::Ipv4),
            6 => Some(SocketAddressFamily::Ipv6),
            _ => None,
        }
    }

    #[tactic(auto, unfolding(crate::specs::Fields::ipv4_at, crate::specs::Fields::read_then, crate::specs::Fields::give))]
    fn ipv4(&mut self) -> Option<(u8, u8, u8, u8)>
        ensures { Reads ipv4_at self.old result self.new }
    {
        Some((self.byte()?, self.byte()?, self.byte()?, self.byte()?))
    }

    #[tactic(auto, unfolding(crate::specs::Fields::ipv6_at, crate::specs::Fields::read_then, crate::specs::Fields::give))]
    fn ipv6(&mut self) -> Option<(u16, u16, u16, u16, u16, u16, u16, u16)>
        ensures { Reads ipv6_at self.old result self.new }
    {
        Some((
            self.segment()?,
            self.segment()?,
            self.segment()?,
            self.segment()?,
            self.segment()?,
            self.segment()?,
            self.segment()?,
            self.segment()?,
        ))
    }

    #[tactic(auto, unfolding(crate::specs::Fields::ip_at, crate::specs::Fields::read_then, crate::specs::Fields::give))]
    fn read_ip_address(&mut self) -> Option<IpAddress>
        ensures { Reads ip_at self.old result self.new }
    {
        match self.read_family()? {
            SocketAddressFamily::Ipv4 => Some(IpAddress::Ipv4(self.ipv4()?)),
            SocketAddressFamily::Ipv6 => Some(IpAddress::Ipv6(self.ipv6()?)),
        }
    }

    #[tactic(auto, unfolding(crate::specs::Fields::address_at, crate::specs::Fields::read_then, crate::specs::Fields::give))]
    fn read_socket_address(&mut self) -> Option<IpSocketAddress>
        ensures { Reads address_at self.old result self.new }
    {
        match self.read_family()? {
            SocketAddressFamily::Ipv4 => Some(IpSocketAddress::Ipv4(Ipv4SocketAddress {
                address: self.ipv4()?,
                port: self.segment()?,
            })),
            SocketAddressFamily::Ipv6 => Some(IpSocketAddress::Ipv6(Ipv6SocketAddress {
                address: self.ipv6()?,
                port: self.segment()?,
                flow_info: self.u32()?,
                scope_id: self.u32()?,
            })),
        }
    }

    #[tactic(auto, unfolding(crate::specs::Fields::code_at, crate::specs::Fields::field_at, crate::specs::Fields::read_then, crate::specs::Fields::give_some))]
    fn read_code(&mut self) -> Option<ErrorCode>
        ensures { Reads code_at self.old result self.new }
    {
        code_word(self.next()?)
    }

    #[tactic(auto, unfolding(crate::specs::Fields::bytes_at, crate::specs::Fields::field_at, crate::specs::Fields::read_then, crate::specs::Fields::give_some))]
    fn read_octets(&mut self, alloc: Global) -> Result<Option<Octets>, AllocError>
        ensures { IfOk result (λ bytes. Reads bytes_at self.old bytes self.new) }
    {
        match self.next() {
            Some(field) => octets(alloc, field),
            None => Ok(None),
        }
    }
}

/// Whether it is `0`, or begins with one of `1` to `9`.
fn begins_plain(field: &[u8]) -> bool
    ensures { IsTrue result ↔ BeginsPlain field.now }
{
    matches!(field, [b'0'] | [b'1'..=b'9', ..])
}

/// The number that the field is, where it has one digit.
fn one_digit(field: &[u8]) -> Option<u64>
    ensures { IfSome result (λ n. (n < 10) × (field.now ≡ decimal n)) }
{
    match field {
        [digit @ b'0'..=b'9'] => Some(u64::from(*digit - b'0')),
        _ => None,
    }
}

/// The number that the field is, if it is at most this: decimal digits with no sign and no leading
/// zero.
pub fn number(field: &[u8], most: u64) -> Option<u64>
    ensures value { result ≡ number_in field.now most }
    ensures exact { (n : ℕ) → (result ≡ Some n) ↔ ((field.now ≡ decimal n) × (n ≤ most)) }
{
    // Most numbers of a script have one digit.
    if let Some(number) = one_digit(field) {
        return (number <= most).then_some(number);
    }
    if !begins_plain(field) {
        return None;
    }
    let Ok(text) = str::from_utf8(field) else {
        return None;
    };
    let Ok(number) = text.parse::<u64>() else {
        return None;
    };
    (number <= most).then_some(number)
}

const CODES: [ErrorCode; 15] = [
    ErrorCode::AccessDenied,
    ErrorCode::NotSupported,
    ErrorCode::InvalidArgument,
    ErrorCode::OutOfMemory,
    ErrorCode::Timeout,
    ErrorCode::InvalidState,
    ErrorCode::AddressNotBindable,
    ErrorCode::AddressInUse,
    ErrorCode::RemoteUnreachable,
    ErrorCode::ConnectionRefused,
    ErrorCode::ConnectionBroken,
    ErrorCode::ConnectionReset,
    ErrorCode::ConnectionAborted,
    ErrorCode::DatagramTooLarge,
    ErrorCode::Other,
];

/// The word of a code: its name, in lower case and with dashes.
pub fn code_text(code: ErrorCode) -> &'static str
    ensures { result.now ≡ code_text code }
{
    match code {
        ErrorCode::AccessDenied => "access-denied",
        ErrorCode::NotSupported => "not-supported",
        ErrorCode::InvalidArgument => "invalid-argument",
        ErrorCode::OutOfMemory => "out-of-memory",
        ErrorCode::Timeout => "timeout",
        ErrorCode::InvalidState => "invalid-state",
        ErrorCode::AddressNotBindable => "address-not-bindable",
        ErrorCode::AddressInUse => "address-in-use",
        ErrorCode::RemoteUnreachable => "remote-unreachable",
        ErrorCode::ConnectionRefused => "connection-refused",
        ErrorCode::ConnectionBroken => "connection-broken",
        ErrorCode::ConnectionReset => "connection-reset",
        ErrorCode::ConnectionAborted => "connection-aborted",
        ErrorCode::DatagramTooLarge => "datagram-too-large",
        ErrorCode::Other => "other",
    }
}

/// The code whose word the field is.
#[tactic(auto, unfolding(crate::specs::Fields::code_in))]
pub fn code_word(field: &[u8]) -> Option<ErrorCode>
    ensures { result ≡ code_in field.now }
{
    CODES
        .iter()
        .copied()
        .find(|code| code_text(*code).as_bytes() == field)
}

/// What is read is written so, and what is written so is read, whatever follows it.
pub fn fields_are_read_exactly()
    ensures numbers { (most : ℕ) → most < 2 ^ 64
        → ReadsExactly (number_at most) number_fields (λ n. n ≤ most) }
    ensures families { ReadsExactly family_at family_fields (λ f. Unit {0}) }
    ensures ips { ReadsExactly ip_at ip_fields FitsIp }
    ensures addresses { ReadsExactly address_at address_fields FitsAddress }
    ensures code_words { ReadsExactly code_at code_fields (λ code. Unit {0}) }
    ensures bytes { ReadsExactly bytes_at bytes_fields AreBytes }
    ensures words { ReadsExactly word_at (λ word. word ∷ []) IsUtf8 }
{}

/// A line of visible fields has these fields, and no other line has.
pub fn lines_have_their_fields()
    ensures fields { (fields : List (List ℕ)) → fields ≢ [] → AreVisible fields
        → fields_of (line_with fields) ≡ fields }
    ensures only { (line : List ℕ) → line ≡ line_with (fields_of line) }
{}
