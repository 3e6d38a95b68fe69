//! The replies to steps.

ghost use Rattle.std.specs.Prelude.{◌≡◌, false, List, IfOk, OnOk, Contains, [], ◌∷◌, ◌++◌, map};
ghost use Rattle.std.specs.Prelude.{codes, decimal};
ghost use Rattle.world_text.specs.Fields.{line_with};
ghost use Rattle.wasi_steps.specs.declared.reply.Reply.{Reply};
ghost use Rattle.wasi_steps.specs.declared.step.Step.{Step};
ghost use Rattle.wasi_steps.specs.Replies.{FieldKinds, polled_fields, GivesAs, Gives, is_poll};
ghost use Rattle.wasi_steps.specs.Replies.{code_text, trap_text, field_text, fields_of_reply};
ghost use Rattle.wasi_steps.specs.Replies.{text_of};
ghost use Rattle.wasi_steps.specs.Reply.{word_of_p2, word_of_p3, word_of_lookup, is_trap};
ghost use Rattle.wasi_steps.specs.Reply.{no_fields};

use itoa::Buffer;
use std::alloc::{AllocError, Global};
use std::marker::Model;
use std::{fmt, slice};
use wasi_addr::{lookup, p2, p3};
use wasi_world::{Handle, Octets, TrapKind};
use world_text::digits::append_octets;

/// One field of an `ok` reply.
#[derive(Drop)]
pub enum Field {
    /// A number: a handle, a count or the value of an option.
    Number(u64),
    /// Bytes, in hexadecimal digits.
    Bytes(Octets),
    /// `true`.
    True,
    /// `false`.
    False,
    /// `none`.
    Absent,
}

/// The fields of an `ok` reply, in order, which contracts see as a list. One field alone takes no
/// memory.
#[derive(Drop)]
pub struct ReplyFields {
    kept: KeptFields,
}

/// One field, or any number of them.
#[derive(Drop)]
enum KeptFields {
    One(Field),
    Several(Vec<Field>),
}

impl Model for ReplyFields {
    ghost use Rattle.std.specs.Prelude.{List};
    ghost use Rattle.wasi_steps.specs.declared.reply.Field.{Field};
    ghost use Rattle.wasi_steps.specs.KeptFields.{kept_fields};

    ghost Value = { List Field };

    ghost view = { λ f. kept_fields f.kept };
}

impl ReplyFields {
    /// One field alone. Takes no memory.
    pub fn one(field: Field) -> ReplyFields
        ensures { result ≡ field ∷ [] }
    {
        ReplyFields {
            kept: KeptFields::One(field),
        }
    }

    /// The fields of a vector, in its order. Takes no memory.
    pub fn from_vec(fields: Vec<Field>) -> ReplyFields
        ensures { result ≡ fields.items }
    {
        ReplyFields {
            kept: KeptFields::Several(fields),
        }
    }

    /// The fields, to be read.
    pub fn as_slice(&self) -> &[Field]
        ensures { result.now ≡ self.now }
    {
        match &self.kept {
            KeptFields::One(field) => slice::from_ref(field),
            KeptFields::Several(fields) => fields.as_slice(),
        }
    }
}

/// The word of a code. The codes of every generation and those of a lookup have one, named as the
/// code.
#[derive(Clone, Copy, Debug, PartialEq, Eq)]
pub enum CodeWord {
    Unknown,
    AccessDenied,
    NotSupported,
    InvalidArgument,
    OutOfMemory,
    Timeout,
    ConcurrencyConflict,
    NotInProgress,
    WouldBlock,
    InvalidState,
    NewSocketLimit,
    AddressNotBindable,
    AddressInUse,
    RemoteUnreachable,
    ConnectionRefused,
    ConnectionBroken,
    ConnectionReset,
    ConnectionAborted,
    DatagramTooLarge,
    NameUnresolvable,
    TemporaryResolverFailure,
    PermanentResolverFailure,
    Other,
}

impl CodeWord {
    /// The word of a 0.2 code, which has the code's name.
    pub fn from_p2(code: p2::ErrorCode) -> CodeWord
        ensures { result ≡ word_of_p2 code }
    {
        match code {
            p2::ErrorCode::Unknown => CodeWord::Unknown,
            p2::ErrorCode::AccessDenied => CodeWord::AccessDenied,
            p2::ErrorCode::NotSupported => CodeWord::NotSupported,
            p2::ErrorCode::InvalidArgument => CodeWord::InvalidArgument,
            p2::ErrorCode::OutOfMemory => CodeWord::OutOfMemory,
            p2::ErrorCode::Timeout => CodeWord::Timeout,
            p2::ErrorCode::ConcurrencyConflict => CodeWord::ConcurrencyConflict,
            p2::ErrorCode::NotInProgress => CodeWord::NotInProgress,
            p2::ErrorCode::WouldBlock => CodeWord::WouldBlock,
            p2::ErrorCode::InvalidState => CodeWord::InvalidState,
            p2::ErrorCode::NewSocketLimit => CodeWord::NewSocketLimit,
            p2::ErrorCode::AddressNotBindable => CodeWord::AddressNotBindable,
            p2::ErrorCode::AddressInUse => CodeWord::AddressInUse,
            p2::ErrorCode::RemoteUnreachable => CodeWord::RemoteUnreachable,
            p2::ErrorCode::ConnectionRefused => CodeWord::ConnectionRefused,
            p2::ErrorCode::ConnectionReset => CodeWord::ConnectionReset,
            p2::ErrorCode::ConnectionAborted => CodeWord::ConnectionAborted,
            p2::ErrorCode::DatagramTooLarge => CodeWord::DatagramTooLarge,
            p2::ErrorCode::NameUnresolvable => CodeWord::NameUnresolvable,
            p2::ErrorCode::TemporaryResolverFailure => CodeWord::TemporaryResolverFailure,
            p2::ErrorCode::PermanentResolverFailure => CodeWord::PermanentResolverFailure,
        }
    }

    /// The word of a 0.3 code, which has the code's name.
    pub fn from_p3(code: p3::ErrorCode) -> CodeWord
        ensures { result ≡ word_of_p3 code }
    {
        match code {
            p3::ErrorCode::AccessDenied => CodeWord::AccessDenied,
            p3::ErrorCode::NotSupported => CodeWord::NotSupported,
            p3::ErrorCode::InvalidArgument => CodeWord::InvalidArgument,
            p3::ErrorCode::OutOfMemory => CodeWord::OutOfMemory,
            p3::ErrorCode::Timeout => CodeWord::Timeout,
            p3::ErrorCode::InvalidState => CodeWord::InvalidState,
            p3::ErrorCode::AddressNotBindable => CodeWord::AddressNotBindable,
            p3::ErrorCode::AddressInUse => CodeWord::AddressInUse,
            p3::ErrorCode::RemoteUnreachable => CodeWord::RemoteUnreachable,
            p3::ErrorCode::ConnectionRefused => CodeWord::ConnectionRefused,
            p3::ErrorCode::ConnectionBroken => CodeWord::ConnectionBroken,
            p3::ErrorCode::ConnectionReset => CodeWord::ConnectionReset,
            p3::ErrorCode::ConnectionAborted => CodeWord::ConnectionAborted,
            p3::ErrorCode::DatagramTooLarge => CodeWord::DatagramTooLarge,
            p3::ErrorCode::Other => CodeWord::Other,
        }
    }

    /// The word of a code of a lookup, which has the code's name.
    pub fn from_lookup(code: lookup::ErrorCode) -> CodeWord
        ensures { result ≡ word_of_lookup code }
    {
        match code {
            lookup::ErrorCode::AccessDenied => CodeWord::AccessDenied,
            lookup::ErrorCode::InvalidArgument => CodeWord::InvalidArgument,
            lookup::ErrorCode::NameUnresolvable => CodeWord::NameUnresolvable,
            lookup::ErrorCode::TemporaryResolverFailure => CodeWord::TemporaryResolverFailure,
            lookup::ErrorCode::PermanentResolverFailure => CodeWord::PermanentResolverFailure,
            lookup::ErrorCode::Other => CodeWord::Other,
        }
    }
}

impl fmt::Display for CodeWord {
    ghost use Rattle.std.specs.Prelude.{Some};
    ghost use Rattle.wasi_steps.specs.Replies.{code_text};

    ghost output = { λ code. Some (code_text code) };

    fn fmt<W: fmt::Write>(&self, f: &mut fmt::Formatter<W>) -> fmt::Result {
        write!(f, "{}", code_word(*self))
    }
}

/// What a step answers; each reply is one line.
#[derive(Drop)]
pub enum Reply {
    /// The call is done, with these fields.
    Ok(ReplyFields),
    /// The call returned this code.
    Err(CodeWord),
    /// A call of a stream returned `closed`.
    Closed,
    /// A call of a stream returned `last-operation-failed`, with this code; the handle is that of
    /// the new error.
    Failed(CodeWord, Handle),
    /// The call broke a rule of the interface, which ends the run.
    Trap(TrapKind),
    /// The call is pending under this number, that of its line.
    Pending(u32),
    /// Another call is pending, so this call of a guest wasn't made.
    Busy,
    /// No call is pending under the number that a poll or a cancel gives.
    NoSuchCall,
    /// A call of an end of 0.3 could do nothing yet, and was given up.
    Cancelled,
    /// The end of 0.3 is closed: it was before, or met its end or a fault now.
    Dropped,
    /// The result slot is empty, since its end is open still.
    Unfilled,
}

impl Reply {
    /// Whether it is a trap, which ends the run.
    pub fn is_trap(&self) -> bool
        ensures { result ≡ is_trap self.now }
    {
        matches!(self, Reply::Trap(_))
    }

    /// `ok` with no field.
    pub fn done(alloc: Global) -> Reply
        ensures { result ≡ Reply.Ok no_fields }
    {
        Reply::Ok(ReplyFields::from_vec(Vec::new(alloc)))
    }
}

/// The word of a code: its name, in lower case and with dashes.
fn code_word(code: CodeWord) -> &'static str
    ensures { result.now ≡ code_text code }
{
    match code {
        CodeWord::Unknown => "unknown",
        CodeWord::AccessDenied => "access-denied",
        CodeWord::NotSupported => "not-supported",
        CodeWord::InvalidArgument => "invalid-argument",
        CodeWord::OutOfMemory => "out-of-memory",
        CodeWord::Timeout => "timeout",
        CodeWord::ConcurrencyConflict => "concurrency-conflict",
        CodeWord::NotInProgress => "not-in-progress",
        CodeWord::WouldBlock => "would-block",
        CodeWord::InvalidState => "invalid-state",
        CodeWord::NewSocketLimit => "new-socket-limit",
        CodeWord::AddressNotBindable => "address-not-bindable",
        CodeWord::AddressInUse => "address-in-use",
        CodeWord::RemoteUnreachable => "remote-unreachable",
        CodeWord::ConnectionRefused => "connection-refused",
        CodeWord::ConnectionBroken => "connection-broken",
        CodeWord::ConnectionReset => "connection-reset",
        CodeWord::ConnectionAborted => "connection-aborted",
        CodeWord::DatagramTooLarge => "datagram-too-large",
        CodeWord::NameUnresolvable => "name-unresolvable",
        CodeWord::TemporaryResolverFailure => "temporary-resolver-failure",
        CodeWord::PermanentResolverFailure => "permanent-resolver-failure",
        CodeWord::Other => "other",
    }
}

/// The word of a trap: its name, in lower case and with dashes.
fn trap_word(kind: TrapKind) -> &'static str
    ensures { result.now ≡ trap_text kind }
{
    match kind {
        TrapKind::NoSuchHandle => "no-such-handle",
        TrapKind::HasChildren => "has-children",
        TrapKind::Full => "full",
        TrapKind::EmptyList => "empty-list",
        TrapKind::NotPermitted => "not-permitted",
        TrapKind::Capacity => "capacity",
        TrapKind::TooLong => "too-long",
        TrapKind::StreamsAlive => "streams-alive",
        TrapKind::Budget => "budget",
        TrapKind::FlushPending => "flush-pending",
    }
}

/// Appends a field.
fn push_field(text: &mut Vec<u8>, field: &Field) -> Result<(), AllocError>
    ensures { OnOk result (text.new.items ≡ text.old.items ++ field_text field.now) }
{
    match field {
        Field::Number(number) => text.extend_from_slice(Buffer::new().format(*number).as_bytes()),
        Field::Bytes(bytes) => append_octets(text, bytes.as_slice()),
        Field::True => text.extend_from_slice(b"true"),
        Field::False => text.extend_from_slice(b"false"),
        Field::Absent => text.extend_from_slice(b"none"),
    }
}

/// Appends `ok` and the fields.
fn push_ok(text: &mut Vec<u8>, fields: &[Field]) -> Result<(), AllocError>
    ensures { OnOk result (text.new.items ≡ text.old.items ++ line_with
        (codes "ok" ∷ map field_text fields.now)) }
{
    text.extend_from_slice(b"ok")?;
    for field in fields {
        text.push(b' ')?;
        push_field(text, field)?;
    }
    Ok(())
}

/// Appends the words of the reply, with a space between two.
fn push_words(text: &mut Vec<u8>, first: &str, second: &str) -> Result<(), AllocError>
    ensures { OnOk result (text.new.items ≡ text.old.items ++ line_with
        (first.now ∷ second.now ∷ [])) }
{
    text.extend_from_slice(first.as_bytes())?;
    text.push(b' ')?;
    text.extend_from_slice(second.as_bytes())
}

/// Appends `failed`, the code and the handle of the error.
fn push_failed(text: &mut Vec<u8>, code: CodeWord, handle: Handle) -> Result<(), AllocError>
    ensures { OnOk result (text.new.items ≡ text.old.items ++ line_with
        (codes "failed" ∷ code_text code ∷ decimal handle ∷ [])) }
{
    push_words(text, "failed", code_word(code))?;
    text.push(b' ')?;
    text.extend_from_slice(Buffer::new().format(handle).as_bytes())
}

/// Appends the reply's line, without its newline.
fn push_reply(text: &mut Vec<u8>, reply: &Reply) -> Result<(), AllocError>
    ensures { OnOk result (text.new.items ≡ text.old.items ++ line_with
        (fields_of_reply reply.now)) }
{
    match reply {
        Reply::Ok(fields) => push_ok(text, fields.as_slice()),
        Reply::Err(code) => push_words(text, "err", code_word(*code)),
        Reply::Closed => text.extend_from_slice(b"closed"),
        Reply::Failed(code, handle) => push_failed(text, *code, *handle),
        Reply::Trap(kind) => push_words(text, "trap", trap_word(*kind)),
        Reply::Pending(line) => push_words(text, "pending", Buffer::new().format(*line)),
        Reply::Busy => text.extend_from_slice(b"busy"),
        Reply::NoSuchCall => text.extend_from_slice(b"no-such-call"),
        Reply::Cancelled => text.extend_from_slice(b"cancelled"),
        Reply::Dropped => text.extend_from_slice(b"dropped"),
        Reply::Unfilled => text.extend_from_slice(b"unfilled"),
    }
}

/// Appends the text of a reply: its line, with its newline. Takes memory for it.
#[tactic(auto, unfolding(crate::specs::Replies::text_of))]
pub fn append_reply(text: &mut Vec<u8>, reply: &Reply) -> Result<(), AllocError>
    ensures { OnOk result (text.new.items ≡ text.old.items ++ text_of reply.now) }
{
    push_reply(text, reply)?;
    text.push(b'\n')?;
    Ok(())
}

/// The room for the text of most replies, so that it takes memory once.
const ROOM: usize = 24;

/// The text of a reply: its line, with its newline. Takes memory for it.
pub fn reply_text(alloc: Global, reply: &Reply) -> Result<Octets, AllocError>
    ensures { IfOk result (λ text. text ≡ text_of reply.now) }
{
    let mut text = Vec::with_capacity(alloc, ROOM)?;
    append_reply(&mut text, reply)?;
    Ok(Octets::from_vec(text))
}

/// Different replies have different texts.
///
/// - `of_a_step`: two different replies of one step, unless the step is a poll. A poll may answer
///   for any call that can be pending, and `ok 10` is a number of one call and a byte of another.
/// - `of_a_polled_call`: two different replies of one call that can be pending. Its replies have
///   fields of the kinds in one row of `polled_fields`.
pub fn replies_are_told_apart()
    ensures of_a_step { (s : Step) (r q : Reply) → is_poll s ≡ false → Gives s r → Gives s q
        → text_of r ≡ text_of q → r ≡ q }
    ensures of_a_polled_call { (kinds : FieldKinds) (r q : Reply) → Contains polled_fields kinds
        → GivesAs kinds r → GivesAs kinds q → text_of r ≡ text_of q → r ≡ q }
{}
