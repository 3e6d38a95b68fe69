//! Reads a scenario: a line for each planned answer, and a line `context T U K` for each context,
//! where T, U and K are `yes` or `no`: whether TCP, UDP and name lookup are allowed.

ghost use Rattle.std.specs.Prelude.{◌≡◌, ◌==◌, ◌≤◌, ◌<◌, ◌+◌, ◌^◌, IfOk, OnOk, [], ◌∷◌, ◌++◌, Some};
ghost use Rattle.std.specs.Prelude.{None, true, IfErr, IfSome, Ok, Err, length, take};
ghost use Rattle.world_text.specs.Fields.{Reads, after_word};
ghost use Rattle.wasi_world.specs.Kinds.{takes};
ghost use Rattle.world_scripted.specs.Scenario.{kind_text, kind_in, kind_at, short_answers};
ghost use Rattle.world_scripted.specs.Scenario.{answer_at, planned_in, yes_or_no_at, limit_at, allowed_at};
ghost use Rattle.world_scripted.specs.Scenario.{context_in, setup, with_line, setup_within};
ghost use Rattle.world_scripted.specs.Scenario.{or_free, scenario_of, bad_line};
ghost use Rattle.wasi_world.specs.Contexts.{AreNumbered};
ghost use Rattle.world_text.specs.Fields.{names_at};

use crate::lists::Lists;
use crate::scripted::ScriptedWorld;
use std::alloc::{AllocError, Global};
use thiserror::Error;
use wasi_world::{IpList, Kind, Planned, WasiSocketsCtx};
use world_text::Fields;
use world_text::lines::newline_at;

/// How many bytes a scenario has at most.
const MOST_BYTES: usize = 1_048_576;

/// Why a scenario wasn't read.
#[derive(Clone, Copy, Debug, PartialEq, Eq, Error)]
pub enum ScenarioError {
    /// The first line that isn't in the grammar, counted from 1: also a last line without its
    /// newline, and the line that holds byte 1,048,577.
    #[error("line {0} of the scenario is not in its grammar")]
    BadScenario(u32),
    #[error("memory ran out")]
    Memory(AllocError),
}

impl From<AllocError> for ScenarioError {
    ghost use Rattle.std.specs.Prelude.{◌≡◌};
    ghost use Rattle.world_scripted.specs.declared.scenario.ScenarioError.TheVariants.{Memory};

    ghost from_gives = { λ e error. error ≡ Memory e };

    fn from(e: AllocError) -> ScenarioError {
        ScenarioError::Memory(e)
    }
}

const KINDS: [Kind; 23] = [
    Kind::Check,
    Kind::Lookup,
    Kind::TcpCreate,
    Kind::UdpCreate,
    Kind::UdpWritable,
    Kind::Local,
    Kind::Peer,
    Kind::Bind,
    Kind::Listen,
    Kind::SetBacklog,
    Kind::UdpBind,
    Kind::UdpConnect,
    Kind::UdpDisconnect,
    Kind::SetOption,
    Kind::Connect,
    Kind::Send,
    Kind::Accept,
    Kind::Read,
    Kind::ReadReady,
    Kind::Write,
    Kind::WriteReady,
    Kind::Recv,
    Kind::GetOption,
];

/// The word of a kind: its name, in lower case and with dashes.
fn kind_text(kind: Kind) -> &'static str
    ensures { result.now ≡ kind_text kind }
{
    match kind {
        Kind::Check => "check",
        Kind::Lookup => "lookup",
        Kind::TcpCreate => "tcp-create",
        Kind::UdpCreate => "udp-create",
        Kind::UdpWritable => "udp-writable",
        Kind::Local => "local",
        Kind::Peer => "peer",
        Kind::Bind => "bind",
        Kind::Listen => "listen",
        Kind::SetBacklog => "set-backlog",
        Kind::UdpBind => "udp-bind",
        Kind::UdpConnect => "udp-connect",
        Kind::UdpDisconnect => "udp-disconnect",
        Kind::SetOption => "set-option",
        Kind::Connect => "connect",
        Kind::Send => "send",
        Kind::Accept => "accept",
        Kind::Read => "read",
        Kind::ReadReady => "read-ready",
        Kind::Write => "write",
        Kind::WriteReady => "write-ready",
        Kind::Recv => "recv",
        Kind::GetOption => "get-option",
    }
}

/// The kind whose word this is.
#[tactic(auto, unfolding(crate::specs::Scenario::kind_in))]
fn kind_word(word: &[u8]) -> Option<Kind>
    ensures { result ≡ kind_in word.now }
{
    KINDS
        .iter()
        .copied()
        .find(|kind| kind_text(*kind).as_bytes() == word)
}

/// Takes the word of a kind.
#[tactic(auto, unfolding(crate::specs::Scenario::kind_at, world_text::specs::Fields::read_then, world_text::specs::Fields::give_some))]
fn kind(fields: &mut Fields<'_>) -> Option<Kind>
    ensures { Reads kind_at fields.old result fields.new }
{
    kind_word(fields.word()?.as_bytes())
}

/// Takes what follows the word of a short answer.
#[tactic(auto, unfolding(world_text::specs::Fields::read_then, world_text::specs::Fields::give))]
fn short_answer(fields: &mut Fields<'_>, word: &str) -> Option<Planned>
    ensures { Reads (after_word short_answers word.now) fields.old result fields.new }
{
    match word {
        "pending" => Some(Planned::Pending),
        "done" => Some(Planned::Done),
        "yes" => Some(Planned::Yes),
        "no" => Some(Planned::No),
        "code" => Some(Planned::Code(fields.code()?)),
        "addr" => Some(Planned::Addr(fields.socket_address()?)),
        "arrived" => Some(Planned::Arrived(fields.socket_address()?)),
        "took" => Some(Planned::Took(fields.number(u64::MAX)?)),
        "value" => Some(Planned::Value(fields.number(u64::MAX)?)),
        _ => None,
    }
}

/// Takes addresses up to the end of the line.
pub fn names(alloc: Global, fields: &mut Fields<'_>) -> Result<Option<IpList>, AllocError>
    ensures { IfOk result (λ names. Reads names_at fields.old names fields.new) }
{
    let mut names = Vec::new(alloc);
    while !fields.is_done() {
        let Some(name) = fields.ip_address() else {
            return Ok(None);
        };
        names.push(name)?;
    }
    Ok(Some(IpList::from_vec(names)))
}

/// Takes an answer.
#[tactic(auto, unfolding(crate::specs::Scenario::answer_at, world_text::specs::Fields::read_then, world_text::specs::Fields::give))]
fn answer(alloc: Global, fields: &mut Fields<'_>) -> Result<Option<Planned>, AllocError>
    ensures { IfOk result (λ answer. Reads answer_at fields.old answer fields.new) }
{
    let Some(word) = fields.word() else {
        return Ok(None);
    };
    match word {
        "bytes" => {
            let Some(bytes) = fields.octets(alloc)? else {
                return Ok(None);
            };
            Ok(Some(Planned::Bytes(bytes)))
        }
        "datagram" => {
            let Some(addr) = fields.socket_address() else {
                return Ok(None);
            };
            let Some(bytes) = fields.octets(alloc)? else {
                return Ok(None);
            };
            Ok(Some(Planned::Datagram(bytes, addr)))
        }
        "names" => {
            let Some(names) = names(alloc, fields)? else {
                return Ok(None);
            };
            Ok(Some(Planned::Names(names)))
        }
        _ => Ok(short_answer(fields, word)),
    }
}

/// What a line plans, without its newline; none exactly where it isn't in the grammar.
#[tactic(auto, unfolding(crate::specs::Scenario::planned_in, crate::specs::Scenario::planned_at, world_text::specs::Fields::read_then, world_text::specs::Fields::give_some))]
fn planned(alloc: Global, line: &[u8]) -> Result<Option<(Kind, Planned)>, AllocError>
    ensures planned { IfOk result (λ planned. planned ≡ planned_in line.now) }
    ensures takes { IfOk result (λ planned. IfSome planned (λ p. takes p.0 p.1 ≡ true)) }
{
    let mut fields = Fields::of(line);
    let Some(kind) = kind(&mut fields) else {
        return Ok(None);
    };
    let Some(answer) = answer(alloc, &mut fields)? else {
        return Ok(None);
    };
    if kind.takes(&answer) && fields.is_done() {
        Ok(Some((kind, answer)))
    } else {
        Ok(None)
    }
}

/// Takes `yes` or `no`.
#[tactic(auto, unfolding(crate::specs::Scenario::yes_or_no_at, world_text::specs::Fields::read_then, world_text::specs::Fields::give))]
pub fn yes_or_no(fields: &mut Fields<'_>) -> Option<bool>
    ensures { Reads yes_or_no_at fields.old result fields.new }
{
    match fields.word()? {
        "yes" => Some(true),
        "no" => Some(false),
        _ => None,
    }
}

/// Takes the limit on unwritten bytes; where none is written it is one that no sum reaches.
#[tactic(auto, unfolding(crate::specs::Scenario::limit_at))]
fn write_limit(fields: &mut Fields<'_>) -> Option<u64>
    ensures { Reads limit_at fields.old result fields.new }
{
    if fields.is_done() {
        return Some(u64::MAX);
    }
    fields.number(u64::MAX)
}

/// Takes a context with this number: whether TCP, UDP and name lookup are allowed, and its limit on
/// unwritten bytes.
#[tactic(auto, unfolding(crate::specs::Scenario::allowed_at, world_text::specs::Fields::read_then, world_text::specs::Fields::give))]
fn allowed(fields: &mut Fields<'_>, number: u32) -> Option<WasiSocketsCtx>
    ensures read { Reads (allowed_at number) fields.old result fields.new }
    ensures named { IfSome result (λ context. context.name ≡ number) }
{
    let tcp = yes_or_no(fields)?;
    let udp = yes_or_no(fields)?;
    let ip_name_lookup = yes_or_no(fields)?;
    let write_limit = write_limit(fields)?;
    Some(WasiSocketsCtx {
        name: number,
        ip_name_lookup,
        udp,
        tcp,
        write_limit,
    })
}

/// The context that a line gives, with this number; none exactly where it isn't a context's line.
#[tactic(auto, unfolding(crate::specs::Scenario::context_in, crate::specs::Scenario::context_at, world_text::specs::Fields::read_then))]
pub fn context(line: &[u8], number: u32) -> Option<WasiSocketsCtx>
    ensures context { result ≡ context_in number line.now }
    ensures named { IfSome result (λ context. context.name ≡ number) }
{
    let mut fields = Fields::of(line);
    match fields.word()? {
        "context" => {
            let context = allowed(&mut fields, number)?;
            if fields.is_done() {
                Some(context)
            } else {
                None
            }
        }
        _ => None,
    }
}

/// What lines give: planned answers, and contexts.
#[derive(Drop)]
struct Setup {
    lists: Lists,
    contexts: Vec<WasiSocketsCtx>,
}

/// Adds the last context.
fn add_context(
    contexts: &mut Vec<WasiSocketsCtx>,
    context: WasiSocketsCtx,
) -> Result<(), AllocError>
    ensures ok { OnOk result (contexts.new.items ≡ contexts.old.items ++ context ∷ []) }
{
    contexts.push(context)?;
    Ok(())
}

/// Takes in what a line gives, a context or an answer. The line has this number.
fn take_line(
    alloc: Global,
    given: &mut Setup,
    number: u32,
    line: &[u8],
) -> Result<(), ScenarioError>
    requires few { length given.old.contexts.items < 2 ^ 32 }
    ensures ok { OnOk result (with_line (setup given.old.lists.all given.old.contexts.items)
        line.now ≡ Some (setup given.new.lists.all given.new.contexts.items)) }
    ensures fresh { given.old.lists.left ≡ given.old.lists.all
        → given.new.lists.left ≡ given.new.lists.all }
    ensures numbered { OnOk result (AreNumbered given.old.contexts.items
        → AreNumbered given.new.contexts.items) }
    ensures few { OnOk result (length given.new.contexts.items ≤ length given.old.contexts.items
        + 1) }
    ensures bad { IfErr result (λ e. IfSome (bad_line e) (λ n. (n ≡ number)
        × (with_line (setup given.old.lists.all given.old.contexts.items) line.now ≡ None))) }
{
    if let Some(context) = context(line, given.contexts.len() as u32) {
        add_context(&mut given.contexts, context)?;
        return Ok(());
    }
    let Some((kind, answer)) = planned(alloc, line)? else {
        return Err(ScenarioError::BadScenario(number));
    };
    given.lists.push(kind, answer)?;
    Ok(())
}

/// As many of the bytes as lie within the limit.
#[tactic(auto, using(std::proofs::lemmas::List::take_min))]
fn first_bytes(bytes: &[u8], limit: usize) -> &[u8]
    ensures { result.now ≡ take limit bytes.now }
{
    &bytes[..bytes.len().min(limit)]
}

/// What the lines of a text of at most so many bytes give.
fn read_lines(alloc: Global, bytes: &[u8], most: usize) -> Result<Setup, ScenarioError>
    requires { most + 1 < 2 ^ 32 }
    ensures ok { IfOk result (λ given. setup_within most bytes.now
        ≡ Ok (setup given.lists.all given.contexts.items)) }
    ensures fresh { IfOk result (λ given. given.lists.left ≡ given.lists.all) }
    ensures numbered { IfOk result (λ given. AreNumbered given.contexts.items) }
    ensures few { IfOk result (λ given. length given.contexts.items < 2 ^ 32) }
    ensures bad { IfErr result (λ e. IfSome (bad_line e) (λ n. setup_within most bytes.now
        ≡ Err n)) }
{
    let text = first_bytes(bytes, most);
    let mut given = Setup {
        lists: Lists::new(alloc)?,
        contexts: Vec::new(alloc),
    };
    let mut number = 1;
    let mut at = 0;
    while let Some(end) = newline_at(&text[at..]) {
        take_line(alloc, &mut given, number, &text[at..at + end])?;
        number += 1;
        at += end + 1;
    }
    if at < bytes.len() {
        return Err(ScenarioError::BadScenario(number));
    }
    Ok(given)
}

/// These contexts; where there are none, one, numbered 0, that allows all three.
fn or_free(mut contexts: Vec<WasiSocketsCtx>) -> Result<Vec<WasiSocketsCtx>, AllocError>
    requires few { length contexts.items < 2 ^ 32 }
    requires numbered { AreNumbered contexts.items }
    ensures contexts { IfOk result (λ all. all.items ≡ or_free contexts.items) }
    ensures numbered { IfOk result (λ all. AreNumbered all.items) }
    ensures few { IfOk result (λ all. length all.items < 2 ^ 32) }
{
    if contexts.is_empty() {
        contexts.push(WasiSocketsCtx {
            name: 0,
            ip_name_lookup: true,
            udp: true,
            tcp: true,
            write_limit: u64::MAX,
        })?;
    }
    Ok(contexts)
}

impl ScriptedWorld {
    ghost use Rattle.world_scripted.specs.Scripted.{seen_by, stage_of, started};

    /// The world that a scenario plans, unarmed, and its contexts, numbered from 0 in the order of
    /// their lines; with no such line one, numbered 0, that allows all three. Takes memory for the
    /// answers and the contexts.
    pub fn parse(
        alloc: Global,
        bytes: &[u8],
    ) -> Result<(ScriptedWorld, Vec<WasiSocketsCtx>), ScenarioError>
        ensures scenario { IfOk result (λ parsed. started (scenario_of bytes.now)
            ≡ Ok (seen_by parsed.0, parsed.1.items)) }
        ensures numbered { IfOk result (λ parsed. AreNumbered parsed.1.items) }
        ensures few { IfOk result (λ parsed. length parsed.1.items < 2 ^ 32) }
        ensures unarmed { IfOk result (λ parsed. (stage_of parsed.0).armed.nth ≡ 0) }
        ensures bad { IfErr result (λ e. IfSome (bad_line e) (λ n. scenario_of bytes.now ≡ Err n)) }
    {
        let Setup { lists, contexts } = read_lines(alloc, bytes, MOST_BYTES)?;
        let contexts = or_free(contexts)?;
        Ok((ScriptedWorld::new(alloc, lists), contexts))
    }
}
