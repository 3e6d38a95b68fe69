//! Reads the line of a rule: `ACTION USE NET LO HI`.

ghost use Rattle.std.specs.Prelude.{◌≡◌, ◌↔◌, ℕ, List, Some};
ghost use Rattle.world_text.specs.Fields.{Reads, number_at};
ghost use Rattle.world_text.specs.Written.{ReadsExactly, IsVisible};
ghost use Rattle.wasi_policy.specs.declared.rule.Rule.{Rule};
ghost use Rattle.wasi_policy.specs.Explained.{rule_text};
ghost use Rattle.wasi_policy.specs.Grammar.{action_text, action_in, action_at, uses_text, uses_in};
ghost use Rattle.wasi_policy.specs.Grammar.{uses_at, prefix_of, any_net_at, net_at, rule_at};
ghost use Rattle.wasi_policy.specs.Grammar.{rule_in, rule_line, IsRule};

use crate::rule::{Action, Net, Rule};
use wasi_addr::{IpAddress, SocketAddrUse};
use world_text::Fields;
use world_text::spelling::use_word;

const ACTIONS: [Action; 2] = [Action::Allow, Action::Deny];

/// The word of an action.
pub fn action_word(action: Action) -> &'static str
    ensures { result.now ≡ action_text action }
{
    match action {
        Action::Allow => "allow",
        Action::Deny => "deny",
    }
}

/// The action whose word this is.
#[tactic(auto, unfolding(crate::specs::Grammar::action_in))]
fn action_in(word: &[u8]) -> Option<Action>
    ensures { result ≡ action_in word.now }
{
    ACTIONS
        .iter()
        .copied()
        .find(|action| action_word(*action).as_bytes() == word)
}

/// Takes an action.
#[tactic(auto, unfolding(crate::specs::Grammar::action_at, world_text::specs::Fields::field_at, world_text::specs::Fields::read_then, world_text::specs::Fields::give_some))]
fn action(fields: &mut Fields<'_>) -> Option<Action>
    ensures { Reads action_at fields.old result fields.new }
{
    action_in(fields.next()?)
}

const USES: [Option<SocketAddrUse>; 8] = [
    None,
    Some(SocketAddrUse::TcpBind),
    Some(SocketAddrUse::TcpListen),
    Some(SocketAddrUse::TcpAccept),
    Some(SocketAddrUse::TcpConnect),
    Some(SocketAddrUse::UdpBind),
    Some(SocketAddrUse::UdpSend),
    Some(SocketAddrUse::UdpReceive),
];

/// The word of a rule's uses: that of its use, or `any`.
pub fn uses_word(usage: Option<SocketAddrUse>) -> &'static str
    ensures { result.now ≡ uses_text usage }
{
    match usage {
        Some(usage) => use_word(usage),
        None => "any",
    }
}

/// The uses whose word this is: a single one, or any.
#[tactic(auto, unfolding(crate::specs::Grammar::uses_in))]
fn uses_in(word: &[u8]) -> Option<Option<SocketAddrUse>>
    ensures { result ≡ uses_in word.now }
{
    USES.iter()
        .copied()
        .find(|usage| uses_word(*usage).as_bytes() == word)
}

/// Takes a use, or `any`, which is none.
#[tactic(auto, unfolding(crate::specs::Grammar::uses_at, world_text::specs::Fields::field_at, world_text::specs::Fields::read_then, world_text::specs::Fields::give_some))]
pub fn uses(fields: &mut Fields<'_>) -> Option<Option<SocketAddrUse>>
    ensures { Reads uses_at fields.old result fields.new }
{
    uses_in(fields.next()?)
}

/// Takes the length of a prefix of this address.
#[tactic(auto, unfolding(world_text::specs::Fields::read_then, world_text::specs::Fields::give))]
fn prefix(address: IpAddress, fields: &mut Fields<'_>) -> Option<Net>
    ensures { Reads (prefix_of address) fields.old result fields.new }
{
    match address {
        IpAddress::Ipv4(front) => {
            let len = fields.number(32)?;
            Some(Net::Ipv4(front, len as u8))
        }
        IpAddress::Ipv6(front) => {
            let len = fields.number(128)?;
            Some(Net::Ipv6(front, len as u8))
        }
    }
}

/// Takes `any`, as the addresses of a rule.
#[tactic(auto, unfolding(crate::specs::Grammar::any_net_at, world_text::specs::Fields::field_at, world_text::specs::Fields::read_then, world_text::specs::Fields::give_some))]
fn any_net(fields: &mut Fields<'_>) -> Option<Net>
    ensures { Reads any_net_at fields.old result fields.new }
{
    let field = fields.next()?;
    if field == b"any".as_slice() {
        Some(Net::Any)
    } else {
        None
    }
}

/// Takes the addresses of a rule: `any`, or an address and the length of its prefix.
#[tactic(auto, unfolding(crate::specs::Grammar::net_at))]
fn net(fields: &mut Fields<'_>) -> Option<Net>
    ensures { Reads net_at fields.old result fields.new }
{
    match fields.ip_address() {
        Some(address) => prefix(address, fields),
        None => any_net(fields),
    }
}

/// Takes a port.
fn port(fields: &mut Fields<'_>) -> Option<u16>
    ensures { Reads (number_at 65535) fields.old result fields.new }
{
    Some(fields.number(65535)? as u16)
}

/// Takes a rule.
#[tactic(auto, unfolding(crate::specs::Grammar::rule_at, world_text::specs::Fields::read_then, world_text::specs::Fields::give_some))]
fn rule(fields: &mut Fields<'_>) -> Option<Rule>
    ensures { Reads rule_at fields.old result fields.new }
{
    let action = action(fields)?;
    let usage = uses(fields)?;
    let net = net(fields)?;
    let low = port(fields)?;
    let high = port(fields)?;
    if low <= high {
        Some(Rule {
            action,
            usage,
            net,
            low,
            high,
        })
    } else {
        None
    }
}

/// The rule that a line is, without its newline; none where it is not in the grammar.
#[tactic(auto, unfolding(crate::specs::Grammar::rule_in))]
pub fn parse_rule(line: &[u8]) -> Option<Rule>
    ensures { result ≡ rule_in line.now }
{
    let mut fields = Fields::of(line);
    let rule = rule(&mut fields)?;
    if fields.is_done() { Some(rule) } else { None }
}

/// A line is a rule exactly where it is that rule's line, and that rule has numbers in their ranges
/// and its least port not above its greatest. Nothing but visible ASCII characters and spaces is in
/// it.
///
/// What a rule is displayed as is its line. It runs no code: its contract is a law about the
/// definitions by which the grammar is stated.
pub fn rules_are_read_exactly()
    ensures exactly { (line : List ℕ) (rule : Rule)
        → (rule_in line ≡ Some rule) ↔ ((line ≡ rule_line rule) × IsRule rule) }
    ensures visible { (line : List ℕ) (rule : Rule) → rule_in line ≡ Some rule → IsVisible line }
    ensures text { (rule : Rule) → rule_text rule ≡ rule_line rule }
{}
