//! The line that answers a question.

ghost use Rattle.std.specs.Prelude.{◌≡◌, IfOk, string_bytes};
ghost use Rattle.policy_asks.specs.Answer.{answer_line, wildcard, lacks_bind, bind_note};

use crate::question::Question;
use std::alloc::{AllocError, Global};
use std::fmt::Write;
use wasi_addr::{IpSocketAddress, Ipv4SocketAddress, Ipv6SocketAddress, SocketAddrUse};
use wasi_policy::{Decision, Policy};

/// What an answer adds for a connect, where the bind that it may need isn't allowed.
const BIND_NOTE: &str = "; a socket that isn't bound needs `allow tcp-bind any 0 0` too";

/// What a question is answered with.
#[derive(Clone, Copy, Debug, PartialEq, Eq)]
pub enum Form {
    /// `allow N` or `deny N`, where N is the line of the rule that decided; 0 where no rule
    /// matches.
    Decision,
    /// `N RULE`: the line of the rule that decided, and that rule; `0 deny any any 0 65535` where
    /// no rule matches. Behind it, for a connect, that the rules don't allow the bind of a socket
    /// that isn't bound, if they don't.
    Rule,
}

/// `allow N` or `deny N`, with its newline.
fn decision_line(alloc: Global, policy: &Policy, question: Question) -> Result<String, AllocError>
    ensures { IfOk result (λ text. string_bytes text ≡ answer_line policy.now Form.Decision
        question) }
{
    let decision = policy.decide(question.address, question.usage);
    let mut text = String::new(alloc);
    write!(text, "{decision}\n")?;
    Ok(text)
}

/// The wildcard address of the family of this one, at port 0, which a connect of a socket that isn't
/// bound is bound to.
fn wildcard(address: IpSocketAddress) -> IpSocketAddress
    ensures { result ≡ wildcard address }
{
    match address {
        IpSocketAddress::Ipv4(_) => IpSocketAddress::Ipv4(Ipv4SocketAddress {
            port: 0,
            address: (0, 0, 0, 0),
        }),
        IpSocketAddress::Ipv6(_) => IpSocketAddress::Ipv6(Ipv6SocketAddress {
            port: 0,
            flow_info: 0,
            address: (0, 0, 0, 0, 0, 0, 0, 0),
            scope_id: 0,
        }),
    }
}

/// Whether a connect of a socket that isn't bound is asked for, whose bind the rules don't allow.
fn lacks_bind(policy: &Policy, question: Question) -> bool
    ensures { result ≡ lacks_bind policy.now question }
{
    let Question { usage, address } = question;
    match usage {
        SocketAddrUse::TcpConnect => {
            !policy
                .decide(wildcard(address), SocketAddrUse::TcpBind)
                .allow
        }
        _ => false,
    }
}

/// What is said of the bind of a connect.
fn bind_note(policy: &Policy, question: Question) -> &'static str
    ensures { result.now ≡ bind_note policy.now question }
{
    if lacks_bind(policy, question) {
        BIND_NOTE
    } else {
        ""
    }
}

/// `N RULE`, with its newline.
fn rule_line(alloc: Global, policy: &Policy, question: Question) -> Result<String, AllocError>
    ensures { IfOk result (λ text. string_bytes text ≡ answer_line policy.now Form.Rule question) }
{
    let explained = policy.explain(question.address, question.usage);
    let mut text = String::new(alloc);
    let note = bind_note(policy, question);
    write!(text, "{} {}{note}\n", explained.line, explained.rule)?;
    Ok(text)
}

/// The line that answers a question, with its newline. Takes memory for it.
pub fn answer_line(
    alloc: Global,
    policy: &Policy,
    form: Form,
    question: Question,
) -> Result<String, AllocError>
    ensures { IfOk result (λ text. string_bytes text ≡ answer_line policy.now form question) }
{
    match form {
        Form::Decision => decision_line(alloc, policy, question),
        Form::Rule => rule_line(alloc, policy, question),
    }
}
