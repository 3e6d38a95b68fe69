//! What a rule is.

use crate::grammar::{action_word, uses_word};
use std::fmt;
use wasi_addr::SocketAddrUse;

/// What a rule does with the checks that it matches.
#[derive(Clone, Copy, Debug, PartialEq, Eq)]
pub enum Action {
    Allow,
    Deny,
}

/// The addresses of a rule. Bits of a network's address behind its prefix are ignored.
#[derive(Clone, Copy, Debug, PartialEq, Eq)]
pub enum Net {
    /// Every address.
    Any,
    /// The IPv4 addresses that agree with this one in so many leading bits, at most 32.
    Ipv4((u8, u8, u8, u8), u8),
    /// The IPv6 addresses that agree with this one in so many leading bits, at most 128. An IPv4
    /// address that is mapped into IPv6 is matched as IPv4, so a prefix within `::ffff:0:0/96`
    /// matches nothing.
    Ipv6((u16, u16, u16, u16, u16, u16, u16, u16), u8),
}

/// A rule: what is done with a use of an address, for these uses, addresses and ports.
#[derive(Clone, Copy, Debug, PartialEq, Eq)]
pub struct Rule {
    pub action: Action,
    /// The use that it is about; none for every use.
    pub usage: Option<SocketAddrUse>,
    pub net: Net,
    /// The least port that it matches.
    pub low: u16,
    /// The greatest port that it matches.
    pub high: u16,
}

/// What the rules decide.
#[derive(Clone, Copy, Debug, PartialEq, Eq)]
pub struct Decision {
    /// Whether the use is allowed.
    pub allow: bool,
    /// The line of the rule that decided, counted from 1; 0 where no rule matches.
    pub rule: u32,
}

/// A decision, as `allow 3` or `deny 0`.
impl fmt::Display for Decision {
    ghost use Rattle.wasi_policy.specs.Explained.{decision_text};
    ghost use Rattle.std.specs.Prelude.{Some};

    ghost output = { λ d. Some (decision_text d) };

    fn fmt<W: fmt::Write>(&self, f: &mut fmt::Formatter<W>) -> fmt::Result {
        if self.allow {
            write!(f, "allow {}", self.rule)
        } else {
            write!(f, "deny {}", self.rule)
        }
    }
}

/// The rule that decided.
#[derive(Clone, Copy, Debug, PartialEq, Eq)]
pub struct Explanation {
    /// Its line, counted from 1; 0 where no rule matches.
    pub line: u32,
    /// The rule; where none matches, the one that denies everything.
    pub rule: Rule,
}

/// As its fields in a rule: `any`, `4 a b c d len` or `6 s0 s1 s2 s3 s4 s5 s6 s7 len`.
impl fmt::Display for Net {
    ghost use Rattle.wasi_policy.specs.Explained.{net_text};
    ghost use Rattle.std.specs.Prelude.{Some};

    ghost output = { λ net. Some (net_text net) };

    fn fmt<W: fmt::Write>(&self, f: &mut fmt::Formatter<W>) -> fmt::Result {
        match self {
            Net::Any => write!(f, "any"),
            Net::Ipv4((a, b, c, d), len) => {
                let family = 4;
                write!(f, "{family} {a} {b} {c} {d} {len}")
            }
            Net::Ipv6((a, b, c, d, e, g, h, i), len) => {
                let family = 6;
                write!(f, "{family} {a} {b} {c} {d} {e} {g} {h} {i} {len}")
            }
        }
    }
}

/// As its line.
impl fmt::Display for Rule {
    ghost use Rattle.wasi_policy.specs.Explained.{rule_text};
    ghost use Rattle.std.specs.Prelude.{Some};

    ghost output = { λ rule. Some (rule_text rule) };

    fn fmt<W: fmt::Write>(&self, f: &mut fmt::Formatter<W>) -> fmt::Result {
        let action = action_word(self.action);
        let uses = uses_word(self.usage);
        write!(f, "{action} {uses} {} {} {}", self.net, self.low, self.high)
    }
}
