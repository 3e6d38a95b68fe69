//! The forms of the commands, to say what is wrong with words that have none.

use std::fmt::{self, Display, Formatter, Write};
use world_text::fields::number;

/// What a word stands for.
#[derive(Clone, Copy)]
pub enum Kind {
    /// A number from 0 to this one.
    Number(&'static str, u64),
    /// The path of a file.
    File(&'static str),
    /// One of some words.
    Word(&'static str),
}

impl Kind {
    /// Its name, as `LIMIT`.
    pub fn name(self) -> &'static str {
        match self {
            Kind::Number(name, _) => name,
            Kind::File(name) => name,
            Kind::Word(words) => words,
        }
    }

    /// Whether a word is one.
    pub fn takes(self, word: &str) -> bool {
        match self {
            Kind::Number(_, most) => number(word.as_bytes(), most).is_some(),
            Kind::File(_) => true,
            Kind::Word(_) => false,
        }
    }
}

impl Display for Kind {
    fn fmt<W: Write>(&self, f: &mut Formatter<W>) -> fmt::Result {
        match self {
            Kind::Number(name, most) => write!(f, "{name}, which is a number from 0 to {most}"),
            Kind::File(name) => write!(f, "{name}"),
            Kind::Word(words) => write!(f, "{words}"),
        }
    }
}

/// The form of a command.
#[derive(Clone, Copy)]
pub struct Form {
    /// Its name and the words that follow it as they are.
    pub command: &'static str,
    /// What the next words stand for.
    pub kinds: &'static [Kind],
    /// Whether the last of them may follow again.
    pub repeats: bool,
}

impl Form {
    /// What the word at this place stands for, counted from 0 behind the command.
    pub fn kind(&self, at: usize) -> Option<Kind> {
        match self.kinds.get(at) {
            Some(kind) => Some(*kind),
            None if self.repeats => self.kinds.last().copied(),
            None => None,
        }
    }

    /// What is missing behind so many words.
    pub fn next(&self, count: usize) -> Option<Kind> {
        self.kinds.get(count).copied()
    }
}

impl Display for Form {
    fn fmt<W: Write>(&self, f: &mut Formatter<W>) -> fmt::Result {
        write!(f, "{}", self.command)?;
        for kind in self.kinds {
            write!(f, " {}", kind.name())?;
        }
        if self.repeats {
            write!(f, "..")
        } else {
            Ok(())
        }
    }
}

const NOTHING: &[Kind] = &[];

const LIMIT: &[Kind] = &[Kind::Number("LIMIT", 4_294_967_295)];

const BUDGET: &[Kind] = &[Kind::Number("BUDGET", 4_294_967_295)];

const FILE: &[Kind] = &[Kind::File("FILE")];

const TRIES: &[Kind] = &[Kind::Number("TRIES", 4_294_967_295), Kind::File("FILE")];

const DRAWN: &[Kind] = &[
    Kind::Number("SEED", u64::MAX),
    Kind::Number("STEPS", 100_000),
];

const PART: &[Kind] = &[
    Kind::Number("FROM", 4_294_967_295),
    Kind::Number("TO", 4_294_967_295),
];

const PORTS: &[Kind] = &[
    Kind::Number("LIMIT", 4_294_967_295),
    Kind::Number("PORT", 65_535),
];

const LIVE_RELAY: &[Kind] = &[
    Kind::Number("LISTENPORT", 65_535),
    Kind::Number("TARGETPORT", 65_535),
    Kind::Number("CONNECTIONS", 4_294_967_295),
];

const RELAY: &[Kind] = &[
    Kind::Number("LISTENPORT", 65_535),
    Kind::Number("TARGETPORT", 65_535),
    Kind::Number("CONNECTIONS", 4_294_967_295),
    Kind::Number("TURNS", 4096),
];

/// What stands behind `policy`, where its second word is none of them.
const ASKED: &[Kind] = &[Kind::Word("WORD, which is ask, explain, run or check")];

/// `live LIMIT PORT..`.
pub const LIVE: Form = Form {
    command: "live",
    kinds: PORTS,
    repeats: true,
};

/// `live --policy RULES LIMIT`.
pub const LIVE_BY_RULES: Form = Form {
    command: "live --policy RULES",
    kinds: LIMIT,
    repeats: false,
};

/// A form whose words stand once each.
fn once(command: &'static str, kinds: &'static [Kind]) -> Form {
    Form {
        command,
        kinds,
        repeats: false,
    }
}

/// A form whose last word may follow again.
fn files(command: &'static str, kinds: &'static [Kind]) -> Form {
    Form {
        command,
        kinds,
        repeats: true,
    }
}

/// The form of a command of a script.
fn form_of_script(command: &str) -> Option<Form> {
    match command {
        "run" => Some(once("run", LIMIT)),
        "show" => Some(once("show", LIMIT)),
        "faults" => Some(once("faults", LIMIT)),
        "record" => Some(once("record", LIMIT)),
        "replay" => Some(once("replay", LIMIT)),
        "pump" => Some(once("pump", BUDGET)),
        _ => None,
    }
}

/// The form of a command of one word.
fn form_alone(command: &str) -> Option<Form> {
    match command {
        "gen" => Some(once("gen", DRAWN)),
        "gen3" => Some(once("gen3", DRAWN)),
        "draw" => Some(once("draw", PART)),
        "check" => Some(files("check", FILE)),
        "check-replays" => Some(files("check-replays", FILE)),
        "check-streams" => Some(files("check-streams", TRIES)),
        "check-all" => Some(files("check-all", TRIES)),
        command => form_of_script(command),
    }
}

/// The form of a command of `policy`.
fn form_of_policy(command: &str) -> Option<Form> {
    match command {
        "ask" => Some(once("policy ask", LIMIT)),
        "explain" => Some(once("policy explain", LIMIT)),
        "run" => Some(once("policy run", LIMIT)),
        "check" => Some(once("policy check", NOTHING)),
        _ => None,
    }
}

/// The form of the words behind `policy`, and those behind its own.
fn policy_form<'a>(words: &'a [String]) -> (Form, &'a [String]) {
    if let [word, rest @ ..] = words {
        if let Some(form) = form_of_policy(word.as_str()) {
            return (form, rest);
        }
    }
    (once("policy", ASKED), words)
}

/// The form of the words behind `relay`, and those behind its own.
fn relay_form<'a>(words: &'a [String]) -> (Form, &'a [String]) {
    match words {
        [word, rest @ ..] if word.as_str() == "--live" => (once("relay --live", LIVE_RELAY), rest),
        words => (once("relay", RELAY), words),
    }
}

/// The form of the command that these words begin with, and the words behind its own.
pub fn form_of<'a>(first: &str, rest: &'a [String]) -> Option<(Form, &'a [String])> {
    match first {
        "live" => Some((LIVE, rest)),
        "relay" => Some(relay_form(rest)),
        "policy" => Some(policy_form(rest)),
        first => Some((form_alone(first)?, rest)),
    }
}
