//! The words before the limit.

/// What the words before the limit ask for.
#[derive(Clone, Copy, Debug, PartialEq, Eq)]
pub struct Options<'a> {
    /// Whether every address may be used (`--any-address`).
    pub anywhere: bool,
    /// Whether a line waits without limit whose looks were all pending before (`--wait`).
    pub endless: bool,
    /// The file whose names lookups find (`--hosts HOSTS`).
    pub hosts: Option<&'a str>,
    /// The file whose rules decide (`--policy RULES`).
    pub rules: Option<&'a str>,
    /// The file that the log goes to (`--record LOG`).
    pub log: Option<&'a str>,
    /// Whether that file may be overwritten (`--force`, behind it).
    pub overwrites: bool,
}

/// Whether the first word is this flag, and the words after it.
fn flag<'a>(words: &'a [String], name: &str) -> (bool, &'a [String]) {
    match words {
        [first, rest @ ..] if first.as_str() == name => (true, rest),
        words => (false, words),
    }
}

/// The file that is named where the first word is this option, and the words after it.
fn file<'a>(words: &'a [String], name: &str) -> (Option<&'a str>, &'a [String]) {
    match words {
        [first, path, rest @ ..] if first.as_str() == name => (Some(path.as_str()), rest),
        words => (None, words),
    }
}

/// The options in the words, each at most once and in this order, and the words after them.
pub fn options_in<'a>(words: &'a [String]) -> (Options<'a>, &'a [String]) {
    let (anywhere, words) = flag(words, "--any-address");
    let (endless, words) = flag(words, "--wait");
    let (hosts, words) = file(words, "--hosts");
    let (rules, words) = file(words, "--policy");
    let (log, words) = file(words, "--record");
    let (overwrites, words) = match log {
        Some(_) => flag(words, "--force"),
        None => (false, words),
    };
    let options = Options {
        anywhere,
        endless,
        hosts,
        rules,
        log,
        overwrites,
    };
    (options, words)
}
