//! What a program prints on standard error when it stops at its rules.

ghost use Rattle.std.specs.Prelude.{◌≡◌};
ghost use Rattle.std.specs.Process.{exit_status};

use crate::rules_text::{MOST_RULES, RulesText};
use std::process::ExitCode;
use wasi_console::{end_at_line, end_too_long};

/// What a line of rules may be.
const RULE_LINES: &str =
    "a rule such as `allow tcp-connect 4 127 0 0 0 8 80 443`, ended by a newline, in a file of at most 1048576 bytes";

/// Prints the status that says that the rules of this file have this bad line. Returns the status as
/// the program's.
pub fn end_at_rules<R: Eprint>(
    rt: &R,
    number: u8,
    path: &str,
    line: u32,
    rules: &RulesText,
) -> ExitCode
    ensures { exit_status result ≡ number }
{
    if rules.is_too_long() {
        return end_too_long(rt, number, path, line, MOST_RULES);
    }
    end_at_line(rt, number, path, line, rules.front(line), RULE_LINES)
}
