//! The subcommands.

use crate::help;

/// What the first word asks for. Words that share a help are one subcommand.
#[derive(Clone, Copy, Debug, PartialEq, Eq)]
pub enum Subcommand {
    /// Runs a script over a scripted network, or copies by worker streams.
    Scripts,
    /// Prints, checks and tries transcripts.
    Transcripts,
    /// Writes, replays and draws the log of a run.
    Recorder,
    /// Runs a script under rules, and answers questions about them.
    Policy,
    /// Runs a script over the system's sockets.
    Live,
    /// Relays connections.
    Relay,
}

impl Subcommand {
    /// The subcommand that a word names.
    pub fn of_word(word: &str) -> Option<Subcommand> {
        match word {
            "run" | "gen" | "gen3" | "pump" => Some(Subcommand::Scripts),
            "show" | "faults" => Some(Subcommand::Transcripts),
            "check" | "check-streams" | "check-replays" | "check-all" => {
                Some(Subcommand::Transcripts)
            }
            "record" | "replay" | "draw" => Some(Subcommand::Recorder),
            "policy" => Some(Subcommand::Policy),
            "live" => Some(Subcommand::Live),
            "relay" => Some(Subcommand::Relay),
            _ => None,
        }
    }

    /// The texts of its `--help`.
    pub fn help(self) -> &'static [&'static str] {
        match self {
            Subcommand::Scripts => help::SCRIPTS,
            Subcommand::Transcripts => help::TRANSCRIPTS,
            Subcommand::Recorder => help::RECORDER,
            Subcommand::Policy => help::POLICY,
            Subcommand::Live => help::LIVE,
            Subcommand::Relay => help::RELAY,
        }
    }
}
