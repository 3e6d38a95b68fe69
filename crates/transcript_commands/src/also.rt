//! What the program does with files besides the check of their transcripts.

use world_text::fields::number;

/// What is done with the script of each case besides the check of its transcript.
#[derive(Clone, Copy)]
pub struct Also {
    /// At how many calls of each stream at most it is run with a fault.
    pub tries: Option<u64>,
    /// Whether it is recorded, and run again on its log.
    pub replays: bool,
}

/// For the words `check FILE..`.
pub const NOTHING_ELSE: Also = Also {
    tries: None,
    replays: false,
};

/// What TRIES is, and the files behind it.
fn tries_in(words: &[String]) -> Option<(u64, &[String])> {
    let (tries, files) = words.split_first()?;
    let tries = number(tries.as_str().as_bytes(), u64::from(u32::MAX))?;
    Some((tries, files))
}

/// What is asked for by these words, if there is a file.
fn with_files(also: Also, files: &[String]) -> Option<(Also, &[String])> {
    if files.is_empty() {
        return None;
    }
    Some((also, files))
}

/// The words `check-streams TRIES FILE..`, `check-replays FILE..` and `check-all TRIES FILE..`:
/// what they ask for, and the files.
pub fn also_in(words: &[String]) -> Option<(Also, &[String])> {
    let (first, rest) = words.split_first()?;
    let replays = first.as_str() != "check-streams";
    match first.as_str() {
        "check-replays" => with_files(
            Also {
                tries: None,
                replays,
            },
            rest,
        ),
        "check-streams" | "check-all" => {
            let (tries, files) = tries_in(rest)?;
            let tries = Some(tries);
            with_files(Also { tries, replays }, files)
        }
        _ => None,
    }
}
