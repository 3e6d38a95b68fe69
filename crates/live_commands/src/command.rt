//! What the program's words ask for.

ghost use Rattle.std.specs.Prelude.{◌≡◌, Some, IfOk, map, option_map, string_bytes};
ghost use Rattle.world_text.specs.Fields.{number_in};
ghost use Rattle.live_commands.specs.Commands.{ports_in, command_in, shown};

use std::alloc::{AllocError, Global};
use world_text::fields::number;

/// `LIMIT PORT..`: a script of at most so many bytes, and the ports that it may use.
#[derive(Drop)]
pub struct Command {
    pub limit: u32,
    pub ports: Vec<u16>,
}

/// The number that a word is, a port's.
fn port_in(word: &str) -> Option<u16>
    ensures { result ≡ number_in word.now 65535 }
{
    Some(number(word.as_bytes(), u64::from(u16::MAX))? as u16)
}

/// The ports that the words are, or none where a word isn't one. Takes memory for them.
fn ports_in(alloc: Global, words: &[String]) -> Result<Option<Vec<u16>>, AllocError>
    ensures { IfOk result (λ ports. option_map (λ v. v.items) ports
        ≡ ports_in (map (λ w. string_bytes w) words.now)) }
{
    let mut ports = Vec::new(alloc);
    for word in words {
        let Some(port) = port_in(word.as_str()) else {
            return Ok(None);
        };
        ports.push(port)?;
    }
    Ok(Some(ports))
}

/// The limit that a word is.
pub fn limit_in(word: &str) -> Option<u32>
    ensures { result ≡ number_in word.now 4294967295 }
{
    Some(number(word.as_bytes(), u64::from(u32::MAX))? as u32)
}

/// The command in the words: a limit and any number of ports. None where they aren't in order.
pub fn command_in(alloc: Global, words: &[String]) -> Result<Option<Command>, AllocError>
    ensures { IfOk result (λ command. option_map shown command
        ≡ command_in (map (λ w. string_bytes w) words.now)) }
{
    let [limit, rest @ ..] = words else {
        return Ok(None);
    };
    let Some(limit) = limit_in(limit.as_str()) else {
        return Ok(None);
    };
    match ports_in(alloc, rest)? {
        Some(ports) => Ok(Some(Command { limit, ports })),
        None => Ok(None),
    }
}
