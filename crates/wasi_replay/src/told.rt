//! Reads the answers of a log.

ghost use Rattle.std.specs.Prelude.{IfOk};
ghost use Rattle.world_text.specs.Fields.{Reads, after_word};
ghost use Rattle.wasi_replay.specs.Calls.{plain_answers, rows_of_answers, told_at};

use std::alloc::{AllocError, Global};
use wasi_world::Told;
use world_scripted::scenario::names;
use world_text::Fields;

/// Takes what follows the word of an answer that holds neither bytes nor names.
#[tactic(auto, unfolding(world_text::specs::Fields::read_then, world_text::specs::Fields::give))]
fn plain_answer(fields: &mut Fields<'_>, word: &str) -> Option<Told>
    ensures { Reads (after_word (rows_of_answers plain_answers) word.now) fields.old result
        fields.new }
{
    match word {
        "pending" => Some(Told::Pending),
        "done" => Some(Told::Done),
        "yes" => Some(Told::Yes),
        "no" => Some(Told::No),
        "code" => Some(Told::Code(fields.code()?)),
        "addr" => Some(Told::Addr(fields.socket_address()?)),
        "arrived" => Some(Told::Arrived(fields.socket_address()?)),
        "value" => Some(Told::Value(fields.number(u64::MAX)?)),
        _ => None,
    }
}

/// Takes an answer. Takes memory for its bytes or names.
#[tactic(auto, unfolding(crate::specs::Calls::told_at, world_text::specs::Fields::read_then, world_text::specs::Fields::give))]
pub fn told(alloc: Global, fields: &mut Fields<'_>) -> Result<Option<Told>, AllocError>
    ensures { IfOk result (λ told. Reads told_at fields.old told fields.new) }
{
    let Some(word) = fields.word() else {
        return Ok(None);
    };
    match word {
        "bytes" => {
            let Some(bytes) = fields.octets(alloc)? else {
                return Ok(None);
            };
            Ok(Some(Told::Bytes(bytes)))
        }
        "took" => {
            let Some(bytes) = fields.octets(alloc)? else {
                return Ok(None);
            };
            Ok(Some(Told::Took(bytes)))
        }
        "datagram" => {
            let Some(addr) = fields.socket_address() else {
                return Ok(None);
            };
            let Some(bytes) = fields.octets(alloc)? else {
                return Ok(None);
            };
            Ok(Some(Told::Datagram(bytes, addr)))
        }
        "names" => {
            let Some(ips) = names(alloc, fields)? else {
                return Ok(None);
            };
            Ok(Some(Told::Names(ips)))
        }
        _ => Ok(plain_answer(fields, word)),
    }
}
