//! Reads the argument of a step that looks up a host name: all that is left of its line.

ghost use Rattle.std.specs.Prelude.{◌≡◌, IfOk};
ghost use Rattle.std.specs.List.{list_all};
ghost use Rattle.world_text.specs.Fields.{Reads};
ghost use Rattle.wasi_steps.specs.Names.{ends_no_line, is_name, name_at};

use std::alloc::{AllocError, Global};
use wasi_world::NameText;
use world_text::Fields;

/// Whether no newline and no carriage return is in the bytes.
fn is_unbroken(text: &[u8]) -> bool
    ensures { result ≡ list_all ends_no_line text.now }
{
    text.iter().all(|byte| *byte != b'\n' && *byte != b'\r')
}

/// Whether the bytes are a name: text in which no line ends.
fn is_name(text: &[u8]) -> bool
    ensures { result ≡ is_name text.now }
{
    str::from_utf8(text).is_ok() && is_unbroken(text)
}

/// Takes a host name, for which it takes memory: all that is left of the line, with the spaces in
/// it.
#[tactic(auto, unfolding(crate::specs::Names::name_at, world_text::specs::Fields::read_then, world_text::specs::Fields::give_some))]
pub(crate) fn name(alloc: Global, fields: &mut Fields<'_>) -> Result<Option<NameText>, AllocError>
    ensures { IfOk result (λ name. Reads name_at fields.old name fields.new) }
{
    let Some(text) = fields.rest() else {
        return Ok(None);
    };
    if !is_name(text) {
        return Ok(None);
    }
    let name = NameText::copy_of(alloc, text)?;
    Ok(Some(name))
}
