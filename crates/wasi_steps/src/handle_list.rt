//! Reads the handles of a poll-list.

ghost use Rattle.std.specs.Prelude.{IfOk};
ghost use Rattle.world_text.specs.Fields.{Reads};
ghost use Rattle.wasi_steps.specs.HandleLists.{handles_at};

use std::alloc::{AllocError, Global};
use wasi_world::NumberList;
use world_text::Fields;

/// Takes handles up to the end of the line.
pub(crate) fn pollables(
    alloc: Global,
    fields: &mut Fields<'_>,
) -> Result<Option<NumberList>, AllocError>
    ensures { IfOk result (λ handles. Reads handles_at fields.old handles fields.new) }
{
    let mut handles = Vec::new(alloc);
    while !fields.is_done() {
        let Some(handle) = fields.u32() else {
            return Ok(None);
        };
        handles.push(handle)?;
    }
    Ok(Some(NumberList::from_vec(handles)))
}
