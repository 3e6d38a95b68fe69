//! The bytes of a result, as they lie in the guest's memory.

ghost use Rattle.std.specs.Prelude.{◌≡◌, ◌≤◌, ◌+◌, ◌*◌, take, IfSome, Option, None, Some};
ghost use Rattle.embed_flat.specs.Abi.{bytes_of, size};
ghost use Rattle.embed_flat.specs.Answers.{code_answer, stream_answer, stream_error_value};
ghost use Rattle.embed_flat.specs.Fields.{number_in, bytes_in, bytes_one_by_one, segments_one_by_one};
ghost use Rattle.embed_flat.specs.Memory.{put, low_bytes};

use crate::code::code_number;
use crate::shape::Shape;
use wasi_steps::{CodeWord, Field};

/// The bytes of a result; none has more.
pub type Block = [u8; 40];

/// Sets a number of so many bytes, the lowest first.
pub fn set(block: &mut Block, at: usize, width: usize, number: u64)
    requires width { width ≤ 8 }
    requires place { at + width ≤ 40 }
    ensures { block.new ≡ put block.old at (low_bytes width number) }
{
    let bytes = number.to_le_bytes();
    block[at..at + width].copy_from_slice(&bytes[..width]);
}

/// The number in a field at a place; 0 where there is none.
pub fn number_at(fields: &[Field], place: usize) -> u64
    ensures { result ≡ number_in fields.now place }
{
    match fields.get(place) {
        Some(Field::Number(number)) => *number,
        Some(Field::True) => 1,
        _ => 0,
    }
}

/// The bytes in a field at a place; none where there are none.
pub fn bytes_at(fields: &[Field], place: usize) -> &[u8]
    ensures { result.now ≡ bytes_in fields.now place }
{
    match fields.get(place) {
        Some(Field::Bytes(bytes)) => bytes.as_slice(),
        _ => &[],
    }
}

/// Sets the four bytes of an address, whose fields begin at a place.
pub fn set_bytes(block: &mut Block, at: usize, fields: &[Field], first: usize)
    requires place { at ≤ 30 }
    requires first { first ≤ 9 }
    ensures { block.new ≡ put block.old at (bytes_one_by_one fields.now first 4) }
{
    for k in 0..4 {
        set(block, at + k, 1, number_at(fields, first + k));
    }
}

/// Sets the eight segments of an address, whose fields begin at a place.
pub fn set_segments(block: &mut Block, at: usize, fields: &[Field], first: usize)
    requires place { at ≤ 20 }
    requires first { first ≤ 9 }
    ensures { block.new ≡ put block.old at (segments_one_by_one fields.now first 8) }
{
    for k in 0..8 {
        set(block, at + 2 * k, 2, number_at(fields, first + k));
    }
}

/// The block of an `error-code`, as the case that isn't what was asked for.
pub fn code_block(shape: Shape, code: CodeWord) -> Block
    ensures { IfSome (code_answer shape code) (λ it. take (size it.wit) result ≡ bytes_of it.wit it.value) }
{
    let mut block = [0u8; 40];
    set(&mut block, 0, 1, 1);
    set(&mut block, shape.payload(), 1, u64::from(code_number(code)));
    block
}

/// The block of a `stream-error`: closed, or the handle of what went wrong.
pub fn stream_block(shape: Shape, error: Option<u32>) -> Block
    ensures { IfSome (stream_answer shape (stream_error_value error))
        (λ it. take (size it.wit) result ≡ bytes_of it.wit it.value) }
{
    let mut block = [0u8; 40];
    let at = shape.payload();
    set(&mut block, 0, 1, 1);
    match error {
        Some(handle) => set(&mut block, at + 4, 4, u64::from(handle)),
        None => set(&mut block, at, 1, 1),
    }
    block
}
