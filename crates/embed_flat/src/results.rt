//! Writes what a call gave into the guest's memory.

ghost use Rattle.std.specs.Prelude.{◌≡◌, ◌≤◌, ◌+◌, ◌*◌, ◌==◌, ◌&&◌, length, take, drop};
ghost use Rattle.std.specs.Prelude.{nat_lt, if◌then◌else◌};
ghost use Rattle.embed_flat.specs.Abi.{AList, U32, bytes_of, padding, size, stored, with_lists};
ghost use Rattle.embed_flat.specs.Answers.{done_answer, answer_of, result_type, returned};
ghost use Rattle.embed_flat.specs.Answers.{has_room, HasRoom, list_fits, result_fits, is_written, with_answer};
ghost use Rattle.embed_flat.specs.Fields.{address_in, found_in, data_in, datagrams_in, number_in, numbers_in, words_in};
ghost use Rattle.embed_flat.specs.Memory.{put, low_bytes};
ghost use Rattle.embed_flat.specs.Wit.{ip_address, ip_socket_address, incoming_datagram, option, outcome, error_code, triple};

use crate::block::{
    Block, bytes_at, code_block, number_at, set, set_bytes, set_segments, stream_block,
};
use crate::memory::{lies_within, put};
use crate::shape::Shape;
use wasi_steps::{Field, Reply};

/// A place in the guest's memory for the list that a call gives, and how many bytes it has.
#[derive(Clone, Copy, Debug, PartialEq, Eq)]
pub struct Lists {
    pub place: u32,
    pub room: u32,
}

/// How many bytes a datagram that came takes in memory, besides its own bytes.
pub const DATAGRAM_SIZE: u32 = 40;

/// The block of an address with a port.
fn address_block(fields: &[Field]) -> Block
    ensures { take 32 result ≡ bytes_of ip_socket_address (address_in fields.now) }
{
    let mut block = [0u8; 40];
    if number_at(fields, 0) == 4 {
        set(&mut block, 4, 2, number_at(fields, 5));
        set_bytes(&mut block, 6, fields, 1);
        return block;
    }
    set(&mut block, 0, 1, 1);
    set(&mut block, 4, 2, number_at(fields, 9));
    set(&mut block, 8, 4, number_at(fields, 10));
    set_segments(&mut block, 12, fields, 1);
    set(&mut block, 28, 4, number_at(fields, 11));
    block
}

/// The block of an address with no port, or none.
fn found_block(fields: &[Field]) -> Block
    ensures { take 22 result ≡ bytes_of (outcome (option ip_address) error_code)
        (0, found_in fields.now) }
{
    let mut block = [0u8; 40];
    let family = number_at(fields, 0);
    if family == 4 {
        set(&mut block, 2, 1, 1);
        set_bytes(&mut block, 6, fields, 1);
        return block;
    }
    if family == 6 {
        set(&mut block, 2, 1, 1);
        set(&mut block, 4, 1, 1);
        set_segments(&mut block, 6, fields, 1);
        return block;
    }
    block
}

/// The block of an address with a port, or of an `error-code`.
fn bound_block(fields: &[Field]) -> Block
    ensures { take 36 result ≡ bytes_of (outcome ip_socket_address error_code)
        (0, address_in fields.now) }
{
    let mut block = [0u8; 40];
    block[4..36].copy_from_slice(&address_block(fields)[..32]);
    block
}

/// The block of one number, which begins at a place.
fn number_block(at: usize, width: usize, number: u64) -> Block
    requires width { width ≤ 8 }
    requires place { at ≤ 8 }
    ensures { result ≡ put (padding 40) at (low_bytes width number) }
{
    let mut block = [0u8; 40];
    set(&mut block, at, width, number);
    block
}

/// The block of up to three numbers of 32 bits.
fn words_block(fields: &[Field]) -> Block
    ensures { take 16 result ≡ bytes_of (outcome triple error_code) (0, words_in fields.now) }
{
    let mut block = [0u8; 40];
    set(&mut block, 4, 4, number_at(fields, 0));
    set(&mut block, 8, 4, number_at(fields, 1));
    set(&mut block, 12, 4, number_at(fields, 2));
    block
}

/// The block of a list: where it lies, and how many elements it has.
fn list_block(at: usize, place: u64, len: usize) -> Block
    requires { at ≤ 8 }
    ensures { result ≡ put (put (padding 40) at (low_bytes 4 place)) (at + 4) (low_bytes 4 len) }
{
    let mut block = [0u8; 40];
    set(&mut block, at, 4, place);
    set(&mut block, at + 4, 4, len as u64);
    block
}

/// A truth value: 1 where the number isn't 0.
fn truth_of(number: u64) -> u64
    ensures { result ≡ (if nat_lt 0 number then 1 else 0) }
{
    if number > 0 { 1 } else { 0 }
}

/// How many datagrams came: one at most.
fn count_of(number: u64) -> usize
    ensures { result ≡ (if number == 0 then 0 else 1) }
{
    if number == 0 { 0 } else { 1 }
}

/// The block of a call that is done; its list lies at this place.
fn done_block(shape: Shape, fields: &[Field], place: u64) -> Block
    ensures { let it = done_answer shape fields.now place in
        take (size (result_type shape)) result ≡ bytes_of it.wit it.value }
{
    let number = number_at(fields, 0);
    match shape {
        Shape::Flat => [0u8; 40],
        Shape::Family => [0u8; 40],
        Shape::Unit => [0u8; 40],
        Shape::StreamUnit => [0u8; 40],
        Shape::MaybeCode => [0u8; 40],
        Shape::Truth => number_block(1, 1, truth_of(number)),
        Shape::Byte => number_block(1, 1, number),
        Shape::Word => words_block(fields),
        Shape::Pair => words_block(fields),
        Shape::Triple => words_block(fields),
        Shape::Wide => number_block(8, 8, number),
        Shape::StreamWide => number_block(8, 8, number),
        Shape::Address => bound_block(fields),
        Shape::MaybeIp => found_block(fields),
        Shape::Datagrams => list_block(4, place, count_of(number)),
        Shape::StreamBytes => list_block(4, place, bytes_at(fields, 0).len()),
        Shape::Places => list_block(0, place, fields.len()),
    }
}

/// The fields behind the first.
fn rest_of(fields: &[Field]) -> &[Field]
    ensures { result.now ≡ drop 1 fields.now }
{
    match fields {
        [_, rest @ ..] => rest,
        [] => fields,
    }
}

/// The bytes of a datagram, whose fields are who sent it and then they.
fn data_at(fields: &[Field]) -> &[u8]
    ensures { result.now ≡ data_in fields.now }
{
    let place = if number_at(fields, 0) == 4 { 6 } else { 12 };
    bytes_at(fields, place)
}

/// Whether the list that a call of this shape gives takes no more than so many bytes.
fn has_room(shape: Shape, fields: &[Field], room: usize) -> bool
    ensures { result ≡ has_room shape fields.now room }
{
    match shape {
        Shape::Datagrams => {
            let len = data_at(rest_of(fields)).len();
            number_at(fields, 0) == 0 || (room >= 40 && len <= room - 40)
        }
        Shape::StreamBytes => bytes_at(fields, 0).len() <= room,
        Shape::Places => fields.len() <= room / 4,
        _ => true,
    }
}

/// Whether there is room within the memory for the list that a call of this shape gives.
fn list_fits(shape: Shape, fields: &[Field], memory: &[u8], lists: Lists) -> bool
    ensures { result ≡ list_fits shape fields.now memory.now lists }
{
    let room = lists.room as usize;
    !shape.has_list() || (lies_within(memory, lists.place, room) && has_room(shape, fields, room))
}

/// Puts the datagram that came, if one did, and its bytes behind it.
fn put_datagrams(memory: &mut [u8], place: u32, fields: &[Field])
    requires { HasRoom Shape.Datagrams fields.now place memory.old }
    ensures { memory.new ≡ with_lists (AList incoming_datagram)
        (place, datagrams_in fields.now place) memory.old }
{
    if number_at(fields, 0) == 0 {
        return;
    }
    let datagram = rest_of(fields);
    let data = data_at(datagram);
    let behind = place as usize + 40;
    let mut one = list_block(0, behind as u64, data.len());
    one[8..40].copy_from_slice(&address_block(datagram)[..32]);
    put(memory, place as usize, &one);
    put(memory, behind, data);
}

/// Puts the places that a poll gives.
fn put_places(memory: &mut [u8], place: u32, fields: &[Field])
    requires { HasRoom Shape.Places fields.now place memory.old }
    ensures { memory.new ≡ with_lists (AList U32) (place, numbers_in fields.now) memory.old }
{
    for k in 0..fields.len() {
        let number = number_at(fields, k);
        put(memory, place as usize + 4 * k, &number.to_le_bytes()[..4]);
    }
}

/// Puts the list that a call of this shape gives.
fn put_list(shape: Shape, fields: &[Field], memory: &mut [u8], place: u32)
    requires { HasRoom shape fields.now place memory.old }
    ensures { let it = done_answer shape fields.now place in
        memory.new ≡ with_lists it.wit it.value memory.old }
{
    match shape {
        Shape::Datagrams => put_datagrams(memory, place, fields),
        Shape::StreamBytes => put(memory, place as usize, bytes_at(fields, 0)),
        Shape::Places => put_places(memory, place, fields),
        _ => {}
    }
}

/// Writes what a call that is done gave, and whether it and its list fit.
fn write_done(shape: Shape, fields: &[Field], memory: &mut [u8], at: u32, lists: Lists) -> bool
    ensures fits { result ≡ list_fits shape fields.now memory.old lists && result_fits shape memory.old at }
    ensures memory { let it = done_answer shape fields.now lists.place in
        memory.new ≡ (if result then stored it.wit it.value at memory.old else memory.old) }
{
    let size = shape.size();
    if !list_fits(shape, fields, memory, lists) {
        return false;
    }
    if !lies_within(memory, at, size) {
        return false;
    }
    put_list(shape, fields, memory, lists.place);
    let block = done_block(shape, fields, u64::from(lists.place));
    put(memory, at as usize, &block[..size]);
    true
}

/// Writes a block of a result that has no list, and whether it fits.
fn write_block(shape: Shape, block: &Block, memory: &mut [u8], at: u32) -> bool
    ensures fits { result ≡ result_fits shape memory.old at }
    ensures memory { memory.new ≡ (if result
        then put memory.old at (take (size (result_type shape)) block.now) else memory.old) }
{
    let size = shape.size();
    if !lies_within(memory, at, size) {
        return false;
    }
    put(memory, at as usize, &block[..size]);
    true
}

/// The number that a call returns: a family's is 0 or 1, as in the interface.
pub fn value_of(shape: Shape, reply: &Reply) -> u64
    ensures { result ≡ returned shape reply.now }
{
    let Reply::Ok(fields) = reply else {
        return 0;
    };
    let number = number_at(fields.as_slice(), 0);
    match shape {
        Shape::Flat => number,
        Shape::Family => {
            if number == 6 {
                return 1;
            }
            0
        }
        _ => 0,
    }
}

/// Writes what a call gave at its place in the guest's memory, and its list at the place for that;
/// and whether both fit there. A reply that is no result of a call writes nothing.
pub fn written(shape: Shape, reply: &Reply, memory: &mut [u8], at: u32, lists: Lists) -> bool
    ensures fits { result ≡ is_written shape reply.now memory.old at lists }
    ensures memory { memory.new ≡ (if result
        then with_answer (answer_of shape reply.now lists.place) at memory.old else memory.old) }
{
    match reply {
        Reply::Ok(fields) => write_done(shape, fields.as_slice(), memory, at, lists),
        Reply::Err(code) => {
            if !shape.has_code() {
                return false;
            }
            write_block(shape, &code_block(shape, *code), memory, at)
        }
        Reply::Closed => {
            if !shape.has_stream_error() {
                return false;
            }
            write_block(shape, &stream_block(shape, None), memory, at)
        }
        Reply::Failed(_, handle) => {
            if !shape.has_stream_error() {
                return false;
            }
            write_block(shape, &stream_block(shape, Some(*handle)), memory, at)
        }
        _ => true,
    }
}
