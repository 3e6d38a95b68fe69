//! Bytes as a field: two hexadecimal digits in lower case for each, or `-` for none.

ghost use Rattle.std.specs.Prelude.{IfOk, IsTrue, OnOk, string_bytes, ◌≡◌, ◌↔◌, ◌<◌, ◌*◌, ◌++◌, ℕ};
ghost use Rattle.std.specs.Prelude.{true, Some, Ok, length, slice_index};
ghost use Rattle.std.specs.List.{list_all};
ghost use Rattle.hex.specs.Hex.{decode_of, encode_lower, hex_digit_value, lower_digits, pair_value};
ghost use Rattle.world_text.specs.Fields.{is_lower_digit, is_lower_hex, bytes_in, bytes_text};

use std::alloc::{AllocError, Global};
use wasi_world::Octets;

fn is_lower_digit(byte: &u8) -> bool
    ensures { result ≡ is_lower_digit byte.now }
{
    matches!(byte, b'0'..=b'9' | b'a'..=b'f')
}

fn are_lower_digits(field: &[u8]) -> bool
    ensures { result ≡ list_all is_lower_digit field.now }
{
    let mut are = true;
    for byte in field {
        // With no early end, so that many bytes are tested in one instruction.
        are &= is_lower_digit(byte);
    }
    are
}

fn is_lower_hex(field: &[u8]) -> bool
    ensures { result ≡ is_lower_hex field.now }
{
    !field.is_empty() && are_lower_digits(field)
}

/// The value of a digit in lower case.
fn digit_value(digit: u8) -> u8
    requires { is_lower_digit digit ≡ true }
    ensures value { hex_digit_value digit ≡ Some result }
    ensures bound { result < 16 }
{
    // The letters are those whose bit of 64 is set, and their low bits count from 1.
    (digit & 15) + 9 * (digit >> 6)
}

/// The byte of two digits in lower case.
fn pair(high: u8, low: u8) -> u8
    requires high { is_lower_digit high ≡ true }
    requires low { is_lower_digit low ≡ true }
    ensures { (place : ℕ) → pair_value high low place ≡ Ok result }
{
    digit_value(high) * 16 + digit_value(low)
}

/// Puts the bytes of pairs of digits in lower case.
fn decode_into(digits: &[u8], bytes: &mut [u8])
    requires lower { list_all is_lower_digit digits.now ≡ true }
    requires room { length digits.now ≡ 2 * length bytes.old }
    ensures { decode_of digits.now ≡ Ok bytes.new }
{
    'bytes: for i in 0..bytes.len() {
        bytes[i] = pair(digits[2 * i], digits[2 * i + 1]);
    }
}

/// The bytes that the field says: `-` for none, else pairs of digits of `0` to `9` and `a` to `f`,
/// so an empty field says none. Takes memory for the bytes.
#[tactic(auto, unfolding(crate::specs::Fields::bytes_in))]
pub fn octets(alloc: Global, field: &[u8]) -> Result<Option<Octets>, AllocError>
    ensures { IfOk result (λ bytes. bytes ≡ bytes_in field.now) }
{
    if field == b"-".as_slice() {
        return Ok(Some(Octets::from_vec(Vec::new(alloc))));
    }
    if field.len() % 2 != 0 || !is_lower_hex(field) {
        return Ok(None);
    }
    let mut bytes = vec![in alloc; 0u8; field.len() / 2]?;
    decode_into(field, bytes.as_mut_slice());
    Ok(Some(Octets::from_vec(bytes)))
}

/// The digit of a value, in lower case.
fn digit_of(value: u8) -> u8
    requires { value < 16 }
    ensures { result ≡ slice_index lower_digits value }
{
    // The letters begin 39 places after the place that follows 9.
    b'0' + value + 39 * u8::from(value > 9)
}

/// Puts the digits of bytes, two for each.
fn encode_into(bytes: &[u8], digits: &mut [u8])
    requires { length digits.old ≡ 2 * length bytes.now }
    ensures { digits.new ≡ encode_lower bytes.now }
{
    'bytes: for i in 0..bytes.len() {
        digits[2 * i] = digit_of(bytes[i] / 16);
        digits[2 * i + 1] = digit_of(bytes[i] % 16);
    }
}

/// Appends the text of the bytes; takes memory for it. After running out of memory it is as it was.
pub fn push_octets(text: &mut String, bytes: &[u8]) -> Result<(), AllocError>
    ensures { OnOk result (string_bytes text.new ≡ string_bytes text.old ++ bytes_text bytes.now) }
{
    if bytes.is_empty() {
        return text.push_str("-");
    }
    let digits = hex::encode(*text.allocator(), bytes)?;
    text.push_str(digits.as_str())
}

/// Appends the text of the bytes to a text that is kept as bytes; takes memory for it.
pub fn append_octets(text: &mut Vec<u8>, bytes: &[u8]) -> Result<(), AllocError>
    ensures { OnOk result (text.new.items ≡ text.old.items ++ bytes_text bytes.now) }
{
    if bytes.is_empty() {
        return text.extend_from_slice(b"-");
    }
    let start = text.len();
    let Some(end) = start.checked_add(2 * bytes.len()) else {
        return Err(AllocError);
    };
    text.resize(end, 0)?;
    encode_into(bytes, &mut text.as_mut_slice()[start..]);
    Ok(())
}
