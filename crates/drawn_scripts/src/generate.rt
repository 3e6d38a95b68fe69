//! Scripts that are generated from a seed.

ghost use Rattle.std.specs.Prelude.{◌≡◌, ◌==◌, if◌then◌else◌, IfOk};
ghost use Rattle.std.specs.Prelude.{length};
ghost use Rattle.world_text.specs.Lines.{lines_of};
ghost use Rattle.wasi_run.specs.Script.{IsValid};
ghost use Rattle.drawn_scripts.specs.Generate.{generated, next_drawn};

use crate::drawn::{Drawn, push_line};
use std::alloc::{AllocError, Global};

/// How many lines a block has.
const BLOCK: u32 = 9;

/// The number that is drawn after another.
fn next_drawn(x: u64) -> u64
    ensures { result ≡ next_drawn x }
{
    x.wrapping_mul(6364136223846793005)
        .wrapping_add(1442695040888963407)
}

/// The number of the block of a line at this place, after that of the line before it.
fn number_at(x: u64, place: u32) -> u64
    ensures { result ≡ (if place == 0 then next_drawn x else x) }
{
    if place == 0 { next_drawn(x) } else { x }
}

/// A script of this many lines of guest calls, drawn from a seed. Takes memory for its text.
///
/// The first line makes a network. Each nine that follow are a block, which makes sockets, and
/// drops all that it made: of 0.2, a socket that is connected to a port of 127.0.0.1 and is written
/// up to 64 bytes; of both generations, in turn that, the same by the calls of 0.3, and a datagram
/// of 0.3 that is sent, and one that is waited for and given up. The last block is cut where the
/// lines are used up.
pub fn generate(alloc: Global, kind: Drawn, seed: u64, steps: u32) -> Result<Vec<u8>, AllocError>
    ensures drawn { IfOk result (λ text. text.items ≡ generated kind seed steps) }
    // Each line is a step, of context 0 if of any, and there are so many.
    ensures valid { IfOk result (λ text. IsValid 1 (length text.items) text.items) }
    ensures count { IfOk result (λ text. length (lines_of text.items) ≡ steps) }
{
    let mut text = String::new(alloc);
    let mut x = seed;
    for k in 0..steps {
        if k == 0 {
            text.push_str("0 network\n")?;
            continue;
        }
        let number = (k - 1) / BLOCK;
        let place = (k - 1) % BLOCK;
        x = number_at(x, place);
        push_line(
            &mut text,
            kind.block_at(number),
            2 + 3 * number,
            x,
            k,
            place,
        )?;
    }
    Ok(text.into_bytes())
}
