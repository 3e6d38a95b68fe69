//! A guest's memory: what lies at a place of it, and putting bytes there.

ghost use Rattle.std.specs.Prelude.{◌≡◌, ℕ, ◌≤◌, ◌+◌, length, slice_get, nat_le, IfSome, take, drop};
ghost use Rattle.embed_flat.specs.Memory.{put, IsOutside};
ghost use Rattle.world_text.specs.Written.{AreBytes};

/// Whether so many bytes at this place lie within the memory.
pub fn lies_within(memory: &[u8], at: u32, len: usize) -> bool
    ensures { result ≡ nat_le (at + len) (length memory.now) }
{
    let at = at as usize;
    at <= memory.len() && len <= memory.len() - at
}

/// The bytes of a place; `None` where it isn't within the memory.
pub fn bytes_at(memory: &[u8], at: u32, len: u32) -> Option<&[u8]>
    ensures { IfSome result (λ bytes. bytes.now ≡ take len (drop at memory.now)) }
{
    if !lies_within(memory, at, len as usize) {
        return None;
    }
    let at = at as usize;
    Some(&memory[at..at + len as usize])
}

/// Puts bytes at a place that is within the memory.
pub fn put(memory: &mut [u8], at: usize, bytes: &[u8])
    requires { at + length bytes.now ≤ length memory.old }
    ensures memory { memory.new ≡ put memory.old at bytes.now }
    ensures outside { (k : ℕ) → IsOutside at (length bytes.now) k
        → slice_get memory.new k ≡ slice_get memory.old k }
    ensures bytes { AreBytes bytes.now }
{
    memory[at..at + bytes.len()].copy_from_slice(bytes);
}
