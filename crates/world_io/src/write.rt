//! Writes bytes as a whole.

ghost use Rattle.std.specs.Prelude.{OnOk, OnErr};
ghost use Rattle.world_io.specs.Written.{TookAll, TookPart};

use crate::io::{Failed, Sink};

/// Writes all the bytes, in as many pieces as it takes. `Failed`: the sink counted a fault, or took
/// nothing of a piece. Takes no memory.
pub fn write_all<K: Sink>(sink: &mut K, bytes: &[u8]) -> Result<(), Failed>
    ensures all { OnOk result (TookAll (K.writing sink.old) bytes.now (K.writing sink.new)) }
    ensures front { OnErr result (TookPart (K.writing sink.old) bytes.now (K.writing sink.new)) }
{
    let mut at = 0;
    while at < bytes.len() {
        let count = sink.write(&bytes[at..])?;
        if count == 0 {
            return Err(Failed);
        }
        at += count;
    }
    Ok(())
}
