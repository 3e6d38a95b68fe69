//! How a command ended.

ghost use Rattle.std.specs.Prelude.{◌≡◌, []};

use crate::status::RecorderStatus;
use std::alloc::Global;
use wasi_world::Entry;

/// How a command ended, before the source and the sink are given back.
#[derive(Drop)]
pub struct Ended {
    pub status: RecorderStatus,
    pub place: u32,
    pub log: Vec<Entry>,
}

impl Ended {
    /// No run began, or its log isn't handed out.
    pub fn without_log(alloc: Global, status: RecorderStatus, place: u32) -> Ended
        ensures status { result.status ≡ status }
        ensures place { result.place ≡ place }
        ensures log { result.log.items ≡ [] }
    {
        Ended {
            status,
            place,
            log: Vec::new(alloc),
        }
    }
}
