//! A pump whose workers are threads.

use std::alloc::Global;
use std::sync::Wait;
use std::thread::Threads;
use wasi_pump::{Pumped, pump};
use wasi_spawn::ThreadSpawner;
use world_io::{Sink, Source};

/// Pumps with this budget, and tells how many workers wrote and how many read.
pub fn pumps<
    S: Source + Drop + Send + 'static,
    K: Sink + Drop + Send + 'static,
    R: Threads + Wait + Copy + Send + 'static,
>(rt: &R, alloc: Global, source: S, sink: K, budget: usize) -> (Pumped<S, K>, u64, u64) {
    let (mut writers, mut readers) = (ThreadSpawner::new(), ThreadSpawner::new());
    let pumped = pump(rt, alloc, &mut writers, &mut readers, source, sink, budget);
    (pumped, writers.starts(), readers.starts())
}
