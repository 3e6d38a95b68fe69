//! Jobs in threads of their own, and refused ones.

use crate::same::same;
use std::sync::Wait;
use std::test::*;
use std::thread::Threads;
use wasi_spawn::{FakeSpawner, Job, Spawner, StartError, ThreadSpawner};

/// Adds two numbers.
#[derive(Debug, PartialEq, Eq, Drop)]
struct Sum {
    one: u8,
    other: u8,
}

impl Job for Sum {
    ghost use Rattle.std.specs.Prelude.{◌≡◌, ◌+◌};

    type Out = u64;

    ghost may_give = { λ job out. out ≡ job.one + job.other };

    fn run<R: Threads + Wait>(self, _rt: &R) -> u64 {
        u64::from(self.one) + u64::from(self.other)
    }
}

#[test]
fn a_thread_does_the_job(rt: HostRuntime) -> Result<(), Fail> {
    let mut spawner = ThreadSpawner::new();
    let Ok(first) = spawner.start(&rt, rt.alloc(), Sum { one: 1, other: 2 }) else {
        return Err(Fail::new("no worker"));
    };
    let Ok(second) = spawner.start(
        &rt,
        rt.alloc(),
        Sum {
            one: 255,
            other: 255,
        },
    ) else {
        return Err(Fail::new("no second worker"));
    };
    same(&rt, spawner.join(&rt, second), 510);
    same(&rt, spawner.join(&rt, first), 3);
    same(&rt, spawner.starts(), 2);
    same(&rt, spawner.refusals(), 0);
    Ok(())
}

#[test]
fn a_refused_start_hands_its_job_back(rt: HostRuntime) -> Result<(), Fail> {
    let mut spawner = FakeSpawner::new(vec![in rt.alloc(); 1u32, 3]?);
    for number in 1..5u8 {
        match spawner.start(
            &rt,
            rt.alloc(),
            Sum {
                one: number,
                other: 5,
            },
        ) {
            Ok(handle) => {
                same(&rt, number % 2, 0);
                same(&rt, spawner.join(&rt, handle), u64::from(number) + 5);
            }
            Err(StartError::NoWorker(job)) => {
                same(&rt, number % 2, 1);
                same(
                    &rt,
                    job,
                    Sum {
                        one: number,
                        other: 5,
                    },
                );
            }
            Err(StartError::Memory(_)) => return Err(Fail::new("memory")),
        }
    }
    same(&rt, spawner.starts(), 2);
    same(&rt, spawner.refusals(), 2);
    Ok(())
}
