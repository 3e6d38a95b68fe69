//! A line of chunks, in one thread.

ghost use Rattle.std.specs.Prelude.{◌≡◌};

use crate::same::same;
use bytes::Bytes;
use std::alloc::{AllocError, Global};
use std::sync::Wait;
use std::test::*;
use worker_shared::{Line, PushEnd, count_left, make_line};

fn push_all<R: Wait>(
    rt: &R,
    alloc: Global,
    push: &mut PushEnd,
    line: &Line,
    count: u8,
) -> Result<(), AllocError>
    requires { push.old.line ≡ line.now }
    ensures { push.new.line ≡ push.old.line }
{
    for n in 0..count {
        if push
            .push(rt, line, Bytes::copy_from_slice(alloc, &[n, n])?)
            .is_err()
        {
            return Err(AllocError);
        }
    }
    Ok(())
}

#[test]
fn chunks_come_in_order(rt: HostRuntime) -> Result<(), Fail> {
    let (line, mut push, mut pop) = make_line(rt.alloc())?;
    same(&rt, pop.pop(&rt, &line).is_none(), true);
    push_all(&rt, rt.alloc(), &mut push, &line, 100)?;
    for n in 0..97u8 {
        let chunk = pop.pop(&rt, &line).expect(&rt, "a chunk");
        same(&rt, chunk.as_slice(), [n, n].as_slice());
    }
    same(&rt, count_left(&rt, &line, push, pop), 3);
    Ok(())
}
