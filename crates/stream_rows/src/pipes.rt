//! Pipes in memory that several owners share.

use crate::same::same;
use crate::threads::pumps;
use bytes::Bytes;
use locked_pipes::{MemoryInputPipe, MemoryOutputPipe};
use std::test::*;
use wasi_streams::StreamError;
use wasi_world::TrapKind;
use world_io::{Sink, Source};

#[test]
fn an_output_pipe_holds_no_more_than_its_capacity(rt: HostRuntime) -> Result<(), Fail> {
    let pipe = MemoryOutputPipe::new(&rt, rt.alloc(), 4)?;
    let capacity = StreamError::Trap(TrapKind::Capacity);
    same(&rt, pipe.check_write(), Ok(4));
    same(&rt, pipe.write(&[1, 2, 3]), Ok(()));
    same(&rt, pipe.check_write(), Ok(1));
    same(&rt, pipe.write(&[4, 5]), Err(capacity));
    same(&rt, pipe.check_write(), Ok(1));
    same(&rt, pipe.write(&[6]), Ok(()));
    same(&rt, pipe.check_write(), Err(StreamError::Closed));
    same(&rt, pipe.write(&[]), Ok(()));
    same(&rt, pipe.flush(), Ok(()));
    same(&rt, pipe.contents()?.as_slice(), [1, 2, 3, 6].as_slice());
    Ok(())
}

#[test]
fn an_input_pipe_gives_its_front(rt: HostRuntime) -> Result<(), Fail> {
    let pipe = MemoryInputPipe::new(
        &rt,
        rt.alloc(),
        Bytes::copy_from_slice(rt.alloc(), &[1, 2])?,
    )?;
    same(&rt, pipe.is_empty(), false);
    same(
        &rt,
        pipe.read(1)
            .is_ok_and(|bytes| bytes.as_slice() == [1].as_slice()),
        true,
    );
    same(&rt, pipe.read(0).is_ok_and(|bytes| bytes.is_empty()), true);
    same(
        &rt,
        pipe.read(9)
            .is_ok_and(|bytes| bytes.as_slice() == [2].as_slice()),
        true,
    );
    same(&rt, pipe.read(1).err(), Some(StreamError::Closed));
    same(&rt, pipe.is_empty(), true);
    Ok(())
}

/// What one owner does another sees. The bytes come out with the last owner alone.
#[test]
fn owners_share_a_pipe(rt: HostRuntime) -> Result<(), Fail> {
    let mut mine = MemoryOutputPipe::new(&rt, rt.alloc(), 3)?;
    let mut theirs = mine.share()?;
    same(&rt, Sink::write(&mut theirs, &[1, 2]), Ok(2));
    same(&rt, Sink::write(&mut mine, &[3, 4]), Ok(1));
    same(&rt, Sink::write(&mut theirs, &[5]), Ok(0));
    same(&rt, Sink::flush(&mut theirs), Ok(()));
    same(&rt, theirs.try_into_inner().is_none(), true);
    same(
        &rt,
        mine.try_into_inner()
            .is_some_and(|bytes| bytes.as_slice() == [1, 2, 3].as_slice()),
        true,
    );

    let mut source = MemoryInputPipe::new(
        &rt,
        rt.alloc(),
        Bytes::copy_from_slice(rt.alloc(), &[1, 2, 3])?,
    )?;
    let other = source.share()?;
    let mut buf = [0u8; 2];
    same(&rt, Source::read(&mut source, &mut buf), Ok(2));
    same(&rt, buf, [1, 2]);
    same(
        &rt,
        other
            .read(2)
            .is_ok_and(|bytes| bytes.as_slice() == [3].as_slice()),
        true,
    );
    same(&rt, Source::read(&mut source, &mut buf), Ok(0));
    Ok(())
}

/// A pump from one pipe to another, while a share of each stays with its owner.
#[test]
fn a_pump_between_pipes(rt: HostRuntime) -> Result<(), Fail> {
    let bytes = vec![in rt.alloc(); 7u8; 100_000]?;
    let source = MemoryInputPipe::new(
        &rt,
        rt.alloc(),
        Bytes::copy_from_slice(rt.alloc(), bytes.as_slice())?,
    )?;
    let sink = MemoryOutputPipe::new(&rt, rt.alloc(), 100_000)?;
    let (pumped, _, _) = pumps(&rt, rt.alloc(), source.share()?, sink.share()?, 1000);
    same(&rt, pumped.outcome, Ok(100_000));
    same(&rt, source.is_empty(), true);
    same(&rt, sink.contents()?.as_slice() == bytes.as_slice(), true);
    Ok(())
}
