//! A background write.

ghost use Rattle.std.specs.Prelude.{◌≡◌, ◌≤◌, ◌<◌, ◌^◌, ℕ, Bool, List, false, length, drop, OnErr};
ghost use Rattle.std.specs.Prelude.{option_map};
ghost use Rattle.wasi_world.specs.Asks.{AsksFor, Reaches};
ghost use Rattle.wasi_world.specs.Operation.{PollsFor, Nothing, Waits, write_front};
ghost use Rattle.wasi_tcp.specs.Job.{writer, write_operation, new_job, rest_front, write_end};
ghost use Rattle.wasi_tcp.specs.Job.{end_after, job_asks, told_end, closing_job, finish_asks};
ghost use Rattle.wasi_tcp.specs.Bounds.{IsWrite, rest_until};

use crate::halves::answered;
use std::alloc::AllocError;
use std::marker::Model;
use wasi_addr::{ErrorCode, ShutdownType};
use wasi_world::asks::Polled;
use wasi_world::{Answer, Octets, OpId, Refusal, Sock, World, asks};

/// What comes next.
#[derive(Clone, Copy, Debug, PartialEq, Eq)]
pub enum WriteStage {
    /// The rest is offered.
    Write,
    /// All is written, and the half is shut down.
    Close,
    /// A write was refused with this code, and the half is shut down.
    Refused(ErrorCode),
    /// It ended: all is written.
    Written,
    /// It ended: refused with this code.
    Failed(ErrorCode),
}

/// A write that was begun, from the front of its bytes on. It is kept with its end until it is
/// collected.
#[derive(Drop)]
pub struct WriteJob {
    op: OpId,
    side: Sock,
    bytes: Octets,
    place: usize,
    closing: bool,
    stage: WriteStage,
}

impl Model for WriteJob {
    ghost use Rattle.std.specs.Prelude.{◌≤◌, ◌<◌, ◌^◌, length, drop};
    ghost use Rattle.wasi_tcp.specs.Job.{Job, write_job};

    ghost Value = { Job };

    ghost view = { λ j. write_job j.op j.side (drop j.place j.bytes) j.closing j.stage };

    ghost invariant = { λ j. (j.place ≤ length j.bytes) × (length j.bytes < 2 ^ 32) };
}

impl WriteJob {
    pub(crate) fn new(op: OpId, side: Sock, bytes: Octets) -> WriteJob
        requires { length bytes < 2 ^ 32 }
        ensures { result ≡ new_job op side bytes }
    {
        WriteJob {
            op,
            side,
            bytes,
            place: 0,
            closing: false,
            stage: WriteStage::Write,
        }
    }

    /// The network socket that it writes to.
    pub fn side(&self) -> Sock
        ensures { result ≡ self.now.write.who.side }
    {
        self.side
    }

    /// How it ended, none where it is in progress.
    pub fn end(&self) -> Option<Result<(), ErrorCode>>
        ensures told { result ≡ told_end self.now.end }
        ensures write { IsWrite self.now }
    {
        match self.stage {
            WriteStage::Write | WriteStage::Close | WriteStage::Refused(_) => None,
            WriteStage::Written => Some(Ok(())),
            WriteStage::Failed(code) => Some(Err(code)),
        }
    }

    /// What is not taken yet, none where it ended. Takes no memory.
    pub fn rest(&self) -> Option<&[u8]>
        ensures { option_map (λ rest. rest.now) result ≡ rest_until self.now self.now.end }
    {
        match self.stage {
            WriteStage::Write => Some(&self.bytes.as_slice()[self.place..]),
            WriteStage::Close | WriteStage::Refused(_) => Some(&[]),
            WriteStage::Written | WriteStage::Failed(_) => None,
        }
    }

    /// Has the half released after the write: by the job, or now, named `op`, where the write ended
    /// well already. After running out of memory the job is as it was.
    pub(crate) fn finish<W: World>(&mut self, world: &mut W, op: OpId) -> Result<(), AllocError>
        requires { (W.seen world.old).ended ≡ false }
        ensures asked { AsksFor (finish_asks op self.old) (W.seen world.old) (W.seen world.new)
            (λ done. (done, self.new)) result }
        ensures err { OnErr result (self.new ≡ self.old) }
        ensures unasked { OnErr result (W.seen world.new ≡ W.seen world.old) }
    {
        match self.end() {
            None => {
                self.close();
                Ok(())
            }
            Some(Ok(())) => asks::shutdown(world, op, self.side(), ShutdownType::Send),
            Some(Err(_)) => Ok(()),
        }
    }

    /// Has the half shut down once all is written.
    fn close(&mut self)
        ensures { self.new ≡ closing_job self.old }
    {
        self.closing = true;
    }

    /// Offers the rest again and again, until the answer is pending, a code came, or nothing is
    /// left. After a code the half is shut down. One that ended stays as it is. After running out
    /// of memory it is as after its last answered ask, and may be polled again.
    pub fn poll<W: World>(&mut self, world: &mut W) -> Result<(), AllocError>
        requires { (W.seen world.old).ended ≡ false }
        ensures asked { AsksFor (job_asks self.old) (W.seen world.old) (W.seen world.new)
            (λ done. self.new) result }
        ensures err { OnErr result (Reaches (job_asks self.old) (job_asks self.new)
            (W.seen world.old) (W.seen world.new)) }
        ensures who { self.new.write.who ≡ self.old.write.who }
        ensures write { IsWrite self.old }
    {
        match self.end() {
            Some(_) => Ok(()),
            None => {
                let _ = answered(self.poll_stage(world))?;
                Ok(())
            }
        }
    }

    /// Asks what comes next.
    fn poll_stage<W: World>(&mut self, world: &mut W) -> Result<Answer<()>, Refusal>
        requires open { (W.seen world.old).ended ≡ false }
        requires unfinished { self.old.end ≡ Waits }
        ensures polled { PollsFor (λ done. Nothing) Nothing self.old.write self.new.write
            (W.seen world.old) (W.seen world.new) result }
        ensures end { self.new.end ≡ end_after result }
    {
        let (op, side, closing) = (self.op, self.side, self.closing);
        match self.stage {
            WriteStage::Write => {
                let bytes = self.bytes.as_slice();
                poll_rest(
                    world,
                    op,
                    side,
                    bytes,
                    closing,
                    &mut self.place,
                    &mut self.stage,
                )
            }
            WriteStage::Close => poll_close(world, op, side, &mut self.stage),
            WriteStage::Refused(code) => poll_shutdown(world, op, side, &mut self.stage, code),
            WriteStage::Written => Ok(Answer::Ready(())),
            WriteStage::Failed(code) => Err(Refusal::Code(code)),
        }
    }
}

/// Offers the bytes from a place on, and moves the place behind what is taken, until the answer is
/// pending, a code came, or nothing is left.
fn write_rest<W: World>(
    world: &mut W,
    op: OpId,
    side: Sock,
    bytes: &[u8],
    place: &mut usize,
) -> Result<Polled<()>, AllocError>
    requires open { (W.seen world.old).ended ≡ false }
    requires within { place.old ≤ length bytes.now }
    requires short { length bytes.now < 2 ^ 32 }
    ensures asked { AsksFor (write_front (writer op side) (drop place.old bytes.now) 0)
        (W.seen world.old) (W.seen world.new) (λ told. rest_front (drop place.new bytes.now) told)
        result }
    ensures err { OnErr result (Reaches (write_front (writer op side) (drop place.old bytes.now) 0)
        (write_front (writer op side) (drop place.new bytes.now) 0) (W.seen world.old)
        (W.seen world.new)) }
    ensures within { place.new ≤ length bytes.now }
{
    while *place < bytes.len() {
        match asks::write(world, op, side, &bytes[*place..])? {
            Polled::Ready(count) => *place += count,
            Polled::Pending => return Ok(Polled::Pending),
            Polled::Code(code) => return Ok(Polled::Code(code)),
        }
    }
    Ok(Polled::Ready(()))
}

fn poll_rest<W: World>(
    world: &mut W,
    op: OpId,
    side: Sock,
    bytes: &[u8],
    closing: bool,
    place: &mut usize,
    stage: &mut WriteStage,
) -> Result<Answer<()>, Refusal>
    requires open { (W.seen world.old).ended ≡ false }
    requires stage { stage.old ≡ WriteStage.Write }
    requires within { place.old ≤ length bytes.now }
    requires short { length bytes.now < 2 ^ 32 }
    ensures polled { PollsFor (λ done. Nothing) Nothing (write_operation op side
        (drop place.old bytes.now) closing stage.old) (write_operation op side
        (drop place.new bytes.now) closing stage.new) (W.seen world.old) (W.seen world.new) result }
    ensures end { write_end stage.new ≡ end_after result }
    ensures within { place.new ≤ length bytes.now }
{
    let told = write_rest(world, op, side, bytes, place)?;
    match told {
        Polled::Pending => return Ok(Answer::Pending),
        Polled::Code(code) => {
            *stage = WriteStage::Refused(code);
            return poll_shutdown(world, op, side, stage, code);
        }
        Polled::Ready(()) => {}
    }
    if closing {
        *stage = WriteStage::Close;
        return poll_close(world, op, side, stage);
    }
    *stage = WriteStage::Written;
    Ok(Answer::Ready(()))
}

fn poll_close<W: World>(
    world: &mut W,
    op: OpId,
    side: Sock,
    stage: &mut WriteStage,
) -> Result<Answer<()>, Refusal>
    requires open { (W.seen world.old).ended ≡ false }
    requires stage { stage.old ≡ WriteStage.Close }
    ensures polled { (rest : List ℕ) (closing : Bool)
        → PollsFor (λ done. Nothing) Nothing (write_operation op side rest closing stage.old)
        (write_operation op side rest closing stage.new) (W.seen world.old) (W.seen world.new)
        result }
    ensures end { write_end stage.new ≡ end_after result }
{
    asks::shutdown(world, op, side, ShutdownType::Send)?;
    *stage = WriteStage::Written;
    Ok(Answer::Ready(()))
}

fn poll_shutdown<W: World>(
    world: &mut W,
    op: OpId,
    side: Sock,
    stage: &mut WriteStage,
    code: ErrorCode,
) -> Result<Answer<()>, Refusal>
    requires open { (W.seen world.old).ended ≡ false }
    requires stage { stage.old ≡ WriteStage.Refused code }
    ensures polled { (rest : List ℕ) (closing : Bool)
        → PollsFor (λ done. Nothing) Nothing (write_operation op side rest closing stage.old)
        (write_operation op side rest closing stage.new) (W.seen world.old) (W.seen world.new)
        result }
    ensures end { write_end stage.new ≡ end_after result }
{
    asks::shutdown(world, op, side, ShutdownType::Send)?;
    *stage = WriteStage::Failed(code);
    Err(Refusal::Code(code))
}
