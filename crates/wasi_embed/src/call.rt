//! A guest's call by its number, with its arguments as the guest passes them.

ghost use Rattle.std.specs.Prelude.{◌≡◌, IfOk};
ghost use Rattle.wasi_steps.specs.declared.step.Step.TheVariants.{Turn, Cancel};
ghost use Rattle.wasi_embed.specs.declared.status.Status.TheVariants.{Ok};
ghost use Rattle.wasi_embed.specs.Told.{status_told};
ghost use Rattle.wasi_embed.specs.HostDid.{session_of, Answers, DidCall, DidOne, IsStepOf};

use crate::answer::{Answer, Request, status_told};
use crate::host::Host;
use crate::status::Status;
use embed_flat::memory::lies_within;
use embed_flat::results::{DATAGRAM_SIZE, value_of};
use embed_flat::{Args, Lists, Refusal, Shape, guest_call, result_place, shape_of, written};
use std::alloc::Global;
use wasi_session::{Reply, Step};

/// How many bytes a datagram has at most.
const MOST_BYTES: u32 = 65_536;

/// What a call gives, and where.
#[derive(Clone, Copy)]
struct Plan {
    shape: Shape,
    at: u32,
    lists: Lists,
}

/// How much room the list of what a call gives needs at least.
fn room_needed(shape: Shape, args: &Args<'_>) -> Result<u64, Refusal> {
    match shape {
        Shape::Datagrams => Ok(u64::from(DATAGRAM_SIZE + MOST_BYTES)),
        Shape::Places => Ok(u64::from(args.word(1)?) * 4),
        _ => Ok(0),
    }
}

/// Where the result of a call goes, which is tested before the call is made.
fn plan_of(request: Request, args: &Args<'_>) -> Result<Plan, Refusal> {
    let shape = shape_of(request.op);
    let lists = Lists {
        place: request.place,
        room: request.room,
    };
    if shape.size() == 0 {
        let at = 0;
        return Ok(Plan { shape, at, lists });
    }
    let at = args.word(result_place(request.op))?;
    if !lies_within(args.memory, at, shape.size()) {
        return Err(Refusal::Bounds);
    }
    if !lies_within(args.memory, lists.place, lists.room as usize) {
        return Err(Refusal::Bounds);
    }
    if u64::from(lists.room) < room_needed(shape, args)? {
        return Err(Refusal::Room);
    }
    Ok(Plan { shape, at, lists })
}

/// The step of a request: a new call, or a poll of one that is pending.
fn step_of(request: Request, args: &Args<'_>) -> Result<Step, Refusal>
    ensures { IfOk result (λ step. IsStepOf request step) }
{
    if request.pending != 0 {
        return Ok(Step::Poll {
            line: request.pending,
        });
    }
    let call = guest_call(request.op, args, request.room)?;
    Ok(Step::Call {
        context: request.context,
        call,
    })
}

/// The plan and the step of a request.
fn prepare(
    alloc: Global,
    request: Request,
    numbers: &[u64],
    memory: &[u8],
) -> Result<(Plan, Step), Refusal>
    ensures { IfOk result (λ it. IsStepOf request it.1) }
{
    let args = Args {
        alloc,
        numbers,
        memory,
    };
    let plan = plan_of(request, &args)?;
    let step = step_of(request, &args)?;
    Ok((plan, step))
}

/// Writes what a call gave, and returns the answer.
fn give(plan: Plan, told: &Result<Reply, Status>, memory: &mut [u8]) -> Answer
    ensures { Answers result told.now }
{
    let Ok(reply) = told else {
        return Answer::of_told(told, Status::Ok, 0);
    };
    let value = value_of(plan.shape, reply);
    if !written(plan.shape, reply, memory, plan.at, plan.lists) {
        return Answer::of_status(Status::Misfit);
    }
    Answer::of_told(told, Status::Ok, value)
}

impl Host {
    /// Makes a guest's call, or polls one that is pending, and writes what it gives into the guest's
    /// memory. Where the status says that nothing was done, the memory is as it was.
    pub fn call(&mut self, request: Request, numbers: &[u64], memory: &mut [u8]) -> Answer
        ensures { ∥ DidCall self.old self.new request result ∥₁ }
    {
        let (plan, step) = match prepare(self.alloc, request, numbers, memory) {
            Ok(prepared) => prepared,
            Err(refusal) => return Answer::of_status(Status::from(refusal)),
        };
        let told = self.step(step);
        give(plan, &told, memory)
    }

    /// Lets the host's background work go on.
    pub fn turn(&mut self) -> Status
        ensures { ∥ DidOne (session_of self.old) (session_of self.new) (λ step. step ≡ Turn)
            (λ told. result ≡ status_told Ok told) ∥₁ }
    {
        let told = self.step(Step::Turn);
        status_told(&told, Status::Ok)
    }

    /// Gives up a pending call.
    pub fn cancel(&mut self, line: u32) -> Answer
        ensures { ∥ DidOne (session_of self.old) (session_of self.new) (λ step. step ≡ Cancel line)
            (Answers result) ∥₁ }
    {
        let told = self.step(Step::Cancel { line });
        Answer::of_told(&told, Status::Ok, 0)
    }
}
