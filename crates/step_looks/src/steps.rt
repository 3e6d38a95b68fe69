//! What a step will look at.

ghost use Rattle.std.specs.Prelude.{◌≡◌, IfOk, option_map};
ghost use Rattle.step_looks.specs.Outlooks.{looks_at, looks_in};
ghost use Rattle.step_looks.specs.Steps.{pollables_looks, blocking_looks, standing_looks};
ghost use Rattle.step_looks.specs.Steps.{beside_outlook, poll_looks, call_looks, step_looks};
ghost use Rattle.step_looks.specs.Steps.{first_outlook, spliced_to, datagram_at};
ghost use Rattle.step_looks.specs.Steps.{waits_inside, pollables_in, pollable_looks};
ghost use Rattle.wasi_records.specs.Records.{open_at};

use crate::calls::{
    input_outlook, output_outlook, p3_tcp_outlook, pollable_outlook, stream_outlook, tcp_outlook,
    udp_outlook,
};
use crate::jobs::turn_looks;
use crate::outlook::Outlook;
use crate::records::{connect_at, outgoing_at, output_at};
use host_store::{BesideCall, BlockingCall, Machine, StandingCall};
use std::alloc::{AllocError, Global};
use udp_records::OpenUdp;
use wasi_looks::Look;
use wasi_records::{RecordId, RecordList, find};
use wasi_steps::{GuestCall, P3TcpCall, P3UdpCall, PollableCall, Step, StreamCall, TcpCall};
use wasi_world::Handle;

/// What is waited for where a line looks at one thing. Takes memory for the look.
fn looks_at(alloc: Global, outlook: Outlook) -> Result<Vec<Look>, AllocError>
    ensures { IfOk result (λ looks. looks.items ≡ looks_at outlook) }
{
    let mut looks = Vec::new(alloc);
    if let Outlook::On(look) = outlook {
        looks.push(look)?;
    }
    Ok(looks)
}

/// The looks at these pollables; `None` where one is ready.
fn pollables_in(
    alloc: Global,
    machine: &Machine,
    first: bool,
    pollables: &[Handle],
) -> Result<Option<Vec<Look>>, AllocError>
    ensures { IfOk result (λ looks. option_map (λ all. all.items) looks
        ≡ looks_in (pollables_in machine.now first pollables.now)) }
{
    let mut looks = Vec::new(alloc);
    for pollable in pollables {
        let outlook = pollable_outlook(machine, first, *pollable);
        let goes_on = outlook.add_to(&mut looks)?;
        if !goes_on {
            return Ok(None);
        }
    }
    Ok(Some(looks))
}

/// What is waited for where a line looks at these pollables: nothing where one is ready. Takes
/// memory for the looks.
fn pollables_looks(
    alloc: Global,
    machine: &Machine,
    first: bool,
    pollables: &[Handle],
) -> Result<Vec<Look>, AllocError>
    ensures { IfOk result (λ looks. looks.items
        ≡ pollables_looks machine.now first pollables.now) }
{
    match pollables_in(alloc, machine, first, pollables)? {
        Some(looks) => Ok(looks),
        None => Ok(Vec::new(alloc)),
    }
}

/// What a call that blocks waits for where it is polled.
fn blocking_looks(
    alloc: Global,
    machine: &Machine,
    call: &BlockingCall,
) -> Result<Vec<Look>, AllocError>
    ensures { IfOk result (λ looks. looks.items ≡ blocking_looks machine.now call.now) }
{
    match call {
        BlockingCall::Read { input, .. }
        | BlockingCall::Skip { input, .. }
        | BlockingCall::Splice { input, .. } => looks_at(alloc, input_outlook(machine, *input)),
        BlockingCall::Write { output, .. }
        | BlockingCall::Finish { output }
        | BlockingCall::Flush { output } => looks_at(alloc, output_outlook(machine, *output)),
        BlockingCall::Block { pollable } => {
            looks_at(alloc, pollable_outlook(machine, false, *pollable))
        }
        BlockingCall::Poll { pollables } => {
            pollables_looks(alloc, machine, false, pollables.as_slice())
        }
    }
}

/// What an exclusive pending call waits for where it is polled. A check isn't waited for.
fn standing_looks(
    alloc: Global,
    machine: &Machine,
    call: &StandingCall,
) -> Result<Vec<Look>, AllocError>
    ensures { IfOk result (λ looks. looks.items ≡ standing_looks machine.now call.now) }
{
    match call {
        StandingCall::Blocking(call) => blocking_looks(alloc, machine, call),
        StandingCall::DropOutput { socket } => {
            looks_at(alloc, output_at(&machine.store.records, *socket))
        }
        StandingCall::DropOutgoing { socket } => {
            looks_at(alloc, outgoing_at(&machine.store.records, *socket))
        }
        StandingCall::Bind { .. }
        | StandingCall::Listen { .. }
        | StandingCall::UdpCreate { .. }
        | StandingCall::UdpBind { .. }
        | StandingCall::UdpConnect { .. }
        | StandingCall::UdpConnect3 { .. } => Ok(Vec::new(alloc)),
    }
}

/// What a datagram of 0.3 in progress on the UDP socket with this record number depends on.
fn datagram_at(records: &RecordList, place: RecordId, comes: bool) -> Outlook
    ensures { result ≡ datagram_at (open_at records.now.items place) comes }
{
    match find::<OpenUdp>(records, place) {
        Some(socket) => {
            let side = Some(socket.inner.side());
            if comes {
                Outlook::to_read(side)
            } else {
                Outlook::to_write(side)
            }
        }
        None => Outlook::Ready,
    }
}

/// What a pending call that stands beside others depends on.
fn beside_outlook(records: &RecordList, call: &BesideCall) -> Outlook
    ensures { result ≡ beside_outlook records.now.items call.now }
{
    match call {
        BesideCall::Connect { socket } => connect_at(records, *socket),
        BesideCall::Send { socket, .. } => datagram_at(records, *socket, false),
        BesideCall::Receive { socket, .. } => datagram_at(records, *socket, true),
        BesideCall::Resolve { .. } => Outlook::Ready,
    }
}

/// What a poll of the pending call of this line waits for. One beside others answers `busy` while an
/// exclusive call is pending.
fn poll_looks(alloc: Global, machine: &Machine, line: u32) -> Result<Vec<Look>, AllocError>
    ensures { IfOk result (λ looks. looks.items ≡ poll_looks machine.now line) }
{
    match &machine.store.standing {
        Some(standing) => {
            if standing.ids.line == line {
                standing_looks(alloc, machine, &standing.call)
            } else {
                Ok(Vec::new(alloc))
            }
        }
        None => match machine.store.find_beside(line) {
            Some(beside) => looks_at(alloc, beside_outlook(&machine.store.records, &beside.call)),
            None => Ok(Vec::new(alloc)),
        },
    }
}

/// What a call of a pollable, or a drop, waits for. The drop of an output waits until that can be
/// written.
fn pollable_looks(
    alloc: Global,
    machine: &Machine,
    call: &PollableCall,
) -> Result<Vec<Look>, AllocError>
    ensures { IfOk result (λ looks. looks.items ≡ pollable_looks machine.now call.now) }
{
    match call {
        PollableCall::Ready { pollable } | PollableCall::Block { pollable } => {
            looks_at(alloc, pollable_outlook(machine, true, *pollable))
        }
        PollableCall::PollList { pollables } => {
            pollables_looks(alloc, machine, true, pollables.as_slice())
        }
        PollableCall::Drop { handle } => looks_at(alloc, output_outlook(machine, *handle)),
        PollableCall::Subscribe { .. } => Ok(Vec::new(alloc)),
    }
}

/// What a guest's call waits for.
fn call_looks(alloc: Global, machine: &Machine, call: &GuestCall) -> Result<Vec<Look>, AllocError>
    ensures { IfOk result (λ looks. looks.items ≡ call_looks machine.now call.now) }
{
    match call {
        GuestCall::Tcp(call) => looks_at(alloc, tcp_outlook(machine, call)),
        GuestCall::Udp(call) => looks_at(alloc, udp_outlook(machine, call)),
        GuestCall::Stream(call) => looks_at(alloc, stream_outlook(machine, call)),
        GuestCall::Pollable(call) => pollable_looks(alloc, machine, call),
        GuestCall::P3Tcp(call) => looks_at(alloc, p3_tcp_outlook(machine, call)),
        GuestCall::Names(_) | GuestCall::Pipe(_) | GuestCall::P3Udp(_) | GuestCall::P3Names(_) =>
            Ok(Vec::new(alloc)),
    }
}

/// What a step waits for: the looks that it will make at the network, and where something goes on in
/// the background that it looks at, the network socket that this waits for. Nothing where the step
/// is answered whatever the network says: something that it looks at is ready. While an exclusive
/// call is pending a guest's call answers `busy`. Takes memory for the looks, and leaves the state
/// as it is.
pub fn step_looks(
    alloc: Global,
    machine: &mut Machine,
    step: &Step,
) -> Result<Vec<Look>, AllocError>
    ensures looks { IfOk result (λ looks. looks.items ≡ step_looks machine.old step.now) }
    ensures same { machine.new ≡ machine.old }
{
    match step {
        Step::Turn => turn_looks(alloc, &mut machine.store),
        Step::Poll { line } => poll_looks(alloc, machine, *line),
        Step::Cancel { .. } => Ok(Vec::new(alloc)),
        Step::Call { call, .. } => {
            if machine.store.exclusive().is_some() {
                return Ok(Vec::new(alloc));
            }
            call_looks(alloc, machine, call)
        }
    }
}

/// The output of a splice that blocks, which this step makes or polls.
fn spliced_to(machine: &Machine, step: &Step) -> Option<Handle>
    ensures { result ≡ spliced_to machine.now step.now }
{
    match (step, &machine.store.standing) {
        (Step::Call { call, .. }, None) => match call {
            GuestCall::Stream(StreamCall::BlockingSplice { output, .. }) => Some(*output),
            _ => None,
        },
        (Step::Poll { line }, Some(standing)) if standing.ids.line == *line => {
            match &standing.call {
                StandingCall::Blocking(BlockingCall::Splice { output, .. }) => Some(*output),
                _ => None,
            }
        }
        _ => None,
    }
}

/// What a splice that blocks depends on before it looks at its input: its output. Any other step
/// depends on nothing before its looks.
pub fn first_outlook(machine: &Machine, step: &Step) -> Outlook
    ensures { result ≡ first_outlook machine.now step.now }
{
    match spliced_to(machine, step) {
        Some(output) => output_outlook(machine, output),
        None => Outlook::Ready,
    }
}

/// Whether the looks of this step wait by themselves, since what it looks at begins in it: a
/// connect, of which it can't be known before whether it has begun, and a receive of 0.3. Such a
/// step looks at one network socket.
pub fn waits_inside(step: &Step) -> bool
    ensures { result ≡ waits_inside step.now }
{
    match step {
        Step::Call { call, .. } => matches!(
            call,
            GuestCall::Tcp(TcpCall::FinishConnect { .. })
                | GuestCall::P3Tcp(P3TcpCall::Connect { .. })
                | GuestCall::P3Udp(P3UdpCall::Receive { .. })
        ),
        Step::Turn | Step::Poll { .. } | Step::Cancel { .. } => false,
    }
}
