//! Laws of whole runs, over the definitions of specs/ and of the crates below. Each is a function
//! that does nothing, whose contract is the law.
#![tactic(auto)]

pub mod polls;
pub mod receives;
pub mod write_limits;
pub mod writes;

ghost use Rattle.std.specs.Prelude.{◌≡◌, ℕ, ◌+◌, ◌<◌, List, [], ◌∷◌, ◌++◌, Some, length};
ghost use Rattle.wasi_world.specs.declared.call.Call.TheVariants as Call;
ghost use Rattle.wasi_world.specs.declared.call.Entry.{Entry};
ghost use Rattle.wasi_world.specs.declared.call.Told.{Told};
ghost use Rattle.wasi_world.specs.declared.ids.OpId.{OpId};
ghost use Rattle.wasi_world.specs.declared.outcome.WasiSocketsCtx.{WasiSocketsCtx};
ghost use Rattle.wasi_world.specs.Asks.{Asks, Give, Left};
ghost use Rattle.wasi_world.specs.Operation.{Item, End, Operation};
ghost use Rattle.wasi_tcp.specs.Taken.{taken_in, IsFrontOf};
ghost use Rattle.host_store.specs.declared.machine.Machine.{Machine};
ghost use Rattle.wasi_steps.specs.declared.reply.Reply.{Reply};
ghost use Rattle.wasi_steps.specs.declared.step.Step.{Step};
ghost use Rattle.wasi_steps.specs.declared.reply.Reply.TheVariants as Reply;
ghost use Rattle.wasi_steps.specs.declared.guest_call.GuestCall.TheVariants as GuestCall;
ghost use Rattle.wasi_steps.specs.declared.guest_call.StreamCall.TheVariants as StreamCall;
ghost use Rattle.wasi_steps.specs.declared.step.Step.TheVariants as Step;
ghost use Rattle.wasi_walks.specs.Answered.{Answered};
ghost use Rattle.wasi_walks.specs.Licence.{Has, entry};
ghost use Rattle.host_store.specs.Machine.{first_state};
ghost use Rattle.wasi_machine.specs.Machine.{machine_asks, run};
ghost use Rattle.wasi_laws.specs.Opened.{socket_of, AsksOpenSockets};
ghost use Rattle.wasi_laws.specs.Order.{IsOutward, ChecksFirst, HasGone, NoCheckLeft};
ghost use Rattle.wasi_laws.specs.Order.{operation_polled, asked_by};
ghost use Rattle.wasi_laws.specs.Permitted.{permitted_by, Did, IsOfSteps};
ghost use Rattle.wasi_laws.specs.Writes.{WritesTo};
ghost use Rattle.wasi_steps.specs.Reply.{number_fields};

/// At every point of a run, its log is that of the steps that were done, and then a prefix of the
/// next step's.
pub fn runs_are_of_steps()
    ensures { (contexts : List WasiSocketsCtx) (side : OpId) (steps : List Step) (log : List Entry)
        (rest : Asks (List Reply × Machine))
        → Left (run contexts [] first_state 1 steps) log rest
        → IsOfSteps contexts side first_state 1 steps log }
{}

/// What a network socket took is a prefix of the permitted bytes: those that the steps so far were
/// allowed to write to it, given the answers so far. A write of 0.3 is one ask, and is allowed those
/// of its bytes that were taken.
///
/// - `done`: after each step.
/// - `begun`: in the middle of the next step.
pub fn taken_is_permitted()
    ensures done { (contexts : List WasiSocketsCtx) (side : OpId) (steps : List Step)
        (log : List Entry) (permitted : List ℕ) (after : Machine)
        → Did contexts side first_state 1 steps log permitted after
        → IsFrontOf (taken_in side log) permitted }
    ensures begun { (contexts : List WasiSocketsCtx) (side : OpId) (steps : List Step)
        (log : List Entry) (permitted : List ℕ) (after : Machine)
        (s : Step) (entries : List Entry) (rest : Asks (Reply × Machine))
        → Did contexts side first_state 1 steps log permitted after
        → Left (machine_asks contexts after (1 + length steps) s) entries rest
        → IsFrontOf (taken_in side (log ++ entries)) (permitted ++ permitted_by after side
        (1 + length steps) s entries) }
{}

/// Where a check-write on an output of a network socket answers a permit, the network socket has
/// taken all the permitted bytes.
pub fn permit_means_all_is_taken()
    ensures { (contexts : List WasiSocketsCtx) (side : OpId) (steps : List Step) (log : List Entry)
        (permitted : List ℕ) (after : Machine)
        (ctx output n : ℕ) (entries : List Entry) (next : Machine)
        → Did contexts side first_state 1 steps log permitted after
        → WritesTo after output side
        → Answered contexts after (1 + length steps) (Step.Call ctx (GuestCall.Stream (StreamCall.CheckWrite output)))
        entries (Reply.Ok (number_fields n)) next
        → 0 < n
        → taken_in side (log ++ entries) ≡ permitted }
{}

/// An operation asks its checks before its first call that goes out. Such operations are a bind, a
/// connect or a listen of a TCP socket, a bind or a connect of a UDP socket, and the send of a
/// datagram.
///
/// - `poll`: in one poll no check follows a call that goes out.
/// - `later`: a poll that has made a call that goes out leaves no check to a later one.
pub fn operations_check_first()
    ensures poll { (op : Operation) (entries : List Entry) (rest : Asks (End × List Item))
        → IsOutward op → Left (operation_polled op) entries rest → ChecksFirst entries }
    ensures later { (op : Operation) (entries : List Entry) (ended : End × List Item)
        → IsOutward op → Left (operation_polled op) entries (Give ended) → HasGone entries
        → NoCheckLeft ended.1 }
{}

/// At every point of a run, each operation has asked its checks before its first call that goes
/// out: a bind, a listen, a connect or the send of a datagram.
pub fn checks_come_first()
    ensures { (contexts : List WasiSocketsCtx) (steps : List Step) (log : List Entry)
        (rest : Asks (List Reply × Machine))
        → Left (run contexts [] first_state 1 steps) log rest → (op : OpId)
        → ChecksFirst (asked_by op log) }
{}

/// Network sockets are used only while they are open.
///
/// - `asked`: at every point of a run, each call on a network socket, its close too, comes after a
///   create or a hand-over made it, and before any close of it.
/// - `ends`: after the close of a network socket no call is made on it, and no second close.
pub fn sockets_are_asked_while_open()
    ensures asked { (contexts : List WasiSocketsCtx) (steps : List Step) (log : List Entry)
        (rest : Asks (List Reply × Machine))
        → Left (run contexts [] first_state 1 steps) log rest → AsksOpenSockets log }
    ensures ends { (contexts : List WasiSocketsCtx) (steps : List Step) (log : List Entry)
        (rest : Asks (List Reply × Machine))
        (before : List Entry) (op side : OpId) (told : Told) (after : List Entry) (e : Entry)
        → Left (run contexts [] first_state 1 steps) log rest
        → log ≡ before ++ (entry op (Call.Close side) told) ∷ after
        → Has after e → socket_of e.call ≡ Some side → ⊥ }
{}
