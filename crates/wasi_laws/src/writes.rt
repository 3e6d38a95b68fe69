//! What a write is let write, and what a permit means, by their replies and the marks of outputs: laws
//! over the definitions of specs/. Each is a function that does nothing, whose contract is the law.

ghost use Rattle.std.specs.Prelude.{◌≡◌, ℕ, ◌+◌, ◌<◌, List, [], ◌++◌, length};
ghost use Rattle.wasi_world.specs.declared.call.Entry.{Entry};
ghost use Rattle.wasi_world.specs.declared.ids.OpId.{OpId};
ghost use Rattle.wasi_world.specs.declared.outcome.WasiSocketsCtx.{WasiSocketsCtx};
ghost use Rattle.wasi_world.specs.Asks.{Give, Left};
ghost use Rattle.wasi_tcp.specs.Taken.{IsFrontOf, taken_in};
ghost use Rattle.host_store.specs.declared.machine.Machine.{Machine};
ghost use Rattle.host_store.specs.Machine.{first_state};
ghost use Rattle.wasi_machine.specs.Machine.{run};
ghost use Rattle.wasi_steps.specs.declared.guest_call.GuestCall.{GuestCall};
ghost use Rattle.wasi_steps.specs.declared.guest_call.StreamCall.{StreamCall};
ghost use Rattle.wasi_steps.specs.declared.reply.Field.{Field};
ghost use Rattle.wasi_steps.specs.declared.reply.Reply.{Reply};
ghost use Rattle.wasi_steps.specs.declared.step.Step.{Step};
ghost use Rattle.wasi_walks.specs.Answered.{Answered};
ghost use Rattle.wasi_walks.specs.Licence.{IsSide};
ghost use Rattle.wasi_steps.specs.Reply.{number_fields};
ghost use Rattle.wasi_laws.specs.Permitted.{Did, permitted_by};

/// Which of the bytes that a `write` offers it is let write to a network socket.
///
/// - `done`: in a run one that is done, on an output that was marked with the network socket, all
///   of them.
/// - `others`: where the output wasn't marked with the network socket, none.
/// - `front`: whatever the reply is, a prefix of them.
pub fn writes_that_are_done_are_let_whole()
    ensures done { (contexts : List WasiSocketsCtx) (steps : List Step) (log : List Entry)
        (replies : List Reply) (m : Machine) (line ctx output : ℕ) (bytes : List ℕ) (side : OpId)
        (entries : List Entry) (fields : List Field) (after : Machine)
        → Left (run contexts [] first_state 1 steps) log (Give (replies, m))
        → IsSide log output side
        → Answered contexts m line (Step.Call ctx (GuestCall.Stream (StreamCall.Write output bytes))) entries
        (Reply.Ok fields) after
        → permitted_by m side line (Step.Call ctx (GuestCall.Stream (StreamCall.Write output bytes))) entries ≡ bytes }
    ensures others { (contexts : List WasiSocketsCtx) (steps : List Step) (log : List Entry)
        (replies : List Reply) (m : Machine) (line ctx output : ℕ) (bytes : List ℕ) (side : OpId)
        (entries : List Entry)
        → Left (run contexts [] first_state 1 steps) log (Give (replies, m))
        → (IsSide log output side → ⊥)
        → permitted_by m side line (Step.Call ctx (GuestCall.Stream (StreamCall.Write output bytes))) entries ≡ [] }
    ensures front { (m : Machine) (line ctx output : ℕ) (bytes : List ℕ) (side : OpId)
        (entries : List Entry)
        → IsFrontOf (permitted_by m side line (Step.Call ctx (GuestCall.Stream (StreamCall.Write output bytes)))
        entries) bytes }
{}

/// In a run, where a `check-write` on an output that was marked with the network socket gives more
/// than 0, the network socket has taken all that the steps before were let write to it.
pub fn permits_of_marked_outputs_mean_all_is_taken()
    ensures { (contexts : List WasiSocketsCtx) (side : OpId) (steps : List Step) (log : List Entry)
        (permitted : List ℕ) (replies : List Reply) (m : Machine) (ctx output n : ℕ)
        (entries : List Entry) (after : Machine)
        → Did contexts side first_state 1 steps log permitted m
        → Left (run contexts [] first_state 1 steps) log (Give (replies, m))
        → IsSide log output side
        → Answered contexts m (1 + length steps) (Step.Call ctx (GuestCall.Stream (StreamCall.CheckWrite output)))
        entries (Reply.Ok (number_fields n)) after
        → 0 < n → taken_in side (log ++ entries) ≡ permitted }
{}
