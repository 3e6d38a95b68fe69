//! Which bytes reads hand out in runs, and that other steps are told none: laws over the
//! definitions of specs/. Each is a function that does nothing, whose contract is the law.

ghost use Rattle.std.specs.Prelude.{◌≡◌, ℕ, List, [], ◌∷◌, Some};
ghost use Rattle.wasi_world.specs.declared.call.Entry.{Entry};
ghost use Rattle.wasi_world.specs.declared.ids.OpId.{OpId};
ghost use Rattle.wasi_world.specs.declared.outcome.WasiSocketsCtx.{WasiSocketsCtx};
ghost use Rattle.wasi_world.specs.Asks.{Give, Left};
ghost use Rattle.host_store.specs.declared.machine.Machine.{Machine};
ghost use Rattle.host_store.specs.Machine.{first_state, own_of};
ghost use Rattle.wasi_machine.specs.Machine.{run};
ghost use Rattle.wasi_steps.specs.declared.reply.Reply.{Reply};
ghost use Rattle.wasi_steps.specs.declared.guest_call.GuestCall.{GuestCall};
ghost use Rattle.wasi_steps.specs.declared.guest_call.StreamCall.{StreamCall};
ghost use Rattle.wasi_steps.specs.declared.step.Step.{Step};
ghost use Rattle.wasi_steps.specs.Reply.{bytes_fields};
ghost use Rattle.wasi_walks.specs.Answered.{Answered};
ghost use Rattle.wasi_walks.specs.Licence.{IsSide, step_at};
ghost use Rattle.wasi_causes.specs.Blocking.{BlockingCallStands};
ghost use Rattle.wasi_causes.specs.HandedBytes.{HandsOutBytes};
ghost use Rattle.wasi_causes.specs.ToldBytes.{handed_out, ReadsNothing, told_in};

/// In a run the bytes that a read of a connection hands out are those that the last call of its
/// line was answered with: a read by the operation of the read's own line, of the network socket
/// that its handle was marked with. An input that was marked with no network socket is no
/// connection's.
///
/// - `read`: a `read`, in its line.
/// - `blocking_read`: a `blocking-read`, in its line.
/// - `polled`: a `blocking-read` that was pending, in the poll that answers it.
pub fn reads_hand_out_what_they_were_told()
    ensures read { (contexts : List WasiSocketsCtx) (steps : List Step) (log : List Entry)
        (replies : List Reply) (m : Machine) (line ctx input len b : ℕ) (bytes : List ℕ)
        (entries : List Entry) (after : Machine)
        → Left (run contexts [] first_state 1 steps) log (Give (replies, m))
        → Answered contexts m line (Step.Call ctx (GuestCall.Stream (StreamCall.Read input len))) entries
        (Reply.Ok (bytes_fields (b ∷ bytes))) after
        → HandsOutBytes log (own_of line) input (b ∷ bytes) entries }
    ensures blocking_read { (contexts : List WasiSocketsCtx) (steps : List Step) (log : List Entry)
        (replies : List Reply) (m : Machine) (line ctx input len b : ℕ) (bytes : List ℕ)
        (entries : List Entry) (after : Machine)
        → Left (run contexts [] first_state 1 steps) log (Give (replies, m))
        → Answered contexts m line (Step.Call ctx (GuestCall.Stream (StreamCall.BlockingRead input len))) entries
        (Reply.Ok (bytes_fields (b ∷ bytes))) after
        → HandsOutBytes log (own_of line) input (b ∷ bytes) entries }
    ensures polled { (contexts : List WasiSocketsCtx) (steps : List Step) (log : List Entry)
        (replies : List Reply) (m : Machine) (line n ctx input len b : ℕ) (bytes : List ℕ)
        (entries : List Entry) (after : Machine)
        → Left (run contexts [] first_state 1 steps) log (Give (replies, m))
        → step_at steps n ≡ Some (Step.Call ctx (GuestCall.Stream (StreamCall.BlockingRead input len)))
        → Answered contexts m line (Step.Poll n) entries (Reply.Ok (bytes_fields (b ∷ bytes)))
        after
        → HandsOutBytes log (own_of n) input (b ∷ bytes) entries }
{}

/// In a run a `read` hands out all that its line was told of the network socket that its input was
/// marked with, and its line was told nothing of another.
///
/// - `its`: all that a line was told of the input's network socket is what its reply hands out,
///   whatever the reply is.
/// - `others`: of a network socket that the input wasn't marked with it was told no bytes.
pub fn reads_hand_out_all_they_were_told()
    ensures its { (contexts : List WasiSocketsCtx) (steps : List Step) (log : List Entry)
        (replies : List Reply) (m : Machine) (line ctx input len : ℕ) (side : OpId)
        (entries : List Entry) (reply : Reply) (after : Machine)
        → Left (run contexts [] first_state 1 steps) log (Give (replies, m))
        → Answered contexts m line (Step.Call ctx (GuestCall.Stream (StreamCall.Read input len))) entries reply after
        → IsSide log input side → told_in side entries ≡ handed_out reply }
    ensures others { (contexts : List WasiSocketsCtx) (steps : List Step) (log : List Entry)
        (replies : List Reply) (m : Machine) (line ctx input len : ℕ) (side : OpId)
        (entries : List Entry) (reply : Reply) (after : Machine)
        → Left (run contexts [] first_state 1 steps) log (Give (replies, m))
        → Answered contexts m line (Step.Call ctx (GuestCall.Stream (StreamCall.Read input len))) entries reply after
        → (IsSide log input side → ⊥) → told_in side entries ≡ [] }
{}

/// No network socket tells bytes to a step that reads nothing: the calls by which a TCP socket is
/// made, bound, connected, listened with, accepted from and shut down, a `check-write`, a `write`,
/// a drop of any handle, and a turn.
///
/// - `step`: in the line of such a step.
/// - `polled`: nor to a poll, while no call that blocks is pending.
pub fn what_reads_nothing_is_told_nothing()
    ensures step { (contexts : List WasiSocketsCtx) (m : Machine) (line : ℕ) (s : Step)
        (side : OpId) (entries : List Entry) (reply : Reply) (after : Machine)
        → ReadsNothing s → Answered contexts m line s entries reply after
        → told_in side entries ≡ [] }
    ensures polled { (contexts : List WasiSocketsCtx) (m : Machine) (line n : ℕ) (side : OpId)
        (entries : List Entry) (reply : Reply) (after : Machine)
        → (BlockingCallStands m → ⊥)
        → Answered contexts m line (Step.Poll n) entries reply after → told_in side entries ≡ [] }
{}
