//! Marks of handles in the logs of runs: laws over the definitions of specs/. Each is a function
//! that does nothing, whose contract is the law.

ghost use Rattle.std.specs.Prelude.{◌≡◌, ℕ, ◌<◌, List, [], Some};
ghost use Rattle.wasi_world.specs.declared.call.Entry.{Entry};
ghost use Rattle.wasi_world.specs.declared.outcome.WasiSocketsCtx.{WasiSocketsCtx};
ghost use Rattle.wasi_world.specs.declared.ids.Ids.{Ids};
ghost use Rattle.wasi_world.specs.Asks.{Asks, Give, Left};
ghost use Rattle.host_store.specs.declared.store.BlockingCall.{BlockingCall};
ghost use Rattle.host_store.specs.declared.machine.Machine.{Machine};
ghost use Rattle.host_store.specs.declared.store.StandingCall.{StandingCall};
ghost use Rattle.host_store.specs.Machine.{first_state, own_of};
ghost use Rattle.host_store.specs.Standing.{standing_as};
ghost use Rattle.wasi_machine.specs.Machine.{run};
ghost use Rattle.wasi_steps.specs.declared.guest_call.GuestCall.{GuestCall};
ghost use Rattle.wasi_steps.specs.declared.guest_call.TcpCall.{TcpCall};
ghost use Rattle.wasi_steps.specs.declared.guest_call.StreamCall.{StreamCall};
ghost use Rattle.wasi_steps.specs.declared.reply.CodeWord.{CodeWord};
ghost use Rattle.wasi_steps.specs.declared.reply.Field.{Field};
ghost use Rattle.wasi_steps.specs.declared.reply.Reply.{Reply};
ghost use Rattle.wasi_steps.specs.declared.step.Step.{Step};
ghost use Rattle.wasi_walks.specs.Answered.{Answered};
ghost use Rattle.wasi_addr.specs.declared.address.SocketAddressFamily.{SocketAddressFamily};
ghost use Rattle.wasi_causes.specs.Marks.{FailsAtLast, FailsOnItsSide, MarksThree, TwoMarks};
ghost use Rattle.wasi_causes.specs.Marks.{GivesOne, GivesThree, GivesTwo};

/// In a run no two marks have one handle, so the three of an accept are three.
///
/// - `rise`: at every point of a run, of two marks the later one has the greater handle.
/// - `accepted`: an accept that is done marks the three handles that follow all that were marked,
///   and its reply gives these.
pub fn marks_have_handles_of_their_own()
    ensures rise { (contexts : List WasiSocketsCtx) (steps : List Step) (log : List Entry)
        (rest : Asks (List Reply × Machine)) (first second : ℕ)
        → Left (run contexts [] first_state 1 steps) log rest → TwoMarks log first second
        → first < second }
    ensures accepted { (contexts : List WasiSocketsCtx) (steps : List Step) (log : List Entry)
        (replies : List Reply) (m : Machine) (line ctx listener : ℕ) (fields : List Field)
        (entries : List Entry) (after : Machine)
        → Left (run contexts [] first_state 1 steps) log (Give (replies, m))
        → Answered contexts m line (Step.Call ctx (GuestCall.Tcp (TcpCall.Accept listener))) entries
        (Reply.Ok fields) after
        → MarksThree log (own_of line) listener fields entries }
{}

/// In a run a read that fails asked for bytes of the network socket that the stream's handle was
/// marked with, and got the code that its word is of; the half that it shut is of that network
/// socket, and so is the error's mark.
///
/// - `read`: all that a `read` asks.
/// - `blocking_read`: the last that a `blocking-read` asks, in its line.
/// - `polled`: the last that a poll of a pending one asks, by the operation of the read's own line.
pub fn failed_reads_are_of_their_stream()
    ensures read { (contexts : List WasiSocketsCtx) (steps : List Step) (log : List Entry)
        (replies : List Reply) (m : Machine) (line ctx stream len : ℕ) (entries : List Entry)
        (word : CodeWord) (handle : ℕ) (after : Machine)
        → Left (run contexts [] first_state 1 steps) log (Give (replies, m))
        → Answered contexts m line (Step.Call ctx (GuestCall.Stream (StreamCall.Read stream len))) entries
        (Reply.Failed word handle) after
        → FailsOnItsSide log (own_of line) stream word entries }
    ensures blocking_read { (contexts : List WasiSocketsCtx) (steps : List Step) (log : List Entry)
        (replies : List Reply) (m : Machine) (line ctx stream len : ℕ) (entries : List Entry)
        (word : CodeWord) (handle : ℕ) (after : Machine)
        → Left (run contexts [] first_state 1 steps) log (Give (replies, m))
        → Answered contexts m line (Step.Call ctx (GuestCall.Stream (StreamCall.BlockingRead stream len))) entries
        (Reply.Failed word handle) after
        → FailsAtLast log (own_of line) stream word entries }
    ensures polled { (contexts : List WasiSocketsCtx) (steps : List Step) (log : List Entry)
        (replies : List Reply) (m : Machine) (line stream len : ℕ) (ids : Ids)
        (entries : List Entry) (word : CodeWord) (handle : ℕ) (after : Machine)
        → Left (run contexts [] first_state 1 steps) log (Give (replies, m))
        → m.store.standing ≡ Some (standing_as ids (StandingCall.Blocking
        (BlockingCall.Read stream len)))
        → Answered contexts m line (Step.Poll ids.line) entries (Reply.Failed word handle) after
        → FailsAtLast log (own_of ids.line) stream word entries }
{}

/// The handles that a call gives as it makes a socket or its streams were marked in its line, and
/// have 32 bits.
///
/// - `created`: the one of a create.
/// - `connected`: the two of a connect that is finished.
/// - `accepted`: the three of an accept.
pub fn handles_that_are_given_are_marked()
    ensures created { (contexts : List WasiSocketsCtx) (m : Machine) (line ctx : ℕ)
        (family : SocketAddressFamily) (fields : List Field) (entries : List Entry)
        (after : Machine)
        → Answered contexts m line (Step.Call ctx (GuestCall.Tcp (TcpCall.Create family))) entries
        (Reply.Ok fields) after → GivesOne (own_of line) entries fields }
    ensures connected { (contexts : List WasiSocketsCtx) (m : Machine) (line ctx socket : ℕ)
        (fields : List Field) (entries : List Entry) (after : Machine)
        → Answered contexts m line (Step.Call ctx (GuestCall.Tcp (TcpCall.FinishConnect socket))) entries
        (Reply.Ok fields) after → GivesTwo (own_of line) entries fields }
    ensures accepted { (contexts : List WasiSocketsCtx) (m : Machine) (line ctx listener : ℕ)
        (fields : List Field) (entries : List Entry) (after : Machine)
        → Answered contexts m line (Step.Call ctx (GuestCall.Tcp (TcpCall.Accept listener))) entries
        (Reply.Ok fields) after → GivesThree (own_of line) entries fields }
{}
