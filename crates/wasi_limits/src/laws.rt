//! What a limit on unwritten bytes changes: a law of whole runs, over the definitions of specs/. It
//! is a function that does nothing, whose contract is the law.

ghost use Rattle.std.specs.Prelude.{ℕ, List, []};
ghost use Rattle.wasi_world.specs.declared.call.Entry.{Entry};
ghost use Rattle.wasi_world.specs.declared.outcome.WasiSocketsCtx.{WasiSocketsCtx};
ghost use Rattle.wasi_world.specs.Asks.{Asks, Left};
ghost use Rattle.host_store.specs.declared.machine.Machine.{Machine};
ghost use Rattle.host_store.specs.Machine.{first_state};
ghost use Rattle.wasi_steps.specs.declared.reply.Reply.{Reply};
ghost use Rattle.wasi_steps.specs.declared.step.Step.{Step};
ghost use Rattle.wasi_machine.specs.Machine.{run};
ghost use Rattle.wasi_limits.specs.Alike.{Alike, Same};
ghost use Rattle.wasi_limits.specs.Contexts.{LikeContexts};
ghost use Rattle.wasi_limits.specs.Runs.{EndsInTrap, Follows, IsRunBut, IsTcpScript};
ghost use Rattle.wasi_limits.specs.Runs.{SameButNumbers, SameReplies, run_but};

/// A limit of one context changes nothing but what a check-write of a writer of that context
/// permits. It is said of the runs of a 0.2 TCP script whose contexts differ in the limit of context
/// `c` alone, up to the first trap of either run.
///
/// - `calls`: both ask the same of the network, whatever it answers, and their replies are the same
///   but for numbers.
/// - `replies`: the replies are the same, if the numbers are left out that a check-write of a writer
///   gives whose socket context `c` made.
/// - `is_run`: with these left out, a run asks the same and leaves the same machine, and its other
///   replies are the same.
/// - `logs`: a beginning of the log of one is a beginning of the log of the other, unless that one
///   had ended in a trap before.
pub fn other_limits_change_nothing_else()
    ensures calls { (c : ℕ) (contexts others : List WasiSocketsCtx) (steps : List Step)
        → LikeContexts c contexts others → IsTcpScript steps
        → Alike EndsInTrap SameButNumbers (run contexts [] first_state 1 steps)
        (run others [] first_state 1 steps) }
    ensures replies { (c : ℕ) (contexts others : List WasiSocketsCtx) (steps : List Step)
        → LikeContexts c contexts others → IsTcpScript steps
        → Alike EndsInTrap SameReplies (run_but c contexts [] first_state 1 steps)
        (run_but c others [] first_state 1 steps) }
    ensures is_run { (c : ℕ) (contexts : List WasiSocketsCtx) (steps : List Step)
        → Same IsRunBut (run contexts [] first_state 1 steps)
        (run_but c contexts [] first_state 1 steps) }
    ensures logs { (c : ℕ) (contexts others : List WasiSocketsCtx) (steps : List Step)
        (log : List Entry) (rest : Asks (List Reply × Machine))
        → LikeContexts c contexts others → IsTcpScript steps
        → Left (run contexts [] first_state 1 steps) log rest
        → Follows EndsInTrap SameButNumbers (run others [] first_state 1 steps) log rest }
{}
