//! The limit of a context on unwritten bytes: a law of whole runs, over the definitions of specs/.
//! It is a function that does nothing, whose contract is the law.

ghost use Rattle.std.specs.Prelude.{◌≡◌, ℕ, ◌≤◌, List, [], Some, length, slice_get};
ghost use Rattle.wasi_world.specs.declared.call.Entry.{Entry};
ghost use Rattle.wasi_world.specs.declared.outcome.WasiSocketsCtx.{WasiSocketsCtx};
ghost use Rattle.wasi_world.specs.Asks.{Give, Left};
ghost use Rattle.wasi_world.specs.Contexts.{AreNumbered};
ghost use Rattle.wasi_records.specs.Used.{used};
ghost use Rattle.host_store.specs.declared.machine.Machine.{Machine};
ghost use Rattle.host_store.specs.Limits.{limit_in, limit_or};
ghost use Rattle.host_store.specs.Machine.{first_state};
ghost use Rattle.wasi_machine.specs.Machine.{run};
ghost use Rattle.wasi_steps.specs.declared.reply.Reply.{Reply};
ghost use Rattle.wasi_steps.specs.declared.step.Step.{Step};
ghost use Rattle.wasi_laws.specs.Limits.{AreOf};

/// In every state of a run the writers of a context stay within its limit: what they are permitted
/// and the bytes that they haven't written yet are together at most that.
///
/// - `within`: it is the limit that is kept of the context, where one is kept, and else 0.
/// - `own`: where the contexts are numbered by their places, and each call is of one of them, it is
///   the context's own `write_limit`.
pub fn writers_stay_within_the_limit()
    ensures within { (contexts : List WasiSocketsCtx) (steps : List Step) (log : List Entry)
        (replies : List Reply) (m : Machine) (context : ℕ)
        → Left (run contexts [] first_state 1 steps) log (Give (replies, m))
        → used context m.store.records ≤ limit_or (limit_in m.store.limits context) }
    ensures own { (contexts : List WasiSocketsCtx) (steps : List Step) (log : List Entry)
        (replies : List Reply) (m : Machine) (n : ℕ) (ctx : WasiSocketsCtx)
        → AreNumbered contexts → AreOf (length contexts) steps
        → Left (run contexts [] first_state 1 steps) log (Give (replies, m))
        → slice_get contexts n ≡ Some ctx → used n m.store.records ≤ ctx.write_limit }
{}
