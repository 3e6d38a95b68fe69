//! Which records are given back: those that nothing refers to any more; and which handles nothing
//! is made under. Laws over the definitions of specs/: functions that do nothing, whose contracts
//! are the laws.

ghost use Rattle.std.specs.Prelude.{◌≡◌, ℕ, List, [], None, Some};
ghost use Rattle.wasi_world.specs.declared.call.Entry.{Entry};
ghost use Rattle.wasi_world.specs.declared.outcome.WasiSocketsCtx.{WasiSocketsCtx};
ghost use Rattle.wasi_world.specs.Asks.{Give, Left};
ghost use Rattle.wasi_jobs.specs.declared.job.HostJob.{HostJob};
ghost use Rattle.host_store.specs.declared.kind.Kind.{Kind};
ghost use Rattle.host_store.specs.declared.machine.Machine.{Machine};
ghost use Rattle.host_store.specs.declared.store.Standing.{Standing};
ghost use Rattle.wasi_table.specs.Table.{children_of};
ghost use Rattle.host_store.specs.Kinds.{kind_at, watched_by};
ghost use Rattle.host_store.specs.Machine.{first_state};
ghost use Rattle.wasi_machine.specs.Machine.{run};
ghost use Rattle.wasi_steps.specs.declared.reply.Reply.{Reply};
ghost use Rattle.wasi_steps.specs.declared.step.Step.{Step};
ghost use Rattle.wasi_walks.specs.Licence.{Has};
ghost use Rattle.wasi_causes.specs.NamedRecords.{call_names, IsGivenBack, record_named};
ghost use Rattle.wasi_jobs.specs.Jobs.{job_place};

/// After any script, nothing refers to a record that was given back:
///
/// - `handles`: no live handle.
/// - `calls`: no pending call.
/// - `jobs`: no job.
pub fn what_is_given_back_has_no_name()
    ensures handles { (contexts : List WasiSocketsCtx) (steps : List Step) (log : List Entry)
        (replies : List Reply) (m : Machine) (handle place : ℕ) (kind : Kind)
        → Left (run contexts [] first_state 1 steps) log (Give (replies, m))
        → kind_at m.table handle ≡ Some kind → record_named kind ≡ Some place
        → IsGivenBack m place → ⊥ }
    ensures calls { (contexts : List WasiSocketsCtx) (steps : List Step) (log : List Entry)
        (replies : List Reply) (m : Machine) (place : ℕ) (s : Standing)
        → Left (run contexts [] first_state 1 steps) log (Give (replies, m))
        → m.store.standing ≡ Some s → call_names s.call ≡ Some place → IsGivenBack m place → ⊥ }
    ensures jobs { (contexts : List WasiSocketsCtx) (steps : List Step) (log : List Entry)
        (replies : List Reply) (m : Machine) (job : HostJob)
        → Left (run contexts [] first_state 1 steps) log (Give (replies, m)) → Has m.store.jobs job
        → IsGivenBack m (job_place job) → ⊥ }
{}

/// After any script, nothing is under a handle that no pollable can watch: a network, an error, a
/// pollable, and each handle of 0.3.
pub fn what_is_not_watched_has_no_children()
    ensures none { (contexts : List WasiSocketsCtx) (steps : List Step) (log : List Entry)
        (replies : List Reply) (m : Machine) (handle : ℕ) (kind : Kind)
        → Left (run contexts [] first_state 1 steps) log (Give (replies, m))
        → kind_at m.table handle ≡ Some kind → watched_by (Some kind) ≡ None
        → children_of m.table.live handle ≡ [] }
{}
