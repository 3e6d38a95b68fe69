//! Which operations receive datagrams: a law of whole runs, over the definitions of specs/. It is a
//! function that does nothing, whose contract is the law.

ghost use Rattle.std.specs.Prelude.{List, []};
ghost use Rattle.wasi_world.specs.declared.call.Entry.{Entry};
ghost use Rattle.wasi_world.specs.declared.outcome.WasiSocketsCtx.{WasiSocketsCtx};
ghost use Rattle.wasi_world.specs.Asks.{Asks, Left};
ghost use Rattle.host_store.specs.declared.machine.Machine.{Machine};
ghost use Rattle.host_store.specs.Machine.{first_state};
ghost use Rattle.wasi_machine.specs.Machine.{run};
ghost use Rattle.wasi_steps.specs.declared.reply.Reply.{Reply};
ghost use Rattle.wasi_steps.specs.declared.step.Step.{Step};
ghost use Rattle.wasi_laws.specs.Receivers.{ReceivesOnOne};

/// At every point of a run, an operation receives on one network socket alone: any two `recv` that
/// it asked are of the same one. A receive of a stream has a later name of its line than the first,
/// which creates, binds, connects, listens and writes have; that of a `p3-udp-receive` has the first.
pub fn operations_receive_on_one_socket()
    ensures { (contexts : List WasiSocketsCtx) (steps : List Step) (log : List Entry)
        (rest : Asks (List Reply × Machine))
        → Left (run contexts [] first_state 1 steps) log rest → ReceivesOnOne steps log }
{}
