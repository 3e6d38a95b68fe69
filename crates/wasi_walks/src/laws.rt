//! Laws of the licence. Each is a function that does nothing, whose contract is the law.

ghost use Rattle.std.specs.Prelude.{◌≡◌, ℕ, ◌+◌, List, [], ◌++◌};
ghost use Rattle.wasi_addr.specs.declared.address.SocketAddressFamily.{SocketAddressFamily};
ghost use Rattle.wasi_world.specs.declared.call.Entry.{Entry};
ghost use Rattle.wasi_world.specs.declared.ids.OpId.{OpId};
ghost use Rattle.wasi_world.specs.declared.outcome.WasiSocketsCtx.{WasiSocketsCtx};
ghost use Rattle.wasi_world.specs.Asks.{Asks, Left};
ghost use Rattle.host_store.specs.declared.machine.Machine.{Machine};
ghost use Rattle.wasi_steps.specs.declared.reply.Reply.{Reply};
ghost use Rattle.wasi_steps.specs.declared.step.Step.{Step};
ghost use Rattle.wasi_walks.specs.Licence.{IsLicensed, IsSide, IsMaker};
ghost use Rattle.wasi_walks.specs.Received.{HandsOutInOrder};
ghost use Rattle.host_store.specs.Machine.{first_state};
ghost use Rattle.wasi_machine.specs.Machine.{run, HasRun};

/// The log of every run is licensed for its contexts and steps, whatever the network answers.
///
/// - `begun`: at every point of the run.
/// - `answered`: together with the replies that were given so far.
pub fn runs_are_licensed()
    ensures begun { (contexts : List WasiSocketsCtx) (steps : List Step) (log : List Entry)
        (rest : Asks (List Reply × Machine))
        → Left (run contexts [] first_state 1 steps) log rest → IsLicensed contexts steps log [] }
    ensures answered { (contexts : List WasiSocketsCtx) (steps : List Step) (log : List Entry)
        (replies : List Reply)
        → HasRun contexts steps log replies → IsLicensed contexts steps log replies }
{}

/// A prefix of a licensed log is licensed without replies.
pub fn beginnings_are_licensed()
    ensures { (contexts : List WasiSocketsCtx) (steps : List Step) (front back : List Entry)
        (replies : List Reply)
        → IsLicensed contexts steps (front ++ back) replies → IsLicensed contexts steps front [] }
{}

/// A log that is licensed with some replies is licensed with any first ones of them.
pub fn fewer_replies_are_licensed()
    ensures { (contexts : List WasiSocketsCtx) (steps : List Step) (log : List Entry)
        (replies more : List Reply)
        → IsLicensed contexts steps log (replies ++ more) → IsLicensed contexts steps log replies }
{}

/// A log that is licensed by the steps so far is licensed by every script that begins with them.
pub fn longer_scripts_license()
    ensures { (contexts : List WasiSocketsCtx) (steps more : List Step) (log : List Entry)
        (replies : List Reply)
        → IsLicensed contexts steps log replies → IsLicensed contexts (steps ++ more) log replies }
{}

/// In a licensed log a handle belongs to at most one network socket.
pub fn handles_have_one_side()
    ensures { (contexts : List WasiSocketsCtx) (steps : List Step) (log : List Entry)
        (replies : List Reply) (handle : ℕ) (side other : OpId)
        → IsLicensed contexts steps log replies → IsSide log handle side → IsSide log handle other
        → side ≡ other }
{}

/// In a licensed log a network socket has one creator, a context, and one family.
pub fn sides_have_one_maker()
    ensures { (contexts : List WasiSocketsCtx) (steps : List Step) (log : List Entry)
        (replies : List Reply) (side : OpId)
        (ctx other : ℕ) (family its : SocketAddressFamily)
        → IsLicensed contexts steps log replies → IsMaker log ctx family side
        → IsMaker log other its side
        → (ctx ≡ other) × (family ≡ its) }
{}

/// The receives on streams in a run hand out the datagrams of a network socket in the order in which
/// they were received, and none twice.
///
/// - Each has its own place in the log, where it was received, after the handle of its stream was
///   logged.
/// - Each has its own yes about its sender: the operation that received it was answered yes after
///   that place, and before the place of the next.
pub fn datagrams_are_handed_out_in_order()
    ensures { (contexts : List WasiSocketsCtx) (steps : List Step) (log : List Entry)
        (replies : List Reply) (side : OpId)
        → HasRun contexts steps log replies → HandsOutInOrder log side steps replies }
{}
