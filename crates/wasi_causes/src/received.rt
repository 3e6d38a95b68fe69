//! What incoming datagram streams receive, and from whom: laws over the definitions of specs/. Each
//! is a function that does nothing, whose contract is the law.

ghost use Rattle.std.specs.Prelude.{◌≡◌, ◌⊎◌, ℕ, List, [], Some};
ghost use Rattle.wasi_world.specs.declared.call.Entry.{Entry};
ghost use Rattle.wasi_world.specs.declared.outcome.WasiSocketsCtx.{WasiSocketsCtx};
ghost use Rattle.wasi_world.specs.Asks.{Give, Left};
ghost use Rattle.host_store.specs.declared.kind.Kind.{Kind};
ghost use Rattle.host_store.specs.declared.machine.Machine.{Machine};
ghost use Rattle.host_store.specs.Kinds.{kind_at};
ghost use Rattle.host_store.specs.Machine.{first_state};
ghost use Rattle.wasi_machine.specs.Machine.{run};
ghost use Rattle.wasi_steps.specs.declared.reply.Reply.{Reply};
ghost use Rattle.wasi_steps.specs.declared.step.Step.{Step};
ghost use Rattle.wasi_causes.specs.Datagrams.{OfIncoming};
ghost use Rattle.wasi_causes.specs.ReceivedApart.{ReceivedApart};
ghost use Rattle.wasi_causes.specs.ReceivedList.{HandsOutFront, HasAllReceived};
ghost use Rattle.wasi_causes.specs.ReceivedList.{KeepsLastRemote, handed_out};

/// What an incoming datagram stream received are the datagrams that `recv` gave its network socket
/// since the stream's handle was logged, about whose sender the operation was then answered yes,
/// and which came from the remote address that the stream keeps, if it keeps one.
///
/// - `live`: after any script, what a live stream received is what the replies handed out on its
///   handle, in order, and then the datagram that waits, if there is one. None is left out, and
///   none is handed out twice. No datagram was received while the check of another one's sender was
///   still open. Each is what the last `recv` of its operation reported, and no operation received
///   two.
/// - `any`: what the replies handed out on any stream, also on one that was dropped, are the first
///   datagrams that it received, each by an operation of its own.
pub fn streams_hand_out_all_they_received()
    ensures live { (contexts : List WasiSocketsCtx) (steps : List Step) (log : List Entry)
        (replies : List Reply) (m : Machine) (handle place : ℕ)
        → Left (run contexts [] first_state 1 steps) log (Give (replies, m))
        → kind_at m.table handle ≡ Some (Kind.Incoming place)
        → OfIncoming m (Some place) (λ place o stream. HasAllReceived log steps replies handle
        o.inner.side stream) }
    ensures any { (contexts : List WasiSocketsCtx) (steps : List Step) (log : List Entry)
        (replies : List Reply) (m : Machine) (handle : ℕ)
        → Left (run contexts [] first_state 1 steps) log (Give (replies, m))
        → (handed_out handle steps replies ≡ []) ⊎ HandsOutFront log steps replies handle }
{}

/// In a run a live incoming datagram stream keeps the remote address that its network socket had
/// where its handle was logged: the one that the last `peer` about that network socket, since it
/// was made, was answered with. It keeps none exactly where there was no `peer`, or the last one
/// was answered with a code or with the wildcard.
pub fn streams_keep_the_last_remote_address()
    ensures { (contexts : List WasiSocketsCtx) (steps : List Step) (log : List Entry)
        (replies : List Reply) (m : Machine) (handle place : ℕ)
        → Left (run contexts [] first_state 1 steps) log (Give (replies, m))
        → kind_at m.table handle ≡ Some (Kind.Incoming place)
        → OfIncoming m (Some place) (λ place o stream. KeepsLastRemote log handle o.inner.side
        stream.remote) }
{}

/// In a run no operation serves two incoming datagram streams of one network socket, also where the
/// one was made after the other was dropped: what the replies handed out on two handles was
/// received by different operations.
pub fn streams_receive_by_different_operations()
    ensures { (contexts : List WasiSocketsCtx) (steps : List Step) (log : List Entry)
        (replies : List Reply) (m : Machine) (first second : ℕ)
        → Left (run contexts [] first_state 1 steps) log (Give (replies, m))
        → (first ≡ second → ⊥)
        → (handed_out first steps replies ≡ []) ⊎ ((handed_out second steps replies ≡ [])
        ⊎ ReceivedApart log steps replies first second) }
{}
