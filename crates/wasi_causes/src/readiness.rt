//! Pollables: what a `subscribe` makes, and when what it watches is ready.

ghost use Rattle.std.specs.Prelude.{◌≡◌, ◌⊎◌, ℕ, true, false, List, [], ◌∷◌};
ghost use Rattle.std.specs.Prelude.{IsSomeAnd, Some, None};
ghost use Rattle.wasi_world.specs.declared.call.Entry.{Entry};
ghost use Rattle.wasi_world.specs.declared.outcome.WasiSocketsCtx.{WasiSocketsCtx};
ghost use Rattle.host_store.specs.declared.kind.Kind.{Kind};
ghost use Rattle.host_store.specs.declared.machine.Machine.{Machine};
ghost use Rattle.wasi_steps.specs.declared.reply.Field.{Field};
ghost use Rattle.wasi_steps.specs.declared.reply.Reply.{Reply};
ghost use Rattle.wasi_steps.specs.declared.guest_call.GuestCall.{GuestCall};
ghost use Rattle.wasi_steps.specs.declared.guest_call.PollableCall.{PollableCall};
ghost use Rattle.wasi_steps.specs.declared.step.Step.{Step};
ghost use Rattle.wasi_walks.specs.Answered.{Answered};
ghost use Rattle.wasi_causes.specs.Plain.{WatchesPlain};
ghost use Rattle.wasi_causes.specs.Datagrams.{WatchesDatagrams};
ghost use Rattle.host_store.specs.Machine.{own_of};
ghost use Rattle.host_store.specs.Kinds.{kind_at, watched_by, with_handle};
ghost use Rattle.wasi_steps.specs.Reply.{number_fields, truth_fields};
ghost use Rattle.wasi_causes.specs.Lookups.{LookupWaits};
ghost use Rattle.wasi_walks.specs.Waiting.{IsFailure, IsUnready};
ghost use Rattle.wasi_walks.specs.Waiting.{OfWatched, pollable_mark};
ghost use Rattle.wasi_walks.specs.Waiting.{WatchesAccept, WatchesConnect};
ghost use Rattle.wasi_walks.specs.Waiting.{WatchesIdle};

/// Whether the pollable of a TCP socket, of a stream of a connection or in memory, or of a lookup
/// is ready.
///
/// - `values`: the answer is `true` or `false`.
/// - `not_ready`: `false` where the connect in progress was answered pending; where, with nothing
///   in progress, the accept of a listener waits; where the look at the open input was answered
///   pending; where the output's write is in progress, or its look was answered pending; or where
///   the lookup is in progress.
/// - `idle`: a socket without a connect in progress, and without a listener unless another
///   operation is in progress, is ready; nothing is asked, and the machine is unchanged.
/// - `plain`: a stream in memory is ready; nothing is asked, and the machine is unchanged.
/// - `never_fails`: a look never fails.
///
/// `idle` and `plain` are said where no call is pending. `not_ready` assumes that a socket connects
/// by a connect and accepts by an accept. Every run keeps that (`runs_connect_by_connects`,
/// `runs_accept_by_accepts`).
pub fn readiness_has_causes()
    ensures values { (contexts : List WasiSocketsCtx) (m : Machine) (line ctx pollable : ℕ)
        (fields : List Field) (entries : List Entry) (after : Machine)
        → Answered contexts m line (Step.Call ctx (GuestCall.Pollable (PollableCall.Ready pollable))) entries
        (Reply.Ok fields) after
        → (fields ≡ truth_fields true) ⊎ (fields ≡ truth_fields false) }
    ensures not_ready { (contexts : List WasiSocketsCtx) (m : Machine) (line ctx pollable : ℕ)
        (entries : List Entry) (after : Machine)
        → (WatchesDatagrams m pollable → ⊥) → WatchesConnect m pollable → WatchesAccept m pollable
        → Answered contexts m line (Step.Call ctx (GuestCall.Pollable (PollableCall.Ready pollable))) entries
        (Reply.Ok (truth_fields false)) after
        → OfWatched m pollable (λ w r. IsUnready (own_of line) r entries w)
        ⊎ LookupWaits m pollable entries }
    ensures idle { (contexts : List WasiSocketsCtx) (m : Machine) (line ctx pollable : ℕ)
        (entries : List Entry) (reply : Reply) (after : Machine)
        → m.store.standing ≡ None → WatchesIdle m pollable
        → Answered contexts m line (Step.Call ctx (GuestCall.Pollable (PollableCall.Ready pollable))) entries reply after
        → (reply ≡ Reply.Ok (truth_fields true)) × (entries ≡ []) × (after ≡ m) }
    ensures plain { (contexts : List WasiSocketsCtx) (m : Machine) (line ctx pollable : ℕ)
        (entries : List Entry) (reply : Reply) (after : Machine)
        → m.store.standing ≡ None → WatchesPlain m pollable
        → Answered contexts m line (Step.Call ctx (GuestCall.Pollable (PollableCall.Ready pollable))) entries reply after
        → (reply ≡ Reply.Ok (truth_fields true)) × (entries ≡ []) × (after ≡ m) }
    ensures never_fails { (contexts : List WasiSocketsCtx) (m : Machine) (line ctx pollable : ℕ)
        (entries : List Entry) (reply : Reply) (after : Machine)
        → Answered contexts m line (Step.Call ctx (GuestCall.Pollable (PollableCall.Ready pollable))) entries reply after →
        IsFailure reply
        → ⊥ }
{}

/// What a `subscribe` makes.
///
/// - `number`: a `subscribe` answers with the number of the next handle.
/// - `marked`: its one entry logs a pollable, a child of the handle that it was called on, with the
///   network socket of that one.
/// - `made`: that pollable is made, and the rest of the machine is unchanged.
/// - `never_fails`: it never fails.
pub fn subscribe_makes_a_pollable()
    ensures number { (contexts : List WasiSocketsCtx) (m : Machine) (line ctx handle : ℕ)
        (fields : List Field) (entries : List Entry) (after : Machine)
        → Answered contexts m line (Step.Call ctx (GuestCall.Pollable (PollableCall.Subscribe handle))) entries
        (Reply.Ok fields) after
        → fields ≡ number_fields m.table.next }
    ensures marked { (contexts : List WasiSocketsCtx) (m : Machine) (line ctx handle : ℕ)
        (fields : List Field) (entries : List Entry) (after : Machine)
        → Answered contexts m line (Step.Call ctx (GuestCall.Pollable (PollableCall.Subscribe handle))) entries
        (Reply.Ok fields) after
        → IsSomeAnd (watched_by (kind_at m.table handle))
        (λ w. entries ≡ pollable_mark m (own_of line) handle w ∷ []) }
    ensures made { (contexts : List WasiSocketsCtx) (m : Machine) (line ctx handle : ℕ)
        (fields : List Field) (entries : List Entry) (after : Machine)
        → Answered contexts m line (Step.Call ctx (GuestCall.Pollable (PollableCall.Subscribe handle))) entries
        (Reply.Ok fields) after
        → IsSomeAnd (watched_by (kind_at m.table handle))
        (λ w. after ≡ record m { table = with_handle m.table (Kind.Pollable w) (Some handle) }) }
    ensures never_fails { (contexts : List WasiSocketsCtx) (m : Machine) (line ctx handle : ℕ)
        (entries : List Entry) (reply : Reply) (after : Machine)
        → Answered contexts m line (Step.Call ctx (GuestCall.Pollable (PollableCall.Subscribe handle))) entries reply after
        → IsFailure reply
        → ⊥ }
{}
