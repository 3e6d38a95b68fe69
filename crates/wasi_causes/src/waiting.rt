//! Where the answers of waits for pollables come from, and of the polls that continue them: laws
//! over the definitions of specs/. Each is a function that does nothing, whose contract is the law.
//! A wait is a `block`, for one pollable, or a `poll-list`, for several.

ghost use Rattle.std.specs.Prelude.{◌≡◌, ◌≢◌, ◌↔◌, ◌⊎◌, ℕ, Bool, true, false, List, [], ◌∷◌};
ghost use Rattle.std.specs.Prelude.{IsSomeAnd, Some, None, slice_get};
ghost use Rattle.wasi_world.specs.declared.call.Entry.{Entry};
ghost use Rattle.wasi_world.specs.declared.ids.Ids.{Ids};
ghost use Rattle.wasi_world.specs.declared.outcome.TrapKind.{TrapKind};
ghost use Rattle.wasi_world.specs.declared.outcome.WasiSocketsCtx.{WasiSocketsCtx};
ghost use Rattle.wasi_world.specs.Asks.{Give, Left};
ghost use Rattle.host_store.specs.declared.store.BlockingCall.{BlockingCall};
ghost use Rattle.host_store.specs.declared.machine.Machine.{Machine};
ghost use Rattle.wasi_host.specs.declared.polling.Look.{Look};
ghost use Rattle.host_store.specs.declared.store.StandingCall.{StandingCall};
ghost use Rattle.host_store.specs.Machine.{first_state};
ghost use Rattle.wasi_host.specs.Pollables.{ids_after_ready, ready_asks};
ghost use Rattle.record_common.specs.Names.{names_after};
ghost use Rattle.wasi_host.specs.Polling.{Found, are_pollables, begins_at, found_of, ready_places};
ghost use Rattle.host_store.specs.Standing.{standing_as};
ghost use Rattle.wasi_machine.specs.Machine.{first_ids, run};
ghost use Rattle.wasi_steps.specs.declared.reply.Reply.{Reply};
ghost use Rattle.wasi_steps.specs.declared.guest_call.GuestCall.{GuestCall};
ghost use Rattle.wasi_steps.specs.declared.guest_call.PollableCall.{PollableCall};
ghost use Rattle.wasi_steps.specs.declared.step.Step.{Step};
ghost use Rattle.wasi_steps.specs.Reply.{no_fields, truth_fields};
ghost use Rattle.wasi_walks.specs.Answered.{Answered};
ghost use Rattle.wasi_walks.specs.Licence.{Has};
ghost use Rattle.wasi_walks.specs.Waiting.{nothing_stands};
ghost use Rattle.wasi_causes.specs.Blocking.{IsCallOfStream};
ghost use Rattle.wasi_causes.specs.PollableCalls.{AreDifferent, BeginsNone, BeginsToWait, BlocksOn};
ghost use Rattle.wasi_causes.specs.PollableCalls.{different, Finds, LooksInTurn, pollables_of, RisesFrom};
ghost use Rattle.wasi_causes.specs.PollableCalls.{waiting, waits_for, WaitsOn};

/// A wait for one pollable is a `ready` of it in its line. All of this is said where no call is
/// pending.
///
/// - `looks`: its answer is one of the three below.
/// - `ready`: it is done where the `ready` is `true`.
/// - `unready`: it is pending under its line's number where the `ready` is `false`; but for the
///   pending call it leaves what that leaves.
/// - `traps`: it traps where the `ready` does.
/// - `handles`: the handles are unchanged.
pub fn waits_for_one_are_looks()
    ensures looks { (contexts : List WasiSocketsCtx) (m : Machine) (line ctx pollable : ℕ)
        (entries : List Entry) (reply : Reply) (after : Machine)
        → m.store.standing ≡ None
        → Answered contexts m line (Step.Call ctx (GuestCall.Pollable (PollableCall.Block pollable))) entries reply after
        → BlocksOn contexts m ctx (first_ids line) pollable Look.First entries reply after }
    ensures ready { (contexts : List WasiSocketsCtx) (m : Machine) (line ctx pollable : ℕ)
        (entries : List Entry) (after : Machine)
        → m.store.standing ≡ None
        → Answered contexts m line (Step.Call ctx (GuestCall.Pollable (PollableCall.Ready pollable))) entries
        (Reply.Ok (truth_fields true)) after
        → Answered contexts m line (Step.Call ctx (GuestCall.Pollable (PollableCall.Block pollable))) entries
        (Reply.Ok no_fields) after }
    ensures unready { (contexts : List WasiSocketsCtx) (m : Machine) (line ctx pollable : ℕ)
        (entries : List Entry) (after : Machine)
        → m.store.standing ≡ None
        → Answered contexts m line (Step.Call ctx (GuestCall.Pollable (PollableCall.Ready pollable))) entries
        (Reply.Ok (truth_fields false)) after
        → Answered contexts m line (Step.Call ctx (GuestCall.Pollable (PollableCall.Block pollable))) entries
        (Reply.Pending line) (waiting after (first_ids line) (BlockingCall.Block pollable)) }
    ensures traps { (contexts : List WasiSocketsCtx) (m : Machine) (line ctx pollable : ℕ)
        (entries : List Entry) (kind : TrapKind) (after : Machine)
        → m.store.standing ≡ None
        → Answered contexts m line (Step.Call ctx (GuestCall.Pollable (PollableCall.Ready pollable))) entries
        (Reply.Trap kind) after
        → Answered contexts m line (Step.Call ctx (GuestCall.Pollable (PollableCall.Block pollable))) entries
        (Reply.Trap kind) after }
    ensures handles { (contexts : List WasiSocketsCtx) (m : Machine) (line ctx pollable : ℕ)
        (entries : List Entry) (reply : Reply) (after : Machine)
        → m.store.standing ≡ None
        → Answered contexts m line (Step.Call ctx (GuestCall.Pollable (PollableCall.Block pollable))) entries reply after
        → after.table ≡ m.table }
{}

/// What a wait for several pollables does. All but `in_runs` is said where no call is pending.
///
/// - `none`: for no pollable it is `empty-list`; nothing is asked, and the machine is unchanged.
/// - `no_pollable`: with a handle that isn't a pollable's it is `no-such-handle`; nothing is asked,
///   and the machine is unchanged.
/// - `looks`: else each different pollable is looked at once, in the order of their first places.
///   The answer is the places of those that were ready, or pending under its line's number where
///   none was.
/// - `as_ready`: a look by the first names of a line is the step `ready`.
/// - `handles`: the handles are unchanged.
/// - `in_runs`: in a run it traps for no other reason than those of `none` and `no_pollable`.
pub fn waits_for_several_look_at_each()
    ensures none { (contexts : List WasiSocketsCtx) (m : Machine) (line ctx : ℕ)
        (entries : List Entry) (reply : Reply) (after : Machine)
        → m.store.standing ≡ None
        → Answered contexts m line (Step.Call ctx (GuestCall.Pollable (PollableCall.PollList []))) entries reply after
        → (reply ≡ Reply.Trap TrapKind.EmptyList) × (entries ≡ []) × (after ≡ m) }
    ensures no_pollable { (contexts : List WasiSocketsCtx) (m : Machine) (line ctx : ℕ)
        (pollables : List ℕ) (entries : List Entry) (reply : Reply) (after : Machine)
        → m.store.standing ≡ None → pollables ≢ [] → are_pollables m pollables ≡ false
        → Answered contexts m line (Step.Call ctx (GuestCall.Pollable (PollableCall.PollList pollables))) entries reply
        after
        → (reply ≡ Reply.Trap TrapKind.NoSuchHandle) × (entries ≡ []) × (after ≡ m) }
    ensures looks { (contexts : List WasiSocketsCtx) (m : Machine) (line ctx : ℕ)
        (pollables : List ℕ) (entries : List Entry) (reply : Reply) (after : Machine)
        → m.store.standing ≡ None
        → Answered contexts m line (Step.Call ctx (GuestCall.Pollable (PollableCall.PollList pollables))) entries reply
        after
        → BeginsToWait m line pollables entries reply after }
    ensures as_ready { (contexts : List WasiSocketsCtx) (m : Machine) (line ctx pollable : ℕ)
        (entries : List Entry) (ready : Bool) (after : Machine)
        → m.store.standing ≡ None
        → Finds m (first_ids line) pollable Look.First entries ready after
        ↔ Answered contexts m line (Step.Call ctx (GuestCall.Pollable (PollableCall.Ready pollable))) entries
        (Reply.Ok (truth_fields ready)) after }
    ensures handles { (contexts : List WasiSocketsCtx) (m : Machine) (line ctx : ℕ)
        (pollables : List ℕ) (entries : List Entry) (reply : Reply) (after : Machine)
        → m.store.standing ≡ None
        → Answered contexts m line (Step.Call ctx (GuestCall.Pollable (PollableCall.PollList pollables))) entries reply
        after
        → after.table ≡ m.table }
    ensures in_runs { (contexts : List WasiSocketsCtx) (steps : List Step) (log : List Entry)
        (replies : List Reply) (m : Machine) (line ctx : ℕ) (pollables : List ℕ)
        (entries : List Entry) (kind : TrapKind) (after : Machine)
        → Left (run contexts [] first_state 1 steps) log (Give (replies, m))
        → Answered contexts m line (Step.Call ctx (GuestCall.Pollable (PollableCall.PollList pollables))) entries
        (Reply.Trap kind) after
        → ((pollables ≡ []) ⊎ (are_pollables m pollables ≡ false)) × (entries ≡ []) × (after ≡ m) }
{}

/// What a wait for several pollables looks at, and which places it answers.
///
/// - `same`, `once`: the pollables that are looked at are those of the list, each once.
/// - `each`: the looks find something of each of them, in that order.
/// - `exactly`: a place is answered exactly where the pollable there was found ready.
/// - `rising`: the places rise.
pub fn places_are_of_those_found_ready()
    ensures same { (pollables : List ℕ) (p : ℕ) → Has (different pollables) p ↔ Has pollables p }
    ensures once { (pollables : List ℕ) → AreDifferent (different pollables) }
    ensures each { (look : Look) (m : Machine) (ids : Ids) (pollables : List ℕ)
        (entries : List Entry) (found : Found) (after : Machine)
        → LooksInTurn look m ids pollables entries found after → pollables_of found ≡ pollables }
    ensures exactly { (found : Found) (pollables : List ℕ) (place : ℕ)
        → Has (ready_places found 0 pollables) place
        ↔ IsSomeAnd (slice_get pollables place) (λ p. found_of found p ≡ Some true) }
    ensures rising { (found : Found) (pollables : List ℕ)
        → RisesFrom 0 (ready_places found 0 pollables) }
{}

/// A poll of a pending wait looks again, as if nothing were pending, under the names of the line
/// that made it.
///
/// - `one`, `several`: such a look begins nothing: where a `ready` would begin an accept or a
///   receive, the pollable is ready and nothing is asked.
/// - `begins`, `begins_none`: a `ready` takes the next name of its line exactly where it begins
///   one.
/// - `asks_the_same`: where it begins none its calls don't depend on the names that are left to its
///   line.
/// - `in_runs`: in a run such a poll doesn't trap.
pub fn polls_of_waits_begin_nothing()
    ensures one { (contexts : List WasiSocketsCtx) (m : Machine) (line ctx pollable : ℕ) (ids : Ids)
        (entries : List Entry) (reply : Reply) (after : Machine)
        → m.store.standing ≡ Some (standing_as ids (StandingCall.Blocking
        (BlockingCall.Block pollable))) → Answered contexts m line (Step.Poll ids.line) entries
        reply after
        → BlocksOn contexts (nothing_stands m) ctx ids pollable Look.Later entries reply after }
    ensures several { (contexts : List WasiSocketsCtx) (m : Machine) (line : ℕ) (pollables : List ℕ)
        (ids : Ids) (entries : List Entry) (reply : Reply) (after : Machine)
        → m.store.standing ≡ Some (standing_as ids (StandingCall.Blocking
        (BlockingCall.Poll pollables))) → Answered contexts m line (Step.Poll ids.line) entries
        reply after
        → WaitsOn (nothing_stands m) (first_ids ids.line) pollables Look.Later entries reply after }
    ensures begins { (m : Machine) (ids : Ids) (pollable : ℕ) → begins_at m pollable ≡ true
        → ids_after_ready m ids pollable ≡ names_after ids }
    ensures begins_none { (m : Machine) (ids : Ids) (pollable : ℕ) → begins_at m pollable ≡ false
        → ids_after_ready m ids pollable ≡ ids }
    ensures asks_the_same { (m : Machine) (ids : Ids) (part pollable : ℕ)
        → begins_at m pollable ≡ false
        → ready_asks m ids pollable ≡ ready_asks m (record ids { next_part = part }) pollable }
    ensures in_runs { (contexts : List WasiSocketsCtx) (steps : List Step) (log : List Entry)
        (replies : List Reply) (m : Machine) (line : ℕ) (ids : Ids) (call : BlockingCall)
        (entries : List Entry) (kind : TrapKind) (after : Machine)
        → Left (run contexts [] first_state 1 steps) log (Give (replies, m))
        → m.store.standing ≡ Some (standing_as ids (StandingCall.Blocking call))
        → (IsCallOfStream call → ⊥)
        → Answered contexts m line (Step.Poll ids.line) entries (Reply.Trap kind) after → ⊥ }
{}

/// In a run no pollable of a pending wait would begin anything: the look of its line did, or there
/// was nothing to begin.
///
/// - `none`: a look at any of them would begin no accept and no receive.
/// - `one`, `several`: so a poll of the wait looks as its line did, when nothing was pending, and
///   comes out as that. A pollable that is ready without a look is never found.
pub fn pending_waits_would_begin_nothing()
    ensures none { (contexts : List WasiSocketsCtx) (steps : List Step) (log : List Entry)
        (replies : List Reply) (m : Machine) (ids : Ids) (call : StandingCall)
        → Left (run contexts [] first_state 1 steps) log (Give (replies, m))
        → m.store.standing ≡ Some (standing_as ids call) → BeginsNone m (waits_for call) }
    ensures one { (contexts : List WasiSocketsCtx) (steps : List Step) (log : List Entry)
        (replies : List Reply) (m : Machine) (line ctx pollable : ℕ) (ids : Ids)
        (entries : List Entry) (reply : Reply) (after : Machine)
        → Left (run contexts [] first_state 1 steps) log (Give (replies, m))
        → m.store.standing ≡ Some (standing_as ids (StandingCall.Blocking
        (BlockingCall.Block pollable))) → Answered contexts m line (Step.Poll ids.line) entries
        reply after
        → BlocksOn contexts (nothing_stands m) ctx ids pollable Look.First entries reply after }
    ensures several { (contexts : List WasiSocketsCtx) (steps : List Step) (log : List Entry)
        (replies : List Reply) (m : Machine) (line : ℕ) (pollables : List ℕ) (ids : Ids)
        (entries : List Entry) (reply : Reply) (after : Machine)
        → Left (run contexts [] first_state 1 steps) log (Give (replies, m))
        → m.store.standing ≡ Some (standing_as ids (StandingCall.Blocking
        (BlockingCall.Poll pollables))) → Answered contexts m line (Step.Poll ids.line) entries
        reply after
        → WaitsOn (nothing_stands m) (first_ids ids.line) pollables Look.First entries reply after }
{}

/// A wait that is pending is kept with its pollables, under the number of its line.
///
/// - `one`, `several`: after the step that makes it.
/// - `one_polled`, `several_polled`: after a poll of it.
/// - `cancelled`: a cancel of it is done and asks nothing; no call is pending then, and the rest is
///   unchanged.
pub fn pending_waits_are_for_their_pollables()
    ensures one { (contexts : List WasiSocketsCtx) (m : Machine) (line ctx pollable number : ℕ)
        (entries : List Entry) (after : Machine)
        → m.store.standing ≡ None
        → Answered contexts m line (Step.Call ctx (GuestCall.Pollable (PollableCall.Block pollable))) entries
        (Reply.Pending number) after
        → (number ≡ line) × (after.store.standing ≡ Some
        (standing_as (first_ids line) (StandingCall.Blocking (BlockingCall.Block pollable)))) }
    ensures several { (contexts : List WasiSocketsCtx) (m : Machine) (line ctx number : ℕ)
        (pollables : List ℕ) (entries : List Entry) (after : Machine)
        → m.store.standing ≡ None
        → Answered contexts m line (Step.Call ctx (GuestCall.Pollable (PollableCall.PollList pollables))) entries
        (Reply.Pending number) after
        → (number ≡ line) × (after.store.standing ≡ Some
        (standing_as (first_ids line) (StandingCall.Blocking (BlockingCall.Poll pollables)))) }
    ensures one_polled { (contexts : List WasiSocketsCtx) (m : Machine) (line pollable number : ℕ)
        (ids : Ids) (entries : List Entry) (after : Machine)
        → m.store.standing ≡ Some (standing_as ids (StandingCall.Blocking
        (BlockingCall.Block pollable))) → Answered contexts m line (Step.Poll ids.line) entries
        (Reply.Pending number) after
        → (number ≡ ids.line) × (after.store.standing ≡ Some
        (standing_as (first_ids ids.line) (StandingCall.Blocking
        (BlockingCall.Block pollable)))) }
    ensures several_polled { (contexts : List WasiSocketsCtx) (m : Machine) (line number : ℕ)
        (pollables : List ℕ) (ids : Ids) (entries : List Entry) (after : Machine)
        → m.store.standing ≡ Some (standing_as ids (StandingCall.Blocking
        (BlockingCall.Poll pollables))) → Answered contexts m line (Step.Poll ids.line) entries
        (Reply.Pending number) after
        → (number ≡ ids.line) × (after.store.standing ≡ Some
        (standing_as (first_ids ids.line) (StandingCall.Blocking
        (BlockingCall.Poll pollables)))) }
    ensures cancelled { (contexts : List WasiSocketsCtx) (m : Machine) (line : ℕ) (ids : Ids)
        (call : BlockingCall) (entries : List Entry) (reply : Reply) (after : Machine)
        → m.store.standing ≡ Some (standing_as ids (StandingCall.Blocking call))
        → Answered contexts m line (Step.Cancel ids.line) entries reply after
        → (reply ≡ Reply.Ok no_fields) × (entries ≡ []) × (after ≡ nothing_stands m) }
{}
