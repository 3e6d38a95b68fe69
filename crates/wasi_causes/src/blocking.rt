//! Where the answers of calls of streams that block come from, of the polls that continue them, and
//! of cancels: laws over the definitions of specs/. Each is a function that does nothing, whose
//! contract is the law. A call that blocks is made of calls that don't, under the number of its own
//! line, also where a poll continues it.

ghost use Rattle.std.specs.Prelude.{◌≡◌, ◌↔◌, ◌⊎◌, ℕ, true, false, List, [], ◌∷◌, length};
ghost use Rattle.std.specs.Prelude.{IsSomeAnd, Some, None};
ghost use Rattle.wasi_world.specs.declared.call.Entry.{Entry};
ghost use Rattle.wasi_world.specs.declared.ids.Ids.{Ids};
ghost use Rattle.wasi_world.specs.declared.outcome.WasiSocketsCtx.{WasiSocketsCtx};
ghost use Rattle.wasi_world.specs.Asks.{Give, Left};
ghost use Rattle.wasi_streams.specs.Streams.{zeros};
ghost use Rattle.host_store.specs.declared.store.BlockingCall.{BlockingCall};
ghost use Rattle.host_store.specs.declared.machine.Machine.{Machine};
ghost use Rattle.host_store.specs.declared.store.StandingCall.{StandingCall};
ghost use Rattle.host_store.specs.Machine.{first_state};
ghost use Rattle.host_store.specs.Beside.{stands_under};
ghost use Rattle.host_store.specs.Standing.{standing_as};
ghost use Rattle.wasi_causes.specs.P3Connects.{BesideCancelled};
ghost use Rattle.wasi_machine.specs.Machine.{first_ids, run};
ghost use Rattle.wasi_steps.specs.declared.reply.CodeWord.{CodeWord};
ghost use Rattle.wasi_steps.specs.declared.reply.Field.{Field};
ghost use Rattle.wasi_steps.specs.declared.reply.Reply.{Reply};
ghost use Rattle.wasi_steps.specs.declared.guest_call.GuestCall.{GuestCall};
ghost use Rattle.wasi_steps.specs.declared.guest_call.StreamCall.{StreamCall};
ghost use Rattle.wasi_steps.specs.declared.step.Step.{Step};
ghost use Rattle.wasi_steps.specs.Reply.{bytes_fields, no_fields};
ghost use Rattle.wasi_walks.specs.Answered.{Answered};
ghost use Rattle.wasi_walks.specs.Waiting.{nothing_stands};
ghost use Rattle.wasi_causes.specs.Blocking.{BeginsToWrite, BlocksAs, EndsByRead, IsShort};
ghost use Rattle.wasi_causes.specs.Blocking.{StreamCallStands};
ghost use Rattle.wasi_causes.specs.Cancelled.{CancelsBy};
ghost use Rattle.wasi_causes.specs.Datagrams.{PendingHandleIsLive};

/// A call of a stream that blocks is made of calls that don't. A part that ends, fails or traps
/// ends the call; a part that gives nothing yet leaves it pending under its line's number. All of
/// this is said where no call is pending.
///
/// - `read`, `skip`: a look whether there is something to read, and then a read.
/// - `write`, `zeroes`: rounds of a look at the permit and a write of that much; then a flush and a
///   last look. More than 4,096 bytes trap at once, where the handle is an output's.
/// - `flush`: a flush and a look.
/// - `splice`: a look at both ends, and then a splice.
pub fn calls_that_block_are_their_parts()
    ensures read { (contexts : List WasiSocketsCtx) (m : Machine) (line ctx input len : ℕ)
        (entries : List Entry) (reply : Reply) (after : Machine)
        → m.store.standing ≡ None
        → Answered contexts m line (Step.Call ctx (GuestCall.Stream (StreamCall.BlockingRead input len))) entries reply
        after
        → BlocksAs contexts m ctx (first_ids line) (BlockingCall.Read input len) entries reply
        after }
    ensures skip { (contexts : List WasiSocketsCtx) (m : Machine) (line ctx input len : ℕ)
        (entries : List Entry) (reply : Reply) (after : Machine)
        → m.store.standing ≡ None
        → Answered contexts m line (Step.Call ctx (GuestCall.Stream (StreamCall.BlockingSkip input len))) entries reply
        after
        → BlocksAs contexts m ctx (first_ids line) (BlockingCall.Skip input len) entries reply
        after }
    ensures write { (contexts : List WasiSocketsCtx) (m : Machine) (line ctx output : ℕ)
        (bytes : List ℕ) (entries : List Entry) (reply : Reply) (after : Machine)
        → m.store.standing ≡ None
        → Answered contexts m line (Step.Call ctx (GuestCall.Stream (StreamCall.BlockingWrite output bytes))) entries
        reply after
        → BeginsToWrite contexts m ctx (first_ids line) output (length bytes) bytes entries
        reply after }
    ensures zeroes { (contexts : List WasiSocketsCtx) (m : Machine) (line ctx output len : ℕ)
        (entries : List Entry) (reply : Reply) (after : Machine)
        → m.store.standing ≡ None
        → Answered contexts m line (Step.Call ctx (GuestCall.Stream (StreamCall.BlockingZeroes output len))) entries
        reply after
        → BeginsToWrite contexts m ctx (first_ids line) output len (zeros len) entries reply
        after }
    ensures flush { (contexts : List WasiSocketsCtx) (m : Machine) (line ctx output : ℕ)
        (entries : List Entry) (reply : Reply) (after : Machine)
        → m.store.standing ≡ None
        → Answered contexts m line (Step.Call ctx (GuestCall.Stream (StreamCall.BlockingFlush output))) entries reply
        after
        → BlocksAs contexts m ctx (first_ids line) (BlockingCall.Flush output) entries reply
        after }
    ensures splice { (contexts : List WasiSocketsCtx) (m : Machine) (line ctx to from len : ℕ)
        (entries : List Entry) (reply : Reply) (after : Machine)
        → m.store.standing ≡ None
        → Answered contexts m line (Step.Call ctx (GuestCall.Stream (StreamCall.BlockingSplice to from len))) entries
        reply after
        → BlocksAs contexts m ctx (first_ids line) (BlockingCall.Splice to from len) entries
        reply after }
{}

/// What a poll of a pending call that blocks does.
///
/// - `goes_on`: it continues the call as if nothing were pending, under the names of the line that
///   began it. A read, a skip, a flush and a splice begin anew; a write goes on with the bytes that
///   are left, or with its last look; a wait for pollables looks again (`waiting`).
/// - `closed`, `failed`: a poll answers that a stream is closed, or failed, only where a call of a
///   stream is pending.
///
/// `goes_on` assumes that a write has at most 4,096 bytes left. Every run keeps that
/// (`pending_calls_have_their_streams`).
pub fn polls_continue_calls_of_streams()
    ensures goes_on { (contexts : List WasiSocketsCtx) (m : Machine) (line ctx : ℕ) (ids : Ids)
        (call : BlockingCall) (entries : List Entry) (reply : Reply) (after : Machine)
        → m.store.standing ≡ Some (standing_as ids (StandingCall.Blocking call)) → IsShort call
        → Answered contexts m line (Step.Poll ids.line) entries reply after
        → BlocksAs contexts (nothing_stands m) ctx ids call entries reply after }
    ensures closed { (contexts : List WasiSocketsCtx) (m : Machine) (line n : ℕ)
        (entries : List Entry) (after : Machine)
        → Answered contexts m line (Step.Poll n) entries Reply.Closed after → StreamCallStands m }
    ensures failed { (contexts : List WasiSocketsCtx) (m : Machine) (line n : ℕ)
        (entries : List Entry) (word : CodeWord) (handle : ℕ) (after : Machine)
        → Answered contexts m line (Step.Poll n) entries (Reply.Failed word handle) after
        → StreamCallStands m }
{}

/// The bytes that a blocking read hands out are the answer to the last call, a read of the
/// connection's open half by the operation of the read's line; or they stood first in a pipe. The
/// look before found something to read.
///
/// - `at_once`: in the line of the read.
/// - `polled`: in a poll of it.
pub fn blocking_reads_hand_out_what_was_told()
    ensures at_once { (contexts : List WasiSocketsCtx) (m : Machine) (line ctx input len b : ℕ)
        (bytes : List ℕ) (entries : List Entry) (after : Machine)
        → m.store.standing ≡ None
        → Answered contexts m line (Step.Call ctx (GuestCall.Stream (StreamCall.BlockingRead input len))) entries
        (Reply.Ok (bytes_fields (b ∷ bytes))) after
        → EndsByRead m line input len (b ∷ bytes) entries after }
    ensures polled { (contexts : List WasiSocketsCtx) (m : Machine) (line input len b : ℕ)
        (ids : Ids) (bytes : List ℕ) (entries : List Entry) (after : Machine)
        → m.store.standing ≡ Some (standing_as ids (StandingCall.Blocking
        (BlockingCall.Read input len))) → Answered contexts m line (Step.Poll ids.line) entries
        (Reply.Ok (bytes_fields (b ∷ bytes))) after
        → EndsByRead (nothing_stands m) ids.line input len (b ∷ bytes) entries after }
{}

/// After any script the streams of a pending call of a stream are there, with at most 4,096 bytes
/// left to write; what the pollables of a pending wait watch is there; and pending datagram
/// streams, and a pending listen of 0.3, have the live handle of their socket.
pub fn pending_calls_have_their_streams()
    ensures { (contexts : List WasiSocketsCtx) (steps : List Step) (log : List Entry)
        (replies : List Reply) (m : Machine)
        → Left (run contexts [] first_state 1 steps) log (Give (replies, m))
        → PendingHandleIsLive m }
{}

/// What a cancel does.
///
/// - `none`, `stays`: `no-such-call` exactly where no call is pending under its number; nothing is
///   asked then, and the machine is unchanged.
/// - `exactly`: `ok` exactly where one is.
/// - `given_up`: a bind or a connect leaves its socket as it was, with none in progress. A listen
///   or a create closes its network socket, and leaves the socket closed or no handle. The drop of
///   an outgoing datagram stream loses its datagram. The drop of an output, a call of a stream and
///   a wait for pollables leave all as it was. Or the call stands beside others: it is over, and
///   nothing is asked, but that the network socket of a datagram is closed where nothing else holds
///   it.
/// - `none_stands`: the exclusive call is pending no more after an `ok`, and the handles are
///   unchanged.
pub fn cancels_give_up_their_call()
    ensures none { (contexts : List WasiSocketsCtx) (m : Machine) (line n : ℕ)
        (entries : List Entry) (reply : Reply) (after : Machine)
        → Answered contexts m line (Step.Cancel n) entries reply after
        → (reply ≡ Reply.NoSuchCall) ↔ (stands_under m.store n ≡ false) }
    ensures exactly { (contexts : List WasiSocketsCtx) (m : Machine) (line n : ℕ)
        (entries : List Entry) (reply : Reply) (after : Machine)
        → Answered contexts m line (Step.Cancel n) entries reply after
        → (reply ≡ Reply.Ok no_fields) ↔ (stands_under m.store n ≡ true) }
    ensures stays { (contexts : List WasiSocketsCtx) (m : Machine) (line n : ℕ)
        (entries : List Entry) (after : Machine)
        → Answered contexts m line (Step.Cancel n) entries Reply.NoSuchCall after
        → (entries ≡ []) × (after ≡ m) }
    ensures given_up { (contexts : List WasiSocketsCtx) (m : Machine) (line n : ℕ)
        (fields : List Field) (entries : List Entry) (after : Machine)
        → Answered contexts m line (Step.Cancel n) entries (Reply.Ok fields) after
        → IsSomeAnd m.store.standing (λ s. CancelsBy m entries after s.call)
        ⊎ BesideCancelled m n entries after }
    ensures none_stands { (contexts : List WasiSocketsCtx) (m : Machine) (line n : ℕ)
        (fields : List Field) (entries : List Entry) (after : Machine)
        → Answered contexts m line (Step.Cancel n) entries (Reply.Ok fields) after
        → ((after.store.standing ≡ None) × (after.table ≡ m.table))
        ⊎ BesideCancelled m n entries after }
{}
