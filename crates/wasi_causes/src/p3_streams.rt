//! What the ends of the streams of 0.3 connections and their result slots are made of, ask, answer
//! and leave: laws over the definitions of specs/. Each is a function that does nothing, whose
//! contract is the law.

ghost use Rattle.std.specs.Prelude.{◌≡◌, ℕ, List, [], Some, None, ◌↔◌};
ghost use Rattle.wasi_addr.specs.declared.address.ShutdownType.{ShutdownType};
ghost use Rattle.wasi_world.specs.declared.call.Entry.{Entry};
ghost use Rattle.wasi_world.specs.declared.outcome.TrapKind.TheVariants as TrapKind;
ghost use Rattle.wasi_world.specs.declared.outcome.WasiSocketsCtx.{WasiSocketsCtx};
ghost use Rattle.wasi_world.specs.Asks.{Give, Left};
ghost use Rattle.wasi_table.specs.Table.{children_of};
ghost use Rattle.tcp_records.specs.declared.slot.Slot.{Slot};
ghost use Rattle.tcp_records.specs.declared.socket.TcpRecord.{TcpRecord};
ghost use Rattle.wasi_records.specs.Records.{tcp2_at};
ghost use Rattle.wasi_records.specs.Records.{slot_at};
ghost use Rattle.tcp_records.specs.Slots.{StreamEnd};
ghost use Rattle.host_store.specs.declared.kind.ConnectionEnd.{ConnectionEnd};
ghost use Rattle.host_store.specs.declared.kind.Kind.{Kind};
ghost use Rattle.host_store.specs.declared.machine.Machine.{Machine};
ghost use Rattle.host_store.specs.Kinds.{kind_at};
ghost use Rattle.host_store.specs.Machine.{first_state, own_of, receive3_at, send3_at};
ghost use Rattle.wasi_machine.specs.Machine.{run};
ghost use Rattle.wasi_steps.specs.declared.guest_call.GuestCall.{GuestCall};
ghost use Rattle.wasi_steps.specs.declared.guest_call.PollableCall.{PollableCall};
ghost use Rattle.wasi_steps.specs.declared.guest_call.P3TcpCall.{P3TcpCall};
ghost use Rattle.wasi_steps.specs.declared.reply.CodeWord.{CodeWord};
ghost use Rattle.wasi_steps.specs.declared.reply.Field.{Field};
ghost use Rattle.wasi_steps.specs.declared.reply.Reply.{Reply};
ghost use Rattle.wasi_steps.specs.declared.step.Step.{Step};
ghost use Rattle.wasi_steps.specs.Reply.{no_fields};
ghost use Rattle.wasi_walks.specs.Answered.{Answered};
ghost use Rattle.wasi_causes.specs.GivenUp.{HasLiveChildren, without};
ghost use Rattle.wasi_causes.specs.P3Streams.{closing, EndAnswers, EndReads, EndWrites, IsLetGo};
ghost use Rattle.wasi_causes.specs.P3Streams.{IsUnfilled};
ghost use Rattle.wasi_causes.specs.P3Streams.{LacksRoomForEnd, MakesEnd, OfEnd, ReadEndGoes};
ghost use Rattle.wasi_causes.specs.P3Streams.{ReadEnds, ReadGivesUp, ReadIsClosed, WentIll};
ghost use Rattle.wasi_causes.specs.P3Streams.{WentWell};
ghost use Rattle.wasi_causes.specs.P3Streams.{WriteEndGoes, WriteEnds, WriteGivesUp, WriteIsClosed};
ghost use Rattle.wasi_causes.specs.Refusals.{OfTcp3};

/// What a receive, and a send, of a 0.3 socket make. They ask for nothing but two marks.
///
/// - `receives`, `sends`: an end and its result slot, which have the next two handles, whose marks
///   name the socket's as their parent, and the socket's network socket. Of a connected socket
///   whose half wasn't taken before, the half is the socket's record's from then on: the end is
///   open, and the slot unfilled. Else the end is closed, the socket is unchanged, and the slot has
///   the code of a closed socket, or `invalid-state`.
/// - `receive_stays`, `send_stays`: neither is refused.
/// - `receive_full`, `send_full`: with no room for one of the handles the half was taken all the
///   same, and the slot has its record; the end's handle is there where only that of the slot has
///   no room.
pub fn p3_ends_are_made()
    ensures receives { (contexts : List WasiSocketsCtx) (m : Machine) (line ctx handle : ℕ)
        (entries : List Entry) (fields : List Field) (after : Machine)
        → Answered contexts m line (Step.Call ctx (GuestCall.P3Tcp (P3TcpCall.Receive handle))) entries
        (Reply.Ok fields) after
        → OfTcp3 m handle (λ place r. MakesEnd m (own_of line) ShutdownType.Receive handle place r
        entries fields after) }
    ensures sends { (contexts : List WasiSocketsCtx) (m : Machine) (line ctx handle : ℕ)
        (entries : List Entry) (fields : List Field) (after : Machine)
        → Answered contexts m line (Step.Call ctx (GuestCall.P3Tcp (P3TcpCall.Send handle))) entries
        (Reply.Ok fields) after
        → OfTcp3 m handle (λ place r. MakesEnd m (own_of line) ShutdownType.Send handle place r
        entries fields after) }
    ensures receive_stays { (contexts : List WasiSocketsCtx) (m : Machine) (line ctx handle : ℕ)
        (entries : List Entry) (word : CodeWord) (after : Machine)
        → Answered contexts m line (Step.Call ctx (GuestCall.P3Tcp (P3TcpCall.Receive handle))) entries
        (Reply.Err word) after
        → ⊥ }
    ensures send_stays { (contexts : List WasiSocketsCtx) (m : Machine) (line ctx handle : ℕ)
        (entries : List Entry) (word : CodeWord) (after : Machine)
        → Answered contexts m line (Step.Call ctx (GuestCall.P3Tcp (P3TcpCall.Send handle))) entries
        (Reply.Err word) after
        → ⊥ }
    ensures receive_full { (contexts : List WasiSocketsCtx) (m : Machine) (line ctx handle : ℕ)
        (entries : List Entry) (after : Machine)
        → Answered contexts m line (Step.Call ctx (GuestCall.P3Tcp (P3TcpCall.Receive handle))) entries
        (Reply.Trap TrapKind.Full) after
        → OfTcp3 m handle (λ place r. LacksRoomForEnd m (own_of line) ShutdownType.Receive handle
        place r entries after) }
    ensures send_full { (contexts : List WasiSocketsCtx) (m : Machine) (line ctx handle : ℕ)
        (entries : List Entry) (after : Machine)
        → Answered contexts m line (Step.Call ctx (GuestCall.P3Tcp (P3TcpCall.Send handle))) entries
        (Reply.Trap TrapKind.Full) after
        → OfTcp3 m handle (λ place r. LacksRoomForEnd m (own_of line) ShutdownType.Send handle
        place r entries after) }
{}

/// What a read of an end asks, gives and leaves.
///
/// - `gives`: with room for nothing an open end is looked at once, and is ready; else these bytes
///   are what its one read was told, one at least, no more than there was room for and no more than
///   8,192. The machine is unchanged.
/// - `cancelled`: the one entry was answered pending; the machine is unchanged.
/// - `dropped`: the end was closed before, and nothing is asked; or the one read was told no bytes,
///   or a code. Then the half is released, the slot, if it is there, says that the stream went
///   well, or the code, unless it is filled; and where nothing else holds the network socket, what
///   is left of the socket is released, the network socket last.
/// - `stays`: it is never refused.
/// - `which`: of an end, while no call is pending, it is cancelled exactly where the first entry
///   was answered pending, and dropped exactly where that told no bytes or a code, or there is
///   none; and there is none exactly where the end is closed.
pub fn p3_reads()
    ensures gives { (contexts : List WasiSocketsCtx) (m : Machine) (line ctx handle len : ℕ)
        (entries : List Entry) (fields : List Field) (after : Machine)
        → Answered contexts m line (Step.Call ctx (GuestCall.P3Tcp (P3TcpCall.Read handle len))) entries
        (Reply.Ok fields) after
        → OfEnd (receive3_at m handle) (λ end. EndReads m (own_of line) len end entries fields
        after) }
    ensures cancelled { (contexts : List WasiSocketsCtx) (m : Machine) (line ctx handle len : ℕ)
        (entries : List Entry) (after : Machine)
        → Answered contexts m line (Step.Call ctx (GuestCall.P3Tcp (P3TcpCall.Read handle len))) entries
        Reply.Cancelled after
        → OfEnd (receive3_at m handle) (λ end. ReadGivesUp m (own_of line) len end entries after) }
    ensures dropped { (contexts : List WasiSocketsCtx) (m : Machine) (line ctx handle len : ℕ)
        (entries : List Entry) (after : Machine)
        → Answered contexts m line (Step.Call ctx (GuestCall.P3Tcp (P3TcpCall.Read handle len))) entries
        Reply.Dropped after
        → OfEnd (receive3_at m handle) (λ end. ReadEnds m (own_of line) len end entries after) }
    ensures stays { (contexts : List WasiSocketsCtx) (m : Machine) (line ctx handle len : ℕ)
        (entries : List Entry) (word : CodeWord) (after : Machine)
        → Answered contexts m line (Step.Call ctx (GuestCall.P3Tcp (P3TcpCall.Read handle len))) entries
        (Reply.Err word) after
        → ⊥ }
    ensures which { (contexts : List WasiSocketsCtx) (m : Machine) (line ctx handle len : ℕ)
        (end : ConnectionEnd) (entries : List Entry) (reply : Reply) (after : Machine)
        → m.store.standing ≡ None → receive3_at m handle ≡ Some end
        → Answered contexts m line (Step.Call ctx (GuestCall.P3Tcp (P3TcpCall.Read handle len))) entries reply after
        → EndAnswers entries reply (ReadIsClosed m end) }
{}

/// What a write of an end asks, gives and leaves.
///
/// - `gives`: with no bytes an open end is looked at once, and is ready; else so many bytes, one at
///   least, are what its one write took from their front. The machine is unchanged.
/// - `cancelled`: the one entry was answered pending; the machine is unchanged, so that the write
///   is no job.
/// - `dropped`: the end was closed before, and nothing is asked; or the one write was told a code.
///   Then the end is closed, as by a read that is told one.
/// - `stays`: it is never refused.
/// - `which`: of an end, while no call is pending, it is cancelled exactly where the first entry
///   was answered pending, and dropped exactly where that told a code, or there is none; and there
///   is none exactly where the end is closed.
pub fn p3_writes()
    ensures gives { (contexts : List WasiSocketsCtx) (m : Machine) (line ctx handle : ℕ)
        (bytes : List ℕ) (entries : List Entry) (fields : List Field) (after : Machine)
        → Answered contexts m line (Step.Call ctx (GuestCall.P3Tcp (P3TcpCall.Write handle bytes))) entries
        (Reply.Ok fields) after
        → OfEnd (send3_at m handle) (λ end. EndWrites m (own_of line) bytes end entries fields
        after) }
    ensures cancelled { (contexts : List WasiSocketsCtx) (m : Machine) (line ctx handle : ℕ)
        (bytes : List ℕ) (entries : List Entry) (after : Machine)
        → Answered contexts m line (Step.Call ctx (GuestCall.P3Tcp (P3TcpCall.Write handle bytes))) entries
        Reply.Cancelled after
        → OfEnd (send3_at m handle) (λ end. WriteGivesUp m (own_of line) bytes end entries after) }
    ensures dropped { (contexts : List WasiSocketsCtx) (m : Machine) (line ctx handle : ℕ)
        (bytes : List ℕ) (entries : List Entry) (after : Machine)
        → Answered contexts m line (Step.Call ctx (GuestCall.P3Tcp (P3TcpCall.Write handle bytes))) entries
        Reply.Dropped after
        → OfEnd (send3_at m handle) (λ end. WriteEnds m (own_of line) bytes end entries after) }
    ensures stays { (contexts : List WasiSocketsCtx) (m : Machine) (line ctx handle : ℕ)
        (bytes : List ℕ) (entries : List Entry) (word : CodeWord) (after : Machine)
        → Answered contexts m line (Step.Call ctx (GuestCall.P3Tcp (P3TcpCall.Write handle bytes))) entries
        (Reply.Err word) after
        → ⊥ }
    ensures which { (contexts : List WasiSocketsCtx) (m : Machine) (line ctx handle : ℕ)
        (bytes : List ℕ) (end : ConnectionEnd) (entries : List Entry) (reply : Reply)
        (after : Machine)
        → m.store.standing ≡ None → send3_at m handle ≡ Some end
        → Answered contexts m line (Step.Call ctx (GuestCall.P3Tcp (P3TcpCall.Write handle bytes))) entries reply
        after
        → EndAnswers entries reply (WriteIsClosed m end) }
{}

/// What the take of a result answers and leaves. It asks nothing.
///
/// - `well`: its slot says that the stream went well; the handle goes, and nothing is left of the
///   slot.
/// - `ill`: its slot has the code of this word; the same goes.
/// - `unfilled`: while no call is pending it answers so exactly where its slot is unfilled.
/// - `unfilled_stays`: the machine is unchanged then.
/// - `quiet`: nothing is asked.
/// - `has_children`, `never`: it traps with `HasChildren` only where its handle has live children,
///   and in a run it never does.
pub fn p3_results()
    ensures well { (contexts : List WasiSocketsCtx) (m : Machine) (line ctx handle : ℕ)
        (entries : List Entry) (fields : List Field) (after : Machine)
        → Answered contexts m line (Step.Call ctx (GuestCall.P3Tcp (P3TcpCall.Result handle))) entries
        (Reply.Ok fields) after
        → WentWell m handle entries after }
    ensures ill { (contexts : List WasiSocketsCtx) (m : Machine) (line ctx handle : ℕ)
        (entries : List Entry) (word : CodeWord) (after : Machine)
        → Answered contexts m line (Step.Call ctx (GuestCall.P3Tcp (P3TcpCall.Result handle))) entries
        (Reply.Err word) after
        → WentIll m handle entries word after }
    ensures unfilled { (contexts : List WasiSocketsCtx) (m : Machine) (line ctx handle : ℕ)
        (entries : List Entry) (reply : Reply) (after : Machine)
        → m.store.standing ≡ None
        → Answered contexts m line (Step.Call ctx (GuestCall.P3Tcp (P3TcpCall.Result handle))) entries reply after
        → (reply ≡ Reply.Unfilled) ↔ IsUnfilled m handle }
    ensures unfilled_stays { (contexts : List WasiSocketsCtx) (m : Machine) (line ctx handle : ℕ)
        (entries : List Entry) (after : Machine)
        → Answered contexts m line (Step.Call ctx (GuestCall.P3Tcp (P3TcpCall.Result handle))) entries
        Reply.Unfilled after
        → after ≡ m }
    ensures quiet { (contexts : List WasiSocketsCtx) (m : Machine) (line ctx handle : ℕ)
        (entries : List Entry) (reply : Reply) (after : Machine)
        → Answered contexts m line (Step.Call ctx (GuestCall.P3Tcp (P3TcpCall.Result handle))) entries reply after
        → entries ≡ [] }
    ensures has_children { (contexts : List WasiSocketsCtx) (m : Machine) (line ctx handle : ℕ)
        (entries : List Entry) (after : Machine)
        → Answered contexts m line (Step.Call ctx (GuestCall.P3Tcp (P3TcpCall.Result handle))) entries
        (Reply.Trap TrapKind.HasChildren) after
        → HasLiveChildren m handle }
    ensures never { (contexts : List WasiSocketsCtx) (steps : List Step) (log : List Entry)
        (replies : List Reply) (m : Machine) (line ctx handle : ℕ) (entries : List Entry)
        (after : Machine)
        → Left (run contexts [] first_state 1 steps) log (Give (replies, m))
        → Answered contexts m line (Step.Call ctx (GuestCall.P3Tcp (P3TcpCall.Result handle))) entries
        (Reply.Trap TrapKind.HasChildren) after
        → ⊥ }
{}

/// What a drop of an end, or of its result slot, releases.
///
/// - `receives`, `sends`: of a closed end its handle goes, and nothing is asked. An open one is
///   closed, as by a read or a write that is told the end of the stream.
/// - `result`: nothing is asked, and nothing is left of the slot.
/// - `receive_done`, `send_done`, `result_done`: without live children it is done; that is said
///   where no call is pending. In runs there are none
///   (`what_is_not_watched_has_no_children`).
pub fn p3_ends_are_dropped()
    ensures receives { (contexts : List WasiSocketsCtx) (m : Machine) (line ctx handle : ℕ)
        (end : ConnectionEnd) (fields : List Field) (entries : List Entry) (after : Machine)
        → kind_at m.table handle ≡ Some (Kind.Receive3 end)
        → Answered contexts m line (Step.Call ctx (GuestCall.Pollable (PollableCall.Drop handle))) entries
        (Reply.Ok fields) after
        → ReadEndGoes (without m handle) (own_of line) end entries after }
    ensures sends { (contexts : List WasiSocketsCtx) (m : Machine) (line ctx handle : ℕ)
        (end : ConnectionEnd) (fields : List Field) (entries : List Entry) (after : Machine)
        → kind_at m.table handle ≡ Some (Kind.Send3 end)
        → Answered contexts m line (Step.Call ctx (GuestCall.Pollable (PollableCall.Drop handle))) entries
        (Reply.Ok fields) after
        → WriteEndGoes (without m handle) (own_of line) end entries after }
    ensures result { (contexts : List WasiSocketsCtx) (m : Machine) (line ctx handle place : ℕ)
        (s : Slot) (fields : List Field) (entries : List Entry) (after : Machine)
        → kind_at m.table handle ≡ Some (Kind.Result3 place)
        → slot_at m.store.records place ≡ Some s
        → Answered contexts m line (Step.Call ctx (GuestCall.Pollable (PollableCall.Drop handle))) entries
        (Reply.Ok fields) after
        → (entries ≡ []) × IsLetGo (without m handle) place after }
    ensures receive_done { (contexts : List WasiSocketsCtx) (m : Machine) (line ctx handle : ℕ)
        (end : ConnectionEnd) (entries : List Entry) (reply : Reply) (after : Machine)
        → m.store.standing ≡ None → kind_at m.table handle ≡ Some (Kind.Receive3 end)
        → children_of m.table.live handle ≡ []
        → Answered contexts m line (Step.Call ctx (GuestCall.Pollable (PollableCall.Drop handle))) entries reply after
        → reply ≡ Reply.Ok no_fields }
    ensures send_done { (contexts : List WasiSocketsCtx) (m : Machine) (line ctx handle : ℕ)
        (end : ConnectionEnd) (entries : List Entry) (reply : Reply) (after : Machine)
        → m.store.standing ≡ None → kind_at m.table handle ≡ Some (Kind.Send3 end)
        → children_of m.table.live handle ≡ []
        → Answered contexts m line (Step.Call ctx (GuestCall.Pollable (PollableCall.Drop handle))) entries reply after
        → reply ≡ Reply.Ok no_fields }
    ensures result_done { (contexts : List WasiSocketsCtx) (m : Machine) (line ctx handle : ℕ)
        (place : ℕ) (entries : List Entry) (reply : Reply) (after : Machine)
        → m.store.standing ≡ None → kind_at m.table handle ≡ Some (Kind.Result3 place)
        → children_of m.table.live handle ≡ []
        → Answered contexts m line (Step.Call ctx (GuestCall.Pollable (PollableCall.Drop handle))) entries reply after
        → reply ≡ Reply.Ok no_fields }
{}

/// What an end that is closed leaves of its slot and of all others.
///
/// - `fills`: its own, where that is unfilled, says what became of the stream.
/// - `once`: a filled one, its own or another, stays as it is.
pub fn slots_are_filled_once()
    ensures fills { (m : Machine) (how : ShutdownType) (slot place : ℕ) (r : TcpRecord)
        (ended : StreamEnd) → tcp2_at m.store.records place ≡ Some r
        → slot_at m.store.records slot ≡ Some Slot.Unfilled
        → slot_at (closing m how slot place r ended).store.records slot
        ≡ Some (Slot.Filled ended) }
    ensures once { (m : Machine) (how : ShutdownType) (slot place k : ℕ) (r : TcpRecord)
        (ended before : StreamEnd) → tcp2_at m.store.records place ≡ Some r
        → slot_at m.store.records k ≡ Some (Slot.Filled before)
        → slot_at (closing m how slot place r ended).store.records k ≡ Some (Slot.Filled before) }
{}
