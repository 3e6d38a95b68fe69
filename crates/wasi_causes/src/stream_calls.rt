//! Where the answers of calls of streams that don't block come from, and what is left afterwards:
//! laws over the definitions of specs/. Each is a function that does nothing, whose contract is the
//! law. A stream is that of a connection, or one in memory: a pipe's end, a sink, or a closed one.
//! For a stream in memory nothing is asked but the entry of its handle.

ghost use Rattle.std.specs.Prelude.{◌≡◌, ◌↔◌, ◌⊎◌, ℕ, true, List, [], ◌∷◌, length, IfSome};
ghost use Rattle.std.specs.Prelude.{IsSomeAnd, Some, None};
ghost use Rattle.wasi_world.specs.declared.call.Entry.{Entry};
ghost use Rattle.wasi_world.specs.declared.outcome.TrapKind.{TrapKind};
ghost use Rattle.wasi_world.specs.declared.outcome.WasiSocketsCtx.{WasiSocketsCtx};
ghost use Rattle.memory_streams.specs.Plain.{no_contents};
ghost use Rattle.wasi_tcp.specs.declared.writer.WriteError.{WriteError};
ghost use Rattle.wasi_streams.specs.Streams.{zeros};
ghost use Rattle.wasi_table.specs.Table.{is_full};
ghost use Rattle.host_store.specs.declared.kind.Kind.{Kind};
ghost use Rattle.host_store.specs.declared.kind.PlainInput.{PlainInput};
ghost use Rattle.host_store.specs.declared.kind.PlainOutput.{PlainOutput};
ghost use Rattle.host_store.specs.declared.machine.Machine.{Machine};
ghost use Rattle.wasi_records.specs.declared.records.Record.{Record};
ghost use Rattle.host_store.specs.Limits.{most_of};
ghost use Rattle.host_store.specs.Machine.{input_at, output_at, own_of};
ghost use Rattle.host_streams.specs.PlainStreams.{with_record_more};
ghost use Rattle.host_streams.specs.StreamCalls.{plain_output_at};
ghost use Rattle.wasi_steps.specs.declared.reply.CodeWord.{CodeWord};
ghost use Rattle.wasi_steps.specs.declared.reply.Field.{Field};
ghost use Rattle.wasi_steps.specs.declared.reply.Reply.{Reply};
ghost use Rattle.wasi_steps.specs.declared.guest_call.GuestCall.{GuestCall};
ghost use Rattle.wasi_steps.specs.declared.guest_call.StreamCall.{StreamCall};
ghost use Rattle.wasi_steps.specs.declared.guest_call.PipeCall.{PipeCall};
ghost use Rattle.wasi_steps.specs.declared.step.Step.{Step};
ghost use Rattle.wasi_steps.specs.Reply.{bytes_fields, number_fields};
ghost use Rattle.wasi_walks.specs.Answered.{Answered, CheckFails, closing_reader, closing_writer};
ghost use Rattle.wasi_walks.specs.Answered.{FailsWith, IsGivenUp, IsUnpermitted, OfStreams};
ghost use Rattle.wasi_walks.specs.Answered.{output_streams, Permits, ReadFails, ReadsEnd};
ghost use Rattle.wasi_walks.specs.Answered.{ReadsNone, ReadsTold, WasClosedWith, with_error};
ghost use Rattle.wasi_walks.specs.Answered.{WriteFails};
ghost use Rattle.wasi_walks.specs.Missing.{pipe_of};
ghost use Rattle.wasi_causes.specs.ErrorMarks.{MarksItsSocket};
ghost use Rattle.wasi_causes.specs.Parts.{Skips, Splices};
ghost use Rattle.wasi_causes.specs.Plain.{EndsCheck, EndsOutput, EndsPlain, MakesPlain};
ghost use Rattle.wasi_causes.specs.Plain.{MakesStream, OfOutputPipe, PastCapacity, PermitsPlain};
ghost use Rattle.wasi_causes.specs.Plain.{PlainCheck, PlainFlush, PlainRead, PlainWrite};
ghost use Rattle.wasi_causes.specs.Plain.{TakesFront, TakesNothing, WritesPlain};
ghost use Rattle.wasi_causes.specs.WholeLimit.{PermitsNone};

/// Where the bytes of a read come from.
///
/// - `told`: bytes that a read of a connection hands out are the answer to its one call, a read of
///   the open half, and the machine is unchanged; those of a pipe stood first in it, no more than
///   were wanted, and the pipe keeps the others.
/// - `none`: where a read hands out no bytes, it is a connection's with nothing yet, and the
///   machine is unchanged; or none were wanted of a pipe.
pub fn reads_hand_out_what_was_told()
    ensures told { (contexts : List WasiSocketsCtx) (m : Machine) (line ctx input len b : ℕ)
        (bytes : List ℕ) (entries : List Entry) (after : Machine)
        → Answered contexts m line (Step.Call ctx (GuestCall.Stream (StreamCall.Read input len))) entries
        (Reply.Ok (bytes_fields (b ∷ bytes))) after
        → (OfStreams m (input_at m input) (λ place r s. ReadsTold (own_of line) len s.reader
        (b ∷ bytes) entries) × (after ≡ m)) ⊎ TakesFront m input len (b ∷ bytes) entries after }
    ensures none { (contexts : List WasiSocketsCtx) (m : Machine) (line ctx input len : ℕ)
        (entries : List Entry) (after : Machine)
        → Answered contexts m line (Step.Call ctx (GuestCall.Stream (StreamCall.Read input len))) entries
        (Reply.Ok (bytes_fields [])) after
        → (OfStreams m (input_at m input) (λ place r s. ReadsNone (own_of line) len s.reader
        entries) × (after ≡ m)) ⊎ TakesNothing m input len entries after }
{}

/// How a read ends or fails.
///
/// - `closed`: the reader of the connection is closed, or its read was answered with no bytes, and
///   then the half is released and the reader closed; or the stream in memory is closed, or is a
///   pipe with nothing left.
/// - `failed`: the read of the connection was answered with that code. The half is released, the
///   reader is closed, and the error's handle is the last entry.
/// - `plain`: a stream in memory is `closed` exactly then; a read of it asks nothing and never
///   fails.
pub fn reads_end()
    ensures closed { (contexts : List WasiSocketsCtx) (m : Machine) (line ctx input len : ℕ)
        (entries : List Entry) (after : Machine)
        → Answered contexts m line (Step.Call ctx (GuestCall.Stream (StreamCall.Read input len))) entries Reply.Closed
        after
        → OfStreams m (input_at m input) (λ place r s. ReadsEnd (own_of line) len s.reader entries
        × (after ≡ closing_reader m place r s)) ⊎ EndsPlain m input entries after }
    ensures failed { (contexts : List WasiSocketsCtx) (m : Machine) (line ctx input len : ℕ)
        (entries : List Entry) (word : CodeWord) (handle : ℕ) (after : Machine)
        → Answered contexts m line (Step.Call ctx (GuestCall.Stream (StreamCall.Read input len))) entries
        (Reply.Failed word handle) after
        → OfStreams m (input_at m input) (λ place r s. FailsWith m (own_of line) input
        (ReadFails (own_of line) len s.reader) entries word handle
        × (after ≡ with_error (closing_reader m place r s))) }
    ensures plain { (contexts : List WasiSocketsCtx) (m : Machine) (line ctx input len : ℕ)
        (entries : List Entry) (reply : Reply) (after : Machine)
        → m.store.standing ≡ None
        → Answered contexts m line (Step.Call ctx (GuestCall.Stream (StreamCall.Read input len))) entries reply after
        → PlainRead m input entries reply }
{}

/// Which network socket the error of a failed call is marked with.
///
/// - `read`, `check`, `write`, `flush`: the last entry of a call that fails marks the next handle
///   as an error's, under the stream's handle, with the network socket that the stream's record was
///   made with.
pub fn errors_are_marked_with_their_socket()
    ensures read { (contexts : List WasiSocketsCtx) (m : Machine) (line ctx stream len : ℕ)
        (entries : List Entry) (word : CodeWord) (handle : ℕ) (after : Machine)
        → Answered contexts m line (Step.Call ctx (GuestCall.Stream (StreamCall.Read stream len))) entries
        (Reply.Failed word handle) after → MarksItsSocket m (own_of line) stream (input_at m stream)
        entries }
    ensures check { (contexts : List WasiSocketsCtx) (m : Machine) (line ctx stream : ℕ)
        (entries : List Entry) (word : CodeWord) (handle : ℕ) (after : Machine)
        → Answered contexts m line (Step.Call ctx (GuestCall.Stream (StreamCall.CheckWrite stream))) entries
        (Reply.Failed word handle) after → MarksItsSocket m (own_of line) stream
        (output_at m stream) entries }
    ensures write { (contexts : List WasiSocketsCtx) (m : Machine) (line ctx stream : ℕ)
        (bytes : List ℕ) (entries : List Entry) (word : CodeWord) (handle : ℕ) (after : Machine)
        → Answered contexts m line (Step.Call ctx (GuestCall.Stream (StreamCall.Write stream bytes))) entries
        (Reply.Failed word handle) after → MarksItsSocket m (own_of line) stream
        (output_at m stream) entries }
    ensures flush { (contexts : List WasiSocketsCtx) (m : Machine) (line ctx stream : ℕ)
        (entries : List Entry) (word : CodeWord) (handle : ℕ) (after : Machine)
        → Answered contexts m line (Step.Call ctx (GuestCall.Stream (StreamCall.Flush stream))) entries
        (Reply.Failed word handle) after
        → MarksItsSocket m (own_of line) stream (output_at m stream) entries }
{}

/// How much may be written.
///
/// - `permits`: a permit of a connection is 0 where its write isn't finished or its look was
///   answered pending. Else it is what the other writers of the context that made its socket leave
///   of that context's limit, and at most 65,536. That of a sink is 65,536, and that of a pipe is
///   the room that it has, at least 1.
/// - `none`: a permit of 0 is of a connection. An earlier write is in progress, the look was answered
///   pending, or the writer is ready and the other writers of the context that made its socket use
///   that context's whole limit.
pub fn permits_have_causes()
    ensures permits { (contexts : List WasiSocketsCtx) (m : Machine) (line ctx output n : ℕ)
        (entries : List Entry) (after : Machine)
        → Answered contexts m line (Step.Call ctx (GuestCall.Stream (StreamCall.CheckWrite output))) entries
        (Reply.Ok (number_fields n)) after
        → OfStreams m (output_at m output)
        (λ place r s. Permits (own_of line) s.writer (most_of m.store r) n entries)
        ⊎ IsSomeAnd (plain_output_at m output) (λ o. PermitsPlain m o n) }
    ensures none { (contexts : List WasiSocketsCtx) (m : Machine) (line ctx output : ℕ)
        (entries : List Entry) (after : Machine)
        → Answered contexts m line (Step.Call ctx (GuestCall.Stream (StreamCall.CheckWrite output))) entries
        (Reply.Ok (number_fields 0)) after
        → OfStreams m (output_at m output)
        (λ place r s. PermitsNone m.store r (own_of line) s.writer entries) }
{}

/// A write of more than its permit traps.
///
/// - `exactly`: a write traps with `NotPermitted` exactly where its bytes are more than the permit
///   of a connection, or an earlier write isn't collected yet; that is said where no call is
///   pending.
/// - `stays`: nothing is asked then, and the machine is unchanged.
pub fn writes_past_the_permit_trap()
    ensures exactly { (contexts : List WasiSocketsCtx) (m : Machine) (line ctx output : ℕ)
        (bytes : List ℕ) (entries : List Entry) (reply : Reply) (after : Machine)
        → m.store.standing ≡ None
        → Answered contexts m line (Step.Call ctx (GuestCall.Stream (StreamCall.Write output bytes))) entries reply
        after
        → (reply ≡ Reply.Trap TrapKind.NotPermitted)
        ↔ IsSomeAnd (output_streams m output) (λ s. IsUnpermitted s.writer (length bytes)) }
    ensures stays { (contexts : List WasiSocketsCtx) (m : Machine) (line ctx output : ℕ)
        (bytes : List ℕ) (entries : List Entry) (after : Machine)
        → Answered contexts m line (Step.Call ctx (GuestCall.Stream (StreamCall.Write output bytes))) entries
        (Reply.Trap TrapKind.NotPermitted) after → (entries ≡ []) × (after ≡ m) }
{}

/// A write of more than its pipe has room for traps.
///
/// - `exactly`: a write traps with `Capacity` exactly where its output is a pipe with less room;
///   that is said where no call is pending.
/// - `stays`: nothing is asked then, and the machine is unchanged.
pub fn writes_past_the_capacity_trap()
    ensures exactly { (contexts : List WasiSocketsCtx) (m : Machine) (line ctx output : ℕ)
        (bytes : List ℕ) (entries : List Entry) (reply : Reply) (after : Machine)
        → m.store.standing ≡ None
        → Answered contexts m line (Step.Call ctx (GuestCall.Stream (StreamCall.Write output bytes))) entries reply
        after
        → PastCapacity m output (length bytes) reply }
    ensures stays { (contexts : List WasiSocketsCtx) (m : Machine) (line ctx output : ℕ)
        (bytes : List ℕ) (entries : List Entry) (after : Machine)
        → Answered contexts m line (Step.Call ctx (GuestCall.Stream (StreamCall.Write output bytes))) entries
        (Reply.Trap TrapKind.Capacity) after → (entries ≡ []) × (after ≡ m) }
{}

/// A flush only reports an error that is kept.
///
/// - `done`: one that is done asked nothing, and the machine is unchanged.
/// - `closed`: the writer of the connection was given up, and nothing is asked; or the output in
///   memory is closed.
/// - `failed`: the writer of the connection is closed with that code; the one entry is the error's
///   handle.
/// - `plain`: an output in memory answers `closed` exactly where it is closed.
pub fn flushes_tell_the_kept_error()
    ensures done { (contexts : List WasiSocketsCtx) (m : Machine) (line ctx output : ℕ)
        (fields : List Field) (entries : List Entry) (after : Machine)
        → Answered contexts m line (Step.Call ctx (GuestCall.Stream (StreamCall.Flush output))) entries
        (Reply.Ok fields) after
        → (entries ≡ []) × (after ≡ m) }
    ensures closed { (contexts : List WasiSocketsCtx) (m : Machine) (line ctx output : ℕ)
        (entries : List Entry) (after : Machine)
        → Answered contexts m line (Step.Call ctx (GuestCall.Stream (StreamCall.Flush output))) entries Reply.Closed
        after
        → (OfStreams m (output_at m output) (λ place r s. IsGivenUp s.writer) × (entries ≡ [])
        × (after ≡ m)) ⊎ EndsOutput m output entries after }
    ensures failed { (contexts : List WasiSocketsCtx) (m : Machine) (line ctx output : ℕ)
        (entries : List Entry) (word : CodeWord) (handle : ℕ) (after : Machine)
        → Answered contexts m line (Step.Call ctx (GuestCall.Stream (StreamCall.Flush output))) entries
        (Reply.Failed word handle) after
        → OfStreams m (output_at m output) (λ place r s. FailsWith m (own_of line) output
        (WasClosedWith s.writer) entries word handle) × (after ≡ with_error m) }
    ensures plain { (contexts : List WasiSocketsCtx) (m : Machine) (line ctx output : ℕ)
        (entries : List Entry) (reply : Reply) (after : Machine)
        → m.store.standing ≡ None
        → Answered contexts m line (Step.Call ctx (GuestCall.Stream (StreamCall.Flush output))) entries reply after
        → PlainFlush m output entries reply after }
{}

/// How a look at the permit ends or fails.
///
/// - `closed`, `failed`: the writer of the connection is closed with that error, once a write that
///   ended is collected. Nothing is asked but the entry of the error's handle.
/// - `closed`, `plain`: an output in memory is `closed` exactly where it is closed, or is a full
///   pipe, and nothing changes.
pub fn checks_tell_the_kept_error()
    ensures closed { (contexts : List WasiSocketsCtx) (m : Machine) (line ctx output : ℕ)
        (entries : List Entry) (after : Machine)
        → Answered contexts m line (Step.Call ctx (GuestCall.Stream (StreamCall.CheckWrite output))) entries
        Reply.Closed after
        → OfStreams m (output_at m output) (λ place r s. CheckFails WriteError.Closed s.writer
        entries × (after ≡ closing_writer m place r s WriteError.Closed))
        ⊎ EndsCheck m output entries after }
    ensures failed { (contexts : List WasiSocketsCtx) (m : Machine) (line ctx output : ℕ)
        (entries : List Entry) (word : CodeWord) (handle : ℕ) (after : Machine)
        → Answered contexts m line (Step.Call ctx (GuestCall.Stream (StreamCall.CheckWrite output))) entries
        (Reply.Failed word handle) after
        → OfStreams m (output_at m output) (λ place r s. FailsWith m (own_of line) output
        (λ c before. CheckFails (WriteError.LastOperationFailed c) s.writer before
        × (after ≡ with_error (closing_writer m place r s (WriteError.LastOperationFailed c))))
        entries word handle) }
    ensures plain { (contexts : List WasiSocketsCtx) (m : Machine) (line ctx output : ℕ)
        (entries : List Entry) (reply : Reply) (after : Machine)
        → m.store.standing ≡ None
        → Answered contexts m line (Step.Call ctx (GuestCall.Stream (StreamCall.CheckWrite output))) entries reply after
        → PlainCheck m output entries reply after }
{}

/// How a write ends or fails, and what it leaves in a stream in memory.
///
/// - `closed`, `failed`: the writer of the connection is closed with that error; or the write was
///   answered with that code, and then its last calls are that write and the shutdown of its half.
///   The writer is closed with the error then.
/// - `closed`, `plain`: an output in memory is `closed` exactly where it is closed; nothing is
///   asked.
/// - `taken`: after a write that is done a pipe holds its bytes behind those that it held, and a
///   sink holds nothing.
pub fn writes_tell_their_error()
    ensures closed { (contexts : List WasiSocketsCtx) (m : Machine) (line ctx output : ℕ)
        (bytes : List ℕ) (entries : List Entry) (after : Machine)
        → Answered contexts m line (Step.Call ctx (GuestCall.Stream (StreamCall.Write output bytes))) entries
        Reply.Closed after
        → OfStreams m (output_at m output) (λ place r s. WriteFails (own_of line) WriteError.Closed
        s.writer entries × (after ≡ closing_writer m place r s WriteError.Closed))
        ⊎ EndsOutput m output entries after }
    ensures failed { (contexts : List WasiSocketsCtx) (m : Machine) (line ctx output : ℕ)
        (bytes : List ℕ) (entries : List Entry) (word : CodeWord) (handle : ℕ) (after : Machine)
        → Answered contexts m line (Step.Call ctx (GuestCall.Stream (StreamCall.Write output bytes))) entries
        (Reply.Failed word handle) after
        → OfStreams m (output_at m output) (λ place r s. FailsWith m (own_of line) output
        (λ c before. WriteFails (own_of line) (WriteError.LastOperationFailed c) s.writer before
        × (after ≡ with_error (closing_writer m place r s (WriteError.LastOperationFailed c))))
        entries word handle) }
    ensures plain { (contexts : List WasiSocketsCtx) (m : Machine) (line ctx output : ℕ)
        (bytes : List ℕ) (entries : List Entry) (reply : Reply) (after : Machine)
        → m.store.standing ≡ None
        → Answered contexts m line (Step.Call ctx (GuestCall.Stream (StreamCall.Write output bytes))) entries reply
        after
        → PlainWrite m output entries reply }
    ensures taken { (contexts : List WasiSocketsCtx) (m : Machine) (line ctx output : ℕ)
        (bytes : List ℕ) (fields : List Field) (entries : List Entry) (after : Machine)
        → Answered contexts m line (Step.Call ctx (GuestCall.Stream (StreamCall.Write output bytes))) entries
        (Reply.Ok fields) after
        → IfSome (plain_output_at m output) (λ o. WritesPlain m o bytes after) }
{}

/// A pipe's end, a sink and a closed stream get the next handle, and their one entry logs it.
///
/// - `pipe_in`: the end that is read holds the step's bytes.
/// - `pipe_out`: the end that is written holds none, and has the step's capacity.
/// - `sink`, `closed_in`, `closed_out`: these have no record.
/// - `full`: where the table is full nothing is asked or made.
pub fn pipes_are_made()
    ensures pipe_in { (contexts : List WasiSocketsCtx) (m : Machine) (line ctx : ℕ) (bytes : List ℕ)
        (fields : List Field) (entries : List Entry) (after : Machine)
        → Answered contexts m line (Step.Call ctx (GuestCall.Pipe (PipeCall.In bytes))) entries
        (Reply.Ok fields) after
        → MakesPlain m line (Kind.PlainInput (PlainInput.Pipe (length m.store.records)))
        (with_record_more m.store (Record.InputPipe bytes)) entries fields after }
    ensures pipe_out { (contexts : List WasiSocketsCtx) (m : Machine) (line ctx capacity : ℕ)
        (fields : List Field) (entries : List Entry) (after : Machine)
        → Answered contexts m line (Step.Call ctx (GuestCall.Pipe (PipeCall.Out capacity))) entries
        (Reply.Ok fields) after
        → MakesPlain m line (Kind.PlainOutput (PlainOutput.Pipe (length m.store.records)))
        (with_record_more m.store (Record.OutputPipe (no_contents capacity))) entries fields
        after }
    ensures sink { (contexts : List WasiSocketsCtx) (m : Machine) (line ctx : ℕ)
        (fields : List Field) (entries : List Entry) (after : Machine)
        → Answered contexts m line (Step.Call ctx (GuestCall.Pipe PipeCall.Sink)) entries (Reply.Ok fields) after
        → MakesPlain m line (Kind.PlainOutput PlainOutput.Sink) m.store entries fields after }
    ensures closed_in { (contexts : List WasiSocketsCtx) (m : Machine) (line ctx : ℕ)
        (fields : List Field) (entries : List Entry) (after : Machine)
        → Answered contexts m line (Step.Call ctx (GuestCall.Pipe PipeCall.ClosedIn)) entries (Reply.Ok fields)
        after
        → MakesPlain m line (Kind.PlainInput PlainInput.Closed) m.store entries fields after }
    ensures closed_out { (contexts : List WasiSocketsCtx) (m : Machine) (line ctx : ℕ)
        (fields : List Field) (entries : List Entry) (after : Machine)
        → Answered contexts m line (Step.Call ctx (GuestCall.Pipe PipeCall.ClosedOut)) entries (Reply.Ok fields)
        after
        → MakesPlain m line (Kind.PlainOutput PlainOutput.Closed) m.store entries fields after }
    ensures full { (contexts : List WasiSocketsCtx) (m : Machine) (line : ℕ) (s : Step)
        (entries : List Entry) (after : Machine)
        → MakesStream s → Answered contexts m line s entries (Reply.Trap TrapKind.Full) after
        → (is_full m.table ≡ true) × (entries ≡ []) × (after ≡ m) }
{}

/// What `pipe-contents` answers.
///
/// - `told`: `pipe-contents` answers with what the pipe holds.
/// - `exactly`: it traps with `NoSuchHandle` exactly where the handle is no pipe's that is written;
///   that is said where no call is pending.
/// - `quiet`: nothing is asked, and the machine is unchanged.
pub fn contents_are_told()
    ensures told { (contexts : List WasiSocketsCtx) (m : Machine) (line ctx output : ℕ)
        (fields : List Field) (entries : List Entry) (after : Machine)
        → Answered contexts m line (Step.Call ctx (GuestCall.Pipe (PipeCall.Contents output))) entries
        (Reply.Ok fields) after
        → OfOutputPipe m output (λ place pipe. fields ≡ bytes_fields pipe.held) }
    ensures exactly { (contexts : List WasiSocketsCtx) (m : Machine) (line ctx output : ℕ)
        (entries : List Entry) (reply : Reply) (after : Machine)
        → m.store.standing ≡ None
        → Answered contexts m line (Step.Call ctx (GuestCall.Pipe (PipeCall.Contents output))) entries reply
        after
        → (reply ≡ Reply.Trap TrapKind.NoSuchHandle)
        ↔ (pipe_of m (plain_output_at m output) ≡ None) }
    ensures quiet { (contexts : List WasiSocketsCtx) (m : Machine) (line ctx output : ℕ)
        (entries : List Entry) (reply : Reply) (after : Machine)
        → Answered contexts m line (Step.Call ctx (GuestCall.Pipe (PipeCall.Contents output))) entries reply
        after
        → (entries ≡ []) × (after ≡ m) }
{}

/// A skip of so many bytes is a read of so many that answers with the number of bytes in their
/// place.
pub fn skips_are_reads()
    ensures { (contexts : List WasiSocketsCtx) (m : Machine) (line ctx input len : ℕ)
        (entries : List Entry) (reply : Reply) (after : Machine)
        → m.store.standing ≡ None
        → Answered contexts m line (Step.Call ctx (GuestCall.Stream (StreamCall.Skip input len))) entries reply after
        → Skips contexts m line ctx input len entries reply after }
{}

/// A write of so many zeros is a write of those bytes.
pub fn zeros_are_written()
    ensures { (contexts : List WasiSocketsCtx) (m : Machine) (line ctx output len : ℕ)
        (entries : List Entry) (reply : Reply) (after : Machine)
        → m.store.standing ≡ None
        → Answered contexts m line (Step.Call ctx (GuestCall.Stream (StreamCall.WriteZeroes output len))) entries reply
        after
        → Answered contexts m line (Step.Call ctx (GuestCall.Stream (StreamCall.Write output (zeros len)))) entries
        reply after }
{}

/// A splice traps, and asks nothing, where one of its handles isn't an output's or an input's. Else
/// it looks at the permit, reads no more than that and than was wanted, and writes what it read. A
/// part that gives nothing ends it. It answers with how many bytes it wrote.
pub fn splices_are_their_parts()
    ensures { (contexts : List WasiSocketsCtx) (m : Machine) (line ctx to from len : ℕ)
        (entries : List Entry) (reply : Reply) (after : Machine)
        → m.store.standing ≡ None
        → Answered contexts m line (Step.Call ctx (GuestCall.Stream (StreamCall.Splice to from len))) entries reply
        after
        → Splices contexts m line ctx to from len entries reply after }
{}
