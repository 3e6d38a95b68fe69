//! Laws about the definitions that contracts cite.

ghost use Rattle.std.specs.Prelude.{◌≡◌, ◌≤◌, ℕ, min, List, [], length, Result, Ok, Err};
ghost use Rattle.wasi_addr.specs.declared.address.IpSocketAddress.{IpSocketAddress};
ghost use Rattle.wasi_world.specs.declared.ids.OpId.{OpId};
ghost use Rattle.wasi_world.specs.declared.call.Entry.{Entry};
ghost use Rattle.wasi_world.specs.declared.outcome.Answer.{Answer};
ghost use Rattle.wasi_world.specs.Asks.{Asks, Give, Left};
ghost use Rattle.wasi_streams.specs.StreamStop.{StreamStop};
ghost use Rattle.wasi_tcp.specs.declared.halves.TcpSendStream.{TcpSendStream};
ghost use Rattle.wasi_tcp.specs.declared.reader.ReadState.{ReadState};
ghost use Rattle.wasi_tcp.specs.declared.writer.WriteError.{WriteError};
ghost use Rattle.wasi_tcp.specs.declared.writer.WriteState.{WriteState};
ghost use Rattle.wasi_tcp.specs.Shape.{Socket};
ghost use Rattle.wasi_tcp.specs.Addresses.{remote_asks};
ghost use Rattle.wasi_tcp.specs.Calls.{SocketCall, after_calls, KnowsPeer};
ghost use Rattle.wasi_tcp.specs.Reader.{read_state_asks};
ghost use Rattle.wasi_tcp.specs.Job.{Job, job_asks};
ghost use Rattle.wasi_tcp.specs.Writer.{stop_of, look_asks, check_write_asks, write_state_asks};
ghost use Rattle.wasi_tcp.specs.Writer.{turn_asks, flush_of};
ghost use Rattle.wasi_tcp.specs.Taken.{taken_in, IsFrontOf, IsTakenBy};
ghost use Rattle.wasi_tcp.specs.Bounds.{IsWrite, HoldsWrite, most_polled, most_turned};
ghost use Rattle.wasi_tcp.specs.declared.writer.WriteState.TheVariants as WriteState;

/// A remote address, once it is reported, stays while the socket is connected.
///
/// - `told`: where a call reports it, the socket is connected and keeps it.
/// - `stays`: it is kept after any calls on the socket but its close, whatever the network answers.
///   A poll of a listen isn't among them, since it takes only a socket without a network socket.
/// - `answered`: the socket that keeps it answers it without asking.
///
/// It runs no code: its contract is a law about the definitions that contracts cite.
pub fn remote_address_stays()
    ensures told { (op : OpId) (a : IpSocketAddress) (socket after : Socket) (entries : List Entry)
        →
        Left (remote_asks op socket) entries (Give (Ok a, after)) → KnowsPeer a after }
    ensures stays { (calls : List SocketCall) (a : IpSocketAddress) (socket after : Socket)
        (entries : List Entry) →
        KnowsPeer a socket → Left (after_calls calls socket) entries (Give after) → KnowsPeer a after }
    ensures answered { (op : OpId) (a : IpSocketAddress) (socket : Socket) →
        KnowsPeer a socket → remote_asks op socket ≡ Give (Ok a, socket) }
{}

/// A write's bytes are taken in order, each once.
///
/// - `front`: at every point of the write, what its network socket took is the first of its bytes.
/// - `whole`: at the end of the call all were taken where the half is ready again; where the write
///   is in progress, it continues with the rest.
/// - `look`, `check_write`, `read`: these calls give a network socket nothing.
///
/// It runs no code: its contract is a law about the definitions that contracts cite.
pub fn writes_are_taken_in_order()
    ensures front { (op : OpId) (half : TcpSendStream) (permit : ℕ) (bytes : List ℕ)
        (entries : List Entry)
        (rest : Asks (Result (Unit {0}) StreamStop × WriteState)) →
        Left (write_state_asks op (WriteState.Ready half permit) bytes) entries rest → IsFrontOf (taken_in half.side entries) bytes }
    ensures whole { (op : OpId) (half : TcpSendStream) (permit : ℕ) (bytes : List ℕ)
        (entries : List Entry)
        (done : Result (Unit {0}) StreamStop × WriteState) →
        Left (write_state_asks op (WriteState.Ready half permit) bytes) entries (Give done) → IsTakenBy bytes (taken_in half.side entries) done }
    ensures look { (op side : OpId) (s : WriteState) (entries : List Entry)
        (rest : Asks (Result (Answer (Unit {0})) StreamStop × WriteState)) →
        Left (look_asks op s) entries rest → taken_in side entries ≡ [] }
    ensures check_write { (most : ℕ) (op side : OpId) (s : WriteState) (entries : List Entry)
        (rest : Asks (Result ℕ StreamStop × WriteState)) →
        Left (check_write_asks most op s) entries rest → taken_in side entries ≡ [] }
    ensures read { (op side : OpId) (s : ReadState) (size : ℕ) (entries : List Entry)
        (rest : Asks (Result (List ℕ) StreamStop × ReadState)) →
        Left (read_state_asks op s size) entries rest → taken_in side entries ≡ [] }
{}

/// A poll of a write makes a bounded number of calls, whatever the network answers, and at every
/// point of the poll.
///
/// - `poll`: at most one call for each byte that is left and one more, which shuts the half down;
///   none for a write that has ended.
/// - `turn`: a turn of a writing end makes at most the calls of a poll of its write, and none where
///   no write is in progress.
///
/// It runs no code: its contract is a law about the definitions that contracts cite.
pub fn write_jobs_are_bounded()
    ensures poll { (job : Job) (entries : List Entry) (rest : Asks Job) →
        IsWrite job → Left (job_asks job) entries rest → length entries ≤ most_polled job }
    ensures turn { (s : WriteState) (entries : List Entry) (rest : Asks (Unit {0} × WriteState)) →
        HoldsWrite s → Left (turn_asks s) entries rest → length entries ≤ most_turned s }
{}

/// A read gives no more bytes than it was asked for, and at most 65536.
///
/// It runs no code: its contract is a law about the definitions that contracts cite.
pub fn reads_are_within_their_size()
    ensures { (op : OpId) (s after : ReadState) (size : ℕ) (bytes : List ℕ) (entries : List Entry) →
        Left (read_state_asks op s size) entries (Give (Ok bytes, after)) → length bytes ≤ min size 65536 }
{}

/// A writing end that is closed answers every call with its error, asks nothing, and stays closed
/// with that error.
///
/// It runs no code: its contract is a law about the definitions that contracts cite.
pub fn closed_writers_answer_the_same()
    ensures look { (op : OpId) (e : WriteError)
        → look_asks op (WriteState.Closed e) ≡ Give (Err (stop_of e), WriteState.Closed e) }
    ensures check_write { (most : ℕ) (op : OpId) (e : WriteError)
        → check_write_asks most op (WriteState.Closed e) ≡ Give (Err (stop_of e), WriteState.Closed e) }
    ensures write { (op : OpId) (e : WriteError) (bytes : List ℕ)
        → write_state_asks op (WriteState.Closed e) bytes
        ≡ Give (Err (stop_of e), WriteState.Closed e) }
    ensures flush { (e : WriteError) → flush_of (WriteState.Closed e) ≡ Err (stop_of e) }
{}
