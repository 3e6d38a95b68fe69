//! What a look at a socket, a stream or a lookup depends on.

ghost use Rattle.std.specs.Prelude.{◌≡◌};
ghost use Rattle.wasi_records.specs.Records.{tcp2_at, open_at, lookup_at};
ghost use Rattle.step_looks.specs.Records.{reader_outlook, writer_outlook, room_outlook};
ghost use Rattle.step_looks.specs.Records.{listening_outlook, socket_outlook};
ghost use Rattle.step_looks.specs.Records.{accept_outlook, incoming_outlook};
ghost use Rattle.step_looks.specs.Records.{receive_outlook, outgoing_outlook};
ghost use Rattle.step_looks.specs.Records.{input_at, output_at, room_at, socket_at, accept_at};
ghost use Rattle.step_looks.specs.Records.{listener_at, connect_at, incoming_at, receive_at};
ghost use Rattle.step_looks.specs.Records.{outgoing_at, look_up_at, begins_at, watched_outlook};
ghost use Rattle.step_looks.specs.Records.{job_outlook, job_at, receiving_at};
ghost use Rattle.step_looks.specs.Records.{again_outlook};

use crate::outlook::Outlook;
use host_store::Watched;
use lookup_records::Lookup;
use tcp_records::{AsyncOperation, Listening, Streams, TcpRecord};
use udp_records::{Incoming, OpenUdp, Receiving};
use wasi_records::{RecordId, RecordList, find};
use wasi_world::Sock;

/// A look whether a connection can be read. Without streams the call is refused.
fn reader_outlook(streams: &Option<Streams>) -> Outlook
    ensures { result ≡ reader_outlook streams.now }
{
    match streams {
        Some(streams) => Outlook::to_read(streams.reader.side()),
        None => Outlook::Ready,
    }
}

/// A look whether a connection can be written; while a write is in progress, the network socket
/// that it waits for.
fn writer_outlook(streams: &Option<Streams>) -> Outlook
    ensures { result ≡ writer_outlook streams.now }
{
    match streams {
        Some(streams) => Outlook::to_write(streams.writer.side()),
        None => Outlook::Ready,
    }
}

/// A look for room that isn't made while a write is in progress.
fn room_outlook(record: &TcpRecord) -> Outlook
    ensures { result ≡ room_outlook record.now }
{
    if record.has_job() {
        return Outlook::Held;
    }
    writer_outlook(&record.streams)
}

/// A poll of a write in progress.
fn job_outlook(record: &TcpRecord) -> Outlook
    ensures { result ≡ job_outlook record.now }
{
    if record.has_job() {
        return writer_outlook(&record.streams);
    }
    Outlook::Ready
}

/// A look at a listener's accept, which is ready where a connection isn't taken yet. One that failed
/// counts as any other.
fn listening_outlook(listening: &Listening) -> Outlook
    ensures { result ≡ listening_outlook listening.now }
{
    match listening {
        Listening::Accepts(listener) => match listener.untaken() {
            Some(_) => Outlook::Ready,
            None => Outlook::to_read(Some(listener.side())),
        },
        Listening::Not | Listening::Begins(_) | Listening::Unclosed(_) => Outlook::Ready,
    }
}

/// An accept of a socket of 0.2, which is refused while an operation is in progress.
fn accept_outlook(record: &TcpRecord) -> Outlook
    ensures { result ≡ accept_outlook record.now }
{
    if !record.in_progress.is_nothing() {
        return Outlook::Ready;
    }
    listening_outlook(&record.listening)
}

/// A look at a socket: the end of its connect in progress, or its accept.
fn socket_outlook(record: &TcpRecord) -> Outlook
    ensures { result ≡ socket_outlook record.now }
{
    if record.in_progress.is_started(AsyncOperation::Connect) {
        return Outlook::to_write(record.inner.side());
    }
    accept_outlook(record)
}

/// Whether a datagram comes that is received, or is there.
fn receiving_outlook(incoming: &Option<Incoming>, side: Sock) -> Outlook
    ensures { result ≡ incoming_outlook incoming.now side }
{
    match incoming {
        Some(incoming) => match &incoming.receiving {
            Receiving::Nothing | Receiving::InProgress(_) => Outlook::to_read(Some(side)),
            Receiving::Came(_) | Receiving::Failed(_) => Outlook::Ready,
        },
        None => Outlook::Ready,
    }
}

/// A call that takes datagrams: it looks for one where no receive is in progress.
fn receive_outlook(incoming: &Option<Incoming>, side: Sock) -> Outlook
    ensures { result ≡ receive_outlook incoming.now side }
{
    match incoming {
        Some(incoming) => match &incoming.receiving {
            Receiving::Nothing => Outlook::to_read(Some(side)),
            Receiving::InProgress(_) => Outlook::Held,
            Receiving::Came(_) | Receiving::Failed(_) => Outlook::Ready,
        },
        None => Outlook::Ready,
    }
}

/// Whether the datagram in the background can be sent.
fn outgoing_outlook(socket: &OpenUdp) -> Outlook
    ensures { result ≡ outgoing_outlook socket.now }
{
    if socket.sends() {
        return Outlook::to_write(Some(socket.inner.side()));
    }
    Outlook::Ready
}

/// A look whether the connection of the TCP socket with this record number can be read.
pub(crate) fn input_at(records: &RecordList, place: RecordId) -> Outlook
    ensures { result ≡ input_at (tcp2_at records.now.items place) }
{
    match find::<TcpRecord>(records, place) {
        Some(record) => reader_outlook(&record.streams),
        None => Outlook::Ready,
    }
}

/// A look whether it can be written, or whether its write in progress goes on.
pub(crate) fn output_at(records: &RecordList, place: RecordId) -> Outlook
    ensures { result ≡ output_at (tcp2_at records.now.items place) }
{
    match find::<TcpRecord>(records, place) {
        Some(record) => writer_outlook(&record.streams),
        None => Outlook::Ready,
    }
}

/// A look for room there.
pub(crate) fn room_at(records: &RecordList, place: RecordId) -> Outlook
    ensures { result ≡ room_at (tcp2_at records.now.items place) }
{
    match find::<TcpRecord>(records, place) {
        Some(record) => room_outlook(record),
        None => Outlook::Ready,
    }
}

/// A poll of its write in progress.
pub(crate) fn job_at(records: &RecordList, place: RecordId) -> Outlook
    ensures { result ≡ job_at (tcp2_at records.now.items place) }
{
    match find::<TcpRecord>(records, place) {
        Some(record) => job_outlook(record),
        None => Outlook::Ready,
    }
}

/// A look at the TCP socket with this record number.
fn socket_at(records: &RecordList, place: RecordId) -> Outlook
    ensures { result ≡ socket_at (tcp2_at records.now.items place) }
{
    match find::<TcpRecord>(records, place) {
        Some(record) => socket_outlook(record),
        None => Outlook::Ready,
    }
}

/// An accept of it.
pub(crate) fn accept_at(records: &RecordList, place: RecordId) -> Outlook
    ensures { result ≡ accept_at (tcp2_at records.now.items place) }
{
    match find::<TcpRecord>(records, place) {
        Some(record) => accept_outlook(record),
        None => Outlook::Ready,
    }
}

/// An accept of its listener of 0.3.
pub(crate) fn listener_at(records: &RecordList, place: RecordId) -> Outlook
    ensures { result ≡ listener_at (tcp2_at records.now.items place) }
{
    match find::<TcpRecord>(records, place) {
        Some(record) => listening_outlook(&record.listening),
        None => Outlook::Ready,
    }
}

/// The connect of it that is in progress.
pub(crate) fn connect_at(records: &RecordList, place: RecordId) -> Outlook
    ensures { result ≡ connect_at (tcp2_at records.now.items place) }
{
    match find::<TcpRecord>(records, place) {
        Some(record) => Outlook::to_write(record.inner.side()),
        None => Outlook::Ready,
    }
}

/// A look whether a datagram has come on the UDP socket with this record number.
fn incoming_at(records: &RecordList, place: RecordId) -> Outlook
    ensures { result ≡ incoming_at (open_at records.now.items place) }
{
    match find::<OpenUdp>(records, place) {
        Some(socket) => receiving_outlook(&socket.incoming, socket.inner.side()),
        None => Outlook::Ready,
    }
}

/// A call that takes datagrams there.
pub(crate) fn receive_at(records: &RecordList, place: RecordId) -> Outlook
    ensures { result ≡ receive_at (open_at records.now.items place) }
{
    match find::<OpenUdp>(records, place) {
        Some(socket) => receive_outlook(&socket.incoming, socket.inner.side()),
        None => Outlook::Ready,
    }
}

/// A poll of its receive in progress.
pub(crate) fn receiving_at(records: &RecordList, place: RecordId) -> Outlook
    ensures { result ≡ receiving_at (open_at records.now.items place) }
{
    match find::<OpenUdp>(records, place) {
        Some(socket) => {
            if socket.receives() {
                Outlook::to_read(Some(socket.inner.side()))
            } else {
                Outlook::Ready
            }
        }
        None => Outlook::Ready,
    }
}

/// Whether its datagram in the background can be sent.
pub(crate) fn outgoing_at(records: &RecordList, place: RecordId) -> Outlook
    ensures { result ≡ outgoing_at (open_at records.now.items place) }
{
    match find::<OpenUdp>(records, place) {
        Some(socket) => outgoing_outlook(socket),
        None => Outlook::Ready,
    }
}

/// Whether the lookup with this record number has ended, which the network's sockets don't tell.
fn lookup_at(records: &RecordList, place: RecordId) -> Outlook
    ensures { result ≡ look_up_at (lookup_at records.now.items place) }
{
    match find::<Lookup>(records, place) {
        Some(lookup) => {
            if lookup.is_in_progress() {
                Outlook::Held
            } else {
                Outlook::Ready
            }
        }
        None => Outlook::Ready,
    }
}

/// A look at what a pollable watches.
pub(crate) fn watched_outlook(records: &RecordList, watched: Watched) -> Outlook
    ensures { result ≡ watched_outlook records.now.items watched }
{
    match watched {
        Watched::Udp(_) | Watched::Plain => Outlook::Ready,
        Watched::Socket(place) => socket_at(records, place),
        Watched::Input(place) => input_at(records, place),
        Watched::Output(place) => output_at(records, place),
        Watched::Incoming(place) => incoming_at(records, place),
        Watched::Outgoing(place) => outgoing_at(records, place),
        Watched::Lookup(place) => lookup_at(records, place),
    }
}

/// Whether a look at what is watched would begin an accept or a receive.
fn would_begin(records: &RecordList, watched: Watched) -> bool
    ensures { result ≡ begins_at records.now.items watched }
{
    match watched {
        Watched::Socket(place) => match find::<TcpRecord>(records, place) {
            Some(record) => record.would_accept(),
            None => false,
        },
        Watched::Incoming(place) => match find::<OpenUdp>(records, place) {
            Some(socket) => socket.would_receive(),
            None => false,
        },
        Watched::Input(_)
        | Watched::Output(_)
        | Watched::Udp(_)
        | Watched::Outgoing(_)
        | Watched::Lookup(_)
        | Watched::Plain => false,
    }
}

/// A later look of a call that is polled: what would have to begin is ready.
pub(crate) fn again_outlook(records: &RecordList, watched: Watched) -> Outlook
    ensures { result ≡ again_outlook records.now.items watched }
{
    if would_begin(records, watched) {
        return Outlook::Ready;
    }
    watched_outlook(records, watched)
}
