//! Listens of 0.3, and the polls of their listeners.

ghost use Rattle.std.specs.Prelude.{◌≡◌, ◌+◌, ◌<◌, ◌^◌, false, IfOk};
ghost use Rattle.wasi_world.specs.Asks.{AsksFor};
ghost use Rattle.tcp_records.specs.Listening.{TakesOne};
ghost use Rattle.host_store.specs.KnownSides.{KnowsSides};
ghost use Rattle.host_store.specs.Machine.{own_of};
ghost use Rattle.host_store.specs.Views.{state_of, HostKept, SameView};
ghost use Rattle.wasi_p3.specs.Listening.{listen_to, looked, handed, accept, ids_after_accept};
ghost use Rattle.wasi_p3.specs.Stops.{ends_as};

use crate::error::{SocketError, named};
use host_store::{Kind, WasiSocketsCtxView, handles};
use host_tcp::not_yet;
use tcp_records::StreamResult;
use wasi_world::{Answer, Handle, Ids, World};

/// Makes a socket listen (`tcp-socket.listen`), and makes its listener, which outlives the handle of
/// the socket. A socket that isn't bound is bound to the wildcard of its family.
///
/// - Not in its first state: `InvalidState`.
/// - A check says no: `AccessDenied`. The network's code is returned. Either closes the socket, with
///   the code `Other`.
///
/// The call is pending while a check or the network is, and `wasi_host::resume` continues
/// it.
pub fn listen<W: World>(
    view: &mut WasiSocketsCtxView<'_>,
    world: &mut W,
    ids: &mut Ids,
    socket: Handle,
) -> Result<Answer<Handle>, SocketError>
    requires { (W.seen world.old).ended ≡ false }
    ensures asked { AsksFor (listen_to ids.old socket (state_of view.old)) (W.seen world.old)
        (W.seen world.new) (λ answer. (answer, state_of view.new)) (ends_as result) }
    ensures kept { HostKept view.old view.new ids.old ids.new (W.seen world.old)
        (W.seen world.new) }
{
    let place = handles::tcp3_socket(view.table, socket)?;
    named(host_tcp::listen_tcp(view.store, view.table, world, *ids, place, socket))
}

/// The listener of a socket, by its handle (`ListenStreamProducer` of the crate wasmtime-wasi).
#[derive(Clone, Copy, Debug, PartialEq, Eq)]
pub struct ListenStreamProducer {
    pub handle: Handle,
}

/// What a look at a listener tells its poll.
fn looked(finish: bool, answer: Answer<()>) -> Answer<StreamResult<Option<Handle>>>
    ensures { result ≡ looked finish answer }
{
    match answer {
        Answer::Ready(()) => Answer::Ready(StreamResult::Completed(None)),
        Answer::Pending => not_yet(finish),
    }
}

impl ListenStreamProducer {
    /// Polls the listener once (`poll_produce`). With nothing remaining it is only looked whether
    /// something has come; else a connection is accepted, and its socket gets a handle. A fault of
    /// the accept gives a socket, too, which is closed with its code.
    ///
    /// Nothing has arrived that the check allows: the poll is cancelled, if it is to finish, else
    /// pending. The accept stays in progress, for the next poll.
    pub fn poll_produce<W: World>(
        &mut self,
        view: &mut WasiSocketsCtxView<'_>,
        world: &mut W,
        ids: &mut Ids,
        remaining: usize,
        finish: bool,
    ) -> Result<Answer<StreamResult<Option<Handle>>>, SocketError>
        requires open { (W.seen world.old).ended ≡ false }
        requires names { ids.old.next_part + 1 < 2 ^ 64 }
        ensures asked { AsksFor (accept ids.old finish remaining self.old.handle
            (state_of view.old)) (W.seen world.old) (W.seen world.new)
            (λ polled. (polled, state_of view.new)) (ends_as result) }
        ensures sides { KnowsSides (W.seen world.old) view.old.store.now
            → KnowsSides (W.seen world.new) view.new.store.now }
        ensures same { self.new ≡ self.old }
        ensures view { SameView view.old view.new }
        ensures ids { TakesOne ids.old ids.new }
        ensures names { IfOk (ends_as result) (λ answer. ids.new
            ≡ ids_after_accept (state_of view.old) ids.old self.old.handle) }
    {
        let place = handles::listener3(view.table, self.handle)?;
        if remaining == 0 {
            let answer = named(host_tcp::look_accept(view.store, world, ids, place))?;
            return Ok(looked(finish, answer));
        }
        let accepted = named(host_tcp::accept_tcp(view.store, world, ids, place))?;
        self.hand_over(view, world, ids, finish, accepted)
    }

    /// Makes the handle of the socket with this record number, if something was accepted.
    fn hand_over<W: World>(
        &self,
        view: &mut WasiSocketsCtxView<'_>,
        world: &mut W,
        ids: &mut Ids,
        finish: bool,
        accepted: Answer<usize>,
    ) -> Result<Answer<StreamResult<Option<Handle>>>, SocketError>
        requires { (W.seen world.old).ended ≡ false }
        ensures asked { AsksFor (handed (own_of ids.old.line) finish self.now.handle accepted
            (state_of view.old)) (W.seen world.old) (W.seen world.new)
            (λ polled. (polled, state_of view.new)) (ends_as result) }
        ensures kept { HostKept view.old view.new ids.old ids.new (W.seen world.old)
            (W.seen world.new) }
    {
        let Answer::Ready(place) = accepted else {
            return Ok(not_yet(finish));
        };
        let side = view.store.side(place);
        let kind = Kind::Tcp3(place);
        let own = ids.own();
        let socket = handles::make(view.table, world, own, kind, Some(self.handle), side)?;
        Ok(Answer::Ready(StreamResult::Completed(Some(socket))))
    }
}
