//! An arrival and the target that it is connected to.

ghost use Rattle.std.specs.Prelude.{◌≡◌};
ghost use Rattle.wasi_relay.specs.Pair.{is_open, is_broken, is_over, has_open, peer_of};
ghost use Rattle.wasi_relay.specs.Pair.{first_flow, first_pair};

use wasi_world::Handle;

/// What became of a direction.
#[derive(Clone, Copy, Debug, PartialEq, Eq)]
pub enum DirEnd {
    /// It goes on.
    Open,
    /// The sending side closed it, after which nothing was left to write.
    Clean,
    /// A stream broke.
    Broken,
}

/// One direction of a pair.
#[derive(Clone, Copy, Debug, PartialEq, Eq)]
pub struct Flow {
    pub end: DirEnd,
    /// How many bytes were written, up to the largest number.
    pub bytes: u64,
}

/// A connected socket and its two streams.
#[derive(Clone, Copy, Debug, PartialEq, Eq)]
pub struct Peer {
    pub socket: Handle,
    pub input: Handle,
    pub output: Handle,
}

/// How far a pair has come.
#[derive(Clone, Copy, Debug, PartialEq, Eq)]
pub enum Stage {
    /// Its target is being connected.
    Connecting,
    /// Its target is connected.
    Connected(Peer),
    /// Its sockets are dropped.
    Over,
}

/// An arrival and its target.
#[derive(Clone, Copy, Debug, PartialEq, Eq)]
pub struct Pair {
    /// The arrival.
    pub client: Peer,
    /// The socket of the target.
    pub target: Handle,
    pub stage: Stage,
    /// From the client to the target.
    pub up: Flow,
    /// From the target to the client.
    pub down: Flow,
}

impl DirEnd {
    /// Whether it goes on.
    pub fn is_open(self) -> bool
        ensures { result ≡ is_open self }
    {
        match self {
            DirEnd::Open => true,
            DirEnd::Clean | DirEnd::Broken => false,
        }
    }

    /// Whether a stream broke.
    pub(crate) fn is_broken(self) -> bool
        ensures { result ≡ is_broken self }
    {
        match self {
            DirEnd::Broken => true,
            DirEnd::Open | DirEnd::Clean => false,
        }
    }
}

impl Stage {
    /// The connected target.
    pub(crate) fn peer(self) -> Option<Peer>
        ensures { result ≡ peer_of self }
    {
        match self {
            Stage::Connected(peer) => Some(peer),
            Stage::Connecting | Stage::Over => None,
        }
    }
}

/// A direction that starts.
fn first_flow() -> Flow
    ensures { result ≡ first_flow }
{
    Flow {
        end: DirEnd::Open,
        bytes: 0,
    }
}

impl Pair {
    /// A pair whose target begins to be connected.
    pub(crate) fn new(client: Peer, target: Handle) -> Pair
        ensures { result ≡ first_pair client target }
    {
        Pair {
            client,
            target,
            stage: Stage::Connecting,
            up: first_flow(),
            down: first_flow(),
        }
    }

    /// Whether its sockets are dropped.
    pub fn is_over(&self) -> bool
        ensures { result ≡ is_over self.now }
    {
        match self.stage {
            Stage::Over => true,
            Stage::Connecting | Stage::Connected(_) => false,
        }
    }

    /// Whether a direction goes on.
    pub(crate) fn has_open(&self) -> bool
        ensures { result ≡ has_open self.now }
    {
        self.up.end.is_open() || self.down.end.is_open()
    }
}
