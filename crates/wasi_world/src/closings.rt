//! The names of the network sockets that were closed after the end mark.

ghost use Rattle.std.specs.Prelude.{◌≡◌, [], Some, option_map};
ghost use Rattle.wasi_world.specs.Closings.{Named};

use crate::ids::Sock;
use std::alloc::Global;
use std::marker::Model;

/// The names of the network sockets that were closed after the end mark, where there was memory to
/// keep each.
#[derive(Drop)]
pub struct ClosedSockets {
    names: Option<Vec<Sock>>,
}

impl Model for ClosedSockets {
    ghost use Rattle.std.specs.Prelude.{List, Option, option_map};
    ghost use Rattle.wasi_world.specs.declared.ids.OpId.{OpId};

    ghost Value = { Option (List OpId) };

    ghost view = { λ closed. option_map (λ names. names.items) closed.names };
}

/// The names with one more, where there are any and there is memory for it.
fn with_name(names: Option<Vec<Sock>>, sock: Sock) -> Option<Vec<Sock>>
    ensures { Named (option_map (λ names. names.items) names) sock
        (option_map (λ names. names.items) result) }
{
    let mut names = names?;
    match names.push(sock) {
        Ok(()) => Some(names),
        Err(_) => None,
    }
}

impl ClosedSockets {
    /// None was closed. Takes no memory.
    pub fn new(alloc: Global) -> ClosedSockets
        ensures { result ≡ Some [] }
    {
        ClosedSockets {
            names: Some(Vec::new(alloc)),
        }
    }

    /// Keeps the name of a network socket that is closed. Out of memory no names are known from
    /// then on.
    pub fn close(&mut self, sock: Sock)
        ensures { Named self.old sock self.new }
    {
        let names = self.names.take();
        self.names = with_name(names, sock);
    }

    /// The names, in the order of the closings; none where there wasn't memory for each.
    pub fn names(&self) -> Option<&[Sock]>
        ensures { option_map (λ names. names.now) result ≡ self.now }
    {
        match &self.names {
            Some(names) => Some(names.as_slice()),
            None => None,
        }
    }
}
