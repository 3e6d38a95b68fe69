//! The columns of a picture: the guest's, the check's, one for lookups, and one for each network
//! socket, in the place of one that was closed where there is one.

use std::alloc::{AllocError, Global};
use std::collections::BTreeMap;
use wasi_world::{Call, Entry, OpId, Sock, Told};

/// Whom an entry asks.
#[derive(Clone, Copy, PartialEq, Eq)]
pub enum Asked {
    /// The embedder's check.
    Check,
    /// The lookup of names.
    Lookup,
    /// This network socket.
    Socket(Sock),
    /// No one: a handle was made.
    Noted,
}

/// Whom an entry asks.
pub fn asked_of(entry: &Entry) -> Asked {
    match &entry.call {
        Call::Check { .. } => Asked::Check,
        Call::Lookup { .. } => Asked::Lookup,
        Call::Made { .. } => Asked::Noted,
        Call::TcpCreate { .. } | Call::UdpCreate { .. } => Asked::Socket(entry.op),
        Call::UdpWritable { sock }
        | Call::Local { sock }
        | Call::Peer { sock }
        | Call::Bind { sock, .. }
        | Call::UdpBind { sock, .. }
        | Call::UdpConnect { sock, .. }
        | Call::Listen { sock, .. }
        | Call::SetBacklog { sock, .. }
        | Call::Connect { sock, .. }
        | Call::Accept { sock }
        | Call::Hand { sock, .. }
        | Call::Refuse { sock, .. }
        | Call::Read { sock, .. }
        | Call::ReadReady { sock }
        | Call::WriteReady { sock }
        | Call::Write { sock, .. }
        | Call::Shutdown { sock, .. }
        | Call::UdpDisconnect { sock }
        | Call::Send { sock, .. }
        | Call::Recv { sock }
        | Call::GetOption { sock, .. }
        | Call::SetOption { sock, .. }
        | Call::Close { sock } => Asked::Socket(*sock),
    }
}

/// The network socket that an entry makes: one that was created, or handed over.
fn made_by(entry: &Entry) -> Option<Sock> {
    match (&entry.call, &entry.answer) {
        (Call::TcpCreate { .. } | Call::UdpCreate { .. }, Told::Done) => Some(entry.op),
        (Call::Hand { .. }, _) => Some(entry.op),
        _ => None,
    }
}

/// So many network sockets stand beside one another before one gives up its place that is open and
/// of which no later row speaks.
const MANY: usize = 12;

/// A column of a network socket: its place, and the rows from which and to which it is there.
#[derive(Drop)]
pub struct Column {
    pub sock: Sock,
    /// How many columns are left of it.
    pub place: usize,
    /// Whether no other was in this place before.
    pub is_first: bool,
    /// The first row that speaks of it.
    pub first: usize,
    /// The row after the last that speaks of it.
    pub upto: usize,
    /// The first row of the one that has its place after it.
    pub next: Option<usize>,
    /// Whether the network socket was made.
    pub is_made: bool,
    /// Whether it was closed.
    pub is_closed: bool,
}

/// What has a place: which column, up to which row, and whether its network socket is closed then.
#[derive(Clone, Copy, Drop)]
struct Holder {
    index: usize,
    upto: usize,
    is_closed: bool,
}

/// The place for a column with this first row: that of a closed network socket, or, where there are
/// many, of the one that rows spoke of last the longest ago; or none, and it needs a new one. A row
/// is left between two in one place.
fn free_place(holders: &[Holder], first: usize) -> Option<usize> {
    let closed = holders
        .iter()
        .position(|it| it.is_closed && it.upto < first);
    if closed.is_some() || holders.len() < MANY {
        return closed;
    }
    let (place, _) = holders
        .iter()
        .enumerate()
        .filter(|(_, it)| it.upto < first)
        .min_by_key(|(_, it)| it.upto)?;
    Some(place)
}

/// The columns of the network sockets, in the order in which they come up.
#[derive(Drop)]
pub struct Columns {
    pub list: Vec<Column>,
    /// How many stand beside one another.
    pub count: usize,
    pub looks_up: bool,
    /// Where in the list a network socket's column is.
    indices: BTreeMap<OpId, usize>,
}

impl Columns {
    /// The columns for these entries.
    pub fn of(alloc: Global, entries: &[&Entry]) -> Result<Columns, AllocError> {
        let mut columns = Columns {
            list: Vec::new(alloc),
            count: 0,
            looks_up: false,
            indices: BTreeMap::new(alloc),
        };
        for (row, entry) in entries.iter().enumerate() {
            columns.note(row, entry)?;
        }
        columns.give_places(alloc)?;
        Ok(columns)
    }

    /// The place of a network socket's column.
    pub fn place(&self, sock: Sock) -> Option<usize> {
        let index = self.indices.get(&sock)?;
        Some(self.list.get(*index)?.place)
    }

    fn note(&mut self, row: usize, entry: &Entry) -> Result<(), AllocError> {
        match asked_of(entry) {
            Asked::Check | Asked::Noted => {}
            Asked::Lookup => self.looks_up = true,
            Asked::Socket(sock) => self.note_socket(row, sock)?,
        }
        if let Some(sock) = made_by(entry) {
            self.note_socket(row, sock)?;
            if let Some(column) = self.column_mut(sock) {
                column.is_made = true;
            }
        }
        if let Call::Close { sock } = &entry.call {
            if let Some(column) = self.column_mut(*sock) {
                column.is_closed = true;
            }
        }
        Ok(())
    }

    fn column_mut(&mut self, sock: Sock) -> Option<&mut Column> {
        let index = *self.indices.get(&sock)?;
        self.list.get_mut(index)
    }

    /// Notes that a row speaks of the network socket.
    fn note_socket(&mut self, row: usize, sock: Sock) -> Result<(), AllocError> {
        if let Some(column) = self.column_mut(sock) {
            column.upto = row.saturating_add(1);
            return Ok(());
        }
        self.indices.insert(sock, self.list.len())?;
        self.list.push(Column {
            sock,
            place: 0,
            is_first: true,
            first: row,
            upto: row.saturating_add(1),
            next: None,
            is_made: false,
            is_closed: false,
        })?;
        Ok(())
    }

    /// Gives each column its place.
    fn give_places(&mut self, alloc: Global) -> Result<(), AllocError> {
        let mut holders = Vec::new(alloc);
        for index in 0..self.list.len() {
            self.give_place(&mut holders, index)?;
        }
        self.count = holders.len();
        Ok(())
    }

    /// Gives the next column a place.
    fn give_place(&mut self, holders: &mut Vec<Holder>, index: usize) -> Result<(), AllocError> {
        let Some(column) = self.list.get_mut(index) else {
            return Ok(());
        };
        let first = column.first;
        let holder = Holder {
            index,
            upto: column.upto,
            is_closed: column.is_closed,
        };
        let Some(place) = free_place(holders.as_slice(), first) else {
            column.place = holders.len();
            holders.push(holder)?;
            return Ok(());
        };
        column.place = place;
        column.is_first = false;
        if let Some(had) = holders.get_mut(place) {
            let before = had.index;
            *had = holder;
            self.end_before(before, first);
        }
        Ok(())
    }

    /// Ends a column before the row from which on another has its place.
    fn end_before(&mut self, index: usize, row: usize) {
        if let Some(column) = self.list.get_mut(index) {
            column.next = Some(row);
        }
    }
}
