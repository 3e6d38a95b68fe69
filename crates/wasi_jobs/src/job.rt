//! A piece of background work.

ghost use Rattle.std.specs.Prelude.{◌≡◌};
ghost use Rattle.wasi_jobs.specs.Jobs.{job_place};

/// Background work of the host. It goes on without a call of the guest, until it is over.
#[derive(Clone, Copy, Debug, PartialEq, Eq)]
pub enum HostJob {
    /// The write in progress of the TCP socket in this record.
    Write { socket: usize },
    /// The send in progress, in the background, of the UDP socket in this record.
    Datagram { socket: usize },
    /// The receive in progress of the UDP socket in this record.
    Receive { socket: usize },
    /// The lookup in this record, which the network hasn't answered yet.
    Lookup { lookup: usize },
}

impl HostJob {
    /// The number of the record that the job works on, a socket's or a lookup's.
    pub fn place(self) -> usize
        ensures { result ≡ job_place self }
    {
        match self {
            HostJob::Write { socket } => socket,
            HostJob::Datagram { socket } => socket,
            HostJob::Receive { socket } => socket,
            HostJob::Lookup { lookup } => lookup,
        }
    }
}

/// A job as the list has it.
#[derive(Clone, Copy, Debug, PartialEq, Eq)]
pub struct Listed {
    /// Its number: a later job has a higher one.
    pub number: u64,
    pub job: HostJob,
    /// A hint: the slot that its record stood in when the job was added. No clause speaks of it,
    /// and its users test it.
    pub slot: usize,
}
