//! How far a read stream is.

ghost use Rattle.std.specs.Prelude.{◌≡◌};
ghost use Rattle.wasi_reader.specs.Stages.{number_of};

/// How far the worker of a read stream is, and what its owner was told of that.
#[derive(Clone, Copy, Debug, PartialEq, Eq)]
pub enum Stage {
    /// It reads on.
    Open,
    /// It met the end of its source.
    Ended,
    /// A read failed.
    Failed,
    /// It found no memory for a chunk.
    Starved,
}

impl Stage {
    /// Its number in a ledger.
    pub(crate) fn number(self) -> u64
        ensures { result ≡ number_of self }
    {
        match self {
            Stage::Open => 0,
            Stage::Ended => 1,
            Stage::Failed => 2,
            Stage::Starved => 3,
        }
    }
}
