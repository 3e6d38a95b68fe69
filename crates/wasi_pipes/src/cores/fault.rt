//! A worker's fault, which its owner is told once.

ghost use Rattle.std.specs.Prelude.{◌≡◌};
ghost use Rattle.wasi_pipes.specs.Fault.{kept_cause, after_telling, is_met};

/// What became of a stream's fault and its cause.
#[derive(Clone, Copy, Debug, PartialEq, Eq)]
pub enum WorkerFault<C> {
    /// None was met.
    Unmet,
    /// It is kept for the owner.
    Kept(C),
    /// The owner was told.
    Told(C),
}

impl<C: Copy> WorkerFault<C> {
    /// The cause of a kept fault, which is reported by this.
    pub fn tell(&mut self) -> Option<C>
        ensures cause { result ≡ kept_cause self.old }
        ensures told { self.new ≡ after_telling self.old }
    {
        match *self {
            WorkerFault::Kept(cause) => {
                *self = WorkerFault::Told(cause);
                Some(cause)
            }
            WorkerFault::Unmet | WorkerFault::Told(_) => None,
        }
    }

    /// Whether there was a fault, kept or reported.
    pub fn is_met(&self) -> bool
        ensures { result ≡ is_met self.now }
    {
        match self {
            WorkerFault::Unmet => false,
            WorkerFault::Kept(_) | WorkerFault::Told(_) => true,
        }
    }
}
