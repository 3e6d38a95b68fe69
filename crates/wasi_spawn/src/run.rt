//! What a started closure gives.

/// A job that was given back, or what it gave.
#[derive(Drop)]
pub enum Ran<J, O> {
    /// The job, which wasn't run.
    Back(J),
    /// What the job gave.
    Done(O),
}
