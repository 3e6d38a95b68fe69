//! What its owner holds of a started job.

ghost use Rattle.std.specs.Prelude.{◌≡◌};
ghost use Rattle.wasi_spawn.specs.Run.{IsRunOf};

use crate::job::Job;
use crate::run::Ran;
use std::marker::Model;
use std::snapshot::Snapshot;
use std::thread::{Promise, PromisedHandle};

/// What a thread promises: it gives a result of this job, or the job itself.
#[derive(Drop)]
pub struct RunsJob<J>(pub Snapshot<J>);

impl<J: Job> Promise<Ran<J, J::Out>> for RunsJob<J> {
    ghost kept_by = { λ promise ran. IsRunOf J.may_give promise.0.value ran };
}

/// A result that is there already. Contracts see it as the job that gave it.
#[derive(Drop)]
pub struct Kept<J: Job> {
    pub out: J::Out,
    pub job: Snapshot<J>,
}

impl<J: Job> Model for Kept<J> {
    ghost Value = { J };

    ghost coded = { J.code };

    ghost view = { λ kept. kept.job.value };

    ghost invariant = { λ kept. J.may_give kept.job.value kept.out };
}

/// A started job, which [`Spawner::join`](crate::Spawner::join) asks for its result.
#[derive(Drop)]
pub enum Handle<J: Job> {
    /// It runs in this thread.
    Thread(PromisedHandle<Ran<J, J::Out>, RunsJob<J>>),
    /// Its result came at its start.
    Here(Kept<J>),
}

pub(crate) fn keep<J: Job>(out: J::Out, job: Snapshot<J>) -> Kept<J>
    requires { J.may_give job.value out }
    ensures { result ≡ job.value }
{
    Kept { out, job }
}
