//! Polls of an operation that starts again where it is refused. One poll has at most 64 rounds.

ghost use Rattle.std.specs.Prelude.{◌≡◌, true, false};
ghost use Rattle.wasi_world.specs.Operation.{Nothing};
ghost use Rattle.socket_common.specs.Rounds.{PollsRounds, is_going};

use wasi_world::{Answer, Refusal, World};

/// How many rounds one poll has at most, and so how many arrivals or datagrams it refuses.
const MOST_ROUNDS: usize = 64;

/// An operation that is polled in rounds: an accept, or a receive. A round ends the poll, or is
/// refused.
pub trait InRounds {
    ghost use Rattle.std.specs.Prelude.{◌≡◌, true, false};
    ghost use Rattle.wasi_world.specs.Operation.{Operation, Given, Nothing};
    ghost use Rattle.socket_common.specs.Rounds.{RoundFor, is_going};

    /// What it gives.
    type Out;

    /// The asks that it has left.
    ghost operation: { Self → Operation };

    /// What it gives, as the rule for operations has it.
    ghost gives: { Self.Out → Given };

    /// One round. `None`: what it came to was refused, and another round follows.
    fn round<W: World>(&mut self, world: &mut W) -> Result<Option<Answer<Self::Out>>, Refusal>
        requires open { (W.seen world.old).ended ≡ false }
        requires going { is_going (operation self.old) ≡ true }
        ensures round { RoundFor gives Nothing (operation self.old) (operation self.new)
            (W.seen world.old) (W.seen world.new) result }
        ensures open { (W.seen world.new).ended ≡ false };
}

/// Polls an operation in progress: one round after another, until one ends the poll. After the 64th
/// that was refused it is pending. Out of memory the operation may be polled again.
pub fn poll_rounds<O: InRounds, W: World>(
    world: &mut W,
    operation: &mut O,
) -> Result<Answer<O::Out>, Refusal>
    requires open { (W.seen world.old).ended ≡ false }
    requires going { is_going (O.operation operation.old) ≡ true }
    ensures polled { PollsRounds O.gives Nothing (O.operation operation.old)
        (O.operation operation.new) (W.seen world.old) (W.seen world.new) result }
    ensures open { (W.seen world.new).ended ≡ false }
{
    for _refused in 0..MOST_ROUNDS {
        let round = operation.round(world)?;
        if let Some(answer) = round {
            return Ok(answer);
        }
    }
    Ok(Answer::Pending)
}
