//! Reads a question: a line `USE ADDRESS`, as `tcp-connect 4 127 0 0 1 80`.

ghost use Rattle.std.specs.Prelude.{◌≡◌};
ghost use Rattle.world_text.specs.Fields.{Reads};
ghost use Rattle.policy_asks.specs.Question.{question_at, question_in};

use wasi_addr::{IpSocketAddress, SocketAddrUse};
use wasi_policy::grammar::uses;
use world_text::Fields;

/// A use of an address, of which the rules are asked.
#[derive(Clone, Copy, Debug, PartialEq, Eq)]
pub struct Question {
    pub usage: SocketAddrUse,
    pub address: IpSocketAddress,
}

/// Takes a question.
#[tactic(auto, unfolding(crate::specs::Question::question_at, world_text::specs::Fields::read_then, world_text::specs::Fields::give, world_text::specs::Fields::give_some))]
fn take_question(fields: &mut Fields<'_>) -> Option<Question>
    ensures { Reads question_at fields.old result fields.new }
{
    let found = uses(fields)?;
    let usage = found?;
    let address = fields.socket_address()?;
    Some(Question { usage, address })
}

/// The question that a line is, without its newline; none where it is none. The use `any` makes no
/// question.
#[tactic(auto, unfolding(crate::specs::Question::question_in))]
pub fn parse_question(line: &[u8]) -> Option<Question>
    ensures { result ≡ question_in line.now }
{
    let mut fields = Fields::of(line);
    let question = take_question(&mut fields)?;
    if fields.is_done() {
        Some(question)
    } else {
        None
    }
}
