//! What the two sides of a worker stream share: counts, numbers and facts under a lock that one side
//! alone changes, a line of chunks, first in first out, and how a stream ends.
#![tactic(auto)]

pub mod count;
pub mod fact;
pub mod finished;
pub mod line;
pub mod number;
pub mod rule;

pub use count::{Count, Counter};
pub use fact::{Fact, Keeper};
pub use finished::{Ended, Finished};
pub use line::{Line, PopEnd, PushEnd, count_left, make_line};
pub use number::Number;
