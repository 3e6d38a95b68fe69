//! Text: the fields of a line, which scripts and scenarios share, and the text of an entry of a
//! log.
#![tactic(auto)]

pub mod digits;
pub mod fields;
pub mod lines;
pub mod spelling;
pub mod text;

pub use fields::Fields;
pub use text::{CallText, EntryText, ToldText};
