//! The words of lines.

ghost use Rattle.std.specs.Prelude.{MatchBool, ◌≡◌, ◌≢◌};

/// Whether the field is this word. Most differ in length, which is seen at once.
pub(crate) fn is(field: &[u8], word: &str) -> bool
    ensures { MatchBool result (field.now ≡ word.now) (field.now ≢ word.now) }
{
    field.len() == word.len() && field == word.as_bytes()
}
