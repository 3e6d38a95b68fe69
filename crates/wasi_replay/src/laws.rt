//! Laws of the text of logs. They run no code: their contracts are about the definitions by which
//! the grammar is stated.

ghost use Rattle.std.specs.Prelude.{◌≡◌, ◌≤◌, ◌↔◌, ℕ, List, Some, Ok, length};
ghost use Rattle.wasi_world.specs.declared.call.Entry.{Entry};
ghost use Rattle.wasi_world.specs.declared.outcome.WasiSocketsCtx.{WasiSocketsCtx};
ghost use Rattle.std.specs.Prelude.{◌++◌};
ghost use Rattle.wasi_replay.specs.Cut.{IsInOneLine, completed};
ghost use Rattle.wasi_replay.specs.Pieces.{contexts_text, entries_text};
ghost use Rattle.wasi_replay.specs.Log.{entry_in, entry_line, IsEntry, log_of, log_text, IsLog};

/// A text is read as a log exactly where it is that log's text, has at most 4,294,967,294 bytes, and
/// the log has a context, contexts that are named by their places, and entries whose numbers are
/// within their widths and whose answers fit their calls.
///
/// So what is written is read back as it was, and nothing else is read.
pub fn logs_are_read_exactly()
    ensures logs { (text : List ℕ) (contexts : List WasiSocketsCtx) (log : List Entry)
        → (log_of text ≡ Ok (contexts, log)) ↔ ((text ≡ log_text contexts log)
        × (length text ≤ 4294967294) × IsLog contexts log) }
    ensures entries { (line : List ℕ) (e : Entry)
        → (entry_in line ≡ Some e) ↔ ((line ≡ entry_line e) × IsEntry e) }
{}

/// The lines of a log's contexts and of its first entries, and then a part of a line, are read as
/// the log of these contexts and entries: so a log that was cut is read as far as it is whole.
pub fn cut_logs_are_read()
    ensures { (contexts : List WasiSocketsCtx) (log : List Entry) (part : List ℕ)
        → IsLog contexts log → IsInOneLine part → completed (contexts_text contexts ++ entries_text
        log ++ part) ≡ log_text contexts log }
{}
