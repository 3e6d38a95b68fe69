//! Laws over the definitions of specs/. Each is a function that does nothing, whose contract is the
//! law.

ghost use Rattle.std.specs.Prelude.{◌≡◌, ◌++◌, ℕ, List, Some};
ghost use Rattle.wasi_world.specs.declared.outcome.WasiSocketsCtx.{WasiSocketsCtx};
ghost use Rattle.wasi_world.specs.Asks.{Left, Give};
ghost use Rattle.host_store.specs.declared.machine.Machine.{Machine};
ghost use Rattle.wasi_steps.specs.declared.reply.Reply.{Reply};
ghost use Rattle.wasi_machine.specs.Machine.{run};
ghost use Rattle.wasi_run.specs.Ran.{NoTrap, OneTrap};
ghost use Rattle.wasi_transcript.specs.Cases.{CaseText, IsCase, case_lines, case_at};
ghost use Rattle.wasi_transcript.specs.Transcript.{Exchange, steps_in, replies_in, calls_in};
ghost use Rattle.wasi_transcript.specs.Transcript.{AreDone};

/// The calls and replies of a transcript's lines are those that the machine makes of their steps,
/// as `run_script` does them.
///
/// - `on`: where no line trapped.
/// - `to_a_trap`: where the last line trapped.
pub fn transcripts_are_of_runs()
    ensures on { (contexts : List WasiSocketsCtx) (m : Machine) (number : ℕ)
        (exchanges : List Exchange) (last : Machine) (so_far : List Reply)
        → AreDone contexts m number exchanges last → NoTrap (replies_in exchanges)
        → Left (run contexts so_far m number (steps_in exchanges)) (calls_in exchanges)
        (Give (so_far ++ replies_in exchanges, last)) }
    ensures to_a_trap { (contexts : List WasiSocketsCtx) (m : Machine) (number : ℕ)
        (exchanges : List Exchange) (last : Machine) (so_far : List Reply)
        → AreDone contexts m number exchanges last → OneTrap (replies_in exchanges)
        → Left (run contexts so_far m number (steps_in exchanges)) (calls_in exchanges)
        (Give (so_far ++ replies_in exchanges, last)) }
{}

/// A file of transcripts is read as the cases that were written into it.
///
/// - `read`: a case's lines are read as that case.
/// - `only`: no other lines are read as a case.
pub fn cases_are_read_of_their_lines()
    ensures read { (c : CaseText) (rest : List (List ℕ)) → IsCase c
        → case_at (case_lines c ++ rest) ≡ Some (c, rest) }
    ensures only { (lines rest : List (List ℕ)) (c : CaseText) → case_at lines ≡ Some (c, rest)
        → IsCase c × (lines ≡ case_lines c ++ rest) }
{}
