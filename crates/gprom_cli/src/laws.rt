//! Laws of dumps, of the dumps of scripts, and of calls over files in memory. Each function does nothing: its postconditions are the laws, and it cites laws of the crates below.

ghost use Rattle.std.specs.Prelude.{◌≡◌, ◌≤◌, ℕ, List, ◌++◌, None, Some, length};
ghost use Rattle.gp_base.specs.Annotated.{monomials, unannotated};
ghost use Rattle.gp_grammar.specs.Syntax as y;
ghost use Rattle.gp_io.specs.Contents.{contents_of};
ghost use Rattle.gp_io.specs.MemoryFiles.{calm_files, mem_files};
ghost use Rattle.gp_io.specs.declared.calm.CalmShelf.{CalmShelf};
ghost use Rattle.gp_io.specs.declared.mem.MemShelf.{MemShelf};
ghost use Rattle.gp_log.specs.LogFacts.{tables_in};
ghost use Rattle.gp_log.specs.Parameters.{parameters};
ghost use Rattle.gp_machine.specs.Event.{Line, after};
ghost use Rattle.gp_machine.specs.State.{start};
ghost use Rattle.gp_replay.specs.Differences.{IsOfHistory, difference};
ghost use Rattle.gp_replay.specs.FirstDifferences.{DiffersFirst};
ghost use Rattle.gp_script.specs.Scripts.{final_state};
ghost use Rattle.gp_dump.specs.Dumps.{Dump, dump_of};
ghost use Rattle.gp_dump.specs.WholeDumps.{IsDump};
ghost use Rattle.gp_ask.specs.declared.format.Format.{Format};
ghost use Rattle.gp_ask.specs.Answers as answers;
ghost use Rattle.gp_ask.specs.Asking.{Programs};
ghost use Rattle.gp_ask.specs.Printed.{held_to};
ghost use Rattle.gp_ask.specs.Programs.{programs_in};
ghost use Rattle.gp_ask.specs.Computed.{computed_answer};
ghost use Rattle.gp_ask.specs.Hypothetical.{remaking_refusal, replayed_dump};
ghost use Rattle.gp_ask.specs.QuestionFiles.{answers_text, has_refused};
ghost use Rattle.gprom_cli.specs.Call.{Call};
ghost use Rattle.gprom_cli.specs.Consequences.{Consequences};
ghost use Rattle.gprom_cli.specs.OverFiles.{OverFiles};
ghost use Rattle.gprom_cli.specs.Promises.{Promises};
ghost use Rattle.gprom_cli.specs.Steps.{file_answers, file_refused};
ghost use Rattle.gprom_cli.specs.Summaries.{rows_in};

use gp_ask::{
    dumps_answer_as_changed_histories, histories_answer_as_their_dumps,
    histories_answer_with_any_programs,
};
use gp_base::Monomial;
use gp_dump::dumps_of_histories_are_well_formed;
use gp_io::{CalmShelf, MemShelf, Shelf, events_lead_to_files};
use gp_replay::{differences_are_first, dumps_of_histories_do_not_differ};
use gp_script::{MAX_SCRIPT_LENGTH, lines_of_scripts_are_script_lines, scripts_lead_to_histories};
use gp_whatif::histories_are_replayed_as_they_were;

/// The dump of every script is well formed, and the answers that are computed from it have as many rows as those that the annotated history
/// of the script held. The commits of its log, made again with nothing changed, do not stop, and lead to this dump (`unchanged`).
pub fn scripts_have_well_formed_dumps()
    ensures formed { (script : List ℕ) → length script ≤ MAX_SCRIPT_LENGTH
        → IsDump (dump_of (final_state unannotated script)) }
    ensures rows { (script questions : List ℕ) → length script ≤ MAX_SCRIPT_LENGTH
        → rows_in (computed_answer (dump_of (final_state unannotated script))) questions
        ≡ rows_in (held_to (final_state monomials script)) questions }
    ensures unchanged { (script : List ℕ) → length script ≤ MAX_SCRIPT_LENGTH
        → (remaking_refusal (final_state unannotated script).entries ≡ None)
        × (replayed_dump (final_state unannotated script).entries
        ≡ dump_of (final_state unannotated script)) }
{
    scripts_lead_to_histories::<()>();
    scripts_lead_to_histories::<Monomial>();
    lines_of_scripts_are_script_lines();
    dumps_of_histories_are_well_formed();
    histories_are_replayed_as_they_were();
    histories_answer_as_their_dumps();
    dumps_answer_as_changed_histories()
}

/// The dump of every history, of whatever lines of a script, answers every question as the history held it, whichever programs answer
/// explained questions (`held`). A dump that keeps the
/// rules is that of a history where CHECK finds no difference (`checked`), and the line of a difference is the first that is not as the log
/// makes it (`first`).
pub fn dumps_of_histories_are_known()
    ensures held { (programs : Programs) (lines : List Line) (question : y.Question)
        → answers.answer_to programs (dump_of (after unannotated parameters start lines)) question
        ≡ answers.held_to programs (after monomials parameters start lines) question }
    ensures checked { (dump : Dump) → IsDump dump → difference dump ≡ None → IsOfHistory dump }
    ensures first { (dump : Dump) (line : ℕ) → IsDump dump
        → difference dump ≡ Some line → DiffersFirst dump line }
{
    dumps_of_histories_do_not_differ();
    differences_are_first();
    histories_answer_with_any_programs()
}

/// Every well-formed dump answers every file of questions with what the histories held that would have been, where a question asks what
/// would be with a change: with the same text in each format, and refusing a question where that history refuses it.
pub fn dumps_answer_for_changed_histories()
    ensures answers { (format : Format) (dump : Dump) (questions : List ℕ) → IsDump dump
        → file_answers format dump questions
        ≡ answers_text format (tables_in dump.entries)
        (answers.answer_to (programs_in format) dump) questions }
    ensures refusals { (format : Format) (dump : Dump) (questions : List ℕ) → IsDump dump
        → file_refused format dump questions
        ≡ has_refused format (tables_in dump.entries)
        (answers.answer_to (programs_in format) dump) questions }
{
    dumps_answer_as_changed_histories()
}

/// What a call promises determines what it writes and what becomes of the files, by its arguments and by what the shelf has done, and each
/// status has its cause. Of `gen` it determines the first line; the others are told by [`generate`](crate::generate).
pub fn promises_have_consequences()
    ensures { (call : Call) (promises : Promises call) → Consequences promises.shown call }
{}

/// What a call promises of what the shelf has done, it promises of the files, where the shelf knows them: which files were read, and what they are
/// after the call.
pub fn calls_keep_promises_over_files()
    ensures calm { (call : Call) (before after : CalmShelf) (promises : Promises call)
        → ⟦<CalmShelf as Shelf>⟧.events after ≡ ⟦<CalmShelf as Shelf>⟧.events before ++ call.events
        → OverFiles promises.shown call (contents_of (calm_files before)) (contents_of (calm_files after)) }
    ensures mem { (call : Call) (before after : MemShelf) (promises : Promises call)
        → ⟦<MemShelf as Shelf>⟧.events after ≡ ⟦<MemShelf as Shelf>⟧.events before ++ call.events
        → OverFiles promises.shown call (contents_of (mem_files before)) (contents_of (mem_files after)) }
{
    promises_have_consequences();
    events_lead_to_files()
}
