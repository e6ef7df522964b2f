//! Questions about a history with changes, of which the last one is remembered: the next question with the same changes is asked of it.

ghost use Rattle.std.specs.Prelude.{◌≡◌, true, false, None, Ok, IfOk};
ghost use Rattle.gp_check.specs.Valid.{changes_are_valid, tables_are_valid};
ghost use Rattle.gp_dump.specs.WholeDumps.{IsDump};
ghost use Rattle.gp_dump.specs.Views.{dump_view};
ghost use Rattle.gp_dump.specs.declared.dump.Dump as d;
ghost use Rattle.gp_grammar.specs.Laws.{have_statements};
ghost use Rattle.gp_grammar.specs.Syntax as y;
ghost use Rattle.gp_log.specs.Contents.{entries, tables};
ghost use Rattle.gp_log.specs.Parameters.{parameters};
ghost use Rattle.gp_machine.specs.Entries.{versions_in};
ghost use Rattle.gp_syntax.specs.Views.{changes_view, query_view, subject_view};
ghost use Rattle.gp_whatif.specs.Changed.{changed_log};
ghost use Rattle.gp_whatif.specs.Replays.{IsMade, IsReplayable};
ghost use Rattle.gp_ask.specs.Computed.{computed_answer};
ghost use Rattle.gp_ask.specs.ExplainedTexts.{ExplainsQuestion};
ghost use Rattle.gp_ask.specs.Hypothetical as h;
ghost use Rattle.gp_ask.specs.Hypothetical.{replayed_dump};
ghost use Rattle.gp_ask.specs.Keeping.{AreAnnotations, HasChanges, MayBeChanged, Remakes, is_explained};
ghost use Rattle.gp_ask.specs.Printed.{query_to};
ghost use Rattle.gp_ask.specs.Values.{unless_refused};

use crate::answered::Answered;
use crate::hypothetical::{asking_refusal, remaking_refusal, what_if_answer};
use crate::keeping::{DumpAnnotations, KeptHistory, copy_changes, take_history};
use crate::laws::changed_histories_answer_their_questions;
use crate::states::ask_answer;
use crate::valid::ValidQuery;
use gp_base::{NoMemory, Refusal, Sequence, Stop};
use gp_dump::Dump;
use gp_log::Log;
use gp_syntax::{How, LogChange, Subject};
use gp_whatif::{changed_lines_rise, changed_logs_are_replayable, replay};
use std::alloc::Global;

/// Whether a program is asked for. It needs the log alone.
fn is_explained(subject: &Subject) -> bool
    ensures { result ≡ is_explained (subject_view subject.now) }
{
    match subject {
        Subject::State { how, .. } => match how {
            How::Explain { .. } => true,
            _ => false,
        },
        Subject::Saw { .. } => false,
    }
}

/// The dump that a log makes, or the refusal of the first commit that cannot be made again.
fn remade(alloc: Global, log: Log) -> Result<Result<Dump, Refusal>, NoMemory>
    requires replayable { IsReplayable (entries log) }
    requires valid { tables_are_valid (tables log) ≡ true }
    ensures { IfOk result (Remakes (entries log)) }
{
    match replay(alloc, &log) {
        Ok(versions) => {
            let versions = Sequence::from_vec(versions);
            Ok(Ok(Dump { log, versions }))
        }
        Err(stop) => Ok(Err(remaking_refusal(&log, stop)?)),
    }
}

/// The answer over a dump that its log makes.
fn made_rows(
    alloc: Global,
    dump: &Dump,
    subject: &Subject,
    query: ValidQuery<'_>,
    annotations: &mut DumpAnnotations,
) -> Result<Answered, NoMemory>
    requires made { IsMade (dump_view dump.now).entries (versions_in (dump_view dump.now).entries)
        dump.now.versions }
    requires annotations { AreAnnotations dump.now annotations.old }
    ensures annotations { AreAnnotations dump.now annotations.new }
    ensures answered { IfOk result (λ answered. answered
        ≡ query_to (replayed_dump (dump_view dump.now).entries) (subject_view subject.now)
        (query_view query.entry.read.now)) }
{
    // The order of the row versions changes no answer. The call does nothing.
    changed_histories_answer_their_questions();
    ask_answer(alloc, dump, subject, query, annotations)
}

/// The answer over a history with changes, which is remembered.
fn remembered_rows(
    alloc: Global,
    own: KeptHistory,
    subject: &Subject,
    query: ValidQuery<'_>,
    slot: &mut Option<KeptHistory>,
) -> Result<Answered, NoMemory>
    requires made { IsMade (dump_view own.dump).entries (versions_in (dump_view own.dump).entries)
        own.dump.versions }
    requires annotations { AreAnnotations own.dump own.annotations }
    ensures kept { (dump : d.Dump) → changed_log parameters (dump_view dump).entries
        (changes_view own.changes) ≡ Ok (dump_view own.dump).entries → MayBeChanged dump slot.new }
    ensures answered { IfOk result (λ answered. answered
        ≡ query_to (replayed_dump (dump_view own.dump).entries) (subject_view subject.now)
        (query_view query.entry.read.now)) }
{
    let KeptHistory {
        changes,
        dump,
        mut annotations,
    } = own;
    let found = made_rows(alloc, &dump, subject, query, &mut annotations);
    *slot = Some(KeptHistory {
        changes,
        dump,
        annotations,
    });
    found
}

/// The answer over a history with changes that was remembered, unless the question is refused before its rows.
fn answer_again(
    alloc: Global,
    own: KeptHistory,
    subject: &Subject,
    query: ValidQuery<'_>,
    slot: &mut Option<KeptHistory>,
) -> Result<Answered, NoMemory>
    requires made { IsMade (dump_view own.dump).entries (versions_in (dump_view own.dump).entries)
        own.dump.versions }
    requires annotations { AreAnnotations own.dump own.annotations }
    requires empty { slot.old ≡ None }
    ensures kept { (dump : d.Dump) → changed_log parameters (dump_view dump).entries
        (changes_view own.changes) ≡ Ok (dump_view own.dump).entries → MayBeChanged dump slot.new }
    ensures answered { IfOk result (λ answered. answered
        ≡ unless_refused (h.asking_refusal (dump_view own.dump).entries (subject_view subject.now)
        (query_view query.entry.read.now)) (query_to (replayed_dump (dump_view own.dump).entries)
        (subject_view subject.now) (query_view query.entry.read.now))) }
{
    match asking_refusal(alloc, &own.dump.log, subject, query.read)? {
        Some(refusal) => {
            *slot = Some(own);
            Ok(Answered::Refused(refusal))
        }
        None => remembered_rows(alloc, own, subject, query, slot),
    }
}

/// The answer over the dump that a log with changes makes, unless one of its commits stops.
fn remade_rows(
    alloc: Global,
    log: Log,
    changes: &[LogChange],
    subject: &Subject,
    query: ValidQuery<'_>,
    slot: &mut Option<KeptHistory>,
) -> Result<Answered, NoMemory>
    requires replayable { IsReplayable (entries log) }
    requires valid { tables_are_valid (tables log) ≡ true }
    requires empty { slot.old ≡ None }
    ensures kept { (dump : d.Dump) → changed_log parameters (dump_view dump).entries
        (changes_view changes.now) ≡ Ok (entries log) → MayBeChanged dump slot.new }
    ensures answered { IfOk result (λ answered. answered
        ≡ unless_refused (h.remaking_refusal (entries log)) (query_to (replayed_dump (entries log))
        (subject_view subject.now) (query_view query.entry.read.now))) }
{
    match remade(alloc, log)? {
        Err(refusal) => Ok(Answered::Refused(refusal)),
        Ok(dump) => {
            let own = KeptHistory {
                changes: copy_changes(alloc, changes)?,
                dump,
                annotations: DumpAnnotations::new(),
            };
            remembered_rows(alloc, own, subject, query, slot)
        }
    }
}

/// The answer over the dump that a log with changes makes, unless the question is refused before anything is run.
fn remade_answer(
    alloc: Global,
    log: Log,
    changes: &[LogChange],
    subject: &Subject,
    query: ValidQuery<'_>,
    slot: &mut Option<KeptHistory>,
) -> Result<Answered, NoMemory>
    requires replayable { IsReplayable (entries log) }
    requires valid { tables_are_valid (tables log) ≡ true }
    requires empty { slot.old ≡ None }
    ensures kept { (dump : d.Dump) → changed_log parameters (dump_view dump).entries
        (changes_view changes.now) ≡ Ok (entries log) → MayBeChanged dump slot.new }
    ensures answered { IfOk result (λ answered. answered ≡ unless_refused (h.asking_refusal
        (entries log) (subject_view subject.now) (query_view query.entry.read.now))
        (unless_refused (h.remaking_refusal (entries log)) (query_to (replayed_dump (entries log))
        (subject_view subject.now) (query_view query.entry.read.now)))) }
{
    match asking_refusal(alloc, &log, subject, query.read)? {
        Some(refusal) => Ok(Answered::Refused(refusal)),
        None => remade_rows(alloc, log, changes, subject, query, slot),
    }
}

/// The answer to a question with other changes than the one before. The history that these make is remembered.
fn answer_anew(
    alloc: Global,
    dump: &Dump,
    changes: &[LogChange],
    subject: &Subject,
    query: ValidQuery<'_>,
    slot: &mut Option<KeptHistory>,
) -> Result<Answered, NoMemory>
    requires rules { IsDump (dump_view dump.now) }
    requires statements { have_statements (changes_view changes.now) ≡ true }
    requires changes { changes_are_valid (changes_view changes.now) ≡ true }
    requires rows { is_explained (subject_view subject.now) ≡ false }
    requires empty { slot.old ≡ None }
    ensures kept { MayBeChanged dump.now slot.new }
    ensures answered { IfOk result (λ answered. answered ≡ computed_answer (dump_view dump.now) (y.what_if
        (changes_view changes.now) (subject_view subject.now) (query_view query.entry.read.now))) }
{
    // The lines of a log are those of a script, and a changed log has its tables. The calls do nothing.
    changed_lines_rise();
    changed_logs_are_replayable();
    match gp_whatif::change(alloc, &dump.log, changes) {
        Ok(log) => remade_answer(alloc, log, changes, subject, query, slot),
        Err(Stop::Refused(refusal)) => Ok(Answered::Refused(refusal)),
        Err(Stop::NoMemory) => Err(NoMemory),
    }
}

/// The answer over the history that there would be with changes, where rows are asked for.
fn rows_answer(
    alloc: Global,
    dump: &Dump,
    changes: &[LogChange],
    subject: &Subject,
    query: ValidQuery<'_>,
    slot: &mut Option<KeptHistory>,
) -> Result<Answered, NoMemory>
    requires rules { IsDump (dump_view dump.now) }
    requires statements { have_statements (changes_view changes.now) ≡ true }
    requires changes { changes_are_valid (changes_view changes.now) ≡ true }
    requires rows { is_explained (subject_view subject.now) ≡ false }
    requires kept { MayBeChanged dump.now slot.old }
    ensures kept { MayBeChanged dump.now slot.new }
    ensures answered { IfOk result (λ answered. answered ≡ computed_answer (dump_view dump.now) (y.what_if
        (changes_view changes.now) (subject_view subject.now) (query_view query.entry.read.now))) }
{
    match take_history(slot, changes) {
        Some(own) => answer_again(alloc, own, subject, query, slot),
        None => answer_anew(alloc, dump, changes, subject, query, slot),
    }
}

/// Answers as [`what_if_answer`] does, from the history that the last question left, if it had the same changes, and leaves its own. A
/// question that is refused before its rows, or by a commit that cannot be made again, leaves none.
pub fn what_if_kept(
    alloc: Global,
    dump: &Dump,
    changes: &[LogChange],
    subject: &Subject,
    query: ValidQuery<'_>,
    slot: &mut Option<KeptHistory>,
) -> Result<Answered, NoMemory>
    requires rules { IsDump (dump_view dump.now) }
    requires statements { have_statements (changes_view changes.now) ≡ true }
    requires changes { changes_are_valid (changes_view changes.now) ≡ true }
    requires kept { MayBeChanged dump.now slot.old }
    ensures kept { MayBeChanged dump.now slot.new }
    ensures answered { IfOk result (λ answered. answered ≡ computed_answer (dump_view dump.now) (y.what_if
        (changes_view changes.now) (subject_view subject.now) (query_view query.entry.read.now))) }
    ensures explained { IfOk result (λ answered. ExplainsQuestion (dump_view dump.now).entries
        (y.what_if (changes_view changes.now) (subject_view subject.now)
        (query_view query.entry.read.now))) }
{
    if is_explained(subject) {
        return what_if_answer(alloc, dump, changes, subject, query);
    }
    rows_answer(alloc, dump, changes, subject, query, slot)
}
