//! Questions about the history that there would be with changes of the log.

ghost use Rattle.std.specs.Prelude.{◌≡◌, ◌<◌, ◌≤◌, None, Ok, Some, true, IfOk, List, length};
ghost use Rattle.gp_base.specs.declared.refusal.Refusal.TheVariants.{E31};
ghost use Rattle.gp_check.specs.Valid.{changes_are_valid, tables_are_valid};
ghost use Rattle.gp_dump.specs.WholeDumps.{IsDump};
ghost use Rattle.gp_dump.specs.Views.{dump_view};
ghost use Rattle.gp_grammar.specs.Laws.{have_statements};
ghost use Rattle.gp_grammar.specs.Syntax as y;
ghost use Rattle.gp_log.specs.Contents.{commits, entries, tables};
ghost use Rattle.gp_log.specs.Parameters.{parameters};
ghost use Rattle.gp_machine.specs.Entries.{Entry, committer_of, versions_in};
ghost use Rattle.gp_machine.specs.Event.{name_at};
ghost use Rattle.gp_syntax.specs.Views.{changes_view, how_view, query_view, point_view, subject_view};
ghost use Rattle.gp_whatif.specs.Changed.{changed_log};
ghost use Rattle.gp_whatif.specs.Replays.{IsMade, IsReplayable};
ghost use Rattle.gp_ask.specs.Computed.{computed_answer};
ghost use Rattle.gp_ask.specs.Differences as d;
ghost use Rattle.gp_ask.specs.Printed.{query_to};
ghost use Rattle.gp_ask.specs.Programs.{program_lines};
ghost use Rattle.gp_ask.specs.ExplainedTexts.{ExplainsQuestion};
ghost use Rattle.gp_ask.specs.Hypothetical as h;
ghost use Rattle.gp_ask.specs.Hypothetical.{replayed_dump};
ghost use Rattle.gp_ask.specs.Values.{unless_refused};
ghost use Rattle.gp_whatif.specs.Remaking as r;

use crate::answered::Answered;
use crate::keeping::DumpAnnotations;
use crate::laws::changed_histories_answer_their_questions;
use crate::programs::program_answer;
use crate::queries::asked;
use crate::seeing::seen;
use crate::states::ask_answer;
use crate::valid::ValidQuery;
use crate::values::rules_refusal;
use gp_base::{Limit, NoMemory, Refusal, RowId, Sequence, Stop};
use gp_dump::Dump;
use gp_log::Log;
use gp_machine::conflicts_are_least;
use gp_syntax::{How, LogChange, Point, Query, Subject};
use gp_whatif::{
    Made, ReplayStop, changed_lines_rise, changed_logs_are_replayable, none_made, replay_from,
};
use std::alloc::Global;

// ---- refusals

/// What refuses a question about a state, whatever the rows are.
fn state_refusal(
    alloc: Global,
    log: &Log,
    how: &How,
    state: Point,
    query: &Query,
) -> Result<Option<Refusal>, NoMemory>
    ensures { IfOk result (λ refusal. refusal ≡ h.asking_refusal (entries log.now)
        (y.of_state (how_view how.now) (point_view state)) (query_view query.now)) }
{
    match asked(alloc, log, state, query) {
        Ok(_) => rules_refusal(alloc, how),
        Err(Stop::Refused(refusal)) => Ok(Some(refusal)),
        Err(Stop::NoMemory) => Err(NoMemory),
    }
}

/// What refuses a question about what a transaction saw, whatever the rows are.
fn saw_refusal(
    alloc: Global,
    log: &Log,
    t: u64,
    k: u64,
    query: &Query,
) -> Result<Option<Refusal>, NoMemory>
    ensures { IfOk result (λ refusal. refusal
        ≡ h.asking_refusal (entries log.now) (y.saw t k) (query_view query.now)) }
{
    match seen(alloc, log, t, k, query) {
        Ok(_) => Ok(None),
        Err(Stop::Refused(refusal)) => Ok(Some(refusal)),
        Err(Stop::NoMemory) => Err(NoMemory),
    }
}

/// What refuses a question on a log, whatever the rows are: E20 to E23 if the log has no such state, transaction or statement, then the
/// check of the query, then E28 for the rules of VALUE IN.
pub(crate) fn asking_refusal(
    alloc: Global,
    log: &Log,
    subject: &Subject,
    query: &Query,
) -> Result<Option<Refusal>, NoMemory>
    ensures { IfOk result (λ refusal. refusal ≡ h.asking_refusal (entries log.now)
        (subject_view subject.now) (query_view query.now)) }
{
    match subject {
        Subject::State { how, state } => state_refusal(alloc, log, how, *state, query),
        Subject::Saw { t, k } => saw_refusal(alloc, log, *t, *k, query),
    }
}

/// What refuses a question on the log with changes, whatever the rows are: the first change that is refused, or else what refuses it there.
pub(crate) fn changed_refusal(
    alloc: Global,
    dump: &Dump,
    changes: &[LogChange],
    subject: &Subject,
    query: &Query,
) -> Result<Option<Refusal>, NoMemory>
    requires rules { IsDump (dump_view dump.now) }
    requires statements { have_statements (changes_view changes.now) ≡ true }
    ensures { IfOk result (λ refusal. refusal ≡ d.refusal_on
        (changed_log parameters (dump_view dump.now).entries (changes_view changes.now))
        (subject_view subject.now) (query_view query.now)) }
{
    // The lines of a log are those of a script. The call does nothing.
    changed_lines_rise();
    match gp_whatif::change(alloc, &dump.log, changes) {
        Ok(log) => asking_refusal(alloc, &log, subject, query),
        Err(Stop::Refused(refusal)) => Ok(Some(refusal)),
        Err(Stop::NoMemory) => Err(NoMemory),
    }
}

/// The refusal of a commit that would be lost to another one.
fn lost(log: &Log, version: u32, other: u32, table: u32, id: RowId) -> Result<Refusal, NoMemory>
    requires { table < length (tables log.now) }
    ensures { IfOk result (λ refusal. refusal ≡ E31 (committer_of version (entries log.now))
        (committer_of other (entries log.now)) (name_at table (tables log.now)) id) }
{
    Ok(Refusal::E31 {
        t: log.maker(version),
        other: log.maker(other),
        table: log.catalog().table(table).name.clone()?,
        id,
    })
}

/// The refusal of the first commit that cannot be made again.
pub(crate) fn remaking_refusal(log: &Log, stop: ReplayStop) -> Result<Refusal, NoMemory>
    requires replayable { r.IsReplayable log.now }
    requires stops { r.IsStopOf log.now (commits log.now) stop }
    ensures { IfOk result (λ refusal. h.remaking_refusal (entries log.now) ≡ Some refusal) }
{
    // A commit is lost to a version of the log, for a row that it wrote. The call does nothing.
    conflicts_are_least();
    match stop {
        ReplayStop::Lost {
            version,
            other,
            table,
            id,
        } => lost(log, version, other, table, id),
        ReplayStop::Rows { t, k } => Ok(Refusal::E25 { t, k }),
        ReplayStop::Ancestry { t, k } => Ok(Refusal::E26 { t, k }),
        ReplayStop::Full => Ok(Refusal::E14 {
            limit: Limit::Versions,
        }),
        ReplayStop::NoMemory => Err(NoMemory),
    }
}

// ---- answers

/// The answer from the commits of a log, made again, unless one of them stops; some are made.
fn replayed_answer(
    alloc: Global,
    log: Log,
    made: Made,
    subject: &Subject,
    query: ValidQuery<'_>,
) -> Result<Answered, NoMemory>
    requires replayable { IsReplayable (entries log) }
    requires within { made.count ≤ versions_in (entries log) }
    requires made { IsMade (entries log) made.count made.versions.items }
    requires valid { tables_are_valid (tables log) ≡ true }
    ensures { IfOk result (λ answered. answered
        ≡ unless_refused (h.remaking_refusal (entries log)) (query_to (replayed_dump (entries log))
        (subject_view subject.now) (query_view query.entry.read.now))) }
{
    // The order of the row versions changes no answer. The call does nothing.
    changed_histories_answer_their_questions();
    match replay_from(alloc, &log, made) {
        Ok(versions) => {
            let versions = Sequence::from_vec(versions);
            let dump = Dump { log, versions };
            let mut kept = DumpAnnotations::new();
            ask_answer(alloc, &dump, subject, query, &mut kept)
        }
        Err(stop) => Ok(Answered::Refused(remaking_refusal(&log, stop)?)),
    }
}

/// The answer from the dump that the log makes, whose commits are made again without a change.
pub(crate) fn remade_history_answer(
    alloc: Global,
    dump: &Dump,
    subject: &Subject,
    query: ValidQuery<'_>,
) -> Result<Answered, NoMemory>
    requires rules { IsDump (dump_view dump.now) }
    requires made { h.remaking_refusal (dump_view dump.now).entries ≡ None }
    ensures { IfOk result (λ answered. answered
        ≡ query_to (replayed_dump (dump_view dump.now).entries) (subject_view subject.now)
        (query_view query.entry.read.now)) }
{
    // The lines of a log are those of a script. The call does nothing.
    changed_lines_rise();
    match gp_whatif::change(alloc, &dump.log, &[]) {
        Ok(log) => {
            let made = none_made(alloc, &log)?;
            replayed_answer(alloc, log, made, subject, query)
        }
        Err(Stop::Refused(_)) => unreachable!(),
        Err(Stop::NoMemory) => Err(NoMemory),
    }
}

/// The answer over the made rows, unless the question is refused before anything is run.
fn remade_rows(
    alloc: Global,
    log: Log,
    made: Made,
    subject: &Subject,
    query: ValidQuery<'_>,
) -> Result<Answered, NoMemory>
    requires replayable { IsReplayable (entries log) }
    requires within { made.count ≤ versions_in (entries log) }
    requires made { IsMade (entries log) made.count made.versions.items }
    requires valid { tables_are_valid (tables log) ≡ true }
    ensures { IfOk result (λ answered. answered ≡ unless_refused (h.asking_refusal (entries log)
        (subject_view subject.now) (query_view query.entry.read.now))
        (unless_refused (h.remaking_refusal (entries log)) (query_to (replayed_dump (entries log))
        (subject_view subject.now) (query_view query.entry.read.now)))) }
{
    match asking_refusal(alloc, &log, subject, query.read)? {
        Some(refusal) => Ok(Answered::Refused(refusal)),
        None => replayed_answer(alloc, log, made, subject, query),
    }
}

/// The answer to a question about a log whose commits are made again. EXPLAIN runs nothing, so it needs the log alone.
fn remade_answer(
    alloc: Global,
    log: Log,
    made: Made,
    subject: &Subject,
    query: ValidQuery<'_>,
) -> Result<Answered, NoMemory>
    requires replayable { IsReplayable (entries log) }
    requires within { made.count ≤ versions_in (entries log) }
    requires made { IsMade (entries log) made.count made.versions.items }
    requires valid { tables_are_valid (tables log) ≡ true }
    ensures answered { IfOk result (λ answered. answered
        ≡ h.remade_answer program_lines (query_to (replayed_dump (entries log))) (entries log)
        (subject_view subject.now) (query_view query.entry.read.now)) }
    ensures explained { IfOk result (λ answered. ExplainsQuestion (entries log)
        (y.ask (subject_view subject.now) (query_view query.entry.read.now))) }
{
    match subject {
        Subject::State { how, state } => match how {
            How::Explain { prov } => program_answer(alloc, &log, *prov, *state, query),
            _ => remade_rows(alloc, log, made, subject, query),
        },
        Subject::Saw { .. } => remade_rows(alloc, log, made, subject, query),
    }
}

/// The answer to a query over the history that there would be with changes of the log, of which the first commits are made
/// again. They are those of the changed log, if there is one.
pub fn what_if_from(
    alloc: Global,
    dump: &Dump,
    changes: &[LogChange],
    made: Made,
    subject: &Subject,
    query: ValidQuery<'_>,
) -> Result<Answered, NoMemory>
    requires rules { IsDump (dump_view dump.now) }
    requires statements { have_statements (changes_view changes.now) ≡ true }
    requires changes { changes_are_valid (changes_view changes.now) ≡ true }
    requires made { (new : List Entry)
        → changed_log parameters (dump_view dump.now).entries (changes_view changes.now) ≡ Ok new
        → (made.count ≤ versions_in new) × IsMade new made.count made.versions.items }
    ensures answered { IfOk result (λ answered. answered ≡ computed_answer (dump_view dump.now) (y.what_if
        (changes_view changes.now) (subject_view subject.now) (query_view query.entry.read.now))) }
    ensures explained { IfOk result (λ answered. ExplainsQuestion (dump_view dump.now).entries
        (y.what_if (changes_view changes.now) (subject_view subject.now)
        (query_view query.entry.read.now))) }
{
    // The lines of a log are those of a script, and a changed log has its tables. The calls do nothing.
    changed_lines_rise();
    changed_logs_are_replayable();
    match gp_whatif::change(alloc, &dump.log, changes) {
        Ok(log) => remade_answer(alloc, log, made, subject, query),
        Err(Stop::Refused(refusal)) => Ok(Answered::Refused(refusal)),
        Err(Stop::NoMemory) => Err(NoMemory),
    }
}

/// The answer to a query over the history that there would be with changes of the log: its commits are made again, from
/// nothing, and its rows, their provenance and their values are those of that history.
///
/// The first change that is refused comes first (E20 to E22, E14, or the check of its statement), then the question on the changed log (E20
/// to E23, the check of its query, and E28), then the first commit that cannot be made again: E25, E26, E31 if it would be lost, or E14 if
/// there would be too many row versions. A SAW of a transaction that did not commit is refused for its own statements then (E25, E26). E27
/// comes last. EXPLAIN runs nothing, so no commit stops it.
pub fn what_if_answer(
    alloc: Global,
    dump: &Dump,
    changes: &[LogChange],
    subject: &Subject,
    query: ValidQuery<'_>,
) -> Result<Answered, NoMemory>
    requires rules { IsDump (dump_view dump.now) }
    requires statements { have_statements (changes_view changes.now) ≡ true }
    requires changes { changes_are_valid (changes_view changes.now) ≡ true }
    ensures answered { IfOk result (λ answered. answered ≡ computed_answer (dump_view dump.now) (y.what_if
        (changes_view changes.now) (subject_view subject.now) (query_view query.entry.read.now))) }
    ensures explained { IfOk result (λ answered. ExplainsQuestion (dump_view dump.now).entries
        (y.what_if (changes_view changes.now) (subject_view subject.now)
        (query_view query.entry.read.now))) }
{
    // A changed log has the tables of the log. The call does nothing.
    changed_logs_are_replayable();
    let made = none_made(alloc, &dump.log)?;
    what_if_from(alloc, dump, changes, made, subject, query)
}
