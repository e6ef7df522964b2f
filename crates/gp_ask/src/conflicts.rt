//! The rows on which a transaction met another one.

ghost use Rattle.std.specs.Prelude.{◌≡◌, ◌+◌, ◌^◌, ◌++◌, ◌<◌, ◌≤◌, None, Some, true, IfOk, OnOk, length};
ghost use Rattle.std.specs.Option.{option_copied};
ghost use Rattle.std.specs.BTreeMap.{get};
ghost use Rattle.gp_base.specs.Identities.{Identity, identity_cmp};
ghost use Rattle.gp_algebra.specs.Views.{statement_view};
ghost use Rattle.gp_dump.specs.Views.{dump_view};
ghost use Rattle.gp_log.specs.Contents.{entries};
ghost use Rattle.gp_log.specs.Logs.{entry_view};
ghost use Rattle.gp_machine.specs.Entries as m;
ghost use Rattle.gp_machine.specs.Questions.{is_known};
ghost use Rattle.gp_versions.specs.TableSpans.{least};
ghost use Rattle.gp_ask.specs.ConflictForms as f;
ghost use Rattle.gp_ask.specs.Keyed.{identity_of};
ghost use Rattle.gp_ask.specs.Looked as l;
ghost use Rattle.gp_ask.specs.RowConflicts as s;
ghost use Rattle.gp_ask.specs.RowLines.{keyed_from};

use crate::answered::{Answered, Heading};
use crate::changes::{identity_of, transaction_number};
use crate::logs::is_known;
use crate::looking::{WritingStmt, is_written, rows_of, stop_of, writing};
use crate::row_lines::{first_texts, push_line};
use crate::row_versions::spans_of;
use gp_base::{Name, NoMemory, Refusal, Row, RowId, text_of_pieces, write_id};
use gp_dump::Dump;
use gp_log::{Entry, Log, What};
use gp_versions::Span;
use std::alloc::Global;
use std::collections::BTreeMap;

// ---- the end of a transaction

/// Whether an entry ends a transaction.
fn ends(entry: &Entry, t: u32) -> bool
    ensures { result ≡ f.ends t (entry_view entry.now) }
{
    match entry.what {
        What::Commit | What::Lost | What::Rollback => entry.t == t,
        _ => false,
    }
}

/// The number, if the entry ends the transaction; else what is found already.
fn before_end(entry: &Entry, t: u32, commits: u32, found: Option<u32>) -> Option<u32>
    ensures { result ≡ f.found_at t commits (entry_view entry.now) found }
{
    if ends(entry, t) { Some(commits) } else { found }
}

/// The number of commits with an entry.
fn counted(entry: &Entry, commits: u32) -> u32
    requires { commits + 1 < 2 ^ 32 }
    ensures { result ≡ f.counted (entry_view entry.now) commits }
{
    match entry.what {
        What::Commit => commits + 1,
        _ => commits,
    }
}

/// How many commits came before the end of a transaction; where it has not ended, all of them.
fn commits_before_end(log: &Log, t: u32) -> u32
    ensures { result ≡ s.commits_before_end t (entries log.now) }
{
    let mut commits = 0u32;
    let mut found = None;
    for place in 0..log.len() {
        let entry = log.entry(place);
        found = before_end(entry, t, commits, found);
        commits = counted(entry, commits);
    }
    found.unwrap_or(commits)
}

// ---- the commits that wrote the rows of a table

/// The lesser of two versions, where there are any.
fn lesser(left: Option<u32>, right: Option<u32>) -> Option<u32>
    ensures { result ≡ least left right }
{
    match (left, right) {
        (None, _) => right,
        (Some(_), None) => left,
        (Some(version), Some(other)) => Some(if version <= other { version } else { other }),
    }
}

/// A version, if it is after one and not after another.
fn within(base: u32, upto: u32, version: u32) -> Option<u32>
    ensures { result ≡ f.within base upto version }
{
    if base < version && version <= upto {
        Some(version)
    } else {
        None
    }
}

/// The first version, after one and up to another, at which a span begins or ends.
fn met_by(base: u32, upto: u32, span: &Span) -> Option<u32>
    ensures { result ≡ f.met_by base upto span.now }
{
    let ended = match span.to {
        Some(to) => within(base, upto, to),
        None => None,
    };
    lesser(within(base, upto, span.from), ended)
}

/// Whether a span begins or ends at a version after one and up to another.
fn any_met(base: u32, upto: u32, spans: &[Span]) -> bool
    ensures { result ≡ f.any_met base upto spans.now }
{
    for span in spans {
        if met_by(base, upto, span).is_some() {
            return true;
        }
    }
    false
}

/// The lesser of a version that may be noted and another one.
fn first_of(noted: Option<&u32>, version: u32) -> u32
    ensures { Some result ≡ least (option_copied noted.entry) (Some version) }
{
    match noted {
        Some(other) => { if *other <= version { *other } else { version } }
        None => version,
    }
}

/// Notes the version for an identity, unless a lesser one is noted.
fn note(met: &mut BTreeMap<RowId, u32>, id: &RowId, version: u32) -> Result<(), NoMemory>
    ensures { OnOk result ((other : Identity) → get identity_cmp met.new other
        ≡ least (get identity_cmp met.old other) (f.noted other id.now version)) }
{
    let first = first_of(met.get(id), version);
    met.insert(id.clone()?, first)?;
    Ok(())
}

/// Notes the first version, after one and up to another, at which a span begins or ends.
fn note_span(
    met: &mut BTreeMap<RowId, u32>,
    base: u32,
    upto: u32,
    span: &Span,
) -> Result<(), NoMemory>
    ensures { OnOk result ((id : Identity) → get identity_cmp met.new id
        ≡ least (get identity_cmp met.old id) (f.met_at base upto id span.now)) }
{
    match met_by(base, upto, span) {
        Some(version) => note(met, &span.id, version),
        None => Ok(()),
    }
}

/// The first version, after one and up to another, at which a span of each identity begins or ends.
fn met_in(
    alloc: Global,
    base: u32,
    upto: u32,
    spans: &[Span],
) -> Result<BTreeMap<RowId, u32>, NoMemory>
    ensures { IfOk result (λ met. (id : Identity)
        → get identity_cmp met id ≡ f.met_in base upto id spans.now) }
{
    let mut met = BTreeMap::new(alloc);
    for span in spans {
        note_span(&mut met, base, upto, span)?;
    }
    Ok(met)
}

// ---- lines

/// The line of a row with its base, and the first version after it that wrote the row.
fn conflict_text(
    alloc: Global,
    log: &Log,
    name: &Name,
    id: &RowId,
    base: u32,
    version: u32,
) -> Result<Vec<u8>, NoMemory>
    ensures { IfOk result (λ text. text.items ≡ s.conflict_text name.now id.now base
        (m.committer_of version (entries log.now)) version) }
{
    let mut identity = Vec::new(alloc);
    write_id(alloc, id, &mut identity)?;
    let base = base.to_string(alloc)?;
    let maker = log.maker(version).to_string(alloc)?;
    let version = version.to_string(alloc)?;
    text_of_pieces(
        alloc,
        &[
            name.as_bytes(),
            b" ",
            &identity,
            b" at ",
            base.as_bytes(),
            b" : ",
            maker.as_bytes(),
            b" wrote it as ",
            version.as_bytes(),
        ],
    )
}

/// A statement whose rows may be in conflict.
#[derive(Clone, Copy)]
pub(crate) struct Looking<'a> {
    /// The log.
    pub log: &'a Log,
    /// The statement.
    pub own: WritingStmt<'a>,
    /// The name of its table.
    pub name: &'a Name,
    /// The version that it read.
    pub base: u32,
    /// The first version after it that wrote a row, by identity.
    pub met: &'a BTreeMap<RowId, u32>,
}

/// Adds the line of a row, if another commit wrote it.
fn push_met(
    alloc: Global,
    looking: &Looking<'_>,
    id: &RowId,
    lines: &mut Vec<Row>,
) -> Result<(), NoMemory>
    ensures { OnOk result (lines.new.items ≡ lines.old.items ++ keyed_from (length lines.old.items)
        (f.met_line (entries looking.now.log.now) looking.now.name.now
        (get identity_cmp looking.now.met.now) looking.now.base looking.now.own.t looking.now.own.k
        (statement_view looking.now.own.stmt.now) looking.now.own.table
        id.now (get identity_cmp looking.now.met.now id.now))) }
{
    match looking.met.get(id) {
        Some(version) => {
            let text = conflict_text(alloc, looking.log, looking.name, id, looking.base, *version)?;
            push_line(alloc, looking.own.table, id, &text, lines)
        }
        None => Ok(()),
    }
}

/// Adds the line of a row, if the statement wrote it, and another commit did.
fn push_written(
    alloc: Global,
    looking: &Looking<'_>,
    id: &RowId,
    row: &Row,
    lines: &mut Vec<Row>,
) -> Result<(), NoMemory>
    ensures { OnOk result (lines.new.items ≡ lines.old.items ++ keyed_from (length lines.old.items)
        (f.row_conflict (entries looking.now.log.now) looking.now.name.now
        (get identity_cmp looking.now.met.now) looking.now.base looking.now.own.t looking.now.own.k
        (statement_view looking.now.own.stmt.now) looking.now.own.table row.now (Some id.now))) }
{
    if !is_written(&looking.own, id, row) {
        return Ok(());
    }
    push_met(alloc, looking, id, lines)
}

/// Adds the line of a row by which one looks at the statement, if it has an identity, the statement wrote it, and another commit did.
fn push_row(
    alloc: Global,
    looking: &Looking<'_>,
    row: &Row,
    lines: &mut Vec<Row>,
) -> Result<(), NoMemory>
    ensures { OnOk result (lines.new.items ≡ lines.old.items ++ keyed_from (length lines.old.items)
        (f.row_conflict (entries looking.now.log.now) looking.now.name.now
        (get identity_cmp looking.now.met.now) looking.now.base looking.now.own.t looking.now.own.k
        (statement_view looking.now.own.stmt.now) looking.now.own.table
        row.now (identity_of row.now))) }
{
    match identity_of(row) {
        Some(id) => push_written(alloc, looking, id, row, lines),
        None => Ok(()),
    }
}

/// Adds the lines of the rows by which one looks at a statement.
fn push_rows(
    alloc: Global,
    looking: &Looking<'_>,
    rows: &[Row],
    lines: &mut Vec<Row>,
) -> Result<(), NoMemory>
    ensures { OnOk result (lines.new.items ≡ lines.old.items ++ keyed_from (length lines.old.items)
        (f.rows_conflicts (entries looking.now.log.now) looking.now.name.now
        (get identity_cmp looking.now.met.now) looking.now.base looking.now.own.t looking.now.own.k
        (statement_view looking.now.own.stmt.now) looking.now.own.table rows.now)) }
{
    for row in rows {
        push_row(alloc, looking, row, lines)?;
    }
    Ok(())
}

/// Adds the lines of the rows that a statement wrote. Where no commit wrote its table meanwhile, nothing is run.
fn push_writing(
    alloc: Global,
    dump: &Dump,
    upto: u32,
    statement: &WritingStmt<'_>,
    lines: &mut Vec<Row>,
) -> Result<(), NoMemory>
    requires logged { l.IsWriting (dump_view dump.now).entries statement.now }
    requires runs { l.stop_of (dump_view dump.now) statement.now.t ≡ None }
    ensures { OnOk result (lines.new.items ≡ lines.old.items ++ keyed_from (length lines.old.items)
        (f.writing_conflicts (dump_view dump.now) upto statement.now.t statement.now.k
        (statement_view statement.now.stmt.now) statement.now.table)) }
{
    let spans = spans_of(dump, statement.table);
    let base = dump.log.version_read_by(statement.t, statement.k);
    if !any_met(base, upto, spans) {
        return Ok(());
    }
    let met = met_in(alloc, base, upto, spans)?;
    let rows = rows_of(alloc, dump, statement)?;
    let looking = Looking {
        log: &dump.log,
        own: *statement,
        name: &dump.log.catalog().table(statement.table).name,
        base,
        met: &met,
    };
    push_rows(alloc, &looking, &rows, lines)
}

/// Adds the lines of the rows that statement k of a transaction wrote.
fn push_statement(
    alloc: Global,
    dump: &Dump,
    t: u32,
    k: u32,
    upto: u32,
    lines: &mut Vec<Row>,
) -> Result<(), NoMemory>
    requires known { is_known t (dump_view dump.now).entries ≡ true }
    requires first { 0 < k }
    requires most { k ≤ m.statement_count t (dump_view dump.now).entries }
    requires runs { l.stop_of (dump_view dump.now) t ≡ None }
    ensures { OnOk result (lines.new.items ≡ lines.old.items ++ keyed_from (length lines.old.items)
        (f.statement_conflicts (dump_view dump.now) upto t k
        (m.statement_at t k (dump_view dump.now).entries))) }
{
    match writing(&dump.log, t, k) {
        Some(statement) => push_writing(alloc, dump, upto, &statement, lines),
        None => Ok(()),
    }
}

/// The lines of the rows that a transaction wrote, and that a commit wrote up to a version, by statement.
fn conflict_lines(alloc: Global, dump: &Dump, t: u32, upto: u32) -> Result<Vec<Row>, NoMemory>
    requires known { is_known t (dump_view dump.now).entries ≡ true }
    requires runs { l.stop_of (dump_view dump.now) t ≡ None }
    ensures { IfOk result (λ lines. lines.items ≡ keyed_from 0 (f.first_conflicts (dump_view dump.now)
        upto t (m.statement_count t (dump_view dump.now).entries))) }
{
    let mut lines = Vec::new(alloc);
    for before in 0..dump.log.statement_count(t) {
        push_statement(alloc, dump, t, before + 1, upto, &mut lines)?;
    }
    Ok(lines)
}

/// The conflicts of a transaction that does not stop.
fn conflicts_of(alloc: Global, dump: &Dump, t: u32) -> Result<Answered, NoMemory>
    requires known { is_known t (dump_view dump.now).entries ≡ true }
    requires runs { l.stop_of (dump_view dump.now) t ≡ None }
    ensures { IfOk result (λ answered. answered ≡ s.dump_conflicts (dump_view dump.now) t) }
{
    let upto = commits_before_end(&dump.log, t);
    let lines = conflict_lines(alloc, dump, t, upto)?;
    Ok(Answered::Lines(Heading::Conflicts, first_texts(alloc, lines)?))
}

/// The conflicts of a transaction, or what it is refused for.
fn known_conflicts(alloc: Global, dump: &Dump, t: u32) -> Result<Answered, NoMemory>
    requires known { is_known t (dump_view dump.now).entries ≡ true }
    ensures { IfOk result (λ answered. answered ≡ s.dump_conflicts (dump_view dump.now) t) }
{
    match stop_of(alloc, dump, t)? {
        Some(refusal) => Ok(Answered::Refused(refusal)),
        None => conflicts_of(alloc, dump, t),
    }
}

/// The rows on which a transaction met another one, whatever became of it: those that it wrote, and that a commit wrote too, after the version
/// that its first such statement read, and before it ended. Each has this version, and the first such commit, by table and then by identity.
/// E20 if no transaction has the number; then E25 and E26 of its statements. The number of rows is not limited.
///
/// One run up to its last INSERT, which is what may pass a limit, and one up to each statement whose table was written meanwhile.
pub fn conflicts_answer(alloc: Global, dump: &Dump, t: u64) -> Result<Answered, NoMemory>
    ensures { IfOk result (λ answered. answered ≡ f.conflicts_to (dump_view dump.now) t) }
{
    if is_known(&dump.log, t) {
        known_conflicts(alloc, dump, transaction_number(&dump.log, t))
    } else {
        Ok(Answered::Refused(Refusal::E20 { t }))
    }
}
