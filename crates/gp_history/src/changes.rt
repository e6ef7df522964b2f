//! What a commit changes, table by table.

ghost use Rattle.std.specs.Prelude.{◌≡◌, ◌<◌, ◌&&◌, not, true, map, Some};
ghost use Rattle.std.specs.List.{list_any};
ghost use Rattle.gp_algebra.specs.Fitting.{is_there};
ghost use Rattle.gp_algebra.specs.QueryViews.{annotated_program_view};
ghost use Rattle.gp_algebra.specs.Views.{statement_view};
ghost use Rattle.gp_compose.specs.Composed.{writes};
ghost use Rattle.gp_machine.specs.Entries as m;
ghost use Rattle.gp_reenact.specs.Reenacting.{spans_of};
ghost use Rattle.gp_history.specs.Changes.{FindsRows, is_touched, stopped};
ghost use Rattle.gp_history.specs.Narrowing as n;
ghost use Rattle.gp_history.specs.Seeking.{AreFinders};
ghost use Rattle.gp_history.specs.Annotating.{Annotates};
ghost use Rattle.gp_history.specs.Noted.{row_view};
ghost use Rattle.gp_log.specs.Contents.{commits, entries, tables};
ghost use Rattle.gp_history.specs.Histories as h;

use crate::agreement::agree;
use crate::annotated::Annotated;
use crate::annotator::{Annotator, Publication};
use crate::error::HistoryStop;
use crate::found::notes_of;
use crate::inert::write_to;
use crate::narrowed::{Narrowed, statements_of};
use crate::published::published_program;
use crate::spans::{are_touched, spans_in};
use gp_algebra::Stmt;
use gp_base::RowId;
use gp_exec::ExecStop;
use gp_kexec::Held;
use gp_log::Log;
use gp_versions::{Finder, Span, VersionTable};
use std::alloc::Global;
use std::collections::BTreeMap;

/// The stop of a history whose transaction t has a program that stops.
fn stopped(t: u32, stop: ExecStop) -> HistoryStop
    ensures { result ≡ stopped t stop }
{
    match stop {
        ExecStop::Rows { j } => HistoryStop::Rows { t, k: j },
        ExecStop::Ancestry { j } => HistoryStop::Ancestry { t, k: j },
        ExecStop::Answer | ExecStop::NoMemory => HistoryStop::NoMemory,
    }
}

/// What becomes of a table whose published rows are these.
fn rows_change<A: Drop, N: Annotator<A>>(
    alloc: Global,
    annotator: &N,
    rows: &[Held<A>],
    spans: &[&Span],
    version: u32,
    table: u32,
) -> Result<Option<BTreeMap<RowId, A>>, HistoryStop>
    ensures { FindsRows (map row_view rows.now) (map (λ span. span.now) spans.now) version table
        result }
{
    if !agree(alloc, rows, spans, version)? {
        return Err(HistoryStop::Inconsistent { version, table });
    }
    Ok(Some(notes_of(alloc, annotator, rows, spans, version)?))
}

/// Whether no statement writes the table, and no span begins or ends at the version.
fn is_untouched(statements: &[&Stmt], table: u32, spans: &[&Span], version: u32) -> bool
    ensures { result ≡ (not (list_any (λ stmt. writes (Some stmt) table)
        (map (λ stmt. statement_view stmt.now) statements.now))
        && not (list_any (is_touched version) (map (λ span. span.now) spans.now))) }
{
    !write_to(statements, table) && !are_touched(spans, version)
}

/// What a commit does to a table whose published rows are computed over all row versions and compared with them.
fn whole_change<A: Drop, N: Annotator<A>>(
    alloc: Global,
    annotator: &N,
    log: &Log,
    versions: &[VersionTable],
    known: &Annotated<A>,
    t: u32,
    of: &Publication,
) -> Result<Option<BTreeMap<RowId, A>>, HistoryStop>
    requires sound { h.IsSound log.now versions.now }
    requires within { of.now.before < commits log.now }
    requires maker { t ≡ h.maker log.now of.now.before }
    requires program { annotated_program_view of.now.program ≡ h.maker_program log.now of.now.before
        of.now.table }
    requires known { h.AreAnnotated (N.domain annotator.now) log.now versions.now of.now.before
        known.now }
    ensures { h.ChangesTable (N.domain annotator.now) log.now versions.now of.now.before
        of.now.table result }
{
    log.bounds();
    // Row versions of one identity never overlap. That is known of them where they are asked for.
    let _all = spans_in(versions, of.table as usize);
    let whole = Narrowed::whole(alloc, versions, known)?;
    match annotator.rows(alloc, log, versions, &whole, of) {
        Ok(rows) => rows_change(
            alloc,
            annotator,
            &rows,
            whole.spans(of.table),
            of.before + 1,
            of.table,
        ),
        Err(stop) => Err(stopped(t, stop)),
    }
}

/// What the commit after a version does to a table: nothing, if none of the transaction's statements writes it and no span begins
/// or ends there; else the rows that it published are computed and compared, over the row versions that matter to it. If a step
/// stops there, all row versions tell whether the transaction's run does.
fn table_change<A: Drop, N: Annotator<A>>(
    alloc: Global,
    annotator: &N,
    log: &Log,
    versions: &[VersionTable],
    known: &Annotated<A>,
    narrowed: &Narrowed<'_, A>,
    before: u32,
    t: u32,
    statements: &[&Stmt],
    table: u32,
) -> Result<Option<BTreeMap<RowId, A>>, HistoryStop>
    requires sound { h.IsSound log.now versions.now }
    requires within { before < commits log.now }
    requires maker { t ≡ h.maker log.now before }
    requires statements { map (λ stmt. statement_view stmt.now) statements.now
        ≡ n.statements_upto (m.log_of (entries log.now)) t
        (m.statement_count t (entries log.now)) }
    requires there { is_there (tables log.now) table ≡ true }
    requires known { h.AreAnnotated (N.domain annotator.now) log.now versions.now before known.now }
    requires narrowed { h.IsNarrow log.now versions.now t before known.now narrowed.now }
    ensures { h.ChangesTable (N.domain annotator.now) log.now versions.now before table result }
{
    log.bounds();
    let spans = narrowed.spans(table);
    if is_untouched(statements, table, spans, before + 1) {
        return Ok(None);
    }
    let of = Publication {
        before,
        table,
        program: published_program(alloc, log, t, table)?,
    };
    match annotator.rows(alloc, log, versions, narrowed, &of) {
        Ok(rows) => rows_change(alloc, annotator, &rows, spans, before + 1, table),
        Err(ExecStop::NoMemory) => Err(HistoryStop::NoMemory),
        Err(_) => whole_change(alloc, annotator, log, versions, known, t, &of),
    }
}

/// The transaction that made the version after this one.
fn maker_after(log: &Log, before: u32) -> u32
    requires { before < commits log.now }
    ensures { result ≡ h.maker log.now before }
{
    log.bounds();
    log.maker(before + 1)
}

/// What the commit after a version does to each table, or the first stop: of its transaction's run, or else of the first table
/// whose rows are not those of the spans.
pub fn changes_of<A: Drop, N: Annotator<A>>(
    alloc: Global,
    annotator: &N,
    log: &Log,
    versions: &[VersionTable],
    known: &Annotated<A>,
    finders: &[Finder],
    before: u32,
) -> Result<Vec<Option<BTreeMap<RowId, A>>>, HistoryStop>
    requires sound { h.IsSound log.now versions.now }
    requires within { before < commits log.now }
    requires known { h.AreAnnotated (N.domain annotator.now) log.now versions.now before known.now }
    requires finders { AreFinders (spans_of versions.now) finders.now }
    ensures { Annotates (λ changes. h.AreChanges (N.domain annotator.now) log.now versions.now
        before changes.items) (tables log.now) result (h.commit_stop (N.domain annotator.now)
        log.now versions.now before) }
{
    let t = maker_after(log, before);
    let statements = statements_of(alloc, log, t)?;
    let narrowed = Narrowed::of_commit(
        alloc,
        log,
        versions,
        known,
        before,
        t,
        &statements,
        finders,
    )?;
    let mut changes = Vec::new(alloc);
    for table in 0..log.catalog().len() {
        let change = match table_change(
            alloc,
            annotator,
            log,
            versions,
            known,
            &narrowed,
            before,
            t,
            &statements,
            table,
        ) {
            Ok(change) => change,
            Err(stop) => return Err(stop),
        };
        changes.push(change)?;
    }
    Ok(changes)
}
