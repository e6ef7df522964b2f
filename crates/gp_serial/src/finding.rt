//! What a statement does that changes rows of a table which its transaction has not written: found in the row versions, without a run.

ghost use Rattle.std.specs.Prelude.{◌≡◌, ◌-◌, None, Some, true, filter, map, option_and_then, IfOk, OnOk, ◌++◌, ◌∷◌, []};
ghost use Rattle.gp_algebra.specs.Views.{statement_view};
ghost use Rattle.gp_base.specs.Annotated.{unannotated};
ghost use Rattle.gp_base.specs.Order.{row_cmp, sorted_by};
ghost use Rattle.gp_expr.specs.ExpressionForms.{cond_is_simple};
ghost use Rattle.gp_expr.specs.Views.{cond_view};
ghost use Rattle.gp_log.specs.Contents.{entries};
ghost use Rattle.gp_log.specs.Parameters.{parameters};
ghost use Rattle.gp_machine.specs.Entries.{log_of, statement_at};
ghost use Rattle.gp_machine.specs.HistorySpans.{as_of};
ghost use Rattle.gp_machine.specs.Points.{run_stop};
ghost use Rattle.gp_reenact.specs.Reenacting.{spans_of};
ghost use Rattle.gp_serial.specs.Finding as s;
ghost use Rattle.gp_serial.specs.Running.{IsAt, IsShown, keyed};

use crate::error::SerialStop;
use crate::running::{row_of, shown};
use gp_algebra::Stmt;
use gp_base::{NoMemory, Row, sort_rows};
use gp_expr::{Cond, truth};
use gp_log::Log;
use gp_versions::{Span, VersionTable};
use std::alloc::Global;

// ---- tables that a transaction has not written

/// Whether a statement writes the table.
fn writes(stmt: &Stmt, table: u32) -> bool
    ensures { result ≡ s.writes table (statement_view stmt.now) }
{
    match stmt.target() {
        Some(target) => target == table,
        None => false,
    }
}

/// Whether the statement of a number writes the table; false if there is none.
fn writes_at(log: &Log, t: u32, k: u32, table: u32) -> bool
    ensures { result ≡ s.writes_at table (statement_at t k (entries log.now)) }
{
    match log.statement(t, k) {
        Some(stmt) => writes(stmt, table),
        None => false,
    }
}

/// Whether none of the first statements of a transaction, this many, writes the table.
fn is_unwritten(log: &Log, t: u32, count: u32, table: u32) -> bool
    ensures { result ≡ true → s.IsUnwritten (log_of (entries log.now)) t table count }
{
    for before in 0..count {
        if writes_at(log, t, before + 1, table) {
            return false;
        }
    }
    true
}

// ---- rows

/// Adds the row of a span with its identity, if a version has it and the condition is true of it.
fn push_found(
    alloc: Global,
    version: u32,
    cond: &Cond,
    span: &Span,
    rows: &mut Vec<Row>,
) -> Result<(), NoMemory>
    requires { cond_is_simple (cond_view cond.now) ≡ true }
    ensures { OnOk result (rows.new.items ≡ rows.old.items
        ++ map s.keyed_span (filter (s.is_found version (cond_view cond.now)) (span.now ∷ []))) }
{
    if span.holds(version) && truth(cond, &span.row).holds() {
        rows.push(row_of(alloc, &span.id, &span.row)?)?;
    }
    Ok(())
}

/// The rows of a version of which the condition is true, each with its identity, in row order.
fn found(alloc: Global, spans: &[Span], version: u32, cond: &Cond) -> Result<Vec<Row>, NoMemory>
    requires { cond_is_simple (cond_view cond.now) ≡ true }
    ensures { IfOk result (λ rows. rows.items ≡ sorted_by row_cmp
        (map s.keyed_span (filter (s.is_found version (cond_view cond.now)) spans.now))) }
{
    let mut rows = Vec::new(alloc);
    for span in spans {
        push_found(alloc, version, cond, span, &mut rows)?;
    }
    sort_rows(&mut rows)?;
    Ok(rows)
}

/// The spans of a table; none if it is not there.
fn spans_of(versions: &[VersionTable], table: u32) -> &[Span]
    ensures { result.now ≡ spans_of versions.now table }
{
    match versions.get(table as usize) {
        Some(spans) => spans.as_slice(),
        None => &[],
    }
}

// ---- statements

/// The rows of a table that statement k of a transaction changes, which are those that its condition is true of.
fn searched(
    alloc: Global,
    log: &Log,
    versions: &[VersionTable],
    t: u32,
    k: u32,
    table: u32,
    cond: &Cond,
) -> Result<Option<Vec<Row>>, SerialStop>
    requires at { IsAt log.now versions.now t k }
    requires here { option_and_then s.search_of (statement_at t k (entries log.now))
        ≡ Some (record { table = table; cond = cond_view cond.now }) }
    requires runs { run_stop unannotated parameters (log_of (entries log.now)) t k
        (as_of unannotated (spans_of versions.now)) ≡ None }
    ensures { IsShown (entries log.now) (spans_of versions.now) t k result }
{
    if !is_unwritten(log, t, k - 1, table) {
        return shown(alloc, log, versions, t, k);
    }
    let version = log.version_read_by(t, k);
    Ok(Some(found(alloc, spans_of(versions, table), version, cond)?))
}

/// What statement k of a transaction does over row versions, as [`shown`] tells it, where neither it nor one before it stops.
pub(crate) fn done(
    alloc: Global,
    log: &Log,
    versions: &[VersionTable],
    t: u32,
    k: u32,
) -> Result<Option<Vec<Row>>, SerialStop>
    requires at { IsAt log.now versions.now t k }
    requires runs { run_stop unannotated parameters (log_of (entries log.now)) t k
        (as_of unannotated (spans_of versions.now)) ≡ None }
    ensures { IsShown (entries log.now) (spans_of versions.now) t k result }
{
    match log.statement(t, k) {
        Some(stmt) => match stmt {
            Stmt::Update { table, cond, .. } => searched(alloc, log, versions, t, k, *table, cond),
            Stmt::Delete { table, cond } => searched(alloc, log, versions, t, k, *table, cond),
            _ => shown(alloc, log, versions, t, k),
        },
        None => shown(alloc, log, versions, t, k),
    }
}
