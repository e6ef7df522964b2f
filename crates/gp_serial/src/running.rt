//! What statements do, over row versions.

ghost use Rattle.std.specs.Ordering.{is_eq};
ghost use Rattle.std.specs.Prelude.{◌≡◌, ◌<◌, ◌+◌, ◌-◌, true, IfOk, Some};
ghost use Rattle.std.specs.Option.{option_map};
ghost use Rattle.gp_algebra.specs.Statements.{read};
ghost use Rattle.gp_algebra.specs.Views.{select_view, statement_view};
ghost use Rattle.gp_base.specs.Order.{row_cmp, sorted_by};
ghost use Rattle.gp_compose.specs.Seen.{is_changed_by, writes};
ghost use Rattle.gp_log.specs.Contents.{entries};
ghost use Rattle.gp_machine.specs.Entries.{statement_at};
ghost use Rattle.gp_reenact.specs.Reenacting.{spans_of};
ghost use Rattle.gp_serial.specs.Running as s;

use crate::error::SerialStop;
use gp_algebra::{Select, Stmt};
use gp_base::{Cell, NoMemory, Refusal, Row, RowId, Stop, sort_rows};
use gp_log::Log;
use gp_reenact::{looked, saw};
use gp_versions::VersionTable;
use std::alloc::Global;
use std::cmp::Ordering;

/// Rows in row order.
fn sorted(rows: Vec<Row>) -> Result<Vec<Row>, NoMemory>
    ensures { IfOk result (λ sorted. sorted.items ≡ sorted_by row_cmp rows.items) }
{
    let mut rows = rows;
    sort_rows(&mut rows)?;
    Ok(rows)
}

// ---- stops

/// A stop of a run.
fn stopped(stop: Stop) -> SerialStop
    ensures { s.IsStopOf stop result }
{
    match stop {
        Stop::Refused(refusal) => SerialStop::Refused(refusal),
        Stop::NoMemory => SerialStop::NoMemory,
    }
}

/// None if an answer has too many rows, else the refusal.
fn limited(refusal: Refusal) -> Result<Option<Vec<Row>>, SerialStop>
    ensures { s.IsLimited refusal result }
{
    match refusal {
        Refusal::E27 => Ok(None),
        _ => Err(SerialStop::Refused(refusal)),
    }
}

/// What a stop of a run leaves of an answer: none where it had too many rows.
fn unanswered(stop: Stop) -> Result<Option<Vec<Row>>, SerialStop>
    ensures { s.IsUnanswered stop result }
{
    match stop {
        Stop::Refused(refusal) => limited(refusal),
        Stop::NoMemory => Err(SerialStop::NoMemory),
    }
}

// ---- what a statement does

/// The rows that a query answers over what its transaction read, in row order; None if they are more than an answer may have.
fn answered(
    alloc: Global,
    log: &Log,
    versions: &[VersionTable],
    t: u32,
    k: u32,
    select: &Select,
) -> Result<Option<Vec<Row>>, SerialStop>
    requires at { s.IsAt log.now versions.now t k }
    requires here { statement_at t k (entries log.now) ≡ Some (read (select_view select.now)) }
    ensures { s.IsShown (entries log.now) (spans_of versions.now) t k result }
{
    // A query changes nothing, so what its transaction saw after it is what it read.
    match saw(alloc, log, versions, u64::from(t), u64::from(k), select) {
        Ok(rows) => Ok(Some(sorted(rows)?)),
        Err(stop) => unanswered(stop),
    }
}

/// The identity of a row that has its identity and its mark behind its cells.
fn identity_of(row: &Row) -> Option<&RowId>
    ensures { option_map (λ id. id.now) result ≡ s.identity_of row.now }
{
    let cells = row.cells();
    match cells.get(cells.len().saturating_sub(2)) {
        Some(Cell::Id(id)) => Some(id),
        _ => None,
    }
}

/// The row without its mark.
fn unmarked(alloc: Global, row: &Row) -> Result<Row, NoMemory>
    ensures { IfOk result (λ copy. copy ≡ s.unmarked row.now) }
{
    let cells = row.cells();
    let count = cells.len().saturating_sub(1);
    let mut copy = Row::with_capacity(alloc, count)?;
    for i in 0..count {
        copy.push(cells[i].clone()?)?;
    }
    Ok(copy)
}

/// Whether a statement changed a row of those by which one looks at it.
fn is_changed(t: u32, k: u32, stmt: &Stmt, id: &RowId) -> bool
    ensures { result ≡ is_changed_by t k (statement_view stmt.now) id.now }
{
    match stmt {
        Stmt::Insert { .. } | Stmt::InsertSelect { .. } => id.t() == t && id.k() == k,
        _ => true,
    }
}

/// The rows that a statement changed, of those by which one looks at it, each with its identity behind its cells.
fn changed_of(
    alloc: Global,
    t: u32,
    k: u32,
    stmt: &Stmt,
    rows: &[Row],
) -> Result<Vec<Row>, NoMemory>
    ensures { IfOk result (λ found. found.items ≡ s.changed_of t k (statement_view stmt.now) rows.now) }
{
    let mut changed = Vec::new(alloc);
    for row in rows {
        if let Some(id) = identity_of(row) {
            if is_changed(t, k, stmt, id) {
                changed.push(unmarked(alloc, row)?)?;
            }
        }
    }
    Ok(changed)
}

/// The rows that a statement changed over what its transaction read, in row order: those that an UPDATE or a DELETE is about as they were, and those that an
/// INSERT made.
fn changed(
    alloc: Global,
    log: &Log,
    versions: &[VersionTable],
    t: u32,
    k: u32,
    stmt: &Stmt,
) -> Result<Option<Vec<Row>>, SerialStop>
    requires at { s.IsAt log.now versions.now t k }
    requires here { statement_at t k (entries log.now) ≡ Some (statement_view stmt.now) }
    requires writes { writes (statement_view stmt.now) ≡ true }
    ensures { s.IsShown (entries log.now) (spans_of versions.now) t k result }
{
    match looked(alloc, log, versions, t, k - 1, stmt) {
        Ok(rows) => Ok(Some(sorted(changed_of(alloc, t, k, stmt, &rows)?)?)),
        Err(stop) => Err(stopped(stop)),
    }
}

/// What statement k of a transaction does over row versions: the rows that it answers, or that it changed with their identities, in row order; None if an answer
/// has too many rows. It is refused by E25 or E26 if it passes a limit, or a statement before it does.
pub(crate) fn shown(
    alloc: Global,
    log: &Log,
    versions: &[VersionTable],
    t: u32,
    k: u32,
) -> Result<Option<Vec<Row>>, SerialStop>
    requires at { s.IsAt log.now versions.now t k }
    ensures { s.IsShown (entries log.now) (spans_of versions.now) t k result }
{
    match log.statement(t, k) {
        Some(stmt) => match stmt {
            Stmt::Read { select } => answered(alloc, log, versions, t, k, select),
            _ => changed(alloc, log, versions, t, k, stmt),
        },
        None => Ok(Some(Vec::new(alloc))),
    }
}

// ---- the same rows

/// Whether two rows are the same.
fn is_same_row(row: &Row, other: &Row) -> bool
    ensures { result ≡ is_eq (row_cmp row.now other.now) }
{
    row.cmp(other) == Ordering::Equal
}

/// Whether two lists have the same rows, in their order.
pub(crate) fn are_equal(rows: &[Row], others: &[Row]) -> bool
    ensures { result ≡ s.are_equal rows.now others.now }
{
    if rows.len() != others.len() {
        return false;
    }
    for (i, row) in rows.iter().enumerate() {
        if !is_same_row(row, &others[i]) {
            return false;
        }
    }
    true
}

/// Whether both are rows, and the same.
pub(crate) fn is_same(rows: &Option<Vec<Row>>, others: &Option<Vec<Row>>) -> bool
    ensures { result ≡ s.is_same rows.now others.now }
{
    match (rows, others) {
        (Some(rows), Some(others)) => are_equal(rows, others),
        _ => false,
    }
}

/// A row of a span, with its identity behind its cells.
pub(crate) fn row_of(alloc: Global, id: &RowId, row: &Row) -> Result<Row, NoMemory>
    ensures { IfOk result (λ copy. copy ≡ s.keyed id.now row.now) }
{
    let cells = row.cells();
    let mut copy = Row::with_capacity(alloc, cells.len() + 1)?;
    for cell in cells {
        copy.push(cell.clone()?)?;
    }
    copy.push(Cell::Id(id.clone()?))?;
    Ok(copy)
}

/// The rows of a table in a version, each with its identity, in row order.
pub(crate) fn rows_at(
    alloc: Global,
    table: &VersionTable,
    version: u32,
) -> Result<Vec<Row>, NoMemory>
    ensures { IfOk result (λ rows. rows.items ≡ s.rows_at version table.now.spans) }
{
    let mut rows = Vec::new(alloc);
    for span in table.as_slice() {
        if span.holds(version) {
            rows.push(row_of(alloc, &span.id, &span.row)?)?;
        }
    }
    sort_rows(&mut rows)?;
    Ok(rows)
}
