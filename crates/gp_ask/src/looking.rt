//! The rows by which one looks at statements that write, of transactions that do not stop.

ghost use Rattle.std.specs.Prelude.{◌≡◌, ◌<◌, ◌≤◌, ◌-◌, None, true, IfOk, map};
ghost use Rattle.gp_algebra.specs.Views.{statement_view};
ghost use Rattle.gp_dump.specs.Views.{dump_view};
ghost use Rattle.gp_log.specs.Contents.{entries};
ghost use Rattle.gp_machine.specs.Entries.{statement_count};
ghost use Rattle.gp_machine.specs.Questions.{is_known};
ghost use Rattle.gp_reenact.specs.LookingForms.{system_row};
ghost use Rattle.gp_ask.specs.Looked as l;

use crate::changes::is_changed;
use gp_algebra::Stmt;
use gp_base::{Cell, NoMemory, Refusal, Row, RowId, Stop};
use gp_dump::Dump;
use gp_log::Log;
use gp_reenact::looked;
use std::alloc::Global;

/// A statement that writes a table.
#[derive(Clone, Copy)]
pub(crate) struct WritingStmt<'a> {
    /// Its transaction.
    pub t: u32,
    /// Its number in it, from 1.
    pub k: u32,
    /// The statement.
    pub stmt: &'a Stmt,
    /// The table.
    pub table: u32,
}

/// A statement of a transaction, if it writes a table.
pub(crate) fn writing(log: &Log, t: u32, k: u32) -> Option<WritingStmt<'_>>
    requires known { is_known t (entries log.now) ≡ true }
    requires first { 0 < k }
    requires most { k ≤ statement_count t (entries log.now) }
    ensures { l.IsFound t k (entries log.now) result }
{
    match log.statement(t, k) {
        Some(stmt) => match stmt.target() {
            Some(table) => Some(WritingStmt { t, k, stmt, table }),
            None => None,
        },
        None => None,
    }
}

/// Whether a statement may pass a limit.
fn may_stop(stmt: &Stmt) -> bool
    ensures { result ≡ l.may_stop (statement_view stmt.now) }
{
    match stmt {
        Stmt::Insert { .. } | Stmt::InsertSelect { .. } => true,
        _ => false,
    }
}

/// What a statement of a transaction, or one before it, is refused for.
fn stop_upto(
    alloc: Global,
    dump: &Dump,
    statement: &WritingStmt<'_>,
) -> Result<Option<Refusal>, NoMemory>
    requires logged { l.IsWriting (dump_view dump.now).entries statement.now }
    ensures { IfOk result (λ found. found ≡ l.stop_at (dump_view dump.now) statement.now.t statement.now.k) }
{
    match looked(
        alloc,
        &dump.log,
        dump.versions.as_slice(),
        statement.t,
        statement.k - 1,
        statement.stmt,
    ) {
        Ok(_) => Ok(None),
        Err(Stop::Refused(refusal)) => Ok(Some(refusal)),
        Err(Stop::NoMemory) => Err(NoMemory),
    }
}

/// A statement of a transaction, if it may pass a limit.
fn stopping(log: &Log, t: u32, k: u32) -> Option<WritingStmt<'_>>
    requires known { is_known t (entries log.now) ≡ true }
    requires first { 0 < k }
    requires most { k ≤ statement_count t (entries log.now) }
    ensures { l.IsStopping t k (entries log.now) result }
{
    match writing(log, t, k) {
        Some(statement) => {
            if may_stop(statement.stmt) {
                Some(statement)
            } else {
                None
            }
        }
        None => None,
    }
}

/// The last statement of a transaction that may pass a limit.
fn last_stopping(log: &Log, t: u32) -> Option<WritingStmt<'_>>
    requires known { is_known t (entries log.now) ≡ true }
    ensures { l.IsLastStopping t (entries log.now) result }
{
    let count = log.statement_count(t);
    for before in 0..count {
        if let Some(statement) = stopping(log, t, count - before) {
            return Some(statement);
        }
    }
    None
}

/// What a transaction is refused for: E25 or E26 of the first of its statements that passes a limit. One run, up to its last INSERT: no
/// other statement makes rows.
pub(crate) fn stop_of(alloc: Global, dump: &Dump, t: u32) -> Result<Option<Refusal>, NoMemory>
    requires known { is_known t (dump_view dump.now).entries ≡ true }
    ensures { IfOk result (λ found. found ≡ l.stop_of (dump_view dump.now) t) }
{
    match last_stopping(&dump.log, t) {
        Some(statement) => stop_upto(alloc, dump, &statement),
        None => Ok(None),
    }
}

/// The rows by which one looks at a statement of a transaction that does not stop, in the order of their table. Behind the cells of each
/// are its identity and its mark.
pub(crate) fn rows_of(
    alloc: Global,
    dump: &Dump,
    statement: &WritingStmt<'_>,
) -> Result<Vec<Row>, NoMemory>
    requires logged { l.IsWriting (dump_view dump.now).entries statement.now }
    requires runs { l.stop_of (dump_view dump.now) statement.now.t ≡ None }
    ensures { IfOk result (λ rows. rows.items
        ≡ map system_row (l.rows_of (dump_view dump.now) statement.now.t statement.now.k
        (statement_view statement.now.stmt.now))) }
{
    match looked(
        alloc,
        &dump.log,
        dump.versions.as_slice(),
        statement.t,
        statement.k - 1,
        statement.stmt,
    ) {
        Ok(rows) => Ok(rows),
        Err(Stop::Refused(_)) => unreachable!(),
        Err(Stop::NoMemory) => Err(NoMemory),
    }
}

/// The mark of a row that has its identity and its mark behind its cells.
fn mark_of(row: &Row) -> bool
    ensures { result ≡ l.mark_of row.now }
{
    let cells = row.cells();
    match cells.get(cells.len().saturating_sub(1)) {
        Some(Cell::Mark(mark)) => *mark,
        _ => false,
    }
}

/// Whether the statement wrote a row of those by which one looks at it.
pub(crate) fn is_written(statement: &WritingStmt<'_>, id: &RowId, row: &Row) -> bool
    ensures { result ≡ l.is_written_by statement.now.t statement.now.k (statement_view statement.now.stmt.now)
        id.now row.now }
{
    is_changed(statement.t, statement.k, statement.stmt, id)
        && (!may_stop(statement.stmt) || mark_of(row))
}
