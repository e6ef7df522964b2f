//! The row versions of some rows of a table, without all others; and which statements do to a row what the rows of its identity alone say.
//! Such statements do to the rows the same over these row versions as over all.

ghost use Rattle.std.specs.Prelude.{◌≡◌, ◌++◌, ◌∷◌, [], IfOk, OnOk, filter, true};
ghost use Rattle.std.specs.BTreeMap.{get};
ghost use Rattle.std.specs.Option.{is_some};
ghost use Rattle.gp_algebra.specs.Views.{statement_view};
ghost use Rattle.gp_base.specs.Identities.{identity_cmp};
ghost use Rattle.gp_log.specs.Contents.{entries};
ghost use Rattle.gp_machine.specs.Entries.{statement_at};
ghost use Rattle.gp_reenact.specs.Reenacting.{spans_of};
ghost use Rattle.gp_versions.specs.declared.span.Span as s;
ghost use Rattle.gp_versions.specs.TableSpans.{AreWhole, NoOverlap};
ghost use Rattle.gp_ask.specs.HistoryForms as f;

use gp_algebra::Stmt;
use gp_base::{NoMemory, RowId};
use gp_log::Log;
use gp_versions::{Span, VersionTable};
use std::alloc::Global;
use std::collections::BTreeMap;

// ---- statements

/// Whether what a statement leaves of a row of the table is by the rows of this identity alone. An INSERT with a query makes rows of any
/// others.
fn is_by_identity(stmt: &Stmt, table: u32) -> bool
    ensures { result ≡ f.is_by_identity table (statement_view stmt.now) }
{
    match stmt {
        Stmt::InsertSelect { table: target, .. } => table != *target,
        _ => true,
    }
}

/// Whether what the statement of a number leaves of a row is by the rows of this identity alone; true if there is none.
fn is_found_by_identity(log: &Log, t: u32, k: u32, table: u32) -> bool
    ensures { result ≡ f.is_found_by_identity table (statement_at t k (entries log.now)) }
{
    match log.statement(t, k) {
        Some(stmt) => is_by_identity(stmt, table),
        None => true,
    }
}

/// Whether it is so of the first statements of a transaction, this many.
pub(crate) fn are_by_identity(log: &Log, t: u32, count: u32, table: u32) -> bool
    ensures { result ≡ true → f.AreByIdentity table t count (entries log.now) }
{
    for before in 0..count {
        if !is_found_by_identity(log, t, before + 1, table) {
            return false;
        }
    }
    true
}

// ---- row versions

/// A copy of a span.
fn copy_span(span: &Span) -> Result<Span, NoMemory>
    ensures { IfOk result (λ copy. copy ≡ span.now) }
{
    Ok(Span {
        id: span.id.clone()?,
        from: span.from,
        to: span.to,
        row: span.row.clone()?,
    })
}

/// Adds a span, if its identity is asked for.
fn push_asked(
    asked: &BTreeMap<RowId, bool>,
    span: &Span,
    spans: &mut Vec<Span>,
) -> Result<(), NoMemory>
    ensures { OnOk result (spans.new.items ≡ spans.old.items
        ++ filter (λ (one : s.Span). is_some (get identity_cmp asked.now one.id)) (span.now ∷ [])) }
{
    if asked.contains_key(&span.id) {
        spans.push(copy_span(span)?)?;
    }
    Ok(())
}

/// The spans of identities that are asked for.
fn asked_spans(
    alloc: Global,
    asked: &BTreeMap<RowId, bool>,
    spans: &[Span],
) -> Result<Vec<Span>, NoMemory>
    ensures { IfOk result (λ found. found.items
        ≡ filter (λ (span : s.Span). is_some (get identity_cmp asked.now span.id)) spans.now) }
{
    let mut found = Vec::new(alloc);
    for span in spans {
        push_asked(asked, span, &mut found)?;
    }
    Ok(found)
}

/// The row versions of a table with identities that are asked for.
fn asked_table(
    alloc: Global,
    versions: &[VersionTable],
    table: u32,
    asked: &BTreeMap<RowId, bool>,
) -> Result<VersionTable, NoMemory>
    ensures { IfOk result (λ found. found.spans
        ≡ filter (λ (span : s.Span). is_some (get identity_cmp asked.now span.id))
        (spans_of versions.now table)) }
{
    match versions.get(table as usize) {
        Some(all) => {
            let spans = asked_spans(alloc, asked, all.as_slice())?;
            Ok(VersionTable::from_spans(spans))
        }
        None => Ok(VersionTable::new(alloc)),
    }
}

/// Of row versions, those of a table with identities that are asked for.
pub(crate) fn narrowed(
    alloc: Global,
    versions: &[VersionTable],
    table: u32,
    asked: &BTreeMap<RowId, bool>,
) -> Result<Vec<VersionTable>, NoMemory>
    ensures { IfOk result (λ tables. spans_of tables.items ≡ f.narrowed (spans_of versions.now) table
        (λ id. is_some (get identity_cmp asked.now id))) }
{
    let mut tables = Vec::new(alloc);
    for _ in 0..table {
        tables.push(VersionTable::new(alloc))?;
    }
    tables.push(asked_table(alloc, versions, table, asked)?)?;
    Ok(tables)
}
