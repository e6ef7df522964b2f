//! The rows that commits wrote.

ghost use Rattle.std.specs.Prelude.{◌≡◌, ◌++◌, ◌&&◌, ◌<◌, ◌^◌, None, length, map, IfOk, OnOk};
ghost use Rattle.std.specs.Option.{option_map};
ghost use Rattle.gp_base.specs.Identities.{same_identity};
ghost use Rattle.gp_log.specs.Contents.{entries};
ghost use Rattle.gp_machine.specs.RowChanges as m;
ghost use Rattle.gp_serial.specs.Changes.{AreMade, change_view, deleted_at, tables_of};

use gp_base::{NoMemory, Row, RowId};
use gp_log::Log;
use gp_versions::{Span, VersionTable};
use std::alloc::Global;

/// A row that the commit of a transaction wrote, with its cells in the version before, and in the one that it made.
#[derive(Clone, Copy)]
pub struct RowChange<'a> {
    /// The transaction.
    pub t: u32,
    /// The version that it made.
    pub version: u32,
    /// The place of the table.
    pub table: u32,
    /// The identity of the row.
    pub id: &'a RowId,
    /// Its cells before, or None if the commit inserted it.
    pub before: Option<&'a Row>,
    /// Its cells after, or None if the commit deleted it.
    pub after: Option<&'a Row>,
}

/// Whether two identities are one.
pub(crate) fn is_same_id(id: &RowId, other: &RowId) -> bool
    ensures { result ≡ same_identity id.now other.now }
{
    id == other
}

/// Whether a span ends where another one begins, of the same row.
fn goes_on_in(span: &Span, next: &Span) -> bool
    ensures { result ≡ m.goes_on_in span.now next.now }
{
    match span.to {
        Some(to) => to == next.from && is_same_id(&span.id, &next.id),
        None => false,
    }
}

/// The cells before a span, by the span before it.
fn cells_before<'a>(last: Option<&'a Span>, span: &Span) -> Option<&'a Row>
    ensures { option_map (λ row. row.now) result
        ≡ m.cells_before (option_map (λ other. other.now) last.entry) span.now }
{
    match last {
        Some(last) => {
            if goes_on_in(last, span) {
                Some(&last.row)
            } else {
                None
            }
        }
        None => None,
    }
}

/// The version whose commit deleted the row of a span, if one did.
fn deleted_at(span: &Span, next: Option<&Span>) -> Option<u32>
    ensures { result ≡ deleted_at span.now (option_map (λ other. other.now) next.entry) }
{
    match next {
        Some(next) => {
            if goes_on_in(span, next) {
                None
            } else {
                span.to
            }
        }
        None => span.to,
    }
}

/// Appends the change of the commit that ends a span, if it deleted the row.
fn push_deleted<'a>(
    log: &Log,
    table: u32,
    span: &'a Span,
    next: Option<&Span>,
    changes: &mut Vec<RowChange<'a>>,
) -> Result<(), NoMemory>
    ensures changes { OnOk result (map change_view changes.new.items ≡ map change_view changes.old.items
        ++ m.deleted_changes table span.now (option_map (λ other. other.now) next.entry)) }
    ensures made { AreMade (entries log.now) changes.old.items
        → OnOk result (AreMade (entries log.now) changes.new.items) }
{
    match deleted_at(span, next) {
        Some(version) => {
            changes.push(RowChange {
                t: log.maker(version),
                version,
                table,
                id: &span.id,
                before: Some(&span.row),
                after: None,
            })?;
            Ok(())
        }
        None => Ok(()),
    }
}

/// Appends the changes that begin and end a span.
fn push_span<'a>(
    log: &Log,
    table: u32,
    last: Option<&'a Span>,
    span: &'a Span,
    next: Option<&Span>,
    changes: &mut Vec<RowChange<'a>>,
) -> Result<(), NoMemory>
    ensures changes { OnOk result (map change_view changes.new.items ≡ map change_view changes.old.items
        ++ m.span_changes table (option_map (λ other. other.now) last.entry) span.now
        (option_map (λ other. other.now) next.entry)) }
    ensures made { AreMade (entries log.now) changes.old.items
        → OnOk result (AreMade (entries log.now) changes.new.items) }
{
    changes.push(RowChange {
        t: log.maker(span.from),
        version: span.from,
        table,
        id: &span.id,
        before: cells_before(last, span),
        after: Some(&span.row),
    })?;
    push_deleted(log, table, span, next, changes)
}

/// Appends the changes of a table, by its spans.
fn push_table<'a>(
    log: &Log,
    table: u32,
    spans: &'a [Span],
    changes: &mut Vec<RowChange<'a>>,
) -> Result<(), NoMemory>
    ensures changes { OnOk result (map change_view changes.new.items ≡ map change_view changes.old.items
        ++ m.spans_changes table None spans.now) }
    ensures made { AreMade (entries log.now) changes.old.items
        → OnOk result (AreMade (entries log.now) changes.new.items) }
{
    let mut last = None;
    for (i, span) in spans.iter().enumerate() {
        push_span(log, table, last, span, spans.get(i + 1), changes)?;
        last = Some(span);
    }
    Ok(())
}

/// The rows that the commits of a log wrote, by its row versions, which are in the order of a dump: by table, then by identity, then by version. One pass
/// over them.
pub fn changes_of<'a>(
    alloc: Global,
    log: &Log,
    versions: &'a [VersionTable],
) -> Result<Vec<RowChange<'a>>, NoMemory>
    requires few { length versions.now < 2 ^ 32 }
    ensures changes { IfOk result (λ changes. map change_view changes.items
        ≡ m.tables_changes 0 (tables_of versions.now)) }
    ensures made { IfOk result (λ changes. AreMade (entries log.now) changes.items) }
{
    let mut changes = Vec::new(alloc);
    for (place, table) in versions.iter().enumerate() {
        push_table(log, place as u32, table.as_slice(), &mut changes)?;
    }
    Ok(changes)
}
