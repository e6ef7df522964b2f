//! Finds the places of spans in the list of a table.

ghost use Rattle.std.specs.Prelude.{◌≡◌, ◌-◌, ◌++◌, ◌≤◌, OnOk, length, slice_get};
ghost use Rattle.std.specs.List.{range_with_len};
ghost use Rattle.gp_base.specs.CellForms.{cell_view};
ghost use Rattle.gp_versions.specs.Places as p;
ghost use Rattle.gp_versions.specs.Search as search;

use crate::span::Span;
use gp_base::{Cell, CellRef, NoMemory, Row};

/// A cell in a column. Columns count from 1.
#[derive(Clone, Copy)]
pub struct InColumn<'a> {
    /// The column.
    pub column: u32,
    /// The cell.
    pub cell: &'a Cell,
}

/// Which spans are sought: those that hold the version, and of them only those with the cell if one is given.
#[derive(Clone, Copy)]
pub struct Sought<'a> {
    pub v: u32,
    pub own: Option<InColumn<'a>>,
}

/// The cell of a row in a column; NULL if it does not have the column.
pub fn cell_at(row: &Row, column: u32) -> CellRef<'_>
    ensures { cell_view result ≡ p.cell_at column row.now }
{
    if column == 0 {
        return CellRef::Null;
    }
    match row.cells().get(column as usize - 1) {
        Some(cell) => cell.as_ref(),
        None => CellRef::Null,
    }
}

/// Whether `=` of SQL is true of the cells.
fn are_equal(cell: CellRef<'_>, other: CellRef<'_>) -> bool
    ensures { result ≡ p.are_equal (cell_view cell.entry) (cell_view other.entry) }
{
    match (cell, other) {
        (CellRef::Int(cell), CellRef::Int(other)) => cell.cmp(&other).is_eq(),
        (CellRef::Text(cell), CellRef::Text(other)) => cell.cmp(other).is_eq(),
        _ => false,
    }
}

/// Whether the span is sought.
fn is_sought(span: &Span, sought: &Sought<'_>) -> bool
    ensures { result ≡ search.is_sought sought.now span.now }
{
    match sought.own {
        None => span.holds(sought.v),
        Some(own) => {
            span.holds(sought.v) && are_equal(cell_at(&span.row, own.column), own.cell.as_ref())
        }
    }
}

/// Whether there is a span at the place, and it is sought.
fn is_sought_at(spans: &[Span], place: u32, sought: &Sought<'_>) -> bool
    ensures { result ≡ search.is_where (search.is_sought sought.now) (slice_get spans.now place) }
{
    match spans.get(place as usize) {
        Some(span) => is_sought(span, sought),
        None => false,
    }
}

/// Appends those of the places where the spans are sought.
pub fn push_listed(
    found: &mut Vec<u32>,
    spans: &[Span],
    places: &[u32],
    sought: &Sought<'_>,
) -> Result<(), NoMemory>
    ensures { OnOk result (found.new.items
        ≡ found.old.items ++ search.among (search.is_sought sought.now) spans.now places.now) }
{
    for place in places {
        if is_sought_at(spans, *place, sought) {
            found.push(*place)?;
        }
    }
    Ok(())
}

/// Appends the places from this one on where the spans are sought. Places that 32 bits cannot number run out of memory.
pub fn push_from(
    found: &mut Vec<u32>,
    spans: &[Span],
    from: usize,
    sought: &Sought<'_>,
) -> Result<(), NoMemory>
    requires { from ≤ length spans.now }
    ensures { OnOk result (found.new.items ≡ found.old.items
        ++ search.among (search.is_sought sought.now) spans.now (range_with_len from (length spans.now - from))) }
{
    let Ok(first) = u32::try_from(from) else {
        return Err(NoMemory);
    };
    let Ok(end) = u32::try_from(spans.len()) else {
        return Err(NoMemory);
    };
    for place in first..end {
        push_listed(found, spans, &[place], sought)?;
    }
    Ok(())
}
