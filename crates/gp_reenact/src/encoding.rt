//! Rows of the plain algebra.

ghost use Rattle.std.specs.Prelude.{◌≡◌, map, IfOk};
ghost use Rattle.gp_base.specs.Annotated.{unannotated};
ghost use Rattle.gp_versions.specs.Spans.{row_of, rows_at};
ghost use Rattle.gp_reenact.specs.Encoding.{encoded_row};

use gp_base::{Cell, NoMemory, Row, Sequence};
use gp_versions::{Span, VersionTable};
use std::alloc::Global;

/// The row of a span, then its identity, then the mark NO.
fn encoded_row(alloc: Global, span: &Span) -> Result<Row, NoMemory>
    ensures { IfOk result (λ row. row ≡ encoded_row (row_of unannotated span.now)) }
{
    let cells = span.row.cells();
    let mut row = Row::with_capacity(alloc, cells.len().saturating_add(2))?;
    for cell in cells {
        row.push(cell.clone()?)?;
    }
    row.push(Cell::Id(span.id.clone()?))?;
    row.push(Cell::Mark(false))?;
    Ok(row)
}

/// The rows of a version, in the order in which their spans began.
pub fn encoded_rows(
    alloc: Global,
    table: &VersionTable,
    version: u32,
) -> Result<Sequence<Row>, NoMemory>
    ensures { IfOk result
        (λ rows. rows ≡ map encoded_row (rows_at unannotated version table.now.spans)) }
{
    let mut rows = Sequence::new(alloc);
    for span in table.as_of(version) {
        rows.push(encoded_row(alloc, span)?)?;
    }
    Ok(rows)
}
