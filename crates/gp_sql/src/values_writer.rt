//! The text of VALUES, which is appended piece by piece. If memory runs out, a part is appended.

ghost use Rattle.std.specs.Prelude.{◌≡◌, ◌++◌, [], OnOk};
ghost use Rattle.std.specs.List.{flat_map};
ghost use Rattle.gp_sql.specs.NamedQueries as q;
ghost use Rattle.gp_sql.specs.Spelling as w;
ghost use Rattle.gp_sql.specs.Translation as t;
ghost use Rattle.gp_sql.specs.WrittenQueries.{given_behind};

use crate::cell_type::CellType;
use crate::item_writer::push_cells;
use gp_base::{Catalog, NoMemory, Row, append_all};
use std::alloc::Global;

/// Appends the cells of a row, of the types that are due.
fn push_given_items(
    alloc: Global,
    _catalog: &Catalog,
    due: &[CellType],
    row: &Row,
    out: &mut Vec<u8>,
) -> Result<(), NoMemory>
    ensures { OnOk result (out.new.items ≡ out.old.items
        ++ w.named_text _catalog.now 1 (t.cells_terms due.now row.now)) }
{
    push_cells(alloc, due, row.cells(), out)
}

/// Appends a row of VALUES, of the types that are due.
fn push_given(
    alloc: Global,
    catalog: &Catalog,
    due: &[CellType],
    row: &Row,
    out: &mut Vec<u8>,
) -> Result<(), NoMemory>
    ensures { OnOk result (out.new.items ≡ out.old.items
        ++ w.block_text catalog.now (q.given_block due.now row.now)) }
{
    append_all(out, &[b"SELECT "])?;
    push_given_items(alloc, catalog, due, row, out)
}

/// Appends a row of VALUES behind another one.
fn push_given_behind(
    alloc: Global,
    catalog: &Catalog,
    due: &[CellType],
    row: &Row,
    out: &mut Vec<u8>,
) -> Result<(), NoMemory>
    ensures { OnOk result
        (out.new.items ≡ out.old.items ++ given_behind catalog.now due.now row.now) }
{
    append_all(out, &[b" UNION ALL "])?;
    push_given(alloc, catalog, due, row, out)
}

/// Appends rows of VALUES behind another one.
fn push_others_given(
    alloc: Global,
    catalog: &Catalog,
    due: &[CellType],
    rows: &[Row],
    out: &mut Vec<u8>,
) -> Result<(), NoMemory>
    ensures { OnOk result (out.new.items ≡ out.old.items
        ++ flat_map (given_behind catalog.now due.now) rows.now) }
{
    for row in rows {
        push_given_behind(alloc, catalog, due, row, out)?;
    }
    Ok(())
}

/// Appends VALUES with a first row.
fn push_given_rows(
    alloc: Global,
    catalog: &Catalog,
    due: &[CellType],
    first: &Row,
    others: &[Row],
    out: &mut Vec<u8>,
) -> Result<(), NoMemory>
    ensures { OnOk result (out.new.items ≡ out.old.items
        ++ w.query_text catalog.now (q.given_query due.now first.now others.now)) }
{
    push_given(alloc, catalog, due, first, out)?;
    push_others_given(alloc, catalog, due, others, out)
}

/// Appends VALUES.
pub(crate) fn push_values(
    alloc: Global,
    catalog: &Catalog,
    due: &[CellType],
    rows: &[Row],
    out: &mut Vec<u8>,
) -> Result<(), NoMemory>
    ensures { OnOk result (out.new.items ≡ out.old.items
        ++ w.query_text catalog.now (q.values_query due.now rows.now)) }
{
    match rows {
        [] => append_all(out, &[b"SELECT "]),
        [first, others @ ..] => push_given_rows(alloc, catalog, due, first, others, out),
    }
}
