//! The texts of the two queries of a PUBLISH, which are appended piece by piece. If memory runs out, a part is appended.

ghost use Rattle.std.specs.Prelude.{◌≡◌, ◌++◌, OnOk};
ghost use Rattle.gp_sql.specs.NamedQueries as q;
ghost use Rattle.gp_sql.specs.QueryParts.{found_block, marked_ids, marked_rows, missing_ids, same_identities, unwritten_rows};
ghost use Rattle.gp_sql.specs.Spelling as w;
ghost use Rattle.gp_sql.specs.Sql as s;
ghost use Rattle.gp_sql.specs.WrittenQueries.{source_of};

use crate::cell_writer::push_number;
use crate::item_writer::next;
use crate::name::{Name, push_from};
use gp_base::{Catalog, NoMemory, append_all};
use std::alloc::Global;

/// Appends the test that a row is marked, given the column of its identity.
fn push_marked(
    alloc: Global,
    _catalog: &Catalog,
    at: u32,
    out: &mut Vec<u8>,
) -> Result<(), NoMemory>
    ensures { OnOk result
        (out.new.items ≡ out.old.items ++ w.test_text _catalog.now (q.is_marked at)) }
{
    let mark = next(at as u64)?.to_string(alloc)?;
    append_all(out, &[b"c", mark.as_bytes(), b" = "])?;
    push_number(alloc, 1, out)
}

/// Appends the test that rows x and y have one identity.
fn push_same(alloc: Global, _catalog: &Catalog, at: u32, out: &mut Vec<u8>) -> Result<(), NoMemory>
    ensures { OnOk result
        (out.new.items ≡ out.old.items ++ w.test_text _catalog.now (same_identities at)) }
{
    let at = at.to_string(alloc)?;
    append_all(out, &[b"y.", b"c", at.as_bytes(), b" = "])?;
    append_all(out, &[b"x.", b"c", at.as_bytes()])
}

/// Appends the query of the rows of a source that have the identity of row x.
fn push_found(
    alloc: Global,
    catalog: &Catalog,
    at: u32,
    source: Name,
    out: &mut Vec<u8>,
) -> Result<(), NoMemory>
    ensures { OnOk result (out.new.items ≡ out.old.items
        ++ w.block_text catalog.now (found_block at (source_of source))) }
{
    append_all(out, &[b"SELECT "])?;
    push_number(alloc, 1, out)?;
    push_from(alloc, catalog, b" FROM ", source, b" y WHERE ", out)?;
    push_same(alloc, catalog, at, out)
}

/// Appends the test that no row of a source has the identity of row x.
fn push_missing(
    alloc: Global,
    catalog: &Catalog,
    at: u32,
    source: Name,
    out: &mut Vec<u8>,
) -> Result<(), NoMemory>
    ensures { OnOk result (out.new.items ≡ out.old.items
        ++ w.test_text catalog.now (q.is_missing at (source_of source))) }
{
    append_all(out, &[b"NOT ", b"EXISTS ("])?;
    push_found(alloc, catalog, at, source, out)?;
    append_all(out, &[b")"])
}

/// Appends the query of the identities of the marked rows.
fn push_marked_ids(
    alloc: Global,
    catalog: &Catalog,
    at: u32,
    mine: Name,
    out: &mut Vec<u8>,
) -> Result<(), NoMemory>
    ensures { OnOk result (out.new.items ≡ out.old.items
        ++ w.block_text catalog.now (marked_ids at (source_of mine))) }
{
    let column = at.to_string(alloc)?;
    append_all(out, &[b"SELECT ", b"c", column.as_bytes()])?;
    push_from(alloc, catalog, b" FROM ", mine, b" WHERE ", out)?;
    push_marked(alloc, catalog, at, out)
}

/// Appends a column of row x.
fn push_of_x(alloc: Global, _catalog: &Catalog, at: u32, out: &mut Vec<u8>) -> Result<(), NoMemory>
    ensures { OnOk result (out.new.items ≡ out.old.items
        ++ w.term_text _catalog.now (s.column s.x (s.numbered at))) }
{
    let at = at.to_string(alloc)?;
    append_all(out, &[b"x.", b"c", at.as_bytes()])
}

/// Appends the query of the identities of base that mine has not.
fn push_missing_ids(
    alloc: Global,
    catalog: &Catalog,
    at: u32,
    base: Name,
    mine: Name,
    out: &mut Vec<u8>,
) -> Result<(), NoMemory>
    ensures { OnOk result (out.new.items ≡ out.old.items
        ++ w.block_text catalog.now (missing_ids at (source_of base) (source_of mine))) }
{
    append_all(out, &[b"SELECT "])?;
    push_of_x(alloc, catalog, at, out)?;
    push_from(alloc, catalog, b" FROM ", base, b" x WHERE ", out)?;
    push_missing(alloc, catalog, at, mine, out)
}

/// Appends the query of the written identities.
pub(crate) fn push_written(
    alloc: Global,
    catalog: &Catalog,
    at: u32,
    base: Name,
    mine: Name,
    out: &mut Vec<u8>,
) -> Result<(), NoMemory>
    ensures { OnOk result (out.new.items ≡ out.old.items
        ++ w.query_text catalog.now (q.written_query at (source_of base) (source_of mine))) }
{
    push_marked_ids(alloc, catalog, at, mine, out)?;
    append_all(out, &[b" UNION ALL "])?;
    push_missing_ids(alloc, catalog, at, base, mine, out)
}

/// Appends the query of the rows whose identities are not written.
fn push_unwritten(
    alloc: Global,
    catalog: &Catalog,
    at: u32,
    written: Name,
    later: Name,
    out: &mut Vec<u8>,
) -> Result<(), NoMemory>
    ensures { OnOk result (out.new.items ≡ out.old.items
        ++ w.block_text catalog.now (unwritten_rows at (source_of written) (source_of later))) }
{
    push_from(alloc, catalog, b"SELECT * FROM ", later, b" x WHERE ", out)?;
    push_missing(alloc, catalog, at, written, out)
}

/// Appends the query of the marked rows.
fn push_marked_rows(
    alloc: Global,
    catalog: &Catalog,
    at: u32,
    mine: Name,
    out: &mut Vec<u8>,
) -> Result<(), NoMemory>
    ensures { OnOk result (out.new.items ≡ out.old.items
        ++ w.block_text catalog.now (marked_rows at (source_of mine))) }
{
    push_from(alloc, catalog, b"SELECT * FROM ", mine, b" WHERE ", out)?;
    push_marked(alloc, catalog, at, out)
}

/// Appends the query of the published rows.
pub(crate) fn push_published(
    alloc: Global,
    catalog: &Catalog,
    at: u32,
    written: Name,
    mine: Name,
    later: Name,
    out: &mut Vec<u8>,
) -> Result<(), NoMemory>
    ensures { OnOk result (out.new.items ≡ out.old.items
        ++ w.query_text catalog.now
        (q.published_query at (source_of written) (source_of mine) (source_of later))) }
{
    push_unwritten(alloc, catalog, at, written, later, out)?;
    append_all(out, &[b" UNION ALL "])?;
    push_marked_rows(alloc, catalog, at, mine, out)
}
