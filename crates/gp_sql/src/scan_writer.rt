//! The text of a SCAN, which is appended piece by piece. If memory runs out, a part is appended.

ghost use Rattle.std.specs.Prelude.{◌≡◌, ◌++◌, [], true, OnOk};
ghost use Rattle.gp_algebra.specs.Statements.{width_of};
ghost use Rattle.gp_sql.specs.NamedQueries as q;
ghost use Rattle.gp_sql.specs.QueryParts.{before_end, begun, unended};
ghost use Rattle.gp_sql.specs.Spelling as w;
ghost use Rattle.gp_sql.specs.Sql as s;
ghost use Rattle.gp_sql.specs.WrittenQueries.{columns_at, table_name};

use crate::item_writer::push_stored;
use gp_base::{Catalog, Column, NoMemory, append_all};
use std::alloc::Global;

/// The columns of a table, or none where it is not there.
fn columns_of(catalog: &Catalog, table: u32) -> &[Column]
    ensures { result.now ≡ columns_at catalog.now table }
{
    if table < catalog.len() {
        catalog.table(table).cols.as_slice()
    } else {
        &[]
    }
}

/// The name of a table, and nothing where it is not there.
fn name_of(catalog: &Catalog, table: u32) -> &[u8]
    ensures { result.now ≡ table_name catalog.now table }
{
    if table < catalog.len() {
        catalog.table(table).name.as_bytes()
    } else {
        b""
    }
}

/// Appends the test that a row version has no end.
fn push_endless(_catalog: &Catalog, out: &mut Vec<u8>) -> Result<(), NoMemory>
    ensures { OnOk result (out.new.items ≡ out.old.items
        ++ w.test_text _catalog.now (s.is_null (s.column s.no_alias s.ends) true)) }
{
    append_all(out, &[b"\"$to\"", b" IS NULL"])
}

/// Appends the test that a row version ends after a version.
fn push_before_end(
    alloc: Global,
    _catalog: &Catalog,
    version: u32,
    out: &mut Vec<u8>,
) -> Result<(), NoMemory>
    ensures { OnOk result
        (out.new.items ≡ out.old.items ++ w.test_text _catalog.now (before_end version)) }
{
    let version = version.to_string(alloc)?;
    append_all(out, &[version.as_bytes(), b" < ", b"\"$to\""])
}

/// Appends the test that a row version ends after a version, or not at all.
fn push_unended(
    alloc: Global,
    catalog: &Catalog,
    version: u32,
    out: &mut Vec<u8>,
) -> Result<(), NoMemory>
    ensures { OnOk result
        (out.new.items ≡ out.old.items ++ w.test_text catalog.now (unended version)) }
{
    append_all(out, &[b"("])?;
    push_endless(catalog, out)?;
    append_all(out, &[b" OR "])?;
    push_before_end(alloc, catalog, version, out)?;
    append_all(out, &[b")"])
}

/// Appends the test that a row version begins at a version or before it.
fn push_begun(
    alloc: Global,
    _catalog: &Catalog,
    version: u32,
    out: &mut Vec<u8>,
) -> Result<(), NoMemory>
    ensures { OnOk result
        (out.new.items ≡ out.old.items ++ w.test_text _catalog.now (begun version)) }
{
    let version = version.to_string(alloc)?;
    append_all(out, &[b"\"$from\"", b" <= ", version.as_bytes()])
}

/// Appends the test that a row version holds a version.
fn push_holding(
    alloc: Global,
    catalog: &Catalog,
    version: u32,
    out: &mut Vec<u8>,
) -> Result<(), NoMemory>
    ensures { OnOk result
        (out.new.items ≡ out.old.items ++ w.test_text catalog.now (q.holding version)) }
{
    push_begun(alloc, catalog, version, out)?;
    append_all(out, &[b" AND "])?;
    push_unended(alloc, catalog, version, out)
}

/// Appends the columns of a table, the identity and the mark.
fn push_scanned_items(
    alloc: Global,
    catalog: &Catalog,
    table: u32,
    out: &mut Vec<u8>,
) -> Result<(), NoMemory>
    ensures { OnOk result (out.new.items ≡ out.old.items
        ++ w.named_text catalog.now 1 (q.stored_terms table 0 (width_of catalog.now table))) }
{
    push_stored(alloc, columns_of(catalog, table), out)
}

/// Appends a SCAN.
pub(crate) fn push_scanned(
    alloc: Global,
    catalog: &Catalog,
    table: u32,
    version: u32,
    out: &mut Vec<u8>,
) -> Result<(), NoMemory>
    ensures { OnOk result (out.new.items ≡ out.old.items
        ++ w.block_text catalog.now (q.scanned table (width_of catalog.now table) version)) }
{
    append_all(out, &[b"SELECT "])?;
    push_scanned_items(alloc, catalog, table, out)?;
    append_all(
        out,
        &[b" FROM ", name_of(catalog, table), b"_versions", b" WHERE "],
    )?;
    push_holding(alloc, catalog, version, out)
}
