//! The statements that make the tables of row versions and fill them.

ghost use Rattle.std.specs.Prelude.{◌≡◌, ◌<◌, ◌++◌, ◌∷◌, [], codes, length, map, OnOk};
ghost use Rattle.std.specs.List.{concat, flat_map};
ghost use Rattle.gp_base.specs.Texts.{cell_text};
ghost use Rattle.gp_versions.specs.Spans.{Versions};
ghost use Rattle.gp_sql.specs.TableTexts as t;
ghost use Rattle.gp_sql.specs.PlacedTables.{place_text, span_lists, table_text};
ghost use Rattle.gp_sql.specs.VersionTables as v;

use crate::cell_writer::push_identity;
use gp_base::{Catalog, Cell, CellFormat, Column, Kind, NoMemory, Table, TextFormat, append_all};
use gp_versions::{Span, VersionTable};
use std::alloc::Global;

/// A statement fills in at most this many rows.
const MOST_ROWS: u64 = 100;

/// The type of a column, behind a blank.
fn kind_text(kind: Kind) -> &'static [u8]
    ensures { result.now ≡ t.kind_text kind }
{
    match kind {
        Kind::Int => b" BIGINT",
        Kind::Text => b" VARCHAR(255)",
    }
}

/// Appends the definitions of columns.
fn push_columns(columns: &[Column], out: &mut Vec<u8>) -> Result<(), NoMemory>
    ensures { OnOk result
        (out.new.items ≡ out.old.items ++ flat_map t.column_definition columns.now) }
{
    for column in columns {
        append_all(out, &[b", \"", column.name.as_bytes(), b"\""])?;
        append_all(out, &[kind_text(column.kind)])?;
    }
    Ok(())
}

/// The columns of an identity and of the versions at which a row begins and ends.
#[tactic(auto, unfolding(crate::specs::TableTexts::system_columns))]
fn system_columns() -> &'static [u8]
    ensures { result.now ≡ t.system_columns }
{
    b"\"$id\" VARCHAR(2200) NOT NULL, \"$from\" BIGINT NOT NULL, \"$to\" BIGINT"
}

/// What a CREATE TABLE begins with.
#[tactic(auto, unfolding(crate::specs::TableTexts::create_begin))]
fn create_begin() -> &'static [u8]
    ensures { result.now ≡ t.create_begin }
{
    b"CREATE TABLE "
}

/// What follows the name there.
#[tactic(auto, unfolding(crate::specs::TableTexts::create_middle))]
fn create_middle() -> &'static [u8]
    ensures { result.now ≡ t.create_middle }
{
    b"_versions ("
}

/// What an INSERT begins with.
fn insert_begin() -> &'static [u8]
    ensures { result.now ≡ codes "INSERT INTO " }
{
    b"INSERT INTO "
}

/// What follows the name there.
fn insert_end() -> &'static [u8]
    ensures { result.now ≡ codes "_versions VALUES " }
{
    b"_versions VALUES "
}

/// Appends the statement that makes a table of row versions.
fn push_create(table: &Table, out: &mut Vec<u8>) -> Result<(), NoMemory>
    ensures { OnOk result (out.new.items ≡ out.old.items ++ t.create_text table.now) }
{
    append_all(out, &[create_begin()])?;
    append_all(out, &[table.name.as_bytes()])?;
    append_all(out, &[create_middle(), system_columns()])?;
    push_columns(table.cols.as_slice(), out)?;
    append_all(out, &[b");", b"\n"])
}

/// Appends what an INSERT begins with.
fn push_insert(table: &Table, out: &mut Vec<u8>) -> Result<(), NoMemory>
    ensures { OnOk result (out.new.items ≡ out.old.items ++ t.insert_word table.now) }
{
    append_all(out, &[insert_begin()])?;
    append_all(out, &[table.name.as_bytes()])?;
    append_all(out, &[insert_end()])
}

/// Appends what stands before the row behind so many others.
fn push_row_word(table: &Table, n: u64, out: &mut Vec<u8>) -> Result<(), NoMemory>
    ensures { OnOk result (out.new.items ≡ out.old.items ++ t.row_word table.now n) }
{
    if n == 0 {
        return push_insert(table, out);
    }
    if n % MOST_ROWS == 0 {
        append_all(out, &[b";", b"\n"])?;
        push_insert(table, out)
    } else {
        append_all(out, &[b", "])
    }
}

/// Appends cells, each behind a comma.
fn push_other_cells(alloc: Global, cells: &[Cell], out: &mut Vec<u8>) -> Result<(), NoMemory>
    ensures { OnOk result (out.new.items
        ≡ out.old.items ++ flat_map (λ cell. codes ", " ++ cell_text cell) cells.now) }
{
    for cell in cells {
        append_all(out, &[b", "])?;
        CellFormat.write(alloc, cell, out)?;
    }
    Ok(())
}

/// Appends the version at which a row ends, or NULL.
fn push_end(alloc: Global, to: Option<u32>, out: &mut Vec<u8>) -> Result<(), NoMemory>
    ensures { OnOk result (out.new.items ≡ out.old.items ++ cell_text (v.end_cell to)) }
{
    match to {
        Some(to) => {
            let to = to.to_string(alloc)?;
            append_all(out, &[to.as_bytes()])
        }
        None => append_all(out, &[b"NULL"]),
    }
}

/// Appends a row version in brackets.
fn push_version(alloc: Global, span: &Span, out: &mut Vec<u8>) -> Result<(), NoMemory>
    ensures { OnOk result (out.new.items ≡ out.old.items ++ t.version_text span.now) }
{
    append_all(out, &[b"("])?;
    push_identity(alloc, &span.id, out)?;
    let from = span.from.to_string(alloc)?;
    append_all(out, &[b", ", from.as_bytes(), b", "])?;
    push_end(alloc, span.to, out)?;
    push_other_cells(alloc, span.row.cells(), out)?;
    append_all(out, &[b")"])
}

/// Appends the statements that fill a table, at most a hundred rows each.
fn push_versions(
    alloc: Global,
    table: &Table,
    spans: &[Span],
    out: &mut Vec<u8>,
) -> Result<(), NoMemory>
    ensures { OnOk result
        (out.new.items ≡ out.old.items ++ t.insert_text table.now 0 spans.now) }
{
    for (n, span) in spans.iter().enumerate() {
        push_row_word(table, n as u64, out)?;
        push_version(alloc, span, out)?;
    }
    if spans.is_empty() {
        return Ok(());
    }
    append_all(out, &[b";", b"\n"])
}

/// Appends the statements that make the table of the row versions of a table, and fill it.
fn write_table(
    alloc: Global,
    table: &Table,
    spans: &[Span],
    out: &mut Vec<u8>,
) -> Result<(), NoMemory>
    ensures { OnOk result
        (out.new.items ≡ out.old.items ++ table_text table.now spans.now) }
{
    push_create(table, out)?;
    push_versions(alloc, table, spans, out)
}

/// Appends the statements for the table at this place, if there are row versions for it.
fn write_table_at(
    alloc: Global,
    catalog: &Catalog,
    versions: &[VersionTable],
    place: u32,
    out: &mut Vec<u8>,
) -> Result<(), NoMemory>
    requires { place < length catalog.now }
    ensures { OnOk result (out.new.items ≡ out.old.items
        ++ place_text catalog.now (span_lists versions.now) place) }
{
    match versions.get(place as usize) {
        Some(found) => write_table(alloc, catalog.table(place), found.as_slice(), out),
        None => Ok(()),
    }
}

/// Appends the statements that make the tables of row versions, in order of creation, and fill them. A part is appended if memory
/// runs out, which is the only error.
pub fn write_tables(
    alloc: Global,
    catalog: &Catalog,
    versions: &[VersionTable],
    out: &mut Vec<u8>,
) -> Result<(), NoMemory>
    ensures { OnOk result (out.new.items ≡ out.old.items
        ++ t.tables_text catalog.now (map (λ (table : Versions). table.spans) versions.now)) }
{
    for place in 0..catalog.len() {
        write_table_at(alloc, catalog, versions, place, out)?;
    }
    Ok(())
}
