//! Sheets: a table with its rows, read from CSV.

ghost use Rattle.std.specs.Prelude.{◌≡◌, ◌+◌, ◌-◌, ◌<◌, ◌^◌, [], IfOk, None, Some, length, map, unwrap_or, if◌then◌else◌};
ghost use Rattle.std.specs.List.{list_all};
ghost use Rattle.csv.specs.Records.{field_at, fields_of};
ghost use Rattle.gp_csv.specs.Faults.{or_refuse};
ghost use Rattle.gp_csv.specs.Fields.{cells_from, is_int_field};
ghost use Rattle.gp_csv.specs.SheetForms.{ArePlainRows, IsSheet, Returns};
ghost use Rattle.gp_csv.specs.Sheets.{columns_from, inferred, sheet_row, rows_from, sheet_of, sheet_of_records, sheet_under};

use crate::error::{BAD_CELL, BAD_HEADER, BAD_LENGTH, CsvStop, NOT_UTF8, refused};
use crate::field::{is_int_field, parse_cell};
use crate::heading::{Heading, read_header};
use crate::record::{are_utf8, read_records};
use csv::ByteRecord;
use gp_base::{Column, Kind, NoMemory, Row, Sequence};
use std::alloc::Global;

/// A table and its rows.
#[derive(Drop)]
pub struct Sheet {
    /// The columns, from left to right.
    pub cols: Sequence<Column>,
    /// The rows, from top to bottom.
    pub rows: Sequence<Row>,
}

/// Whether an INT column can hold the field at this place of every record that has one.
fn are_int_fields(place: usize, records: &[ByteRecord]) -> bool
    ensures { result ≡ list_all (λ row. is_int_field (field_at (fields_of row) place))
        records.now }
{
    records.iter().all(|record| is_int_field(record.get(place)))
}

/// The type of a column whose heading has none.
#[tactic(auto, using(crate::proofs::SheetLemmas::tests))]
fn infer_kind(place: usize, records: &[ByteRecord]) -> Kind
    ensures { result ≡ inferred place (map fields_of records.now) }
{
    if are_int_fields(place, records) {
        Kind::Int
    } else {
        Kind::Text
    }
}

/// The column of a heading.
fn make_column(place: usize, heading: &Heading, records: &[ByteRecord]) -> Result<Column, NoMemory>
    ensures { IfOk result (λ column. column ≡ record { name = heading.now.name; kind = unwrap_or heading.now.kind (inferred place (map fields_of records.now)) }) }
{
    let name = heading.name.clone()?;
    let kind = match heading.kind {
        Some(kind) => kind,
        None => infer_kind(place, records),
    };
    Ok(Column { name, kind })
}

/// The columns of the headings.
#[tactic(auto, using(crate::proofs::SheetLemmas::column_steps))]
fn make_columns(
    alloc: Global,
    headings: &[Heading],
    records: &[ByteRecord],
) -> Result<Sequence<Column>, NoMemory>
    ensures { IfOk result (λ columns. columns
        ≡ columns_from 0 (map fields_of records.now) headings.now) }
{
    let mut columns = Sequence::new(alloc);
    for (place, heading) in headings.iter().enumerate() {
        columns.push(make_column(place, heading, records)?)?;
    }
    Ok(columns)
}

/// Adds the cells of a record to an empty row, if its fields are cells of the columns.
#[tactic(auto, using(crate::proofs::SheetLemmas::cell_steps))]
fn add_cells(
    alloc: Global,
    columns: &[Column],
    record: &ByteRecord,
    row: &mut Row,
) -> Result<bool, NoMemory>
    requires { row.old ≡ [] }
    ensures { IfOk result (λ found. cells_from 0 (fields_of record.now) columns.now
        ≡ if found then Some row.new else None) }
{
    for (place, column) in columns.iter().enumerate() {
        let Some(field) = record.get(place) else {
            return Ok(false);
        };
        let Some(cell) = parse_cell(alloc, column.kind, field)? else {
            return Ok(false);
        };
        row.push(cell)?;
    }
    Ok(true)
}

/// The row of a record, once its encoding and its length are known to be right.
fn read_cells(
    alloc: Global,
    columns: &[Column],
    number: u32,
    record: &ByteRecord,
) -> Result<Row, CsvStop>
    ensures { Returns (λ row. row) result
        (or_refuse BAD_CELL number (cells_from 0 (fields_of record.now) columns.now)) }
{
    let mut row = Row::new(alloc);
    if add_cells(alloc, columns, record, &mut row)? {
        Ok(row)
    } else {
        Err(refused(BAD_CELL, number))
    }
}

/// The row of the record of this number.
#[tactic(auto, unfolding(crate::specs::Sheets::sheet_row))]
fn read_row(
    alloc: Global,
    columns: &[Column],
    number: u32,
    record: &ByteRecord,
) -> Result<Row, CsvStop>
    ensures { Returns (λ row. row) result (sheet_row columns.now number (fields_of record.now)) }
{
    if !are_utf8(record) {
        return Err(refused(NOT_UTF8, number));
    }
    if record.len() != columns.len() {
        return Err(refused(BAD_LENGTH, number));
    }
    read_cells(alloc, columns, number, record)
}

/// The rows of the records after the first.
#[tactic(auto, using(crate::proofs::SheetLemmas::row_steps))]
fn read_rows(
    alloc: Global,
    columns: &[Column],
    records: &[ByteRecord],
) -> Result<Sequence<Row>, CsvStop>
    requires { length records.now + 2 < 2 ^ 32 }
    ensures { Returns (λ rows. rows) result (rows_from columns.now 2 (map fields_of records.now)) }
{
    let mut rows = Sequence::new(alloc);
    for (place, record) in records.iter().enumerate() {
        rows.push(read_row(alloc, columns, place as u32 + 2, record)?)?;
    }
    Ok(rows)
}

/// The sheet of these headings and the records after them.
fn read_under(alloc: Global, headings: &[Heading], records: &[ByteRecord]) -> Result<Sheet, CsvStop>
    requires { length records.now + 2 < 2 ^ 32 }
    ensures { Returns (λ sheet. sheet) result
        (sheet_under (map fields_of records.now) headings.now) }
{
    let cols = make_columns(alloc, headings, records)?;
    let rows = read_rows(alloc, cols.as_slice(), records)?;
    Ok(Sheet { cols, rows })
}

/// The sheet of these records.
fn read_from(alloc: Global, records: &[ByteRecord]) -> Result<Sheet, CsvStop>
    requires { length records.now < 2 ^ 32 - 1 }
    ensures { Returns (λ sheet. sheet) result (sheet_of_records (map fields_of records.now)) }
{
    match records {
        [] => Err(refused(BAD_HEADER, 1)),
        [first, others @ ..] => {
            let headings = read_header(alloc, first)?;
            read_under(alloc, &headings, others)
        }
    }
}

/// Reads a sheet: the first record names the columns, and each other one is a row. Records end at a line feed, a carriage return or
/// both, fields are quoted as in RFC 4180, and a byte order mark at the start is dropped. A sheet is refused at its first record with
/// a fault, for the least fault there.
pub fn read_sheet(alloc: Global, bytes: &[u8]) -> Result<Sheet, CsvStop>
    requires { length bytes.now < 2 ^ 32 - 1 }
    ensures exact { Returns (λ sheet. sheet) result (sheet_of bytes.now) }
    ensures valid { IfOk result (λ sheet. IsSheet sheet) }
    ensures plain { IfOk result (λ sheet. ArePlainRows sheet.rows) }
{
    let records = read_records(alloc, bytes)?;
    read_from(alloc, &records)
}
