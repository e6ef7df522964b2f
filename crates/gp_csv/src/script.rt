//! The script that fills a table with the rows of a sheet. The rows are written once, one after another, and of the last line only
//! counts are kept: no line is built on its own, and none is read again.

ghost use Rattle.std.specs.Prelude.{◌≡◌, ◌+◌, ◌<◌, ◌≤◌, IfOk, OnOk, length, true};
ghost use Rattle.gp_grammar.specs.Canonical.{command_text};
ghost use Rattle.gp_syntax.specs.Views.{command_view};
ghost use Rattle.gp_csv.specs.Packing.{begun, create_of, has_room, insert_text, joined, line_end, no_line, packed_script, placed, put_row, put_rows, script_end, script_head, tuple_text};
ghost use Rattle.gp_csv.specs.Scripts.{script_of};
ghost use Rattle.gp_csv.specs.SheetForms.{ArePlainRows, Returns};

use crate::error::{CsvStop, LONG_ROW, TOO_MANY, refused};
use crate::sheet::Sheet;
use gp_base::{
    Column, Name, NoMemory, Row, Sequence, Table, append_all, text_of_pieces, write_row,
};
use gp_grammar::{MAX_LINE_LENGTH, MAX_VALUES};
use gp_syntax::{Command, write_command};
use std::alloc::Global;

/// The greatest number of rows of a sheet, as of a table after an INSERT.
pub const MAX_ROWS: usize = 10_000;

/// The greatest number of INSERT lines of a script, as of its statements.
pub const MAX_INSERTS: usize = 2_000;

/// The greatest number of INSERT lines of a transaction, as of its statements.
pub const MAX_STEPS: usize = 256;

/// Counts of the last INSERT line of a script that is being written.
#[derive(Clone, Copy)]
pub(crate) struct LineCounts {
    /// The bytes of the line.
    pub length: usize,
    /// The rows of the line.
    pub rows: usize,
    /// The INSERT lines so far.
    pub inserts: usize,
}

/// A row in brackets.
fn tuple_text(alloc: Global, row: &Row) -> Result<Vec<u8>, NoMemory>
    ensures { IfOk result (λ text. text.items ≡ tuple_text row.now) }
{
    let mut text = Vec::new(alloc);
    append_all(&mut text, &[b"("])?;
    write_row(alloc, row, &mut text)?;
    append_all(&mut text, &[b")"])?;
    Ok(text)
}

/// The beginning of an INSERT line.
fn insert_text(alloc: Global, name: &Name) -> Result<Vec<u8>, NoMemory>
    ensures { IfOk result (λ text. text.items ≡ insert_text name.now) }
{
    text_of_pieces(alloc, &[b"s1: INSERT INTO ", name.as_bytes(), b" VALUES "])
}

/// Whether the line has room for one more tuple.
fn has_room(line: LineCounts, tuple: &[u8]) -> bool
    ensures { result ≡ has_room line tuple.now }
{
    0 < line.rows
        && line.rows < MAX_VALUES
        && line.length.saturating_add(2).saturating_add(tuple.len()) <= MAX_LINE_LENGTH
}

/// What is written between two INSERT lines: a line feed, and COMMIT and BEGIN if the transaction can have no more of them.
fn line_end(lines: usize) -> &'static [u8]
    ensures { result.now ≡ line_end lines }
{
    if lines == 0 {
        b"".as_slice()
    } else if lines % MAX_STEPS == 0 {
        b"\ns1: COMMIT\ns1: BEGIN\n".as_slice()
    } else {
        b"\n".as_slice()
    }
}

/// Adds a tuple to the last line.
fn join(script: &mut Vec<u8>, line: LineCounts, tuple: &[u8]) -> Result<LineCounts, NoMemory>
    requires { has_room line tuple.now ≡ true }
    ensures { IfOk result (λ next. (script.new.items, next)
        ≡ joined (script.old.items, line) tuple.now) }
{
    append_all(script, &[b", ", tuple])?;
    Ok(LineCounts {
        length: line.length + 2 + tuple.len(),
        rows: line.rows + 1,
        inserts: line.inserts,
    })
}

/// Begins an INSERT line with a tuple.
fn begin_line(
    script: &mut Vec<u8>,
    prefix: &[u8],
    line: LineCounts,
    tuple: &[u8],
) -> Result<LineCounts, NoMemory>
    requires few { line.inserts < MAX_INSERTS }
    requires short { length prefix.now + length tuple.now ≤ MAX_LINE_LENGTH }
    ensures { IfOk result (λ next. (script.new.items, next)
        ≡ begun prefix.now (script.old.items, line) tuple.now) }
{
    script.extend_from_slice(line_end(line.inserts))?;
    script.extend_from_slice(prefix)?;
    script.extend_from_slice(tuple)?;
    Ok(LineCounts {
        length: prefix.len() + tuple.len(),
        rows: 1,
        inserts: line.inserts + 1,
    })
}

/// Adds a tuple to the last line, or begins the next one with it.
fn place(
    script: &mut Vec<u8>,
    prefix: &[u8],
    number: u32,
    line: LineCounts,
    tuple: &[u8],
) -> Result<LineCounts, CsvStop>
    requires { length prefix.now + length tuple.now ≤ MAX_LINE_LENGTH }
    ensures { Returns (λ next. (script.new.items, next)) result
        (placed prefix.now number (script.old.items, line) tuple.now) }
{
    if has_room(line, tuple) {
        Ok(join(script, line, tuple)?)
    } else if line.inserts >= MAX_INSERTS {
        Err(refused(TOO_MANY, number))
    } else {
        Ok(begin_line(script, prefix, line, tuple)?)
    }
}

/// Adds the tuple of the record of this number.
#[tactic(auto, unfolding(crate::specs::Packing::put_row))]
fn put_row(
    script: &mut Vec<u8>,
    prefix: &[u8],
    number: u32,
    line: LineCounts,
    tuple: &[u8],
) -> Result<LineCounts, CsvStop>
    ensures exact { Returns (λ next. (script.new.items, next)) result
        (put_row prefix.now number (script.old.items, line) tuple.now) }
    ensures few { OnOk result (number ≤ MAX_ROWS + 1) }
{
    if prefix.len().saturating_add(tuple.len()) > MAX_LINE_LENGTH {
        return Err(refused(LONG_ROW, number));
    }
    if number as usize > MAX_ROWS + 1 {
        return Err(refused(TOO_MANY, number));
    }
    place(script, prefix, number, line, tuple)
}

/// Adds the row of the record of this number.
fn add_row(
    alloc: Global,
    script: &mut Vec<u8>,
    prefix: &[u8],
    number: u32,
    line: LineCounts,
    row: &Row,
) -> Result<LineCounts, CsvStop>
    ensures exact { Returns (λ next. (script.new.items, next)) result
        (put_row prefix.now number (script.old.items, line) (tuple_text row.now)) }
    ensures few { OnOk result (number ≤ MAX_ROWS + 1) }
{
    let tuple = tuple_text(alloc, row)?;
    put_row(script, prefix, number, line, &tuple)
}

#[tactic(auto, using(crate::proofs::PackingLemmas::put_steps))]
fn add_rows(
    alloc: Global,
    script: &mut Vec<u8>,
    prefix: &[u8],
    rows: &[Row],
) -> Result<LineCounts, CsvStop>
    ensures { Returns (λ next. (script.new.items, next)) result
        (put_rows prefix.now 2 (script.old.items, no_line) rows.now) }
{
    let mut line = LineCounts {
        length: 0,
        rows: 0,
        inserts: 0,
    };
    let mut number = 2;
    for row in rows {
        line = add_row(alloc, script, prefix, number, line, row)?;
        number += 1;
    }
    Ok(line)
}

/// The CREATE TABLE of a sheet.
fn create_command(name: &Name, columns: &Sequence<Column>) -> Result<Command, NoMemory>
    ensures { IfOk result (λ command. command_view command ≡ create_of name.now columns.now) }
{
    let name = name.clone()?;
    let cols = columns.clone()?;
    Ok(Command::Create {
        table: Table { name, cols },
    })
}

/// Its canonical text.
fn create_text(alloc: Global, name: &Name, columns: &Sequence<Column>) -> Result<Vec<u8>, NoMemory>
    ensures { IfOk result (λ text. text.items ≡ command_text (create_of name.now columns.now)) }
{
    let command = create_command(name, columns)?;
    write_command(alloc, &command)
}

/// The lines before the first INSERT.
fn script_head(alloc: Global, name: &Name, columns: &Sequence<Column>) -> Result<Vec<u8>, NoMemory>
    ensures { IfOk result (λ text. text.items ≡ script_head name.now columns.now) }
{
    let create = create_text(alloc, name, columns)?;
    text_of_pieces(alloc, &[b"s1: ", &create, b"\ns1: BEGIN\n"])
}

/// The end of the last INSERT line, and the line after it.
fn script_end(lines: usize) -> &'static [u8]
    ensures { result.now ≡ script_end lines }
{
    if lines == 0 {
        b"s1: COMMIT\n".as_slice()
    } else {
        b"\ns1: COMMIT\n".as_slice()
    }
}

/// The script, gathered from its texts.
#[tactic(auto, unfolding(crate::specs::Packing::packed_script))]
fn packed_script(alloc: Global, name: &Name, sheet: &Sheet) -> Result<Vec<u8>, CsvStop>
    ensures { Returns (λ text. text.items) result (packed_script name.now sheet.now) }
{
    let prefix = insert_text(alloc, name)?;
    let mut script = script_head(alloc, name, &sheet.cols)?;
    let line = add_rows(alloc, &mut script, &prefix, sheet.rows.as_slice())?;
    append_all(&mut script, &[script_end(line.inserts)])?;
    Ok(script)
}

/// The script that creates a table of this name with the rows of the sheet, by session 1. Each INSERT line takes as many of the next
/// rows as a line can have, and each transaction as many of these lines as it can have.
///
/// The sheet is refused at its first record with a fault: its row alone is too long for a line, or it is a row more than
/// [`MAX_ROWS`], or would need more than [`MAX_INSERTS`] INSERT lines.
#[tactic(auto, using(crate::proofs::ScriptLemmas::scripts))]
pub fn write_script(alloc: Global, name: &Name, sheet: &Sheet) -> Result<Vec<u8>, CsvStop>
    requires plain { ArePlainRows sheet.now.rows }
    ensures exact { Returns (λ script. script.items) result (script_of name.now sheet.now) }
{
    packed_script(alloc, name, sheet)
}
