//! Cells, rows and names: their texts, their order and their copies.

use gp_base::{
    Cell, CellFormat, Name, NoMemory, Row, Sequence, Text, TextFormat, is_name,
    row_text_is_injective, sort_rows, sorting_is_unique, write_joined, write_row,
};
use std::alloc::Global;
use std::test::Fail;

/// A cell of a table of cases.
#[derive(Clone, Copy)]
pub(crate) enum Given {
    /// NULL.
    Null,
    /// A number.
    Int(i64),
    /// A text.
    Text(&'static str),
}

fn cell_of(alloc: Global, given: Given) -> Result<Cell, NoMemory> {
    match given {
        Given::Null => Ok(Cell::Null),
        Given::Int(number) => Ok(Cell::Int(number)),
        Given::Text(text) => Ok(Cell::Text(Text::from_bytes(alloc, text.as_bytes())?)),
    }
}

pub(crate) fn row_of(alloc: Global, cells: &[Given]) -> Result<Row, NoMemory> {
    let mut row = Row::new(alloc);
    for given in cells {
        row.push(cell_of(alloc, *given)?)?;
    }
    Ok(row)
}

/// The rows of these cells.
fn rows_of(alloc: Global, rows: &[&[Given]]) -> Result<Vec<Row>, NoMemory> {
    let mut all = Vec::new(alloc);
    for cells in rows {
        all.push(row_of(alloc, cells)?)?;
    }
    Ok(all)
}

/// Writes the rows, each with a line feed.
fn write_rows(alloc: Global, rows: &[Row], out: &mut Vec<u8>) -> Result<(), NoMemory> {
    for row in rows {
        write_row(alloc, row, out)?;
        out.push(b'\n')?;
    }
    Ok(())
}

/// Whether these are the texts of the rows, each with a line feed.
pub(crate) fn have_texts(alloc: Global, rows: &[Row], texts: &str) -> bool {
    let mut out = Vec::new(alloc);
    write_rows(alloc, rows, &mut out).is_ok() && out.as_slice() == texts.as_bytes()
}

const ROWS: &[&[Given]] = &[
    &[Given::Int(1), Given::Int(10)],
    &[Given::Null, Given::Int(-5), Given::Text("it's")],
    &[Given::Int(i64::MIN)],
    &[],
];

#[test]
fn rows_have_texts(rt: HostRuntime) -> Result<(), Fail> {
    row_text_is_injective();
    let rows = rows_of(rt.alloc(), ROWS)?;
    assert!(rt;
        have_texts(
            rt.alloc(),
            &rows,
            "1, 10\nNULL, -5, 'it''s'\n-9223372036854775808\n\n"
        )
    );
    Ok(())
}

const UNSORTED: &[&[Given]] = &[
    &[Given::Text("b")],
    &[Given::Int(10)],
    &[Given::Int(2), Given::Null],
    &[Given::Int(2)],
    &[Given::Text("ab")],
    &[Given::Int(-1)],
    &[Given::Null],
    &[Given::Int(2)],
];

#[test]
fn rows_are_sorted(rt: HostRuntime) -> Result<(), Fail> {
    sorting_is_unique();
    let mut rows = rows_of(rt.alloc(), UNSORTED)?;
    assert!(rt; sort_rows(&mut rows).is_ok());
    assert!(rt;
        have_texts(
            rt.alloc(),
            &rows,
            "NULL\n-1\n2\n2\n2, NULL\n10\n'ab'\n'b'\n"
        )
    );
    Ok(())
}

/// Whether a copy of the row is equal to it.
fn is_copied(row: &Row) -> bool {
    matches!(row.clone(), Ok(copy) if copy == *row && copy.cells().len() == 3)
}

#[test]
fn a_copy_is_equal(rt: HostRuntime) -> Result<(), Fail> {
    let row = row_of(
        rt.alloc(),
        &[Given::Int(7), Given::Text("seven"), Given::Null],
    )?;
    assert!(rt; is_copied(&row));
    Ok(())
}

#[test]
fn sequences_are_compared(rt: HostRuntime) -> Result<(), Fail> {
    let mut short = Sequence::from_slice(rt.alloc(), b"ab")?;
    let long = Sequence::from_vec(b"abc".to_vec(rt.alloc())?);
    assert!(rt; short < long);
    short.append(long)?;
    assert!(rt; short.into_vec().as_slice() == b"ababc".as_slice());
    Ok(())
}

fn is_written(alloc: Global, cell: &Cell, text: &str) -> bool {
    let mut out = Vec::new(alloc);
    CellFormat.write(alloc, cell, &mut out).is_ok() && out.as_slice() == text.as_bytes()
}

/// Whether the cell was made and has this text.
fn has_text(alloc: Global, cell: Result<Cell, NoMemory>, text: &str) -> bool {
    matches!(&cell, Ok(cell) if is_written(alloc, cell, text))
}

#[test]
fn cells_have_texts(rt: HostRuntime) {
    for (given, text) in [
        (Given::Null, "NULL"),
        (Given::Int(-20), "-20"),
        (Given::Int(i64::MAX), "9223372036854775807"),
        (Given::Text(""), "''"),
        (Given::Text("''"), "''''''"),
    ] {
        let cell = cell_of(rt.alloc(), given);
        assert!(rt; has_text(rt.alloc(), cell, text), "{text}");
    }
}

/// Whether the cells, with this text between any two, have this text.
fn are_joined(alloc: Global, cells: &[Cell], between: &[u8], text: &str) -> bool {
    let mut out = Vec::new(alloc);
    write_joined(alloc, cells, &CellFormat, between, &mut out).is_ok()
        && out.as_slice() == text.as_bytes()
}

#[test]
fn cells_are_joined(rt: HostRuntime) {
    let cells = [Cell::Int(1), Cell::Null];
    assert!(rt; are_joined(rt.alloc(), &cells, b" and ", "1 and NULL"));
}

const WORDS: &[(&[u8], bool)] = &[
    (b"", false),
    (b"a", true),
    (b"z9", true),
    (b"a_b", true),
    (b"a_", true),
    (b"_a", false),
    (b"9a", false),
    (b"A", false),
    (b"aB", false),
    (b"a-b", false),
    (b"a b", false),
    (b"a23456789_123456789_1234567890", true),
    (b"a23456789_123456789_12345678901", false),
    (b"all", false),
    (b"true", false),
    (b"where", false),
    (b"wher", true),
    (b"wheres", true),
    (b"all and", false),
    (b"\xc3\xa4", false),
];

/// Whether the name of the word has its bytes.
fn keeps_bytes(alloc: Global, word: &[u8]) -> bool {
    !is_name(word) || matches!(Name::new(alloc, word), Ok(name) if name.as_bytes() == word)
}

#[test]
fn names_differ_from_other_words(rt: HostRuntime) {
    for (word, expected) in WORDS {
        assert!(rt; is_name(word) == *expected, "{word:?}");
        assert!(rt; keeps_bytes(rt.alloc(), word), "{word:?}");
    }
}
