//! Lines of rows, put in the order of their tables and identities. Those of one identity keep the order in which they came.

ghost use Rattle.std.specs.Prelude.{◌≡◌, ◌∷◌, ◌++◌, [], IfOk, OnOk, None, length};
ghost use Rattle.std.specs.Option.{option_map, option_to_list};
ghost use Rattle.gp_base.specs.Order.{row_cmp, sorted_by};
ghost use Rattle.gp_ask.specs.RowLines as l;

use crate::answered::{Answered, Heading};
use crate::changes::numbered;
use gp_base::{Cell, MAX_ANSWER_ROWS, NoMemory, Refusal, Row, RowId, Sequence, Text, sort_rows};
use std::alloc::Global;

/// Adds a line of a row.
pub fn push_line(
    alloc: Global,
    table: u32,
    id: &RowId,
    text: &[u8],
    rows: &mut Vec<Row>,
) -> Result<(), NoMemory>
    ensures { OnOk result (rows.new.items ≡ rows.old.items
        ++ l.keyed_line (length rows.old.items) (l.row_line table id.now text.now) ∷ []) }
{
    let place = numbered(rows.len())?;
    let mut row = Row::with_capacity(alloc, 4)?;
    row.push(Cell::Int(i64::from(table)))?;
    row.push(Cell::Id(id.clone()?))?;
    row.push(Cell::Int(i64::from(place)))?;
    row.push(Cell::Text(Text::from_bytes(alloc, text)?))?;
    rows.push(row)?;
    Ok(())
}

/// The text that a row ends with.
fn text_of(row: &Row) -> Option<&Text>
    ensures { option_map (λ text. text.now) result ≡ l.text_of row.now }
{
    let cells = row.cells();
    match cells.get(cells.len().saturating_sub(1)) {
        Some(Cell::Text(text)) => Some(text),
        _ => None,
    }
}

/// Adds the text that a row ends with.
fn push_text(row: &Row, texts: &mut Sequence<Text>) -> Result<(), NoMemory>
    ensures { OnOk result (texts.new ≡ texts.old ++ option_to_list (l.text_of row.now)) }
{
    if let Some(text) = text_of(row) {
        texts.push(text.clone()?)?;
    }
    Ok(())
}

/// The texts that rows end with, in the order of the rows.
fn sorted_texts(alloc: Global, rows: Vec<Row>) -> Result<Sequence<Text>, NoMemory>
    ensures { IfOk result (λ texts. texts ≡ l.row_texts (sorted_by row_cmp rows.items)) }
{
    let mut rows = rows;
    sort_rows(&mut rows)?;
    let mut texts = Sequence::new(alloc);
    for row in &rows {
        push_text(row, &mut texts)?;
    }
    Ok(texts)
}

/// The answer of the texts that rows end with, in the order of the rows, unless there are too many.
pub fn listed(alloc: Global, heading: Heading, rows: Vec<Row>) -> Result<Answered, NoMemory>
    ensures { IfOk result (λ answered. answered ≡ l.listed heading rows.items) }
{
    if rows.len() > MAX_ANSWER_ROWS {
        return Ok(Answered::Refused(Refusal::E27));
    }
    Ok(Answered::Lines(heading, sorted_texts(alloc, rows)?))
}

/// Whether two cells are there, and are one.
fn is_same_cell(cell: Option<&Cell>, other: Option<&Cell>) -> bool
    ensures { result ≡ l.is_same_cell (option_map (λ found. found.now) cell.entry)
        (option_map (λ found. found.now) other.entry) }
{
    match cell {
        Some(cell) => match other {
            Some(other) => cell.cmp(other).is_eq(),
            None => false,
        },
        None => false,
    }
}

/// Whether two lines are of one row.
fn same_key(row: &Row, other: &Row) -> bool
    ensures { result ≡ l.same_key row.now other.now }
{
    let cells = row.cells();
    let others = other.cells();
    is_same_cell(cells.get(0), others.get(0)) && is_same_cell(cells.get(1), others.get(1))
}

/// Whether a line is of the same row as the last one.
fn is_again(last: Option<&Row>, row: &Row) -> bool
    ensures { result ≡ l.is_again (option_map (λ line. line.now) last.entry) row.now }
{
    match last {
        Some(last) => same_key(last, row),
        None => false,
    }
}

/// Adds the text of a line, unless it is of the same row as the last one.
fn push_first(last: Option<&Row>, row: &Row, texts: &mut Sequence<Text>) -> Result<(), NoMemory>
    ensures { OnOk result (texts.new
        ≡ texts.old ++ l.first_text (option_map (λ line. line.now) last.entry) row.now) }
{
    if is_again(last, row) {
        return Ok(());
    }
    push_text(row, texts)
}

/// The texts of lines, in order, of each row the one that came first.
pub fn first_texts(alloc: Global, rows: Vec<Row>) -> Result<Sequence<Text>, NoMemory>
    ensures { IfOk result (λ texts. texts ≡ l.first_texts None (sorted_by row_cmp rows.items)) }
{
    let mut rows = rows;
    sort_rows(&mut rows)?;
    let mut texts = Sequence::new(alloc);
    let mut last = None;
    for row in &rows {
        push_first(last, row, &mut texts)?;
        last = Some(row);
    }
    Ok(texts)
}
