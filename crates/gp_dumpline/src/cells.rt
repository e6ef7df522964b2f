//! Cells in the lines of a dump.

ghost use Rattle.std.specs.Prelude.{◌≡◌, ◌<◌, ◌∷◌, ◌++◌, [], IfOk, IfSome, None, Some, false, length, if◌then◌else◌};
ghost use Rattle.std.specs.Option.{option_map};
ghost use Rattle.gp_dumpline.specs.CellParts.{parts_behind, with_further};
ghost use Rattle.gp_dumpline.specs.RowForms.{cell_of, cells_of, integer_of, negative_of, parts_of, unquoted};

use crate::number::parse_number;
use crate::part::after_byte;
use gp_base::{Cell, NoMemory, Row, Text};
use std::alloc::Global;

/// The quote around a text value.
const QUOTE: u8 = b'\'';

/// The part before the first comma outside of quotes, and what is behind that comma, if there is one.
#[tactic(auto, using(crate::proofs::CellLemmas::part_steps))]
fn first_part(text: &[u8]) -> (&[u8], Option<&[u8]>)
    ensures parts { parts_of false text.now
        ≡ result.0.now ∷ parts_behind (option_map (λ rest. rest.now) result.1) }
    ensures shorter { IfSome result.1 (λ rest. length rest.now < length text.now) }
{
    let mut inside = false;
    for (i, byte) in text.iter().enumerate() {
        if *byte == QUOTE {
            inside = !inside;
        } else if *byte == b',' && !inside {
            return (&text[..i], Some(&text[i + 1..]));
        }
    }
    (text, None)
}

/// What is in front of the closing quote, where that is the only quote.
fn plain_text(text: &[u8]) -> Option<&[u8]>
    ensures { IfSome result (λ body. unquoted text.now ≡ Some body.now) }
{
    match text {
        [] => None,
        [body @ .., last] => {
            if *last == QUOTE && !body.contains(&QUOTE) {
                Some(body)
            } else {
                None
            }
        }
    }
}

/// The value of a text behind its opening quote, byte by byte.
#[tactic(auto, using(crate::proofs::CellLemmas::quote_steps))]
fn undoubled(alloc: Global, text: &[u8]) -> Result<Option<Text>, NoMemory>
    ensures { IfOk result (λ found. found ≡ unquoted text.now) }
{
    let mut bytes = Vec::new(alloc);
    let mut rest = text;
    while let [first, behind @ ..] = rest {
        rest = behind;
        if *first == QUOTE {
            match behind {
                [] => return Ok(Some(Text::from_bytes(alloc, &bytes)?)),
                [second, others @ ..] => {
                    if *second != QUOTE {
                        return Ok(None);
                    }
                    rest = others;
                }
            }
        }
        bytes.push(*first)?;
    }
    Ok(None)
}

/// The value of a text behind its opening quote.
fn unquoted(alloc: Global, text: &[u8]) -> Result<Option<Text>, NoMemory>
    ensures { IfOk result (λ found. found ≡ unquoted text.now) }
{
    match plain_text(text) {
        Some(body) => Ok(Some(Text::from_bytes(alloc, body)?)),
        None => undoubled(alloc, text),
    }
}

/// The number below zero of this magnitude, if it has 64 bits.
fn negative(magnitude: u64) -> Option<i64>
    ensures { result ≡ negative_of magnitude }
{
    if magnitude == 0 || magnitude > 1 << 63 {
        return None;
    }
    Some(-1 - (magnitude - 1) as i64)
}

/// A number of 64 bits with sign; `-0` is none.
#[tactic(auto, using(crate::proofs::CellLemmas::integers))]
fn parse_integer(text: &[u8]) -> Option<i64>
    ensures { result ≡ integer_of text.now }
{
    match text {
        [] => None,
        [first, digits @ ..] => {
            if *first == b'-' {
                negative(parse_number(digits)?)
            } else {
                i64::try_from(parse_number(text)?).ok()
            }
        }
    }
}

/// A cell: NULL, a number or a text in quotes.
#[tactic(auto, unfolding(crate::specs::RowForms::cell_of))]
fn parse_cell(alloc: Global, text: &[u8]) -> Result<Option<Cell>, NoMemory>
    ensures { IfOk result (λ found. found ≡ cell_of text.now) }
{
    match text {
        [] => Ok(None),
        [first, others @ ..] => {
            if *first == QUOTE {
                let text = unquoted(alloc, others)?;
                Ok(text.map(Cell::Text))
            } else if text == b"NULL".as_slice() {
                Ok(Some(Cell::Null))
            } else {
                Ok(parse_integer(text).map(Cell::Int))
            }
        }
    }
}

/// Adds the cell of a part to a row, if the part is one.
fn push_cell(alloc: Global, part: &[u8], row: &mut Row) -> Result<bool, NoMemory>
    ensures { IfOk result (λ found. option_map (λ cell. row.old ++ cell ∷ []) (cell_of part.now)
        ≡ if found then Some row.new else None) }
{
    match parse_cell(alloc, part)? {
        Some(cell) => {
            row.push(cell)?;
            Ok(true)
        }
        None => Ok(false),
    }
}

/// Adds the cells behind a comma to a row, if there are any and they are cells.
#[tactic(auto, using(crate::proofs::CellLemmas::further_steps))]
fn push_further(alloc: Global, rest: Option<&[u8]>, row: &mut Row) -> Result<bool, NoMemory>
    ensures { IfOk result (λ found. with_further row.old (option_map (λ text. text.now) rest.entry)
        ≡ if found then Some row.new else None) }
{
    let mut left = rest;
    while let Some(text) = left {
        let (part, behind) = first_part(text);
        let Some(part) = after_byte(b' ', part) else {
            return Ok(false);
        };
        if !push_cell(alloc, part, row)? {
            return Ok(false);
        }
        left = behind;
    }
    Ok(true)
}

/// Adds the cells of a text to a row without cells, if they are cells.
#[tactic(auto, using(crate::proofs::CellLemmas::further_steps))]
fn push_cells(alloc: Global, text: &[u8], row: &mut Row) -> Result<bool, NoMemory>
    requires { row.old ≡ [] }
    ensures { IfOk result (λ found. cells_of text.now ≡ if found then Some row.new else None) }
{
    let (first, rest) = first_part(text);
    if !push_cell(alloc, first, row)? {
        return Ok(false);
    }
    push_further(alloc, rest, row)
}

/// The row that the text is.
pub(crate) fn parse_row(alloc: Global, text: &[u8]) -> Result<Option<Row>, NoMemory>
    ensures { IfOk result (λ found. found ≡ cells_of text.now) }
{
    let mut row = Row::new(alloc);
    let found = push_cells(alloc, text, &mut row)?;
    if found { Ok(Some(row)) } else { Ok(None) }
}
