//! The fields of a sheet as cells. NULL is `\N`, as in the text format of PostgreSQL's COPY.

ghost use Rattle.std.specs.Prelude.{◌≡◌, IfOk};
ghost use Rattle.std.specs.Option.{option_map};
ghost use Rattle.gp_csv.specs.Fields.{after_escape, cell_of, int_cell_of, text_cell, unescaped, value_cell_of};
ghost use Rattle.gp_csv.specs.Fields.{is_int_field};

use crate::number::parse_integer;
use gp_base::{Cell, Kind, NoMemory, Text, is_user_text};
use std::alloc::Global;

/// The byte that NULL begins with, and that escapes itself at the start of a text.
pub(crate) const BACKSLASH: u8 = b'\\';

/// The sign of a number.
pub(crate) const MINUS: u8 = b'-';

/// The text after an escaping backslash, which has to begin with a backslash itself.
fn after_escape(text: &[u8]) -> Option<&[u8]>
    ensures { option_map (λ rest. rest.now) result ≡ after_escape text.now }
{
    match text {
        [first, ..] if *first == BACKSLASH => Some(text),
        _ => None,
    }
}

/// The text of a field: the first of two backslashes at its start is dropped, and one alone is an error.
fn unescaped(field: &[u8]) -> Option<&[u8]>
    ensures { option_map (λ rest. rest.now) result ≡ unescaped field.now }
{
    match field {
        [first, others @ ..] if *first == BACKSLASH => after_escape(others),
        _ => Some(field),
    }
}

/// The cell of a text, if a user can write it.
fn text_cell(alloc: Global, text: &[u8]) -> Result<Option<Cell>, NoMemory>
    ensures { IfOk result (λ cell. cell ≡ text_cell text.now) }
{
    if is_user_text(text) {
        Ok(Some(Cell::Text(Text::from_bytes(alloc, text)?)))
    } else {
        Ok(None)
    }
}

/// The cell of a field of an INT column, where an empty field is NULL too.
fn parse_int_cell(field: &[u8]) -> Option<Cell>
    ensures { result ≡ int_cell_of field.now }
{
    match field {
        [] => Some(Cell::Null),
        [_, ..] => parse_integer(field).map(Cell::Int),
    }
}

/// The cell of a field that is not `\N`.
fn parse_value_cell(alloc: Global, kind: Kind, field: &[u8]) -> Result<Option<Cell>, NoMemory>
    ensures { IfOk result (λ cell. cell ≡ value_cell_of kind field.now) }
{
    match kind {
        Kind::Int => Ok(parse_int_cell(field)),
        Kind::Text => match unescaped(field) {
            None => Ok(None),
            Some(text) => text_cell(alloc, text),
        },
    }
}

/// The cell of a field in a column of this type, if it is one.
#[tactic(auto, unfolding(crate::specs::Fields::cell_of))]
pub(crate) fn parse_cell(alloc: Global, kind: Kind, field: &[u8]) -> Result<Option<Cell>, NoMemory>
    ensures { IfOk result (λ cell. cell ≡ cell_of kind field.now) }
{
    if field == b"\\N".as_slice() {
        Ok(Some(Cell::Null))
    } else {
        parse_value_cell(alloc, kind, field)
    }
}

/// Whether an INT column can hold the field, if there is one.
#[tactic(auto, unfolding(crate::specs::Fields::cell_of))]
pub(crate) fn is_int_field(field: Option<&[u8]>) -> bool
    ensures { result ≡ is_int_field (option_map (λ text. text.now) field.entry) }
{
    match field {
        None => true,
        Some(text) => text == b"\\N".as_slice() || parse_int_cell(text).is_some(),
    }
}
