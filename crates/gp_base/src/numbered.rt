//! The texts of rows and of a refusal behind the number of a line, as replies and answers print them.

ghost use Rattle.std.specs.Prelude.{◌≡◌, ◌++◌, IfOk, IfSome, OnOk, string_bytes};
ghost use Rattle.std.specs.List.{flat_map};
ghost use Rattle.gp_base.specs.Numbered as n;
ghost use Rattle.gp_base.specs.Numbered.{numbered, row_line};

use crate::display::write_row;
use crate::error::NoMemory;
use crate::refusal::{Refusal, write_refusal};
use crate::row::Row;
use crate::sequence::Sequence;
use crate::sort::sort_rows;
use std::alloc::Global;
use std::fmt::Display;

/// Enough bytes for the text of a reply without rows.
const SHORT_TEXT: usize = 64;

/// What the value displays. A script may have millions of refused lines, so a short text takes one allocation.
pub fn short_text<D: Display + Drop>(alloc: Global, value: D) -> Result<String, NoMemory>
    ensures { IfOk result (λ text. IfSome (D.output value) (λ bytes. string_bytes text ≡ bytes)) }
{
    let mut text = String::with_capacity(alloc, SHORT_TEXT)?;
    text.write(value)?;
    Ok(text)
}

/// Appends the rows, each on a line of its own.
fn write_row_lines(alloc: Global, rows: &[Row], text: &mut Vec<u8>) -> Result<(), NoMemory>
    ensures { OnOk result (text.new.items ≡ text.old.items ++ flat_map row_line rows.now) }
{
    for row in rows {
        text.extend_from_slice(b"  ")?;
        write_row(alloc, row, text)?;
        text.push(b'\n')?;
    }
    Ok(())
}

/// The text of rows: their number, and the rows in row order, each as often as it occurs.
pub fn rows_text(alloc: Global, number: u32, rows: Sequence<Row>) -> Result<Vec<u8>, NoMemory>
    ensures { IfOk result (λ text. text.items ≡ numbered number (n.rows_text rows)) }
{
    let mut rows = rows.into_vec();
    let count = rows.len();
    sort_rows(&mut rows)?;
    let mut text = short_text(alloc, format_args!("{number} rows {count}\n"))?.into_bytes();
    write_row_lines(alloc, &rows, &mut text)?;
    Ok(text)
}

/// The text of a refusal.
pub fn refused_text(alloc: Global, number: u32, refusal: &Refusal) -> Result<Vec<u8>, NoMemory>
    ensures { IfOk result (λ text. text.items ≡ numbered number (n.refused_text refusal.now)) }
{
    let mut text = short_text(alloc, format_args!("{number} "))?.into_bytes();
    write_refusal(alloc, refusal, &mut text)?;
    text.push(b'\n')?;
    Ok(text)
}
