//! The difference of two bags of rows, by one pass over both, sorted.

ghost use Rattle.std.specs.Prelude.{◌≡◌, ◌++◌, ◌∷◌, map, IfOk, OnOk};
ghost use Rattle.gp_base.specs.declared.cell.Cell.TheVariants as cell;
ghost use Rattle.gp_ask.specs.DeltaForms.{added_in, removed_in};
ghost use Rattle.gp_ask.specs.Deltas.{delta, with_sign};

use gp_base::{Cell, NoMemory, Row, Sequence, Text};
use std::alloc::Global;
use std::cmp::Ordering;

/// How many rows are in the one bag alone, and how many in the other.
#[derive(Clone, Copy)]
pub struct Sizes {
    /// The rows that are more often in the first bag, each as often as the difference.
    pub removed: usize,
    /// Those that are more often in the second one.
    pub added: usize,
}

/// The sizes of the difference of two bags, whose rows are in order.
#[tactic(auto, using(crate::proofs::DeltaLemmas::ends))]
pub fn delta_sizes(rows: &[Row], others: &[Row]) -> Sizes
    ensures removed { result.removed ≡ removed_in (delta rows.now others.now) }
    ensures added { result.added ≡ added_in (delta rows.now others.now) }
{
    let mut i = 0usize;
    let mut j = 0usize;
    let mut removed = 0usize;
    let mut added = 0usize;
    'both: while i < rows.len() && j < others.len() {
        match rows[i].cmp(&others[j]) {
            Ordering::Less => {
                removed += 1;
                i += 1;
            }
            Ordering::Greater => {
                added += 1;
                j += 1;
            }
            Ordering::Equal => {
                i += 1;
                j += 1;
            }
        }
    }
    Sizes {
        removed: removed + (rows.len() - i),
        added: added + (others.len() - j),
    }
}

/// Adds the cells to a row.
pub(crate) fn add_cells(row: &mut Row, cells: &[Cell]) -> Result<(), NoMemory>
    ensures { OnOk result (row.new ≡ row.old ++ cells.now) }
{
    for cell in cells {
        row.push(cell.clone()?)?;
    }
    Ok(())
}

/// A row behind a sign.
fn signed_row(alloc: Global, sign: &[u8], row: &Row) -> Result<Row, NoMemory>
    ensures { IfOk result (λ signed. signed ≡ cell.Text sign.now ∷ row.now) }
{
    let cells = row.cells();
    let mut signed = Row::new(alloc);
    signed.push(Cell::Text(Text::from_bytes(alloc, sign)?))?;
    add_cells(&mut signed, cells)?;
    Ok(signed)
}

/// The rows of the difference of two bags, whose rows are in order, each behind its sign.
pub fn delta_rows(alloc: Global, rows: &[Row], others: &[Row]) -> Result<Sequence<Row>, NoMemory>
    ensures { IfOk result (λ lines. lines ≡ map with_sign (delta rows.now others.now)) }
{
    let mut lines = Sequence::new(alloc);
    let mut i = 0usize;
    let mut j = 0usize;
    'both: while i < rows.len() && j < others.len() {
        match rows[i].cmp(&others[j]) {
            Ordering::Less => {
                lines.push(signed_row(alloc, b"-", &rows[i])?)?;
                i += 1;
            }
            Ordering::Greater => {
                lines.push(signed_row(alloc, b"+", &others[j])?)?;
                j += 1;
            }
            Ordering::Equal => {
                i += 1;
                j += 1;
            }
        }
    }
    'left: while i < rows.len() {
        lines.push(signed_row(alloc, b"-", &rows[i])?)?;
        i += 1;
    }
    'right: while j < others.len() {
        lines.push(signed_row(alloc, b"+", &others[j])?)?;
        j += 1;
    }
    Ok(lines)
}
