//! Occurrences of rows, put together.

ghost use Rattle.std.specs.Prelude.{◌≡◌, IfOk, OnOk};
ghost use Rattle.gp_base.specs.Order.{row_cmp};
ghost use Rattle.gp_semiring.specs.Listing as l;
ghost use Rattle.gp_semiring.specs.ListingForms as forms;
ghost use Rattle.gp_semiring.specs.Listing.{cells_of, grouped, listed, monomial_of};

use crate::listed::Listed;
use gp_base::{Cell, Monomial, NoMemory, Row, Sequence, sort_rows};
use std::alloc::Global;
use std::cmp::Ordering;
use std::mem;

/// The row of an occurrence.
fn cells_of(alloc: Global, row: &Row) -> Result<Row, NoMemory>
    ensures { IfOk result (λ cells. cells ≡ cells_of row.now) }
{
    let cells = row.cells();
    let count = cells.len().saturating_sub(1);
    let mut copy = Row::new(alloc);
    for i in 0..count {
        copy.push(cells[i].clone()?)?;
    }
    Ok(copy)
}

/// The monomial of an occurrence.
fn monomial_of(alloc: Global, row: &Row) -> Result<Monomial, NoMemory>
    ensures { IfOk result (λ monomial. monomial ≡ monomial_of row.now) }
{
    let cells = row.cells();
    match cells.get(cells.len().saturating_sub(1)) {
        Some(Cell::Mono(monomial)) => Ok(monomial.clone()?),
        _ => Ok(Monomial::one(alloc)),
    }
}

/// Whether an occurrence is of the row.
fn has_cells(cells: &Row, row: &Row) -> bool
    ensures { result ≡ l.has_cells cells.now row.now }
{
    let own = row.cells();
    let count = own.len().saturating_sub(1);
    cells.cells().cmp(&own[..count]) == Ordering::Equal
}

/// The row of an occurrence, with its monomial.
fn opened(alloc: Global, row: &Row) -> Result<Listed, NoMemory>
    ensures { IfOk result (λ one. one ≡ forms.opened row.now) }
{
    let mut monomials = Sequence::new(alloc);
    monomials.push(monomial_of(alloc, row)?)?;
    Ok(Listed {
        row: cells_of(alloc, row)?,
        monomials,
    })
}

/// Adds an occurrence to the row that is put together, or begins another one.
fn add(
    alloc: Global,
    done: &mut Sequence<Listed>,
    current: &mut Listed,
    row: &Row,
) -> Result<(), NoMemory>
    ensures { OnOk result (forms.Adds done.old current.old row.now done.new current.new) }
{
    if has_cells(&current.row, row) {
        current.monomials.push(monomial_of(alloc, row)?)?;
    } else {
        let closed = mem::replace(current, opened(alloc, row)?);
        done.push(closed)?;
    }
    Ok(())
}

/// The distinct rows of occurrences that are in order.
fn grouped(alloc: Global, rows: &[Row]) -> Result<Sequence<Listed>, NoMemory>
    ensures { IfOk result (λ found. found ≡ grouped rows.now) }
{
    let mut done = Sequence::new(alloc);
    let Some((first, others)) = rows.split_first() else {
        return Ok(done);
    };
    let mut current = opened(alloc, first)?;
    for row in others {
        add(alloc, &mut done, &mut current, row)?;
    }
    done.push(current)?;
    Ok(done)
}

/// The distinct rows in order, each with the monomials of all its occurrences in order, with repetitions. An occurrence is a row
/// with its monomial as the last cell, and all have the same number of cells. Running out of memory is the only error.
pub fn list(alloc: Global, rows: Vec<Row>) -> Result<Sequence<Listed>, NoMemory>
    ensures { IfOk result (λ found. found ≡ listed rows.items) }
{
    let mut rows = rows;
    sort_rows(&mut rows)?;
    grouped(alloc, &rows)
}
