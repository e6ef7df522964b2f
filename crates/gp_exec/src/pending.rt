//! Rows that are looked at before they are made.

ghost use Rattle.std.specs.Prelude.{◌≡◌, ◌++◌, ◌∷◌, [], suc, true, filter, map, Some, IfOk, OnOk};
ghost use Rattle.std.specs.Option.{IfSome};
ghost use Rattle.gp_algebra.specs.Plain as p;
ghost use Rattle.gp_expr.specs.Values.{column};
ghost use Rattle.gp_expr.specs.Views.{expr_view};
ghost use Rattle.gp_exec.specs.Evaluating.{found_rows};
ghost use Rattle.gp_exec.specs.PendingRows.{Finds, IsPending, place_is_simple, cell_there, pending_rows};

use crate::cell_place::{CellPlace, place_of_cell};
use crate::found::Found;
use crate::projection::values_on;
use gp_base::{NoMemory, Row};
use gp_expr::Expr;
use std::alloc::Global;

/// Rows whose identities and marks are known before the rows are made.
#[derive(Drop)]
pub struct Pending<'a> {
    /// What they are made of.
    pub rows: Found<'a>,
    /// The expressions that make them; none if they are made already.
    pub exprs: Option<&'a [Expr]>,
    /// Where their identities are found.
    pub id: CellPlace<'a>,
    /// Where their marks are found.
    pub mark: CellPlace<'a>,
}

/// Where the identity and the mark of the rows are found that the expressions make, if they are simple.
pub fn places_of_cells(exprs: &[Expr], at: u32) -> Option<(CellPlace<'_>, CellPlace<'_>)>
    ensures id { IfSome result (λ places. Finds places.0 at (Some (map expr_view exprs.now))) }
    ensures mark { IfSome result (λ places. Finds places.1 (suc at) (Some (map expr_view exprs.now))) }
{
    let Some(id) = place_of_cell(exprs, at as usize) else {
        return None;
    };
    match place_of_cell(exprs, at as usize + 1) {
        Some(mark) => Some((id, mark)),
        None => None,
    }
}

impl<'a> Pending<'a> {
    /// Rows that are made already, with identities in this column and marks in the next one.
    pub fn made(rows: Found<'a>, at: u32) -> Pending<'a>
        ensures pending { IsPending at result }
        ensures rows { pending_rows result ≡ found_rows rows.entry }
    {
        Pending {
            rows,
            exprs: None,
            id: CellPlace::Column(at as usize),
            mark: CellPlace::Column(at as usize + 1),
        }
    }

    /// What the marked rows are made of.
    fn marked(&self, alloc: Global) -> Result<Vec<&Row>, NoMemory>
        requires { place_is_simple self.now.mark ≡ true }
        ensures { IfOk result (λ kept. map (λ r. r.now) kept.items
            ≡ filter (λ row. p.is_marked (cell_there self.now.mark row)) (found_rows self.now.rows)) }
    {
        let mut kept = Vec::new(alloc);
        for place in 0..self.rows.len() {
            append_if_marked(&mut kept, self.rows.row(place), self.mark)?;
        }
        Ok(kept)
    }

    /// The marked rows. The others are not made.
    pub fn published(&self, alloc: Global, at: u32) -> Result<Found<'_>, NoMemory>
        requires { IsPending at self.now }
        ensures { IfOk result (λ found. found_rows found
            ≡ filter (λ row. p.is_marked (column (suc at) row)) (pending_rows self.now)) }
    {
        let rows = Found::Picked(self.marked(alloc)?);
        match self.exprs {
            None => Ok(rows),
            Some(exprs) => Ok(Found::Made(values_on(alloc, exprs, &rows)?)),
        }
    }
}

/// Appends a row if its mark is YES.
fn append_if_marked<'a>(
    rows: &mut Vec<&'a Row>,
    row: &'a Row,
    mark: CellPlace<'_>,
) -> Result<(), NoMemory>
    requires { place_is_simple mark ≡ true }
    ensures { OnOk result (map (λ r. r.now) rows.new.items ≡ map (λ r. r.now) rows.old.items
        ++ filter (λ row. p.is_marked (cell_there mark.entry row)) (row.now ∷ [])) }
{
    if mark.is_marked(row) {
        rows.push(row)?;
    }
    Ok(())
}
