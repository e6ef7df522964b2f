//! The rows that an UPDATE makes.

ghost use Rattle.std.specs.Prelude.{◌≡◌, true, map, unwrap_or, IfOk};
ghost use Rattle.std.specs.List.{list_all};
ghost use Rattle.gp_base.specs.CellForms.{cell_view};
ghost use Rattle.gp_algebra.specs.Effects.{assigned, set_for};
ghost use Rattle.gp_algebra.specs.Views.{set_view};
ghost use Rattle.gp_expr.specs.Expressions.{col};
ghost use Rattle.gp_expr.specs.Values.{column, value};
ghost use Rattle.gp_txn.specs.Changes.{set_is_simple};

use gp_algebra::SetExpr;
use gp_base::{Cell, CellRef, NoMemory, Row};
use gp_expr::eval_simple;
use std::alloc::Global;

/// The value of a column of the new row, over the old one: what it is set to, or else its own cell.
fn new_cell<'a>(sets: &'a [SetExpr], n: usize, row: &'a Row, own: &'a Cell) -> CellRef<'a>
    requires sets { list_all set_is_simple (map set_view sets.now) ≡ true }
    requires own { own.now ≡ column n row.now }
    ensures { cell_view result
        ≡ value (unwrap_or (set_for n (map set_view sets.now)) (col n)) row.now }
{
    for set in sets {
        if set.col as usize == n {
            return eval_simple(&set.expr, row);
        }
    }
    own.as_ref()
}

/// The new row: every expression reads the old one.
pub fn assigned(alloc: Global, sets: &[SetExpr], row: &Row) -> Result<Row, NoMemory>
    requires { list_all set_is_simple (map set_view sets.now) ≡ true }
    ensures { IfOk result (λ new. new ≡ assigned (map set_view sets.now) row.now) }
{
    let mut new = Row::new(alloc);
    let mut n = 0usize;
    for cell in row.cells() {
        n += 1;
        new.push(new_cell(sets, n, row, cell).to_cell()?)?;
    }
    Ok(new)
}
