//! Conditions that only rows with a known cell pass.

ghost use Rattle.std.specs.Prelude.{◌≡◌, IfSome};
ghost use Rattle.gp_expr.specs.Expressions as e;
ghost use Rattle.gp_expr.specs.declared.expr.Cmp.TheVariants.{Eq};
ghost use Rattle.gp_expr.specs.Views.{cond_view, expr_view};
ghost use Rattle.gp_base.specs.CellForms.{cell_view};
ghost use Rattle.gp_txn.specs.Equating.{Compares, Equates, puts_cell};
ghost use Rattle.gp_versions.specs.Places as p;

use crate::overlay::Slot;
use gp_base::{Cell, CellRef, Row};
use gp_expr::{Cmp, Cond, Expr};

/// A column that a condition compares with a constant, for equality.
#[derive(Clone, Copy)]
pub struct Equality<'a> {
    /// The column, from 1.
    pub column: u32,
    /// The constant.
    pub cell: &'a Cell,
}

/// The cell of a row in a column; NULL if it does not have the column.
fn cell_at(row: &Row, column: u32) -> CellRef<'_>
    ensures { cell_view result ≡ p.cell_at column row.now }
{
    if column == 0 {
        return CellRef::Null;
    }
    match row.cells().get(column as usize - 1) {
        Some(cell) => cell.as_ref(),
        None => CellRef::Null,
    }
}

/// Whether `=` of SQL is true of the cells.
fn are_equal(cell: CellRef<'_>, other: CellRef<'_>) -> bool
    ensures { result ≡ p.are_equal (cell_view cell.entry) (cell_view other.entry) }
{
    match (cell, other) {
        (CellRef::Int(cell), CellRef::Int(other)) => cell.cmp(&other).is_eq(),
        (CellRef::Text(cell), CellRef::Text(other)) => cell.cmp(other).is_eq(),
        _ => false,
    }
}

impl Equality<'_> {
    /// Whether the transaction put an equal cell into the column of a row.
    pub(crate) fn is_put(&self, slot: &Slot) -> bool
        ensures { result ≡ puts_cell self.now.column self.now.cell.now slot.now }
    {
        match slot {
            Slot::Put(row) => are_equal(cell_at(row, self.column), self.cell.as_ref()),
            Slot::Same | Slot::Dropped => false,
        }
    }
}

/// The number of a column, if the expression is one.
fn column_of(expr: &Expr) -> Option<u32>
    ensures { IfSome result (λ n. expr_view expr.now ≡ e.col n) }
{
    match expr {
        Expr::Col(n) => Some(*n),
        _ => None,
    }
}

/// The constant, if the expression is one.
fn constant_of(expr: &Expr) -> Option<&Cell>
    ensures { IfSome result (λ cell. expr_view expr.now ≡ e.constant cell.now) }
{
    match expr {
        Expr::Const(cell) => Some(cell),
        _ => None,
    }
}

/// The column and the constant, if the first expression is a column and the second one is a constant.
fn column_and_constant<'a>(first: &'a Expr, second: &'a Expr) -> Option<Equality<'a>>
    ensures { IfSome result (λ found. Compares found.column found.cell.now
        (expr_view first.now) (expr_view second.now)) }
{
    match (column_of(first), constant_of(second)) {
        (Some(column), Some(cell)) => Some(Equality { column, cell }),
        _ => None,
    }
}

/// The column and the constant that are compared, if one of the expressions is a column and the other one is a constant.
fn compared<'a>(left: &'a Expr, right: &'a Expr) -> Option<Equality<'a>>
    ensures { IfSome result (λ found. Equates found.column found.cell.now
        (e.compare Eq (expr_view left.now) (expr_view right.now))) }
{
    match column_and_constant(left, right) {
        Some(found) => Some(found),
        None => column_and_constant(right, left),
    }
}

/// The column and the constant of the first conjunct that compares these two for equality. Only rows with this cell in the
/// column pass the condition.
pub fn equated(cond: &Cond) -> Option<Equality<'_>>
    ensures { IfSome result (λ found. Equates found.column found.cell.now (cond_view cond.now)) }
{
    match cond {
        Cond::And(first, second) => match equated(first) {
            Some(found) => Some(found),
            None => equated(second),
        },
        Cond::Cmp(Cmp::Eq, left, right) => compared(left, right),
        _ => None,
    }
}
