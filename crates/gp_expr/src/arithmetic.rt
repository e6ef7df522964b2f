//! Arithmetic on cells. A result that does not fit 64 bits, or an operand that is no number, gives no number.

ghost use Rattle.std.specs.Prelude.{◌≡◌};
ghost use Rattle.gp_base.specs.CellForms.{cell_view};
ghost use Rattle.gp_expr.specs.Values.{negated, on_numbers};
ghost use Rattle.gp_expr.specs.Results.{number_in, number_view, operation};

use gp_base::{Cell, CellRef};

/// An operation on two numbers.
#[derive(Clone, Copy)]
pub enum Arithmetic {
    /// `+`
    Add,
    /// `-`
    Sub,
    /// `*`
    Mul,
}

/// The result of the operation on two numbers.
fn computed(by: Arithmetic, left: i64, right: i64) -> Option<i64>
    ensures { number_view result
        ≡ on_numbers (operation by) (Cell.Int left) (Cell.Int right) }
{
    match by {
        Arithmetic::Add => left.checked_add(right),
        Arithmetic::Sub => left.checked_sub(right),
        Arithmetic::Mul => left.checked_mul(right),
    }
}

/// The result of the operation, unless a number is missing.
pub fn compute(by: Arithmetic, left: Option<i64>, right: Option<i64>) -> Option<i64>
    ensures { number_view result
        ≡ on_numbers (operation by) (number_view left) (number_view right) }
{
    match (left, right) {
        (Some(left), Some(right)) => computed(by, left, right),
        _ => None,
    }
}

/// The number with the other sign.
pub fn negate(number: Option<i64>) -> Option<i64>
    ensures { number_view result ≡ negated (number_view number) }
{
    number?.checked_neg()
}

/// The number in a borrowed cell, or None if it is another cell.
fn number_of(cell: CellRef<'_>) -> Option<i64>
    ensures { result ≡ number_in (cell_view cell.entry) }
{
    match cell {
        CellRef::Int(number) => Some(number),
        _ => None,
    }
}

/// The number as a borrowed cell; NULL if there is none.
fn number_ref<'a>(number: Option<i64>) -> CellRef<'a>
    ensures { cell_view result ≡ number_view number }
{
    match number {
        Some(number) => CellRef::Int(number),
        None => CellRef::Null,
    }
}

/// The result of the operation on two borrowed cells; NULL if there is none.
pub fn compute_ref<'a>(by: Arithmetic, left: CellRef<'_>, right: CellRef<'_>) -> CellRef<'a>
    ensures { cell_view result
        ≡ on_numbers (operation by) (cell_view left.entry) (cell_view right.entry) }
{
    number_ref(compute(by, number_of(left), number_of(right)))
}

/// The number in a borrowed cell with the other sign; NULL if there is none.
pub fn negate_ref<'a>(cell: CellRef<'_>) -> CellRef<'a>
    ensures { cell_view result ≡ negated (cell_view cell.entry) }
{
    number_ref(negate(number_of(cell)))
}

/// The number as a cell; NULL if there is none.
pub fn number_cell(number: Option<i64>) -> Cell
    ensures { result ≡ number_view number }
{
    match number {
        Some(number) => Cell::Int(number),
        None => Cell::Null,
    }
}
