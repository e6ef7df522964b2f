//! Comparisons and tests.

ghost use Rattle.std.specs.Prelude.{◌≡◌};
ghost use Rattle.gp_base.specs.CellForms.{cell_view};
ghost use Rattle.gp_expr.specs.Values as v;

use crate::expr::Cmp;
use crate::ternary::Ternary;
use gp_base::CellRef;
use std::cmp::Ordering;

/// The truth value of what is known.
fn known(answer: bool) -> Ternary
    ensures { result ≡ v.known answer }
{
    if answer {
        Ternary::True
    } else {
        Ternary::False
    }
}

/// Whether the operator accepts this result of a comparison.
fn accepts(cmp: Cmp, ordering: Ordering) -> bool
    ensures { result ≡ v.accepts cmp ordering }
{
    match cmp {
        Cmp::Eq => ordering.is_eq(),
        Cmp::Ne => ordering.is_ne(),
        Cmp::Lt => ordering.is_lt(),
        Cmp::Le => ordering.is_le(),
        Cmp::Gt => ordering.is_gt(),
        Cmp::Ge => ordering.is_ge(),
    }
}

/// The truth of a comparison, which is unknown unless it is of two numbers or two texts.
pub fn compare(cmp: Cmp, left: CellRef<'_>, right: CellRef<'_>) -> Ternary
    ensures { result ≡ v.compared cmp (cell_view left.entry) (cell_view right.entry) }
{
    match (left, right) {
        (CellRef::Int(left), CellRef::Int(right)) => known(accepts(cmp, left.cmp(&right))),
        (CellRef::Text(left), CellRef::Text(right)) => known(accepts(cmp, left.cmp(right))),
        _ => Ternary::Unknown,
    }
}

/// Whether the cell is NULL.
pub fn is_null(cell: CellRef<'_>) -> bool
    ensures { result ≡ v.is_null (cell_view cell.entry) }
{
    match cell {
        CellRef::Null => true,
        _ => false,
    }
}

/// The truth of an IS test, or of its negation unless `yes`.
pub fn test(yes: bool, answer: bool) -> Ternary
    ensures { result ≡ v.tested yes answer }
{
    if yes { known(answer) } else { known(!answer) }
}
