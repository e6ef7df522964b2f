//! The sizes of expressions and conditions.

ghost use Rattle.std.specs.Prelude.{◌≡◌, ◌+◌};
ghost use Rattle.gp_expr.specs.SizeForms as forms;
ghost use Rattle.gp_expr.specs.Sizes as s;
ghost use Rattle.gp_expr.specs.SizeForms.{up_to_greatest};
ghost use Rattle.gp_expr.specs.Views.{cond_view, expr_view, parts_of};

use crate::expr::{Cond, Expr};

/// One node and the sizes of what is below it, or the greatest number if there are more.
fn node_with(first: u64, second: u64) -> u64
    ensures { result ≡ up_to_greatest (1 + (first + second)) }
{
    first.saturating_add(second).saturating_add(1)
}

/// The number of nodes of an expression, or the greatest u64 if there are more.
#[cycle(sizes)]
pub fn size(expr: &Expr) -> u64
    ensures { result ≡ up_to_greatest (s.size (expr_view expr.now)) }
{
    match expr {
        Expr::Col(_) | Expr::Const(_) => 1,
        Expr::Add(left, right)
        | Expr::Sub(left, right)
        | Expr::Mul(left, right)
        | Expr::Times(left, right) => node_with(size(left), size(right)),
        Expr::Neg(inner) => node_with(size(inner), 0),
        Expr::Case(when, first, other) => node_with(
            cond_size(when),
            size(first).saturating_add(size(other)),
        ),
        Expr::NewId { parts, .. } => node_with(parts_size(parts), 0),
    }
}

/// The number of nodes of a condition, or the greatest u64 if there are more.
#[cycle(sizes)]
pub fn cond_size(cond: &Cond) -> u64
    ensures { result ≡ up_to_greatest (forms.cond_size (cond_view cond.now)) }
{
    match cond {
        Cond::True => 1,
        Cond::Cmp(_, left, right) => node_with(size(left), size(right)),
        Cond::IsNull { expr, .. } => node_with(size(expr), 0),
        Cond::IsTrue { cond, .. } => node_with(cond_size(cond), 0),
        Cond::And(left, right) | Cond::Or(left, right) => {
            node_with(cond_size(left), cond_size(right))
        }
        Cond::Not(inner) => node_with(cond_size(inner), 0),
    }
}

/// The number of nodes of all of these.
#[cycle(sizes)]
fn parts_size(parts: &[Expr]) -> u64
    ensures { result ≡ up_to_greatest (forms.parts_size (parts_of parts.now)) }
{
    let mut total: u64 = 0;
    for part in parts {
        total = total.saturating_add(size(part));
    }
    total
}
