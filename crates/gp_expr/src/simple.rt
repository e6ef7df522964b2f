//! Tests of expressions: whether they are simple.

ghost use Rattle.std.specs.Prelude.{◌≡◌};
ghost use Rattle.gp_expr.specs.ExpressionForms as forms;
ghost use Rattle.gp_expr.specs.Views.{cond_view, expr_view};

use crate::expr::{Cond, Expr};

/// Whether an expression computes neither identities nor provenance. [`eval_simple`](crate::eval_simple) takes such
/// expressions only.
#[cycle(simple)]
pub fn is_simple(expr: &Expr) -> bool
    ensures { result ≡ forms.is_simple (expr_view expr.now) }
{
    match expr {
        Expr::Col(_) | Expr::Const(_) => true,
        Expr::Add(left, right) | Expr::Sub(left, right) | Expr::Mul(left, right) => {
            is_simple(left) && is_simple(right)
        }
        Expr::Neg(inner) => is_simple(inner),
        Expr::Case(when, first, other) => {
            cond_is_simple(when) && (is_simple(first) && is_simple(other))
        }
        Expr::NewId { .. } | Expr::Times(_, _) => false,
    }
}

/// Whether every expression in a condition is simple.
#[cycle(simple)]
pub fn cond_is_simple(cond: &Cond) -> bool
    ensures { result ≡ forms.cond_is_simple (cond_view cond.now) }
{
    match cond {
        Cond::True => true,
        Cond::Cmp(_, left, right) => is_simple(left) && is_simple(right),
        Cond::IsNull { expr, .. } => is_simple(expr),
        Cond::IsTrue { cond, .. } => cond_is_simple(cond),
        Cond::And(left, right) | Cond::Or(left, right) => {
            cond_is_simple(left) && cond_is_simple(right)
        }
        Cond::Not(inner) => cond_is_simple(inner),
    }
}
