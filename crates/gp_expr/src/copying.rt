//! Copies of expressions and conditions.

ghost use Rattle.std.specs.Prelude.{◌≡◌, IfOk};
ghost use Rattle.gp_expr.specs.Views.{cond_view, expr_view};

use crate::expr::{Cond, Expr};
use crate::rebuilding::{rebuild, rebuild_cond};
use gp_base::NoMemory;
use std::alloc::Global;

/// A copy of an expression. Running out of memory is the only error.
pub fn copy_expr(alloc: Global, expr: &Expr) -> Result<Expr, NoMemory>
    ensures { IfOk result (λ copy. expr_view copy ≡ expr_view expr.now) }
{
    rebuild(alloc, expr, None)
}

/// A copy of a condition. Running out of memory is the only error.
pub fn copy_cond(alloc: Global, cond: &Cond) -> Result<Cond, NoMemory>
    ensures { IfOk result (λ copy. cond_view copy ≡ cond_view cond.now) }
{
    rebuild_cond(alloc, cond, None)
}
