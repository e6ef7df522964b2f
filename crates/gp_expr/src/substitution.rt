//! Expressions in place of the columns of others.

ghost use Rattle.std.specs.Prelude.{◌≡◌, List, map, IfOk};
ghost use Rattle.gp_base.specs.declared.cell.Cell.{Cell};
ghost use Rattle.gp_expr.specs.Substitution as s;
ghost use Rattle.gp_expr.specs.Values as v;
ghost use Rattle.gp_expr.specs.Views.{cond_view, expr_view};

use crate::expr::{Cond, Expr};
use crate::rebuilding::{rebuild, rebuild_cond};
use gp_base::NoMemory;
use std::alloc::Global;

/// The expression with `inner` in place of its columns: column n becomes a copy of the n-th of them, or NULL if there are
/// fewer. Its value on a row is that of `expr` on the row of the values of `inner`. Running out of memory is the only error.
pub fn substitute(alloc: Global, expr: &Expr, inner: &[Expr]) -> Result<Expr, NoMemory>
    ensures exact { IfOk result (λ new. expr_view new
        ≡ s.substituted (expr_view expr.now) (map expr_view inner.now)) }
    ensures value { IfOk result (λ new. (row : List Cell) → v.value (expr_view new) row
        ≡ v.value (expr_view expr.now) (map (λ e. v.value (expr_view e) row) inner.now)) }
{
    rebuild(alloc, expr, Some(inner))
}

/// The condition with `inner` in place of its columns, as [`substitute`] does for an expression. Its truth on a row is that
/// of `cond` on the row of the values of `inner`. Running out of memory is the only error.
pub fn substitute_cond(alloc: Global, cond: &Cond, inner: &[Expr]) -> Result<Cond, NoMemory>
    ensures exact { IfOk result (λ new. cond_view new
        ≡ s.substituted_cond (cond_view cond.now) (map expr_view inner.now)) }
    ensures truth { IfOk result (λ new. (row : List Cell) → v.truth (cond_view new) row
        ≡ v.truth (cond_view cond.now) (map (λ e. v.value (expr_view e) row) inner.now)) }
{
    rebuild_cond(alloc, cond, Some(inner))
}

/// Each expression with `inner` in place of its columns, as [`substitute`] does for one. Running out of memory is the only
/// error.
pub fn substitute_each(alloc: Global, exprs: &[Expr], inner: &[Expr]) -> Result<Vec<Expr>, NoMemory>
    ensures exact { IfOk result (λ new. map expr_view new.items
        ≡ s.substituted_each (map expr_view exprs.now) (map expr_view inner.now)) }
{
    let mut new = Vec::new(alloc);
    for expr in exprs {
        new.push(substitute(alloc, expr, inner)?)?;
    }
    Ok(new)
}
