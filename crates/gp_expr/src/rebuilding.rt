//! Expressions and conditions built anew, with others in place of their columns or with their own columns.

ghost use Rattle.std.specs.Prelude.{◌≡◌, ◌≤◌, map, box_value, IfOk, IfSome};
ghost use Rattle.std.specs.Option.{option_map};
ghost use Rattle.gp_base.specs.CellForms.{cell_view};
ghost use Rattle.gp_expr.specs.Expressions as e;
ghost use Rattle.gp_expr.specs.Rebuilding.{column_in, expr_or_null, inner_view, rebuilt, rebuilt_cond};
ghost use Rattle.gp_expr.specs.Sizes.{size};
ghost use Rattle.gp_expr.specs.SizeForms.{parts_size};
ghost use Rattle.gp_expr.specs.Substitution as s;
ghost use Rattle.gp_expr.specs.Views.{cond_view, expr_view, parts_of};

use crate::expr::{Cond, Expr};
use gp_base::{Cell, CellRef, NoMemory};
use std::alloc::Global;

/// A copy of a borrowed cell, as an expression.
fn constant(cell: CellRef<'_>) -> Result<Expr, NoMemory>
    ensures { IfOk result (λ new. expr_view new ≡ e.constant (cell_view cell.entry)) }
{
    Ok(Expr::Const(cell.to_cell()?))
}

/// The expression for a column, which count from 1, if there is one.
fn chosen(n: u32, inner: &[Expr]) -> Option<&Expr>
    ensures view { expr_or_null (option_map (λ expr. expr_view expr.now) result)
        ≡ s.chosen n (map expr_view inner.now) }
    ensures smaller { IfSome result (λ expr. size (expr_view expr.now)
        ≤ parts_size (parts_of inner.now)) }
{
    if n == 0 {
        return None;
    }
    inner.get(n as usize - 1)
}

/// A copy of the expression for a column, or the column itself if there are none.
#[cycle(rebuilding)]
fn column(alloc: Global, n: u32, inner: Option<&[Expr]>) -> Result<Expr, NoMemory>
    ensures { IfOk result (λ new. expr_view new ≡ column_in (inner_view inner.entry) n) }
{
    let Some(inner) = inner else {
        return Ok(Expr::Col(n));
    };
    match chosen(n, inner) {
        Some(expr) => rebuild(alloc, expr, None),
        None => Ok(Expr::Const(Cell::Null)),
    }
}

/// Two expressions, built anew.
#[cycle(rebuilding)]
fn rebuild_both(
    alloc: Global,
    left: &Expr,
    right: &Expr,
    inner: Option<&[Expr]>,
) -> Result<(Box<Expr>, Box<Expr>), NoMemory>
    ensures left { IfOk result (λ r. expr_view (box_value r.0)
        ≡ rebuilt (inner_view inner.entry) (expr_view left.now)) }
    ensures right { IfOk result (λ r. expr_view (box_value r.1)
        ≡ rebuilt (inner_view inner.entry) (expr_view right.now)) }
{
    let left = Box::new(alloc, rebuild(alloc, left, inner)?)?;
    let right = Box::new(alloc, rebuild(alloc, right, inner)?)?;
    Ok((left, right))
}

/// Two conditions, built anew.
#[cycle(rebuilding)]
fn rebuild_conds(
    alloc: Global,
    left: &Cond,
    right: &Cond,
    inner: Option<&[Expr]>,
) -> Result<(Box<Cond>, Box<Cond>), NoMemory>
    ensures left { IfOk result (λ r. cond_view (box_value r.0)
        ≡ rebuilt_cond (inner_view inner.entry) (cond_view left.now)) }
    ensures right { IfOk result (λ r. cond_view (box_value r.1)
        ≡ rebuilt_cond (inner_view inner.entry) (cond_view right.now)) }
{
    let left = Box::new(alloc, rebuild_cond(alloc, left, inner)?)?;
    let right = Box::new(alloc, rebuild_cond(alloc, right, inner)?)?;
    Ok((left, right))
}

/// A CASE, built anew.
#[cycle(rebuilding)]
fn rebuild_case(
    alloc: Global,
    when: &Cond,
    first: &Expr,
    other: &Expr,
    inner: Option<&[Expr]>,
) -> Result<Expr, NoMemory>
    ensures { IfOk result (λ new. expr_view new ≡ rebuilt (inner_view inner.entry)
        (e.case (cond_view when.now) (expr_view first.now) (expr_view other.now))) }
{
    let when = Box::new(alloc, rebuild_cond(alloc, when, inner)?)?;
    let (first, other) = rebuild_both(alloc, first, other, inner)?;
    Ok(Expr::Case(when, first, other))
}

/// The parts of a new identity, built anew.
#[cycle(rebuilding)]
fn rebuild_parts(
    alloc: Global,
    parts: &[Expr],
    inner: Option<&[Expr]>,
) -> Result<Vec<Expr>, NoMemory>
    ensures { IfOk result (λ new. map expr_view new.items
        ≡ map (rebuilt (inner_view inner.entry)) (map expr_view parts.now)) }
{
    let mut made = Vec::new(alloc);
    for part in parts {
        made.push(rebuild(alloc, part, inner)?)?;
    }
    Ok(made)
}

/// A new identity, built anew.
#[cycle(rebuilding)]
fn rebuild_new_id(
    alloc: Global,
    t: u32,
    k: u32,
    b: u32,
    parts: &[Expr],
    inner: Option<&[Expr]>,
) -> Result<Expr, NoMemory>
    ensures { IfOk result (λ new. expr_view new ≡ rebuilt (inner_view inner.entry)
        (e.new_id t k b (parts_of parts.now))) }
{
    let parts = rebuild_parts(alloc, parts, inner)?;
    Ok(Expr::NewId { t, k, b, parts })
}

/// The expression with copies of `inner` in place of its columns, or a copy of it if there are none.
#[cycle(rebuilding)]
pub(crate) fn rebuild(alloc: Global, expr: &Expr, inner: Option<&[Expr]>) -> Result<Expr, NoMemory>
    ensures { IfOk result (λ new. expr_view new
        ≡ rebuilt (inner_view inner.entry) (expr_view expr.now)) }
{
    match expr {
        Expr::Col(n) => column(alloc, *n, inner),
        Expr::Const(cell) => constant(cell.as_ref()),
        Expr::Add(left, right) => {
            let (left, right) = rebuild_both(alloc, left, right, inner)?;
            Ok(Expr::Add(left, right))
        }
        Expr::Sub(left, right) => {
            let (left, right) = rebuild_both(alloc, left, right, inner)?;
            Ok(Expr::Sub(left, right))
        }
        Expr::Mul(left, right) => {
            let (left, right) = rebuild_both(alloc, left, right, inner)?;
            Ok(Expr::Mul(left, right))
        }
        Expr::Neg(operand) => Ok(Expr::Neg(Box::new(alloc, rebuild(alloc, operand, inner)?)?)),
        Expr::Case(when, first, other) => rebuild_case(alloc, when, first, other, inner),
        Expr::NewId { t, k, b, parts } => rebuild_new_id(alloc, *t, *k, *b, parts, inner),
        Expr::Times(left, right) => {
            let (left, right) = rebuild_both(alloc, left, right, inner)?;
            Ok(Expr::Times(left, right))
        }
    }
}

/// The condition with copies of `inner` in place of its columns, or a copy of it if there are none.
#[cycle(rebuilding)]
pub(crate) fn rebuild_cond(
    alloc: Global,
    cond: &Cond,
    inner: Option<&[Expr]>,
) -> Result<Cond, NoMemory>
    ensures { IfOk result (λ new. cond_view new
        ≡ rebuilt_cond (inner_view inner.entry) (cond_view cond.now)) }
{
    match cond {
        Cond::True => Ok(Cond::True),
        Cond::Cmp(cmp, left, right) => {
            let (left, right) = rebuild_both(alloc, left, right, inner)?;
            Ok(Cond::Cmp(*cmp, left, right))
        }
        Cond::IsNull { expr, yes } => Ok(Cond::IsNull {
            expr: Box::new(alloc, rebuild(alloc, expr, inner)?)?,
            yes: *yes,
        }),
        Cond::IsTrue { cond, yes } => Ok(Cond::IsTrue {
            cond: Box::new(alloc, rebuild_cond(alloc, cond, inner)?)?,
            yes: *yes,
        }),
        Cond::And(left, right) => {
            let (left, right) = rebuild_conds(alloc, left, right, inner)?;
            Ok(Cond::And(left, right))
        }
        Cond::Or(left, right) => {
            let (left, right) = rebuild_conds(alloc, left, right, inner)?;
            Ok(Cond::Or(left, right))
        }
        Cond::Not(operand) => Ok(Cond::Not(Box::new(alloc, rebuild_cond(alloc, operand, inner)?)?)),
    }
}
