//! The columns of joined rows, in which each part has its user columns first and system columns behind them.

ghost use Rattle.std.specs.Prelude.{◌≡◌, ◌+◌, ◌++◌, ◌∷◌, [], map, IfOk, OnOk, sum};
ghost use Rattle.gp_expr.specs.Expressions as e;
ghost use Rattle.gp_expr.specs.Views.{expr_view, parts_of};
ghost use Rattle.gp_prov.specs.ToPlain.{identities_from, product_of, system_width, times_from, users_from};
ghost use Rattle.gp_algebra.specs.Statements.{columns_behind};

use crate::numbers::add;
use gp_base::{Cell, Monomial, NoMemory};
use gp_expr::Expr;
use std::alloc::Global;

/// How many columns a part has behind its user columns.
fn system_width(with_prov: bool) -> u32
    ensures { result ≡ system_width with_prov }
{
    if with_prov { 3 } else { 2 }
}

/// The last column of a part that stands behind the column `at`.
fn end_of_part(with_prov: bool, at: u32, width: u32) -> Result<u32, NoMemory>
    ensures { IfOk result (λ n. n ≡ at + (width + system_width with_prov)) }
{
    add(at, add(width, system_width(with_prov))?)
}

/// The number of user columns of all parts together.
pub(crate) fn total_width(widths: &[u32]) -> Result<u32, NoMemory>
    ensures { IfOk result (λ n. n ≡ sum widths.now) }
{
    let mut total = 0;
    for &width in widths {
        total = add(total, width)?;
    }
    Ok(total)
}

/// Adds an expression.
// A `push` of a vector is also a path on which the expression is dropped. The functions that call this one share that path.
pub(crate) fn push(exprs: &mut Vec<Expr>, expr: Expr) -> Result<(), NoMemory>
    ensures { OnOk result (map expr_view exprs.new.items
        ≡ map expr_view exprs.old.items ++ expr_view expr ∷ []) }
{
    exprs.push(expr)?;
    Ok(())
}

/// Adds the columns behind `at`, `width` of them.
fn push_columns(columns: &mut Vec<Expr>, at: u32, width: u32) -> Result<(), NoMemory>
    ensures { OnOk result (map expr_view columns.new.items
        ≡ map expr_view columns.old.items ++ columns_behind at width) }
{
    let end = add(at, width)?;
    for n in at..end {
        push(columns, Expr::Col(n + 1))?;
    }
    Ok(())
}

/// Adds the system columns behind `at`.
pub(crate) fn push_system(columns: &mut Vec<Expr>, with_prov: bool, at: u32) -> Result<(), NoMemory>
    ensures { OnOk result (map expr_view columns.new.items
        ≡ map expr_view columns.old.items ++ columns_behind at (system_width with_prov)) }
{
    push_columns(columns, at, system_width(with_prov))
}

/// The user columns of joined rows, whose parts have so many of them each.
pub(crate) fn user_columns(
    alloc: Global,
    with_prov: bool,
    widths: &[u32],
) -> Result<Vec<Expr>, NoMemory>
    ensures { IfOk result (λ columns. map expr_view columns.items
        ≡ users_from with_prov 0 widths.now) }
{
    let mut columns = Vec::new(alloc);
    let mut at = 0;
    for &width in widths {
        push_columns(&mut columns, at, width)?;
        at = end_of_part(with_prov, at, width)?;
    }
    Ok(columns)
}

/// The columns of the identities of the parts.
pub(crate) fn identity_columns(
    alloc: Global,
    with_prov: bool,
    widths: &[u32],
) -> Result<Vec<Expr>, NoMemory>
    ensures { IfOk result (λ columns. parts_of columns.items
        ≡ identities_from with_prov 0 widths.now) }
{
    let mut columns = Vec::new(alloc);
    let mut at = 0;
    for &width in widths {
        let end = add(at, width)?;
        push(&mut columns, Expr::Col(add(end, 1)?))?;
        at = end_of_part(with_prov, at, width)?;
    }
    Ok(columns)
}

/// The column of the monomial of a part, whose system columns stand behind the column `at`.
pub(crate) fn monomial_column(at: u32) -> Result<Expr, NoMemory>
    ensures { IfOk result (λ column. expr_view column ≡ e.col (at + 3)) }
{
    Ok(Expr::Col(add(at, 3)?))
}

/// The product of two monomials.
pub(crate) fn product(alloc: Global, left: Expr, right: Expr) -> Result<Expr, NoMemory>
    ensures { IfOk result (λ new. expr_view new ≡ e.times (expr_view left) (expr_view right)) }
{
    Ok(Expr::Times(Box::new(alloc, left)?, Box::new(alloc, right)?))
}

/// A monomial times that of a part, whose system columns stand behind the column `at`.
fn times_part(alloc: Global, monomial: Expr, at: u32) -> Result<Expr, NoMemory>
    ensures { IfOk result (λ new. expr_view new ≡ e.times (expr_view monomial) (e.col (at + 3))) }
{
    product(alloc, monomial, monomial_column(at)?)
}

/// A monomial times those of the parts, in turn. The first part stands behind the column `at`.
pub(crate) fn times_parts(
    alloc: Global,
    with_prov: bool,
    at: u32,
    widths: &[u32],
    monomial: Expr,
) -> Result<Expr, NoMemory>
    ensures { IfOk result (λ new. expr_view new
        ≡ times_from with_prov at widths.now (expr_view monomial)) }
{
    let mut product = monomial;
    let mut at = at;
    for &width in widths {
        product = times_part(alloc, product, add(at, width)?)?;
        at = end_of_part(with_prov, at, width)?;
    }
    Ok(product)
}

/// The product of the monomials of the parts.
pub(crate) fn product_of_parts(
    alloc: Global,
    with_prov: bool,
    widths: &[u32],
) -> Result<Expr, NoMemory>
    ensures { IfOk result (λ new. expr_view new ≡ product_of with_prov widths.now) }
{
    match widths {
        [] => Ok(Expr::Const(Cell::Mono(Monomial::one(alloc)))),
        [first, others @ ..] => times_parts(
            alloc,
            with_prov,
            end_of_part(with_prov, 0, *first)?,
            others,
            monomial_column(*first)?,
        ),
    }
}
