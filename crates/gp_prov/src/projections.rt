//! The columns that a projection gives, with the system columns behind them.

ghost use Rattle.std.specs.Prelude.{◌≡◌, ◌+◌, ◌++◌, [], true, map, Some, IfOk, OnOk};
ghost use Rattle.std.specs.Option.{option_map};
ghost use Rattle.gp_base.specs.declared.cell.Cell.TheVariants as cell;
ghost use Rattle.gp_base.specs.Tokens as m;
ghost use Rattle.gp_expr.specs.Expressions as e;
ghost use Rattle.gp_expr.specs.Substitution.{substituted_cond, substituted_each};
ghost use Rattle.gp_expr.specs.Views.{expr_view};
ghost use Rattle.gp_algebra.specs.QueryViews.{change_view};
ghost use Rattle.gp_prov.specs.ToPlain as to;

use crate::columns::{
    identity_columns, monomial_column, product, product_of_parts, push, push_system, times_parts,
    total_width, user_columns,
};
use crate::numbers::add;
use gp_algebra::Change;
use gp_base::{Cell, Monomial, NoMemory, Sequence, Token};
use gp_expr::{Expr, substitute_cond, substitute_each};
use std::alloc::Global;

/// The expressions on the user columns of joined rows.
fn user_values(
    alloc: Global,
    with_prov: bool,
    widths: &[u32],
    exprs: &[Expr],
) -> Result<Vec<Expr>, NoMemory>
    ensures { IfOk result (λ new. map expr_view new.items
        ≡ substituted_each (map expr_view exprs.now) (to.users_from with_prov 0 widths.now)) }
{
    let users = user_columns(alloc, with_prov, widths)?;
    substitute_each(alloc, exprs, &users)
}

/// A token as the monomial of a row.
fn token_monomial(alloc: Global, token: Token) -> Result<Expr, NoMemory>
    ensures { IfOk result (λ new. expr_view new ≡ e.constant (cell.Mono (m.once token))) }
{
    Ok(Expr::Const(Cell::Mono(Monomial::of(alloc, token))))
}

/// The first expression where the condition of a change is true on the user columns, else the second.
fn where_changed(
    alloc: Global,
    change: &Change,
    users: &[Expr],
    first: Expr,
    other: Expr,
) -> Result<Expr, NoMemory>
    ensures { IfOk result (λ new. expr_view new ≡ e.case
        (substituted_cond (change_view change.now).cond (map expr_view users.now))
        (expr_view first) (expr_view other)) }
{
    Ok(Expr::Case(
        Box::new(alloc, substitute_cond(alloc, &change.cond, users)?)?,
        Box::new(alloc, first)?,
        Box::new(alloc, other)?,
    ))
}

/// The mark of a row after a change. The system columns stand behind the column `at`.
fn changed_mark(alloc: Global, change: &Change, users: &[Expr], at: u32) -> Result<Expr, NoMemory>
    ensures { IfOk result (λ new. expr_view new ≡ e.case
        (substituted_cond (change_view change.now).cond (map expr_view users.now))
        (e.constant (cell.Mark true)) (e.col (at + 2))) }
{
    let yes = Expr::Const(Cell::Mark(true));
    where_changed(alloc, change, users, yes, Expr::Col(add(at, 2)?))
}

/// The monomial of a row after a change. The system columns stand behind the column `at`.
fn changed_monomial(
    alloc: Global,
    change: &Change,
    users: &[Expr],
    at: u32,
) -> Result<Expr, NoMemory>
    ensures { IfOk result (λ new. expr_view new ≡ e.case
        (substituted_cond (change_view change.now).cond (map expr_view users.now))
        (e.times (e.col (at + 3)) (e.constant (cell.Mono (m.once change.now.token))))
        (e.col (at + 3))) }
{
    let token = token_monomial(alloc, change.token)?;
    let times = product(alloc, monomial_column(at)?, token)?;
    where_changed(alloc, change, users, times, monomial_column(at)?)
}

/// Adds the system columns of rows after a change.
fn push_changed(
    columns: &mut Vec<Expr>,
    alloc: Global,
    with_prov: bool,
    widths: &[u32],
    users: &[Expr],
    change: &Change,
) -> Result<(), NoMemory>
    requires { map expr_view users.now ≡ to.users_from with_prov 0 widths.now }
    ensures { OnOk result (map expr_view columns.new.items ≡ map expr_view columns.old.items
        ++ to.changed_columns with_prov widths.now [] (Some (change_view change.now))) }
{
    let at = total_width(widths)?;
    push(columns, Expr::Col(add(at, 1)?))?;
    push(columns, changed_mark(alloc, change, users, at)?)?;
    if with_prov {
        push(columns, changed_monomial(alloc, change, users, at)?)?;
    }
    Ok(())
}

/// Adds the system columns of the rows of a table, which a change may mark.
fn push_table_columns(
    columns: &mut Vec<Expr>,
    alloc: Global,
    with_prov: bool,
    widths: &[u32],
    users: &[Expr],
    change: &Option<Change>,
) -> Result<(), NoMemory>
    requires { map expr_view users.now ≡ to.users_from with_prov 0 widths.now }
    ensures { OnOk result (map expr_view columns.new.items ≡ map expr_view columns.old.items
        ++ to.changed_columns with_prov widths.now [] (option_map change_view change.now)) }
{
    match change {
        None => push_system(columns, with_prov, total_width(widths)?),
        Some(change) => push_changed(columns, alloc, with_prov, widths, users, change),
    }
}

/// The new rows of a table. A change marks them, and multiplies their monomials, where its condition is true.
pub(crate) fn changed_columns(
    alloc: Global,
    with_prov: bool,
    widths: &[u32],
    exprs: &[Expr],
    change: &Option<Change>,
) -> Result<Sequence<Expr>, NoMemory>
    ensures { IfOk result (λ columns. map expr_view columns
        ≡ to.changed_columns with_prov widths.now (map expr_view exprs.now)
        (option_map change_view change.now)) }
{
    let users = user_columns(alloc, with_prov, widths)?;
    let mut columns = substitute_each(alloc, exprs, &users)?;
    push_table_columns(&mut columns, alloc, with_prov, widths, &users, change)?;
    Ok(Sequence::from_vec(columns))
}

/// A branch of an INSERT.
#[derive(Clone, Copy)]
pub(crate) struct Insertion {
    /// The transaction, from 1.
    pub t: u32,
    /// The statement, from 1.
    pub k: u32,
    /// The branch, from 1.
    pub b: u32,
}

/// The new identity of the rows that a branch of an INSERT makes.
fn new_id(
    alloc: Global,
    with_prov: bool,
    insertion: Insertion,
    widths: &[u32],
) -> Result<Expr, NoMemory>
    ensures { IfOk result (λ new. expr_view new ≡ e.new_id insertion.t insertion.k insertion.b
        (to.identities_from with_prov 0 widths.now)) }
{
    let Insertion { t, k, b } = insertion;
    let parts = identity_columns(alloc, with_prov, widths)?;
    Ok(Expr::NewId { t, k, b, parts })
}

/// Adds the system columns of the rows that a branch of an INSERT makes.
fn push_new(
    columns: &mut Vec<Expr>,
    alloc: Global,
    with_prov: bool,
    insertion: Insertion,
    widths: &[u32],
) -> Result<(), NoMemory>
    ensures { OnOk result (map expr_view columns.new.items ≡ map expr_view columns.old.items
        ++ to.new_columns with_prov insertion.t insertion.k insertion.b widths.now []) }
{
    let Insertion { t, k, .. } = insertion;
    push(columns, new_id(alloc, with_prov, insertion, widths)?)?;
    push(columns, Expr::Const(Cell::Mark(true)))?;
    if with_prov {
        let token = token_monomial(alloc, Token::Queried { t, k })?;
        push(columns, times_parts(alloc, with_prov, 0, widths, token)?)?;
    }
    Ok(())
}

/// The rows that a branch of an INSERT makes.
pub(crate) fn new_columns(
    alloc: Global,
    with_prov: bool,
    insertion: Insertion,
    widths: &[u32],
    exprs: &[Expr],
) -> Result<Sequence<Expr>, NoMemory>
    ensures { IfOk result (λ columns. map expr_view columns ≡ to.new_columns with_prov
        insertion.t insertion.k insertion.b widths.now (map expr_view exprs.now)) }
{
    let mut columns = user_values(alloc, with_prov, widths, exprs)?;
    push_new(&mut columns, alloc, with_prov, insertion, widths)?;
    Ok(Sequence::from_vec(columns))
}

/// The rows of an answer, which show neither identity nor mark.
pub(crate) fn answer_columns(
    alloc: Global,
    with_prov: bool,
    widths: &[u32],
    exprs: &[Expr],
) -> Result<Sequence<Expr>, NoMemory>
    ensures { IfOk result (λ columns. map expr_view columns
        ≡ to.answer_columns with_prov widths.now (map expr_view exprs.now)) }
{
    let mut columns = user_values(alloc, with_prov, widths, exprs)?;
    if with_prov {
        push(&mut columns, product_of_parts(alloc, with_prov, widths)?)?;
    }
    Ok(Sequence::from_vec(columns))
}
