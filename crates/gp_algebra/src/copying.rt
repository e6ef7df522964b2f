//! Copies of annotated queries.

ghost use Rattle.std.specs.Prelude.{◌≡◌, map, box_value, IfOk};
ghost use Rattle.std.specs.Option.{option_map};
ghost use Rattle.gp_expr.specs.Views.{cond_view, expr_view};
ghost use Rattle.gp_algebra.specs.AnnotatedQueries as q;
ghost use Rattle.gp_algebra.specs.QueryViews.{annotated_view, change_view};

use crate::annotated::{AQuery, Change};
use gp_base::{NoMemory, Row, Sequence};
use gp_expr::{Cond, Expr, copy_cond, copy_expr};
use std::alloc::Global;

/// Copies of expressions, in their order. Running out of memory is the only error.
pub fn copy_exprs(alloc: Global, exprs: &[Expr]) -> Result<Sequence<Expr>, NoMemory>
    ensures { IfOk result (λ copies. map expr_view copies ≡ map expr_view exprs.now) }
{
    let mut copies = Sequence::new(alloc);
    for expr in exprs {
        copies.push(copy_expr(alloc, expr)?)?;
    }
    Ok(copies)
}

fn copy_change(alloc: Global, change: &Option<Change>) -> Result<Option<Change>, NoMemory>
    ensures { IfOk result (λ copy. option_map change_view copy
        ≡ option_map change_view change.now) }
{
    match change {
        None => Ok(None),
        Some(change) => Ok(Some(Change {
            cond: copy_cond(alloc, &change.cond)?,
            token: change.token,
        })),
    }
}

/// A copy of a VALUES list of a statement.
fn copy_values(t: u32, k: u32, rows: &Sequence<Row>) -> Result<AQuery, NoMemory>
    ensures { IfOk result (λ copy. annotated_view copy ≡ q.given t k rows.now) }
{
    let rows = rows.clone()?;
    Ok(AQuery::Values { t, k, rows })
}

/// A copy of a query in a box.
#[cycle(copying)]
fn copy_boxed(alloc: Global, query: &AQuery) -> Result<Box<AQuery>, NoMemory>
    ensures { IfOk result (λ copy. annotated_view (box_value copy) ≡ annotated_view query.now) }
{
    Ok(Box::new(alloc, copy_query(alloc, query)?)?)
}

/// Copies of two queries.
#[cycle(copying)]
fn copy_both(
    alloc: Global,
    left: &AQuery,
    right: &AQuery,
) -> Result<(Box<AQuery>, Box<AQuery>), NoMemory>
    ensures left { IfOk result (λ r. annotated_view (box_value r.0) ≡ annotated_view left.now) }
    ensures right { IfOk result (λ r. annotated_view (box_value r.1) ≡ annotated_view right.now) }
{
    let left = copy_boxed(alloc, left)?;
    let right = copy_boxed(alloc, right)?;
    Ok((left, right))
}

/// A copy of the rows for which a condition is true.
#[cycle(copying)]
fn copy_filter(alloc: Global, input: &AQuery, cond: &Cond) -> Result<AQuery, NoMemory>
    ensures { IfOk result (λ copy. annotated_view copy
        ≡ q.select (annotated_view input.now) (cond_view cond.now)) }
{
    let cond = copy_cond(alloc, cond)?;
    let input = copy_boxed(alloc, input)?;
    Ok(AQuery::Filter { input, cond })
}

#[cycle(copying)]
fn copy_projection(
    alloc: Global,
    input: &AQuery,
    exprs: &[Expr],
    change: &Option<Change>,
) -> Result<AQuery, NoMemory>
    ensures { IfOk result (λ copy. annotated_view copy ≡ q.project (annotated_view input.now)
        (map expr_view exprs.now) (option_map change_view change.now)) }
{
    let exprs = copy_exprs(alloc, exprs)?;
    let change = copy_change(alloc, change)?;
    let input = copy_boxed(alloc, input)?;
    Ok(AQuery::Project {
        input,
        exprs,
        change,
    })
}

#[cycle(copying)]
fn copy_publication(
    alloc: Global,
    base: &AQuery,
    mine: &AQuery,
    later: &AQuery,
) -> Result<AQuery, NoMemory>
    ensures { IfOk result (λ copy. annotated_view copy ≡ q.publish
        (annotated_view base.now) (annotated_view mine.now) (annotated_view later.now)) }
{
    let base = copy_boxed(alloc, base)?;
    let (mine, later) = copy_both(alloc, mine, later)?;
    Ok(AQuery::Publish { base, mine, later })
}

/// A copy of a query. Running out of memory is the only error.
#[cycle(copying)]
pub fn copy_query(alloc: Global, query: &AQuery) -> Result<AQuery, NoMemory>
    ensures { IfOk result (λ copy. annotated_view copy ≡ annotated_view query.now) }
{
    match query {
        AQuery::Scan { table, version } => Ok(AQuery::Scan {
            table: *table,
            version: *version,
        }),
        AQuery::Step { j } => Ok(AQuery::Step { j: *j }),
        AQuery::Filter { input, cond } => copy_filter(alloc, input, cond),
        AQuery::Project {
            input,
            exprs,
            change,
        } => copy_projection(alloc, input, exprs.as_slice(), change),
        AQuery::Product { left, right } => {
            let (left, right) = copy_both(alloc, left, right)?;
            Ok(AQuery::Product { left, right })
        }
        AQuery::Union { left, right } => {
            let (left, right) = copy_both(alloc, left, right)?;
            Ok(AQuery::Union { left, right })
        }
        AQuery::Values { t, k, rows } => copy_values(*t, *k, rows),
        AQuery::NewRows { t, k, b, input } => Ok(AQuery::NewRows {
            t: *t,
            k: *k,
            b: *b,
            input: copy_boxed(alloc, input)?,
        }),
        AQuery::Publish { base, mine, later } => copy_publication(alloc, base, mine, later),
    }
}
