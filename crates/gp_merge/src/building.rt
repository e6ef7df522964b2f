//! The queries of merged programs, each built once.

ghost use Rattle.std.specs.Prelude.{◌≡◌, map, box_value, IfOk};
ghost use Rattle.gp_expr.specs.Views.{cond_view, expr_view};
ghost use Rattle.gp_algebra.specs.Plain as q;
ghost use Rattle.gp_algebra.specs.PlainViews.{query_view, step_view};
ghost use Rattle.gp_merge.specs.Planning as p;
ghost use Rattle.gp_merge.specs.Plans.{steps_view};

use crate::projection::{projected, selected};
use gp_algebra::{PQuery, PStep, copy_exprs};
use gp_base::{NoMemory, Row, Sequence};
use gp_expr::{Cond, Expr, copy_cond};
use std::alloc::Global;

/// A copy of given rows.
fn given(rows: &Sequence<Row>) -> Result<PQuery, NoMemory>
    ensures { IfOk result (λ new. query_view new ≡ q.given rows.now) }
{
    let rows = rows.clone()?;
    Ok(PQuery::Values { rows })
}

/// What stands for step `j`: its query, if it is put in the place of its use, or else the step itself.
#[cycle(building)]
fn source(alloc: Global, inline: &[&PStep], j: u32) -> Result<PQuery, NoMemory>
    ensures { IfOk result (λ new. query_view new ≡ p.source_of (steps_view inline.now) j) }
{
    match inline {
        [] => Ok(PQuery::Step { j }),
        [first, others @ ..] => {
            if j == first.j {
                build(alloc, others, &first.query)
            } else {
                source(alloc, others, j)
            }
        }
    }
}

/// A query that is built anew, in a box.
#[cycle(building)]
fn build_boxed(alloc: Global, inline: &[&PStep], query: &PQuery) -> Result<Box<PQuery>, NoMemory>
    ensures { IfOk result (λ new. query_view (box_value new)
        ≡ p.built (steps_view inline.now) (query_view query.now)) }
{
    Ok(Box::new(alloc, build(alloc, inline, query)?)?)
}

/// Two queries that are built anew.
#[cycle(building)]
fn build_both(
    alloc: Global,
    inline: &[&PStep],
    left: &PQuery,
    right: &PQuery,
) -> Result<(Box<PQuery>, Box<PQuery>), NoMemory>
    ensures left { IfOk result (λ r. query_view (box_value r.0)
        ≡ p.built (steps_view inline.now) (query_view left.now)) }
    ensures right { IfOk result (λ r. query_view (box_value r.1)
        ≡ p.built (steps_view inline.now) (query_view right.now)) }
{
    let left = build_boxed(alloc, inline, left)?;
    let right = build_boxed(alloc, inline, right)?;
    Ok((left, right))
}

/// A selection that is built anew.
#[cycle(building)]
fn build_selection(
    alloc: Global,
    inline: &[&PStep],
    input: &PQuery,
    cond: &Cond,
) -> Result<PQuery, NoMemory>
    ensures { IfOk result (λ new. query_view new ≡ p.built (steps_view inline.now)
        (q.select (query_view input.now) (cond_view cond.now))) }
{
    let cond = copy_cond(alloc, cond)?;
    let input = build(alloc, inline, input)?;
    selected(alloc, cond, input)
}

/// A projection that is built anew.
#[cycle(building)]
fn build_projection(
    alloc: Global,
    inline: &[&PStep],
    input: &PQuery,
    exprs: &[Expr],
) -> Result<PQuery, NoMemory>
    ensures { IfOk result (λ new. query_view new ≡ p.built (steps_view inline.now)
        (q.project (query_view input.now) (map expr_view exprs.now))) }
{
    let exprs = copy_exprs(alloc, exprs)?;
    let input = build(alloc, inline, input)?;
    projected(alloc, exprs, input)
}

/// A publication that is built anew.
#[cycle(building)]
fn build_publication(
    alloc: Global,
    inline: &[&PStep],
    at: u32,
    base: &PQuery,
    mine: &PQuery,
    later: &PQuery,
) -> Result<PQuery, NoMemory>
    ensures { IfOk result (λ new. query_view new ≡ p.built (steps_view inline.now)
        (q.publish at (query_view base.now) (query_view mine.now) (query_view later.now))) }
{
    let base = build_boxed(alloc, inline, base)?;
    let (mine, later) = build_both(alloc, inline, mine, later)?;
    Ok(PQuery::Publish {
        at,
        base,
        mine,
        later,
    })
}

/// A query that is built anew from its leaves, with these steps in the place of their uses.
#[cycle(building)]
pub(crate) fn build(alloc: Global, inline: &[&PStep], query: &PQuery) -> Result<PQuery, NoMemory>
    ensures { IfOk result (λ new. query_view new
        ≡ p.built (steps_view inline.now) (query_view query.now)) }
{
    match query {
        PQuery::Scan { table, version } => Ok(PQuery::Scan {
            table: *table,
            version: *version,
        }),
        PQuery::Step { j } => source(alloc, inline, *j),
        PQuery::Filter { input, cond } => build_selection(alloc, inline, input, cond),
        PQuery::Project { input, exprs } => {
            build_projection(alloc, inline, input, exprs.as_slice())
        }
        PQuery::Product { left, right } => {
            let (left, right) = build_both(alloc, inline, left, right)?;
            Ok(PQuery::Product { left, right })
        }
        PQuery::Union { left, right } => {
            let (left, right) = build_both(alloc, inline, left, right)?;
            Ok(PQuery::Union { left, right })
        }
        PQuery::Values { rows } => given(rows),
        PQuery::Publish {
            at,
            base,
            mine,
            later,
        } => build_publication(alloc, inline, *at, base, mine, later),
    }
}
