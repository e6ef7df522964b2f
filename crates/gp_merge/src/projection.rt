//! Selections on selections and projections on projections.

ghost use Rattle.std.specs.Prelude.{◌≡◌, map, IfOk};
ghost use Rattle.gp_expr.specs.Expressions as e;
ghost use Rattle.gp_expr.specs.Substitution.{substituted_each};
ghost use Rattle.gp_expr.specs.Views.{cond_view, expr_view};
ghost use Rattle.gp_algebra.specs.Plain as p;
ghost use Rattle.gp_algebra.specs.PlainViews.{query_view};
ghost use Rattle.gp_merge.specs.Merging as m;
ghost use Rattle.gp_merge.specs.Joining.{IsSmall, Joins, input_of};

use crate::room::has_room;
use crate::times::any_tests_times;
use gp_algebra::PQuery;
use gp_base::{NoMemory, Sequence};
use gp_expr::{Cond, Expr, substitute_each};
use std::alloc::Global;

/// Both conditions.
fn conjunction(alloc: Global, first: Cond, second: Cond) -> Result<Cond, NoMemory>
    ensures { IfOk result (λ new. cond_view new ≡ e.and (cond_view first) (cond_view second)) }
{
    Ok(Cond::And(Box::new(alloc, first)?, Box::new(alloc, second)?))
}

/// The rows of a rebuilt query for which a condition is true.
pub(crate) fn selected(alloc: Global, cond: Cond, query: PQuery) -> Result<PQuery, NoMemory>
    ensures { IfOk result (λ new. query_view new ≡ m.selected (cond_view cond) (query_view query)) }
{
    match query {
        PQuery::Filter { input, cond: first } => Ok(PQuery::Filter {
            input,
            cond: conjunction(alloc, first, cond)?,
        }),
        other => Ok(PQuery::Filter {
            input: Box::new(alloc, other)?,
            cond,
        }),
    }
}

/// The expressions with others in place of their columns, if they are small enough.
#[tactic(auto, using(crate::proofs::JoiningLemmas::tests))]
fn small_each(
    alloc: Global,
    exprs: &[Expr],
    inner: &[Expr],
) -> Result<Option<Sequence<Expr>>, NoMemory>
    ensures { IfOk result (λ found. IsSmall (map expr_view) found
        (substituted_each (map expr_view exprs.now) (map expr_view inner.now))) }
{
    if !has_room(exprs, inner) {
        return Ok(None);
    }
    let new = Sequence::from_vec(substitute_each(alloc, exprs, inner)?);
    if any_tests_times(new.as_slice()) {
        return Ok(None);
    }
    Ok(Some(new))
}

/// The expressions on the input of a projection, if the query is one that they can be one with.
fn joined(alloc: Global, exprs: &[Expr], query: &PQuery) -> Result<Option<Sequence<Expr>>, NoMemory>
    ensures { IfOk result (λ found. Joins (map expr_view) found
        (map expr_view exprs.now) (query_view query.now)) }
{
    match query {
        PQuery::Project { exprs: inner, .. } => small_each(alloc, exprs, inner.as_slice()),
        _ => Ok(None),
    }
}

/// The input of a projection, or another query itself.
fn input_of(query: PQuery) -> PQuery
    ensures { query_view result ≡ input_of (query_view query) }
{
    match query {
        PQuery::Project { input, .. } => Box::into_inner(input),
        other => other,
    }
}

/// The values of expressions on the rows of a rebuilt query.
pub(crate) fn projected(
    alloc: Global,
    exprs: Sequence<Expr>,
    query: PQuery,
) -> Result<PQuery, NoMemory>
    ensures { IfOk result (λ new. query_view new
        ≡ m.projected (map expr_view exprs) (query_view query)) }
{
    let mut exprs = exprs;
    let mut query = query;
    while let Some(new) = joined(alloc, exprs.as_slice(), &query)? {
        exprs = new;
        query = input_of(query);
    }
    Ok(PQuery::Project {
        input: Box::new(alloc, query)?,
        exprs,
    })
}
