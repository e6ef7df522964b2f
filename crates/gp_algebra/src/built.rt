//! A test of plain programs: whether they are well built.

ghost use Rattle.std.specs.Prelude.{◌≡◌, ◌&&◌, ◌==◌, [], map, nat_lt};
ghost use Rattle.std.specs.List.{list_all, list_any};
ghost use Rattle.gp_algebra.specs.PlainViews.{program_view, query_view, step_view};
ghost use Rattle.gp_algebra.specs.WellBuilt as w;
ghost use Rattle.gp_expr.specs.Views.{expr_view};

use crate::plain::PQuery;
use crate::program::{PProgram, PStep};
use gp_expr::{Expr, cond_is_simple};

/// Whether an expression makes no identity.
fn makes_no_identity(expr: &Expr) -> bool
    ensures { result ≡ w.makes_no_identity (expr_view expr.now) }
{
    match expr {
        Expr::Col(_) | Expr::Const(_) => true,
        Expr::Add(left, right)
        | Expr::Sub(left, right)
        | Expr::Mul(left, right)
        | Expr::Times(left, right) => makes_no_identity(left) && makes_no_identity(right),
        Expr::Neg(inner) => makes_no_identity(inner),
        Expr::Case(when, first, other) => {
            cond_is_simple(when) && (makes_no_identity(first) && makes_no_identity(other))
        }
        Expr::NewId { .. } => false,
    }
}

fn make_no_identities(exprs: &[Expr]) -> bool
    ensures { result ≡ list_all (λ expr. w.makes_no_identity (expr_view expr)) exprs.now }
{
    exprs.iter().all(|expr| makes_no_identity(expr))
}

/// Whether an expression makes no identity but itself.
fn may_be_identity(expr: &Expr) -> bool
    ensures { result ≡ w.may_be_identity (expr_view expr.now) }
{
    match expr {
        Expr::NewId { parts, .. } => make_no_identities(parts),
        _ => makes_no_identity(expr),
    }
}

fn may_be_identities(exprs: &[Expr]) -> bool
    ensures { result ≡ list_all (λ expr. w.may_be_identity (expr_view expr)) exprs.now }
{
    exprs.iter().all(|expr| may_be_identity(expr))
}

/// Whether one of the steps has this number.
fn is_among(earlier: &[PStep], j: u32) -> bool
    ensures { result ≡ list_any (λ step. step.j == j) earlier.now }
{
    earlier.iter().any(|step| step.j == j)
}

/// Whether the number is above those of the steps.
fn is_above(earlier: &[PStep], j: u32) -> bool
    ensures { result ≡ list_all (λ step. nat_lt step.j j) earlier.now }
{
    earlier.iter().all(|step| step.j < j)
}

/// Whether a query makes no identity and reads these steps only.
#[tactic(auto, using(crate::proofs::SimpleLemmas::tests))]
fn query_is_built(earlier: &[PStep], query: &PQuery) -> bool
    ensures { result ≡ w.query_is_built
        (w.numbers_after [] (map step_view earlier.now)) (query_view query.now) }
{
    match query {
        PQuery::Scan { .. } | PQuery::Values { .. } => true,
        PQuery::Step { j } => is_among(earlier, *j),
        PQuery::Filter { input, cond } => query_is_built(earlier, input) && cond_is_simple(cond),
        PQuery::Project { input, exprs } => {
            query_is_built(earlier, input) && make_no_identities(exprs.as_slice())
        }
        PQuery::Product { left, right } | PQuery::Union { left, right } => {
            query_is_built(earlier, left) && query_is_built(earlier, right)
        }
        PQuery::Publish {
            base,
            mine,
            later,
            ..
        } => {
            query_is_built(earlier, base)
                && (query_is_built(earlier, mine) && query_is_built(earlier, later))
        }
    }
}

/// Whether new identities are made only in projections that are under unions alone.
#[tactic(auto, using(crate::proofs::SimpleLemmas::tests))]
fn rows_are_built(earlier: &[PStep], query: &PQuery) -> bool
    ensures { result ≡ w.rows_are_built
        (w.numbers_after [] (map step_view earlier.now)) (query_view query.now) }
{
    match query {
        PQuery::Union { left, right } => {
            rows_are_built(earlier, left) && rows_are_built(earlier, right)
        }
        PQuery::Project { input, exprs } => {
            query_is_built(earlier, input) && may_be_identities(exprs.as_slice())
        }
        _ => query_is_built(earlier, query),
    }
}

/// Whether a step has a number above those of the steps before it, and its query is well built over them.
fn step_is_built(earlier: &[PStep], step: &PStep) -> bool
    ensures { result ≡ (w.is_above (w.numbers_after [] (map step_view earlier.now)) step.now.j
        && w.step_is_built (w.numbers_after [] (map step_view earlier.now))
        (query_view step.now.query)) }
{
    is_above(earlier, step.j) && contents_are_built(earlier, &step.query)
}

/// Whether the query of a step is well built. That of an INSERT is a union.
fn contents_are_built(earlier: &[PStep], query: &PQuery) -> bool
    ensures { result ≡ w.step_is_built
        (w.numbers_after [] (map step_view earlier.now)) (query_view query.now) }
{
    match query {
        PQuery::Union { .. } => rows_are_built(earlier, query),
        _ => query_is_built(earlier, query),
    }
}

/// Whether the steps rise, and each is well built over those before it.
fn steps_are_built(steps: &[PStep]) -> bool
    ensures { result ≡ w.steps_are_built [] (map step_view steps.now) }
{
    for (place, step) in steps.iter().enumerate() {
        if !step_is_built(&steps[..place], step) {
            return false;
        }
    }
    true
}

/// Whether a program is well built: its steps rise and read earlier steps only, its conditions are simple, and new
/// identities are made in the projections of INSERT steps alone. Programs from outside can be tested before they run.
pub fn is_well_built(program: &PProgram) -> bool
    ensures { result ≡ w.is_well_built (program_view program.now) }
{
    let steps = program.steps.as_slice();
    steps_are_built(steps) && query_is_built(steps, &program.last)
}
