//! The numbers of a program are in the ranges of their types. Contracts speak of programs without their types, so each number is looked
//! at once: that it is read shows its range. Nothing is tested, and no memory is taken.

ghost use Rattle.std.specs.Prelude.{map};
ghost use Rattle.std.specs.List.{AllByRecursion};
ghost use Rattle.gp_base.specs.CellForms.{AreInRange, IsInRange};
ghost use Rattle.gp_base.specs.IdentityForms.{IsIdentity};
ghost use Rattle.gp_base.specs.MonomialForms.{IsMonomial};
ghost use Rattle.gp_expr.specs.Expressions as e;
ghost use Rattle.gp_expr.specs.Views.{cond_view, expr_view, parts_of};
ghost use Rattle.gp_algebra.specs.PlainViews.{program_view, query_view, step_view};
ghost use Rattle.gp_explain.specs.Numbers as n;

use gp_algebra::{PProgram, PQuery, PStep};
use gp_base::{Cell, Monomial, Row, RowId};
use gp_expr::{Cond, Expr};

fn u32_in_range(_number: u32)
    ensures { n.IsU32 _number }
{}

fn id_in_range(id: &RowId)
    ensures { IsIdentity id.now }
{
    let _nodes = id.nodes();
}

fn monomial_in_range(monomial: &Monomial)
    ensures { IsMonomial monomial.now }
{
    let _powers = monomial.powers();
}

fn cell_in_range(cell: &Cell)
    ensures { IsInRange cell.now }
{
    match cell {
        Cell::Null | Cell::Text(_) | Cell::Mark(_) => {}
        Cell::Int(number) => {
            let _number = *number;
        }
        Cell::Id(id) => id_in_range(id),
        Cell::Mono(monomial) => monomial_in_range(monomial),
    }
}

fn row_in_range(row: &Row)
    ensures { AreInRange row.now }
{
    let _cells = row.cells();
}

#[tactic(auto, using(crate::proofs::RangeLoops::loops))]
fn rows_in_range(rows: &[Row])
    ensures { AllByRecursion AreInRange rows.now }
{
    for row in rows {
        row_in_range(row);
    }
}

#[cycle(terms)]
#[tactic(auto, using(crate::proofs::RangeLoops::loops))]
fn exprs_in_range(exprs: &[Expr])
    ensures { AllByRecursion (λ expr. n.ExprInRange (expr_view expr)) exprs.now }
{
    for expr in exprs {
        expr_in_range(expr);
    }
}

#[cycle(terms)]
#[tactic(auto, using(crate::proofs::RangeLoops::parts))]
fn new_id_in_range(t: u32, k: u32, b: u32, parts: &[Expr])
    ensures { n.ExprInRange (e.new_id t k b (parts_of parts.now)) }
{
    u32_in_range(t);
    u32_in_range(k);
    u32_in_range(b);
    exprs_in_range(parts);
}

#[cycle(terms)]
fn both_in_range(left: &Expr, right: &Expr)
    ensures left { n.ExprInRange (expr_view left.now) }
    ensures right { n.ExprInRange (expr_view right.now) }
{
    expr_in_range(left);
    expr_in_range(right);
}

#[cycle(terms)]
fn expr_in_range(expr: &Expr)
    ensures { n.ExprInRange (expr_view expr.now) }
{
    match expr {
        Expr::Col(n) => u32_in_range(*n),
        Expr::Const(cell) => cell_in_range(cell),
        Expr::Add(left, right)
        | Expr::Sub(left, right)
        | Expr::Mul(left, right)
        | Expr::Times(left, right) => both_in_range(left, right),
        Expr::Neg(operand) => expr_in_range(operand),
        Expr::Case(when, first, other) => {
            cond_in_range(when);
            both_in_range(first, other);
        }
        Expr::NewId { t, k, b, parts } => new_id_in_range(*t, *k, *b, parts),
    }
}

#[cycle(terms)]
fn cond_in_range(cond: &Cond)
    ensures { n.CondInRange (cond_view cond.now) }
{
    match cond {
        Cond::True => {}
        Cond::Cmp(_, left, right) => both_in_range(left, right),
        Cond::IsNull { expr, .. } => expr_in_range(expr),
        Cond::IsTrue { cond, .. } => cond_in_range(cond),
        Cond::And(left, right) | Cond::Or(left, right) => {
            cond_in_range(left);
            cond_in_range(right);
        }
        Cond::Not(operand) => cond_in_range(operand),
    }
}

#[tactic(auto, using(crate::proofs::RangeLoops::views))]
fn columns_in_range(exprs: &[Expr])
    ensures { AllByRecursion n.ExprInRange (map expr_view exprs.now) }
{
    exprs_in_range(exprs);
}

fn query_in_range(query: &PQuery)
    ensures { n.QueryInRange (query_view query.now) }
{
    match query {
        PQuery::Scan { version, .. } => u32_in_range(*version),
        PQuery::Step { j } => u32_in_range(*j),
        PQuery::Filter { input, cond } => {
            query_in_range(input);
            cond_in_range(cond);
        }
        PQuery::Project { input, exprs } => {
            query_in_range(input);
            columns_in_range(exprs.as_slice());
        }
        PQuery::Product { left, right } | PQuery::Union { left, right } => {
            query_in_range(left);
            query_in_range(right);
        }
        PQuery::Values { rows } => rows_in_range(rows.as_slice()),
        PQuery::Publish {
            at,
            base,
            mine,
            later,
        } => {
            u32_in_range(*at);
            query_in_range(base);
            query_in_range(mine);
            query_in_range(later);
        }
    }
}

fn step_in_range(step: &PStep)
    ensures { n.StepInRange (step_view step.now) }
{
    u32_in_range(step.j);
    query_in_range(&step.query);
}

#[tactic(auto, using(crate::proofs::RangeLoops::loops))]
fn steps_in_range(steps: &[PStep])
    ensures { AllByRecursion (λ step. n.StepInRange (step_view step)) steps.now }
{
    for step in steps {
        step_in_range(step);
    }
}

/// The numbers of a program are in the ranges of their types.
pub(crate) fn program_in_range(program: &PProgram)
    ensures { n.ProgramInRange (program_view program.now) }
{
    steps_in_range(program.steps.as_slice());
    query_in_range(&program.last);
}
