//! Queries over the rows of a past version, where they lie. Nothing is copied but what the answer has.

ghost use Rattle.std.specs.Prelude.{◌≡◌, ◌++◌, ◌∷◌, [], false, true, filter, length, map, IfOk, OnOk};
ghost use Rattle.std.specs.List.{list_all};
ghost use Rattle.std.specs.Option.{option_map};
ghost use Rattle.gp_base.specs.declared.cell.Cell.TheVariants as cell;
ghost use Rattle.gp_expr.specs.ExpressionForms as forms;
ghost use Rattle.gp_expr.specs.ExpressionForms.{cond_is_simple};
ghost use Rattle.gp_expr.specs.Values as v;
ghost use Rattle.gp_expr.specs.Views.{cond_view, expr_view};
ghost use Rattle.gp_algebra.specs.Answers as a;
ghost use Rattle.gp_algebra.specs.PlainViews.{program_view, query_view};
ghost use Rattle.gp_exec.specs.Evaluating.{is_evaluable};
ghost use Rattle.gp_exec.specs.PastRows.{Runs, found_in, is_scan_of, past_row, projected_in, run_in};

use crate::early::cond_is_within;
use crate::error::ExecStop;
use crate::row::values_beside;
use gp_algebra::{PProgram, PQuery, ScanAt};
use gp_base::{Cell, MAX_ANSWER_ROWS, NoMemory, Row, RowId};
use gp_expr::{Cond, Expr, is_simple, truth, truth_beside};
use std::alloc::Global;

/// A row of a past version, where it lies. No transaction has marked it.
#[derive(Clone, Copy)]
pub struct PastRow<'a> {
    /// Its cells.
    pub row: &'a Row,
    /// Its identity.
    pub id: &'a RowId,
}

impl<'a> PastRow<'a> {
    /// What programs see behind its cells: its identity and the mark NO.
    fn tail(&self) -> Result<[Cell; 2], NoMemory>
        ensures { IfOk result (λ tail. tail ≡ cell.Id self.now.id.now ∷ cell.Mark false ∷ []) }
    {
        Ok([Cell::Id(self.id.clone()?), Cell::Mark(false)])
    }

    /// Whether the condition is true of it. The condition of a user's query reads its cells alone.
    fn passes(&self, cond: &Cond) -> Result<bool, NoMemory>
        requires { cond_is_simple (cond_view cond.now) ≡ true }
        ensures { IfOk result (λ passed. passed ≡ v.passes (cond_view cond.now) (past_row self.now)) }
    {
        if cond_is_within(cond, self.row.cells().len()) {
            return Ok(truth(cond, self.row).holds());
        }
        let tail = self.tail()?;
        Ok(truth_beside(cond, self.row.cells(), &tail).holds())
    }

    /// The values of expressions on it.
    fn values(&self, alloc: Global, exprs: &[Expr]) -> Result<Row, NoMemory>
        requires { list_all forms.is_simple (map expr_view exprs.now) ≡ true }
        ensures { IfOk result (λ row. row ≡ a.values (map expr_view exprs.now) (past_row self.now)) }
    {
        let tail = self.tail()?;
        values_beside(alloc, exprs, self.row.cells(), &tail)
    }
}

/// Appends a row if the condition is true of it.
fn append_if_true<'a>(
    kept: &mut Vec<PastRow<'a>>,
    row: PastRow<'a>,
    cond: &Cond,
) -> Result<(), NoMemory>
    requires { cond_is_simple (cond_view cond.now) ≡ true }
    ensures { OnOk result (map past_row kept.new.items ≡ map past_row kept.old.items
        ++ filter (v.passes (cond_view cond.now)) (past_row row.entry ∷ [])) }
{
    if row.passes(cond)? {
        kept.push(row)?;
    }
    Ok(())
}

/// The rows of which the condition is true.
fn filtered<'a>(
    alloc: Global,
    rows: &[PastRow<'a>],
    cond: &Cond,
) -> Result<Vec<PastRow<'a>>, NoMemory>
    requires { cond_is_simple (cond_view cond.now) ≡ true }
    ensures { IfOk result (λ kept. map past_row kept.items
        ≡ filter (v.passes (cond_view cond.now)) (map past_row rows.now)) }
{
    let mut kept = Vec::new(alloc);
    for row in rows {
        append_if_true(&mut kept, *row, cond)?;
    }
    Ok(kept)
}

/// For each row, the values of the expressions on it.
fn made(alloc: Global, exprs: &[Expr], rows: &[PastRow<'_>]) -> Result<Vec<Row>, NoMemory>
    requires { list_all forms.is_simple (map expr_view exprs.now) ≡ true }
    ensures { IfOk result (λ made. made.items
        ≡ map (a.values (map expr_view exprs.now)) (map past_row rows.now)) }
{
    let mut made = Vec::with_capacity(alloc, rows.len())?;
    for row in rows {
        made.push(row.values(alloc, exprs)?)?;
    }
    Ok(made)
}

/// Whether the query is the scan of this table in this version.
fn is_scan_of(query: &PQuery, at: ScanAt) -> bool
    ensures { result ≡ is_scan_of at (query_view query.now) }
{
    match query {
        PQuery::Scan { table, version } => at.version == *version && at.table == *table,
        _ => false,
    }
}

/// Whether the expressions are simple.
fn are_simple(exprs: &[Expr]) -> bool
    ensures { result ≡ list_all (λ expr. forms.is_simple (expr_view expr)) exprs.now }
{
    exprs.iter().all(|expr| is_simple(expr))
}

/// The rows of a query over those of a table in a version: the scan of that, or some of its rows. None for other queries.
fn found<'a>(
    alloc: Global,
    query: &PQuery,
    at: ScanAt,
    rows: &[PastRow<'a>],
) -> Result<Option<Vec<PastRow<'a>>>, NoMemory>
    requires { is_evaluable (query_view query.now) ≡ true }
    ensures { IfOk result (λ found. option_map (λ picks. map past_row picks.items) found
        ≡ found_in at (map past_row rows.now) (query_view query.now)) }
{
    match query {
        PQuery::Scan { .. } if is_scan_of(query, at) => Ok(Some(Vec::from_slice(alloc, rows)?)),
        PQuery::Filter { input, cond } if is_scan_of(input, at) => {
            Ok(Some(filtered(alloc, rows, cond)?))
        }
        _ => Ok(None),
    }
}

/// The values of simple expressions on the rows of such a query, unless there are too many. None for other queries.
fn projected(
    alloc: Global,
    input: &PQuery,
    exprs: &[Expr],
    at: ScanAt,
    rows: &[PastRow<'_>],
) -> Result<Option<Vec<Row>>, ExecStop>
    requires { is_evaluable (query_view input.now) ≡ true }
    ensures { Runs (λ found. found.items) result (projected_in at (map past_row rows.now)
        (query_view input.now) (map expr_view exprs.now)) }
{
    if !are_simple(exprs) {
        return Ok(None);
    }
    let Some(picks) = found(alloc, input, at, rows)? else {
        return Ok(None);
    };
    let chosen = picks.as_slice();
    if chosen.len() > MAX_ANSWER_ROWS {
        return Err(ExecStop::Answer);
    }
    Ok(Some(made(alloc, exprs, chosen)?))
}

/// The rows of a program without steps over those of a table in a version, if they are values of the rows of a query that `found`
/// knows. None for other programs.
pub fn run_past(
    alloc: Global,
    program: &PProgram,
    at: ScanAt,
    rows: &[PastRow<'_>],
) -> Result<Option<Vec<Row>>, ExecStop>
    requires { is_evaluable (query_view program.now.last) ≡ true }
    ensures { Runs (λ found. found.items) result
        (run_in at (map past_row rows.now) (program_view program.now)) }
{
    if !program.steps.as_slice().is_empty() {
        return Ok(None);
    }
    match &program.last {
        PQuery::Project { input, exprs } => projected(alloc, input, exprs.as_slice(), at, rows),
        _ => Ok(None),
    }
}
