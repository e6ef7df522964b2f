//! Which plain programs have a text.

ghost use Rattle.std.specs.Prelude.{◌≡◌, ◌==◌, ◌&&◌, not, length, map};
ghost use Rattle.std.specs.Char.{is_ascii_control};
ghost use Rattle.std.specs.List.{list_all, list_any};
ghost use Rattle.std.specs.Str.Lossy.{utf8_valid_len};
ghost use Rattle.gp_base.specs.Cells as c;
ghost use Rattle.gp_base.specs.IdentityForms.{sources_of};
ghost use Rattle.gp_base.specs.Tokens as k;
ghost use Rattle.gp_expr.specs.Expressions as e;
ghost use Rattle.gp_expr.specs.Views.{cond_view, expr_view, parts_of};
ghost use Rattle.gp_algebra.specs.PlainViews.{program_view, query_view, step_view};
ghost use Rattle.gp_plantext.specs.Spellable as s;

use gp_algebra::{PProgram, PQuery, PStep};
use gp_base::{Catalog, Cell, MAX_NODES, Monomial, Row, RowId, is_name, is_user_text};
use gp_expr::{Cond, Expr};

/// Whether the number is one of 32 bits, as it is by its type.
fn is_u32(_number: u32) -> bool
    ensures { result ≡ k.is_u32 _number }
{
    true
}

fn is_from_one(number: u32) -> bool
    ensures { result ≡ s.is_from_one number }
{
    1 <= number && is_u32(number)
}

/// Whether the numbers in an identity count from 1.
#[cycle(numbers)]
fn has_numbers(id: &RowId) -> bool
    ensures { result ≡ s.has_numbers id.now }
{
    is_from_one(id.t())
        && (is_from_one(id.k()) && (is_from_one(id.n()) && have_numbers(id.sources())))
}

#[cycle(numbers)]
fn have_numbers(ids: &[RowId]) -> bool
    ensures { result ≡ s.have_numbers (sources_of ids.now) }
{
    match ids {
        [] => true,
        [first, others @ ..] => has_numbers(first) && have_numbers(others),
    }
}

fn id_is_spellable(id: &RowId) -> bool
    ensures { result ≡ s.id_is_spellable id.now }
{
    has_numbers(id) && id.nodes() <= MAX_NODES
}

/// Whether a monomial has a text, as each has by its type.
#[tactic(auto, using(crate::proofs::SpellableLemmas::monomial_spellable))]
fn monomial_is_spellable(monomial: &Monomial) -> bool
    ensures { result ≡ s.monomial_is_spellable monomial.now }
{
    let _powers = monomial.powers();
    true
}

fn is_number(_number: i64) -> bool
    ensures { result ≡ c.fits_number _number }
{
    true
}

fn cell_is_spellable(cell: &Cell) -> bool
    ensures { result ≡ s.cell_is_spellable cell.now }
{
    match cell {
        Cell::Null | Cell::Mark(_) => true,
        Cell::Int(number) => is_number(*number),
        Cell::Text(text) => is_user_text(text.as_bytes()),
        Cell::Id(id) => id_is_spellable(id),
        Cell::Mono(monomial) => monomial_is_spellable(monomial),
    }
}

fn cells_are_spellable(cells: &[Cell]) -> bool
    ensures { result ≡ list_all s.cell_is_spellable cells.now }
{
    cells.iter().all(|cell| cell_is_spellable(cell))
}

fn row_is_spellable(row: &Row) -> bool
    ensures { result ≡ s.row_is_spellable row.now }
{
    !row.cells().is_empty() && cells_are_spellable(row.cells())
}

fn all_rows_are_spellable(rows: &[Row]) -> bool
    ensures { result ≡ list_all s.row_is_spellable rows.now }
{
    rows.iter().all(|row| row_is_spellable(row))
}

fn rows_are_spellable(rows: &[Row]) -> bool
    ensures { result ≡ (s.has_item rows.now && list_all s.row_is_spellable rows.now) }
{
    !rows.is_empty() && all_rows_are_spellable(rows)
}

#[cycle(terms)]
fn all_are_spellable(exprs: &[Expr]) -> bool
    ensures { result ≡ list_all (λ expr. s.expr_is_spellable (expr_view expr)) exprs.now }
{
    for expr in exprs {
        if !expr_is_spellable(expr) {
            return false;
        }
    }
    true
}

/// Whether there is an expression, and all of them have a text.
#[cycle(terms)]
#[tactic(auto, using(crate::proofs::SpellableLemmas::projections))]
fn exprs_are_spellable(exprs: &[Expr]) -> bool
    ensures { result ≡ (s.has_item (map expr_view exprs.now)
        && list_all s.expr_is_spellable (map expr_view exprs.now)) }
{
    !exprs.is_empty() && all_are_spellable(exprs)
}

/// Whether the numbers are of 32 bits, as they are by their types.
fn are_u32(_t: u32, _k: u32, _b: u32) -> bool
    ensures { result ≡ (k.is_u32 _t && (k.is_u32 _k && k.is_u32 _b)) }
{
    true
}

#[cycle(terms)]
#[tactic(auto, using(crate::proofs::SpellableLemmas::part_lists))]
fn new_id_is_spellable(t: u32, k: u32, b: u32, parts: &[Expr]) -> bool
    ensures { result ≡ s.expr_is_spellable (e.new_id t k b (parts_of parts.now)) }
{
    are_u32(t, k, b) && exprs_are_spellable(parts)
}

#[cycle(terms)]
fn expr_is_spellable(expr: &Expr) -> bool
    ensures { result ≡ s.expr_is_spellable (expr_view expr.now) }
{
    match expr {
        Expr::Col(n) => is_u32(*n),
        Expr::Const(cell) => cell_is_spellable(cell),
        Expr::Add(left, right)
        | Expr::Sub(left, right)
        | Expr::Mul(left, right)
        | Expr::Times(left, right) => expr_is_spellable(left) && expr_is_spellable(right),
        Expr::Neg(operand) => expr_is_spellable(operand),
        Expr::Case(when, first, other) => {
            cond_is_spellable(when) && (expr_is_spellable(first) && expr_is_spellable(other))
        }
        Expr::NewId { t, k, b, parts } => new_id_is_spellable(*t, *k, *b, parts),
    }
}

#[cycle(terms)]
fn cond_is_spellable(cond: &Cond) -> bool
    ensures { result ≡ s.cond_is_spellable (cond_view cond.now) }
{
    match cond {
        Cond::True => true,
        Cond::Cmp(_, left, right) => expr_is_spellable(left) && expr_is_spellable(right),
        Cond::IsNull { expr, .. } => expr_is_spellable(expr),
        Cond::IsTrue { cond, .. } => cond_is_spellable(cond),
        Cond::And(left, right) | Cond::Or(left, right) => {
            cond_is_spellable(left) && cond_is_spellable(right)
        }
        Cond::Not(operand) => cond_is_spellable(operand),
    }
}

fn table_is_spellable(table: u32, catalog: &Catalog) -> bool
    ensures { result ≡ s.table_is_spellable catalog.now table }
{
    table < catalog.len() && is_name(catalog.table(table).name.as_bytes())
}

fn query_is_spellable(query: &PQuery, catalog: &Catalog) -> bool
    ensures { result ≡ s.query_is_spellable catalog.now (query_view query.now) }
{
    match query {
        PQuery::Scan { table, version } => {
            table_is_spellable(*table, catalog) && is_u32(*version)
        }
        PQuery::Step { j } => is_u32(*j),
        PQuery::Filter { input, cond } => {
            query_is_spellable(input, catalog) && cond_is_spellable(cond)
        }
        PQuery::Project { input, exprs } => {
            query_is_spellable(input, catalog) && exprs_are_spellable(exprs.as_slice())
        }
        PQuery::Product { left, right } | PQuery::Union { left, right } => {
            query_is_spellable(left, catalog) && query_is_spellable(right, catalog)
        }
        PQuery::Values { rows } => rows_are_spellable(rows.as_slice()),
        PQuery::Publish {
            at,
            base,
            mine,
            later,
        } => {
            is_u32(*at)
                && (query_is_spellable(base, catalog)
                    && (query_is_spellable(mine, catalog) && query_is_spellable(later, catalog)))
        }
    }
}

fn step_is_spellable(step: &PStep, catalog: &Catalog) -> bool
    ensures { result ≡ s.step_is_spellable catalog.now (step_view step.now) }
{
    is_u32(step.j)
        && (table_is_spellable(step.table, catalog) && query_is_spellable(&step.query, catalog))
}

fn steps_are_spellable(steps: &[PStep], catalog: &Catalog) -> bool
    ensures { result ≡ list_all (s.step_is_spellable catalog.now) (map step_view steps.now) }
{
    for step in steps {
        if !step_is_spellable(step, catalog) {
            return false;
        }
    }
    true
}

/// Whether a plain program has a text: its tables are in the catalogue, each PROJECT, VALUES, row and new identity in it
/// has an item, its texts are those that users can write, and the identities in it have numbers from 1.
pub fn is_spellable(program: &PProgram, catalog: &Catalog) -> bool
    ensures { result ≡ s.is_spellable catalog.now (program_view program.now) }
{
    steps_are_spellable(program.steps.as_slice(), catalog)
        && query_is_spellable(&program.last, catalog)
}
