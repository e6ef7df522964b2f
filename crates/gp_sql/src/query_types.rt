//! The types of the columns of queries.

ghost use Rattle.std.specs.Prelude.{◌≡◌, map, suc, true, false, IfOk};
ghost use Rattle.gp_expr.specs.Views.{cond_view, expr_view};
ghost use Rattle.gp_algebra.specs.Plain as p;
ghost use Rattle.gp_algebra.specs.PlainViews.{query_view};
ghost use Rattle.gp_sql.specs.NamedQueries.{known_types};
ghost use Rattle.gp_sql.specs.StepLists.{types_after};
ghost use Rattle.gp_sql.specs.CellTypes.{kind_type};
ghost use Rattle.gp_sql.specs.Types as t;

use crate::cell_type::CellType;
use crate::types::{cell_type, common, cond_is_typed, expr_type, is_id, type_at};
use gp_algebra::PQuery;
use gp_base::{Catalog, Cell, Column, Kind, NoMemory, Row, Sequence};
use gp_expr::{Cond, Expr};
use std::alloc::Global;

/// The types of columns.
pub(crate) type Types = Sequence<CellType>;

/// The types of a step, where it has some.
#[derive(Drop)]
pub(crate) struct StepType {
    /// The number of the step.
    pub(crate) j: u32,
    /// The types of its columns.
    pub(crate) types: Option<Types>,
}

/// A copy of types.
fn copied(alloc: Global, types: &Option<Types>) -> Result<Option<Types>, NoMemory>
    ensures { IfOk result (λ copy. copy ≡ types.now) }
{
    match types {
        Some(types) => Ok(Some(Sequence::from_slice(alloc, types.as_slice())?)),
        None => Ok(None),
    }
}

/// The types of the step of this number, if it is this step, else those that were found before.
fn step_or_found(
    alloc: Global,
    step: &StepType,
    j: u32,
    found: Option<Types>,
) -> Result<Option<Types>, NoMemory>
    ensures { IfOk result (λ types.
        types ≡ t.with_types step.now.j step.now.types (λ k. found) j) }
{
    if j == step.j {
        copied(alloc, &step.types)
    } else {
        Ok(found)
    }
}

fn step_types(alloc: Global, steps: &[StepType], j: u32) -> Result<Option<Types>, NoMemory>
    ensures { IfOk result (λ types. types ≡ types_after steps.now t.no_types j) }
{
    let mut found = None;
    for step in steps {
        found = step_or_found(alloc, step, j, found)?;
    }
    Ok(found)
}

/// The type of a column of a table.
fn kind_type(kind: Kind) -> CellType
    ensures { result ≡ kind_type kind }
{
    match kind {
        Kind::Int => CellType::Int,
        Kind::Text => CellType::Text,
    }
}

/// The types of the columns of a table.
fn column_types(alloc: Global, columns: &[Column]) -> Result<Types, NoMemory>
    ensures { IfOk result (λ types.
        types ≡ map (λ (column : Column). kind_type column.kind) columns.now) }
{
    let mut types = Sequence::new(alloc);
    for column in columns {
        types.push(kind_type(column.kind))?;
    }
    Ok(types)
}

/// The types of a scan of a table: those of its columns, of the identity and of the mark.
fn scan_types(alloc: Global, catalog: &Catalog, table: u32) -> Result<Option<Types>, NoMemory>
    ensures { IfOk result (λ types. types ≡ t.query_types catalog.now t.no_types (p.scan table 0)) }
{
    if table >= catalog.len() {
        return Ok(None);
    }
    let mut types = column_types(alloc, catalog.table(table).cols.as_slice())?;
    types.push(CellType::Id)?;
    types.push(CellType::Mark)?;
    Ok(Some(types))
}

/// The types of rows that pass a condition.
fn selected_types(types: Option<Types>, cond: &Cond) -> Option<Types>
    ensures { result ≡ t.selected_types (cond_view cond.now) types }
{
    let types = types?;
    cond_is_typed(types.as_slice(), cond).then_some(types)
}

/// The types of expressions.
fn exprs_types(alloc: Global, types: &[CellType], exprs: &[Expr]) -> Result<Option<Types>, NoMemory>
    ensures { IfOk result (λ found. found ≡ t.exprs_types types.now (map expr_view exprs.now)) }
{
    let mut found = Sequence::new(alloc);
    for expr in exprs {
        match expr_type(types, expr) {
            Some(type_of) => found.push(type_of)?,
            None => return Ok(None),
        }
    }
    Ok(Some(found))
}

/// The types of a projection.
fn projected_types(
    alloc: Global,
    types: Option<Types>,
    exprs: &[Expr],
) -> Result<Option<Types>, NoMemory>
    ensures { IfOk result (λ found. found ≡ t.projected_types (map expr_view exprs.now) types) }
{
    match types {
        Some(types) => exprs_types(alloc, types.as_slice(), exprs),
        None => Ok(None),
    }
}

/// The types of rows side by side.
fn product_types(left: Option<Types>, right: Option<Types>) -> Result<Option<Types>, NoMemory>
    ensures { IfOk result (λ types. types ≡ t.product_types left right) }
{
    let (Some(mut types), Some(others)) = (left, right) else {
        return Ok(None);
    };
    types.append(others)?;
    Ok(Some(types))
}

/// The types of both, column by column.
fn common_types(
    alloc: Global,
    left: &[CellType],
    right: &[CellType],
) -> Result<Option<Types>, NoMemory>
    ensures { IfOk result (λ types. types ≡ t.common_types left.now right.now) }
{
    if left.len() != right.len() {
        return Ok(None);
    }
    let mut found = Sequence::new(alloc);
    for i in 0..left.len() {
        match common(left[i], right[i]) {
            Some(type_of) => found.push(type_of)?,
            None => return Ok(None),
        }
    }
    Ok(Some(found))
}

/// The types of the rows of both.
fn both_types(
    alloc: Global,
    left: &Option<Types>,
    right: &Option<Types>,
) -> Result<Option<Types>, NoMemory>
    ensures { IfOk result (λ types. types ≡ t.both_types left.now right.now) }
{
    match (left, right) {
        (Some(types), Some(others)) => common_types(alloc, types.as_slice(), others.as_slice()),
        _ => Ok(None),
    }
}

fn row_types(alloc: Global, cells: &[Cell]) -> Result<Option<Types>, NoMemory>
    ensures { IfOk result (λ found. found ≡ t.row_types cells.now) }
{
    let mut found = Sequence::new(alloc);
    for cell in cells {
        match cell_type(cell) {
            Some(type_of) => found.push(type_of)?,
            None => return Ok(None),
        }
    }
    Ok(Some(found))
}

/// The types of a row before rows of these types.
fn row_before(alloc: Global, row: &Row, types: &Option<Types>) -> Result<Option<Types>, NoMemory>
    ensures { IfOk result (λ found. found ≡ t.both_types (t.row_types row.now) types.now) }
{
    let of_row = row_types(alloc, row.cells())?;
    both_types(alloc, &of_row, types)
}

/// The types of given rows. The last row comes first, since each row is met with those behind it.
fn given_types(alloc: Global, rows: &[Row]) -> Result<Option<Types>, NoMemory>
    ensures { IfOk result (λ found. found ≡ t.given_types rows.now) }
{
    if rows.is_empty() {
        return Ok(None);
    }
    let mut at = rows.len() - 1;
    let mut found = row_types(alloc, rows[at].cells())?;
    while at > 0 {
        at -= 1;
        found = row_before(alloc, &rows[at], &found)?;
    }
    Ok(found)
}

fn is_mark(a: Option<CellType>) -> bool
    ensures { result ≡ t.is_mark a }
{
    matches!(a, Some(CellType::Mark))
}

/// Whether the column is the identity in all of them, and the next one the mark in mine.
fn are_published(at: u32, base: &[CellType], mine: &[CellType], later: &[CellType]) -> bool
    ensures { result ≡ t.are_published at base.now mine.now later.now }
{
    is_id(type_at(at, base))
        && (is_id(type_at(at, mine))
            && (is_id(type_at(at, later)) && is_mark(type_behind(at, mine))))
}

/// The type of the next column.
fn type_behind(at: u32, types: &[CellType]) -> Option<CellType>
    ensures { result ≡ t.type_at (suc at) types.now }
{
    types.get(at as usize).copied()
}

/// The types of a transaction's rows on a later version.
fn published_types(
    alloc: Global,
    at: u32,
    base: &Option<Types>,
    mine: &Option<Types>,
    later: &Option<Types>,
) -> Result<Option<Types>, NoMemory>
    ensures { IfOk result (λ types.
        types ≡ t.published_types at base.now mine.now later.now) }
{
    match (base, mine, later) {
        (Some(a), Some(b), Some(c))
            if are_published(at, a.as_slice(), b.as_slice(), c.as_slice()) => {
            common_types(alloc, c.as_slice(), b.as_slice())
        }
        _ => Ok(None),
    }
}

/// The types of a product or a union.
#[cycle(queries)]
fn types_of_both(
    alloc: Global,
    catalog: &Catalog,
    steps: &[StepType],
    is_product: bool,
    left: &PQuery,
    right: &PQuery,
) -> Result<Option<Types>, NoMemory>
    ensures product { is_product ≡ true → IfOk result (λ types. types
        ≡ t.query_types catalog.now (types_after steps.now t.no_types)
        (p.product (query_view left.now) (query_view right.now))) }
    ensures union { is_product ≡ false → IfOk result (λ types. types
        ≡ t.query_types catalog.now (types_after steps.now t.no_types)
        (p.union (query_view left.now) (query_view right.now))) }
{
    let left = query_types(alloc, catalog, steps, left)?;
    let right = query_types(alloc, catalog, steps, right)?;
    if is_product {
        product_types(left, right)
    } else {
        both_types(alloc, &left, &right)
    }
}

#[cycle(queries)]
fn types_of_publish(
    alloc: Global,
    catalog: &Catalog,
    steps: &[StepType],
    at: u32,
    base: &PQuery,
    mine: &PQuery,
    later: &PQuery,
) -> Result<Option<Types>, NoMemory>
    ensures { IfOk result (λ types. types
        ≡ t.query_types catalog.now (types_after steps.now t.no_types) (p.publish at
        (query_view base.now) (query_view mine.now) (query_view later.now))) }
{
    let base = query_types(alloc, catalog, steps, base)?;
    let mine = query_types(alloc, catalog, steps, mine)?;
    let later = query_types(alloc, catalog, steps, later)?;
    published_types(alloc, at, &base, &mine, &later)
}

/// The types of the columns of a query, if it has some.
#[cycle(queries)]
pub(crate) fn query_types(
    alloc: Global,
    catalog: &Catalog,
    steps: &[StepType],
    query: &PQuery,
) -> Result<Option<Types>, NoMemory>
    ensures { IfOk result (λ types. types
        ≡ t.query_types catalog.now (types_after steps.now t.no_types) (query_view query.now)) }
{
    match query {
        PQuery::Scan { table, .. } => scan_types(alloc, catalog, *table),
        PQuery::Step { j } => step_types(alloc, steps, *j),
        PQuery::Filter { input, cond } => {
            let types = query_types(alloc, catalog, steps, input)?;
            Ok(selected_types(types, cond))
        }
        PQuery::Project { input, exprs } => {
            let types = query_types(alloc, catalog, steps, input)?;
            projected_types(alloc, types, exprs.as_slice())
        }
        PQuery::Product { left, right } => {
            types_of_both(alloc, catalog, steps, true, left, right)
        }
        PQuery::Union { left, right } => {
            types_of_both(alloc, catalog, steps, false, left, right)
        }
        PQuery::Values { rows } => given_types(alloc, rows.as_slice()),
        PQuery::Publish {
            at,
            base,
            mine,
            later,
        } => types_of_publish(alloc, catalog, steps, *at, base, mine, later),
    }
}

/// The types of the columns of a query, or none at all.
pub(crate) fn types_or_none(
    alloc: Global,
    catalog: &Catalog,
    steps: &[StepType],
    query: &PQuery,
) -> Result<Types, NoMemory>
    ensures { IfOk result (λ types. types
        ≡ known_types (t.query_types catalog.now (types_after steps.now t.no_types)
        (query_view query.now))) }
{
    match query_types(alloc, catalog, steps, query)? {
        Some(types) => Ok(types),
        None => Ok(Sequence::new(alloc)),
    }
}
