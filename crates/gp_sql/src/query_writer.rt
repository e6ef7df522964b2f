//! The texts of queries, which are appended piece by piece: the query itself to one text, and those that it reads to another
//! one before it. If memory runs out, a part is appended.

ghost use Rattle.std.specs.Prelude.{◌≡◌, ◌||◌, ◌++◌, ◌∷◌, [], codes, drop, map, suc, take, true, IfOk, OnOk};
ghost use Rattle.std.specs.List.{concat};
ghost use Rattle.gp_base.specs.Numbered.{newline};
ghost use Rattle.gp_expr.specs.Views.{cond_view, expr_view};
ghost use Rattle.gp_algebra.specs.Plain as p;
ghost use Rattle.gp_algebra.specs.PlainViews.{query_view};
ghost use Rattle.gp_sql.specs.NamedQueries as q;
ghost use Rattle.gp_sql.specs.Spelling as w;
ghost use Rattle.gp_sql.specs.Sql as s;
ghost use Rattle.gp_sql.specs.StepLists.{types_after};
ghost use Rattle.gp_sql.specs.Types.{no_types};
ghost use Rattle.gp_sql.specs.WrittenQueries.{numbered_operand, source_of, step_number, Writes, WritesOperand};

use crate::block_writer::{push_all_of, push_crossed, push_projected, push_selected, push_united};
use crate::cell_type::CellType;
use crate::item_writer::next;
use crate::name::{Name, push_from};
use crate::publish_writer::{push_published, push_written};
use crate::query_types::{StepType, types_or_none};
use crate::scan_writer::push_scanned;
use crate::values_writer::push_values;
use gp_algebra::PQuery;
use gp_base::{Catalog, NoMemory, append_all};
use gp_expr::{Cond, Expr};
use std::alloc::Global;

/// What stands for a query that another one reads.
#[derive(Clone, Copy)]
pub(crate) struct Operand {
    /// Its name.
    source: Name,
    /// The number of the next query.
    next: u64,
}

/// Appends the common table expression of a text.
pub(crate) fn push_named(
    alloc: Global,
    catalog: &Catalog,
    name: Name,
    materialized: bool,
    text: &[u8],
    out: &mut Vec<u8>,
) -> Result<(), NoMemory>
    ensures { OnOk result (out.new.items ≡ out.old.items
        ++ concat (codes "," ∷ newline ∷ w.source_text catalog.now (source_of name) ∷ codes " AS "
        ∷ w.materialized_text materialized ∷ codes "(" ∷ text.now ∷ codes ")" ∷ [])) }
{
    push_from(alloc, catalog, b",\n", name, b" AS ", out)?;
    if materialized {
        append_all(out, &[b"MATERIALIZED "])?;
    }
    append_all(out, &[b"(", text, b")"])
}

/// The number of the step that a query is.
fn step_number(query: &PQuery) -> Option<u32>
    ensures { result ≡ step_number (query_view query.now) }
{
    match query {
        PQuery::Step { j } => Some(*j),
        _ => None,
    }
}

/// Whether a query is a PROJECT.
fn is_projection(query: &PQuery) -> bool
    ensures { result ≡ q.is_projection (query_view query.now) }
{
    matches!(query, PQuery::Project { .. })
}

/// What is due of the first columns, and of those behind them.
fn split_due(due: &[CellType], width: usize) -> (&[CellType], &[CellType])
    ensures first { result.0.now ≡ take width due.now }
    ensures second { result.1.now ≡ drop width due.now }
{
    if width < due.len() {
        due.split_at(width)
    } else {
        (due, &[])
    }
}

/// Whether an engine has to compute a query by itself.
fn is_materialized(in_publish: bool, query: &PQuery) -> bool
    ensures { result ≡ (in_publish || q.is_projection (query_view query.now)) }
{
    in_publish || is_projection(query)
}

/// Appends a query under the next number to those before it.
#[cycle(queries)]
fn push_numbered(
    alloc: Global,
    catalog: &Catalog,
    steps: &[StepType],
    due: &[CellType],
    query: &PQuery,
    in_publish: bool,
    n: u64,
    before: &mut Vec<u8>,
) -> Result<Operand, NoMemory>
    ensures { IfOk result (λ found. WritesOperand catalog.now (numbered_operand in_publish
        (query_view query.now) (q.translated catalog.now (types_after steps.now no_types) due.now
        (query_view query.now) n)) found before.old.items before.new.items) }
{
    let mut body = Vec::new(alloc);
    let n = push_query(alloc, catalog, steps, due, query, n, before, &mut body)?;
    let materialized = is_materialized(in_publish, query);
    push_named(alloc, catalog, Name::Query(n), materialized, &body, before)?;
    let next = next(n)?;
    Ok(Operand {
        source: Name::Query(n),
        next,
    })
}

/// Appends a query, which another one reads, to those before it. A step has a name already.
#[cycle(queries)]
fn push_operand(
    alloc: Global,
    catalog: &Catalog,
    steps: &[StepType],
    due: &[CellType],
    query: &PQuery,
    in_publish: bool,
    n: u64,
    before: &mut Vec<u8>,
) -> Result<Operand, NoMemory>
    ensures { IfOk result (λ found. WritesOperand catalog.now (q.operand in_publish
        (query_view query.now) (q.translated catalog.now (types_after steps.now no_types) due.now
        (query_view query.now) n)) found before.old.items before.new.items) }
{
    match step_number(query) {
        Some(j) => Ok(Operand {
            source: Name::Step(j),
            next: n,
        }),
        None => push_numbered(alloc, catalog, steps, due, query, in_publish, n, before),
    }
}

/// Appends a FILTER, and what it reads.
#[cycle(queries)]
fn push_filter(
    alloc: Global,
    catalog: &Catalog,
    steps: &[StepType],
    due: &[CellType],
    input: &PQuery,
    cond: &Cond,
    n: u64,
    before: &mut Vec<u8>,
    body: &mut Vec<u8>,
) -> Result<u64, NoMemory>
    ensures { IfOk result (λ next. Writes catalog.now (q.translated catalog.now
        (types_after steps.now no_types) due.now (p.select (query_view input.now)
        (cond_view cond.now)) n) next before.old.items before.new.items body.old.items body.new.items) }
{
    let types = types_or_none(alloc, catalog, steps, input)?;
    let a = push_operand(alloc, catalog, steps, due, input, false, n, before)?;
    push_selected(alloc, catalog, types.as_slice(), a.source, cond, body)?;
    Ok(a.next)
}

/// Appends a PROJECT, and what it reads.
#[cycle(queries)]
fn push_project(
    alloc: Global,
    catalog: &Catalog,
    steps: &[StepType],
    due: &[CellType],
    input: &PQuery,
    exprs: &[Expr],
    n: u64,
    before: &mut Vec<u8>,
    body: &mut Vec<u8>,
) -> Result<u64, NoMemory>
    ensures { IfOk result (λ next. Writes catalog.now (q.translated catalog.now
        (types_after steps.now no_types) due.now (p.project (query_view input.now)
        (map expr_view exprs.now)) n) next before.old.items before.new.items body.old.items body.new.items) }
{
    let types = types_or_none(alloc, catalog, steps, input)?;
    let a = push_operand(
        alloc,
        catalog,
        steps,
        types.as_slice(),
        input,
        false,
        n,
        before,
    )?;
    push_projected(alloc, catalog, types.as_slice(), due, a.source, exprs, body)?;
    Ok(a.next)
}

/// Appends a PRODUCT, and what it reads.
#[cycle(queries)]
fn push_product(
    alloc: Global,
    catalog: &Catalog,
    steps: &[StepType],
    due: &[CellType],
    left: &PQuery,
    right: &PQuery,
    n: u64,
    before: &mut Vec<u8>,
    body: &mut Vec<u8>,
) -> Result<u64, NoMemory>
    ensures { IfOk result (λ next. Writes catalog.now (q.translated catalog.now
        (types_after steps.now no_types) due.now (p.product (query_view left.now)
        (query_view right.now)) n) next before.old.items before.new.items body.old.items body.new.items) }
{
    let types = types_or_none(alloc, catalog, steps, left)?;
    let others = types_or_none(alloc, catalog, steps, right)?;
    let (first, second) = split_due(due, types.as_slice().len());
    let a = push_operand(alloc, catalog, steps, first, left, false, n, before)?;
    let b = push_operand(alloc, catalog, steps, second, right, false, a.next, before)?;
    push_crossed(
        alloc,
        catalog,
        types.as_slice(),
        others.as_slice(),
        a.source,
        b.source,
        body,
    )?;
    Ok(b.next)
}

/// Appends a UNION, and what it reads.
#[cycle(queries)]
fn push_union(
    alloc: Global,
    catalog: &Catalog,
    steps: &[StepType],
    due: &[CellType],
    left: &PQuery,
    right: &PQuery,
    n: u64,
    before: &mut Vec<u8>,
    body: &mut Vec<u8>,
) -> Result<u64, NoMemory>
    ensures { IfOk result (λ next. Writes catalog.now (q.translated catalog.now
        (types_after steps.now no_types) due.now (p.union (query_view left.now)
        (query_view right.now)) n) next before.old.items before.new.items body.old.items body.new.items) }
{
    let a = push_operand(alloc, catalog, steps, due, left, false, n, before)?;
    let b = push_operand(alloc, catalog, steps, due, right, false, a.next, before)?;
    push_united(alloc, catalog, a.source, b.source, body)?;
    Ok(b.next)
}

/// Appends the query of the written identities to those before, and returns the next number.
fn push_named_written(
    alloc: Global,
    catalog: &Catalog,
    at: u32,
    base: Name,
    mine: Name,
    n: u64,
    before: &mut Vec<u8>,
) -> Result<u64, NoMemory>
    ensures number { IfOk result (λ next. next ≡ suc n) }
    ensures text { OnOk result (before.new.items ≡ before.old.items
        ++ w.other_expression catalog.now (record {
          name = s.query n;
          materialized = true;
          query = q.written_query at (source_of base) (source_of mine);
        })) }
{
    let mut body = Vec::new(alloc);
    push_written(alloc, catalog, at, base, mine, &mut body)?;
    push_named(alloc, catalog, Name::Query(n), true, &body, before)?;
    next(n)
}

/// Appends a PUBLISH, and what it reads.
#[cycle(queries)]
fn push_publish(
    alloc: Global,
    catalog: &Catalog,
    steps: &[StepType],
    due: &[CellType],
    at: u32,
    base: &PQuery,
    mine: &PQuery,
    later: &PQuery,
    n: u64,
    before: &mut Vec<u8>,
    body: &mut Vec<u8>,
) -> Result<u64, NoMemory>
    ensures { IfOk result (λ next. Writes catalog.now (q.translated catalog.now
        (types_after steps.now no_types) due.now (p.publish at (query_view base.now)
        (query_view mine.now) (query_view later.now)) n) next
        before.old.items before.new.items body.old.items body.new.items) }
{
    let types = types_or_none(alloc, catalog, steps, base)?;
    let a = push_operand(
        alloc,
        catalog,
        steps,
        types.as_slice(),
        base,
        true,
        n,
        before,
    )?;
    let b = push_operand(alloc, catalog, steps, due, mine, true, a.next, before)?;
    let c = push_operand(alloc, catalog, steps, due, later, true, b.next, before)?;
    let last = push_named_written(alloc, catalog, at, a.source, b.source, c.next, before)?;
    push_published(
        alloc,
        catalog,
        at,
        Name::Query(c.next),
        b.source,
        c.source,
        body,
    )?;
    Ok(last)
}

/// Appends a query, and what it reads. The next query has this number; a column that is NULL everywhere is cast to the type that
/// is due.
#[cycle(queries)]
pub(crate) fn push_query(
    alloc: Global,
    catalog: &Catalog,
    steps: &[StepType],
    due: &[CellType],
    query: &PQuery,
    n: u64,
    before: &mut Vec<u8>,
    body: &mut Vec<u8>,
) -> Result<u64, NoMemory>
    ensures { IfOk result (λ next. Writes catalog.now (q.translated catalog.now
        (types_after steps.now no_types) due.now (query_view query.now) n) next
        before.old.items before.new.items body.old.items body.new.items) }
{
    match query {
        PQuery::Scan { table, version } => {
            push_scanned(alloc, catalog, *table, *version, body)?;
            Ok(n)
        }
        PQuery::Step { j } => {
            push_all_of(alloc, catalog, Name::Step(*j), body)?;
            Ok(n)
        }
        PQuery::Filter { input, cond } => {
            push_filter(alloc, catalog, steps, due, input, cond, n, before, body)
        }
        PQuery::Project { input, exprs } => {
            push_project(
                alloc,
                catalog,
                steps,
                due,
                input,
                exprs.as_slice(),
                n,
                before,
                body,
            )
        }
        PQuery::Product { left, right } => {
            push_product(alloc, catalog, steps, due, left, right, n, before, body)
        }
        PQuery::Union { left, right } => {
            push_union(alloc, catalog, steps, due, left, right, n, before, body)
        }
        PQuery::Values { rows } => {
            push_values(alloc, catalog, due, rows.as_slice(), body)?;
            Ok(n)
        }
        PQuery::Publish {
            at,
            base,
            mine,
            later,
        } => push_publish(
            alloc, catalog, steps, due, *at, base, mine, later, n, before, body,
        ),
    }
}
