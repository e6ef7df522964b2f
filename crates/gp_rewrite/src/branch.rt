//! Queries over the queries of the tables.

ghost use Rattle.std.specs.Prelude.{◌≡◌, ◌<◌, true, length, map, nat_lt, None, IfOk};
ghost use Rattle.std.specs.List.{list_all};
ghost use Rattle.std.specs.Option.{option_map};
ghost use Rattle.gp_expr.specs.Views.{cond_view, expr_view};
ghost use Rattle.gp_algebra.specs.AnnotatedQueries as q;
ghost use Rattle.gp_algebra.specs.QueryViews.{annotated_view};
ghost use Rattle.gp_algebra.specs.Views.{branch_view, select_view};
ghost use Rattle.gp_rewrite.specs.Meaning.{branch_is_there, select_is_there};
ghost use Rattle.gp_rewrite.specs.Rewriting as r;
ghost use Rattle.gp_rewrite.specs.RewritingForms.{product_onto, query_at, union_onto};

use gp_algebra::{AQuery, Branch, Select, copy_exprs, copy_query};
use gp_base::{NoMemory, Sequence};
use gp_expr::{Cond, Expr, copy_cond};
use std::alloc::Global;

/// A copy of the query of a table.
pub(crate) fn table_query(alloc: Global, tables: &[AQuery], table: u32) -> Result<AQuery, NoMemory>
    requires { table < length tables.now }
    ensures { IfOk result (λ found.
        annotated_view found ≡ query_at (map annotated_view tables.now) table) }
{
    copy_query(alloc, &tables[table as usize])
}

/// The rows of a query for which the condition is true.
pub(crate) fn filtered(alloc: Global, input: AQuery, cond: Cond) -> Result<AQuery, NoMemory>
    ensures { IfOk result (λ found.
        annotated_view found ≡ q.select (annotated_view input) (cond_view cond)) }
{
    Ok(AQuery::Filter {
        input: Box::new(alloc, input)?,
        cond,
    })
}

/// Each row of one query followed by each row of another.
fn joined(alloc: Global, left: AQuery, right: AQuery) -> Result<AQuery, NoMemory>
    ensures { IfOk result (λ found.
        annotated_view found ≡ q.product (annotated_view left) (annotated_view right)) }
{
    Ok(AQuery::Product {
        left: Box::new(alloc, left)?,
        right: Box::new(alloc, right)?,
    })
}

/// The rows of both queries.
pub(crate) fn united(alloc: Global, left: AQuery, right: AQuery) -> Result<AQuery, NoMemory>
    ensures { IfOk result (λ found.
        annotated_view found ≡ q.union (annotated_view left) (annotated_view right)) }
{
    Ok(AQuery::Union {
        left: Box::new(alloc, left)?,
        right: Box::new(alloc, right)?,
    })
}

/// A product with further tables on its right, one by one.
fn product_onto(
    alloc: Global,
    tables: &[AQuery],
    query: AQuery,
    others: &[u32],
) -> Result<AQuery, NoMemory>
    requires { list_all (λ place. nat_lt place (length tables.now)) others.now ≡ true }
    ensures { IfOk result (λ found. annotated_view found
        ≡ product_onto (query_at (map annotated_view tables.now)) (annotated_view query) others.now) }
{
    let mut query = query;
    for table in others {
        let right = table_query(alloc, tables, *table)?;
        query = joined(alloc, query, right)?;
    }
    Ok(query)
}

/// Every choice of one row from each table.
fn product(alloc: Global, tables: &[AQuery], from: &[u32]) -> Result<AQuery, NoMemory>
    requires some { 0 < length from.now }
    requires there { list_all (λ place. nat_lt place (length tables.now)) from.now ≡ true }
    ensures { IfOk result (λ found. annotated_view found
        ≡ r.product_of (query_at (map annotated_view tables.now)) from.now) }
{
    match from {
        [first, others @ ..] => {
            let query = table_query(alloc, tables, *first)?;
            product_onto(alloc, tables, query, others)
        }
        [] => unreachable!(),
    }
}

/// The rows for which the condition of a branch is true, if it has one.
fn selected(alloc: Global, query: AQuery, cond: &Option<Cond>) -> Result<AQuery, NoMemory>
    ensures { IfOk result (λ found. annotated_view found
        ≡ r.selected_by (option_map cond_view cond.now) (annotated_view query)) }
{
    match cond {
        None => Ok(query),
        Some(cond) => {
            let cond = copy_cond(alloc, cond)?;
            filtered(alloc, query, cond)
        }
    }
}

/// The values of expressions on each row of a query.
fn projected(alloc: Global, input: AQuery, exprs: Sequence<Expr>) -> Result<AQuery, NoMemory>
    ensures { IfOk result (λ found. annotated_view found
        ≡ q.project (annotated_view input) (map expr_view exprs) None) }
{
    Ok(AQuery::Project {
        input: Box::new(alloc, input)?,
        exprs,
        change: None,
    })
}

/// The rows that a branch gives.
pub(crate) fn branch_query(
    alloc: Global,
    tables: &[AQuery],
    branch: &Branch,
) -> Result<AQuery, NoMemory>
    requires { branch_is_there (length tables.now) (branch_view branch.now) ≡ true }
    ensures { IfOk result (λ found. annotated_view found
        ≡ r.branch_of (query_at (map annotated_view tables.now)) (branch_view branch.now)) }
{
    let exprs = copy_exprs(alloc, branch.items.as_slice())?;
    let rows = product(alloc, tables, branch.from.as_slice())?;
    let rows = selected(alloc, rows, &branch.cond)?;
    projected(alloc, rows, exprs)
}

/// The rows of a query, then those of further branches.
fn union_onto(
    alloc: Global,
    tables: &[AQuery],
    query: AQuery,
    others: &[Branch],
) -> Result<AQuery, NoMemory>
    requires { list_all (branch_is_there (length tables.now)) (map branch_view others.now) ≡ true }
    ensures { IfOk result (λ found. annotated_view found
        ≡ union_onto (query_at (map annotated_view tables.now))
        (annotated_view query) (map branch_view others.now)) }
{
    let mut query = query;
    for branch in others {
        let right = branch_query(alloc, tables, branch)?;
        query = united(alloc, query, right)?;
    }
    Ok(query)
}

/// A query as one of the annotated algebra. `tables` has a query for each table, and they are copied. Products and unions
/// nest to the left. Running out of memory is the only error.
///
/// A query that fits a catalogue of as many tables can be rewritten, by
/// [`fitting_selects_are_there`](crate::fitting_selects_are_there).
pub fn query(alloc: Global, select: &Select, tables: &[AQuery]) -> Result<AQuery, NoMemory>
    requires there { select_is_there (length tables.now) (select_view select.now) ≡ true }
    ensures { IfOk result (λ found. annotated_view found
        ≡ r.query_of (query_at (map annotated_view tables.now)) (select_view select.now)) }
{
    match select.branches.as_slice() {
        [first, others @ ..] => {
            let query = branch_query(alloc, tables, first)?;
            union_onto(alloc, tables, query, others)
        }
        [] => unreachable!(),
    }
}
