//! Statements as queries.

ghost use Rattle.std.specs.Prelude.{◌≡◌, ◌<◌, ◌+◌, ◌^◌, true, length, map, IfOk};
ghost use Rattle.std.specs.List.{list_all};
ghost use Rattle.std.specs.Option.{option_map};
ghost use Rattle.gp_expr.specs.Expressions as x;
ghost use Rattle.gp_expr.specs.Views.{cond_view, expr_view};
ghost use Rattle.gp_algebra.specs.AnnotatedQueries as q;
ghost use Rattle.gp_algebra.specs.Effects as e;
ghost use Rattle.gp_algebra.specs.Fitting.{statement_fits};
ghost use Rattle.gp_algebra.specs.Statements.{width_of};
ghost use Rattle.gp_algebra.specs.QueryViews.{annotated_view};
ghost use Rattle.gp_algebra.specs.Views.{branch_view, select_view, set_view, statement_view};
ghost use Rattle.gp_rewrite.specs.Meaning.{branch_is_there, select_is_there};
ghost use Rattle.gp_rewrite.specs.Rewriting as r;
ghost use Rattle.gp_rewrite.specs.RewritingForms.{query_at, rewriting};

use crate::branch::{branch_query, filtered, table_query, united};
use gp_algebra::{AQuery, Branch, Change, Select, SetExpr, Stmt};
use gp_base::{Catalog, NoMemory, Row, Sequence, Token};
use gp_expr::{Cond, Expr, copy_cond, copy_expr};
use std::alloc::Global;

/// The number of columns of a table. Columns are numbered by 32 bits, and no memory holds a table of more.
fn width(catalog: &Catalog, table: u32) -> Result<u32, NoMemory>
    requires { table < length catalog.now }
    ensures { IfOk result (λ width. width ≡ width_of catalog.now table) }
{
    match u32::try_from(catalog.table(table).cols.as_slice().len()) {
        Ok(width) => Ok(width),
        Err(_) => Err(NoMemory),
    }
}

/// The expression that a column is set to, if it is.
fn set_for(sets: &[SetExpr], n: u32) -> Option<&Expr>
    ensures { option_map (λ expr. expr_view expr.now) result ≡ e.set_for n (map set_view sets.now) }
{
    for set in sets {
        if set.col == n {
            return Some(&set.expr);
        }
    }
    None
}

/// The new value of a column that is set: the expression where the condition is true on the old row.
fn case(alloc: Global, cond: &Cond, expr: &Expr, n: u32) -> Result<Expr, NoMemory>
    ensures { IfOk result (λ new.
        expr_view new ≡ x.case (cond_view cond.now) (expr_view expr.now) (x.col n)) }
{
    let cond = Box::new(alloc, copy_cond(alloc, cond)?)?;
    let expr = Box::new(alloc, copy_expr(alloc, expr)?)?;
    Ok(Expr::Case(cond, expr, Box::new(alloc, Expr::Col(n))?))
}

/// The new value of a column, over the old row.
fn cased(alloc: Global, sets: &[SetExpr], cond: &Cond, n: u32) -> Result<Expr, NoMemory>
    ensures { IfOk result (λ new. expr_view new
        ≡ r.cased (cond_view cond.now) n (e.set_for n (map set_view sets.now))) }
{
    match set_for(sets, n) {
        None => Ok(Expr::Col(n)),
        Some(expr) => case(alloc, cond, expr, n),
    }
}

/// The new values of the columns.
fn updated(
    alloc: Global,
    width: u32,
    sets: &[SetExpr],
    cond: &Cond,
) -> Result<Sequence<Expr>, NoMemory>
    ensures { IfOk result (λ exprs. map expr_view exprs
        ≡ r.updated_from (map set_view sets.now) (cond_view cond.now) 0 width) }
{
    let mut exprs = Sequence::new(alloc);
    for before in 0..width {
        exprs.push(cased(alloc, sets, cond, before + 1)?)?;
    }
    Ok(exprs)
}

/// An UPDATE: a projection with a CASE for each column that is set. Every expression reads the old row.
fn update(
    alloc: Global,
    t: u32,
    k: u32,
    width: u32,
    sets: &[SetExpr],
    cond: &Cond,
    query: AQuery,
) -> Result<AQuery, NoMemory>
    ensures { IfOk result (λ found. annotated_view found ≡ r.update_query width t k
        (map set_view sets.now) (cond_view cond.now) (annotated_view query)) }
{
    let exprs = updated(alloc, width, sets, cond)?;
    let input = Box::new(alloc, query)?;
    let cond = copy_cond(alloc, cond)?;
    let token = Token::Updated { t, k };
    Ok(AQuery::Project {
        input,
        exprs,
        change: Some(Change { cond, token }),
    })
}

/// A DELETE: a selection. A row stays where the condition is false or unknown, so this is no NOT.
fn delete(alloc: Global, cond: &Cond, query: AQuery) -> Result<AQuery, NoMemory>
    ensures { IfOk result (λ found. annotated_view found
        ≡ r.delete_query (cond_view cond.now) (annotated_view query)) }
{
    let cond = Box::new(alloc, copy_cond(alloc, cond)?)?;
    filtered(alloc, query, Cond::IsTrue { cond, yes: false })
}

/// An INSERT with VALUES: a union with the new rows.
fn insert(
    alloc: Global,
    t: u32,
    k: u32,
    query: AQuery,
    rows: &Sequence<Row>,
) -> Result<AQuery, NoMemory>
    ensures { IfOk result (λ found. annotated_view found
        ≡ q.union (annotated_view query) (q.given t k rows.now)) }
{
    let rows = rows.clone()?;
    united(alloc, query, AQuery::Values { t, k, rows })
}

/// The new rows of branch b.
fn new_rows(
    alloc: Global,
    t: u32,
    k: u32,
    b: u32,
    tables: &[AQuery],
    branch: &Branch,
) -> Result<AQuery, NoMemory>
    requires { branch_is_there (length tables.now) (branch_view branch.now) ≡ true }
    ensures { IfOk result (λ found. annotated_view found ≡ q.new_rows t k b
        (r.branch_of (query_at (map annotated_view tables.now)) (branch_view branch.now))) }
{
    let input = Box::new(alloc, branch_query(alloc, tables, branch)?)?;
    Ok(AQuery::NewRows { t, k, b, input })
}

/// The rows of a query, then the new rows of the branches after the first.
fn made_onto(
    alloc: Global,
    t: u32,
    k: u32,
    tables: &[AQuery],
    query: AQuery,
    others: &[Branch],
) -> Result<AQuery, NoMemory>
    requires few { length others.now + 1 < 2 ^ 32 }
    requires there { list_all (branch_is_there (length tables.now)) (map branch_view others.now)
        ≡ true }
    ensures { IfOk result (λ found. annotated_view found
        ≡ r.made_onto t k 2 (query_at (map annotated_view tables.now))
        (annotated_view query) (map branch_view others.now)) }
{
    let mut query = query;
    let mut b = 1u32;
    for branch in others {
        b += 1;
        let right = new_rows(alloc, t, k, b, tables, branch)?;
        query = united(alloc, query, right)?;
    }
    Ok(query)
}

/// The new rows of all branches of an INSERT with a query.
fn made(
    alloc: Global,
    t: u32,
    k: u32,
    tables: &[AQuery],
    branches: &[Branch],
) -> Result<AQuery, NoMemory>
    requires few { length branches.now < 2 ^ 32 }
    requires there { select_is_there (length tables.now) (map branch_view branches.now) ≡ true }
    ensures { IfOk result (λ found. annotated_view found
        ≡ r.made_of t k (query_at (map annotated_view tables.now)) (map branch_view branches.now)) }
{
    match branches {
        [first, others @ ..] => {
            let query = new_rows(alloc, t, k, 1, tables, first)?;
            made_onto(alloc, t, k, tables, query, others)
        }
        [] => unreachable!(),
    }
}

/// An INSERT with a query: a union with the new rows. The query reads the tables as they were before.
fn insert_select(
    alloc: Global,
    t: u32,
    k: u32,
    tables: &[AQuery],
    query: AQuery,
    branches: &[Branch],
) -> Result<AQuery, NoMemory>
    requires few { length branches.now < 2 ^ 32 }
    requires there { select_is_there (length tables.now) (map branch_view branches.now) ≡ true }
    ensures { IfOk result (λ found. annotated_view found ≡ q.union (annotated_view query)
        (r.made_of t k (query_at (map annotated_view tables.now)) (map branch_view branches.now))) }
{
    let rows = made(alloc, t, k, tables, branches)?;
    united(alloc, query, rows)
}

/// Statement k of transaction t as a query: the new contents of the table that it writes. None for a SELECT, which writes
/// none. `tables` has a query for each table of the catalogue, which gives the rows that the statement reads, and they are
/// copied. Running out of memory is the only error.
pub fn step(
    alloc: Global,
    t: u32,
    k: u32,
    stmt: &Stmt,
    catalog: &Catalog,
    tables: &[AQuery],
) -> Result<Option<AQuery>, NoMemory>
    requires fits { statement_fits catalog.now (statement_view stmt.now) ≡ true }
    requires tables { length tables.now ≡ length catalog.now }
    ensures { IfOk result (λ found. option_map annotated_view found
        ≡ rewriting (width_of catalog.now) t k (statement_view stmt.now)
        (query_at (map annotated_view tables.now))) }
{
    match stmt {
        Stmt::Insert { table, rows } => {
            let query = table_query(alloc, tables, *table)?;
            Ok(Some(insert(alloc, t, k, query, rows)?))
        }
        Stmt::InsertSelect { table, select } => {
            let query = table_query(alloc, tables, *table)?;
            let branches = select.branches.as_slice();
            Ok(Some(insert_select(alloc, t, k, tables, query, branches)?))
        }
        Stmt::Update { table, sets, cond } => {
            let width = width(catalog, *table)?;
            let query = table_query(alloc, tables, *table)?;
            let sets = sets.as_slice();
            Ok(Some(update(alloc, t, k, width, sets, cond, query)?))
        }
        Stmt::Delete { table, cond } => {
            let query = table_query(alloc, tables, *table)?;
            Ok(Some(delete(alloc, cond, query)?))
        }
        Stmt::Read { .. } => Ok(None),
    }
}
