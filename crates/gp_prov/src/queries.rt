//! Queries with system columns.

ghost use Rattle.std.specs.Prelude.{◌≡◌, ◌++◌, None, suc, sum, map, box_value, IfOk, OnOk};
ghost use Rattle.std.specs.Option.{option_map};
ghost use Rattle.gp_expr.specs.Substitution.{substituted_cond};
ghost use Rattle.gp_expr.specs.Views.{cond_view, expr_view};
ghost use Rattle.gp_algebra.specs.AnnotatedQueries as q;
ghost use Rattle.gp_algebra.specs.Statements.{width_of};
ghost use Rattle.gp_algebra.specs.PlainViews.{query_view};
ghost use Rattle.gp_algebra.specs.QueryViews.{annotated_step_view, annotated_view, change_view};
ghost use Rattle.gp_prov.specs.ToPlain as to;
ghost use Rattle.gp_prov.specs.Translating.{plain_last_over, plain_over, widths_over};

use crate::columns::{total_width, user_columns};
use crate::numbers::{add, count};
use crate::projections::{Insertion, answer_columns, changed_columns, new_columns};
use crate::rows::given_rows;
use gp_algebra::{AQuery, AStep, Change, PQuery};
use gp_base::{Catalog, NoMemory, Sequence};
use gp_expr::{Cond, Expr, substitute_cond};
use std::alloc::Global;

/// What the translation of a program's queries does not change.
#[derive(Clone, Copy)]
pub(crate) struct Translation<'a> {
    /// The memory.
    pub alloc: Global,
    /// The tables, which give the numbers of columns of scans and steps.
    pub catalog: &'a Catalog,
    /// The steps of the program, which give the tables of their rows.
    pub steps: &'a [AStep],
    /// Whether rows carry monomials.
    pub with_prov: bool,
}

/// The number of columns of a table, or 0 if it is not there.
fn table_width(catalog: &Catalog, table: u32) -> Result<u32, NoMemory>
    ensures { IfOk result (λ n. n ≡ width_of catalog.now table) }
{
    if table < catalog.len() {
        count(catalog.table(table).cols.as_slice().len())
    } else {
        Ok(0)
    }
}

/// The table of the step with this number, or 0 if there is none.
fn step_table(steps: &[AStep], j: u32) -> u32
    ensures { result ≡ q.step_table (map annotated_step_view steps.now) j }
{
    for step in steps {
        if step.j == j {
            return step.table;
        }
    }
    0
}

/// Adds the numbers of user columns of the parts of the rows of a query.
fn push_widths(
    translation: &Translation<'_>,
    widths: &mut Vec<u32>,
    query: &AQuery,
) -> Result<(), NoMemory>
    ensures { OnOk result (widths.new.items ≡ widths.old.items
        ++ widths_over translation.now (annotated_view query.now)) }
{
    match query {
        AQuery::Scan { table, .. } => {
            widths.push(table_width(translation.catalog, *table)?)?;
            Ok(())
        }
        AQuery::Step { j } => {
            widths.push(table_width(translation.catalog, step_table(translation.steps, *j))?)?;
            Ok(())
        }
        AQuery::Project { exprs, .. } => {
            widths.push(count(exprs.as_slice().len())?)?;
            Ok(())
        }
        AQuery::Product { left, right } => {
            push_widths(translation, widths, left)?;
            push_widths(translation, widths, right)
        }
        AQuery::Filter { input, .. } | AQuery::NewRows { input, .. } => {
            push_widths(translation, widths, input)
        }
        AQuery::Union { left, .. } => push_widths(translation, widths, left),
        AQuery::Values { .. } => Ok(()),
        AQuery::Publish { base, .. } => push_widths(translation, widths, base),
    }
}

/// The numbers of user columns of the parts of the rows of a query.
fn widths_of(translation: &Translation<'_>, query: &AQuery) -> Result<Vec<u32>, NoMemory>
    ensures { IfOk result (λ widths. widths.items
        ≡ widths_over translation.now (annotated_view query.now)) }
{
    let mut widths = Vec::new(translation.alloc);
    push_widths(translation, &mut widths, query)?;
    Ok(widths)
}

/// The condition of a WHERE on the user columns of the rows of a query.
fn where_cond(translation: &Translation<'_>, input: &AQuery, cond: &Cond) -> Result<Cond, NoMemory>
    ensures { IfOk result (λ new. cond_view new ≡ substituted_cond (cond_view cond.now)
        (to.users_from translation.now.with_prov 0
        (widths_over translation.now (annotated_view input.now)))) }
{
    let widths = widths_of(translation, input)?;
    let users = user_columns(translation.alloc, translation.with_prov, &widths)?;
    substitute_cond(translation.alloc, cond, &users)
}

/// The expressions of a projection.
fn projected(
    translation: &Translation<'_>,
    input: &AQuery,
    exprs: &[Expr],
    change: &Option<Change>,
) -> Result<Sequence<Expr>, NoMemory>
    ensures { IfOk result (λ new. map expr_view new ≡ to.changed_columns translation.now.with_prov
        (widths_over translation.now (annotated_view input.now)) (map expr_view exprs.now)
        (option_map change_view change.now)) }
{
    let widths = widths_of(translation, input)?;
    changed_columns(
        translation.alloc,
        translation.with_prov,
        &widths,
        exprs,
        change,
    )
}

/// The column of the identity of the rows of a table.
fn identity_column(translation: &Translation<'_>, table: &AQuery) -> Result<u32, NoMemory>
    ensures { IfOk result (λ n. n
        ≡ suc (sum (widths_over translation.now (annotated_view table.now)))) }
{
    let widths = widths_of(translation, table)?;
    add(total_width(&widths)?, 1)
}

/// A query with system columns, in a box.
#[cycle(plain)]
fn plain_box(translation: &Translation<'_>, query: &AQuery) -> Result<Box<PQuery>, NoMemory>
    ensures { IfOk result (λ new. query_view (box_value new)
        ≡ plain_over translation.now (annotated_view query.now)) }
{
    Ok(Box::new(translation.alloc, plain_query(translation, query)?)?)
}

/// Two queries with system columns.
#[cycle(plain)]
fn plain_pair(
    translation: &Translation<'_>,
    left: &AQuery,
    right: &AQuery,
) -> Result<(Box<PQuery>, Box<PQuery>), NoMemory>
    ensures left { IfOk result (λ new. query_view (box_value new.0)
        ≡ plain_over translation.now (annotated_view left.now)) }
    ensures right { IfOk result (λ new. query_view (box_value new.1)
        ≡ plain_over translation.now (annotated_view right.now)) }
{
    let left = plain_box(translation, left)?;
    let right = plain_box(translation, right)?;
    Ok((left, right))
}

/// The rows for which a condition is true, with system columns.
#[cycle(plain)]
fn plain_filter(
    translation: &Translation<'_>,
    input: &AQuery,
    cond: &Cond,
) -> Result<PQuery, NoMemory>
    ensures { IfOk result (λ new. query_view new ≡ plain_over translation.now
        (q.select (annotated_view input.now) (cond_view cond.now))) }
{
    let cond = where_cond(translation, input, cond)?;
    let input = plain_box(translation, input)?;
    Ok(PQuery::Filter { input, cond })
}

/// A projection with system columns.
#[cycle(plain)]
fn plain_projection(
    translation: &Translation<'_>,
    input: &AQuery,
    exprs: &[Expr],
    change: &Option<Change>,
) -> Result<PQuery, NoMemory>
    ensures { IfOk result (λ new. query_view new ≡ plain_over translation.now
        (q.project (annotated_view input.now) (map expr_view exprs.now)
        (option_map change_view change.now))) }
{
    let exprs = projected(translation, input, exprs, change)?;
    let input = plain_box(translation, input)?;
    Ok(PQuery::Project { input, exprs })
}

/// The rows that a branch of an INSERT makes, with system columns.
#[cycle(plain)]
fn plain_new_rows(
    translation: &Translation<'_>,
    insertion: Insertion,
    rows: &AQuery,
) -> Result<PQuery, NoMemory>
    ensures { IfOk result (λ new. query_view new ≡ plain_over translation.now
        (q.new_rows insertion.t insertion.k insertion.b (annotated_view rows.now))) }
{
    match rows {
        AQuery::Project { input, exprs, .. } => {
            let widths = widths_of(translation, input)?;
            let exprs = new_columns(
                translation.alloc,
                translation.with_prov,
                insertion,
                &widths,
                exprs.as_slice(),
            )?;
            let input = plain_box(translation, input)?;
            Ok(PQuery::Project { input, exprs })
        }
        _ => plain_query(translation, rows),
    }
}

/// A publish of rows with system columns.
#[cycle(plain)]
fn plain_publish(
    translation: &Translation<'_>,
    base: &AQuery,
    mine: &AQuery,
    later: &AQuery,
) -> Result<PQuery, NoMemory>
    ensures { IfOk result (λ new. query_view new ≡ plain_over translation.now
        (q.publish (annotated_view base.now) (annotated_view mine.now)
        (annotated_view later.now))) }
{
    let at = identity_column(translation, base)?;
    let (base, mine) = plain_pair(translation, base, mine)?;
    let later = plain_box(translation, later)?;
    Ok(PQuery::Publish {
        at,
        base,
        mine,
        later,
    })
}

/// A query with system columns.
#[cycle(plain)]
pub(crate) fn plain_query(translation: &Translation<'_>, query: &AQuery) -> Result<PQuery, NoMemory>
    ensures { IfOk result (λ new. query_view new
        ≡ plain_over translation.now (annotated_view query.now)) }
{
    match query {
        AQuery::Scan { table, version } => Ok(PQuery::Scan {
            table: *table,
            version: *version,
        }),
        AQuery::Step { j } => Ok(PQuery::Step { j: *j }),
        AQuery::Filter { input, cond } => plain_filter(translation, input, cond),
        AQuery::Project {
            input,
            exprs,
            change,
        } => plain_projection(translation, input, exprs.as_slice(), change),
        AQuery::Product { left, right } => {
            let (left, right) = plain_pair(translation, left, right)?;
            Ok(PQuery::Product { left, right })
        }
        AQuery::Union { left, right } => {
            let (left, right) = plain_pair(translation, left, right)?;
            Ok(PQuery::Union { left, right })
        }
        AQuery::Values { t, k, rows } => Ok(PQuery::Values {
            rows: given_rows(
                translation.alloc,
                translation.with_prov,
                *t,
                *k,
                rows.as_slice(),
            )?,
        }),
        AQuery::NewRows { t, k, b, input } => {
            let (t, k, b) = (*t, *k, *b);
            let insertion = Insertion { t, k, b };
            plain_new_rows(translation, insertion, input)
        }
        AQuery::Publish { base, mine, later } => plain_publish(translation, base, mine, later),
    }
}

/// A branch of an answer, whose rows show neither identity nor mark.
fn plain_branch(
    translation: &Translation<'_>,
    input: &AQuery,
    exprs: &[Expr],
) -> Result<PQuery, NoMemory>
    ensures { IfOk result (λ new. query_view new ≡ plain_last_over translation.now
        (q.project (annotated_view input.now) (map expr_view exprs.now) None)) }
{
    let widths = widths_of(translation, input)?;
    let exprs = answer_columns(translation.alloc, translation.with_prov, &widths, exprs)?;
    let input = plain_box(translation, input)?;
    Ok(PQuery::Project { input, exprs })
}

/// The last query of a program: the branches of an answer, or the contents of a table with their system columns.
pub(crate) fn plain_last(translation: &Translation<'_>, query: &AQuery) -> Result<PQuery, NoMemory>
    ensures { IfOk result (λ new. query_view new
        ≡ plain_last_over translation.now (annotated_view query.now)) }
{
    match query {
        AQuery::Project {
            input,
            exprs,
            change: None,
        } => plain_branch(translation, input, exprs.as_slice()),
        AQuery::Union { left, right } => {
            let left = Box::new(translation.alloc, plain_last(translation, left)?)?;
            let right = Box::new(translation.alloc, plain_last(translation, right)?)?;
            Ok(PQuery::Union { left, right })
        }
        _ => plain_query(translation, query),
    }
}
