//! What statements look at.

ghost use Rattle.std.specs.Prelude.{◌≡◌, ◌+◌, false, suc, ◌∷◌, [], ◌++◌, ◌&&◌, true, map, filter, replicate, IfOk, OnOk};
ghost use Rattle.std.specs.List.{flat_map, list_any};
ghost use Rattle.std.specs.Option.{option_map, option_map_or};
ghost use Rattle.gp_base.specs.declared.cell.Cell.TheVariants as cell;
ghost use Rattle.gp_expr.specs.ExpressionForms.{cond_is_simple, is_simple};
ghost use Rattle.gp_expr.specs.Expressions as e;
ghost use Rattle.gp_expr.specs.Gathering.{gathered};
ghost use Rattle.gp_expr.specs.Views.{cond_view, expr_view};
ghost use Rattle.gp_algebra.specs.Fitting.{statement_fits};
ghost use Rattle.gp_algebra.specs.Statements.{width_of};
ghost use Rattle.gp_algebra.specs.Views.{branch_view, set_view, statement_view};
ghost use Rattle.gp_machine.specs.Looks as m;
ghost use Rattle.gp_serial.specs.Meetings.{AreReady, AreSimple, IsReady};
ghost use Rattle.gp_serial.specs.LookViews.{AreSimpleBranches, AreSimpleItems, AreSimpleSets, IsSimpleBranch, IsSimpleWhere};
ghost use Rattle.gp_serial.specs.LookViews.{look_view, members_of};

use gp_algebra::{Branch, SetExpr, Stmt};
use gp_base::{Catalog, Cell, NoMemory};
use gp_expr::{Cond, Expr};
use std::alloc::Global;

/// The rows of a table that satisfy conditions, and the columns in which a statement reads them. The columns of a condition count through all tables of
/// a FROM, so that the cells of a row follow those of the tables before it.
#[derive(Drop)]
pub struct Look<'a> {
    /// The place of the table.
    pub table: u32,
    /// NULL for each column of the tables before it, which the conditions do not read.
    pub before: Vec<Cell>,
    /// The conditions.
    pub conds: Vec<&'a Cond>,
    /// The places of the columns of the table that the statement uses, from 0.
    pub columns: Vec<usize>,
}

/// Whether a column is one of the `width` columns that follow the first `before`; columns count from 1.
fn is_own(column: u32, before: usize, width: usize) -> bool
    ensures { result ≡ m.is_own before width (e.col column) }
{
    let place = column as usize;
    before < place && place - before <= width
}

/// Whether an expression reads only such columns.
#[cycle(about)]
fn is_expr_about(expr: &Expr, before: usize, width: usize) -> bool
    requires { is_simple (expr_view expr.now) ≡ true }
    ensures { result ≡ gathered (m.is_own before width) true true ◌&&◌ (expr_view expr.now) }
{
    match expr {
        Expr::Col(column) => is_own(*column, before, width),
        Expr::Const(_) => true,
        Expr::Add(left, right) | Expr::Sub(left, right) | Expr::Mul(left, right) => {
            is_expr_about(left, before, width) && is_expr_about(right, before, width)
        }
        Expr::Neg(inner) => is_expr_about(inner, before, width),
        Expr::Case(cond, first, other) => {
            is_about(cond, before, width)
                && (is_expr_about(first, before, width) && is_expr_about(other, before, width))
        }
        // Statements have simple expressions only.
        Expr::NewId { .. } | Expr::Times(_, _) => false,
    }
}

/// Whether a condition reads only such columns.
#[cycle(about)]
fn is_about(cond: &Cond, before: usize, width: usize) -> bool
    requires { cond_is_simple (cond_view cond.now) ≡ true }
    ensures { result ≡ m.is_about before width (cond_view cond.now) }
{
    match cond {
        Cond::True => true,
        Cond::Cmp(_, left, right) => {
            is_expr_about(left, before, width) && is_expr_about(right, before, width)
        }
        Cond::IsNull { expr, .. } => is_expr_about(expr, before, width),
        Cond::IsTrue { cond, .. } => is_about(cond, before, width),
        Cond::And(left, right) | Cond::Or(left, right) => {
            is_about(left, before, width) && is_about(right, before, width)
        }
        Cond::Not(cond) => is_about(cond, before, width),
    }
}

/// Whether a column is the one at a place behind the first `before`; columns count from 1, places from 0.
fn is_column(column: u32, before: usize, place: usize) -> bool
    ensures { result ≡ m.is_column (before + suc place) (e.col column) }
{
    let column = column as usize;
    before < column && column - before - 1 == place
}

/// Whether this column occurs in an expression.
#[cycle(occurring)]
fn occurs_in(expr: &Expr, before: usize, place: usize) -> bool
    requires { is_simple (expr_view expr.now) ≡ true }
    ensures { result ≡ m.occurs_in (before + suc place) (expr_view expr.now) }
{
    match expr {
        Expr::Col(column) => is_column(*column, before, place),
        Expr::Const(_) => false,
        Expr::Add(left, right) | Expr::Sub(left, right) | Expr::Mul(left, right) => {
            occurs_in(left, before, place) || occurs_in(right, before, place)
        }
        Expr::Neg(inner) => occurs_in(inner, before, place),
        Expr::Case(cond, first, other) => {
            occurs_in_cond(cond, before, place)
                || (occurs_in(first, before, place) || occurs_in(other, before, place))
        }
        // Statements have simple expressions only.
        Expr::NewId { .. } | Expr::Times(_, _) => false,
    }
}

/// Whether this column occurs in a condition.
#[cycle(occurring)]
fn occurs_in_cond(cond: &Cond, before: usize, place: usize) -> bool
    requires { cond_is_simple (cond_view cond.now) ≡ true }
    ensures { result ≡ m.occurs_in_cond (before + suc place) (cond_view cond.now) }
{
    match cond {
        Cond::True => false,
        Cond::Cmp(_, left, right) => {
            occurs_in(left, before, place) || occurs_in(right, before, place)
        }
        Cond::IsNull { expr, .. } => occurs_in(expr, before, place),
        Cond::IsTrue { cond, .. } => occurs_in_cond(cond, before, place),
        Cond::And(left, right) | Cond::Or(left, right) => {
            occurs_in_cond(left, before, place) || occurs_in_cond(right, before, place)
        }
        Cond::Not(cond) => occurs_in_cond(cond, before, place),
    }
}

/// Whether this column occurs in one of some expressions.
fn occurs_in_items(items: &[Expr], before: usize, place: usize) -> bool
    requires { AreSimpleItems items.now }
    ensures { result ≡ list_any (m.occurs_in (before + suc place)) (map expr_view items.now) }
{
    for item in items {
        if occurs_in(item, before, place) {
            return true;
        }
    }
    false
}

/// Whether this column occurs in the terms of assignments.
fn occurs_in_sets(sets: &[SetExpr], before: usize, place: usize) -> bool
    requires { AreSimpleSets sets.now }
    ensures { result
        ≡ list_any (λ set. m.occurs_in (before + suc place) set.expr) (map set_view sets.now) }
{
    for set in sets {
        if occurs_in(&set.expr, before, place) {
            return true;
        }
    }
    false
}

/// Whether this column occurs in a WHERE.
fn occurs_in_where(cond: &Option<Cond>, before: usize, place: usize) -> bool
    requires { IsSimpleWhere cond.now }
    ensures { result
        ≡ option_map_or (m.occurs_in_cond (before + suc place)) (option_map cond_view cond.now) false }
{
    match cond {
        Some(cond) => occurs_in_cond(cond, before, place),
        None => false,
    }
}

/// Of `width` columns behind the first `before`, the places of those that occur in a SELECT.
fn branch_columns(
    alloc: Global,
    before: usize,
    width: usize,
    branch: &Branch,
) -> Result<Vec<usize>, NoMemory>
    requires { IsSimpleBranch branch.now }
    ensures { IfOk result (λ columns. columns.items
        ≡ m.used (m.occurs_in_branch (branch_view branch.now)) before width) }
{
    let mut columns = Vec::new(alloc);
    for place in 0..width {
        if occurs_in_items(branch.items.as_slice(), before, place)
            || occurs_in_where(&branch.cond, before, place)
        {
            columns.push(place)?;
        }
    }
    Ok(columns)
}

/// Of the `width` columns of a table, the places of those that occur in the terms of assignments or in a WHERE.
fn table_columns(
    alloc: Global,
    width: usize,
    sets: &[SetExpr],
    cond: &Cond,
) -> Result<Vec<usize>, NoMemory>
    requires sets { AreSimpleSets sets.now }
    requires cond { cond_is_simple (cond_view cond.now) ≡ true }
    ensures { IfOk result (λ columns. columns.items
        ≡ m.used (m.occurs_in_update (map set_view sets.now) (cond_view cond.now)) 0 width) }
{
    let mut columns = Vec::new(alloc);
    for place in 0..width {
        if occurs_in_sets(sets, 0, place) || occurs_in_cond(cond, 0, place) {
            columns.push(place)?;
        }
    }
    Ok(columns)
}

/// Appends a condition if it reads only such columns.
fn push_member<'a>(
    cond: &'a Cond,
    before: usize,
    width: usize,
    conds: &mut Vec<&'a Cond>,
) -> Result<(), NoMemory>
    requires { cond_is_simple (cond_view cond.now) ≡ true }
    ensures members { OnOk result (map (λ c. cond_view c.now) conds.new.items
        ≡ map (λ c. cond_view c.now) conds.old.items
        ++ filter (m.is_about before width) (cond_view cond.now ∷ [])) }
    ensures simple { AreSimple conds.old.items → OnOk result (AreSimple conds.new.items) }
{
    if is_about(cond, before, width) {
        conds.push(cond)?;
    }
    Ok(())
}

/// Appends the conjuncts of a condition that read only such columns.
fn push_members<'a>(
    cond: &'a Cond,
    before: usize,
    width: usize,
    conds: &mut Vec<&'a Cond>,
) -> Result<(), NoMemory>
    requires { cond_is_simple (cond_view cond.now) ≡ true }
    ensures members { OnOk result (map (λ c. cond_view c.now) conds.new.items
        ≡ map (λ c. cond_view c.now) conds.old.items
        ++ filter (m.is_about before width) (m.members (cond_view cond.now))) }
    ensures simple { AreSimple conds.old.items → OnOk result (AreSimple conds.new.items) }
{
    match cond {
        Cond::And(left, right) => {
            push_members(left, before, width, conds)?;
            push_members(right, before, width, conds)
        }
        _ => push_member(cond, before, width, conds),
    }
}

/// `count` NULL cells.
fn nulls(alloc: Global, count: usize) -> Result<Vec<Cell>, NoMemory>
    ensures { IfOk result (λ cells. cells.items ≡ replicate count cell.Null) }
{
    let mut cells = Vec::with_capacity(alloc, count)?;
    for _ in 0..count {
        cells.push(Cell::Null)?;
    }
    Ok(cells)
}

/// The conjuncts of a WHERE that read only the `width` columns that follow the first `before`.
fn members<'a>(
    alloc: Global,
    before: usize,
    width: usize,
    cond: &'a Option<Cond>,
) -> Result<Vec<&'a Cond>, NoMemory>
    requires { IsSimpleWhere cond.now }
    ensures members { IfOk result (λ conds. map (λ c. cond_view c.now) conds.items
        ≡ filter (m.is_about before width) (members_of cond.now)) }
    ensures simple { IfOk result (λ conds. AreSimple conds.items) }
{
    let mut conds = Vec::new(alloc);
    match cond {
        Some(cond) => {
            push_members(cond, before, width, &mut conds)?;
            Ok(conds)
        }
        None => Ok(conds),
    }
}

/// The look at the table of an item of a FROM, whose `width` columns follow the first `before`.
fn item_look<'a>(
    alloc: Global,
    table: u32,
    before: usize,
    width: usize,
    branch: &'a Branch,
) -> Result<Look<'a>, NoMemory>
    requires { IsSimpleBranch branch.now }
    ensures look { IfOk result (λ look. look_view look ≡ record {
      table = table;
      before = before;
      conds = filter (m.is_about before width) (members_of branch.now.cond);
      columns = m.used (m.occurs_in_branch (branch_view branch.now)) before width;
    }) }
    ensures ready { IfOk result IsReady }
{
    Ok(Look {
        table,
        before: nulls(alloc, before)?,
        conds: members(alloc, before, width, &branch.cond)?,
        columns: branch_columns(alloc, before, width, branch)?,
    })
}

/// The number of columns of a table.
fn width(catalog: &Catalog, table: u32) -> usize
    ensures { result ≡ width_of catalog.now table }
{
    if table < catalog.len() {
        catalog.table(table).cols.as_slice().len()
    } else {
        0
    }
}

/// The number of columns up to the end of a table. One that overflows is of more columns than memory holds.
fn end_of(before: usize, width: usize) -> Result<usize, NoMemory>
    ensures { IfOk result (λ end. end ≡ before + width) }
{
    before.checked_add(width).ok_or(NoMemory)
}

/// Appends the looks of a SELECT.
fn push_branch<'a>(
    alloc: Global,
    catalog: &Catalog,
    branch: &'a Branch,
    looks: &mut Vec<Look<'a>>,
) -> Result<(), NoMemory>
    requires { IsSimpleBranch branch.now }
    ensures ready { AreReady looks.old.items → OnOk result (AreReady looks.new.items) }
    ensures looks { OnOk result (map look_view looks.new.items
        ≡ map look_view looks.old.items ++ m.branch_looks catalog.now (branch_view branch.now)) }
{
    let mut before: usize = 0;
    for table in branch.from.as_slice() {
        let width = width(catalog, *table);
        looks.push(item_look(alloc, *table, before, width, branch)?)?;
        before = end_of(before, width)?;
    }
    Ok(())
}

/// The looks of a query.
fn query_looks<'a>(
    alloc: Global,
    catalog: &Catalog,
    branches: &'a [Branch],
) -> Result<Vec<Look<'a>>, NoMemory>
    requires { AreSimpleBranches branches.now }
    ensures looks { IfOk result (λ looks. map look_view looks.items
        ≡ flat_map (m.branch_looks catalog.now) (map branch_view branches.now)) }
    ensures ready { IfOk result (λ looks. AreReady looks.items) }
{
    let mut looks = Vec::new(alloc);
    for branch in branches {
        push_branch(alloc, catalog, branch, &mut looks)?;
    }
    Ok(looks)
}

/// The look of an UPDATE or a DELETE.
fn table_looks<'a>(
    alloc: Global,
    catalog: &Catalog,
    table: u32,
    sets: &[SetExpr],
    cond: &'a Cond,
) -> Result<Vec<Look<'a>>, NoMemory>
    requires sets { AreSimpleSets sets.now }
    requires cond { cond_is_simple (cond_view cond.now) ≡ true }
    ensures looks { IfOk result (λ looks. map look_view looks.items
        ≡ m.table_look catalog.now table (cond_view cond.now)
        (m.occurs_in_update (map set_view sets.now) (cond_view cond.now)) ∷ []) }
    ensures ready { IfOk result (λ looks. AreReady looks.items) }
{
    let columns = table_columns(alloc, width(catalog, table), sets, cond)?;
    let mut conds = Vec::new(alloc);
    conds.push(cond)?;
    let mut looks = Vec::new(alloc);
    looks.push(Look {
        table,
        before: Vec::new(alloc),
        conds,
        columns,
    })?;
    Ok(looks)
}

/// What a statement looks at: an UPDATE or a DELETE at its table with its WHERE, a query at the table of each item of each FROM, with those
/// members of the WHERE that are about the item alone. The columns of an item are those that occur anywhere in its block.
pub fn looks_of<'a>(
    alloc: Global,
    catalog: &Catalog,
    stmt: &'a Stmt,
) -> Result<Vec<Look<'a>>, NoMemory>
    requires { statement_fits catalog.now (statement_view stmt.now) ≡ true }
    ensures looks { IfOk result (λ looks. map look_view looks.items
        ≡ m.looks catalog.now (statement_view stmt.now)) }
    ensures ready { IfOk result (λ looks. AreReady looks.items) }
{
    match stmt {
        Stmt::Insert { .. } => Ok(Vec::new(alloc)),
        Stmt::Update { table, sets, cond } => {
            table_looks(alloc, catalog, *table, sets.as_slice(), cond)
        }
        Stmt::Delete { table, cond } => table_looks(alloc, catalog, *table, &[], cond),
        Stmt::InsertSelect { select, .. } => {
            query_looks(alloc, catalog, select.branches.as_slice())
        }
        Stmt::Read { select } => query_looks(alloc, catalog, select.branches.as_slice()),
    }
}
