//! The cells that the conditions of a transaction ask for, by which the rows that it may write or make rows of are found.

ghost use Rattle.std.specs.Prelude.{◌≡◌, true, false, List, map, IfOk, IfSome, OnOk};
ghost use Rattle.std.specs.List.{list_all};
ghost use Rattle.gp_algebra.specs.Views.{branch_view, select_view, statement_view};
ghost use Rattle.gp_base.specs.declared.cell.Cell.{Cell};
ghost use Rattle.gp_expr.specs.Values.{passes};
ghost use Rattle.gp_expr.specs.Views.{cond_view};
ghost use Rattle.gp_history.specs.Narrowing as n;
ghost use Rattle.gp_history.specs.Seeking.{Grows, HasOne};

use crate::inert::is_among;
use gp_algebra::{Branch, Select, Stmt};
use gp_base::NoMemory;
use gp_expr::Cond;
use gp_txn::equated;
use gp_versions::InColumn;
use std::alloc::Global;

/// Appends the cell that the rows have which the condition is true of. False if none is known.
fn push_equated<'a>(cells: &mut Vec<InColumn<'a>>, cond: &'a Cond) -> Result<bool, NoMemory>
    ensures kept { OnOk result (Grows cells.old.items cells.new.items) }
    ensures sought { IfOk result (λ known. known ≡ true → (row : List Cell)
        → passes (cond_view cond.now) row ≡ true → HasOne row cells.new.items) }
{
    match equated(cond) {
        Some(found) => {
            cells.push(InColumn {
                column: found.column,
                cell: found.cell,
            })?;
            Ok(true)
        }
        None => Ok(false),
    }
}

/// Appends the cell that the rows of the table have which a SELECT makes rows of. False if none is known.
fn push_branch<'a>(
    cells: &mut Vec<InColumn<'a>>,
    branch: &'a Branch,
    table: u32,
) -> Result<bool, NoMemory>
    ensures kept { OnOk result (Grows cells.old.items cells.new.items) }
    ensures sought { IfOk result (λ known. known ≡ true → (row : List Cell)
        → n.skips table row (branch_view branch.now) ≡ false → HasOne row cells.new.items) }
{
    let from = branch.from.as_slice();
    if !is_among(from, table) {
        return Ok(true);
    }
    if from.len() != 1 {
        return Ok(false);
    }
    match &branch.cond {
        Some(cond) => push_equated(cells, cond),
        None => Ok(false),
    }
}

/// Appends the cells that the rows of the table have which a query makes rows of. False if none is known.
fn push_select<'a>(
    cells: &mut Vec<InColumn<'a>>,
    select: &'a Select,
    table: u32,
) -> Result<bool, NoMemory>
    ensures kept { OnOk result (Grows cells.old.items cells.new.items) }
    ensures sought { IfOk result (λ known. known ≡ true → (row : List Cell)
        → list_all (n.skips table row) (select_view select.now) ≡ false
        → HasOne row cells.new.items) }
{
    for branch in select.branches.as_slice() {
        if !push_branch(cells, branch, table)? {
            return Ok(false);
        }
    }
    Ok(true)
}

/// Appends the cells that the rows of the table have which a statement writes or makes rows of. False if none is known.
fn push_statement<'a>(
    cells: &mut Vec<InColumn<'a>>,
    stmt: &'a Stmt,
    table: u32,
) -> Result<bool, NoMemory>
    ensures kept { OnOk result (Grows cells.old.items cells.new.items) }
    ensures sought { IfOk result (λ known. known ≡ true → (row : List Cell)
        → n.leaves table row (statement_view stmt.now) ≡ false → HasOne row cells.new.items) }
{
    match stmt {
        Stmt::Insert { .. } | Stmt::Read { .. } => Ok(true),
        Stmt::InsertSelect { select, .. } => push_select(cells, select, table),
        Stmt::Update {
            table: other,
            cond,
            ..
        }
        | Stmt::Delete { table: other, cond } => {
            if *other == table {
                push_equated(cells, cond)
            } else {
                Ok(true)
            }
        }
    }
}

/// The cells that the rows of the table have which a transaction writes or makes rows of, or None if they are not known.
pub fn cells_for<'a>(
    alloc: Global,
    statements: &[&'a Stmt],
    table: u32,
) -> Result<Option<Vec<InColumn<'a>>>, NoMemory>
    ensures { IfOk result (λ found. IfSome found (λ cells. (row : List Cell)
        → list_all (n.leaves table row) (map (λ stmt. statement_view stmt.now) statements.now) ≡ false
        → HasOne row cells.items)) }
{
    let mut cells = Vec::new(alloc);
    for stmt in statements {
        if !push_statement(&mut cells, *stmt, table)? {
            return Ok(None);
        }
    }
    Ok(Some(cells))
}
