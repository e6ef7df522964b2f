//! The items of a SELECT, which are appended piece by piece. If memory runs out, a part is appended.

ghost use Rattle.std.specs.Prelude.{◌≡◌, ◌+◌, ◌++◌, ◌∷◌, [], codes, drop, length, map, suc, IfOk, OnOk};
ghost use Rattle.std.specs.Fmt.{decimal};
ghost use Rattle.std.specs.List.{concat};
ghost use Rattle.gp_expr.specs.Views.{expr_view};
ghost use Rattle.gp_sql.specs.ItemTexts.{columns_text, name_text, separator, stored_text};
ghost use Rattle.gp_sql.specs.Spelling as p;
ghost use Rattle.gp_sql.specs.Translation as t;

use crate::cell_type::CellType;
use crate::cell_writer::{push_cell, push_number};
use crate::term_writer::push_expr;
use gp_base::{Catalog, Cell, Column, NoMemory, append_all};
use gp_expr::Expr;
use std::alloc::Global;

/// The next number. There is no memory for a text with more numbers than these.
pub(crate) fn next(n: u64) -> Result<u64, NoMemory>
    ensures { IfOk result (λ next. next ≡ suc n) }
{
    n.checked_add(1).ok_or(NoMemory)
}

/// Appends what stands before an item behind so many others.
fn push_separator(n: u64, out: &mut Vec<u8>) -> Result<(), NoMemory>
    ensures { OnOk result (out.new.items ≡ out.old.items ++ separator n) }
{
    if n == 0 {
        return Ok(());
    }
    append_all(out, &[b", "])
}

/// Appends the name of an item behind so many others, and returns how many there are with it.
fn push_name(alloc: Global, n: u64, out: &mut Vec<u8>) -> Result<u64, NoMemory>
    ensures number { IfOk result (λ next. next ≡ suc n) }
    ensures text { OnOk result (out.new.items ≡ out.old.items ++ name_text n) }
{
    let next = next(n)?;
    let text = next.to_string(alloc)?;
    append_all(out, &[b" AS c", text.as_bytes()])?;
    Ok(next)
}

fn due_at(due: &[CellType], place: usize) -> CellType
    ensures { result ≡ t.first_due (drop place due.now) }
{
    due.get(place).copied().unwrap_or(CellType::Null)
}

/// Appends an expression behind so many other items.
fn push_expr_item(
    alloc: Global,
    catalog: &Catalog,
    types: &[CellType],
    due: &[CellType],
    n: usize,
    expr: &Expr,
    out: &mut Vec<u8>,
) -> Result<(), NoMemory>
    ensures { OnOk result (out.new.items ≡ out.old.items ++ concat (separator n
        ∷ p.term_text catalog.now (t.expr_term types.now (t.first_due (drop n due.now))
        (expr_view expr.now)) ∷ name_text n ∷ [])) }
{
    push_separator(n as u64, out)?;
    push_expr(alloc, catalog, types, due_at(due, n), expr, out)?;
    push_name(alloc, n as u64, out)?;
    Ok(())
}

/// Appends expressions over columns of these types, of the types that are due.
pub(crate) fn push_exprs(
    alloc: Global,
    catalog: &Catalog,
    types: &[CellType],
    due: &[CellType],
    exprs: &[Expr],
    out: &mut Vec<u8>,
) -> Result<(), NoMemory>
    ensures { OnOk result (out.new.items ≡ out.old.items ++ p.named_text catalog.now 1
        (t.exprs_terms types.now due.now (map expr_view exprs.now))) }
{
    for (n, expr) in exprs.iter().enumerate() {
        push_expr_item(alloc, catalog, types, due, n, expr, out)?;
    }
    Ok(())
}

/// Appends a cell behind so many other items.
fn push_cell_item(
    alloc: Global,
    due: &[CellType],
    n: usize,
    cell: &Cell,
    out: &mut Vec<u8>,
) -> Result<(), NoMemory>
    ensures { OnOk result (out.new.items ≡ out.old.items ++ concat (separator n
        ∷ p.term_text [] (t.cell_term (t.first_due (drop n due.now)) cell.now)
        ∷ name_text n ∷ [])) }
{
    push_separator(n as u64, out)?;
    push_cell(alloc, due_at(due, n), cell, out)?;
    push_name(alloc, n as u64, out)?;
    Ok(())
}

/// Appends cells, of the types that are due.
pub(crate) fn push_cells(
    alloc: Global,
    due: &[CellType],
    cells: &[Cell],
    out: &mut Vec<u8>,
) -> Result<(), NoMemory>
    ensures { OnOk result (out.new.items ≡ out.old.items
        ++ p.named_text [] 1 (t.cells_terms due.now cells.now)) }
{
    for (n, cell) in cells.iter().enumerate() {
        push_cell_item(alloc, due, n, cell, out)?;
    }
    Ok(())
}

/// Appends a column of a source, behind so many others of it, and behind so many items.
fn push_column(
    alloc: Global,
    prefix: &[u8],
    n: u64,
    others: u64,
    out: &mut Vec<u8>,
) -> Result<u64, NoMemory>
    ensures number { IfOk result (λ next. next ≡ suc n) }
    ensures text { OnOk result (out.new.items ≡ out.old.items
        ++ concat (separator n ∷ prefix.now ∷ codes "c" ∷ decimal (suc others) ∷ name_text n ∷ [])) }
{
    push_separator(n, out)?;
    let column = next(others)?.to_string(alloc)?;
    append_all(out, &[prefix, b"c", column.as_bytes()])?;
    push_name(alloc, n, out)
}

/// Appends the columns of a source, which have these types, behind so many items, and returns how many there are with them.
pub(crate) fn push_columns(
    alloc: Global,
    prefix: &[u8],
    before: u64,
    types: &[CellType],
    out: &mut Vec<u8>,
) -> Result<u64, NoMemory>
    ensures number { IfOk result (λ next. next ≡ before + length types.now) }
    ensures text { OnOk result (out.new.items
        ≡ out.old.items ++ columns_text prefix.now before 1 (length types.now)) }
{
    let mut n = before;
    for (others, _) in types.iter().enumerate() {
        n = push_column(alloc, prefix, n, others as u64, out)?;
    }
    Ok(n)
}

/// Appends a column of a table behind so many items.
fn push_stored_column(
    alloc: Global,
    n: u64,
    column: &Column,
    out: &mut Vec<u8>,
) -> Result<(), NoMemory>
    ensures { OnOk result (out.new.items ≡ out.old.items
        ++ concat (separator n ∷ codes "\"" ∷ column.now.name ∷ codes "\"" ∷ name_text n ∷ [])) }
{
    push_separator(n, out)?;
    append_all(out, &[b"\"", column.name.as_bytes(), b"\""])?;
    push_name(alloc, n, out)?;
    Ok(())
}

/// Appends the identity and the mark of a row version behind so many items.
fn push_identity_and_mark(alloc: Global, n: u64, out: &mut Vec<u8>) -> Result<(), NoMemory>
    ensures { OnOk result (out.new.items ≡ out.old.items ++ stored_text n []) }
{
    push_separator(n, out)?;
    append_all(out, &[b"\"$id\""])?;
    let more = push_name(alloc, n, out)?;
    append_all(out, &[b", "])?;
    push_number(alloc, 0, out)?;
    push_name(alloc, more, out)?;
    Ok(())
}

/// Appends the columns of a table, the identity and the mark.
pub(crate) fn push_stored(
    alloc: Global,
    columns: &[Column],
    out: &mut Vec<u8>,
) -> Result<(), NoMemory>
    ensures { OnOk result (out.new.items ≡ out.old.items ++ stored_text 0 columns.now) }
{
    for (n, column) in columns.iter().enumerate() {
        push_stored_column(alloc, n as u64, column, out)?;
    }
    push_identity_and_mark(alloc, columns.len() as u64, out)
}
