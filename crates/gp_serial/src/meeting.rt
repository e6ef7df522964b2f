//! Whether a statement looks at a row that was changed.

ghost use Rattle.std.specs.Prelude.{◌≡◌, Some, true, false, map, slice_get};
ghost use Rattle.std.specs.List.{list_any};
ghost use Rattle.std.specs.Option.{option_map, option_map_or};
ghost use Rattle.gp_machine.specs.Looks as l;
ghost use Rattle.gp_machine.specs.Precedence as m;
ghost use Rattle.gp_serial.specs.Changes.{change_view};
ghost use Rattle.gp_serial.specs.LookViews.{look_view};
ghost use Rattle.gp_serial.specs.Meetings.{AreReady, IsReady};

use crate::changes::RowChange;
use crate::looks::Look;
use gp_base::{Cell, Row};
use gp_expr::truth_beside;
use std::cmp::Ordering;

/// Whether the conditions of a look are true of a row.
fn sees(look: &Look<'_>, row: &Row) -> bool
    requires { IsReady look.now }
    ensures { result ≡ l.sees (look_view look.now) row.now }
{
    for cond in &look.conds {
        if !truth_beside(cond, &look.before, row.cells()).holds() {
            return false;
        }
    }
    true
}

/// Whether they are true of a side of a change.
fn sees_side(look: &Look<'_>, side: Option<&Row>) -> bool
    requires { IsReady look.now }
    ensures { result ≡ option_map_or (l.sees (look_view look.now))
        (option_map (λ row. row.now) side.entry) false }
{
    match side {
        Some(row) => sees(look, row),
        None => false,
    }
}

/// Whether both cells are there, and differ.
fn cell_differs(cell: Option<&Cell>, other: Option<&Cell>) -> bool
    ensures { result ≡ m.cell_differs (option_map (λ cell. cell.now) cell.entry)
        (option_map (λ cell. cell.now) other.entry) }
{
    match (cell, other) {
        (Some(cell), Some(other)) => cell.cmp(other) != Ordering::Equal,
        _ => false,
    }
}

/// Whether two rows differ in a column.
fn differs_at(row: &Row, other: &Row, column: usize) -> bool
    ensures { result ≡ m.cell_differs (slice_get row.now column) (slice_get other.now column) }
{
    cell_differs(row.cells().get(column), other.cells().get(column))
}

/// Whether two rows differ in one of these columns.
fn rows_differ_in(columns: &[usize], row: &Row, other: &Row) -> bool
    ensures { result ≡ m.side_differs_in columns.now (Some row.now) (Some other.now) }
{
    for column in columns {
        if differs_at(row, other, *column) {
            return true;
        }
    }
    false
}

/// Whether a commit left a row with other cells in one of these columns, or made or deleted it.
fn differs_in(columns: &[usize], change: &RowChange<'_>) -> bool
    ensures { result
        ≡ m.side_differs_in columns.now (change_view change.now).before (change_view change.now).after }
{
    match (change.before, change.after) {
        (Some(before), Some(after)) => rows_differ_in(columns, before, after),
        _ => true,
    }
}

/// Whether a look meets a change: its conditions are true of the cells before or of those after, and the row is missing before
/// or after, or differs in a column of the look.
pub fn meets(look: &Look<'_>, change: &RowChange<'_>) -> bool
    requires { IsReady look.now }
    ensures { result ≡ m.meets (change_view change.now) (look_view look.now) }
{
    change.table == look.table
        && (differs_in(&look.columns, change)
            && (sees_side(look, change.before) || sees_side(look, change.after)))
}

/// Whether a statement with these looks looks at a row that was changed.
pub(crate) fn meets_any(looks: &[Look<'_>], change: &RowChange<'_>) -> bool
    requires { AreReady looks.now }
    ensures { result ≡ list_any (m.meets (change_view change.now)) (map look_view looks.now) }
{
    for look in looks {
        if meets(look, change) {
            return true;
        }
    }
    false
}
