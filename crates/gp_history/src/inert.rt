//! Rows that a statement does not look at any further: it neither writes them nor makes rows of them.

ghost use Rattle.std.specs.Prelude.{◌≡◌, true, map, Some};
ghost use Rattle.std.specs.List.{list_all, list_any};
ghost use Rattle.std.specs.Option.{option_map};
ghost use Rattle.gp_algebra.specs.Simple.{branch_is_simple, select_is_simple, where_is_simple};
ghost use Rattle.gp_algebra.specs.Views.{branch_view, select_view, statement_view};
ghost use Rattle.gp_expr.specs.Views.{cond_view};
ghost use Rattle.gp_compose.specs.Composed.{writes};
ghost use Rattle.gp_history.specs.Narrowing as n;

use gp_algebra::{Branch, Select, Stmt};
use gp_base::Row;
use gp_expr::{Cond, truth};

/// Whether a table is one of these.
pub fn is_among(tables: &[u32], table: u32) -> bool
    ensures { result ≡ n.is_among table tables.now }
{
    tables.iter().any(|other| *other == table)
}

/// Whether the condition is there, and is not true.
fn is_refused(cond: &Option<Cond>, row: &Row) -> bool
    requires { where_is_simple (option_map cond_view cond.now) ≡ true }
    ensures { result ≡ n.is_refused (option_map cond_view cond.now) row.now }
{
    match cond {
        Some(cond) => !truth(cond, row).holds(),
        None => false,
    }
}

/// Whether a SELECT makes no row of a row of the table: it does not read the table, or it reads nothing else, and its condition is not
/// true. Rows that a join reads are not looked at one by one.
fn branch_skips(branch: &Branch, table: u32, row: &Row) -> bool
    requires { branch_is_simple (branch_view branch.now) ≡ true }
    ensures { result ≡ n.skips table row.now (branch_view branch.now) }
{
    let from = branch.from.as_slice();
    if !is_among(from, table) {
        return true;
    }
    from.len() == 1 && is_refused(&branch.cond, row)
}

/// Whether no SELECT of a query makes a row of this one.
fn select_skips(select: &Select, table: u32, row: &Row) -> bool
    requires { select_is_simple (select_view select.now) ≡ true }
    ensures { result ≡ list_all (n.skips table row.now) (select_view select.now) }
{
    for branch in select.branches.as_slice() {
        if !branch_skips(branch, table, row) {
            return false;
        }
    }
    true
}

/// Whether a statement neither writes a row of the table nor makes one of it.
fn leaves(stmt: &Stmt, table: u32, row: &Row) -> bool
    requires { n.tests_are_simple (statement_view stmt.now) ≡ true }
    ensures { result ≡ n.leaves table row.now (statement_view stmt.now) }
{
    match stmt {
        Stmt::Insert { .. } | Stmt::Read { .. } => true,
        Stmt::InsertSelect { select, .. } => select_skips(select, table, row),
        Stmt::Update {
            table: other,
            cond,
            ..
        }
        | Stmt::Delete { table: other, cond } => *other != table || !truth(cond, row).holds(),
    }
}

/// Whether no statement of a transaction writes the row or makes one of it.
pub fn all_leave(statements: &[&Stmt], table: u32, row: &Row) -> bool
    requires { list_all n.tests_are_simple
        (map (λ stmt. statement_view stmt.now) statements.now) ≡ true }
    ensures { result ≡ list_all (n.leaves table row.now)
        (map (λ stmt. statement_view stmt.now) statements.now) }
{
    for stmt in statements {
        if !leaves(stmt, table, row) {
            return false;
        }
    }
    true
}

/// Whether the condition is the one that is always true.
fn is_always(cond: &Cond) -> bool
    ensures { result ≡ n.is_always (cond_view cond.now) }
{
    match cond {
        Cond::True => true,
        _ => false,
    }
}

/// Whether a SELECT passes over no row of the table: it reads it, and joins it or has no WHERE.
fn branch_takes(branch: &Branch, table: u32) -> bool
    ensures { result ≡ n.takes table (branch_view branch.now) }
{
    let from = branch.from.as_slice();
    is_among(from, table) && (from.len() != 1 || branch.cond.is_none())
}

/// Whether one of the SELECTs of a query passes over no row of the table.
fn select_takes(select: &Select, table: u32) -> bool
    ensures { result ≡ list_any (n.takes table) (select_view select.now) }
{
    for branch in select.branches.as_slice() {
        if branch_takes(branch, table) {
            return true;
        }
    }
    false
}

/// Whether a statement leaves no row of the table as it is, whatever its cells are.
fn sweeps(stmt: &Stmt, table: u32) -> bool
    ensures { result ≡ n.sweeps table (statement_view stmt.now) }
{
    match stmt {
        Stmt::Insert { .. } | Stmt::Read { .. } => false,
        Stmt::InsertSelect { select, .. } => select_takes(select, table),
        Stmt::Update {
            table: other,
            cond,
            ..
        }
        | Stmt::Delete { table: other, cond } => *other == table && is_always(cond),
    }
}

/// Whether one of the statements of a transaction leaves no row of the table as it is, so that they need not be tested one by one.
pub fn are_swept(statements: &[&Stmt], table: u32) -> bool
    ensures { result ≡ list_any (n.sweeps table)
        (map (λ stmt. statement_view stmt.now) statements.now) }
{
    for stmt in statements {
        if sweeps(stmt, table) {
            return true;
        }
    }
    false
}

/// Whether a statement writes the table.
fn is_write(stmt: &Stmt, table: u32) -> bool
    ensures { result ≡ writes (Some (statement_view stmt.now)) table }
{
    match stmt {
        Stmt::Insert { table: other, .. }
        | Stmt::InsertSelect { table: other, .. }
        | Stmt::Update { table: other, .. }
        | Stmt::Delete { table: other, .. } => table == *other,
        Stmt::Read { .. } => false,
    }
}

/// Whether one of the statements of a transaction writes the table.
pub fn write_to(statements: &[&Stmt], table: u32) -> bool
    ensures { result ≡ list_any (λ stmt. writes (Some stmt) table)
        (map (λ stmt. statement_view stmt.now) statements.now) }
{
    for stmt in statements {
        if is_write(stmt, table) {
            return true;
        }
    }
    false
}

/// Whether it is an INSERT into the table.
fn is_insert_into(stmt: &Stmt, table: u32) -> bool
    ensures { result ≡ n.inserts_into table (statement_view stmt.now) }
{
    match stmt {
        Stmt::Insert { table: into, .. } | Stmt::InsertSelect { table: into, .. } => *into == table,
        Stmt::Update { .. } | Stmt::Delete { .. } | Stmt::Read { .. } => false,
    }
}

/// Whether an INSERT into the table is among these.
pub fn insert_into(statements: &[&Stmt], table: u32) -> bool
    ensures { result ≡ list_any (n.inserts_into table)
        (map (λ stmt. statement_view stmt.now) statements.now) }
{
    for stmt in statements {
        if is_insert_into(stmt, table) {
            return true;
        }
    }
    false
}
