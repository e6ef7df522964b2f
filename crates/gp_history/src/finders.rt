//! The finders of the row versions of all tables.

ghost use Rattle.std.specs.Prelude.{◌≡◌, IfOk};
ghost use Rattle.gp_reenact.specs.Reenacting.{spans_of};
ghost use Rattle.gp_versions.specs.Finding.{IsFinder};
ghost use Rattle.gp_history.specs.Seeking.{AreFinders};

use crate::narrowed::statements_of;
use crate::sought::cells_for;
use crate::spans::spans_in;
use gp_algebra::Stmt;
use gp_base::NoMemory;
use gp_log::Log;
use gp_versions::{Finder, InColumn, Span, VersionTable};
use std::alloc::Global;

/// A finder of each table.
pub fn finders_of(alloc: Global, versions: &[VersionTable]) -> Result<Vec<Finder>, NoMemory>
    ensures { IfOk result (λ finders. AreFinders (spans_of versions.now) finders.items) }
{
    let mut finders = Vec::new(alloc);
    for table in 0..versions.len() {
        finders.push(Finder::new(alloc, spans_in(versions, table))?)?;
    }
    Ok(finders)
}

/// Asks a finder for indexes of the columns of these cells.
fn enter_cells(finder: &mut Finder, spans: &[Span], cells: &[InColumn<'_>]) -> Result<(), NoMemory>
    requires { IsFinder spans.now finder.old }
    ensures { IsFinder spans.now finder.new }
{
    for cell in cells {
        finder.enter_column(spans, cell.column)?;
    }
    Ok(())
}

/// Asks the finder of a table for indexes of the columns in which the conditions of these statements ask for cells.
fn enter_table(
    alloc: Global,
    versions: &[VersionTable],
    finders: &mut Vec<Finder>,
    statements: &[&Stmt],
    table: u32,
) -> Result<(), NoMemory>
    requires { AreFinders (spans_of versions.now) finders.old.items }
    ensures { AreFinders (spans_of versions.now) finders.new.items }
{
    let at = table as usize;
    if at < finders.len() {
        if let Some(cells) = cells_for(alloc, statements, table)? {
            enter_cells(&mut finders[at], spans_in(versions, at), &cells)?;
        }
    }
    Ok(())
}

/// Asks the finders for indexes of the columns in which the conditions of a transaction ask for cells.
pub fn enter_commit(
    alloc: Global,
    log: &Log,
    versions: &[VersionTable],
    finders: &mut Vec<Finder>,
    t: u32,
) -> Result<(), NoMemory>
    requires { AreFinders (spans_of versions.now) finders.old.items }
    ensures { AreFinders (spans_of versions.now) finders.new.items }
{
    if finders.is_empty() {
        return Ok(());
    }
    let statements = statements_of(alloc, log, t)?;
    for table in 0..log.catalog().len() {
        enter_table(alloc, versions, finders, &statements, table)?;
    }
    Ok(())
}
