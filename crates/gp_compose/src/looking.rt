//! Programs of the rows by which one looks at a statement.

ghost use Rattle.std.specs.Prelude.{◌≡◌, ◌<◌, ◌+◌, ◌^◌, length, map, IfOk};
ghost use Rattle.gp_algebra.specs.AnnotatedQueries as q;
ghost use Rattle.gp_algebra.specs.QueryViews.{annotated_program_view, annotated_view};
ghost use Rattle.gp_algebra.specs.Views.{statement_view};
ghost use Rattle.gp_expr.specs.Views.{cond_view};
ghost use Rattle.gp_rewrite.specs.RewritingForms.{query_at};
ghost use Rattle.gp_compose.specs.Composing as c;
ghost use Rattle.gp_compose.specs.Composing.{HasStatement, looking_in};
ghost use Rattle.gp_compose.specs.Composition.{HasTable};

use crate::steps::{Parts, composed};
use gp_algebra::{AProgram, AQuery, Stmt, copy_query};
use gp_base::NoMemory;
use gp_expr::{Cond, copy_cond};
use gp_log::Log;
use std::alloc::Global;

/// The rows of the query of a table for which the condition is true.
fn chosen(alloc: Global, tables: &[AQuery], table: u32, cond: &Cond) -> Result<AQuery, NoMemory>
    requires { table < length tables.now }
    ensures { IfOk result (λ found. annotated_view found
        ≡ q.select (query_at (map annotated_view tables.now) table) (cond_view cond.now)) }
{
    let input = copy_query(alloc, &tables[table as usize])?;
    let cond = copy_cond(alloc, cond)?;
    Ok(AQuery::Filter {
        input: Box::new(alloc, input)?,
        cond,
    })
}

/// The rows by which one looks at statement k, given the queries of the tables that it reads.
fn looking(alloc: Global, k: u32, stmt: &Stmt, tables: &[AQuery]) -> Result<AQuery, NoMemory>
    requires { HasTable (length tables.now) (statement_view stmt.now) }
    ensures { IfOk result (λ found. annotated_view found
        ≡ c.looking k (query_at (map annotated_view tables.now)) (statement_view stmt.now)) }
{
    match stmt {
        Stmt::Insert { .. } | Stmt::InsertSelect { .. } => Ok(AQuery::Step { j: k }),
        Stmt::Update { table, cond, .. } => chosen(alloc, tables, *table, cond),
        Stmt::Delete { table, cond } => chosen(alloc, tables, *table, cond),
        Stmt::Read { .. } => Ok(AQuery::Scan {
            table: 0,
            version: 0,
        }),
    }
}

/// The program of the rows by which one looks at the statement of a transaction behind so many others, whatever became of the
/// transaction: the rows that an UPDATE or a DELETE is about, as they were before it, or the table that an INSERT leaves. The log has
/// the statement, and its statements have been checked. Running out of memory is the only error.
pub fn looked(
    alloc: Global,
    log: &Log,
    t: u32,
    before: u32,
    stmt: &Stmt,
) -> Result<AProgram, NoMemory>
    requires statement { HasStatement log.now t before (statement_view stmt.now) }
    requires more { before + 1 < 2 ^ 32 }
    ensures { IfOk result (λ program. annotated_program_view program
        ≡ looking_in log.now t before (statement_view stmt.now)) }
{
    log.bounds();
    let k = before + 1;
    let mut parts = composed(alloc, log, t, log.begin_version(t), before)?;
    parts.move_to(alloc, log.version_read_by(t, k))?;
    let last = looking(alloc, k, stmt, &parts.tables)?;
    parts.add(alloc, t, stmt, log.catalog())?;
    let Parts { steps, .. } = parts;
    Ok(AProgram { steps, last })
}
