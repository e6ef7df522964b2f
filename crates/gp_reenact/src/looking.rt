//! What any transaction saw, and the rows by which one looks at a statement of it, whatever became of the transaction.

ghost use Rattle.std.specs.Prelude.{◌≡◌, ◌<◌, ◌+◌, ◌^◌, None, true};
ghost use Rattle.gp_algebra.specs.PlainViews.{program_view};
ghost use Rattle.gp_algebra.specs.Views.{select_view, statement_view};
ghost use Rattle.gp_algebra.specs.WellBuilt.{is_well_built};
ghost use Rattle.gp_compose.specs.Composing.{HasStatement, QueryFits};
ghost use Rattle.gp_compose.specs.Seen as s;
ghost use Rattle.gp_log.specs.Contents.{entries, tables};
ghost use Rattle.gp_log.specs.LogFitting.{SpansFit};
ghost use Rattle.gp_log.specs.Parameters.{parameters};
ghost use Rattle.gp_machine.specs.Questions.{is_known};
ghost use Rattle.gp_base.specs.Annotated.{unannotated};
ghost use Rattle.gp_reenact.specs.Encoding.{encoded};
ghost use Rattle.gp_reenact.specs.Travel.{past_environment};
ghost use Rattle.gp_reenact.specs.Backends.{ReenactsBy};
ghost use Rattle.gp_reenact.specs.Looking.{saw_answer};
ghost use Rattle.gp_reenact.specs.LookingForms.{EndsInTable, Looks, looked_answer, looked_program, saw_program};
ghost use Rattle.gp_reenact.specs.Reenacting.{Plans, Reenacts, spans_of};

use crate::env::env_at;
use crate::replay::{merged_program, rows_over, stopped};
use crate::scan_laws::asked_scans_suffice;
use gp_algebra::{PProgram, Select, Stmt, scans};
use gp_base::{MAX_TABLE_ROWS, Refusal, Row, Stop};
use gp_compose::{check_seen, check_statement, seen};
use gp_exec::{Backend, ExecStop, Plain, run_table};
use gp_log::Log;
use gp_versions::VersionTable;
use std::alloc::Global;

/// The refusal of a SAW by the log: E20 if no transaction has the number, E22 if it has not so many statements. A transaction that did
/// not commit is not refused.
pub fn saw_refusal(log: &Log, t: u64, k: u64) -> Option<Refusal>
    ensures { result ≡ s.saw_refusal t k (entries log.now) }
{
    match check_seen(log, t, k) {
        Ok(()) => None,
        Err(refusal) => Some(refusal),
    }
}

/// The refusal of a CHANGES of a statement by the log: E20 if no transaction has the number, E22 if it has no such statement.
pub fn changes_refusal(log: &Log, t: u64, k: u64) -> Option<Refusal>
    ensures { result ≡ s.changes_refusal t k (entries log.now) }
{
    match check_statement(log, t, k) {
        Ok(()) => None,
        Err(refusal) => Some(refusal),
    }
}

/// The merged program of a query over what a transaction saw after its first statements. Refused as [`saw_refusal`] refuses it.
pub fn planned_saw(
    alloc: Global,
    log: &Log,
    t: u64,
    k: u64,
    select: &Select,
) -> Result<PProgram, Stop>
    requires { QueryFits log.now (select_view select.now) }
    ensures { Plans program_view result (s.saw_refusal t k (entries log.now))
        (saw_program (entries log.now) t k (select_view select.now)) }
{
    // What may fail borrows the program, which has many parts: each way out that owns it lets them all go.
    match seen(alloc, log, t, k, select) {
        Ok(program) => merged_program(alloc, log, &program, false),
        Err(Stop::Refused(refusal)) => Err(Stop::Refused(refusal)),
        Err(Stop::NoMemory) => Err(Stop::NoMemory),
    }
}

/// The number of a transaction that the log has.
fn number_of(log: &Log, t: u64) -> u32
    requires { is_known t (entries log.now) ≡ true }
    ensures { result ≡ t }
{
    log.bounds();
    t as u32
}

/// What a backend gives for a query over what a transaction saw after its first statements, this many.
fn saw_by<B: Backend>(
    alloc: Global,
    log: &Log,
    versions: &[VersionTable],
    t: u64,
    k: u64,
    select: &Select,
    backend: &B,
) -> Result<Vec<Row>, Stop>
    requires { QueryFits log.now (select_view select.now) }
    ensures { ReenactsBy (λ rows. rows.items) (B.gives backend.now) result
        (s.saw_refusal t k (entries log.now)) t
        (saw_program (entries log.now) t k (select_view select.now))
        (encoded (past_environment unannotated versions.now)) }
{
    let planned = planned_saw(alloc, log, t, k, select)?;
    match rows_over(alloc, versions, &planned, backend) {
        Ok(rows) => Ok(rows),
        Err(stop) => Err(stopped(number_of(log, t), stop)),
    }
}

/// The rows of a query over what a transaction saw after its first statements, this many, in no particular order, whatever became of
/// the transaction. The log and the row versions have been checked against the tables of the log, and so has the query.
///
/// Refused as [`saw_refusal`] refuses it; else as [`reenact`](crate::reenact) refuses a statement of a transaction that committed: E25,
/// E26 and E27.
pub fn saw(
    alloc: Global,
    log: &Log,
    versions: &[VersionTable],
    t: u64,
    k: u64,
    select: &Select,
) -> Result<Vec<Row>, Stop>
    requires query { QueryFits log.now (select_view select.now) }
    requires spans { SpansFit (tables log.now) (spans_of versions.now) }
    ensures { Reenacts (λ rows. rows.items) result (saw_answer parameters (entries log.now)
        (spans_of versions.now) t k (select_view select.now)) }
{
    saw_by(alloc, log, versions, t, k, select, &Plain)
}

/// The merged program of the rows by which one looks at a statement that writes a table.
fn planned_look(
    alloc: Global,
    log: &Log,
    t: u32,
    before: u32,
    stmt: &Stmt,
) -> Result<PProgram, Stop>
    requires statement { HasStatement log.now t before (statement_view stmt.now) }
    requires more { before + 1 < 2 ^ 32 }
    requires writes { s.writes (statement_view stmt.now) ≡ true }
    ensures { Plans program_view result None
        (looked_program (entries log.now) t before (statement_view stmt.now)) }
{
    let program = gp_compose::looked(alloc, log, t, before, stmt)?;
    merged_program(alloc, log, &program, false)
}

/// The rows of a program that ends in a table over past versions, in order. Their number is not limited.
fn table_over(
    alloc: Global,
    versions: &[VersionTable],
    program: &PProgram,
) -> Result<Vec<Row>, ExecStop>
    requires { is_well_built (program_view program.now) ≡ true }
    ensures { EndsInTable (λ found. found.items) result (program_view program.now)
        (encoded (past_environment unannotated versions.now)) }
{
    // The scans that are asked for suffice. The call does nothing.
    asked_scans_suffice();
    let asked = scans(alloc, program)?;
    let env = env_at(alloc, versions, &asked)?;
    run_table(alloc, program, &env, MAX_TABLE_ROWS)
}

/// The rows by which one looks at the statement of a transaction behind so many others, in the order of their table, whatever became of
/// the transaction: those that an UPDATE or a DELETE is about, as they were before it, or the table that an INSERT leaves. Behind the cells
/// of each are its identity and its mark. The log has the statement, which writes a table; the log and the row versions have been
/// checked against the tables of the log. Refused by E25 and E26, as [`reenact`](crate::reenact) refuses; the number of rows is not
/// limited.
pub fn looked(
    alloc: Global,
    log: &Log,
    versions: &[VersionTable],
    t: u32,
    before: u32,
    stmt: &Stmt,
) -> Result<Vec<Row>, Stop>
    requires statement { HasStatement log.now t before (statement_view stmt.now) }
    requires more { before + 1 < 2 ^ 32 }
    requires writes { s.writes (statement_view stmt.now) ≡ true }
    requires spans { SpansFit (tables log.now) (spans_of versions.now) }
    ensures { Looks (λ rows. rows.items) result (looked_answer parameters (entries log.now)
        (spans_of versions.now) t before (statement_view stmt.now)) }
{
    let planned = planned_look(alloc, log, t, before, stmt)?;
    match table_over(alloc, versions, &planned) {
        Ok(rows) => Ok(rows),
        Err(stop) => Err(stopped(t, stop)),
    }
}
