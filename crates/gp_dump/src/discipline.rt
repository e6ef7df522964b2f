//! The next entry of a log, from what its line says.

ghost use Rattle.std.specs.Prelude.{◌≡◌, ◌<◌, ℕ, suc, true, length, None, IfOk, OnOk};
ghost use Rattle.gp_algebra.specs.Views.{statement_view};
ghost use Rattle.gp_base.specs.declared.catalog.TheConstants.{MAX_TABLES};
ghost use Rattle.gp_base.specs.Catalogs.{place_of};
ghost use Rattle.gp_grammar.specs.Syntax as y;
ghost use Rattle.gp_grammar.specs.Syntax.{is_statement};
ghost use Rattle.gp_check.specs.Valid.{table_is_valid};
ghost use Rattle.gp_log.specs.Contents.{entries, tables};
ghost use Rattle.gp_log.specs.Discipline as d;
ghost use Rattle.gp_log.specs.Discipline.{command_entry};
ghost use Rattle.gp_log.specs.Kinds.{IsAddable};
ghost use Rattle.gp_log.specs.Parameters.{parameters};
ghost use Rattle.gp_log.specs.Logs.{entry_view};
ghost use Rattle.gp_machine.specs.Actions.{allowed};
ghost use Rattle.gp_machine.specs.Entries.{Created, Ran, statement_count};
ghost use Rattle.gp_syntax.specs.Views.{command_view};
ghost use Rattle.gp_dump.specs.Reading.{CreatesValid, GivesEntry, ended};
ghost use Rattle.gp_dumpline.specs.Views.{IsValid, said_view};

use crate::error::EntryStop;
use gp_algebra::Stmt;
use gp_base::{MAX_TABLES, NoMemory, Stop, Table};
use gp_check::{check, check_table};
use gp_dumpline::Said;
use gp_log::{Entry, Log, MAX_STATEMENTS, MAX_STEPS, MAX_TRANSACTIONS, What};
use gp_syntax::Command;
use std::alloc::Global;
use std::rc::Rc;

/// The transaction of the session that has not ended, if it has one.
#[tactic(auto, using(crate::proofs::DisciplineLemmas::session_steps))]
fn transaction_in(log: &Log, session: u32) -> Option<u32>
    ensures { result ≡ d.transaction_in session (entries log.now) }
{
    let mut place = log.len();
    while place > 0 {
        place -= 1;
        let entry = log.entry(place);
        if entry.session == session {
            match entry.what {
                What::Begin { .. } => return Some(entry.t),
                What::Commit | What::Lost | What::Rollback => return None,
                What::Create(_) | What::Statement { .. } => {}
            }
        }
    }
    None
}

/// Checks a new table, in a session with this transaction or none.
fn check_create(log: &Log, active: Option<u32>, table: &Table) -> Result<(), EntryStop>
    ensures entry { (line session : ℕ) → GivesEntry (λ _. Created line session table.now) result
        (command_entry parameters (entries log.now) line session
        (allowed active (y.create table.now))) }
    ensures room { OnOk result (length (tables log.now) < MAX_TABLES) }
    ensures new { OnOk result (place_of table.now.name (tables log.now) ≡ None) }
{
    let catalog = log.catalog();
    if active.is_some() || catalog.len() >= MAX_TABLES {
        return Err(EntryStop::Disorder);
    }
    match check_table(catalog, table) {
        Ok(_) => Ok(()),
        Err(Stop::Refused(_)) => Err(EntryStop::Unchecked),
        Err(Stop::NoMemory) => Err(EntryStop::NoMemory),
    }
}

/// The entry of a new table.
fn create(
    log: &Log,
    line: u32,
    session: u32,
    active: Option<u32>,
    table: Table,
) -> Result<Entry, EntryStop>
    ensures entry { GivesEntry entry_view result
        (command_entry parameters (entries log.now) line session
        (allowed active (y.create table))) }
    ensures new { IfOk result (λ entry. IsAddable (entries log.now) entry) }
    ensures valid { table_is_valid table ≡ true → IfOk result (λ entry. CreatesValid entry.what) }
{
    match check_create(log, active, &table) {
        Ok(_) => Ok(Entry {
            line,
            session,
            t: 0,
            what: What::Create(table),
        }),
        Err(stop) => Err(stop),
    }
}

/// The entry of the beginning of a transaction.
fn begin(
    log: &Log,
    line: u32,
    session: u32,
    active: Option<u32>,
    read_committed: bool,
) -> Result<Entry, EntryStop>
    ensures entry { GivesEntry entry_view result (command_entry parameters (entries log.now)
        line session (allowed active (y.begin read_committed))) }
    ensures new { IfOk result (λ entry. IsAddable (entries log.now) entry) }
    ensures valid { IfOk result (λ entry. CreatesValid entry.what) }
{
    let begun = log.transactions();
    if active.is_some() || begun >= MAX_TRANSACTIONS {
        return Err(EntryStop::Disorder);
    }
    Ok(Entry {
        line,
        session,
        t: begun + 1,
        what: What::Begin { read_committed },
    })
}

/// A statement that a transaction is to run.
struct Run {
    t: u32,
    k: u32,
    stmt: Stmt,
}

/// Checks a statement, in a session with this transaction or none.
#[tactic(auto, using(crate::proofs::DisciplineLemmas::statement_checks))]
fn check_run(
    alloc: Global,
    log: &Log,
    active: Option<u32>,
    command: &Command,
) -> Result<Run, EntryStop>
    requires { is_statement (command_view command.now) ≡ true }
    ensures entry { (line session : ℕ) → GivesEntry
        (λ run. Ran line session (command_view command.now) run.t (statement_view run.stmt)) result
        (command_entry parameters (entries log.now) line session (allowed active
        (command_view command.now))) }
    ensures number { IfOk result (λ run. run.k ≡ suc (statement_count run.t (entries log.now))) }
{
    let Some(t) = active else {
        return Err(EntryStop::Disorder);
    };
    let ran = log.statement_count(t);
    if ran >= MAX_STEPS || log.statements() >= MAX_STATEMENTS {
        return Err(EntryStop::Disorder);
    }
    match check(alloc, log.catalog(), command) {
        Ok(stmt) => Ok(Run {
            t,
            k: ran + 1,
            stmt,
        }),
        Err(Stop::Refused(_)) => Err(EntryStop::Unchecked),
        Err(Stop::NoMemory) => Err(EntryStop::NoMemory),
    }
}

/// A command and its statement, each behind a count of its owners.
fn counted(alloc: Global, command: Command, stmt: Stmt) -> Result<(Rc<Command>, Rc<Stmt>), NoMemory>
    ensures command { IfOk result (λ r. r.0.value ≡ command) }
    ensures stmt { IfOk result (λ r. r.1.value ≡ stmt) }
{
    let command = Rc::new(alloc, command)?;
    let stmt = Rc::new(alloc, stmt)?;
    Ok((command, stmt))
}

/// The entry of a statement.
fn statement(
    alloc: Global,
    log: &Log,
    line: u32,
    session: u32,
    active: Option<u32>,
    command: Command,
) -> Result<Entry, EntryStop>
    requires { is_statement (command_view command) ≡ true }
    ensures entry { GivesEntry entry_view result (command_entry parameters (entries log.now)
        line session (allowed active (command_view command))) }
    ensures new { IfOk result (λ entry. IsAddable (entries log.now) entry) }
    ensures valid { IfOk result (λ entry. CreatesValid entry.what) }
{
    match check_run(alloc, log, active, &command) {
        Ok(Run { t, k, stmt }) => match counted(alloc, command, stmt) {
            Ok((command, stmt)) => Ok(Entry {
                line,
                session,
                t,
                what: What::Statement { k, command, stmt },
            }),
            Err(NoMemory) => Err(EntryStop::NoMemory),
        },
        Err(stop) => Err(stop),
    }
}

/// The entry of the end of a transaction.
fn end(line: u32, session: u32, active: Option<u32>, what: What) -> Result<Entry, EntryStop>
    ensures entry { GivesEntry entry_view result (ended line session active what) }
    ensures what { IfOk result (λ entry. entry.what ≡ what) }
{
    match active {
        Some(t) => Ok(Entry {
            line,
            session,
            t,
            what,
        }),
        None => Err(EntryStop::Disorder),
    }
}

/// The entry of a line, or why it cannot be next.
#[tactic(auto, using(crate::proofs::DisciplineLemmas::next_entries))]
pub fn next_entry(
    alloc: Global,
    log: &Log,
    line: u32,
    session: u32,
    said: Said,
) -> Result<Entry, EntryStop>
    ensures entry { GivesEntry entry_view result
        (d.next_entry parameters (entries log.now) line session (said_view said)) }
    ensures new { IfOk result (λ entry. IsAddable (entries log.now) entry) }
    ensures valid { IsValid said → IfOk result (λ entry. CreatesValid entry.what) }
{
    let active = transaction_in(log, session);
    match said {
        Said::Loses => end(line, session, active, What::Lost),
        Said::Does(Command::Commit) => end(line, session, active, What::Commit),
        Said::Does(Command::Rollback) => end(line, session, active, What::Rollback),
        Said::Does(Command::Begin { read_committed }) => {
            begin(log, line, session, active, read_committed)
        }
        Said::Does(Command::Create { table }) => create(log, line, session, active, table),
        Said::Does(command) => statement(alloc, log, line, session, active, command),
    }
}
