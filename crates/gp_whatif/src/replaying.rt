//! The commits of a log, made again.

ghost use Rattle.std.specs.Prelude.{◌≡◌, ◌<◌, ◌≤◌, ◌+◌, ◌^◌, [], suc, true, IfErr, IfOk, OnOk, length, ℕ};
ghost use Rattle.gp_base.specs.declared.catalog.TheConstants.{MAX_TABLES};
ghost use Rattle.gp_algebra.specs.Views.{statement_view};
ghost use Rattle.gp_txn.specs.Transactions.{HoldsOthers, table_at};
ghost use Rattle.gp_machine.specs.Entries.{begin_version};
ghost use Rattle.gp_whatif.specs.Remade.{Ran, StopsAt, can_run};
ghost use Rattle.gp_log.specs.Contents.{commits};
ghost use Rattle.gp_whatif.specs.Remaking as r;

use crate::error::ReplayStop;
use gp_algebra::Stmt;
use gp_base::NoMemory;
use gp_log::Log;
use gp_txn::{Active, CommitStop, StmtStop, index_for};
use gp_versions::VersionTable;
use std::alloc::Global;

/// Runs statement k of a transaction, which reads this version. A SELECT changes nothing.
fn run_statement(
    active: &mut Active,
    k: u32,
    version: u32,
    stmt: &Stmt,
    versions: &mut [VersionTable],
) -> Result<(), ReplayStop>
    requires few { length versions.old ≤ MAX_TABLES }
    requires applicable { can_run (length versions.old) (statement_view stmt.now) ≡ true }
    requires later { active.old.last < k }
    requires others { HoldsOthers active.old.t versions.old }
    ensures unchanged { versions.new ≡ versions.old }
    ensures ran { OnOk result
        (Ran k version (statement_view stmt.now) versions.old active.old active.new) }
    ensures stop { IfErr result (λ stop.
        StopsAt stop k version (statement_view stmt.now) versions.old active.old) }
{
    let t = active.t();
    match stmt {
        Stmt::Read { .. } => Ok(()),
        _ => {
            index_for(stmt, versions)?;
            match active.apply(k, version, stmt, versions) {
                Ok(_) => Ok(()),
                Err(StmtStop::Rows) => Err(ReplayStop::Rows { t, k }),
                Err(StmtStop::Ancestry) => Err(ReplayStop::Ancestry { t, k }),
                Err(StmtStop::NoMemory) => Err(ReplayStop::NoMemory),
            }
        }
    }
}

/// Runs the next statement of the transaction that made the version after these, this many; some have run.
fn run_next(
    active: &mut Active,
    log: &Log,
    before: u32,
    ran: u32,
    versions: &mut [VersionTable],
) -> Result<(), ReplayStop>
    requires next { r.HasNext log.now before versions.old }
    requires more { ran < r.maker_statements log.now before }
    requires few_statements { ran + 1 < 2 ^ 32 }
    requires ran { r.HasRun log.now before versions.old ran active.old }
    ensures unchanged { versions.new ≡ versions.old }
    ensures ran { OnOk result (r.HasRun log.now before versions.old (suc ran) active.new) }
    ensures stop { IfErr result (r.IsStopOf log.now (suc before)) }
{
    let t = active.t();
    let k = ran + 1;
    match log.statement(t, k) {
        Some(stmt) => run_statement(active, k, log.version_read_by(t, k), stmt, versions),
        None => Ok(()),
    }
}

/// Runs the transaction again that made the version after these, this many.
fn run_again(
    alloc: Global,
    log: &Log,
    before: u32,
    versions: &mut [VersionTable],
) -> Result<Active, ReplayStop>
    requires next { r.HasNext log.now before versions.old }
    ensures unchanged { versions.new ≡ versions.old }
    ensures ran { IfOk result (λ active. r.HasRun log.now before versions.old
        (r.maker_statements log.now before) active) }
    ensures stop { IfErr result (r.IsStopOf log.now (suc before)) }
{
    let t = log.maker(before + 1);
    // The log tells which version each statement reads, so the kind of the transaction is not asked for.
    let mut active = Active::begin(alloc, t, log.begin_version(t), false);
    for ran in 0..log.statement_count(t) {
        run_next(&mut active, log, before, ran, versions)?;
    }
    Ok(active)
}

/// Commits a transaction that has run again over the first versions, this many.
fn commit_again(
    active: &Active,
    log: &Log,
    before: u32,
    versions: &mut [VersionTable],
) -> Result<(), ReplayStop>
    requires next { r.HasNext log.now before versions.old }
    requires ran { r.HasRun log.now before versions.old (r.maker_statements log.now before)
        active.now }
    ensures made { OnOk result (r.IsMade log.now (suc before) versions.new) }
    ensures stop { IfErr result (r.IsStopOf log.now (suc before)) }
{
    // The rows that it inserted are its own. That is known of it where it is asked for its number.
    let _t = active.t();
    let version = before + 1;
    match active.commit(versions, version) {
        Ok(()) => Ok(()),
        Err(
            CommitStop::Conflict {
                version: other,
                table,
                id,
            },
        ) => Err(ReplayStop::Lost {
            version,
            other,
            table,
            id,
        }),
        Err(CommitStop::Full) => Err(ReplayStop::Full),
        Err(CommitStop::NoMemory) => Err(ReplayStop::NoMemory),
    }
}

/// The first versions of a log, made again.
#[derive(Drop)]
pub struct Made {
    /// How many they are.
    pub count: u32,
    /// The row versions of each table.
    pub versions: Vec<VersionTable>,
}

/// Makes one more version again, of the first ones, this many. Refused as [`replay`] is; then nothing has changed.
pub fn make_version(
    alloc: Global,
    log: &Log,
    before: u32,
    versions: &mut [VersionTable],
) -> Result<(), ReplayStop>
    requires next { r.HasNext log.now before versions.old }
    ensures made { OnOk result (r.IsMade log.now (suc before) versions.new) }
    ensures stop { IfErr result (r.IsStopOf log.now (suc before)) }
{
    let active = run_again(alloc, log, before, versions)?;
    commit_again(&active, log, before, versions)
}

/// The row versions of tables, this many, before the first version.
fn empty_tables(alloc: Global, count: u32) -> Result<Vec<VersionTable>, NoMemory>
    ensures count { IfOk result (λ tables. length tables.items ≡ count) }
    ensures empty { IfOk result
        (λ tables. (place : ℕ) → (table_at place tables.items).spans ≡ []) }
{
    let mut tables = Vec::new(alloc);
    for _ in 0..count {
        tables.push(VersionTable::new(alloc))?;
    }
    Ok(tables)
}

/// No versions of a log.
pub fn none_made(alloc: Global, log: &Log) -> Result<Made, NoMemory>
    ensures count { IfOk result (λ made. made.count ≡ 0) }
    ensures made { IfOk result (λ made. r.IsMade log.now 0 made.versions.items) }
{
    Ok(Made {
        count: 0,
        versions: empty_tables(alloc, log.catalog().len())?,
    })
}

/// Makes the other commits of a log again, behind its first ones, as [`replay`] does.
pub fn replay_from(alloc: Global, log: &Log, made: Made) -> Result<Vec<VersionTable>, ReplayStop>
    requires replayable { r.IsReplayable log.now }
    requires within { made.count ≤ commits log.now }
    requires made { r.IsMade log.now made.count made.versions.items }
    ensures made { IfOk result (λ versions. r.IsMade log.now (commits log.now) versions.items) }
    ensures stop { IfErr result (r.IsStopOf log.now (commits log.now)) }
{
    log.bounds();
    let Made {
        count,
        mut versions,
    } = made;
    for before in count..log.commits() {
        make_version(alloc, log, before, &mut versions)?;
    }
    Ok(versions)
}

/// Makes the commits of a log again, from nothing, in the order of their versions. Each transaction runs its statements over
/// the versions made by then, each on the version that it reads, and commits. The log keeps its sessions, and its statements
/// have been checked against its tables.
///
/// A replay stops at the first commit that has a cause: a statement of its transaction leaves too many rows in its table
/// or makes an identity of too many nodes, by the first such statement, and in one statement the rows first; else the
/// commit is lost; else there would be too many row versions. Transactions that did not commit are not run.
pub fn replay(alloc: Global, log: &Log) -> Result<Vec<VersionTable>, ReplayStop>
    requires { r.IsReplayable log.now }
    ensures made { IfOk result (λ versions. r.IsMade log.now (commits log.now) versions.items) }
    ensures stop { IfErr result (r.IsStopOf log.now (commits log.now)) }
{
    let made = none_made(alloc, log)?;
    replay_from(alloc, log, made)
}
