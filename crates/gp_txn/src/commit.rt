//! COMMIT.

ghost use Rattle.std.specs.Prelude.{◌≡◌, ℕ, ◌<◌, ◌≤◌, IfErr, IfOk, None, OnErr, OnOk, length};
ghost use Rattle.gp_base.specs.declared.catalog.TheConstants.{MAX_TABLES};
ghost use Rattle.gp_txn.specs.Committing.{AreCommittable, AreCommitted, AreRefused, Commits, HasCause, HaveSameSpans, commit_of, spans_left};
ghost use Rattle.gp_txn.specs.Conflicts.{IsFirstConflict, lates_at};
ghost use Rattle.gp_base.specs.declared.limit.TheConstants.{MAX_SPANS};
ghost use Rattle.gp_txn.specs.Prepared.{AreWritesOf, prepared_at};
ghost use Rattle.gp_txn.specs.Transactions.{AreOthers, HoldsOthers, table_at, writes_at};
ghost use Rattle.gp_versions.specs.Commits.{AreBelow, AreDistinct};

use crate::active::Active;
use crate::conflict::{Conflict, first_conflict};
use crate::error::CommitStop;
use crate::overlay::TableWrites;
use crate::publication::{prepare, publish, reserve_all};
use crate::span_count::is_full;
use gp_base::NoMemory;
use gp_versions::{VersionTable, Writes};
use std::alloc::Global;

/// Enters the spans of a table, if the transaction wrote any of its rows.
fn enter_one(writes: &TableWrites, table: &mut VersionTable) -> Result<(), NoMemory>
    ensures { table.new ≡ table.old }
{
    let is_unwritten = writes.slots.as_slice().is_empty()
        && writes.carried.as_slice().is_empty()
        && writes.own.as_slice().is_empty();
    if !is_unwritten {
        table.enter()?;
    }
    Ok(())
}

/// Enters the spans of the tables that the transaction wrote: the commit looks up the spans that it ends, and the later
/// writes of rows that were written over earlier versions. A table is entered once, and then the spans that began since.
/// Contracts do not see which spans are entered.
fn enter_spans(tables: &[TableWrites], versions: &mut [VersionTable]) -> Result<(), NoMemory>
    requires { length versions.old ≤ length tables.now }
    ensures { versions.new ≡ versions.old }
{
    for place in 0..versions.len() {
        enter_one(&tables[place], &mut versions[place])?;
    }
    Ok(())
}

/// Stops a commit that a conflict loses.
fn check_conflict(tables: &[TableWrites], versions: &[VersionTable]) -> Result<(), CommitStop>
    requires fit { length versions.now ≤ length tables.now }
    requires few { length versions.now ≤ MAX_TABLES }
    ensures first { OnOk result
        (IsFirstConflict (length versions.now) (lates_at tables.now versions.now) None) }
    ensures cause { IfErr result (λ stop. (spans : ℕ)
        → HasCause stop (length versions.now) (lates_at tables.now versions.now) spans) }
{
    match first_conflict(tables, versions)? {
        None => Ok(()),
        Some(Conflict { place, late }) => Err(CommitStop::Conflict {
            version: late.version,
            table: place,
            id: late.id,
        }),
    }
}

/// The writes of a commit, unless the spans would be too many.
fn prepare_few(
    alloc: Global,
    t: u32,
    tables: &[TableWrites],
    versions: &[VersionTable],
) -> Result<Vec<Writes>, CommitStop>
    requires fit { length versions.now ≤ length tables.now }
    requires own { (place : ℕ) → AreWritesOf t (writes_at place tables.now) }
    requires others { (place : ℕ) → AreOthers t (table_at place versions.now).spans }
    requires first { IsFirstConflict
        (length versions.now) (lates_at tables.now versions.now) None }
    ensures len { IfOk result (λ all. length all.items ≡ length versions.now) }
    ensures each { IfOk result (λ all. (place : ℕ) → place < length versions.now
        → prepared_at all.items place ≡ commit_of tables.now versions.now place) }
    ensures distinct { IfOk result (λ all. (place : ℕ) → place < length versions.now
        → AreDistinct (prepared_at all.items place)) }
    ensures few { OnOk result (spans_left tables.now versions.now ≤ MAX_SPANS) }
    ensures cause { IfErr result (λ stop. AreRefused stop tables.now versions.now) }
{
    if is_full(tables, versions) {
        return Err(CommitStop::Full);
    }
    Ok(prepare(alloc, t, tables, versions)?)
}

/// Commits the writes of a transaction. Everything that can fail comes before the first change.
fn commit_writes(
    alloc: Global,
    t: u32,
    tables: &[TableWrites],
    versions: &mut [VersionTable],
    version: u32,
) -> Result<(), CommitStop>
    requires ready { AreCommittable t version tables.now versions.old }
    ensures made { OnOk result (AreCommitted version tables.now versions.old versions.new) }
    ensures cause { IfErr result (λ stop. AreRefused stop tables.now versions.old) }
    ensures unchanged { OnErr result (HaveSameSpans versions.old versions.new) }
{
    enter_spans(tables, versions)?;
    check_conflict(tables, versions)?;
    let mut prepared = prepare_few(alloc, t, tables, versions)?;
    reserve_all(versions, &prepared)?;
    publish(alloc, versions, version, &mut prepared);
    Ok(())
}

impl Active {
    /// COMMIT: makes this version of the tables. It is above all versions at which a span begins or ends, and no span is of
    /// a row that the transaction inserted. The first committer of a row wins: the commit is lost if a commit above the
    /// row's base wrote a row that the transaction updated or deleted. A conflict is found before the spans are counted, and
    /// an error leaves all spans unchanged.
    pub fn commit(&self, versions: &mut [VersionTable], version: u32) -> Result<(), CommitStop>
        requires few { length versions.old ≤ MAX_TABLES }
        requires first { 1 ≤ version }
        requires above { (place : ℕ) → AreBelow version (table_at place versions.old).spans }
        requires others { HoldsOthers self.now.t versions.old }
        ensures ok { OnOk result (Commits version self.now versions.old versions.new) }
        ensures cause { IfErr result (λ stop. AreRefused stop self.now.tables versions.old) }
        ensures unchanged { OnErr result (HaveSameSpans versions.old versions.new) }
    {
        commit_writes(self.alloc(), self.t(), self.tables(), versions, version)?;
        Ok(())
    }
}
