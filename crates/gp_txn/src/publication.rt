//! The changes of a commit. Everything that can fail comes first.

ghost use Rattle.std.specs.Prelude.{◌≡◌, ℕ, ◌<◌, ◌≤◌, IfOk, OnOk, length};
ghost use Rattle.gp_txn.specs.Committing.{HaveSameSpans, commit_of};
ghost use Rattle.gp_txn.specs.Overlay.{overlay_of, rows_below, table_writes};
ghost use Rattle.gp_txn.specs.Prepared.{AreWritesOf, IsReady, prepared_at};
ghost use Rattle.gp_txn.specs.Transactions.{AreOthers, table_at, writes_at};
ghost use Rattle.gp_versions.specs.Commits.{AreDistinct, after_commit};

use crate::overlay::TableWrites;
use crate::writes::table_writes;
use gp_base::NoMemory;
use gp_versions::{VersionTable, Writes};
use std::alloc::Global;
use std::mem;

/// What a commit writes of one table.
fn prepare_one(
    alloc: Global,
    t: u32,
    writes: &TableWrites,
    table: &VersionTable,
) -> Result<Writes, NoMemory>
    requires own { AreWritesOf t writes.now }
    requires others { AreOthers t table.now.spans }
    ensures value { IfOk result
        (λ list. list ≡ table_writes (overlay_of table.now.spans writes.now)
        (rows_below (overlay_of table.now.spans writes.now) table.now.spans)) }
    ensures distinct { IfOk result (λ list. AreDistinct list) }
{
    let spans = table.as_list();
    let list = table_writes(alloc, writes, &spans)?;
    Ok(Writes::from_vec(alloc, list)?)
}

/// What a commit writes of each table.
pub fn prepare(
    alloc: Global,
    t: u32,
    tables: &[TableWrites],
    versions: &[VersionTable],
) -> Result<Vec<Writes>, NoMemory>
    requires fit { length versions.now ≤ length tables.now }
    requires own { (place : ℕ) → AreWritesOf t (writes_at place tables.now) }
    requires others { (place : ℕ) → AreOthers t (table_at place versions.now).spans }
    ensures len { IfOk result (λ all. length all.items ≡ length versions.now) }
    ensures each { IfOk result (λ all. (place : ℕ) → place < length versions.now
        → prepared_at all.items place ≡ commit_of tables.now versions.now place) }
    ensures distinct { IfOk result (λ all. (place : ℕ) → place < length versions.now
        → AreDistinct (prepared_at all.items place)) }
{
    let mut all = Vec::new(alloc);
    for place in 0..versions.len() {
        all.push(prepare_one(alloc, t, &tables[place], &versions[place])?)?;
    }
    Ok(all)
}

/// Makes room in a table for the writes.
fn reserve_one(table: &mut VersionTable, writes: &Writes) -> Result<(), NoMemory>
    ensures unchanged { table.new.spans ≡ table.old.spans }
    ensures room { OnOk result (length writes.now ≤ table.new.spare) }
{
    let Ok(count) = u32::try_from(writes.as_slice().len()) else {
        return Err(NoMemory);
    };
    table.reserve(count)?;
    Ok(())
}

/// Makes room in each table for its writes.
pub fn reserve_all(versions: &mut [VersionTable], prepared: &[Writes]) -> Result<(), NoMemory>
    requires { length versions.old ≡ length prepared.now }
    ensures unchanged { HaveSameSpans versions.old versions.new }
    ensures room { OnOk result ((place : ℕ) → place < length versions.old
        → length (prepared_at prepared.now place) ≤ (table_at place versions.new).spare) }
{
    for place in 0..versions.len() {
        reserve_one(&mut versions[place], &prepared[place])?;
    }
    Ok(())
}

/// Makes the version of a table. A table that the commit does not write keeps its spans, and is not looked at.
fn publish_one(table: &mut VersionTable, version: u32, writes: Writes)
    requires { IsReady version table.old writes }
    ensures { table.new.spans ≡ after_commit version writes table.old.spans }
{
    if writes.as_slice().is_empty() {
        return;
    }
    table.append_commit(version, writes);
}

/// Makes the version of each table.
pub fn publish(alloc: Global, versions: &mut [VersionTable], version: u32, prepared: &mut [Writes])
    requires same { length versions.old ≡ length prepared.old }
    requires ready { (place : ℕ) → place < length versions.old
        → IsReady version (table_at place versions.old) (prepared_at prepared.old place) }
    ensures { (place : ℕ) → place < length versions.old
        → (table_at place versions.new).spans ≡ after_commit version
        (prepared_at prepared.old place) (table_at place versions.old).spans }
{
    for place in 0..versions.len() {
        let writes = mem::replace(&mut prepared[place], Writes::new(alloc));
        publish_one(&mut versions[place], version, writes);
    }
}
