//! Running transactions.

ghost use Rattle.std.specs.Prelude.{◌≡◌, ◌<◌, ◌≤◌, ◌++◌, ℕ, true, IfOk, OnOk, OnErr, length, map};
ghost use Rattle.std.specs.Option.{option_map};
ghost use Rattle.gp_base.specs.declared.catalog.TheConstants.{MAX_TABLES};
ghost use Rattle.gp_txn.specs.Bases.{table_view};
ghost use Rattle.gp_txn.specs.Changes.{change_is_simple, change_view};
ghost use Rattle.gp_txn.specs.Overlay.{no_writes, overlay_of, stored_of};
ghost use Rattle.gp_txn.specs.Rebasing.{writes_over};
ghost use Rattle.gp_txn.specs.Slots.{changed_table, count_touched, put_table, with_own};
ghost use Rattle.gp_txn.specs.Transactions.{AreOthers, AreOwn, HoldsOwn, IsUnwritten, KeepsOwn, snapshot_of, table_at, view_at, writes_at};
ghost use Rattle.gp_txn.specs.Wanted.{wanted};
ghost use Rattle.gp_expr.specs.Views.{cond_view};
ghost use Rattle.gp_algebra.specs.Simple.{where_is_simple};
ghost use Rattle.gp_versions.specs.TableSpans.{NoOverlap};

use crate::change::Change;
use crate::overlay::TableWrites;
use crate::rebase::{append_own, change_over, count_at, view_at, writes_for};
use gp_base::{MAX_TABLES, NoMemory, Sequence, Stored};
use gp_expr::Cond;
use gp_versions::{SpanList, VersionTable};
use std::alloc::Global;
use std::array;
use std::marker::Model;

/// The number of tables that it may write.
const TABLE_COUNT: usize = MAX_TABLES as usize;

/// A running transaction: what it wrote of each table, over the rows of a version. In a transaction of the snapshot kind, that
/// is the version at which it began. A statement of a read committed transaction reads the newest version, and the writes of
/// the table that it writes then lie over that one. Rows that it inserted have identities of its own, and no two of a table
/// are equal.
#[derive(Drop)]
pub struct Active {
    alloc: Global,
    t: u32,
    read_committed: bool,
    begin: u32,
    last: u32,
    tables: [TableWrites; TABLE_COUNT],
}

impl Model for Active {
    ghost use Rattle.std.specs.Prelude.{◌≡◌, length};
    ghost use Rattle.gp_base.specs.declared.catalog.TheConstants.{MAX_TABLES};
    ghost use Rattle.gp_txn.specs.Transactions.{HoldsOwn, Writes};
    ghost use Rattle.gp_txn.specs.WritesCode.{writes_code};

    ghost Value = { Writes };

    ghost coded = { writes_code };

    ghost view = { λ a. record {
      t = a.t;
      read_committed = a.read_committed;
      begin = a.begin;
      last = a.last;
      tables = a.tables;
    } };

    ghost invariant = { λ a. (length a.tables ≡ MAX_TABLES)
        × HoldsOwn (record {
          t = a.t;
          read_committed = a.read_committed;
          begin = a.begin;
          last = a.last;
          tables = a.tables;
        }) };
}

/// The spans of a table; none if it is not there.
pub fn spans_of(versions: &[VersionTable], table: u32) -> SpanList<'_>
    ensures spans { result ≡ (table_at table versions.now).spans }
    ensures apart { NoOverlap (table_at table versions.now).spans }
{
    match versions.get(table as usize) {
        Some(table) => table.as_list(),
        None => SpanList::new(),
    }
}

/// How many spans a table has; none if it is not there.
pub fn span_count(versions: &[VersionTable], table: u32) -> usize
    ensures { result ≡ length (table_at table versions.now).spans }
{
    match versions.get(table as usize) {
        Some(table) => table.len(),
        None => 0,
    }
}

impl Active {
    /// A transaction that has written nothing, with this number, the version at which it begins, and its kind.
    pub fn begin(alloc: Global, t: u32, version: u32, read_committed: bool) -> Active
        ensures t { result.t ≡ t }
        ensures kind { result.read_committed ≡ read_committed }
        ensures begin { result.begin ≡ version }
        ensures last { result.last ≡ 0 }
        ensures tables { (place : ℕ) → IsUnwritten version (writes_at place result.tables) }
        ensures over { (place : ℕ) → place < MAX_TABLES
            → (writes_at place result.tables).version ≡ version }
        ensures count { length result.tables ≡ MAX_TABLES }
    {
        Active {
            alloc,
            t,
            read_committed,
            begin: version,
            last: 0,
            tables: array::from_fn(|_| TableWrites::new(alloc, version)),
        }
    }

    /// Its number. The rows that it inserted are its own.
    pub fn t(&self) -> u32
        ensures t { result ≡ self.now.t }
        ensures own { HoldsOwn self.now }
    {
        self.t
    }

    /// The version that its next statement reads, where this is the newest one: the version at which it began, but for a
    /// read committed transaction.
    pub fn snapshot(&self, now: u32) -> u32
        ensures { result ≡ snapshot_of self.now now }
    {
        if self.read_committed { now } else { self.begin }
    }

    /// Its writes of each table.
    pub fn tables(&self) -> &[TableWrites]
        ensures tables { result.now ≡ self.now.tables }
        ensures count { length self.now.tables ≡ MAX_TABLES }
        ensures own { HoldsOwn self.now }
    {
        &self.tables
    }

    /// Its memory.
    pub(crate) fn alloc(&self) -> Global {
        self.alloc
    }

    /// Its writes of a table.
    pub(crate) fn writes(&self, table: u32) -> &TableWrites
        requires { table < MAX_TABLES }
        ensures writes { result.now ≡ writes_at table self.now.tables }
        ensures own { KeepsOwn self.now.t self.now.last result.now }
    {
        &self.tables[table as usize]
    }

    /// Its writes of a table, or none if it can write no table at this place.
    fn writes_or<'a>(&'a self, table: u32, none: &'a TableWrites) -> &'a TableWrites
        requires { none.now ≡ no_writes 0 }
        ensures { result.now ≡ writes_at table self.now.tables }
    {
        match self.tables.get(table as usize) {
            Some(writes) => writes,
            None => none,
        }
    }

    /// The rows of a table that it sees at a version, in order, with their identities.
    pub fn view(
        &self,
        table: u32,
        version: u32,
        versions: &[VersionTable],
    ) -> Result<Sequence<Stored>, NoMemory>
        ensures { IfOk result (λ rows. rows
            ≡ map stored_of (view_at self.now.tables versions.now version table)) }
    {
        let spans = spans_of(versions, table);
        self.view_over(table, version, &spans, None)
    }

    /// The rows of a table that it sees at a version, over these spans: all of them, or those that pass a condition.
    pub(crate) fn view_over(
        &self,
        table: u32,
        version: u32,
        spans: &SpanList<'_>,
        cond: Option<&Cond>,
    ) -> Result<Sequence<Stored>, NoMemory>
        requires { where_is_simple (option_map (λ c. cond_view c.now) cond) ≡ true }
        ensures { IfOk result (λ rows. rows
            ≡ map stored_of (wanted (option_map (λ c. cond_view c.now) cond.entry)
            (table_view (overlay_of spans.now (writes_at table self.now.tables))
            spans.now version))) }
    {
        let none = TableWrites::new(self.alloc, 0);
        let writes = self.writes_or(table, &none);
        view_at(self.alloc, writes, spans, version, cond)
    }

    /// How many rows of a table it sees at a version.
    pub(crate) fn count(
        &self,
        table: u32,
        version: u32,
        versions: &[VersionTable],
    ) -> Result<usize, NoMemory>
        requires { table < MAX_TABLES }
        ensures { IfOk result
            (λ count. count ≡ length (view_at self.now.tables versions.now version table)) }
    {
        let spans = spans_of(versions, table);
        count_at(self.alloc, self.writes(table), &spans, version)
    }

    /// Keeps what statement k, an UPDATE or a DELETE that read this version, left of a table. Gives the number of rows that it
    /// wrote.
    pub(crate) fn change_rows(
        &mut self,
        k: u32,
        table: u32,
        version: u32,
        spans: &SpanList<'_>,
        change: &Change<'_>,
    ) -> Result<u32, NoMemory>
        requires table { table < MAX_TABLES }
        requires simple { change_is_simple (change_view change.now) ≡ true }
        requires later { self.old.last ≤ k }
        requires others { AreOthers self.old.t spans.now }
        requires apart { NoOverlap spans.now }
        ensures count { IfOk result (λ count. count ≡ count_touched (change_view change.now)
            (table_view (overlay_of spans.now (writes_at table self.old.tables)) spans.now version)) }
        ensures ok { OnOk result (self.new ≡ put_table k table
            (changed_table (change_view change.now) spans.now
            (writes_over version spans.now (writes_at table self.old.tables))) self.old) }
        ensures tables { OnOk result (length self.old.tables ≡ MAX_TABLES) }
        ensures own { OnOk result (KeepsOwn self.old.t self.old.last (writes_at table self.old.tables)) }
        ensures err { OnErr result (self.new ≡ self.old) }
    {
        let moved = writes_for(self.alloc, self.writes(table), spans, version)?;
        let count = change_over(
            self.alloc,
            &mut self.tables[table as usize],
            moved,
            spans,
            change,
        )?;
        self.last = k;
        Ok(count)
    }

    /// Keeps the rows that statement k, which read this version, inserted into a table. Gives their number.
    pub(crate) fn insert_rows(
        &mut self,
        k: u32,
        table: u32,
        version: u32,
        spans: &SpanList<'_>,
        new: Sequence<Stored>,
    ) -> Result<u32, NoMemory>
        requires table { table < MAX_TABLES }
        requires later { self.old.last ≤ k }
        requires own { AreOwn self.old.t k ((writes_at table self.old.tables).own ++ new) }
        requires others { AreOthers self.old.t spans.now }
        requires apart { NoOverlap spans.now }
        ensures count { IfOk result (λ count. count ≡ length new) }
        ensures ok { OnOk result (self.new ≡ put_table k table
            (with_own new (writes_over version spans.now (writes_at table self.old.tables)))
            self.old) }
        ensures tables { OnOk result (length self.old.tables ≡ MAX_TABLES) }
        ensures err { OnErr result (self.new ≡ self.old) }
    {
        let count = number(new.as_slice().len())?;
        let moved = writes_for(self.alloc, self.writes(table), spans, version)?;
        append_own(&mut self.tables[table as usize], moved, new)?;
        self.last = k;
        Ok(count)
    }
}

/// A number of rows. One that 32 bits cannot hold runs out of memory.
pub fn number(count: usize) -> Result<u32, NoMemory>
    ensures { IfOk result (λ number. number ≡ count) }
{
    match u32::try_from(count) {
        Ok(number) => Ok(number),
        Err(_) => Err(NoMemory),
    }
}
