//! Statements of a running transaction. What can fail comes first, so that a statement that is refused changes nothing.

ghost use Rattle.std.specs.Prelude.{◌≡◌, ◌<◌, ◌≤◌, ◌+◌, ◌++◌, ◌^◌, not, true, IfOk, IfSome, MatchOption, length, map};
ghost use Rattle.gp_base.specs.declared.catalog.TheConstants.{MAX_TABLES};
ghost use Rattle.gp_base.specs.Annotated.{unannotated};
ghost use Rattle.gp_algebra.specs.Answers.{answer};
ghost use Rattle.gp_algebra.specs.Effects.{given_from, made};
ghost use Rattle.gp_algebra.specs.Statements as s;
ghost use Rattle.gp_algebra.specs.Views.{select_view, statement_view};
ghost use Rattle.gp_base.specs.declared.limit.TheConstants.{MAX_TABLE_ROWS};
ghost use Rattle.gp_txn.specs.Applying.{Applies, is_applicable, is_readable};
ghost use Rattle.gp_txn.specs.Changes.{change_is_simple, change_view, statement_at};
ghost use Rattle.gp_txn.specs.Inserting.{Fills, Prepares, are_many};
ghost use Rattle.gp_txn.specs.Transactions.{AreOwn, HoldsOthers, view_at, writes_at};

use crate::active::{Active, span_count, spans_of};
use crate::change::Change;
use crate::error::StmtStop;
use crate::insert::{given_rows, made_rows};
use gp_algebra::{Select, Stmt};
use gp_base::{MAX_TABLE_ROWS, NoMemory, Row, Sequence, Stored};
use gp_versions::VersionTable;

impl Active {
    /// Applies an UPDATE or a DELETE.
    fn change(
        &mut self,
        k: u32,
        table: u32,
        version: u32,
        change: &Change<'_>,
        versions: &[VersionTable],
    ) -> Result<u32, StmtStop>
        requires table { table < MAX_TABLES }
        requires simple { change_is_simple (change_view change.now) ≡ true }
        requires later { self.old.last < k }
        requires others { HoldsOthers self.old.t versions.now }
        ensures { Applies result k version (statement_at table (change_view change.now))
            versions.now self.old self.new }
    {
        let spans = spans_of(versions, table);
        Ok(self.change_rows(k, table, version, &spans, change)?)
    }

    /// How many more rows a table may have at a version, or None if it has too many.
    fn room(
        &self,
        table: u32,
        version: u32,
        versions: &[VersionTable],
    ) -> Result<Option<usize>, NoMemory>
        requires { table < MAX_TABLES }
        ensures { IfOk result (λ room. MatchOption room
            (MAX_TABLE_ROWS < length (view_at self.now.tables versions.now version table))
            (λ room. room + length (view_at self.now.tables versions.now version table)
            ≡ MAX_TABLE_ROWS)) }
    {
        let count = self.count(table, version, versions)?;
        Ok(MAX_TABLE_ROWS.checked_sub(count))
    }

    /// How many more rows a table surely may have at a version, where that is known without counting: the transaction sees at
    /// most one row for each row version, and the rows that it wrote. Most INSERTs count no rows then.
    fn sure_room(&self, table: u32, version: u32, versions: &[VersionTable]) -> Option<usize>
        requires { table < MAX_TABLES }
        ensures { IfSome result (λ room.
            room + length (view_at self.now.tables versions.now version table) ≤ MAX_TABLE_ROWS) }
    {
        let writes = self.writes(table);
        if writes.version != version {
            return None;
        }
        let written = writes.carried.as_slice().len() + writes.own.as_slice().len();
        let room = MAX_TABLE_ROWS.checked_sub(span_count(versions, table))?;
        room.checked_sub(written)
    }

    /// Whether a table has room for more rows at a version, this many.
    fn has_room(
        &self,
        table: u32,
        version: u32,
        versions: &[VersionTable],
        more: usize,
    ) -> Result<bool, NoMemory>
        requires { table < MAX_TABLES }
        ensures { IfOk result (λ room. room ≡ not (are_many
            (length (view_at self.now.tables versions.now version table)) more)) }
    {
        if let Some(room) = self.sure_room(table, version, versions) {
            if more <= room {
                return Ok(true);
            }
        }
        match self.room(table, version, versions)? {
            Some(room) => Ok(more <= room),
            None => Ok(false),
        }
    }

    /// The rows that an INSERT with VALUES inserts.
    fn given(
        &self,
        k: u32,
        table: u32,
        version: u32,
        rows: &[Row],
        versions: &[VersionTable],
    ) -> Result<Sequence<Stored>, StmtStop>
        requires table { table < MAX_TABLES }
        requires few { length rows.now < 2 ^ 32 }
        requires later { self.now.last < k }
        ensures own { IfOk result
            (λ new. AreOwn self.now.t k ((writes_at table self.now.tables).own ++ new)) }
        ensures rows { Prepares result
            (length (view_at self.now.tables versions.now version table))
            (given_from unannotated self.now.t k 1 rows.now) }
    {
        let has_room = self.has_room(table, version, versions, rows.len())?;
        if !has_room {
            return Err(StmtStop::Rows);
        }
        Ok(given_rows(self.alloc(), self.t(), k, rows)?)
    }

    /// The rows that an INSERT with a query inserts into a table that may have so many more.
    fn made_within(
        &self,
        k: u32,
        table: u32,
        version: u32,
        select: &Select,
        versions: &[VersionTable],
        room: usize,
    ) -> Result<Sequence<Stored>, StmtStop>
        requires table { table < MAX_TABLES }
        requires few { length versions.now ≤ MAX_TABLES }
        requires readable { is_readable (length versions.now) (select_view select.now) ≡ true }
        requires later { self.now.last < k }
        requires others { HoldsOthers self.now.t versions.now }
        ensures own { IfOk result
            (λ new. AreOwn self.now.t k ((writes_at table self.now.tables).own ++ new)) }
        ensures rows { Fills result room (map (made unannotated self.now.t k)
            (answer unannotated (select_view select.now)
            (view_at self.now.tables versions.now version))) }
    {
        let chosen = self.chosen(select, version, versions, room)?;
        made_rows(self.alloc(), self.t(), k, chosen)
    }

    /// The rows that an INSERT with a query inserts.
    fn made(
        &self,
        k: u32,
        table: u32,
        version: u32,
        select: &Select,
        versions: &[VersionTable],
    ) -> Result<Sequence<Stored>, StmtStop>
        requires table { table < MAX_TABLES }
        requires few { length versions.now ≤ MAX_TABLES }
        requires readable { is_readable (length versions.now) (select_view select.now) ≡ true }
        requires later { self.now.last < k }
        requires others { HoldsOthers self.now.t versions.now }
        ensures own { IfOk result
            (λ new. AreOwn self.now.t k ((writes_at table self.now.tables).own ++ new)) }
        ensures rows { Prepares result
            (length (view_at self.now.tables versions.now version table))
            (map (made unannotated self.now.t k)
            (answer unannotated (select_view select.now)
            (view_at self.now.tables versions.now version))) }
    {
        // The rows of a table are counted only where it may be full.
        if let Some(room) = self.sure_room(table, version, versions) {
            match self.made_within(k, table, version, select, versions, room) {
                Err(StmtStop::Rows) => {}
                Err(StmtStop::Ancestry) => return Err(StmtStop::Ancestry),
                Err(StmtStop::NoMemory) => return Err(StmtStop::NoMemory),
                Ok(new) => return Ok(new),
            }
        }
        let Some(room) = self.room(table, version, versions)? else {
            return Err(StmtStop::Rows);
        };
        self.made_within(k, table, version, select, versions, room)
    }

    /// Applies an INSERT with VALUES.
    fn insert(
        &mut self,
        k: u32,
        table: u32,
        version: u32,
        rows: &[Row],
        versions: &[VersionTable],
    ) -> Result<u32, StmtStop>
        requires table { table < MAX_TABLES }
        requires few { length rows.now < 2 ^ 32 }
        requires later { self.old.last < k }
        requires others { HoldsOthers self.old.t versions.now }
        ensures { Applies result k version (s.insert table rows.now)
            versions.now self.old self.new }
    {
        let new = self.given(k, table, version, rows, versions)?;
        let spans = spans_of(versions, table);
        Ok(self.insert_rows(k, table, version, &spans, new)?)
    }

    /// Applies an INSERT with a query, which reads what the transaction saw before.
    fn insert_select(
        &mut self,
        k: u32,
        table: u32,
        version: u32,
        select: &Select,
        versions: &[VersionTable],
    ) -> Result<u32, StmtStop>
        requires table { table < MAX_TABLES }
        requires few { length versions.now ≤ MAX_TABLES }
        requires readable { is_readable (length versions.now) (select_view select.now) ≡ true }
        requires later { self.old.last < k }
        requires others { HoldsOthers self.old.t versions.now }
        ensures { Applies result k version (s.insert_select table (select_view select.now))
            versions.now self.old self.new }
    {
        let new = self.made(k, table, version, select, versions)?;
        let spans = spans_of(versions, table);
        Ok(self.insert_rows(k, table, version, &spans, new)?)
    }

    /// Applies statement k, an INSERT, an UPDATE or a DELETE that reads a version, and gives the number of rows that it writes.
    /// The version is what [`Active::snapshot`] gives. A statement that is refused, or for which memory runs out, changes
    /// nothing. `k` is above the numbers of the statements before it, no row of the versions is the transaction's own, and
    /// the expressions are simple.
    ///
    /// An INSERT is refused if it would leave more than [`MAX_TABLE_ROWS`] rows in its table, also if it adds none, and
    /// then if it would make an identity of more than [`MAX_NODES`](gp_base::MAX_NODES) nodes.
    pub fn apply(
        &mut self,
        k: u32,
        version: u32,
        stmt: &Stmt,
        versions: &[VersionTable],
    ) -> Result<u32, StmtStop>
        requires few { length versions.now ≤ MAX_TABLES }
        requires applicable { is_applicable (length versions.now) (statement_view stmt.now) ≡ true }
        requires later { self.old.last < k }
        requires others { HoldsOthers self.old.t versions.now }
        ensures { Applies result k version (statement_view stmt.now)
            versions.now self.old self.new }
    {
        match stmt {
            Stmt::Insert { table, rows } => {
                self.insert(k, *table, version, rows.as_slice(), versions)
            }
            Stmt::InsertSelect { table, select } => {
                self.insert_select(k, *table, version, select, versions)
            }
            Stmt::Update { table, sets, cond } => {
                let change = Change::Update(sets.as_slice(), cond);
                self.change(k, *table, version, &change, versions)
            }
            Stmt::Delete { table, cond } => {
                self.change(k, *table, version, &Change::Delete(cond), versions)
            }
            Stmt::Read { .. } => unreachable!(),
        }
    }
}
