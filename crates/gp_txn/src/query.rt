//! Queries of a running transaction.

ghost use Rattle.std.specs.Prelude.{◌≡◌, ◌<◌, ◌≤◌, ℕ, true, IfOk, get_or, [], length, map};
ghost use Rattle.gp_base.specs.declared.catalog.TheConstants.{MAX_TABLES};
ghost use Rattle.gp_base.specs.Annotated.{unannotated};
ghost use Rattle.gp_algebra.specs.Answers.{answer};
ghost use Rattle.gp_algebra.specs.Simple.{select_is_simple};
ghost use Rattle.gp_algebra.specs.Views.{select_view};
ghost use Rattle.gp_base.specs.declared.limit.TheConstants.{MAX_ANSWER_ROWS};
ghost use Rattle.gp_exec.specs.Choosing.{Chooses, ChoosesRows, chosen_view};
ghost use Rattle.gp_txn.specs.Applying.{Selects, is_readable};
ghost use Rattle.gp_txn.specs.Inserting.{AreApart, reads_table};
ghost use Rattle.gp_txn.specs.Overlay.{stored_of};
ghost use Rattle.gp_txn.specs.Transactions.{table_at, view_at};
ghost use Rattle.gp_txn.specs.Wanted.{row_where, wanted};
ghost use Rattle.gp_versions.specs.TableSpans.{NoOverlap};

use crate::active::{Active, spans_of};
use crate::reads::{reads_table, row_where};
use gp_algebra::Select;
use gp_base::{MAX_ANSWER_ROWS, NoMemory, Row, Sequence, Stored};
use gp_exec::{ChooseStop, Chosen, Views, choose, select_rows};
use gp_versions::VersionTable;

impl Active {
    /// The rows of a table that it sees at a version and the query wants, if the query reads the table, else none.
    fn view_read(
        &self,
        select: &Select,
        table: u32,
        version: u32,
        versions: &[VersionTable],
    ) -> Result<Sequence<Stored>, NoMemory>
        requires { select_is_simple (select_view select.now) ≡ true }
        ensures rows { IfOk result (λ rows. reads_table table (select_view select.now) ≡ true
            → rows ≡ map stored_of (wanted (row_where (select_view select.now))
            (view_at self.now.tables versions.now version table))) }
        ensures apart { NoOverlap (table_at table versions.now).spans }
    {
        let spans = spans_of(versions, table);
        if reads_table(select, table) {
            return self.view_over(table, version, &spans, row_where(select));
        }
        Ok(Sequence::new(self.alloc()))
    }

    /// The rows that the query wants of the tables that it reads. The other tables are empty here.
    fn views(
        &self,
        select: &Select,
        version: u32,
        versions: &[VersionTable],
    ) -> Result<Views, NoMemory>
        requires few { length versions.now ≤ MAX_TABLES }
        requires simple { select_is_simple (select_view select.now) ≡ true }
        ensures rows { IfOk result (λ views. (p : ℕ) → p < length versions.now
            → reads_table p (select_view select.now) ≡ true
            → get_or views.tables p [] ≡ map stored_of (wanted (row_where (select_view select.now))
            (view_at self.now.tables versions.now version p))) }
        ensures apart { IfOk result (λ views. AreApart versions.now) }
    {
        let mut tables = Sequence::new(self.alloc());
        for place in 0..versions.len() {
            tables.push(self.view_read(select, place as u32, version, versions)?)?;
        }
        Ok(Views { tables })
    }

    /// The answer of a query over what the transaction sees at a version.
    pub(crate) fn chosen(
        &self,
        select: &Select,
        version: u32,
        versions: &[VersionTable],
        most: usize,
    ) -> Result<Vec<Chosen>, ChooseStop>
        requires few { length versions.now ≤ MAX_TABLES }
        requires readable { is_readable (length versions.now) (select_view select.now) ≡ true }
        ensures apart { IfOk result (λ chosen. AreApart versions.now) }
        ensures rows { Chooses (λ found. map chosen_view found.items) result most
            (answer unannotated (select_view select.now) (view_at self.now.tables versions.now version)) }
    {
        let views = self.views(select, version, versions)?;
        choose(self.alloc(), select, &views, most)
    }

    /// The rows of this answer. What they come from is not copied.
    fn rows(
        &self,
        select: &Select,
        version: u32,
        versions: &[VersionTable],
        most: usize,
    ) -> Result<Vec<Row>, ChooseStop>
        requires few { length versions.now ≤ MAX_TABLES }
        requires readable { is_readable (length versions.now) (select_view select.now) ≡ true }
        ensures { ChoosesRows (λ found. found.items) result most
            (answer unannotated (select_view select.now) (view_at self.now.tables versions.now version)) }
    {
        let views = self.views(select, version, versions)?;
        select_rows(self.alloc(), select, &views, most)
    }

    /// The rows of a query over what the transaction sees at a version, in the order of nested loops. TooMany exactly if there
    /// are more than [`MAX_ANSWER_ROWS`]. For a statement, `version` is what [`Active::snapshot`] gives.
    pub fn select(
        &self,
        select: &Select,
        version: u32,
        versions: &[VersionTable],
    ) -> Result<Sequence<Row>, ChooseStop>
        requires few { length versions.now ≤ MAX_TABLES }
        requires readable { is_readable (length versions.now) (select_view select.now) ≡ true }
        ensures { Selects result MAX_ANSWER_ROWS
            (answer unannotated (select_view select.now) (view_at self.now.tables versions.now version)) }
    {
        let rows = self.rows(select, version, versions, MAX_ANSWER_ROWS)?;
        Ok(Sequence::from_vec(rows))
    }
}
