//! What a session without a transaction may do.

ghost use Rattle.std.specs.Prelude.{◌≡◌, ◌<◌, ◌-◌, ◌^◌, suc, length, IfOk, OnErr};
ghost use Rattle.gp_log.specs.Kinds.{CreatesNew};
ghost use Rattle.gp_log.specs.Parameters.{parameters};
ghost use Rattle.gp_log.specs.declared.entry.What.TheVariants as what;
ghost use Rattle.gp_machine.specs.ActionForms.{Begin, Create};
ghost use Rattle.gp_machine.specs.Event.{creation_refusal};
ghost use Rattle.gp_engine.specs.Engine.{IsEngine, tables_of};
ghost use Rattle.gp_engine.specs.Methods.{Adds, DoesAt, running_at};

use crate::running::Running;
use crate::state::State;
use gp_base::{Limit, MAX_TABLES, NoMemory, Refusal, Stop, Table};
use gp_check::check_table;
use gp_log::{Entry, MAX_TRANSACTIONS, What};
use gp_machine::Reply;
use gp_txn::Active;
use gp_versions::VersionTable;

impl State {
    /// The refusal of a new table, if there is one.
    fn creation_refusal(&self, table: &Table) -> Result<Option<Refusal>, NoMemory>
        ensures { IfOk result (λ refusal. refusal
            ≡ creation_refusal parameters (tables_of self.now) table.now) }
    {
        let catalog = self.log.catalog();
        if catalog.len() >= MAX_TABLES {
            return Ok(Some(Refusal::E14 {
                limit: Limit::Tables,
            }));
        }
        match check_table(catalog, table) {
            Ok(()) => Ok(None),
            Err(Stop::Refused(refusal)) => Ok(Some(refusal)),
            Err(Stop::NoMemory) => Err(NoMemory),
        }
    }

    /// Adds a table, without row versions.
    fn add(&mut self, line: u32, place: usize, table: Table) -> Result<Reply, NoMemory>
        requires place { place < 64 }
        requires few { length self.old.log.entries < 2 ^ 32 - 1 }
        requires new { CreatesNew (tables_of self.old) (what.Create table) }
        ensures ok { IfOk result (λ reply. Adds self.old self.new reply line (suc place) table) }
        ensures err { OnErr result (self.new ≡ self.old) }
    {
        let number = self.log.catalog().len();
        // With this room, the table that the log takes in is sure to get its row versions.
        self.versions.reserve(1)?;
        self.log.append(Entry {
            line,
            session: place as u32 + 1,
            t: 0,
            what: What::Create(table),
        })?;
        self.versions.push_reserved(VersionTable::new(self.alloc));
        Ok(Reply::Created { table: number })
    }

    /// CREATE TABLE in the session at a place, outside of transactions: one more table, empty in every version.
    pub fn create(&mut self, line: u32, place: usize, table: &Table) -> Result<Reply, NoMemory>
        requires place { place < 64 }
        requires engine { IsEngine self.old }
        ensures ok { IfOk result (λ reply.
            DoesAt self.old self.new reply line place (running_at self.old place) (Create table.now)) }
        ensures err { OnErr result (self.new ≡ self.old) }
    {
        if self.sessions[place].is_some() {
            return Ok(Reply::Refused(Refusal::E09));
        }
        match self.creation_refusal(table)? {
            Some(refusal) => Ok(Reply::Refused(refusal)),
            None => self.add(line, place, table.clone()?),
        }
    }

    /// BEGIN in the session at a place, outside of transactions: the next transaction, of this kind, which begins at the newest
    /// version.
    pub fn begin(
        &mut self,
        line: u32,
        place: usize,
        read_committed: bool,
    ) -> Result<Reply, NoMemory>
        requires place { place < 64 }
        requires engine { IsEngine self.old }
        ensures ok { IfOk result (λ reply. DoesAt self.old self.new reply line place
            (running_at self.old place) (Begin read_committed)) }
        ensures err { OnErr result (self.new ≡ self.old) }
    {
        if self.sessions[place].is_some() {
            return Ok(Reply::Refused(Refusal::E09));
        }
        let begun = self.log.transactions();
        if begun >= MAX_TRANSACTIONS {
            return Ok(Reply::Refused(Refusal::E14 {
                limit: Limit::Transactions,
            }));
        }
        let t = begun + 1;
        let version = self.log.commits();
        self.append(line, place, t, What::Begin { read_committed })?;
        self.sessions[place] = Some(Running {
            active: Active::begin(self.alloc, t, version, read_committed),
            statements: 0,
        });
        Ok(Reply::Began { t, version })
    }
}
