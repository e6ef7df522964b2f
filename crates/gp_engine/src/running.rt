//! The transaction of a session.

ghost use Rattle.std.specs.Prelude.{◌≡◌, ◌<◌, ◌≤◌, true, IfErr, IfOk, OnErr, OnOk, List, Some, length};
ghost use Rattle.gp_base.specs.declared.table.Table.{Table};
ghost use Rattle.gp_base.specs.declared.catalog.TheConstants.{MAX_TABLES};
ghost use Rattle.gp_algebra.specs.Statements as s;
ghost use Rattle.gp_algebra.specs.Fitting.{statement_fits};
ghost use Rattle.gp_algebra.specs.Views.{select_view, statement_view};
ghost use Rattle.gp_grammar.specs.Syntax.{is_statement};
ghost use Rattle.gp_check.specs.Checking.{checked};
ghost use Rattle.gp_check.specs.Valid.{is_valid, tables_are_valid};
ghost use Rattle.gp_check.specs.Views.{Checks};
ghost use Rattle.gp_machine.specs.Event.{count_refusal, name_at, target_of};
ghost use Rattle.gp_syntax.specs.Views.{command_view};
ghost use Rattle.gp_txn.specs.Applying.{is_applicable, is_readable};
ghost use Rattle.gp_txn.specs.Transactions.{HoldsOthers};
ghost use Rattle.gp_log.specs.Parameters.{parameters};
ghost use Rattle.gp_log.specs.Contents.{entries, tables};
ghost use Rattle.gp_engine.specs.Methods.{Accepts, RunsTo, StopsBy, meaning_of, refusal_in, refused_by};
ghost use Rattle.gp_log.specs.declared.limit.TheConstants.{MAX_STATEMENTS, MAX_STEPS};

use gp_algebra::{Select, Stmt};
use gp_base::{Catalog, Limit, NoMemory, Refusal, Stop};
use gp_check::check;
use gp_exec::ChooseStop;
use gp_log::{Log, MAX_STATEMENTS, MAX_STEPS};
use gp_machine::Reply;
use gp_syntax::Command;
use gp_txn::{Active, StmtStop, index_for};
use gp_versions::VersionTable;
use std::alloc::Global;
use std::rc::Rc;

/// A running transaction, with the number of its statements so far. A SELECT is counted too, so this may be above the number
/// of the last statement that wrote.
#[derive(Drop)]
pub struct Running {
    /// Its writes.
    pub active: Active,
    /// The number of its statements.
    pub statements: u32,
}

/// A statement that ran and is not in the log yet.
#[derive(Drop)]
pub struct Unlogged {
    /// Its transaction.
    pub t: u32,
    /// Its number in the transaction.
    pub k: u32,
    /// The statement as it was checked.
    pub stmt: Rc<Stmt>,
    /// The reply.
    pub reply: Reply,
}

/// The refusal of one more statement, if its transaction has this many and the script that many.
fn count_refusal(own: u32, all: u32) -> Option<Refusal>
    ensures { result ≡ count_refusal parameters own all }
{
    if own >= MAX_STEPS {
        return Some(Refusal::E14 {
            limit: Limit::Steps,
        });
    }
    if all >= MAX_STATEMENTS {
        return Some(Refusal::E14 {
            limit: Limit::Statements,
        });
    }
    None
}

/// The stop of an INSERT that would leave too many rows.
fn too_many_rows(catalog: &Catalog, stmt: &Stmt) -> Stop
    requires { target_of (statement_view stmt.now) < length catalog.now }
    ensures { StopsBy result (Some (Refusal.E12
        (name_at (target_of (statement_view stmt.now)) catalog.now))) }
{
    let place = stmt.target().unwrap_or(0);
    match catalog.table(place).name.clone() {
        Ok(table) => Stop::Refused(Refusal::E12 { table }),
        Err(_) => Stop::NoMemory,
    }
}

impl Running {
    /// INSERT, UPDATE or DELETE.
    fn write(
        &mut self,
        stmt: &Stmt,
        catalog: &Catalog,
        versions: &[VersionTable],
        newest: u32,
    ) -> Result<Reply, Stop>
        requires few { length versions.now ≤ MAX_TABLES }
        requires tables { length versions.now ≡ length catalog.now }
        requires writes { is_applicable (length versions.now) (statement_view stmt.now) ≡ true }
        requires count { self.old.statements < MAX_STEPS }
        requires last { self.old.active.last ≤ self.old.statements }
        requires others { HoldsOthers self.old.active.t versions.now }
        ensures accepted { IfOk result (λ reply.
            Accepts catalog.now versions.now newest self.old self.new reply (statement_view stmt.now)) }
        ensures stop { IfErr result (λ stop. StopsBy stop
            (refusal_in catalog.now versions.now newest self.old (statement_view stmt.now))) }
        ensures unchanged { OnErr result (self.new ≡ self.old) }
    {
        let k = self.statements + 1;
        let version = self.active.snapshot(newest);
        match self.active.apply(k, version, stmt, versions) {
            Ok(rows) => {
                self.statements = k;
                Ok(Reply::Wrote { rows })
            }
            Err(StmtStop::Rows) => Err(too_many_rows(catalog, stmt)),
            Err(StmtStop::Ancestry) => Err(Stop::Refused(Refusal::E13)),
            Err(StmtStop::NoMemory) => Err(Stop::NoMemory),
        }
    }

    #[tactic(auto, using(crate::proofs::OverlayLemmas::base_read))]
    fn select(
        &mut self,
        select: &Select,
        versions: &[VersionTable],
        newest: u32,
    ) -> Result<Reply, Stop>
        requires few { length versions.now ≤ MAX_TABLES }
        requires readable { is_readable (length versions.now) (select_view select.now) ≡ true }
        requires count { self.old.statements < MAX_STEPS }
        requires last { self.old.active.last ≤ self.old.statements }
        ensures accepted { IfOk result (λ reply. (tables : List Table) →
            Accepts tables versions.now newest self.old self.new reply (s.read (select_view select.now))) }
        ensures stop { IfErr result (λ stop. (tables : List Table) → StopsBy stop
            (refusal_in tables versions.now newest self.old (s.read (select_view select.now)))) }
        ensures unchanged { OnErr result (self.new ≡ self.old) }
    {
        let version = self.active.snapshot(newest);
        match self.active.select(select, version, versions) {
            Ok(rows) => {
                self.statements += 1;
                Ok(Reply::Rows(rows))
            }
            Err(ChooseStop::TooMany) => Err(Stop::Refused(Refusal::E27)),
            Err(ChooseStop::NoMemory) => Err(Stop::NoMemory),
        }
    }

    /// Runs a statement that was checked, where this is the newest version. One that is refused changes nothing.
    pub fn apply(
        &mut self,
        stmt: &Stmt,
        catalog: &Catalog,
        versions: &[VersionTable],
        newest: u32,
    ) -> Result<Reply, Stop>
        requires few { length versions.now ≤ MAX_TABLES }
        requires tables { length versions.now ≡ length catalog.now }
        requires fits { statement_fits catalog.now (statement_view stmt.now) ≡ true }
        requires count { self.old.statements < MAX_STEPS }
        requires last { self.old.active.last ≤ self.old.statements }
        requires others { HoldsOthers self.old.active.t versions.now }
        ensures accepted { IfOk result (λ reply.
            Accepts catalog.now versions.now newest self.old self.new reply (statement_view stmt.now)) }
        ensures stop { IfErr result (λ stop. StopsBy stop
            (refusal_in catalog.now versions.now newest self.old (statement_view stmt.now))) }
        ensures unchanged { OnErr result (self.new ≡ self.old) }
    {
        match stmt {
            Stmt::Read { select } => self.select(select, versions, newest),
            _ => self.write(stmt, catalog, versions, newest),
        }
    }

    /// Checks one more statement of the transaction, where the script has this many.
    pub fn check(
        &self,
        alloc: Global,
        command: &Command,
        all: u32,
        catalog: &Catalog,
    ) -> Result<Stmt, Stop>
        requires statement { is_statement (command_view command.now) ≡ true }
        requires valid { is_valid (command_view command.now) ≡ true }
        requires catalog { tables_are_valid catalog.now ≡ true }
        ensures checked { Checks statement_view result (meaning_of
            (count_refusal parameters self.now.statements all)
            (checked catalog.now (command_view command.now))) }
        ensures fits { IfOk result
            (λ stmt. statement_fits catalog.now (statement_view stmt) ≡ true) }
    {
        if let Some(refusal) = count_refusal(self.statements, all) {
            return Err(Stop::Refused(refusal));
        }
        check(alloc, catalog, command)
    }

    /// Checks one more statement and runs it, once the log has a place for it and an index finds its rows. One that does not run
    /// changes nothing.
    pub fn run(
        &mut self,
        alloc: Global,
        log: &mut Log,
        versions: &mut [VersionTable],
        command: &Command,
    ) -> Result<Unlogged, Stop>
        requires statement { is_statement (command_view command.now) ≡ true }
        requires valid { is_valid (command_view command.now) ≡ true }
        requires catalog { tables_are_valid (tables log.old) ≡ true }
        requires tables { length versions.old ≡ length (tables log.old) }
        requires few { length versions.old ≤ MAX_TABLES }
        requires last { self.old.active.last ≤ self.old.statements }
        requires others { HoldsOthers self.old.active.t versions.old }
        ensures ran { IfOk result
            (λ ran. RunsTo (entries log.old) versions.old self.old (command_view command.now) self.new ran) }
        ensures ready { OnOk result (log.new.ready ≡ true) }
        ensures stop { IfErr result (λ stop. StopsBy stop
            (refused_by (entries log.old) versions.old self.old (command_view command.now))) }
        ensures unchanged { OnErr result (self.new ≡ self.old) }
        ensures log { log.new.entries ≡ log.old.entries }
        ensures versions { versions.new ≡ versions.old }
    {
        let stmt = self.check(alloc, command, log.statements(), log.catalog())?;
        let stmt = Rc::new(alloc, stmt)?;
        log.reserve()?;
        index_for(stmt.as_ref(), versions)?;
        let newest = log.commits();
        let reply = self.apply(stmt.as_ref(), log.catalog(), versions, newest)?;
        Ok(Unlogged {
            t: self.active.t(),
            k: self.statements,
            stmt,
            reply,
        })
    }
}
