//! The log.

ghost use Rattle.std.specs.Prelude.{◌≡◌, ◌<◌, ◌≤◌, ◌+◌, ◌-◌, ◌^◌, ◌++◌, ◌∷◌, [], OnOk, OnErr, IsOk, if◌then◌else◌, true, false, length, slice_get, take, vec_capacity, vec_len, Some};
ghost use Rattle.std.specs.Option.{option_map};
ghost use Rattle.gp_algebra.specs.Views.{statement_view};
ghost use Rattle.gp_base.specs.declared.catalog.TheConstants.{MAX_TABLES};
ghost use Rattle.gp_base.specs.CatalogForms.{HaveDifferentNames};
ghost use Rattle.gp_log.specs.Contents.{entries, tables};
ghost use Rattle.gp_log.specs.LogFacts.{tables_in};
ghost use Rattle.gp_log.specs.LogCounts.{numbered, open_in, version_at};
ghost use Rattle.gp_log.specs.Logs.{log_view};
ghost use Rattle.gp_log.specs.Indexing.{known_of};
ghost use Rattle.gp_log.specs.Kinds.{begins, commits, created_by, creates, ends, is_statement, CreatesNew, IsAddable, IsNumbered};
ghost use Rattle.gp_machine.specs.Entries.{begin_version, committer_of, fate_of, statement_at, statement_count, statement_version, statements_in, transactions_in, version_of, versions_in};

use crate::entry::{Entry, What};
use crate::facts;
use crate::index::{Index, Known};
use gp_algebra::Stmt;
use gp_base::{Catalog, Fate, NoMemory};
use std::alloc::Global;
use std::marker::Model;

/// The accepted lines, in order. It keeps memory for the end of each transaction that has not ended, so that a transaction
/// can always end.
#[derive(Drop)]
pub struct Log {
    entries: Vec<Entry>,
    catalog: Catalog,
    begun: u32,
    ended: u32,
    commits: u32,
    statements: u32,
    index: Index,
    ready: bool,
}

impl Model for Log {
    ghost use Rattle.std.specs.Prelude.{◌≡◌, ◌≤◌, ◌<◌, ◌+◌, ◌-◌, ◌^◌, if◌then◌else◌, vec_len, vec_capacity};
    ghost use Rattle.gp_log.specs.Indexing.{HasReads, IsIndex};
    ghost use Rattle.gp_log.specs.Kinds.{AreNumbered};
    ghost use Rattle.gp_log.specs.LogFacts.{tables_in};
    ghost use Rattle.gp_log.specs.LogCounts.{ends_in};
    ghost use Rattle.gp_log.specs.LogCode.{logged_code};
    ghost use Rattle.gp_log.specs.Logs.{Logged, log_view};
    ghost use Rattle.gp_machine.specs.Entries.{statements_in, transactions_in, versions_in};

    ghost Value = { Logged };

    ghost coded = { logged_code };

    ghost view = { λ a. record { entries = a.entries.items; ready = a.ready } };

    ghost invariant = { λ a. (a.begun ≡ transactions_in (log_view a.entries.items))
        × (a.ended ≡ ends_in (log_view a.entries.items))
        × (a.commits ≡ versions_in (log_view a.entries.items))
        × (a.statements ≡ statements_in (log_view a.entries.items))
        × (a.catalog ≡ tables_in (log_view a.entries.items))
        × AreNumbered a.entries.items
        × IsIndex a.index (log_view a.entries.items)
        × (vec_len a.entries < 2 ^ 32)
        × (vec_len a.entries + (a.begun - a.ended) + (if a.ready then 1 else 0) ≤ vec_capacity a.entries)
        × HasReads a.index (log_view a.entries.items) };
}

/// 1 where the entry begins a transaction.
fn begun_by(what: &What) -> u32
    ensures { result ≡ if begins what.now then 1 else 0 }
{
    match what {
        What::Begin { .. } => 1,
        _ => 0,
    }
}

/// 1 where the entry ends its transaction.
fn ended_by(what: &What) -> u32
    ensures { result ≡ if ends what.now then 1 else 0 }
{
    match what {
        What::Commit | What::Lost | What::Rollback => 1,
        _ => 0,
    }
}

/// 1 where the entry makes a version.
fn committed_by(what: &What) -> u32
    ensures { result ≡ if commits what.now then 1 else 0 }
{
    match what {
        What::Commit => 1,
        _ => 0,
    }
}

/// 1 where the entry is a statement.
fn ran_by(what: &What) -> u32
    ensures { result ≡ if is_statement what.now then 1 else 0 }
{
    match what {
        What::Statement { .. } => 1,
        _ => 0,
    }
}

/// Adds the table of an entry to the catalogue, if it creates one. If memory runs out, the catalogue is unchanged.
pub fn add_created(catalog: &mut Catalog, what: &What) -> Result<(), NoMemory>
    requires { CreatesNew catalog.old what.now }
    ensures ok { OnOk result (catalog.new ≡ catalog.old ++ created_by what.now) }
    ensures err { OnErr result (catalog.new ≡ catalog.old) }
    ensures others { creates what.now ≡ false → IsOk result }
{
    match what {
        What::Create(table) => match catalog.add(table.clone()?) {
            Ok(_) => Ok(()),
            // The name is new and there is room, so memory ran out.
            Err(_) => Err(NoMemory),
        },
        _ => Ok(()),
    }
}

/// Makes room for one more entry and for this many ends behind it, and adds the table of the entry to the catalogue, if it
/// creates one. What fails here borrows the entry: an entry has many parts, and each way out that owns it lets them all go.
fn prepare(
    entries: &mut Vec<Entry>,
    catalog: &mut Catalog,
    left: usize,
    what: &What,
) -> Result<(), NoMemory>
    requires few { left < 2 ^ 32 }
    requires new { CreatesNew catalog.old what.now }
    ensures items { entries.new.items ≡ entries.old.items }
    ensures len { vec_len entries.new ≡ vec_len entries.old }
    ensures room { OnOk result (vec_len entries.new + (left + 1) ≤ vec_capacity entries.new) }
    ensures capacity { vec_capacity entries.old ≤ vec_capacity entries.new }
    ensures added { OnOk result (catalog.new ≡ catalog.old ++ created_by what.now) }
    ensures err { OnErr result (catalog.new ≡ catalog.old) }
    ensures succeeds { creates what.now ≡ false
        → vec_len entries.old + (left + 1) ≤ vec_capacity entries.old → IsOk result }
{
    entries.reserve(left + 1)?;
    add_created(catalog, what)
}

impl Log {
    /// An empty log, which takes no memory.
    pub fn new(alloc: Global) -> Log
        ensures entries { result.entries ≡ [] }
        ensures ready { result.ready ≡ false }
    {
        Log {
            entries: Vec::new(alloc),
            catalog: Catalog::new(alloc),
            begun: 0,
            ended: 0,
            commits: 0,
            statements: 0,
            index: Index::new(alloc),
            ready: false,
        }
    }

    /// The number of entries.
    pub fn len(&self) -> u32
        ensures { result ≡ length self.now.entries }
    {
        self.entries.len() as u32
    }

    /// The entry at a place; places are numbered from 0, in the order of the lines. A statement has the next number of its
    /// transaction.
    pub fn entry(&self, place: u32) -> &Entry
        requires { place < length self.now.entries }
        ensures entry { slice_get self.now.entries place ≡ Some result.now }
        ensures number { IsNumbered (log_view (take place self.now.entries)) result.now }
    {
        &self.entries[place as usize]
    }

    /// The tables, in order of creation.
    pub fn catalog(&self) -> &Catalog
        ensures { result.now ≡ tables self.now }
    {
        &self.catalog
    }

    /// What holds of every log, for a proof that needs it: its tables are few and have different names, and its commits and its
    /// transactions are numbered by 32 bits. It does nothing.
    pub fn bounds(&self)
        ensures tables { length (tables self.now) ≤ MAX_TABLES }
        ensures names { HaveDifferentNames (tables self.now) }
        ensures commits { versions_in (entries self.now) < 2 ^ 32 }
        ensures transactions { transactions_in (entries self.now) < 2 ^ 32 }
    {
        let _commits = self.commits();
        let _transactions = self.transactions();
        let _tables = self.catalog.len();
    }

    /// The transactions that have not ended.
    fn open(begun: u32, ended: u32) -> usize
        ensures count { result ≡ begun - ended }
        ensures few { result < 2 ^ 32 }
    {
        begun.saturating_sub(ended) as usize
    }

    /// Keeps a place for a statement: if the next entry is a statement, appending it does not run out of memory.
    pub fn reserve(&mut self) -> Result<(), NoMemory>
        ensures unchanged { self.new.entries ≡ self.old.entries }
        ensures ok { OnOk result (self.new.ready ≡ true) }
        ensures err { OnErr result (self.new ≡ self.old) }
    {
        let open = Log::open(self.begun, self.ended);
        self.entries.reserve(open + 1)?;
        self.ready = true;
        Ok(())
    }

    /// Adds an entry behind the others. The end of a transaction never runs out of memory, and a statement does not where
    /// a place is kept for it. A new table has another name than the others, and there are fewer than
    /// [`MAX_TABLES`](gp_base::MAX_TABLES); a statement has the next number of its transaction. If memory runs out, the log
    /// is unchanged.
    pub fn append(&mut self, entry: Entry) -> Result<(), NoMemory>
        requires few { length self.old.entries < 2 ^ 32 - 1 }
        requires new { IsAddable (entries self.old) entry }
        ensures ok { OnOk result (self.new.entries ≡ self.old.entries ++ entry ∷ []) }
        ensures used { OnOk result (self.new.ready ≡ false) }
        ensures err { OnErr result (self.new ≡ self.old) }
        ensures ends { ends entry.what ≡ true → 0 < open_in (entries self.old) → IsOk result }
        ensures ready { is_statement entry.what ≡ true → self.old.ready ≡ true → IsOk result }
    {
        let begun = self.begun + begun_by(&entry.what);
        let ended = self.ended + ended_by(&entry.what);
        let commits = self.commits + committed_by(&entry.what);
        let statements = self.statements + ran_by(&entry.what);
        let open = Log::open(begun, ended);
        let place = self.len();
        prepare(&mut self.entries, &mut self.catalog, open, &entry.what)?;
        self.index.add(place, commits, entry.t, &entry.what);
        self.entries.push_reserved(entry);
        self.begun = begun;
        self.ended = ended;
        self.commits = commits;
        self.statements = statements;
        self.ready = false;
        Ok(())
    }
}

impl Log {
    /// The number of commits, which is the newest version.
    pub fn commits(&self) -> u32
        ensures { result ≡ versions_in (entries self.now) }
    {
        self.commits
    }

    /// How many transactions began. They are numbered from 1.
    pub fn transactions(&self) -> u32
        ensures { result ≡ transactions_in (entries self.now) }
    {
        self.begun
    }

    /// The number of statements, of all transactions.
    pub fn statements(&self) -> u32
        ensures { result ≡ statements_in (entries self.now) }
    {
        self.statements
    }

    /// What is known of a transaction: by the index or, where that does not have it, by passes over the entries.
    fn known(&self, t: u32) -> Known
        ensures { result ≡ known_of t (entries self.now) }
    {
        match self.index.known(t) {
            Some(known) => known,
            None => Known {
                begin: facts::begin_version(&self.entries, t),
                read_committed: facts::is_read_committed(&self.entries, t),
                ran: facts::statement_count(&self.entries, t),
                fate: facts::fate(&self.entries, t),
                version: facts::version_of(&self.entries, t),
            },
        }
    }

    /// What has become of the transaction. A number that no transaction has did not end.
    pub fn fate(&self, t: u32) -> Fate
        ensures { result ≡ fate_of t (entries self.now) }
    {
        self.known(t).fate
    }

    /// The newest version when the transaction began, or 0 if no transaction has this number.
    pub fn begin_version(&self, t: u32) -> u32
        ensures { result ≡ begin_version t (entries self.now) }
    {
        self.known(t).begin
    }

    /// How many statements the transaction ran. A number that no transaction has ran none, in a log whose lines follow each
    /// other: [`statements_are_numbered`](crate::statements_are_numbered).
    pub fn statement_count(&self, t: u32) -> u32
        ensures { result ≡ statement_count t (entries self.now) }
    {
        self.known(t).ran
    }

    /// The version that the transaction made, if it made one.
    pub fn version_of(&self, t: u32) -> Option<u32>
        ensures { result ≡ version_of t (entries self.now) }
    {
        self.known(t).version
    }

    /// Where to look for the first statement of a transaction. Nothing is promised of the place: whether the statement there
    /// is the first one is told by its number.
    pub fn first_statement(&self, t: u32) -> u32 {
        self.index.first(t)
    }

    /// The statement of this number in the transaction, from 1, or None if there is none: exactly where the number is 0 or
    /// above the count of its statements, by [`statements_are_numbered`](crate::statements_are_numbered).
    pub fn statement(&self, t: u32, k: u32) -> Option<&Stmt>
        ensures { option_map (λ s. statement_view s.now) result
            ≡ statement_at t k (entries self.now) }
    {
        // A pass over all entries for each statement of a transaction would be slow.
        for place in self.first_statement(t)..self.len() {
            let entry = self.entry(place);
            if facts::is_own(entry, t, k) {
                return facts::statement_of(entry);
            }
        }
        facts::statement(&self.entries, t, k)
    }

    /// The version that the statement of this number in the transaction read: the newest one at its line, or the newest one when
    /// the transaction began, if it is not read committed. None if there is no such statement.
    #[tactic(auto, using(crate::proofs::VersionLemmas::version_read_is))]
    pub fn statement_version(&self, t: u32, k: u32) -> Option<u32>
        ensures { result ≡ option_map (λ s. statement_version t k (entries self.now))
            (statement_at t k (entries self.now)) }
    {
        match self.index.known(t) {
            // A pass over the entries for each statement would be slow.
            Some(known) if !known.read_committed => known.steady_version(k),
            _ => match self.index.read(t, k) {
                Some(version) => Some(version),
                None => facts::statement_version(&self.entries, t, k),
            },
        }
    }

    /// The version that the statement of this number in the transaction read, as [`statement_version`](Log::statement_version) tells
    /// it. Statement 0 is the BEGIN. If there is no such statement, it is 0.
    pub fn version_read_by(&self, t: u32, k: u32) -> u32
        ensures { result ≡ statement_version t k (entries self.now) }
    {
        if k == 0 {
            return self.known(t).begin;
        }
        match self.statement_version(t, k) {
            Some(version) => version,
            None => 0,
        }
    }

    /// The transaction that made the version: by the index or, where that does not have it, by a pass over the entries. If no commit
    /// made the version, it is 0, which no transaction has.
    pub fn maker(&self, version: u32) -> u32
        ensures { result ≡ committer_of version (entries self.now) }
    {
        match self.index.committer(version) {
            Some(t) => t,
            None => facts::committer(&self.entries, version),
        }
    }

    /// The transaction that made the version, or None if no commit did.
    pub fn committer(&self, version: u32) -> Option<u32>
        ensures { result ≡ numbered version (versions_in (entries self.now))
            (committer_of version (entries self.now)) }
    {
        if 0 < version && version <= self.commits {
            Some(self.maker(version))
        } else {
            None
        }
    }

    /// The number of commits at lines up to this one.
    pub fn version_at(&self, line: u32) -> u32
        ensures { result ≡ version_at line (entries self.now) }
    {
        facts::version_at(&self.entries, line)
    }
}
