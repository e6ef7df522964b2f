//! What a log keeps of each transaction and version, so that a question about one does not pass over the entries.

ghost use Rattle.std.specs.Prelude.{◌≡◌, ℕ, suc, ◌<◌, ◌∷◌, ◌++◌, [], List, OnOk, Some};
ghost use Rattle.std.specs.Option.{IfSome};
ghost use Rattle.gp_algebra.specs.Statements.{Statement};
ghost use Rattle.gp_grammar.specs.Syntax.{Command};
ghost use Rattle.gp_log.specs.Indexing.{AreNoted, AreSteady, HasReads, IsIndex, begun, known_of};
ghost use Rattle.gp_log.specs.Kinds.{HasNextNumber};
ghost use Rattle.gp_log.specs.LogCounts.{numbered, version_read};
ghost use Rattle.gp_log.specs.Logs.{what_view};
ghost use Rattle.gp_machine.specs.Entries as m;
ghost use Rattle.gp_machine.specs.Entries.{committer_of, fate_of_end, statement_count, versions_in};

use crate::entry::What;
use gp_base::{Fate, NoMemory, Sequence};
use std::alloc::Global;

/// What is known of a transaction.
#[derive(Clone, Copy)]
pub struct Known {
    /// The newest version when it began.
    pub begin: u32,
    /// Whether it is read committed.
    pub read_committed: bool,
    /// How many statements it ran.
    pub ran: u32,
    /// What has become of it.
    pub fate: Fate,
    /// The version that it made, if it made one.
    pub version: Option<u32>,
}

impl Known {
    /// The version that a statement of this number read, where each statement has read the begin version.
    pub fn steady_version(&self, k: u32) -> Option<u32>
        ensures { result ≡ numbered k self.now.ran self.now.begin }
    {
        if 0 < k && k <= self.ran {
            Some(self.begin)
        } else {
            None
        }
    }
}

/// What is known of the transactions and versions of a log.
#[derive(Drop)]
pub struct Index {
    /// The transactions, from the first one on.
    pub transactions: Vec<Known>,
    /// For each transaction where its first statement is, to begin there. Nothing is promised of these places.
    pub firsts: Vec<u32>,
    /// The transactions that made the versions, from version 1 on. There are as many places as transactions.
    pub committers: Vec<u32>,
    /// For each transaction that is read committed the versions that its statements read, from the first one on, as far as there
    /// was memory for them.
    pub reads: Vec<Sequence<u32>>,
    /// The memory.
    pub alloc: Global,
    /// Whether each transaction is known. It is not if memory ran out, or if one has another number than the next.
    pub is_complete: bool,
}

/// The place of a number from 1, if it is at most the count.
fn place_of(number: u32, count: usize) -> Option<usize>
    ensures { IfSome result (λ place. (suc place ≡ number) × (place < count)) }
{
    if number == 0 || number as usize > count {
        return None;
    }
    Some(number as usize - 1)
}

/// Keeps the place of a statement that is the first one of its transaction.
fn note_first(firsts: &mut [u32], t: u32, k: u32, place: u32) {
    match place_of(t, firsts.len()) {
        Some(i) if k == 1 => firsts[i] = place,
        _ => {}
    }
}

/// Keeps the version that a statement of this number reads, if those are kept that the statements before it read.
fn note_version(reads: &mut [Sequence<u32>], t: u32, k: u32, version: u32) -> Result<(), NoMemory>
    ensures { OnOk result (AreNoted t k version reads.old reads.new) }
{
    match place_of(t, reads.len()) {
        Some(place) if reads[place].as_slice().len() + 1 == k as usize => {
            reads[place].push(version)
        }
        _ => Ok(()),
    }
}

impl Index {
    /// The index of an empty log, which takes no memory.
    #[tactic(auto, using(crate::proofs::SteadyLemmas::steady_none))]
    pub fn new(alloc: Global) -> Index
        ensures index { IsIndex result [] }
        ensures reads { HasReads result [] }
    {
        Index {
            transactions: Vec::new(alloc),
            firsts: Vec::new(alloc),
            committers: Vec::new(alloc),
            reads: Vec::new(alloc),
            alloc,
            is_complete: true,
        }
    }

    /// What is known of a transaction, if the index has it. Then each transaction of the log that is not read committed has
    /// read its begin version.
    pub fn known(&self, t: u32) -> Option<Known>
        ensures known { (log : List m.Entry) → IsIndex self.now log
            → IfSome result (λ known. known ≡ known_of t log) }
        ensures steady { (log : List m.Entry) → IsIndex self.now log
            → IfSome result (λ known. AreSteady log) }
    {
        match place_of(t, self.transactions.len()) {
            Some(place) if self.is_complete => Some(self.transactions[place]),
            _ => None,
        }
    }

    /// The transaction that made a version, if the index has it.
    pub fn committer(&self, version: u32) -> Option<u32>
        ensures { (log : List m.Entry) → IsIndex self.now log
            → IfSome result (λ t. t ≡ committer_of version log) }
    {
        match place_of(version, self.committers.len()) {
            Some(place) if self.is_complete => Some(self.committers[place]),
            _ => None,
        }
    }

    /// The version that a statement of this number in a transaction read, if the index has it.
    pub fn read(&self, t: u32, k: u32) -> Option<u32>
        ensures { (log : List m.Entry) → HasReads self.now log
            → IfSome result (λ version. version_read t k log ≡ Some version) }
    {
        if !self.is_complete {
            return None;
        }
        let reads = &self.reads[place_of(t, self.reads.len())?];
        let place = place_of(k, reads.as_slice().len())?;
        Some(reads.as_slice()[place])
    }

    /// Makes a place for a transaction that begins at this version.
    fn push(&mut self, version: u32, read_committed: bool) -> Result<(), NoMemory>
        ensures flag { self.new.is_complete ≡ self.old.is_complete }
        ensures reads { OnOk result (self.new.reads.items ≡ self.old.reads.items ++ [] ∷ []) }
        ensures transactions { OnOk result (self.new.transactions.items
            ≡ self.old.transactions.items ++ begun version read_committed ∷ []) }
        ensures committers { OnOk result (self.new.committers.items
            ≡ self.old.committers.items ++ 0 ∷ []) }
    {
        self.committers.push(0)?;
        self.firsts.push(0)?;
        self.reads.push(Sequence::new(self.alloc))?;
        self.transactions.push(Known {
            begin: version,
            read_committed,
            ran: 0,
            fate: Fate::Active,
            version: None,
        })?;
        Ok(())
    }

    /// A transaction begins at this version. If it has another number than the next, or if memory runs out, the index is not
    /// complete any more.
    fn begin(&mut self, t: u32, version: u32, read_committed: bool)
        ensures index { (log : List m.Entry) (line session : ℕ) → version ≡ versions_in log
            → IsIndex self.old log
            → IsIndex self.new (m.Began line session t read_committed ∷ log) }
        ensures reads { (log : List m.Entry) (line session : ℕ) → HasReads self.old log
            → HasReads self.new (m.Began line session t read_committed ∷ log) }
    {
        if t as usize != self.transactions.len() + 1 {
            self.is_complete = false;
            return;
        }
        match self.push(version, read_committed) {
            Ok(()) => {}
            Err(_) => self.is_complete = false,
        }
    }

    /// Keeps the version that a statement of this number reads, where the log has so many commits, if its transaction is read
    /// committed.
    fn note_read(&mut self, t: u32, k: u32, commits: u32)
        ensures index { (log : List m.Entry) → IsIndex self.old log → IsIndex self.new log }
        ensures reads { (log : List m.Entry) (line session : ℕ) (command : Command)
            (statement : Statement) → commits ≡ versions_in log
            → k ≡ suc (statement_count t log) → IsIndex self.old log → HasReads self.old log
            → HasReads self.new (m.Ran line session command t statement ∷ log) }
    {
        match self.known(t) {
            Some(known) if known.read_committed => {
                match note_version(&mut self.reads, t, k, commits) {
                    Ok(()) => {}
                    Err(_) => self.is_complete = false,
                }
            }
            _ => {}
        }
    }

    /// A transaction runs a statement of this number.
    #[tactic(auto, using(crate::proofs::SteadyLemmas::steady_ran))]
    fn run(&mut self, t: u32, k: u32)
        ensures reads { (log : List m.Entry) → HasReads self.old log → HasReads self.new log }
        ensures index { (log : List m.Entry) (line session : ℕ) (command : Command) (statement : Statement)
            → k ≡ suc (statement_count t log) → IsIndex self.old log
            → IsIndex self.new (m.Ran line session command t statement ∷ log) }
    {
        match place_of(t, self.transactions.len()) {
            Some(place) => self.transactions[place].ran = k,
            None => self.is_complete = false,
        }
    }

    /// A transaction ends without a version.
    #[tactic(auto, using(crate::proofs::SteadyLemmas::steady_ended))]
    fn end(&mut self, t: u32, fate: Fate)
        ensures index { (log : List m.Entry) (line session : ℕ) (how : m.End) → fate ≡ fate_of_end how
            → IsIndex self.old log → IsIndex self.new (m.Ended line session how t ∷ log) }
        ensures reads { (log : List m.Entry) → HasReads self.old log → HasReads self.new log }
    {
        match place_of(t, self.transactions.len()) {
            Some(place) => self.transactions[place].fate = fate,
            None => self.is_complete = false,
        }
    }

    /// A transaction makes this version.
    #[tactic(auto, using(crate::proofs::SteadyLemmas::steady_committed))]
    fn commit(&mut self, t: u32, version: u32)
        ensures index { (log : List m.Entry) (line session : ℕ) → version ≡ suc (versions_in log)
            → IsIndex self.old log → IsIndex self.new (m.Committed line session t ∷ log) }
        ensures reads { (log : List m.Entry) → HasReads self.old log → HasReads self.new log }
    {
        let place = place_of(t, self.transactions.len());
        let made = place_of(version, self.committers.len());
        match (place, made) {
            (Some(place), Some(made)) => {
                let Known {
                    begin,
                    read_committed,
                    ran,
                    ..
                } = self.transactions[place];
                self.transactions[place] = Known {
                    begin,
                    read_committed,
                    ran,
                    fate: Fate::Committed(version),
                    version: Some(version),
                };
                self.committers[made] = t;
            }
            _ => self.is_complete = false,
        }
    }

    /// Adds an entry of the log, which stands at this place, where the log has so many commits with it.
    pub fn add(&mut self, place: u32, commits: u32, t: u32, what: &What)
        ensures index { (log : List m.Entry) (line session : ℕ)
            → commits ≡ versions_in (what_view line session t what.now ∷ log)
            → HasNextNumber log t what.now → IsIndex self.old log
            → IsIndex self.new (what_view line session t what.now ∷ log) }
        ensures reads { (log : List m.Entry) (line session : ℕ)
            → commits ≡ versions_in (what_view line session t what.now ∷ log)
            → HasNextNumber log t what.now → IsIndex self.old log → HasReads self.old log
            → HasReads self.new (what_view line session t what.now ∷ log) }
    {
        match what {
            What::Create(_) => {}
            What::Begin { read_committed } => self.begin(t, commits, *read_committed),
            What::Statement { k, .. } => {
                note_first(&mut self.firsts, t, *k, place);
                self.note_read(t, *k, commits);
                self.run(t, *k);
            }
            What::Commit => self.commit(t, commits),
            What::Lost => self.end(t, Fate::Lost),
            What::Rollback => self.end(t, Fate::RolledBack),
        }
    }

    /// Where to look for the first statement of a transaction.
    pub fn first(&self, t: u32) -> u32 {
        match place_of(t, self.firsts.len()) {
            Some(place) => self.firsts[place],
            None => 0,
        }
    }
}
