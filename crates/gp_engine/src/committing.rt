//! The end of a transaction.

ghost use Rattle.std.specs.Prelude.{◌≡◌, ◌<◌, suc, true, IfOk, OnErr, OnOk, length};
ghost use Rattle.gp_log.specs.Kinds.{ends};
ghost use Rattle.gp_log.specs.Logs.{what_view};
ghost use Rattle.gp_machine.specs.ActionForms.{Commit, Rollback};
ghost use Rattle.gp_machine.specs.Entries.{Lost, Ended, committer_of};
ghost use Rattle.gp_machine.specs.Event.{name_at};
ghost use Rattle.gp_engine.specs.Engine.{IsEngine, IsUnchanged, entries_of, tables_of};
ghost use Rattle.gp_engine.specs.Methods.{Clears, DoesAt, HasPlace, IsConflictIn, Stops, running_at};

use crate::state::State;
use gp_base::{Limit, NoMemory, Refusal, RowId};
use gp_log::What;
use gp_machine::Reply;
use gp_txn::CommitStop;

impl State {
    /// Ends the transaction at a place. The log has a place for that, so memory does not run out.
    fn end(&mut self, line: u32, place: usize, t: u32, what: What)
        requires place { place < 64 }
        requires room { HasPlace self.old.log }
        requires end { ends what ≡ true }
        ensures { Clears self.old self.new place (what_view line (suc place) t what) }
    {
        match self.append(line, place, t, what) {
            Ok(()) => {}
            Err(_) => unreachable!(),
        }
        self.sessions[place] = None;
    }

    /// ROLLBACK in the session at a place: the writes of its transaction are gone.
    pub fn roll_back(&mut self, line: u32, place: usize) -> Reply
        requires place { place < 64 }
        requires engine { IsEngine self.old }
        ensures { DoesAt self.old self.new result line place (running_at self.old place) Rollback }
    {
        match &self.sessions[place] {
            Some(running) => {
                let t = running.active.t();
                self.end(line, place, t, What::Rollback);
                Reply::RolledBack { t }
            }
            None => Reply::Refused(Refusal::E10),
        }
    }

    /// The refusal of a commit that is lost to a version.
    fn lost(&self, t: u32, version: u32, table: u32, id: RowId) -> Result<Refusal, NoMemory>
        requires { table < length (tables_of self.now) }
        ensures { IfOk result (λ refusal. refusal ≡ Refusal.E11
            t (committer_of version (entries_of self.now)) (name_at table (tables_of self.now)) id) }
    {
        let other = self.log.maker(version);
        let table = self.log.catalog().table(table).name.clone()?;
        Ok(Refusal::E11 {
            t,
            other,
            table,
            id,
        })
    }

    /// A commit that is lost ends its transaction.
    fn lose(
        &mut self,
        line: u32,
        place: usize,
        t: u32,
        version: u32,
        table: u32,
        id: RowId,
    ) -> Result<Reply, NoMemory>
        requires place { place < 64 }
        requires room { HasPlace self.old.log }
        requires table { table < length (tables_of self.old) }
        ensures ended { OnOk result (Clears self.old self.new place (Ended line (suc place) Lost t)) }
        ensures reply { IfOk result (λ reply. reply ≡ Reply.Refused (Refusal.E11 t
            (committer_of version (entries_of self.old)) (name_at table (tables_of self.old)) id)) }
        ensures err { OnErr result (self.new ≡ self.old) }
    {
        let refusal = self.lost(t, version, table, id)?;
        self.end(line, place, t, What::Lost);
        Ok(Reply::Refused(refusal))
    }

    /// Refuses a commit that was stopped, or ends its transaction.
    fn stop(&mut self, line: u32, place: usize, t: u32, stop: CommitStop) -> Result<Reply, NoMemory>
        requires place { place < 64 }
        requires room { HasPlace self.old.log }
        requires conflict { IsConflictIn (length (tables_of self.old)) stop }
        ensures ok { IfOk result (λ reply. Stops self.old self.new reply line place t stop) }
        ensures err { OnErr result (self.new ≡ self.old) }
    {
        match stop {
            CommitStop::Conflict { version, table, id } => {
                self.lose(line, place, t, version, table, id)
            }
            CommitStop::Full => Ok(Reply::Refused(Refusal::E14 {
                limit: Limit::Versions,
            })),
            CommitStop::NoMemory => Err(NoMemory),
        }
    }

    /// COMMIT in the session at a place: makes the next version, unless a later commit wrote a row of the transaction, or the row
    /// versions would be too many. A commit that is lost ends its transaction too.
    pub fn commit(&mut self, line: u32, place: usize) -> Result<Reply, NoMemory>
        requires place { place < 64 }
        requires engine { IsEngine self.old }
        ensures ok { IfOk result (λ reply.
            DoesAt self.old self.new reply line place (running_at self.old place) Commit) }
        ensures err { OnErr result (IsUnchanged self.old self.new) }
    {
        let version = self.log.commits() + 1;
        // Lent as `&mut` though it is only read: so the versions can be lent beside it.
        match &mut self.sessions[place] {
            Some(running) => {
                let t = running.active.t();
                match running.active.commit(&mut self.versions, version) {
                    Ok(()) => {
                        self.end(line, place, t, What::Commit);
                        Ok(Reply::Committed { t, version })
                    }
                    Err(stop) => self.stop(line, place, t, stop),
                }
            }
            None => Ok(Reply::Refused(Refusal::E10)),
        }
    }
}
