//! What the engine keeps.

ghost use Rattle.std.specs.Prelude.{◌≡◌, ℕ, ◌<◌, ◌-◌, ◌^◌, [], suc, true, length, None, OnErr, OnOk, IsOk, slice_index_or};
ghost use Rattle.gp_log.specs.Kinds.{CreatesNew, HasNextNumber, ends, is_statement};
ghost use Rattle.gp_log.specs.LogCounts.{open_in};
ghost use Rattle.gp_log.specs.Logs.{what_view};
ghost use Rattle.gp_engine.specs.Engine.{entries_of, tables_of};
ghost use Rattle.gp_engine.specs.Methods.{Appends};

use crate::running::Running;
use gp_base::NoMemory;
use gp_log::{Entry, Log, What};
use gp_versions::VersionTable;
use std::alloc::Global;
use std::array;
use std::marker::Model;

/// The state between two lines, as far as the engine keeps it.
#[derive(Drop)]
pub struct State {
    pub(crate) alloc: Global,
    pub(crate) log: Log,
    pub(crate) versions: Vec<VersionTable>,
    pub(crate) sessions: [Option<Running>; 64],
}

impl Model for State {
    ghost use Rattle.gp_engine.specs.Engine.{Engine};
    ghost use Rattle.gp_engine.specs.EngineCode.{engine_code};

    ghost Value = { Engine };

    ghost coded = { engine_code };

    ghost view = { λ a. record { log = a.log; versions = a.versions.items; sessions = a.sessions } };
}

fn no_transaction() -> Option<Running>
    ensures { result ≡ None }
{
    None
}

/// Sessions without a transaction.
fn no_transactions() -> [Option<Running>; 64]
    ensures { (place : ℕ) → slice_index_or result place None ≡ None }
{
    array::from_fn(|_| no_transaction())
}

impl State {
    /// The state before the first line.
    pub fn new(alloc: Global) -> State
        ensures log { result.log.entries ≡ [] }
        ensures versions { result.versions ≡ [] }
        ensures sessions { (place : ℕ) → slice_index_or result.sessions place None ≡ None }
        ensures places { length result.sessions ≡ 64 }
    {
        State {
            alloc,
            log: Log::new(alloc),
            versions: Vec::new(alloc),
            sessions: no_transactions(),
        }
    }

    /// Adds an accepted line of the session at a place to the log. If memory runs out, nothing changes.
    pub fn append(&mut self, line: u32, place: usize, t: u32, what: What) -> Result<(), NoMemory>
        requires place { place < 64 }
        requires few { length self.old.log.entries < 2 ^ 32 - 1 }
        requires new { CreatesNew (tables_of self.old) what }
        requires number { HasNextNumber (entries_of self.old) t what }
        ensures ok { OnOk result (Appends self.old self.new (what_view line (suc place) t what)) }
        ensures err { OnErr result (self.new ≡ self.old) }
        ensures ends { ends what ≡ true → 0 < open_in (entries_of self.old) → IsOk result }
        ensures ready { is_statement what ≡ true → self.old.log.ready ≡ true → IsOk result }
    {
        self.log.append(Entry {
            line,
            session: place as u32 + 1,
            t,
            what,
        })
    }
}
