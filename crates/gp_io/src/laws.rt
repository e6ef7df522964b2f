//! A law of the shelves in memory, and one of the steps by which a file of the system is replaced. The functions do nothing: their postconditions are the laws.

ghost use Rattle.std.specs.Prelude.{◌≡◌, ℕ, List, ◌++◌, Option};
ghost use Rattle.gp_io.specs.Contents.{Contents, Leads, contents_of};
ghost use Rattle.gp_io.specs.Events.{Event};
ghost use Rattle.gp_io.specs.Moments.{AtEachMoment, AtTheEnd, IsNew, IsOld, IsOldOrNew};
ghost use Rattle.gp_io.specs.Steps.{Step};
ghost use Rattle.gp_io.specs.Whole.{IsBeside, IsLeft, IsRenamed, IsSync};
ghost use Rattle.gp_io.specs.MemoryFiles.{calm_files, mem_files};
ghost use Rattle.gp_io.specs.declared.calm.CalmShelf.{CalmShelf};
ghost use Rattle.gp_io.specs.declared.mem.MemShelf.{MemShelf};

use crate::calm::CalmShelf;
use crate::mem::MemShelf;
use crate::shelf::Shelf;

/// What a shelf in memory has done between two moments, it has done to its files: each read gave what the file then had, what was replaced
/// is in the files, and nothing else changed them. So a contract that speaks of the events of a call speaks of the files, too.
pub fn events_lead_to_files()
    ensures calm { (before after : CalmShelf) (events : List Event)
        → ⟦<CalmShelf as Shelf>⟧.events after ≡ ⟦<CalmShelf as Shelf>⟧.events before ++ events
        → Leads (contents_of (calm_files before)) events (contents_of (calm_files after)) }
    ensures mem { (before after : MemShelf) (events : List Event)
        → ⟦<MemShelf as Shelf>⟧.events after ≡ ⟦<MemShelf as Shelf>⟧.events before ++ events
        → Leads (contents_of (mem_files before)) events (contents_of (mem_files after)) }
{}

/// Where the calls of the system do what POSIX says of them and nobody else changes the files, a replacement that is done leaves the bytes
/// in the file and nothing of the temporary one. At each moment before, as where the process is killed, the file has what it had or all of
/// the bytes. At each moment of a replacement that failed it has what it had, or all of the bytes where only the sync of the folder failed.
/// No other file but the temporary one ever changes.
pub fn files_are_replaced_whole()
    ensures new { (target : List ℕ) (mode : Option ℕ) (bytes : List ℕ) (last : Step) (before steps : List Step) (old : Contents)
        → IsRenamed target mode bytes last before (before ++ steps) → IsSync target last
        → AtTheEnd (IsNew target bytes old) steps old }
    ensures whole { (target : List ℕ) (mode : Option ℕ) (bytes : List ℕ) (last : Step) (before steps : List Step) (old : Contents)
        → IsRenamed target mode bytes last before (before ++ steps) → IsSync target last
        → (temporary : List ℕ) × IsBeside target temporary × AtEachMoment (IsOldOrNew target temporary bytes old) steps old }
    ensures old { (target : List ℕ) (mode : Option ℕ) (bytes : List ℕ) (before steps : List Step) (old : Contents)
        → IsLeft target mode bytes before (before ++ steps)
        → (temporary : List ℕ) × IsBeside target temporary × AtEachMoment (IsOld target temporary old) steps old }
{}
