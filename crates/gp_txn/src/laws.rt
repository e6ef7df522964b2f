//! Laws of the definitions that contracts cite. Each function does nothing: its postconditions are the laws.

ghost use Rattle.std.specs.Prelude.{◌≡◌, ℕ, List, None, Some, length, map};
ghost use Rattle.gp_base.specs.Identities.{Identity};
ghost use Rattle.gp_txn.specs.declared.conflict.Conflict.{Conflict};
ghost use Rattle.gp_txn.specs.declared.overlay.TableWrites.{TableWrites};
ghost use Rattle.gp_txn.specs.Conflicts.{IsFirstConflict, IsLost, lates_at, next_write};
ghost use Rattle.gp_txn.specs.Overlay.{carried_write};
ghost use Rattle.gp_txn.specs.Transactions.{table_at, writes_at};
ghost use Rattle.gp_versions.specs.Commits.{AreDistinct};
ghost use Rattle.gp_versions.specs.Spans.{Versions};
ghost use Rattle.gp_versions.specs.TableSpans.{AreWhole, NoOverlap};

/// The first committer of a row wins: a commit has a conflict exactly where a version above the base of a row that the
/// transaction updated or deleted wrote the row. The conflict is the least such row, by table and then by identity, with the
/// first such version.
pub fn the_first_committer_wins()
    ensures lost { (tables : List TableWrites) (versions : List Versions)
        → ((place : ℕ) → NoOverlap (table_at place versions).spans)
        → ((place : ℕ) → AreWhole (table_at place versions).spans)
        → ((place : ℕ) → AreDistinct (map carried_write (writes_at place tables).carried))
        → (conflict : Conflict)
        → IsFirstConflict (length versions) (lates_at tables versions) (Some conflict)
        → IsLost (next_write tables versions) conflict }
    ensures not_lost { (tables : List TableWrites) (versions : List Versions)
        → ((place : ℕ) → NoOverlap (table_at place versions).spans)
        → ((place : ℕ) → AreWhole (table_at place versions).spans)
        → ((place : ℕ) → AreDistinct (map carried_write (writes_at place tables).carried))
        → IsFirstConflict (length versions) (lates_at tables versions) None
        → (place : ℕ) (id : Identity) → next_write tables versions place id ≡ None }
{}
