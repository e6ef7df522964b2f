//! What a dump holds.

ghost use Rattle.std.specs.Prelude.{◌≡◌, true};
ghost use Rattle.gp_check.specs.Valid.{tables_are_valid};
ghost use Rattle.gp_log.specs.Contents.{tables};
ghost use Rattle.gp_dump.specs.Answerable.{IsAnswerable, answerable_prop, as_dump};

use gp_base::Sequence;
use gp_log::Log;
use gp_versions::VersionTable;

/// The greatest length of a dump, in bytes.
pub const MAX_DUMP_LENGTH: usize = 67_108_864;

/// A log, and the row versions of each of its tables, from which questions are answered: a dump that was read, or one of commits that were
/// made again. The log keeps its sessions, what both hold fits its tables, and each table has a column.
#[derive(Drop)]
pub struct Dump {
    /// The accepted lines.
    pub log: Log,
    /// The row versions of each table, in order of creation.
    pub versions: Sequence<VersionTable>,
    pub ghost answerable: { IsAnswerable (as_dump log versions) } by { answerable_prop (as_dump log versions) },
    pub ghost valid: { tables_are_valid (tables log) ≡ true },
}
