//! The error of a replay.

ghost use Rattle.std.specs.Prelude.{◌≡◌};

use gp_base::{NoMemory, RowId};

/// Why the commits of a log are not made again.
#[derive(Drop)]
pub enum ReplayStop {
    /// A commit would be lost.
    Lost {
        /// The version that the commit made.
        version: u32,
        /// The version that it would be lost to: the first one above the base of the row that wrote the row.
        other: u32,
        /// The place of the row's table.
        table: u32,
        /// The identity of the row, the least one that both wrote, by table and then by identity.
        id: RowId,
    },
    /// A statement would leave too many rows in its table.
    Rows {
        /// Its transaction.
        t: u32,
        /// Its number in the transaction.
        k: u32,
    },
    /// A statement would make an identity of too many nodes.
    Ancestry {
        /// Its transaction.
        t: u32,
        /// Its number in the transaction.
        k: u32,
    },
    /// There would be too many row versions.
    Full,
    /// Memory ran out.
    NoMemory,
}

impl From<NoMemory> for ReplayStop {
    ghost use Rattle.gp_whatif.specs.declared.error.ReplayStop.TheVariants as stop;

    ghost from_gives = { λ _ e. e ≡ stop.NoMemory };

    fn from(_error: NoMemory) -> ReplayStop {
        ReplayStop::NoMemory
    }
}
