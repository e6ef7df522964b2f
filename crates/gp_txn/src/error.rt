//! The errors of this crate.

ghost use Rattle.std.specs.Prelude.{◌≡◌};

use gp_base::{NoMemory, RowId};
use gp_exec::ChooseStop;

/// Why a statement is not applied.
#[derive(Drop)]
pub enum StmtStop {
    /// An INSERT would leave more than [`MAX_TABLE_ROWS`](gp_base::MAX_TABLE_ROWS) rows in its table.
    Rows,
    /// An INSERT would make an identity of more than [`MAX_NODES`](gp_base::MAX_NODES) nodes.
    Ancestry,
    /// Memory ran out.
    NoMemory,
}

impl From<NoMemory> for StmtStop {
    ghost use Rattle.gp_txn.specs.declared.error.StmtStop.TheVariants as stop;

    ghost from_gives = { λ _ e. e ≡ stop.NoMemory };

    fn from(_error: NoMemory) -> StmtStop {
        StmtStop::NoMemory
    }
}

impl From<ChooseStop> for StmtStop {
    ghost use Rattle.gp_txn.specs.Stops.{stop_of};

    ghost from_gives = { λ error e. e ≡ stop_of error };

    /// A query has too many choices where its rows do not fit the table.
    fn from(error: ChooseStop) -> StmtStop {
        match error {
            ChooseStop::TooMany => StmtStop::Rows,
            ChooseStop::NoMemory => StmtStop::NoMemory,
        }
    }
}

/// Why nothing is committed.
#[derive(Drop)]
pub enum CommitStop {
    /// A later commit wrote a row that the transaction updated or deleted.
    Conflict {
        /// The first later version that wrote the row.
        version: u32,
        /// The place of its table, the first one with such a row.
        table: u32,
        /// The identity of the row, the least one of the table.
        id: RowId,
    },
    /// There would be more than [`MAX_SPANS`](gp_base::MAX_SPANS) spans.
    Full,
    /// Memory ran out.
    NoMemory,
}

impl From<NoMemory> for CommitStop {
    ghost use Rattle.gp_txn.specs.declared.error.CommitStop.TheVariants as stop;

    ghost from_gives = { λ _ e. e ≡ stop.NoMemory };

    fn from(_error: NoMemory) -> CommitStop {
        CommitStop::NoMemory
    }
}
