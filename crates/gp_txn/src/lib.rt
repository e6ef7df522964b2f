//! A running transaction: its statements over versions of the database, and its COMMIT.
//!
//! A transaction of the snapshot kind reads the version at which it began, and its own writes. Each statement of a read
//! committed transaction reads the newest version at that statement, and the transaction's own writes.
//!
//! In reading order: an [`Active`] is a running transaction. It keeps the [`TableWrites`] of each table, which lie over the
//! rows of a version: [`Slots`] of the rows that it wrote there, the [`Carried`] rows that it wrote over earlier versions, and
//! the rows that it inserted. [`Active::snapshot`] is the version that the next statement reads. [`Active::apply`] applies an
//! INSERT, an UPDATE or a DELETE and gives the number of rows that it writes, or a [`StmtStop`]. [`Active::select`] answers a
//! query and [`Active::view`] gives the rows of a table, both over what the transaction sees at a version. A statement that
//! is refused, or for which memory runs out, changes nothing. [`Active::commit`] makes a version of what the transaction
//! wrote, or gives a [`CommitStop`] and changes nothing: the commit is lost to a commit of one of its rows above the row's
//! base, or there would be more than [`MAX_SPANS`] spans. [`the_first_committer_wins`] is a law of the definitions in
//! `specs/`, which the contracts cite.
//!
//! Inside, `update` is UPDATE and DELETE, and `assignment` the rows that an UPDATE makes; `insert` makes the rows of an
//! INSERT, and `statement` puts both behind one call. `snapshot` makes the rows that a transaction sees over the version that
//! its writes lie over, and `rebase` moves the writes of a table to another version. `query` answers queries, and
//! `reads` tells which tables and rows they want. [`equated`] tells which cell a condition asks for, and `lookup` finds the rows
//! that it may be true of by an index of a column. Of a commit, `conflict` finds the row that it is lost by, `writes` copies the writes of a table,
//! `span_count` counts the spans that they leave, and `publication` makes room for them and then the version.
//!
//! ```text
//! let mut active = Active::begin(alloc, 3, 2, true); // transaction 3, read committed, from version 2
//! let version = active.snapshot(5); // the newest version: 2 for the snapshot kind
//! let count = active.apply(1, version, &statement, &versions)?; // its first statement
//! let rows = active.select(&query, version, &versions)?; // sees what the statement wrote
//! active.commit(&mut versions, 6)?; // version 6 has it too
//! ```
#![tactic(auto)]

mod active;
mod assignment;
mod carried;
mod change;
mod commit;
mod conflict;
mod equality;
mod error;
mod insert;
mod laws;
mod lookup;
mod overlay;
mod publication;
mod query;
mod reads;
mod rebase;
mod slots;
mod snapshot;
mod span_count;
mod statement;
mod update;
mod writes;

pub use active::Active;
pub use assignment::assigned;
pub use carried::{Carried, CarriedRows};
pub use equality::{Equality, equated};
pub use error::{CommitStop, StmtStop};
pub use laws::the_first_committer_wins;
pub use lookup::index_for;
pub use overlay::{Placed, Slot, TableWrites};
pub use slots::Slots;
