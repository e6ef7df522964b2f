//! What if: the log with statements of its transactions changed, and the commits of a log made again.
//!
//! In reading order: [`change`] gives the log with statements dropped, replaced and added, or refuses the changes.
//! [`replay`] makes the commits of a log again, from nothing: each transaction that made a version runs its
//! statements over the versions made so far, each on the version that it reads, and commits. It gives the row versions, or a
//! [`ReplayStop`]: the first commit that would have been lost, or would have passed a limit. [`replay_from`] goes on behind the
//! first versions, where a change is of a later commit. [`copied`] and [`spread`] are the entries of a
//! changed log. In `specs/`, `Changed` says what a changed log is, and `Replays` what a replay
//! answers. The laws say that a log of checked lines keeps its sessions, that a changed one can be replayed and has rising
//! lines, and that the log of a history is replayed as it was.
//!
//! ```text
//! let without = LogChange::Drop { t: 7, k: 2 }; // the second statement of transaction 7
//! let changed = change(alloc, &log, &[without])?;
//! let versions = replay(alloc, &changed)?; // one table of versions for each table of the log
//! ```
#![tactic(auto)]

mod changing;
mod entries;
mod error;
mod laws;
mod replaying;
mod versions;

pub use changing::change;
pub use entries::{copied, spread};
pub use error::ReplayStop;
pub use laws::{
    changed_lines_rise, changed_logs_are_checked, changed_logs_are_coherent,
    changed_logs_are_replayable, changes_keep_earlier_versions,
    histories_are_replayed_as_they_were, logs_keep_their_sessions,
    replays_have_the_tables_of_their_logs,
};
pub use replaying::{Made, make_version, none_made, replay, replay_from};
pub use versions::copy_versions;
