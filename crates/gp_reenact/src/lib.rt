//! Reenactment: a past transaction replayed as a query over the versions that it read (Arab, Gawlick, Krishnaswamy, Radhakrishnan
//! and Glavic, *Reenactment for Read-Committed Snapshot Isolation*, 2016).
//!
//! In reading order: [`log_refusal`] says whether a log has a state, and [`reenact`] gives the rows of a query over it: a version,
//! what a transaction saw after one of its statements, or what its commit published. [`planned`] composes the statements of the
//! transaction into a program ([`gp_compose`]), makes that a plain one ([`gp_prov`]) and merges it ([`gp_merge`]); a backend
//! ([`reenact_by`]), as the executor ([`gp_exec`]), runs it over the rows of past versions: over copies of them ([`env_at`]), or where
//! they lie if the program is one scan of one version and no steps.
//!
//! A plain program reads tables in versions, and its rows have columns for what SQL does not show: the cells of a table's row, then the
//! row's identity, then the mark NO, as no running transaction has written it. [`env_at`] takes them from the row versions of all
//! tables, for the scans that it is asked for. [`asked_scans_suffice`] is a law: a program whose scans are all asked has the rows, and
//! stops, as over all past versions.
//!
//! In `specs/`, `Reenacting` says what is answered, in terms of the run of the transaction, in which neither programs nor their columns
//! are seen; `Travel` has the rows of past versions, and `Encoding` those columns.
//!
//! ```text
//! let state = State::Commit { t: 2 };
//! if log_refusal(&log, state).is_none() {
//!     let rows = reenact(alloc, &log, &versions, state, &select)?; // in no particular order
//! }
//! ```
#![tactic(auto)]

mod encoding;
mod env;
mod laws;
mod looking;
mod past;
mod replay;
mod scan_laws;

pub use env::env_at;
pub use laws::committed_transactions_saw_what_is_reenacted;
pub use looking::{changes_refusal, looked, planned_saw, saw, saw_refusal};
pub use replay::{log_refusal, planned, reenact, reenact_by, stopped, transaction_at};
pub use scan_laws::{annotations_are_left_out, asked_scans_suffice};
