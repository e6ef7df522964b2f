//! Rewriting: a statement as a query of the annotated algebra, which gives the new contents of the table that it writes. An
//! UPDATE is a projection with CASE, a DELETE a selection, an INSERT a union: reenactment (Arab, Gawlick, Krishnaswamy,
//! Radhakrishnan and Glavic, Reenactment for Read-Committed Snapshot Isolation, 2016).
//!
//! In reading order: [`query`] rewrites a query, [`step`] a statement. Both are given a query for each table that they read,
//! in the order of the catalogue: a scan of a version, or the step of an earlier statement. In `specs/`, `Rewriting` has the
//! rewriting itself.
//!
//! ```text
//! // DELETE FROM r WHERE a = 1 is the selection of the rows of r for which a = 1 is false or unknown
//! let step = step(alloc, t, k, &stmt, &catalog, &tables)?;
//! ```
#![tactic(auto)]

mod branch;
mod laws;
mod statement;
mod there;

pub use branch::query;
pub use laws::{rewritten_statements_have_their_forms, rewritten_statements_mean_the_statements};
pub use statement::step;
pub use there::fitting_selects_are_there;
