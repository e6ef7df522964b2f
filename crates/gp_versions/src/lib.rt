//! The versions of the rows of a table.
//!
//! A [`VersionTable`] keeps every row that its table has had, as a [`Span`]: the row, the version at which it began, and the
//! one at which it ended, if it did. A commit makes a version: it ends the spans of the rows that it wrote, and begins a span
//! for each of them that it did not delete. Nothing is removed, so the rows of every version can be read. Databases call
//! this transaction time, and SQL:2011 a system-versioned table.
//!
//! In reading order: [`Span`] and [`Write`], the [`Writes`] of a commit, and the [`VersionTable`] with [`AsOf`], the spans
//! that hold a version; a [`SpanList`] is what code takes that reads versions of a table. `chains.rt` finds the spans of an
//! identity, `columns.rt` those with a cell, and `current.rt` those that hold the newest versions. A [`Finder`] finds spans of a list
//! that no longer grows. The functions of `laws.rt`, as
//! [`written_after_is_the_least`], are laws of the definitions in `specs/`, which the contracts cite.
//!
//! ```text
//! let writes = Writes::from_vec(alloc, list)?;
//! table.reserve(writes.as_slice().len() as u32)?;
//! table.append_commit(3, writes); // cannot fail
//! for span in table.as_of(2) {} // the rows of version 2, as before
//! ```
#![tactic(auto)]

mod as_of;
mod chains;
mod columns;
mod commit;
mod current;
mod finder;
mod key;
mod later;
mod laws;
mod order;
mod places;
mod span;
mod span_list;
mod table;
mod writes;

pub use as_of::AsOf;
pub use finder::{Finder, Wanted};
pub use laws::{
    a_span_ends_at_the_next_write, a_version_has_one_row_of_an_identity, written_after_is_the_least,
};
pub use places::InColumn;
pub use span::{Span, Write};
pub use span_list::SpanList;
pub use table::VersionTable;
pub use writes::Writes;
