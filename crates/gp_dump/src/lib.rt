//! The dump of a history: a text that holds its log and all its row versions.
//!
//! [`write_dump`] writes the text, and [`read_dump`] reads a [`Dump`] from it, or gives the first fault as a [`DumpStop`]. In
//! `specs/`, `Dumps` says what a dump holds, what its text is and which dumps are well formed, and `Rules` which rule fails
//! first: the rules of each line, given the lines before it, by the texts of lines. `Verdicts` says the same by the forms that
//! the reader tests. There are two formats: in the second one the log may have BEGIN
//! READ COMMITTED. A dump is written in the second format only if its log has that command.
//!
//! In reading order: `lines` cuts the bytes into lines, `discipline` finds the entry of a log line, `rules` tests the rules
//! of single lines, `read` reads the lines in order, and `write` writes them. The functions of `laws`, `fitting` and
//! `histories`, as [`well_formed_dumps_are_read`] and [`dumps_of_histories_are_well_formed`], are laws.
//!
//! ```text
//! let text = write_dump(alloc, engine.log(), engine.versions())?;
//! match read_dump(alloc, &text) {
//!     Ok(dump) => answer(&dump),
//!     Err(DumpStop::Fault { f, line }) => report(f, line),
//!     Err(DumpStop::NoMemory) => return Err(NoMemory),
//! }
//! ```
#![tactic(auto)]

mod discipline;
mod dump;
mod error;
mod fitting;
mod histories;
mod laws;
mod lines;
mod read;
mod rules;
mod write;

pub use dump::{Dump, MAX_DUMP_LENGTH};
pub use error::DumpStop;
pub use fitting::well_formed_dumps_fit_their_tables;
pub use histories::dumps_of_histories_are_well_formed;
pub use laws::{
    first_faults_are_found, one_text_for_one_dump, well_formed_dumps_are_read,
    what_was_read_is_written_again,
};
pub use read::read_dump;
pub use write::write_dump;
