//! The check of names and types: from a command to a statement over numbered tables and columns, or its first refusal.
//!
//! In reading order: [`check`] checks a statement of a session, [`check_query`] the query of a question, [`check_table`] a
//! new table. In `specs/`, `Scopes` says what names stand for, `Typing` which type a term has, `Faults` which refusal
//! comes first, `Meaning` which statement a command means, and `Checking` puts these together. The statements of `Valid`
//! commands fit their catalogue, and by the laws every command that was read is valid.
//!
//! ```text
//! match check(alloc, &catalog, &command) {
//!     Ok(stmt) => run(stmt),
//!     Err(Stop::Refused(refusal)) => reply(refusal),
//!     Err(Stop::NoMemory) => return Err(NoMemory),
//! }
//! ```
#![tactic(auto)]

mod checker;
mod columns;
mod laws;
mod meaning;
mod names;
mod place;
mod scope;
mod source;
mod tables;
mod types;
mod typing;
mod widths;

pub use checker::{check, check_query, check_table};
pub use laws::{
    created_tables_are_valid, read_commands_are_valid, read_lines_are_valid,
    read_questions_are_valid, typing_follows_the_rules,
};
