//! Sheets of comma-separated values (RFC 4180), read as a table and written as a script, and answers written as such sheets.
//!
//! In reading order: [`read_sheet`] reads a [`Sheet`], whose first record names the columns. [`write_script`] gives the script that
//! creates a table with the rows of a sheet. [`write_answer_csv`], [`write_titled_csv`] and [`write_refusal_csv`] write the answer to a question. In a field
//! NULL is `\N`, and a text that begins with a backslash is written with one more. [`CsvStop`] is the fault that a sheet is refused
//! for. The functions of `laws.rt`, as [`answers_are_read_back`], are laws of the definitions in `specs/`, which the contracts cite.
//!
//! ```text
//! let sheet = read_sheet(alloc, b"id,name\n1,Ann\n")?; // id INT, name TEXT
//! let script = write_script(alloc, &name, &sheet)?; // s1: CREATE TABLE people (id INT, name TEXT), and so on
//! ```
#![tactic(auto)]

mod answer;
mod error;
mod field;
mod heading;
mod laws;
mod number;
mod record;
mod script;
mod sheet;

pub use answer::{write_answer_csv, write_refusal_csv, write_titled_csv};
pub use error::CsvStop;
pub use laws::{
    answers_are_read_back, batches_hold_the_rows, cells_are_read_back, titled_sheets_are_read_again,
};
pub use script::{MAX_INSERTS, MAX_ROWS, MAX_STEPS, write_script};
pub use sheet::{Sheet, read_sheet};
