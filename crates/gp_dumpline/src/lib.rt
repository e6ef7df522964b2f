//! The lines of a dump, both ways.
//!
//! A dump is a text of lines. [`header`] gives the first, by the format of the dump, and [`END`] is the last; between them
//! are the log, with its number of lines in front, and a section for each table, with its number of rows. In reading order:
//! [`parse_header`] reads the format, [`parse_count`] and [`parse_section`] read these numbers, [`parse_log_line`] and
//! [`parse_said`] read what a line of the log says, and [`parse_span`] reads a row of a table. The lines have writers:
//! [`write_count`], [`write_section`], [`write_entry`] and [`write_span`]; [`append_entry`] and [`append_span`] do without a
//! text of the line. A text is read exactly where a writer could have written it: so says [`forms_are_texts`].
//!
//! ```text
//! let line = parse_log_line(b"3 s1 BEGIN"); // line 3, session 1
//! let span = parse_span(alloc, b"1.2.1 4 - 7, 'it''s'")?; // the row (7, it's) since version 4
//! ```
#![tactic(auto)]

mod cells;
mod constants;
mod counts;
mod first_line;
mod identity;
mod laws;
mod log_line;
mod number;
mod part;
mod said;
mod span;
mod write;

pub use constants::END;
pub use counts::{parse_count, parse_section};
pub use first_line::{header, parse_header};
pub use identity::MAX_PART;
pub use laws::{forms_are_texts, lines_are_one_line, said_lines_are_read_again};
pub use log_line::{LogLine, parse_log_line};
pub use said::{Said, parse_said};
pub use span::parse_span;
pub use write::{
    append_entry, append_span, begins_read_committed, write_count, write_entry, write_section,
    write_span,
};
