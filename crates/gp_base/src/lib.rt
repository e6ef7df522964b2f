//! The values that all crates of gprom share, with their order and their texts.
//!
//! In reading order: [`Cell`] and [`Row`] are the values of a table, [`Text`] and [`Name`] the bytes in them, [`Table`] and
//! [`Column`] its description, [`Catalog`] the tables of a history, and [`Sequence`] the list type that they hold.
//! [`RowId`] is the identity of a row, [`Stored`] a row with its identity, and a [`Monomial`] of [`Token`]s the provenance
//! of a row. [`sort_rows`] sorts rows, [`write_row`] prints one, and [`write_joined`] prints the items of a list in any
//! [`TextFormat`]. [`Refusal`] is the reason why a line of a script is refused, [`NoMemory`] the error of calls that
//! allocate, and [`Stop`] that of calls that may be refused. [`rows_text`] and [`refused_text`] print what answers a line. The functions of `laws.rt`, as [`sorting_is_unique`], are laws of the definitions in `specs/`, which the
//! contracts cite.
//!
//! ```text
//! let mut row = Row::new(alloc);
//! row.push(Cell::Int(7))?;
//! row.push(Cell::Text(Text::from_bytes(alloc, b"it's")?))?;
//! write_row(alloc, &row, &mut out)?; // appends 7, 'it''s'
//! ```
#![tactic(auto)]

mod bytes;
mod catalog;
mod cell;
mod digits;
mod display;
mod error;
mod join;
mod laws;
mod limit;
mod monomial;
mod name;
mod numbered;
mod refusal;
mod row;
mod row_id;
mod sequence;
mod sort;
mod stop;
mod stored;
mod table;
mod text;
mod token;

pub use catalog::{Catalog, MAX_TABLES};
pub use cell::{Cell, CellRef};
pub use digits::digits_number;
pub use display::{CellFormat, write_id, write_monomial, write_row};
pub use error::{AddStop, NoMemory};
pub use join::{TextFormat, append_all, text_of_pieces, write_joined};
pub use laws::{
    identities_are_ordered, monomials_are_a_commutative_monoid, monomials_are_ordered,
    product_adds_counts, row_text_is_injective, sorting_is_unique, tokens_are_ordered,
};
pub use limit::{Limit, MAX_ANSWER_ROWS, MAX_SPANS, MAX_TABLE_ROWS};
pub use monomial::Monomial;
pub use name::{MAX_NAME_LENGTH, Name, is_name};
pub use numbered::{refused_text, rows_text, short_text};
pub use refusal::{Fate, Refusal, write_refusal};
pub use row::Row;
pub use row_id::{MAX_NODES, RowId};
pub use sequence::Sequence;
pub use sort::sort_rows;
pub use stop::Stop;
pub use stored::Stored;
pub use table::{Column, Kind, Table};
pub use text::{MAX_TEXT_LENGTH, Text, is_user_text, is_utf8};
pub use token::Token;
