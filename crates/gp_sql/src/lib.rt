//! Plain programs as queries of SQL: the query of a program, and the tables of row versions that it asks.
//!
//! Each query of a program is a common table expression of its own, so the text is as long as the program. A table of row
//! versions has a row for each of them, with its identity and the versions at which it begins and ends. NULL is cast to the type
//! that is due at its place, since engines want types; so a program has a query only if its columns have types.
//!
//! In reading order: `types.rt` and `query_types.rt` find the types of columns. `cell_writer.rt`, `term_writer.rt` and
//! `item_writer.rt` append values; `name.rt`, `block_writer.rt`, `scan_writer.rt`, `values_writer.rt` and `publish_writer.rt` the
//! queries of operators; `query_writer.rt` whole queries, and `program_writer.rt` those of programs. `table_writer.rt` writes the
//! tables. In `specs/`, `Sql` is the tree of a query, `TypedQueries` which trees engines accept, and `Meaning` the rows that a query
//! gives; `Spelling` is its text, of which `Spelled` trees have one each; `CellTypes`, `SqlCells` and `VersionTables` relate its rows to
//! those of programs, and `TableTexts` is the text of the tables. `Types`, `Translation` and `NamedQueries` make the tree of a program
//! and belong to the contract of `write_query`, the others named here to the statement, and the rest to the contracts of the writers.
//!
//! ```text
//! write_tables(alloc, &catalog, &versions, &mut out)?; // CREATE TABLE r_versions (..); INSERT INTO r_versions VALUES (..);
//! let text = write_query(alloc, &program, &catalog)?; // WITH q1 AS (..) SELECT c1 AS c1 FROM q1;
//! ```
#![tactic(auto)]

mod block_writer;
mod cell_type;
mod cell_writer;
mod item_writer;
mod laws;
mod name;
mod program_writer;
mod publish_writer;
mod query_types;
mod query_writer;
mod scan_writer;
mod table_writer;
mod term_writer;
mod types;
mod values_writer;

pub use cell_type::CellType;
pub use laws::{
    queries_give_the_rows_of_programs, queries_of_programs_are_spelled,
    queries_of_programs_are_typed, texts_spell_one_query,
};
pub use program_writer::write_query;
pub use table_writer::write_tables;
