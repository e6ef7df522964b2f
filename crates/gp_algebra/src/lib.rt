//! Statements over numbered tables and columns, as the check of names and types gives them, the annotated algebra, to which
//! statements are rewritten, and the plain algebra, in which questions are computed.
//!
//! In reading order: [`Stmt`] is a statement, [`Select`] a query of [`Branch`]es, [`SetExpr`] an assignment of an UPDATE.
//! [`Program`] is a program over queries of one algebra: steps [`Step`] and a last query. [`AProgram`] is one of the annotated
//! algebra, whose rows carry identities, marks and annotations: its query is [`AQuery`], in which a [`Change`] is what an UPDATE
//! does to a row; [`copy_query`] copies a query and [`copy_exprs`] a list of expressions. [`PProgram`] is a plain program, whose
//! query is [`PQuery`]. [`Reads`] tells the earlier steps that a query of either algebra reads. [`scans_of`] and [`scans`]
//! give the tables and versions that a program of the one and of the other algebra reads. [`select_is_simple`] and
//! [`is_well_built`] test what the executor asks for.
//!
//! In `specs/`, `Statements`, `AnnotatedQueries` and `Plain` have these types without the pointers of their boxes, and `Views`,
//! `QueryViews` and `PlainViews` map the types of the code to those. `Answers` and `Effects` say what queries and statements
//! mean over annotated rows, `AnnotatedQueries` what an annotated program does, `Plain` and `Stops` what a plain program gives
//! and where it stops, `QueryForms` which forms annotated programs have, and `Fitting` when a statement or a query fits the
//! tables of a catalogue. The laws of these definitions begin with [`answers_respect_bags`].
//!
//! ```text
//! // DELETE FROM the first table, all rows
//! Stmt::Delete { table: 0, cond: Cond::True }
//! ```
#![tactic(auto)]

mod annotated;
mod built;
mod copying;
mod laws;
mod plain;
mod program;
mod reads;
mod scan;
mod simple;
mod statement;

pub use annotated::{AQuery, Change};
pub use built::is_well_built;
pub use copying::{copy_exprs, copy_query};
pub use laws::{
    annotations_commute, answers_respect_bags, fitting_queries_are_simple,
    programs_read_their_scans, programs_respect_bags, statements_respect_bags,
};
pub use plain::{PQuery, ScanAt};
pub use program::{AProgram, AStep, PProgram, PStep, Program, Step};
pub use reads::Reads;
pub use scan::{scans, scans_of};
pub use simple::select_is_simple;
pub use statement::{Branch, Select, SetExpr, Stmt};
