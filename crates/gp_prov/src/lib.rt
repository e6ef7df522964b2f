//! Annotated programs as plain ones. The executor knows no identities, marks and monomials of rows, so a plain program
//! carries them in system columns behind the user columns of each table.
//!
//! In reading order: [`to_plain`] makes a plain program of an annotated one. In `specs/`, `Encoding` says how annotated rows
//! become rows of cells, and `ToPlain` defines the plain program. The laws [`plain_programs_mean_the_annotated`] and
//! [`plain_programs_are_well_built`] say that it gives the same rows, and that the executor takes it.
//!
//! ```text
//! // SELECT x.a, y.d FROM x, y, where x has the columns a and b and y has c and d, without provenance. The identity and the
//! // mark of x are in the columns 3 and 4.
//! Project [Col 1, Col 4] of Product   becomes   Project [Col 1, Col 6] of Product
//! ```
#![tactic(auto)]

mod columns;
mod laws;
mod numbers;
mod program;
mod projections;
mod queries;
mod rows;

pub use laws::{plain_programs_are_well_built, plain_programs_mean_the_annotated};
pub use program::to_plain;
