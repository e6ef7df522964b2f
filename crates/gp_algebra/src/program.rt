//! Programs over queries of either algebra.

use crate::annotated::AQuery;
use crate::plain::PQuery;
use gp_base::Sequence;

/// A step: the contents of a table after a statement.
#[derive(Drop)]
pub struct Step<Q> {
    /// The number of the statement.
    pub j: u32,
    /// The table.
    pub table: u32,
    /// The contents. That of an INSERT is a union.
    pub query: Q,
}

/// A program: steps, which are taken in order, and a last query.
#[derive(Drop)]
pub struct Program<Q> {
    /// The steps, in rising order of their numbers.
    pub steps: Sequence<Step<Q>>,
    /// The last query.
    pub last: Q,
}

/// A step of a plain program.
pub type PStep = Step<PQuery>;

/// A plain program.
pub type PProgram = Program<PQuery>;

/// A step of an annotated program.
pub type AStep = Step<AQuery>;

/// An annotated program.
pub type AProgram = Program<AQuery>;
