//! The plain algebra: queries over rows of cells. Tables are numbered by their places in the catalogue, from
//! 0, and columns from 1.

ghost use Rattle.std.specs.Prelude.{◌≡◌};
ghost use Rattle.gp_algebra.specs.Stops.{is_insert};
ghost use Rattle.gp_algebra.specs.PlainViews.{query_view};

use gp_base::{Row, Sequence};
use gp_expr::{Cond, Expr};

/// A query. Its meaning is a bag of rows.
#[derive(Drop)]
pub enum PQuery {
    /// The rows of a table in a version.
    Scan {
        /// The table.
        table: u32,
        /// The version, from 0.
        version: u32,
    },
    /// The rows of an earlier step.
    Step {
        /// Its number.
        j: u32,
    },
    /// The rows for which the condition is true.
    Filter {
        /// The rows.
        input: Box<PQuery>,
        /// The condition.
        cond: Cond,
    },
    /// For each row, the values of the expressions on it.
    Project {
        /// The rows.
        input: Box<PQuery>,
        /// The expressions.
        exprs: Sequence<Expr>,
    },
    /// Each left row followed by each right row.
    Product {
        /// The left rows.
        left: Box<PQuery>,
        /// The right rows.
        right: Box<PQuery>,
    },
    /// The rows of both.
    Union {
        /// The first rows.
        left: Box<PQuery>,
        /// The second rows.
        right: Box<PQuery>,
    },
    /// These rows.
    Values {
        /// The rows.
        rows: Sequence<Row>,
    },
    /// A transaction's rows onto a later version: the later rows whose identities the transaction has not written, and its
    /// own marked rows. It has written an identity if a marked row of it has that identity, or if it has no row with that
    /// identity but its base has.
    Publish {
        /// The column of the identity; the mark is in the next one.
        at: u32,
        /// The rows that the transaction read.
        base: Box<PQuery>,
        /// Its own rows at the end.
        mine: Box<PQuery>,
        /// The rows of the version before its commit.
        later: Box<PQuery>,
    },
}

impl PQuery {
    /// Whether it is the query of an INSERT step.
    pub fn is_insert(&self) -> bool
        ensures { result ≡ is_insert (query_view self.now) }
    {
        match self {
            PQuery::Union { .. } => true,
            _ => false,
        }
    }
}

/// A table in a version.
#[derive(Clone, Copy, PartialEq, Eq, PartialOrd, Ord)]
pub struct ScanAt {
    /// The table.
    pub table: u32,
    /// The version.
    pub version: u32,
}
