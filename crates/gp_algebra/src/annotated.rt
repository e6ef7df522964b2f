//! The annotated algebra: queries over rows with identities, marks and annotations. Tables are numbered by their
//! places in the catalogue, from 0, and columns from 1.

use gp_base::{Row, Sequence, Token};
use gp_expr::{Cond, Expr};

/// What an UPDATE does to a row beside its new cells. Where the condition is true on the old cells, the row is marked, and its
/// annotation is multiplied by the token.
#[derive(Drop)]
pub struct Change {
    /// The condition.
    pub cond: Cond,
    /// The token of the statement.
    pub token: Token,
}

/// A query. Its rows carry the identities of the rows that they were computed from, whether the transaction wrote them, and an
/// annotation.
#[derive(Drop)]
pub enum AQuery {
    /// The rows of a table in a version.
    Scan {
        /// The table.
        table: u32,
        /// The version, from 0.
        version: u32,
    },
    /// The rows of an earlier step.
    Step {
        /// Its number.
        j: u32,
    },
    /// The rows for which the condition is true.
    Filter {
        /// The rows.
        input: Box<AQuery>,
        /// The condition.
        cond: Cond,
    },
    /// For each row, the values of the expressions on it, and what the change does to it.
    Project {
        /// The rows.
        input: Box<AQuery>,
        /// The expressions.
        exprs: Sequence<Expr>,
        /// The change, which an UPDATE has and a SELECT has not.
        change: Option<Change>,
    },
    /// Each left row followed by each right row. Their annotations are multiplied.
    Product {
        /// The left rows.
        left: Box<AQuery>,
        /// The right rows.
        right: Box<AQuery>,
    },
    /// The rows of both.
    Union {
        /// The first rows.
        left: Box<AQuery>,
        /// The second rows.
        right: Box<AQuery>,
    },
    /// The rows of a VALUES list. Each has an identity of its own, the mark and a token.
    Values {
        /// The transaction, from 1.
        t: u32,
        /// The statement, from 1.
        k: u32,
        /// The rows.
        rows: Sequence<Row>,
    },
    /// The rows that a branch of an INSERT makes of these. Each has a new identity over those that it was computed from, and
    /// the mark, and its annotation is multiplied by a token.
    NewRows {
        /// The transaction, from 1.
        t: u32,
        /// The statement, from 1.
        k: u32,
        /// The branch, from 1.
        b: u32,
        /// The rows.
        input: Box<AQuery>,
    },
    /// A transaction's rows onto a later version, as [`PQuery::Publish`](crate::PQuery::Publish) has them.
    Publish {
        /// The rows that the transaction read.
        base: Box<AQuery>,
        /// Its own rows at the end.
        mine: Box<AQuery>,
        /// The rows of the version before its commit.
        later: Box<AQuery>,
    },
}
