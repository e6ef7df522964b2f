//! Statements and queries. Tables are numbered by their places in the catalogue, from 0.

ghost use Rattle.std.specs.Prelude.{◌≡◌};
ghost use Rattle.gp_algebra.specs.Statements.{target};
ghost use Rattle.gp_algebra.specs.Views.{statement_view};

use gp_base::{Row, Sequence};
use gp_expr::{Cond, Expr};

/// An assignment of an UPDATE.
#[derive(Drop)]
pub struct SetExpr {
    /// The column, which count from 1.
    pub col: u32,
    /// Its new value, over the old row.
    pub expr: Expr,
}

/// One SELECT of a query. It gives a row for each choice of a row from each table for which its condition is true or
/// missing. The columns of its expressions count from 1 through the chosen rows, side by side.
#[derive(Drop)]
pub struct Branch {
    /// The tables, in the order of FROM. A table may stand in it several times.
    pub from: Sequence<u32>,
    /// The WHERE.
    pub cond: Option<Cond>,
    /// The values of the row that it gives.
    pub items: Sequence<Expr>,
}

/// A query: the rows of its branches together, as UNION ALL gives them in SQL (ISO/IEC 9075-2).
#[derive(Drop)]
pub struct Select {
    /// The branches, in order.
    pub branches: Sequence<Branch>,
}

/// A statement. An UPDATE or DELETE without WHERE has the condition that is always true.
#[derive(Drop)]
pub enum Stmt {
    /// INSERT with VALUES.
    Insert {
        /// The table.
        table: u32,
        /// The rows.
        rows: Sequence<Row>,
    },
    /// INSERT with a query.
    InsertSelect {
        /// The table.
        table: u32,
        /// The query.
        select: Select,
    },
    /// UPDATE.
    Update {
        /// The table.
        table: u32,
        /// The assignments.
        sets: Sequence<SetExpr>,
        /// Which rows it updates.
        cond: Cond,
    },
    /// DELETE.
    Delete {
        /// The table.
        table: u32,
        /// Which rows it deletes.
        cond: Cond,
    },
    /// SELECT.
    Read {
        /// The query.
        select: Select,
    },
}

impl Stmt {
    /// The table that the statement writes. A query writes none.
    pub fn target(&self) -> Option<u32>
        ensures { result ≡ target (statement_view self.now) }
    {
        match self {
            Stmt::Insert { table, .. }
            | Stmt::InsertSelect { table, .. }
            | Stmt::Update { table, .. }
            | Stmt::Delete { table, .. } => Some(*table),
            Stmt::Read { .. } => None,
        }
    }
}
