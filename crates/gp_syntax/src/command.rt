//! Commands and the lines of scripts.

use crate::term::Term;
use gp_base::{Name, Row, Sequence, Table};

/// One assignment of an UPDATE.
#[derive(Drop)]
pub struct SetTerm {
    /// The column.
    pub col: Name,
    /// Its new value.
    pub term: Term,
}

/// A table of a FROM.
#[derive(Drop)]
pub struct Item {
    /// The table.
    pub table: Name,
    /// Its name in the block, which is the table's own where none is written.
    pub name: Name,
}

/// What a SELECT lists.
#[derive(Drop)]
pub enum Items {
    /// `*`, all columns.
    Star,
    /// One term or more.
    List(Sequence<Term>),
}

/// A SELECT.
#[derive(Drop)]
pub struct Block {
    /// What it lists.
    pub items: Items,
    /// Its FROM, of one table or more.
    pub from: Sequence<Item>,
    /// Its WHERE.
    pub cond: Option<Term>,
}

/// A query: one block or more, with UNION ALL between them.
#[derive(Drop)]
pub struct Query {
    /// The blocks, in order.
    pub blocks: Sequence<Block>,
}

/// A command of a session.
#[derive(Drop)]
pub enum Command {
    /// `CREATE TABLE`
    Create {
        /// The new table.
        table: Table,
    },
    /// `BEGIN`, with or without `READ COMMITTED`
    Begin {
        /// Each statement of the transaction reads what was committed when it ran.
        read_committed: bool,
    },
    /// `COMMIT`
    Commit,
    /// `ROLLBACK`
    Rollback,
    /// `INSERT INTO` with VALUES
    Insert {
        /// The table.
        table: Name,
        /// The tuples.
        rows: Sequence<Row>,
    },
    /// `INSERT INTO` with a query
    InsertSelect {
        /// The table.
        table: Name,
        /// The query.
        query: Query,
    },
    /// `UPDATE`
    Update {
        /// The table.
        table: Name,
        /// The assignments, one or more.
        sets: Sequence<SetTerm>,
        /// The WHERE.
        cond: Option<Term>,
    },
    /// `DELETE FROM`
    Delete {
        /// The table.
        table: Name,
        /// The WHERE.
        cond: Option<Term>,
    },
    /// `SELECT`
    Select {
        /// The query.
        query: Query,
    },
}

/// A line of a script.
#[derive(Drop)]
pub struct ScriptLine {
    /// The session, from 1 to 64.
    pub session: u32,
    /// The command.
    pub command: Command,
}
