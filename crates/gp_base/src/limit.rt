//! The limits that a script or a question can pass, and those of tables and answers.

/// A table has at most this many rows after an INSERT.
pub const MAX_TABLE_ROWS: usize = 10_000;

/// An answer has at most this many rows.
pub const MAX_ANSWER_ROWS: usize = 50_000;

/// All tables together have at most this many row versions.
pub const MAX_SPANS: u32 = 100_000;

/// A limit, as a refusal names it.
#[derive(Clone, Copy)]
pub enum Limit {
    /// `tables`: the tables of a database.
    Tables,
    /// `columns`: the columns of a table or of a written select list.
    Columns,
    /// `from`: the items of a FROM.
    From,
    /// `branches`: the blocks of a query.
    Branches,
    /// `values`: the rows of a VALUES.
    Values,
    /// `nodes`: the nodes of a term.
    Nodes,
    /// `depth`: the open brackets and CASEs of a line, and the levels of a term.
    Depth,
    /// `changes`: the changes of a WHATIF.
    Changes,
    /// `transactions`: the transactions of a script.
    Transactions,
    /// `statements`: the statements of a script.
    Statements,
    /// `steps`: the statements of a transaction.
    Steps,
    /// `versions`: the row versions over all tables.
    Versions,
}
