//! The formats in which questions are answered.

/// How the answers to questions are written.
#[derive(Clone, Copy)]
pub enum Format {
    /// As text. Every question is answered.
    Text,
    /// As CSV (RFC 4180). Plain AS OF and REENACT are answered, and any other question is refused.
    Csv,
    /// As CSV under the names of columns. Questions that ask for rows, or for their difference, are answered, and any other question is
    /// refused.
    Named,
    /// As SQL. AS OF and REENACT, plain or explained, are answered by the query that asks for their rows, and any other question is
    /// refused.
    Sql,
}
