//! The kinds of provenance tokens.

/// What a provenance token stands for.
#[derive(Clone, Copy, PartialEq, Eq)]
pub enum TokenKind {
    /// `i`, a row of an INSERT with VALUES
    I,
    /// `q`, an INSERT with a query
    Q,
    /// `u`, an UPDATE
    U,
}
