//! The tokens of provenance polynomials.

/// What a row owes to one statement: a variable of the provenance polynomials of Green, Karvounarakis and Tannen (2007).
/// Tokens compare by kind, in this order, then by their numbers. Transactions, statements and rows count from 1.
#[derive(Clone, Copy, PartialEq, Eq, PartialOrd, Ord)]
pub enum Token {
    /// The row was inserted by VALUES.
    Inserted {
        /// The transaction.
        t: u32,
        /// Its statement.
        k: u32,
        /// The row of the VALUES list.
        n: u32,
    },
    /// The row was inserted by a query.
    Queried {
        /// The transaction.
        t: u32,
        /// Its statement.
        k: u32,
    },
    /// The row was updated.
    Updated {
        /// The transaction.
        t: u32,
        /// Its statement.
        k: u32,
    },
}

// The buffer inside a short list of tokens needs a value for the places that are not in use.
impl Default for Token {
    fn default() -> Token {
        Token::Inserted { t: 0, k: 0, n: 0 }
    }
}
