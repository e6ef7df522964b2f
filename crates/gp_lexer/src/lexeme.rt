//! Lexemes, the units that the lexer gives to the parser.

ghost use Rattle.std.specs.Prelude.{◌≡◌, ◌<◌, ◌^◌};

use gp_base::{Name, Text};
use std::marker::Model;

/// The byte at both ends of a text.
pub(crate) const QUOTE: u8 = b'\'';

/// A reserved word or a sign. No name is a reserved word.
#[derive(Clone, Copy, PartialEq, Eq)]
pub enum Symbol {
    /// `ALL`
    All,
    /// `AND`
    And,
    /// `AS`
    As,
    /// `BEGIN`
    Begin,
    /// `CASE`
    Case,
    /// `COMMIT`
    Commit,
    /// `CREATE`
    Create,
    /// `DELETE`
    Delete,
    /// `ELSE`
    Else,
    /// `END`
    End,
    /// `FROM`
    From,
    /// `INSERT`
    Insert,
    /// `INT`
    Int,
    /// `INTO`
    Into,
    /// `IS`
    Is,
    /// `NOT`
    Not,
    /// `NULL`
    Null,
    /// `OR`
    Or,
    /// `ROLLBACK`
    Rollback,
    /// `SELECT`
    Select,
    /// `SET`
    Set,
    /// `TABLE`
    Table,
    /// `TEXT`
    Text,
    /// `THEN`
    Then,
    /// `TRUE`
    True,
    /// `UNION`
    Union,
    /// `UPDATE`
    Update,
    /// `VALUES`
    Values,
    /// `WHEN`
    When,
    /// `WHERE`
    Where,
    /// `(`
    Open,
    /// `)`
    Close,
    /// `,`
    Comma,
    /// `.`
    Dot,
    /// `:`
    Colon,
    /// `;`
    Semicolon,
    /// `+`
    Plus,
    /// `-`, as an operator or as the sign of a number
    Minus,
    /// `*`
    Star,
    /// `=`
    Eq,
    /// `<>`, which is also read from `!=`
    Ne,
    /// `<`
    Lt,
    /// `<=`
    Le,
    /// `>`
    Gt,
    /// `>=`
    Ge,
}

/// A number of a line: 0 to 9223372036854775807, the greatest `i64`.
#[derive(Clone, Copy)]
pub struct Number {
    value: u64,
}

impl Model for Number {
    ghost use Rattle.std.specs.Prelude.{ℕ, ◌<◌, ◌^◌};

    ghost Value = { ℕ };

    ghost view = { λ a. a.value };

    ghost invariant = { λ a. a.value < 2 ^ 63 };

    ghost inverse = { λ n. record { value = n } };
}

impl Number {
    /// The number with this value.
    pub fn new(value: u64) -> Number
        requires { value < 2 ^ 63 }
        ensures { result ≡ value }
    {
        Number { value }
    }

    /// The value, which fits an `i64`.
    pub fn get(self) -> u64
        ensures value { result ≡ self }
        ensures range { result < 2 ^ 63 }
    {
        self.value
    }
}

/// A lexeme of a line.
#[derive(Drop)]
pub enum Lexeme {
    /// A reserved word or a sign.
    Symbol(Symbol),
    /// A word that is not reserved, in lower case: a name, or one of the words that have a meaning only at their place
    /// in a question.
    Word(Name),
    /// Digits with a value of at most 9223372036854775807.
    Number(Number),
    /// Digits with the value 9223372036854775808, which only a `-` before it makes an `i64`.
    Big,
    /// A text between quotes: its value, at most 255 bytes without control characters.
    Text(Text),
}
