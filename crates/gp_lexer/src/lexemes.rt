//! The lexemes of a line with their columns.

ghost use Rattle.std.specs.Prelude.{◌≡◌, length};

use crate::lexeme::Lexeme;
use gp_base::Sequence;
use std::marker::Model;

/// The lexemes of a line and the column of each. Contracts see the pair of the two lists.
#[derive(Drop)]
pub struct Lexemes {
    lexemes: Sequence<Lexeme>,
    columns: Sequence<u32>,
}

impl Model for Lexemes {
    ghost use Rattle.std.specs.Prelude.{◌≡◌, List, ℕ, length};
    ghost use Rattle.gp_lexer.specs.declared.lexeme.Lexeme.{Lexeme};

    ghost Value = { List Lexeme × List ℕ };

    ghost view = { λ a. (a.lexemes, a.columns) };

    ghost invariant = { λ a. length a.columns ≡ length a.lexemes };
}

impl Lexemes {
    /// These lexemes, each with the column at the same place of `columns`.
    pub(crate) fn new(lexemes: Sequence<Lexeme>, columns: Sequence<u32>) -> Lexemes
        requires { length columns ≡ length lexemes }
        ensures { result ≡ (lexemes, columns) }
    {
        Lexemes { lexemes, columns }
    }

    /// The lexemes in the order of the line.
    pub fn lexemes(&self) -> &[Lexeme]
        ensures { result.now ≡ self.now.0 }
    {
        self.lexemes.as_slice()
    }

    /// The column of the first byte of each lexeme, from 1.
    pub fn columns(&self) -> &[u32]
        ensures columns { result.now ≡ self.now.1 }
        ensures one_each { length result.now ≡ length self.now.0 }
    {
        self.columns.as_slice()
    }
}
