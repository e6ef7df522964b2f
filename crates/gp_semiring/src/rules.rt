//! Rules for the values of tokens.

ghost use Rattle.std.specs.Prelude.{◌≡◌};
ghost use Rattle.gp_semiring.specs.Rules as r;

use crate::token_kind::TokenKind;
use gp_base::{Sequence, Token};

/// The value of some provenance tokens: those of a kind whose numbers are the given ones. A number that is None is
/// that of any token.
#[derive(Clone, Copy, Drop)]
pub struct Rule {
    /// The kind of the tokens.
    pub kind: TokenKind,
    /// Their transaction.
    pub t: Option<u32>,
    /// Their statement.
    pub k: Option<u32>,
    /// Their row, for an INSERT with VALUES.
    pub n: Option<u32>,
    /// The number that stands for their value in the semiring.
    pub value: u64,
}

/// The rules of a question. The first one that matches a token counts.
#[derive(Drop)]
pub struct Rules {
    /// The rules, in order.
    pub rules: Sequence<Rule>,
    /// The number of the tokens that no rule matches, if there is one.
    pub other: Option<u64>,
}

/// Whether a part of a pattern is this number, or any.
fn is_part(part: Option<u32>, number: u32) -> bool
    ensures { result ≡ r.fits_part part number }
{
    match part {
        None => true,
        Some(wanted) => wanted == number,
    }
}

/// Whether the token has this kind.
fn is_of_kind(kind: TokenKind, token: &Token) -> bool
    ensures { result ≡ r.fits_kind kind token.now }
{
    match token {
        Token::Inserted { .. } => match kind {
            TokenKind::I => true,
            _ => false,
        },
        Token::Queried { .. } => match kind {
            TokenKind::Q => true,
            _ => false,
        },
        Token::Updated { .. } => match kind {
            TokenKind::U => true,
            _ => false,
        },
    }
}

/// Whether the numbers of the token are those of the rule.
fn has_numbers(rule: &Rule, token: &Token) -> bool
    ensures { result ≡ r.fits_numbers rule.now token.now }
{
    match token {
        Token::Inserted { t, k, n } => {
            is_part(rule.t, *t) && is_part(rule.k, *k) && is_part(rule.n, *n)
        }
        Token::Queried { t, k } | Token::Updated { t, k } => {
            is_part(rule.t, *t) && is_part(rule.k, *k) && is_part(rule.n, 0)
        }
    }
}

/// Whether the rule matches the token.
fn is_match(rule: &Rule, token: &Token) -> bool
    ensures { result ≡ r.fits_rule rule.now token.now }
{
    is_of_kind(rule.kind, token) && has_numbers(rule, token)
}

impl Rules {
    /// The number of the first rule that matches, else the one of all other tokens, if there is one.
    pub fn number(&self, token: &Token) -> Option<u64>
        ensures { result ≡ r.number_by self.now.rules self.now.other token.now }
    {
        for rule in self.rules.as_slice() {
            if is_match(rule, token) {
                return Some(rule.value);
            }
        }
        self.other
    }
}
