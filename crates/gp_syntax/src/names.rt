//! Numbers in names: the sessions of scripts and the transactions of patterns.

ghost use Rattle.std.specs.Prelude.{◌≡◌, ◌<◌, ◌^◌};
ghost use Rattle.std.specs.Str.{all_ascii_digits};
ghost use Rattle.gp_grammar.specs.CommandGrammar.{is_number_without_zero, session_of};
ghost use Rattle.gp_grammar.specs.QuestionGrammar.{pattern_name, token_kind_of, with_transaction};
ghost use Rattle.gp_syntax.specs.Names.{number_up_to};

use gp_grammar::{MAX_PATTERN_NUMBER, MAX_SESSION, TokenKind};
use gp_lexer::value_of;

fn are_digits(bytes: &[u8]) -> bool
    ensures { result ≡ all_ascii_digits bytes.now }
{
    match bytes {
        [] => true,
        [byte, others @ ..] => byte.is_ascii_digit() && are_digits(others),
    }
}

/// Whether the bytes are digits of which the first is not 0.
fn is_number_without_zero(bytes: &[u8]) -> bool
    ensures { result ≡ is_number_without_zero bytes.now }
{
    match bytes {
        [] => false,
        [first, ..] => are_digits(bytes) && *first > b'0',
    }
}

/// The number of the digits, if the first of them is not 0 and it is at most this.
#[tactic(auto, using(crate::proofs::NameLemmas::digits))]
fn number_up_to(digits: &[u8], most: u64) -> Option<u32>
    requires { most < 2 ^ 32 }
    ensures { result ≡ number_up_to digits.now most }
{
    if !is_number_without_zero(digits) {
        return None;
    }
    let number = value_of(digits);
    if number > most {
        return None;
    }
    Some(number as u32)
}

/// The session of a name: `s1` to `s64`.
pub(crate) fn session_of(name: &[u8]) -> Option<u32>
    ensures { result ≡ session_of name.now }
{
    match name {
        [b's', digits @ ..] => number_up_to(digits, MAX_SESSION),
        _ => None,
    }
}

fn token_kind_of(byte: u8) -> Option<TokenKind>
    ensures { result ≡ token_kind_of byte }
{
    if byte == b'i' {
        Some(TokenKind::I)
    } else if byte == b'q' {
        Some(TokenKind::Q)
    } else if byte == b'u' {
        Some(TokenKind::U)
    } else {
        None
    }
}

fn with_transaction(kind: TokenKind, digits: &[u8]) -> Option<(TokenKind, Option<u32>)>
    ensures { result ≡ with_transaction (Some kind) digits.now }
{
    match digits {
        [] => Some((kind, None)),
        _ => match number_up_to(digits, MAX_PATTERN_NUMBER) {
            Some(t) => Some((kind, Some(t))),
            None => None,
        },
    }
}

/// The kind and, where digits follow it, the transaction of a pattern's name.
pub(crate) fn pattern_name(name: &[u8]) -> Option<(TokenKind, Option<u32>)>
    ensures { result ≡ pattern_name name.now }
{
    match name {
        [] => None,
        [first, digits @ ..] => match token_kind_of(*first) {
            Some(kind) => with_transaction(kind, digits),
            None => None,
        },
    }
}
