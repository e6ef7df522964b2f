//! Parsers of single lexemes.

ghost use Rattle.std.specs.Prelude.{◌≡◌, ◌<◌, IfOk, IfSome, length};
ghost use Rattle.std.specs.Option.{option_map};
ghost use Rattle.gp_grammar.specs.Parsing as spec;
ghost use Rattle.gp_grammar.specs.CommandParsing.{strip_word};
ghost use Rattle.gp_syntax.specs.Parses.{Parses, Expects, Shortens, Strips};

use crate::error::ParseStop;
use gp_base::Name;
use gp_lexer::{Lexeme, Symbol};

/// The lexemes behind this symbol, if it is the first.
pub(crate) fn strip(lexemes: &[Lexeme], symbol: Symbol) -> Option<&[Lexeme]>
    ensures value { spec.strip symbol lexemes.now ≡ option_map (λ rest. rest.now) result }
    ensures shorter { IfSome result (λ rest. length rest.now < length lexemes.now) }
{
    match lexemes {
        [Lexeme::Symbol(other), rest @ ..] if *other == symbol => Some(rest),
        _ => None,
    }
}

/// The lexemes behind this symbol, which has to be the first.
#[tactic(auto, unfolding(gp_grammar::specs::Parsing::expect))]
pub(crate) fn expect(lexemes: &[Lexeme], symbol: Symbol) -> Result<&[Lexeme], ParseStop<'_>>
    ensures value { Expects result (spec.expect symbol lexemes.now) }
    ensures shorter { IfOk result (λ rest. length rest.now < length lexemes.now) }
{
    match strip(lexemes, symbol) {
        Some(rest) => Ok(rest),
        None => Err(ParseStop::At(lexemes)),
    }
}

/// The lexemes behind this word, if it is the first.
pub(crate) fn strip_word<'a>(lexemes: &'a [Lexeme], text: &[u8]) -> Option<&'a [Lexeme]>
    ensures { strip_word text.now lexemes.now ≡ option_map (λ rest. rest.now) result }
{
    match lexemes {
        [Lexeme::Word(name), rest @ ..] if text == name.as_bytes() => Some(rest),
        _ => None,
    }
}

/// The lexemes behind this word, which has to be the first.
pub(crate) fn expect_word<'a>(
    lexemes: &'a [Lexeme],
    text: &[u8],
) -> Result<&'a [Lexeme], ParseStop<'a>>
    ensures { Strips result lexemes.now (strip_word text.now lexemes.now) }
{
    match strip_word(lexemes, text) {
        Some(rest) => Ok(rest),
        None => Err(ParseStop::At(lexemes)),
    }
}

/// A name, which has to be the first lexeme, and the lexemes behind it.
pub(crate) fn identifier(lexemes: &[Lexeme]) -> Result<(&Name, &[Lexeme]), ParseStop<'_>>
    ensures value { Parses (λ name. name.now) result (spec.identifier lexemes.now) }
    ensures shorter { Shortens result lexemes.now }
{
    match lexemes {
        [Lexeme::Word(name), rest @ ..] => Ok((name, rest)),
        _ => Err(ParseStop::At(lexemes)),
    }
}
