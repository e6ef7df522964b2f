//! The parser of lists, with a symbol between neighbours.

ghost use Rattle.std.specs.Prelude.{◌≡◌, [], List};
ghost use Rattle.gp_lexer.specs.declared.lexeme.Symbol.TheVariants as s;
ghost use Rattle.gp_grammar.specs.Parsing.{Parser, strip};
ghost use Rattle.gp_grammar.specs.CommandParsing as spec;
ghost use Rattle.gp_grammar.proofs.Shrinking.{Shrinks};
ghost use Rattle.gp_syntax.specs.Parses.{Parses, Extends, pushed};

use crate::error::ParseStop;
use crate::lexeme_parser::{expect, strip};
use gp_lexer::{Lexeme, Symbol};
use std::alloc::Global;

/// A list of parsed items.
pub(crate) trait ParsedList: Drop + Sized {
    /// The abstract syntax of an item.
    ghost Tree: { Type 0 };
    /// The abstract syntax of the items.
    ghost items: { Self → List Self.Tree };
    /// The parser of an item behind a separator.
    ghost item: { Parser Self.Tree };

    /// Adds the item that the lexemes begin with, and gives the lexemes behind it. A parser that owns no item while it can
    /// fail is proved several times as fast.
    fn parse_next<'a>(
        &mut self,
        alloc: Global,
        lexemes: &'a [Lexeme],
    ) -> Result<&'a [Lexeme], ParseStop<'a>>
        ensures { Extends (Self.items self.new) result
            (pushed (Self.items self.old) (Self.item lexemes.now)) };

    /// An item has one lexeme or more.
    ghost shrinks: { Shrinks Self.item };
}

/// Adds the items that follow, each behind the separator, and gives the lexemes behind them.
pub(crate) fn parse_others<'a, L: ParsedList>(
    alloc: Global,
    found: &mut L,
    separator: Symbol,
    lexemes: &'a [Lexeme],
) -> Result<&'a [Lexeme], ParseStop<'a>>
    ensures { Extends (L.items found.new) result
        (spec.many (strip separator) L.item spec.push (L.items found.old) lexemes.now) }
{
    let mut rest = lexemes;
    while let Some(after) = strip(rest, separator) {
        rest = found.parse_next(alloc, after)?;
    }
    Ok(rest)
}

/// One item or more with commas between them, added to an empty list.
pub(crate) fn separated<L: ParsedList>(
    alloc: Global,
    empty: L,
    lexemes: &[Lexeme],
) -> Result<(L, &[Lexeme]), ParseStop<'_>>
    requires { L.items empty ≡ [] }
    ensures { Parses L.items result (spec.separated L.item lexemes.now) }
{
    let mut found = empty;
    let rest = found.parse_next(alloc, lexemes)?;
    let rest = parse_others(alloc, &mut found, Symbol::Comma, rest)?;
    Ok((found, rest))
}

/// One item or more in brackets, with commas between them, added to an empty list.
pub(crate) fn in_brackets<L: ParsedList>(
    alloc: Global,
    empty: L,
    lexemes: &[Lexeme],
) -> Result<(L, &[Lexeme]), ParseStop<'_>>
    requires { L.items empty ≡ [] }
    ensures { Parses L.items result (spec.in_brackets (spec.separated L.item) lexemes.now) }
{
    let rest = expect(lexemes, Symbol::Open)?;
    let (list, rest) = separated(alloc, empty, rest)?;
    let rest = expect(rest, Symbol::Close)?;
    Ok((list, rest))
}
