//! The parser of terms: recursive descent with one function for each rule of the grammar. How deep it recurs is bounded
//! by the brackets and CASEs that are open at once, which are counted before.

ghost use Rattle.std.specs.Prelude.{◌≡◌, ◌<◌, ◌≤◌, IfOk, IfSome, length};
ghost use Rattle.std.specs.Option.{option_map};
ghost use Rattle.gp_grammar.specs.Operators.{operator_of, comparison_of};
ghost use Rattle.gp_grammar.specs.Parsing as spec;
ghost use Rattle.gp_syntax.specs.Parses.{Parses, Shortens, built_view, ends_with};

use crate::built::Built;
use crate::error::ParseStop;
use crate::lexeme_parser::{expect, identifier, strip};
use crate::parsed::{before, with_name};
use crate::term::Term;
use gp_base::Name;
use gp_grammar::{Level, Op};
use gp_lexer::{Lexeme, Symbol};
use std::alloc::Global;

fn operator_of(at: Level, symbol: Symbol) -> Option<Op>
    ensures { result ≡ operator_of at symbol }
{
    match at {
        Level::Disjunction => match symbol {
            Symbol::Or => Some(Op::Or),
            _ => None,
        },
        Level::Conjunction => match symbol {
            Symbol::And => Some(Op::And),
            _ => None,
        },
        Level::Sum => match symbol {
            Symbol::Plus => Some(Op::Add),
            Symbol::Minus => Some(Op::Sub),
            _ => None,
        },
        Level::Product => match symbol {
            Symbol::Star => Some(Op::Mul),
            _ => None,
        },
    }
}

fn comparison_of(symbol: Symbol) -> Option<Op>
    ensures { result ≡ comparison_of symbol }
{
    match symbol {
        Symbol::Eq => Some(Op::Eq),
        Symbol::Ne => Some(Op::Ne),
        Symbol::Lt => Some(Op::Lt),
        Symbol::Le => Some(Op::Le),
        Symbol::Gt => Some(Op::Gt),
        Symbol::Ge => Some(Op::Ge),
        _ => None,
    }
}

/// The operator of the level that is the first lexeme, and the lexemes behind it.
fn next_operator(lexemes: &[Lexeme], at: Level) -> Option<(Op, &[Lexeme])>
    ensures value { spec.next_operator (operator_of at) lexemes.now
        ≡ option_map (λ found. (found.0, found.1.now)) result }
    ensures shorter { IfSome result (λ found. length found.1.now < length lexemes.now) }
{
    match lexemes {
        [Lexeme::Symbol(symbol), rest @ ..] => match operator_of(at, *symbol) {
            Some(op) => Some((op, rest)),
            None => None,
        },
        _ => None,
    }
}

/// The comparison that is the first lexeme, and the lexemes behind it.
fn next_comparison(lexemes: &[Lexeme]) -> Option<(Op, &[Lexeme])>
    ensures value { spec.next_operator comparison_of lexemes.now
        ≡ option_map (λ found. (found.0, found.1.now)) result }
    ensures shorter { IfSome result (λ found. length found.1.now < length lexemes.now) }
{
    match lexemes {
        [Lexeme::Symbol(symbol), rest @ ..] => match comparison_of(*symbol) {
            Some(op) => Some((op, rest)),
            None => None,
        },
        _ => None,
    }
}

/// A column, behind its first word.
#[tactic(auto, unfolding(gp_grammar::specs::Parsing::column))]
fn column<'a>(
    alloc: Global,
    word: &Name,
    lexemes: &'a [Lexeme],
) -> Result<(Built, &'a [Lexeme]), ParseStop<'a>>
    ensures value { Parses built_view result (spec.column word.now lexemes.now) }
    ensures shorter { IfOk result (λ r. length r.1.now ≤ length lexemes.now) }
{
    match strip(lexemes, Symbol::Dot) {
        None => {
            let col = word.clone()?;
            Ok((Built::leaf(Term::Col { item: None, col }), lexemes))
        }
        Some(rest) => {
            let (name, rest) = identifier(rest)?;
            let item = word.clone()?;
            let (col, item) = with_name(name, item)?;
            let item = Some(item);
            Ok((Built::leaf(Term::Col { item, col }), rest))
        }
    }
}

/// NULL or TRUE, behind IS and NOT.
#[tactic(auto, unfolding(gp_grammar::specs::Parsing::value_test))]
fn value_test(
    alloc: Global,
    left: Built,
    yes: bool,
    lexemes: &[Lexeme],
) -> Result<(Built, &[Lexeme]), ParseStop<'_>>
    ensures value { Parses built_view result (spec.value_test (built_view left) yes lexemes.now) }
    ensures shorter { IfOk result (λ r. length r.1.now ≤ length lexemes.now) }
{
    match strip(lexemes, Symbol::Null) {
        None => {
            let (left, rest) = before(left, lexemes, Symbol::True)?;
            Ok((Built::is_true(alloc, left, yes)?, rest))
        }
        Some(rest) => Ok((Built::is_null(alloc, left, yes)?, rest)),
    }
}

/// IS with what is tested, if it follows.
fn optional_test(
    alloc: Global,
    left: Built,
    lexemes: &[Lexeme],
) -> Result<(Built, &[Lexeme]), ParseStop<'_>>
    ensures value { Parses built_view result
        (spec.optional_test (built_view left) lexemes.now (spec.strip Symbol.Is lexemes.now)) }
    ensures shorter { IfOk result (λ r. length r.1.now ≤ length lexemes.now) }
{
    match strip(lexemes, Symbol::Is) {
        None => Ok((left, lexemes)),
        Some(rest) => match strip(rest, Symbol::Not) {
            None => value_test(alloc, left, true, rest),
            Some(rest) => value_test(alloc, left, false, rest),
        },
    }
}

/// A term and the symbol behind it.
#[cycle(terms)]
fn term_before(
    alloc: Global,
    lexemes: &[Lexeme],
    symbol: Symbol,
) -> Result<(Built, &[Lexeme]), ParseStop<'_>>
    ensures value { Parses built_view result (ends_with symbol spec.term lexemes.now) }
    ensures shorter { Shortens result lexemes.now }
{
    let (term, rest) = built_term(alloc, lexemes)?;
    before(term, rest, symbol)
}

/// A term in brackets, behind the opening one.
#[cycle(terms)]
#[tactic(auto, unfolding(gp_grammar::specs::Parsing::brackets))]
fn brackets(alloc: Global, lexemes: &[Lexeme]) -> Result<(Built, &[Lexeme]), ParseStop<'_>>
    ensures value { Parses built_view result (spec.brackets spec.term lexemes.now) }
    ensures shorter { Shortens result lexemes.now }
{
    term_before(alloc, lexemes, Symbol::Close)
}

/// A CASE, behind its first word.
#[cycle(terms)]
#[tactic(auto, unfolding(gp_grammar::specs::Parsing::choice))]
fn choice(alloc: Global, lexemes: &[Lexeme]) -> Result<(Built, &[Lexeme]), ParseStop<'_>>
    ensures value { Parses built_view result (spec.choice spec.term lexemes.now) }
    ensures shorter { Shortens result lexemes.now }
{
    let rest = expect(lexemes, Symbol::When)?;
    let (when, rest) = term_before(alloc, rest, Symbol::Then)?;
    let (first, rest) = term_before(alloc, rest, Symbol::Else)?;
    let (other, rest) = term_before(alloc, rest, Symbol::End)?;
    Ok((Built::case(alloc, when, first, other)?, rest))
}

/// A primary that begins with a symbol.
#[cycle(terms)]
fn primary_by<'a>(
    alloc: Global,
    symbol: Symbol,
    whole: &'a [Lexeme],
    lexemes: &'a [Lexeme],
) -> Result<(Built, &'a [Lexeme]), ParseStop<'a>>
    ensures value { Parses built_view result (spec.primary_by spec.term symbol whole.now lexemes.now) }
    ensures shorter { IfOk result (λ r. length r.1.now ≤ length lexemes.now) }
{
    match symbol {
        Symbol::Null => Ok((Built::leaf(Term::Null), lexemes)),
        Symbol::Open => brackets(alloc, lexemes),
        Symbol::Case => choice(alloc, lexemes),
        _ => Err(ParseStop::At(whole)),
    }
}

/// A literal, a column, a term in brackets or a CASE.
#[cycle(terms)]
fn primary(alloc: Global, lexemes: &[Lexeme]) -> Result<(Built, &[Lexeme]), ParseStop<'_>>
    ensures value { Parses built_view result (spec.primary spec.term lexemes.now) }
    ensures shorter { Shortens result lexemes.now }
{
    match lexemes {
        [] => Err(ParseStop::At(lexemes)),
        [Lexeme::Symbol(symbol), rest @ ..] => primary_by(alloc, *symbol, lexemes, rest),
        [Lexeme::Word(word), rest @ ..] => column(alloc, word, rest),
        [Lexeme::Number(number), rest @ ..] => {
            Ok((Built::leaf(Term::Int(number.get() as i64)), rest))
        }
        [Lexeme::Big, ..] => Err(ParseStop::At(lexemes)),
        [Lexeme::Text(text), rest @ ..] => Ok((Built::leaf(Term::Text(text.clone()?)), rest)),
    }
}

/// A primary with or without a sign.
#[cycle(terms)]
#[tactic(auto, unfolding(gp_grammar::specs::Parsing::factor))]
fn factor(alloc: Global, lexemes: &[Lexeme]) -> Result<(Built, &[Lexeme]), ParseStop<'_>>
    ensures value { Parses built_view result (spec.factor spec.term lexemes.now) }
    ensures shorter { Shortens result lexemes.now }
{
    match strip(lexemes, Symbol::Minus) {
        None => primary(alloc, lexemes),
        Some(rest) => {
            let (inner, rest) = primary(alloc, rest)?;
            Ok((Built::neg(alloc, inner)?, rest))
        }
    }
}

/// What follows the left side of a test: a comparison with a second sum, or nothing.
#[cycle(terms)]
fn compared<'a>(
    alloc: Global,
    left: Built,
    lexemes: &'a [Lexeme],
) -> Result<(Built, &'a [Lexeme]), ParseStop<'a>>
    ensures value { Parses built_view result
        (spec.compared spec.term (built_view left) lexemes.now (spec.next_operator comparison_of lexemes.now)) }
    ensures shorter { IfOk result (λ r. length r.1.now ≤ length lexemes.now) }
{
    match next_comparison(lexemes) {
        None => Ok((left, lexemes)),
        Some((op, rest)) => {
            let (right, rest) = operations(alloc, rest, Level::Sum)?;
            Ok((Built::binary(alloc, op, left, right)?, rest))
        }
    }
}

/// A sum or a comparison of two, with or without IS.
#[cycle(terms)]
#[tactic(auto, unfolding(gp_grammar::specs::Parsing::full_test))]
fn test(alloc: Global, lexemes: &[Lexeme]) -> Result<(Built, &[Lexeme]), ParseStop<'_>>
    ensures value { Parses built_view result (spec.full_test spec.term lexemes.now) }
    ensures shorter { Shortens result lexemes.now }
{
    let (left, rest) = operations(alloc, lexemes, Level::Sum)?;
    let (both, rest) = compared(alloc, left, rest)?;
    optional_test(alloc, both, rest)
}

/// A test with or without NOT.
#[cycle(terms)]
#[tactic(auto, unfolding(gp_grammar::specs::Parsing::negation))]
fn negation(alloc: Global, lexemes: &[Lexeme]) -> Result<(Built, &[Lexeme]), ParseStop<'_>>
    ensures value { Parses built_view result (spec.negation spec.term lexemes.now) }
    ensures shorter { Shortens result lexemes.now }
{
    match strip(lexemes, Symbol::Not) {
        None => test(alloc, lexemes),
        Some(rest) => {
            let (inner, rest) = test(alloc, rest)?;
            Ok((Built::not(alloc, inner)?, rest))
        }
    }
}

/// An operand of a level.
#[cycle(terms)]
fn operand(
    alloc: Global,
    lexemes: &[Lexeme],
    at: Level,
) -> Result<(Built, &[Lexeme]), ParseStop<'_>>
    ensures value { Parses built_view result (spec.operand spec.term at lexemes.now) }
    ensures shorter { Shortens result lexemes.now }
{
    match at {
        Level::Disjunction => operations(alloc, lexemes, Level::Conjunction),
        Level::Conjunction => negation(alloc, lexemes),
        Level::Sum => operations(alloc, lexemes, Level::Product),
        Level::Product => factor(alloc, lexemes),
    }
}

/// Operands with the operators of a level between them, which group to the left.
#[cycle(terms)]
#[tactic(auto, unfolding(gp_grammar::specs::Parsing::joined), using(gp_grammar::proofs::Agreement::chain_steps))]
fn operations(
    alloc: Global,
    lexemes: &[Lexeme],
    at: Level,
) -> Result<(Built, &[Lexeme]), ParseStop<'_>>
    ensures value { Parses built_view result (spec.operations spec.term at lexemes.now) }
    ensures shorter { Shortens result lexemes.now }
{
    let (mut left, mut rest) = operand(alloc, lexemes, at)?;
    while let Some((op, after)) = next_operator(rest, at) {
        let (right, others) = operand(alloc, after, at)?;
        left = Built::binary(alloc, op, left, right)?;
        rest = others;
    }
    Ok((left, rest))
}

/// A term.
#[cycle(terms)]
#[tactic(auto, using(gp_grammar::proofs::Agreement::chain_steps))]
pub(crate) fn built_term(
    alloc: Global,
    lexemes: &[Lexeme],
) -> Result<(Built, &[Lexeme]), ParseStop<'_>>
    ensures value { Parses built_view result (spec.term lexemes.now) }
    ensures shorter { Shortens result lexemes.now }
{
    operations(alloc, lexemes, Level::Disjunction)
}
