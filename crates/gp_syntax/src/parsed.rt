//! Steps of parsed values of any type. An exit that drops a term or a command takes seconds to prove, and one that drops a
//! value of a type parameter almost nothing: so what may fail while it owns such a value is here.

ghost use Rattle.std.specs.Prelude.{◌≡◌, ◌<◌, IfOk, length};
ghost use Rattle.gp_grammar.specs.Parsing.{ended};
ghost use Rattle.gp_grammar.specs.CommandParsing.{◌then◌, accept};
ghost use Rattle.gp_syntax.specs.Parses.{Parses, ParsesAll};

use crate::error::ParseStop;
use crate::lexeme_parser::expect;
use gp_base::{Name, NoMemory};
use gp_lexer::{Lexeme, Symbol};
use std::alloc::Global;

/// What a parser gives.
pub(crate) trait Parsed: Drop + Sized {
    /// Its abstract syntax.
    ghost Tree: { Type 0 };
    /// The abstract syntax of a value.
    ghost view: { Self → Self.Tree };
}

/// The value and the lexemes behind this symbol, which has to be the first.
#[tactic(auto, unfolding(gp_grammar::specs::Parsing::expect))]
pub(crate) fn before<T: Parsed>(
    value: T,
    lexemes: &[Lexeme],
    symbol: Symbol,
) -> Result<(T, &[Lexeme]), ParseStop<'_>>
    ensures value { Parses T.view result ((symbol then accept (T.view value)) lexemes.now) }
    ensures shorter { IfOk result (λ r. length r.1.now < length lexemes.now) }
{
    let rest = expect(lexemes, symbol)?;
    Ok((value, rest))
}

/// The value, if its line ends where these lexemes begin.
pub(crate) fn ended<T: Parsed>(value: T, lexemes: &[Lexeme]) -> Result<T, ParseStop<'_>>
    ensures { ParsesAll T.view result (ended (T.view value, lexemes.now)) }
{
    match lexemes {
        [] => Ok(value),
        _ => Err(ParseStop::At(lexemes)),
    }
}

/// A copy of the name beside the value.
pub(crate) fn with_name<T: Drop>(name: &Name, value: T) -> Result<(Name, T), NoMemory>
    ensures name { IfOk result (λ r. r.0 ≡ name.now) }
    ensures value { IfOk result (λ r. r.1 ≡ value) }
{
    let name = name.clone()?;
    Ok((name, value))
}

/// The first value, without the other one.
pub(crate) fn only<T: Drop, U: Drop>(kept: T, _other: U) -> T
    ensures { result ≡ kept }
{
    kept
}

/// Two values in boxes.
pub(crate) fn boxed_pair<T: Drop>(
    alloc: Global,
    first: T,
    second: T,
) -> Result<(Box<T>, Box<T>), NoMemory>
    ensures first { IfOk result (λ boxes. boxes.0.value ≡ first) }
    ensures second { IfOk result (λ boxes. boxes.1.value ≡ second) }
{
    let first = Box::new(alloc, first)?;
    let second = Box::new(alloc, second)?;
    Ok((first, second))
}

/// Three values in boxes.
pub(crate) fn boxed_triple<T: Drop>(
    alloc: Global,
    first: T,
    second: T,
    third: T,
) -> Result<(Box<T>, Box<T>, Box<T>), NoMemory>
    ensures first { IfOk result (λ boxes. boxes.0.value ≡ first) }
    ensures second { IfOk result (λ boxes. boxes.1.value ≡ second) }
    ensures third { IfOk result (λ boxes. boxes.2.value ≡ third) }
{
    let first = Box::new(alloc, first)?;
    let second = Box::new(alloc, second)?;
    let third = Box::new(alloc, third)?;
    Ok((first, second, third))
}
