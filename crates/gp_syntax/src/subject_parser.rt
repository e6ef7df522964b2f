//! The parser of what a query is asked of: states and what transactions saw.

ghost use Rattle.std.specs.Prelude.{◌≡◌, IfOk};
ghost use Rattle.gp_grammar.specs.CommandParsing.{query};
ghost use Rattle.gp_grammar.specs.QuestionParsing as spec;
ghost use Rattle.gp_syntax.specs.Parses.{Parses};
ghost use Rattle.gp_syntax.specs.QuestionParts.{state_of};
ghost use Rattle.gp_syntax.specs.Views.{how_view, point_view, query_view, subject_view};

use crate::command::Query;
use crate::command_parser::query;
use crate::error::ParseStop;
use crate::lexeme_parser::{expect_word, strip_word};
use crate::question::{How, Point, Subject};
use crate::question_parser::{explained, how, number, state, without};
use gp_lexer::Lexeme;
use std::alloc::Global;

/// The value and a state.
fn with_state<T: Drop>(
    value: T,
    lexemes: &[Lexeme],
) -> Result<((T, Point), &[Lexeme]), ParseStop<'_>>
    ensures value { IfOk result (λ r. r.0.0 ≡ value) }
    ensures state { Parses (λ r. point_view r.1) result (spec.state lexemes.now) }
{
    let (state, rest) = state(lexemes)?;
    Ok(((value, state), rest))
}

/// The value and a query.
pub(crate) fn with_query<T: Drop>(
    alloc: Global,
    value: T,
    lexemes: &[Lexeme],
) -> Result<((T, Query), &[Lexeme]), ParseStop<'_>>
    ensures value { IfOk result (λ r. r.0.0 ≡ value) }
    ensures query { Parses (λ r. query_view r.1) result (query lexemes.now) }
{
    let (query, rest) = query(alloc, lexemes)?;
    Ok(((value, query), rest))
}

/// A state, behind what is asked for of it.
fn state_of(how: How, lexemes: &[Lexeme]) -> Result<(Subject, &[Lexeme]), ParseStop<'_>>
    ensures { Parses subject_view result (state_of (how_view how) lexemes.now) }
{
    let ((how, state), rest) = with_state(how, lexemes)?;
    Ok((Subject::State { how, state }, rest))
}

/// What is asked of a state.
#[tactic(auto, unfolding(gp_grammar::specs::QuestionParsing::of_state))]
fn asked_state(alloc: Global, lexemes: &[Lexeme]) -> Result<(Subject, &[Lexeme]), ParseStop<'_>>
    ensures { Parses subject_view result (spec.of_state spec.how lexemes.now) }
{
    let (how, rest) = how(alloc, lexemes)?;
    state_of(how, rest)
}

/// A state, behind EXPLAIN.
#[tactic(auto, unfolding(gp_grammar::specs::QuestionParsing::of_state))]
pub(crate) fn explained_state(lexemes: &[Lexeme]) -> Result<(Subject, &[Lexeme]), ParseStop<'_>>
    ensures { Parses subject_view result (spec.of_state spec.explained lexemes.now) }
{
    let (how, rest) = explained(lexemes)?;
    state_of(how, rest)
}

/// The rows of a state, or those that are left without some tokens.
#[tactic(auto, unfolding(gp_grammar::specs::QuestionParsing::kept_how))]
fn kept_how(alloc: Global, lexemes: &[Lexeme]) -> Result<(How, &[Lexeme]), ParseStop<'_>>
    ensures { Parses how_view result (spec.kept_how lexemes.now) }
{
    match strip_word(lexemes, b"without") {
        Some(rest) => without(alloc, rest),
        None => Ok((How::Rows, lexemes)),
    }
}

/// A state as it is, or without the rows of some tokens.
#[tactic(auto, unfolding(gp_grammar::specs::QuestionParsing::of_state))]
pub(crate) fn kept(alloc: Global, lexemes: &[Lexeme]) -> Result<(Subject, &[Lexeme]), ParseStop<'_>>
    ensures { Parses subject_view result (spec.kept lexemes.now) }
{
    let (how, rest) = kept_how(alloc, lexemes)?;
    state_of(how, rest)
}

/// A transaction and how many of its statements, behind SAW.
#[tactic(auto, unfolding(gp_grammar::specs::QuestionParsing::saw_numbers))]
pub(crate) fn saw_numbers(lexemes: &[Lexeme]) -> Result<((u64, u64), &[Lexeme]), ParseStop<'_>>
    ensures { Parses (λ numbers. numbers) result (spec.saw_numbers lexemes.now) }
{
    let (t, rest) = number(lexemes)?;
    let rest = expect_word(rest, b"after")?;
    let (k, rest) = number(rest)?;
    Ok(((t, k), rest))
}

/// What a transaction saw, behind SAW.
#[tactic(auto, unfolding(gp_grammar::specs::QuestionParsing::saw))]
fn saw(lexemes: &[Lexeme]) -> Result<(Subject, &[Lexeme]), ParseStop<'_>>
    ensures { Parses subject_view result (spec.saw lexemes.now) }
{
    let ((t, k), rest) = saw_numbers(lexemes)?;
    Ok((Subject::Saw { t, k }, rest))
}

/// What a query is asked of.
#[tactic(auto, unfolding(gp_grammar::specs::QuestionParsing::subject))]
pub(crate) fn subject(
    alloc: Global,
    lexemes: &[Lexeme],
) -> Result<(Subject, &[Lexeme]), ParseStop<'_>>
    ensures { Parses subject_view result (spec.subject lexemes.now) }
{
    match strip_word(lexemes, b"saw") {
        Some(rest) => saw(rest),
        None => asked_state(alloc, lexemes),
    }
}

/// What a side is about.
#[tactic(auto, unfolding(gp_grammar::specs::QuestionParsing::side_subject))]
pub(crate) fn side_subject(
    alloc: Global,
    lexemes: &[Lexeme],
) -> Result<(Subject, &[Lexeme]), ParseStop<'_>>
    ensures { Parses subject_view result (spec.side_subject lexemes.now) }
{
    match strip_word(lexemes, b"saw") {
        Some(rest) => saw(rest),
        None => kept(alloc, lexemes),
    }
}
