//! The parser of differences, each of two sides.

ghost use Rattle.std.specs.Prelude.{◌≡◌, IfOk, List};
ghost use Rattle.gp_grammar.specs.QuestionParsing as spec;
ghost use Rattle.gp_grammar.specs.Syntax as y;
ghost use Rattle.gp_syntax.specs.Parses.{Parses};
ghost use Rattle.gp_syntax.specs.QuestionParts.{changed_subject, to_second};
ghost use Rattle.gp_syntax.specs.Views.{query_view, question_view, side_view, subject_view};

use crate::change_parser::changes_of;
use crate::command::Query;
use crate::error::ParseStop;
use crate::lexeme_parser::{expect_word, strip_word};
use crate::question::{Question, Side, Subject};
use crate::subject_parser::{kept, side_subject, with_query};
use gp_lexer::Lexeme;
use std::alloc::Global;

/// The value, and what a side is about, behind OF.
fn with_side_subject<T: Drop>(
    alloc: Global,
    value: T,
    lexemes: &[Lexeme],
) -> Result<((T, Subject), &[Lexeme]), ParseStop<'_>>
    ensures value { IfOk result (λ r. r.0.0 ≡ value) }
    ensures subject { (changes : List y.LogChange) → Parses
        (λ r. y.changed changes (subject_view r.1)) result (changed_subject changes lexemes.now) }
{
    let rest = expect_word(lexemes, b"of")?;
    let (subject, rest) = side_subject(alloc, rest)?;
    Ok(((value, subject), rest))
}

/// A side without a change.
#[tactic(auto, unfolding(gp_grammar::specs::QuestionParsing::as_is_side))]
fn as_is_side(alloc: Global, lexemes: &[Lexeme]) -> Result<(Side, &[Lexeme]), ParseStop<'_>>
    ensures { Parses side_view result (spec.as_is_side lexemes.now) }
{
    let (subject, rest) = side_subject(alloc, lexemes)?;
    Ok((Side::AsIs { subject }, rest))
}

/// A side with changes, behind WHATIF.
#[tactic(auto, unfolding(gp_grammar::specs::QuestionParsing::changed_side))]
fn changed_side(alloc: Global, lexemes: &[Lexeme]) -> Result<(Side, &[Lexeme]), ParseStop<'_>>
    ensures { Parses side_view result (spec.changed_side lexemes.now) }
{
    let (changes, rest) = changes_of(alloc, lexemes)?;
    let ((changes, subject), rest) = with_side_subject(alloc, changes, rest)?;
    Ok((Side::Changed { changes, subject }, rest))
}

#[tactic(auto, unfolding(gp_grammar::specs::QuestionParsing::side))]
fn side(alloc: Global, lexemes: &[Lexeme]) -> Result<(Side, &[Lexeme]), ParseStop<'_>>
    ensures { Parses side_view result (spec.side lexemes.now) }
{
    match strip_word(lexemes, b"whatif") {
        Some(rest) => changed_side(alloc, rest),
        None => as_is_side(alloc, lexemes),
    }
}

/// The value, and the second side with the query, behind TO.
#[tactic(auto, unfolding(gp_grammar::specs::QuestionParsing::second_side))]
fn with_second<T: Drop>(
    alloc: Global,
    value: T,
    lexemes: &[Lexeme],
) -> Result<((T, (Side, Query)), &[Lexeme]), ParseStop<'_>>
    ensures value { IfOk result (λ r. r.0.0 ≡ value) }
    ensures second { (first : y.Side) → Parses (λ r. y.diff first (side_view r.1.0)
        (query_view r.1.1)) result (to_second first lexemes.now) }
{
    let rest = expect_word(lexemes, b"to")?;
    let (second, rest) = side(alloc, rest)?;
    let ((second, query), rest) = with_query(alloc, second, rest)?;
    Ok(((value, (second, query)), rest))
}

/// A DIFF, behind its first word.
#[tactic(auto, unfolding(gp_grammar::specs::QuestionParsing::diff))]
pub(crate) fn diff(
    alloc: Global,
    lexemes: &[Lexeme],
) -> Result<(Question, &[Lexeme]), ParseStop<'_>>
    ensures { Parses question_view result (spec.diff lexemes.now) }
{
    let (first, rest) = side(alloc, lexemes)?;
    let ((first, (second, query)), rest) = with_second(alloc, first, rest)?;
    Ok((
        Question::Diff {
            first,
            second,
            query,
        },
        rest,
    ))
}

/// A CAUSES, behind OF.
#[tactic(auto, unfolding(gp_grammar::specs::QuestionParsing::asked_of))]
pub(crate) fn caused(
    alloc: Global,
    lexemes: &[Lexeme],
) -> Result<(Question, &[Lexeme]), ParseStop<'_>>
    ensures { Parses question_view result
        (spec.asked_of y.Question.causes spec.kept lexemes.now) }
{
    let (subject, rest) = kept(alloc, lexemes)?;
    let ((subject, query), rest) = with_query(alloc, subject, rest)?;
    Ok((Question::Causes { subject, query }, rest))
}
