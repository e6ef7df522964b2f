//! The parser of changes of the log, in questions.

ghost use Rattle.std.specs.Prelude.{map};
ghost use Rattle.gp_grammar.specs.QuestionParsing as spec;
ghost use Rattle.gp_grammar.specs.Syntax as y;
ghost use Rattle.gp_grammar.proofs.QuestionCompleteness.{shrinks-change};
ghost use Rattle.gp_syntax.specs.Parses.{Parses, Extends, pushed};
ghost use Rattle.gp_syntax.specs.Views.{change_view, changes_view, command_view};

use crate::command::Command;
use crate::command_parser::bracketed_statement;
use crate::error::ParseStop;
use crate::lexeme_parser::{expect_word, strip_word};
use crate::list_parser::{ParsedList, separated};
use crate::question::LogChange;
use crate::question_parser::number;
use gp_base::Sequence;
use gp_lexer::Lexeme;
use std::alloc::Global;
use std::rc::Rc;

/// A statement in brackets, behind BY.
fn by_statement(alloc: Global, lexemes: &[Lexeme]) -> Result<(Command, &[Lexeme]), ParseStop<'_>>
    ensures { Parses command_view result (spec.by_statement lexemes.now) }
{
    let rest = expect_word(lexemes, b"by")?;
    bracketed_statement(alloc, rest)
}

/// A DROP, behind its transaction: of a statement, if a number follows.
fn dropped_from(t: u64, lexemes: &[Lexeme]) -> Result<(LogChange, &[Lexeme]), ParseStop<'_>>
    ensures { Parses change_view result (spec.dropped_from t lexemes.now) }
{
    match lexemes {
        [Lexeme::Number(k), rest @ ..] => Ok((LogChange::Drop { t, k: k.get() }, rest)),
        _ => Ok((LogChange::DropAll { t }, lexemes)),
    }
}

/// A DROP, behind its first word.
#[tactic(auto, unfolding(gp_grammar::specs::QuestionParsing::dropped))]
fn dropped(lexemes: &[Lexeme]) -> Result<(LogChange, &[Lexeme]), ParseStop<'_>>
    ensures { Parses change_view result (spec.dropped lexemes.now) }
{
    let (t, rest) = number(lexemes)?;
    dropped_from(t, rest)
}

/// A REPLACE, behind its first word.
#[tactic(auto, unfolding(gp_grammar::specs::QuestionParsing::replaced))]
fn replaced(alloc: Global, lexemes: &[Lexeme]) -> Result<(LogChange, &[Lexeme]), ParseStop<'_>>
    ensures { Parses change_view result (spec.replaced lexemes.now) }
{
    let (t, rest) = number(lexemes)?;
    let (k, rest) = number(rest)?;
    let (command, rest) = by_statement(alloc, rest)?;
    let command = Rc::new(alloc, command)?;
    Ok((LogChange::Replace { t, k, command }, rest))
}

/// An ADD, behind its first word.
#[tactic(auto, unfolding(gp_grammar::specs::QuestionParsing::added))]
fn added(alloc: Global, lexemes: &[Lexeme]) -> Result<(LogChange, &[Lexeme]), ParseStop<'_>>
    ensures { Parses change_view result (spec.added lexemes.now) }
{
    let (t, rest) = number(lexemes)?;
    let (command, rest) = by_statement(alloc, rest)?;
    let command = Rc::new(alloc, command)?;
    Ok((LogChange::Add { t, command }, rest))
}

/// A change of the log.
#[tactic(auto, unfolding(gp_grammar::specs::QuestionParsing::change))]
fn change(alloc: Global, lexemes: &[Lexeme]) -> Result<(LogChange, &[Lexeme]), ParseStop<'_>>
    ensures { Parses change_view result (spec.change lexemes.now) }
{
    if let Some(rest) = strip_word(lexemes, b"drop") {
        return dropped(rest);
    }
    if let Some(rest) = strip_word(lexemes, b"replace") {
        return replaced(alloc, rest);
    }
    let rest = expect_word(lexemes, b"add")?;
    added(alloc, rest)
}

impl ParsedList for Sequence<LogChange> {
    ghost Tree = { y.LogChange };

    ghost items = { λ list. map change_view list };

    ghost item = { spec.change };

    fn parse_next<'a>(
        &mut self,
        alloc: Global,
        lexemes: &'a [Lexeme],
    ) -> Result<&'a [Lexeme], ParseStop<'a>> {
        let (next, rest) = change(alloc, lexemes)?;
        self.push(next)?;
        Ok(rest)
    }

    ghost shrinks = { shrinks-change };
}

/// Changes of the log with commas between them.
pub(crate) fn changes_of(
    alloc: Global,
    lexemes: &[Lexeme],
) -> Result<(Sequence<LogChange>, &[Lexeme]), ParseStop<'_>>
    ensures { Parses changes_view result (spec.changes_of lexemes.now) }
{
    separated(alloc, Sequence::new(alloc), lexemes)
}
