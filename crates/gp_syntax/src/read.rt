//! Reading lines and texts.

ghost use Rattle.std.specs.Prelude.{◌≡◌, ◌+◌, ◌<◌, ◌-◌, ◌^◌, length};
ghost use Rattle.std.specs.Option.{option_map};
ghost use Rattle.std.specs.Str.{is_utf8};
ghost use Rattle.gp_base.specs.declared.refusal.Refusal.TheVariants.{E03 as SyntaxFault};
ghost use Rattle.gp_lexer.specs.Lexing.{lexed};
ghost use Rattle.gp_grammar.specs.CommandParsing.{command, script_line};
ghost use Rattle.gp_grammar.specs.Limits.{Shape, passed_limit, command_shape, line_shape, question_shape};
ghost use Rattle.gp_grammar.specs.LineReading.{lexeme_column};
ghost use Rattle.gp_grammar.specs.Reading.{command_of, question_of, read_text, script_line_of, within_shape};
ghost use Rattle.gp_grammar.specs.Parsing.{Parser, whole};
ghost use Rattle.gp_grammar.specs.QuestionParsing.{question};
ghost use Rattle.gp_grammar.specs.Syntax as y;
ghost use Rattle.gp_syntax.specs.Parses.{ParsesAll};
ghost use Rattle.gp_syntax.specs.Refusals.{limit_of};
ghost use Rattle.gp_syntax.specs.ReadResults.{Returns};
ghost use Rattle.gp_syntax.specs.Tests.{shallow, tested_lexemes};
ghost use Rattle.gp_syntax.specs.Views.{command_view, line_view, question_view};

use crate::command::{Command, ScriptLine};
use crate::command_parser::{script_line, whole_command};
use crate::error::ParseStop;
use crate::limits::{command_limit, is_too_deep, question_limit};
use crate::question::Question;
use crate::question_parser::whole_question;
use gp_base::{Limit, Refusal, Stop};
use gp_grammar::MAX_LINE_LENGTH;
use gp_lexer::{LexStop, Lexeme, Lexemes, lex};
use std::alloc::Global;

/// Whether the text is UTF-8.
#[tactic(auto, using(crate::proofs::ReadingLemmas::encodings))]
fn is_utf8(text: &[u8]) -> bool
    ensures { result ≡ is_utf8 text.now }
{
    match std::str::from_utf8(text) {
        Ok(_) => true,
        Err(_) => false,
    }
}

/// The lexemes of a text, unless it has a lexical fault or opens too many brackets.
fn shallow_lexemes(alloc: Global, text: &[u8]) -> Result<Lexemes, Stop>
    requires { length text.now < 2 ^ 32 - 1 }
    ensures { Returns (λ lexemes. lexemes) result (shallow (lexed text.now)) }
{
    match lex(alloc, text) {
        Ok(lexemes) => {
            if is_too_deep(lexemes.lexemes()) {
                let limit = Limit::Depth;
                Err(Stop::Refused(Refusal::E14 { limit }))
            } else {
                Ok(lexemes)
            }
        }
        Err(LexStop::Fault { column }) => Err(Stop::Refused(Refusal::E02 { column })),
        Err(LexStop::NoMemory) => Err(Stop::NoMemory),
    }
}

/// The lexemes of a text, unless it is not UTF-8, has a lexical fault or opens too many brackets.
fn tested_lexemes(alloc: Global, text: &[u8]) -> Result<Lexemes, Stop>
    requires { length text.now < 2 ^ 32 - 1 }
    ensures { Returns (λ lexemes. lexemes) result (tested_lexemes text.now) }
{
    if is_utf8(text) {
        shallow_lexemes(alloc, text)
    } else {
        Err(Stop::Refused(Refusal::E01))
    }
}

/// The refusal of a line, of which these lexemes are left from the fault on.
fn syntax_refusal(lexemes: &Lexemes, rest: &[Lexeme], len: usize) -> Refusal
    requires { len < 2 ^ 32 - 1 }
    ensures { result ≡ SyntaxFault (lexeme_column lexemes.now.0 lexemes.now.1 (len + 1) rest.now) }
{
    let place = lexemes.lexemes().len().saturating_sub(rest.len());
    let columns = lexemes.columns();
    let column = if place < columns.len() {
        columns[place]
    } else {
        len as u32 + 1
    };
    Refusal::E03 { column }
}

/// What a whole text is read as.
trait Sentence: Drop + Sized {
    /// Its abstract syntax.
    ghost Tree: { Type 0 };
    /// The abstract syntax of a value.
    ghost view: { Self → Self.Tree };
    /// The parser of a text.
    ghost parser: { Parser Self.Tree };
    /// What the limits apply to.
    ghost shape: { Self.Tree → Shape };

    /// The statement that the lexemes are.
    fn parse(alloc: Global, lexemes: &[Lexeme]) -> Result<Self, ParseStop<'_>>
        ensures { ParsesAll Self.view result (whole Self.parser lexemes.now) };

    /// The first limit that the statement passes.
    fn limit(&self) -> Option<Limit>
        ensures { result ≡ option_map limit_of (passed_limit (Self.shape (Self.view self.now))) };
}

impl Sentence for Command {
    ghost Tree = { y.Command };

    ghost view = { command_view };

    ghost parser = { command };

    ghost shape = { command_shape };

    fn parse(alloc: Global, lexemes: &[Lexeme]) -> Result<Command, ParseStop<'_>> {
        whole_command(alloc, lexemes)
    }

    fn limit(&self) -> Option<Limit> {
        command_limit(self)
    }
}

impl Sentence for ScriptLine {
    ghost Tree = { y.ScriptLine };

    ghost view = { line_view };

    ghost parser = { script_line };

    ghost shape = { line_shape };

    fn parse(alloc: Global, lexemes: &[Lexeme]) -> Result<ScriptLine, ParseStop<'_>> {
        script_line(alloc, lexemes)
    }

    fn limit(&self) -> Option<Limit> {
        command_limit(&self.command)
    }
}

impl Sentence for Question {
    ghost Tree = { y.Question };

    ghost view = { question_view };

    ghost parser = { question };

    ghost shape = { question_shape };

    fn parse(alloc: Global, lexemes: &[Lexeme]) -> Result<Question, ParseStop<'_>> {
        whole_question(alloc, lexemes)
    }

    fn limit(&self) -> Option<Limit> {
        question_limit(self)
    }
}

/// The statement, unless it passes a limit.
fn limited<T: Sentence>(statement: T) -> Result<T, Stop>
    ensures { Returns T.view result
        (within_shape (T.view statement) (passed_limit (T.shape (T.view statement)))) }
{
    match statement.limit() {
        Some(limit) => Err(Stop::Refused(Refusal::E14 { limit })),
        None => Ok(statement),
    }
}

/// The statement that the text is read as.
#[tactic(auto, using(crate::proofs::ReadingLemmas::readings))]
fn read_text<T: Sentence>(alloc: Global, text: &[u8]) -> Result<T, Stop>
    requires { length text.now < 2 ^ 32 - 1 }
    ensures { Returns T.view result (read_text T.parser T.shape text.now) }
{
    let lexemes = tested_lexemes(alloc, text)?;
    match T::parse(alloc, lexemes.lexemes()) {
        Ok(statement) => limited(statement),
        Err(ParseStop::At(rest)) => {
            Err(Stop::Refused(syntax_refusal(&lexemes, rest, text.len())))
        }
        Err(ParseStop::NoMemory) => Err(Stop::NoMemory),
    }
}

/// Reads a command without a session. The text may be of any length.
///
/// A text is refused for the first of these: it is not UTF-8 (E01); no lexeme can be read at a place (E02); more than 60
/// brackets and CASEs are open (E14 `depth`); it is no command (E03, at the first lexeme that fits nothing); it passes a
/// limit (E14 `columns`, `from`, `branches`, `values`, `nodes` or `depth`, in this order).
pub fn read_command(alloc: Global, text: &[u8]) -> Result<Command, Stop>
    requires { length text.now < 2 ^ 32 - 1 }
    ensures exact { Returns command_view result (command_of text.now) }
{
    read_text(alloc, text)
}

/// Reads a line of a script: a session, a command and perhaps a semicolon.
///
/// A line of more than [`MAX_LINE_LENGTH`] bytes is refused as such (E16), and any other for the reasons of
/// [`read_command`], in the same order.
pub fn read_line(alloc: Global, line: &[u8]) -> Result<ScriptLine, Stop>
    ensures exact { Returns line_view result (script_line_of line.now) }
{
    if line.len() > MAX_LINE_LENGTH {
        return Err(Stop::Refused(Refusal::E16));
    }
    read_text(alloc, line)
}

/// Reads a question, perhaps with a semicolon behind it. Refusals come as from [`read_line`].
pub fn read_question(alloc: Global, line: &[u8]) -> Result<Question, Stop>
    ensures exact { Returns question_view result (question_of line.now) }
{
    if line.len() > MAX_LINE_LENGTH {
        return Err(Stop::Refused(Refusal::E16));
    }
    read_text(alloc, line)
}
