//! The parser of questions: one function for each rule of the grammar. Most keywords of questions are names elsewhere.

ghost use Rattle.std.specs.Prelude.{◌≡◌, [], IfOk, List, map};
ghost use Rattle.std.specs.Option.{option_map};
ghost use Rattle.gp_grammar.specs.CommandParsing.{separated};
ghost use Rattle.gp_grammar.specs.Parsing.{whole};
ghost use Rattle.gp_grammar.specs.QuestionParsing as spec;
ghost use Rattle.gp_grammar.specs.Syntax as y;
ghost use Rattle.gp_grammar.specs.Syntax.{rule_of};
ghost use Rattle.gp_grammar.proofs.QuestionCompleteness.{shrinks-left_out};
ghost use Rattle.gp_syntax.specs.Parses.{Parses, ParsesAll, Extends, pushed};
ghost use Rattle.gp_syntax.specs.QuestionParts.{asked_in, pattern_view, rules_view, rules_of, ends_rules, of_asked, reenacted};
ghost use Rattle.gp_syntax.specs.Views.{how_view, question_view, rule_view, point_view};

use crate::change_parser::changes_of;
use crate::command::Query;
use crate::command_parser::{condition, query};
use crate::error::ParseStop;
use crate::lexeme_parser::{expect, expect_word, identifier, strip, strip_word};
use crate::list_parser::{ParsedList, separated};
use crate::names::pattern_name;
use crate::parsed::{Parsed, ended, with_name};
use crate::question::{How, Point, Question, Rule, Subject};
use crate::side_parser::{caused, diff};
use crate::subject_parser::{explained_state, saw_numbers, subject, with_query};
use gp_base::Sequence;
use gp_grammar::{MAX_PATTERN_NUMBER, SemiringName, TokenKind};
use gp_lexer::{Lexeme, Symbol};
use std::alloc::Global;

/// Rules and the number behind ELSE.
#[derive(Drop)]
pub(crate) struct Rules {
    /// The rules.
    pub rules: Sequence<Rule>,
    /// The number behind ELSE.
    pub other: Option<u64>,
}

/// A pattern of provenance tokens.
#[derive(Clone, Copy)]
pub(crate) struct Pattern {
    /// Their kind.
    pub kind: TokenKind,
    /// Their transaction.
    pub t: Option<u32>,
    /// Their statement.
    pub k: Option<u32>,
    /// Their row.
    pub n: Option<u32>,
}

pub(crate) fn number(lexemes: &[Lexeme]) -> Result<(u64, &[Lexeme]), ParseStop<'_>>
    ensures { Parses (λ number. number) result (spec.number lexemes.now) }
{
    match lexemes {
        [Lexeme::Number(number), rest @ ..] => Ok((number.get(), rest)),
        _ => Err(ParseStop::At(lexemes)),
    }
}

/// The state of a transaction, behind its number.
fn reenacted(t: u64, lexemes: &[Lexeme]) -> Result<(Point, &[Lexeme]), ParseStop<'_>>
    ensures { Parses point_view result (reenacted t lexemes.now) }
{
    match strip(lexemes, Symbol::Commit) {
        Some(rest) => Ok((Point::Commit { t }, rest)),
        None => {
            let rest = expect_word(lexemes, b"after")?;
            let (k, rest) = number(rest)?;
            Ok((Point::After { t, k }, rest))
        }
    }
}

/// The state that a question asks about.
#[tactic(auto, unfolding(gp_grammar::specs::QuestionParsing::state))]
pub(crate) fn state(lexemes: &[Lexeme]) -> Result<(Point, &[Lexeme]), ParseStop<'_>>
    ensures { Parses point_view result (spec.state lexemes.now) }
{
    match strip(lexemes, Symbol::As) {
        Some(rest) => {
            let rest = expect_word(rest, b"of")?;
            let (v, rest) = number(rest)?;
            Ok((Point::AsOf { v }, rest))
        }
        None => {
            let rest = expect_word(lexemes, b"reenact")?;
            let (t, rest) = number(rest)?;
            reenacted(t, rest)
        }
    }
}

#[tactic(auto, unfolding(gp_grammar::specs::QuestionParsing::semiring_name))]
fn semiring_name(lexemes: &[Lexeme]) -> Result<(SemiringName, &[Lexeme]), ParseStop<'_>>
    ensures { Parses (λ semiring. semiring) result (spec.semiring_name lexemes.now) }
{
    if let Some(rest) = strip_word(lexemes, b"count") {
        return Ok((SemiringName::Count, rest));
    }
    if let Some(rest) = strip_word(lexemes, b"bool") {
        return Ok((SemiringName::Bool, rest));
    }
    if let Some(rest) = strip_word(lexemes, b"cost") {
        return Ok((SemiringName::Cost, rest));
    }
    if let Some(rest) = strip_word(lexemes, b"level") {
        return Ok((SemiringName::Level, rest));
    }
    if let Some(rest) = strip_word(lexemes, b"poly") {
        return Ok((SemiringName::Poly, rest));
    }
    match strip_word(lexemes, b"witness") {
        Some(rest) => Ok((SemiringName::Witness, rest)),
        None => Err(ParseStop::At(lexemes)),
    }
}

/// The number of a statement or a row in a pattern.
fn pattern_number(lexemes: &[Lexeme]) -> Result<(u32, &[Lexeme]), ParseStop<'_>>
    ensures { Parses (λ number. number) result (spec.pattern_number lexemes.now) }
{
    match lexemes {
        [Lexeme::Number(number), rest @ ..] => {
            let number = number.get();
            if number <= MAX_PATTERN_NUMBER {
                Ok((number as u32, rest))
            } else {
                Err(ParseStop::At(lexemes))
            }
        }
        _ => Err(ParseStop::At(lexemes)),
    }
}

fn pattern_of(kind: TokenKind, t: Option<u32>, k: Option<u32>, n: Option<u32>) -> Pattern
    ensures { pattern_view result ≡ spec.pattern_of kind t k n }
{
    Pattern { kind, t, k, n }
}

/// A pattern, behind the number of its statement. Only a pattern of kind i may have a third number.
fn pattern_row(
    kind: TokenKind,
    t: u32,
    k: u32,
    lexemes: &[Lexeme],
) -> Result<(Pattern, &[Lexeme]), ParseStop<'_>>
    ensures { Parses pattern_view result (spec.pattern_row kind t k lexemes.now) }
{
    match kind {
        TokenKind::I => match strip(lexemes, Symbol::Dot) {
            Some(rest) => {
                let (n, rest) = pattern_number(rest)?;
                Ok((pattern_of(kind, Some(t), Some(k), Some(n)), rest))
            }
            None => Ok((pattern_of(kind, Some(t), Some(k), None), lexemes)),
        },
        TokenKind::Q => Ok((pattern_of(kind, Some(t), Some(k), None), lexemes)),
        TokenKind::U => Ok((pattern_of(kind, Some(t), Some(k), None), lexemes)),
    }
}

/// A pattern, behind its name.
fn pattern_parts(
    kind: TokenKind,
    t: Option<u32>,
    lexemes: &[Lexeme],
) -> Result<(Pattern, &[Lexeme]), ParseStop<'_>>
    ensures { Parses pattern_view result (spec.pattern_parts (kind, t) lexemes.now) }
{
    match t {
        None => Ok((pattern_of(kind, None, None, None), lexemes)),
        Some(t) => match strip(lexemes, Symbol::Dot) {
            Some(rest) => {
                let (k, rest) = pattern_number(rest)?;
                pattern_row(kind, t, k, rest)
            }
            None => Ok((pattern_of(kind, Some(t), None, None), lexemes)),
        },
    }
}

fn rule_pattern(lexemes: &[Lexeme]) -> Result<(Pattern, &[Lexeme]), ParseStop<'_>>
    ensures { Parses pattern_view result (spec.pattern lexemes.now) }
{
    match lexemes {
        [Lexeme::Word(name), rest @ ..] => match pattern_name(name.as_bytes()) {
            Some((kind, t)) => pattern_parts(kind, t, rest),
            None => Err(ParseStop::At(lexemes)),
        },
        _ => Err(ParseStop::At(lexemes)),
    }
}

fn rule_of(pattern: Pattern, value: u64) -> Rule
    ensures { rule_view result ≡ rule_of (pattern_view pattern) value }
{
    Rule {
        kind: pattern.kind,
        t: pattern.t,
        k: pattern.k,
        n: pattern.n,
        value,
    }
}

/// A pattern and its number.
#[tactic(auto, unfolding(gp_grammar::specs::QuestionParsing::rule))]
fn rule(lexemes: &[Lexeme]) -> Result<(Rule, &[Lexeme]), ParseStop<'_>>
    ensures { Parses rule_view result (spec.rule lexemes.now) }
{
    let (pattern, rest) = rule_pattern(lexemes)?;
    let rest = expect(rest, Symbol::Eq)?;
    let (value, rest) = number(rest)?;
    Ok((rule_of(pattern, value), rest))
}

/// The number behind ELSE, and the end of the rules.
#[tactic(auto, unfolding(gp_grammar::specs::Parsing::expect))]
fn else_number(lexemes: &[Lexeme]) -> Result<(Option<u64>, &[Lexeme]), ParseStop<'_>>
    ensures { (found : List y.Rule) → Parses (rules_of found) result (spec.else_number found lexemes.now) }
{
    let (number, rest) = number(lexemes)?;
    let rest = expect(rest, Symbol::Close)?;
    Ok((Some(number), rest))
}

/// The end of rules without ELSE.
#[tactic(auto, unfolding(gp_grammar::specs::Parsing::expect))]
fn end_of_rules(lexemes: &[Lexeme]) -> Result<(Option<u64>, &[Lexeme]), ParseStop<'_>>
    ensures { (found : List y.Rule) → Parses (rules_of found) result (ends_rules found lexemes.now) }
{
    let rest = expect(lexemes, Symbol::Close)?;
    Ok((None, rest))
}

/// Adds the rule that the lexemes begin with, and gives the lexemes behind it.
fn push_rule<'a>(
    found: &mut Sequence<Rule>,
    lexemes: &'a [Lexeme],
) -> Result<&'a [Lexeme], ParseStop<'a>>
    ensures { Extends (map rule_view found.new) result
        (pushed (map rule_view found.old) (spec.rule lexemes.now)) }
{
    let (rule, rest) = rule(lexemes)?;
    found.push(rule)?;
    Ok(rest)
}

/// Adds the rules behind an opening bracket, and gives the number behind ELSE. Behind a comma a rule or ELSE follows.
fn push_rules<'a>(
    found: &mut Sequence<Rule>,
    lexemes: &'a [Lexeme],
) -> Result<(Option<u64>, &'a [Lexeme]), ParseStop<'a>>
    ensures { Parses (rules_of (map rule_view found.new)) result
        (spec.rules_from (map rule_view found.old) lexemes.now) }
{
    let mut rest = lexemes;
    loop {
        let after = push_rule(found, rest)?;
        match strip(after, Symbol::Comma) {
            None => return end_of_rules(after),
            Some(others) => match strip(others, Symbol::Else) {
                Some(others) => return else_number(others),
                None => rest = others,
            },
        }
    }
}

/// Rules, behind their opening bracket.
fn rules_from(alloc: Global, lexemes: &[Lexeme]) -> Result<(Rules, &[Lexeme]), ParseStop<'_>>
    ensures { Parses rules_view result (spec.rules_from [] lexemes.now) }
{
    let mut rules = Sequence::new(alloc);
    let (other, rest) = push_rules(&mut rules, lexemes)?;
    Ok((Rules { rules, other }, rest))
}

/// Rules without a pattern, behind their ELSE.
fn only_else(alloc: Global, lexemes: &[Lexeme]) -> Result<(Rules, &[Lexeme]), ParseStop<'_>>
    ensures { Parses rules_view result (spec.else_number [] lexemes.now) }
{
    let (other, rest) = else_number(lexemes)?;
    let rules = Sequence::new(alloc);
    Ok((Rules { rules, other }, rest))
}

/// Rules in brackets, if they follow.
#[tactic(auto, unfolding(gp_grammar::specs::QuestionParsing::rules))]
fn optional_rules(alloc: Global, lexemes: &[Lexeme]) -> Result<(Rules, &[Lexeme]), ParseStop<'_>>
    ensures { Parses rules_view result (spec.rules lexemes.now) }
{
    match strip(lexemes, Symbol::Open) {
        None => {
            let rules = Sequence::new(alloc);
            Ok((Rules { rules, other: None }, lexemes))
        }
        Some(rest) => match strip(rest, Symbol::Else) {
            Some(rest) => only_else(alloc, rest),
            None => rules_from(alloc, rest),
        },
    }
}

/// A semiring with its rules, behind VALUE.
#[tactic(auto, unfolding(gp_grammar::specs::QuestionParsing::value))]
fn value(alloc: Global, lexemes: &[Lexeme]) -> Result<(How, &[Lexeme]), ParseStop<'_>>
    ensures { Parses how_view result (spec.value lexemes.now) }
{
    let rest = expect_word(lexemes, b"in")?;
    let (semiring, rest) = semiring_name(rest)?;
    let (rules, rest) = optional_rules(alloc, rest)?;
    let rest = expect_word(rest, b"of")?;
    let Rules { rules, other } = rules;
    Ok((
        How::Value {
            semiring,
            rules,
            other,
        },
        rest,
    ))
}

/// A pattern of tokens that are left out.
#[tactic(auto, unfolding(gp_grammar::specs::QuestionParsing::left_out))]
fn left_out(lexemes: &[Lexeme]) -> Result<(Rule, &[Lexeme]), ParseStop<'_>>
    ensures { Parses rule_view result (spec.left_out lexemes.now) }
{
    let (pattern, rest) = rule_pattern(lexemes)?;
    Ok((rule_of(pattern, 0), rest))
}

/// A list of rules is one of patterns of tokens that are left out. The rules of a VALUE end with ELSE, which
/// [`push_rules`] parses.
impl ParsedList for Sequence<Rule> {
    ghost Tree = { y.Rule };

    ghost items = { λ list. map rule_view list };

    ghost item = { spec.left_out };

    fn parse_next<'a>(
        &mut self,
        _alloc: Global,
        lexemes: &'a [Lexeme],
    ) -> Result<&'a [Lexeme], ParseStop<'a>> {
        let (next, rest) = left_out(lexemes)?;
        self.push(next)?;
        Ok(rest)
    }

    ghost shrinks = { shrinks-left_out };
}

/// Patterns of tokens that are left out, with commas between them.
fn left_out_rules(
    alloc: Global,
    lexemes: &[Lexeme],
) -> Result<(Sequence<Rule>, &[Lexeme]), ParseStop<'_>>
    ensures { Parses (map rule_view) result (separated spec.left_out lexemes.now) }
{
    separated(alloc, Sequence::new(alloc), lexemes)
}

/// What is left without some tokens, behind WITHOUT.
#[tactic(auto, unfolding(gp_grammar::specs::QuestionParsing::without))]
pub(crate) fn without(alloc: Global, lexemes: &[Lexeme]) -> Result<(How, &[Lexeme]), ParseStop<'_>>
    ensures { Parses how_view result (spec.without lexemes.now) }
{
    let (rules, rest) = left_out_rules(alloc, lexemes)?;
    let rest = expect_word(rest, b"of")?;
    Ok((How::Without { rules }, rest))
}

/// What an EXPLAIN asks for, behind its first word.
pub(crate) fn explained(lexemes: &[Lexeme]) -> Result<(How, &[Lexeme]), ParseStop<'_>>
    ensures { Parses how_view result (spec.explained lexemes.now) }
{
    match strip_word(lexemes, b"provenance") {
        Some(rest) => {
            let rest = expect_word(rest, b"of")?;
            Ok((How::Explain { prov: true }, rest))
        }
        None => Ok((How::Explain { prov: false }, lexemes)),
    }
}

/// What a question asks for.
#[tactic(auto, unfolding(gp_grammar::specs::QuestionParsing::how))]
pub(crate) fn how(alloc: Global, lexemes: &[Lexeme]) -> Result<(How, &[Lexeme]), ParseStop<'_>>
    ensures { Parses how_view result (spec.how lexemes.now) }
{
    if let Some(rest) = strip_word(lexemes, b"explain") {
        return explained(rest);
    }
    if let Some(rest) = strip_word(lexemes, b"provenance") {
        let rest = expect_word(rest, b"of")?;
        return Ok((How::Provenance, rest));
    }
    if let Some(rest) = strip_word(lexemes, b"value") {
        return value(alloc, rest);
    }
    match strip_word(lexemes, b"without") {
        Some(rest) => without(alloc, rest),
        None => Ok((How::Rows, lexemes)),
    }
}

/// What a query is asked of, and the query.
#[tactic(auto, unfolding(gp_grammar::specs::QuestionParsing::asked_of))]
fn asked(alloc: Global, lexemes: &[Lexeme]) -> Result<((Subject, Query), &[Lexeme]), ParseStop<'_>>
    ensures { (question : y.Subject → y.Query → y.Question)
        → Parses (asked_in question) result (spec.asked_of question spec.subject lexemes.now) }
{
    let (subject, rest) = subject(alloc, lexemes)?;
    let ((subject, query), rest) = with_query(alloc, subject, rest)?;
    Ok(((subject, query), rest))
}

/// The value, and what a query is asked of, with the query, behind OF.
fn with_asked<T: Drop>(
    alloc: Global,
    value: T,
    lexemes: &[Lexeme],
) -> Result<((T, (Subject, Query)), &[Lexeme]), ParseStop<'_>>
    ensures value { IfOk result (λ r. r.0.0 ≡ value) }
    ensures asked { (question : y.Subject → y.Query → y.Question)
        → Parses (λ r. asked_in question r.1) result (of_asked question lexemes.now) }
{
    let rest = expect_word(lexemes, b"of")?;
    let (asked, rest) = asked(alloc, rest)?;
    Ok(((value, asked), rest))
}

/// A question that asks a query.
fn ask(alloc: Global, lexemes: &[Lexeme]) -> Result<(Question, &[Lexeme]), ParseStop<'_>>
    ensures { Parses question_view result (spec.asked_of y.Question.ask spec.subject lexemes.now) }
{
    let ((subject, query), rest) = asked(alloc, lexemes)?;
    Ok((Question::Ask { subject, query }, rest))
}

/// A WHATIF, behind its first word.
#[tactic(auto, unfolding(gp_grammar::specs::QuestionParsing::what_if))]
fn what_if(alloc: Global, lexemes: &[Lexeme]) -> Result<(Question, &[Lexeme]), ParseStop<'_>>
    ensures { Parses question_view result (spec.what_if lexemes.now) }
{
    let (changes, rest) = changes_of(alloc, lexemes)?;
    let ((changes, (subject, query)), rest) = with_asked(alloc, changes, rest)?;
    Ok((
        Question::WhatIf {
            changes,
            subject,
            query,
        },
        rest,
    ))
}

/// A state and its query, behind EXPLAIN.
#[tactic(auto, unfolding(gp_grammar::specs::QuestionParsing::asked_of))]
fn explained_ask(alloc: Global, lexemes: &[Lexeme]) -> Result<(Question, &[Lexeme]), ParseStop<'_>>
    ensures { Parses question_view result
        (spec.asked_of y.Question.ask (spec.of_state spec.explained) lexemes.now) }
{
    let (subject, rest) = explained_state(lexemes)?;
    let ((subject, query), rest) = with_query(alloc, subject, rest)?;
    Ok((Question::Ask { subject, query }, rest))
}

/// What a transaction saw and its query, behind EXPLAIN SAW.
#[tactic(auto, unfolding(gp_grammar::specs::QuestionParsing::explained_saw))]
fn explained_saw(alloc: Global, lexemes: &[Lexeme]) -> Result<(Question, &[Lexeme]), ParseStop<'_>>
    ensures { Parses question_view result (spec.explained_saw lexemes.now) }
{
    let ((t, k), rest) = saw_numbers(lexemes)?;
    let (query, rest) = query(alloc, rest)?;
    Ok((Question::ExplainSaw { t, k, query }, rest))
}

/// A question that asks a query, of the history as it is.
fn asking_question(
    alloc: Global,
    lexemes: &[Lexeme],
) -> Result<(Question, &[Lexeme]), ParseStop<'_>>
    ensures { Parses question_view result (spec.from_explain lexemes.now) }
{
    match strip_word(lexemes, b"explain") {
        Some(rest) => match strip_word(rest, b"saw") {
            Some(rest) => explained_saw(alloc, rest),
            None => explained_ask(alloc, rest),
        },
        None => ask(alloc, lexemes),
    }
}

/// A VERSIONS, behind its first word.
fn versions(lexemes: &[Lexeme]) -> Result<(Question, &[Lexeme]), ParseStop<'_>>
    ensures { Parses question_view result (spec.versions_of lexemes.now) }
{
    let rest = expect_word(lexemes, b"of")?;
    let (table, rest) = identifier(rest)?;
    let table = table.clone()?;
    Ok((Question::Versions { table }, rest))
}

/// A CHANGES, behind its first word.
#[tactic(auto, unfolding(gp_grammar::specs::QuestionParsing::changes))]
fn changes(lexemes: &[Lexeme]) -> Result<(Question, &[Lexeme]), ParseStop<'_>>
    ensures { Parses question_view result (spec.changes lexemes.now) }
{
    let (t, rest) = number(lexemes)?;
    match strip(rest, Symbol::Commit) {
        Some(rest) => Ok((Question::CommitChanges { t }, rest)),
        None => {
            let (k, rest) = number(rest)?;
            Ok((Question::Changes { t, k }, rest))
        }
    }
}

/// A HISTORY, behind OF.
#[tactic(auto, unfolding(gp_grammar::specs::QuestionParsing::history))]
fn history(alloc: Global, lexemes: &[Lexeme]) -> Result<(Question, &[Lexeme]), ParseStop<'_>>
    ensures { Parses question_view result (spec.history lexemes.now) }
{
    let (name, rest) = identifier(lexemes)?;
    let (cond, rest) = condition(alloc, rest)?;
    let (table, cond) = with_name(name, cond)?;
    Ok((Question::History { table, cond }, rest))
}

/// A WHEN, behind its first word.
#[tactic(auto, unfolding(gp_grammar::specs::QuestionParsing::when))]
fn when_there(alloc: Global, lexemes: &[Lexeme]) -> Result<(Question, &[Lexeme]), ParseStop<'_>>
    ensures { Parses question_view result (spec.when lexemes.now) }
{
    let (query, rest) = query(alloc, lexemes)?;
    Ok((Question::When { query }, rest))
}

/// A question about a history as a whole, about causes and differences, or one that asks a query.
fn state_question(alloc: Global, lexemes: &[Lexeme]) -> Result<(Question, &[Lexeme]), ParseStop<'_>>
    ensures { Parses question_view result (spec.from_check lexemes.now) }
{
    if let Some(rest) = strip_word(lexemes, b"check") {
        return Ok((Question::Check, rest));
    }
    if let Some(rest) = strip_word(lexemes, b"diff") {
        return diff(alloc, rest);
    }
    if let Some(rest) = strip_word(lexemes, b"causes") {
        let rest = expect_word(rest, b"of")?;
        return caused(alloc, rest);
    }
    match strip_word(lexemes, b"whatif") {
        Some(rest) => what_if(alloc, rest),
        None => asking_question(alloc, lexemes),
    }
}

/// A question about the lives of rows, or one behind none of its words.
fn life_question(alloc: Global, lexemes: &[Lexeme]) -> Result<(Question, &[Lexeme]), ParseStop<'_>>
    ensures { Parses question_view result (spec.from_history lexemes.now) }
{
    if let Some(rest) = strip_word(lexemes, b"history") {
        let rest = expect_word(rest, b"of")?;
        return history(alloc, rest);
    }
    if let Some(rest) = strip(lexemes, Symbol::When) {
        return when_there(alloc, rest);
    }
    if let Some(rest) = strip_word(lexemes, b"serial") {
        return Ok((Question::Serial, rest));
    }
    match strip_word(lexemes, b"anomalies") {
        Some(rest) => Ok((Question::Anomalies, rest)),
        None => state_question(alloc, lexemes),
    }
}

/// A question behind none of the words of LOG and VERSIONS.
fn later_question(alloc: Global, lexemes: &[Lexeme]) -> Result<(Question, &[Lexeme]), ParseStop<'_>>
    ensures { Parses question_view result (spec.from_transactions lexemes.now) }
{
    if let Some(rest) = strip_word(lexemes, b"transactions") {
        return Ok((Question::Transactions, rest));
    }
    if let Some(rest) = strip_word(lexemes, b"changes") {
        return changes(rest);
    }
    match strip_word(lexemes, b"conflicts") {
        Some(rest) => {
            let (t, rest) = number(rest)?;
            Ok((Question::Conflicts { t }, rest))
        }
        None => life_question(alloc, lexemes),
    }
}

/// A question without the semicolon behind it.
#[tactic(auto, unfolding(gp_grammar::specs::QuestionParsing::open_question))]
fn open_question(alloc: Global, lexemes: &[Lexeme]) -> Result<(Question, &[Lexeme]), ParseStop<'_>>
    ensures { Parses question_view result (spec.open_question lexemes.now) }
{
    if let Some(rest) = strip_word(lexemes, b"log") {
        let (t, rest) = number(rest)?;
        return Ok((Question::Log { t }, rest));
    }
    if let Some(rest) = strip_word(lexemes, b"versions") {
        return versions(rest);
    }
    later_question(alloc, lexemes)
}

impl Parsed for Question {
    ghost Tree = { y.Question };

    ghost view = { question_view };
}

/// The question that the lexemes are.
pub(crate) fn whole_question(alloc: Global, lexemes: &[Lexeme]) -> Result<Question, ParseStop<'_>>
    ensures { ParsesAll question_view result (whole spec.question lexemes.now) }
{
    let (question, rest) = open_question(alloc, lexemes)?;
    match strip(rest, Symbol::Semicolon) {
        Some(rest) => ended(question, rest),
        None => ended(question, rest),
    }
}
