//! The parser of commands and of the lines of scripts: one function for each rule of the grammar.

ghost use Rattle.std.specs.Prelude.{◌≡◌, ◌∷◌, IfOk, List, map, Ok};
ghost use Rattle.gp_base.specs.declared.cell.Cell.{Cell};
ghost use Rattle.gp_base.specs.declared.table.Column.{Column};
ghost use Rattle.gp_lexer.specs.declared.lexeme.Lexeme.{Lexeme};
ghost use Rattle.gp_lexer.specs.declared.lexeme.Lexeme.TheVariants.{Number as NumberLexeme};
ghost use Rattle.gp_grammar.specs.CommandGrammar.{session_of};
ghost use Rattle.gp_grammar.specs.CommandParsing as spec;
ghost use Rattle.gp_grammar.specs.Parsing.{term, whole};
ghost use Rattle.gp_grammar.specs.Syntax as y;
ghost use Rattle.gp_grammar.proofs.Shrinking.{shrinks-term};
ghost use Rattle.gp_grammar.proofs.CommandCompleteness.{shrinks-column, shrinks-literal, shrinks-tuple, shrinks-item, shrinks-set_term, shrinks-all};
ghost use Rattle.gp_syntax.specs.Parses.{Parses, ParsesAll, Extends, pushed, from_clause, union_block};
ghost use Rattle.gp_syntax.specs.Views.{term_view, set_view, item_view, items_view, block_view, query_view, condition_view, command_view, line_view};

use crate::command::{Block, Command, Item, Items, Query, ScriptLine, SetTerm};
use crate::error::ParseStop;
use crate::lexeme_parser::{expect, expect_word, identifier, strip, strip_word};
use crate::list_parser::{ParsedList, in_brackets, parse_others, separated};
use crate::names::session_of;
use crate::parsed::{Parsed, before, ended, with_name};
use crate::term::Term;
use crate::term_parser::built_term;
use gp_base::{Cell, Column, Kind, Name, NoMemory, Row, Sequence, Table};
use gp_lexer::{Lexeme, Number, Symbol};
use std::alloc::Global;

fn term(alloc: Global, lexemes: &[Lexeme]) -> Result<(Term, &[Lexeme]), ParseStop<'_>>
    ensures { Parses term_view result (term lexemes.now) }
{
    let (built, rest) = built_term(alloc, lexemes)?;
    Ok((built.term, rest))
}

/// A column of a CREATE TABLE.
#[tactic(auto, unfolding(gp_grammar::specs::CommandParsing::column))]
fn column(lexemes: &[Lexeme]) -> Result<(Column, &[Lexeme]), ParseStop<'_>>
    ensures { Parses (λ column. column) result (spec.column lexemes.now) }
{
    let (name, rest) = identifier(lexemes)?;
    match strip(rest, Symbol::Int) {
        Some(rest) => {
            let name = name.clone()?;
            Ok((
                Column {
                    name,
                    kind: Kind::Int,
                },
                rest,
            ))
        }
        None => {
            let rest = expect(rest, Symbol::Text)?;
            let name = name.clone()?;
            Ok((
                Column {
                    name,
                    kind: Kind::Text,
                },
                rest,
            ))
        }
    }
}

impl ParsedList for Sequence<Column> {
    ghost Tree = { Column };

    ghost items = { λ list. list };

    ghost item = { spec.column };

    fn parse_next<'a>(
        &mut self,
        _alloc: Global,
        lexemes: &'a [Lexeme],
    ) -> Result<&'a [Lexeme], ParseStop<'a>> {
        let (next, rest) = column(lexemes)?;
        self.push(next)?;
        Ok(rest)
    }

    ghost shrinks = { shrinks-column };
}

/// A number with the sign `-`.
fn negative_cell(number: Number) -> Cell
    ensures { (rest : List Lexeme) → spec.negative (NumberLexeme number ∷ rest) ≡ Ok (result, rest) }
{
    Cell::Int(-(number.get() as i64))
}

/// A literal below zero, behind its sign.
fn negative(lexemes: &[Lexeme]) -> Result<(Cell, &[Lexeme]), ParseStop<'_>>
    ensures { Parses (λ cell. cell) result (spec.negative lexemes.now) }
{
    match lexemes {
        [Lexeme::Number(number), rest @ ..] => Ok((negative_cell(*number), rest)),
        [Lexeme::Big, rest @ ..] => Ok((Cell::Int(i64::MIN), rest)),
        _ => Err(ParseStop::At(lexemes)),
    }
}

/// A literal that begins with a symbol.
fn literal_by<'a>(
    symbol: Symbol,
    whole: &'a [Lexeme],
    lexemes: &'a [Lexeme],
) -> Result<(Cell, &'a [Lexeme]), ParseStop<'a>>
    ensures { Parses (λ cell. cell) result (spec.literal_by symbol whole.now lexemes.now) }
{
    match symbol {
        Symbol::Null => Ok((Cell::Null, lexemes)),
        Symbol::Minus => negative(lexemes),
        _ => Err(ParseStop::At(whole)),
    }
}

/// A literal of a tuple.
fn literal(lexemes: &[Lexeme]) -> Result<(Cell, &[Lexeme]), ParseStop<'_>>
    ensures { Parses (λ cell. cell) result (spec.literal lexemes.now) }
{
    match lexemes {
        [Lexeme::Symbol(symbol), rest @ ..] => literal_by(*symbol, lexemes, rest),
        [Lexeme::Number(number), rest @ ..] => Ok((Cell::Int(number.get() as i64), rest)),
        [Lexeme::Text(text), rest @ ..] => Ok((Cell::Text(text.clone()?), rest)),
        _ => Err(ParseStop::At(lexemes)),
    }
}

impl ParsedList for Row {
    ghost Tree = { Cell };

    ghost items = { λ row. row };

    ghost item = { spec.literal };

    fn parse_next<'a>(
        &mut self,
        _alloc: Global,
        lexemes: &'a [Lexeme],
    ) -> Result<&'a [Lexeme], ParseStop<'a>> {
        let (next, rest) = literal(lexemes)?;
        self.push(next)?;
        Ok(rest)
    }

    ghost shrinks = { shrinks-literal };
}

/// A tuple of a VALUES.
#[tactic(auto, unfolding(gp_grammar::specs::CommandParsing::tuple))]
fn tuple(alloc: Global, lexemes: &[Lexeme]) -> Result<(Row, &[Lexeme]), ParseStop<'_>>
    ensures { Parses (λ row. row) result (spec.tuple lexemes.now) }
{
    in_brackets(alloc, Row::new(alloc), lexemes)
}

impl ParsedList for Sequence<Row> {
    ghost Tree = { List Cell };

    ghost items = { λ list. list };

    ghost item = { spec.tuple };

    fn parse_next<'a>(
        &mut self,
        alloc: Global,
        lexemes: &'a [Lexeme],
    ) -> Result<&'a [Lexeme], ParseStop<'a>> {
        let (next, rest) = tuple(alloc, lexemes)?;
        self.push(next)?;
        Ok(rest)
    }

    ghost shrinks = { shrinks-tuple };
}

/// Tuples with commas between them.
fn tuples(alloc: Global, lexemes: &[Lexeme]) -> Result<(Sequence<Row>, &[Lexeme]), ParseStop<'_>>
    ensures { Parses (λ rows. rows) result (spec.separated spec.tuple lexemes.now) }
{
    separated(alloc, Sequence::new(alloc), lexemes)
}

/// A table of a FROM under this name.
fn named(table: &Name, name: &Name) -> Result<Item, NoMemory>
    ensures { IfOk result (λ item. item_view item ≡ spec.named table.now name.now) }
{
    let table = table.clone()?;
    let (name, table) = with_name(name, table)?;
    Ok(Item { table, name })
}

/// A table of a FROM, behind its own name, with or without another name.
fn optional_name<'a>(
    table: &Name,
    lexemes: &'a [Lexeme],
) -> Result<(Item, &'a [Lexeme]), ParseStop<'a>>
    ensures { Parses item_view result (spec.optional_name table.now lexemes.now) }
{
    match lexemes {
        [Lexeme::Word(name), rest @ ..] => Ok((named(table, name)?, rest)),
        _ => Ok((named(table, table)?, lexemes)),
    }
}

/// A table of a FROM, behind its own name.
fn alias<'a>(table: &Name, lexemes: &'a [Lexeme]) -> Result<(Item, &'a [Lexeme]), ParseStop<'a>>
    ensures { Parses item_view result (spec.alias table.now lexemes.now) }
{
    match strip(lexemes, Symbol::As) {
        Some(rest) => {
            let (name, rest) = identifier(rest)?;
            Ok((named(table, name)?, rest))
        }
        None => optional_name(table, lexemes),
    }
}

/// A table of a FROM.
#[tactic(auto, unfolding(gp_grammar::specs::CommandParsing::item))]
fn item(lexemes: &[Lexeme]) -> Result<(Item, &[Lexeme]), ParseStop<'_>>
    ensures { Parses item_view result (spec.item lexemes.now) }
{
    let (table, rest) = identifier(lexemes)?;
    alias(table, rest)
}

impl ParsedList for Sequence<Item> {
    ghost Tree = { y.Item };

    ghost items = { λ list. map item_view list };

    ghost item = { spec.item };

    fn parse_next<'a>(
        &mut self,
        _alloc: Global,
        lexemes: &'a [Lexeme],
    ) -> Result<&'a [Lexeme], ParseStop<'a>> {
        let (next, rest) = item(lexemes)?;
        self.push(next)?;
        Ok(rest)
    }

    ghost shrinks = { shrinks-item };
}

/// Tables of a FROM with commas between them.
fn from_items(
    alloc: Global,
    lexemes: &[Lexeme],
) -> Result<(Sequence<Item>, &[Lexeme]), ParseStop<'_>>
    ensures { Parses (map item_view) result (spec.separated spec.item lexemes.now) }
{
    separated(alloc, Sequence::new(alloc), lexemes)
}

impl ParsedList for Sequence<Term> {
    ghost Tree = { y.Term };

    ghost items = { λ list. map term_view list };

    ghost item = { term };

    fn parse_next<'a>(
        &mut self,
        alloc: Global,
        lexemes: &'a [Lexeme],
    ) -> Result<&'a [Lexeme], ParseStop<'a>> {
        let (next, rest) = term(alloc, lexemes)?;
        self.push(next)?;
        Ok(rest)
    }

    ghost shrinks = { shrinks-term };
}

/// Terms with commas between them.
fn terms(alloc: Global, lexemes: &[Lexeme]) -> Result<(Sequence<Term>, &[Lexeme]), ParseStop<'_>>
    ensures { Parses (map term_view) result (spec.separated term lexemes.now) }
{
    separated(alloc, Sequence::new(alloc), lexemes)
}

/// What a SELECT lists.
#[tactic(auto, unfolding(gp_grammar::specs::CommandParsing::items))]
fn select_items(alloc: Global, lexemes: &[Lexeme]) -> Result<(Items, &[Lexeme]), ParseStop<'_>>
    ensures { Parses items_view result (spec.items lexemes.now) }
{
    match strip(lexemes, Symbol::Star) {
        Some(rest) => Ok((Items::Star, rest)),
        None => {
            let (terms, rest) = terms(alloc, lexemes)?;
            Ok((Items::List(terms), rest))
        }
    }
}

/// A WHERE, if it follows.
#[tactic(auto, unfolding(gp_grammar::specs::CommandParsing::condition))]
pub(crate) fn condition(
    alloc: Global,
    lexemes: &[Lexeme],
) -> Result<(Option<Term>, &[Lexeme]), ParseStop<'_>>
    ensures { Parses condition_view result (spec.condition lexemes.now) }
{
    match strip(lexemes, Symbol::Where) {
        None => Ok((None, lexemes)),
        Some(rest) => {
            let (term, rest) = term(alloc, rest)?;
            Ok((Some(term), rest))
        }
    }
}

/// The value and a WHERE, if it follows.
fn with_condition<T: Drop>(
    alloc: Global,
    value: T,
    lexemes: &[Lexeme],
) -> Result<((T, Option<Term>), &[Lexeme]), ParseStop<'_>>
    ensures value { IfOk result (λ r. r.0.0 ≡ value) }
    ensures condition { Parses (λ r. condition_view r.1) result (spec.condition lexemes.now) }
{
    let (cond, rest) = condition(alloc, lexemes)?;
    Ok(((value, cond), rest))
}

/// The value and a FROM.
#[tactic(auto, unfolding(gp_grammar::specs::CommandParsing::block))]
fn with_from<T: Drop>(
    alloc: Global,
    value: T,
    lexemes: &[Lexeme],
) -> Result<((T, Sequence<Item>), &[Lexeme]), ParseStop<'_>>
    ensures value { IfOk result (λ r. r.0.0 ≡ value) }
    ensures from { Parses (λ r. map item_view r.1) result (from_clause lexemes.now) }
{
    let rest = expect(lexemes, Symbol::From)?;
    let (from, rest) = from_items(alloc, rest)?;
    Ok(((value, from), rest))
}

/// A SELECT.
#[tactic(auto, unfolding(gp_grammar::specs::CommandParsing::block))]
fn block(alloc: Global, lexemes: &[Lexeme]) -> Result<(Block, &[Lexeme]), ParseStop<'_>>
    ensures { Parses block_view result (spec.block lexemes.now) }
{
    let rest = expect(lexemes, Symbol::Select)?;
    let (items, rest) = select_items(alloc, rest)?;
    let ((items, from), rest) = with_from(alloc, items, rest)?;
    let (((items, from), cond), rest) = with_condition(alloc, (items, from), rest)?;
    Ok((Block { items, from, cond }, rest))
}

/// A SELECT behind UNION.
fn union_block(alloc: Global, lexemes: &[Lexeme]) -> Result<(Block, &[Lexeme]), ParseStop<'_>>
    ensures { Parses block_view result (union_block lexemes.now) }
{
    let rest = expect(lexemes, Symbol::All)?;
    block(alloc, rest)
}

impl ParsedList for Sequence<Block> {
    ghost Tree = { y.Block };

    ghost items = { λ list. map block_view list };

    ghost item = { union_block };

    fn parse_next<'a>(
        &mut self,
        alloc: Global,
        lexemes: &'a [Lexeme],
    ) -> Result<&'a [Lexeme], ParseStop<'a>> {
        let (next, rest) = union_block(alloc, lexemes)?;
        self.push(next)?;
        Ok(rest)
    }

    ghost shrinks = { shrinks-all };
}

/// Adds the SELECT that the lexemes begin with, and gives the lexemes behind it.
fn push_block<'a>(
    alloc: Global,
    found: &mut Sequence<Block>,
    lexemes: &'a [Lexeme],
) -> Result<&'a [Lexeme], ParseStop<'a>>
    ensures { Extends (map block_view found.new) result
        (pushed (map block_view found.old) (spec.block lexemes.now)) }
{
    let (first, rest) = block(alloc, lexemes)?;
    found.push(first)?;
    Ok(rest)
}

/// SELECTs with UNION ALL between them.
#[tactic(auto, unfolding(gp_grammar::specs::CommandParsing::query))]
fn blocks(alloc: Global, lexemes: &[Lexeme]) -> Result<(Sequence<Block>, &[Lexeme]), ParseStop<'_>>
    ensures { Parses (map block_view) result (spec.query lexemes.now) }
{
    let mut found = Sequence::new(alloc);
    let rest = push_block(alloc, &mut found, lexemes)?;
    let rest = parse_others(alloc, &mut found, Symbol::Union, rest)?;
    Ok((found, rest))
}

pub(crate) fn query(alloc: Global, lexemes: &[Lexeme]) -> Result<(Query, &[Lexeme]), ParseStop<'_>>
    ensures { Parses query_view result (spec.query lexemes.now) }
{
    let (blocks, rest) = blocks(alloc, lexemes)?;
    Ok((Query { blocks }, rest))
}

/// An assignment of an UPDATE.
#[tactic(auto, unfolding(gp_grammar::specs::CommandParsing::set_term))]
fn set_term(alloc: Global, lexemes: &[Lexeme]) -> Result<(SetTerm, &[Lexeme]), ParseStop<'_>>
    ensures { Parses set_view result (spec.set_term lexemes.now) }
{
    let (name, rest) = identifier(lexemes)?;
    let rest = expect(rest, Symbol::Eq)?;
    let (term, rest) = term(alloc, rest)?;
    let (col, term) = with_name(name, term)?;
    Ok((SetTerm { col, term }, rest))
}

impl ParsedList for Sequence<SetTerm> {
    ghost Tree = { y.SetTerm };

    ghost items = { λ list. map set_view list };

    ghost item = { spec.set_term };

    fn parse_next<'a>(
        &mut self,
        alloc: Global,
        lexemes: &'a [Lexeme],
    ) -> Result<&'a [Lexeme], ParseStop<'a>> {
        let (next, rest) = set_term(alloc, lexemes)?;
        self.push(next)?;
        Ok(rest)
    }

    ghost shrinks = { shrinks-set_term };
}

/// Assignments with commas between them.
fn set_terms(
    alloc: Global,
    lexemes: &[Lexeme],
) -> Result<(Sequence<SetTerm>, &[Lexeme]), ParseStop<'_>>
    ensures { Parses (map set_view) result (spec.separated spec.set_term lexemes.now) }
{
    separated(alloc, Sequence::new(alloc), lexemes)
}

/// A CREATE TABLE, behind its first word.
#[tactic(auto, unfolding(gp_grammar::specs::CommandParsing::create))]
fn create(alloc: Global, lexemes: &[Lexeme]) -> Result<(Command, &[Lexeme]), ParseStop<'_>>
    ensures { Parses command_view result (spec.create lexemes.now) }
{
    let rest = expect(lexemes, Symbol::Table)?;
    let (name, rest) = identifier(rest)?;
    let (cols, rest) = in_brackets(alloc, Sequence::new(alloc), rest)?;
    let (name, cols) = with_name(name, cols)?;
    Ok((
        Command::Create {
            table: Table { name, cols },
        },
        rest,
    ))
}

/// An INSERT, behind its first word.
#[tactic(auto, unfolding(gp_grammar::specs::CommandParsing::insert))]
fn insert(alloc: Global, lexemes: &[Lexeme]) -> Result<(Command, &[Lexeme]), ParseStop<'_>>
    ensures { Parses command_view result (spec.insert lexemes.now) }
{
    let rest = expect(lexemes, Symbol::Into)?;
    let (table, rest) = identifier(rest)?;
    match strip(rest, Symbol::Values) {
        Some(rest) => {
            let (rows, rest) = tuples(alloc, rest)?;
            let (table, rows) = with_name(table, rows)?;
            Ok((Command::Insert { table, rows }, rest))
        }
        None => {
            let (query, rest) = query(alloc, rest)?;
            let (table, query) = with_name(table, query)?;
            Ok((Command::InsertSelect { table, query }, rest))
        }
    }
}

/// An UPDATE, behind its first word.
#[tactic(auto, unfolding(gp_grammar::specs::CommandParsing::update))]
fn update(alloc: Global, lexemes: &[Lexeme]) -> Result<(Command, &[Lexeme]), ParseStop<'_>>
    ensures { Parses command_view result (spec.update lexemes.now) }
{
    let (name, rest) = identifier(lexemes)?;
    let rest = expect(rest, Symbol::Set)?;
    let (sets, rest) = set_terms(alloc, rest)?;
    let ((sets, cond), rest) = with_condition(alloc, sets, rest)?;
    let (table, (sets, cond)) = with_name(name, (sets, cond))?;
    Ok((Command::Update { table, sets, cond }, rest))
}

/// A DELETE, behind its first word.
#[tactic(auto, unfolding(gp_grammar::specs::CommandParsing::delete))]
fn delete(alloc: Global, lexemes: &[Lexeme]) -> Result<(Command, &[Lexeme]), ParseStop<'_>>
    ensures { Parses command_view result (spec.delete lexemes.now) }
{
    let rest = expect(lexemes, Symbol::From)?;
    let (name, rest) = identifier(rest)?;
    let (cond, rest) = condition(alloc, rest)?;
    let (table, cond) = with_name(name, cond)?;
    Ok((Command::Delete { table, cond }, rest))
}

/// A BEGIN, behind its first word.
#[tactic(auto, unfolding(gp_grammar::specs::CommandParsing::begin))]
fn begin(lexemes: &[Lexeme]) -> Result<(Command, &[Lexeme]), ParseStop<'_>>
    ensures { Parses command_view result (spec.begin lexemes.now) }
{
    let (read_committed, rest) = match strip_word(lexemes, b"read") {
        Some(rest) => (true, expect_word(rest, b"committed")?),
        None => (false, lexemes),
    };
    Ok((Command::Begin { read_committed }, rest))
}

/// A query as a command.
fn select(alloc: Global, lexemes: &[Lexeme]) -> Result<(Command, &[Lexeme]), ParseStop<'_>>
    ensures { Parses command_view result (spec.statement_by Symbol.Select lexemes.now lexemes.now) }
{
    let (query, rest) = query(alloc, lexemes)?;
    Ok((Command::Select { query }, rest))
}

/// A statement, by its first word.
fn statement_by<'a>(
    alloc: Global,
    symbol: Symbol,
    whole: &'a [Lexeme],
    lexemes: &'a [Lexeme],
) -> Result<(Command, &'a [Lexeme]), ParseStop<'a>>
    ensures { Parses command_view result (spec.statement_by symbol whole.now lexemes.now) }
{
    match symbol {
        Symbol::Insert => insert(alloc, lexemes),
        Symbol::Update => update(alloc, lexemes),
        Symbol::Delete => delete(alloc, lexemes),
        Symbol::Select => select(alloc, whole),
        _ => Err(ParseStop::At(whole)),
    }
}

fn statement(alloc: Global, lexemes: &[Lexeme]) -> Result<(Command, &[Lexeme]), ParseStop<'_>>
    ensures { Parses command_view result (spec.statement lexemes.now) }
{
    match lexemes {
        [Lexeme::Symbol(symbol), rest @ ..] => statement_by(alloc, *symbol, lexemes, rest),
        _ => Err(ParseStop::At(lexemes)),
    }
}

pub(crate) fn bracketed_statement(
    alloc: Global,
    lexemes: &[Lexeme],
) -> Result<(Command, &[Lexeme]), ParseStop<'_>>
    ensures { Parses command_view result (spec.in_brackets spec.statement lexemes.now) }
{
    let rest = expect(lexemes, Symbol::Open)?;
    let (command, rest) = statement(alloc, rest)?;
    before(command, rest, Symbol::Close)
}

/// A command, by its first word.
fn command_by<'a>(
    alloc: Global,
    symbol: Symbol,
    whole: &'a [Lexeme],
    lexemes: &'a [Lexeme],
) -> Result<(Command, &'a [Lexeme]), ParseStop<'a>>
    ensures { Parses command_view result (spec.command_by symbol whole.now lexemes.now) }
{
    match symbol {
        Symbol::Create => create(alloc, lexemes),
        Symbol::Begin => begin(lexemes),
        Symbol::Commit => Ok((Command::Commit, lexemes)),
        Symbol::Rollback => Ok((Command::Rollback, lexemes)),
        _ => statement_by(alloc, symbol, whole, lexemes),
    }
}

fn command(alloc: Global, lexemes: &[Lexeme]) -> Result<(Command, &[Lexeme]), ParseStop<'_>>
    ensures { Parses command_view result (spec.command lexemes.now) }
{
    match lexemes {
        [Lexeme::Symbol(symbol), rest @ ..] => command_by(alloc, *symbol, lexemes, rest),
        _ => Err(ParseStop::At(lexemes)),
    }
}

/// A command of a session, behind the session's name.
fn in_session(
    alloc: Global,
    session: u32,
    lexemes: &[Lexeme],
) -> Result<(ScriptLine, &[Lexeme]), ParseStop<'_>>
    ensures { Parses line_view result (spec.in_session session lexemes.now) }
{
    let rest = expect(lexemes, Symbol::Colon)?;
    let (command, rest) = command(alloc, rest)?;
    Ok((ScriptLine { session, command }, rest))
}

fn session_command(
    alloc: Global,
    lexemes: &[Lexeme],
) -> Result<(ScriptLine, &[Lexeme]), ParseStop<'_>>
    ensures { Parses line_view result (spec.session_command lexemes.now) }
{
    match lexemes {
        [Lexeme::Word(name), rest @ ..] => match session_of(name.as_bytes()) {
            Some(session) => in_session(alloc, session, rest),
            None => Err(ParseStop::At(lexemes)),
        },
        _ => Err(ParseStop::At(lexemes)),
    }
}

impl Parsed for ScriptLine {
    ghost Tree = { y.ScriptLine };

    ghost view = { line_view };
}

impl Parsed for Command {
    ghost Tree = { y.Command };

    ghost view = { command_view };
}

/// The line of a script that the lexemes are.
pub(crate) fn script_line(alloc: Global, lexemes: &[Lexeme]) -> Result<ScriptLine, ParseStop<'_>>
    ensures { ParsesAll line_view result (whole spec.script_line lexemes.now) }
{
    let (line, rest) = session_command(alloc, lexemes)?;
    match strip(rest, Symbol::Semicolon) {
        Some(rest) => ended(line, rest),
        None => ended(line, rest),
    }
}

/// The command that the lexemes are.
pub(crate) fn whole_command(alloc: Global, lexemes: &[Lexeme]) -> Result<Command, ParseStop<'_>>
    ensures { ParsesAll command_view result (whole spec.command lexemes.now) }
{
    let (command, rest) = command(alloc, lexemes)?;
    ended(command, rest)
}
