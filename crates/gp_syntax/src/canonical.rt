//! The writer of canonical texts. Each function writes the canonical lexemes of one part of the syntax.

ghost use Rattle.std.specs.Prelude.{◌≡◌, ◌==◌, ◌≤◌, ◌^◌, ◌++◌, ◌∷◌, [], List, ℤ, false, IfOk, OnOk, if◌then◌else◌, map};
ghost use Rattle.std.specs.List.{flat_map};
ghost use Rattle.std.specs.Str.{bytes_eq};
ghost use Rattle.gp_lexer.specs.Layout.{laid_out, put, written};
ghost use Rattle.gp_lexer.specs.declared.lexeme.Lexeme.{Lexeme};
ghost use Rattle.gp_lexer.specs.declared.lexeme.Lexeme.TheVariants.{Symbol as Sign, Number as NumberLexeme, Big as BigLexeme};
ghost use Rattle.gp_grammar.specs.Canonical as spec;
ghost use Rattle.gp_grammar.specs.Syntax.{begin, binary, case, create, insert, insert_select, update, delete};
ghost use Rattle.gp_syntax.specs.Layouts.{insert_into, is_begin, separator_lexemes};
ghost use Rattle.gp_syntax.specs.Views.{term_view, set_view, item_view, items_view, block_view, query_view, condition_view, command_view};

use crate::command::{Block, Command, Item, Items, Query, SetTerm};
use crate::term::Term;
use gp_base::{Cell, Column, Kind, Name, NoMemory, Row, Table};
use gp_grammar::Op;
use gp_lexer::{Layout, Number, Symbol};
use std::alloc::Global;

fn symbol_of(op: Op) -> Symbol
    ensures { result ≡ spec.symbol_of op }
{
    match op {
        Op::Add => Symbol::Plus,
        Op::Sub => Symbol::Minus,
        Op::Mul => Symbol::Star,
        Op::Eq => Symbol::Eq,
        Op::Ne => Symbol::Ne,
        Op::Lt => Symbol::Lt,
        Op::Le => Symbol::Le,
        Op::Gt => Symbol::Gt,
        Op::Ge => Symbol::Ge,
        Op::And => Symbol::And,
        Op::Or => Symbol::Or,
    }
}

/// Writes a number that may be 9223372036854775808, the greatest that a `-` before it makes an `i64`.
fn push_magnitude(layout: &mut Layout, magnitude: u64) -> Result<(), NoMemory>
    requires { magnitude ≤ 2 ^ 63 }
    ensures { OnOk result (layout.new
        ≡ put layout.old (if magnitude == 2 ^ 63 then BigLexeme else NumberLexeme magnitude)) }
{
    if magnitude == 1 << 63 {
        layout.push_big()
    } else {
        layout.push_number(Number::new(magnitude))
    }
}

/// Writes the sign `-` and a number.
fn push_negative(layout: &mut Layout, magnitude: u64) -> Result<(), NoMemory>
    requires { magnitude ≤ 2 ^ 63 }
    ensures { OnOk result (layout.new ≡ put (put layout.old (Sign Symbol.Minus))
        (if magnitude == 2 ^ 63 then BigLexeme else NumberLexeme magnitude)) }
{
    layout.push_symbol(Symbol::Minus)?;
    push_magnitude(layout, magnitude)
}

/// Writes a number of a term.
#[tactic(auto, using(crate::proofs::CanonicalLemmas::numbers))]
fn push_number(layout: &mut Layout, number: i64) -> Result<(), NoMemory>
    ensures { OnOk result (layout.new ≡ written layout.old (spec.number_lexemes number)) }
{
    if number < 0 {
        push_negative(layout, number.unsigned_abs())
    } else {
        push_magnitude(layout, number.unsigned_abs())
    }
}

#[tactic(auto, using(crate::proofs::CanonicalLemmas::writes))]
fn push_column(layout: &mut Layout, item: &Option<Name>, name: &Name) -> Result<(), NoMemory>
    ensures { OnOk result (layout.new ≡ written layout.old (spec.column_lexemes item.now name.now)) }
{
    match item {
        None => layout.push_word(name),
        Some(item) => {
            layout.push_word(item)?;
            layout.push_symbol(Symbol::Dot)?;
            layout.push_word(name)
        }
    }
}

/// Writes IS, NOT where `yes` is false, and what is tested.
#[tactic(auto, using(crate::proofs::CanonicalLemmas::writes))]
fn push_test(layout: &mut Layout, yes: bool, tested: Symbol) -> Result<(), NoMemory>
    ensures { OnOk result (layout.new
        ≡ written layout.old (spec.is_lexemes yes ++ (Sign tested ∷ []))) }
{
    layout.push_symbol(Symbol::Is)?;
    if !yes {
        layout.push_symbol(Symbol::Not)?;
    }
    layout.push_symbol(tested)
}

/// Writes two symbols.
#[tactic(auto, using(crate::proofs::CanonicalLemmas::writes))]
fn push_symbols(layout: &mut Layout, first: Symbol, second: Symbol) -> Result<(), NoMemory>
    ensures { OnOk result (layout.new ≡ written layout.old (Sign first ∷ Sign second ∷ [])) }
{
    layout.push_symbol(first)?;
    layout.push_symbol(second)
}

/// Writes a sign and a term in brackets.
#[cycle(term_writers)]
#[tactic(auto, using(crate::proofs::CanonicalLemmas::writes))]
fn push_signed(layout: &mut Layout, sign: Symbol, part: &Term) -> Result<(), NoMemory>
    ensures { OnOk result (layout.new ≡ written layout.old
        (spec.bracketed (Sign sign ∷ spec.term_lexemes (term_view part.now)))) }
{
    push_symbols(layout, Symbol::Open, sign)?;
    push_term(layout, part)?;
    layout.push_symbol(Symbol::Close)
}

/// Writes a term and its test in brackets.
#[cycle(term_writers)]
#[tactic(auto, using(crate::proofs::CanonicalLemmas::writes))]
fn push_tested(layout: &mut Layout, part: &Term, yes: bool, tested: Symbol) -> Result<(), NoMemory>
    ensures { OnOk result (layout.new ≡ written layout.old (spec.bracketed
        (spec.term_lexemes (term_view part.now) ++ (spec.is_lexemes yes ++ (Sign tested ∷ []))))) }
{
    layout.push_symbol(Symbol::Open)?;
    push_term(layout, part)?;
    push_test(layout, yes, tested)?;
    layout.push_symbol(Symbol::Close)
}

/// Writes two terms with an operator between them in brackets.
#[cycle(term_writers)]
#[tactic(auto, using(crate::proofs::CanonicalLemmas::writes))]
fn push_binary(layout: &mut Layout, op: Op, left: &Term, right: &Term) -> Result<(), NoMemory>
    ensures { OnOk result (layout.new ≡ written layout.old
        (spec.term_lexemes (binary op (term_view left.now) (term_view right.now)))) }
{
    layout.push_symbol(Symbol::Open)?;
    push_term(layout, left)?;
    layout.push_symbol(symbol_of(op))?;
    push_term(layout, right)?;
    layout.push_symbol(Symbol::Close)
}

/// Writes a CASE.
#[cycle(term_writers)]
#[tactic(auto, using(crate::proofs::CanonicalLemmas::writes))]
fn push_case(layout: &mut Layout, when: &Term, first: &Term, other: &Term) -> Result<(), NoMemory>
    ensures { OnOk result (layout.new ≡ written layout.old
        (spec.term_lexemes (case (term_view when.now) (term_view first.now) (term_view other.now)))) }
{
    push_symbols(layout, Symbol::Case, Symbol::When)?;
    push_term(layout, when)?;
    layout.push_symbol(Symbol::Then)?;
    push_term(layout, first)?;
    layout.push_symbol(Symbol::Else)?;
    push_term(layout, other)?;
    layout.push_symbol(Symbol::End)
}

#[cycle(term_writers)]
#[tactic(auto, using(crate::proofs::CanonicalLemmas::writes))]
fn push_term(layout: &mut Layout, term: &Term) -> Result<(), NoMemory>
    ensures { OnOk result (layout.new ≡ written layout.old (spec.term_lexemes (term_view term.now))) }
{
    match term {
        Term::Null => layout.push_symbol(Symbol::Null),
        Term::Int(number) => push_number(layout, *number),
        Term::Text(text) => layout.push_text(text),
        Term::Col { item, col } => push_column(layout, item, col),
        Term::Binary { op, left, right } => push_binary(layout, *op, left, right),
        Term::Neg(part) => push_signed(layout, Symbol::Minus, part),
        Term::Not(part) => push_signed(layout, Symbol::Not, part),
        Term::IsNull { term, yes } => push_tested(layout, term, *yes, Symbol::Null),
        Term::IsTrue { term, yes } => push_tested(layout, term, *yes, Symbol::True),
        Term::Case { when, first, other } => push_case(layout, when, first, other),
    }
}

/// The canonical lexemes of the values of a type.
trait LexemeFormat<T> {
    /// The lexemes of a value.
    ghost lexemes: { T → List Lexeme };

    /// Writes the lexemes of a value.
    fn push(&self, layout: &mut Layout, item: &T) -> Result<(), NoMemory>
        ensures { OnOk result (layout.new ≡ written layout.old (lexemes item.now)) };
}

/// What is written between the items of a list.
#[derive(Clone, Copy)]
pub(crate) enum Separator {
    /// `,`
    Comma,
    /// `UNION ALL`
    UnionAll,
}

#[tactic(auto, using(crate::proofs::CanonicalLemmas::writes))]
fn push_separator(layout: &mut Layout, separator: Separator) -> Result<(), NoMemory>
    ensures { OnOk result (layout.new ≡ written layout.old (separator_lexemes separator)) }
{
    match separator {
        Separator::Comma => layout.push_symbol(Symbol::Comma),
        Separator::UnionAll => push_symbols(layout, Symbol::Union, Symbol::All),
    }
}

/// Writes the separator and the lexemes of each item.
#[tactic(auto, using(crate::proofs::CanonicalLemmas::writes))]
fn push_others<T, F: LexemeFormat<T>>(
    layout: &mut Layout,
    items: &[T],
    format: &F,
    separator: Separator,
) -> Result<(), NoMemory>
    ensures { OnOk result (layout.new ≡ written layout.old
        (flat_map (λ item. separator_lexemes separator ++ F.lexemes item) items.now)) }
{
    for item in items {
        push_separator(layout, separator)?;
        format.push(layout, item)?;
    }
    Ok(())
}

/// Writes the lexemes of the first item and, behind the separator, of each other one.
#[tactic(auto, using(crate::proofs::CanonicalLemmas::writes))]
fn push_first<T, F: LexemeFormat<T>>(
    layout: &mut Layout,
    first: &T,
    others: &[T],
    format: &F,
    separator: Separator,
) -> Result<(), NoMemory>
    ensures { OnOk result (layout.new ≡ written layout.old
        (spec.joined_lexemes (separator_lexemes separator) F.lexemes (first.now ∷ others.now))) }
{
    format.push(layout, first)?;
    push_others(layout, others, format, separator)
}

/// Writes the lexemes of the items with the separator between neighbours.
#[tactic(auto, using(crate::proofs::CanonicalLemmas::writes))]
fn push_joined<T, F: LexemeFormat<T>>(
    layout: &mut Layout,
    items: &[T],
    format: &F,
    separator: Separator,
) -> Result<(), NoMemory>
    ensures { OnOk result (layout.new ≡ written layout.old
        (spec.joined_lexemes (separator_lexemes separator) F.lexemes items.now)) }
{
    match items {
        [] => Ok(()),
        [first, others @ ..] => push_first(layout, first, others, format, separator),
    }
}

struct TermFormat;

impl LexemeFormat<Term> for TermFormat {
    ghost lexemes = { λ term. spec.term_lexemes (term_view term) };

    fn push(&self, layout: &mut Layout, item: &Term) -> Result<(), NoMemory> {
        push_term(layout, item)
    }
}

struct ColumnFormat;

fn kind_symbol(kind: Kind) -> Symbol
    ensures { Sign result ≡ spec.kind_lexeme kind }
{
    match kind {
        Kind::Int => Symbol::Int,
        Kind::Text => Symbol::Text,
    }
}

impl LexemeFormat<Column> for ColumnFormat {
    ghost lexemes = { spec.column_definition_lexemes };

    #[tactic(auto, using(crate::proofs::CanonicalLemmas::writes))]
    fn push(&self, layout: &mut Layout, item: &Column) -> Result<(), NoMemory> {
        layout.push_word(&item.name)?;
        layout.push_symbol(kind_symbol(item.kind))
    }
}

/// Writes a number of a tuple.
#[tactic(auto, using(crate::proofs::CanonicalLemmas::numbers))]
fn push_literal(layout: &mut Layout, number: i64) -> Result<(), NoMemory>
    ensures { OnOk result (layout.new ≡ written layout.old (spec.cell_lexemes (Cell.Int number))) }
{
    if number < 0 {
        push_negative(layout, number.unsigned_abs())
    } else {
        push_magnitude(layout, number.unsigned_abs())
    }
}

struct CellFormat;

impl LexemeFormat<Cell> for CellFormat {
    ghost lexemes = { spec.cell_lexemes };

    #[tactic(auto, using(crate::proofs::CanonicalLemmas::writes))]
    fn push(&self, layout: &mut Layout, item: &Cell) -> Result<(), NoMemory> {
        match item {
            Cell::Null => layout.push_symbol(Symbol::Null),
            Cell::Int(number) => push_literal(layout, *number),
            Cell::Text(text) => layout.push_text(text),
            Cell::Id(_) | Cell::Mark(_) | Cell::Mono(_) => layout.push_symbol(Symbol::Null),
        }
    }
}

struct TupleFormat;

impl LexemeFormat<Row> for TupleFormat {
    ghost lexemes = { spec.tuple_lexemes };

    #[tactic(auto, using(crate::proofs::CanonicalLemmas::writes))]
    fn push(&self, layout: &mut Layout, item: &Row) -> Result<(), NoMemory> {
        layout.push_symbol(Symbol::Open)?;
        push_joined(layout, item.cells(), &CellFormat, Separator::Comma)?;
        layout.push_symbol(Symbol::Close)
    }
}

struct ItemFormat;

impl LexemeFormat<Item> for ItemFormat {
    ghost lexemes = { λ item. spec.item_lexemes (item_view item) };

    #[tactic(auto, using(crate::proofs::CanonicalLemmas::writes))]
    fn push(&self, layout: &mut Layout, item: &Item) -> Result<(), NoMemory> {
        layout.push_word(&item.table)?;
        if item.table.as_bytes() != item.name.as_bytes() {
            layout.push_word(&item.name)?;
        }
        Ok(())
    }
}

#[tactic(auto, using(crate::proofs::CanonicalLemmas::lists))]
fn push_items(layout: &mut Layout, items: &Items) -> Result<(), NoMemory>
    ensures { OnOk result (layout.new ≡ written layout.old (spec.items_lexemes (items_view items.now))) }
{
    match items {
        Items::Star => layout.push_symbol(Symbol::Star),
        Items::List(terms) => push_joined(layout, terms.as_slice(), &TermFormat, Separator::Comma),
    }
}

#[tactic(auto, using(crate::proofs::CanonicalLemmas::writes))]
fn push_condition(layout: &mut Layout, cond: &Option<Term>) -> Result<(), NoMemory>
    ensures { OnOk result (layout.new
        ≡ written layout.old (spec.condition_lexemes (condition_view cond.now))) }
{
    match cond {
        None => Ok(()),
        Some(term) => {
            layout.push_symbol(Symbol::Where)?;
            push_term(layout, term)
        }
    }
}

#[tactic(auto, using(crate::proofs::CanonicalLemmas::lists))]
fn push_from(layout: &mut Layout, from: &[Item]) -> Result<(), NoMemory>
    ensures { OnOk result (layout.new ≡ written layout.old
        (spec.listed_lexemes spec.item_lexemes (map item_view from.now))) }
{
    push_joined(layout, from, &ItemFormat, Separator::Comma)
}

struct BlockFormat;

impl LexemeFormat<Block> for BlockFormat {
    ghost lexemes = { λ block. spec.block_lexemes (block_view block) };

    #[tactic(auto, using(crate::proofs::CanonicalLemmas::writes))]
    fn push(&self, layout: &mut Layout, item: &Block) -> Result<(), NoMemory> {
        layout.push_symbol(Symbol::Select)?;
        push_items(layout, &item.items)?;
        layout.push_symbol(Symbol::From)?;
        push_from(layout, item.from.as_slice())?;
        push_condition(layout, &item.cond)
    }
}

#[tactic(auto, using(crate::proofs::CanonicalLemmas::lists))]
fn push_query(layout: &mut Layout, query: &Query) -> Result<(), NoMemory>
    ensures { OnOk result (layout.new ≡ written layout.old (spec.query_lexemes (query_view query.now))) }
{
    push_joined(
        layout,
        query.blocks.as_slice(),
        &BlockFormat,
        Separator::UnionAll,
    )
}

struct SetFormat;

impl LexemeFormat<SetTerm> for SetFormat {
    ghost lexemes = { λ set. spec.set_lexemes (set_view set) };

    #[tactic(auto, using(crate::proofs::CanonicalLemmas::writes))]
    fn push(&self, layout: &mut Layout, item: &SetTerm) -> Result<(), NoMemory> {
        layout.push_word(&item.col)?;
        layout.push_symbol(Symbol::Eq)?;
        push_term(layout, &item.term)
    }
}

#[tactic(auto, using(crate::proofs::CanonicalLemmas::lists))]
fn push_sets(layout: &mut Layout, sets: &[SetTerm]) -> Result<(), NoMemory>
    ensures { OnOk result (layout.new ≡ written layout.old
        (spec.listed_lexemes spec.set_lexemes (map set_view sets.now))) }
{
    push_joined(layout, sets, &SetFormat, Separator::Comma)
}

/// Writes the columns of a table in brackets.
#[tactic(auto, using(crate::proofs::CanonicalLemmas::writes))]
fn push_columns(layout: &mut Layout, columns: &[Column]) -> Result<(), NoMemory>
    ensures { OnOk result (layout.new ≡ written layout.old
        (spec.bracketed (spec.listed_lexemes spec.column_definition_lexemes columns.now))) }
{
    layout.push_symbol(Symbol::Open)?;
    push_joined(layout, columns, &ColumnFormat, Separator::Comma)?;
    layout.push_symbol(Symbol::Close)
}

#[tactic(auto, using(crate::proofs::CanonicalLemmas::writes))]
fn push_create(layout: &mut Layout, table: &Table) -> Result<(), NoMemory>
    ensures { OnOk result (layout.new ≡ written layout.old (spec.command_lexemes (create table.now))) }
{
    push_symbols(layout, Symbol::Create, Symbol::Table)?;
    layout.push_word(&table.name)?;
    push_columns(layout, table.cols.as_slice())
}

/// Writes INSERT INTO and the table.
#[tactic(auto, using(crate::proofs::CanonicalLemmas::writes))]
fn push_insert_into(layout: &mut Layout, table: &Name) -> Result<(), NoMemory>
    ensures { OnOk result (layout.new ≡ written layout.old (insert_into table.now)) }
{
    push_symbols(layout, Symbol::Insert, Symbol::Into)?;
    layout.push_word(table)
}

#[tactic(auto, using(crate::proofs::CanonicalLemmas::writes))]
fn push_insert(layout: &mut Layout, table: &Name, rows: &[Row]) -> Result<(), NoMemory>
    ensures { OnOk result (layout.new
        ≡ written layout.old (spec.command_lexemes (insert table.now rows.now))) }
{
    push_insert_into(layout, table)?;
    layout.push_symbol(Symbol::Values)?;
    push_joined(layout, rows, &TupleFormat, Separator::Comma)
}

#[tactic(auto, using(crate::proofs::CanonicalLemmas::writes))]
fn push_insert_select(layout: &mut Layout, table: &Name, query: &Query) -> Result<(), NoMemory>
    ensures { OnOk result (layout.new
        ≡ written layout.old (spec.command_lexemes (insert_select table.now (query_view query.now)))) }
{
    push_insert_into(layout, table)?;
    push_query(layout, query)
}

#[tactic(auto, using(crate::proofs::CanonicalLemmas::writes))]
fn push_update(
    layout: &mut Layout,
    table: &Name,
    sets: &[SetTerm],
    cond: &Option<Term>,
) -> Result<(), NoMemory>
    ensures { OnOk result (layout.new ≡ written layout.old
        (spec.command_lexemes (update table.now (map set_view sets.now) (condition_view cond.now)))) }
{
    layout.push_symbol(Symbol::Update)?;
    layout.push_word(table)?;
    layout.push_symbol(Symbol::Set)?;
    push_sets(layout, sets)?;
    push_condition(layout, cond)
}

#[tactic(auto, using(crate::proofs::CanonicalLemmas::writes))]
fn push_delete(layout: &mut Layout, table: &Name, cond: &Option<Term>) -> Result<(), NoMemory>
    ensures { OnOk result (layout.new ≡ written layout.old
        (spec.command_lexemes (delete table.now (condition_view cond.now)))) }
{
    layout.push_symbol(Symbol::Delete)?;
    layout.push_symbol(Symbol::From)?;
    layout.push_word(table)?;
    push_condition(layout, cond)
}

/// Writes a command that is no BEGIN.
#[tactic(auto, using(crate::proofs::CanonicalLemmas::writes))]
fn push_command(layout: &mut Layout, command: &Command) -> Result<(), NoMemory>
    requires { is_begin (command_view command.now) ≡ false }
    ensures { OnOk result (layout.new
        ≡ written layout.old (spec.command_lexemes (command_view command.now))) }
{
    match command {
        Command::Create { table } => push_create(layout, table),
        Command::Begin { .. } => Ok(()),
        Command::Commit => layout.push_symbol(Symbol::Commit),
        Command::Rollback => layout.push_symbol(Symbol::Rollback),
        Command::Insert { table, rows } => push_insert(layout, table, rows.as_slice()),
        Command::InsertSelect { table, query } => push_insert_select(layout, table, query),
        Command::Update { table, sets, cond } => push_update(layout, table, sets.as_slice(), cond),
        Command::Delete { table, cond } => push_delete(layout, table, cond),
        Command::Select { query } => push_query(layout, query),
    }
}

/// The canonical text of a command that is no BEGIN.
fn laid_out_text(alloc: Global, command: &Command) -> Result<Vec<u8>, NoMemory>
    requires { is_begin (command_view command.now) ≡ false }
    ensures { IfOk result (λ text. text.items ≡ laid_out (spec.command_lexemes (command_view command.now))) }
{
    let mut layout = Layout::new(alloc);
    push_command(&mut layout, command)?;
    Ok(layout.into_text())
}

/// The words of a BEGIN. READ and COMMITTED are no reserved words, so a layout would write them in lower case.
#[tactic(auto, using(crate::proofs::CanonicalLemmas::begins))]
fn begin_words(read_committed: bool) -> &'static [u8]
    ensures { result.now ≡ spec.command_text (begin read_committed) }
{
    if read_committed {
        b"BEGIN READ COMMITTED"
    } else {
        b"BEGIN"
    }
}

/// The canonical text of a BEGIN.
fn begin_text(alloc: Global, read_committed: bool) -> Result<Vec<u8>, NoMemory>
    ensures { IfOk result (λ text. text.items ≡ spec.command_text (begin read_committed)) }
{
    let mut text = Vec::new(alloc);
    text.extend_from_slice(begin_words(read_committed))?;
    Ok(text)
}

/// The canonical text of a command: reserved words in capitals, names in lower case, every operator in brackets, and one
/// space between lexemes but around brackets, commas and dots. Running out of memory is the only error.
pub fn write_command(alloc: Global, command: &Command) -> Result<Vec<u8>, NoMemory>
    ensures { IfOk result (λ text. text.items ≡ spec.command_text (command_view command.now)) }
{
    match command {
        Command::Begin { read_committed } => begin_text(alloc, *read_committed),
        _ => laid_out_text(alloc, command),
    }
}
