//! The limits on the shape of a line.

ghost use Rattle.std.specs.Prelude.{◌≡◌, ◌-◌, ◌^◌, ◌++◌, length, map, min, nat_lt};
ghost use Rattle.std.specs.List.{list_any};
ghost use Rattle.std.specs.Option.{option_map};
ghost use Rattle.gp_grammar.specs.Depth as spec;
ghost use Rattle.gp_grammar.specs.Limits.{nodes, levels, select_terms, terms_of_condition, terms_of_query, query_shape, command_shape, change_shape, both, shape_of_count, commands_shape, changes_shape, side_shape, question_shape, passed_limit, some_above};
ghost use Rattle.gp_syntax.specs.Refusals.{limit_of};
ghost use Rattle.gp_syntax.specs.Measures.{is_above, are_above, earlier, rank, set_term_of, term_limit, terms_limit, terms_of_block, terms_of_sets};
ghost use Rattle.gp_syntax.specs.Views.{term_view, set_view, items_view, block_view, query_view, condition_view, command_view, change_view, changes_view, side_view, question_view};

use crate::command::{Block, Command, Items, Query, SetTerm};
use crate::question::{LogChange, Question, Side};
use crate::term::Term;
use gp_base::Limit;
use gp_grammar::{
    MAX_BRANCHES, MAX_CHANGES, MAX_COLUMNS, MAX_FROM, MAX_LEVELS, MAX_NODES, MAX_OPEN, MAX_VALUES,
};
use gp_lexer::{Lexeme, Symbol};

fn opens(lexeme: &Lexeme) -> bool
    ensures { result ≡ spec.opens lexeme.now }
{
    match lexeme {
        Lexeme::Symbol(symbol) => match symbol {
            Symbol::Open => true,
            Symbol::Case => true,
            _ => false,
        },
        _ => false,
    }
}

fn closes(lexeme: &Lexeme) -> bool
    ensures { result ≡ spec.closes lexeme.now }
{
    match lexeme {
        Lexeme::Symbol(symbol) => match symbol {
            Symbol::Close => true,
            Symbol::End => true,
            _ => false,
        },
        _ => false,
    }
}

/// Whether more than [`MAX_OPEN`] brackets and CASEs are open at a lexeme. One that closes makes room for another, also
/// where none is open.
pub(crate) fn is_too_deep(lexemes: &[Lexeme]) -> bool
    ensures { result ≡ spec.is_too_deep MAX_OPEN lexemes.now }
{
    let mut room = MAX_OPEN;
    for lexeme in lexemes {
        if opens(lexeme) {
            if room == 0 {
                return true;
            }
            room -= 1;
        } else if closes(lexeme) {
            room += 1;
        }
    }
    false
}

/// What is counted in a term.
#[derive(Clone, Copy)]
pub(crate) enum Measure {
    /// Its nodes.
    Nodes,
    /// Its levels.
    Levels,
}

/// The number of nodes of a term, or the greatest `usize`.
fn nodes(term: &Term) -> usize
    ensures { result ≡ min (nodes (term_view term.now)) (2 ^ 64 - 1) }
{
    match term {
        Term::Null => 1,
        Term::Int(_) => 1,
        Term::Text(_) => 1,
        Term::Col { .. } => 1,
        Term::Binary { left, right, .. } => nodes(left)
            .saturating_add(nodes(right))
            .saturating_add(1),
        Term::Neg(part) => nodes(part).saturating_add(1),
        Term::Not(part) => nodes(part).saturating_add(1),
        Term::IsNull { term, .. } => nodes(term).saturating_add(1),
        Term::IsTrue { term, .. } => nodes(term).saturating_add(1),
        Term::Case { when, first, other } => nodes(when)
            .saturating_add(nodes(first))
            .saturating_add(nodes(other))
            .saturating_add(1),
    }
}

/// The number of levels of a term, or the greatest `usize`.
fn levels(term: &Term) -> usize
    ensures { result ≡ min (levels (term_view term.now)) (2 ^ 64 - 1) }
{
    match term {
        Term::Null => 1,
        Term::Int(_) => 1,
        Term::Text(_) => 1,
        Term::Col { .. } => 1,
        Term::Binary { left, right, .. } => levels(left).max(levels(right)).saturating_add(1),
        Term::Neg(part) => levels(part).saturating_add(1),
        Term::Not(part) => levels(part).saturating_add(1),
        Term::IsNull { term, .. } => levels(term).saturating_add(1),
        Term::IsTrue { term, .. } => levels(term).saturating_add(1),
        Term::Case { when, first, other } => {
            levels(when)
                .max(levels(first))
                .max(levels(other))
                .saturating_add(1)
        }
    }
}

/// Whether the term has too many nodes or levels.
#[tactic(auto, using(crate::proofs::LimitLemmas::measures))]
fn is_above(term: &Term, measure: Measure) -> bool
    ensures { result ≡ is_above measure (term_view term.now) }
{
    match measure {
        Measure::Nodes => nodes(term) > MAX_NODES,
        Measure::Levels => levels(term) > MAX_LEVELS,
    }
}

#[tactic(auto, using(crate::proofs::LimitLemmas::any))]
fn is_condition_above(cond: &Option<Term>, measure: Measure) -> bool
    ensures { result ≡ are_above measure (terms_of_condition (condition_view cond.now)) }
{
    match cond {
        None => false,
        Some(term) => is_above(term, measure),
    }
}

fn any_term_above(terms: &[Term], measure: Measure) -> bool
    ensures { result ≡ list_any (λ term. is_above measure (term_view term)) terms.now }
{
    terms.iter().any(|term| is_above(term, measure))
}

fn are_terms_above(terms: &[Term], measure: Measure) -> bool
    ensures { result ≡ are_above measure (map term_view terms.now) }
{
    any_term_above(terms, measure)
}

fn are_items_above(items: &Items, measure: Measure) -> bool
    ensures { result ≡ are_above measure (select_terms (items_view items.now)) }
{
    match items {
        Items::Star => false,
        Items::List(terms) => are_terms_above(terms.as_slice(), measure),
    }
}

#[tactic(auto, using(crate::proofs::LimitLemmas::any))]
fn is_block_above(block: &Block, measure: Measure) -> bool
    ensures { result ≡ are_above measure (terms_of_block (block_view block.now)) }
{
    are_items_above(&block.items, measure) || is_condition_above(&block.cond, measure)
}

fn any_block_above(blocks: &[Block], measure: Measure) -> bool
    ensures { result
        ≡ list_any (λ block. are_above measure (terms_of_block (block_view block))) blocks.now }
{
    blocks.iter().any(|block| is_block_above(block, measure))
}

fn are_blocks_above(blocks: &[Block], measure: Measure) -> bool
    ensures { result ≡ are_above measure (terms_of_query (map block_view blocks.now)) }
{
    any_block_above(blocks, measure)
}

fn any_set_above(sets: &[SetTerm], measure: Measure) -> bool
    ensures { result ≡ list_any (λ set. is_above measure (term_view set.term)) sets.now }
{
    sets.iter().any(|set| is_above(&set.term, measure))
}

fn are_sets_above(sets: &[SetTerm], measure: Measure) -> bool
    ensures { result ≡ are_above measure (terms_of_sets (map set_view sets.now)) }
{
    any_set_above(sets, measure)
}

/// The number of terms that a SELECT lists; `*` lists none.
fn listed_len(items: &Items) -> usize
    ensures { result ≡ length (select_terms (items_view items.now)) }
{
    match items {
        Items::Star => 0,
        Items::List(terms) => terms.as_slice().len(),
    }
}

fn any_lists_many(blocks: &[Block]) -> bool
    ensures { result ≡ list_any
        (λ block. nat_lt MAX_COLUMNS (length (select_terms (items_view block.items)))) blocks.now }
{
    blocks
        .iter()
        .any(|block| listed_len(&block.items) > MAX_COLUMNS)
}

/// Whether a select list is too long.
fn have_many_columns(blocks: &[Block]) -> bool
    ensures { result ≡ some_above MAX_COLUMNS (query_shape (map block_view blocks.now)).columns }
{
    any_lists_many(blocks)
}

fn any_has_many_tables(blocks: &[Block]) -> bool
    ensures { result ≡ list_any (λ block. nat_lt MAX_FROM (length block.from)) blocks.now }
{
    blocks
        .iter()
        .any(|block| block.from.as_slice().len() > MAX_FROM)
}

/// Whether a FROM is too long.
fn have_many_tables(blocks: &[Block]) -> bool
    ensures { result ≡ some_above MAX_FROM (query_shape (map block_view blocks.now)).from }
{
    any_has_many_tables(blocks)
}

/// Whether there are too many blocks.
fn are_many(blocks: &[Block]) -> bool
    ensures { result ≡ nat_lt MAX_BRANCHES (length (map block_view blocks.now)) }
{
    blocks.len() > MAX_BRANCHES
}

/// The first limit that the blocks of a query pass.
#[tactic(auto, using(crate::proofs::LimitLemmas::queries))]
fn blocks_limit(blocks: &[Block]) -> Option<Limit>
    ensures { result ≡ option_map limit_of (passed_limit (query_shape (map block_view blocks.now))) }
{
    if have_many_columns(blocks) {
        Some(Limit::Columns)
    } else if have_many_tables(blocks) {
        Some(Limit::From)
    } else if are_many(blocks) {
        Some(Limit::Branches)
    } else if are_blocks_above(blocks, Measure::Nodes) {
        Some(Limit::Nodes)
    } else if are_blocks_above(blocks, Measure::Levels) {
        Some(Limit::Depth)
    } else {
        None
    }
}

/// The first limit that the query passes.
fn query_limit(query: &Query) -> Option<Limit>
    ensures { result ≡ option_map limit_of (passed_limit (query_shape (query_view query.now))) }
{
    blocks_limit(query.blocks.as_slice())
}

/// The first limit that terms pass, by whether some have too many nodes and whether some have too many levels.
fn term_limit(nodes: bool, levels: bool) -> Option<Limit>
    ensures { result ≡ term_limit nodes levels }
{
    if nodes {
        Some(Limit::Nodes)
    } else if levels {
        Some(Limit::Depth)
    } else {
        None
    }
}

/// The first limit that an UPDATE passes.
#[tactic(auto, using(crate::proofs::LimitLemmas::updates))]
fn update_limit(sets: &[SetTerm], cond: &Option<Term>) -> Option<Limit>
    ensures { result ≡ terms_limit (map set_term_of (map set_view sets.now) ++ terms_of_condition (condition_view cond.now)) }
{
    let nodes = are_sets_above(sets, Measure::Nodes) || is_condition_above(cond, Measure::Nodes);
    let levels = are_sets_above(sets, Measure::Levels) || is_condition_above(cond, Measure::Levels);
    term_limit(nodes, levels)
}

/// The first limit that a WHERE passes.
#[tactic(auto, using(crate::proofs::LimitLemmas::updates))]
fn condition_limit(cond: &Option<Term>) -> Option<Limit>
    ensures { result ≡ terms_limit (terms_of_condition (condition_view cond.now)) }
{
    term_limit(
        is_condition_above(cond, Measure::Nodes),
        is_condition_above(cond, Measure::Levels),
    )
}

/// The first limit that the command passes.
pub(crate) fn command_limit(command: &Command) -> Option<Limit>
    ensures { result ≡ option_map limit_of (passed_limit (command_shape (command_view command.now))) }
{
    match command {
        Command::Create { table } => {
            if table.cols.as_slice().len() > MAX_COLUMNS {
                Some(Limit::Columns)
            } else {
                None
            }
        }
        Command::Begin { .. } => None,
        Command::Commit => None,
        Command::Rollback => None,
        Command::Insert { rows, .. } => {
            if rows.as_slice().len() > MAX_VALUES {
                Some(Limit::Values)
            } else {
                None
            }
        }
        Command::InsertSelect { query, .. } => query_limit(query),
        Command::Update { sets, cond, .. } => update_limit(sets.as_slice(), cond),
        Command::Delete { cond, .. } => condition_limit(cond),
        Command::Select { query } => query_limit(query),
    }
}

/// The first limit that the command of a change passes.
fn change_limit(change: &LogChange) -> Option<Limit>
    ensures { result ≡ option_map limit_of (passed_limit (change_shape (change_view change.now))) }
{
    match change {
        LogChange::Drop { .. } => None,
        LogChange::DropAll { .. } => None,
        LogChange::Replace { command, .. } => command_limit(command.as_ref()),
        LogChange::Add { command, .. } => command_limit(command.as_ref()),
    }
}

/// The place of a limit in the order of the tests.
fn rank(limit: Limit) -> usize
    ensures { result ≡ rank limit }
{
    match limit {
        Limit::Columns => 0,
        Limit::From => 1,
        Limit::Branches => 2,
        Limit::Values => 3,
        Limit::Nodes => 4,
        Limit::Depth => 5,
        _ => 6,
    }
}

/// The limit of two that is tested first.
fn earlier(first: Option<Limit>, second: Option<Limit>) -> Option<Limit>
    ensures { result ≡ earlier first second }
{
    match first {
        None => second,
        Some(a) => match second {
            None => Some(a),
            Some(b) => { if rank(b) < rank(a) { Some(b) } else { Some(a) } }
        },
    }
}

/// The limit that so many changes pass.
fn count_limit(count: usize) -> Option<Limit>
    ensures { result ≡ option_map limit_of (passed_limit (shape_of_count count)) }
{
    if count > MAX_CHANGES {
        Some(Limit::Changes)
    } else {
        None
    }
}

/// The first limit that the commands of changes pass.
fn commands_limit(changes: &[LogChange]) -> Option<Limit>
    ensures { result ≡ option_map limit_of (passed_limit (commands_shape (changes_view changes.now))) }
{
    let mut found = None;
    for change in changes {
        found = earlier(found, change_limit(change));
    }
    found
}

/// The first limit that the changes of a WHATIF pass.
fn changes_limit(changes: &[LogChange]) -> Option<Limit>
    ensures { result ≡ option_map limit_of (passed_limit (changes_shape (changes_view changes.now))) }
{
    let count = count_limit(changes.len());
    let commands = commands_limit(changes);
    earlier(count, commands)
}

/// The first limit that changes and the query behind them pass: each limit is tested over all.
fn what_if_limit(changes: &[LogChange], query: &Query) -> Option<Limit>
    ensures { result ≡ option_map limit_of (passed_limit
        (both (changes_shape (changes_view changes.now)) (query_shape (query_view query.now)))) }
{
    let first = changes_limit(changes);
    let second = query_limit(query);
    earlier(first, second)
}

/// The first limit that the changes of a side pass.
fn side_limit(side: &Side) -> Option<Limit>
    ensures { result ≡ option_map limit_of (passed_limit (side_shape (side_view side.now))) }
{
    match side {
        Side::AsIs { .. } => None,
        Side::Changed { changes, .. } => changes_limit(changes.as_slice()),
    }
}

/// The first limit that the changes of two sides pass.
fn sides_limit(first: &Side, second: &Side) -> Option<Limit>
    ensures { result ≡ option_map limit_of (passed_limit
        (both (side_shape (side_view first.now)) (side_shape (side_view second.now)))) }
{
    let first = side_limit(first);
    let second = side_limit(second);
    earlier(first, second)
}

/// The first limit that a difference passes: each limit is tested over both sides and the query.
fn diff_limit(first: &Side, second: &Side, query: &Query) -> Option<Limit>
    ensures { result ≡ option_map limit_of (passed_limit
        (both (both (side_shape (side_view first.now)) (side_shape (side_view second.now)))
        (query_shape (query_view query.now)))) }
{
    let sides = sides_limit(first, second);
    let query = query_limit(query);
    earlier(sides, query)
}

/// The first limit that the question passes.
pub(crate) fn question_limit(question: &Question) -> Option<Limit>
    ensures { result ≡ option_map limit_of (passed_limit (question_shape (question_view question.now))) }
{
    match question {
        Question::History { cond, .. } => condition_limit(cond),
        Question::When { query } => query_limit(query),
        Question::Diff {
            first,
            second,
            query,
        } => diff_limit(first, second, query),
        Question::Causes { query, .. } => query_limit(query),
        Question::Ask { query, .. } => query_limit(query),
        Question::WhatIf { changes, query, .. } => what_if_limit(changes.as_slice(), query),
        Question::ExplainSaw { query, .. } => query_limit(query),
        _ => None,
    }
}
