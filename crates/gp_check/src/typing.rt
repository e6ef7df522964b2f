//! Which terms, select lists and statements are well typed.

ghost use Rattle.std.specs.Prelude.{◌≡◌, ◌++◌, map, IfOk, OnOk};
ghost use Rattle.std.specs.List.{list_all};
ghost use Rattle.gp_syntax.specs.Views.{block_view, condition_view, items_view, set_view, term_view};
ghost use Rattle.gp_check.specs.Faults as f;
ghost use Rattle.gp_check.specs.Faults.{are_values, block_types, block_where_is_typed, items_types, kind_types};
ghost use Rattle.gp_check.specs.Typing as t;
ghost use Rattle.gp_check.specs.Views.{source_view};
ghost use Rattle.gp_grammar.specs.Syntax as y;

use crate::place::Resolution;
use crate::scope::{resolve, scope_of};
use crate::source::Source;
use crate::types::{
    TermType, agrees, cell_type, choice_type, is_condition_type, is_number_type, is_value_type,
    kind_type, operands_agree, operation_type, typed_if,
};
use gp_base::{Catalog, Cell, Column, Name, NoMemory, Row, Sequence};
use gp_syntax::{Block, Items, SetTerm, Term};
use std::alloc::Global;

/// The types of a select list: a position is None where its term is not well typed.
pub type Types = Sequence<Option<TermType>>;

fn column_type(scope: &[Source], item: &Option<Name>, col: &Name) -> Option<TermType>
    ensures { result ≡ t.type_of (map source_view scope.now) (y.col item.now col.now) }
{
    match resolve(scope, item, col) {
        Resolution::Found(place) => Some(kind_type(place.kind)),
        _ => None,
    }
}

/// The type of a term, or None if it is not well typed.
fn type_of(scope: &[Source], term: &Term) -> Option<TermType>
    ensures { result ≡ t.type_of (map source_view scope.now) (term_view term.now) }
{
    match term {
        Term::Null => Some(TermType::Null),
        Term::Int(_) => Some(TermType::Int),
        Term::Text(_) => Some(TermType::Text),
        Term::Col { item, col } => column_type(scope, item, col),
        Term::Binary { op, left, right } => {
            operation_type(*op, type_of(scope, left), type_of(scope, right))
        }
        Term::Neg(term) => typed_if(is_number_type(type_of(scope, term)), TermType::Int),
        Term::Not(term) => typed_if(is_condition_type(type_of(scope, term)), TermType::Condition),
        Term::IsNull { term, .. } => {
            typed_if(is_value_type(type_of(scope, term)), TermType::Condition)
        }
        Term::IsTrue { term, .. } => {
            typed_if(is_condition_type(type_of(scope, term)), TermType::Condition)
        }
        Term::Case { when, first, other } => {
            if is_condition_type(type_of(scope, when)) {
                choice_type(type_of(scope, first), type_of(scope, other))
            } else {
                None
            }
        }
    }
}

/// Whether a WHERE is a condition, or missing.
pub fn where_is_typed(scope: &[Source], cond: &Option<Term>) -> bool
    ensures { result ≡ f.where_is_typed (map source_view scope.now) (condition_view cond.now) }
{
    match cond {
        None => true,
        Some(term) => is_condition_type(type_of(scope, term)),
    }
}

/// Whether the WHERE of a SELECT is a condition, or missing.
#[tactic(auto, unfolding(crate::specs::Faults::block_where_is_typed))]
fn block_where_is_typed(alloc: Global, catalog: &Catalog, block: &Block) -> Result<bool, NoMemory>
    ensures { IfOk result (λ typed. typed
        ≡ block_where_is_typed catalog.now (block_view block.now)) }
{
    let scope = scope_of(alloc, catalog, block.from.as_slice())?;
    Ok(where_is_typed(&scope, &block.cond))
}

/// Whether each WHERE of a query is a condition, or missing.
fn wheres_are_typed(alloc: Global, catalog: &Catalog, blocks: &[Block]) -> Result<bool, NoMemory>
    ensures { IfOk result (λ typed. typed
        ≡ list_all (block_where_is_typed catalog.now) (map block_view blocks.now)) }
{
    for block in blocks {
        if !block_where_is_typed(alloc, catalog, block)? {
            return Ok(false);
        }
    }
    Ok(true)
}

/// Appends the types of columns.
fn push_kinds(columns: &[Column], types: &mut Types) -> Result<(), NoMemory>
    ensures { OnOk result (types.new ≡ types.old ++ kind_types columns.now) }
{
    for column in columns {
        types.push(Some(kind_type(column.kind)))?;
    }
    Ok(())
}

/// The types of columns.
pub fn kind_types(alloc: Global, columns: &[Column]) -> Result<Types, NoMemory>
    ensures { IfOk result (λ types. types ≡ kind_types columns.now) }
{
    let mut types = Sequence::new(alloc);
    push_kinds(columns, &mut types)?;
    Ok(types)
}

/// The types of all columns of a FROM.
fn scope_types(alloc: Global, scope: &[Source]) -> Result<Types, NoMemory>
    ensures { IfOk result (λ types. types ≡ f.scope_types (map source_view scope.now)) }
{
    let mut types = Sequence::new(alloc);
    for source in scope {
        push_kinds(source.columns, &mut types)?;
    }
    Ok(types)
}

/// The types of some terms.
fn term_types(alloc: Global, scope: &[Source], terms: &[Term]) -> Result<Types, NoMemory>
    ensures { IfOk result (λ types. types
        ≡ map (t.type_of (map source_view scope.now)) (map term_view terms.now)) }
{
    let mut types = Sequence::new(alloc);
    for term in terms {
        types.push(type_of(scope, term))?;
    }
    Ok(types)
}

/// The types of a select list.
fn items_types(alloc: Global, scope: &[Source], items: &Items) -> Result<Types, NoMemory>
    ensures { IfOk result (λ types. types
        ≡ items_types (map source_view scope.now) (items_view items.now)) }
{
    match items {
        Items::Star => scope_types(alloc, scope),
        Items::List(terms) => term_types(alloc, scope, terms.as_slice()),
    }
}

/// The types of the select list of a SELECT.
#[tactic(auto, unfolding(crate::specs::Faults::block_types))]
fn block_types(alloc: Global, catalog: &Catalog, block: &Block) -> Result<Types, NoMemory>
    ensures { IfOk result (λ types. types ≡ block_types catalog.now (block_view block.now)) }
{
    let scope = scope_of(alloc, catalog, block.from.as_slice())?;
    items_types(alloc, &scope, &block.items)
}

/// The types of each SELECT of a query.
pub fn query_types(
    alloc: Global,
    catalog: &Catalog,
    blocks: &[Block],
) -> Result<Sequence<Types>, NoMemory>
    ensures { IfOk result (λ types. types
        ≡ map (block_types catalog.now) (map block_view blocks.now)) }
{
    let mut types = Sequence::new(alloc);
    for block in blocks {
        types.push(block_types(alloc, catalog, block)?)?;
    }
    Ok(types)
}

/// Whether each term is well typed and a value.
fn are_values(types: &[Option<TermType>]) -> bool
    ensures { result ≡ are_values types.now }
{
    types.iter().all(|operand| is_value_type(*operand))
}

/// Whether each term of each row is well typed and a value.
fn are_all_values(rows: &[Types]) -> bool
    ensures { result ≡ list_all are_values rows.now }
{
    rows.iter().all(|row| are_values(row.as_slice()))
}

/// Whether the types of two rows agree, position by position.
fn all_agree(one: &[Option<TermType>], other: &[Option<TermType>]) -> bool
    ensures { result ≡ f.all_agree one.now other.now }
{
    match one {
        [] => other.is_empty(),
        [first, one @ ..] => match other {
            [] => false,
            [second, other @ ..] => operands_agree(*first, *second) && all_agree(one, other),
        },
    }
}

/// Whether each of the other rows agrees with these types.
pub fn agree_with(types: &[Option<TermType>], others: &[Types]) -> bool
    ensures { result ≡ f.agree_with types.now others.now }
{
    others
        .iter()
        .all(|other| all_agree(types, other.as_slice()))
}

/// Whether each row agrees with each later one. A query has few branches.
fn pairs_agree(rows: &[Types]) -> bool
    ensures { result ≡ f.pairs_agree rows.now }
{
    match rows {
        [] => true,
        [first, others @ ..] => agree_with(first.as_slice(), others) && pairs_agree(others),
    }
}

/// Whether a query whose SELECTs have these types is well typed.
pub fn blocks_are_typed(
    alloc: Global,
    catalog: &Catalog,
    blocks: &[Block],
    types: &[Types],
) -> Result<bool, NoMemory>
    ensures { IfOk result (λ typed. typed
        ≡ f.blocks_are_typed catalog.now (map block_view blocks.now) types.now) }
{
    if !are_all_values(types) {
        return Ok(false);
    }
    if !wheres_are_typed(alloc, catalog, blocks)? {
        return Ok(false);
    }
    Ok(pairs_agree(types))
}

/// Whether a VALUES row agrees with the columns of its table, position by position.
fn cells_agree(columns: &[Column], cells: &[Cell]) -> bool
    ensures { result ≡ f.cells_agree columns.now cells.now }
{
    match columns {
        [] => cells.is_empty(),
        [column, columns @ ..] => match cells {
            [] => false,
            [cell, cells @ ..] => {
                agrees(kind_type(column.kind), cell_type(cell)) && cells_agree(columns, cells)
            }
        },
    }
}

/// Whether each VALUES row agrees with the columns of its table.
pub fn rows_are_typed(columns: &[Column], rows: &[Row]) -> bool
    ensures { result ≡ list_all (f.cells_agree columns.now) rows.now }
{
    rows.iter().all(|row| cells_agree(columns, row.cells()))
}

/// Whether the value of an assignment agrees with its column.
fn set_is_typed(scope: &[Source], set: &SetTerm) -> bool
    ensures { result ≡ f.set_is_typed (map source_view scope.now) (set_view set.now) }
{
    operands_agree(
        column_type(scope, &None, &set.col),
        type_of(scope, &set.term),
    )
}

/// Whether each assignment is well typed.
pub fn sets_are_typed(scope: &[Source], sets: &[SetTerm]) -> bool
    ensures { result
        ≡ list_all (f.set_is_typed (map source_view scope.now)) (map set_view sets.now) }
{
    for set in sets {
        if !set_is_typed(scope, set) {
            return false;
        }
    }
    true
}
