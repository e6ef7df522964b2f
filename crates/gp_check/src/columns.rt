//! Columns that are not there or ambiguous.

ghost use Rattle.std.specs.Prelude.{map, Ok};
ghost use Rattle.gp_grammar.specs.Limits.{select_terms};
ghost use Rattle.gp_syntax.specs.Views.{block_view, condition_view, items_view, set_view, term_view};
ghost use Rattle.gp_check.specs.Faults.{block_columns_fault, column_fault, first_fault, set_fault, term_fault, where_fault};
ghost use Rattle.gp_check.specs.Views.{Checks, Finds, source_view};

use crate::place::Resolution;
use crate::scope::{resolve, scope_of};
use crate::source::Source;
use gp_base::{Catalog, Name, Refusal, Stop};
use gp_syntax::{Block, Items, SetTerm, Term};
use std::alloc::Global;

/// The refusal of a column that no table has.
fn no_column(item: &Option<Name>, col: &Name) -> Result<Refusal, Stop>
    ensures { Checks (λ refusal. refusal) result (Ok (Refusal.E05 item.now col.now)) }
{
    let item = match item {
        None => None,
        Some(item) => Some(item.clone()?),
    };
    Ok(Refusal::E05 {
        item,
        col: col.clone()?,
    })
}

/// Refuses a column that no table or several tables have.
fn known_column(scope: &[Source], item: &Option<Name>, col: &Name) -> Result<(), Stop>
    ensures { Finds result (column_fault (map source_view scope.now)
        (record { item = item.now; col = col.now })) }
{
    match resolve(scope, item, col) {
        Resolution::Found(_) => Ok(()),
        Resolution::Absent => Err(Stop::Refused(no_column(item, col)?)),
        Resolution::Ambiguous => Err(Stop::Refused(Refusal::E06 { name: col.clone()? })),
    }
}

/// Refuses the first column of a term that is not known.
fn known_columns(scope: &[Source], term: &Term) -> Result<(), Stop>
    ensures { Finds result (term_fault (map source_view scope.now) (term_view term.now)) }
{
    match term {
        Term::Null | Term::Int(_) | Term::Text(_) => Ok(()),
        Term::Col { item, col } => known_column(scope, item, col),
        Term::Binary { left, right, .. } => {
            known_columns(scope, left)?;
            known_columns(scope, right)
        }
        Term::Neg(term) => known_columns(scope, term),
        Term::Not(term) => known_columns(scope, term),
        Term::IsNull { term, .. } => known_columns(scope, term),
        Term::IsTrue { term, .. } => known_columns(scope, term),
        Term::Case { when, first, other } => {
            known_columns(scope, when)?;
            known_columns(scope, first)?;
            known_columns(scope, other)
        }
    }
}

/// Refuses the first column of a WHERE that is not known.
pub fn known_where_columns(scope: &[Source], cond: &Option<Term>) -> Result<(), Stop>
    ensures { Finds result (where_fault (map source_view scope.now) (condition_view cond.now)) }
{
    match cond {
        None => Ok(()),
        Some(term) => known_columns(scope, term),
    }
}

/// Refuses the first column of some terms that is not known.
fn known_term_columns(scope: &[Source], terms: &[Term]) -> Result<(), Stop>
    ensures { Finds result
        (first_fault (term_fault (map source_view scope.now)) (map term_view terms.now)) }
{
    for term in terms {
        known_columns(scope, term)?;
    }
    Ok(())
}

/// Refuses the first column of a select list that is not known.
fn known_item_columns(scope: &[Source], items: &Items) -> Result<(), Stop>
    ensures { Finds result
        (first_fault (term_fault (map source_view scope.now))
        (select_terms (items_view items.now))) }
{
    match items {
        Items::Star => Ok(()),
        Items::List(terms) => known_term_columns(scope, terms.as_slice()),
    }
}

/// Refuses the first column of a SELECT that is not known.
#[tactic(auto, unfolding(crate::specs::Faults::block_columns_fault))]
fn known_block_columns(alloc: Global, catalog: &Catalog, block: &Block) -> Result<(), Stop>
    ensures { Finds result (block_columns_fault catalog.now (block_view block.now)) }
{
    let scope = scope_of(alloc, catalog, block.from.as_slice())?;
    known_item_columns(&scope, &block.items)?;
    known_where_columns(&scope, &block.cond)
}

/// Refuses the first column of a query that is not known.
pub fn known_query_columns(alloc: Global, catalog: &Catalog, blocks: &[Block]) -> Result<(), Stop>
    ensures { Finds result
        (first_fault (block_columns_fault catalog.now) (map block_view blocks.now)) }
{
    for block in blocks {
        known_block_columns(alloc, catalog, block)?;
    }
    Ok(())
}

/// Refuses the first column of an assignment that is not known.
fn known_set_column(scope: &[Source], set: &SetTerm) -> Result<(), Stop>
    ensures { Finds result (set_fault (map source_view scope.now) (set_view set.now)) }
{
    known_column(scope, &None, &set.col)?;
    known_columns(scope, &set.term)
}

/// Refuses the first column of some assignments that is not known.
pub fn known_set_columns(scope: &[Source], sets: &[SetTerm]) -> Result<(), Stop>
    ensures { Finds result
        (first_fault (set_fault (map source_view scope.now)) (map set_view sets.now)) }
{
    for set in sets {
        known_set_column(scope, set)?;
    }
    Ok(())
}
