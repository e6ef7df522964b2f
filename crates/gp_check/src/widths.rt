//! The numbers of columns.

ghost use Rattle.std.specs.Prelude.{◌≡◌, ◌==◌, List, length, map, IfOk};
ghost use Rattle.std.specs.List.{list_all};
ghost use Rattle.gp_base.specs.declared.cell.Cell.{Cell};
ghost use Rattle.gp_syntax.specs.Views.{block_view, items_view};
ghost use Rattle.gp_check.specs.Faults.{block_width, have_one_width, have_width, items_width, scope_width};
ghost use Rattle.gp_check.specs.Views.{source_view};

use crate::scope::scope_of;
use crate::source::Source;
use gp_base::{Catalog, NoMemory, Row};
use gp_syntax::{Block, Items};
use std::alloc::Global;

/// The number of columns of all tables of a FROM.
pub fn scope_width(scope: &[Source]) -> u32
    ensures { result ≡ scope_width (map source_view scope.now) }
{
    let mut width = 0;
    for source in scope {
        width = source.before + source.columns.len() as u32;
    }
    width
}

/// The number of columns that a select list gives.
fn items_width(scope: &[Source], items: &Items) -> usize
    ensures { result ≡ items_width (map source_view scope.now) (items_view items.now) }
{
    match items {
        Items::Star => scope_width(scope) as usize,
        Items::List(terms) => terms.as_slice().len(),
    }
}

/// The number of columns that a SELECT gives.
#[tactic(auto, unfolding(crate::specs::Faults::block_width))]
fn block_width(alloc: Global, catalog: &Catalog, block: &Block) -> Result<usize, NoMemory>
    ensures { IfOk result (λ width. width ≡ block_width catalog.now (block_view block.now)) }
{
    let scope = scope_of(alloc, catalog, block.from.as_slice())?;
    Ok(items_width(&scope, &block.items))
}

/// Whether each SELECT of a query gives so many columns.
pub fn have_width(
    alloc: Global,
    catalog: &Catalog,
    blocks: &[Block],
    width: usize,
) -> Result<bool, NoMemory>
    ensures { IfOk result (λ all. all ≡ have_width catalog.now (map block_view blocks.now) width) }
{
    for block in blocks {
        if block_width(alloc, catalog, block)? != width {
            return Ok(false);
        }
    }
    Ok(true)
}

/// Whether each SELECT of a query gives as many columns as the first.
pub fn have_one_width(alloc: Global, catalog: &Catalog, blocks: &[Block]) -> Result<bool, NoMemory>
    ensures { IfOk result (λ all. all ≡ have_one_width catalog.now (map block_view blocks.now)) }
{
    match blocks {
        [] => Ok(true),
        [first, others @ ..] => {
            have_width(alloc, catalog, others, block_width(alloc, catalog, first)?)
        }
    }
}

/// Whether each row has so many cells.
pub fn rows_have_width(rows: &[Row], width: usize) -> bool
    ensures { result ≡ list_all (λ (row : List Cell). length row == width) rows.now }
{
    rows.iter().all(|row| row.cells().len() == width)
}
