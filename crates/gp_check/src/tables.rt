//! Missing tables and repeated FROM names.

ghost use Rattle.std.specs.Prelude.{◌≡◌, map};
ghost use Rattle.gp_syntax.specs.Views.{block_view};
ghost use Rattle.gp_check.specs.Faults.{block_tables_fault, first_fault, items_fault, query_tables_fault, table_fault};
ghost use Rattle.gp_check.specs.Views.{Finds};

use crate::names::first_repeated;
use gp_base::{Catalog, Name, Refusal, Stop};
use gp_syntax::Block;

/// Refuses a table that is not there.
pub fn known_table(catalog: &Catalog, table: &Name) -> Result<(), Stop>
    ensures { Finds result (table_fault catalog.now table.now) }
{
    if catalog.find(table).is_some() {
        return Ok(());
    }
    Err(Stop::Refused(Refusal::E04 {
        table: table.clone()?,
    }))
}

/// Refuses the first table of a FROM that is not there.
fn known_block_tables(catalog: &Catalog, block: &Block) -> Result<(), Stop>
    ensures { Finds result (block_tables_fault catalog.now (block_view block.now)) }
{
    for item in block.from.as_slice() {
        known_table(catalog, &item.table)?;
    }
    Ok(())
}

/// Refuses the first table of a query that is not there.
pub fn known_tables(catalog: &Catalog, blocks: &[Block]) -> Result<(), Stop>
    ensures { Finds result (query_tables_fault catalog.now (map block_view blocks.now)) }
{
    for block in blocks {
        known_block_tables(catalog, block)?;
    }
    Ok(())
}

/// Refuses a repeated FROM name of a block.
fn different_block_names(block: &Block) -> Result<(), Stop>
    ensures { Finds result (items_fault (block_view block.now)) }
{
    match first_repeated(block.from.as_slice()) {
        None => Ok(()),
        Some(name) => Err(Stop::Refused(Refusal::E06 {
            name: name.clone()?,
        })),
    }
}

/// Refuses the first FROM name that is repeated in its block.
pub fn different_names(blocks: &[Block]) -> Result<(), Stop>
    ensures { Finds result (first_fault items_fault (map block_view blocks.now)) }
{
    for block in blocks {
        different_block_names(block)?;
    }
    Ok(())
}
