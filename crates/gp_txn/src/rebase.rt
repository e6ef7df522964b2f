//! The writes of a table over another version.

ghost use Rattle.std.specs.Prelude.{◌≡◌, ◌++◌, length, map, true, IfOk, OnErr, OnOk};
ghost use Rattle.std.specs.Option.{option_map};
ghost use Rattle.gp_expr.specs.Views.{cond_view};
ghost use Rattle.gp_algebra.specs.Simple.{where_is_simple};
ghost use Rattle.gp_txn.specs.Bases.{table_view};
ghost use Rattle.gp_txn.specs.Changes.{change_is_simple, change_view};
ghost use Rattle.gp_txn.specs.Overlay.{overlay_of, rows_below, stored_of, view_rows};
ghost use Rattle.gp_txn.specs.Rebasing.{IsMoved, carried_of, carried_over, or_writes};
ghost use Rattle.gp_txn.specs.Slots.{changed_table, count_touched, with_own};
ghost use Rattle.gp_txn.specs.Wanted.{wanted};

use crate::carried::{Carried, CarriedRows};
use crate::change::Change;
use crate::overlay::TableWrites;
use crate::slots::Slots;
use crate::snapshot::{copied_row, count_rows, view_rows};
use crate::update::change_writes;
use crate::writes::slot_writes;
use gp_base::{NoMemory, Row, Sequence, Stored};
use gp_expr::Cond;
use gp_versions::{SpanList, Write};
use std::alloc::Global;

/// The rows that were written over this version, to be carried over to a later one.
fn carried_rows(alloc: Global, version: u32, writes: Vec<Write>) -> Result<Vec<Carried>, NoMemory>
    ensures { IfOk result (λ rows. rows.items ≡ map (carried_of version) writes.items) }
{
    let mut rows = Vec::new(alloc);
    for write in writes {
        let Write { id, row } = write;
        rows.push(Carried {
            id,
            base: version,
            row,
        })?;
    }
    Ok(rows)
}

/// A copy of the cells of a row, if it has any.
fn copied_cells(row: &Option<Row>) -> Result<Option<Row>, NoMemory>
    ensures { IfOk result (λ copy. copy ≡ row.now) }
{
    match row {
        Some(cells) => Ok(Some(cells.clone()?)),
        None => Ok(None),
    }
}

/// A copy of a row that was written over an earlier version.
fn copied(carried: &Carried) -> Result<Carried, NoMemory>
    ensures { IfOk result (λ copy. copy ≡ carried.now) }
{
    let row = copied_cells(&carried.row)?;
    let id = carried.id.clone()?;
    Ok(Carried {
        id,
        base: carried.base,
        row,
    })
}

/// Adds copies of rows that were written over earlier versions.
fn push_copies(rows: &mut Vec<Carried>, carried: &[Carried]) -> Result<(), NoMemory>
    ensures { OnOk result (rows.new.items ≡ rows.old.items ++ carried.now) }
{
    for row in carried {
        rows.push(copied(row)?)?;
    }
    Ok(())
}

/// All rows of others that the transaction has written, each with its base.
fn carried_over(
    alloc: Global,
    writes: &TableWrites,
    spans: &SpanList<'_>,
) -> Result<CarriedRows, NoMemory>
    ensures { IfOk result
        (λ rows. rows ≡ carried_over (overlay_of spans.now writes.now)
        (rows_below (overlay_of spans.now writes.now) spans.now)) }
{
    let list = slot_writes(alloc, writes, spans)?;
    let mut rows = carried_rows(alloc, writes.version, list)?;
    push_copies(&mut rows, writes.carried.as_slice())?;
    CarriedRows::from_vec(alloc, rows)
}

/// Copies of the rows that the transaction inserted.
fn copied_own(alloc: Global, own: &[Stored]) -> Result<Sequence<Stored>, NoMemory>
    ensures { IfOk result (λ copies. copies ≡ own.now) }
{
    let mut copies = Sequence::new(alloc);
    for stored in own {
        copies.push(copied_row(stored)?)?;
    }
    Ok(copies)
}

/// The writes of a table over a version, if they lie over another one. What the transaction wrote over the rows of that one
/// is carried over, and no row of the new one is written yet.
fn moved(
    alloc: Global,
    writes: &TableWrites,
    spans: &SpanList<'_>,
    version: u32,
) -> Result<Option<TableWrites>, NoMemory>
    ensures { IfOk result (λ moved. IsMoved version spans.now writes.now moved) }
{
    if version == writes.version {
        return Ok(None);
    }
    let carried = carried_over(alloc, writes, spans)?;
    let own = copied_own(alloc, writes.own.as_slice())?;
    Ok(Some(TableWrites {
        version,
        slots: Slots::new(alloc),
        carried,
        own,
    }))
}

/// The writes of a table over a version, if they lie over another one. They show what the transaction sees there. It costs
/// what the writes cost, and not what was committed in between.
pub fn writes_for(
    alloc: Global,
    writes: &TableWrites,
    spans: &SpanList<'_>,
    version: u32,
) -> Result<Option<TableWrites>, NoMemory>
    ensures moved { IfOk result (λ moved. IsMoved version spans.now writes.now moved) }
    ensures view { IfOk result
        (λ moved. view_rows (overlay_of spans.now (or_writes moved writes.now))
        (rows_below (overlay_of spans.now (or_writes moved writes.now)) spans.now)
        ≡ table_view (overlay_of spans.now writes.now) spans.now version) }
{
    Ok(moved(alloc, writes, spans, version)?)
}

/// What the transaction sees of a table at a version: all rows, or those that pass a condition.
pub fn view_at(
    alloc: Global,
    writes: &TableWrites,
    spans: &SpanList<'_>,
    version: u32,
    cond: Option<&Cond>,
) -> Result<Sequence<Stored>, NoMemory>
    requires { where_is_simple (option_map (λ c. cond_view c.now) cond) ≡ true }
    ensures { IfOk result (λ rows. rows
        ≡ map stored_of (wanted (option_map (λ c. cond_view c.now) cond.entry)
        (table_view (overlay_of spans.now writes.now) spans.now version))) }
{
    match writes_for(alloc, writes, spans, version)? {
        None => view_rows(alloc, writes, spans, cond),
        Some(writes) => view_rows(alloc, &writes, spans, cond),
    }
}

/// How many rows the transaction sees of a table at a version. It takes no memory where the writes lie over the version.
pub fn count_at(
    alloc: Global,
    writes: &TableWrites,
    spans: &SpanList<'_>,
    version: u32,
) -> Result<usize, NoMemory>
    ensures { IfOk result (λ count. count
        ≡ length (table_view (overlay_of spans.now writes.now) spans.now version)) }
{
    match writes_for(alloc, writes, spans, version)? {
        None => Ok(count_rows(writes, spans)),
        Some(writes) => Ok(count_rows(&writes, spans)),
    }
}

/// Puts in the writes that were made for a version, if there are any, and what an UPDATE or a DELETE makes of them. Gives the
/// number of rows that it writes.
pub fn change_over(
    alloc: Global,
    writes: &mut TableWrites,
    moved: Option<TableWrites>,
    spans: &SpanList<'_>,
    change: &Change<'_>,
) -> Result<u32, NoMemory>
    requires { change_is_simple (change_view change.now) ≡ true }
    ensures exact { OnOk result (writes.new ≡ changed_table (change_view change.now)
        spans.now (or_writes moved writes.old)) }
    ensures count { IfOk result (λ count. count ≡ count_touched (change_view change.now)
        (view_rows (overlay_of spans.now (or_writes moved writes.old))
        (rows_below (overlay_of spans.now (or_writes moved writes.old)) spans.now))) }
    ensures err { OnErr result (writes.new ≡ writes.old) }
{
    match moved {
        None => change_writes(alloc, writes, spans, change),
        Some(mut moved) => {
            let count = change_writes(alloc, &mut moved, spans, change)?;
            *writes = moved;
            Ok(count)
        }
    }
}

/// Puts in the writes that were made for a version, if there are any, and adds inserted rows.
pub fn append_own(
    writes: &mut TableWrites,
    moved: Option<TableWrites>,
    new: Sequence<Stored>,
) -> Result<(), NoMemory>
    ensures ok { OnOk result (writes.new ≡ with_own new (or_writes moved writes.old)) }
    ensures err { OnErr result (writes.new ≡ writes.old) }
{
    match moved {
        None => writes.own.append(new),
        Some(mut moved) => {
            moved.own.append(new)?;
            *writes = moved;
            Ok(())
        }
    }
}
