//! The writes of a commit to one table.

ghost use Rattle.std.specs.Prelude.{◌≡◌, ◌++◌, IfOk, OnOk, map};
ghost use Rattle.std.specs.Option.{option_to_list};
ghost use Rattle.gp_base.specs.Annotated.{unannotated};
ghost use Rattle.gp_txn.specs.Ascending.{IsAscending, place_of};
ghost use Rattle.gp_txn.specs.Overlay.{base_writes, carried_write, overlay_of, own_write, rows_below, slot_write, slot_writes, slots_from, slotted, table_writes};
ghost use Rattle.gp_txn.specs.Passes.{of_entry, row_writes};
ghost use Rattle.gp_versions.specs.Spans.{row_of, rows_at};

use crate::carried::{Carried, CarriedRows};
use crate::overlay::{Placed, Slot, TableWrites};
use crate::slots::slotted;
use gp_base::{NoMemory, Row, RowId, Stored};
use gp_versions::{Span, SpanList, Write};
use std::alloc::Global;

/// The write that puts cells into a row.
fn put(id: &RowId, cells: &Row) -> Result<Write, NoMemory>
    ensures { IfOk result (λ write. write ≡ record { id = id.now; row = Some cells.now }) }
{
    let id = id.clone()?;
    let row = Some(cells.clone()?);
    Ok(Write { id, row })
}

/// What a commit writes of a row with this slot.
fn slot_write(slot: &Slot, span: &Span) -> Result<Option<Write>, NoMemory>
    ensures { IfOk result (λ write. write ≡ slot_write slot.now (row_of unannotated span.now)) }
{
    match slot {
        Slot::Same => Ok(None),
        Slot::Put(cells) => Ok(Some(put(&span.id, cells)?)),
        Slot::Dropped => Ok(Some(Write {
            id: span.id.clone()?,
            row: None,
        })),
    }
}

/// Adds what a commit writes of a row with this slot.
fn push_write(writes: &mut Vec<Write>, slot: &Slot, span: &Span) -> Result<(), NoMemory>
    ensures { OnOk result (writes.new.items ≡ writes.old.items
        ++ option_to_list (slot_write slot.now (row_of unannotated span.now))) }
{
    if let Some(write) = slot_write(slot, span)? {
        writes.push(write)?;
    }
    Ok(())
}

/// Adds what a commit writes of the row at the place of a slot, if the row has a slot.
fn push_entry(
    writes: &mut Vec<Write>,
    placed: &Placed,
    carried: &CarriedRows,
    spans: &SpanList<'_>,
    v: u32,
) -> Result<(), NoMemory>
    ensures { OnOk result (writes.new.items ≡ writes.old.items
        ++ of_entry row_writes carried.now v spans.now placed.now) }
{
    if let Some(span) = slotted(spans, carried, v, placed.place) {
        push_write(writes, &placed.slot, span)?;
    }
    Ok(())
}

/// What a commit writes of the rows of version v that have a slot.
fn base_writes(
    alloc: Global,
    slots: &[Placed],
    carried: &CarriedRows,
    spans: &SpanList<'_>,
    v: u32,
) -> Result<Vec<Write>, NoMemory>
    requires { IsAscending (map place_of slots.now) }
    ensures { IfOk result (λ writes. writes.items ≡ base_writes
        (slots_from carried.now v slots.now 0 spans.now)
        (slotted carried.now (rows_at unannotated v spans.now))) }
{
    let mut writes = Vec::new(alloc);
    for placed in slots {
        push_entry(&mut writes, placed, carried, spans, v)?;
    }
    Ok(writes)
}

/// What a commit writes of the rows of the version below the writes of a table.
pub fn slot_writes(
    alloc: Global,
    writes: &TableWrites,
    spans: &SpanList<'_>,
) -> Result<Vec<Write>, NoMemory>
    ensures { IfOk result (λ list. list.items ≡ slot_writes (overlay_of spans.now writes.now)
        (rows_below (overlay_of spans.now writes.now) spans.now)) }
{
    let slots = writes.slots.as_slice();
    base_writes(alloc, slots, &writes.carried, spans, writes.version)
}

/// What a commit writes of a row that was written over an earlier version.
fn carried_write(carried: &Carried) -> Result<Write, NoMemory>
    ensures { IfOk result (λ write. write ≡ carried_write carried.now) }
{
    match &carried.row {
        Some(cells) => put(&carried.id, cells),
        None => Ok(Write {
            id: carried.id.clone()?,
            row: None,
        }),
    }
}

/// Adds the rows that were written over earlier versions.
fn push_carried(writes: &mut Vec<Write>, carried: &[Carried]) -> Result<(), NoMemory>
    ensures { OnOk result
        (writes.new.items ≡ writes.old.items ++ map carried_write carried.now) }
{
    for row in carried {
        writes.push(carried_write(row)?)?;
    }
    Ok(())
}

/// Adds the rows that the transaction inserted.
fn push_own(writes: &mut Vec<Write>, own: &[Stored]) -> Result<(), NoMemory>
    ensures { OnOk result (writes.new.items ≡ writes.old.items ++ map own_write own.now) }
{
    for stored in own {
        writes.push(put(&stored.id, &stored.row)?)?;
    }
    Ok(())
}

/// What a commit writes of a table.
pub fn table_writes(
    alloc: Global,
    writes: &TableWrites,
    spans: &SpanList<'_>,
) -> Result<Vec<Write>, NoMemory>
    ensures { IfOk result (λ list. list.items ≡ table_writes (overlay_of spans.now writes.now)
        (rows_below (overlay_of spans.now writes.now) spans.now)) }
{
    let mut list = slot_writes(alloc, writes, spans)?;
    push_carried(&mut list, writes.carried.as_slice())?;
    push_own(&mut list, writes.own.as_slice())?;
    Ok(list)
}
