//! What a transaction sees of a table, over the version that its writes of the table lie over.

ghost use Rattle.std.specs.Prelude.{◌≡◌, ◌≤◌, ◌+◌, ◌++◌, ◌∷◌, [], true, length, map, IfOk, OnOk, ◌<◌, ◌^◌};
ghost use Rattle.std.specs.List.{filter_map};
ghost use Rattle.std.specs.Option.{option_map, option_to_list};
ghost use Rattle.gp_base.specs.Annotated.{unannotated};
ghost use Rattle.gp_expr.specs.Views.{cond_view};
ghost use Rattle.gp_algebra.specs.Answers.{passes_where};
ghost use Rattle.gp_algebra.specs.Simple.{where_is_simple};
ghost use Rattle.gp_versions.specs.Spans.{row_of, rows_at};
ghost use Rattle.gp_txn.specs.Overlay.{carried_row, overlaid, overlay_of, rows_below, shown, slots_from, slotted, slotted_spans, stored_of, view_rows};
ghost use Rattle.gp_txn.specs.Ascending.{IsAscending, place_of};
ghost use Rattle.gp_txn.specs.Enough.{IsEnough, first_at, slot_or, slotted_at};
ghost use Rattle.gp_txn.specs.Passes.{of_entry, made_of_slot, row_dropped, row_wanted};
ghost use Rattle.gp_txn.specs.Slots.{dropped_count, seen};
ghost use Rattle.gp_txn.specs.Wanted.{wanted, wanted_own};

use crate::carried::{Carried, CarriedRows};
use crate::lookup::places_for;
use crate::overlay::{Placed, Slot, TableWrites};
use crate::slots::{first_at, seek, slotted};
use gp_base::{NoMemory, Row, Sequence, Stored};
use gp_expr::{Cond, truth};
use gp_versions::{Span, SpanList};
use std::alloc::Global;

/// The cells that the transaction sees of a row with this slot.
pub fn seen<'a>(slot: Option<&'a Slot>, row: &'a Row) -> Option<&'a Row>
    ensures { option_map (λ cells. cells.now) result
        ≡ seen (slot_or (option_map (λ slot. slot.now) slot.entry)) row.now }
{
    match slot {
        None | Some(Slot::Same) => Some(row),
        Some(Slot::Put(cells)) => Some(cells),
        Some(Slot::Dropped) => None,
    }
}

/// A copy of a row.
pub fn copied_row(stored: &Stored) -> Result<Stored, NoMemory>
    ensures { IfOk result (λ copy. copy ≡ stored.now) }
{
    Ok(Stored {
        id: stored.id.clone()?,
        row: stored.row.clone()?,
    })
}

/// Whether a row of these cells passes the condition, if there is one. Rows are tested before they are copied, since the
/// test takes no memory, and a copy makes three allocations or more.
fn is_wanted(cond: Option<&Cond>, row: &Row) -> bool
    requires { where_is_simple (option_map (λ c. cond_view c.now) cond) ≡ true }
    ensures { result ≡ passes_where (option_map (λ c. cond_view c.now) cond.entry) row.now }
{
    match cond {
        None => true,
        Some(cond) => truth(cond, row).holds(),
    }
}

/// Adds what the transaction sees of a row with this slot, if it is wanted.
fn push_seen(
    rows: &mut Sequence<Stored>,
    slot: Option<&Slot>,
    span: &Span,
    cond: Option<&Cond>,
) -> Result<(), NoMemory>
    requires { where_is_simple (option_map (λ c. cond_view c.now) cond) ≡ true }
    ensures { OnOk result (rows.new ≡ rows.old
        ++ map stored_of (wanted (option_map (λ c. cond_view c.now) cond.entry)
        (shown (slot_or (option_map (λ slot. slot.now) slot.entry)) (row_of unannotated span.now)))) }
{
    match seen(slot, &span.row) {
        Some(cells) if is_wanted(cond, cells) => {
            let id = span.id.clone()?;
            let row = cells.clone()?;
            rows.push(Stored { id, row })
        }
        _ => Ok(()),
    }
}

/// Adds what the transaction sees of the row at a place, if the row has a slot and is wanted. The slots begin at the place,
/// or behind it.
fn push_place(
    rows: &mut Sequence<Stored>,
    ahead: &[Placed],
    place: u32,
    carried: &CarriedRows,
    spans: &SpanList<'_>,
    v: u32,
    cond: Option<&Cond>,
) -> Result<(), NoMemory>
    requires { where_is_simple (option_map (λ c. cond_view c.now) cond) ≡ true }
    ensures { OnOk result (rows.new ≡ rows.old
        ++ made_of_slot (row_wanted (option_map (λ c. cond_view c.now) cond.entry))
        (first_at place ahead.now) (slotted_at carried.now v spans.now place)) }
{
    match slotted(spans, carried, v, place) {
        None => Ok(()),
        Some(span) => push_seen(rows, first_at(ahead, place), span, cond),
    }
}

/// What the transaction sees of the rows of version v that have a slot, as far as it is wanted. The rows at other places
/// than these are not.
fn seen_rows(
    alloc: Global,
    slots: &[Placed],
    carried: &CarriedRows,
    spans: &SpanList<'_>,
    v: u32,
    places: &[u32],
    cond: Option<&Cond>,
) -> Result<Sequence<Stored>, NoMemory>
    requires simple { where_is_simple (option_map (λ c. cond_view c.now) cond) ≡ true }
    requires ascending { IsAscending (map place_of slots.now) }
    requires enough { IsEnough (passes_where (option_map (λ c. cond_view c.now) cond))
        slots.now v spans.now places.now }
    ensures { IfOk result (λ rows. rows
        ≡ map stored_of (wanted (option_map (λ c. cond_view c.now) cond.entry)
        (overlaid (slots_from carried.now v slots.now 0 spans.now)
        (slotted carried.now (rows_at unannotated v spans.now))))) }
{
    let mut rows = Sequence::new(alloc);
    let mut ahead = slots;
    for place in places {
        ahead = seek(ahead, *place);
        push_place(&mut rows, ahead, *place, carried, spans, v, cond)?;
    }
    Ok(rows)
}

/// Adds a row that was written over an earlier version, if the transaction sees it and it is wanted.
fn push_carried(
    rows: &mut Sequence<Stored>,
    carried: &Carried,
    cond: Option<&Cond>,
) -> Result<(), NoMemory>
    requires { where_is_simple (option_map (λ c. cond_view c.now) cond) ≡ true }
    ensures { OnOk result (rows.new ≡ rows.old
        ++ map stored_of (wanted (option_map (λ c. cond_view c.now) cond.entry)
        (option_to_list (carried_row carried.now)))) }
{
    match &carried.row {
        Some(cells) if is_wanted(cond, cells) => {
            let id = carried.id.clone()?;
            let row = cells.clone()?;
            rows.push(Stored { id, row })
        }
        _ => Ok(()),
    }
}

/// Adds the rows that were written over earlier versions, as far as the transaction sees them and they are wanted.
fn push_all_carried(
    rows: &mut Sequence<Stored>,
    carried: &[Carried],
    cond: Option<&Cond>,
) -> Result<(), NoMemory>
    requires { where_is_simple (option_map (λ c. cond_view c.now) cond) ≡ true }
    ensures { OnOk result (rows.new ≡ rows.old
        ++ map stored_of (wanted (option_map (λ c. cond_view c.now) cond.entry)
        (filter_map carried_row carried.now))) }
{
    for row in carried {
        push_carried(rows, row, cond)?;
    }
    Ok(())
}

/// Adds an inserted row, if it is wanted.
fn push_wanted(
    rows: &mut Sequence<Stored>,
    stored: &Stored,
    cond: Option<&Cond>,
) -> Result<(), NoMemory>
    requires { where_is_simple (option_map (λ c. cond_view c.now) cond) ≡ true }
    ensures { OnOk result (rows.new ≡ rows.old
        ++ wanted_own (option_map (λ c. cond_view c.now) cond.entry) (stored.now ∷ [])) }
{
    if is_wanted(cond, &stored.row) {
        rows.push(copied_row(stored)?)?;
    }
    Ok(())
}

/// Adds the inserted rows, as far as they are wanted.
fn push_all_own(
    rows: &mut Sequence<Stored>,
    own: &[Stored],
    cond: Option<&Cond>,
) -> Result<(), NoMemory>
    requires { where_is_simple (option_map (λ c. cond_view c.now) cond) ≡ true }
    ensures { OnOk result (rows.new
        ≡ rows.old ++ wanted_own (option_map (λ c. cond_view c.now) cond.entry) own.now) }
{
    for stored in own {
        push_wanted(rows, stored, cond)?;
    }
    Ok(())
}

/// What the transaction sees of a table, over the rows of the version below its writes: all rows, or those that pass a
/// condition.
pub fn view_rows(
    alloc: Global,
    writes: &TableWrites,
    spans: &SpanList<'_>,
    cond: Option<&Cond>,
) -> Result<Sequence<Stored>, NoMemory>
    requires { where_is_simple (option_map (λ c. cond_view c.now) cond) ≡ true }
    ensures { IfOk result (λ rows. rows
        ≡ map stored_of (wanted (option_map (λ c. cond_view c.now) cond.entry)
        (view_rows (overlay_of spans.now writes.now)
        (rows_below (overlay_of spans.now writes.now) spans.now)))) }
{
    let version = writes.version;
    let slots = writes.slots.as_slice();
    let carried = &writes.carried;
    let places = places_for(alloc, spans, &writes.slots, version, cond)?;
    let mut rows = seen_rows(alloc, slots, carried, spans, version, &places, cond)?;
    push_all_carried(&mut rows, carried.as_slice(), cond)?;
    push_all_own(&mut rows, writes.own.as_slice(), cond)?;
    Ok(rows)
}

/// How many rows of version v have a slot.
fn count_slotted(carried: &CarriedRows, spans: &SpanList<'_>, v: u32) -> usize
    ensures count { result ≡ length (slotted_spans carried.now v spans.now) }
    ensures few { result < 2 ^ 60 }
{
    let mut count = 0usize;
    for span in spans.as_of(v) {
        if !carried.has(&span.id) {
            count += 1;
        }
    }
    count
}

/// How many rows the transaction no longer sees of a row with this slot.
fn count_gone(slot: &Slot) -> usize
    ensures { result ≡ dropped_count slot.now }
{
    match slot {
        Slot::Same | Slot::Put(_) => 0,
        Slot::Dropped => 1,
    }
}

/// How many rows the transaction no longer sees of the row at the place of a slot, if the row has a slot.
fn count_entry(placed: &Placed, carried: &CarriedRows, spans: &SpanList<'_>, v: u32) -> usize
    ensures count { result
        ≡ length (of_entry row_dropped carried.now v spans.now placed.now) }
    ensures few { result ≤ 1 }
{
    match slotted(spans, carried, v, placed.place) {
        None => 0,
        Some(_) => count_gone(&placed.slot),
    }
}

/// How many of the rows of version v that have a slot the transaction deleted.
fn count_dropped(slots: &[Placed], carried: &CarriedRows, spans: &SpanList<'_>, v: u32) -> usize
    requires { IsAscending (map place_of slots.now) }
    ensures { result + length (overlaid (slots_from carried.now v slots.now 0 spans.now)
        (slotted carried.now (rows_at unannotated v spans.now)))
        ≡ length (slotted_spans carried.now v spans.now) }
{
    let mut count = 0usize;
    for placed in slots {
        count += count_entry(placed, carried, spans, v);
    }
    count
}

/// How many rows the transaction sees of the rows of version v that have a slot.
fn count_base(slots: &[Placed], carried: &CarriedRows, spans: &SpanList<'_>, v: u32) -> usize
    requires { IsAscending (map place_of slots.now) }
    ensures count { result
        ≡ length (overlaid (slots_from carried.now v slots.now 0 spans.now)
        (slotted carried.now (rows_at unannotated v spans.now))) }
    ensures few { result < 2 ^ 60 }
{
    count_slotted(carried, spans, v) - count_dropped(slots, carried, spans, v)
}

/// How many of the rows that were written over earlier versions the transaction sees.
pub fn count_carried(carried: &[Carried]) -> usize
    ensures count { result ≡ length (filter_map carried_row carried.now) }
    ensures few { result ≤ length carried.now }
{
    let mut count = 0usize;
    for row in carried {
        if row.row.is_some() {
            count += 1;
        }
    }
    count
}

/// How many rows the transaction sees of a table, over the rows of the version below its writes. It takes no memory.
pub fn count_rows(writes: &TableWrites, spans: &SpanList<'_>) -> usize
    ensures { result ≡ length (view_rows (overlay_of spans.now writes.now)
        (rows_below (overlay_of spans.now writes.now) spans.now)) }
{
    let carried = &writes.carried;
    let base = count_base(writes.slots.as_slice(), carried, spans, writes.version);
    base + count_carried(carried.as_slice()) + writes.own.as_slice().len()
}
