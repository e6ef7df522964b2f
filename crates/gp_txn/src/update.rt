//! UPDATE and DELETE over the writes of a transaction. Both pass once over the rows of a table that may pass their condition.

ghost use Rattle.std.specs.Prelude.{◌≡◌, ◌≤◌, ◌++◌, ◌∷◌, [], length, true, false, map, IfOk, OnErr, OnOk, MatchOption};
ghost use Rattle.std.specs.Option.{option_map, option_to_list};
ghost use Rattle.gp_expr.specs.Values as values;
ghost use Rattle.gp_txn.specs.Changes.{change_is_simple, change_view, cond_of};
ghost use Rattle.std.specs.List.{filter_map};
ghost use Rattle.gp_txn.specs.Overlay.{carried_row, own_row, overlay_of, rows_below, view_rows};
ghost use Rattle.gp_txn.specs.Ascending.{IsAscending, place_of};
ghost use Rattle.gp_txn.specs.Enough.{IsEnough, first_at, slot_or, slotted_at};
ghost use Rattle.gp_txn.specs.Passes.{made_of_slot, row_entry};
ghost use Rattle.gp_txn.specs.Slots.{carried_after, cells_after, cells_seen, changed_carried, changed_own, changed_table, count_touched, effect, made_or, passes_seen, slot_of, stored_after, written_entry, written_from};

use crate::active::number;
use crate::assignment::assigned;
use crate::carried::{Carried, CarriedRows};
use crate::change::Change;
use crate::lookup::places_for;
use crate::overlay::{Placed, Slot, TableWrites};
use crate::slots::{first_at, seek, slotted};
use crate::snapshot::{copied_row, seen};
use gp_base::{NoMemory, Row, Sequence, Stored};
use gp_expr::truth;
use gp_versions::SpanList;
use std::alloc::Global;

/// What a statement makes, if it makes something new, and how many rows it writes there.
#[derive(Drop)]
struct Counted<T> {
    /// What it makes.
    made: Option<T>,
    /// The number of rows.
    count: usize,
}

/// Whether the statement writes a row of these cells.
fn passes(change: &Change<'_>, row: &Row) -> bool
    requires { change_is_simple (change_view change.now) ≡ true }
    ensures { result ≡ values.passes (cond_of (change_view change.now)) row.now }
{
    match change {
        Change::Update(_, cond) | Change::Delete(cond) => truth(cond, row).holds(),
    }
}

/// The cells of a row after the statement, or None if it deletes the row. Nothing, if it does not write the row, or there is
/// none.
fn written(
    alloc: Global,
    change: &Change<'_>,
    row: Option<&Row>,
) -> Result<Option<Option<Row>>, NoMemory>
    requires { change_is_simple (change_view change.now) ≡ true }
    ensures { IfOk result (λ new. MatchOption new
        (passes_seen (change_view change.now) (option_map (λ row. row.now) row.entry) ≡ false)
        (λ cells.
        (passes_seen (change_view change.now) (option_map (λ row. row.now) row.entry) ≡ true)
        × (cells ≡ cells_seen (change_view change.now) (option_map (λ row. row.now) row.entry)))) }
{
    match row {
        Some(row) if passes(change, row) => match change {
            Change::Update(sets, _) => Ok(Some(Some(assigned(alloc, sets, row)?))),
            Change::Delete(_) => Ok(Some(None)),
        },
        _ => Ok(None),
    }
}

/// The slot of a row that the statement wrote, with these cells.
fn slot_of(cells: Option<Row>) -> Slot
    ensures { result ≡ slot_of cells }
{
    match cells {
        Some(cells) => Slot::Put(cells),
        None => Slot::Dropped,
    }
}

/// Adds the slot after the statement of a row with this slot, if the statement writes the row.
fn push_slot(
    alloc: Global,
    new: &mut Vec<Placed>,
    change: &Change<'_>,
    place: u32,
    slot: Option<&Slot>,
    row: &Row,
) -> Result<(), NoMemory>
    requires { change_is_simple (change_view change.now) ≡ true }
    ensures { OnOk result (new.new.items ≡ new.old.items
        ++ written_entry (change_view change.now) place
        (slot_or (option_map (λ slot. slot.now) slot.entry)) row.now) }
{
    if let Some(cells) = written(alloc, change, seen(slot, row))? {
        let slot = slot_of(cells);
        new.push(Placed { place, slot })?;
    }
    Ok(())
}

/// Adds the slot after the statement of the row at a place, if the row has a slot and the statement writes it. The slots begin
/// at the place, or behind it.
fn push_place(
    alloc: Global,
    new: &mut Vec<Placed>,
    change: &Change<'_>,
    ahead: &[Placed],
    place: u32,
    carried: &CarriedRows,
    spans: &SpanList<'_>,
    v: u32,
) -> Result<(), NoMemory>
    requires { change_is_simple (change_view change.now) ≡ true }
    ensures { OnOk result (new.new.items ≡ new.old.items
        ++ made_of_slot (row_entry (change_view change.now) place)
        (first_at place ahead.now) (slotted_at carried.now v spans.now place)) }
{
    match slotted(spans, carried, v, place) {
        None => Ok(()),
        Some(span) => push_slot(alloc, new, change, place, first_at(ahead, place), &span.row),
    }
}

/// The slots after the statement of the rows of version v that it writes. It writes no rows at other places than these.
fn written_slots(
    alloc: Global,
    change: &Change<'_>,
    slots: &[Placed],
    carried: &CarriedRows,
    spans: &SpanList<'_>,
    v: u32,
    places: &[u32],
) -> Result<Vec<Placed>, NoMemory>
    requires simple { change_is_simple (change_view change.now) ≡ true }
    requires ascending { IsAscending (map place_of slots.now) }
    requires enough { IsEnough (values.passes (cond_of (change_view change.now)))
        slots.now v spans.now places.now }
    ensures { IfOk result (λ new. new.items ≡ written_from
        (change_view change.now) carried.now v slots.now 0 spans.now) }
{
    let mut new = Vec::new(alloc);
    let mut ahead = slots;
    for place in places {
        ahead = seek(ahead, *place);
        push_place(alloc, &mut new, change, ahead, *place, carried, spans, v)?;
    }
    Ok(new)
}

/// The cells after the statement of a row that was written over an earlier version.
fn cells_after(
    alloc: Global,
    change: &Change<'_>,
    row: &Option<Row>,
) -> Result<Option<Row>, NoMemory>
    requires { change_is_simple (change_view change.now) ≡ true }
    ensures { IfOk result (λ new. new ≡ cells_after (change_view change.now) row.now) }
{
    match written(alloc, change, row.as_ref())? {
        Some(made) => Ok(made),
        None => Ok(row.clone()?),
    }
}

/// Adds a row that was written over an earlier version, as it is after the statement. It keeps its base.
fn push_carried(
    alloc: Global,
    new: &mut Vec<Carried>,
    change: &Change<'_>,
    carried: &Carried,
) -> Result<(), NoMemory>
    requires { change_is_simple (change_view change.now) ≡ true }
    ensures { OnOk result (new.new.items ≡ new.old.items
        ++ carried_after (change_view change.now) carried.now ∷ []) }
{
    let row = cells_after(alloc, change, &carried.row)?;
    let id = carried.id.clone()?;
    new.push(Carried {
        id,
        base: carried.base,
        row,
    })?;
    Ok(())
}

/// Whether the statement writes a row that was written over an earlier version.
fn passes_carried(change: &Change<'_>, carried: &Carried) -> bool
    requires { change_is_simple (change_view change.now) ≡ true }
    ensures { result ≡ passes_seen (change_view change.now) carried.now.row }
{
    match &carried.row {
        Some(cells) => passes(change, cells),
        None => false,
    }
}

/// How many of the rows that were written over earlier versions the statement writes.
fn count_carried(change: &Change<'_>, carried: &[Carried]) -> usize
    requires { change_is_simple (change_view change.now) ≡ true }
    ensures count { result
        ≡ count_touched (change_view change.now) (filter_map carried_row carried.now) }
    ensures few { result ≤ length carried.now }
{
    let mut count = 0usize;
    for row in carried {
        if passes_carried(change, row) {
            count += 1;
        }
    }
    count
}

/// The rows that were written over earlier versions, after the statement. They are copied only if it writes one of them.
fn changed_carried(
    alloc: Global,
    change: &Change<'_>,
    carried: &[Carried],
) -> Result<Counted<CarriedRows>, NoMemory>
    requires { change_is_simple (change_view change.now) ≡ true }
    ensures rows { IfOk result (λ new. made_or carried.now new.made
        ≡ changed_carried (change_view change.now) carried.now) }
    ensures count { IfOk result (λ new. new.count
        ≡ count_touched (change_view change.now) (filter_map carried_row carried.now)) }
    ensures few { IfOk result (λ new. new.count ≤ length carried.now) }
{
    let count = count_carried(change, carried);
    if count == 0 {
        return Ok(Counted { made: None, count });
    }
    let mut new = Vec::with_capacity(alloc, carried.len())?;
    for row in carried {
        push_carried(alloc, &mut new, change, row)?;
    }
    let made = Some(CarriedRows::from_vec(alloc, new)?);
    Ok(Counted { made, count })
}

/// Adds an inserted row as it is after the statement.
fn push_changed(
    alloc: Global,
    new: &mut Sequence<Stored>,
    change: &Change<'_>,
    stored: &Stored,
) -> Result<(), NoMemory>
    requires { change_is_simple (change_view change.now) ≡ true }
    ensures { OnOk result (new.new ≡ new.old
        ++ option_to_list (stored_after (effect (change_view change.now) stored.now.row) stored.now)) }
{
    match written(alloc, change, Some(&stored.row))? {
        None => new.push(copied_row(stored)?),
        Some(None) => Ok(()),
        Some(Some(row)) => {
            let id = stored.id.clone()?;
            new.push(Stored { id, row })
        }
    }
}

/// How many of the inserted rows the statement writes.
fn count_own(change: &Change<'_>, own: &[Stored]) -> usize
    requires { change_is_simple (change_view change.now) ≡ true }
    ensures count { result ≡ count_touched (change_view change.now) (map own_row own.now) }
    ensures few { result ≤ length own.now }
{
    let mut count = 0usize;
    for stored in own {
        if passes(change, &stored.row) {
            count += 1;
        }
    }
    count
}

/// The inserted rows after the statement. They are copied only if it writes one of them.
fn changed_own(
    alloc: Global,
    change: &Change<'_>,
    own: &[Stored],
) -> Result<Counted<Sequence<Stored>>, NoMemory>
    requires { change_is_simple (change_view change.now) ≡ true }
    ensures own { IfOk result (λ new. made_or own.now new.made
        ≡ changed_own (change_view change.now) own.now) }
    ensures count { IfOk result (λ new. new.count
        ≡ count_touched (change_view change.now) (map own_row own.now)) }
    ensures few { IfOk result (λ new. new.count ≤ length own.now) }
{
    let count = count_own(change, own);
    if count == 0 {
        return Ok(Counted { made: None, count });
    }
    let mut new = Sequence::new(alloc);
    for stored in own {
        push_changed(alloc, &mut new, change, stored)?;
    }
    Ok(Counted {
        made: Some(new),
        count,
    })
}

/// Puts in what was made, if something was.
fn put_made<T: Drop>(kept: &mut T, made: Option<T>)
    ensures { kept.new ≡ made_or kept.old made }
{
    if let Some(made) = made {
        *kept = made;
    }
}

/// Puts what an UPDATE or a DELETE makes into the writes of a table, over the rows of the version below them. Gives the number
/// of rows that it writes. The writes of rows that it does not write are not copied. If memory runs out, nothing changes.
pub fn change_writes(
    alloc: Global,
    writes: &mut TableWrites,
    spans: &SpanList<'_>,
    change: &Change<'_>,
) -> Result<u32, NoMemory>
    requires { change_is_simple (change_view change.now) ≡ true }
    ensures exact { OnOk result (writes.new
        ≡ changed_table (change_view change.now) spans.now writes.old) }
    ensures count { IfOk result (λ count. count ≡ count_touched (change_view change.now)
        (view_rows (overlay_of spans.now writes.old)
        (rows_below (overlay_of spans.now writes.old) spans.now))) }
    ensures err { OnErr result (writes.new ≡ writes.old) }
{
    let version = writes.version;
    let cond = Some(change.cond());
    let places = places_for(alloc, spans, &writes.slots, version, cond)?;
    let slots = written_slots(
        alloc,
        change,
        writes.slots.as_slice(),
        &writes.carried,
        spans,
        version,
        &places,
    )?;
    let carried = changed_carried(alloc, change, writes.carried.as_slice())?;
    let own = changed_own(alloc, change, writes.own.as_slice())?;
    let count = number(slots.len() + carried.count + own.count)?;
    writes.slots.put_all(alloc, slots)?;
    put_made(&mut writes.carried, carried.made);
    put_made(&mut writes.own, own.made);
    Ok(count)
}
