//! Rows that a transaction and a later commit wrote.

ghost use Rattle.std.specs.Prelude.{◌≡◌, ◌≤◌, IfOk, None, Some, length, map};
ghost use Rattle.std.specs.List.{filter_map};
ghost use Rattle.gp_base.specs.declared.catalog.TheConstants.{MAX_TABLES};
ghost use Rattle.gp_txn.specs.Conflicts.{IsFirstConflict, IsLeast, carried_late, late_of, late_version, lates, lates_at, slot_lates};
ghost use Rattle.gp_txn.specs.LeastSoFar.{least_of, lesser};
ghost use Rattle.gp_txn.specs.Overlay.{overlay_of, slots_from, slotted_spans};
ghost use Rattle.gp_txn.specs.Ascending.{IsAscending, place_of};
ghost use Rattle.gp_txn.specs.Passes.{of_entry, row_lates};

use crate::carried::{Carried, CarriedRows};
use crate::overlay::{Placed, Slot, TableWrites};
use crate::slots::slotted;
use gp_base::{NoMemory, RowId};
use gp_versions::{Span, SpanList, VersionTable};
use std::cmp::Ordering;

/// A row that the transaction wrote, and that a commit above its base wrote too.
#[derive(Drop)]
pub struct Late {
    /// The identity of the row.
    pub id: RowId,
    /// The first version above its base that wrote it.
    pub version: u32,
}

/// A row by which a commit is lost, with its table.
#[derive(Drop)]
pub struct Conflict {
    /// The place of its table.
    pub place: u32,
    /// The row.
    pub late: Late,
}

/// The version at which the span of a row with this slot ended, if the transaction wrote the row.
fn late_version(slot: &Slot, span: &Span) -> Option<u32>
    ensures { result ≡ late_version slot.now span.now }
{
    match slot {
        Slot::Same => None,
        Slot::Put(_) | Slot::Dropped => span.to,
    }
}

/// The lesser of what was found so far and a row that a commit wrote at this version.
fn lesser(found: Option<Late>, id: &RowId, version: u32) -> Result<Option<Late>, NoMemory>
    ensures { IfOk result
        (λ now. now ≡ lesser found (Some (record { id = id.now; version = version }))) }
{
    if let Some(first) = &found
        && first.id.compare(id) != Ordering::Greater
    {
        return Ok(found);
    }
    let id = id.clone()?;
    Ok(Some(Late { id, version }))
}

/// The lesser of what was found so far and a row with this slot.
fn lesser_slot(found: Option<Late>, slot: &Slot, span: &Span) -> Result<Option<Late>, NoMemory>
    ensures { IfOk result (λ now. now ≡ lesser found (late_of slot.now span.now)) }
{
    match late_version(slot, span) {
        None => Ok(found),
        Some(version) => lesser(found, &span.id, version),
    }
}

/// The lesser of what was found so far and the row at the place of a slot, if the row has a slot.
fn lesser_entry(
    found: Option<Late>,
    placed: &Placed,
    carried: &CarriedRows,
    spans: &SpanList<'_>,
    v: u32,
) -> Result<Option<Late>, NoMemory>
    ensures { IfOk result (λ now. now
        ≡ least_of found (of_entry row_lates carried.now v spans.now placed.now)) }
{
    match slotted(spans, carried, v, placed.place) {
        None => Ok(found),
        Some(span) => lesser_slot(found, &placed.slot, span),
    }
}

/// The least of the rows of version v that have a slot.
fn least_slot(
    slots: &[Placed],
    carried: &CarriedRows,
    spans: &SpanList<'_>,
    v: u32,
) -> Result<Option<Late>, NoMemory>
    requires { IsAscending (map place_of slots.now) }
    ensures { IfOk result (λ found. found ≡ least_of None (slot_lates
        (slots_from carried.now v slots.now 0 spans.now)
        (slotted_spans carried.now v spans.now))) }
{
    let mut found = None;
    for placed in slots {
        found = lesser_entry(found, placed, carried, spans, v)?;
    }
    Ok(found)
}

/// The lesser of what was found so far and a row that was written over an earlier version.
fn lesser_carried(
    found: Option<Late>,
    row: &Carried,
    table: &VersionTable,
) -> Result<Option<Late>, NoMemory>
    ensures { IfOk result
        (λ now. now ≡ lesser found (carried_late table.now.spans row.now)) }
{
    match table.written_after(&row.id, row.base) {
        None => Ok(found),
        Some(version) => lesser(found, &row.id, version),
    }
}

/// The least of what was found so far and the rows that were written over earlier versions.
fn least_carried(
    mut found: Option<Late>,
    carried: &[Carried],
    table: &VersionTable,
) -> Result<Option<Late>, NoMemory>
    ensures { IfOk result (λ now. now
        ≡ least_of found (filter_map (carried_late table.now.spans) carried.now)) }
{
    for row in carried {
        found = lesser_carried(found, row, table)?;
    }
    Ok(found)
}

/// The least row of a table that the transaction wrote, and that a commit above its base wrote too.
fn table_conflict(writes: &TableWrites, table: &VersionTable) -> Result<Option<Late>, NoMemory>
    ensures { IfOk result (λ found. IsLeast
        (lates (overlay_of table.now.spans writes.now) table.now.spans) found) }
{
    let carried = &writes.carried;
    let slots = writes.slots.as_slice();
    let spans = table.as_list();
    let found = least_slot(slots, carried, &spans, writes.version)?;
    Ok(least_carried(found, carried.as_slice(), table)?)
}

/// The conflict that a commit is lost by: the least row of the first table that has one, with the first version above its
/// base that wrote it. For a row with a slot, its span tells that version, as the span of a row ends at the next write of the
/// row. A row that was written over an earlier version is looked up by its identity: its table has to have
/// entered its spans for that to be fast.
pub fn first_conflict(
    tables: &[TableWrites],
    versions: &[VersionTable],
) -> Result<Option<Conflict>, NoMemory>
    requires fit { length versions.now ≤ length tables.now }
    requires few { length versions.now ≤ MAX_TABLES }
    ensures { IfOk result (λ found. IsFirstConflict
        (length versions.now) (lates_at tables.now versions.now) found) }
{
    for place in 0..versions.len() {
        if let Some(late) = table_conflict(&tables[place], &versions[place])? {
            return Ok(Some(Conflict {
                place: place as u32,
                late,
            }));
        }
    }
    Ok(None)
}
