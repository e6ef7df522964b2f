//! How many row versions a commit leaves. The writes are counted where they stand, so that a commit that is refused copies
//! nothing.

ghost use Rattle.std.specs.Prelude.{◌≡◌, ◌≤◌, length, map, nat_lt};
ghost use Rattle.gp_base.specs.Annotated.{unannotated};
ghost use Rattle.gp_txn.specs.Committing.{commit_of, spans_left};
ghost use Rattle.gp_txn.specs.Ascending.{IsAscending, place_of};
ghost use Rattle.gp_txn.specs.Passes.{of_entry, row_writes};
ghost use Rattle.gp_txn.specs.Overlay.{base_writes, overlay_of, rows_below, slots_from, slotted, table_writes};
ghost use Rattle.gp_txn.specs.Slots.{put_count};
ghost use Rattle.gp_versions.specs.Commits.{live_rows};
ghost use Rattle.gp_versions.specs.Spans.{rows_at};

use crate::carried::CarriedRows;
use crate::overlay::{Placed, Slot, TableWrites};
use crate::slots::slotted;
use crate::snapshot::count_carried;
use gp_base::MAX_SPANS;
use gp_versions::{SpanList, VersionTable};

/// How many rows a commit puts in place of a row with this slot.
fn count_put(slot: &Slot) -> usize
    ensures { result ≡ put_count slot.now }
{
    match slot {
        Slot::Put(_) => 1,
        Slot::Same | Slot::Dropped => 0,
    }
}

/// How many rows a commit puts in place of the row at the place of a slot, if the row has a slot.
fn count_entry(placed: &Placed, carried: &CarriedRows, spans: &SpanList<'_>, v: u32) -> usize
    ensures count { result ≡ length
        (live_rows unannotated (of_entry row_writes carried.now v spans.now placed.now)) }
    ensures few { result ≤ 1 }
{
    match slotted(spans, carried, v, placed.place) {
        None => 0,
        Some(_) => count_put(&placed.slot),
    }
}

/// How many rows a commit puts in place of the rows of version v that have a slot.
fn count_base(slots: &[Placed], carried: &CarriedRows, spans: &SpanList<'_>, v: u32) -> usize
    requires { IsAscending (map place_of slots.now) }
    ensures count { result ≡ length (live_rows unannotated (base_writes
        (slots_from carried.now v slots.now 0 spans.now)
        (slotted carried.now (rows_at unannotated v spans.now)))) }
    ensures few { result ≤ length slots.now }
{
    let mut count = 0usize;
    for placed in slots {
        count += count_entry(placed, carried, spans, v);
    }
    count
}

/// How many of the writes of a commit to a table have a row.
fn count_live(writes: &TableWrites, spans: &SpanList<'_>) -> usize
    ensures { result ≡ length
        (live_rows unannotated (table_writes (overlay_of spans.now writes.now)
        (rows_below (overlay_of spans.now writes.now) spans.now))) }
{
    let carried = &writes.carried;
    let base = count_base(writes.slots.as_slice(), carried, spans, writes.version);
    base + count_carried(carried.as_slice()) + writes.own.as_slice().len()
}

/// Whether the tables would have more than [`MAX_SPANS`] spans after the commit. It counts down from the limit, so that no
/// sum can overflow.
pub fn is_full(tables: &[TableWrites], versions: &[VersionTable]) -> bool
    requires { length versions.now ≤ length tables.now }
    ensures { result ≡ nat_lt MAX_SPANS (spans_left tables.now versions.now) }
{
    let mut left = MAX_SPANS as usize;
    for place in 0..versions.len() {
        let table = &versions[place];
        let old = table.len();
        let spans = table.as_list();
        let new = count_live(&tables[place], &spans);
        if old > left || new > left - old {
            return true;
        }
        left -= old + new;
    }
    false
}
