//! Whether two lists of tables have the same row versions, in the order of a dump.
//!
//! Equal row versions have equal row lines, so none of these is written to compare two dumps.

ghost use Rattle.std.specs.Prelude.{◌≡◌, ◌<◌, IfOk, drop, length, map, slice_get, suc, true};
ghost use Rattle.std.specs.Ordering.{is_eq};
ghost use Rattle.gp_base.specs.Identities.{identity_cmp};
ghost use Rattle.gp_base.specs.Order.{row_cmp};
ghost use Rattle.gp_dump.specs.Writing.{ordered};
ghost use Rattle.gp_replay.specs.SameRows.{in_order, same_end, same_found, same_span};

use gp_base::{NoMemory, Row, RowId};
use gp_versions::{Span, VersionTable};
use std::alloc::Global;
use std::cmp::Ordering;

/// Whether two identities are equal.
fn is_same_id(id: &RowId, other: &RowId) -> bool
    ensures { result ≡ is_eq (identity_cmp id.now other.now) }
{
    id.cmp(other) == Ordering::Equal
}

/// Whether two rows are equal.
fn is_same_row(row: &Row, other: &Row) -> bool
    ensures { result ≡ is_eq (row_cmp row.now other.now) }
{
    row.cmp(other) == Ordering::Equal
}

/// Whether two spans end at the same version, or neither has ended.
fn is_same_end(to: Option<u32>, other: Option<u32>) -> bool
    ensures { result ≡ same_end to other }
{
    match (to, other) {
        (None, None) => true,
        (None, Some(_)) => false,
        (Some(_), None) => false,
        (Some(version), Some(another)) => version == another,
    }
}

/// Whether two spans are equal.
fn is_same_span(span: &Span, other: &Span) -> bool
    ensures { result ≡ same_span span.now other.now }
{
    span.from == other.from
        && is_same_end(span.to, other.to)
        && is_same_id(&span.id, &other.id)
        && is_same_row(&span.row, &other.row)
}

/// Whether there are spans at both places, which are equal.
fn is_same_at(spans: &[Span], place: u32, others: &[Span], other: u32) -> bool
    ensures { result ≡ same_found (slice_get spans.now place) (slice_get others.now other) }
{
    match (spans.get(place as usize), others.get(other as usize)) {
        (None, None) => false,
        (None, Some(_)) => false,
        (Some(_), None) => false,
        (Some(span), Some(other)) => is_same_span(span, other),
    }
}

/// Whether the spans are equal whose places have this index.
fn is_same_next(
    spans: &[Span],
    places: &[u32],
    others: &[Span],
    other_places: &[u32],
    at: usize,
) -> bool
    requires { at < length places.now }
    ensures { result ≡ true
        → map (slice_get spans.now) (drop (suc at) places.now)
        ≡ map (slice_get others.now) (drop (suc at) other_places.now)
        → map (slice_get spans.now) (drop at places.now)
        ≡ map (slice_get others.now) (drop at other_places.now) }
{
    if at < other_places.len() {
        is_same_at(spans, places[at], others, other_places[at])
    } else {
        false
    }
}

/// Whether the spans at these places are equal, one by one.
fn are_same(spans: &[Span], places: &[u32], others: &[Span], other_places: &[u32]) -> bool
    ensures { result ≡ true
        → map (slice_get spans.now) places.now ≡ map (slice_get others.now) other_places.now }
{
    let mut at = 0;
    while at < places.len() {
        let same = is_same_next(spans, places, others, other_places, at);
        if !same {
            return false;
        }
        at += 1;
    }
    if at < other_places.len() {
        return false;
    }
    true
}

/// Whether two tables have the same row versions.
fn has_same_rows(
    alloc: Global,
    table: &VersionTable,
    other: &VersionTable,
) -> Result<bool, NoMemory>
    ensures { IfOk result (λ same. same ≡ true → in_order table.now ≡ in_order other.now) }
{
    let spans = table.as_slice();
    let others = other.as_slice();
    let places = table.spans(alloc)?;
    let other_places = other.spans(alloc)?;
    Ok(are_same(spans, &places, others, &other_places))
}

/// Whether the tables at this index have the same row versions.
fn has_same_next(
    alloc: Global,
    tables: &[VersionTable],
    others: &[VersionTable],
    at: usize,
) -> Result<bool, NoMemory>
    requires { at < length tables.now }
    ensures { IfOk result (λ same. same ≡ true
        → map in_order (drop (suc at) tables.now) ≡ map in_order (drop (suc at) others.now)
        → map in_order (drop at tables.now) ≡ map in_order (drop at others.now)) }
{
    if at < others.len() {
        has_same_rows(alloc, &tables[at], &others[at])
    } else {
        Ok(false)
    }
}

/// Whether the tables have the same row versions, one by one.
pub fn have_same_rows(
    alloc: Global,
    tables: &[VersionTable],
    others: &[VersionTable],
) -> Result<bool, NoMemory>
    ensures { IfOk result (λ same. same ≡ true → ordered tables.now ≡ ordered others.now) }
{
    let mut at = 0;
    while at < tables.len() {
        let same = has_same_next(alloc, tables, others, at)?;
        if !same {
            return Ok(false);
        }
        at += 1;
    }
    if at < others.len() {
        return Ok(false);
    }
    Ok(true)
}
