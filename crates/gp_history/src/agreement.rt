//! Whether computed rows are those that the spans have.

ghost use Rattle.std.specs.Prelude.{◌≡◌, map, IfOk};
ghost use Rattle.std.specs.Cmp.Lexicographic.{slice_cmp};
ghost use Rattle.std.specs.Ordering.{is_eq};
ghost use Rattle.gp_base.specs.Order.{row_cmp};
ghost use Rattle.gp_history.specs.Agreement.{keys_agree};
ghost use Rattle.gp_history.specs.Matching.{keys_of, span_key};
ghost use Rattle.gp_history.specs.Noted.{held_key};

use crate::matching::{are_in_order, first_marked, is_same};
use gp_base::{Cell, NoMemory, Row, sort_rows};
use gp_kexec::Held;
use gp_versions::Span;
use std::alloc::Global;

/// The cells of a row and its identity, without its mark and its annotation.
fn key_of_row<A>(row: &Held<A>) -> Result<Row, NoMemory>
    ensures { IfOk result (λ key. key ≡ held_key row.now) }
{
    let mut key = row.cells.clone()?;
    key.push(Cell::Id(row.id.clone()?))?;
    Ok(key)
}

/// The cells of the row of a span and its identity.
fn key_of_span(span: &Span) -> Result<Row, NoMemory>
    ensures { IfOk result (λ key. key ≡ span_key span.now) }
{
    let mut key = span.row.clone()?;
    key.push(Cell::Id(span.id.clone()?))?;
    Ok(key)
}

/// The keys of rows.
fn keys_in<A>(alloc: Global, rows: &[Held<A>]) -> Result<Vec<Row>, NoMemory>
    ensures { IfOk result (λ keys. keys.items ≡ map held_key rows.now) }
{
    let mut keys = Vec::new(alloc);
    for row in rows {
        keys.push(key_of_row(row)?)?;
    }
    Ok(keys)
}

/// The keys of the rows of a version.
fn keys_at(alloc: Global, spans: &[&Span], version: u32) -> Result<Vec<Row>, NoMemory>
    ensures { IfOk result (λ keys. keys.items ≡ keys_of version (map (λ span. span.now) spans.now)) }
{
    let mut keys = Vec::new(alloc);
    for span in spans {
        if span.holds(version) {
            keys.push(key_of_span(span)?)?;
        }
    }
    Ok(keys)
}

/// Whether two lists of keys are equal.
fn are_equal(keys: &[Row], others: &[Row]) -> bool
    ensures { result ≡ is_eq (slice_cmp row_cmp keys.now others.now) }
{
    if keys.len() != others.len() {
        return false;
    }
    for (i, key) in keys.iter().enumerate() {
        if !is_same(key, &others[i]) {
            return false;
        }
    }
    true
}

/// Whether these rows are those of the version, each as often.
pub fn agree<A>(
    alloc: Global,
    rows: &[Held<A>],
    spans: &[&Span],
    version: u32,
) -> Result<bool, NoMemory>
    ensures { IfOk result (λ yes.
        yes ≡ keys_agree (map held_key rows.now)
        (keys_of version (map (λ span. span.now) spans.now))) }
{
    let parts = rows.split_at(first_marked(rows));
    if are_in_order(parts.0, parts.1, spans, version) {
        return Ok(true);
    }
    sorted_agree(alloc, rows, spans, version)
}

/// Sorts both, where they are not in one order as they are.
fn sorted_agree<A>(
    alloc: Global,
    rows: &[Held<A>],
    spans: &[&Span],
    version: u32,
) -> Result<bool, NoMemory>
    ensures { IfOk result (λ yes.
        yes ≡ keys_agree (map held_key rows.now)
        (keys_of version (map (λ span. span.now) spans.now))) }
{
    let mut keys = keys_in(alloc, rows)?;
    let mut due = keys_at(alloc, spans, version)?;
    sort_rows(&mut keys)?;
    sort_rows(&mut due)?;
    Ok(are_equal(keys.as_slice(), due.as_slice()))
}
