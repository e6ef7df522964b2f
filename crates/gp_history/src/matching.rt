//! Computed rows and the row versions of a commit in one pass, where both stand in one order.
//!
//! A commit publishes the rows of the version before that it did not write, and then those that it wrote. Where row versions are
//! in the order of their identities, as a dump has them, each of the two parts is so too, and each row version is that of the first
//! row that is left of one of them. No row is copied then, and none is sorted. Where it is not so, nothing is known.

ghost use Rattle.std.specs.Prelude.{◌≡◌, ◌<◌, ◌≤◌, ◌++◌, ◌∷◌, true, drop, length, map, suc};
ghost use Rattle.std.specs.List.Sorted.{IsPermutation};
ghost use Rattle.std.specs.Ordering.{is_eq};
ghost use Rattle.gp_base.specs.Identities.{identity_cmp};
ghost use Rattle.gp_base.specs.Order.{row_cmp};
ghost use Rattle.gp_versions.specs.Spans.{holds_at};
ghost use Rattle.gp_history.specs.Matching.{TakesRow, keys_of, span_key};
ghost use Rattle.gp_history.specs.Noted.{held_key};

use gp_base::{Row, RowId};
use gp_kexec::Held;
use gp_versions::Span;
use std::cmp::Ordering;

/// How many rows of each part were taken.
#[derive(Clone, Copy)]
pub struct Places {
    /// Of those that the commit did not write.
    pub kept: usize,
    /// Of those that it wrote.
    pub written: usize,
}

/// Whether two rows are equal.
pub fn is_same(row: &Row, other: &Row) -> bool
    ensures { result ≡ is_eq (row_cmp row.now other.now) }
{
    row.cmp(other) == Ordering::Equal
}

/// Whether two identities are equal.
fn is_same_id(id: &RowId, other: &RowId) -> bool
    ensures { result ≡ is_eq (identity_cmp id.now other.now) }
{
    id.cmp(other) == Ordering::Equal
}

/// Whether a row has the cells and the identity of the span.
fn is_row_of<A>(row: &Held<A>, span: &Span) -> bool
    ensures { result ≡ true → held_key row.now ≡ span_key span.now }
{
    if is_same_id(&row.id, &span.id) {
        is_same(&row.cells, &span.row)
    } else {
        false
    }
}

/// Whether the first row that is left is that of the span.
fn is_next<A>(rows: &[Held<A>], at: usize, span: &Span) -> bool
    ensures within { result ≡ true → at < length rows.now }
    ensures row { result ≡ true → map held_key (drop at rows.now)
        ≡ span_key span.now ∷ map held_key (drop (suc at) rows.now) }
{
    if at < rows.len() {
        is_row_of(&rows[at], span)
    } else {
        false
    }
}

/// The places behind the row of a span that the version has, if it is the first row that is left of one of the parts.
fn take_held<A>(
    kept: &[Held<A>],
    written: &[Held<A>],
    at: Places,
    span: &Span,
    version: u32,
) -> Option<Places>
    requires { holds_at version span.now ≡ true }
    ensures { TakesRow kept.now written.now at version span.now result }
{
    if is_next(kept, at.kept, span) {
        return Some(Places {
            kept: at.kept + 1,
            written: at.written,
        });
    }
    if is_next(written, at.written, span) {
        return Some(Places {
            kept: at.kept,
            written: at.written + 1,
        });
    }
    None
}

/// The places behind the row of the span, if the version has it.
fn take_row<A>(
    kept: &[Held<A>],
    written: &[Held<A>],
    at: Places,
    span: &Span,
    version: u32,
) -> Option<Places>
    ensures { TakesRow kept.now written.now at version span.now result }
{
    if span.holds(version) {
        take_held(kept, written, at, span, version)
    } else {
        Some(at)
    }
}

/// Whether these rows, in two parts, are those of the version, as far as one pass shows it.
pub fn are_in_order<A>(kept: &[Held<A>], written: &[Held<A>], spans: &[&Span], version: u32) -> bool
    ensures { result ≡ true → IsPermutation (map held_key kept.now ++ map held_key written.now)
        (keys_of version (map (λ span. span.now) spans.now)) }
{
    let mut at = Places {
        kept: 0,
        written: 0,
    };
    for span in spans {
        at = match take_row(kept, written, at, span, version) {
            Some(next) => next,
            None => return false,
        };
    }
    if at.kept < kept.len() {
        return false;
    }
    if at.written < written.len() {
        return false;
    }
    true
}

/// The place of the first row that the transaction wrote, or behind the last row.
pub fn first_marked<A>(rows: &[Held<A>]) -> usize
    ensures { result ≤ length rows.now }
{
    for (i, row) in rows.iter().enumerate() {
        if row.is_marked {
            return i;
        }
    }
    rows.len()
}
