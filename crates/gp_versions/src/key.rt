//! Keys of identities, cells, versions and transactions, by which a table finds its spans.

ghost use Rattle.std.specs.Prelude.{◌≡◌};
ghost use Rattle.std.specs.List.{fold};
ghost use Rattle.gp_base.specs.CellForms.{cell_view};
ghost use Rattle.gp_base.specs.IdentityForms.{sources_of};
ghost use Rattle.gp_versions.specs.Keys.{folded_cell, folded_over, folded_over_all, key_by, key_of, key_of_cell, key_of_end, key_of_number, mixed};

use crate::places::cell_at;
use crate::span::Span;
use gp_base::{CellRef, RowId};

/// The factor of each step of a fold: 2^64 divided by the golden ratio, as in Fibonacci hashing.
const FACTOR: u64 = 0x9E37_79B9_7F4A_7C15;

/// What an identity is looked up by: its own numbers, and one folded from all numbers in it. A key is made without memory,
/// which a copy of the identity would take. Equal identities have equal keys. Different ones may have them too, as those do
/// that differ only in how their sources nest. The key of a cell has only the folded number.
#[derive(Clone, Copy, PartialEq, Eq, Hash)]
pub struct Key {
    t: u32,
    k: u32,
    n: u32,
    // All numbers, those of the sources too.
    folded: u64,
}

/// What spans are looked up by.
#[derive(Clone, Copy)]
pub enum By {
    /// Their identities.
    Identity,
    /// Their cells in this column. Columns count from 1.
    Column(u32),
    /// The versions at which they begin.
    Begin,
    /// The versions at which they end. Open spans have the number 0, at which none ends.
    End,
    /// The transactions that inserted their rows.
    Transaction,
}

/// One step of a fold.
fn mix(folded: u64, number: u32) -> u64
    ensures { result ≡ mixed folded number }
{
    folded.wrapping_mul(FACTOR).wrapping_add(number as u64)
}

/// Folds the numbers of an identity, in order.
#[cycle(fold)]
fn fold_id(folded: u64, id: &RowId) -> u64
    ensures { result ≡ folded_over folded id.now }
{
    let own = mix(mix(mix(folded, id.t()), id.k()), id.n());
    fold_all(own, id.sources())
}

/// Folds the numbers of identities, in order.
#[cycle(fold)]
fn fold_all(folded: u64, ids: &[RowId]) -> u64
    ensures { result ≡ folded_over_all folded (sources_of ids.now) }
{
    match ids {
        [] => folded,
        [first, others @ ..] => fold_all(fold_id(folded, first), others),
    }
}

/// The key of an identity.
pub fn key_of(id: &RowId) -> Key
    ensures { result ≡ key_of id.now }
{
    Key {
        t: id.t(),
        k: id.k(),
        n: id.n(),
        folded: fold_id(0, id),
    }
}

/// Folds the bytes of a text.
fn fold_bytes(bytes: &[u8]) -> u64
    ensures { result ≡ fold mixed 0 bytes.now }
{
    let mut folded = 0;
    for byte in bytes {
        folded = mix(folded, *byte as u32);
    }
    folded
}

/// The number of a cell, without its sign, or the one that is folded from the bytes of its text.
fn fold_cell(cell: CellRef<'_>) -> u64
    ensures { result ≡ folded_cell (cell_view cell.entry) }
{
    match cell {
        CellRef::Int(number) => number.unsigned_abs(),
        CellRef::Text(text) => fold_bytes(text.as_bytes()),
        _ => 0,
    }
}

/// The key of a cell.
pub fn key_of_cell(cell: CellRef<'_>) -> Key
    ensures { result ≡ key_of_cell (cell_view cell.entry) }
{
    Key {
        t: 0,
        k: 0,
        n: 0,
        folded: fold_cell(cell),
    }
}

/// The key of a version, or of a transaction.
pub fn key_of_number(number: u32) -> Key
    ensures { result ≡ key_of_number number }
{
    Key {
        t: number,
        k: 0,
        n: 0,
        folded: 0,
    }
}

/// The key of the end of a span.
fn key_of_end(to: Option<u32>) -> Key
    ensures { result ≡ key_of_end to }
{
    match to {
        Some(to) => key_of_number(to),
        None => key_of_number(0),
    }
}

/// The key of a span.
pub fn key_by(by: By, span: &Span) -> Key
    ensures { result ≡ key_by by span.now }
{
    match by {
        By::Identity => key_of(&span.id),
        By::Column(column) => key_of_cell(cell_at(&span.row, column)),
        By::Begin => key_of_number(span.from),
        By::End => key_of_end(span.to),
        By::Transaction => key_of_number(span.id.t()),
    }
}
