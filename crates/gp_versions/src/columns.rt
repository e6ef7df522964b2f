//! Indexes of the columns of a table.

ghost use Rattle.std.specs.Prelude.{◌≡◌, true, IfOk, IfSome, IsSomeAnd, OnOk, slice_get};
ghost use Rattle.gp_versions.specs.Chains.{AreIndexes, IsIndex};
ghost use Rattle.gp_versions.specs.Finding.{AreAmong, HasCell};
ghost use Rattle.gp_versions.specs.Places.{places_with};

use crate::chains::Chains;
use crate::key::{By, key_of_cell};
use crate::places::{InColumn, Sought, push_from};
use crate::span::Span;
use gp_base::{Cell, NoMemory};
use std::alloc::Global;

/// The places of spans by their cells in a column. A commit leaves the index as it is: a span never changes its row, and
/// whether it holds a version is seen in the span.
#[derive(Drop)]
pub struct ColumnIndex {
    column: u32,
    chains: Chains,
}

/// The place of the index of the column, if there is one.
fn index_of(indexes: &[ColumnIndex], column: u32) -> Option<usize>
    ensures { IfSome result (λ place.
        IsSomeAnd (slice_get indexes.now place) (λ index. index.column ≡ column)) }
{
    for place in 0..indexes.len() {
        if indexes[place].column == column {
            return Some(place);
        }
    }
    None
}

/// Enters the spans that are not yet entered in the index of the column. The first call for a column only makes an empty
/// index, as a single look-up is not worth more. If memory runs out, some of the spans are entered. Places that 32 bits
/// cannot number run out of memory.
pub fn enter_column(
    indexes: &mut Vec<ColumnIndex>,
    spans: &[Span],
    column: u32,
) -> Result<(), NoMemory>
    requires { AreIndexes indexes.old.items spans.now }
    ensures { AreIndexes indexes.new.items spans.now }
{
    let Some(place) = index_of(indexes, column) else {
        let alloc = *indexes.allocator();
        indexes.push(ColumnIndex {
            column,
            chains: Chains::new(alloc),
        })?;
        return Ok(());
    };
    indexes[place].chains.enter(By::Column(column), spans)
}

impl ColumnIndex {
    /// The places of the spans that hold the version and have the cell in the column of the index, ascending. None if more
    /// spans than these would have to be looked at.
    fn places(
        &self,
        alloc: Global,
        spans: &[Span],
        cell: &Cell,
        v: u32,
        most: usize,
    ) -> Result<Option<Vec<u32>>, NoMemory>
        requires { IsIndex spans.now self.now }
        ensures { IfOk result (λ found. IfSome found
            (λ places. places.items ≡ places_with v self.now.column cell.now spans.now)) }
    {
        let others = spans.len() - self.chains.len();
        if most <= others {
            return Ok(None);
        }
        let own = InColumn {
            column: self.column,
            cell,
        };
        let Some(mut places) = self.chains.places(alloc, spans, own, v, most - others)? else {
            return Ok(None);
        };
        push_from(
            &mut places,
            spans,
            self.chains.len(),
            &Sought { v, own: Some(own) },
        )?;
        Ok(Some(places))
    }
}

/// The places of the spans that hold the version and have the cell in the column, ascending. None if no index has the
/// column, or more spans than these would have to be looked at.
pub fn places_with(
    alloc: Global,
    indexes: &[ColumnIndex],
    spans: &[Span],
    own: InColumn<'_>,
    v: u32,
    most: usize,
) -> Result<Option<Vec<u32>>, NoMemory>
    requires { AreIndexes indexes.now spans.now }
    ensures { IfOk result (λ found. IfSome found
        (λ places. places.items ≡ places_with v own.entry.column own.entry.cell.now spans.now)) }
{
    let Some(place) = index_of(indexes, own.column) else {
        return Ok(None);
    };
    indexes[place].places(alloc, spans, own.cell, v, most)
}

/// Appends the places of the spans that have the cell in the column. False if no index of the column has all spans, or there
/// are more places than these then.
pub fn push_with(
    indexes: &[ColumnIndex],
    spans: &[Span],
    found: &mut Vec<u32>,
    own: InColumn<'_>,
    most: usize,
) -> Result<bool, NoMemory>
    requires { AreIndexes indexes.now spans.now }
    ensures kept { OnOk result (AreAmong found.old.items found.new.items) }
    ensures all { IfOk result (λ all. all ≡ true
        → HasCell own.entry.column own.entry.cell.now spans.now found.new.items) }
{
    let Some(place) = index_of(indexes, own.column) else {
        return Ok(false);
    };
    let index = &indexes[place];
    if index.chains.len() < spans.len() {
        return Ok(false);
    }
    let key = key_of_cell(own.cell.as_ref());
    Ok(index.chains.push_places(found, key, most)?)
}
