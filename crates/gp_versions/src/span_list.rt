//! The spans of a table, for those that read versions of it.

ghost use Rattle.std.specs.Prelude.{◌≡◌, ◌<◌, ◌^◌, [], IfOk, IfSome, length, slice_get};
ghost use Rattle.std.specs.Option.{option_map};
ghost use Rattle.gp_versions.specs.Chains.{AreIndexes};
ghost use Rattle.gp_versions.specs.Listed.{IsCurrent, IsWhere};
ghost use Rattle.gp_versions.specs.Places.{places_at, places_with};
ghost use Rattle.gp_versions.specs.Spans.{spans_at};

use crate::as_of::AsOf;
use crate::columns::{ColumnIndex, places_with};
use crate::current::Current;
use crate::places::{InColumn, Sought, push_from, push_listed};
use crate::span::Span;
use gp_base::{Cell, NoMemory};
use std::alloc::Global;
use std::marker::Model;

/// The spans of a table, among which those that hold its newest versions are listed, and others are found by indexes of
/// columns. Contracts see the list of all spans.
#[derive(Drop)]
pub struct SpanList<'a> {
    spans: &'a [Span],
    // None where nothing is listed.
    current: Option<&'a Current>,
    indexes: &'a [ColumnIndex],
}

impl<'a> Model for SpanList<'a> {
    ghost use Rattle.std.specs.Prelude.{IfSome, List};
    ghost use Rattle.std.specs.Coded.{coded_list};
    ghost use Rattle.gp_versions.specs.declared.span.Span.{Span};
    ghost use Rattle.gp_versions.specs.contracts.span.Span as span;
    ghost use Rattle.gp_versions.specs.Chains.{AreIndexes};
    ghost use Rattle.gp_versions.specs.Listed.{IsCurrent};

    ghost Value = { List Span };

    ghost coded = { coded_list span.the_row.coded };

    ghost view = { λ a. a.spans.now };

    ghost invariant = { λ a. IfSome a.current (λ current. IsCurrent current.now a.spans.now)
        × AreIndexes a.indexes.now a.spans.now };
}

impl<'a> SpanList<'a> {
    /// No spans.
    pub fn new() -> SpanList<'a>
        ensures { result ≡ [] }
    {
        SpanList {
            spans: &[],
            current: None,
            indexes: &[],
        }
    }

    /// These spans, of which some are listed, and some are in indexes.
    pub(crate) fn of(
        spans: &'a [Span],
        current: &'a Current,
        indexes: &'a [ColumnIndex],
    ) -> SpanList<'a>
        requires current { IsCurrent current.now spans.now }
        requires indexes { AreIndexes indexes.now spans.now }
        ensures { result ≡ spans.now }
    {
        SpanList {
            spans,
            current: Some(current),
            indexes,
        }
    }

    /// The span at a place, if there is one.
    pub fn get(&self, place: u32) -> Option<&'a Span>
        ensures { option_map (λ span. span.now) result ≡ slice_get self.now place }
    {
        self.spans.get(place as usize)
    }

    /// Where the spans that hold the version are: among those at these places, and from this one on.
    fn listed_for(&self, v: u32) -> (&'a [u32], usize)
        ensures { IsWhere result.0.now result.1 v self.now }
    {
        match self.current {
            None => (&[], 0),
            Some(current) => current.listed_for(v),
        }
    }

    /// How many spans a pass over those of the version looks at.
    fn pass_len(&self, v: u32) -> usize {
        let (listed, from) = self.listed_for(v);
        listed
            .len()
            .saturating_add(self.spans.len().saturating_sub(from))
    }

    /// The places of the spans that hold the version, ascending. Places that 32 bits cannot number run out of memory.
    pub fn places(&self, alloc: Global, v: u32) -> Result<Vec<u32>, NoMemory>
        ensures { IfOk result (λ places. places.items ≡ places_at v self.now) }
    {
        let (listed, from) = self.listed_for(v);
        let sought = Sought { v, own: None };
        let mut places = Vec::with_capacity(alloc, self.pass_len(v))?;
        push_listed(&mut places, self.spans, listed, &sought)?;
        push_from(&mut places, self.spans, from, &sought)?;
        Ok(places)
    }

    /// The places of the spans that hold the version and have the cell in the column, ascending, or None where no index finds
    /// them, or not with less work than a pass over the spans of the version. Columns count from 1.
    pub fn places_with(
        &self,
        alloc: Global,
        column: u32,
        cell: &Cell,
        v: u32,
    ) -> Result<Option<Vec<u32>>, NoMemory>
        ensures { IfOk result
            (λ found. IfSome found (λ places. places.items ≡ places_with v column cell.now self.now)) }
    {
        let own = InColumn { column, cell };
        places_with(alloc, self.indexes, self.spans, own, v, self.pass_len(v))
    }

    /// The spans that hold the version, in the order in which they began.
    pub fn as_of(&self, v: u32) -> AsOf<'a>
        ensures spans { result ≡ spans_at v self.now }
        ensures few { length result < 2 ^ 60 }
    {
        match self.current {
            None => AsOf::new(self.spans, &[], self.spans, v),
            Some(current) => current.as_of(self.spans, v),
        }
    }
}
