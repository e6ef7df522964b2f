//! The spans of a table that hold its newest versions.

ghost use Rattle.std.specs.Prelude.{◌≡◌, ◌+◌, IfOk, List, OnOk, Some, slice_get};
ghost use Rattle.gp_versions.specs.declared.span.Span as declared;
ghost use Rattle.gp_versions.specs.Listed.{IsCurrent, IsWhere, end_or, greater, is_some_open, newest_end, open_places};
ghost use Rattle.gp_versions.specs.Spans.{spans_at};

use crate::as_of::AsOf;
use crate::span::Span;
use gp_base::NoMemory;
use std::alloc::Global;

/// How many places may be listed beyond twice those of open spans.
const SPARE_PLACES: usize = 64;

/// The places of the open spans of a table, in order, so that the rows of its newest versions are found without a pass over
/// those that ended. The first spans of the table are covered, one after another. A commit ends spans and appends others, and
/// neither changes the list: a listed span that has ended is skipped by a walk, and is dropped from the list once half of the
/// list may have ended. The rows of a version below an end that the list does not have are found by a pass over all spans.
#[derive(Drop)]
pub struct Current {
    // The places of covered spans: all that have not ended, and some that have.
    places: Vec<u32>,
    // How many spans are covered.
    covered: usize,
    // No span that is covered and not listed holds this version or a later one.
    floor: u32,
    // How many places may be listed before those of ended spans are dropped.
    most: usize,
}

/// The greater of two versions.
fn greater(version: u32, other: u32) -> u32
    ensures { result ≡ greater version other }
{
    if version < other { other } else { version }
}

/// The greater of this version and the end of the span at a place, if it has ended.
fn end_or(floor: u32, spans: &[Span], place: u32) -> u32
    ensures { result ≡ end_or floor (slice_get spans.now place) }
{
    match spans.get(place as usize) {
        Some(Span { to: Some(to), .. }) => greater(floor, *to),
        _ => floor,
    }
}

/// The greatest of this version and the ends of the spans at the places.
fn newest_end(mut floor: u32, spans: &[Span], places: &[u32]) -> u32
    ensures { result ≡ newest_end floor spans.now places.now }
{
    for place in places {
        floor = end_or(floor, spans, *place);
    }
    floor
}

/// Whether there is an open span at the place.
fn is_open_at(spans: &[Span], place: u32) -> bool
    ensures { result ≡ is_some_open (slice_get spans.now place) }
{
    match spans.get(place as usize) {
        Some(Span { to: None, .. }) => true,
        _ => false,
    }
}

/// Those of the places where the spans are open.
fn open_places(alloc: Global, spans: &[Span], places: &[u32]) -> Result<Vec<u32>, NoMemory>
    ensures { IfOk result (λ open_ones. open_ones.items ≡ open_places spans.now places.now) }
{
    let mut open_ones = Vec::new(alloc);
    for place in places {
        if is_open_at(spans, *place) {
            open_ones.push(*place)?;
        }
    }
    Ok(open_ones)
}

impl Current {
    /// No spans are covered, which takes no memory.
    pub fn new(alloc: Global) -> Current
        ensures { (spans : List declared.Span) → IsCurrent result spans }
    {
        Current {
            places: Vec::new(alloc),
            covered: 0,
            floor: 0,
            most: SPARE_PLACES,
        }
    }

    /// Covers the next span. If memory runs out, it is not covered.
    fn cover_next(&mut self, span: &Span) -> Result<(), NoMemory>
        ensures one { OnOk result (self.new.covered ≡ self.old.covered + 1) }
        ensures current { (spans : List declared.Span)
            → slice_get spans self.old.covered ≡ Some span.now
            → IsCurrent self.old spans → IsCurrent self.new spans }
    {
        let Ok(place) = u32::try_from(self.covered) else {
            return Err(NoMemory);
        };
        match span.to {
            None => {
                self.places.push(place)?;
                self.covered += 1;
                Ok(())
            }
            Some(to) => {
                self.floor = greater(self.floor, to);
                self.covered += 1;
                Ok(())
            }
        }
    }

    /// Drops the places of spans that have ended, if half of the list may have.
    fn drop_ended(&mut self, spans: &[Span]) -> Result<(), NoMemory>
        requires current { IsCurrent self.old spans.now }
        ensures current { IsCurrent self.new spans.now }
    {
        if self.places.len() <= self.most {
            return Ok(());
        }
        let places = open_places(*self.places.allocator(), spans, &self.places)?;
        self.floor = newest_end(self.floor, spans, &self.places);
        self.most = places.len().saturating_mul(2).saturating_add(SPARE_PLACES);
        self.places = places;
        Ok(())
    }

    /// Covers the spans that are not yet covered. If memory runs out, some of them are. Places that 32 bits cannot number
    /// run out of memory.
    pub fn cover(&mut self, spans: &[Span]) -> Result<(), NoMemory>
        requires current { IsCurrent self.old spans.now }
        ensures current { IsCurrent self.new spans.now }
    {
        while self.covered < spans.len() {
            let place = self.covered;
            self.cover_next(&spans[place])?;
        }
        self.drop_ended(spans)?;
        Ok(())
    }

    /// Where the spans that hold the version are: among those at these places, and from this one on.
    pub fn listed_for(&self, v: u32) -> (&[u32], usize)
        ensures { (spans : List declared.Span) → IsCurrent self.now spans
            → IsWhere result.0.now result.1 v spans }
    {
        if self.floor <= v {
            (&self.places, self.covered)
        } else {
            (&[], 0)
        }
    }

    /// The spans that hold the version, in order.
    pub fn as_of<'a>(&'a self, spans: &'a [Span], v: u32) -> AsOf<'a>
        requires current { IsCurrent self.now spans.now }
        ensures { result ≡ spans_at v spans.now }
    {
        if self.floor <= v {
            AsOf::new(spans, &self.places, &spans[self.covered..], v)
        } else {
            AsOf::new(spans, &[], spans, v)
        }
    }
}
