//! The spans that hold a version.

ghost use Rattle.std.specs.Prelude.{◌≡◌, ◌++◌, slice_get};
ghost use Rattle.std.specs.Iterator.{YieldsFirstRef, item_count};
ghost use Rattle.std.specs.Option.{option_map};
ghost use Rattle.gp_versions.specs.Listed.{held, listed};
ghost use Rattle.gp_versions.specs.Spans.{spans_at};

use crate::span::Span;
use std::marker::Model;

/// Gives the spans that hold a version, in the order in which they began. Contracts see the list of those that it has
/// still to give: of the spans at some places, and then of others.
#[derive(Drop)]
pub struct AsOf<'a> {
    all: &'a [Span],
    places: &'a [u32],
    others: &'a [Span],
    v: u32,
}

impl<'a> Model for AsOf<'a> {
    ghost use Rattle.std.specs.Prelude.{List, ◌++◌};
    ghost use Rattle.std.specs.Coded.{coded_list};
    ghost use Rattle.gp_versions.specs.declared.span.Span.{Span};
    ghost use Rattle.gp_versions.specs.contracts.span.Span as span;
    ghost use Rattle.gp_versions.specs.Spans.{spans_at};
    ghost use Rattle.gp_versions.specs.Listed.{listed};

    ghost Value = { List Span };

    ghost coded = { coded_list span.the_row.coded };

    ghost view = { λ a. spans_at a.v (listed a.all.now a.places.now) ++ spans_at a.v a.others.now };
}

/// The span at a place, if there is one that holds the version.
fn held<'a>(spans: &'a [Span], place: u32, v: u32) -> Option<&'a Span>
    ensures { option_map (λ span. span.now) result ≡ held v (slice_get spans.now place) }
{
    match spans.get(place as usize) {
        Some(span) if span.holds(v) => Some(span),
        _ => None,
    }
}

impl<'a> AsOf<'a> {
    /// The spans that hold the version: those at these places, and then the others.
    pub(crate) fn new(all: &'a [Span], places: &'a [u32], others: &'a [Span], v: u32) -> AsOf<'a>
        ensures { result ≡ spans_at v (listed all.now places.now) ++ spans_at v others.now }
    {
        AsOf {
            all,
            places,
            others,
            v,
        }
    }
}

impl<'a> Iterator for AsOf<'a> {
    type Item = &'a Span;

    ghost next_gives = { YieldsFirstRef (λ spans. spans) };

    ghost remaining = { item_count (λ spans. spans) };

    fn next(&mut self) -> Option<&'a Span> {
        while let Some((place, places)) = self.places.split_first() {
            self.places = places;
            if let Some(span) = held(self.all, *place, self.v) {
                return Some(span);
            }
        }
        while let Some((span, others)) = self.others.split_first() {
            self.others = others;
            if span.holds(self.v) {
                return Some(span);
            }
        }
        None
    }
}
