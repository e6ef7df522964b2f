//! The spans of a table in order of identity.

ghost use Rattle.std.specs.Prelude.{◌≡◌, IfOk, OnOk, length, slice_get};
ghost use Rattle.std.specs.List.{range_with_len};
ghost use Rattle.std.specs.List.Sorted.{IsPermutation, IsSortedByKey};
ghost use Rattle.std.specs.Option.{option_cmp};
ghost use Rattle.gp_versions.specs.Spans.{span_cmp};

use crate::span::Span;
use gp_base::NoMemory;
use std::alloc::Global;
use std::cmp::Ordering;

/// The order of spans: by identity, then by the version at which they begin.
fn compare(span: &Span, other: &Span) -> Ordering
    ensures { result ≡ span_cmp span.now other.now }
{
    match span.id.compare(&other.id) {
        Ordering::Equal => span.from.cmp(&other.from),
        by_identity => by_identity,
    }
}

/// The order of the spans at two places. A place without a span is first.
fn compare_at(spans: &[Span], place: u32, other: u32) -> Ordering
    ensures { result
        ≡ option_cmp span_cmp (slice_get spans.now place) (slice_get spans.now other) }
{
    match (spans.get(place as usize), spans.get(other as usize)) {
        (None, None) => Ordering::Equal,
        (None, Some(_)) => Ordering::Less,
        (Some(_), None) => Ordering::Greater,
        (Some(span), Some(other)) => compare(span, other),
    }
}

/// The numbers below this one, in order.
fn numbers_below(alloc: Global, count: u32) -> Result<Vec<u32>, NoMemory>
    ensures { IfOk result (λ numbers. numbers.items ≡ range_with_len 0 count) }
{
    let mut numbers = Vec::with_capacity(alloc, count as usize)?;
    for number in 0..count {
        numbers.push(number)?;
    }
    Ok(numbers)
}

/// Sorts places by the spans there.
fn sort_places(spans: &[Span], places: &mut Vec<u32>) -> Result<(), NoMemory>
    ensures permutation { IsPermutation places.old.items places.new.items }
    ensures sorted { OnOk result
        (IsSortedByKey (slice_get spans.now) (option_cmp span_cmp) places.new.items) }
{
    places.sort_by(|place, other| compare_at(spans, *place, *other))?;
    Ok(())
}

/// The places of the spans, in order of identity, and for one identity in order of their beginning. Places that 32 bits
/// cannot number run out of memory.
pub fn sorted_places(alloc: Global, spans: &[Span]) -> Result<Vec<u32>, NoMemory>
    ensures permutation { IfOk result
        (λ places. IsPermutation (range_with_len 0 (length spans.now)) places.items) }
    ensures sorted { IfOk result
        (λ places. IsSortedByKey (slice_get spans.now) (option_cmp span_cmp) places.items) }
{
    let Ok(count) = u32::try_from(spans.len()) else {
        return Err(NoMemory);
    };
    let mut places = numbers_below(alloc, count)?;
    sort_places(spans, &mut places)?;
    Ok(places)
}
