//! Later writes of a row.

ghost use Rattle.std.specs.Prelude.{◌≡◌};
ghost use Rattle.gp_base.specs.Identities.{same_identity};
ghost use Rattle.gp_versions.specs.TableSpans.{later, later_end, least, written_after};

use crate::span::Span;
use gp_base::RowId;

/// Whether the identities are equal.
pub fn is_same(id: &RowId, other: &RowId) -> bool
    ensures { result ≡ same_identity id.now other.now }
{
    id == other
}

/// The lesser of two versions, where there are any.
pub fn lesser(left: Option<u32>, right: Option<u32>) -> Option<u32>
    ensures { result ≡ least left right }
{
    match (left, right) {
        (None, other) => other,
        (Some(version), None) => Some(version),
        (Some(version), Some(other)) => Some(if version <= other { version } else { other }),
    }
}

/// The least version above v at which the span begins or ends.
pub fn changed_after(span: &Span, v: u32) -> Option<u32>
    ensures { result ≡ least (later v span.now.from) (later_end v span.now.to) }
{
    let from = if v < span.from { Some(span.from) } else { None };
    let to = match span.to {
        Some(to) if v < to => Some(to),
        _ => None,
    };
    lesser(from, to)
}

/// The least version above v at which a span of the identity begins or ends.
pub fn written_after(spans: &[Span], id: &RowId, v: u32) -> Option<u32>
    ensures { result ≡ written_after id.now v spans.now }
{
    let mut found = None;
    for span in spans {
        if is_same(&span.id, id) {
            found = lesser(found, changed_after(span, v));
        }
    }
    found
}
