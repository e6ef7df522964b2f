//! Laws of the definitions that contracts cite. Each function does nothing: its postconditions are the laws.

ghost use Rattle.std.specs.Prelude.{◌≡◌, ℕ, ◌<◌, ◌≤◌, List, Some, IfSome, IsSomeAnd};
ghost use Rattle.std.specs.List.{AllByRecursion};
ghost use Rattle.gp_base.specs.Identities.{Identity};
ghost use Rattle.gp_versions.specs.declared.span.Span.{Span};
ghost use Rattle.gp_versions.specs.Spans.{spans_at};
ghost use Rattle.gp_versions.specs.TableSpans.{AreOfDifferentRows, AreWhole, IsChanged, NoOverlap, written_after};

/// A version has at most one row of an identity.
pub fn a_version_has_one_row_of_an_identity()
    ensures different { (v : ℕ) (spans : List Span)
        → NoOverlap spans → AreOfDifferentRows (spans_at v spans) }
{}

/// `written_after` is above v, a span of the identity begins or ends there, and none begins or ends before it and above v.
pub fn written_after_is_the_least()
    ensures above { (id : Identity) (v : ℕ) (spans : List Span)
        → IfSome (written_after id v spans) (λ version. v < version) }
    ensures changed { (id : Identity) (v : ℕ) (spans : List Span)
        → IfSome (written_after id v spans) (λ version. IsChanged id version spans) }
    ensures least { (id : Identity) (v other : ℕ) (spans : List Span)
        → v < other → IsChanged id other spans
        → IsSomeAnd (written_after id v spans) (λ version. version ≤ other) }
{}

/// A span that holds a version ends where its row is written next.
pub fn a_span_ends_at_the_next_write()
    ensures next { (v : ℕ) (spans : List Span) → NoOverlap spans → AreWhole spans
        → AllByRecursion (λ (span : Span). written_after span.id v spans ≡ span.to)
        (spans_at v spans) }
{}
