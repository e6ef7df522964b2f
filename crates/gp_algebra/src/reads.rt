//! The earlier steps that a query reads.

ghost use Rattle.std.specs.Prelude.{◌≡◌, ℕ, Bool, Option};
ghost use Rattle.gp_algebra.specs.PlainViews.{query_view};
ghost use Rattle.gp_algebra.specs.QueryViews.{annotated_view};
ghost use Rattle.gp_algebra.specs.Reads as r;

use crate::annotated::AQuery;
use crate::plain::PQuery;

/// A query of either algebra, by the earlier steps that it reads.
pub trait Reads {
    ghost reads_step: { ℕ → Self → Bool };

    ghost given_step: { Self → Option ℕ };

    /// Whether it reads step `j`.
    fn reads(&self, j: u32) -> bool
        ensures { result ≡ reads_step j self.now };

    /// The step whose rows it gives as they are.
    fn step(&self) -> Option<u32>
        ensures { result ≡ given_step self.now };
}

impl Reads for PQuery {
    ghost reads_step = { λ j query. r.reads j (query_view query) };

    ghost given_step = { λ query. r.step_of (query_view query) };

    fn reads(&self, j: u32) -> bool {
        match self {
            PQuery::Scan { .. } | PQuery::Values { .. } => false,
            PQuery::Step { j: other } => *other == j,
            PQuery::Filter { input, .. } | PQuery::Project { input, .. } => input.reads(j),
            PQuery::Product { left, right } | PQuery::Union { left, right } => {
                left.reads(j) || right.reads(j)
            }
            PQuery::Publish {
                base,
                mine,
                later,
                ..
            } => base.reads(j) || (mine.reads(j) || later.reads(j)),
        }
    }

    fn step(&self) -> Option<u32> {
        match self {
            PQuery::Step { j } => Some(*j),
            _ => None,
        }
    }
}

impl Reads for AQuery {
    ghost reads_step = { λ j query. r.annotated_reads j (annotated_view query) };

    ghost given_step = { λ query. r.annotated_step_of (annotated_view query) };

    fn reads(&self, j: u32) -> bool {
        match self {
            AQuery::Scan { .. } | AQuery::Values { .. } => false,
            AQuery::Step { j: other } => *other == j,
            AQuery::Filter { input, .. }
            | AQuery::Project { input, .. }
            | AQuery::NewRows { input, .. } => input.reads(j),
            AQuery::Product { left, right } | AQuery::Union { left, right } => {
                left.reads(j) || right.reads(j)
            }
            AQuery::Publish { base, mine, later } => {
                base.reads(j) || (mine.reads(j) || later.reads(j))
            }
        }
    }

    fn step(&self) -> Option<u32> {
        match self {
            AQuery::Step { j } => Some(*j),
            _ => None,
        }
    }
}
