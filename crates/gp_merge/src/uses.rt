//! How often steps are used.

ghost use Rattle.std.specs.Prelude.{◌≡◌, map};
ghost use Rattle.gp_expr.specs.SizeForms.{up_to_greatest};
ghost use Rattle.gp_algebra.specs.PlainViews.{query_view, step_view};
ghost use Rattle.gp_merge.specs.Merging as m;
ghost use Rattle.gp_merge.specs.Planning as p;

use gp_algebra::{PQuery, PStep};

/// How often a query reads step `j`, or the greatest u64 if it does more often.
pub(crate) fn uses(query: &PQuery, j: u32) -> u64
    ensures { result ≡ up_to_greatest (m.uses j (query_view query.now)) }
{
    match query {
        PQuery::Scan { .. } | PQuery::Values { .. } => 0,
        PQuery::Step { j: other } => { if *other == j { 1 } else { 0 } }
        PQuery::Filter { input, .. } | PQuery::Project { input, .. } => uses(input, j),
        PQuery::Product { left, right } | PQuery::Union { left, right } => {
            uses(left, j).saturating_add(uses(right, j))
        }
        PQuery::Publish {
            base,
            mine,
            later,
            ..
        } => uses(base, j).saturating_add(uses(mine, j).saturating_add(uses(later, j))),
    }
}

/// How often the queries of steps read step `j`, or the greatest u64 if they do more often.
pub(crate) fn steps_uses(steps: &[&PStep], j: u32) -> u64
    ensures { result ≡ up_to_greatest (p.steps_uses j
        (map (λ step. step_view step.now) steps.now)) }
{
    let mut total: u64 = 0;
    for step in steps {
        total = total.saturating_add(uses(&step.query, j));
    }
    total
}
