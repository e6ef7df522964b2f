//! A test of queries: whether they are simple.

ghost use Rattle.std.specs.Prelude.{◌≡◌, ◌^◌, length, nat_lt};
ghost use Rattle.std.specs.List.{list_all};
ghost use Rattle.std.specs.Option.{option_map};
ghost use Rattle.gp_algebra.specs.Simple as s;
ghost use Rattle.gp_algebra.specs.Views.{branch_view, select_view};
ghost use Rattle.gp_expr.specs.ExpressionForms.{is_simple};
ghost use Rattle.gp_expr.specs.Views.{cond_view, expr_view};

use crate::statement::{Branch, Select};
use gp_expr::{Cond, Expr, cond_is_simple, is_simple};

/// Whether the condition is simple, if there is one.
fn where_is_simple(cond: &Option<Cond>) -> bool
    ensures { result ≡ s.where_is_simple (option_map cond_view cond.now) }
{
    match cond {
        None => true,
        Some(cond) => cond_is_simple(cond),
    }
}

fn items_are_simple(items: &[Expr]) -> bool
    ensures { result ≡ list_all (λ item. is_simple (expr_view item)) items.now }
{
    items.iter().all(|item| is_simple(item))
}

/// Whether the items and the condition of a branch are simple.
#[tactic(auto, using(crate::proofs::SimpleLemmas::tests))]
fn branch_is_simple(branch: &Branch) -> bool
    ensures { result ≡ s.branch_is_simple (branch_view branch.now) }
{
    items_are_simple(branch.items.as_slice()) && where_is_simple(&branch.cond)
}

fn are_countable(branches: &[Branch]) -> bool
    ensures { result ≡ nat_lt (length branches.now) (2 ^ 32) }
{
    branches.len() < 0x1_0000_0000
}

fn branches_are_simple(branches: &[Branch]) -> bool
    ensures { result ≡ list_all (λ branch. s.branch_is_simple (branch_view branch)) branches.now }
{
    branches.iter().all(|branch| branch_is_simple(branch))
}

/// Whether every expression of a query is simple and its branches can be numbered by 32 bits. What the check of names and
/// types gives for a query that was read is simple, by [`fitting_queries_are_simple`](crate::fitting_queries_are_simple).
#[tactic(auto, using(crate::proofs::SimpleLemmas::tests))]
pub fn select_is_simple(select: &Select) -> bool
    ensures { result ≡ s.select_is_simple (select_view select.now) }
{
    let branches = select.branches.as_slice();
    are_countable(branches) && branches_are_simple(branches)
}
