//! Updates and deletes.

ghost use Rattle.std.specs.Prelude.{◌≡◌};
ghost use Rattle.gp_expr.specs.Views.{cond_view};
ghost use Rattle.gp_txn.specs.Changes.{change_view, cond_of};

use gp_algebra::SetExpr;
use gp_expr::Cond;

/// What an UPDATE or a DELETE does to the rows of its table.
#[derive(Clone, Copy)]
pub enum Change<'a> {
    /// It assigns to columns of the rows that pass the condition.
    Update(&'a [SetExpr], &'a Cond),
    /// It deletes the rows that pass the condition.
    Delete(&'a Cond),
}

impl<'a> Change<'a> {
    /// The condition of the rows that it writes.
    pub fn cond(&self) -> &'a Cond
        ensures { cond_view result.now ≡ cond_of (change_view self.now) }
    {
        match self {
            Change::Update(_, cond) | Change::Delete(cond) => cond,
        }
    }
}
