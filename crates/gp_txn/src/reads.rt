//! The tables and rows that a query reads.

ghost use Rattle.std.specs.Prelude.{◌≡◌};
ghost use Rattle.std.specs.Option.{option_map};
ghost use Rattle.gp_expr.specs.Views.{cond_view};
ghost use Rattle.gp_algebra.specs.Views.{select_view};
ghost use Rattle.gp_txn.specs.Inserting.{names_table, reads_table};
ghost use Rattle.gp_txn.specs.Wanted.{row_where};

use gp_algebra::Select;
use gp_expr::Cond;

/// Whether the table is among those of a FROM.
fn names_table(from: &[u32], table: u32) -> bool
    ensures { result ≡ names_table table from.now }
{
    for place in from {
        if *place == table {
            return true;
        }
    }
    false
}

/// Whether a query reads the table.
pub fn reads_table(select: &Select, table: u32) -> bool
    ensures { result ≡ reads_table table (select_view select.now) }
{
    for branch in select.branches.as_slice() {
        if names_table(branch.from.as_slice(), table) {
            return true;
        }
    }
    false
}

/// The condition that each row has to pass that the query wants: that of a query of one table. In other queries a row is
/// tested together with rows of other tables or under several conditions, so they want all rows of their tables.
pub fn row_where(select: &Select) -> Option<&Cond>
    ensures { option_map (λ c. cond_view c.now) result ≡ row_where (select_view select.now) }
{
    match select.branches.as_slice() {
        [branch] if branch.from.as_slice().len() == 1 => branch.cond.as_ref(),
        _ => None,
    }
}
