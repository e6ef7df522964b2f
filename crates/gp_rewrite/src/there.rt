//! A law of queries that fit a catalogue.

ghost use Rattle.std.specs.Prelude.{◌≡◌, true, List, length};
ghost use Rattle.gp_base.specs.declared.table.Table.{Table};
ghost use Rattle.gp_algebra.specs.Fitting.{select_fits};
ghost use Rattle.gp_algebra.specs.Statements.{Select};
ghost use Rattle.gp_rewrite.specs.Meaning.{select_is_there};

/// A query that fits a catalogue can be rewritten by [`query`](crate::query): it has a branch, each branch has a table, and
/// the catalogue has them all.
pub fn fitting_selects_are_there()
    ensures { (catalogue : List Table) (select : Select) → select_fits catalogue select ≡ true
        → select_is_there (length catalogue) select ≡ true }
{}
