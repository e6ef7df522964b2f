//! Sorting rows.

ghost use Rattle.std.specs.Prelude.{◌≡◌, OnOk, OnErr};
ghost use Rattle.std.specs.List.Sorted.{IsPermutation, IsSorted};
ghost use Rattle.gp_base.specs.Order.{row_cmp, sorted_by};

use crate::error::NoMemory;
use crate::row::Row;

/// Sorts the rows in ascending order, and keeps each of them as often as it occurs. If memory runs out, the rows are
/// unchanged.
pub fn sort_rows(rows: &mut Vec<Row>) -> Result<(), NoMemory>
    ensures permutation { IsPermutation rows.old.items rows.new.items }
    ensures sorted { OnOk result (IsSorted row_cmp rows.new.items) }
    ensures unique { OnOk result (rows.new.items ≡ sorted_by row_cmp rows.old.items) }
    ensures unchanged { OnErr result (rows.new.items ≡ rows.old.items) }
{
    rows.sort()?;
    Ok(())
}
