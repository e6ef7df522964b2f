//! Which identities a transaction has written, by the identities and the marks of rows.

ghost use Rattle.std.specs.Prelude.{◌≡◌, ◌&&◌, not, true, IfOk, OnOk};
ghost use Rattle.std.specs.List.{list_any};
ghost use Rattle.gp_base.specs.Identities.{Identity, same_identity};
ghost use Rattle.gp_exec.specs.Publishing.{AddsKeys, has_key, has_written, leaves_out, lists, lists_marked};

use gp_base::{NoMemory, RowId};
use std::alloc::Global;
use std::collections::BTreeSet;

/// The identity of a row, and whether the transaction wrote it.
#[derive(Clone, Copy)]
pub struct RowMark<'a> {
    /// The identity.
    pub id: &'a RowId,
    /// Whether the row is marked.
    pub is_marked: bool,
}

/// Adds an identity, if it is wanted.
fn add(ids: &mut BTreeSet<RowId>, id: &RowId, is_wanted: bool) -> Result<(), NoMemory>
    ensures { OnOk result (AddsKeys ids.old ids.new
        (λ other. is_wanted && same_identity id.now other)) }
{
    if !is_wanted {
        return Ok(());
    }
    ids.insert(id.clone()?)?;
    Ok(())
}

/// The identities of these rows.
fn ids_of(alloc: Global, rows: &[RowMark<'_>]) -> Result<BTreeSet<RowId>, NoMemory>
    ensures { IfOk result (λ ids. (id : Identity) → has_key ids id ≡ lists rows.now id) }
{
    let mut ids = BTreeSet::new(alloc);
    for row in rows {
        add(&mut ids, row.id, true)?;
    }
    Ok(ids)
}

/// Adds the identities of the marked rows.
fn add_marked(ids: &mut BTreeSet<RowId>, rows: &[RowMark<'_>]) -> Result<(), NoMemory>
    ensures { OnOk result (AddsKeys ids.old ids.new (lists_marked rows.now)) }
{
    for row in rows {
        add(ids, row.id, row.is_marked)?;
    }
    Ok(())
}

/// Adds the identities of the rows that are not in another set.
fn add_others(
    ids: &mut BTreeSet<RowId>,
    rows: &[RowMark<'_>],
    known: &BTreeSet<RowId>,
) -> Result<(), NoMemory>
    ensures { OnOk result (AddsKeys ids.old ids.new (λ id. list_any
        (λ row. not (has_key known.now row.id.now) && same_identity row.id.now id) rows.now)) }
{
    for row in rows {
        add(ids, row.id, !known.contains(row.id))?;
    }
    Ok(())
}

/// Whether rows have the same identities in the same order.
fn have_same_ids(rows: &[RowMark<'_>], others: &[RowMark<'_>]) -> bool
    ensures { result ≡ true → (id : Identity) → lists rows.now id ≡ lists others.now id }
{
    if rows.len() != others.len() {
        return false;
    }
    for place in 0..rows.len() {
        if !rows[place].id.compare(others[place].id).is_eq() {
            return false;
        }
    }
    true
}

/// Adds the identities of the base that a transaction has no more. A transaction that only updates has all of them, in
/// order, and then none is looked for.
fn add_gone(
    alloc: Global,
    ids: &mut BTreeSet<RowId>,
    base: &[RowMark<'_>],
    mine: &[RowMark<'_>],
) -> Result<(), NoMemory>
    ensures { OnOk result (AddsKeys ids.old ids.new (leaves_out base.now mine.now)) }
{
    if have_same_ids(base, mine) {
        return Ok(());
    }
    let own = ids_of(alloc, mine)?;
    add_others(ids, base, &own)?;
    Ok(())
}

/// The identities that a transaction has written: those of its marked rows, and those of its base that it has no more. They
/// are sorted, so that publishing does not take the product of the numbers of rows.
pub fn written(
    alloc: Global,
    base: &[RowMark<'_>],
    mine: &[RowMark<'_>],
) -> Result<BTreeSet<RowId>, NoMemory>
    ensures { IfOk result (λ ids. (id : Identity)
        → has_key ids id ≡ has_written base.now mine.now id) }
{
    let mut ids = BTreeSet::new(alloc);
    add_marked(&mut ids, mine)?;
    add_gone(alloc, &mut ids, base, mine)?;
    Ok(ids)
}
