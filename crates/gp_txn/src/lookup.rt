//! The rows that a statement has to look at.
//!
//! A condition such as `id = 7 AND ..` is true of few rows of a table. Where the table has an index of the column, only the
//! rows that it finds are looked at, and those into which the transaction put the cell, which the index does not have. What
//! is found is tested with the whole condition, so that an index decides the cost of a statement and not its answer.

ghost use Rattle.std.specs.Prelude.{◌≡◌, ◌≤◌, ◌++◌, IfOk, IfSome, List, ℕ, drop, length, map};
ghost use Rattle.std.specs.Option.{option_map};
ghost use Rattle.gp_expr.specs.Values.{passes};
ghost use Rattle.gp_expr.specs.Views.{cond_view};
ghost use Rattle.gp_algebra.specs.Answers.{passes_where};
ghost use Rattle.gp_txn.specs.Ascending.{place_of};
ghost use Rattle.gp_txn.specs.Enough.{IsEnough};
ghost use Rattle.gp_txn.specs.Equating.{found_slots};
ghost use Rattle.gp_txn.specs.Merging.{merged, merged_at};

use crate::equality::{Equality, equated};
use crate::overlay::Placed;
use crate::slots::Slots;
use gp_algebra::{Select, Stmt};
use gp_base::NoMemory;
use gp_expr::Cond;
use gp_versions::{SpanList, VersionTable};
use std::alloc::Global;

/// Adds the places from `next` on that are below this one, and then this one. Gives the first of those behind it.
fn push_merged(
    all: &mut Vec<u32>,
    found: &[u32],
    next: usize,
    place: u32,
) -> Result<usize, NoMemory>
    requires { next ≤ length found.now }
    ensures merged { IfOk result (λ n. (more : List ℕ → List ℕ)
        → all.new.items ++ more (drop n found.now)
        ≡ all.old.items ++ merged_at place more (drop next found.now)) }
    ensures within { IfOk result (λ n. n ≤ length found.now) }
{
    let mut n = next;
    while n < found.len() && found[n] < place {
        all.push(found[n])?;
        n += 1;
    }
    all.push(place)?;
    if n < found.len() && found[n] == place {
        n += 1;
    }
    Ok(n)
}

/// The places that were found, and those of the rows into which the transaction put the cell.
fn with_written(
    alloc: Global,
    found: Vec<u32>,
    slots: &[Placed],
    equality: &Equality<'_>,
) -> Result<Vec<u32>, NoMemory>
    ensures { IfOk result (λ all. all.items ≡ merged (map place_of
        (found_slots equality.now.column equality.now.cell.now slots.now)) found.items) }
{
    if slots.is_empty() {
        return Ok(found);
    }
    let mut all = Vec::with_capacity(alloc, found.len())?;
    let mut next = 0usize;
    for placed in slots {
        if equality.is_put(&placed.slot) {
            next = push_merged(&mut all, &found, next, placed.place)?;
        }
    }
    all.extend_from_slice(&found[next..])?;
    Ok(all)
}

/// Places at which all rows of version v are that the transaction sees to pass the condition, if an index finds them.
fn indexed_places(
    alloc: Global,
    spans: &SpanList<'_>,
    slots: &Slots,
    v: u32,
    cond: &Cond,
) -> Result<Option<Vec<u32>>, NoMemory>
    ensures { IfOk result (λ found. IfSome found
        (λ places. IsEnough (passes (cond_view cond.now)) slots.now v spans.now places.items)) }
{
    let Some(equality) = equated(cond) else {
        return Ok(None);
    };
    match spans.places_with(alloc, equality.column, equality.cell, v)? {
        Some(found) => Ok(Some(with_written(alloc, found, slots.as_slice(), &equality)?)),
        None => Ok(None),
    }
}

/// Places at which all rows of version v are that the transaction sees to pass the condition, if there is one.
pub fn places_for(
    alloc: Global,
    spans: &SpanList<'_>,
    slots: &Slots,
    v: u32,
    cond: Option<&Cond>,
) -> Result<Vec<u32>, NoMemory>
    ensures { IfOk result
        (λ places. IsEnough (passes_where (option_map (λ c. cond_view c.now) cond.entry))
        slots.now v spans.now places.items) }
{
    if let Some(cond) = cond {
        if let Some(places) = indexed_places(alloc, spans, slots, v, cond)? {
            return Ok(places);
        }
    }
    spans.places(alloc, v)
}

/// Asks for an index of the column that a condition compares with a constant, if it does so.
fn index_where(versions: &mut [VersionTable], table: u32, cond: &Cond) -> Result<(), NoMemory>
    ensures { versions.new ≡ versions.old }
{
    let Some(equality) = equated(cond) else {
        return Ok(());
    };
    let place = table as usize;
    if place < versions.len() {
        versions[place].enter_column(equality.column)?;
    }
    Ok(())
}

/// Asks for an index of the column that a query of one table compares with a constant.
fn index_read(select: &Select, versions: &mut [VersionTable]) -> Result<(), NoMemory>
    ensures { versions.new ≡ versions.old }
{
    match select.branches.as_slice() {
        [branch] => match (branch.from.as_slice(), &branch.cond) {
            ([table], Some(cond)) => index_where(versions, *table, cond),
            _ => Ok(()),
        },
        _ => Ok(()),
    }
}

/// Asks for an index of the column that the condition of a statement over one table compares with a constant. The table
/// makes the index when it is asked for a second time. The versions are unchanged: an index decides how long a statement
/// takes, and not what it does.
pub fn index_for(stmt: &Stmt, versions: &mut [VersionTable]) -> Result<(), NoMemory>
    ensures { versions.new ≡ versions.old }
{
    match stmt {
        Stmt::Update { table, cond, .. } | Stmt::Delete { table, cond } => {
            index_where(versions, *table, cond)
        }
        Stmt::InsertSelect { select, .. } | Stmt::Read { select } => index_read(select, versions),
        Stmt::Insert { .. } => Ok(()),
    }
}
