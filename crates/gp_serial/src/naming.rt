//! The names of cycles, and what shows them.

ghost use Rattle.std.specs.Prelude.{◌≡◌, ◌≤◌, ◌<◌, ◌^◌, ◌++◌, ◌∷◌, [], ◌==◌, filter, length, map, slice_get, IfOk, OnOk};
ghost use Rattle.std.specs.Option.{option_map};
ghost use Rattle.gp_log.specs.Contents.{StatementsFit, entries, tables};
ghost use Rattle.gp_serial.specs.Anomalies as s;
ghost use Rattle.gp_serial.specs.Changes.{AreMade, change_view};
ghost use Rattle.gp_serial.specs.NameForms as n;
ghost use Rattle.gp_serial.specs.Reasons as r;
ghost use Rattle.gp_serial.specs.Reasons.{reason_view};
ghost use Rattle.gp_serial.specs.SerialViews.{step_view};

use crate::changes::RowChange;
use crate::reason::{Reason, first_reading, first_write, rewrite_by};
use crate::relation::is_same_row;
use crate::serializing::Step;
use gp_base::NoMemory;
use gp_log::Log;
use std::alloc::Global;

// ---- the changes of transactions

/// Whether a change is of a transaction.
fn is_by(t: u32, change: &RowChange<'_>) -> bool
    ensures { result ≡ n.is_by t change.now }
{
    change.t == t
}

/// The changes of a transaction.
fn changes_by<'a>(
    alloc: Global,
    t: u32,
    changes: &[RowChange<'a>],
) -> Result<Vec<RowChange<'a>>, NoMemory>
    ensures { IfOk result (λ found. found.items ≡ filter (n.is_by t) changes.now) }
{
    let mut found = Vec::new(alloc);
    for change in changes {
        if is_by(t, change) {
            found.push(*change)?;
        }
    }
    Ok(found)
}

/// The changes of each transaction whose number is below a count.
pub(crate) fn by_transaction<'a>(
    alloc: Global,
    count: usize,
    changes: &[RowChange<'a>],
) -> Result<Vec<Vec<RowChange<'a>>>, NoMemory>
    requires { count ≤ 2 ^ 32 }
    ensures { IfOk result (λ lists. n.AreByTransaction changes.now count lists.items) }
{
    let mut lists = Vec::with_capacity(alloc, count)?;
    for t in 0..count {
        lists.push(changes_by(alloc, t as u32, changes)?)?;
    }
    Ok(lists)
}

/// Appends changes.
fn push_changes<'a>(changes: &[RowChange<'a>], all: &mut Vec<RowChange<'a>>) -> Result<(), NoMemory>
    ensures { OnOk result (all.new.items ≡ all.old.items ++ changes.now) }
{
    for change in changes {
        all.push(*change)?;
    }
    Ok(())
}

/// Appends the changes of a transaction, of those of each.
fn push_changes_at<'a>(
    lists: &[Vec<RowChange<'a>>],
    t: u32,
    all: &mut Vec<RowChange<'a>>,
) -> Result<(), NoMemory>
    ensures { OnOk result (all.new.items ≡ all.old.items ++ n.changes_at lists.now t) }
{
    match lists.get(t as usize) {
        Some(list) => push_changes(list, all),
        None => Ok(()),
    }
}

/// The changes of two transactions; where they are one, those of this one.
pub(crate) fn changes_of_both<'a>(
    alloc: Global,
    lists: &[Vec<RowChange<'a>>],
    a: u32,
    b: u32,
) -> Result<Vec<RowChange<'a>>, NoMemory>
    ensures { IfOk result (λ both. both.items ≡ n.either (n.changes_at lists.now) a b) }
{
    let mut both = Vec::new(alloc);
    push_changes_at(lists, a, &mut both)?;
    if a == b {
        return Ok(both);
    }
    push_changes_at(lists, b, &mut both)?;
    Ok(both)
}

// ---- steps that hold by a read alone

/// Whether a transaction comes before another one only since it read what was before the other's commit.
pub(crate) fn only_read(
    alloc: Global,
    log: &Log,
    changes: &[RowChange<'_>],
    a: u32,
    b: u32,
) -> Result<bool, NoMemory>
    requires fits { StatementsFit log.now }
    requires made { AreMade (entries log.now) changes.now }
    ensures { IfOk result (λ alone. alone
        ≡ s.only_read (tables log.now) (entries log.now) (map change_view changes.now) a b) }
{
    let read = first_reading(alloc, log, b, a, changes, false)?;
    Ok(read.is_none() && first_write(a, b, changes).is_none())
}

// ---- lost updates

/// The changes of the row of a change.
fn changes_of_row<'a>(
    alloc: Global,
    change: &RowChange<'_>,
    changes: &[RowChange<'a>],
) -> Result<Vec<RowChange<'a>>, NoMemory>
    ensures { IfOk result (λ found. found.items ≡ filter (n.is_of_row change.now) changes.now) }
{
    let mut found = Vec::new(alloc);
    for other in changes {
        if is_same_row(change, other) {
            found.push(*other)?;
        }
    }
    Ok(found)
}

/// The first statement of a that looks at a row before b wrote it, unless one looks at it afterwards; given the changes of the row.
fn unseen_read<'a>(
    alloc: Global,
    log: &Log,
    rows: &[RowChange<'a>],
    a: u32,
    b: u32,
) -> Result<Option<(u32, RowChange<'a>)>, NoMemory>
    requires fits { StatementsFit log.now }
    requires made { AreMade (entries log.now) rows.now }
    ensures { IfOk result (λ found. option_map (λ pair. (pair.0, change_view pair.1)) found
        ≡ n.unseen_read (tables log.now) (entries log.now) a b (map change_view rows.now)) }
{
    if first_reading(alloc, log, a, b, rows, false)?.is_some() {
        return Ok(None);
    }
    first_reading(alloc, log, a, b, rows, true)
}

/// Why an update of b is lost by a change of it, which a wrote over: the read of a, and both writes.
fn lost_by<'a>(
    alloc: Global,
    log: &Log,
    changes: &[RowChange<'a>],
    change: &RowChange<'a>,
    a: u32,
    b: u32,
) -> Result<Option<(Reason<'a>, Reason<'a>)>, NoMemory>
    requires fits { StatementsFit log.now }
    requires made { AreMade (entries log.now) changes.now }
    ensures { IfOk result (λ found. option_map n.two_view found
        ≡ n.lost_by (tables log.now) (entries log.now) a b changes.now change.now) }
{
    match rewrite_by(change, b, a, changes) {
        Some(other) => {
            let rows = changes_of_row(alloc, change, changes)?;
            match unseen_read(alloc, log, &rows, a, b)? {
                Some((k, read)) => Ok(Some((
                    Reason::ReadBefore { k, change: read },
                    Reason::Wrote {
                        change: *change,
                        other,
                    },
                ))),
                None => Ok(None),
            }
        }
        None => Ok(None),
    }
}

/// Why an update of b is lost in one of a, by the first row.
pub(crate) fn lost<'a>(
    alloc: Global,
    log: &Log,
    changes: &[RowChange<'a>],
    a: u32,
    b: u32,
) -> Result<Option<(Reason<'a>, Reason<'a>)>, NoMemory>
    requires fits { StatementsFit log.now }
    requires made { AreMade (entries log.now) changes.now }
    ensures { IfOk result (λ found. option_map n.two_view found
        ≡ slice_get (s.lost (tables log.now) (entries log.now) (map change_view changes.now) a b) 0) }
{
    for change in changes {
        if let Some(two) = lost_by(alloc, log, changes, change, a, b)? {
            return Ok(Some(two));
        }
    }
    Ok(None)
}
