//! Whether the transactions could have run one after another.

ghost use Rattle.std.specs.Prelude.{◌≡◌, ◌<◌, ◌≤◌, ◌+◌, true, None, map, length, slice_get, IfOk};
ghost use Rattle.std.specs.List.{AllByRecursion};
ghost use Rattle.std.specs.Option.{option_map};
ghost use Rattle.gp_algebra.specs.Views.{statement_view};
ghost use Rattle.gp_log.specs.Contents.{StatementsFit, commits, entries, tables};
ghost use Rattle.gp_log.specs.Parameters.{parameters};
ghost use Rattle.gp_machine.specs.Entries.{statement_count};
ghost use Rattle.gp_machine.specs.Precedence as m;
ghost use Rattle.gp_machine.specs.Questions.{is_known};
ghost use Rattle.gp_machine.specs.RowChanges.{tables_changes};
ghost use Rattle.gp_machine.specs.SerialForms.{committers};
ghost use Rattle.gp_reenact.specs.Reenacting.{spans_of};
ghost use Rattle.gp_serial.specs.Changes.{AreMade, change_view, tables_of};
ghost use Rattle.gp_serial.specs.Comparing as c;
ghost use Rattle.gp_serial.specs.Graphs.{least_cycle};
ghost use Rattle.gp_serial.specs.Reasons.{reason_view};
ghost use Rattle.gp_serial.specs.Relations.{is_edge};
ghost use Rattle.gp_serial.specs.SerialViews as v;
ghost use Rattle.gp_serial.specs.SerialViews.{IsSerialOf, IsSerializable, RunsWhole, serial_view, step_view};
ghost use Rattle.gp_serial.specs.SerialLogs.{AreFew};
ghost use Rattle.gp_serial.specs.Serializing as s;

use crate::changes::{RowChange, changes_of};
use crate::cycle::least_cycle;
use crate::error::SerialStop;
use crate::finding::done;
use crate::graph::Graph;
use crate::log::serial_log;
use crate::order::order_of;
use crate::reason::{Reason, reason_of};
use crate::relation::precedence;
use crate::running::{are_equal, is_same, rows_at, shown};
use gp_algebra::Stmt;
use gp_base::NoMemory;
use gp_log::Log;
use gp_versions::VersionTable;
use gp_whatif::{ReplayStop, replay};
use std::alloc::Global;

/// A transaction of a cycle, and the next one.
#[derive(Clone, Copy)]
pub struct Step<'a> {
    /// The transaction.
    pub first: u32,
    /// The next one.
    pub next: u32,
    /// Why it comes before that.
    pub reason: Option<Reason<'a>>,
}

/// Whether the transactions could have run one after another.
#[derive(Drop)]
pub enum Serial<'a> {
    /// One after another in this order, they do what they did.
    Order(Vec<u32>),
    /// Each comes before the next one, and the last before the first.
    Cycle(Vec<Step<'a>>),
    /// One after another in the order that was found, they do something else.
    Undecided,
}

// ---- the transactions

/// The transactions that committed, in the order of their versions.
pub(crate) fn committers(alloc: Global, log: &Log) -> Result<Vec<u32>, NoMemory>
    ensures { IfOk result (λ found. found.items ≡ committers (entries log.now)) }
{
    let mut committers = Vec::with_capacity(alloc, log.commits() as usize)?;
    for before in 0..log.commits() {
        committers.push(log.maker(before + 1))?;
    }
    Ok(committers)
}

/// The transactions that committed, in the order of their numbers.
pub(crate) fn by_number(alloc: Global, log: &Log) -> Result<Vec<u32>, NoMemory>
    ensures { IfOk result (λ found. found.items ≡ s.by_number (entries log.now)) }
{
    let mut numbers = Vec::with_capacity(alloc, log.commits() as usize)?;
    for before in 0..log.transactions() {
        if let Some(_) = log.version_of(before + 1) {
            numbers.push(before + 1)?;
        }
    }
    Ok(numbers)
}

/// Whether a statement may pass a limit.
fn may_stop(stmt: &Stmt) -> bool
    ensures { result ≡ c.may_stop (statement_view stmt.now) }
{
    match stmt {
        Stmt::Insert { .. } | Stmt::InsertSelect { .. } => true,
        _ => false,
    }
}

/// Whether the statement of a number may pass a limit; false if there is none.
fn may_stop_at(log: &Log, t: u32, k: u32) -> bool
    ensures { result ≡ c.may_stop_at t k (entries log.now) }
{
    match log.statement(t, k) {
        Some(stmt) => may_stop(stmt),
        None => false,
    }
}

/// The number of the last statement of a transaction that may pass a limit; 0 if none may.
fn last_stopping(log: &Log, t: u32) -> u32
    ensures within { result ≤ statement_count t (entries log.now) }
    ensures last { c.NoneStops t result (statement_count t (entries log.now)) (entries log.now) }
{
    let count = log.statement_count(t);
    for before in 0..count {
        if may_stop_at(log, t, count - before) {
            return count - before;
        }
    }
    0
}

/// Stops where a transaction does not run over the row versions. It runs up to its last INSERT: no other statement stops.
fn check_run(alloc: Global, log: &Log, versions: &[VersionTable], t: u32) -> Result<(), SerialStop>
    requires rules { IsSerializable log.now versions.now }
    requires known { is_known t (entries log.now) ≡ true }
    ensures { c.ChecksRun (entries log.now) (spans_of versions.now) t result }
{
    let last = last_stopping(log, t);
    if last == 0 {
        return Ok(());
    }
    let _last = shown(alloc, log, versions, t, last)?;
    Ok(())
}

/// Stops at the first transaction that committed, in the order of their versions, that does not run over the row versions.
pub(crate) fn check_runs(
    alloc: Global,
    log: &Log,
    versions: &[VersionTable],
) -> Result<(), SerialStop>
    requires rules { IsSerializable log.now versions.now }
    ensures { c.ChecksRuns (entries log.now) (spans_of versions.now) (commits log.now) result }
{
    for before in 0..log.commits() {
        check_run(alloc, log, versions, log.maker(before + 1))?;
    }
    Ok(())
}

// ---- a cycle

/// The first reason for which a transaction comes before another one; before itself, for none.
fn reason_between<'a>(
    alloc: Global,
    log: &Log,
    changes: &[RowChange<'a>],
    first: u32,
    next: u32,
) -> Result<Option<Reason<'a>>, NoMemory>
    requires fits { StatementsFit log.now }
    requires made { AreMade (entries log.now) changes.now }
    ensures { IfOk result (λ reason. option_map reason_view reason
        ≡ slice_get (m.reasons (tables log.now) (entries log.now) (map change_view changes.now) first next) 0) }
{
    if first == next {
        return Ok(None);
    }
    reason_of(alloc, log, changes, first, next)
}

/// A step of a cycle.
pub(crate) fn make_step<'a>(
    alloc: Global,
    log: &Log,
    changes: &[RowChange<'a>],
    first: u32,
    next: u32,
) -> Result<Step<'a>, NoMemory>
    requires fits { StatementsFit log.now }
    requires made { AreMade (entries log.now) changes.now }
    ensures { IfOk result (λ step. step_view step
        ≡ s.step_of (tables log.now) (entries log.now) (map change_view changes.now) first next) }
{
    let reason = reason_between(alloc, log, changes, first, next)?;
    Ok(Step {
        first,
        next,
        reason,
    })
}

/// The transaction behind one of a cycle: behind the last one, the first.
pub(crate) fn next_in(cycle: &[u32], place: usize) -> u32
    requires { place < length cycle.now }
    ensures { result ≡ v.next_in cycle.now place }
{
    if place + 1 < cycle.len() {
        cycle[place + 1]
    } else {
        cycle[0]
    }
}

/// The steps of a cycle, from each of its transactions to the next one, and from the last to the first.
fn steps<'a>(
    alloc: Global,
    log: &Log,
    changes: &[RowChange<'a>],
    cycle: &[u32],
) -> Result<Vec<Step<'a>>, NoMemory>
    requires fits { StatementsFit log.now }
    requires made { AreMade (entries log.now) changes.now }
    ensures { IfOk result (λ steps. map step_view steps.items
        ≡ s.steps_of (tables log.now) (entries log.now) (map change_view changes.now) cycle.now) }
{
    let mut steps = Vec::with_capacity(alloc, cycle.len())?;
    for (place, first) in cycle.iter().enumerate() {
        steps.push(make_step(alloc, log, changes, *first, next_in(cycle, place))?)?;
    }
    Ok(steps)
}

/// The steps of a cycle, if there is one. An order that is not whole has a cycle, so that there is none does not come; nothing rests on that.
fn found_cycle<'a>(
    alloc: Global,
    log: &Log,
    changes: &[RowChange<'a>],
    cycle: &[u32],
) -> Result<Serial<'a>, NoMemory>
    requires fits { StatementsFit log.now }
    requires made { AreMade (entries log.now) changes.now }
    ensures { IfOk result (λ found. serial_view found
        ≡ v.cycle_answer (tables log.now) (entries log.now) (map change_view changes.now) cycle.now) }
{
    if cycle.is_empty() {
        return Ok(Serial::Undecided);
    }
    Ok(Serial::Cycle(steps(alloc, log, changes, cycle)?))
}

/// The first of the shortest cycles of the transactions that committed.
fn cyclic<'a>(
    alloc: Global,
    log: &Log,
    changes: &[RowChange<'a>],
    graph: &Graph,
) -> Result<Serial<'a>, NoMemory>
    requires fits { StatementsFit log.now }
    requires made { AreMade (entries log.now) changes.now }
    ensures { IfOk result (λ found. serial_view found
        ≡ v.cycle_answer (tables log.now) (entries log.now) (map change_view changes.now)
        (least_cycle (is_edge graph.now) (s.by_number (entries log.now)))) }
{
    let numbers = by_number(alloc, log)?;
    let cycle = least_cycle(alloc, graph, &numbers)?;
    found_cycle(alloc, log, changes, &cycle)
}

// ---- an order

/// Whether the statements of a transaction do over the row versions of another log what they did.
fn does_same(
    alloc: Global,
    log: &Log,
    versions: &[VersionTable],
    other: &Log,
    made: &[VersionTable],
    t: u32,
) -> Result<bool, SerialStop>
    requires { c.AreComparable log.now versions.now other.now made.now t }
    ensures { c.ComparesTransaction (entries log.now) (spans_of versions.now) (entries other.now) (spans_of made.now) t result }
{
    for before in 0..log.statement_count(t) {
        let rows = done(alloc, log, versions, t, before + 1)?;
        let others = done(alloc, other, made, t, before + 1)?;
        if !is_same(&rows, &others) {
            return Ok(false);
        }
    }
    Ok(true)
}

/// Whether two versions have the same rows with their identities.
fn ends_same(
    alloc: Global,
    versions: &[VersionTable],
    version: u32,
    made: &[VersionTable],
    last: u32,
) -> Result<bool, NoMemory>
    requires { length versions.now ≡ length made.now }
    ensures { IfOk result (λ same. same
        ≡ c.passes_first (c.ends_same version last versions.now made.now) (length versions.now)) }
{
    for (place, table) in versions.iter().enumerate() {
        let rows = rows_at(alloc, table, version)?;
        let others = rows_at(alloc, &made[place], last)?;
        if !are_equal(&rows, &others) {
            return Ok(false);
        }
    }
    Ok(true)
}

/// Whether all transactions of an order do over the row versions of another log what they did.
fn all_do_same(
    alloc: Global,
    log: &Log,
    versions: &[VersionTable],
    other: &Log,
    made: &[VersionTable],
    order: &[u32],
) -> Result<bool, SerialStop>
    requires { c.AreAllComparable log.now versions.now other.now made.now order.now }
    ensures { c.ComparesStatements (entries log.now) versions.now (entries other.now) made.now order.now result }
{
    for t in order {
        let same = does_same(alloc, log, versions, other, made, *t)?;
        if !same {
            return Ok(false);
        }
    }
    Ok(true)
}

/// Whether they do, and the last versions have the same rows.
fn do_same(
    alloc: Global,
    log: &Log,
    versions: &[VersionTable],
    other: &Log,
    made: &[VersionTable],
    order: &[u32],
) -> Result<bool, SerialStop>
    requires { c.AreAllComparable log.now versions.now other.now made.now order.now }
    ensures { c.ComparesAll (entries log.now) versions.now (entries other.now) made.now order.now result }
{
    let same = all_do_same(alloc, log, versions, other, made, order)?;
    if !same {
        return Ok(false);
    }
    Ok(ends_same(alloc, versions, log.commits(), made, other.commits())?)
}

/// What stops when commits are made again: then the order is none.
fn unmade(stop: ReplayStop) -> Result<bool, SerialStop>
    ensures { c.IsUnmade stop result }
{
    match stop {
        ReplayStop::NoMemory => Err(SerialStop::NoMemory),
        _ => Ok(false),
    }
}

/// Whether the transactions do one after another in an order what they did: their commits are made again, and do not stop; each statement changes or answers the
/// same rows; and the last versions have the same rows.
fn is_serial(
    alloc: Global,
    log: &Log,
    versions: &[VersionTable],
    order: &[u32],
) -> Result<bool, SerialStop>
    requires rules { IsSerializable log.now versions.now }
    requires order { AreFew (entries log.now) order.now }
    requires runs { AllByRecursion (λ t. RunsWhole log.now versions.now t) order.now }
    ensures { c.IsSerialIf (entries log.now) (tables log.now) versions.now order.now result }
{
    let other = serial_log(alloc, log, order)?;
    match replay(alloc, &other) {
        Ok(made) => do_same(alloc, log, versions, &other, &made, order),
        Err(stop) => unmade(stop),
    }
}

/// The order, if it is one in which they do what they did.
fn in_order<'a>(
    alloc: Global,
    log: &Log,
    versions: &[VersionTable],
    order: Vec<u32>,
) -> Result<Serial<'a>, SerialStop>
    requires rules { IsSerializable log.now versions.now }
    requires order { AreFew (entries log.now) order.items }
    requires runs { AllByRecursion (λ t. RunsWhole log.now versions.now t) order.items }
    ensures { v.IsTried (entries log.now) (tables log.now) versions.now order.items result }
{
    let same = is_serial(alloc, log, versions, &order)?;
    if same {
        Ok(Serial::Order(order))
    } else {
        Ok(Serial::Undecided)
    }
}

// ---- the answer

/// The answer, given the transactions that committed, none of which stops, and the changes.
fn serial_by<'a>(
    alloc: Global,
    log: &Log,
    versions: &[VersionTable],
    all: &[u32],
    changes: &[RowChange<'a>],
) -> Result<Serial<'a>, SerialStop>
    requires rules { IsSerializable log.now versions.now }
    requires runs { s.runs_refusal parameters (entries log.now) (spans_of versions.now) (commits log.now) ≡ None }
    requires all { all.now ≡ committers (entries log.now) }
    requires changes { map change_view changes.now ≡ tables_changes 0 (tables_of versions.now) }
    requires made { AreMade (entries log.now) changes.now }
    ensures { IsSerialOf (entries log.now) versions.now
        (s.serial_of (tables log.now) (entries log.now) (tables_changes 0 (tables_of versions.now)) parameters (spans_of versions.now)) result }
{
    let graph = precedence(alloc, log, all, changes)?;
    let order = order_of(alloc, &graph, all)?;
    if order.len() < all.len() {
        let found = cyclic(alloc, log, changes, &graph)?;
        return Ok(found);
    }
    in_order(alloc, log, versions, order)
}

/// Whether the transactions that committed could have run one after another, by the log and its row versions. A transaction comes before another one for a
/// [`Reason`](crate::Reason). If there is a cycle of these, the answer is the first of the shortest ones, each step with its first reason. Else the
/// transactions run again in the order that keeps them, and the answer is the order if they do what they did.
///
/// Refused by E25 and E26 of the transactions that committed, in the order of their versions. No history is refused.
pub fn serialize<'a>(
    alloc: Global,
    log: &Log,
    versions: &'a [VersionTable],
) -> Result<Serial<'a>, SerialStop>
    requires rules { IsSerializable log.now versions.now }
    ensures { IsSerialOf (entries log.now) versions.now
        (s.serial_of (tables log.now) (entries log.now) (tables_changes 0 (tables_of versions.now)) parameters (spans_of versions.now)) result }
{
    check_runs(alloc, log, versions)?;
    log.bounds();
    let all = committers(alloc, log)?;
    let changes = changes_of(alloc, log, versions)?;
    serial_by(alloc, log, versions, &all, &changes)
}
