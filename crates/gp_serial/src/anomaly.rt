//! What a cycle is called, and what shows it.

ghost use Rattle.std.specs.Prelude.{◌≡◌, [], ◌∷◌, false, map, IfOk};
ghost use Rattle.std.specs.List.{list_any};
ghost use Rattle.std.specs.Option.{option_map, option_map_or};
ghost use Rattle.gp_log.specs.Contents.{StatementsFit, entries, tables};
ghost use Rattle.gp_serial.specs.Anomalies as s;
ghost use Rattle.gp_serial.specs.AnomalyViews.{anomaly_view};
ghost use Rattle.gp_serial.specs.Changes.{change_view};
ghost use Rattle.gp_serial.specs.NameForms as n;
ghost use Rattle.gp_serial.specs.NameForms.{AreAllMade, facts_of};
ghost use Rattle.gp_serial.specs.PairCycles.{pairs_of};
ghost use Rattle.gp_serial.specs.Reasons.{reason_view};
ghost use Rattle.gp_serial.specs.SerialViews.{step_view};

use crate::changes::RowChange;
use crate::naming::{changes_of_both, lost, only_read};
use crate::reason::Reason;
use crate::serializing::{Step, make_step, next_in};
use gp_base::NoMemory;
use gp_log::Log;
use std::alloc::Global;

/// What an anomaly is called: the first that fits.
#[derive(Clone, Copy)]
pub enum AnomalyName {
    /// Of two transactions, one wrote over a row what it had computed from a version before the other's write, without looking at that.
    LostUpdate,
    /// Exactly one step holds by a read before a commit alone.
    ReadSkew,
    /// There are three transactions or more, one of which wrote nothing.
    ReadOnly,
    /// Any other.
    WriteSkew,
}

/// A cycle, each transaction of which comes before the next one, and the last before the first.
#[derive(Drop)]
pub struct Anomaly<'a> {
    /// What it is called.
    pub name: AnomalyName,
    /// Whether a step that holds by a read before a commit alone is shown by a row that came or went.
    pub phantom: bool,
    /// A step for each transaction.
    pub steps: Vec<Step<'a>>,
}

// ---- two transactions, given the changes of each

/// The step from a transaction to another one.
fn step_between<'a>(
    alloc: Global,
    log: &Log,
    lists: &[Vec<RowChange<'a>>],
    a: u32,
    b: u32,
) -> Result<Step<'a>, NoMemory>
    requires fits { StatementsFit log.now }
    requires made { AreAllMade (entries log.now) lists.now }
    ensures { IfOk result (λ step. step_view step
        ≡ (facts_of (tables log.now) (entries log.now) lists.now).step a b) }
{
    let both = changes_of_both(alloc, lists, a, b)?;
    make_step(alloc, log, &both, a, b)
}

/// Whether a transaction is before another one by nothing but what it read.
fn is_alone(
    alloc: Global,
    log: &Log,
    lists: &[Vec<RowChange<'_>>],
    a: u32,
    b: u32,
) -> Result<bool, NoMemory>
    requires fits { StatementsFit log.now }
    requires made { AreAllMade (entries log.now) lists.now }
    ensures { IfOk result (λ alone. alone
        ≡ (facts_of (tables log.now) (entries log.now) lists.now).alone a b) }
{
    let both = changes_of_both(alloc, lists, a, b)?;
    only_read(alloc, log, &both, a, b)
}

/// The update of b that a lost, by its first row.
fn update_of<'a>(
    alloc: Global,
    log: &Log,
    lists: &[Vec<RowChange<'a>>],
    a: u32,
    b: u32,
) -> Result<Option<(Reason<'a>, Reason<'a>)>, NoMemory>
    requires fits { StatementsFit log.now }
    requires made { AreAllMade (entries log.now) lists.now }
    ensures { IfOk result (λ found. option_map n.two_view found
        ≡ (facts_of (tables log.now) (entries log.now) lists.now).update a b) }
{
    let both = changes_of_both(alloc, lists, a, b)?;
    lost(alloc, log, &both, a, b)
}

/// Whether a transaction wrote nothing.
fn is_idle(lists: &[Vec<RowChange<'_>>], t: u32) -> bool
    ensures { result ≡ s.is_empty (n.changes_at lists.now t) }
{
    match lists.get(t as usize) {
        Some(list) => list.is_empty(),
        None => true,
    }
}

// ---- the steps of a cycle

/// The pairs of neighbours in a cycle.
fn pairs(alloc: Global, cycle: &[u32]) -> Result<Vec<(u32, u32)>, NoMemory>
    ensures { IfOk result (λ pairs. pairs.items ≡ pairs_of cycle.now) }
{
    let mut pairs = Vec::with_capacity(alloc, cycle.len())?;
    for (place, first) in cycle.iter().enumerate() {
        pairs.push((*first, next_in(cycle, place)))?;
    }
    Ok(pairs)
}

/// A step for each pair.
fn steps_between<'a>(
    alloc: Global,
    log: &Log,
    lists: &[Vec<RowChange<'a>>],
    pairs: &[(u32, u32)],
) -> Result<Vec<Step<'a>>, NoMemory>
    requires fits { StatementsFit log.now }
    requires made { AreAllMade (entries log.now) lists.now }
    ensures { IfOk result (λ steps. map step_view steps.items
        ≡ s.steps_between (facts_of (tables log.now) (entries log.now) lists.now) pairs.now) }
{
    let mut steps = Vec::with_capacity(alloc, pairs.len())?;
    for pair in pairs {
        steps.push(step_between(alloc, log, lists, pair.0, pair.1)?)?;
    }
    Ok(steps)
}

/// Two steps, from a to b and back.
fn both_steps<'a>(
    alloc: Global,
    a: u32,
    b: u32,
    forth: Reason<'a>,
    back: Reason<'a>,
) -> Result<Vec<Step<'a>>, NoMemory>
    ensures { IfOk result (λ steps. map step_view steps.items
        ≡ s.own_step a b (reason_view forth.entry) ∷ s.own_step b a (reason_view back.entry) ∷ []) }
{
    let mut steps = Vec::with_capacity(alloc, 2)?;
    steps.push(Step {
        first: a,
        next: b,
        reason: Some(forth),
    })?;
    steps.push(Step {
        first: b,
        next: a,
        reason: Some(back),
    })?;
    Ok(steps)
}

/// The steps of the update of one of two transactions that the other lost, if there is one.
fn lost_between<'a>(
    alloc: Global,
    log: &Log,
    lists: &[Vec<RowChange<'a>>],
    a: u32,
    b: u32,
) -> Result<Option<Vec<Step<'a>>>, NoMemory>
    requires fits { StatementsFit log.now }
    requires made { AreAllMade (entries log.now) lists.now }
    ensures { IfOk result (λ found. option_map (λ steps. map step_view steps.items) found
        ≡ s.lost_steps (facts_of (tables log.now) (entries log.now) lists.now) (a ∷ b ∷ [])) }
{
    if let Some((read, wrote)) = update_of(alloc, log, lists, a, b)? {
        return Ok(Some(both_steps(alloc, a, b, read, wrote)?));
    }
    match update_of(alloc, log, lists, b, a)? {
        Some((read, wrote)) => Ok(Some(both_steps(alloc, a, b, wrote, read)?)),
        None => Ok(None),
    }
}

/// The steps of a lost update, if a cycle is one.
fn lost_steps<'a>(
    alloc: Global,
    log: &Log,
    lists: &[Vec<RowChange<'a>>],
    cycle: &[u32],
) -> Result<Option<Vec<Step<'a>>>, NoMemory>
    requires fits { StatementsFit log.now }
    requires made { AreAllMade (entries log.now) lists.now }
    ensures { IfOk result (λ found. option_map (λ steps. map step_view steps.items) found
        ≡ s.lost_steps (facts_of (tables log.now) (entries log.now) lists.now) cycle.now) }
{
    if cycle.len() != 2 {
        return Ok(None);
    }
    lost_between(alloc, log, lists, cycle[0], cycle[1])
}

// ---- its name

/// How many pairs hold by nothing but a read before a commit.
fn reads_alone(
    alloc: Global,
    log: &Log,
    lists: &[Vec<RowChange<'_>>],
    pairs: &[(u32, u32)],
) -> Result<usize, NoMemory>
    requires fits { StatementsFit log.now }
    requires made { AreAllMade (entries log.now) lists.now }
    ensures { IfOk result (λ count. count
        ≡ s.reads_alone (facts_of (tables log.now) (entries log.now) lists.now) pairs.now) }
{
    let mut count = 0;
    for pair in pairs {
        if is_alone(alloc, log, lists, pair.0, pair.1)? {
            count += 1;
        }
    }
    Ok(count)
}

/// Whether one of some transactions wrote nothing.
fn is_any_idle(lists: &[Vec<RowChange<'_>>], cycle: &[u32]) -> bool
    ensures { result ≡ list_any (λ t. s.is_empty (n.changes_at lists.now t)) cycle.now }
{
    for t in cycle {
        if is_idle(lists, *t) {
            return true;
        }
    }
    false
}

/// The name of a cycle that is no lost update, given its pairs.
fn name_of(
    alloc: Global,
    log: &Log,
    lists: &[Vec<RowChange<'_>>],
    cycle: &[u32],
    pairs: &[(u32, u32)],
) -> Result<AnomalyName, NoMemory>
    requires fits { StatementsFit log.now }
    requires made { AreAllMade (entries log.now) lists.now }
    requires pairs { pairs.now ≡ pairs_of cycle.now }
    ensures { IfOk result (λ name. name
        ≡ s.name_of (facts_of (tables log.now) (entries log.now) lists.now) cycle.now) }
{
    if reads_alone(alloc, log, lists, pairs)? == 1 {
        return Ok(AnomalyName::ReadSkew);
    }
    if cycle.len() > 2 && is_any_idle(lists, cycle) {
        Ok(AnomalyName::ReadOnly)
    } else {
        Ok(AnomalyName::WriteSkew)
    }
}

// ---- phantoms

/// Whether the row of a change is missing before or after.
fn comes_or_goes(change: &RowChange<'_>) -> bool
    ensures { result ≡ s.comes_or_goes (change_view change.now) }
{
    change.before.is_none() || change.after.is_none()
}

/// Whether a reason is a read before the commit of a row that came or went.
fn reads_a_phantom(reason: &Option<Reason<'_>>) -> bool
    ensures { result ≡ option_map_or s.reads_a_phantom (option_map reason_view reason.now) false }
{
    match reason {
        Some(Reason::ReadBefore { change, .. }) => comes_or_goes(change),
        _ => false,
    }
}

/// Whether a step that holds by a read before a commit alone is shown by a row that came or went.
fn is_phantom(
    alloc: Global,
    log: &Log,
    lists: &[Vec<RowChange<'_>>],
    step: &Step<'_>,
) -> Result<bool, NoMemory>
    requires fits { StatementsFit log.now }
    requires made { AreAllMade (entries log.now) lists.now }
    ensures { IfOk result (λ phantom. phantom
        ≡ s.is_phantom (facts_of (tables log.now) (entries log.now) lists.now) (step_view step.now)) }
{
    if !reads_a_phantom(&step.reason) {
        return Ok(false);
    }
    is_alone(alloc, log, lists, step.first, step.next)
}

/// Whether one of these steps is such.
fn has_phantom(
    alloc: Global,
    log: &Log,
    lists: &[Vec<RowChange<'_>>],
    steps: &[Step<'_>],
) -> Result<bool, NoMemory>
    requires fits { StatementsFit log.now }
    requires made { AreAllMade (entries log.now) lists.now }
    ensures { IfOk result (λ phantom. phantom
        ≡ list_any (s.is_phantom (facts_of (tables log.now) (entries log.now) lists.now)) (map step_view steps.now)) }
{
    for step in steps {
        if is_phantom(alloc, log, lists, step)? {
            return Ok(true);
        }
    }
    Ok(false)
}

// ---- all of it

/// An anomaly, by its name and its steps.
fn by_steps<'a>(
    alloc: Global,
    log: &Log,
    lists: &[Vec<RowChange<'a>>],
    name: AnomalyName,
    steps: Vec<Step<'a>>,
) -> Result<Anomaly<'a>, NoMemory>
    requires fits { StatementsFit log.now }
    requires made { AreAllMade (entries log.now) lists.now }
    ensures { IfOk result (λ anomaly. anomaly_view anomaly
        ≡ s.by_steps (facts_of (tables log.now) (entries log.now) lists.now) name (map step_view steps.entry.items)) }
{
    let phantom = has_phantom(alloc, log, lists, &steps)?;
    Ok(Anomaly {
        name,
        phantom,
        steps,
    })
}

/// A cycle that is no lost update.
fn unlost<'a>(
    alloc: Global,
    log: &Log,
    lists: &[Vec<RowChange<'a>>],
    cycle: &[u32],
) -> Result<Anomaly<'a>, NoMemory>
    requires fits { StatementsFit log.now }
    requires made { AreAllMade (entries log.now) lists.now }
    ensures { IfOk result (λ anomaly. anomaly_view anomaly
        ≡ s.by_steps (facts_of (tables log.now) (entries log.now) lists.now)
        (s.name_of (facts_of (tables log.now) (entries log.now) lists.now) cycle.now)
        (s.steps_between (facts_of (tables log.now) (entries log.now) lists.now) (pairs_of cycle.now))) }
{
    let pairs = pairs(alloc, cycle)?;
    let name = name_of(alloc, log, lists, cycle, &pairs)?;
    let steps = steps_between(alloc, log, lists, &pairs)?;
    by_steps(alloc, log, lists, name, steps)
}

/// What a cycle is. `lists` has the changes of each transaction: those of two of them say what is so of these, without a look at all others.
pub(crate) fn anomaly_of<'a>(
    alloc: Global,
    log: &Log,
    lists: &[Vec<RowChange<'a>>],
    cycle: &[u32],
) -> Result<Anomaly<'a>, NoMemory>
    requires fits { StatementsFit log.now }
    requires made { AreAllMade (entries log.now) lists.now }
    ensures { IfOk result (λ anomaly. anomaly_view anomaly
        ≡ s.anomaly_of (facts_of (tables log.now) (entries log.now) lists.now) cycle.now) }
{
    match lost_steps(alloc, log, lists, cycle)? {
        Some(steps) => by_steps(alloc, log, lists, AnomalyName::LostUpdate, steps),
        None => unlost(alloc, log, lists, cycle),
    }
}
