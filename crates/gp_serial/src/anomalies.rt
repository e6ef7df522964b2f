//! All anomalies of a history.

ghost use Rattle.std.specs.Prelude.{◌≡◌, suc, map, IfOk};
ghost use Rattle.std.specs.Option.{option_map};
ghost use Rattle.gp_base.specs.declared.limit.TheConstants.{MAX_ANSWER_ROWS};
ghost use Rattle.gp_log.specs.Contents.{StatementsFit, entries, tables};
ghost use Rattle.gp_log.specs.Parameters.{parameters};
ghost use Rattle.gp_log.specs.Sessions.{KeepsSessions};
ghost use Rattle.gp_machine.specs.Entries.{transactions_in};
ghost use Rattle.gp_machine.specs.RowChanges.{tables_changes};
ghost use Rattle.gp_machine.specs.SerialForms.{committers};
ghost use Rattle.gp_reenact.specs.Reenacting.{spans_of};
ghost use Rattle.gp_serial.specs.Anomalies as s;
ghost use Rattle.gp_serial.specs.AnomalyViews.{AreAnomalies, anomaly_view};
ghost use Rattle.gp_serial.specs.Changes.{AreMade, change_view, tables_of};
ghost use Rattle.gp_serial.specs.NameForms as n;
ghost use Rattle.gp_serial.specs.NameForms.{AreAllMade, AreVersions, facts_of};
ghost use Rattle.gp_serial.specs.PathForms as f;
ghost use Rattle.gp_serial.specs.Preceding.{AreGrouped};
ghost use Rattle.gp_serial.specs.SerialViews.{IsSerializable};

use crate::anomaly::{Anomaly, anomaly_of};
use crate::changes::{RowChange, changes_of};
use crate::error::SerialStop;
use crate::naming::by_transaction;
use crate::pair_cycle::{Cycle, pair_cycles};
use crate::relation::precedence;
use crate::serializing::{by_number, check_runs, committers};
use gp_base::{MAX_ANSWER_ROWS, NoMemory, Refusal};
use gp_log::Log;
use gp_versions::VersionTable;
use std::alloc::Global;
use std::collections::BTreeSet;

/// The version that a transaction made; 0 if it made none.
fn version_made(log: &Log, t: u32) -> u32
    ensures { result ≡ n.version_made (entries log.now) t }
{
    match log.version_of(t) {
        Some(version) => version,
        None => 0,
    }
}

/// The versions that transactions made, by their numbers.
fn versions_made(alloc: Global, log: &Log) -> Result<Vec<u32>, NoMemory>
    ensures { IfOk result (λ versions.
        AreVersions (entries log.now) (suc (transactions_in (entries log.now))) versions.items) }
{
    let count = log.transactions() as usize + 1;
    let mut versions = Vec::with_capacity(alloc, count)?;
    for t in 0..count {
        versions.push(version_made(log, t as u32))?;
    }
    Ok(versions)
}

/// The cycles, each once, by length and then by their numbers; None where they are of more lines than an answer may have.
fn cycles(
    alloc: Global,
    log: &Log,
    all: &[u32],
    changes: &[RowChange<'_>],
) -> Result<Option<BTreeSet<Cycle>>, NoMemory>
    requires fits { StatementsFit log.now }
    requires sessions { KeepsSessions (entries log.now) }
    requires all { all.now ≡ committers (entries log.now) }
    requires made { AreMade (entries log.now) changes.now }
    requires grouped { AreGrouped (map change_view changes.now) }
    ensures { IfOk result (λ found. option_map (λ cycles. f.numbers_of cycles.keys) found
        ≡ f.few_cycles MAX_ANSWER_ROWS (s.cycles (tables log.now) (entries log.now) (map change_view changes.now))) }
{
    log.bounds();
    let graph = precedence(alloc, log, all, changes)?;
    let numbers = by_number(alloc, log)?;
    let versions = versions_made(alloc, log)?;
    pair_cycles(alloc, &graph, &numbers, &versions, MAX_ANSWER_ROWS)
}

/// What each of some cycles is.
fn told<'a>(
    alloc: Global,
    log: &Log,
    lists: &[Vec<RowChange<'a>>],
    cycles: &BTreeSet<Cycle>,
) -> Result<Vec<Anomaly<'a>>, NoMemory>
    requires fits { StatementsFit log.now }
    requires made { AreAllMade (entries log.now) lists.now }
    ensures { IfOk result (λ found. map anomaly_view found.items
        ≡ map (s.anomaly_of (facts_of (tables log.now) (entries log.now) lists.now)) (f.numbers_of cycles.now.keys)) }
{
    let mut found = Vec::with_capacity(alloc, cycles.len())?;
    for cycle in cycles {
        found.push(anomaly_of(alloc, log, lists, &cycle.numbers)?)?;
    }
    Ok(found)
}

/// What each of some cycles is, by the changes.
fn told_by<'a>(
    alloc: Global,
    log: &Log,
    changes: &[RowChange<'a>],
    cycles: &BTreeSet<Cycle>,
) -> Result<Vec<Anomaly<'a>>, NoMemory>
    requires fits { StatementsFit log.now }
    requires sessions { KeepsSessions (entries log.now) }
    requires made { AreMade (entries log.now) changes.now }
    ensures { IfOk result (λ found. map anomaly_view found.items
        ≡ map (s.anomaly_of (s.facts (tables log.now) (entries log.now) (map change_view changes.now))) (f.numbers_of cycles.now.keys)) }
{
    log.bounds();
    let lists = by_transaction(alloc, log.transactions() as usize + 1, changes)?;
    told(alloc, log, &lists, cycles)
}

/// The answer of a history none of whose transactions stops, given the cycles and the changes.
fn answered<'a>(
    alloc: Global,
    log: &Log,
    changes: &[RowChange<'a>],
    kept: &Option<BTreeSet<Cycle>>,
) -> Result<Vec<Anomaly<'a>>, SerialStop>
    requires fits { StatementsFit log.now }
    requires sessions { KeepsSessions (entries log.now) }
    requires made { AreMade (entries log.now) changes.now }
    requires kept { option_map (λ cycles. f.numbers_of cycles.keys) kept.now
        ≡ f.few_cycles MAX_ANSWER_ROWS (s.cycles (tables log.now) (entries log.now) (map change_view changes.now)) }
    ensures { AreAnomalies (s.found (tables log.now) (entries log.now) (map change_view changes.now) parameters) result }
{
    match kept {
        Some(cycles) => Ok(told_by(alloc, log, changes, cycles)?),
        None => Err(SerialStop::Refused(Refusal::E27)),
    }
}

/// The anomalies of a history, by its log and its row versions. A transaction comes before another one as in [`serialize`](crate::serialize). For each pair of
/// which the first is before the other one, though that made a lesser version, and that stands in a cycle: of the shortest cycles in which the second follows
/// the first, the first by its numbers. Each cycle occurs once, by length and then by its numbers.
///
/// Refused by E25 and E26 of the transactions that committed, in the order of their versions; and by E27 if the cycles and their steps are more than
/// [`MAX_ANSWER_ROWS`](gp_base::MAX_ANSWER_ROWS) together. No history is refused by E25 and E26.
pub fn anomalies_of<'a>(
    alloc: Global,
    log: &Log,
    versions: &'a [VersionTable],
) -> Result<Vec<Anomaly<'a>>, SerialStop>
    requires rules { IsSerializable log.now versions.now }
    ensures { AreAnomalies (s.anomalies_of (tables log.now) (entries log.now) (tables_changes 0 (tables_of versions.now)) parameters (spans_of versions.now)) result }
{
    check_runs(alloc, log, versions)?;
    log.bounds();
    let all = committers(alloc, log)?;
    let changes = changes_of(alloc, log, versions)?;
    let kept = cycles(alloc, log, &all, &changes)?;
    answered(alloc, log, &changes, &kept)
}
