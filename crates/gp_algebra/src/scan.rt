//! The tables and versions that a program reads.

ghost use Rattle.std.specs.Prelude.{◌≡◌, ◌++◌, ◌↔◌, ◌∷◌, [], Contains, IfOk, OnOk, flat_map};
ghost use Rattle.std.specs.List.Sorted.{IsStrictlySortedBy};
ghost use Rattle.gp_algebra.specs.declared.plain.ScanAt.{ScanAt};
ghost use Rattle.gp_algebra.specs.PlainViews.{program_view, query_view};
ghost use Rattle.gp_algebra.specs.QueryViews.{annotated_program_view, annotated_view};
ghost use Rattle.gp_algebra.specs.Scans.{annotated_program_scans, annotated_query_scans, program_scans, query_scans, scan_cmp};

use crate::annotated::AQuery;
use crate::plain::{PQuery, ScanAt};
use crate::program::{AProgram, AStep, PProgram, PStep};
use gp_base::NoMemory;
use std::alloc::Global;

/// Appends a scan. If memory runs out, nothing is appended.
fn push_scan(table: u32, version: u32, found: &mut Vec<ScanAt>) -> Result<(), NoMemory>
    ensures ok { OnOk result (found.new.items
        ≡ found.old.items ++ (record { table = table; version = version } ∷ [])) }
{
    found.push(ScanAt { table, version })?;
    Ok(())
}

/// Appends the scans of a plain query, each as often as it occurs. If memory runs out, some of them may be appended.
fn push_scans(query: &PQuery, found: &mut Vec<ScanAt>) -> Result<(), NoMemory>
    ensures ok { OnOk result
        (found.new.items ≡ found.old.items ++ query_scans (query_view query.now)) }
{
    match query {
        PQuery::Scan { table, version } => push_scan(*table, *version, found),
        PQuery::Filter { input, .. } | PQuery::Project { input, .. } => push_scans(input, found),
        PQuery::Product { left, right } | PQuery::Union { left, right } => {
            push_scans(left, found)?;
            push_scans(right, found)
        }
        PQuery::Publish {
            base,
            mine,
            later,
            ..
        } => {
            push_scans(base, found)?;
            push_scans(mine, found)?;
            push_scans(later, found)
        }
        PQuery::Step { .. } | PQuery::Values { .. } => Ok(()),
    }
}

/// Appends the scans of plain steps. If memory runs out, some of them may be appended.
fn push_step_scans(steps: &[PStep], found: &mut Vec<ScanAt>) -> Result<(), NoMemory>
    ensures ok { OnOk result (found.new.items
        ≡ found.old.items ++ flat_map (λ step. query_scans (query_view step.query)) steps.now) }
{
    'steps: for step in steps {
        push_scans(&step.query, found)?;
    }
    Ok(())
}

/// Appends the scans of an annotated query, each as often as it occurs. If memory runs out, some of them may be appended.
fn push_annotated_scans(query: &AQuery, found: &mut Vec<ScanAt>) -> Result<(), NoMemory>
    ensures ok { OnOk result (found.new.items
        ≡ found.old.items ++ annotated_query_scans (annotated_view query.now)) }
{
    match query {
        AQuery::Scan { table, version } => push_scan(*table, *version, found),
        AQuery::Filter { input, .. }
        | AQuery::Project { input, .. }
        | AQuery::NewRows { input, .. } => push_annotated_scans(input, found),
        AQuery::Product { left, right } | AQuery::Union { left, right } => {
            push_annotated_scans(left, found)?;
            push_annotated_scans(right, found)
        }
        AQuery::Publish { base, mine, later } => {
            push_annotated_scans(base, found)?;
            push_annotated_scans(mine, found)?;
            push_annotated_scans(later, found)
        }
        AQuery::Step { .. } | AQuery::Values { .. } => Ok(()),
    }
}

/// Appends the scans of annotated steps. If memory runs out, some of them may be appended.
fn push_annotated_step_scans(steps: &[AStep], found: &mut Vec<ScanAt>) -> Result<(), NoMemory>
    ensures ok { OnOk result (found.new.items ≡ found.old.items
        ++ flat_map (λ step. annotated_query_scans (annotated_view step.query)) steps.now) }
{
    'steps: for step in steps {
        push_annotated_scans(&step.query, found)?;
    }
    Ok(())
}

/// These scans in ascending order, each once.
fn each_once(found: Vec<ScanAt>) -> Vec<ScanAt>
    ensures ascending { IsStrictlySortedBy scan_cmp result.items }
    ensures same { (scan : ScanAt)
        → (Contains result.items scan ↔ Contains found.items scan) }
{
    let mut found = found;
    found.sort_unstable();
    found.dedup();
    found
}

/// The tables and versions that a plain program reads, in ascending order, each once. Running out of memory is the only error.
pub fn scans(alloc: Global, program: &PProgram) -> Result<Vec<ScanAt>, NoMemory>
    ensures ascending { IfOk result (λ found. IsStrictlySortedBy scan_cmp found.items) }
    ensures exact { IfOk result (λ found. (scan : ScanAt)
        → (Contains found.items scan ↔ Contains (program_scans (program_view program.now)) scan)) }
{
    let mut found = Vec::new(alloc);
    push_step_scans(program.steps.as_slice(), &mut found)?;
    push_scans(&program.last, &mut found)?;
    Ok(each_once(found))
}

/// The tables and versions that an annotated program reads, in ascending order, each once. Running out of memory is the only
/// error.
pub fn scans_of(alloc: Global, program: &AProgram) -> Result<Vec<ScanAt>, NoMemory>
    ensures ascending { IfOk result (λ found. IsStrictlySortedBy scan_cmp found.items) }
    ensures exact { IfOk result (λ found. (scan : ScanAt)
        → (Contains found.items scan
        ↔ Contains (annotated_program_scans (annotated_program_view program.now)) scan)) }
{
    let mut found = Vec::new(alloc);
    push_annotated_step_scans(program.steps.as_slice(), &mut found)?;
    push_annotated_scans(&program.last, &mut found)?;
    Ok(each_once(found))
}
