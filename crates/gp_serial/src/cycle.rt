//! The first of the shortest cycles of a relation.

ghost use Rattle.std.specs.Prelude.{◌≡◌, ◌<◌, ℕ, IfOk, find, is_some, map};
ghost use Rattle.std.specs.Option.{option_map};
ghost use Rattle.gp_serial.specs.CycleForms as f;
ghost use Rattle.gp_serial.specs.CycleForms.{AreLevels, AreReaching, first_walk};
ghost use Rattle.gp_serial.specs.Graphs as s;
ghost use Rattle.gp_serial.specs.Relations.{is_edge};

use crate::graph::{Graph, is_flagged};
use gp_base::NoMemory;
use std::alloc::Global;

/// The first flagged number that `from` is before. There is a flag for each of `all`.
fn first_step(graph: &Graph, all: &[u32], from: u32, flagged: &[bool]) -> Option<u32>
    ensures { result ≡ f.first_step (is_edge graph.now) from all.now flagged.now }
{
    for (place, to) in all.iter().enumerate() {
        if is_flagged(flagged, place) && graph.has(from, *to) {
            return Some(*to);
        }
    }
    None
}

/// For each number, whether it is before `last`.
fn before_last(alloc: Global, graph: &Graph, all: &[u32], last: u32) -> Result<Vec<bool>, NoMemory>
    ensures { IfOk result (λ flags. AreReaching (is_edge graph.now) all.now last 0 flags.items) }
{
    let mut flags = Vec::with_capacity(alloc, all.len())?;
    for from in all {
        flags.push(graph.has(*from, last))?;
    }
    Ok(flags)
}

/// For each number, whether it is before a flagged one.
fn before_flagged(
    alloc: Global,
    graph: &Graph,
    all: &[u32],
    flagged: &[bool],
) -> Result<Vec<bool>, NoMemory>
    ensures { IfOk result (λ flags. flags.items
        ≡ map (λ from. is_some (f.first_step (is_edge graph.now) from all.now flagged.now)) all.now) }
{
    let mut flags = Vec::with_capacity(alloc, all.len())?;
    for from in all {
        flags.push(first_step(graph, all, *from, flagged).is_some())?;
    }
    Ok(flags)
}

/// The next level of flags: which numbers reach `last` through as many others as there are levels.
fn next_level(
    alloc: Global,
    graph: &Graph,
    all: &[u32],
    last: u32,
    levels: &[Vec<bool>],
) -> Result<Vec<bool>, NoMemory>
    ensures { (steps : ℕ) → AreLevels (is_edge graph.now) all.now last steps
        (map (λ flags. flags.items) levels.now)
        → IfOk result (λ flags. AreReaching (is_edge graph.now) all.now last steps flags.items) }
{
    match levels.last() {
        Some(level) => before_flagged(alloc, graph, all, level),
        None => before_last(alloc, graph, all, last),
    }
}

/// A level of flags for each number of steps below `count`: which numbers reach `last` through that many others.
fn reaching(
    alloc: Global,
    graph: &Graph,
    all: &[u32],
    last: u32,
    count: usize,
) -> Result<Vec<Vec<bool>>, NoMemory>
    ensures { IfOk result (λ levels. AreLevels (is_edge graph.now) all.now last count
        (map (λ flags. flags.items) levels.items)) }
{
    let mut levels: Vec<Vec<bool>> = Vec::with_capacity(alloc, count)?;
    for _ in 0..count {
        let level = next_level(alloc, graph, all, last, &levels)?;
        levels.push(level)?;
    }
    Ok(levels)
}

/// The first cycle of `count` numbers that begins at `first`, if there is one.
fn cycle_from(
    alloc: Global,
    graph: &Graph,
    all: &[u32],
    first: u32,
    count: usize,
) -> Result<Option<Vec<u32>>, NoMemory>
    requires { 0 < count }
    ensures { IfOk result (λ found. option_map (λ cycle. cycle.items) found
        ≡ first_walk (is_edge graph.now) all.now first count) }
{
    let levels = reaching(alloc, graph, all, first, count - 1)?;
    let mut cycle = Vec::with_capacity(alloc, count)?;
    cycle.push(first)?;
    let mut last = first;
    for steps in 1..count {
        match first_step(graph, all, last, &levels[count - 1 - steps]) {
            Some(next) => {
                cycle.push(next)?;
                last = next;
            }
            None => return Ok(None),
        }
    }
    if graph.has(last, first) {
        Ok(Some(cycle))
    } else {
        Ok(None)
    }
}

/// The first cycle of `count` numbers, if there is one.
fn cycle_of(
    alloc: Global,
    graph: &Graph,
    all: &[u32],
    count: usize,
) -> Result<Option<Vec<u32>>, NoMemory>
    requires { 0 < count }
    ensures { IfOk result (λ found. option_map (λ cycle. cycle.items) found
        ≡ find (s.is_cycle (is_edge graph.now)) (s.lists_of count all.now)) }
{
    for first in all {
        if let Some(cycle) = cycle_from(alloc, graph, all, *first, count)? {
            return Ok(Some(cycle));
        }
    }
    Ok(None)
}

/// The first of the shortest cycles of some numbers, in their order; empty if there is none.
///
/// For each length and each first number, levels of flags say which numbers reach it in how many steps. A cycle of two numbers costs a test of each pair of
/// numbers, a longer one such tests for each number.
pub fn least_cycle(alloc: Global, graph: &Graph, all: &[u32]) -> Result<Vec<u32>, NoMemory>
    ensures { IfOk result (λ cycle. cycle.items ≡ s.least_cycle (is_edge graph.now) all.now) }
{
    for count in 0..all.len() {
        if let Some(cycle) = cycle_of(alloc, graph, all, count + 1)? {
            return Ok(cycle);
        }
    }
    Ok(Vec::new(alloc))
}
