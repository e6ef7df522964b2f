//! Of each pair of numbers that goes back, the first of the shortest cycles through it.

ghost use Rattle.std.specs.Prelude.{◌≡◌, ◌==◌, ◌<◌, ◌≤◌, ◌^◌, [], ◌∷◌, ◌++◌, IfOk, OnOk, None, Some, filter, find, get_or, length, map, replicate, set};
ghost use Rattle.std.specs.List.{AllByRecursion, AllPairs};
ghost use Rattle.std.specs.Option.{option_map};
ghost use Rattle.gp_serial.specs.PairCycles.{pair_cycles};
ghost use Rattle.gp_serial.specs.Relations.{is_edge};
ghost use Rattle.gp_serial.specs.PathForms as f;

use crate::graph::Graph;
use gp_base::NoMemory;
use std::alloc::Global;
use std::collections::BTreeSet;

/// The shortest paths from a number to a last one.
#[derive(Clone, Copy)]
pub struct Path {
    /// The number of their steps.
    pub steps: u32,
    /// The least number on them.
    pub least: u32,
}

/// The lesser of two numbers.
fn lesser(a: u32, b: u32) -> u32
    ensures { result ≡ f.lesser a b }
{
    if b < a { b } else { a }
}

// ---- the numbers before a number, and behind it

/// Of some numbers, those that are before a number.
fn before(alloc: Global, graph: &Graph, all: &[u32], t: u32) -> Result<Vec<u32>, NoMemory>
    ensures { IfOk result (λ found. found.items ≡ f.before (is_edge graph.now) all.now t) }
{
    let mut found = Vec::new(alloc);
    for from in all {
        if graph.has(*from, t) {
            found.push(*from)?;
        }
    }
    Ok(found)
}

/// Of some numbers, those that a number is before.
fn after(alloc: Global, graph: &Graph, all: &[u32], t: u32) -> Result<Vec<u32>, NoMemory>
    ensures { IfOk result (λ found. found.items ≡ f.after (is_edge graph.now) all.now t) }
{
    let mut found = Vec::new(alloc);
    for to in all {
        if graph.has(t, *to) {
            found.push(*to)?;
        }
    }
    Ok(found)
}

/// The list of a number.
fn list_at(lists: &[Vec<u32>], t: u32) -> &[u32]
    ensures { result.now ≡ f.list_at lists.now t }
{
    match lists.get(t as usize) {
        Some(list) => list.as_slice(),
        None => &[],
    }
}

// ---- paths

/// The paths of a number, if there are any.
fn path_at(paths: &[Option<Path>], t: u32) -> Option<Path>
    ensures { result ≡ get_or paths.now t None }
{
    match paths.get(t as usize) {
        Some(path) => *path,
        None => None,
    }
}

/// Sets the paths of a number, if it is below their count.
fn set_path(paths: &mut Vec<Option<Path>>, t: u32, path: Path)
    ensures { paths.new.items ≡ set paths.old.items t (Some path) }
{
    if (t as usize) < paths.len() {
        paths[t as usize] = Some(path);
    }
}

/// The paths of a number, given one of so many steps through another, on whose paths `least` is the least number.
fn nearer(t: u32, path: Option<Path>, steps: u32, least: u32) -> Path
    ensures { result ≡ f.nearer steps least t path }
{
    match path {
        None => Path {
            steps,
            least: lesser(t, least),
        },
        Some(path) => {
            if path.steps == steps {
                Path {
                    steps,
                    least: lesser(path.least, least),
                }
            } else {
                path
            }
        }
    }
}

/// Appends a number if it has no path.
fn push_fresh(t: u32, path: Option<Path>, next: &mut Vec<u32>) -> Result<(), NoMemory>
    ensures { OnOk result (next.new.items ≡ next.old.items ++ f.fresh_one t path) }
{
    if path.is_none() {
        next.push(t)?;
    }
    Ok(())
}

/// Notes that a number has paths of so many steps through another, and appends it if it had none.
fn reach(
    t: u32,
    steps: u32,
    least: u32,
    paths: &mut Vec<Option<Path>>,
    next: &mut Vec<u32>,
) -> Result<(), NoMemory>
    ensures paths { OnOk result (paths.new.items ≡ f.reach steps least t paths.old.items) }
    ensures next { OnOk result (next.new.items ≡ next.old.items ++ f.if_fresh t paths.old.items) }
{
    let path = path_at(paths, t);
    push_fresh(t, path, next)?;
    set_path(paths, t, nearer(t, path, steps, least));
    Ok(())
}

/// The same for each of some numbers.
fn reach_each(
    from: &[u32],
    steps: u32,
    least: u32,
    paths: &mut Vec<Option<Path>>,
    next: &mut Vec<u32>,
) -> Result<(), NoMemory>
    ensures paths { OnOk result (paths.new.items ≡ f.reach_each steps least from.now paths.old.items) }
    ensures next { OnOk result (next.new.items
        ≡ next.old.items ++ f.fresh steps least from.now paths.old.items) }
{
    for t in from {
        reach(*t, steps, least, paths, next)?;
    }
    Ok(())
}

/// The least number on the paths of a number.
fn least_at(paths: &[Option<Path>], t: u32) -> u32
    ensures { result ≡ f.least_at t paths.now }
{
    match path_at(paths, t) {
        Some(path) => path.least,
        None => t,
    }
}

/// The numbers of one step more than those of a level, whose paths are noted.
fn next_level(
    alloc: Global,
    lists: &[Vec<u32>],
    level: &[u32],
    steps: u32,
    paths: &mut Vec<Option<Path>>,
) -> Result<Vec<u32>, NoMemory>
    ensures paths { OnOk result (paths.new.items
        ≡ f.spread (f.list_at lists.now) steps level.now paths.old.items) }
    ensures next { IfOk result (λ next. next.items
        ≡ f.next_level (f.list_at lists.now) steps level.now paths.old.items) }
{
    let mut next = Vec::new(alloc);
    for t in level {
        let least = least_at(paths, *t);
        reach_each(list_at(lists, *t), steps, least, paths, &mut next)?;
    }
    Ok(next)
}

/// No path of any number.
fn no_paths(alloc: Global, count: usize) -> Result<Vec<Option<Path>>, NoMemory>
    ensures { IfOk result (λ paths. paths.items ≡ replicate count None) }
{
    let mut paths = Vec::with_capacity(alloc, count)?;
    for _ in 0..count {
        paths.push(None)?;
    }
    Ok(paths)
}

/// The paths to a number of at most `most` steps. `lists` has those before each number.
fn paths_to(
    alloc: Global,
    lists: &[Vec<u32>],
    last: u32,
    most: u32,
) -> Result<Vec<Option<Path>>, NoMemory>
    ensures { IfOk result (λ paths. paths.items
        ≡ f.paths_to (f.list_at lists.now) (length lists.now) most last) }
{
    let mut paths = no_paths(alloc, lists.len())?;
    set_path(
        &mut paths,
        last,
        Path {
            steps: 0,
            least: last,
        },
    );
    let mut level = Vec::new(alloc);
    level.push(last)?;
    for steps in 0..most {
        level = next_level(alloc, lists, &level, steps + 1, &mut paths)?;
    }
    Ok(paths)
}

// ---- down the paths

/// Whether the paths of a number have so many steps.
fn has_steps(path: Option<Path>, steps: u32) -> bool
    ensures { result ≡ f.has_steps steps path }
{
    match path {
        Some(path) => path.steps == steps,
        None => false,
    }
}

/// The number of steps of the paths of a number.
fn steps_at(paths: &[Option<Path>], t: u32) -> u32
    ensures { result ≡ f.steps_at t paths.now }
{
    match path_at(paths, t) {
        Some(path) => path.steps,
        None => 0,
    }
}

/// The first of some numbers of which so many steps remain.
fn next_down(list: &[u32], paths: &[Option<Path>], steps: u32) -> Option<u32>
    ensures { result ≡ find (λ t. f.has_steps steps (get_or paths.now t None)) list.now }
{
    for t in list {
        if has_steps(path_at(paths, *t), steps) {
            return Some(*t);
        }
    }
    None
}

/// Appends the first of the shortest paths from a number, of so many steps, without the number itself. `lists` has those that each number is before.
fn push_down(
    lists: &[Vec<u32>],
    paths: &[Option<Path>],
    from: u32,
    steps: u32,
    cycle: &mut Vec<u32>,
) -> Result<(), NoMemory>
    ensures { OnOk result (cycle.new.items
        ≡ cycle.old.items ++ f.down (f.list_at lists.now) paths.now steps from) }
{
    let mut last = from;
    for done in 0..steps {
        match next_down(list_at(lists, last), paths, steps - 1 - done) {
            Some(next) => {
                cycle.push(next)?;
                last = next;
            }
            None => return Ok(()),
        }
    }
    Ok(())
}

// ---- the cycle of a pair

/// The path from the least number to a, and the one from b, which is behind it, back to that.
fn joined(
    alloc: Global,
    lists: &[Vec<u32>],
    to_a: &[Option<Path>],
    to_least: &[Option<Path>],
    least: u32,
    b: u32,
) -> Result<Vec<u32>, NoMemory>
    ensures { IfOk result (λ cycle. cycle.items
        ≡ f.joined (f.list_at lists.now) to_a.now to_least.now least b) }
{
    let mut cycle = Vec::new(alloc);
    cycle.push(least)?;
    push_down(lists, to_a, least, steps_at(to_a, least), &mut cycle)?;
    cycle.push(b)?;
    push_down(lists, to_least, b, steps_at(to_least, b), &mut cycle)?;
    cycle.pop();
    Ok(cycle)
}

/// Of the shortest cycles through a and then b, the first, given the paths to a and the one of b.
fn cycle_by(
    alloc: Global,
    before: &[Vec<u32>],
    after: &[Vec<u32>],
    to_a: &[Option<Path>],
    path: Path,
    b: u32,
) -> Result<Vec<u32>, NoMemory>
    ensures { IfOk result (λ cycle. cycle.items
        ≡ f.cycle_by (f.list_at before.now) (f.list_at after.now) (length before.now) to_a.now path b) }
{
    let left = path.steps.saturating_sub(steps_at(to_a, path.least));
    let to_least = paths_to(alloc, before, path.least, left)?;
    joined(alloc, after, to_a, &to_least, path.least, b)
}

// ---- the cycles of all pairs

/// A cycle. They are ordered by their lengths, and then by their numbers.
#[derive(Debug, PartialEq, Eq, PartialOrd, Ord, Drop)]
pub struct Cycle {
    /// How many numbers it has.
    pub count: usize,
    /// The numbers.
    pub numbers: Vec<u32>,
}

/// Inserts a cycle, unless it is there; false where there are more than `most` lines then.
fn insert_cycle(
    numbers: Vec<u32>,
    most: usize,
    cycles: &mut BTreeSet<Cycle>,
    lines: &mut usize,
) -> Result<bool, NoMemory>
    requires { f.AreCollected most cycles.old.keys lines.old }
    ensures { IfOk result (λ fits.
        f.Inserts most (numbers.items ∷ []) cycles.old.keys cycles.new.keys lines.new fits) }
{
    let count = numbers.len();
    let is_new = cycles.insert(Cycle { count, numbers })?;
    if is_new {
        if count >= most - *lines {
            return Ok(false);
        }
        *lines += count + 1;
    }
    Ok(true)
}

/// Inserts the cycles through a number and each of those to which it goes back; false where there are more than `most` lines then.
fn insert_each(
    alloc: Global,
    before: &[Vec<u32>],
    after: &[Vec<u32>],
    to_a: &[Option<Path>],
    backs: &[u32],
    most: usize,
    cycles: &mut BTreeSet<Cycle>,
    lines: &mut usize,
) -> Result<bool, NoMemory>
    requires { f.AreCollected most cycles.old.keys lines.old }
    ensures { IfOk result (λ fits.
        f.Inserts most (f.cycles_to (f.list_at before.now) (f.list_at after.now) (length before.now) to_a.now backs.now)
        cycles.old.keys cycles.new.keys lines.new fits) }
{
    for b in backs {
        if let Some(path) = path_at(to_a, *b) {
            let numbers = cycle_by(alloc, before, after, to_a, path, *b)?;
            if !insert_cycle(numbers, most, cycles, lines)? {
                return Ok(false);
            }
        }
    }
    Ok(true)
}

/// For each number below the count of a graph, those of some numbers that are before it.
fn all_before(alloc: Global, graph: &Graph, all: &[u32]) -> Result<Vec<Vec<u32>>, NoMemory>
    requires { length graph.now ≤ 2 ^ 32 }
    ensures { IfOk result (λ lists.
        f.AreLists (f.before (is_edge graph.now) all.now) (length graph.now) lists.items) }
{
    let mut lists = Vec::with_capacity(alloc, graph.len())?;
    for t in 0..graph.len() {
        lists.push(before(alloc, graph, all, t as u32)?)?;
    }
    Ok(lists)
}

/// For each number below the count of a graph, those of some numbers that it is before.
fn all_after(alloc: Global, graph: &Graph, all: &[u32]) -> Result<Vec<Vec<u32>>, NoMemory>
    requires { length graph.now ≤ 2 ^ 32 }
    ensures { IfOk result (λ lists.
        f.AreLists (f.after (is_edge graph.now) all.now) (length graph.now) lists.items) }
{
    let mut lists = Vec::with_capacity(alloc, graph.len())?;
    for t in 0..graph.len() {
        lists.push(after(alloc, graph, all, t as u32)?)?;
    }
    Ok(lists)
}

/// The version of a number; 0 if there is none.
fn version_at(versions: &[u32], t: u32) -> u32
    ensures { result ≡ get_or versions.now t 0 }
{
    match versions.get(t as usize) {
        Some(version) => *version,
        None => 0,
    }
}

/// Whether a number is before one of a lesser version.
fn goes_back(graph: &Graph, versions: &[u32], a: u32, b: u32) -> bool
    ensures { result ≡ f.goes_back (is_edge graph.now) versions.now a b }
{
    graph.has(a, b) && version_at(versions, b) < version_at(versions, a)
}

/// Of some numbers, those to which a number goes back.
fn backs(
    alloc: Global,
    graph: &Graph,
    all: &[u32],
    versions: &[u32],
    a: u32,
) -> Result<Vec<u32>, NoMemory>
    ensures { IfOk result (λ found. found.items
        ≡ filter (f.goes_back (is_edge graph.now) versions.now a) all.now) }
{
    let mut found = Vec::new(alloc);
    for b in all {
        if goes_back(graph, versions, a, *b) {
            found.push(*b)?;
        }
    }
    Ok(found)
}

/// Inserts the cycles through a number and each of those to which it goes back, which are given.
fn insert_back(
    alloc: Global,
    before: &[Vec<u32>],
    after: &[Vec<u32>],
    steps: u32,
    a: u32,
    backs: &[u32],
    most: usize,
    cycles: &mut BTreeSet<Cycle>,
    lines: &mut usize,
) -> Result<bool, NoMemory>
    requires { f.AreCollected most cycles.old.keys lines.old }
    ensures { IfOk result (λ fits. f.Inserts most
        (f.cycles_back (f.list_at before.now) (f.list_at after.now) (length before.now) steps backs.now a)
        cycles.old.keys cycles.new.keys lines.new fits) }
{
    if backs.is_empty() {
        return Ok(true);
    }
    let to_a = paths_to(alloc, before, a, steps)?;
    insert_each(alloc, before, after, &to_a, backs, most, cycles, lines)
}

/// Inserts the cycles of all numbers; false where there are more than `most` lines then.
fn insert_all(
    alloc: Global,
    graph: &Graph,
    all: &[u32],
    versions: &[u32],
    before: &[Vec<u32>],
    after: &[Vec<u32>],
    steps: u32,
    most: usize,
    cycles: &mut BTreeSet<Cycle>,
    lines: &mut usize,
) -> Result<bool, NoMemory>
    requires { f.AreCollected most cycles.old.keys lines.old }
    ensures { IfOk result (λ fits. f.Inserts most
        (f.all_cycles (is_edge graph.now) versions.now all.now (f.list_at before.now) (f.list_at after.now) (length before.now) steps all.now)
        cycles.old.keys cycles.new.keys lines.new fits) }
{
    for a in all {
        let backs = backs(alloc, graph, all, versions, *a)?;
        if !insert_back(alloc, before, after, steps, *a, &backs, most, cycles, lines)? {
            return Ok(false);
        }
    }
    Ok(true)
}

/// For each pair of numbers of which the first is before the other one, though that has the lesser version, and each of which leads to the other: of the
/// shortest cycles in which the second follows the first, the first by its numbers, begun at the least of them. Each cycle once, by length and then by
/// numbers; None where they have more than `most` lines, one for each and one for each of its numbers.
///
/// For each first number of such pairs a search from it backwards finds how many steps lead there from each number, and the least number on these paths; for each
/// pair another one finds the paths to that least number. Each takes as long as there are steps between numbers that are reached.
pub fn pair_cycles(
    alloc: Global,
    graph: &Graph,
    all: &[u32],
    versions: &[u32],
    most: usize,
) -> Result<Option<BTreeSet<Cycle>>, NoMemory>
    requires below { AllByRecursion (λ t. t < length graph.now) all.now }
    requires order { AllPairs (λ a b. a < b) all.now }
    requires few { length all.now < 2 ^ 32 }
    requires count { length graph.now ≤ 2 ^ 32 }
    ensures { IfOk result (λ kept. option_map (λ cycles. f.numbers_of cycles.keys) kept
        ≡ f.few_cycles most (pair_cycles (is_edge graph.now) all.now
        (f.goes_back (is_edge graph.now) versions.now))) }
{
    let before = all_before(alloc, graph, all)?;
    let after = all_after(alloc, graph, all)?;
    // A shortest cycle has no more numbers than there are.
    let steps = all.len().saturating_sub(1) as u32;
    let mut cycles = BTreeSet::new(alloc);
    let mut lines = 0;
    let fits = insert_all(
        alloc,
        graph,
        all,
        versions,
        &before,
        &after,
        steps,
        most,
        &mut cycles,
        &mut lines,
    )?;
    if fits { Ok(Some(cycles)) } else { Ok(None) }
}
