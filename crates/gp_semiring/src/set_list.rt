//! Sets of tokens of which none contains another, and sets put to them one after another.

ghost use Rattle.std.specs.Prelude.{◌≡◌, false, not, IfOk, OnOk};
ghost use Rattle.std.specs.Cmp.Lexicographic.{slice_cmp};
ghost use Rattle.std.specs.List.{filter, list_any};
ghost use Rattle.gp_base.specs.Tokens.{token_cmp};
ghost use Rattle.gp_semiring.specs.WitnessAdding as a;
ghost use Rattle.gp_semiring.specs.WitnessAdding.{place_in, with_row, with_sets, with_unions};
ghost use Rattle.gp_semiring.specs.Witnesses as w;
ghost use Rattle.gp_semiring.specs.Witnesses.{contains, is_within, placed};
ghost use Rattle.gp_semiring.specs.WitnessForms.{IsRising};

use crate::token_set::TokenSet;
use gp_base::NoMemory;
use std::alloc::Global;
use std::cmp::Ordering;

/// How many of the ascending sets stand before the place of the set.
#[tactic(auto, using(crate::proofs::SetLemmas::sets_searched))]
fn place(sets: &[TokenSet], set: &TokenSet) -> usize
    requires { IsRising (slice_cmp token_cmp) sets.now }
    ensures { result ≡ place_in (slice_cmp token_cmp) set.now sets.now }
{
    let mut low = 0;
    let mut high = sets.len();
    while low < high {
        let middle = low + (high - low) / 2;
        if set.compare(&sets[middle]) == Ordering::Greater {
            low = middle + 1;
        } else {
            high = middle;
        }
    }
    low
}

/// Whether the set is one of the ascending sets.
#[tactic(auto, using(crate::proofs::SetLemmas::among))]
fn is_among(sets: &[TokenSet], set: &TokenSet) -> bool
    requires { IsRising (slice_cmp token_cmp) sets.now }
    ensures { result ≡ contains (slice_cmp token_cmp) set.now sets.now }
{
    let at = place(sets, set);
    if at == sets.len() {
        return false;
    }
    set.compare(&sets[at]).is_eq()
}

/// Whether one of the sets is within the set, which is none of them.
#[tactic(auto, using(crate::proofs::SetLemmas::others_differ))]
fn has_within(sets: &[TokenSet], set: &TokenSet) -> bool
    requires { contains (slice_cmp token_cmp) set.now sets.now ≡ false }
    ensures { result ≡ list_any (λ other. is_within token_cmp other set.now) sets.now }
{
    for other in sets {
        if other.is_part_of(set) {
            return true;
        }
    }
    false
}

/// Whether the set is within one of the sets, and none of them.
#[tactic(auto, using(crate::proofs::SetLemmas::differs))]
fn has_beyond(sets: &[TokenSet], set: &TokenSet) -> bool
    requires { contains (slice_cmp token_cmp) set.now sets.now ≡ false }
    ensures { result ≡ list_any (λ other. is_within token_cmp set.now other) sets.now }
{
    for other in sets {
        if set.is_part_of(other) {
            return true;
        }
    }
    false
}

/// The sets that do not contain the set, which is none of them. They stay where they are if none does.
#[tactic(auto, using(crate::proofs::SetLemmas::all_kept))]
fn others(alloc: Global, sets: Vec<TokenSet>, set: &TokenSet) -> Result<Vec<TokenSet>, NoMemory>
    requires { contains (slice_cmp token_cmp) set.now sets.items ≡ false }
    ensures { IfOk result (λ kept. kept.items
        ≡ filter (λ other. not (is_within token_cmp set.now other)) sets.items) }
{
    if !has_beyond(sets.as_slice(), set) {
        return Ok(sets);
    }
    let mut kept = Vec::new(alloc);
    for other in sets {
        if !set.is_within(&other) {
            kept.push(other)?;
        }
    }
    Ok(kept)
}

/// Puts a set in its place among the ascending ones, if it is not there.
#[tactic(auto, using(crate::proofs::SetLemmas::set_places))]
fn insert(sets: &mut Vec<TokenSet>, set: TokenSet) -> Result<(), NoMemory>
    requires { IsRising (slice_cmp token_cmp) sets.old.items }
    ensures { OnOk result
        (sets.new.items ≡ placed (slice_cmp token_cmp) set sets.old.items) }
{
    let at = place(sets.as_slice(), &set);
    if at == sets.len() {
        sets.push(set)?;
    } else if set.compare(&sets[at]) == Ordering::Equal {} else {
        sets.insert(at, set)?;
    }
    Ok(())
}

/// The ascending sets with one more, if it contains none of them, and without those that contain it.
#[tactic(auto, using(crate::proofs::SetLemmas::with_held))]
fn with_set(alloc: Global, sets: Vec<TokenSet>, set: TokenSet) -> Result<Vec<TokenSet>, NoMemory>
    requires { IsRising (slice_cmp token_cmp) sets.items }
    ensures { IfOk result (λ more. more.items ≡ w.with_set token_cmp set sets.items) }
{
    if is_among(sets.as_slice(), &set) {
        return Ok(sets);
    }
    if has_within(sets.as_slice(), &set) {
        return Ok(sets);
    }
    let mut kept = others(alloc, sets, &set)?;
    insert(&mut kept, set)?;
    Ok(kept)
}

/// The ascending sets with copies of others.
pub fn sum(alloc: Global, sets: Vec<TokenSet>, more: &[TokenSet]) -> Result<Vec<TokenSet>, NoMemory>
    requires { IsRising (slice_cmp token_cmp) sets.items }
    ensures { IfOk result (λ all. all.items ≡ with_sets token_cmp more.now sets.items) }
{
    let mut all = sets;
    for set in more {
        all = with_set(alloc, all, set.copy(alloc)?)?;
    }
    Ok(all)
}

/// The ascending sets with the unions of one set and each of others.
fn with_unions_of(
    alloc: Global,
    sets: Vec<TokenSet>,
    set: &TokenSet,
    more: &[TokenSet],
) -> Result<Vec<TokenSet>, NoMemory>
    requires { IsRising (slice_cmp token_cmp) sets.items }
    ensures { IfOk result (λ all. all.items ≡ with_row token_cmp set.now more.now sets.items) }
{
    let mut all = sets;
    for other in more {
        all = with_set(alloc, all, set.union(alloc, other)?)?;
    }
    Ok(all)
}

/// The ascending sets with the unions of each set of the one and each of the other.
pub fn product(
    alloc: Global,
    sets: Vec<TokenSet>,
    left: &[TokenSet],
    right: &[TokenSet],
) -> Result<Vec<TokenSet>, NoMemory>
    requires { IsRising (slice_cmp token_cmp) sets.items }
    ensures { IfOk result
        (λ all. all.items ≡ a.with_unions token_cmp left.now right.now sets.items) }
{
    let mut all = sets;
    for set in left {
        all = with_unions_of(alloc, all, set, right)?;
    }
    Ok(all)
}

/// Copies of sets.
pub fn copies(alloc: Global, sets: &[TokenSet]) -> Result<Vec<TokenSet>, NoMemory>
    ensures { IfOk result (λ copies. copies.items ≡ sets.now) }
{
    let mut copies = Vec::new(alloc);
    for set in sets {
        copies.push(set.copy(alloc)?)?;
    }
    Ok(copies)
}
