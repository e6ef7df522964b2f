//! Identities in the lines of a dump.

ghost use Rattle.std.specs.Prelude.{◌≡◌, ◌+◌, IfOk, MatchOption, min, None, Some};
ghost use Rattle.gp_base.specs.IdentityForms.{sources_of};
ghost use Rattle.gp_base.specs.Digits.{is_digit};
ghost use Rattle.gp_dumpline.specs.RowForms.{identity_at, identity_of, numbers_at, others_at, part_at, sources_at};
ghost use Rattle.gp_base.specs.Leaves.{digits_at};
ghost use Rattle.gp_dumpline.specs.Sources.{behind};

use crate::part::after_byte;
use gp_base::{MAX_NODES, NoMemory, RowId};
use std::alloc::Global;

/// The greatest number in an identity of a dump.
pub const MAX_PART: u32 = 999_999_999;

/// Enough steps for an identity: three for each of its nodes.
const MAX_DEPTH: u32 = 3 * MAX_NODES;

/// The number of the digits in front, at most one more than [`MAX_PART`], and what is behind them.
fn digits_at(bytes: &[u8]) -> (u32, &[u8])
    ensures number { result.0 ≡ min (digits_at 0 bytes.now).0 (MAX_PART + 1) }
    ensures rest { result.1.now ≡ (digits_at 0 bytes.now).1 }
{
    let mut number: u64 = 0;
    let mut at = 0;
    while at < bytes.len() {
        let byte = bytes[at];
        if !byte.is_ascii_digit() {
            return (number as u32, &bytes[at..]);
        }
        number = (number * 10 + u64::from(byte - b'0')).min(u64::from(MAX_PART) + 1);
        at += 1;
    }
    (number as u32, &[])
}

/// A number in front, and what is behind it.
#[tactic(auto, unfolding(crate::specs::RowForms::part_at))]
fn part_at(bytes: &[u8]) -> Option<(u32, &[u8])>
    ensures { MatchOption result (part_at bytes.now ≡ None)
        (λ x. part_at bytes.now ≡ Some (x.0, x.1.now)) }
{
    let first = *bytes.first()?;
    if !(first >= b'1' && first <= b'9') {
        return None;
    }
    let (number, rest) = digits_at(bytes);
    if number <= MAX_PART {
        Some((number, rest))
    } else {
        None
    }
}

/// The three numbers of an identity, and what is behind them.
#[derive(Clone, Copy)]
struct Numbers<'a> {
    t: u32,
    k: u32,
    n: u32,
    rest: &'a [u8],
}

/// The three numbers in front, and what is behind them.
#[tactic(auto, unfolding(crate::specs::RowForms::numbers_at))]
fn numbers_at(bytes: &[u8]) -> Option<Numbers<'_>>
    ensures { MatchOption result (numbers_at bytes.now ≡ None)
        (λ x. numbers_at bytes.now
        ≡ Some (record { t = x.t; k = x.k; n = x.n; rest = x.rest.now })) }
{
    let (t, rest) = part_at(bytes)?;
    let (k, rest) = part_at(after_byte(b'.', rest)?)?;
    let (n, rest) = part_at(after_byte(b'.', rest)?)?;
    Some(Numbers { t, k, n, rest })
}

/// An identity in front, read within so many steps, and what is behind it.
#[cycle(identity)]
#[tactic(auto, using(crate::proofs::IdentitySteps::reading_steps))]
fn identity_at(alloc: Global, steps: u32, bytes: &[u8]) -> Result<Option<(RowId, &[u8])>, NoMemory>
    ensures { IfOk result (λ found. MatchOption found (identity_at steps bytes.now ≡ None)
        (λ x. identity_at steps bytes.now ≡ Some (x.0, x.1.now))) }
{
    if steps == 0 {
        return Ok(None);
    }
    let Some(x) = numbers_at(bytes) else {
        return Ok(None);
    };
    let Some((sources, rest)) = sources_at(alloc, steps - 1, x.rest)? else {
        return Ok(None);
    };
    match RowId::new(x.t, x.k, x.n, sources) {
        Some(id) => Ok(Some((id, rest))),
        None => Ok(None),
    }
}

/// The sources of an identity, if it has some.
#[cycle(identity)]
#[tactic(auto, using(crate::proofs::IdentitySteps::reading_steps))]
fn sources_at(
    alloc: Global,
    steps: u32,
    bytes: &[u8],
) -> Result<Option<(Vec<RowId>, &[u8])>, NoMemory>
    ensures { IfOk result (λ found. MatchOption found (sources_at steps bytes.now ≡ None)
        (λ x. sources_at steps bytes.now ≡ Some (sources_of x.0.items, x.1.now))) }
{
    if steps == 0 {
        return Ok(None);
    }
    let Some(inside) = after_byte(b'(', bytes) else {
        return Ok(Some((Vec::new(alloc), bytes)));
    };
    let Some((first, rest)) = identity_at(alloc, steps - 1, inside)? else {
        return Ok(None);
    };
    let mut sources = Vec::new(alloc);
    sources.push(first)?;
    others_at(alloc, steps - 1, sources, rest)
}

/// The further sources, behind these.
#[cycle(identity)]
#[tactic(auto, using(crate::proofs::IdentitySteps::reading_steps))]
fn others_at(
    alloc: Global,
    steps: u32,
    sources: Vec<RowId>,
    bytes: &[u8],
) -> Result<Option<(Vec<RowId>, &[u8])>, NoMemory>
    ensures { IfOk result (λ found. MatchOption found
        (behind sources.items (others_at steps bytes.now) ≡ None)
        (λ x. behind sources.items (others_at steps bytes.now)
        ≡ Some (sources_of x.0.items, x.1.now))) }
{
    if steps == 0 {
        return Ok(None);
    }
    if let Some(rest) = after_byte(b')', bytes) {
        return Ok(Some((sources, rest)));
    }
    let Some(inside) = after_byte(b',', bytes) else {
        return Ok(None);
    };
    let Some((next, rest)) = identity_at(alloc, steps - 1, inside)? else {
        return Ok(None);
    };
    let mut sources = sources;
    sources.push(next)?;
    others_at(alloc, steps - 1, sources, rest)
}

/// The identity that the text is.
pub(crate) fn parse_identity(alloc: Global, text: &[u8]) -> Result<Option<RowId>, NoMemory>
    ensures { IfOk result (λ found. found ≡ identity_of text.now) }
{
    match identity_at(alloc, MAX_DEPTH, text)? {
        Some((id, [])) => Ok(Some(id)),
        _ => Ok(None),
    }
}
