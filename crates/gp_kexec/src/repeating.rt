//! Rows as often as they are counted.

ghost use Rattle.std.specs.Prelude.{◌≡◌, ◌++◌, map, nat_lt, replicate, IfOk, OnOk};
ghost use Rattle.gp_base.specs.declared.limit.TheConstants.{MAX_ANSWER_ROWS};
ghost use Rattle.gp_kexec.specs.Rows.{pair_view};
ghost use Rattle.gp_kexec.specs.Remaining as r;
ghost use Rattle.gp_kexec.specs.Remaining.{Remains, number_of};

use crate::env::KRow;
use crate::error::RemainStop;
use gp_base::{MAX_ANSWER_ROWS, NoMemory, Row};
use gp_semiring::Count;
use std::alloc::Global;

/// Whether the numbers sum to more than an answer has rows.
fn are_too_many(rows: &[KRow<Count>]) -> bool
    ensures { result ≡ nat_lt MAX_ANSWER_ROWS (number_of (map pair_view rows.now)) }
{
    let mut left = MAX_ANSWER_ROWS as u64;
    for row in rows {
        let number = row.value.number();
        if number > left {
            return true;
        }
        left -= number;
    }
    false
}

/// Appends a row this often.
#[tactic(auto, using(crate::proofs::RemainingLemmas::one_more))]
fn repeat(rows: &mut Vec<Row>, row: &Row, number: u64) -> Result<(), NoMemory>
    ensures { OnOk result (rows.new.items ≡ rows.old.items ++ replicate number row.now) }
{
    let mut left = number;
    while left > 0 {
        rows.push(row.clone()?)?;
        left -= 1;
    }
    Ok(())
}

/// Each row as often as its number.
fn repeated(alloc: Global, rows: &[KRow<Count>]) -> Result<Vec<Row>, NoMemory>
    ensures { IfOk result (λ all. all.items ≡ r.repeated (map pair_view rows.now)) }
{
    let mut all = Vec::new(alloc);
    for row in rows {
        repeat(&mut all, &row.row, row.value.number())?;
    }
    Ok(all)
}

/// Each row as often as its number. TooMany exactly where the numbers sum to more than
/// [`MAX_ANSWER_ROWS`](gp_base::MAX_ANSWER_ROWS).
pub fn remaining(alloc: Global, rows: Vec<KRow<Count>>) -> Result<Vec<Row>, RemainStop>
    ensures { Remains (λ all. all.items) result (map pair_view rows.items) }
{
    if are_too_many(rows.as_slice()) {
        return Err(RemainStop::TooMany);
    }
    let all = repeated(alloc, rows.as_slice())?;
    Ok(all)
}
