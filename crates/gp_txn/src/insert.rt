//! The rows that an INSERT makes.

ghost use Rattle.std.specs.Prelude.{◌≡◌, ◌<◌, ◌^◌, ◌∷◌, [], length, map, IfOk};
ghost use Rattle.gp_base.specs.Annotated.{unannotated};
ghost use Rattle.gp_algebra.specs.Effects.{given_from, made};
ghost use Rattle.gp_exec.specs.Choosing.{chosen_view};
ghost use Rattle.gp_txn.specs.Inserting.{Makes};
ghost use Rattle.gp_txn.specs.Overlay.{own_row};

use crate::error::StmtStop;
use gp_base::{NoMemory, Row, RowId, Sequence, Stored};
use gp_exec::Chosen;
use std::alloc::Global;

/// The rows of a VALUES list of statement k, with their identities.
pub fn given_rows(alloc: Global, t: u32, k: u32, rows: &[Row]) -> Result<Sequence<Stored>, NoMemory>
    requires { length rows.now < 2 ^ 32 }
    ensures { IfOk result (λ new. map own_row new ≡ given_from unannotated t k 1 rows.now) }
{
    let mut new = Sequence::new(alloc);
    let mut n = 0u32;
    for row in rows {
        n += 1;
        let row = row.clone()?;
        new.push(Stored {
            id: RowId::given(alloc, t, k, n),
            row,
        })?;
    }
    Ok(new)
}

/// The row that is inserted for an element of an answer.
fn made_row(t: u32, k: u32, chosen: Chosen) -> Result<Stored, StmtStop>
    ensures { Makes (λ stored. own_row stored ∷ []) result
        (made unannotated t k (chosen_view chosen) ∷ []) }
{
    let Chosen { branch, ids, row } = chosen;
    match RowId::new(t, k, branch, ids.into_vec()) {
        Some(id) => Ok(Stored { id, row }),
        None => Err(StmtStop::Ancestry),
    }
}

/// The rows that are inserted for the elements of an answer.
pub fn made_rows(
    alloc: Global,
    t: u32,
    k: u32,
    chosen: Vec<Chosen>,
) -> Result<Sequence<Stored>, StmtStop>
    ensures { Makes (map own_row) result (map (made unannotated t k) (map chosen_view chosen.items)) }
{
    let mut new = Sequence::new(alloc);
    for one in chosen {
        new.push(made_row(t, k, one)?)?;
    }
    Ok(new)
}
