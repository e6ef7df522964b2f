//! Rows that a transaction wrote over an earlier version.

ghost use Rattle.std.specs.Prelude.{◌≡◌, [], map, IfOk};
ghost use Rattle.std.specs.List.{list_any};
ghost use Rattle.std.specs.List.Sorted.{IsSorted, IsPermutation};
ghost use Rattle.std.specs.Ordering.{is_eq};
ghost use Rattle.gp_base.specs.Identities.{identity_cmp};
ghost use Rattle.gp_txn.specs.CarriedCode.{carried_id};
ghost use Rattle.gp_txn.specs.Overlay.{is_carried};

use gp_base::{NoMemory, Row, RowId};
use std::alloc::Global;
use std::marker::Model;

/// A row that the transaction wrote over an earlier version than the one that its slots lie over.
#[derive(Drop)]
pub struct Carried {
    /// Its identity.
    pub id: RowId,
    /// The version that the statement read that wrote the row first. A later commit of the row is a conflict.
    pub base: u32,
    /// The cells that the transaction sees, or None if it deleted the row.
    pub row: Option<Row>,
}

/// Rows that the transaction wrote over earlier versions. Contracts see a list of rows. Their identities are sorted beside
/// it, once, so that a pass over the rows of a version skips them with a binary search for each row. There are none in a
/// transaction of the snapshot kind.
#[derive(Drop)]
pub struct CarriedRows {
    list: Vec<Carried>,
    ids: Vec<RowId>,
}

impl Model for CarriedRows {
    ghost use Rattle.std.specs.Prelude.{List, map};
    ghost use Rattle.std.specs.List.Sorted.{IsSorted, IsPermutation};
    ghost use Rattle.gp_base.specs.Identities.{identity_cmp};
    ghost use Rattle.gp_txn.specs.declared.carried.Carried.{Carried};
    ghost use Rattle.gp_txn.specs.contracts.carried.Carried as carried;
    ghost use Rattle.std.specs.Coded.{coded_list};
    ghost use Rattle.gp_txn.specs.CarriedCode.{carried_id};

    ghost Value = { List Carried };

    ghost coded = { coded_list carried.the_row.coded };

    ghost view = { λ a. a.list.items };

    ghost invariant = { λ a. IsSorted identity_cmp a.ids.items
        × IsPermutation (map carried_id a.list.items) a.ids.items };
}

/// The identities of the rows, sorted.
fn sorted_ids(alloc: Global, list: &[Carried]) -> Result<Vec<RowId>, NoMemory>
    ensures sorted { IfOk result (λ ids. IsSorted identity_cmp ids.items) }
    ensures permutation { IfOk result
        (λ ids. IsPermutation (map carried_id list.now) ids.items) }
{
    let mut ids = Vec::with_capacity(alloc, list.len())?;
    for row in list {
        ids.push(row.id.clone()?)?;
    }
    ids.sort()?;
    Ok(ids)
}

/// Whether the identity is among these, which are sorted.
fn is_among(ids: &[RowId], id: &RowId) -> bool
    requires { IsSorted identity_cmp ids.now }
    ensures { result ≡ list_any (λ other. is_eq (identity_cmp other id.now)) ids.now }
{
    ids.binary_search(id).is_ok()
}

impl CarriedRows {
    /// No rows.
    pub fn new(alloc: Global) -> CarriedRows
        ensures { result ≡ [] }
    {
        CarriedRows {
            list: Vec::new(alloc),
            ids: Vec::new(alloc),
        }
    }

    /// These rows.
    pub fn from_vec(alloc: Global, list: Vec<Carried>) -> Result<CarriedRows, NoMemory>
        ensures { IfOk result (λ rows. rows ≡ list.items) }
    {
        let ids = sorted_ids(alloc, &list)?;
        Ok(CarriedRows { list, ids })
    }

    /// Whether a row with this identity is among them.
    pub fn has(&self, id: &RowId) -> bool
        ensures { result ≡ is_carried self.now id.now }
    {
        is_among(self.ids.as_slice(), id)
    }

    /// The rows.
    pub fn as_slice(&self) -> &[Carried]
        ensures { result.now ≡ self.now }
    {
        self.list.as_slice()
    }
}
