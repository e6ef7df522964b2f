//! The writes of a commit, with their identities in order.

ghost use Rattle.std.specs.Prelude.{◌≡◌, [], map, IfOk};
ghost use Rattle.std.specs.List.{list_any};
ghost use Rattle.std.specs.List.Sorted.{IsSorted, IsPermutation};
ghost use Rattle.std.specs.Ordering.{is_eq};
ghost use Rattle.gp_base.specs.Identities.{identity_cmp};
ghost use Rattle.gp_versions.specs.Commits.{is_written};
ghost use Rattle.gp_versions.specs.Written.{id_of};

use crate::span::Write;
use gp_base::{NoMemory, RowId};
use std::alloc::Global;
use std::marker::Model;

/// The writes of a commit to one table, in order. Contracts see a list of writes. Their identities are sorted beside it,
/// once, so that a pass over spans that are not entered is one binary search for each of them.
#[derive(Drop)]
pub struct Writes {
    list: Vec<Write>,
    ids: Vec<RowId>,
}

impl Model for Writes {
    ghost use Rattle.std.specs.Prelude.{List, map};
    ghost use Rattle.std.specs.List.Sorted.{IsSorted, IsPermutation};
    ghost use Rattle.gp_base.specs.Identities.{identity_cmp};
    ghost use Rattle.gp_versions.specs.declared.span.Write.{Write};
    ghost use Rattle.gp_versions.specs.contracts.span.Write as write;
    ghost use Rattle.std.specs.Coded.{coded_list};
    ghost use Rattle.gp_versions.specs.Written.{id_of};

    ghost Value = { List Write };

    ghost coded = { coded_list write.the_row.coded };

    ghost view = { λ a. a.list.items };

    ghost invariant = { λ a. IsSorted identity_cmp a.ids.items
        × IsPermutation (map id_of a.list.items) a.ids.items };
}

/// The identities of the writes, sorted.
fn sorted_ids(alloc: Global, list: &[Write]) -> Result<Vec<RowId>, NoMemory>
    ensures sorted { IfOk result (λ ids. IsSorted identity_cmp ids.items) }
    ensures permutation { IfOk result (λ ids. IsPermutation (map id_of list.now) ids.items) }
{
    let mut ids = Vec::with_capacity(alloc, list.len())?;
    for write in list {
        ids.push(write.id.clone()?)?;
    }
    ids.sort()?;
    Ok(ids)
}

/// Whether the identity is among these, which are sorted.
fn is_among(ids: &[RowId], id: &RowId) -> bool
    requires { IsSorted identity_cmp ids.now }
    ensures { result ≡ list_any (λ other. is_eq (identity_cmp other id.now)) ids.now }
{
    ids.binary_search(id).is_ok()
}

impl Writes {
    /// No writes.
    pub fn new(alloc: Global) -> Writes
        ensures { result ≡ [] }
    {
        Writes {
            list: Vec::new(alloc),
            ids: Vec::new(alloc),
        }
    }

    /// These writes.
    pub fn from_vec(alloc: Global, list: Vec<Write>) -> Result<Writes, NoMemory>
        ensures { IfOk result (λ writes. writes ≡ list.items) }
    {
        let ids = sorted_ids(alloc, &list)?;
        Ok(Writes { list, ids })
    }

    /// Whether there is a write of the identity.
    pub fn has(&self, id: &RowId) -> bool
        ensures { result ≡ is_written self.now id.now }
    {
        is_among(self.ids.as_slice(), id)
    }

    /// The writes.
    pub fn as_slice(&self) -> &[Write]
        ensures { result.now ≡ self.now }
    {
        self.list.as_slice()
    }

    /// The writes as a vector.
    pub fn into_vec(self) -> Vec<Write>
        ensures { result.items ≡ self }
    {
        self.list
    }
}
