//! Identities of rows.

ghost use Rattle.std.specs.Prelude.{◌≡◌, ◌<◌, ◌≤◌, IfSome, MatchOption};
ghost use Rattle.std.specs.Ordering.{eq_by_cmp, as_partial_cmp};
ghost use Rattle.std.specs.Cmp.{eq_by_cmp_equiv, partial_equiv_from_equiv, po};
ghost use Rattle.gp_base.specs.Identities.{identity, identity_cmp, no_sources, nodes, nodes_in, sources_cmp};
ghost use Rattle.gp_base.specs.IdentityParts.{identity_statement, identity_transaction};
ghost use Rattle.gp_base.specs.IdentityForms.{AreIdentities, IsIdentity, number_of, sources_in, sources_of};
ghost use Rattle.gp_base.specs.IdentityOrder.{identity_cmp_total};

use std::alloc::{AllocError, Global};
use std::cmp::Ordering;
use std::marker::Model;

/// An identity has at most this many nodes.
pub const MAX_NODES: u32 = 64;

/// The identity of a row: the transaction and the statement that made it, its number there, and the identities of the
/// rows that it was computed from. An UPDATE keeps it. Its nodes are the identities that it consists of, itself included;
/// there are at most [`MAX_NODES`]. Identities compare by transaction, statement and number, then by their sources, where
/// a proper prefix is less.
#[derive(Drop)]
pub struct RowId {
    t: u32,
    k: u32,
    n: u32,
    node_count: u32,
    sources: Vec<RowId>,
}

impl Model for RowId {
    ghost use Rattle.std.specs.Prelude.{◌≡◌};
    ghost use Rattle.std.proofs.Common.{arith};
    ghost use Rattle.gp_base.specs.Identities.{Identity, identity, nodes};
    ghost use Rattle.gp_base.specs.IdentityForms.{IsIdentity, sources_of};
    ghost use Rattle.gp_base.specs.IdentityCodes.{coded_identity, most_le-nodes};

    ghost Value = { Identity };

    ghost coded = { coded_identity };

    ghost view = { λ a. identity a.t a.k a.n (sources_of a.sources.items) };

    ghost invariant = { λ a. (a.node_count ≡ nodes (identity a.t a.k a.n (sources_of a.sources.items)))
        × IsIdentity (identity a.t a.k a.n (sources_of a.sources.items)) };

    ghost size = { nodes };

    ghost size_decreases = { λ a h. Prim.omega (arith, most_le-nodes a.sources.items) };
}

/// The number of nodes of all of these together, or None if there are [`MAX_NODES`] or more.
fn nodes_in(ids: &[RowId]) -> Option<u32>
    ensures count { MatchOption result (MAX_NODES ≤ nodes_in (sources_of ids.now))
        (λ count. count ≡ nodes_in (sources_of ids.now)) }
    ensures few { IfSome result (λ count. count < MAX_NODES) }
    ensures valid { IfSome result (λ _. AreIdentities (sources_of ids.now)) }
{
    let mut count: u32 = 0;
    for id in ids {
        count += id.nodes();
        if count >= MAX_NODES {
            return None;
        }
    }
    Some(count)
}

impl RowId {
    /// An identity, or None if it has more than [`MAX_NODES`] nodes. Transactions, statements and numbers count from 1.
    pub fn new(t: u32, k: u32, n: u32, sources: Vec<RowId>) -> Option<RowId>
        ensures { MatchOption result
            (MAX_NODES < nodes (identity t k n (sources_of sources.items)))
            (λ id. id ≡ identity t k n (sources_of sources.items)) }
    {
        let node_count = nodes_in(&sources)? + 1;
        Some(RowId {
            t,
            k,
            n,
            node_count,
            sources,
        })
    }

    /// The identity of row n of a VALUES list, which is made of no other row.
    pub fn given(alloc: Global, t: u32, k: u32, n: u32) -> RowId
        ensures { result ≡ identity t k n no_sources }
    {
        match RowId::new(t, k, n, Vec::new(alloc)) {
            Some(id) => id,
            None => unreachable!(),
        }
    }

    /// The transaction that made the row, from 1.
    pub fn t(&self) -> u32
        ensures { result ≡ identity_transaction self.now }
    {
        self.t
    }

    /// The statement that made the row, from 1.
    pub fn k(&self) -> u32
        ensures { result ≡ identity_statement self.now }
    {
        self.k
    }

    /// The number of the row in its VALUES list, or of the branch of the query, from 1.
    pub fn n(&self) -> u32
        ensures { result ≡ number_of self.now }
    {
        self.n
    }

    /// The identities of the rows that the row was computed from.
    pub fn sources(&self) -> &[RowId]
        ensures { sources_of result.now ≡ sources_in self.now }
    {
        &self.sources
    }

    /// How many identities it consists of, itself included: 1 to [`MAX_NODES`].
    pub fn nodes(&self) -> u32
        ensures count { result ≡ nodes self.now }
        ensures few { result ≤ MAX_NODES }
        ensures valid { IsIdentity self.now }
    {
        self.node_count
    }

    /// The order of identities.
    #[cycle(identity_order)]
    pub fn compare(&self, other: &RowId) -> Ordering
        ensures { result ≡ identity_cmp self.now other.now }
    {
        match self.t.cmp(&other.t) {
            Ordering::Equal => match self.k.cmp(&other.k) {
                Ordering::Equal => match self.n.cmp(&other.n) {
                    Ordering::Equal => compare_sources(&self.sources, &other.sources),
                    by_number => by_number,
                },
                by_statement => by_statement,
            },
            by_transaction => by_transaction,
        }
    }
}

/// The order of lists of identities: a proper prefix is less.
#[cycle(identity_order)]
fn compare_sources(left: &[RowId], right: &[RowId]) -> Ordering
    ensures { result ≡ sources_cmp (sources_of left.now) (sources_of right.now) }
{
    match left {
        [] => match right {
            [] => Ordering::Equal,
            [_, ..] => Ordering::Less,
        },
        [first, firsts @ ..] => match right {
            [] => Ordering::Greater,
            [second, seconds @ ..] => match first.compare(second) {
                Ordering::Equal => compare_sources(firsts, seconds),
                by_first => by_first,
            },
        },
    }
}

impl Clone for RowId {
    ghost is_clone = { λ value copy. copy ≡ value };

    fn clone(&self) -> Result<RowId, AllocError> {
        let mut sources = Vec::new(*self.sources.allocator());
        for source in &self.sources {
            sources.push(source.clone()?)?;
        }
        Ok(RowId {
            t: self.t,
            k: self.k,
            n: self.n,
            node_count: self.node_count,
            sources,
        })
    }
}

impl PartialEq for RowId {
    ghost eq = { eq_by_cmp identity_cmp };

    ghost laws = { partial_equiv_from_equiv (eq_by_cmp_equiv identity_cmp_total) };

    fn eq(&self, other: &RowId) -> bool {
        self.compare(other) == Ordering::Equal
    }
}

impl Eq for RowId {
    ghost laws = { eq_by_cmp_equiv identity_cmp_total };
}

impl PartialOrd for RowId {
    ghost use Rattle.std.specs.Prelude.{refl};

    ghost partial_cmp = { as_partial_cmp identity_cmp };

    ghost laws = { po identity_cmp_total (λ x y. refl) };

    fn partial_cmp(&self, other: &RowId) -> Option<Ordering> {
        Some(self.compare(other))
    }
}

impl Ord for RowId {
    ghost use Rattle.std.specs.Prelude.{refl};

    ghost cmp = { identity_cmp };

    ghost total = { identity_cmp_total };

    ghost matches_partial_cmp = { λ x y. refl };

    ghost matches_eq = { λ x y. refl };

    fn cmp(&self, other: &RowId) -> Ordering {
        self.compare(other)
    }
}
