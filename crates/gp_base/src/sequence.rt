//! The list type of this program.

ghost use Rattle.std.specs.Prelude.{◌≡◌, ◌++◌, ◌∷◌, [], IfOk, OnOk, OnErr};

use crate::error::NoMemory;
use std::alloc::{AllocError, Global};
use std::cmp::Ordering;
use std::marker::Model;

/// A growing list. Contracts see it as a mathematical list: two sequences with equal items are equal, whatever their
/// capacities. A `Vec` in a contract is no such value, which is why types that contracts compare hold a `Sequence`.
#[derive(Drop)]
pub struct Sequence<T> {
    items: Vec<T>,
}

impl<T> Model for Sequence<T> {
    ghost use Rattle.std.specs.Prelude.{List};

    ghost Value = { List T };

    ghost view = { λ a. a.items.items };
}

impl<T> Sequence<T> {
    /// A sequence with no items.
    pub fn new(alloc: Global) -> Sequence<T>
        ensures { result ≡ [] }
    {
        Sequence {
            items: Vec::new(alloc),
        }
    }

    /// A sequence with no items, and room for this many. Running out of memory is the only error.
    pub fn with_capacity(alloc: Global, capacity: usize) -> Result<Sequence<T>, NoMemory>
        ensures { IfOk result (λ list. list ≡ []) }
    {
        Ok(Sequence {
            items: Vec::with_capacity(alloc, capacity)?,
        })
    }

    /// The items of a vector.
    pub fn from_vec(items: Vec<T>) -> Sequence<T>
        ensures { result ≡ items.items }
    {
        Sequence { items }
    }

    /// A copy of the items of a slice. Running out of memory is the only error.
    pub fn from_slice(alloc: Global, items: &[T]) -> Result<Sequence<T>, NoMemory>
    where
        T: Copy,
        ensures { IfOk result (λ list. list ≡ items.now) }
    {
        Ok(Sequence {
            items: Vec::from_slice(alloc, items)?,
        })
    }

    /// The items as a vector.
    pub fn into_vec(self) -> Vec<T>
        ensures { result.items ≡ self }
    {
        self.items
    }

    /// The items as a slice.
    pub fn as_slice(&self) -> &[T]
        ensures { result.now ≡ self.now }
    {
        self.items.as_slice()
    }

    /// Adds an item at the end. If memory runs out, the sequence is unchanged.
    pub fn push(&mut self, item: T) -> Result<(), NoMemory>
    where
        T: Drop,
        ensures ok { OnOk result (self.new ≡ self.old ++ item ∷ []) }
        ensures unchanged { OnErr result (self.new ≡ self.old) }
    {
        self.items.push(item)?;
        Ok(())
    }
}

impl<T: Drop> Sequence<T> {
    /// Moves the items of another sequence to the end. If memory runs out, this sequence is unchanged.
    pub fn append(&mut self, others: Sequence<T>) -> Result<(), NoMemory>
        ensures ok { OnOk result (self.new ≡ self.old ++ others) }
        ensures unchanged { OnErr result (self.new ≡ self.old) }
    {
        let mut others = others.items;
        self.items.append(&mut others)?;
        Ok(())
    }
}

impl<T: Clone> Clone for Sequence<T> {
    // Clones of items are known only by the item's own relation. Where that relation implies equality, as it does for every
    // type of this crate, the copy is equal to the original.
    ghost is_clone = { λ list copy.
        ((item other : T) → T.is_clone item other → other ≡ item) → copy ≡ list };

    fn clone(&self) -> Result<Sequence<T>, AllocError> {
        Ok(Sequence {
            items: self.items.clone()?,
        })
    }
}

impl<T: PartialEq> PartialEq for Sequence<T> {
    ghost use Rattle.std.specs.Cmp.Lexicographic.{pointwise, lists_per};

    ghost eq = { pointwise T.eq };

    ghost laws = { lists_per T.PartialEq.laws };

    fn eq(&self, other: &Sequence<T>) -> bool {
        self.items == other.items
    }
}

impl<T: Eq> Eq for Sequence<T> {
    ghost use Rattle.std.specs.Cmp.Lexicographic.{lists_equiv};

    ghost laws = { lists_equiv T.Eq.laws };
}

impl<T: PartialOrd> PartialOrd for Sequence<T> {
    ghost use Rattle.std.specs.Cmp.Lexicographic.{slice_partial_cmp, lists_po};

    ghost partial_cmp = { slice_partial_cmp T.partial_cmp };

    ghost laws = { lists_po T.PartialOrd.laws };

    fn partial_cmp(&self, other: &Sequence<T>) -> Option<Ordering> {
        self.items.partial_cmp(&other.items)
    }
}

impl<T: Ord> Ord for Sequence<T> {
    ghost use Rattle.std.specs.Cmp.Lexicographic.{slice_cmp, lists_total, lists_agrees, lists_ties};

    ghost cmp = { slice_cmp T.cmp };

    ghost total = { lists_total T.total };

    ghost matches_partial_cmp = { lists_agrees T.matches_partial_cmp };

    ghost matches_eq = { lists_ties T.cmp T.matches_eq };

    fn cmp(&self, other: &Sequence<T>) -> Ordering {
        self.items.cmp(&other.items)
    }
}
