//! What a running transaction wrote of a table.

ghost use Rattle.std.specs.Prelude.{◌≡◌};
ghost use Rattle.gp_txn.specs.Overlay.{no_writes};

use crate::carried::CarriedRows;
use crate::slots::Slots;
use gp_base::{Row, Sequence, Stored};
use std::alloc::Global;

/// What the transaction did to a row of the version that its writes lie over.
#[derive(Drop)]
pub enum Slot {
    /// Nothing.
    Same,
    /// It put these cells into the row.
    Put(Row),
    /// It deleted the row.
    Dropped,
}

/// What the transaction did to a row of the version, at the place of the row's span among the spans of its table. Spans are
/// appended and never moved, so that a place stays that of its row.
#[derive(Drop)]
pub struct Placed {
    /// The place.
    pub place: u32,
    /// What it did.
    pub slot: Slot,
}

/// What the transaction wrote of a table, over the rows of a version: the last one that a statement read that wrote the
/// table. A write over that version is found by its place and not by its identity, so that a statement passes over the rows
/// of the version once and searches nothing.
#[derive(Drop)]
pub struct TableWrites {
    /// The version.
    pub version: u32,
    /// What it did to rows of the version that are not carried. Rows without a slot are as they were.
    pub slots: Slots,
    /// The rows that it wrote over earlier versions, with those of later ones first.
    pub carried: CarriedRows,
    /// The rows that it inserted and that it sees.
    pub own: Sequence<Stored>,
}

impl TableWrites {
    /// No writes, over this version.
    pub fn new(alloc: Global, version: u32) -> TableWrites
        ensures { result ≡ no_writes version }
    {
        TableWrites {
            version,
            slots: Slots::new(alloc),
            carried: CarriedRows::new(alloc),
            own: Sequence::new(alloc),
        }
    }
}
