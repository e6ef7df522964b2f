//! Spans and writes.

ghost use Rattle.std.specs.Prelude.{◌≡◌};
ghost use Rattle.gp_versions.specs.Spans.{holds_at};

use gp_base::{Row, RowId};

/// A row with the versions at which its table has it.
#[derive(Drop)]
pub struct Span {
    /// The identity of the row.
    pub id: RowId,
    /// The first version.
    pub from: u32,
    /// The first version that does not have the row any more, or None as long as there is none.
    pub to: Option<u32>,
    /// The cells.
    pub row: Row,
}

/// What a transaction leaves of a row that it wrote.
#[derive(Drop)]
pub struct Write {
    /// The identity of the row.
    pub id: RowId,
    /// The cells, or None if the row is deleted.
    pub row: Option<Row>,
}

impl Span {
    /// Whether the table has the row at this version.
    pub fn holds(&self, v: u32) -> bool
        ensures { result ≡ holds_at v self.now }
    {
        self.from <= v
            && match self.to {
                None => true,
                Some(to) => v < to,
            }
    }
}
