//! The value of a cell.

ghost use Rattle.std.specs.Prelude.{◌≡◌, IfOk};
ghost use Rattle.gp_base.specs.CellForms.{cell_view};

use crate::error::NoMemory;
use crate::monomial::Monomial;
use crate::row_id::RowId;
use crate::text::Text;

/// The value of a cell. In ascending order NULL is first, then come the numbers, then the texts. SQL (ISO/IEC 9075-2)
/// leaves the place of NULL to the implementation. The rows of a table have these three kinds only. The other three are
/// in the system columns of rewritten queries, where a row carries its identity, whether a transaction wrote it, and its
/// provenance.
#[derive(Clone, Drop, PartialEq, Eq, PartialOrd, Ord)]
pub enum Cell {
    /// No value.
    Null,
    /// An integer of 64 bits with sign.
    Int(i64),
    /// A text, which compares by its bytes.
    Text(Text),
    /// The identity of a row.
    Id(RowId),
    /// Whether a transaction wrote the row.
    Mark(bool),
    /// The provenance of one occurrence of a row.
    Mono(Monomial),
}

/// The value of a cell, borrowed.
#[derive(Clone, Copy)]
pub enum CellRef<'a> {
    /// No value.
    Null,
    /// An integer of 64 bits with sign.
    Int(i64),
    /// A text.
    Text(&'a Text),
    /// The identity of a row.
    Id(&'a RowId),
    /// Whether a transaction wrote the row.
    Mark(bool),
    /// The provenance of one occurrence of a row.
    Mono(&'a Monomial),
}

impl Cell {
    /// The cell, borrowed.
    pub fn as_ref(&self) -> CellRef<'_>
        ensures { cell_view result ≡ self.now }
    {
        match self {
            Cell::Null => CellRef::Null,
            Cell::Int(number) => CellRef::Int(*number),
            Cell::Text(text) => CellRef::Text(text),
            Cell::Id(id) => CellRef::Id(id),
            Cell::Mark(mark) => CellRef::Mark(*mark),
            Cell::Mono(monomial) => CellRef::Mono(monomial),
        }
    }
}

impl<'a> CellRef<'a> {
    /// A copy of the cell. Running out of memory is the only error.
    pub fn to_cell(self) -> Result<Cell, NoMemory>
        ensures { IfOk result (λ cell. cell ≡ cell_view self.entry) }
    {
        match self {
            CellRef::Null => Ok(Cell::Null),
            CellRef::Int(number) => Ok(Cell::Int(number)),
            CellRef::Text(text) => Ok(Cell::Text(text.clone()?)),
            CellRef::Id(id) => Ok(Cell::Id(id.clone()?)),
            CellRef::Mark(mark) => Ok(Cell::Mark(mark)),
            CellRef::Mono(monomial) => Ok(Cell::Mono(monomial.clone()?)),
        }
    }
}
