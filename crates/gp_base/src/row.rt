//! Rows of a table.

ghost use Rattle.std.specs.Prelude.{◌≡◌, ◌++◌, ◌∷◌, [], IfOk, OnOk, OnErr};
ghost use Rattle.gp_base.specs.CellForms.{AreInRange};

use crate::cell::Cell;
use crate::error::NoMemory;
use crate::sequence::Sequence;
use std::alloc::{AllocError, Global};
use std::marker::Model;

/// The cells of a row, in the order of its columns. Contracts see a row as a list of cells and know that each number in it
/// fits 64 bits with sign. Rows compare lexicographically, so a proper prefix is less.
#[derive(Drop, PartialEq, Eq, PartialOrd, Ord)]
pub struct Row {
    cells: Sequence<Cell>,
}

impl Model for Row {
    ghost use Rattle.std.specs.Prelude.{List};
    ghost use Rattle.gp_base.specs.declared.cell.Cell.{Cell};
    ghost use Rattle.gp_base.specs.contracts.cell.Cell as cell;
    ghost use Rattle.std.specs.Coded.{coded_list};
    ghost use Rattle.gp_base.specs.CellForms.{AreInRange};

    ghost Value = { List Cell };

    ghost coded = { coded_list cell.the_row.coded };

    ghost view = { λ a. a.cells };

    ghost invariant = { λ a. AreInRange a.cells };

    ghost inverse = { λ cells. record { cells = cells } };
}

impl Row {
    /// A row with no cells.
    pub fn new(alloc: Global) -> Row
        ensures { result ≡ [] }
    {
        Row {
            cells: Sequence::new(alloc),
        }
    }

    /// A row with no cells, and room for this many. Running out of memory is the only error.
    pub fn with_capacity(alloc: Global, capacity: usize) -> Result<Row, NoMemory>
        ensures { IfOk result (λ row. row ≡ []) }
    {
        Ok(Row {
            cells: Sequence::with_capacity(alloc, capacity)?,
        })
    }

    /// The cells of the row.
    pub fn cells(&self) -> &[Cell]
        ensures cells { result.now ≡ self.now }
        ensures in_range { AreInRange self.now }
    {
        self.cells.as_slice()
    }

    /// Adds a cell at the end. If memory runs out, the row is unchanged.
    #[tactic(auto, using(crate::proofs::CellLemmas::rows_in_range))]
    pub fn push(&mut self, cell: Cell) -> Result<(), NoMemory>
        ensures ok { OnOk result (self.new ≡ self.old ++ cell ∷ []) }
        ensures unchanged { OnErr result (self.new ≡ self.old) }
    {
        self.cells.push(cell)?;
        Ok(())
    }
}

impl Clone for Row {
    ghost is_clone = { λ value copy. copy ≡ value };

    fn clone(&self) -> Result<Row, AllocError> {
        Ok(Row {
            cells: self.cells.clone()?,
        })
    }
}
