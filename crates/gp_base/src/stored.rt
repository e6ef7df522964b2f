//! Rows with their identities.

use crate::row::Row;
use crate::row_id::RowId;

/// A row of a table with its identity.
#[derive(Drop)]
pub struct Stored {
    /// The identity.
    pub id: RowId,
    /// The cells.
    pub row: Row,
}
