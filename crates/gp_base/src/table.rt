//! The description of a table: its name and its columns. Whether the names of columns differ is checked where a table is
//! created, so these types allow equal names.

use crate::name::Name;
use crate::sequence::Sequence;

/// The type of the values of a column, which may also be NULL.
#[derive(Clone, Copy, PartialEq, Eq)]
pub enum Kind {
    /// Integers of 64 bits with sign.
    Int,
    /// Texts.
    Text,
}

/// A column of a table.
#[derive(Clone, Drop, PartialEq, Eq)]
pub struct Column {
    /// Its name.
    pub name: Name,
    /// The type of its values.
    pub kind: Kind,
}

/// A table: its name and its columns.
#[derive(Clone, Drop, PartialEq, Eq)]
pub struct Table {
    /// Its name.
    pub name: Name,
    /// Its columns, from left to right.
    pub cols: Sequence<Column>,
}
