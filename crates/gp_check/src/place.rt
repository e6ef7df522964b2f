//! Columns by number.

use gp_base::Kind;

/// A column, where the columns of all tables of a FROM stand side by side.
#[derive(Clone, Copy)]
pub struct Place {
    /// Its number, from 1.
    pub number: u32,
    /// Its type.
    pub kind: Kind,
}

/// The columns that a name can stand for.
#[derive(Clone, Copy)]
pub enum Resolution {
    /// There is none.
    Absent,
    /// There is one.
    Found(Place),
    /// Several tables have one.
    Ambiguous,
}
