//! A table of a FROM.

ghost use Rattle.std.specs.Prelude.{◌+◌, ◌<◌, ◌^◌, length};

use gp_base::{Column, Name};

/// A table that columns can be of.
#[derive(Clone, Copy)]
pub struct Source<'a> {
    /// Its name in the statement.
    pub name: &'a Name,
    /// The number of columns before its own.
    pub before: u32,
    /// Its columns.
    pub columns: &'a [Column],
    // The numbers of its columns fit 32 bits.
    ghost numbered: { before + length columns.now < 2 ^ 32 },
}
