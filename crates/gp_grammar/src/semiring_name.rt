//! The names of the semirings.

/// A semiring, as a question names it.
#[derive(Clone, Copy, PartialEq, Eq)]
pub enum SemiringName {
    /// `COUNT`
    Count,
    /// `BOOL`
    Bool,
    /// `COST`
    Cost,
    /// `LEVEL`
    Level,
    /// `POLY`
    Poly,
    /// `WITNESS`
    Witness,
}
