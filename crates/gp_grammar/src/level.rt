//! The levels of precedence.

/// A level of precedence at which operators group to the left, from the loosest to the tightest. Comparisons, NOT and
/// the sign do not group and are no levels.
#[derive(Clone, Copy, PartialEq, Eq)]
pub enum Level {
    /// `OR`
    Disjunction,
    /// `AND`
    Conjunction,
    /// `+` and `-`
    Sum,
    /// `*`
    Product,
}
