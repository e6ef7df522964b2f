//! The truth of a condition.

ghost use Rattle.std.specs.Prelude.{◌≡◌};
ghost use Rattle.gp_expr.specs.Values as v;

/// A truth value of SQL (ISO/IEC 9075-2).
#[derive(Clone, Copy, PartialEq, Eq)]
pub enum Ternary {
    /// The condition is true.
    True,
    /// It is false.
    False,
    /// A comparison in it had a NULL.
    Unknown,
}

impl Ternary {
    /// Whether it is true: WHERE and CASE ask for this.
    pub fn holds(self) -> bool
        ensures { result ≡ v.holds self }
    {
        match self {
            Ternary::True => true,
            Ternary::False | Ternary::Unknown => false,
        }
    }

    /// AND: false if one is false, else unknown if one is unknown.
    pub fn and(self, other: Ternary) -> Ternary
        ensures { result ≡ v.both self other }
    {
        match (self, other) {
            (Ternary::True, _) => other,
            (Ternary::False, _) => Ternary::False,
            (Ternary::Unknown, Ternary::False) => Ternary::False,
            (Ternary::Unknown, _) => Ternary::Unknown,
        }
    }

    /// OR: true if one is true, else unknown if one is unknown.
    pub fn or(self, other: Ternary) -> Ternary
        ensures { result ≡ v.either self other }
    {
        match (self, other) {
            (Ternary::True, _) => Ternary::True,
            (Ternary::False, _) => other,
            (Ternary::Unknown, Ternary::True) => Ternary::True,
            (Ternary::Unknown, _) => Ternary::Unknown,
        }
    }

    /// NOT: of unknown it is unknown.
    pub fn not(self) -> Ternary
        ensures { result ≡ v.negation self }
    {
        match self {
            Ternary::True => Ternary::False,
            Ternary::False => Ternary::True,
            Ternary::Unknown => Ternary::Unknown,
        }
    }
}
