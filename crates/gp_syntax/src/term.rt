//! Terms.

use gp_base::{Name, Text};
use gp_grammar::Op;

/// A term of a SELECT, an UPDATE or a WHERE. Whether it is a value or a condition is not known before its names are
/// resolved.
#[derive(Drop)]
pub enum Term {
    /// `NULL`
    Null,
    /// A number. The parser gives none below zero, since there the sign is an operator.
    Int(i64),
    /// A text.
    Text(Text),
    /// A column, with the FROM name before it where one is written.
    Col {
        /// The FROM name.
        item: Option<Name>,
        /// The column.
        col: Name,
    },
    /// Two terms with an operator between them.
    Binary {
        /// The operator.
        op: Op,
        /// The left operand.
        left: Box<Term>,
        /// The right operand.
        right: Box<Term>,
    },
    /// A term with the sign `-`.
    Neg(Box<Term>),
    /// `NOT`
    Not(Box<Term>),
    /// `IS NULL`, or `IS NOT NULL` where `yes` is false.
    IsNull {
        /// The term that is tested.
        term: Box<Term>,
        /// False where NOT is written.
        yes: bool,
    },
    /// `IS TRUE`, or `IS NOT TRUE` where `yes` is false.
    IsTrue {
        /// The term that is tested.
        term: Box<Term>,
        /// False where NOT is written.
        yes: bool,
    },
    /// `CASE WHEN when THEN first ELSE other END`
    Case {
        /// The condition.
        when: Box<Term>,
        /// The value where the condition is true.
        first: Box<Term>,
        /// The value where it is not.
        other: Box<Term>,
    },
}
