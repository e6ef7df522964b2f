//! The types of terms, and when they agree.

ghost use Rattle.std.specs.Prelude.{◌≡◌};
ghost use Rattle.gp_check.specs.Typing as t;

use gp_base::{Cell, Kind};
use gp_grammar::Op;

/// The type of a well typed term.
#[derive(Clone, Copy)]
pub enum TermType {
    /// That of the literal NULL, which agrees with INT and TEXT.
    Null,
    /// Numbers.
    Int,
    /// Texts.
    Text,
    /// Conditions, which are no values.
    Condition,
}

/// The type of the values of a column.
pub fn kind_type(kind: Kind) -> TermType
    ensures { result ≡ t.kind_type kind }
{
    match kind {
        Kind::Int => TermType::Int,
        Kind::Text => TermType::Text,
    }
}

/// The type of a literal. A cell of a system column has no type of the language, and gets that of NULL.
pub fn cell_type(cell: &Cell) -> TermType
    ensures { result ≡ t.cell_type cell.now }
{
    match cell {
        Cell::Null => TermType::Null,
        Cell::Int(_) => TermType::Int,
        Cell::Text(_) => TermType::Text,
        Cell::Id(_) | Cell::Mark(_) | Cell::Mono(_) => TermType::Null,
    }
}

/// Whether the type is one of values.
fn is_value(term_type: TermType) -> bool
    ensures { result ≡ t.is_value term_type }
{
    match term_type {
        TermType::Condition => false,
        _ => true,
    }
}

/// Whether both are types of values and agree: they are equal, or one is that of NULL.
pub fn agrees(one: TermType, other: TermType) -> bool
    ensures { result ≡ t.agrees one other }
{
    match (one, other) {
        (TermType::Null, other) => is_value(other),
        (one, TermType::Null) => is_value(one),
        (TermType::Int, TermType::Int) => true,
        (TermType::Text, TermType::Text) => true,
        _ => false,
    }
}

/// What two types that agree have in common: the type of NULL only if both are that.
fn common_type(one: TermType, other: TermType) -> TermType
    ensures { result ≡ t.common_type one other }
{
    match one {
        TermType::Null => other,
        one => one,
    }
}

/// Whether a term is well typed and a value.
pub fn is_value_type(operand: Option<TermType>) -> bool
    ensures { result ≡ t.operand_passes t.is_value operand }
{
    match operand {
        None => false,
        Some(term_type) => is_value(term_type),
    }
}

/// Whether a term is well typed and a number or NULL.
pub fn is_number_type(operand: Option<TermType>) -> bool
    ensures { result ≡ t.operand_passes t.is_number operand }
{
    match operand {
        None => false,
        Some(term_type) => agrees(TermType::Int, term_type),
    }
}

/// Whether a term is well typed and a condition.
pub fn is_condition_type(operand: Option<TermType>) -> bool
    ensures { result ≡ t.is_condition operand }
{
    match operand {
        Some(TermType::Condition) => true,
        _ => false,
    }
}

/// Whether two terms are well typed and agree.
pub fn operands_agree(one: Option<TermType>, other: Option<TermType>) -> bool
    ensures { result ≡ t.operands_agree one other }
{
    match (one, other) {
        (Some(one), Some(other)) => agrees(one, other),
        _ => false,
    }
}

/// The type where the operands are right.
pub fn typed_if(right: bool, term_type: TermType) -> Option<TermType>
    ensures { result ≡ t.typed_if right term_type }
{
    if right { Some(term_type) } else { None }
}

/// The type of two terms with an operator between them.
pub fn operation_type(op: Op, left: Option<TermType>, right: Option<TermType>) -> Option<TermType>
    ensures { result ≡ t.operation_type (t.operation op) left right }
{
    match op {
        Op::Add | Op::Sub | Op::Mul => {
            typed_if(is_number_type(left) && is_number_type(right), TermType::Int)
        }
        Op::Eq | Op::Ne | Op::Lt | Op::Le | Op::Gt | Op::Ge => {
            typed_if(operands_agree(left, right), TermType::Condition)
        }
        Op::And | Op::Or => {
            typed_if(
                is_condition_type(left) && is_condition_type(right),
                TermType::Condition,
            )
        }
    }
}

/// The type of a CASE with these values.
pub fn choice_type(first: Option<TermType>, other: Option<TermType>) -> Option<TermType>
    ensures { result ≡ t.choice_type first other }
{
    match (first, other) {
        (Some(first), Some(other)) => typed_if(agrees(first, other), common_type(first, other)),
        _ => None,
    }
}
