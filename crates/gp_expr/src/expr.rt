//! Expressions and conditions.

use gp_base::Cell;

/// A comparison operator.
#[derive(Clone, Copy, PartialEq, Eq)]
pub enum Cmp {
    /// `=`
    Eq,
    /// `<>`
    Ne,
    /// `<`
    Lt,
    /// `<=`
    Le,
    /// `>`
    Gt,
    /// `>=`
    Ge,
}

/// An expression over the cells of a row. Its value is a cell, and NULL where an operand is missing, is NULL or has
/// another type than the operator's. It is simple if no [`Expr::NewId`] and no [`Expr::Times`] is in it; statements
/// have simple expressions only, and the other two compute identities and provenance in rewritten queries.
#[cycle(expr)]
#[derive(Drop)]
pub enum Expr {
    /// The cell of a column, which count from 1.
    Col(u32),
    /// A constant.
    Const(Cell),
    /// A sum, which is NULL where it does not fit 64 bits.
    Add(Box<Expr>, Box<Expr>),
    /// A difference, likewise.
    Sub(Box<Expr>, Box<Expr>),
    /// A product, likewise.
    Mul(Box<Expr>, Box<Expr>),
    /// The number with the other sign, likewise.
    Neg(Box<Expr>),
    /// The first expression where the condition is true, else the second.
    Case(Box<Cond>, Box<Expr>, Box<Expr>),
    /// The identity of a row that a branch of an INSERT computes from rows with the identities `parts`.
    NewId {
        /// The transaction, from 1.
        t: u32,
        /// The statement, from 1.
        k: u32,
        /// The branch, from 1.
        b: u32,
        /// The identities of the rows, in the order of FROM.
        parts: Vec<Expr>,
    },
    /// The product of two provenance monomials.
    Times(Box<Expr>, Box<Expr>),
}

/// A condition over the cells of a row. Its truth is three-valued, as in SQL (ISO/IEC 9075-2).
#[cycle(expr)]
#[derive(Drop)]
pub enum Cond {
    /// The condition that is always true.
    True,
    /// A comparison, which is unknown unless it is of two numbers or two texts.
    Cmp(Cmp, Box<Expr>, Box<Expr>),
    /// `IS NULL`, or `IS NOT NULL` where `yes` is false. It is never unknown.
    IsNull {
        /// The expression that is tested.
        expr: Box<Expr>,
        /// False for `IS NOT NULL`.
        yes: bool,
    },
    /// `IS TRUE`, or `IS NOT TRUE` where `yes` is false. It is never unknown.
    IsTrue {
        /// The condition that is tested.
        cond: Box<Cond>,
        /// False for `IS NOT TRUE`.
        yes: bool,
    },
    /// `AND`
    And(Box<Cond>, Box<Cond>),
    /// `OR`
    Or(Box<Cond>, Box<Cond>),
    /// `NOT`
    Not(Box<Cond>),
}
