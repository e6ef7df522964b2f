//! Expressions and conditions over the columns of a row.
//!
//! In reading order: [`Expr`] is an expression, which has a cell as its value, [`Cond`] a condition, [`Cmp`] a comparison,
//! and [`Ternary`] the truth of a condition. [`eval_simple`] and [`truth`] evaluate them on a row, [`value_beside`] and
//! [`truth_beside`] on two rows side by side, and [`eval`] also those that make identities and provenance; [`is_simple`] and
//! [`cond_is_simple`] test for the former, [`size`] and [`cond_size`] count nodes. [`copy_expr`] and [`copy_cond`] copy them, and
//! [`substitute`], [`substitute_each`] and [`substitute_cond`] put expressions in place of their columns. In `specs/`, `Expressions` has
//! expressions without the pointers of their boxes, which all contracts speak of, and `Views` maps the types of the code to them.
//!
//! ```text
//! // a + 1, where a is the first column
//! let one = Box::new(alloc, Expr::Const(Cell::Int(1)))?;
//! let next = Expr::Add(Box::new(alloc, Expr::Col(1))?, one);
//! ```
#![tactic(auto)]

mod arithmetic;
mod copying;
mod error;
mod evaluation;
mod expr;
mod logic;
mod rebuilding;
mod simple;
mod sizes;
mod substitution;
mod ternary;

pub use copying::{copy_cond, copy_expr};
pub use error::EvalStop;
pub use evaluation::{eval, eval_simple, truth, truth_beside, value_beside};
pub use expr::{Cmp, Cond, Expr};
pub use simple::{cond_is_simple, is_simple};
pub use sizes::{cond_size, size};
pub use substitution::{substitute, substitute_cond, substitute_each};
pub use ternary::Ternary;
