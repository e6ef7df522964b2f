//! The executor: the answer of a query over the rows of tables, and the rows of a plain program.
//!
//! In reading order: [`Views`] are the rows of the tables and [`choose`] the answer of a query over them, one [`Chosen`] for each
//! choice of rows; [`select_rows`] gives its rows alone. [`Env`] is what a program scans; [`run`] gives the rows of its last
//! query and [`run_table`] those of a program that ends in a table, without a limit on their number. [`ExecStop`] and
//! [`ChooseStop`] are the reasons why there are none. A [`Backend`] is whatever runs plain programs, and [`Plain`] is this
//! executor as one; it runs a program of one scan over each [`PastRow`] where that lies. Other executors share parts of it:
//! [`give_choices`], with [`Chooser`], [`refs`], [`joined`] and [`values_beside`]; [`take_steps`], with [`Stepper`], [`Rest`],
//! [`Done`], [`rows_of`] and [`take_rows`]; and [`written`], with [`RowMark`].
//!
//! Inside, `join` chooses one row of each table by nested loops, and gives each choice to a [`Chooser`]: `search` makes the
//! elements of an answer of them, `selecting` its rows, `relation` the rows of a product. `early` has the tests that prune the
//! loops. Where a condition has an equality of columns, which `equality` finds, `input` gives the rows that join a row: it knows
//! the places of the cells of a column, by `cell_index` and `key`. `found` has the rows of a query where they stand, and filters
//! them there; `projection` makes rows of rows. `publication` puts a transaction onto a later version: its rows are `pending`,
//! and the marks and identities that they will have are found at a `CellPlace` before they are made; `writing` tells by them what
//! the transaction wrote. `evaluation` evaluates a query by these, up to a limit where there is one. `steps` takes the steps of a
//! program in turn, as a [`Stepper`] tells, which for plain programs is in `program`. The rows of a step are `done`, and
//! `liveness` tells which of them later steps still read. `past_rows` has the programs of one scan and no steps.
//!
//! ```text
//! // every element of the answer, at most 50,000
//! let chosen = choose(alloc, &select, &views, MAX_ANSWER_ROWS)?;
//! ```
#![tactic(auto)]

mod backend;
mod cell_index;
mod cell_place;
mod done;
mod early;
mod env;
mod equality;
mod error;
mod evaluation;
mod found;
mod input;
mod join;
mod key;
mod liveness;
mod past_rows;
mod pending;
mod program;
mod projection;
mod publication;
mod relation;
mod row;
mod search;
mod selecting;
mod steps;
mod writing;

pub use backend::{Backend, Plain};
pub use done::{Done, rows_of, take_rows};
pub use env::{Env, Scanned};
pub use error::{ChooseStop, ExecStop};
pub use input::HasRow;
pub use join::{Chooser, give_choices};
pub use liveness::Rest;
pub use past_rows::PastRow;
pub use program::{run, run_table};
pub use row::{joined, refs, values_beside};
pub use search::{Chosen, Views, choose};
pub use selecting::select_rows;
pub use steps::{Stepper, take_steps};
pub use writing::{RowMark, written};
