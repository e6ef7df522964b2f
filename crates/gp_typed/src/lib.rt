//! Programs of checked statements have types: so each has a query of SQL.
//!
//! There is no code here. [`checked_statements_are_typed`] says what the check of names and types gives of a statement and of a query,
//! [`well_formed_dumps_are_typed`] of a dump, and [`merged_programs_are_typed`] that the merged program of a state then has types.
#![tactic(auto)]

mod laws;

pub use laws::{
    checked_statements_are_typed, merged_programs_are_typed, well_formed_dumps_are_typed,
};
