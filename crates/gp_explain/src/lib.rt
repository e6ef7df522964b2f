//! Explained queries: the text of the one program that gives a query over a state, to be read, and run elsewhere.
//!
//! In reading order: [`explain`] gives the text, and [`explained_lines`] its lines. `numbers.rt` looks at each number of a program
//! once, since only reading a number shows its range, and texts have a law of their own for programs in range. In `specs/`, `Explained`
//! says what a text explains, and `Explaining` what is answered; [`texts_explain_states`] ties the two. `Shapes` and `Numbers` are
//! the two halves of what a program with a text is.
//!
//! ```text
//! let text = explain(alloc, &log, State::Commit { t: 2 }, &select, false)?;
//! for line in explained_lines(alloc, &text)?.as_slice() {} // STEP 1 r := .., then QUERY ..
//! ```
#![tactic(auto)]

mod laws;
mod lines;
mod names;
mod numbers;
mod text;

pub use laws::{
    explained_texts_are_lines, merged_programs_are_spellable, small_logs_are_explained,
    texts_explain_states,
};
pub use lines::explained_lines;
pub use text::{explain, explain_saw};
