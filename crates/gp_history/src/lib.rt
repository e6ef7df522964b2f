//! The annotated history of a log: the provenance of every row version, rebuilt from the log and the row versions alone.
//!
//! A row version is annotated with a monomial: which statements made the row, and from which rows (Green, Karvounarakis and Tannen,
//! *Provenance semirings*, PODS 2007). `annotate_on` goes from commit to commit: it runs the program of each table that a transaction
//! published over the versions before, as they are annotated by then, compares the rows with those of the spans, and gives each
//! span that begins there the monomial of its row, or an element of a semiring. An [`Annotator`] knows how programs are run over its
//! annotations, and [`Kept`] ones serve the next question too. [`provenance_from`] answers a query over a past state with monomials,
//! [`values_from`] with elements. Most rows of a table stay as they are at a commit, so its programs run over the row versions that
//! matter to it alone (`narrowed.rt`), which are found by the cells that its conditions ask for (`sought.rt`). The functions of
//! `value_laws.rt` say that what is computed with elements is what the monomials of the history come to.
//!
//! In `specs/`, `Narrowing` says which row versions these are, `Seeking` what finds them, `Agreement` when two tables have the same rows, `SpanAnnotations` what
//! annotated spans hold, `Annotating` what annotating answers, `Images` why elements may stand for monomials, and `Provenance` and
//! `Values` what questions answer; `ValueAnswers` has the answer for values by the monomials of the annotated answer, and what is
//! computed for it, `DistinctRows` the rows of an answer, and `Room` how often a token can occur in an annotation.
//!
//! ```text
//! let rows = provenance_from(alloc, &log, &versions, state, &select, &mut kept)?;
//! let sums = values_from(alloc, &log, &versions, state, &select, &valuation, &mut kept_sums)?;
//! ```
#![tactic(auto)]

mod agreement;
mod annotated;
mod annotating;
mod annotator;
mod asking;
mod changes;
mod elements;
mod error;
mod finders;
mod found;
mod inert;
mod kept;
mod laws;
mod matching;
mod monomials;
mod narrowed;
mod proving;
mod published;
mod sought;
mod spans;
mod value_laws;
mod valuing;

pub use annotated::Annotated;
pub use annotator::{Annotator, Publication};
pub use elements::k_env;
pub use error::HistoryStop;
pub use kept::Kept;
pub use laws::{
    agreement_is_having_the_same_rows, annotated_versions_are_the_committed_ones,
    histories_are_annotated,
};
pub use monomials::{Monomials, env};
pub use proving::provenance_from;
pub use value_laws::{
    annotated_answers_are_carried, distinct_rows_are_each_once, tokens_are_within_nodes,
    values_are_sums_over_the_history, values_are_those_of_the_history,
    versions_have_the_values_of_their_monomials,
};
pub use valuing::values_from;
