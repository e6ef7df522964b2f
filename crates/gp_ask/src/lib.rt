//! Questions to a dump, and their answers.
//!
//! [`answer_line`] reads a question and answers it from a [`Dump`](gp_dump::Dump) alone: neither the script nor the engine
//! that made the dump is needed. LOG and VERSIONS print lines of the dump, AS OF answers a query over the rows of a past
//! version, and REENACT over those that a transaction saw after one of its statements, or that its commit published. PROVENANCE OF
//! gives each of these rows with its provenance polynomial, and VALUE IN with the value of that polynomial in a semiring. WITHOUT gives the
//! rows that the query has over the state without the rows whose provenance has some token. WHATIF asks one of these about the history
//! that would have been with a statement dropped, replaced or added. The answers are those that the history itself would have given: so
//! says the law [`histories_answer_as_their_dumps`].
//!
//! In reading order: [`Answered`] is the answer to a question, [`answer`] answers a question that was read, [`answer_line`]
//! a line, [`answer_by`] a plain AS OF or REENACT by what a [`Backend`] gives, of which [`Plain`] is the executor, and
//! [`write_answer`] writes the answer. [`answer_line_in`] and [`write_answer_in`] do the same in a [`Format`]: as text, as CSV or as SQL. The
//! lines of a file share their [`KeptAnnotations`], so that the row versions of a dump are annotated once for all its questions, and
//! compared once with those that its log makes, and questions with the same changes share the history that these make. In
//! `specs/`, `Asking` and `Answers` say what the answer is, whichever programs answer explained queries (`Printed` with those that are printed, `Computed` as it is
//! computed), `Explained` what these programs say, `Hypothetical` what the history answers that would have been, `Formats`
//! which answers are exported as CSV and asked in SQL, `Titles` under which titles, `SqlAnswers` what a query of SQL gives, `Questions` which answers the lines of a file get (`QuestionFiles` by its bytes), and `Texts` how they are written. `Values` has
//! the semirings and the rules of VALUE IN, and `Remaining` what remains for WITHOUT. Inside,
//! `logs` answers LOG, `row_versions` VERSIONS, `asking` any question about a state, by `queries` AS OF and REENACT, by `provenance`
//! PROVENANCE OF, by `values` VALUE IN, by `deletion` WITHOUT, by `programs` EXPLAIN and by `sql` what is asked in SQL, and `hypothetical` WHATIF. `keeping` has what
//! one question leaves to the next, of which `remembering` keeps the history with changes.
//!
//! ```text
//! let answered = answer_line(alloc, &dump, b"as of 2 select * from acct")?;
//! let refused = answered.is_refused();
//! write_answer(alloc, 1, answered, &mut out)?; // appends "1 rows 3" and the rows
//! ```
#![tactic(auto)]

mod anomalies;
mod answered;
mod answering;
mod causes;
mod changes;
mod checked;
mod comparing;
mod conflicts;
mod copying;
mod deletion;
mod deltas;
mod differences;
mod display;
mod exporting;
mod format;
mod hypothetical;
mod intervals;
mod keeping;
mod laws;
mod logs;
mod looking;
mod made;
mod narrowing;
mod programs;
mod provenance;
mod queries;
mod remembering;
mod row_histories;
mod row_lines;
mod row_versions;
mod rules;
mod seeing;
mod serial;
mod sql;
mod states;
mod titles;
mod transactions;
mod valid;
mod values;

pub use answered::{AnomalyText, Answered, Heading, Sheet, Valued};
pub use answering::{answer, answer_by};
pub use display::write_answer;
pub use exporting::{answer_line, answer_line_in, asks_rows, write_answer_in, write_heading_in};
pub use format::Format;
pub use gp_exec::{Backend, Plain};
pub use keeping::KeptAnnotations;
pub use laws::{
    anomaly_answers_are_true, changed_histories_answer_their_questions,
    changed_rows_are_those_written, commits_show_what_they_wrote, comparisons_answer_as_made_dumps,
    deltas_are_differences, dumps_answer_as_changed_histories, histories_answer_as_their_dumps,
    histories_answer_with_any_programs, histories_are_isolated, intervals_agree_with_versions,
    programs_explain_their_questions, queries_ask_their_questions, read_questions_are_valid,
    replays_answer_as_their_histories, row_versions_are_stored, serial_answers_are_true,
    statements_of_histories_do_not_stop, unstopped_histories_answer_as_their_dumps,
};
pub use valid::ValidQuestion;
