//! Questions answered in a format.

ghost use Rattle.std.specs.Prelude.{◌≡◌, ◌++◌, true, IfOk, OnErr, OnOk};
ghost use Rattle.gp_grammar.specs.Reading.{question_of};
ghost use Rattle.gp_grammar.specs.Syntax as y;
ghost use Rattle.gp_syntax.specs.Views.{how_view, query_view, question_view, subject_view};
ghost use Rattle.gp_csv.specs.Answers.{csv_text};
ghost use Rattle.gp_dump.specs.WholeDumps.{IsDump};
ghost use Rattle.gp_dump.specs.Views.{dump_view};
ghost use Rattle.gp_log.specs.LogFacts.{tables_in};
ghost use Rattle.gp_ask.specs.Computed.{computed_answer, computed_in};
ghost use Rattle.gp_ask.specs.ExplainedTexts.{ExplainsQuestion};
ghost use Rattle.gp_ask.specs.Formats as f;
ghost use Rattle.gp_ask.specs.Formats.{answers_in, heading_in, asks_rows, exported, exported_records, text_in};
ghost use Rattle.gp_ask.specs.QuestionFiles.{ExplainsIn, ExplainsRead};
ghost use Rattle.gp_ask.specs.Keeping.{AreKept};
ghost use Rattle.gp_ask.specs.Questions.{answered};
ghost use Rattle.gp_ask.specs.Titles.{query_names};

use crate::answered::{Answered, Sheet};
use crate::answering::{answer, answer_from};
use crate::display::{write_answer, write_sql};
use crate::format::Format;
use crate::keeping::KeptAnnotations;
use crate::sql::sql_answer;
use crate::titles::{difference_titles, row_titles};
use crate::valid::ValidQuestion;
use gp_base::{Catalog, NoMemory, Refusal, Stop};
use gp_csv::{write_answer_csv, write_refusal_csv, write_titled_csv};
use gp_dump::Dump;
use gp_sql::write_tables;
use gp_syntax::{How, Query, Question, Subject};
use std::alloc::Global;

/// Whether rows are asked for.
fn are_rows(how: &How) -> bool
    ensures { (state : y.Point) (query : y.Query)
        → result ≡ asks_rows (y.ask (y.of_state (how_view how.now) state) query) }
{
    match how {
        How::Rows => true,
        How::Provenance => false,
        How::Explain { .. } => false,
        How::Value { .. } => false,
        How::Without { .. } => false,
    }
}

/// Whether the rows of a state are asked for.
fn are_rows_of(subject: &Subject) -> bool
    ensures { (query : y.Query) → result ≡ asks_rows (y.ask (subject_view subject.now) query) }
{
    match subject {
        Subject::State { how, .. } => are_rows(how),
        Subject::Saw { .. } => false,
    }
}

/// Whether the question is a plain AS OF or REENACT. Such a question is put to a [`Backend`](crate::Backend), and to a format of rows.
pub fn asks_rows(question: &Question) -> bool
    ensures { result ≡ asks_rows (question_view question.now) }
{
    match question {
        Question::Ask { subject, .. } => are_rows_of(subject),
        _ => false,
    }
}

/// Answers a question that was read, or refuses it as one that is not exported (E30).
fn exported(alloc: Global, dump: &Dump, question: &ValidQuestion) -> Result<Answered, NoMemory>
    requires rules { IsDump (dump_view dump.now) }
    ensures { IfOk result (λ found. found
        ≡ exported (computed_answer (dump_view dump.now)) (question_view question.now.read)) }
{
    if asks_rows(&question.read) {
        answer(alloc, dump, question)
    } else {
        Ok(Answered::Refused(Refusal::E30))
    }
}

/// Whether rows are asked for, or those that are left.
fn are_given(how: &How) -> bool
    ensures { (state : y.Point) → result ≡ f.gives_rows (y.of_state (how_view how.now) state) }
{
    match how {
        How::Rows => true,
        How::Provenance => false,
        How::Explain { .. } => false,
        How::Value { .. } => false,
        How::Without { .. } => true,
    }
}

/// Whether rows are asked for, those that are left, or those that a transaction saw.
fn gives_rows(subject: &Subject) -> bool
    ensures { result ≡ f.gives_rows (subject_view subject.now) }
{
    match subject {
        Subject::State { how, .. } => are_given(how),
        Subject::Saw { .. } => true,
    }
}

/// Rows under the titles of the columns of their query.
fn titled(
    alloc: Global,
    catalog: &Catalog,
    query: &Query,
    answered: Answered,
) -> Result<Answered, NoMemory>
    ensures { IfOk result (λ found. found
        ≡ f.titled (query_names catalog.now (query_view query.now)) answered) }
{
    match answered {
        Answered::Rows(rows) => {
            let titles = row_titles(alloc, catalog, query)?;
            Ok(Answered::Sheet(Sheet { titles, rows }))
        }
        Answered::Diff(rows) => {
            let titles = difference_titles(alloc, catalog, query)?;
            Ok(Answered::Sheet(Sheet { titles, rows }))
        }
        answered => Ok(answered),
    }
}

/// Answers a question that was read under the titles of the columns of its query.
fn titled_answer(
    alloc: Global,
    dump: &Dump,
    question: &ValidQuestion,
    query: &Query,
    kept: &mut KeptAnnotations,
) -> Result<Answered, NoMemory>
    requires rules { IsDump (dump_view dump.now) }
    requires kept { AreKept dump.now kept.old }
    ensures kept { AreKept dump.now kept.new }
    ensures answered { IfOk result (λ found. found ≡ f.titled
        (query_names (tables_in (dump_view dump.now).entries) (query_view query.now))
        (computed_answer (dump_view dump.now) (question_view question.now.read))) }
{
    let found = answer_from(alloc, dump, question, kept)?;
    titled(alloc, dump.log.catalog(), query, found)
}

/// Answers a question that was read under the titles of the columns of its query, or refuses it as one that is not exported (E30), if it
/// does not ask for rows, or for their difference.
fn named(
    alloc: Global,
    dump: &Dump,
    question: &ValidQuestion,
    kept: &mut KeptAnnotations,
) -> Result<Answered, NoMemory>
    requires rules { IsDump (dump_view dump.now) }
    requires kept { AreKept dump.now kept.old }
    ensures kept { AreKept dump.now kept.new }
    ensures answered { IfOk result (λ found. found ≡ f.named
        (tables_in (dump_view dump.now).entries) (computed_answer (dump_view dump.now))
        (question_view question.now.read)) }
{
    match &question.read {
        Question::Diff { query, .. } => titled_answer(alloc, dump, question, query, kept),
        Question::Ask { subject, query } if gives_rows(subject) => {
            titled_answer(alloc, dump, question, query, kept)
        }
        Question::WhatIf { subject, query, .. } if gives_rows(subject) => {
            titled_answer(alloc, dump, question, query, kept)
        }
        _ => Ok(Answered::Refused(Refusal::E30)),
    }
}

/// Answers a question that was read, in a format: as [`answer`] does, but
/// CSV refuses one that is no plain AS OF or REENACT (E30), CSV with names one that does not ask for rows, or for their difference, and SQL
/// one that is no AS OF or REENACT, plain or explained, whatever it would have been refused for otherwise. Running out of memory is the
/// only error.
fn answer_in(
    alloc: Global,
    format: Format,
    dump: &Dump,
    question: &ValidQuestion,
    kept: &mut KeptAnnotations,
) -> Result<Answered, NoMemory>
    requires rules { IsDump (dump_view dump.now) }
    requires kept { AreKept dump.now kept.old }
    ensures kept { AreKept dump.now kept.new }
    ensures answered { IfOk result (λ found. found
        ≡ answers_in format (tables_in (dump_view dump.now).entries)
        (computed_in format (dump_view dump.now)) (question_view question.now.read)) }
    ensures explained { IfOk result (λ found.
        ExplainsIn format (ExplainsQuestion (dump_view dump.now).entries
        (question_view question.now.read))) }
{
    match format {
        Format::Text => answer_from(alloc, dump, question, kept),
        Format::Csv => exported(alloc, dump, question),
        Format::Named => named(alloc, dump, question, kept),
        Format::Sql => sql_answer(alloc, dump, question),
    }
}

/// Answers a line of a file of questions from a dump, in a format. A line that is no question is refused as
/// [`read_question`](gp_syntax::read_question) refuses it, in each format. Any other is answered as [`answer`] does, but CSV refuses a
/// question that is no plain AS OF or REENACT (E30), CSV with names one that does not ask for rows, or for their difference, and SQL one
/// that is no AS OF or REENACT, plain or explained. SQL answers with the query that asks for the rows, and is refused as EXPLAIN is.
/// Running out of memory is the only error.
///
/// The annotations that earlier lines left are used, and the line leaves its own. Whatever they are, the answer is that of the line alone.
pub fn answer_line_in(
    alloc: Global,
    format: Format,
    dump: &Dump,
    line: &[u8],
    kept: &mut KeptAnnotations,
) -> Result<Answered, NoMemory>
    requires rules { IsDump (dump_view dump.now) }
    requires kept { AreKept dump.now kept.old }
    ensures kept { AreKept dump.now kept.new }
    ensures answered { IfOk result (λ found. found
        ≡ answered (answers_in format (tables_in (dump_view dump.now).entries)
        (computed_in format (dump_view dump.now))) (question_of line.now)) }
    ensures explained { IfOk result (λ found.
        ExplainsIn format (ExplainsRead (dump_view dump.now).entries (question_of line.now))) }
{
    match ValidQuestion::of_line(alloc, line) {
        Ok(question) => {
            let found = answer_in(alloc, format, dump, &question, kept);
            drop(question);
            found
        }
        Err(Stop::Refused(refusal)) => Ok(Answered::Refused(refusal)),
        Err(Stop::NoMemory) => Err(NoMemory),
    }
}

/// Answers a line of a file of questions from a dump. A line that is no question is refused as
/// [`read_question`](gp_syntax::read_question) refuses it, any other as [`answer`] does. Running out of memory is the only error.
pub fn answer_line(alloc: Global, dump: &Dump, line: &[u8]) -> Result<Answered, NoMemory>
    requires rules { IsDump (dump_view dump.now) }
    ensures answered { IfOk result (λ found. found
        ≡ answered (computed_answer (dump_view dump.now)) (question_of line.now)) }
    ensures explained { IfOk result (λ found.
        ExplainsRead (dump_view dump.now).entries (question_of line.now)) }
{
    let mut kept = KeptAnnotations::new();
    let found = answer_line_in(alloc, Format::Text, dump, line, &mut kept);
    drop(kept);
    found
}

/// The CSV text of an answer. Only rows, those under titles, and refusals are exported.
fn exported_text(alloc: Global, number: u32, answered: &Answered) -> Result<Vec<u8>, NoMemory>
    ensures { IfOk result (λ text. text.items ≡ csv_text (exported_records number answered.now)) }
{
    match answered {
        Answered::Rows(rows) => write_answer_csv(alloc, number, rows.as_slice()),
        Answered::Sheet(sheet) => write_titled_csv(
            alloc,
            number,
            sheet.titles.as_slice(),
            sheet.rows.as_slice(),
        ),
        Answered::Refused(refusal) => write_refusal_csv(alloc, number, refusal),
        Answered::Listed(_)
        | Answered::Values(_)
        | Answered::Program(_)
        | Answered::Lines(..)
        | Answered::Anomalies(_)
        | Answered::Diff(_)
        | Answered::Checked(_) => write_refusal_csv(alloc, number, &Refusal::E30),
    }
}

/// Appends an answer as CSV. If memory runs out, `out` is unchanged.
fn write_exported(
    alloc: Global,
    number: u32,
    answered: &Answered,
    out: &mut Vec<u8>,
) -> Result<(), NoMemory>
    ensures ok { OnOk result (out.new.items
        ≡ out.old.items ++ csv_text (exported_records number answered.now)) }
    ensures err { OnErr result (out.new.items ≡ out.old.items) }
{
    let text = exported_text(alloc, number, answered)?;
    out.extend_from_slice(&text)?;
    Ok(())
}

/// Appends the answer to a question in a format: as text as [`write_answer`] does, as CSV a header, and a record for each row or for the
/// refusal, which begins with the number of the question's line, and as SQL the query or the refusal behind that number in a comment. If
/// memory runs out, `out` is unchanged.
pub fn write_answer_in(
    alloc: Global,
    format: Format,
    number: u32,
    answered: Answered,
    out: &mut Vec<u8>,
) -> Result<(), NoMemory>
    ensures ok { OnOk result (out.new.items ≡ out.old.items ++ text_in format number answered) }
    ensures err { OnErr result (out.new.items ≡ out.old.items) }
{
    match format {
        Format::Text => write_answer(alloc, number, answered, out),
        Format::Csv | Format::Named => {
            let written = write_exported(alloc, number, &answered, out);
            drop(answered);
            written
        }
        Format::Sql => {
            let written = write_sql(alloc, number, &answered, out);
            drop(answered);
            written
        }
    }
}

/// Appends what comes before all answers in a format: in SQL the row versions of the dump as tables, else nothing.
pub fn write_heading_in(
    alloc: Global,
    format: Format,
    dump: &Dump,
    out: &mut Vec<u8>,
) -> Result<(), NoMemory>
    ensures { OnOk result (out.new.items ≡ out.old.items ++ heading_in format (dump_view dump.now)) }
{
    match format {
        Format::Sql => write_tables(alloc, dump.log.catalog(), dump.versions.as_slice(), out),
        Format::Text | Format::Csv | Format::Named => Ok(()),
    }
}
