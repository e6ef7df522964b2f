//! The texts of SQL that queries over past states are.

ghost use Rattle.std.specs.Prelude.{◌≡◌, [], false, true, IfOk};
ghost use Rattle.gp_algebra.specs.Fitting.{select_fits};
ghost use Rattle.gp_algebra.specs.Views.{select_view};
ghost use Rattle.gp_check.specs.Valid.{tables_are_valid};
ghost use Rattle.gp_dump.specs.Views.{dump_view};
ghost use Rattle.gp_dump.specs.WholeDumps.{IsDump};
ghost use Rattle.gp_grammar.specs.Syntax as y;
ghost use Rattle.gp_log.specs.Contents.{HasPoint, StatementsFit, entries, tables};
ghost use Rattle.gp_syntax.specs.Views.{how_view, point_view, query_view, question_view, subject_view};
ghost use Rattle.gp_ask.specs.Formats as f;
ghost use Rattle.gp_ask.specs.Printed.{sql_answer_to, sql_ask_to};
ghost use Rattle.gp_ask.specs.Programs.{sql_lines};
ghost use Rattle.gp_ask.specs.Replays.{dump_in};
ghost use Rattle.gp_ask.specs.declared.answered.Answered.TheVariants.{Program};

use crate::answered::Answered;
use crate::queries::asked;
use crate::valid::{ValidQuery, ValidQuestion};
use gp_algebra::Select;
use gp_base::{NoMemory, Refusal, Stop};
use gp_dump::Dump;
use gp_explain::explained_lines;
use gp_log::Log;
use gp_reenact::planned;
use gp_sql::write_query;
use gp_syntax::{How, Point, Question, Subject};
use std::alloc::Global;

/// The lines of the text of a checked query over a state that the log has.
fn selected_sql(
    alloc: Global,
    log: &Log,
    state: Point,
    select: &Select,
) -> Result<Answered, NoMemory>
    requires statements { StatementsFit log.now }
    requires known { HasPoint log.now (point_view state) }
    requires fits { select_fits (tables log.now) (select_view select.now) ≡ true }
    ensures { IfOk result (λ answered. answered
        ≡ Program (sql_lines (entries log.now) false (point_view state) (select_view select.now))) }
{
    match planned(alloc, log, state, select, false) {
        Ok(program) => {
            let text = write_query(alloc, &program, log.catalog())?;
            Ok(Answered::Program(explained_lines(alloc, &text)?))
        }
        Err(Stop::Refused(_)) => unreachable!(),
        Err(Stop::NoMemory) => Err(NoMemory),
    }
}

/// The lines of the text of SQL of a query over a state. E20 to E23 if the log has no such state, then the check of the query. Nothing is
/// run, so no limit stops it.
fn state_answer(
    alloc: Global,
    log: &Log,
    state: Point,
    query: ValidQuery<'_>,
) -> Result<Answered, NoMemory>
    requires statements { StatementsFit log.now }
    requires valid { tables_are_valid (tables log.now) ≡ true }
    ensures { IfOk result (λ answered. answered ≡ sql_ask_to (dump_in (entries log.now) [])
        (y.explain false) (point_view state) (query_view query.entry.read.now)) }
{
    match asked(alloc, log, state, query.read) {
        Ok(select) => selected_sql(alloc, log, state, &select),
        Err(Stop::Refused(refusal)) => Ok(Answered::Refused(refusal)),
        Err(Stop::NoMemory) => Err(NoMemory),
    }
}

/// Whether rows are asked for, or the program that computes them.
fn are_asked(how: &How) -> bool
    ensures { result ≡ f.are_asked (how_view how.now) }
{
    match how {
        How::Rows => true,
        How::Provenance => false,
        How::Explain { prov } => !*prov,
        How::Value { .. } => false,
        How::Without { .. } => false,
    }
}

/// Answers a query, by what it is asked of.
fn ask_in_sql(
    alloc: Global,
    dump: &Dump,
    subject: &Subject,
    query: ValidQuery<'_>,
) -> Result<Answered, NoMemory>
    ensures { IfOk result (λ found. found ≡ f.in_sql (sql_answer_to (dump_view dump.now))
        (y.ask (subject_view subject.now) (query_view query.entry.read.now))) }
{
    match subject {
        Subject::State { how, state } if are_asked(how) => {
            state_answer(alloc, &dump.log, *state, query)
        }
        _ => Ok(Answered::Refused(Refusal::E30)),
    }
}

/// Answers a question that was read by the text of SQL that asks for its rows, if it is an AS OF or a REENACT, plain or explained. Any
/// other is refused (E30).
pub fn sql_answer(
    alloc: Global,
    dump: &Dump,
    question: &ValidQuestion,
) -> Result<Answered, NoMemory>
    requires rules { IsDump (dump_view dump.now) }
    ensures { IfOk result (λ found. found
        ≡ f.in_sql (sql_answer_to (dump_view dump.now)) (question_view question.now.read)) }
{
    match &question.read {
        Question::Ask { subject, query } => ask_in_sql(
            alloc,
            dump,
            subject,
            ValidQuery { read: query },
        ),
        _ => Ok(Answered::Refused(Refusal::E30)),
    }
}
