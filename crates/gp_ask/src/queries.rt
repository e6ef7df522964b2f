//! Queries over past states.

ghost use Rattle.std.specs.Prelude.{◌≡◌, true, false, None, IfOk};
ghost use Rattle.gp_base.specs.Order.{row_cmp, sorted_by};
ghost use Rattle.gp_grammar.specs.Syntax as y;
ghost use Rattle.gp_syntax.specs.Views.{query_view, point_view};
ghost use Rattle.gp_algebra.specs.Fitting.{select_fits};
ghost use Rattle.gp_algebra.specs.Views.{select_view};
ghost use Rattle.gp_check.specs.Checking.{checked_query};
ghost use Rattle.gp_check.specs.Valid.{query_is_valid, tables_are_valid};
ghost use Rattle.gp_check.specs.Views.{Checks};
ghost use Rattle.gp_log.specs.Contents.{HasPoint, entries, tables};
ghost use Rattle.gp_log.specs.LogFacts.{tables_in};
ghost use Rattle.gp_machine.specs.Questions as m;
ghost use Rattle.gp_reenact.specs.Reenacting.{transaction_at};
ghost use Rattle.gp_reenact.specs.Programs.{merged_at};
ghost use Rattle.gp_dump.specs.Views.{dump_view};
ghost use Rattle.gp_ask.specs.declared.answered.Answered.TheVariants.{Rows};
ghost use Rattle.gp_ask.specs.Asking as a;
ghost use Rattle.gp_ask.specs.Computed.{computed_answer};
ghost use Rattle.gp_ask.specs.Backends.{AnswersBy, AnswersChecked, IsAnswered, past_of};

use crate::answered::Answered;
use crate::valid::ValidQuery;
use gp_algebra::Select;
use gp_base::{NoMemory, Row, Sequence, Stop, sort_rows};
use gp_check::check_query;
use gp_dump::Dump;
use gp_exec::{Backend, Plain};
use gp_log::Log;
use gp_reenact::{log_refusal, reenact_by};
use gp_syntax::{Point, Query};
use std::alloc::Global;

/// A query over a state, checked. It is refused by the log, which has no such state (E20 to E23), or else by the check of names and
/// types.
pub fn asked(alloc: Global, log: &Log, state: Point, query: &Query) -> Result<Select, Stop>
    ensures checked { Checks select_view result
        (a.asked (m.log_refusal (entries log.now) (point_view state))
        (checked_query (tables log.now) (query_view query.now))) }
    ensures known { IfOk result (λ select. HasPoint log.now (point_view state)) }
    ensures fits { IfOk result (λ select. tables_are_valid (tables log.now) ≡ true
        → query_is_valid (query_view query.now) ≡ true
        → select_fits (tables log.now) (select_view select) ≡ true) }
{
    match log_refusal(log, state) {
        None => check_query(alloc, log.catalog(), query),
        Some(refusal) => Err(Stop::Refused(refusal)),
    }
}

/// The rows in row order.
pub(crate) fn sorted_answer(rows: Vec<Row>) -> Result<Answered, NoMemory>
    ensures { IfOk result (λ answered. answered ≡ Rows (sorted_by row_cmp rows.items)) }
{
    let mut rows = rows;
    sort_rows(&mut rows)?;
    Ok(Answered::Rows(Sequence::from_vec(rows)))
}

/// What the backend gives for a checked query over a state that the log has.
fn selected_answer<B: Backend>(
    alloc: Global,
    dump: &Dump,
    state: Point,
    select: &Select,
    backend: &B,
) -> Result<Answered, NoMemory>
    requires known { m.log_refusal (dump_view dump.now).entries (point_view state) ≡ None }
    requires fits { select_fits (tables_in (dump_view dump.now).entries) (select_view select.now)
        ≡ true }
    ensures { IfOk result (λ answered. IsAnswered (B.gives backend.now)
        (transaction_at (point_view state))
        (merged_at false (dump_view dump.now).entries (point_view state) (select_view select.now))
        (past_of (dump_view dump.now)) answered) }
{
    match reenact_by(
        alloc,
        &dump.log,
        dump.versions.as_slice(),
        state,
        select,
        backend,
    ) {
        Ok(rows) => sorted_answer(rows),
        Err(Stop::Refused(refusal)) => Ok(Answered::Refused(refusal)),
        Err(Stop::NoMemory) => Err(NoMemory),
    }
}

/// The answer of a query over a state that the log has: refused by the check of names and types, or what the backend gives.
fn state_answer<B: Backend>(
    alloc: Global,
    dump: &Dump,
    state: Point,
    query: ValidQuery<'_>,
    backend: &B,
) -> Result<Answered, NoMemory>
    requires known { m.log_refusal (dump_view dump.now).entries (point_view state) ≡ None }
    ensures { IfOk result (λ answered. AnswersChecked (B.gives backend.now)
        (tables_in (dump_view dump.now).entries) (transaction_at (point_view state))
        (merged_at false (dump_view dump.now).entries (point_view state)) (past_of (dump_view dump.now))
        (checked_query (tables_in (dump_view dump.now).entries)
        (query_view query.entry.read.now)) answered) }
{
    match check_query(alloc, dump.log.catalog(), query.read) {
        Ok(select) => selected_answer(alloc, dump, state, &select, backend),
        Err(Stop::Refused(refusal)) => Ok(Answered::Refused(refusal)),
        Err(Stop::NoMemory) => Err(NoMemory),
    }
}

/// What the backend gives for a query over a state. E20 to E23 if the log has no such state, tested before the query is checked.
pub fn query_answer_by<B: Backend>(
    alloc: Global,
    dump: &Dump,
    state: Point,
    query: ValidQuery<'_>,
    backend: &B,
) -> Result<Answered, NoMemory>
    ensures { IfOk result (λ answered. AnswersBy (B.gives backend.now) (dump_view dump.now)
        (y.ask (y.of_state y.rows (point_view state)) (query_view query.entry.read.now)) answered) }
{
    match log_refusal(&dump.log, state) {
        None => state_answer(alloc, dump, state, query, backend),
        Some(refusal) => Ok(Answered::Refused(refusal)),
    }
}

/// The rows of a query over a state. E20 to E23 if the log has no such state, tested before the query is checked.
pub fn query_answer(
    alloc: Global,
    dump: &Dump,
    state: Point,
    query: ValidQuery<'_>,
) -> Result<Answered, NoMemory>
    ensures { IfOk result (λ answered. answered
        ≡ computed_answer (dump_view dump.now)
        (y.ask (y.of_state y.rows (point_view state)) (query_view query.entry.read.now))) }
{
    query_answer_by(alloc, dump, state, query, &Plain)
}
