//! Differences between the answers of two questions.

ghost use Rattle.std.specs.Prelude.{◌≡◌, ◌+◌, nat_lt, true, None, IfOk};
ghost use Rattle.gp_base.specs.declared.limit.TheConstants.{MAX_ANSWER_ROWS};
ghost use Rattle.gp_check.specs.Valid.{side_is_valid};
ghost use Rattle.gp_dump.specs.WholeDumps.{IsDump};
ghost use Rattle.gp_dump.specs.Views.{dump_view};
ghost use Rattle.gp_grammar.specs.Laws.{side_has_statements};
ghost use Rattle.gp_syntax.specs.Views.{query_view, side_view, subject_view};
ghost use Rattle.gp_ask.specs.Made.{unmade_refusal};
ghost use Rattle.gp_ask.specs.Deltas.{delta};
ghost use Rattle.gp_ask.specs.DifferenceForms as f;
ghost use Rattle.gp_ask.specs.Differences as d;
ghost use Rattle.gp_ask.specs.Computed.{what_if_answer};
ghost use Rattle.gp_ask.specs.Keeping.{AreKept, IsFound};

use crate::answered::Answered;
use crate::deltas::{Sizes, delta_rows, delta_sizes};
use crate::hypothetical::{asking_refusal, changed_refusal};
use crate::keeping::KeptAnnotations;
use crate::made::{made_answer, unmade_refusal};
use crate::remembering::what_if_kept;
use crate::states::ask_answer;
use crate::valid::ValidQuery;
use gp_base::{MAX_ANSWER_ROWS, NoMemory, Refusal, Row, Sequence};
use gp_dump::Dump;
use gp_syntax::{Query, Side, Subject};
use std::alloc::Global;

/// The rows of an answer, or its refusal. What asks for rows has no other answer.
pub(crate) fn rows_in(alloc: Global, answered: Answered) -> Result<Sequence<Row>, Refusal>
    ensures { result ≡ d.rows_in answered }
{
    match answered {
        Answered::Rows(rows) => Ok(rows),
        Answered::Refused(refusal) => Err(refusal),
        _ => Ok(Sequence::new(alloc)),
    }
}

/// The answer to a question about the history: beside a changed one it is asked of the dump that the log makes, whose rows this dump has.
fn history_answer(
    alloc: Global,
    dump: &Dump,
    mixed: bool,
    subject: &Subject,
    query: ValidQuery<'_>,
    kept: &mut KeptAnnotations,
) -> Result<Answered, NoMemory>
    requires rules { IsDump (dump_view dump.now) }
    requires made { mixed ≡ true → unmade_refusal (dump_view dump.now) ≡ None }
    requires kept { AreKept dump.now kept.old }
    ensures kept { AreKept dump.now kept.new }
    ensures answered { IfOk result (λ answered. answered
        ≡ f.history_of mixed (dump_view dump.now) (subject_view subject.now)
        (query_view query.entry.read.now)) }
{
    if mixed {
        return made_answer(alloc, dump, subject, query, kept);
    }
    ask_answer(alloc, dump, subject, query, &mut kept.own)
}

/// The answer to the question of a side.
fn side_answer(
    alloc: Global,
    dump: &Dump,
    mixed: bool,
    side: &Side,
    query: ValidQuery<'_>,
    kept: &mut KeptAnnotations,
) -> Result<Answered, NoMemory>
    requires rules { IsDump (dump_view dump.now) }
    requires statement { side_has_statements (side_view side.now) ≡ true }
    requires change { side_is_valid (side_view side.now) ≡ true }
    requires made { mixed ≡ true → unmade_refusal (dump_view dump.now) ≡ None }
    requires kept { AreKept dump.now kept.old }
    ensures kept { AreKept dump.now kept.new }
    ensures answered { IfOk result (λ answered. answered ≡ d.side_answer
        (f.history_of mixed (dump_view dump.now)) (what_if_answer (dump_view dump.now).entries)
        (side_view side.now) (query_view query.entry.read.now)) }
{
    match side {
        Side::AsIs { subject } => history_answer(alloc, dump, mixed, subject, query, kept),
        Side::Changed { changes, subject } => what_if_kept(
            alloc,
            dump,
            changes.as_slice(),
            subject,
            query,
            &mut kept.changed,
        ),
    }
}

/// Whether one side is of the history, and the other of a changed one.
fn are_mixed(first: &Side, second: &Side) -> bool
    ensures { result ≡ d.are_mixed (side_view first.now) (side_view second.now) }
{
    match first {
        Side::AsIs { .. } => match second {
            Side::AsIs { .. } => false,
            Side::Changed { .. } => true,
        },
        Side::Changed { .. } => match second {
            Side::AsIs { .. } => true,
            Side::Changed { .. } => false,
        },
    }
}

/// What refuses the question of a side, whatever the rows are.
fn side_refusal(
    alloc: Global,
    dump: &Dump,
    side: &Side,
    query: &Query,
) -> Result<Option<Refusal>, NoMemory>
    requires rules { IsDump (dump_view dump.now) }
    requires statement { side_has_statements (side_view side.now) ≡ true }
    ensures { IfOk result (λ refusal. refusal ≡ d.side_refusal (dump_view dump.now).entries
        (side_view side.now) (query_view query.now)) }
{
    match side {
        Side::AsIs { subject } => asking_refusal(alloc, &dump.log, subject, query),
        Side::Changed { changes, subject } => {
            changed_refusal(alloc, dump, changes.as_slice(), subject, query)
        }
    }
}

/// What refuses a difference between the history and a changed one: what refuses the question of a side, whatever the rows are, and then
/// rows of the history that are not those that its log makes.
fn mixed_refusal(
    alloc: Global,
    dump: &Dump,
    first: &Side,
    second: &Side,
    query: &Query,
    is_made: &mut Option<bool>,
) -> Result<Option<Refusal>, NoMemory>
    requires rules { IsDump (dump_view dump.now) }
    requires first_statement { side_has_statements (side_view first.now) ≡ true }
    requires second_statement { side_has_statements (side_view second.now) ≡ true }
    requires kept { IsFound dump.now is_made.old }
    ensures kept { IsFound dump.now is_made.new }
    ensures refusal { IfOk result (λ refusal. refusal ≡ d.mixed_refusal
        (unmade_refusal (dump_view dump.now)) (dump_view dump.now).entries
        (side_view first.now) (side_view second.now) (query_view query.now)) }
{
    if !are_mixed(first, second) {
        return Ok(None);
    }
    if let Some(refusal) = side_refusal(alloc, dump, first, query)? {
        return Ok(Some(refusal));
    }
    if let Some(refusal) = side_refusal(alloc, dump, second, query)? {
        return Ok(Some(refusal));
    }
    unmade_refusal(alloc, dump, is_made)
}

/// Whether a difference has more lines than an answer has rows.
fn are_too_many(found: Sizes) -> bool
    ensures { result ≡ nat_lt MAX_ANSWER_ROWS (found.removed + found.added) }
{
    found.removed > MAX_ANSWER_ROWS || found.added > MAX_ANSWER_ROWS - found.removed
}

/// The difference of two answers, whose rows are in row order, unless there are too many lines.
fn diff_rows(alloc: Global, rows: &[Row], others: &[Row]) -> Result<Answered, NoMemory>
    ensures { IfOk result (λ answered. answered ≡ d.diff_lines (delta rows.now others.now)) }
{
    if are_too_many(delta_sizes(rows, others)) {
        return Ok(Answered::Refused(Refusal::E27));
    }
    Ok(Answered::Diff(delta_rows(alloc, rows, others)?))
}

/// The difference of two answers; the first is refused first.
fn diff_of(
    alloc: Global,
    first: Result<Sequence<Row>, Refusal>,
    second: Result<Sequence<Row>, Refusal>,
) -> Result<Answered, NoMemory>
    ensures { IfOk result (λ answered. answered ≡ f.diff_of first second) }
{
    match first {
        Err(refusal) => Ok(Answered::Refused(refusal)),
        Ok(rows) => match second {
            Err(refusal) => Ok(Answered::Refused(refusal)),
            Ok(others) => diff_rows(alloc, rows.as_slice(), others.as_slice()),
        },
    }
}

/// The difference of the answers to the questions of two sides.
fn sides_answer(
    alloc: Global,
    dump: &Dump,
    mixed: bool,
    first: &Side,
    second: &Side,
    query: ValidQuery<'_>,
    kept: &mut KeptAnnotations,
) -> Result<Answered, NoMemory>
    requires rules { IsDump (dump_view dump.now) }
    requires first_statement { side_has_statements (side_view first.now) ≡ true }
    requires first_change { side_is_valid (side_view first.now) ≡ true }
    requires second_statement { side_has_statements (side_view second.now) ≡ true }
    requires second_change { side_is_valid (side_view second.now) ≡ true }
    requires made { mixed ≡ true → unmade_refusal (dump_view dump.now) ≡ None }
    requires kept { AreKept dump.now kept.old }
    ensures kept { AreKept dump.now kept.new }
    ensures answered { IfOk result (λ answered. answered ≡ f.sides_of
        (d.side_answer (f.history_of mixed (dump_view dump.now))
        (what_if_answer (dump_view dump.now).entries))
        (side_view first.now) (side_view second.now) (query_view query.entry.read.now)) }
{
    let first = rows_in(alloc, side_answer(alloc, dump, mixed, first, query, kept)?);
    let second = rows_in(alloc, side_answer(alloc, dump, mixed, second, query, kept)?);
    diff_of(alloc, first, second)
}

/// The difference between the rows of a query over two sides: each row as often as it is more often in one of them. Refused as the question
/// of the first side is, then as that of the second; then for more than [`MAX_ANSWER_ROWS`](gp_base::MAX_ANSWER_ROWS) lines (E27). Where one
/// side is of the history and the other of a changed one, what refuses either whatever the rows are comes first, and then the rows of the
/// dump that are not those that its log makes; the side of the history is asked of the dump that the log makes. Running out of memory is the only error.
pub fn diff_answer(
    alloc: Global,
    dump: &Dump,
    first: &Side,
    second: &Side,
    query: ValidQuery<'_>,
    kept: &mut KeptAnnotations,
) -> Result<Answered, NoMemory>
    requires rules { IsDump (dump_view dump.now) }
    requires first_statement { side_has_statements (side_view first.now) ≡ true }
    requires first_change { side_is_valid (side_view first.now) ≡ true }
    requires second_statement { side_has_statements (side_view second.now) ≡ true }
    requires second_change { side_is_valid (side_view second.now) ≡ true }
    requires kept { AreKept dump.now kept.old }
    ensures kept { AreKept dump.now kept.new }
    ensures answered { IfOk result (λ answered. answered ≡ d.diff_answer
        (f.history_of (d.are_mixed (side_view first.now) (side_view second.now)) (dump_view dump.now))
        (what_if_answer (dump_view dump.now).entries) (unmade_refusal (dump_view dump.now)) (dump_view dump.now).entries
        (side_view first.now) (side_view second.now) (query_view query.entry.read.now)) }
{
    match mixed_refusal(alloc, dump, first, second, query.read, &mut kept.is_made)? {
        Some(refusal) => Ok(Answered::Refused(refusal)),
        None => {
            sides_answer(
                alloc,
                dump,
                are_mixed(first, second),
                first,
                second,
                query,
                kept,
            )
        }
    }
}
