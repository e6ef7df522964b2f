//! Queries over past states without the rows of some tokens.

ghost use Rattle.std.specs.Prelude.{◌≡◌, map, true, IfOk};
ghost use Rattle.gp_algebra.specs.Fitting.{select_fits};
ghost use Rattle.gp_algebra.specs.Views.{select_view};
ghost use Rattle.gp_dump.specs.Views.{dump_view};
ghost use Rattle.gp_grammar.specs.Syntax as y;
ghost use Rattle.gp_history.specs.Values.{HasFewItems};
ghost use Rattle.gp_kexec.specs.Rows.{pair_view};
ghost use Rattle.gp_log.specs.LogFacts.{tables_in};
ghost use Rattle.gp_syntax.specs.Views.{query_view, rule_view, point_view};
ghost use Rattle.gp_ask.specs.Computed.{computed_answer};
ghost use Rattle.gp_ask.specs.AskingForms.{dump_remaining};
ghost use Rattle.gp_ask.specs.Counted.{counted_answer};
ghost use Rattle.gp_ask.specs.Keeping.{MayBeKeptBy, elements_by};
ghost use Rattle.gp_ask.specs.Operations.{count};
ghost use Rattle.gp_ask.specs.Values.{rule_of};

use crate::answered::Answered;
use crate::keeping::{KeptValues, rows_with_values};
use crate::queries::asked;
use crate::rules::left_out;
use crate::valid::ValidQuery;
use gp_algebra::Select;
use gp_base::{NoMemory, Refusal, Sequence, Stop};
use gp_dump::Dump;
use gp_kexec::{KRow, RemainStop, remaining};
use gp_semiring::Count;
use gp_syntax::{Point, Rule};
use std::alloc::Global;

/// The rows, each as often as it is counted, or E27 if there are too many.
fn counted_rows(alloc: Global, rows: Vec<KRow<Count>>) -> Result<Answered, NoMemory>
    ensures { IfOk result (λ answered. answered ≡ counted_answer (map pair_view rows.items)) }
{
    match remaining(alloc, rows) {
        Ok(rows) => Ok(Answered::Rows(Sequence::from_vec(rows))),
        Err(RemainStop::TooMany) => Ok(Answered::Refused(Refusal::E27)),
        Err(RemainStop::NoMemory) => Err(NoMemory),
    }
}

/// The rows of a checked query that remain, or the refusal of its annotation, of its run or of its answer. Rows are counted, and the
/// tokens that a pattern fits count 0: a row counts how many of its occurrences have no such token.
fn selected_remaining(
    alloc: Global,
    dump: &Dump,
    rules: &[Rule],
    state: Point,
    select: &Select,
    slot: &mut Option<KeptValues<Count>>,
) -> Result<Answered, NoMemory>
    requires fits { select_fits (tables_in (dump_view dump.now).entries) (select_view select.now)
        ≡ true }
    requires few { HasFewItems (select_view select.now) }
    requires kept { MayBeKeptBy (elements_by count) dump.now slot.old }
    ensures kept { MayBeKeptBy (elements_by count) dump.now slot.new }
    ensures answered { IfOk result (λ answered. answered
        ≡ dump_remaining (map rule_of (map rule_view rules.now)) (dump_view dump.now)
        (point_view state) (select_view select.now)) }
{
    let patterns = left_out(alloc, rules)?;
    match rows_with_values::<Count>(alloc, dump, state, select, patterns, slot) {
        Ok(rows) => counted_rows(alloc, rows),
        Err(Stop::Refused(refusal)) => Ok(Answered::Refused(refusal)),
        Err(Stop::NoMemory) => Err(NoMemory),
    }
}

/// The rows of a query over a state without the rows that have a token which a pattern fits, in row order. E20 to E23 if the log has no
/// such state, then the check of the query, then E24 to E26 as for provenance, then E27 if there are too many distinct rows before any is
/// left out, or too many rows that remain.
pub fn remaining_answer(
    alloc: Global,
    dump: &Dump,
    rules: &[Rule],
    state: Point,
    query: ValidQuery<'_>,
    slot: &mut Option<KeptValues<Count>>,
) -> Result<Answered, NoMemory>
    requires kept { MayBeKeptBy (elements_by count) dump.now slot.old }
    ensures kept { MayBeKeptBy (elements_by count) dump.now slot.new }
    ensures answered { IfOk result (λ answered. answered ≡ computed_answer (dump_view dump.now) (y.ask
        (y.of_state (y.without (map rule_view rules.now)) (point_view state))
        (query_view query.entry.read.now))) }
{
    match asked(alloc, &dump.log, state, query.read) {
        Ok(select) => selected_remaining(alloc, dump, rules, state, &select, slot),
        Err(Stop::Refused(refusal)) => Ok(Answered::Refused(refusal)),
        Err(Stop::NoMemory) => Err(NoMemory),
    }
}
