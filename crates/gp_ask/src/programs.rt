//! The programs that queries over past states are.

ghost use Rattle.std.specs.Prelude.{◌≡◌, [], None, false, true, IfOk};
ghost use Rattle.gp_algebra.specs.Fitting.{select_fits};
ghost use Rattle.gp_algebra.specs.Views.{select_view};
ghost use Rattle.gp_check.specs.Valid.{tables_are_valid};
ghost use Rattle.gp_dump.specs.Views.{dump_view};
ghost use Rattle.gp_explain.specs.Explained.{Explains};
ghost use Rattle.gp_grammar.specs.Syntax as y;
ghost use Rattle.gp_log.specs.Contents.{HasPoint, StatementsFit, entries, tables};
ghost use Rattle.gp_syntax.specs.Views.{query_view, point_view};
ghost use Rattle.gp_ask.specs.declared.answered.Answered.TheVariants.{Program};
ghost use Rattle.gp_ask.specs.Computed.{computed_answer};
ghost use Rattle.gp_ask.specs.Printed.{ask_to};
ghost use Rattle.gp_ask.specs.AskingForms.{dump_program};
ghost use Rattle.gp_ask.specs.ExplainedTexts.{ExplainsQuestion};
ghost use Rattle.gp_ask.specs.Programs.{explained_text, program_lines};
ghost use Rattle.gp_ask.specs.Replays.{dump_in};
ghost use Rattle.gp_ask.specs.Seeing.{seen_refusal};

use crate::answered::Answered;
use crate::queries::asked;
use crate::seeing::seen;
use crate::valid::ValidQuery;
use gp_algebra::Select;
use gp_base::{NoMemory, Stop};
use gp_dump::Dump;
use gp_explain::{explain, explain_saw, explained_lines};
use gp_log::Log;
use gp_syntax::Point;
use std::alloc::Global;

/// The lines of the program of a checked query over a state that the log has.
fn selected_program(
    alloc: Global,
    log: &Log,
    prov: bool,
    state: Point,
    select: &Select,
) -> Result<Answered, NoMemory>
    requires statements { StatementsFit log.now }
    requires known { HasPoint log.now (point_view state) }
    requires fits { select_fits (tables log.now) (select_view select.now) ≡ true }
    ensures answered { IfOk result (λ answered. answered
        ≡ dump_program (dump_in (entries log.now) []) prov (point_view state)
        (select_view select.now)) }
    ensures explained { IfOk result (λ answered. Explains (entries log.now)
        (point_view state) (select_view select.now) prov (explained_text
        (entries log.now) prov (point_view state) (select_view select.now))) }
{
    match explain(alloc, log, state, select, prov) {
        Ok(text) => Ok(Answered::Program(explained_lines(alloc, &text)?)),
        Err(Stop::Refused(_)) => unreachable!(),
        Err(Stop::NoMemory) => Err(NoMemory),
    }
}

/// The lines of the program of a query over a state, which with provenance gives each row its monomial too. E20 to E23 if the log has no
/// such state, then the check of the query. Nothing is run, so no limit stops it.
pub fn program_answer(
    alloc: Global,
    log: &Log,
    prov: bool,
    state: Point,
    query: ValidQuery<'_>,
) -> Result<Answered, NoMemory>
    requires statements { StatementsFit log.now }
    requires valid { tables_are_valid (tables log.now) ≡ true }
    ensures answered { IfOk result
        (λ answered. answered ≡ ask_to (dump_in (entries log.now) []) (y.explain prov)
        (point_view state) (query_view query.entry.read.now)) }
    ensures explained { IfOk result (λ answered. ExplainsQuestion (entries log.now)
        (y.ask (y.of_state (y.explain prov) (point_view state))
        (query_view query.entry.read.now))) }
{
    match asked(alloc, log, state, query.read) {
        Ok(select) => selected_program(alloc, log, prov, state, &select),
        Err(Stop::Refused(refusal)) => Ok(Answered::Refused(refusal)),
        Err(Stop::NoMemory) => Err(NoMemory),
    }
}

/// The lines of the program of a checked query over what a transaction saw.
fn selected_saw_program(
    alloc: Global,
    log: &Log,
    t: u64,
    k: u64,
    select: &Select,
) -> Result<Answered, NoMemory>
    requires statements { StatementsFit log.now }
    requires known { seen_refusal t k (entries log.now) ≡ None }
    requires fits { select_fits (tables log.now) (select_view select.now) ≡ true }
    ensures answered { IfOk result (λ answered. answered ≡ Program
        (program_lines (entries log.now) false (y.after t k) (select_view select.now))) }
    ensures explained { IfOk result (λ answered. Explains (entries log.now) (y.after t k)
        (select_view select.now) false
        (explained_text (entries log.now) false (y.after t k) (select_view select.now))) }
{
    match explain_saw(alloc, log, t, k, select) {
        Ok(text) => Ok(Answered::Program(explained_lines(alloc, &text)?)),
        Err(Stop::Refused(_)) => unreachable!(),
        Err(Stop::NoMemory) => Err(NoMemory),
    }
}

/// The lines of the program of a query over what a transaction saw after its first statements, this many, whatever became of it. E20 and
/// E22 as for SAW, then the check of the query. Nothing is run, so no limit stops it.
pub fn saw_program_answer(
    alloc: Global,
    dump: &Dump,
    t: u64,
    k: u64,
    query: ValidQuery<'_>,
) -> Result<Answered, NoMemory>
    ensures answered { IfOk result (λ answered. answered ≡ computed_answer (dump_view dump.now)
        (y.explain_saw t k (query_view query.entry.read.now))) }
    ensures explained { IfOk result (λ answered. ExplainsQuestion (dump_view dump.now).entries
        (y.explain_saw t k (query_view query.entry.read.now))) }
{
    match seen(alloc, &dump.log, t, k, query.read) {
        Ok(select) => selected_saw_program(alloc, &dump.log, t, k, &select),
        Err(Stop::Refused(refusal)) => Ok(Answered::Refused(refusal)),
        Err(Stop::NoMemory) => Err(NoMemory),
    }
}
