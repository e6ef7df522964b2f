//! The text of the program of a state.

ghost use Rattle.std.specs.Prelude.{None, false, IfOk};
ghost use Rattle.gp_grammar.specs.Syntax as y;
ghost use Rattle.gp_syntax.specs.Views.{point_view};
ghost use Rattle.gp_algebra.specs.PlainViews.{program_view};
ghost use Rattle.gp_algebra.specs.Views.{select_view};
ghost use Rattle.gp_compose.specs.Composing.{QueryFits};
ghost use Rattle.gp_compose.specs.Seen.{saw_refusal};
ghost use Rattle.gp_log.specs.Contents.{entries, tables};
ghost use Rattle.gp_machine.specs.Questions.{log_refusal};
ghost use Rattle.gp_reenact.specs.Programs.{merged_at};
ghost use Rattle.gp_explain.specs.Explained.{Explains};
ghost use Rattle.gp_explain.specs.Explaining.{ExplainsBy};
ghost use Rattle.gp_explain.specs.Shapes.{IsShaped};

use crate::names::tables_are_named;
use crate::numbers::program_in_range;
use gp_algebra::{PProgram, Select};
use gp_base::Stop;
use gp_log::Log;
use gp_plantext::write;
use gp_reenact::{planned, planned_saw};
use gp_syntax::Point;
use std::alloc::Global;

/// The text of a program over the tables of a log.
fn written(alloc: Global, log: &Log, program: &PProgram) -> Result<Vec<u8>, Stop>
    requires { IsShaped (tables log.now) (program_view program.now) }
    ensures { ExplainsBy (λ text. text.items) result None
        (tables log.now) (program_view program.now) }
{
    let catalog = log.catalog();
    tables_are_named(catalog);
    program_in_range(program);
    Ok(write(alloc, program, catalog)?)
}

/// The text of the program that gives a query over a state: a version, what a transaction saw after one of its statements, or what
/// its commit published. With provenance, its rows end in their monomials. The log and the query have been checked. A state that the
/// log does not have is refused, as [`log_refusal`](gp_reenact::log_refusal) says; no limit on rows or identities is reached, since
/// nothing is run.
pub fn explain(
    alloc: Global,
    log: &Log,
    state: Point,
    select: &Select,
    with_prov: bool,
) -> Result<Vec<u8>, Stop>
    requires { QueryFits log.now (select_view select.now) }
    ensures text { ExplainsBy (λ text. text.items) result
        (log_refusal (entries log.now) (point_view state)) (tables log.now)
        (merged_at with_prov (entries log.now) (point_view state) (select_view select.now)) }
    ensures meaning { IfOk result (λ text. Explains (entries log.now)
        (point_view state) (select_view select.now) with_prov text.items) }
{
    let program = planned(alloc, log, state, select, with_prov)?;
    written(alloc, log, &program)
}

/// The text of the program that gives a query over what a transaction saw after its first statements, this many, whatever became of it.
/// The log and the query have been checked. A transaction or a statement that the log does not have is refused, as
/// [`saw_refusal`](gp_reenact::saw_refusal) says; no limit is reached, since nothing is run.
pub fn explain_saw(
    alloc: Global,
    log: &Log,
    t: u64,
    k: u64,
    select: &Select,
) -> Result<Vec<u8>, Stop>
    requires { QueryFits log.now (select_view select.now) }
    ensures text { ExplainsBy (λ text. text.items) result (saw_refusal t k (entries log.now))
        (tables log.now) (merged_at false (entries log.now) (y.after t k) (select_view select.now)) }
    ensures meaning { IfOk result (λ text. Explains (entries log.now) (y.after t k)
        (select_view select.now) false text.items) }
{
    let program = planned_saw(alloc, log, t, k, select)?;
    written(alloc, log, &program)
}
