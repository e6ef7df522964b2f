//! Queries over past states, with provenance.

ghost use Rattle.std.specs.Prelude.{◌≡◌, true, IfOk};
ghost use Rattle.gp_algebra.specs.Fitting.{select_fits};
ghost use Rattle.gp_algebra.specs.Statements.{width_of};
ghost use Rattle.gp_algebra.specs.PlainViews.{program_view};
ghost use Rattle.gp_algebra.specs.Views.{select_view};
ghost use Rattle.gp_algebra.specs.WellBuilt.{is_well_built};
ghost use Rattle.gp_base.specs.Annotated.{monomials};
ghost use Rattle.gp_compose.specs.Composing.{QueryFits, program_in};
ghost use Rattle.gp_log.specs.Contents.{HasPoint, tables};
ghost use Rattle.gp_prov.specs.Encoding.{encoded};
ghost use Rattle.gp_prov.specs.ToPlain as to;
ghost use Rattle.gp_reenact.specs.Reenacting.{RunsOver, spans_of};
ghost use Rattle.gp_syntax.specs.Views.{point_view};
ghost use Rattle.gp_history.specs.Provenance.{Proves};
ghost use Rattle.gp_history.specs.SpanAnnotations.{versions_with};
ghost use Rattle.gp_history.specs.Histories as h;

use crate::annotated::Annotated;
use crate::asking::needed_version;
use crate::kept::{Kept, annotated_to};
use crate::monomials::{Monomials, env};
use gp_algebra::{PProgram, Select, programs_read_their_scans, scans};
use gp_base::{Monomial, NoMemory, Row, Stop};
use gp_compose::program;
use gp_exec::{ExecStop, run};
use gp_log::Log;
use gp_merge::{merge, merged_programs_are_normal, merged_programs_mean_the_same};
use gp_prov::to_plain;
use gp_reenact::{log_refusal, stopped, transaction_at};
use gp_syntax::Point;
use gp_versions::VersionTable;
use std::alloc::Global;
use std::mem;

/// The program of a query over a state, with columns for provenance.
fn planned(alloc: Global, log: &Log, state: Point, select: &Select) -> Result<PProgram, NoMemory>
    requires query { QueryFits log.now (select_view select.now) }
    requires known { HasPoint log.now (point_view state) }
    ensures { IfOk result (λ plain. program_view plain ≡ to.plain_program
        (width_of (tables log.now)) true
        (program_in log.now (point_view state) (select_view select.now))) }
{
    match program(alloc, log, state, select) {
        Ok(program) => to_plain(alloc, &program, log.catalog(), true),
        Err(Stop::NoMemory) => Err(NoMemory),
        Err(Stop::Refused(_)) => unreachable!(),
    }
}

/// The rows of a program over annotated versions.
fn rows_over(
    alloc: Global,
    versions: &[VersionTable],
    known: &Annotated<Monomial>,
    program: &PProgram,
) -> Result<Vec<Row>, ExecStop>
    requires { is_well_built (program_view program.now) ≡ true }
    ensures { RunsOver (λ found. found.items) result
        (encoded true (versions_with (spans_of versions.now) known.now))
        (program_view program.now) }
{
    programs_read_their_scans();
    merged_programs_mean_the_same();
    merged_programs_are_normal();
    let merged = merge(alloc, program)?;
    let asked = scans(alloc, &merged)?;
    let env = env(alloc, versions, known, &asked)?;
    run(alloc, &merged, &env)
}

/// The rows of a query over a state with their monomials, in no particular order: a monomial stands behind the cells of each row. The
/// annotations that earlier questions about this log and these row versions have left are used, if there are any, and it leaves those that
/// it has, unless it stops on the way to them. Refused as [`log_refusal`] refuses the state; else as `annotate_on` stops (E24 to E26), for
/// the versions up to the one that the state needs; else if a statement of the transaction passes a limit (E25, E26); else if the answer has
/// more than [`MAX_ANSWER_ROWS`](gp_base::MAX_ANSWER_ROWS) rows (E27).
pub fn provenance_from(
    alloc: Global,
    log: &Log,
    versions: &[VersionTable],
    state: Point,
    select: &Select,
    kept: &mut Option<Kept<Monomial>>,
) -> Result<Vec<Row>, Stop>
    requires sound { h.IsSound log.now versions.now }
    requires fits { select_fits (tables log.now) (select_view select.now) ≡ true }
    requires kept { h.MayBeKept monomials log.now versions.now kept.old }
    ensures kept { h.MayBeKept monomials log.now versions.now kept.new }
    ensures answer { Proves (λ rows. rows.items) result (h.provenance_answer log.now versions.now
        (point_view state) (select_view select.now)) }
{
    if let Some(refusal) = log_refusal(log, state) {
        return Err(Stop::Refused(refusal));
    }
    kept_provenance(alloc, log, versions, state, select, kept)
}

/// [`provenance_from`] of a state that the log has.
fn kept_provenance(
    alloc: Global,
    log: &Log,
    versions: &[VersionTable],
    state: Point,
    select: &Select,
    kept: &mut Option<Kept<Monomial>>,
) -> Result<Vec<Row>, Stop>
    requires sound { h.IsSound log.now versions.now }
    requires fits { select_fits (tables log.now) (select_view select.now) ≡ true }
    requires known { HasPoint log.now (point_view state) }
    requires kept { h.MayBeKept monomials log.now versions.now kept.old }
    ensures kept { h.MayBeKept monomials log.now versions.now kept.new }
    ensures answer { Proves (λ rows. rows.items) result (h.provenance_answer log.now versions.now
        (point_view state) (select_view select.now)) }
{
    let old = mem::replace(kept, None);
    let known = match annotated_to(
        alloc,
        &Monomials,
        log,
        versions,
        old,
        needed_version(log, state),
    ) {
        Ok(known) => known,
        Err(stop) => return Err(stop),
    };
    let answer = known_provenance(alloc, log, versions, &known, state, select);
    *kept = Some(known);
    answer
}

/// The rows of a query over a state that the log has, over annotated versions.
fn known_provenance(
    alloc: Global,
    log: &Log,
    versions: &[VersionTable],
    known: &Kept<Monomial>,
    state: Point,
    select: &Select,
) -> Result<Vec<Row>, Stop>
    requires sound { h.IsSound log.now versions.now }
    requires fits { select_fits (tables log.now) (select_view select.now) ≡ true }
    requires known { HasPoint log.now (point_view state) }
    requires reaches { h.Reaches monomials log.now versions.now
        (h.needed_version log.now (point_view state)) known.now }
    ensures { Proves (λ rows. rows.items) result (h.provenance_answer log.now versions.now
        (point_view state) (select_view select.now)) }
{
    let plain = planned(alloc, log, state, select)?;
    match rows_over(alloc, versions, &known.annotated, &plain) {
        Ok(rows) => Ok(rows),
        Err(stop) => Err(stopped(transaction_at(log, state), stop)),
    }
}
