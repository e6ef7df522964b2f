//! Queries over past states, with values in a semiring.

ghost use Rattle.std.specs.Prelude.{◌≡◌, ◌≤◌, true, map, IfOk};
ghost use Rattle.gp_algebra.specs.Fitting.{select_fits};
ghost use Rattle.gp_algebra.specs.Statements.{width_of};
ghost use Rattle.gp_algebra.specs.QueryViews.{annotated_program_view};
ghost use Rattle.gp_algebra.specs.Views.{select_view};
ghost use Rattle.gp_base.specs.Annotated.{monomials};
ghost use Rattle.gp_compose.specs.Composing.{QueryFits, program_in};
ghost use Rattle.gp_kexec.specs.Rows.{pair_view};
ghost use Rattle.gp_kexec.specs.Running.{IsSomeProgram};
ghost use Rattle.gp_kexec.specs.Valuing.{values_in};
ghost use Rattle.gp_log.specs.Contents.{HasPoint, commits, tables};
ghost use Rattle.gp_reenact.specs.Reenacting.{spans_of};
ghost use Rattle.gp_syntax.specs.Views.{point_view};
ghost use Rattle.gp_semiring.specs.Values.{token_value};
ghost use Rattle.gp_history.specs.Provenance.{AnnotatesOr};
ghost use Rattle.gp_history.specs.Running.{SumsOver};
ghost use Rattle.gp_history.specs.SpanAnnotations.{versions_with};
ghost use Rattle.gp_history.specs.Values.{Gives, HasFewItems};
ghost use Rattle.gp_history.specs.Histories as h;

use crate::annotated::Annotated;
use crate::asking::needed_version;
use crate::elements::k_env;
use crate::kept::{Kept, annotated_to};
use crate::value_laws::values_are_sums_over_the_history;
use gp_algebra::{AProgram, Select, scans_of};
use gp_base::{NoMemory, Stop};
use gp_compose::program;
use gp_exec::ExecStop;
use gp_kexec::{KRow, run_k};
use gp_log::Log;
use gp_reenact::{log_refusal, stopped, transaction_at};
use gp_semiring::{Answers, Semiring, Valuation};
use gp_syntax::Point;
use gp_versions::VersionTable;
use std::alloc::Global;
use std::mem;

/// The values of the versions up to this one, from those that are kept. It stops as monomials do.
fn valued_to<K: Semiring, F: Answers<K>>(
    alloc: Global,
    log: &Log,
    versions: &[VersionTable],
    kept: Option<Kept<K>>,
    v: u32,
    valuation: &Valuation<K, F>,
) -> Result<Kept<K>, Stop>
    requires sound { h.IsSound log.now versions.now }
    requires within { v ≤ commits log.now }
    requires kept { h.MayBeKept (values_in K.Semiring valuation.now) log.now versions.now kept }
    ensures { AnnotatesOr (h.Reaches (values_in K.Semiring valuation.now) log.now versions.now v)
        result (h.annotation_stop monomials log.now versions.now v) }
{
    annotated_to(alloc, valuation, log, versions, kept, v)
}

/// The program of a query over a state.
fn planned(alloc: Global, log: &Log, state: Point, select: &Select) -> Result<AProgram, NoMemory>
    requires query { QueryFits log.now (select_view select.now) }
    requires known { HasPoint log.now (point_view state) }
    ensures { IfOk result (λ program. annotated_program_view program
        ≡ program_in log.now (point_view state) (select_view select.now)) }
{
    match program(alloc, log, state, select) {
        Ok(program) => Ok(program),
        Err(Stop::NoMemory) => Err(NoMemory),
        Err(Stop::Refused(_)) => unreachable!(),
    }
}

/// The sums of the rows of a program over versions with values.
fn sums_over<K: Semiring, F: Answers<K>>(
    alloc: Global,
    versions: &[VersionTable],
    known: &Annotated<K>,
    program: &AProgram,
    valuation: &Valuation<K, F>,
) -> Result<Vec<KRow<K>>, ExecStop>
    requires { IsSomeProgram (annotated_program_view program.now) }
    ensures { SumsOver (values_in K.Semiring valuation.now) K.plus_of
        (λ rows. map pair_view rows.items) result (versions_with (spans_of versions.now) known.now)
        (annotated_program_view program.now) }
{
    let asked = scans_of(alloc, program)?;
    let env = k_env(alloc, versions, known, &asked)?;
    run_k(alloc, program, &env, valuation)
}

/// The distinct rows of a query over a state in row order, each with its value in the semiring: the sum, over its occurrences, of
/// the values of their monomials. No monomial is listed: the versions are annotated with elements of the semiring, and the query
/// adds and multiplies elements. The elements that earlier questions about this log and these row versions have left under this
/// valuation are used, if there are any, and it leaves those that it has, unless it stops on the way to them. Refused as
/// [`provenance_from`](crate::provenance_from) is, but that only distinct rows are counted: E27 if there are more than
/// [`MAX_ANSWER_ROWS`](gp_base::MAX_ANSWER_ROWS) of them.
pub fn values_from<K: Semiring, F: Answers<K>>(
    alloc: Global,
    log: &Log,
    versions: &[VersionTable],
    state: Point,
    select: &Select,
    valuation: &Valuation<K, F>,
    kept: &mut Option<Kept<K>>,
) -> Result<Vec<KRow<K>>, Stop>
    requires sound { h.IsSound log.now versions.now }
    requires fits { select_fits (tables log.now) (select_view select.now) ≡ true }
    requires few { HasFewItems (select_view select.now) }
    requires kept { h.MayBeKept (values_in K.Semiring valuation.now) log.now versions.now kept.old }
    ensures kept { h.MayBeKept (values_in K.Semiring valuation.now) log.now versions.now kept.new }
    ensures answer { Gives (λ rows. map pair_view rows.items) result
        (h.value_answer K.plus_of K.zero_of K.one_of K.times_of
        (token_value K.one_of K.number_of K.itself_of valuation.now) log.now versions.now
        (point_view state) (select_view select.now)) }
{
    if let Some(refusal) = log_refusal(log, state) {
        return Err(Stop::Refused(refusal));
    }
    kept_values(alloc, log, versions, state, select, valuation, kept)
}

/// [`values_from`] of a state that the log has.
fn kept_values<K: Semiring, F: Answers<K>>(
    alloc: Global,
    log: &Log,
    versions: &[VersionTable],
    state: Point,
    select: &Select,
    valuation: &Valuation<K, F>,
    kept: &mut Option<Kept<K>>,
) -> Result<Vec<KRow<K>>, Stop>
    requires sound { h.IsSound log.now versions.now }
    requires fits { select_fits (tables log.now) (select_view select.now) ≡ true }
    requires few { HasFewItems (select_view select.now) }
    requires known { HasPoint log.now (point_view state) }
    requires kept { h.MayBeKept (values_in K.Semiring valuation.now) log.now versions.now kept.old }
    ensures kept { h.MayBeKept (values_in K.Semiring valuation.now) log.now versions.now kept.new }
    ensures answer { Gives (λ rows. map pair_view rows.items) result
        (h.value_answer K.plus_of K.zero_of K.one_of K.times_of
        (token_value K.one_of K.number_of K.itself_of valuation.now) log.now versions.now
        (point_view state) (select_view select.now)) }
{
    let old = mem::replace(kept, None);
    let known = match valued_to(
        alloc,
        log,
        versions,
        old,
        needed_version(log, state),
        valuation,
    ) {
        Ok(known) => known,
        Err(stop) => return Err(stop),
    };
    let answer = known_values(alloc, log, versions, &known, state, select, valuation);
    *kept = Some(known);
    answer
}

/// The sums over a state that the log has, over versions with values.
fn known_values<K: Semiring, F: Answers<K>>(
    alloc: Global,
    log: &Log,
    versions: &[VersionTable],
    known: &Kept<K>,
    state: Point,
    select: &Select,
    valuation: &Valuation<K, F>,
) -> Result<Vec<KRow<K>>, Stop>
    requires sound { h.IsSound log.now versions.now }
    requires fits { select_fits (tables log.now) (select_view select.now) ≡ true }
    requires few { HasFewItems (select_view select.now) }
    requires known { HasPoint log.now (point_view state) }
    requires reaches { h.Reaches (values_in K.Semiring valuation.now) log.now versions.now
        (h.needed_version log.now (point_view state)) known.now }
    ensures { Gives (λ rows. map pair_view rows.items) result
        (h.value_answer K.plus_of K.zero_of K.one_of K.times_of
        (token_value K.one_of K.number_of K.itself_of valuation.now) log.now versions.now
        (point_view state) (select_view select.now)) }
{
    values_are_sums_over_the_history::<K>();
    log.bounds();
    let program = planned(alloc, log, state, select)?;
    match sums_over(alloc, versions, &known.annotated, &program, valuation) {
        Ok(rows) => Ok(rows),
        Err(stop) => Err(stopped(transaction_at(log, state), stop)),
    }
}
