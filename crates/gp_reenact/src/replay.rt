//! Programs of states, run over past versions.

ghost use Rattle.std.specs.Prelude.{◌≡◌, true, false, Contains, None};
ghost use Rattle.gp_base.specs.Annotated.{unannotated};
ghost use Rattle.gp_syntax.specs.Views.{point_view};
ghost use Rattle.gp_algebra.specs.Statements.{width_of};
ghost use Rattle.gp_algebra.specs.PlainViews.{program_view};
ghost use Rattle.gp_algebra.specs.declared.plain.ScanAt.{ScanAt};
ghost use Rattle.gp_algebra.specs.QueryViews.{annotated_program_view};
ghost use Rattle.gp_algebra.specs.Scans.{program_scans};
ghost use Rattle.gp_algebra.specs.Views.{select_view};
ghost use Rattle.gp_algebra.specs.WellBuilt.{is_well_built};
ghost use Rattle.gp_compose.specs.Composing.{QueryFits};
ghost use Rattle.gp_log.specs.Contents.{HasPoint, entries, tables};
ghost use Rattle.gp_log.specs.Parameters.{parameters};
ghost use Rattle.gp_log.specs.LogFitting.{SpansFit};
ghost use Rattle.gp_machine.specs.Questions as m;
ghost use Rattle.gp_machine.specs.Questions.{rows_answer};
ghost use Rattle.gp_merge.specs.Merging.{merged};
ghost use Rattle.gp_prov.specs.ToPlain as to;
ghost use Rattle.gp_reenact.specs.Encoding.{encoded};
ghost use Rattle.gp_reenact.specs.Travel.{past_environment};
ghost use Rattle.gp_reenact.specs.Backends.{GivesOver, GivesOverIfSome, ReenactsBy};
ghost use Rattle.gp_reenact.specs.Reenacting as r;
ghost use Rattle.gp_reenact.specs.Reenacting.{Plans, Reenacts, spans_of};
ghost use Rattle.gp_reenact.specs.Programs.{merged_at};

use crate::env::env_at;
use crate::past::past_rows;
use gp_algebra::{AProgram, PProgram, ScanAt, Select, scans};
use gp_base::{Refusal, Row, Stop};
use gp_compose::{check_state, program};
use gp_exec::{Backend, ExecStop, Plain};
use gp_log::Log;
use gp_merge::merge;
use gp_prov::to_plain;
use gp_syntax::Point;
use gp_versions::VersionTable;
use std::alloc::Global;

/// The refusal of a state that the log does not have: E20 if no transaction has the number, E21 if it did not commit, E22 if it has
/// no such statement, E23 if there is no such version.
pub fn log_refusal(log: &Log, state: Point) -> Option<Refusal>
    ensures { result ≡ m.log_refusal (entries log.now) (point_view state) }
{
    match check_state(log, state) {
        Ok(()) => None,
        Err(refusal) => Some(refusal),
    }
}

/// The rows of a program over past versions, as the backend gives them over copies of the rows of these scans.
fn rows_in_env<B: Backend>(
    alloc: Global,
    versions: &[VersionTable],
    asked: &[ScanAt],
    program: &PProgram,
    backend: &B,
) -> Result<Vec<Row>, ExecStop>
    requires built { is_well_built (program_view program.now) ≡ true }
    requires asked { (scan : ScanAt) → Contains (program_scans (program_view program.now)) scan
        → Contains asked.now scan }
    ensures { GivesOver (λ found. found.items) (B.gives backend.now) result
        (program_view program.now) (encoded (past_environment unannotated versions.now)) }
{
    let env = env_at(alloc, versions, asked)?;
    backend.run(alloc, program, &env)
}

/// The rows of a program over past versions, as the backend gives them over rows where they lie. None if it does not run the
/// program so, or the program scans more than one table or version.
fn rows_lying<B: Backend>(
    alloc: Global,
    versions: &[VersionTable],
    asked: &[ScanAt],
    program: &PProgram,
    backend: &B,
) -> Result<Option<Vec<Row>>, ExecStop>
    requires { is_well_built (program_view program.now) ≡ true }
    ensures { GivesOverIfSome (λ found. found.items) (B.gives backend.now) result
        (program_view program.now) (encoded (past_environment unannotated versions.now)) }
{
    let [at] = asked else {
        return Ok(None);
    };
    let rows = past_rows(alloc, versions, *at)?;
    backend.run_past(alloc, program, *at, &rows)
}

/// The rows of a program over past versions, as the backend gives them.
pub(crate) fn rows_over<B: Backend>(
    alloc: Global,
    versions: &[VersionTable],
    program: &PProgram,
    backend: &B,
) -> Result<Vec<Row>, ExecStop>
    requires { is_well_built (program_view program.now) ≡ true }
    ensures { GivesOver (λ found. found.items) (B.gives backend.now) result
        (program_view program.now) (encoded (past_environment unannotated versions.now)) }
{
    let asked = scans(alloc, program)?;
    match rows_lying(alloc, versions, &asked, program, backend) {
        Ok(Some(rows)) => Ok(rows),
        Ok(None) => rows_in_env(alloc, versions, &asked, program, backend),
        Err(stop) => Err(stop),
    }
}

/// The transaction of a state that the log has, or 0 for a version.
pub fn transaction_at(log: &Log, state: Point) -> u32
    requires { HasPoint log.now (point_view state) }
    ensures { result ≡ r.transaction_at (point_view state) }
{
    log.bounds();
    match state {
        Point::AsOf { .. } => 0,
        Point::After { t, .. } | Point::Commit { t } => t as u32,
    }
}

/// The refusal of a state of this transaction whose program stops.
pub fn stopped(t: u32, stop: ExecStop) -> Stop
    ensures { result ≡ r.stopped t stop }
{
    match stop {
        ExecStop::Rows { j } => Stop::Refused(Refusal::E25 { t, k: j }),
        ExecStop::Ancestry { j } => Stop::Refused(Refusal::E26 { t, k: j }),
        ExecStop::Answer => Stop::Refused(Refusal::E27),
        ExecStop::NoMemory => Stop::NoMemory,
    }
}

/// An annotated program as a plain one, merged.
pub(crate) fn merged_program(
    alloc: Global,
    log: &Log,
    program: &AProgram,
    with_prov: bool,
) -> Result<PProgram, Stop>
    requires { is_well_built (to.plain_program (width_of (tables log.now)) with_prov
        (annotated_program_view program.now)) ≡ true }
    ensures { Plans program_view result None (merged (to.plain_program
        (width_of (tables log.now)) with_prov (annotated_program_view program.now))) }
{
    let plain = to_plain(alloc, program, log.catalog(), with_prov)?;
    Ok(merge(alloc, &plain)?)
}

/// The merged program of a query over a state. With provenance, its rows end in their monomials. The log and the query have been
/// checked. Refused as [`log_refusal`] refuses the state.
pub fn planned(
    alloc: Global,
    log: &Log,
    state: Point,
    select: &Select,
    with_prov: bool,
) -> Result<PProgram, Stop>
    requires { QueryFits log.now (select_view select.now) }
    ensures { Plans program_view result (m.log_refusal (entries log.now) (point_view state))
        (merged_at with_prov (entries log.now) (point_view state) (select_view select.now)) }
{
    // What may fail borrows the program, which has many parts: each way out that owns it lets them all go.
    match program(alloc, log, state, select) {
        Ok(program) => merged_program(alloc, log, &program, with_prov),
        Err(Stop::Refused(refusal)) => Err(Stop::Refused(refusal)),
        Err(Stop::NoMemory) => Err(Stop::NoMemory),
    }
}

/// What a backend gives for a query over a state. The state is refused as [`log_refusal`] refuses it; else its program is merged, and
/// the backend runs it over the rows of the past versions that it scans. The backend's answer alone decides: its rows, or the
/// refusal of its stop.
pub fn reenact_by<B: Backend>(
    alloc: Global,
    log: &Log,
    versions: &[VersionTable],
    state: Point,
    select: &Select,
    backend: &B,
) -> Result<Vec<Row>, Stop>
    requires { QueryFits log.now (select_view select.now) }
    ensures { ReenactsBy (λ rows. rows.items) (B.gives backend.now) result
        (m.log_refusal (entries log.now) (point_view state)) (r.transaction_at (point_view state))
        (merged_at false (entries log.now) (point_view state) (select_view select.now))
        (encoded (past_environment unannotated versions.now)) }
{
    let plain = planned(alloc, log, state, select, false)?;
    match rows_over(alloc, versions, &plain, backend) {
        Ok(rows) => Ok(rows),
        Err(stop) => Err(stopped(transaction_at(log, state), stop)),
    }
}

/// The rows of a query over a state, in no particular order: a version, what a transaction saw after one of its statements, or
/// what its commit published. The log and the row versions have been checked against the tables of the log, and so has the query.
///
/// Refused as [`log_refusal`] refuses the state; else if a statement of the transaction leaves more rows in its table than a
/// statement may (E25) or makes an identity of too many nodes (E26), by the first such statement, and in one statement the rows
/// first; else if the answer has more than [`MAX_ANSWER_ROWS`](gp_base::MAX_ANSWER_ROWS) rows (E27).
pub fn reenact(
    alloc: Global,
    log: &Log,
    versions: &[VersionTable],
    state: Point,
    select: &Select,
) -> Result<Vec<Row>, Stop>
    requires query { QueryFits log.now (select_view select.now) }
    requires spans { SpansFit (tables log.now) (spans_of versions.now) }
    ensures { Reenacts (λ rows. rows.items) result
        (rows_answer parameters (entries log.now) (spans_of versions.now)
        (point_view state) (select_view select.now)) }
{
    reenact_by(alloc, log, versions, state, select, &Plain)
}
